//! Attributes.
use board_concepts::{AttributeSet, AttributeSpecifier, AttributeVerifier};
use board_names::AttributeError;
use std::alloc::Global;
use std::test::Fail;

const KEYS: [&str; 8] = ["a", "b", "c", "d", "e", "f", "g", "h"];

// Eight pairs of different keys.
fn eight(alloc: Global) -> Result<AttributeSpecifier, AttributeError> {
    let mut specifier = AttributeSpecifier::new(alloc);
    for key in KEYS {
        specifier = specifier.define(key, "1")?;
    }
    Ok(specifier)
}

#[test]
fn requirements_are_met_or_not(rt: HostRuntime) -> Result<(), Fail> {
    let set = eight(rt.alloc())?.into_set();
    let verifier = AttributeVerifier::new(rt.alloc())
        .require("h", "1")?
        .require_key("a")?;
    assert!(rt; verifier.verify_requirements(&set));
    assert!(rt; !verifier.verify_requirements(&AttributeSet::new(rt.alloc())));
    Ok(())
}
