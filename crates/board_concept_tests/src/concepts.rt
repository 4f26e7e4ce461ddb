//! Each concept stands in a module of its own.
use crate::same::same;
use board_concepts::communication_channel::{self, CommunicationChannel};
use board_concepts::monitoring::{self, Monitoring};
use board_concepts::static_storage::{self, StaticStorage};
use std::test::Fail;

#[test]
fn each_concept_has_its_suffix(rt: HostRuntime) -> Result<(), Fail> {
    let suffixes = [
        (monitoring::Local::default_suffix(), b".monitor".as_slice()),
        (
            communication_channel::Local::default_suffix(),
            b".com".as_slice(),
        ),
        (
            static_storage::Local::default_suffix(),
            b".static_storage".as_slice(),
        ),
    ];
    for (suffix, wanted) in suffixes {
        same(&rt, &suffix.as_bytes(), &wanted);
    }
    Ok(())
}
