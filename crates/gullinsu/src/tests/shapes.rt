//! Words of contracts, by the front alone.
ghost use Rattle.std.specs.Prelude.{IfOk};
ghost use Rattle.gullinsu.specs.Entries.{HaveShapes};

use crate::tables::NewEntry;
use std::alloc::Global;
use std::test::*;

// A number under the key 1, and four numbers under 2.
fn two_entries(alloc: Global) -> Result<Vec<NewEntry>, Fail>
    ensures { IfOk result (λ v. HaveShapes v.items) }
{
    let first = NewEntry::of(alloc, &1u64, &7u64)?;
    let second = NewEntry::of(alloc, &2u64, &[5u64, 6, 7, 8])?;
    Ok(vec![in alloc; first, second]?)
}

#[test]
fn entries_of_a_caller_have_shapes(rt: HostRuntime) -> Result<(), Fail> {
    assert_eq!(rt; two_entries(rt.alloc())?.len(), 2);
    Ok(())
}
