//! Policies and hashes.
use crate::same::same;
use board_concepts::arc_sync_policy::{ArcSyncPolicy, MutexProtected, SingleThreaded};
use board_concepts::hash::{Hash, HashValue, Recommended, Sha1};
use board_names::ArcSyncPolicyCreationError;
use std::alloc::Global;
use std::process::Abort;
use std::sync::Wait;
use std::test::Fail;

// One more than the value, as the policy and one more owner of it show it.
fn one_more<W: Wait, P: ArcSyncPolicy<u32> + Drop>(
    rt: &W,
    alloc: Global,
) -> Result<(u32, u32), ArcSyncPolicyCreationError> {
    let policy = P::new(alloc, 7)?;
    let owner = policy.share()?;
    let one = policy.with(rt, |value: &u32| value.wrapping_add(1));
    let other = owner.with(rt, |value: &u32| value.wrapping_add(1));
    Ok((one, other))
}

#[test]
fn policies_show_their_value(rt: HostRuntime) -> Result<(), Fail> {
    let locked = one_more::<HostRuntime, MutexProtected<u32>>(&rt, rt.alloc())?;
    same(&rt, &locked, &(8, 8));
    let single = one_more::<HostRuntime, SingleThreaded<u32>>(&rt, rt.alloc())?;
    same(&rt, &single, &(8, 8));
    Ok(())
}

// A hash, through its trait.
fn hashed<H: Hash + Drop>(bytes: &[u8]) -> HashValue {
    let hash = H::new(bytes);
    hash.value()
}

#[test]
fn abc_is_hashed_as_the_standard_says(rt: HostRuntime) {
    let wanted = b"a9993e364706816aba3e25717850c26c9cd0d89d";
    let value = hashed::<Sha1>(b"abc");
    same(&rt, &value.as_base64url().as_bytes(), &wanted.as_slice());
    assert!(rt; hashed::<Recommended>(b"abc") == value);
    assert!(rt; hashed::<Recommended>(b"abd") != value);
}
