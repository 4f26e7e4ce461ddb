//! Values that must be the same.
use std::fmt::Debug;
use std::process::Abort;

/// Fails with both values where they differ, and tells of which script they are.
///
/// Tests call it in the place of `assert_eq!`, which is proved anew wherever it stands.
pub(crate) fn same<T: PartialEq + Debug>(rt: &impl Abort, found: &T, wanted: &T, name: &str) {
    assert_eq!(rt; *found, *wanted, "{name}");
}
