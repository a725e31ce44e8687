//! The check that all tests share.
use std::fmt::Debug;
use std::process::Abort;

/// Checks that two values are equal. The row helps to find the failing step.
pub(crate) fn check_same<T: PartialEq + Debug + Drop, R: Debug + Drop>(
    rt: &impl Abort,
    found: T,
    wanted: T,
    row: R,
) {
    assert_eq!(rt; found, wanted, "row {row:?}");
}
