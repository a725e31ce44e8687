//! Tests of what no clause states, with keys and values of many types: keys looked up in another
//! form and made of it, hashers that differ, keys in the order of another collection's slots,
//! values that are dropped once, and calls that other libraries have.
mod borrowed_keys;
mod cache_drops;
mod drops;
mod emptied;
mod entries_by_text;
mod forms;
mod hashers;
mod in_order;
mod made_keys;
mod marks;
mod std_calls;
mod std_shapes;
mod tags;
mod words;

use std::fmt::Debug;
use std::process::Abort;

// Checks that two values are equal. The row helps to find the failing step.
fn check_same<T: PartialEq + Debug + Drop, R: Debug + Drop>(
    rt: &impl Abort,
    found: T,
    wanted: T,
    row: R,
) {
    assert_eq!(rt; found, wanted, "row {row:?}");
}
