//! Tests of what no clause states: that calls succeed if allocation does, that collections grow and
//! shrink, and what their iterators yield; and what the tests of the standard library's maps and
//! sets and of the crate `lru` check. Tests of keys and values of other types are in `test_keys`.
mod cache_changes;
mod cache_stories;
mod caches;
mod copies;
mod draining;
mod entries;
mod equality;
mod extending;
mod extracting;
mod hints;
mod indexes;
mod iterating;
mod lru_caches;
mod map_stories;
mod maps;
mod printing;
mod sets;
mod std_entries;
mod std_maps;
mod std_sets;
mod two_maps;
mod two_sets;

use std::fmt::Debug;
use std::process::Abort;

// Checks that two values are equal. The row helps to find the failing step.
fn check_same<T: PartialEq + Debug + Drop, R: Debug + Drop>(
    rt: &impl Abort,
    found: T,
    wanted: T,
    row: R,
) {
    assert_eq!(rt; found, wanted, "row {row:?}");
}

// The pair of a key that has a value.
fn pair_with(key: u64, value: Option<u64>) -> Option<(u64, u64)> {
    match value {
        Some(held) => Some((key, held)),
        None => None,
    }
}
