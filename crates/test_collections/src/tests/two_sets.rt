//! The intersection, the differences and the union of two sets.
ghost use Rattle.std.specs.Iterator.{IsFinite};

use super::iterating::MOST_BUCKETS;
use super::sets::{Set, fill_set};
use super::{check_same, std_sets};
use bucket_table::script::ScriptHash;
use collections::hash_set::HashSet;
use std::alloc::{AllocError, Global};
use std::fmt::Debug;
use std::ops::Range;
use std::process::Abort;
use std::test::Fail;
use test_helpers::steps;

/// Ranges of keys, in order.
pub(super) type Ranges = &'static [Range<u64>];

/// The keys of two sets, and those that four iterators yield.
pub(super) struct Row {
    pub(super) one: Ranges,
    pub(super) other: Ranges,
    pub(super) union: Ranges,
    pub(super) intersection: Ranges,
    pub(super) difference: Ranges,
    pub(super) symmetric_difference: Ranges,
}

/// A call on two sets, or on the first alone.
#[derive(Clone, Copy, Debug)]
pub(super) enum Call {
    ForEach,
    Union,
    Intersection,
    Difference,
    SymmetricDifference,
}

// A set of the keys 0 to 31 and 128 to 158 grows when its last key is inserted.
const ROWS: &[Row] = steps! {
    Row { one: &[], other: &[], union: &[], intersection: &[], difference: &[],
        symmetric_difference: &[] },
    Row { one: &[1..3], other: &[], union: &[1..3], intersection: &[], difference: &[1..3],
        symmetric_difference: &[1..3] },
    Row { one: &[], other: &[1..3], union: &[1..3], intersection: &[], difference: &[],
        symmetric_difference: &[1..3] },
    Row { one: &[1..2, 3..4], other: &[3..4, 5..6], union: &[1..2, 3..4, 5..6],
        intersection: &[3..4], difference: &[1..2], symmetric_difference: &[1..2, 5..6] },
    Row { one: &[1..4], other: &[2..5], union: &[1..5], intersection: &[2..4],
        difference: &[1..2], symmetric_difference: &[1..2, 4..5] },
    Row { one: &[4..9], other: &[4..9], union: &[4..9], intersection: &[4..9],
        difference: &[], symmetric_difference: &[] },
    Row { one: &[4..9], other: &[0..20], union: &[0..20], intersection: &[4..9],
        difference: &[], symmetric_difference: &[0..4, 9..20] },
    Row { one: &[128..159, 0..32], other: &[16..48, 140..170],
        union: &[0..48, 128..170], intersection: &[16..32, 140..159],
        difference: &[0..16, 128..140],
        symmetric_difference: &[0..16, 32..48, 128..140, 159..170] }
};

#[test]
fn two_sets_are_joined_and_parted(rt: HostRuntime) -> Result<(), Fail> {
    check_rows(&rt, rt.alloc(), ROWS);
    check_rows(&rt, rt.alloc(), std_sets::ROWS);
    Ok(())
}

// What each call returns for the sets of each row.
fn check_rows(rt: &impl Abort, alloc: Global, rows: &[Row]) {
    for (number, row) in rows.iter().enumerate() {
        let one = set_of(alloc, ScriptHash::Spread, row.one);
        let other = set_of(alloc, ScriptHash::Id, row.other);
        check_row(rt, alloc, &one, &other, row, number);
    }
}

fn check_row(rt: &impl Abort, alloc: Global, one: &Set, other: &Set, row: &Row, number: usize) {
    for (call, ranges) in calls(row) {
        let found = handed_over(alloc, one, other, call);
        check_listed(rt, alloc, found, ranges, (number, call));
        let found = collected(alloc, one, other, call);
        check_listed(rt, alloc, found, ranges, (number, call, "collected"));
        let found = joined(alloc, one, other, call);
        check_listed(rt, alloc, found, ranges, (number, call, "operator"));
    }
    check_same(
        rt,
        bucket_by_bucket(alloc, one),
        Some(called_with(alloc, one)),
        (number, "buckets"),
    );
}

// The calls, and the keys that each is to return.
fn calls(row: &Row) -> [(Call, Ranges); 4] {
    [
        (Call::Union, row.union),
        (Call::Intersection, row.intersection),
        (Call::Difference, row.difference),
        (Call::SymmetricDifference, row.symmetric_difference),
    ]
}

// Keys are those of ranges, in some order.
pub(super) fn check_listed<R: Debug + Drop>(
    rt: &impl Abort,
    alloc: Global,
    mut keys: Vec<u64>,
    ranges: &[Range<u64>],
    row: R,
) {
    let are_sorted = keys.sort().is_ok();
    check_same(rt, (are_sorted, keys), (true, listed(alloc, ranges)), row);
}

// A set of keys.
pub(super) fn set_of(alloc: Global, hasher: ScriptHash, ranges: Ranges) -> Set {
    let mut set = HashSet::with_hasher(alloc, hasher);
    for keys in ranges {
        let _ = fill_set(&mut set, keys);
    }
    set
}

// The keys that a call returns.
pub(super) fn handed_over(alloc: Global, one: &Set, other: &Set, call: Call) -> Vec<u64> {
    match call {
        Call::ForEach => called_with(alloc, one),
        Call::Union => given(alloc, one.union(other)),
        Call::Intersection => given(alloc, one.intersection(other)),
        Call::Difference => given(alloc, one.difference(other)),
        Call::SymmetricDifference => given(alloc, one.symmetric_difference(other)),
    }
}

// The keys of a new set that has those of a call: none if allocation fails.
fn collected(alloc: Global, one: &Set, other: &Set, call: Call) -> Vec<u64> {
    match call {
        Call::ForEach => remade(alloc, one.iter()),
        Call::Union => remade(alloc, one.union(other)),
        Call::Intersection => remade(alloc, one.intersection(other)),
        Call::Difference => remade(alloc, one.difference(other)),
        Call::SymmetricDifference => remade(alloc, one.symmetric_difference(other)),
    }
}

// The keys of a new set of those that an iterator yields: none if allocation fails.
fn remade<'a, I: Iterator<Item = &'a u64>>(alloc: Global, keys: I) -> Vec<u64>
    requires can { (state : I) → I.can_next state }
    requires finite { IsFinite (I.remaining keys) }
{
    let made: Result<HashSet<u64>, AllocError> = keys.copied().collect(alloc);
    match made {
        Ok(set) => given(alloc, set.iter()),
        Err(_) => Vec::new(alloc),
    }
}

// The keys of a new set that an operator makes: none if allocation fails.
fn joined(alloc: Global, one: &Set, other: &Set, call: Call) -> Vec<u64> {
    let made = match call {
        Call::ForEach => one.try_clone(alloc),
        Call::Union => one | other,
        Call::Intersection => one & other,
        Call::Difference => one - other,
        Call::SymmetricDifference => one ^ other,
    };
    match made {
        Ok(set) => given(alloc, set.iter()),
        Err(_) => Vec::new(alloc),
    }
}

// The keys that a function is called with.
fn called_with(alloc: Global, set: &Set) -> Vec<u64> {
    let mut keys = Vec::new(alloc);
    set.for_each_ref(&mut |key: &u64| put(&mut keys, Some(key)));
    keys
}

// The keys that it is called with for one bucket after the other; none if the buckets don't end.
fn bucket_by_bucket(alloc: Global, set: &Set) -> Option<Vec<u64>> {
    let mut keys = Vec::new(alloc);
    for bucket in 0..MOST_BUCKETS {
        if !set.for_each_in(bucket, &mut |key: &u64| put(&mut keys, Some(key))) {
            return Some(keys);
        }
    }
    None
}

// The keys that an iterator yields: two by `next`, the rest in a loop, and what another `next`
// returns after its end.
fn given<'a, I: Iterator<Item = &'a u64>>(alloc: Global, mut left: I) -> Vec<u64>
    requires can { (state : I) → I.can_next state }
    requires finite { IsFinite (I.remaining left) }
{
    let mut keys = Vec::new(alloc);
    put(&mut keys, left.next());
    put(&mut keys, left.next());
    for key in &mut left {
        put(&mut keys, Some(key));
    }
    put(&mut keys, left.next());
    keys
}

fn put(keys: &mut Vec<u64>, key: Option<&u64>) {
    if let Some(key) = key {
        let _ = keys.push(*key);
    }
}

// The keys of ranges.
fn listed(alloc: Global, ranges: &[Range<u64>]) -> Vec<u64> {
    let mut keys = Vec::new(alloc);
    for range in ranges {
        for key in range.start..range.end {
            let _ = keys.push(key);
        }
    }
    keys
}
