//! How many items an iterator reports to be left: at the start, after a step, and at its end. And
//! the room that an extension makes by its iterator's hint.
use super::check_same;
use super::maps::map_of;
use super::two_sets::{Ranges, set_of};
use bucket_table::script::ScriptHash;
use collections::hash_map::HashMap;
use collections::hash_set::HashSet;
use std::alloc::{AllocError, Global};
use std::process::Abort;
use std::test::Fail;
use test_helpers::steps;

/// The least and the greatest number of items that are left.
type Hint = (usize, Option<usize>);

/// At the start, after a step, and at the end.
type Hints = (Hint, Hint, Hint);

/// The keys of a collection, each its own value, and how many they are.
struct Row {
    name: &'static str,
    hasher: ScriptHash,
    keys: Ranges,
    len: usize,
}

// The keys 0 to 30 and 128 to 158 are in one array; when key 31 is inserted, a second one is made.
// Under the hash 0 all keys are in one bucket, and those past the first 32 in its chain.
const ROWS: &[Row] = steps! {
    Row { name: "empty", hasher: ScriptHash::Spread, keys: &[], len: 0 },
    Row { name: "one", hasher: ScriptHash::Spread, keys: &[5..6], len: 1 },
    Row { name: "two arrays", hasher: ScriptHash::Spread, keys: &[0..31, 128..159, 31..32],
        len: 63 },
    Row { name: "a chain", hasher: ScriptHash::Zero, keys: &[0..100], len: 100 }
};

// The hints of an iterator.
macro_rules! hints {
    ($left:expr) => {{
        let mut left = $left;
        let start = left.size_hint();
        let _first = left.next();
        let stepped = left.size_hint();
        let _last = left.nth(usize::MAX);
        (start, stepped, left.size_hint())
    }};
}

// The hint of exactly this many items.
fn exactly(items: usize) -> Hint {
    (items, Some(items))
}

// The hints of an iterator that counts its items, of which there are this many.
fn counted(items: usize) -> Hints {
    (exactly(items), exactly(items.saturating_sub(1)), exactly(0))
}

// The hints of an iterator that tries this many items, and returns some of them, or all.
fn tried(items: usize, are_all_returned: bool) -> Hints {
    let left = if are_all_returned {
        items.saturating_sub(1)
    } else {
        0
    };
    ((0, Some(items)), (0, Some(left)), (0, Some(0)))
}

#[test]
fn iterators_over_a_map_count_what_is_left(rt: HostRuntime) -> Result<(), Fail> {
    for row in ROWS {
        let map = map_of(rt.alloc(), row.hasher, row.keys);
        let wanted = counted(row.len);
        check_same(&rt, hints!(map.iter()), wanted, (row.name, "iter"));
        check_same(&rt, hints!(map.keys()), wanted, (row.name, "keys"));
        check_same(&rt, hints!(map.values()), wanted, (row.name, "values"));
    }
    Ok(())
}

#[test]
fn iterators_by_value_count_what_is_left(rt: HostRuntime) -> Result<(), Fail> {
    for row in ROWS {
        let wanted = counted(row.len);
        let mut drained = map_of(rt.alloc(), row.hasher, row.keys);
        check_same(&rt, hints!(drained.drain()), wanted, (row.name, "drain"));
        check_same(
            &rt,
            hints!(drained.drain()),
            counted(0),
            (row.name, "again"),
        );
        let pairs = map_of(rt.alloc(), row.hasher, row.keys).into_iter();
        check_same(&rt, hints!(pairs), wanted, (row.name, "into_iter"));
        let keys = map_of(rt.alloc(), row.hasher, row.keys).into_keys();
        check_same(&rt, hints!(keys), wanted, (row.name, "into_keys"));
        let values = map_of(rt.alloc(), row.hasher, row.keys).into_values();
        check_same(&rt, hints!(values), wanted, (row.name, "into_values"));
    }
    Ok(())
}

#[test]
fn iterators_over_a_set_count_what_is_left(rt: HostRuntime) -> Result<(), Fail> {
    for row in ROWS {
        let mut set = set_of(rt.alloc(), row.hasher, row.keys);
        let wanted = counted(row.len);
        check_same(&rt, hints!(set.iter()), wanted, (row.name, "iter"));
        check_same(&rt, hints!(set.drain()), wanted, (row.name, "drain"));
        let keys = set_of(rt.alloc(), row.hasher, row.keys).into_iter();
        check_same(&rt, hints!(keys), wanted, (row.name, "into_iter"));
    }
    Ok(())
}

// Whether each pair is picked, or none. A step tries one pair, or all.
const PICKS: [bool; 2] = [true, false];

#[test]
fn an_extraction_bounds_what_is_left_to_try(rt: HostRuntime) -> Result<(), Fail> {
    for row in ROWS {
        for picks in PICKS {
            let mut map = map_of(rt.alloc(), row.hasher, row.keys);
            let wanted = tried(row.len, picks);
            let found = hints!(map.extract_if(move |_key: &u64, _value: &mut u64| picks));
            check_same(&rt, found, wanted, (row.name, "map", picks));
            let mut set = set_of(rt.alloc(), row.hasher, row.keys);
            let found = hints!(set.extract_if(move |_key: &u64| picks));
            check_same(&rt, found, wanted, (row.name, "set", picks));
        }
    }
    Ok(())
}

/// The keys of two sets, how many they are, and whether they are the same; else none is in both.
struct Pair {
    one: Ranges,
    other: Ranges,
    lens: (usize, usize),
    are_same: bool,
}

const PAIRS: &[Pair] = steps! {
    Pair { one: &[], other: &[], lens: (0, 0), are_same: true },
    Pair { one: &[1..6], other: &[1..6], lens: (5, 5), are_same: true },
    Pair { one: &[1..6], other: &[], lens: (5, 0), are_same: false },
    Pair { one: &[], other: &[1..6], lens: (0, 5), are_same: false },
    Pair { one: &[1..6], other: &[6..9], lens: (5, 3), are_same: false },
    Pair { one: &[0..31, 128..159, 31..32], other: &[200..240], lens: (63, 40),
        are_same: false }
};

// A union begins with the first set's keys; each other iterator looks its keys up, in turn, and a
// step goes on to the first that it returns.
#[test]
fn iterators_over_two_sets_bound_what_is_left(rt: HostRuntime) -> Result<(), Fail> {
    for (row, pair) in PAIRS.iter().enumerate() {
        let one = set_of(rt.alloc(), ScriptHash::Spread, pair.one);
        let other = set_of(rt.alloc(), ScriptHash::Spread, pair.other);
        let (own, others) = pair.lens;
        let found = hints!(one.intersection(&other));
        check_same(&rt, found, tried(own, pair.are_same), (row, "intersection"));
        let found = hints!(one.difference(&other));
        check_same(&rt, found, tried(own, !pair.are_same), (row, "difference"));
        let both = own.saturating_add(others);
        let found = hints!(one.symmetric_difference(&other));
        check_same(&rt, found, tried(both, !pair.are_same), (row, "symmetric"));
        let (start, stepped, end) = hints!(one.union(&other));
        check_same(&rt, start, (own, Some(both)), (row, "union"));
        let left = both.saturating_sub(1);
        let wanted = (own.saturating_sub(1), Some(left));
        check_same(&rt, stepped, wanted, (row, "union, a step"));
        check_same(&rt, end, exactly(0), (row, "union, the end"));
    }
    Ok(())
}

// How many pairs come to an empty map and to an empty set, and how many slots these have then: the
// pairs take no more than 13 of 16 slots.
const INTO_EMPTY: [(usize, usize); 4] = [(0, 0), (52, 64), (53, 128), (104, 128)];

#[test]
fn an_empty_collection_makes_room_for_all_that_come(rt: HostRuntime) -> Result<(), Fail> {
    for (coming, slots) in INTO_EMPTY {
        let found = extend_by_one(rt.alloc(), 0, coming);
        check_same(&rt, found, Ok((slots, slots)), coming);
    }
    Ok(())
}

// How many pairs, all under one key, come to a map that has 60 pairs in 128 slots, and as keys to a
// set that has 60: room is made for half of them, rounded up, so that 104 pairs fit.
const INTO_SIXTY: [(usize, usize); 4] = [(0, 128), (60, 128), (88, 128), (89, 256)];

#[test]
fn a_collection_makes_room_for_half_of_what_comes(rt: HostRuntime) -> Result<(), Fail> {
    for (coming, slots) in INTO_SIXTY {
        let found = extend_by_one(rt.alloc(), 60, coming);
        check_same(&rt, found, Ok((slots, slots)), coming);
    }
    Ok(())
}

// Extends a map and a set with this many keys by one of them, this many times. Returns how many
// slots they have then.
fn extend_by_one(alloc: Global, keys: u64, coming: usize) -> Result<(usize, usize), AllocError> {
    let mut map = HashMap::with_capacity(alloc, keys as usize);
    let mut set = HashSet::with_capacity(alloc, keys as usize);
    for key in 0..keys {
        map.upsert(key, key)?;
        let _ = set.insert(key)?;
    }
    let mut pairs = Vec::new(alloc);
    let mut others = Vec::new(alloc);
    for _ in 0..coming {
        pairs.push((0u64, 0u64))?;
        others.push(0u64)?;
    }
    map.extend(pairs)?;
    set.extend(others)?;
    Ok((map.capacity(), set.capacity()))
}
