//! Pairs of an iterator that are inserted into a map, and their keys into a set, before and after a
//! growth. And a map and a set that are made of them.
use super::check_same;
use super::maps::Map;
use super::sets::Set;
use Step::*;
use bucket_table::script::ScriptHash;
use collections::hash_map::HashMap;
use collections::hash_set::HashSet;
use std::alloc::Global;
use std::ops::Range;
use std::process::Abort;
use std::test::Fail;
use test_helpers::{At, steps};

/// An insertion into a map and a set, or an expectation.
enum Step {
    /// Insert these pairs.
    ExtendBy(&'static [(u64, u64)]),
    /// Insert keys, each as its own value.
    ExtendByRange(Range<u64>),
    /// Expect a key to have this value.
    ExpectValue(u64, Option<u64>),
    /// Expect this many pairs and slots.
    ExpectCounts(usize, usize),
}

// 64 slots have room for 52 pairs. Calls that bring one or four pairs reserve room for one or two.
const STEPS: &[Step] = steps! {
    ExtendBy(&[]), ExpectCounts(0, 0), ExtendBy(&[(1, 10)]), ExpectCounts(1, 64),
    ExpectValue(1, Some(10)), ExpectValue(2, None), ExtendBy(&[(2, 20), (1, 11), (3, 30), (1, 12)]),
    ExpectCounts(3, 64), ExpectValue(1, Some(12)), ExpectValue(2, Some(20)),
    ExpectValue(3, Some(30)), ExtendBy(&[]), ExpectCounts(3, 64), ExtendByRange(0..31),
    ExpectCounts(31, 64), ExpectValue(1, Some(1)), ExpectValue(30, Some(30)),
    ExtendByRange(128..159), ExpectCounts(62, 64), ExtendBy(&[(31, 310)]), ExpectCounts(63, 128),
    ExpectValue(31, Some(310)), ExpectValue(0, Some(0)), ExpectValue(158, Some(158)),
    ExtendBy(&[(130, 1), (7, 70), (7, 71)]), ExpectValue(130, Some(1)), ExpectValue(7, Some(71)),
    ExtendByRange(192..200), ExpectCounts(71, 128), ExpectValue(199, Some(199)),
    ExpectValue(200, None), ExpectValue(6, Some(6))
};

// What test_from_iter of the standard library's map checks.
const COLLECTED: &[Step] = steps! {
    ExtendBy(&[(1, 1), (2, 2), (2, 2), (3, 3), (4, 4), (5, 5), (6, 6)]), ExpectCounts(6, 64),
    ExpectValue(1, Some(1)), ExpectValue(2, Some(2)), ExpectValue(3, Some(3)),
    ExpectValue(4, Some(4)), ExpectValue(5, Some(5)), ExpectValue(6, Some(6))
};

// What test_extend_ref of the standard library's map checks.
const EXTENDED: &[Step] = steps! {
    ExtendBy(&[(1, 10)]), ExtendBy(&[(2, 20), (3, 30)]), ExpectCounts(3, 64),
    ExpectValue(1, Some(10)), ExpectValue(2, Some(20)), ExpectValue(3, Some(30))
};

#[test]
fn pairs_come_to_a_map_and_keys_to_a_set(rt: HostRuntime) -> Result<(), Fail> {
    play(&rt, rt.alloc(), STEPS);
    play(&rt, rt.alloc(), COLLECTED);
    play(&rt, rt.alloc(), EXTENDED);
    Ok(())
}

// Takes steps on a new map and a new set.
fn play(rt: &impl Abort, alloc: Global, steps: &[Step]) {
    let mut map: Map = HashMap::with_hasher(alloc, ScriptHash::Spread);
    let mut set: Set = HashSet::with_hasher(alloc, ScriptHash::Spread);
    for (row, step) in steps.iter().enumerate() {
        take(rt, &mut map, &mut set, ("both", row), step);
    }
}

// Takes a step, and checks its result.
fn take(rt: &impl Abort, map: &mut Map, set: &mut Set, at: At, step: &Step) {
    match step {
        ExtendBy(pairs) => check_same(rt, extend_by(map, set, pairs), (true, true), at),
        ExtendByRange(keys) => {
            check_same(rt, extend_by_range(map, set, keys), (true, true), at);
        }
        ExpectValue(key, value) => {
            let found = (map.get(key).copied(), set.contains(key));
            check_same(rt, found, (*value, value.is_some()), at);
        }
        ExpectCounts(pairs, slots) => {
            let found = (map.len(), map.capacity(), set.len(), set.capacity());
            check_same(rt, found, (*pairs, *slots, *pairs, *slots), at);
        }
    }
}

// Inserts pairs into a map, and their keys into a set. Returns whether all were inserted.
fn extend_by(map: &mut Map, set: &mut Set, pairs: &[(u64, u64)]) -> (bool, bool) {
    let mut keys = pairs.iter().map(key_of);
    let is_in = map.try_extend(&mut pairs.iter().copied()).is_ok();
    (is_in, set.try_extend(&mut keys).is_ok())
}

fn key_of(pair: &(u64, u64)) -> u64 {
    pair.0
}

// Inserts keys into a map, each as its own value, and into a set. Returns whether all were
// inserted.
fn extend_by_range(map: &mut Map, set: &mut Set, keys: &Range<u64>) -> (bool, bool) {
    let (from, to) = (keys.start, keys.end);
    let is_in = map.try_extend(&mut (from..to).zip(from..to)).is_ok();
    (is_in, set.try_extend(&mut (from..to)).is_ok())
}

#[test]
fn a_map_and_a_set_are_made_of_pairs_and_keys(rt: HostRuntime) -> Result<(), Fail> {
    let counts = HashMap::from_array(rt.alloc(), [(5u64, 50u64), (3, 30), (5, 51)])?;
    check_map(&rt, &counts, &[(5, Some(51)), (3, Some(30))], 2);
    let keys = HashSet::from_array(rt.alloc(), [5u64, 3, 5])?;
    check_set(&rt, &keys, &[(5, true), (4, false), (3, true)], 2);
    Ok(())
}

#[test]
fn a_map_and_a_set_are_collected(rt: HostRuntime) -> Result<(), Fail> {
    let counts: HashMap<u64, u64> = (0..100).zip(100..200).collect(rt.alloc())?;
    check_map(&rt, &counts, &[(99, Some(199)), (100, None)], 100);
    let keys: HashSet<u64> = (7..9u64).collect(rt.alloc())?;
    check_set(&rt, &keys, &[(7, true), (8, true), (9, false)], 2);
    Ok(())
}

// The values that keys have in a map, and how many there are.
fn check_map(
    rt: &impl Abort,
    map: &HashMap<u64, u64>,
    wanted: &[(u64, Option<u64>)],
    pairs: usize,
) {
    for (key, value) in wanted {
        check_same(
            rt,
            (map.get(key).copied(), map.len()),
            (*value, pairs),
            *key,
        );
    }
}

// Whether keys are in a set, and how many there are.
fn check_set(rt: &impl Abort, set: &HashSet<u64>, wanted: &[(u64, bool)], keys: usize) {
    for (key, there) in wanted {
        check_same(rt, (set.contains(key), set.len()), (*there, keys), *key);
    }
}
