//! What the standard library's tests of its map check: the same calls on this map, with the same
//! answers. A comment names the test.
use super::check_same;
use super::maps::Expect::*;
use super::maps::Step::*;
use super::maps::Write::*;
use super::maps::{Map, Story};
use bucket_table::script::ScriptHash;
use collections::hash_map::HashMap;
use std::process::Abort;
use std::test::Fail;
use test_helpers::steps;

pub(super) const STORIES: &[Story] = steps! {
    // test_create_capacity_zero
    Story { name: "a map of capacity 0 takes a pair", hasher: ScriptHash::Id,
        minimum: 0, steps: steps! {
            Upsert(1, 1, None), Expect(Value(1, Some(1))), Expect(Value(0, None)) } },
    // test_insert
    Story { name: "pairs are counted as inserted", hasher: ScriptHash::Id, minimum: 0,
        steps: steps! {
            Expect(Len(0)), Upsert(1, 2, None), Expect(Len(1)), Upsert(2, 4, None), Expect(Len(2)),
            Expect(Value(1, Some(2))), Expect(Value(2, Some(4))) } },
    // test_empty_remove, test_empty_iter
    Story { name: "an empty map returns nothing", hasher: ScriptHash::Id, minimum: 0,
        steps: steps! { Remove(0, None), Expect(Len(0)) } },
    // test_find_mut
    Story { name: "the value of one key is written", hasher: ScriptHash::Id, minimum: 0,
        steps: steps! {
            Upsert(1, 12, None), Upsert(2, 8, None), Upsert(5, 14, None),
            Write(ByGetMut(5, 100, Some(14))), Expect(Value(5, Some(100))) } },
    // test_insert_overwrite
    Story { name: "a second value overwrites the first", hasher: ScriptHash::Id, minimum: 0,
        steps: steps! {
            Upsert(1, 2, None), Expect(Value(1, Some(2))), Upsert(1, 3, Some(2)),
            Expect(Value(1, Some(3))) } },
    // test_insert_conflicts
    Story { name: "colliding keys keep their values", hasher: ScriptHash::Zero, minimum: 4,
        steps: steps! {
            Upsert(1, 2, None), Upsert(5, 3, None), Upsert(9, 4, None), Expect(Value(9, Some(4))),
            Expect(Value(5, Some(3))), Expect(Value(1, Some(2))) } },
    // test_conflict_remove
    Story { name: "removing a key keeps colliding ones", hasher: ScriptHash::Zero, minimum: 4,
        steps: steps! {
            Upsert(1, 2, None), Expect(Value(1, Some(2))), Upsert(5, 3, None),
            Expect(Value(1, Some(2))), Expect(Value(5, Some(3))), Upsert(9, 4, None),
            Expect(Value(1, Some(2))), Expect(Value(5, Some(3))), Expect(Value(9, Some(4))),
            Remove(1, Some((1, 2))), Expect(Value(9, Some(4))), Expect(Value(5, Some(3))) } },
    // test_is_empty
    Story { name: "a map is empty after a removal", hasher: ScriptHash::Id, minimum: 4,
        steps: steps! {
            Upsert(1, 2, None), Expect(Len(1)), Remove(1, Some((1, 2))), Expect(Len(0)) } },
    // test_remove, test_remove_entry
    Story { name: "a pair is removed once", hasher: ScriptHash::Id, minimum: 0, steps: steps! {
        Upsert(1, 2, None), Remove(1, Some((1, 2))), Remove(1, None) } },
    // test_iterate
    Story { name: "each of 32 pairs is visited once", hasher: ScriptHash::Id, minimum: 4,
        steps: steps! { InsertMultiples(0..32, 2), Expect(Len(32)), Expect(Value(31, Some(62))) } },
    // test_keys, test_values
    Story { name: "each of three pairs is visited once", hasher: ScriptHash::Id, minimum: 0,
        steps: steps! { Insert(1, 97), Insert(2, 98), Insert(3, 99), Expect(Len(3)) } },
    // test_find
    Story { name: "a key is found once it is inserted", hasher: ScriptHash::Id, minimum: 0,
        steps: steps! { Expect(Value(1, None)), Upsert(1, 2, None), Expect(Value(1, Some(2))) } },
    // test_retain
    Story { name: "even keys are retained with their values", hasher: ScriptHash::Id, minimum: 0,
        steps: steps! {
            InsertMultiples(0..100, 10), Retain(2, 0, 100), Expect(Len(50)),
            Expect(Value(2, Some(20))), Expect(Value(4, Some(40))), Expect(Value(6, Some(60))) } }
};

// How many keys are inserted and removed. Those of the test are 1000, in ten rounds.
const KEYS: u64 = 100;

// test_lots_of_insertions. The keys are removed in rising order in one round, and in falling order
// in the other.
#[test]
fn many_keys_come_and_go(rt: HostRuntime) -> Result<(), Fail> {
    let mut map: Map = HashMap::with_hasher(rt.alloc(), ScriptHash::Spread);
    come(&rt, &mut map);
    go_forwards(&rt, &mut map);
    come(&rt, &mut map);
    go_back(&rt, &mut map);
    Ok(())
}

// Each key is inserted into an empty map: then those up to it are present.
fn come(rt: &impl Abort, map: &mut Map) {
    check_same(rt, map.is_empty(), true, "empty");
    for key in 1..=KEYS {
        let came = map.upsert(key, key).ok();
        check_same(rt, (came, has_only(map, 1, key)), (Some(None), true), key);
    }
}

// Each key is removed, in rising order: then those above it are present.
fn go_forwards(rt: &impl Abort, map: &mut Map) {
    for key in 1..=KEYS {
        let went = (map.remove(&key), has_only(map, key.wrapping_add(1), KEYS));
        check_same(rt, went, (Some((key, key)), true), key);
    }
}

// Each key is removed, in falling order: then those below it are present.
fn go_back(rt: &impl Abort, map: &mut Map) {
    for number in 0..KEYS {
        let key = KEYS.wrapping_sub(number);
        let went = (map.remove(&key), has_only(map, 1, key.wrapping_sub(1)));
        check_same(rt, went, (Some((key, key)), true), key);
    }
}

// Of the keys up to twice as many a map has those from the first to the last, each as its own
// value.
fn has_only(map: &Map, first: u64, last: u64) -> bool {
    for key in 0..=KEYS.wrapping_mul(2) {
        let wanted = if first <= key && key <= last {
            Some(key)
        } else {
            None
        };
        if map.get(&key).copied() != wanted || map.contains(&key) != wanted.is_some() {
            return false;
        }
    }
    true
}
