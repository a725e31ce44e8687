//! Stories of entries: the place of a key, occupied or vacant.
use super::maps::Map;
use super::{check_same, std_entries};
use Expect::*;
use Step::*;
use bucket_table::script::ScriptHash;
use collections::hash_map::HashMap;
use collections::hash_map::entry::Entry;
use std::alloc::Global;
use std::ops::Range;
use std::process::Abort;
use std::test::Fail;
use test_helpers::{At, steps};

/// A call on a key's entry with its expected result, or an expectation.
pub(super) enum Step {
    /// Insert keys by vacant entries, each as its own value.
    InsertRange(Range<u64>),
    /// Insert a value if the key is absent, and then add one to the value: this is the result.
    InsertAndAddOne(u64, u64, u64),
    /// Double the value, or insert the second number: this is the value then.
    DoubleOrInsert(u64, u64, u64),
    /// Insert twice the key if the key is absent: this is the value then.
    OrInsertWithKey(u64, u64),
    /// Change the value of a present key: this was the earlier one.
    Replace(u64, u64, Option<u64>),
    /// Remove a key: this was its pair, or it is absent.
    Remove(u64, Option<(u64, u64)>),
    Expect(Expect),
}

/// What is expected of a map.
pub(super) enum Expect {
    /// The key that its entry returns, vacant or occupied.
    Key(u64),
    /// The value that a key has.
    Value(u64, Option<u64>),
    /// How many pairs there are.
    Len(usize),
}

/// What happens on a new map.
pub(super) struct Story {
    pub(super) name: &'static str,
    pub(super) hasher: ScriptHash,
    pub(super) steps: &'static [Step],
}

const STORIES: &[Story] = steps! {
    Story { name: "a value is inserted once, and is then the one that is lent",
        hasher: ScriptHash::Id, steps: steps! {
            InsertAndAddOne(1, 10, 11), InsertAndAddOne(1, 10, 12), InsertAndAddOne(2, 0, 1),
            Expect(Value(1, Some(12))), Expect(Value(2, Some(1))), Expect(Len(2)) } },
    Story { name: "a present value is modified, and a missing one is inserted",
        hasher: ScriptHash::Id, steps: steps! {
            DoubleOrInsert(3, 5, 5), DoubleOrInsert(3, 6, 10), DoubleOrInsert(3, 7, 20),
            DoubleOrInsert(4, 8, 8), OrInsertWithKey(3, 20), OrInsertWithKey(5, 10),
            Expect(Value(3, Some(20))), Expect(Len(3)) } },
    Story { name: "an occupied entry is written and removed, a vacant one stays vacant",
        hasher: ScriptHash::Id, steps: steps! {
            Replace(1, 10, None), Remove(1, None), Expect(Len(0)), InsertAndAddOne(1, 4, 5),
            Replace(1, 10, Some(5)), Replace(1, 11, Some(10)), Remove(1, Some((1, 11))),
            Remove(1, None), Expect(Value(1, None)), Expect(Len(0)) } },
    Story { name: "entries during a growth find pairs in either array",
        hasher: ScriptHash::Spread, steps: steps! {
            InsertRange(0..31), InsertRange(128..159), InsertRange(31..32), Expect(Len(63)),
            InsertAndAddOne(5, 0, 6), InsertAndAddOne(158, 0, 159), Replace(130, 1, Some(130)),
            Remove(7, Some((7, 7))), DoubleOrInsert(40, 9, 9), Expect(Value(4, Some(4))),
            Expect(Value(5, Some(6))), Expect(Value(130, Some(1))), Expect(Len(63)) } },
    Story { name: "keys with equal hashes have separate entries",
        hasher: ScriptHash::Zero, steps: steps! {
            InsertRange(0..80), InsertAndAddOne(79, 0, 80), InsertAndAddOne(80, 0, 1),
            Remove(40, Some((40, 40))), InsertAndAddOne(40, 3, 4), Expect(Value(79, Some(80))),
            Expect(Value(41, Some(41))), Expect(Len(81)) } },
};

#[test]
fn entries_are_the_places_of_keys(rt: HostRuntime) -> Result<(), Fail> {
    for stories in [STORIES, std_entries::STORIES] {
        play(&rt, rt.alloc(), stories);
    }
    Ok(())
}

// Plays stories, each on a new map.
fn play(rt: &impl Abort, alloc: Global, stories: &[Story]) {
    for story in stories {
        let mut map: Map = HashMap::with_hasher(alloc, story.hasher);
        for (row, step) in story.steps.iter().enumerate() {
            take(rt, &mut map, (story.name, row), step);
        }
    }
}

// Takes a step, and checks its result.
fn take(rt: &impl Abort, map: &mut Map, at: At, step: &Step) {
    match step {
        InsertRange(keys) => check_same(rt, insert_range(map, keys), true, at),
        InsertAndAddOne(key, value, after) => {
            check_same(rt, count(map, *key, *value), Some(*after), at);
        }
        DoubleOrInsert(key, value, after) => {
            check_same(rt, double(map, *key, *value), Some(*after), at);
        }
        OrInsertWithKey(key, after) => check_same(rt, make(map, *key), Some(*after), at),
        Replace(key, value, earlier) => check_same(rt, write(map, *key, *value), *earlier, at),
        Remove(key, pair) => check_same(rt, take_out(map, *key), *pair, at),
        Expect(wanted) => check_expected(rt, map, at, wanted),
    }
}

// Checks an expectation about a map.
fn check_expected(rt: &impl Abort, map: &mut Map, at: At, wanted: &Expect) {
    match *wanted {
        Key(key) => check_same(rt, *map.entry(key).key(), key, at),
        Value(key, value) => check_same(rt, map.get(&key).copied(), value, at),
        Len(pairs) => check_same(rt, (map.len(), has_its_keys(map)), (pairs, true), at),
    }
}

// Inserts keys, each as its own value. Returns whether the place of each was vacant, and it was
// inserted.
fn insert_range(map: &mut Map, keys: &Range<u64>) -> bool {
    let mut are_in = true;
    for key in keys.start..keys.end {
        are_in = put_where_vacant(map, key) && are_in;
    }
    are_in
}

// Each key that a map's iterator yields is present.
fn has_its_keys(map: &Map) -> bool {
    for key in map.keys() {
        if !map.contains(key) {
            return false;
        }
    }
    true
}

// Puts a key as its own value. Returns whether its place was vacant and it was inserted.
fn put_where_vacant(map: &mut Map, key: u64) -> bool {
    match map.entry(key) {
        Entry::Vacant(place) => place.insert(key).is_ok(),
        Entry::Occupied(_) => false,
    }
}

// Inserts a value if the key is absent, adds one through the mutable reference, and returns what
// the map has then.
fn count(map: &mut Map, key: u64, value: u64) -> Option<u64> {
    if let Ok(held) = map.entry(key).or_insert(value) {
        *held = held.wrapping_add(1);
    }
    map.get(&key).copied()
}

// Doubles the value, or inserts one, and returns what the map has then.
fn double(map: &mut Map, key: u64, value: u64) -> Option<u64> {
    let entry = map.entry(key).and_modify(double_it);
    let _ = entry.or_insert_with(|| value);
    map.get(&key).copied()
}

fn double_it(held: &mut u64) {
    *held = held.wrapping_mul(2);
}

// Inserts twice the key if it is absent, and returns what the map has then.
fn make(map: &mut Map, key: u64) -> Option<u64> {
    let _ = map.entry(key).or_insert_with_key(twice);
    map.get(&key).copied()
}

fn twice(key: &u64) -> u64 {
    key.wrapping_mul(2)
}

// Changes the value of a present key, and returns the earlier one.
fn write(map: &mut Map, key: u64, value: u64) -> Option<u64> {
    match map.entry(key) {
        Entry::Occupied(mut place) => Some(place.insert(value)),
        Entry::Vacant(_) => None,
    }
}

// Removes the pair of a key.
fn take_out(map: &mut Map, key: u64) -> Option<(u64, u64)> {
    match map.entry(key) {
        Entry::Occupied(place) => Some(place.remove_entry()),
        Entry::Vacant(place) => {
            let _ = place.into_key();
            None
        }
    }
}
