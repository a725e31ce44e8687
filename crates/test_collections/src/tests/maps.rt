//! The steps of stories of a map of numbers: what each call returns, how many slots there are then,
//! and which pairs `for_each` and the iterators visit.
use super::iterating::{MOST_BUCKETS, Pairs, gone_over, same_pairs, walk_numbers, walk_pairs};
use super::two_sets::Ranges;
use super::{check_same, pair_with};
use Expect::*;
use Resize::*;
use Step::*;
use Write::*;
use bucket_table::script::ScriptHash;
use collections::hash_map::{HashMap, NotInserted};
use std::alloc::Global;
use std::ops::Range;
use std::process::Abort;
use test_helpers::{At, overwrite};

pub(super) type Map = HashMap<u64, u64, ScriptHash>;

/// A call on a map with its expected result, or an expectation.
pub(super) enum Step {
    /// Insert keys, each as its own value.
    InsertRange(Range<u64>),
    /// Insert keys, each with this multiple of it.
    InsertMultiples(Range<u64>, u64),
    /// Insert a pair.
    Insert(u64, u64),
    /// Insert a pair, which is returned, since its key is present.
    InsertPresent(u64, u64),
    /// Insert a pair by both calls, which return it, since allocating an array fails.
    InsertWithoutMemory(u64, u64),
    /// Insert a value or write it: this was the earlier one.
    Upsert(u64, u64, Option<u64>),
    Write(Write),
    /// Add one to each value, and retain the pairs whose keys leave the second number as their
    /// remainder when divided by the first. The function is called with this many pairs.
    RetainAndAddOne(u64, u64, usize),
    /// Retain the same pairs, and write no value.
    Retain(u64, u64, usize),
    /// Remove a key: this was its pair, or it is absent.
    Remove(u64, Option<(u64, u64)>),
    /// Remove a key if its value is above the second number: this was its pair, or none is removed.
    RemoveIfAbove(u64, u64, Option<(u64, u64)>),
    /// Remove keys, each with itself as its value.
    RemoveRange(Range<u64>),
    /// Take this many pairs from a drain, and drop it.
    DrainPart(usize),
    /// Remove all pairs.
    Clear,
    Resize(Resize),
    Expect(Expect),
}

/// A call that writes values.
pub(super) enum Write {
    /// Add one to a value. The pair was this one.
    AddOne(u64, Option<(u64, u64)>),
    /// Write a value through a mutable reference: this was the earlier one.
    ByGetMut(u64, u64, Option<u64>),
    /// Add one to each value. The function is called this many times.
    AddOneToAll(usize),
}

/// A call that sets the minimum or the slots.
pub(super) enum Resize {
    /// Raise the minimum by the first number: it is raised by the second.
    RaiseMinimum(usize, usize),
    /// Make room for this many more pairs.
    Reserve(usize),
    /// Fail to allocate room for this many more pairs.
    ReserveWithoutMemory(usize),
    /// Set the minimum to 0, and free the slots that the pairs don't take.
    ShrinkToFit,
}

/// What is expected of a map.
pub(super) enum Expect {
    /// The value that a key has.
    Value(u64, Option<u64>),
    /// How many pairs there are.
    Len(usize),
    /// How many slots there are.
    Slots(usize),
}

/// What happens on a new map.
pub(super) struct Story {
    pub(super) name: &'static str,
    pub(super) hasher: ScriptHash,
    pub(super) minimum: usize,
    pub(super) steps: &'static [Step],
}

// Inserts keys, each as its own value. Returns whether all were inserted.
pub(super) fn fill(map: &mut Map, keys: &Range<u64>) -> bool {
    multiply(map, keys, 1)
}

// A map of keys, each as its own value.
pub(super) fn map_of(alloc: Global, hasher: ScriptHash, ranges: Ranges) -> Map {
    let mut map = HashMap::with_hasher(alloc, hasher);
    for keys in ranges {
        let _ = fill(&mut map, keys);
    }
    map
}

// Inserts keys, each with a multiple of it as its value. Returns whether all were inserted.
fn multiply(map: &mut Map, keys: &Range<u64>, factor: u64) -> bool {
    let mut are_in = true;
    for key in keys.start..keys.end {
        are_in = map.insert(key, key.wrapping_mul(factor)).is_ok() && are_in;
    }
    are_in
}

// Plays stories, each on a new map.
pub(super) fn play(rt: &impl Abort, alloc: Global, stories: &[Story]) {
    for story in stories {
        let mut map: Map = HashMap::with_minimum(alloc, story.hasher, story.minimum);
        play_one(rt, &mut map, story);
    }
}

// Takes the steps of a story.
fn play_one(rt: &impl Abort, map: &mut Map, story: &Story) {
    for (row, step) in story.steps.iter().enumerate() {
        take(rt, map, (story.name, row), step);
        check_same(rt, *map.hasher(), story.hasher, (story.name, row));
    }
}

// Takes a step, and checks its result.
pub(super) fn take(rt: &impl Abort, map: &mut Map, at: At, step: &Step) {
    match step {
        InsertRange(keys) => check_same(rt, fill(map, keys), true, at),
        InsertMultiples(keys, factor) => check_same(rt, multiply(map, keys, *factor), true, at),
        Insert(key, value) => check_same(rt, insert(map, *key, *value), Ok(()), at),
        InsertPresent(key, value) => {
            let back = Err((IS_THERE, *key, *value));
            check_same(rt, insert(map, *key, *value), back, at);
        }
        InsertWithoutMemory(key, value) => {
            let back = Err((NO_MEMORY, *key, *value));
            check_same(rt, insert(map, *key, *value), back, at);
            check_same(rt, upsert(map, *key, *value), Err((*key, *value)), at);
        }
        Upsert(key, value, earlier) => {
            check_same(rt, upsert(map, *key, *value), Ok(*earlier), at);
        }
        Write(call) => check_write(rt, map, at, call),
        RetainAndAddOne(divisor, rest, asked) => {
            check_same(rt, retain(map, *divisor, *rest, 1), *asked, at);
        }
        Retain(divisor, rest, asked) => {
            check_same(rt, retain(map, *divisor, *rest, 0), *asked, at);
        }
        Remove(key, pair) => check_same(rt, map.remove(key), *pair, at),
        RemoveIfAbove(key, floor, pair) => {
            check_same(rt, remove_above(map, *key, *floor), *pair, at);
        }
        RemoveRange(keys) => check_same(rt, remove_range(map, keys), true, at),
        DrainPart(pairs) => check_same(rt, drain_part(map, *pairs), *pairs, at),
        Clear => map.clear(),
        Resize(call) => check_resize(rt, map, at, call),
        Expect(wanted) => check_expected(rt, map, at, wanted),
    }
}

// Makes a call that writes values, and checks its result.
fn check_write(rt: &impl Abort, map: &mut Map, at: At, call: &Write) {
    match *call {
        AddOne(key, pair) => check_same(rt, map.update(&key, add_one), pair, at),
        ByGetMut(key, value, earlier) => {
            check_same(rt, overwrite(map.get_mut(&key), value), earlier, at);
        }
        AddOneToAll(count) => check_same(rt, add_one_to_all(map), count, at),
    }
}

// Makes a call that sets the minimum or the slots, and checks its result.
fn check_resize(rt: &impl Abort, map: &mut Map, at: At, call: &Resize) {
    match *call {
        RaiseMinimum(by, raised) => check_same(rt, map.raise_minimum(by), raised, at),
        Reserve(additional) => check_same(rt, map.try_reserve(additional).is_ok(), true, at),
        ReserveWithoutMemory(additional) => {
            check_same(rt, map.try_reserve(additional).is_ok(), false, at);
        }
        ShrinkToFit => check_same(rt, map.shrink_to_fit().is_ok(), true, at),
    }
}

// Why a pair is returned.
const IS_THERE: &str = "its key is present";

const NO_MEMORY: &str = "allocation failed";

// Inserts a pair. Returns why it failed, and the pair.
fn insert(map: &mut Map, key: u64, value: u64) -> Result<(), (&'static str, u64, u64)> {
    match map.insert(key, value) {
        Ok(()) => Ok(()),
        Err(NotInserted::Present(own, back)) => Err((IS_THERE, own, back)),
        Err(NotInserted::Memory(own, back)) => Err((NO_MEMORY, own, back)),
    }
}

// Puts a value or writes it. Returns the earlier one, or the pair that was returned.
fn upsert(map: &mut Map, key: u64, value: u64) -> Result<Option<u64>, (u64, u64)> {
    match map.upsert(key, value) {
        Ok(earlier) => Ok(earlier),
        Err(back) => Err(back.value),
    }
}

// Adds one to a value, and returns the pair that was there.
fn add_one(key: &u64, value: &mut u64) -> (u64, u64) {
    let earlier = *value;
    *value = earlier.wrapping_add(1);
    (*key, earlier)
}

// Adds a number to each value, and keeps the keys that leave a remainder. Returns how many calls of
// the function there were.
fn retain(map: &mut Map, divisor: u64, rest: u64, more: u64) -> usize {
    let mut asked: usize = 0;
    let mut keep = |key: &u64, value: &mut u64| -> bool {
        asked = asked.saturating_add(1);
        *value = value.wrapping_add(more);
        divisor != 0 && *key % divisor == rest
    };
    map.retain_ref(&mut keep);
    asked
}

// Adds one to each value. Returns how many were lent.
fn add_one_to_all(map: &mut Map) -> usize {
    let mut lent: usize = 0;
    let mut write = |_key: &u64, value: &mut u64| {
        lent = lent.saturating_add(1);
        *value = value.wrapping_add(1);
    };
    map.for_each_mut_ref(&mut write);
    lent
}

// Removes a pair whose value is above a number.
fn remove_above(map: &mut Map, key: u64, floor: u64) -> Option<(u64, u64)> {
    map.remove_if(&key, |_own: &u64, value: &u64| *value > floor)
}

// Removes keys. Returns whether each was present with its own value.
fn remove_range(map: &mut Map, keys: &Range<u64>) -> bool {
    let mut were_there = true;
    for key in keys.start..keys.end {
        were_there = map.remove(&key) == Some((key, key)) && were_there;
    }
    were_there
}

// Takes this many pairs from a drain, and drops it. Returns how many there were.
fn drain_part(map: &mut Map, pairs: usize) -> usize {
    map.drain().take(pairs).count()
}

// Checks an expectation about a map.
fn check_expected(rt: &impl Abort, map: &Map, at: At, wanted: &Expect) {
    match *wanted {
        Value(key, value) => {
            let found = (map.get(&key).copied(), map.contains(&key), pair(map, key));
            let wanted = (value, value.is_some(), pair_with(key, value));
            check_same(rt, found, wanted, at);
        }
        Len(len) => {
            let found = (map.len(), map.is_empty(), met(map));
            check_same(rt, found, (len, len == 0, Some(len)), at);
        }
        Slots(slots) => check_same(rt, map.capacity(), slots, at),
    }
}

// The pair of a key.
fn pair(map: &Map, key: u64) -> Option<(u64, u64)> {
    match map.get_key_value(&key) {
        Some((own, value)) => Some((*own, *value)),
        None => None,
    }
}

// How many pairs each iterator over a map yields.
fn met(map: &Map) -> Option<usize> {
    gone_over!(map, get)
}
