//! The steps of stories of a cache of numbers: which pair is evicted for another, which calls touch
//! a pair, and the cache's state then.
use super::iterating::{MOST_BUCKETS, Pairs, gone_over, same_pairs, walk_numbers, walk_pairs};
use super::{check_same, pair_with};
use Expect::*;
use Made::*;
use Step::*;
use Write::*;
use bucket_table::script::ScriptHash;
use collections::hash_cache::{HashCache, NotInserted, Upserted};
use std::alloc::Global;
use std::mem;
use std::ops::Range;
use std::process::Abort;
use test_helpers::{At, overwrite};

pub(super) type Cache = HashCache<u64, u64, ScriptHash>;

/// A call on a cache with its expected result, or an expectation.
pub(super) enum Step {
    /// Put keys, each as its own value. None is evicted.
    PutRange(Range<u64>),
    /// Put keys, each as its own value. For each a key with its own value is evicted: from this key
    /// on, one after another.
    PutRangeEvicting(Range<u64>, u64),
    /// Put a pair. The second pair is evicted for it.
    Put(u64, u64, Option<(u64, u64)>),
    /// Put a pair, which is returned, since its key is present.
    PutPresent(u64, u64),
    /// Add keys by upserts, each as its own value. None is evicted.
    UpsertRange(Range<u64>),
    /// Add a pair by an upsert. The second pair is evicted for it.
    Upsert(u64, u64, Option<(u64, u64)>),
    /// Write a value by an upsert: this was the earlier one.
    UpsertPresent(u64, u64, u64),
    /// Read this value by `get_or_insert_with`: 1000 more than the key if it is made. The pair is
    /// evicted for it.
    GetOrInsert(u64, u64, Option<(u64, u64)>),
    Write(Write),
    /// Find this value by `get`. The pair is touched.
    Get(u64, Option<u64>),
    /// Touch the pair of a key by `promote`, if it is present.
    Promote(u64, bool),
    /// Find each key with its own value by `get`, which touches it.
    GetRange(Range<u64>),
    /// Add 100 to the value of each pair, and retain the pairs with even keys.
    RetainEvenAndAdd100,
    /// Remove a key: this was its pair, or it is absent.
    Remove(u64, Option<(u64, u64)>),
    /// Remove a key by `remove_if` if its value is above the second number: this was its pair, or
    /// none is removed.
    RemoveIfAbove(u64, u64, Option<(u64, u64)>),
    /// Remove all pairs.
    Clear,
    /// Resize the cache to this many slots.
    Resize(usize),
    Expect(Expect),
}

/// A call that writes values.
pub(super) enum Write {
    /// Change the value of a present key by `update`. The pair was this one.
    ByUpdate(u64, u64, Option<(u64, u64)>),
    /// Write another value through `get_mut`: this was the earlier one.
    ByGetMut(u64, u64, Option<u64>),
    /// Write another value through `peek_mut`: this was the earlier one.
    ByPeekMut(u64, u64, Option<u64>),
    /// Add 100 to the value of each pair.
    Add100ToAll,
}

/// What is expected of a cache.
pub(super) enum Expect {
    /// The value that a key has. It isn't touched.
    Value(u64, Option<u64>),
    /// How many pairs there are.
    Len(usize),
    /// How many slots there are.
    Slots(usize),
    /// The keys in LRU order: of each bucket the one touched last is the first.
    ByUse(&'static [u64]),
}

/// How a new cache is made.
pub(super) enum Made {
    /// With at least and at most this many slots.
    Within(usize, usize),
    /// With this many slots, or the least possible number above it.
    Sized(usize),
}

/// What happens on a new cache.
pub(super) struct Story {
    pub(super) name: &'static str,
    pub(super) hasher: ScriptHash,
    pub(super) made: Made,
    pub(super) steps: &'static [Step],
}

// Plays stories, each on a new cache.
pub(super) fn play(rt: &impl Abort, alloc: Global, stories: &[Story]) {
    for story in stories {
        let mut cache = new_cache(alloc, story);
        for (row, step) in story.steps.iter().enumerate() {
            take(rt, &mut cache, (story.name, row), step);
            check_same(rt, *cache.hasher(), story.hasher, (story.name, row));
        }
    }
}

// The cache of a story.
fn new_cache(alloc: Global, story: &Story) -> Cache {
    match story.made {
        Within(least, most) => HashCache::with_capacity(alloc, story.hasher, least, most),
        Sized(slots) => HashCache::with_size(alloc, story.hasher, slots),
    }
}

// Takes a step, and checks its result.
fn take(rt: &impl Abort, cache: &mut Cache, at: At, step: &Step) {
    match step {
        PutRange(keys) => check_same(rt, put_range(cache, keys), true, at),
        PutRangeEvicting(keys, first) => {
            check_same(rt, put_range_evicting(cache, keys, *first), true, at);
        }
        Put(key, value, gone) => check_same(rt, put(cache, *key, *value), Some(Ok(*gone)), at),
        PutPresent(key, value) => {
            check_same(rt, put(cache, *key, *value), Some(Err((*key, *value))), at);
        }
        UpsertRange(keys) => check_same(rt, upsert_range(cache, keys), true, at),
        Upsert(key, value, gone) => {
            check_same(rt, upsert(cache, *key, *value), Some(Ok(*gone)), at);
        }
        UpsertPresent(key, value, earlier) => {
            let wanted = Some(Err((*key, *earlier)));
            check_same(rt, upsert(cache, *key, *value), wanted, at);
        }
        GetOrInsert(key, value, gone) => {
            check_same(rt, make(cache, *key), Some((*value, *gone)), at);
        }
        Write(call) => check_write(rt, cache, at, call),
        Get(key, value) => check_same(rt, cache.get(key).copied(), *value, at),
        Promote(key, there) => check_same(rt, cache.promote(key), *there, at),
        GetRange(keys) => check_same(rt, get_range(cache, keys), true, at),
        RetainEvenAndAdd100 => cache.retain(&mut keep_even),
        Remove(key, pair) => check_same(rt, cache.remove(key), *pair, at),
        RemoveIfAbove(key, floor, pair) => {
            check_same(rt, remove_above(cache, *key, *floor), *pair, at);
        }
        Clear => cache.clear(),
        Resize(slots) => check_same(rt, cache.resize(*slots).is_ok(), true, at),
        Expect(wanted) => check_expected(rt, cache, at, wanted),
    }
}

// Makes a call that writes values, and checks its result.
fn check_write(rt: &impl Abort, cache: &mut Cache, at: At, call: &Write) {
    match *call {
        ByUpdate(key, value, pair) => check_same(rt, update(cache, key, value), pair, at),
        ByGetMut(key, value, earlier) => {
            check_same(rt, overwrite(cache.get_mut(&key), value), earlier, at);
        }
        ByPeekMut(key, value, earlier) => {
            check_same(rt, overwrite(cache.peek_mut(&key), value), earlier, at);
        }
        Add100ToAll => cache.for_each_mut(&mut raise),
    }
}

// Checks an expectation about a cache.
fn check_expected(rt: &impl Abort, cache: &Cache, at: At, wanted: &Expect) {
    match *wanted {
        Value(key, value) => {
            let found = (
                cache.peek(&key).copied(),
                cache.contains(&key),
                pair(cache, key),
            );
            let wanted = (value, value.is_some(), pair_with(key, value));
            check_same(rt, found, wanted, at);
        }
        Len(len) => {
            let found = (cache.len(), cache.is_empty(), met(cache));
            check_same(rt, found, (len, len == 0, Some(len)), at);
        }
        Slots(slots) => check_same(rt, cache.capacity(), slots, at),
        ByUse(keys) => check_same(rt, walk_pairs(cache.iter_by_use()).has_keys(keys), true, at),
    }
}

// The result of a put or an upsert: the evicted pair; or the present key, with the value that is
// returned or the earlier one.
pub(super) type Outcome = Option<Result<Option<(u64, u64)>, (u64, u64)>>;

pub(super) fn put(cache: &mut Cache, key: u64, value: u64) -> Outcome {
    match cache.put(key, value) {
        Ok(gone) => Some(Ok(gone)),
        Err(NotInserted::Present(own, back)) => Some(Err((own, back))),
        Err(NotInserted::Memory(_, _)) => None,
    }
}

// Puts keys, each as its own value. Returns whether none is evicted.
pub(super) fn put_range(cache: &mut Cache, keys: &Range<u64>) -> bool {
    let mut are_in = true;
    for key in keys.start..keys.end {
        are_in = put(cache, key, key) == Some(Ok(None)) && are_in;
    }
    are_in
}

// Puts keys, each as its own value. Returns whether for each a key with its own value is evicted,
// from a first one on.
fn put_range_evicting(cache: &mut Cache, keys: &Range<u64>, first: u64) -> bool {
    let mut are_gone = true;
    for key in keys.start..keys.end {
        let gone = key.wrapping_sub(keys.start).wrapping_add(first);
        are_gone = put(cache, key, key) == Some(Ok(Some((gone, gone)))) && are_gone;
    }
    are_gone
}

fn upsert(cache: &mut Cache, key: u64, value: u64) -> Outcome {
    match cache.upsert(key, value) {
        Ok(Upserted::Added) => Some(Ok(None)),
        Ok(Upserted::Evicted(own, gone)) => Some(Ok(Some((own, gone)))),
        Ok(Upserted::Replaced(earlier)) => Some(Err((key, earlier))),
        Err(_) => None,
    }
}

// Upserts keys, each as its own value. Returns whether each is added, and none is evicted.
fn upsert_range(cache: &mut Cache, keys: &Range<u64>) -> bool {
    let mut are_in = true;
    for key in keys.start..keys.end {
        are_in = upsert(cache, key, key) == Some(Ok(None)) && are_in;
    }
    are_in
}

// Makes a value if the key is absent. Returns the value that is read, and the evicted pair.
fn make(cache: &mut Cache, key: u64) -> Option<(u64, Option<(u64, u64)>)> {
    cache
        .get_or_insert_with(key, || key.wrapping_add(1000), own)
        .ok()
}

fn own(value: &u64) -> u64 {
    *value
}

// Gets keys. Returns whether each has itself as its value.
fn get_range(cache: &mut Cache, keys: &Range<u64>) -> bool {
    let mut are_found = true;
    for key in keys.start..keys.end {
        are_found = cache.get(&key).copied() == Some(key) && are_found;
    }
    are_found
}

// Changes the value of a present key, and returns the earlier pair.
fn update(cache: &mut Cache, key: u64, value: u64) -> Option<(u64, u64)> {
    cache.update(&key, |own, held| (*own, mem::replace(held, value)))
}

// Removes a pair whose value is above a number.
fn remove_above(cache: &mut Cache, key: u64, floor: u64) -> Option<(u64, u64)> {
    cache.remove_if(&key, |_own: &u64, value: &u64| *value > floor)
}

// The pair of a key. It isn't touched.
fn pair(cache: &Cache, key: u64) -> Option<(u64, u64)> {
    match cache.peek_key_value(&key) {
        Some((own, value)) => Some((*own, *value)),
        None => None,
    }
}

// Adds 100 to a value. Returns whether the key is even.
fn keep_even(key: &u64, value: &mut u64) -> bool {
    *value = value.wrapping_add(100);
    *key % 2 == 0
}

// Adds 100 to a value.
fn raise(_key: &u64, value: &mut u64) {
    *value = value.wrapping_add(100);
}

// How many pairs each iterator over a cache yields; `iter_by_use` yields them in another order.
fn met(cache: &Cache) -> Option<usize> {
    let len = gone_over!(cache, peek)?;
    let by_use = walk_pairs(cache.iter_by_use());
    for place in 0..by_use.len() {
        match by_use.get(place) {
            Some((key, value)) if cache.peek(&key) == Some(&value) => {}
            _ => return None,
        }
    }
    if by_use.are_distinct() && by_use.len() == len {
        Some(len)
    } else {
        None
    }
}
