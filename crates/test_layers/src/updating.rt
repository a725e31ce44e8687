//! Values that are replaced, pairs that are inserted if the key is absent, and pairs that a cache
//! evicts.
use crate::by_lock::Table;
use crate::checks::check_same;
use Expect::*;
use Step::*;
use bucket_slots::bucket::CACHE;
use bucket_slots::lru::DoublyLinkedList;
use bucket_table::hash_table::{HashTable, NotInserted, ResizeRule};
use bucket_table::script::ScriptHash;
use std::ops::Range;
use std::process::Abort;
use std::test::Fail;
use test_helpers::{At, overwrite};

type Cache = Table<DoublyLinkedList, CACHE>;

/// A call on a cache with its expected result, or an expectation.
enum Step {
    /// Insert new keys, each with itself as its value.
    InsertRange(Range<u64>),
    /// Insert a value or write it: this was the earlier one.
    Upsert(u64, u64, Option<u64>),
    /// Add one to a key's value: this was the earlier one.
    AddOne(u64, Option<u64>),
    /// Write a key's value through a mutable reference: this was the earlier one.
    WriteByGetMut(u64, u64, Option<u64>),
    /// Touch a key, which is present.
    Touch(u64),
    /// Evict a pair, which is this one, from a key's home.
    Evict(u64, Option<(u64, u64)>),
    /// Put a new pair. This one is evicted for it.
    Put(u64, u64, Option<(u64, u64)>),
    /// Put a pair, which is returned, since its key is present.
    PutPresent(u64, u64),
    Expect(Expect),
}

/// What is expected of a cache.
enum Expect {
    /// The value that a key has.
    Value(u64, Option<u64>),
    /// How many slots the current array has, and the rehash word.
    Slots(usize, Option<usize>),
    /// How many pairs there are.
    Count(usize),
}

// A name, how keys are hashed, and the calls on a new cache.
const STORIES: [(&str, ScriptHash, &[Step]); 5] = [
    (
        "an upsert inserts a pair once, then replaces its value",
        ScriptHash::Id,
        &[
            AddOne(1, None),
            Upsert(1, 10, None),
            Upsert(1, 11, Some(10)),
            AddOne(1, Some(11)),
            AddOne(2, None),
            Upsert(257, 5, None),
            WriteByGetMut(257, 6, Some(5)),
            WriteByGetMut(2, 6, None),
            Expect(Value(1, Some(12))),
            Expect(Value(2, None)),
            Expect(Value(257, Some(6))),
            Expect(Count(2)),
        ],
    ),
    (
        "an upsert finds the pairs of an old array after they move",
        ScriptHash::Spread,
        &[
            InsertRange(0..31),
            InsertRange(128..159),
            Upsert(31, 31, None),
            Expect(Slots(128, Some(0))),
            Upsert(5, 50, Some(5)),
            Expect(Slots(128, None)),
            AddOne(130, Some(130)),
            Upsert(31, 32, Some(31)),
            Expect(Value(5, Some(50))),
            Expect(Value(130, Some(131))),
            Expect(Value(31, Some(32))),
            Expect(Count(63)),
        ],
    ),
    (
        "get_mut finds the pairs of an old array after they move",
        ScriptHash::Spread,
        &[
            InsertRange(0..31),
            InsertRange(128..159),
            Upsert(31, 31, None),
            Expect(Slots(128, Some(0))),
            WriteByGetMut(130, 50, Some(130)),
            Expect(Slots(128, None)),
            WriteByGetMut(130, 51, Some(50)),
            WriteByGetMut(160, 1, None),
            Expect(Value(130, Some(51))),
            Expect(Value(31, Some(31))),
            Expect(Count(63)),
        ],
    ),
    (
        "a full bucket evicts its touched pairs in LRU order, and then slot 0",
        ScriptHash::Zero,
        &[
            Evict(0, None),
            InsertRange(0..32),
            Touch(3),
            Touch(1),
            Touch(3),
            Evict(0, Some((1, 1))),
            Evict(0, None),
            Upsert(32, 0, None),
            Evict(7, Some((3, 3))),
            Upsert(33, 0, None),
            Upsert(34, 0, None),
            Evict(40, Some((0, 0))),
            Evict(40, None),
            Expect(Value(0, None)),
            Expect(Value(34, Some(0))),
            Expect(Count(32)),
        ],
    ),
    (
        "a put into a full bucket evicts its least recent pair",
        ScriptHash::Zero,
        &[
            Put(0, 1, None),
            PutPresent(0, 2),
            Expect(Value(0, Some(1))),
            Upsert(0, 0, Some(1)),
            InsertRange(1..32),
            Put(32, 320, Some((0, 0))),
            Touch(5),
            Put(33, 330, Some((32, 320))),
            Put(34, 340, Some((5, 5))),
            PutPresent(34, 1),
            Put(35, 350, Some((33, 330))),
            Expect(Value(34, Some(340))),
            Expect(Value(33, None)),
            Expect(Value(1, Some(1))),
            Expect(Count(32)),
        ],
    ),
];

#[test]
fn caches_are_updated_by_key(rt: HostRuntime) -> Result<(), Fail> {
    for (name, hasher, steps) in &STORIES {
        let mut cache = HashTable::with_hasher(rt.alloc(), *hasher);
        for (row, step) in steps.iter().enumerate() {
            take(&rt, &mut cache, (*name, row), step)?;
        }
    }
    Ok(())
}

// Takes a step, and checks its result.
fn take(rt: &impl Abort, cache: &mut Cache, at: At, step: &Step) -> Result<(), Fail> {
    match step {
        InsertRange(keys) => insert_range(rt, cache, at, keys),
        Upsert(key, value, earlier) => {
            let done = cache.upsert(*key, *value, &(), ResizeRule::Sampled);
            check_same(rt, done, Ok(*earlier), at);
        }
        AddOne(key, earlier) => check_same(rt, cache.update(key, add_one), *earlier, at),
        WriteByGetMut(key, value, earlier) => {
            check_same(rt, overwrite(cache.get_mut(key), *value), *earlier, at);
        }
        Touch(key) => check_same(rt, cache.touch(key), true, at),
        Evict(key, pair) => check_same(rt, cache.evict(key)?, *pair, at),
        Put(key, value, pair) => check_same(rt, placed(cache, *key, *value), Ok(*pair), at),
        PutPresent(key, value) => {
            check_same(rt, placed(cache, *key, *value), Err((*key, *value)), at);
        }
        Expect(wanted) => check_expected(rt, cache, at, wanted),
    }
    Ok(())
}

// Inserts new keys, each with itself as its value.
fn insert_range(rt: &impl Abort, cache: &mut Cache, at: At, keys: &Range<u64>) {
    for key in keys.start..keys.end {
        let done = cache
            .insert_pair(key, key, &(), ResizeRule::Sampled)
            .is_ok();
        check_same(rt, done, true, (at, key));
    }
}

// Checks an expectation about a cache.
fn check_expected(rt: &impl Abort, cache: &mut Cache, at: At, wanted: &Expect) {
    match wanted {
        Value(key, value) => {
            let found = cache.peek_entry(key).map(|(_, value)| *value);
            check_same(rt, found, *value, at);
        }
        Slots(slots, word) => {
            let found = (cache.num_slots(), cache.rehashing_metadata());
            check_same(rt, found, (*slots, *word), at);
        }
        Count(pairs) => check_same(rt, cache.num_entries(), *pairs, at),
    }
}

// Adds one to a value, and returns the earlier one.
fn add_one(_key: &u64, value: &mut u64) -> u64 {
    let earlier = *value;
    *value = earlier.wrapping_add(1);
    earlier
}

// Puts a pair. Returns what is evicted for it, or the pair if its key is present.
fn placed(cache: &mut Cache, key: u64, value: u64) -> Result<Option<(u64, u64)>, (u64, u64)> {
    match cache.put(key, value) {
        Ok(gone) => Ok(gone),
        Err(NotInserted::Present(key, value)) => Err((key, value)),
        Err(NotInserted::Memory(_, _)) => Err((0, 0)),
    }
}
