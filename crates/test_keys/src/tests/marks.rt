//! Counted values in an index. A removed value stays in its tombstone, and is dropped once: by an
//! insertion that needs room, when the pairs are cleared, or with its array. Few values wait for
//! that.
use super::check_same;
use Step::*;
use bucket_table::script::ScriptHash;
use collections::KeyHash;
use collections::hash_index::HashIndex;
use std::ops::Range;
use std::process::Abort;
use std::rc::Rc;
use std::test::Fail;
use test_helpers::{At, steps};

type Index = HashIndex<u64, Rc<u64>, ScriptHash>;

/// A call with its expected result, or an expectation.
enum Step {
    /// Insert each key of a range.
    InsertRange(Range<u64>),
    /// Insert a key.
    Insert(u64),
    /// Insert a key that is present. Its new value is dropped.
    InsertPresent(u64),
    /// Remove a pair: whether its key was present.
    Remove(u64, bool),
    /// Remove a pair by `remove_with`, and drop a clone of its value: whether its key was present.
    RemoveWith(u64, bool),
    /// Remove the pairs with odd keys.
    RetainEven,
    /// Remove the pair of a present key by `remove_if` if its function returns this.
    RemoveIf(u64, bool),
    /// Raise the minimum.
    RaiseMinimum(usize),
    /// Remove all pairs.
    Clear,
    /// Expect a clone to have this many pairs, and this many values to exist then.
    ExpectClone(usize, usize),
    /// Expect this many pairs and this many values.
    ExpectCounts(usize, usize),
}

/// A name, the hasher, and what happens on a new index.
type Story = (&'static str, ScriptHash, &'static [Step]);

// Under the hash 0 all keys have one bucket, of 32 own slots, and the index keeps its 64.
const STORIES: &[Story] = steps! {
    // Both tombstones are dropped by one insertion.
    ("a removed value is dropped when an insertion needs room", ScriptHash::Zero, steps! {
        InsertRange(0..32), ExpectCounts(32, 32), Remove(0, true), Remove(0, false),
        Remove(5, true), ExpectCounts(30, 32), Insert(32), ExpectCounts(31, 31), Insert(33),
        ExpectCounts(32, 32) }),
    // Key 34 takes the slot of key 5.
    ("tombstones stay while an own slot is free", ScriptHash::Zero, steps! {
        InsertRange(0..32), Remove(0, true), Remove(5, true), Insert(33), ExpectCounts(31, 31),
        Remove(7, true), ExpectCounts(30, 31), Insert(34), ExpectCounts(31, 32), Insert(35),
        ExpectCounts(32, 32) }),
    // Keys 32 and 33 are in a block of the chain, where there is room for key 34.
    ("tombstones of a chain stay while all own slots have pairs", ScriptHash::Zero, steps! {
        InsertRange(0..34), Remove(32, true), Remove(33, true), Insert(34), ExpectCounts(33, 35),
        Remove(0, true), Insert(35), ExpectCounts(33, 33) }),
    ("a removed key is inserted beside its tombstone", ScriptHash::Zero, steps! {
        InsertRange(0..31), Remove(3, true), ExpectCounts(30, 31), Insert(3), ExpectCounts(31, 32),
        Remove(3, true), ExpectCounts(30, 32), Insert(3), ExpectCounts(31, 31), InsertPresent(3),
        ExpectCounts(31, 31) }),
    ("a value passed by remove_with stays in its tombstone", ScriptHash::Zero, steps! {
        InsertRange(0..32), RemoveWith(4, true), RemoveWith(4, false), ExpectCounts(31, 32),
        Remove(4, false), Insert(4), ExpectCounts(32, 32) }),
    ("values removed by retain stay in their tombstones", ScriptHash::Zero, steps! {
        InsertRange(0..32), RetainEven, ExpectCounts(16, 32), RetainEven, ExpectCounts(16, 32),
        Remove(1, false), Insert(32), ExpectCounts(17, 17), Insert(33), ExpectCounts(18, 18),
        RetainEven, ExpectCounts(17, 18) }),
    ("a pair that remove_if keeps leaves no tombstone", ScriptHash::Zero, steps! {
        InsertRange(0..32), RemoveIf(4, false), ExpectCounts(32, 32), RemoveIf(4, true),
        ExpectCounts(31, 32), Insert(32), ExpectCounts(32, 32) }),
    ("a clone has no removed value", ScriptHash::Zero, steps! {
        ExpectClone(0, 0), InsertRange(0..40), Remove(0, true), Remove(39, true),
        ExpectCounts(38, 40), ExpectClone(38, 78), ExpectCounts(38, 40), RetainEven,
        ExpectClone(19, 59), Remove(2, true), ExpectCounts(18, 40) }),
    ("clear drops removed values too", ScriptHash::Zero, steps! {
        InsertRange(0..40), Remove(1, true), Remove(39, true), Insert(1), ExpectCounts(39, 39),
        Remove(1, true), Remove(38, true), ExpectCounts(37, 39), Clear, ExpectCounts(0, 0),
        Insert(1), ExpectCounts(1, 1), Clear, Clear, ExpectCounts(0, 0) }),
    ("dropping an index drops removed values", ScriptHash::Zero, steps! {
        InsertRange(0..40), Remove(1, true), Remove(39, true), Remove(0, true),
        ExpectCounts(37, 40) }),
    // Keys 0 to 30 are in the first bucket of two.
    ("tombstones are dropped with their array in a growth", ScriptHash::Spread, steps! {
        InsertRange(0..31), Remove(2, true), Remove(3, true), ExpectCounts(29, 31),
        RaiseMinimum(128), Insert(255), ExpectCounts(30, 30) }),
    ("tombstones are dropped with the array of the last pair", ScriptHash::Zero, steps! {
        InsertRange(0..3), Remove(1, true), Remove(0, true), ExpectCounts(1, 3), Remove(2, true),
        ExpectCounts(0, 0), Insert(2), ExpectCounts(1, 1) })
};

#[test]
fn each_removed_value_is_dropped_once(rt: HostRuntime) -> Result<(), Fail> {
    let counted = Rc::new(rt.alloc(), 0)?;
    for story in STORIES {
        let mut index: Index = HashIndex::with_hasher(rt.alloc(), story.1);
        play(&rt, &mut index, &counted, story);
        drop(index);
        check_same(&rt, Rc::strong_count(&counted), 1, (story.0, "dropped"));
    }
    Ok(())
}

// Takes the steps of a story.
fn play(rt: &impl Abort, index: &mut Index, counted: &Rc<u64>, story: &Story) {
    for (row, step) in story.2.iter().enumerate() {
        take(rt, index, counted, (story.0, row), step);
    }
}

// Inserts a key with a clone of a value. Returns whether it was inserted.
fn insert_clone<H: KeyHash<u64>>(
    index: &mut HashIndex<u64, Rc<u64>, H>,
    counted: &Rc<u64>,
    key: u64,
) -> bool {
    match counted.clone() {
        Ok(value) => index.insert(key, value).is_ok(),
        Err(_) => false,
    }
}

// Takes a step, and checks its result.
fn take(rt: &impl Abort, index: &mut Index, counted: &Rc<u64>, at: At, step: &Step) {
    match step {
        InsertRange(keys) => check_same(rt, insert_range(index, counted, keys), true, at),
        Insert(key) => check_same(rt, insert_clone(index, counted, *key), true, at),
        InsertPresent(key) => check_same(rt, insert_clone(index, counted, *key), false, at),
        Remove(key, there) => check_same(rt, index.remove(key), *there, at),
        RemoveWith(key, there) => {
            check_same(rt, index.remove_with(key, is_cloned).is_some(), *there, at);
        }
        RemoveIf(key, gone) => {
            let condition = |_own: &u64, _value: &Rc<u64>| *gone;
            check_same(rt, index.remove_if(key, condition), *gone, at);
        }
        RaiseMinimum(additional) => {
            let _ = index.raise_minimum(*additional);
        }
        RetainEven => index.retain(&mut is_even),
        Clear => index.clear(),
        ExpectClone(pairs, values) => copy(rt, index, counted, (*pairs, *values), at),
        ExpectCounts(pairs, values) => {
            let found = (index.len(), Rc::strong_count(counted).saturating_sub(1));
            check_same(rt, found, (*pairs, *values), at);
        }
    }
}

// Inserts keys with clones of a value. Returns whether all were inserted.
fn insert_range(index: &mut Index, counted: &Rc<u64>, keys: &Range<u64>) -> bool {
    let mut are_in = true;
    for key in keys.start..keys.end {
        are_in = insert_clone(index, counted, key) && are_in;
    }
    are_in
}

fn is_even(own: &u64, _value: &Rc<u64>) -> bool {
    *own % 2 == 0
}

fn is_cloned(_own: &u64, value: &Rc<u64>) -> bool {
    value.clone().is_ok()
}

// Clones an index and drops the clone. Compares the clone's pairs, and how many values there are.
fn copy(rt: &impl Abort, index: &Index, counted: &Rc<u64>, wanted: (usize, usize), at: At) {
    match index.clone() {
        Ok(own) => {
            let found = (own.len(), Rc::strong_count(counted).saturating_sub(1));
            check_same(rt, found, wanted, at);
        }
        Err(_) => check_same(rt, true, false, (at, "no memory")),
    }
}

// How many keys an index has at a time.
const WINDOW: u64 = 100;

// How many values are in chains: those of 101 pairs at most, and those that were removed while all
// own slots of their bucket had pairs, each of which is dropped within 100 rounds.
const CHAINED: usize = 201;

#[test]
fn removed_values_dont_pile_up(rt: HostRuntime) -> Result<(), Fail> {
    let counted = Rc::new(rt.alloc(), 0)?;
    for hasher in [ScriptHash::Id, ScriptHash::Spread, ScriptHash::Zero] {
        let mut index: Index = HashIndex::with_hasher(rt.alloc(), hasher);
        slide(&rt, &mut index, &counted, "script");
    }
    let mut hashed: HashIndex<u64, Rc<u64>> = HashIndex::new(rt.alloc());
    slide(&rt, &mut hashed, &counted, "default");
    Ok(())
}

// Inserts a key in each round, and removes the one of 100 rounds ago.
fn slide<H: KeyHash<u64>>(
    rt: &impl Abort,
    index: &mut HashIndex<u64, Rc<u64>, H>,
    counted: &Rc<u64>,
    name: &'static str,
) {
    let mut chained: usize = 0;
    for round in 0..20000u64 {
        let is_in = insert_clone(index, counted, round);
        let is_gone = match round.checked_sub(WINDOW) {
            Some(earlier) => index.remove(&earlier),
            None => true,
        };
        check_same(rt, (is_in, is_gone), (true, true), (name, round));
        let values = Rc::strong_count(counted).saturating_sub(1);
        chained = chained.max(values.saturating_sub(index.capacity()));
    }
    let few = (index.capacity() <= 1600, chained <= CHAINED);
    check_same(rt, (index.len(), few), (100, (true, true)), (name, chained));
}
