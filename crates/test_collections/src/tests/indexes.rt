//! Stories of an index of numbers: what each call returns, and which pairs are seen then.
use super::iterating::{MOST_BUCKETS, Pairs, gone_over, same_pairs, walk_numbers, walk_pairs};
use super::{check_same, pair_with};
use Expect::*;
use Resize::*;
use Step::*;
use bucket_table::script::ScriptHash;
use collections::hash_index::HashIndex;
use collections::hash_map::NotInserted;
use std::alloc::Global;
use std::ops::Range;
use std::process::Abort;
use std::test::Fail;
use test_helpers::{At, steps};

pub(super) type Index = HashIndex<u64, u64, ScriptHash>;

/// A call on an index with its expected result, or an expectation.
enum Step {
    /// Insert keys, each as its own value.
    InsertRange(Range<u64>),
    /// Insert a pair.
    Insert(u64, u64),
    /// Insert a pair, which is returned, since its key is present.
    InsertPresent(u64, u64),
    /// Remove a pair: whether its key was present.
    Remove(u64, bool),
    /// Remove a pair by `remove_with`, which passes this pair to its function.
    RemoveWith(u64, Option<(u64, u64)>),
    /// Remove a pair by `remove_if`, if its value is above the second number: whether it was.
    RemoveIfAbove(u64, u64, bool),
    /// Remove keys, which are present.
    RemoveRange(Range<u64>),
    /// Insert and remove an absent key, this many times.
    Alternate(u64, usize),
    /// Remove the pairs with odd keys.
    RetainEven,
    /// Remove all pairs.
    Clear,
    Resize(Resize),
    Expect(Expect),
}

/// A call that sets the minimum.
enum Resize {
    /// Raise the minimum by the first number: it is raised by the second.
    RaiseMinimum(usize, usize),
    /// Set the minimum to 0.
    ShrinkToFit,
}

/// What is expected of an index.
enum Expect {
    /// The value that a key has.
    Value(u64, Option<u64>),
    /// How many pairs there are.
    Len(usize),
    /// How many slots there are.
    Slots(usize),
}

/// What happens on a new index.
struct Story {
    name: &'static str,
    hasher: ScriptHash,
    capacity: usize,
    steps: &'static [Step],
}

// The maximum number of slots. Allocating this many fails.
const MOST: usize = 1 << 63;

// Under the hash that spreads low bytes, the first of two buckets has the keys below 128. The table
// grows when that bucket is full, and key 255 is always in the last bucket.
const STORIES: &[Story] = steps! {
    Story { name: "an insertion of a present key returns the pair",
        hasher: ScriptHash::Id, capacity: 0, steps: steps! {
            Expect(Slots(0)), Expect(Value(1, None)), Insert(1, 10), InsertPresent(1, 11),
            Expect(Value(1, Some(10))), Expect(Value(2, None)), Insert(2, 10), Expect(Len(2)),
            Expect(Slots(64)) } },
    Story { name: "a pair is removed once", hasher: ScriptHash::Id, capacity: 0,
        steps: steps! {
            Remove(1, false), Expect(Len(0)), Insert(1, 10), Insert(2, 20), Remove(1, true),
            Remove(1, false), Expect(Value(1, None)), Expect(Value(2, Some(20))), Expect(Len(1)),
            Remove(2, true), Remove(2, false), Expect(Len(0)) } },
    Story { name: "remove_with passes its pair once", hasher: ScriptHash::Id, capacity: 0,
        steps: steps! {
            RemoveWith(1, None), Insert(1, 10), Insert(2, 20), RemoveWith(1, Some((1, 10))),
            RemoveWith(1, None), Remove(1, false), Expect(Value(1, None)), Expect(Len(1)),
            Remove(2, true), RemoveWith(2, None), Expect(Len(0)) } },
    Story { name: "remove_if removes a pair only if its value passes", hasher: ScriptHash::Id,
        capacity: 0, steps: steps! {
            RemoveIfAbove(1, 0, false), Insert(1, 10), Insert(2, 20), RemoveIfAbove(1, 10, false),
            RemoveIfAbove(3, 0, false), Expect(Value(1, Some(10))), Expect(Len(2)),
            RemoveIfAbove(1, 9, true), RemoveIfAbove(1, 0, false), Expect(Value(1, None)),
            Expect(Len(1)), Remove(2, true), RemoveIfAbove(2, 0, false), Insert(2, 21),
            RemoveIfAbove(2, 20, true), Expect(Len(0)) } },
    Story { name: "a removed key is inserted again", hasher: ScriptHash::Id,
        capacity: 0, steps: steps! {
            Insert(1, 10), Insert(2, 20), Remove(1, true), Insert(1, 11),
            Expect(Value(1, Some(11))), Expect(Len(2)), InsertPresent(1, 12),
            RemoveWith(1, Some((1, 11))), Expect(Value(1, None)), Insert(1, 13),
            Expect(Value(1, Some(13))), Expect(Len(2)) } },
    // A bucket of 48 pairs doubles the slots while there is a pair for each 8: 64 make 1,024.
    Story { name: "keys with equal hashes make a chain", hasher: ScriptHash::Zero, capacity: 0,
        steps: steps! {
            InsertRange(0..100), Expect(Slots(1024)), Expect(Len(100)), Remove(50, true),
            Expect(Value(50, None)), RemoveWith(99, Some((99, 99))), InsertPresent(98, 1),
            Insert(50, 5), Expect(Value(50, Some(5))), Expect(Len(99)), RemoveRange(51..99),
            Expect(Len(51)), Remove(50, true), Expect(Len(50)), Expect(Value(49, Some(49))) } },
    // 33 keys of one bucket: the last one is in the chain, where each removal leaves a tombstone.
    // The 29th makes the eighth block. Of 256 slots, key 40 has a bucket without the others.
    Story { name: "the slots double where tombstones fill a chain", hasher: ScriptHash::Spread,
        capacity: 0, steps: steps! {
            InsertRange(0..32), Alternate(40, 29), Expect(Slots(64)), Alternate(40, 1),
            Expect(Slots(128)), Alternate(40, 1000), Expect(Slots(256)), Expect(Len(32)),
            Expect(Value(31, Some(31))), Expect(Value(40, None)) } },
    Story { name: "keys removed by retain are inserted again",
        hasher: ScriptHash::Zero, capacity: 0, steps: steps! {
            RetainEven, Expect(Len(0)), InsertRange(0..40), RetainEven, Expect(Len(20)),
            Expect(Value(1, None)), Expect(Value(0, Some(0))), Expect(Value(38, Some(38))),
            Remove(39, false), Insert(1, 11), Expect(Value(1, Some(11))), RetainEven,
            Expect(Value(1, None)), Expect(Len(20)), Insert(1, 12), Expect(Len(21)),
            Expect(Slots(64)) } },
    Story { name: "retain visits both arrays during a growth", hasher: ScriptHash::Spread,
        capacity: 0, steps: steps! {
            InsertRange(0..31), InsertRange(128..159), Insert(31, 31), Expect(Slots(128)),
            Expect(Len(63)), RetainEven, Expect(Len(32)), Expect(Value(5, None)),
            Expect(Value(158, Some(158))), Remove(5, false), Insert(5, 50), Expect(Len(33)) } },
    Story { name: "pairs are the same before, during and after a growth",
        hasher: ScriptHash::Spread, capacity: 0, steps: steps! {
            InsertRange(0..31), InsertRange(128..159), Expect(Slots(64)), Expect(Len(62)),
            Insert(31, 31), Expect(Slots(128)), Expect(Len(63)), Expect(Value(5, Some(5))),
            Expect(Value(158, Some(158))), Remove(5, true), Remove(5, false),
            RemoveWith(158, Some((158, 158))), Expect(Slots(128)), Expect(Len(61)),
            Expect(Value(5, None)), Expect(Value(158, None)), Expect(Value(6, Some(6))),
            Insert(5, 50), Expect(Value(5, Some(50))), Expect(Len(62)) } },
    // Three tombstones are in the array when it is dropped.
    Story { name: "a pair removed before a growth doesn't reappear after it",
        hasher: ScriptHash::Spread, capacity: 0, steps: steps! {
            InsertRange(0..31), InsertRange(128..159), Remove(0, true), Remove(9, true),
            Remove(130, true), Insert(9, 90), Resize(RaiseMinimum(256, 256)), Expect(Slots(256)),
            Expect(Len(60)), Expect(Value(0, None)), Expect(Value(9, Some(90))), Remove(0, false),
            InsertPresent(9, 91), Expect(Slots(256)), Expect(Len(60)), Insert(0, 1), Insert(130, 1),
            Expect(Len(62)) } },
    Story { name: "a raised minimum is reset", hasher: ScriptHash::Spread, capacity: 100,
        steps: steps! {
            Resize(RaiseMinimum(28, 28)), Expect(Slots(0)), Insert(255, 255), Expect(Slots(128)),
            Resize(RaiseMinimum(3968, 3968)), Expect(Slots(4096)), Expect(Len(1)),
            Expect(Value(255, Some(255))), Remove(254, false), Resize(ShrinkToFit),
            Expect(Slots(64)), Expect(Value(255, Some(255))), Expect(Len(1)),
            Resize(RaiseMinimum(MOST, MOST)), Expect(Slots(64)), Resize(RaiseMinimum(1, 0)) } },
    Story { name: "a cleared index keeps its slots", hasher: ScriptHash::Spread, capacity: 100,
        steps: steps! {
            Clear, Expect(Slots(0)), InsertRange(0..40), Expect(Slots(128)), Remove(5, true), Clear,
            Expect(Len(0)), Expect(Slots(128)), Expect(Value(6, None)), Remove(6, false), Clear,
            Insert(5, 6), Expect(Slots(128)), Expect(Len(1)), Expect(Value(5, Some(6))) } },
    Story { name: "an index that is cleared during a growth is filled again",
        hasher: ScriptHash::Spread, capacity: 0, steps: steps! {
            InsertRange(0..31), InsertRange(128..159), Insert(31, 31), Remove(5, true), Clear,
            Expect(Len(0)), Expect(Slots(128)), Expect(Value(5, None)), Expect(Value(158, None)),
            Insert(5, 50), Expect(Value(5, Some(50))), InsertRange(6..32), InsertRange(128..159),
            Expect(Len(58)), Expect(Value(158, Some(158))), Expect(Slots(128)) } },
    Story { name: "an index of many buckets is cleared and filled again",
        hasher: ScriptHash::Spread, capacity: 4096, steps: steps! {
            InsertRange(0..200), RemoveRange(100..150), Clear, Expect(Len(0)), Expect(Slots(4096)),
            Expect(Value(0, None)), Expect(Value(120, None)), InsertRange(50..150),
            Expect(Value(49, None)), Expect(Value(50, Some(50))), Expect(Value(149, Some(149))),
            Expect(Len(100)), RemoveRange(50..150), Expect(Len(0)), Expect(Slots(4096)) } }
};

#[test]
fn indexes_go_through_their_stories(rt: HostRuntime) -> Result<(), Fail> {
    for story in STORIES {
        play(&rt, rt.alloc(), story);
    }
    Ok(())
}

// Takes the steps of a story on a new index.
fn play(rt: &impl Abort, alloc: Global, story: &Story) {
    let mut index: Index = HashIndex::with_minimum(alloc, story.hasher, story.capacity);
    for (row, step) in story.steps.iter().enumerate() {
        take(rt, &mut index, (story.name, row), step);
        check_same(rt, *index.hasher(), story.hasher, (story.name, row));
    }
}

// Takes a step, and checks its result.
fn take(rt: &impl Abort, index: &mut Index, at: At, step: &Step) {
    match step {
        InsertRange(keys) => check_same(rt, insert_range(index, keys), true, at),
        Insert(key, value) => check_same(rt, insert(index, *key, *value), Ok(()), at),
        InsertPresent(key, value) => {
            let back = Err(Some((*key, *value)));
            check_same(rt, insert(index, *key, *value), back, at);
        }
        Remove(key, there) => check_same(rt, index.remove(key), *there, at),
        RemoveWith(key, pair) => check_same(rt, index.remove_with(key, pair_of), *pair, at),
        RemoveIfAbove(key, floor, gone) => {
            check_same(rt, remove_above(index, *key, *floor), *gone, at);
        }
        RemoveRange(keys) => check_same(rt, remove_range(index, keys), true, at),
        Alternate(key, rounds) => check_same(rt, alternate(index, *key, *rounds), true, at),
        RetainEven => index.retain(&mut is_even),
        Clear => index.clear(),
        Resize(call) => check_resize(rt, index, at, call),
        Expect(wanted) => check_expected(rt, index, at, wanted),
    }
}

// Inserts a pair. Returns the one that is returned because its key is present, or none if
// allocation fails.
fn insert(index: &mut Index, key: u64, value: u64) -> Result<(), Option<(u64, u64)>> {
    match index.insert(key, value) {
        Ok(()) => Ok(()),
        Err(NotInserted::Present(own, back)) => Err(Some((own, back))),
        Err(NotInserted::Memory(_, _)) => Err(None),
    }
}

// Inserts keys, each as its own value. Returns whether all were inserted.
fn insert_range(index: &mut Index, keys: &Range<u64>) -> bool {
    let mut are_in = true;
    for key in keys.start..keys.end {
        are_in = index.insert(key, key).is_ok() && are_in;
    }
    are_in
}

// Removes a pair whose value is above a number. Returns whether there was one.
fn remove_above(index: &mut Index, key: u64, floor: u64) -> bool {
    index.remove_if(&key, |_own: &u64, value: &u64| *value > floor)
}

// Removes keys. Returns whether each was present.
fn remove_range(index: &mut Index, keys: &Range<u64>) -> bool {
    let mut were_there = true;
    for key in keys.start..keys.end {
        were_there = index.remove(&key) && were_there;
    }
    were_there
}

// Inserts and removes a key, so many times. Returns whether each call did so.
fn alternate(index: &mut Index, key: u64, rounds: usize) -> bool {
    for _ in 0..rounds {
        if index.insert(key, key).is_err() || !index.remove(&key) {
            return false;
        }
    }
    true
}

fn is_even(own: &u64, _value: &u64) -> bool {
    *own % 2 == 0
}

fn pair_of(own: &u64, value: &u64) -> (u64, u64) {
    (*own, *value)
}

// Makes a call that sets the minimum, and checks its result.
fn check_resize(rt: &impl Abort, index: &mut Index, at: At, call: &Resize) {
    match *call {
        RaiseMinimum(by, raised) => check_same(rt, index.raise_minimum(by), raised, at),
        ShrinkToFit => index.shrink_to_fit(),
    }
}

// Checks an expectation about an index.
fn check_expected(rt: &impl Abort, index: &Index, at: At, wanted: &Expect) {
    match *wanted {
        Value(key, value) => {
            let found = (
                index.peek(&key).copied(),
                index.contains(&key),
                pair(index, key),
            );
            let wanted = (value, value.is_some(), pair_with(key, value));
            check_same(rt, found, wanted, at);
        }
        Len(len) => {
            let found = (index.len(), index.is_empty(), met(index));
            check_same(rt, found, (len, len == 0, Some(len)), at);
        }
        Slots(slots) => check_same(rt, index.capacity(), slots, at),
    }
}

// The pair of a key.
fn pair(index: &Index, key: u64) -> Option<(u64, u64)> {
    match index.peek_key_value(&key) {
        Some((own, value)) => Some((*own, *value)),
        None => None,
    }
}

// How many pairs each iterator over an index yields.
fn met(index: &Index) -> Option<usize> {
    gone_over!(index, peek)
}
