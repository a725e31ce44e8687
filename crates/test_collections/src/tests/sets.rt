//! The story of a set of numbers.
use super::two_sets::{Call, Ranges, check_listed, handed_over};
use super::{check_same, std_sets};
use Expect::*;
use Resize::*;
use Step::*;
use bucket_table::script::ScriptHash;
use collections::hash_map::NotInserted;
use collections::hash_set::HashSet;
use std::alloc::Global;
use std::ops::Range;
use std::process::Abort;
use std::test::Fail;
use test_helpers::{At, steps};

pub(super) type Set = HashSet<u64, ScriptHash>;

/// A call on a set with its expected result, or an expectation.
pub(super) enum Step {
    /// Insert a key by `insert_new`.
    InsertNew(u64),
    /// Insert a key by `insert_new`, which returns it, since it is present.
    InsertPresent(u64),
    /// Insert these keys from an iterator.
    ExtendBy(&'static [u64]),
    /// Insert a key by `insert`: whether it was absent.
    Insert(u64, bool),
    /// Remove a key by `take`, which returns this one.
    Take(u64, Option<u64>),
    /// Remove a key by `remove`: whether it was present.
    Remove(u64, bool),
    /// Retain the keys that a number divides. The function is called with this many.
    RetainMultiples(u64, usize),
    /// Remove all keys.
    Clear,
    Resize(Resize),
    Expect(Expect),
}

/// A call that sets the minimum or the slots.
pub(super) enum Resize {
    /// Raise the minimum by the first number: it is raised by the second.
    RaiseMinimum(usize, usize),
    /// Make room for this many more keys: whether that succeeds.
    Reserve(usize, bool),
    /// Set the minimum to 0, and free the slots that the keys don't take.
    ShrinkToFit,
}

/// What is expected of a set.
pub(super) enum Expect {
    /// Whether a key is present.
    Contains(u64, bool),
    /// The keys that `for_each` and a loop visit.
    Keys(Ranges),
    /// How many keys and slots there are.
    Counts(usize, usize),
}

const STEPS: &[Step] = steps! {
    Expect(Counts(0, 0)), Take(1, None), Remove(1, false), Insert(1, true), Insert(1, false),
    InsertPresent(1), InsertNew(2), Expect(Counts(2, 64)), Expect(Contains(1, true)),
    Expect(Contains(3, false)), Take(1, Some(1)), Take(1, None), Expect(Contains(1, false)),
    Expect(Contains(2, true)), Clear, Expect(Counts(0, 64)), Expect(Contains(2, false)),
    Resize(RaiseMinimum(192, 192)), InsertNew(255), Expect(Counts(1, 256)), Resize(ShrinkToFit),
    Expect(Counts(1, 64)), Expect(Contains(255, true)), Resize(RaiseMinimum(1 << 63, 1 << 63)),
    Resize(RaiseMinimum(1, 0)), InsertPresent(255), Expect(Keys(&[255..256])),
    RetainMultiples(5, 1), Expect(Keys(&[255..256])), InsertNew(7), InsertNew(0), InsertNew(14),
    Expect(Keys(&[0..1, 7..8, 14..15, 255..256])), RetainMultiples(7, 4),
    Expect(Keys(&[0..1, 7..8, 14..15])), Remove(14, true), Remove(14, false),
    Expect(Keys(&[0..1, 7..8])), Insert(14, true), InsertPresent(7), RetainMultiples(100, 3),
    Expect(Keys(&[0..1])), Clear, Expect(Keys(&[])), RetainMultiples(1, 0), Resize(ShrinkToFit),
    Resize(Reserve(53, true)), Expect(Counts(0, 128)), InsertNew(3), Resize(Reserve(103, true)),
    Expect(Counts(1, 128)), Resize(Reserve(104, true)), Expect(Counts(1, 256)),
    Resize(Reserve(1 << 60, false)), Insert(4, true), Expect(Counts(2, 256)), Resize(ShrinkToFit),
    Expect(Counts(2, 64)), Expect(Contains(3, true)), Clear, Resize(ShrinkToFit),
    Expect(Counts(0, 0))
};

#[test]
fn a_set_goes_through_its_story(rt: HostRuntime) -> Result<(), Fail> {
    play(&rt, rt.alloc(), STEPS);
    play(&rt, rt.alloc(), std_sets::STEPS);
    Ok(())
}

// Inserts keys. Returns whether all were inserted.
pub(super) fn fill_set(set: &mut Set, keys: &Range<u64>) -> bool {
    let mut are_in = true;
    for key in keys.start..keys.end {
        are_in = set.insert_new(key).is_ok() && are_in;
    }
    are_in
}

// Takes steps on a new set.
fn play(rt: &impl Abort, alloc: Global, steps: &[Step]) {
    let mut set: Set = HashSet::with_hasher(alloc, ScriptHash::Spread);
    for (row, step) in steps.iter().enumerate() {
        take(rt, alloc, &mut set, ("a set", row), step);
        check_same(rt, *set.hasher(), ScriptHash::Spread, row);
    }
}

// Takes a step, and checks its result.
fn take(rt: &impl Abort, alloc: Global, set: &mut Set, at: At, step: &Step) {
    match step {
        InsertNew(key) => check_same(rt, insert_new(set, *key), Ok(()), at),
        InsertPresent(key) => check_same(rt, insert_new(set, *key), Err(Some(*key)), at),
        ExtendBy(keys) => check_same(rt, extend_by(set, keys), true, at),
        Insert(key, added) => check_same(rt, set.insert(*key).ok(), Some(*added), at),
        Take(key, taken) => check_same(rt, set.take(key), *taken, at),
        Remove(key, gone) => check_same(rt, set.remove(key), *gone, at),
        RetainMultiples(divisor, asked) => check_same(rt, retain(set, *divisor), *asked, at),
        Clear => set.clear(),
        Resize(call) => check_resize(rt, set, at, call),
        Expect(wanted) => check_expected(rt, alloc, set, at, wanted),
    }
}

// Inserts a key. Returns the one that is returned because it is present, or none if allocation
// fails.
fn insert_new(set: &mut Set, key: u64) -> Result<(), Option<u64>> {
    match set.insert_new(key) {
        Ok(()) => Ok(()),
        Err(NotInserted::Present(own, ())) => Err(Some(own)),
        Err(NotInserted::Memory(_, ())) => Err(None),
    }
}

// Inserts keys from an iterator. Returns whether all were inserted.
fn extend_by(set: &mut Set, keys: &[u64]) -> bool {
    set.try_extend(&mut keys.iter().copied()).is_ok()
}

// Makes a call that sets the minimum or the slots, and checks its result.
fn check_resize(rt: &impl Abort, set: &mut Set, at: At, call: &Resize) {
    match *call {
        RaiseMinimum(by, raised) => check_same(rt, set.raise_minimum(by), raised, at),
        Reserve(additional, made) => {
            check_same(rt, set.try_reserve(additional).is_ok(), made, at);
        }
        ShrinkToFit => check_same(rt, set.shrink_to_fit().is_ok(), true, at),
    }
}

// Checks an expectation about a set.
fn check_expected(rt: &impl Abort, alloc: Global, set: &Set, at: At, wanted: &Expect) {
    match *wanted {
        Contains(key, there) => check_same(rt, set.contains(&key), there, at),
        Keys(ranges) => check_keys(rt, alloc, set, at, ranges),
        Counts(keys, slots) => {
            let found = (set.len(), set.is_empty(), set.capacity());
            check_same(rt, found, (keys, keys == 0, slots), at);
        }
    }
}

// The keys that a set has.
fn check_keys(rt: &impl Abort, alloc: Global, set: &Set, at: At, ranges: Ranges) {
    let found = handed_over(alloc, set, set, Call::ForEach);
    check_listed(rt, alloc, found, ranges, (at, "for_each"));
    check_listed(rt, alloc, keys_met(alloc, set), ranges, (at, "iter"));
}

// Keeps the keys that a number divides. Returns how many calls of the function there were.
fn retain(set: &mut Set, divisor: u64) -> usize {
    let mut asked: usize = 0;
    let mut keep = |key: &u64| -> bool {
        asked = asked.saturating_add(1);
        divisor != 0 && *key % divisor == 0
    };
    set.retain_ref(&mut keep);
    asked
}

// The keys that a loop over the set meets.
fn keys_met(alloc: Global, set: &Set) -> Vec<u64> {
    let mut keys = Vec::new(alloc);
    for key in set {
        let _ = keys.push(*key);
    }
    keys
}
