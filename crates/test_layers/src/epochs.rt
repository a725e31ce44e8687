//! Calls on an index's table that leave tombstones: each has the epoch of its call.
use crate::by_lock::{Table, put_at};
use crate::checks::check_same;
use crate::steps::{Answers, Kept, Spot};
use Step::*;
use bucket_slots::bucket::INDEX;
use bucket_table::hash_table::HashTable;
use bucket_table::script::{Call, Reply, ScriptHash, run};
use std::alloc::Global;
use std::process::Abort;
use std::test::Fail;
use test_helpers::steps;

type Index = Table<(), INDEX>;

/// A name, and what happens on an index whose keys 0 to 31 fill the own slots of one bucket, each
/// in the slot of its number.
type Story = (&'static str, &'static [Step]);

/// A setting for the steps that follow, or a call with its expected answer.
enum Step {
    /// Set the epoch from here on, and which tombstones are kept. At first it is 0, and all are.
    SetEpoch(u8, Kept),
    /// Remove the pairs of keys below a number by a sweep: this many.
    Sweep(u64, usize),
    /// Remove the pairs of keys below a number by `retain`, which calls its function for each live
    /// pair: this many.
    Retain(u64, usize),
    /// Clear the table, which has this many pairs, by a script.
    Clear(usize),
    /// Remove a key, which is its own value, by a script.
    Remove(u64),
    /// Insert a new key, which is then in this place.
    Insert(u64, Spot),
}

// Only the tombstone of epoch 5 is kept.
const FIVE: Kept = Kept::Rest(255, 5);

const STORIES: &[Story] = steps! {
    // The last two steps drop only the tombstone of epoch 5.
    ("tombstones of a sweep have its epoch", steps! {
        SetEpoch(5, Kept::All), Sweep(4, 4), SetEpoch(0, FIVE), Insert(32, (1, 0)),
        SetEpoch(0, Kept::But(5)), Insert(33, (0, 0)) }),
    ("tombstones of a sweep are dropped if their epoch isn't kept", steps! {
        SetEpoch(7, Kept::All), Sweep(4, 4), SetEpoch(0, FIVE), Insert(32, (0, 0)) }),
    ("retain doesn't visit tombstones", steps! {
        SetEpoch(5, Kept::All), Retain(4, 32), Retain(4, 28), SetEpoch(0, FIVE), Insert(32, (1, 0)),
        SetEpoch(0, Kept::But(5)), Insert(33, (0, 0)) }),
    ("tombstones of a clear have its epoch", steps! {
        SetEpoch(5, Kept::All), Clear(32), SetEpoch(0, FIVE), Insert(32, (1, 0)),
        SetEpoch(0, Kept::But(5)), Insert(33, (0, 0)) }),
    ("tombstones of a clear are dropped if their epoch isn't kept", steps! {
        SetEpoch(7, Kept::All), Clear(32), SetEpoch(0, FIVE), Insert(32, (0, 0)) }),
    ("tombstones of removals have their epoch", steps! {
        SetEpoch(5, Kept::All), Remove(0), Remove(9), SetEpoch(0, FIVE), Insert(32, (1, 0)),
        SetEpoch(0, Kept::But(5)), Insert(33, (0, 0)), Insert(34, (0, 9)) }),
    ("tombstones of removals are dropped if their epoch isn't kept", steps! {
        SetEpoch(7, Kept::All), Remove(0), SetEpoch(5, Kept::All), Remove(9), SetEpoch(0, FIVE),
        Insert(32, (0, 0)), Insert(33, (1, 0)) })
};

#[test]
fn calls_on_an_index_mark_with_their_epoch(rt: HostRuntime) -> Result<(), Fail> {
    for (name, steps) in STORIES {
        let mut table = new_index(rt.alloc());
        for key in 0..32 {
            let found = put_at(&mut table, key, &());
            check_same(&rt, found, Some((0, (0, key as usize))), (*name, key));
        }
        play(&rt, rt.alloc(), &mut table, name, steps)?;
    }
    Ok(())
}

// An index with no pair, whose minimum and maximum are 64 slots.
fn new_index(alloc: Global) -> Index {
    HashTable::new(alloc, ScriptHash::Zero, 64, 64)
}

// Removes the pairs of keys below a number. Returns how often the function was called.
fn retain_from(table: &mut Index, from: u64, now: &Answers) -> usize {
    let mut asked: usize = 0;
    let mut keep = |key: &u64, _value: &mut u64| -> bool {
        asked = asked.wrapping_add(1);
        *key >= from
    };
    let _ = table.retain(&mut keep, now);
    asked
}

// Takes one step after another, and checks each result.
fn play(
    rt: &impl Abort,
    alloc: Global,
    table: &mut Index,
    story: &'static str,
    steps: &[Step],
) -> Result<(), Fail> {
    let mut now = Answers::new(0, &Kept::All);
    for (row, step) in steps.iter().enumerate() {
        match step {
            SetEpoch(epoch, kept) => now = Answers::new(*epoch, kept),
            Sweep(from, taken) => {
                let keep = |key: &u64, _value: &u64| *key >= *from;
                check_same(rt, table.sweep(&keep, &now)?, *taken, (story, row));
            }
            Retain(from, asked) => {
                check_same(rt, retain_from(table, *from, &now), *asked, (story, row));
            }
            Clear(pairs) => {
                let reply = reply_to(alloc, table, Call::Clear, &now)?;
                let cleared = matches!(reply, Some(Reply::Cleared(taken)) if taken == *pairs);
                check_same(rt, cleared, true, (story, row));
            }
            Remove(key) => {
                let reply = reply_to(alloc, table, Call::Remove(*key), &now)?;
                let removed = matches!(reply, Some(Reply::Pair(own, _)) if own == *key);
                check_same(rt, removed, true, (story, row));
            }
            Insert(key, spot) => {
                check_same(
                    rt,
                    put_at(table, *key, &now),
                    Some((0, *spot)),
                    (story, row),
                );
            }
        }
    }
    Ok(())
}

// Makes one call as a script.
fn reply_to(
    alloc: Global,
    table: &mut Index,
    call: Call<u64, u64>,
    now: &Answers,
) -> Result<Option<Reply<u64, u64>>, Fail> {
    let mut calls = Vec::new(alloc);
    calls.push(call)?;
    let mut replies = run(alloc, table, calls, now)?;
    Ok(replies.pop())
}
