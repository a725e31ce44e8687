//! Calls on tables, each on a table of its own, for runs in which an allocation fails. A call that
//! failed leaves what its contract states, and succeeds when it is repeated.
use crate::by_call::*;
use crate::cases::{CASES, Call, Case, Expect, Seen, Step};
use crate::outcome::Outcome;
use bucket_table::hash_table::{HashTable, MAXIMUM_CAPACITY_LIMIT};
use std::alloc::Global;
use std::ops::Range;
use test_helpers::{FewKeys, KEYS};

/// Runs the cases, each if the one before was done.
pub(crate) fn direct_calls(alloc: Global) -> Outcome {
    for case in &CASES {
        match perform(alloc, case) {
            Outcome::Done => {}
            outcome => return outcome,
        }
    }
    Outcome::Done
}

/// Runs a case, and judges it by its expected effect of an allocation failure in its steps.
fn perform(alloc: Global, case: &Case) -> Outcome {
    let mut table: Map = HashTable::new(alloc, case.hasher, 0, MAXIMUM_CAPACITY_LIMIT);
    let mut beside = FewKeys::new();
    let mut outcome = Outcome::Done;
    for step in case.start {
        match play(alloc, &mut table, &mut beside, step) {
            Outcome::Done => {}
            refused => return judged(&mut table, &beside, refused),
        }
    }
    for step in case.steps {
        match play(alloc, &mut table, &mut beside, step) {
            Outcome::Done => {}
            refused if refused.status() == case.refused.status() => outcome = refused,
            _ => return Outcome::Wrong,
        }
    }
    judged(&mut table, &beside, outcome)
}

/// Returns the outcome, if the table has the map's pairs.
fn judged(table: &mut Map, beside: &FewKeys, outcome: Outcome) -> Outcome {
    if holds(table, beside) && table.num_entries() == beside.len() {
        outcome
    } else {
        Outcome::Wrong
    }
}

/// Takes a step.
fn play(alloc: Global, table: &mut Map, beside: &mut FewKeys, step: &Step) -> Outcome {
    match step {
        Step::InsertRange(keys) => attempt_range(alloc, table, beside, keys, true),
        Step::RemoveRange(keys) => attempt_range(alloc, table, beside, keys, false),
        Step::Call(call) => attempt(alloc, table, beside, call),
        Step::Expect(wanted) => match look(table, wanted) {
            Answer::Right => Outcome::Done,
            Answer::Unresized => Outcome::Unresized,
            Answer::Unmoved => Outcome::Unmoved,
            Answer::Refused | Answer::Wrong => Outcome::Wrong,
        },
    }
}

/// Inserts or removes keys, up to a wrong outcome. Else the outcome is the last unusual one.
fn attempt_range(
    alloc: Global,
    table: &mut Map,
    beside: &mut FewKeys,
    keys: &Range<u64>,
    inserts: bool,
) -> Outcome {
    let mut outcome = Outcome::Done;
    for key in keys.start..keys.end {
        let call = if inserts {
            Call::Insert(key)
        } else {
            Call::Remove(key)
        };
        match attempt(alloc, table, beside, &call) {
            Outcome::Done => {}
            Outcome::Wrong => return Outcome::Wrong,
            other => outcome = other,
        }
    }
    outcome
}

/// Makes a call, and repeats it if an allocation failed and it left the slots, the word and the
/// pairs.
fn attempt(alloc: Global, table: &mut Map, beside: &mut FewKeys, call: &Call) -> Outcome {
    let before = seen_of(table);
    match take(alloc, table, beside, call) {
        Answer::Right => return Outcome::Done,
        Answer::Unresized => return Outcome::Unresized,
        Answer::Unmoved => return Outcome::Unmoved,
        Answer::Wrong => return Outcome::Wrong,
        Answer::Refused => {}
    }
    if seen_of(table) != before || !holds(table, beside) {
        return Outcome::Wrong;
    }
    match take(alloc, table, beside, call) {
        Answer::Right => Outcome::AsBefore,
        _ => Outcome::Wrong,
    }
}

/// Makes a call.
fn take(alloc: Global, table: &mut Map, beside: &mut FewKeys, call: &Call) -> Answer {
    match call {
        Call::Insert(key) => put(table, beside, *key),
        Call::Remove(key) => take_out(table, beside, *key),
        Call::RunScript(key) => run_calls(alloc, table, *key),
        Call::RaiseMinimum(by) => right_if(table.reserve_capacity(*by) == *by),
        Call::IssueTicket(ticket) => { right_if(table.start_incremental_rehash() == Some(*ticket)) }
        Call::MakeArray(len) => make(table, *len),
        Call::LockBucket(hash, index) => lock(table, *hash, *index),
        Call::ReserveBucket(hash, index) => reserve(table, *hash, *index),
        Call::TryResize(comes) => resize(table, *comes),
        Call::GrowIfOverfull(hash, comes) => double(table, *hash, *comes),
        Call::Read(key) => read(table, *key),
        Call::Write(key) => write(table, beside, *key),
        Call::Relocate(index, pairs) => relocate(table, *index, *pairs),
        Call::Finish(units) => finish(table, *units),
        Call::WalkReading(whole, refused) => walk(table, *whole, *refused),
        Call::WalkWriting(whole, refused) => visit(table, *whole, *refused),
        Call::FollowCursor(first, second) => meet(table, *first, *second),
        Call::Sweep(below, passed) => sweep(table, beside, *below, *passed),
    }
}

/// Compares what is seen of the table.
fn look(table: &Map, wanted: &Expect) -> Answer {
    match wanted {
        Expect::Slots(seen) => right_if(seen_of(table) == *seen),
        Expect::Resized(seen, left_out) => right_or(
            seen_of(table) == *seen,
            seen_of(table) == *left_out,
            Answer::Unresized,
        ),
        Expect::Worked(seen, given_up) => right_or(
            seen_of(table) == *seen,
            seen_of(table) == *given_up,
            Answer::Unmoved,
        ),
        Expect::InOwnSlot(key, index, slot) => right_if(stands(table, *key, *index, *slot)),
        Expect::Killed(index) => right_if(is_moved(table, *index)),
        Expect::Moved(index, pairs) => right_or(
            is_moved(table, *index),
            old_bucket(table, *index) == Some((false, *pairs)),
            Answer::Unmoved,
        ),
    }
}

/// Returns `Right` if no allocation failed, else the answer given for a failure.
fn right_or(granted: bool, refused: bool, answer: Answer) -> Answer {
    if granted {
        Answer::Right
    } else if refused {
        answer
    } else {
        Answer::Wrong
    }
}

/// Returns whether the pairs of an old bucket have moved, or the old array is dropped.
fn is_moved(table: &Map, index: usize) -> bool {
    match old_bucket(table, index) {
        Some((killed, pairs)) => killed && pairs == 0,
        None => !table.has_linked_array(),
    }
}

fn seen_of(table: &Map) -> Seen {
    (table.num_slots(), table.rehashing_metadata())
}

/// Returns whether the table has the map's values.
fn holds(table: &Map, beside: &FewKeys) -> bool {
    for key in 0..KEYS {
        let there = match table.peek_entry(&key) {
            Some((_, found)) => Some(*found),
            None => None,
        };
        if there != beside.value(key) {
            return false;
        }
    }
    true
}
