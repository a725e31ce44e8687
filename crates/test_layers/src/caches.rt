//! Evictions from one bucket of a cache: only from own slots, in LRU order. One call takes the
//! order out of a bucket, and another one appends a pair as the oldest.
use crate::checks::check_same;
use crate::steps::Expect::*;
use crate::steps::Set::*;
use crate::steps::Step::*;
use crate::steps::{Story, stories};
use bucket_slots::bucket::CACHE;
use bucket_slots::lru::DoublyLinkedList;
use std::process::Abort;
use std::test::Fail;

type Stage = crate::stage::Stage<DoublyLinkedList, CACHE>;

// Each key is its own value.
pub(crate) const EVICTIONS: &[Story] = stories! {
    // An own slot is free after the first eviction, though the chain is not empty.
    "an eviction considers only own slots", 0:
        Set(Values(1, 0)), InsertAndTouch(0..40), Evict(Some(0)), Expect(Len(39)), Evict(None),
        Expect(Len(39));
    "slot 0 is evicted if nothing was touched", 0:
        Set(Values(1, 0)), InsertRange(0..32), Evict(Some(0)), Expect(Len(31)), Insert(40, (0, 0)),
        Evict(Some(40)), Expect(Len(31)), Evict(None), Expect(Len(31));
};

pub(crate) const ORDERS: &[Story] = stories! {
    "taking the order leaves nothing listed", 0:
        Set(Values(1, 0)), InsertAndTouch(0..4), Touch(1, true), TakeOrder(&[1, 3, 2, 0]),
        TakeOrder(&[]), InsertRange(4..32), Touch(2, true), TakeOrder(&[2]), Evict(Some(0)),
        Expect(Len(31));
    "the order of a full bucket is taken", 0:
        InsertAndTouch(0..40), TakeOrder(&[
            31, 30, 29, 28, 27, 26, 25, 24, 23, 22, 21, 20, 19, 18, 17, 16, 15, 14, 13, 12, 11, 10,
            9, 8, 7, 6, 5, 4, 3, 2, 1, 0,
        ]), Expect(Len(40)), Expect(Present(0..40));
    "a pair inserted as the oldest is evicted first", 0:
        Set(Values(1, 0)), InsertAndTouch(0..2), InsertOldest(2, (0, 2)), InsertOldest(3, (0, 3)),
        InsertRange(4..32), Evict(Some(3)), InsertRange(40..41), Evict(Some(2)),
        InsertRange(41..42), Evict(Some(0)), InsertRange(42..43), Evict(Some(1)),
        InsertRange(43..44), Evict(Some(42)), Expect(Len(31));
    "a slot appended to an empty list is the newest", 0:
        InsertOldest(7, (0, 0)), InsertOldest(8, (0, 1)), TakeOrder(&[0, 1]),
        InsertOldest(9, (0, 2)), Touch(8, true), Touch(9, true), TakeOrder(&[2, 1]);
    "a pair in the chain isn't listed", 0:
        InsertRange(0..31), InsertOldest(31, (0, 31)), InsertOldest(32, (1, 0)), TakeOrder(&[31]);
};

pub(crate) const NO_ORDER: &[Story] = stories! {
    "nothing is listed", 0:
        Set(Values(1, 0)), InsertOldest(0, (0, 0)), InsertOldest(1, (0, 1)), InsertAndTouch(2..32),
        TakeOrder(&[]), Touch(1, true), TakeOrder(&[]), Evict(Some(0)), Expect(Len(31));
};

// Twice as many pairs as own slots are inserted, one after another, and none is touched.
#[test]
fn untouched_pairs_are_evicted_at_slot_zero(rt: HostRuntime) -> Result<(), Fail> {
    let mut stage = Stage::new(rt.alloc());
    stage.step(&rt, ("each key its own value", 0), &Set(Values(1, 0)))?;
    let mut in_slot_zero = 0;
    for key in 0..64u64 {
        let row = ("one more untouched pair", key as usize);
        let (goes, left, slot) = if key < 32 {
            (None, key as usize, key as usize)
        } else {
            (Some(in_slot_zero), 31, 0)
        };
        stage.step(&rt, row, &Evict(goes))?;
        stage.step(&rt, row, &Expect(Len(left)))?;
        stage.step(&rt, row, &Insert(key, (0, slot)))?;
        if key >= 32 {
            in_slot_zero = key;
        }
    }
    Ok(())
}

// For each number of pairs below twice the own slots, three times in one bucket: all pairs are
// inserted and touched, one is evicted if the own slots are full, and the others are removed.
#[test]
fn a_bucket_that_is_empty_again_evicts_as_a_new_one(rt: HostRuntime) -> Result<(), Fail> {
    for pairs in 1..64u64 {
        let (first, goes) = if pairs < 32 { (0, None) } else { (1, Some(0)) };
        let round = [
            Set(Values(1, 0)),
            InsertAndTouch(0..pairs),
            Evict(goes),
            Expect(Absent(0..first)),
            RemoveRange(first..pairs),
            Expect(Absent(first..pairs)),
            Evict(None),
            Expect(Len(0)),
        ];
        let mut stage = Stage::new(rt.alloc());
        for _ in 0..3 {
            stage.play(&rt, "filled and emptied", &round)?;
        }
    }
    Ok(())
}

// For each number of pairs below twice the own slots: each pair is touched when it is inserted.
// Once the own slots are full, each insertion is followed by another touch of the pair in one slot.
// The reference model is a list of the keys, newest first.
#[test]
fn touched_pairs_are_evicted_in_the_order_of_their_touches(rt: HostRuntime) -> Result<(), Fail> {
    for pairs in 0..64u64 {
        let mut stage = Stage::new(rt.alloc());
        let mut plain: Vec<u64> = Vec::new(rt.alloc());
        stage.step(&rt, ("each key its own value", 0), &Set(Values(1, 0)))?;
        for key in 0..pairs {
            let row = ("one more touched pair", key as usize);
            let oldest = if key < 32 { None } else { plain.pop() };
            stage.step(&rt, row, &Evict(oldest))?;
            stage.step(&rt, row, &InsertAndTouch(key..key.wrapping_add(1)))?;
            plain.insert(0, key)?;
            if key >= 32 {
                let Some(again) = stage.key_in((pairs % 32) as usize) else {
                    return Err("a free own slot".into());
                };
                stage.step(&rt, row, &Touch(again, true))?;
                plain.retain(|other| *other != again);
                plain.insert(0, again)?;
            }
        }
        if pairs < 32 {
            stage.step(&rt, ("a free own slot", 0), &Evict(None))?;
        } else {
            check_same(&rt, plain.len(), 32, pairs);
            evict_all(&rt, &mut stage, plain.as_slice())?;
        }
    }
    Ok(())
}

// For each number of touched pairs, and each number of them that is removed, oldest first: the
// bucket is filled with untouched pairs, and evicts the touched pairs that are left, oldest first.
#[test]
fn a_removed_pair_leaves_the_others_in_their_order(rt: HostRuntime) -> Result<(), Fail> {
    for touched in 0..33u64 {
        for gone in 0..touched + 1 {
            let mut stage = Stage::new(rt.alloc());
            let mut plain: Vec<u64> = Vec::new(rt.alloc());
            let end = gone.wrapping_add(132).wrapping_sub(touched);
            let steps = [
                Set(Values(1, 0)),
                InsertAndTouch(0..touched),
                RemoveRange(0..gone),
                InsertRange(100..end),
                Expect(Len(32)),
            ];
            stage.play(&rt, "touched pairs are removed", &steps)?;
            for key in gone..touched {
                plain.insert(0, key)?;
            }
            evict_all(&rt, &mut stage, plain.as_slice())?;
        }
    }
    Ok(())
}

// Evicts the listed keys, which are given newest first, from a bucket whose own slots are full. An
// untouched pair takes the place of each. Then nothing is listed, and the pair in slot 0 is
// evicted.
fn evict_all(rt: &impl Abort, stage: &mut Stage, listed: &[u64]) -> Result<(), Fail> {
    for oldest in listed.iter().rev() {
        let row = ("the oldest is evicted", *oldest as usize);
        let comes = oldest.wrapping_add(1000);
        stage.step(rt, row, &Evict(Some(*oldest)))?;
        stage.step(rt, row, &InsertRange(comes..comes.wrapping_add(1)))?;
    }
    let in_slot_zero = stage.key_in(0);
    check_same(rt, in_slot_zero.is_some(), true, "slot 0");
    stage.step(rt, ("nothing is listed", 0), &Evict(in_slot_zero))?;
    Ok(())
}
