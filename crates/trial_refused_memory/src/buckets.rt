//! Two buckets, for runs in which an allocation fails.
use crate::outcome::Outcome;
use bucket_slots::bucket::{Bucket, EntryPtr, MAP};
use std::alloc::Global;

type Pairs = Bucket<u64, u64, (), MAP>;

// The own slots of a bucket. That many pairs need no allocation.
const OWN_SLOTS: u64 = 32;

// More slots than are left in the first block of a chain.
const RESERVED: usize = 9;

/// Fills two buckets, and then overflows one, reserves room there, and moves a pair to the other.
pub(crate) fn two_buckets(alloc: Global) -> Outcome {
    let Some(mut first) = filled(alloc) else {
        return Outcome::Wrong;
    };
    let Some(mut second) = filled(alloc) else {
        return Outcome::Wrong;
    };
    match overflow(&mut first) {
        Outcome::Done => {}
        outcome => return outcome,
    }
    match reserve(&mut first) {
        Outcome::Done => transfer(&mut first, &mut second),
        outcome => outcome,
    }
}

/// Returns a bucket of the keys 0 to 31, each its own value, with one hash.
fn filled(alloc: Global) -> Option<Pairs> {
    let mut bucket = Pairs::new(alloc);
    for key in 0..OWN_SLOTS {
        if bucket.insert(0, (key, key), &()).is_err() {
            return None;
        }
    }
    Some(bucket)
}

/// Inserts key 32, which needs a block.
fn overflow(bucket: &mut Pairs) -> Outcome {
    match bucket.insert(0, (OWN_SLOTS, OWN_SLOTS), &()) {
        Ok(_) => judged(holds(bucket, OWN_SLOTS + 1), Outcome::Done),
        Err(pair) => judged(
            pair == (OWN_SLOTS, OWN_SLOTS) && holds(bucket, OWN_SLOTS),
            Outcome::AsBefore,
        ),
    }
}

/// Reserves more slots than are free.
fn reserve(bucket: &mut Pairs) -> Outcome {
    let outcome = match bucket.reserve_slots(RESERVED) {
        Ok(()) => Outcome::Done,
        Err(_) => Outcome::AsBefore,
    };
    judged(holds(bucket, OWN_SLOTS + 1), outcome)
}

/// Moves key 32 from one bucket to another, which is full and needs a block.
fn transfer(from: &mut Pairs, to: &mut Pairs) -> Outcome {
    let mut at = from.get_entry_ptr(&OWN_SLOTS, 0);
    if !at.is_valid() || to.is_killed() {
        return Outcome::Wrong;
    }
    match to.extract_from(0, from, &mut at) {
        Ok(_) => judged(
            holds(from, OWN_SLOTS) && holds(to, OWN_SLOTS + 1),
            Outcome::Done,
        ),
        Err(_) => judged(
            points_to(&at, from) && holds(from, OWN_SLOTS + 1) && holds(to, OWN_SLOTS),
            Outcome::AsBefore,
        ),
    }
}

/// Returns whether the pointer is still that of key 32.
fn points_to(at: &EntryPtr<u64, u64, MAP>, bucket: &Pairs) -> bool {
    let there = bucket.get_entry_ptr(&OWN_SLOTS, 0);
    at.is_valid() && (at.block(), at.pos()) == (there.block(), there.pos())
}

/// Returns whether the bucket has exactly the keys below `keys`, each with itself as its value.
fn holds(bucket: &Pairs, keys: u64) -> bool {
    for key in 0..keys {
        if bucket.search_entry(&key, 0) != Some((&key, &key)) {
            return false;
        }
    }
    bucket.len() == keys as usize
}

/// Returns the outcome, if it is right.
fn judged(right: bool, outcome: Outcome) -> Outcome {
    if right { outcome } else { Outcome::Wrong }
}
