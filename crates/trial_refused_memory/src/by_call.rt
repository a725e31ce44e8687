//! Single calls on a map of numbers, each with its expected result, with and without an allocation
//! failure.
ghost use Rattle.std.specs.Prelude.{◌≡◌, false};
ghost use Rattle.bucket_table.specs.Rehash.Finishing.{IsUnopened};

use bucket_slots::bucket::{Bucket, EntryPtr, MAP};
use bucket_table::hash_table::{HashTable, LockedBucket, Missing, ResizeRule};
use bucket_table::script::{Call, Reply, ScriptHash, run};
use bucket_table::tickets::TICKET_STEP;
use std::alloc::Global;
use test_helpers::FewKeys;

/// A map of numbers.
pub(crate) type Map = HashTable<u64, u64, ScriptHash, (), MAP>;

type Pairs = Bucket<u64, u64, (), MAP>;

/// The outcome of a call.
#[derive(Drop)]
pub(crate) enum Answer {
    /// The expected result.
    Right,
    /// The expected observation if a resize was skipped.
    Unresized,
    /// The expected observation if a unit wasn't finished, or an old bucket stayed.
    Unmoved,
    /// Allocation failure, and the expected observation in the call's own result.
    Refused,
    /// Anything else.
    Wrong,
}

/// Returns `Right` if the condition holds.
pub(crate) fn right_if(holds: bool) -> Answer {
    if holds { Answer::Right } else { Answer::Wrong }
}

fn refused_if(holds: bool) -> Answer {
    if holds {
        Answer::Refused
    } else {
        Answer::Wrong
    }
}

/// Inserts a new key as its own value.
pub(crate) fn put(table: &mut Map, beside: &mut FewKeys, key: u64) -> Answer {
    let hash = table.hash(&key);
    let mut locked = match table.writer_sync(hash) {
        Ok(locked) => locked,
        Err(_) => return Answer::Refused,
    };
    if locked.search(&key, hash).is_valid() {
        return Answer::Wrong;
    }
    match locked.insert(hash, (key, key), &()) {
        Ok(_) => {
            beside.set(key, Some(key));
            Answer::Right
        }
        Err(pair) => refused_if(pair == (key, key)),
    }
}

/// Runs a script, which inserts a new key, reads it and removes it. If allocation fails, nothing
/// was done.
pub(crate) fn run_calls(alloc: Global, table: &mut Map, key: u64) -> Answer {
    let mut calls = Vec::new(alloc);
    for call in [Call::Put(key, key), Call::Read(key), Call::Remove(key)] {
        if calls.push(call).is_err() {
            return Answer::Refused;
        }
    }
    let Ok(replies) = run(alloc, table, calls, &()) else {
        return Answer::Refused;
    };
    match replies.as_slice() {
        [Reply::Done, Reply::Value(read), Reply::Pair(taken, value)] => {
            right_if((*read, *taken, *value) == (key, key, key))
        }
        _ => Answer::Wrong,
    }
}

/// Removes a key, which may shrink the table.
pub(crate) fn take_out(table: &mut Map, beside: &mut FewKeys, key: u64) -> Answer {
    let hash = table.hash(&key);
    let locked = match table.optional_writer_sync(hash) {
        Ok(locked) => locked,
        Err(Missing::Nothing) => return Answer::Wrong,
        Err(Missing::Memory) => return Answer::Refused,
    };
    let mut at = locked.search(&key, hash);
    if !at.is_valid() {
        return Answer::Wrong;
    }
    let (pair, _table) = locked.remove(&mut at);
    beside.set(key, None);
    right_if(pair == (key, key))
}

/// Makes the first array, or finds the present one.
pub(crate) fn make(table: &mut Map, len: usize) -> Answer {
    match table.get_or_create_array() {
        Ok(array) => right_if(array.len() == len),
        Err(_) => Answer::Refused,
    }
}

/// Locks the bucket of a hash.
pub(crate) fn lock(table: &mut Map, hash: u64, index: usize) -> Answer {
    match table.writer_sync(hash) {
        Ok(locked) => right_if(locked.bucket_index() == index),
        Err(_) => Answer::Refused,
    }
}

/// The same under the other name of the call.
pub(crate) fn reserve(table: &mut Map, hash: u64, index: usize) -> Answer {
    match table.try_reserve_bucket(hash) {
        Ok(locked) => right_if(locked.bucket_index() == index),
        Err(_) => Answer::Refused,
    }
}

/// Requests a resize.
pub(crate) fn resize(table: &mut Map, comes: bool) -> Answer {
    match table.try_resize() {
        Ok(done) => right_if(done == comes),
        Err(_) => Answer::Refused,
    }
}

/// Doubles the slots if the home of a hash is overfull.
pub(crate) fn double(table: &mut Map, hash: u64, comes: bool) -> Answer {
    match table.grow_if_overfull(hash) {
        Ok(done) => right_if(done == comes),
        Err(_) => Answer::Refused,
    }
}

/// Reads a key, which never fails.
pub(crate) fn read(table: &mut Map, key: u64) -> Answer {
    let found = table.reader_sync(&key, |own: &u64, value: &u64| (*own, *value));
    right_if(found == Some((key, key)))
}

/// Replaces the value of a key, which never fails.
pub(crate) fn write(table: &mut Map, beside: &mut FewKeys, key: u64) -> Answer {
    let Some(earlier) = beside.value(key) else {
        return Answer::Wrong;
    };
    let value = earlier.wrapping_add(1);
    beside.set(key, Some(value));
    right_if(table.upsert(key, value, &(), ResizeRule::Sampled) == Ok(Some(earlier)))
}

/// Relocates an old bucket with that many pairs. If allocation fails, the bucket keeps them all.
pub(crate) fn relocate(table: &mut Map, index: usize, pairs: usize) -> Answer {
    if !table.has_old_bucket(index) {
        return Answer::Wrong;
    }
    match table.relocate_bucket_sync(index) {
        Ok(()) => right_if(old_bucket(table, index) == Some((true, 0))),
        Err(_) => refused_if(old_bucket(table, index) == Some((false, pairs))),
    }
}

/// Returns whether an old bucket is killed, and how many pairs it has.
pub(crate) fn old_bucket(table: &Map, index: usize) -> Option<(bool, usize)> {
    let array = table.linked_array()?;
    array.fact_room();
    if index >= array.len() {
        return None;
    }
    let bucket = array.bucket(index);
    Some((bucket.is_killed(), bucket.len()))
}

/// Returns whether a key is in an own slot of a bucket: of the old array, if there is one, else of
/// the current one.
pub(crate) fn stands(table: &Map, key: u64, index: usize, slot: usize) -> bool {
    let array = match (table.linked_array(), table.array()) {
        (Some(old), _) => old,
        (None, Some(current)) => current,
        (None, None) => return false,
    };
    array.fact_room();
    if index >= array.len() {
        return false;
    }
    // The low byte of a hash is that of its key, and a bucket compares no more.
    let at = array.bucket(index).get_entry_ptr(&key, key);
    at.is_valid() && (at.block(), at.pos()) == (0, slot)
}

/// Finishes the rehash, of which that many units are left.
pub(crate) fn finish(table: &mut Map, units: usize) -> Answer {
    if has_open_ticket(table) {
        return Answer::Wrong;
    }
    match table.finish_rehash() {
        Ok(finished) => right_if(finished == units),
        Err(_) => Answer::Refused,
    }
}

// Returns whether a ticket is open, according to the rehash word.
fn has_open_ticket(table: &Map) -> bool
    ensures { result ≡ false → IsUnopened table.now.arrays }
{
    match table.rehashing_metadata() {
        Some(word) => word % TICKET_STEP != 0,
        None => false,
    }
}

/// How many buckets a walk lends, and how many pairs they have, up to its end or to an allocation
/// failure.
pub(crate) type Lent = (usize, usize);

/// Reads all buckets.
pub(crate) fn walk(table: &mut Map, whole: Lent, refused: Lent) -> Answer {
    let mut lent: Lent = (0, 0);
    let mut counts = |bucket: &Pairs| -> bool {
        lent = (lent.0.wrapping_add(1), lent.1.wrapping_add(bucket.len()));
        true
    };
    match table.for_each_reader_sync(&mut counts) {
        Ok(()) => right_if(lent == whole),
        Err(_) => refused_if(lent == refused),
    }
}

/// Visits all buckets mutably, and requests a shorter array.
pub(crate) fn visit(table: &mut Map, whole: Lent, refused: Lent) -> Answer {
    let mut lent: Lent = (0, 0);
    let mut counts = |bucket: &mut Pairs, flag: &mut bool| -> bool {
        lent = (lent.0.wrapping_add(1), lent.1.wrapping_add(bucket.len()));
        *flag = true;
        true
    };
    match table.for_each_writer_sync(0, 0, &mut counts) {
        Ok(()) => right_if(lent == whole),
        Err(_) => refused_if(lent == refused),
    }
}

/// Moves a cursor to one key, and then to another.
pub(crate) fn meet(table: &mut Map, first: u64, second: u64) -> Answer {
    let mut at = EntryPtr::null();
    let locked = match table.first_sync(&mut at) {
        Ok(locked) => locked,
        Err(Missing::Nothing) => return Answer::Wrong,
        Err(Missing::Memory) => return refused_if(!at.is_valid()),
    };
    if !stands_at(&locked, &at, first) {
        return Answer::Wrong;
    }
    match locked.next_sync(&mut at) {
        Ok(locked) => right_if(stands_at(&locked, &at, second)),
        Err(Missing::Nothing) => Answer::Wrong,
        Err(Missing::Memory) => refused_if(!at.is_valid()),
    }
}

// Returns whether a pointer is at the pair of a key. The low byte of a hash is that of its key,
// unless all hashes are 0, and a bucket compares no more.
fn stands_at(
    locked: &LockedBucket<'_, u64, u64, ScriptHash, (), MAP>,
    at: &EntryPtr<u64, u64, MAP>,
    key: u64,
) -> bool {
    let there = locked.bucket().get_entry_ptr(&key, key);
    there.is_valid() && (there.block(), there.pos()) == (at.block(), at.pos())
}

/// Removes the keys below one. If allocation fails, only those below another one are removed.
pub(crate) fn sweep(table: &mut Map, beside: &mut FewKeys, below: u64, passed: u64) -> Answer {
    let keep = |key: &u64, _value: &u64| *key >= below;
    match table.sweep(&keep, &()) {
        Ok(taken) => right_if(taken == beside.drop_below(below)),
        Err(_) => {
            let _ = beside.drop_below(passed);
            Answer::Refused
        }
    }
}
