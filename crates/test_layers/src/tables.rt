//! Steps on a table: calls with their results, and expectations. A story is a list of steps on a
//! new table.
ghost use Rattle.std.specs.Prelude.{◌≤◌};

use crate::by_lock::{Map, home_of, index_of, place_of, put_at, reserved_index_of, take_at};
use crate::checks::check_same;
use crate::cursors::{Stop, follow};
use crate::steps::Spot;
use crate::walks::{finish, strip};
use bucket_table::hash_table::{HashTable, MAXIMUM_CAPACITY_LIMIT, ResizeRule, TicketError};
use bucket_table::script::ScriptHash;
use std::alloc::Global;
use std::ops::Range;
use std::process::Abort;
use std::test::Fail;
use test_helpers::At;

/// Steps on a new map with a maximum of 2^63 slots.
pub(crate) struct Story {
    pub(crate) name: &'static str,
    pub(crate) hasher: ScriptHash,
    /// The minimum, up to 4,096 slots.
    pub(crate) minimum: usize,
    /// The steps that come first.
    pub(crate) start: &'static [Step],
    pub(crate) steps: &'static [Step],
}

/// A call with its expected result, or an expectation.
pub(crate) enum Step {
    /// Insert keys, each as its own value.
    InsertRange(Range<u64>),
    /// Remove keys, each with its own value. If a bucket is left empty, the table may shrink.
    RemoveRange(Range<u64>),
    /// Read a key, which has itself as its value. A read moves pairs.
    Read(u64),
    /// Count the pairs, which moves pairs: this many.
    Count(usize),
    /// Clear the table.
    Clear,
    /// Raise the minimum.
    RaiseMinimum(usize),
    /// Keep the pairs of keys from a number on, and remove the others: this many.
    Sweep(u64, usize),
    /// Remove two present keys in a walk, and ask for a shorter array.
    RemoveInWalk(u64, u64),
    /// Follow a cursor: it visits these pairs from the first one on, and then ends.
    FollowCursor(&'static [Stop]),
    Lock(Lock),
    Rehash(Rehash),
    Expect(Expect),
}

/// A call that locks a bucket.
pub(crate) enum Lock {
    /// Insert a new key in the writer's bucket of this index. It is then in this place.
    Insert(u64, usize, Spot),
    /// Remove a key by a call on its locked bucket, which leaves the pointer in this place.
    Remove(u64, Spot),
    /// Find a key in this place.
    FindPlace(u64, Spot),
    /// Find the writer's bucket of a hash, which has this index.
    FindBucket(u64, usize),
    /// The same by the call's other name.
    FindReserved(u64, usize),
    /// Find the index of a key's bucket, and how many pairs it has; nothing if there is an old
    /// array.
    FindHome(u64, Option<(usize, usize)>),
}

/// A call on the arrays, or on tickets.
pub(crate) enum Rehash {
    /// Get the present array, or make one: it has this many buckets.
    MakeArray(usize),
    /// Ask for a resize: whether it happens.
    TryResize(bool),
    /// Double the slots if the home of a hash is overfull: whether it is.
    GrowIfOverfull(u64, bool),
    /// Relocate old buckets.
    RelocateRange(Range<usize>),
    /// Issue the ticket of the next unit, which is this one.
    IssueTicket(usize),
    /// End a ticket of a unit that is done. The old array stays.
    EndTicket(usize),
    /// End a ticket that isn't open, which fails.
    EndUnknownTicket(usize),
    /// Finish the rehash, while no ticket is open: this many units are left.
    Finish(usize),
}

/// What is expected of the table.
pub(crate) enum Expect {
    /// How many slots the current array has, and the rehash word.
    Slots(usize, Option<usize>),
    /// A key has itself as its value, according to a peek, which moves nothing.
    Key(u64),
    /// How many pairs there are, according to the length, which moves nothing.
    Len(usize),
    /// The keys that `for_each` visits, in its order, each with itself as its value.
    Each(&'static [u64]),
}

/// Plays stories, each on a new table.
pub(crate) fn tell(rt: &impl Abort, alloc: Global, stories: &[Story]) -> Result<(), Fail> {
    for story in stories {
        assert!(rt; story.minimum <= 4096);
        let mut table = new_map(alloc, story.hasher, story.minimum);
        play(rt, &mut table, story.name, story.start)?;
        play(rt, &mut table, story.name, story.steps)?;
    }
    Ok(())
}

/// A map with no pair and a maximum of 2^63 slots.
pub(crate) fn new_map(alloc: Global, hasher: ScriptHash, minimum: usize) -> Map
    requires { minimum ≤ 4096 }
{
    HashTable::new(alloc, hasher, minimum, MAXIMUM_CAPACITY_LIMIT)
}

/// Takes one step after another.
pub(crate) fn play(
    rt: &impl Abort,
    table: &mut Map,
    story: &'static str,
    steps: &[Step],
) -> Result<(), Fail> {
    for (row, step) in steps.iter().enumerate() {
        take(rt, table, (story, row), step)?;
    }
    Ok(())
}

// Takes a step, and checks its result.
fn take(rt: &impl Abort, table: &mut Map, at: At, step: &Step) -> Result<(), Fail> {
    match step {
        Step::InsertRange(keys) => insert_range(rt, table, at, keys),
        Step::RemoveRange(keys) => remove_range(rt, table, at, keys),
        Step::Read(key) => {
            let found = table.reader_sync(key, |own: &u64, value: &u64| (*own, *value));
            check_same(rt, found, Some((*key, *key)), at);
        }
        Step::Count(pairs) => check_same(rt, table.num_entries(), *pairs, at),
        Step::Clear => table.clear(),
        Step::RaiseMinimum(by) => check_same(rt, table.reserve_capacity(*by), *by, at),
        Step::Sweep(from, taken) => {
            let keep = |key: &u64, _value: &u64| *key >= *from;
            check_same(rt, table.sweep(&keep, &())?, *taken, at);
        }
        Step::RemoveInWalk(first, second) => {
            check_same(rt, strip(table, (*first, *second))?, (true, true), at);
        }
        Step::FollowCursor(stops) => follow(rt, table, at, stops)?,
        Step::Lock(call) => check_lock(rt, table, at, call),
        Step::Rehash(call) => check_rehash(rt, table, at, call)?,
        Step::Expect(wanted) => check_expected(rt, table, at, wanted),
    }
    Ok(())
}

/// Inserts keys, each as its own value.
pub(crate) fn insert_range(rt: &impl Abort, table: &mut Map, at: At, keys: &Range<u64>) {
    for key in keys.start..keys.end {
        let done = table
            .insert_pair(key, key, &(), ResizeRule::Sampled)
            .is_ok();
        check_same(rt, done, true, (at, "insert range", key));
    }
}

// Removes keys, each with its own value.
fn remove_range(rt: &impl Abort, table: &mut Map, at: At, keys: &Range<u64>) {
    for key in keys.start..keys.end {
        let taken = table.take(&key, ResizeRule::Sampled);
        check_same(rt, taken, Some((key, key)), (at, "remove range", key));
    }
}

// Makes a call that locks a bucket, and checks its result.
fn check_lock(rt: &impl Abort, table: &mut Map, at: At, call: &Lock) {
    match *call {
        Lock::Insert(key, index, spot) => {
            check_same(rt, put_at(table, key, &()), Some((index, spot)), at);
        }
        Lock::Remove(key, spot) => check_same(rt, take_at(table, key), Some(spot), at),
        Lock::FindPlace(key, spot) => check_same(rt, place_of(table, key), Some(spot), at),
        Lock::FindBucket(hash, index) => check_same(rt, index_of(table, hash), Some(index), at),
        Lock::FindReserved(hash, index) => {
            check_same(rt, reserved_index_of(table, hash), Some(index), at);
        }
        Lock::FindHome(key, home) => check_same(rt, home_of(table, key), home, at),
    }
}

// Makes a call on the arrays or on tickets, and checks its result.
fn check_rehash(rt: &impl Abort, table: &mut Map, at: At, call: &Rehash) -> Result<(), Fail> {
    match call {
        Rehash::MakeArray(len) => check_same(rt, table.get_or_create_array()?.len(), *len, at),
        Rehash::TryResize(done) => check_same(rt, table.try_resize()?, *done, at),
        Rehash::GrowIfOverfull(hash, done) => {
            check_same(rt, table.grow_if_overfull(*hash)?, *done, at);
        }
        Rehash::RelocateRange(indexes) => relocate_range(table, indexes)?,
        Rehash::IssueTicket(ticket) => {
            check_same(rt, table.start_incremental_rehash(), Some(*ticket), at);
        }
        Rehash::EndTicket(ticket) => {
            let stays = matches!(table.end_incremental_rehash(*ticket, true), Ok(false));
            check_same(rt, stays, true, at);
        }
        Rehash::EndUnknownTicket(ticket) => {
            let ended = table.end_incremental_rehash(*ticket, true);
            check_same(rt, matches!(ended, Err(TicketError::NotOpen)), true, at);
        }
        Rehash::Finish(units) => check_same(rt, finish(table)?, Some(*units), at),
    }
    Ok(())
}

// Relocates old buckets.
fn relocate_range(table: &mut Map, indexes: &Range<usize>) -> Result<(), Fail> {
    for index in indexes.start..indexes.end {
        if !table.has_old_bucket(index) {
            return Err("no old bucket".into());
        }
        table.relocate_bucket_sync(index)?;
    }
    Ok(())
}

// Checks an expectation about the table.
fn check_expected(rt: &impl Abort, table: &Map, at: At, wanted: &Expect) {
    match wanted {
        Expect::Slots(slots, word) => check_slots(rt, table, at, *slots, *word),
        Expect::Key(key) => check_same(rt, table.peek_entry(key), Some((key, key)), at),
        Expect::Len(pairs) => {
            let found = (table.len(), table.is_empty());
            check_same(rt, found, (*pairs, *pairs == 0), at);
        }
        Expect::Each(keys) => check_each(rt, table, at, keys),
    }
}

/// Checks how many slots the current array has, and the rehash word.
pub(crate) fn check_slots(rt: &impl Abort, table: &Map, at: At, slots: usize, word: Option<usize>) {
    let found = (table.num_slots(), table.rehashing_metadata());
    check_same(rt, found, (slots, word), at);
}

// Checks that `for_each` visits these keys, each with itself as its value, in this order.
fn check_each(rt: &impl Abort, table: &Map, at: At, keys: &[u64]) {
    let mut came: usize = 0;
    let mut in_order = true;
    let mut meet = |key: &u64, value: &u64| {
        in_order = in_order && keys.get(came) == Some(key) && value == key;
        came = came.saturating_add(1);
    };
    table.for_each(&mut meet);
    check_same(rt, (came, in_order), (keys.len(), true), (at, "each"));
}
