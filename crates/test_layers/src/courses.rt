//! Courses of random calls on tables of each kind, compared with a map of the standard library.
//! Phases in which a table grows and phases in which it shrinks alternate, so that it gets longer
//! arrays and shorter ones again. Which tombstones are kept is random. Some of the calls are ones
//! that no script makes.
use crate::by_lock::{Table, put_at};
use crate::checks::check_same;
use crate::steps::Answers;
use bucket_slots::bucket::{CACHE, EqProbe, INDEX, MAP};
use bucket_slots::lru::{DoublyLinkedList, LruList};
use bucket_table::hash_table::{HashTable, MAXIMUM_CAPACITY_LIMIT, ResizeRule};
use bucket_table::script::ScriptHash;
use std::alloc::Global;
use std::collections::BTreeMap;
use std::process::Abort;
use std::test::Fail;
use test_helpers::{Chance, is_growing, spread};

// How many calls a course has, and on how many keys.
const CALLS: u64 = 20_000;

const KEYS: u64 = 300;

// How many calls a phase has.
const PHASE: u64 = 2500;

// The number of calls after which an epoch and the kept tombstones are chosen again, and the number
// after which a call is made that no script makes.
const CHOICE: u64 = 10;

const DIRECT: u64 = 50;

/// The reference model of a table, and the random numbers that choose the calls.
#[derive(Drop)]
struct Course {
    map: BTreeMap<u64, u64>,
    chance: Chance,
    /// Whether a ticket is open, and how often one was left open.
    is_open: bool,
    opened: u64,
    /// How many slots the table has, and how many it had at most.
    slots: usize,
    most_slots: usize,
    /// How often the array became shorter with a pair in it.
    shrinks: u64,
}

impl Course {
    fn new(alloc: Global) -> Self {
        Course {
            map: BTreeMap::new(alloc),
            chance: Chance::new(),
            is_open: false,
            opened: 0,
            slots: 0,
            most_slots: 0,
            shrinks: 0,
        }
    }

    fn key(&mut self) -> u64 {
        spread(self.chance.next() % KEYS)
    }

    // An epoch, and whether each tombstone is kept.
    fn answers(&mut self) -> Answers {
        let mut kept = [false; 256];
        for mark in 0..=255u8 {
            kept[mark as usize] = self.chance.next() % 2 == 0;
        }
        Answers {
            epoch: (self.chance.next() % 256) as u8,
            kept,
        }
    }

    // Ends the open ticket without success, if there is one.
    fn settle<L: LruList + Drop, const TYPE: u8>(
        &mut self,
        rt: &impl Abort,
        table: &mut Table<L, TYPE>,
    ) {
        if self.is_open {
            let stays = matches!(table.end_incremental_rehash(0, false), Ok(false));
            check_same(rt, stays, true, "a ticket");
            self.is_open = false;
        }
    }

    // Records how many slots the current array has now.
    fn sees(&mut self, slots: usize) {
        if slots < self.slots && !self.map.is_empty() {
            self.shrinks = self.shrinks.wrapping_add(1);
        }
        self.slots = slots;
        self.most_slots = self.most_slots.max(slots);
    }
}

// Removes the pair of a key, or leaves a tombstone in an index.
fn remove<L: LruList + Drop, const TYPE: u8>(
    table: &mut Table<L, TYPE>,
    key: u64,
    now: &Answers,
) -> Option<(u64, u64)> {
    if TYPE == INDEX {
        table.mark(
            &key,
            now,
            ResizeRule::Sampled,
            |own: &u64, value: &u64| (*own, *value),
        )
    } else {
        table.take(&key, ResizeRule::Sampled)
    }
}

// Puts, removes or peeks a key. While the table grows, few keys are removed; while it shrinks, none
// is put.
fn call<L: LruList + Drop, const TYPE: u8>(
    rt: &impl Abort,
    table: &mut Table<L, TYPE>,
    course: &mut Course,
    now: &Answers,
    grows: bool,
) -> Result<(), Fail> {
    let key = course.key();
    match (course.chance.next() % 8, grows) {
        (0..=4, true) => {
            let is_new = !course.map.contains_key(&key);
            check_same(rt, put_at(table, key, now).is_some(), is_new, ("put", key));
            course.map.insert(key, key)?;
        }
        (0..=4, false) | (5, _) => {
            let wanted = course.map.remove(&key).is_some();
            let found = remove(table, key, now);
            let pair = if wanted { Some((key, key)) } else { None };
            check_same(rt, found, pair, ("remove", key));
        }
        _ => {
            let wanted = course.map.get_key_value(&key);
            check_same(rt, table.peek_entry(&key), wanted, ("peek", key));
        }
    }
    Ok(())
}

// Sweeps, resizes, ends the open ticket, gets the array, locks a bucket by two calls, or looks a
// key up by a probe.
fn call_directly<L: LruList + Drop, const TYPE: u8>(
    rt: &impl Abort,
    table: &mut Table<L, TYPE>,
    course: &mut Course,
    now: &Answers,
) -> Result<(), Fail> {
    let (key, rest) = (course.key(), course.chance.next() % 8);
    match course.chance.next() % 16 {
        0..=1 => sweep(rt, table, course, now, rest),
        2..=6 => resize(rt, table, course, rest),
        7..=8 => {
            course.settle(rt, table);
            Ok(())
        }
        9 => {
            let slots = table.num_slots();
            let wanted = if slots == 0 { 64 } else { slots };
            let found = table.get_or_create_array()?.num_slots();
            check_same(rt, found, wanted, ("an array", slots));
            Ok(())
        }
        10..=12 => lock(rt, table, key, course.map.contains_key(&key)),
        _ => {
            ask(rt, table, key, course.map.contains_key(&key));
            Ok(())
        }
    }
}

// Removes the pairs whose keys leave this remainder when divided by 8.
fn sweep<L: LruList + Drop, const TYPE: u8>(
    rt: &impl Abort,
    table: &mut Table<L, TYPE>,
    course: &mut Course,
    now: &Answers,
    rest: u64,
) -> Result<(), Fail> {
    let pairs = course.map.len();
    course.map.retain(|key, _value| *key % 8 != rest);
    let keep = |key: &u64, _value: &u64| *key % 8 != rest;
    let gone = pairs.wrapping_sub(course.map.len());
    check_same(rt, table.sweep(&keep, now)?, gone, ("swept", rest));
    Ok(())
}

// Tries to resize. After some resizes a ticket is left open for a while, so that the old array
// stays.
fn resize<L: LruList + Drop, const TYPE: u8>(
    rt: &impl Abort,
    table: &mut Table<L, TYPE>,
    course: &mut Course,
    rest: u64,
) -> Result<(), Fail> {
    let (slots, has_old) = (table.num_slots(), table.has_linked_array());
    let done = table.try_resize()?;
    check_same(rt, table.num_slots() != slots, done, ("a resize", slots));
    check_same(rt, done && has_old, false, ("beside an old array", slots));
    if done && rest < 4 {
        course.is_open = table.start_incremental_rehash().is_some();
        course.opened = course.opened.wrapping_add(u64::from(course.is_open));
    }
    Ok(())
}

// Searches the bucket of a key, which each of two calls lends.
fn lock<L: LruList + Drop, const TYPE: u8>(
    rt: &impl Abort,
    table: &mut Table<L, TYPE>,
    key: u64,
    there: bool,
) -> Result<(), Fail> {
    let hash = table.hash(&key);
    let found = table.writer_sync(hash)?.search(&key, hash).is_valid();
    check_same(rt, found, there, ("locked", key));
    let found = table
        .try_reserve_bucket(hash)?
        .search(&key, hash)
        .is_valid();
    check_same(rt, found, there, ("reserved", key));
    Ok(())
}

// Looks a key up by a probe, which is asked about no more keys than there are.
fn ask<L: LruList + Drop, const TYPE: u8>(
    rt: &impl Abort,
    table: &Table<L, TYPE>,
    key: u64,
    there: bool,
) {
    let mut probe = EqProbe::new(&key);
    let found = table.peek_entry_by(table.hash(&key), &mut probe).is_some();
    check_same(rt, found, there, ("probe", key));
    check_same(rt, probe.asked() <= KEYS, true, ("comparisons", key));
}

// Plays a course from a new table until all its pairs are removed.
fn play<L: LruList + Drop, const TYPE: u8>(
    rt: &impl Abort,
    alloc: Global,
    hasher: ScriptHash,
) -> Result<(), Fail> {
    let mut table: Table<L, TYPE> = HashTable::new(alloc, hasher, 0, MAXIMUM_CAPACITY_LIMIT);
    let mut course = Course::new(alloc);
    let mut now = course.answers();
    // If all keys have one hash, the last buckets are always empty, and a minimum lets such a table
    // grow.
    let least = if hasher == ScriptHash::Zero { 64 } else { 0 };
    check_same(rt, table.reserve_capacity(least), least, "the minimum");
    for number in 0..CALLS {
        if number % CHOICE == 0 {
            now = course.answers();
        }
        if number % DIRECT == 0 {
            call_directly(rt, &mut table, &mut course, &now)?;
        }
        call(rt, &mut table, &mut course, &now, is_growing(number, PHASE))?;
        course.sees(table.num_slots());
    }
    course.settle(rt, &mut table);
    for number in 0..KEYS {
        let key = spread(number);
        check_same(
            rt,
            table.peek_entry(&key),
            course.map.get_key_value(&key),
            key,
        );
        let _ = remove(&mut table, key, &now);
    }
    let _ = table.try_resize()?;
    check_same(rt, table.num_entries(), 0, "pairs are left");
    check_same(rt, table.num_slots(), least, "size at the end");
    check_same(rt, course.most_slots >= 256, true, "two doublings");
    check_same(rt, course.shrinks > 0, true, "shrinks of pairs");
    check_same(rt, course.opened > 0, true, "open tickets");
    Ok(())
}

#[test]
fn tables_of_each_kind_have_the_pairs_of_a_btree_map(rt: HostRuntime) -> Result<(), Fail> {
    for hasher in [ScriptHash::Zero, ScriptHash::Id, ScriptHash::Spread] {
        play::<(), MAP>(&rt, rt.alloc(), hasher)?;
        play::<(), INDEX>(&rt, rt.alloc(), hasher)?;
        play::<DoublyLinkedList, CACHE>(&rt, rt.alloc(), hasher)?;
    }
    Ok(())
}
