//! The stage of a story: a bucket of any kind, with any LRU list, and functions that take steps on
//! it. If a step's result isn't the expected one, it prints its story, its row, the call and both
//! results.
use crate::by_key::{
    insert_oldest, kill_empty, mark_key, move_key, remove_at, touch_key, write_key,
};
use crate::checks::check_same;
use crate::steps::Expect::*;
use crate::steps::Set::*;
use crate::steps::Step::*;
use crate::steps::Walk::*;
use crate::steps::{Answers, Expect, Kept, Set, Spot, Step, Story, Walk};
use bucket_slots::bucket::{Bucket, CACHE, EntryPtr, INDEX};
use bucket_slots::lru::LruList;
use std::alloc::Global;
use std::mem;
use std::ops::Range;
use std::process::Abort;
use std::test::Fail;

/// Two buckets, the pointer of a walk over the first, the place in the second that a pair left,
/// and the settings.
#[derive(Drop)]
pub(crate) struct Stage<L: LruList, const TYPE: u8> {
    bucket: Bucket<u64, u64, L, TYPE>,
    other: Bucket<u64, u64, L, TYPE>,
    at: EntryPtr<u64, u64, TYPE>,
    left: Spot,
    hash: (u64, u64),
    values: (u64, u64),
    now: Answers,
}

impl<L: LruList, const TYPE: u8> Stage<L, TYPE> {
    /// Two new buckets.
    pub(crate) fn new(alloc: Global) -> Self {
        Stage {
            bucket: Bucket::new(alloc),
            other: Bucket::new(alloc),
            at: EntryPtr::null(),
            left: (0, 32),
            hash: (0, 0),
            values: (10, 0),
            now: Answers::new(0, &Kept::All),
        }
    }

    /// Plays a story, after its keys are inserted.
    pub(crate) fn tell(
        &mut self,
        rt: &impl Abort,
        (story, keys, steps): &Story,
    ) -> Result<(), Fail> {
        self.step(rt, (story, 0), &InsertRange(0..*keys))?;
        self.play(rt, story, steps)
    }

    /// Takes one step after another, and checks what each finds.
    pub(crate) fn play(
        &mut self,
        rt: &impl Abort,
        story: &str,
        steps: &[Step],
    ) -> Result<(), Fail> {
        for (row, step) in steps.iter().enumerate() {
            self.step(rt, (story, row), step)?;
        }
        Ok(())
    }

    /// The key in an own slot.
    pub(crate) fn key_in(&self, slot: usize) -> Option<u64> {
        self.bucket.data_block().key(slot).copied()
    }

    /// Takes the step of a row, and checks what it finds.
    pub(crate) fn step(
        &mut self,
        rt: &impl Abort,
        row: (&str, usize),
        step: &Step,
    ) -> Result<(), Fail> {
        match step {
            Set(setting) => self.set(setting),
            Swap => mem::swap(&mut self.bucket, &mut self.other),
            InsertRange(keys) => self.insert_range(rt, row, keys, false)?,
            InsertAndTouch(keys) => self.insert_range(rt, row, keys, true)?,
            Insert(key, spot) => check_same(rt, self.insert(*key)?, *spot, (row, "insert", *key)),
            InsertOldest(key, spot) => {
                let found = self.insert_oldest(*key)?;
                check_same(rt, found, Some(*spot), (row, "insert oldest", *key));
            }
            Move(key, spot) => {
                let found = self.bring(rt, row, *key)?;
                check_same(rt, found, *spot, (row, "move", *key));
            }
            Reserve(slots) => self.bucket.reserve_slots(*slots)?,
            RemoveRange(keys) => self.remove_range(rt, row, keys),
            Remove(key, spot) => {
                check_same(rt, self.remove(rt, row, *key), *spot, (row, "remove", *key));
            }
            Write(key, value, earlier) => {
                check_same(rt, self.write(*key, *value), *earlier, (row, "write", *key));
            }
            Touch(key, there) => check_same(rt, self.touch(*key), *there, (row, "touch", *key)),
            Evict(key) => self.check_evicted(rt, row, *key),
            TakeOrder(slots) => self.take_order(rt, row, slots),
            Mark(keys) => self.mark_keys(rt, row, keys),
            MarkRange(keys, by) => self.mark_range(rt, row, keys, *by),
            ClearTombstones(left) => check_same(rt, self.clear(), Some(*left), (row, "clear")),
            Kill(kills) => check_same(rt, kill_empty(&mut self.bucket), *kills, (row, "kill")),
            Walk(walk) => self.walk(rt, row, walk),
            Expect(wanted) => self.check_expected(rt, row, wanted),
        }
        Ok(())
    }

    // Changes a setting.
    fn set(&mut self, setting: &Set) {
        match setting {
            Hashes(first, mask) => self.hash = (*first, *mask),
            Values(times, plus) => self.values = (*times, *plus),
            Epoch(epoch, kept) => self.now = Answers::new(*epoch, kept),
        }
    }

    fn hash_of(&self, key: u64) -> u64 {
        self.hash.0.wrapping_add(key & self.hash.1)
    }

    fn value_of(&self, key: u64) -> u64 {
        self.values.0.wrapping_mul(key).wrapping_add(self.values.1)
    }

    fn insert(&mut self, key: u64) -> Result<Spot, Fail> {
        let pair = (key, self.value_of(key));
        let hash = self.hash_of(key);
        let at = self.bucket.insert(hash, pair, &self.now)?;
        Ok((at.block(), at.pos()))
    }

    // Inserts a key as the oldest of a cache.
    fn insert_oldest(&mut self, key: u64) -> Result<Option<Spot>, Fail> {
        if TYPE != CACHE {
            return Ok(None);
        }
        let pair = (key, self.value_of(key));
        let hash = self.hash_of(key);
        let at = insert_oldest(&mut self.bucket, hash, pair, &self.now)?;
        Ok(Some((at.block(), at.pos())))
    }

    // Inserts keys, and touches them if `touches` is true.
    fn insert_range(
        &mut self,
        rt: &impl Abort,
        row: (&str, usize),
        keys: &Range<u64>,
        touches: bool,
    ) -> Result<(), Fail> {
        for key in keys.start..keys.end {
            let len = self.bucket.len().wrapping_add(1);
            let (_, pos) = self.insert(key)?;
            let hash = self.hash_of(key);
            let touched = !touches || touch_key(&mut self.bucket, key, hash);
            let found = (pos < 32, self.bucket.len(), touched);
            check_same(rt, found, (true, len, true), (row, "insert range", key));
        }
        Ok(())
    }

    fn bring(
        &mut self,
        rt: &impl Abort,
        row: (&str, usize),
        key: u64,
    ) -> Result<Option<Spot>, Fail> {
        let hash = self.hash_of(key);
        let Some((to, from)) = move_key(&mut self.bucket, &mut self.other, key, hash)? else {
            return Ok(None);
        };
        self.left = from;
        let left = self.other.search_entry(&key, hash).is_some();
        check_same(rt, left, false, (row, "left behind", key));
        Ok(Some(to))
    }

    // Removes keys, which are present with their values.
    fn remove_range(&mut self, rt: &impl Abort, row: (&str, usize), keys: &Range<u64>) {
        for key in keys.start..keys.end {
            let goes = self.remove(rt, row, key).is_some();
            check_same(rt, goes, true, (row, "remove range", key));
        }
    }

    // Removes the pair of a key, and returns where the removal leaves the walk's pointer.
    fn remove(&mut self, rt: &impl Abort, row: (&str, usize), key: u64) -> Option<Spot> {
        let hash = self.hash_of(key);
        let (pair, at) = remove_at(&mut self.bucket, key, hash)?;
        check_same(rt, pair, (key, self.value_of(key)), (row, "remove", key));
        let spot = (at.block(), at.pos());
        self.at = at;
        Some(spot)
    }

    // Writes the value of a key, and returns the earlier one.
    fn write(&mut self, key: u64, value: u64) -> Option<u64> {
        let hash = self.hash_of(key);
        write_key(&mut self.bucket, key, hash, value)
    }

    // Touches a key, and returns whether it is present.
    fn touch(&mut self, key: u64) -> bool {
        let hash = self.hash_of(key);
        touch_key(&mut self.bucket, key, hash)
    }

    // Checks that an eviction removes the pair of this key, or none.
    fn check_evicted(&mut self, rt: &impl Abort, row: (&str, usize), key: Option<u64>) {
        let pair = match key {
            Some(key) => Some((key, self.value_of(key))),
            None => None,
        };
        check_same(rt, self.evict(), Some(pair), (row, "evict"));
    }

    // Evicts a pair from a bucket of a cache, if there is one to evict, and returns it.
    fn evict(&mut self) -> Option<Option<(u64, u64)>> {
        if TYPE != CACHE {
            return None;
        }
        Some(self.bucket.evict_lru_head())
    }

    // Takes the LRU order, and checks that it has these slots and then bytes of 0.
    fn take_order(&mut self, rt: &impl Abort, row: (&str, usize), slots: &[u8]) {
        let (order, len) = self.bucket.take_lru();
        check_same(rt, len, slots.len(), (row, "take order"));
        for (at, slot) in order.iter().enumerate() {
            let wanted = slots.get(at).copied().unwrap_or(0);
            check_same(rt, *slot, wanted, (row, "take order", at));
        }
    }

    fn mark(&mut self, key: u64) -> bool {
        let hash = self.hash_of(key);
        mark_key(&mut self.bucket, key, hash, &self.now)
    }

    // Marks keys, and checks that each can be marked only once.
    fn mark_keys(&mut self, rt: &impl Abort, row: (&str, usize), keys: &[u64]) {
        for key in keys {
            let marked = (self.mark(*key), self.mark(*key));
            check_same(rt, marked, (true, false), (row, "mark", *key));
        }
    }

    // Marks keys, and raises the epoch after each.
    fn mark_range(&mut self, rt: &impl Abort, row: (&str, usize), keys: &Range<u64>, by: u8) {
        for key in keys.start..keys.end {
            check_same(rt, self.mark(key), true, (row, "mark range", key));
            self.now.epoch = self.now.epoch.wrapping_add(by);
        }
    }

    // Clears a bucket of an index, and returns the call's result.
    fn clear(&mut self) -> Option<u32> {
        if TYPE != INDEX {
            return None;
        }
        Some(self.bucket.clear_unreachable_entries(&self.now))
    }

    // Takes a step of a walk.
    fn walk(&mut self, rt: &impl Abort, row: (&str, usize), walk: &Walk) {
        match walk {
            Next(key, spot) => {
                let next = self.next();
                let found = (next, self.at.is_valid(), self.at.block(), self.at.pos());
                let wanted = (*key, key.is_some(), spot.0, spot.1);
                check_same(rt, found, wanted, (row, "next"));
            }
            Keys(keys) => {
                for key in *keys {
                    check_same(rt, self.next(), Some(*key), (row, "walk", *key));
                }
            }
            KeyRange(keys) => {
                for key in keys.start..keys.end {
                    check_same(rt, self.next(), Some(key), (row, "walk", key));
                }
            }
        }
    }

    fn next(&mut self) -> Option<u64> {
        if !self.at.find_next(&self.bucket) {
            return None;
        }
        Some(*self.at.key(&self.bucket))
    }

    // Checks an expectation about the bucket.
    fn check_expected(&self, rt: &impl Abort, row: (&str, usize), wanted: &Expect) {
        match wanted {
            Place(key, spot) => {
                check_same(rt, self.find(rt, row, *key), *spot, (row, "place", *key));
            }
            Present(keys) => {
                for key in keys.start..keys.end {
                    let there = self.find(rt, row, key).is_some();
                    check_same(rt, there, true, (row, "present", key));
                }
            }
            Absent(keys) => {
                for key in keys.start..keys.end {
                    check_same(rt, self.find(rt, row, key), None, (row, "absent", key));
                }
            }
            InOwnSlots(keys) => {
                for key in keys.start..keys.end {
                    let own = Some((0, key as usize));
                    check_same(rt, self.find(rt, row, key), own, (row, "in own slots", key));
                }
            }
            OwnSlot(slot, key) => self.own(rt, row, *slot, *key),
            FreeSlots(slots) => {
                for slot in slots.start..slots.end {
                    self.own(rt, row, slot, None);
                }
            }
            MovedFrom(spot) => check_same(rt, self.left, *spot, (row, "moved from")),
            Each(keys) => self.check_each(rt, row, keys),
            Len(len) => check_same(rt, self.bucket.len(), *len, (row, "len")),
            Lens(len, other) => {
                let found = (self.bucket.len(), self.other.len());
                check_same(rt, found, (*len, *other), (row, "lens"));
            }
            Killed(killed) => check_same(rt, self.bucket.is_killed(), *killed, (row, "killed")),
        }
    }

    // Checks that `for_each` visits these keys, in this order.
    fn check_each(&self, rt: &impl Abort, row: (&str, usize), keys: &[u64]) {
        let mut came: usize = 0;
        let mut in_order = true;
        let mut meet = |key: &u64, _value: &u64| {
            in_order = in_order && keys.get(came) == Some(key);
            came = came.saturating_add(1);
        };
        self.bucket.for_each(&mut meet);
        check_same(rt, (came, in_order), (keys.len(), true), (row, "each"));
    }

    // Returns the place of a key, if it is present. Checks that all searches find it with its
    // value, or that none finds it.
    fn find(&self, rt: &impl Abort, row: (&str, usize), key: u64) -> Option<Spot> {
        let hash = self.hash_of(key);
        let value = self.value_of(key);
        let at = self.bucket.get_entry_ptr(&key, hash);
        let (block, pos) = (at.block(), at.pos());
        let wanted = if at.is_valid() {
            Some((&key, &value))
        } else {
            None
        };
        let found = (
            self.bucket.search_entry(&key, hash),
            self.bucket.peek_entry(&key, hash),
        );
        check_same(rt, found, (wanted, wanted), (row, "search and peek", key));
        if !at.is_valid() {
            check_same(rt, (block, pos), (0, 32), (row, "no place", key));
            return None;
        }
        if block == 0 {
            let own = self.bucket.data_block().val(pos);
            check_same(rt, own, Some(&value), (row, "value in the own slot", key));
        }
        Some((block, pos))
    }

    // Checks that an own slot has this key with its value, or none.
    fn own(&self, rt: &impl Abort, row: (&str, usize), slot: usize, key: Option<u64>) {
        let block = self.bucket.data_block();
        let value = match key {
            Some(key) => Some(self.value_of(key)),
            None => None,
        };
        let found = (block.key(slot).copied(), block.val(slot).copied());
        check_same(rt, found, (key, value), (row, "own slot", slot));
    }
}
