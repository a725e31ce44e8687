//! The bucket for a writer of a hash: its pairs are moved from the old array first, and the writer
//! may start a growth.
ghost use Rattle.std.specs.Prelude.{◌≡◌, ◌<◌, Err, IfErr, IsOk, OnErr, OnOk, length, ◌↔◌, ℕ};
ghost use Rattle.std.specs.Prelude.{IfNone, IfOk, IfSome, IsTrue};
ghost use Rattle.bucket_slots.specs.Homes.{IsHome};
ghost use Rattle.bucket_table.specs.Views.ArraysView.{ArePlaced, AreSourcesKilled, IsSource};
ghost use Rattle.bucket_table.specs.Views.Keeping.{KeepsArrays, Keeps};
ghost use Rattle.bucket_table.specs.Map.Preparing.{HomeNeedsMemory, IsMissing, IsReady};
ghost use Rattle.bucket_table.specs.Rehash.Units.{NeedsMemory, WorksUnits};
ghost use Rattle.bucket_table.specs.Resize.Asking.{ResizesIf};
ghost use Rattle.bucket_table.specs.Map.Finding.{FindsNone, ReadiesThenGrows};
ghost use Rattle.bucket_table.specs.Map.Free.{IsRoomy, MayLockAtOnce};
ghost use Rattle.bucket_table.specs.Resize.Growing.{Grows, WriterAsksGrowth};
ghost use Rattle.bucket_table.specs.Views.Locking.{IsLocked};
ghost use Rattle.bucket_table.specs.Resize.Resizing.{MakesArray};
ghost use Rattle.bucket_table.specs.Views.Sides.{buckets_on};

use super::{Arrays, Missing, Side};
use crate::capacity::from_index_to_range;
use crate::key_hash::KeyHash;
use bucket_slots::bucket::{BUCKET_LEN, CACHE};
use bucket_slots::lru::LruList;
use std::alloc::AllocError;

impl<K: Eq + Drop, V: Drop, L: LruList + Drop, const TYPE: u8> Arrays<K, V, L, TYPE> {
    /// Works a unit, and moves the sources of the home of a hash.
    ///
    /// # Errors
    ///
    /// There is no current array, or allocation failed: a source isn't killed.
    #[inline(always)]
    pub(crate) fn fetch_home<H: KeyHash<K>>(&mut self, hasher: &H, hash: u64) -> Result<(), Missing>
        requires placed { ArePlaced (H.hash_of hasher.now) self.old }
        ensures placed { ArePlaced (H.hash_of hasher.now) self.new }
        ensures kept { KeepsArrays self.old self.new }
        ensures ready { OnOk result (IsReady self.new hash) }
        ensures wanted { result ≡ Err Missing.Memory → HomeNeedsMemory hash self.old self.new }
        ensures units { WorksUnits 1 (IsHome (length self.new.current) hash) self.old self.new }
        ensures alone { length self.old.linked ≡ 0 → self.new ≡ self.old }
        ensures missing { IfErr result (λ missing. IsMissing missing self.old) }
    {
        if !self.has_current() {
            return Err(Missing::Nothing);
        }
        if !self.has_old() {
            return Ok(());
        }
        let index = self.home(hash);
        match self.prepare_beside(hasher, index) {
            Ok(()) => Ok(()),
            Err(_) => Err(Missing::Memory),
        }
    }

    /// Works a unit, and moves the sources of a current bucket. Does nothing without an old array.
    ///
    /// # Errors
    ///
    /// Allocation failed: a source isn't killed.
    #[inline(always)]
    pub(crate) fn prepare_at<H: KeyHash<K>>(
        &mut self,
        hasher: &H,
        index: usize,
    ) -> Result<(), AllocError>
        requires within { index < length self.old.current }
        requires placed { ArePlaced (H.hash_of hasher.now) self.old }
        ensures placed { ArePlaced (H.hash_of hasher.now) self.new }
        ensures kept { KeepsArrays self.old self.new }
        ensures ready { OnOk result (AreSourcesKilled self.new index) }
        ensures wanted { OnErr result (NeedsMemory (IsSource self.new index) self.old self.new) }
        ensures units { WorksUnits 1 (λ home. home ≡ index) self.old self.new }
        ensures alone { length self.old.linked ≡ 0 → self.new ≡ self.old }
        ensures succeeds { length self.old.linked ≡ 0 → IsOk result }
    {
        if !self.has_old() {
            return Ok(());
        }
        self.prepare_beside(hasher, index)
    }

    /// Works a unit of the old array, and moves the sources of a current bucket.
    ///
    /// # Errors
    ///
    /// Allocation failed: a source isn't killed.
    #[inline(never)]
    fn prepare_beside<H: KeyHash<K>>(&mut self, hasher: &H, index: usize) -> Result<(), AllocError>
        requires within { index < length self.old.current }
        requires beside { 0 < length self.old.linked }
        requires placed { ArePlaced (H.hash_of hasher.now) self.old }
        ensures placed { ArePlaced (H.hash_of hasher.now) self.new }
        ensures kept { KeepsArrays self.old self.new }
        ensures ready { OnOk result (AreSourcesKilled self.new index) }
        ensures wanted { OnErr result (NeedsMemory (IsSource self.new index) self.old self.new) }
        ensures units { WorksUnits 1 (λ home. home ≡ index) self.old self.new }
    {
        let _ = self.work_unit(hasher);
        let to = self.len();
        let from = self.old_len();
        if from == 0 {
            return Ok(());
        }
        let (start, end) = from_index_to_range(to, from, index);
        if self.relocate_range(hasher, start, end) {
            Ok(())
        } else {
            Err(AllocError)
        }
    }

    /// Finds the bucket for a writer of a hash. Returns its side and its index.
    ///
    /// # Errors
    ///
    /// Allocation failed, either for a first array or for a source, which isn't killed.
    #[inline(always)]
    pub(crate) fn find<H: KeyHash<K>>(
        &mut self,
        hasher: &H,
        hash: u64,
    ) -> Result<(Side, usize), AllocError>
        requires placed { ArePlaced (H.hash_of hasher.now) self.old }
        ensures placed { ArePlaced (H.hash_of hasher.now) self.new }
        ensures kept { Keeps self.old self.new }
        ensures locked { IfOk result (λ found. IsLocked self.new found.0 found.1) }
        ensures home { IfOk result
            (λ found. IsHome (length (buckets_on self.new found.0)) hash found.1) }
        ensures finds { IfOk result
            (λ found. ReadiesThenGrows TYPE hash self.old found.0 found.1 self.new) }
        ensures refused { OnErr result (FindsNone hash self.old self.new) }
    {
        let Ok(()) = self.fetch_or_make(hasher, hash) else {
            return Err(AllocError);
        };
        let index = self.home(hash);
        let side = self.grow_at(hash, index);
        Ok((side, index))
    }

    /// Works a unit, and moves the sources of the home of a hash. Allocates a first array if there
    /// is none.
    #[inline(always)]
    fn fetch_or_make<H: KeyHash<K>>(&mut self, hasher: &H, hash: u64) -> Result<(), AllocError>
        requires placed { ArePlaced (H.hash_of hasher.now) self.old }
        ensures placed { ArePlaced (H.hash_of hasher.now) self.new }
        ensures kept { Keeps self.old self.new }
        ensures ready { OnOk result (IsReady self.new hash) }
        ensures units { WorksUnits 1 (IsHome (length self.new.current) hash) self.old self.new }
        ensures beside { 0 < length self.old.linked → KeepsArrays self.old self.new }
        ensures made { length self.old.linked ≡ 0 → OnOk result (MakesArray self.old self.new) }
        ensures refused { length self.old.linked ≡ 0
            → OnErr result ((length self.old.current ≡ 0) × (self.new ≡ self.old)) }
        ensures wanted { OnErr result
            (0 < length self.new.current → HomeNeedsMemory hash self.old self.new) }
    {
        self.fact_sound();
        if self.has_old() {
            let index = self.home(hash);
            return self.prepare_at(hasher, index);
        }
        self.make_array()?;
        let _ = self.len();
        Ok(())
    }

    /// Resizes if a writer of a hash tries a growth at this bucket. Returns the side on which the
    /// bucket's array then is: the old one after a growth.
    #[inline(always)]
    pub(crate) fn grow_at(&mut self, hash: u64, index: usize) -> Side
        requires within { index < length self.old.current }
        ensures asked { ResizesIf (WriterAsksGrowth TYPE hash self.old index) self.old self.new }
        ensures grown { Grows result self.old self.new }
        ensures kept { Keeps self.old self.new }
        ensures placed { (hash_of : K → ℕ) → ArePlaced hash_of self.old
            → ArePlaced hash_of self.new }
    {
        if !self.writer_asks_growth(hash, index) {
            return Side::Current;
        }
        match self.try_resize() {
            Ok(true) => Side::Old,
            Ok(false) => Side::Current,
            Err(_) => Side::Current,
        }
    }
}

impl<K, V, L: LruList, const TYPE: u8> Arrays<K, V, L, TYPE> {
    /// Returns whether a writer of a hash, for which this bucket was found, tries a growth.
    #[inline(always)]
    fn writer_asks_growth(&self, hash: u64, index: usize) -> bool
        requires within { index < length self.now.current }
        ensures { IsTrue result ↔ WriterAsksGrowth TYPE hash self.now index }
    {
        let Some(array) = &self.current else {
            return false;
        };
        if TYPE == CACHE && array.num_slots() == self.maximum {
            return false;
        }
        array.fact_room();
        if array.bucket(index).len() < BUCKET_LEN - 1 {
            return false;
        }
        if !array.initiate_sampling(hash) {
            return false;
        }
        self.asks_growth(index)
    }

    /// Returns the index of a hash's home in the current array, if it may be locked at once.
    pub(crate) fn free_home(&self, hash: u64, is_checked: bool) -> Option<usize>
        ensures free { IfSome result (λ index. MayLockAtOnce is_checked self.now hash index) }
        ensures within { IfSome result (λ index. index < length self.now.current) }
        ensures none { IfNone result
            ((index : ℕ) → MayLockAtOnce is_checked self.now hash index → ⊥) }
    {
        if self.has_old() {
            return None;
        }
        if self.len() == 0 {
            return None;
        }
        let index = self.home(hash);
        self.fact_room_of(Side::Current);
        if is_checked && self.bucket_of(Side::Current, index).len() >= BUCKET_LEN {
            return None;
        }
        Some(index)
    }

    /// Returns the index of a hash's home in the current array, if that has at most four buckets,
    /// there is no old one, and a writer would not try a growth there.
    #[inline(always)]
    pub(crate) fn short_home(&self, hash: u64) -> Option<usize>
        ensures { IfSome result (λ index. IsRoomy self.now hash index) }
    {
        if self.has_old() {
            return None;
        }
        let Some(array) = &self.current else {
            return None;
        };
        let index = array.bucket_index(hash);
        if !array.has_fewer_short(index, BUCKET_LEN - 1) {
            return None;
        }
        Some(index)
    }

    /// Returns the index of a hash's home in the current array, if there is no old one and the
    /// home's digest shows that a writer would not try a growth there.
    #[inline(always)]
    pub(crate) fn roomy_home(&self, hash: u64) -> Option<usize>
        ensures { IfSome result (λ index. IsRoomy self.now hash index) }
    {
        if self.has_old() {
            return None;
        }
        let Some(array) = &self.current else {
            return None;
        };
        let index = array.bucket_index(hash);
        if !array.has_fewer(index, BUCKET_LEN as u32 - 1) {
            return None;
        }
        Some(index)
    }
}
