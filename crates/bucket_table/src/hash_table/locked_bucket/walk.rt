//! Walks over a table's current buckets.
ghost use Rattle.std.specs.Prelude.{◌≡◌, ◌≢◌, ◌<◌, ◌+◌, length, IsOk, OnErr, OnOk};
ghost use Rattle.std.specs.Int.{IsPowerOfTwo};
ghost use Rattle.bucket_slots.specs.ArrayRoom.{BucketFits};
ghost use Rattle.bucket_slots.specs.BucketView.{BucketView};
ghost use Rattle.bucket_slots.specs.Sizing.{IsLength};
ghost use Rattle.bucket_table.specs.Views.ArraysView.{AreSourcesKilled, IsSource};
ghost use Rattle.bucket_table.specs.Resize.Asking.{AsksShrinking, ResizesIf};
ghost use Rattle.bucket_table.specs.Views.Keeping.{Keeps, KeepsArrays};
ghost use Rattle.bucket_table.specs.Views.Locking.{IsLocked};
ghost use Rattle.bucket_table.specs.Map.MapState.{KeepsPairs, state_of};
ghost use Rattle.bucket_table.specs.Views.Settings.{KeepsSettings};
ghost use Rattle.bucket_table.specs.Views.Sides.{arrays_with, bucket_on};
ghost use Rattle.bucket_table.specs.Rehash.Units.{NeedsMemory, WorksUnits};
ghost use Rattle.bucket_table.specs.Walking.Visits.{reading};
ghost use Rattle.bucket_table.specs.Walking.Walks.{BeginsAt, KeepsBuckets, WalksBy};
ghost use Rattle.bucket_table.specs.declared.arrays.side.Side.TheVariants.{Current};

use crate::arrays::Side;
use crate::capacity::from_index_to_range;
use crate::hash_table::HashTable;
use crate::key_hash::KeyHash;
use crate::visit::{Read, Visit};
use bucket_slots::bucket::Bucket;
use bucket_slots::lru::LruList;
use std::alloc::AllocError;

impl<K: Eq + Drop, V: Drop, H: KeyHash<K>, L: LruList + Drop, const TYPE: u8> HashTable<
    K,
    V,
    H,
    L,
    TYPE,
> {
    /// Lends the current buckets from `start` on for writing, one after another, until the visitor
    /// returns false.
    ///
    /// If the current array doesn't have the expected length, the walk begins at the bucket that is
    /// home to the first hash of bucket `start` of an array of that length. Works a unit before
    /// each visit. If the visitor has set its flag and the first buckets have few pairs, the walk
    /// ends with a resize.
    ///
    /// # Errors
    ///
    /// Allocation failed, which can happen only if there is an old array. A source of the next
    /// bucket isn't killed, and the walk ends there; the changes by earlier visits stay, and
    /// nothing is resized.
    ///
    /// O(buckets from `start` on, and pairs that move), plus the visitor's calls. scc:
    /// `HashTable::for_each_writer_sync`.
    pub fn for_each_writer_sync<F: Visit<Bucket<K, V, L, TYPE>>>(
        &mut self,
        start: usize,
        expected_len: usize,
        visitor: &mut F,
    ) -> Result<(), AllocError>
        requires expected { expected_len ≢ 0 → IsPowerOfTwo expected_len × (start < expected_len) }
        requires may { F.may_visit visitor.old }
        requires owes { KeepsBuckets F.visits }
        ensures again { F.may_visit visitor.new }
        ensures walked { WalksBy F.visits (H.hash_of self.old.hasher) expected_len start visitor.old
            self.old.arrays result visitor.new self.new.arrays }
        ensures settings { KeepsSettings self.old self.new }
        ensures succeeds { length self.old.arrays.linked ≡ 0 → IsOk result }
    {
        let mut flag = false;
        let mut more = true;
        let len = self.arrays.len();
        let mut index = first_index(start, expected_len, len);
        while more && index < self.arrays.len() {
            let Ok(()) = self.prepare_at(index) else {
                return Err(AllocError);
            };
            self.fact_sound();
            more = self.visit_at(index, visitor, &mut flag);
            index += 1;
        }
        if !flag {
            return Ok(());
        }
        self.shrink();
        Ok(())
    }

    /// Lends the current buckets for reading, one after another, until the reader returns false.
    ///
    /// Works a unit before each visit.
    ///
    /// # Errors
    ///
    /// Allocation failed, which can happen only if there is an old array. A source of the next
    /// bucket isn't killed, and the walk ends there.
    ///
    /// O(buckets, and pairs that move), plus the reader's calls. scc:
    /// `HashTable::for_each_reader_sync`.
    pub fn for_each_reader_sync<F: Read<Bucket<K, V, L, TYPE>>>(
        &mut self,
        reader: &mut F,
    ) -> Result<(), AllocError>
        requires may { F.may_read reader.old }
        ensures again { F.may_read reader.new }
        ensures walked { WalksBy (reading F.reads) (H.hash_of self.old.hasher) 0 0 reader.old
            self.old.arrays result reader.new self.new.arrays }
        ensures map { KeepsPairs (state_of TYPE self.old) (state_of TYPE self.new) }
        ensures hasher { self.new.hasher ≡ self.old.hasher }
        ensures kept { KeepsArrays self.old.arrays self.new.arrays }
        ensures alone { length self.old.arrays.linked ≡ 0 → self.new ≡ self.old }
        ensures succeeds { length self.old.arrays.linked ≡ 0 → IsOk result }
    {
        let mut more = true;
        let mut index = 0;
        while more && index < self.arrays.len() {
            let Ok(()) = self.prepare_at(index) else {
                return Err(AllocError);
            };
            self.fact_sound();
            self.arrays.fact_room_of(Side::Current);
            more = reader.read(self.arrays.bucket_of(Side::Current, index));
            index += 1;
        }
        Ok(())
    }

    /// States that a bucket fits in memory; does nothing at run time. Generic code calls it before
    /// a walk.
    ///
    /// O(1).
    pub fn fact_room(&self)
        requires array_stands { 0 < length self.now.arrays.current }
        ensures { BucketFits K.row V.row L.row TYPE.row
            (record { KEEPS = L.KEEPS; listed = L.listed; IsTail = L.IsTail }) L.Default }
    {
        self.arrays.fact_room_of(Side::Current);
    }

    /// Works a unit, and moves the sources of a current bucket.
    ///
    /// # Errors
    ///
    /// Allocation failed: a source isn't killed.
    #[inline(always)]
    fn prepare_at(&mut self, index: usize) -> Result<(), AllocError>
        requires within { index < length self.old.arrays.current }
        ensures hasher { self.new.hasher ≡ self.old.hasher }
        ensures kept { KeepsArrays self.old.arrays self.new.arrays }
        ensures ready { OnOk result (AreSourcesKilled self.new.arrays index) }
        ensures wanted { OnErr result
            (NeedsMemory (IsSource self.new.arrays index) self.old.arrays self.new.arrays) }
        ensures units { WorksUnits 1 (λ home. home ≡ index) self.old.arrays self.new.arrays }
        ensures alone { length self.old.arrays.linked ≡ 0 → self.new.arrays ≡ self.old.arrays }
        ensures succeeds { length self.old.arrays.linked ≡ 0 → IsOk result }
    {
        self.arrays.prepare_at(&self.hasher, index)
    }

    /// Lends a current bucket to a visitor.
    fn visit_at<F: Visit<Bucket<K, V, L, TYPE>>>(
        &mut self,
        index: usize,
        visitor: &mut F,
        flag: &mut bool,
    ) -> bool
        requires locked { IsLocked self.old.arrays Current index }
        requires may { F.may_visit visitor.old }
        requires owes { KeepsBuckets F.visits }
        ensures again { F.may_visit visitor.new }
        ensures hasher { self.new.hasher ≡ self.old.hasher }
        ensures visited { (left : BucketView K V)
            × F.visits visitor.old (bucket_on self.old.arrays Current index) flag.old result left
            flag.new visitor.new
            × (self.new.arrays ≡ arrays_with self.old.arrays Current index left) }
    {
        let before = self.arrays.len_at(index);
        let more = self.arrays.visit_at(index, visitor, flag);
        let after = self.arrays.len_at(index);
        self.count = self.arrays.count_after(&self.count, before, after);
        more
    }

    /// Resizes the current array if its first buckets have few live slots.
    fn shrink(&mut self)
        ensures hasher { self.new.hasher ≡ self.old.hasher }
        ensures kept { Keeps self.old.arrays self.new.arrays }
        ensures resized { ResizesIf (AsksShrinking self.old.arrays 0) self.old.arrays
            self.new.arrays }
    {
        self.arrays.try_shrink(0);
    }
}

/// Returns the index in an array of `len` buckets at which a walk begins, if `start` is an index in
/// an array of `expected_len` buckets.
fn first_index(start: usize, expected_len: usize, len: usize) -> usize
    requires expected { expected_len ≢ 0 → IsPowerOfTwo expected_len × (start < expected_len) }
    requires length { 0 < len → IsLength len }
    ensures { BeginsAt len expected_len start result }
{
    if expected_len == 0 {
        return start;
    }
    if len == 0 {
        return start;
    }
    from_index_to_range(expected_len, len, start).0
}
