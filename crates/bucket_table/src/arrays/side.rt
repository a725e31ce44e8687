//! One of the two arrays of a table, and loans of its buckets, for reading or for writing.
ghost use Rattle.std.specs.Prelude.{◌≡◌, ◌%◌, ◌<◌, IsTrue, Some, length};
ghost use Rattle.std.specs.Borrow.{sem};
ghost use Rattle.bucket_slots.specs.ArrayRoom.{BucketFits};
ghost use Rattle.bucket_slots.specs.ArrayView.{bucket_at};
ghost use Rattle.bucket_slots.specs.BucketView.{slot_in};
ghost use Rattle.bucket_slots.specs.Slots.{is_live, live_pair};
ghost use Rattle.bucket_table.specs.Views.ArrayLoan.{LendsArrayOf};
ghost use Rattle.bucket_table.specs.Views.ArraysView.{list_of};
ghost use Rattle.bucket_table.specs.Views.Sides.{bucket_on, buckets_on, arrays_with};
ghost use Rattle.bucket_slots.specs.Replacing.{slots_replaced};

use super::Arrays;
use bucket_slots::bucket::{Bucket, CACHE, EntryPtr};
use bucket_slots::bucket_array::BucketArray;
use bucket_slots::lru::LruList;

/// One of a table's two arrays.
#[derive(Clone, Copy)]
pub enum Side {
    /// The array for new pairs.
    Current,
    /// The array that pairs leave during an incremental rehash.
    Old,
}

impl<K, V, L: LruList, const TYPE: u8> Arrays<K, V, L, TYPE> {
    ghost use Rattle.bucket_table.specs.Views.ArraysLoan.{LendsBucketOn, LendsEntryOn};
    ghost use Rattle.bucket_table.specs.Views.ArraysLoan.{LendsTouchedOn};

    /// Returns a bucket of one side.
    #[inline(always)]
    pub(crate) fn bucket_of(&self, side: Side, index: usize) -> &Bucket<K, V, L, TYPE>
        requires { index < length (buckets_on self.now side) }
        ensures { result.now ≡ bucket_at (buckets_on self.now side) index }
    {
        self.array_of(side).bucket(index)
    }

    /// Lends a bucket of one side for writing.
    #[inline(always)]
    pub(crate) fn bucket_of_mut(&mut self, side: Side, index: usize) -> &mut Bucket<K, V, L, TYPE>
        requires { index < length (buckets_on self.old side) }
        ensures* writes_back { sem 𝓛
            (LendsBucketOn K.row V.row L.row TYPE.row
            (record { KEEPS = L.KEEPS; listed = L.listed; IsTail = L.IsTail }) L.Default
            self.entry side index result) }
        ensures bucket { result.now ≡ bucket_at (buckets_on self.old side) index }
    {
        match side {
            Side::Current => current_in(&mut self.current).bucket_mut(index),
            Side::Old => self.linked.array_mut().bucket_mut(index),
        }
    }

    /// Lends the pair in a live slot of such a bucket, with its value for writing.
    #[inline(always)]
    pub(crate) fn entry_of_mut(
        &mut self,
        side: Side,
        index: usize,
        at: &EntryPtr<K, V, TYPE>,
    ) -> (&K, &mut V)
        requires within { index < length (buckets_on self.old side) }
        requires live_slot { IsTrue (is_live (slot_in (bucket_on self.old side index) at.now)) }
        ensures* writes_back { sem 𝓛
            (LendsEntryOn K.row V.row L.row TYPE.row
            (record { KEEPS = L.KEEPS; listed = L.listed; IsTail = L.IsTail }) L.Default
            self.entry side index at.now result) }
        ensures pair { live_pair (slot_in (bucket_on self.old side index) at.now)
            ≡ Some (result.0.now, result.1.now) }
    {
        match side {
            Side::Current => current_in(&mut self.current).entry_mut(index, at),
            Side::Old => self.linked.array_mut().entry_mut(index, at),
        }
    }

    /// Makes the pair in a live slot of such a bucket the one touched last there, and lends it,
    /// with its value for writing.
    #[inline(always)]
    pub(crate) fn touch_entry_of(
        &mut self,
        side: Side,
        index: usize,
        at: &EntryPtr<K, V, TYPE>,
    ) -> (&K, &mut V)
        requires cache { TYPE ≡ CACHE }
        requires within { index < length (buckets_on self.old side) }
        requires live_slot { IsTrue (is_live (slot_in (bucket_on self.old side index) at.now)) }
        ensures* writes_back { sem 𝓛
            (LendsTouchedOn K.row V.row L.row TYPE.row
            (record { KEEPS = L.KEEPS; listed = L.listed; IsTail = L.IsTail }) L.Default
            self.entry side index at.now result) }
        ensures pair { live_pair (slot_in (bucket_on self.old side index) at.now)
            ≡ Some (result.0.now, result.1.now) }
    {
        match side {
            Side::Current => current_in(&mut self.current).touch_entry_mut(index, at),
            Side::Old => self.linked.array_mut().touch_entry_mut(index, at),
        }
    }

    /// States that a bucket fits in memory; does nothing at run time.
    #[inline(always)]
    pub(crate) fn fact_room_of(&self, side: Side)
        requires { 0 < length (buckets_on self.now side) }
        ensures { BucketFits K.row V.row L.row TYPE.row
            (record { KEEPS = L.KEEPS; listed = L.listed; IsTail = L.IsTail }) L.Default }
    {
        self.array_of(side).fact_room();
    }
}

/// Lends the current array for writing.
#[inline(always)]
pub(super) fn current_in<K, V, L: LruList, const TYPE: u8>(
    held: &mut Option<BucketArray<K, V, L, TYPE>>,
) -> &mut BucketArray<K, V, L, TYPE>
    requires { 0 < length (list_of held.old) }
    ensures* writes_back { sem 𝓛
        (LendsArrayOf K.row V.row L.row TYPE.row
        (record { KEEPS = L.KEEPS; listed = L.listed; IsTail = L.IsTail }) L.Default
        held.entry result) }
    ensures array { result.now ≡ list_of held.old }
{
    match held {
        Some(array) => array,
        None => unreachable!(),
    }
}

impl<K: Drop, V: Drop, L: LruList, const TYPE: u8> Arrays<K, V, L, TYPE> {
    /// Replaces the pair in a live slot by another one, under `hash`, and returns the previous
    /// pair.
    pub(crate) fn replace_slot(
        &mut self,
        side: Side,
        index: usize,
        at: &EntryPtr<K, V, TYPE>,
        hash: u64,
        pair: (K, V),
    ) -> (K, V)
        requires within { index < length (buckets_on self.old side) }
        requires live_slot { IsTrue (is_live (slot_in (bucket_on self.old side index) at.now)) }
        ensures pair { live_pair (slot_in (bucket_on self.old side index) at.now) ≡ Some result }
        ensures arrays { self.new ≡ arrays_with self.old side index
            (slots_replaced (bucket_on self.old side index) at.now pair (hash % 256)) }
    {
        self.fact_room_of(side);
        let earlier = self.bucket_of_mut(side, index).replace(at, hash, pair);
        self.refresh_on(side, index);
        earlier
    }
}
