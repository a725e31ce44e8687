//! Calls on a bucket of an array that read its digest first.
ghost use Rattle.std.specs.Prelude.{◌≡◌, ◌%◌, ◌+◌, ◌<◌, ◌≤◌, Some, IsTrue, length, slice_set};
ghost use Rattle.std.specs.Borrow.{sem};
ghost use Rattle.bucket_slots.specs.ArrayView.{bucket_at};
ghost use Rattle.bucket_slots.specs.BucketView.{pairs_in, slot_in};
ghost use Rattle.bucket_slots.specs.Evicting.{slots_touched};
ghost use Rattle.bucket_slots.specs.Places.{pair_lent};
ghost use Rattle.bucket_slots.specs.Searching.{matching_len, pair_matched, place_matched};
ghost use Rattle.bucket_slots.specs.Slots.{is_live, live_pair};

use super::BucketArray;
use super::digests::{Digests, is_stale};
use crate::bucket::{CACHE, EntryPtr, KeyProbe};
use crate::lru::LruList;
use std::alloc::Global;
use std::mem;

impl<K, V, L: LruList, const TYPE: u8> BucketArray<K, V, L, TYPE> {
    ghost use Rattle.bucket_slots.specs.ArrayLoans.{LendsEntryOf, LendsTouchedOf};

    /// Returns what `Bucket::peek_entry_by` returns.
    ///
    /// O(1), but O(blocks in the chain) if the digest is stale.
    #[inline(always)]
    pub fn peek_by<P: KeyProbe<K>>(
        &self,
        index: usize,
        hash: u64,
        probe: &mut P,
    ) -> Option<(&K, &V)>
        requires { index < length self.now }
        ensures pair { pair_lent result
            ≡ pair_matched (P.matches probe.old) (hash % 256) (bucket_at self.now index) }
        ensures few { P.asked probe.new
            ≤ P.asked probe.old + matching_len (hash % 256) (bucket_at self.now index) }
        ensures fixed { P.matches probe.new ≡ P.matches probe.old }
    {
        self.fact_room();
        let Some((_live, left)) = self.digests.known(&self.buckets, index, hash) else {
            return self.bucket(index).peek_entry_by(hash, probe);
        };
        let (_at, key, value) = self.buckets.find_among(index, left, hash, probe)?;
        Some((key, value))
    }

    /// Returns whether a bucket's digest shows that it has fewer than `len` live slots.
    ///
    /// O(1).
    #[inline(always)]
    pub fn has_fewer(&self, index: usize, len: u32) -> bool
        requires { len ≤ 32 }
        ensures { IsTrue result → length (pairs_in (bucket_at self.now index)) < len }
    {
        self.digests.live(index).count_ones() < len
    }

    /// Returns whether the array has at most four buckets, which have no digests, and a bucket has
    /// fewer than `len` live slots.
    ///
    /// O(1).
    #[inline(always)]
    pub fn has_fewer_short(&self, index: usize, len: usize) -> bool
        requires { index < length self.now }
        ensures { IsTrue result → length (pairs_in (bucket_at self.now index)) < len }
    {
        if !self.buckets.is_short() {
            return false;
        }
        self.fact_room();
        self.buckets.get(index).len() < len
    }

    /// Returns the place of the slot whose pair `peek_by` returns, at the same cost.
    #[inline(always)]
    pub fn find_by<P: KeyProbe<K>>(
        &self,
        index: usize,
        hash: u64,
        probe: &mut P,
    ) -> Option<EntryPtr<K, V, TYPE>>
        requires { index < length self.now }
        ensures place { result
            ≡ place_matched (P.matches probe.old) (hash % 256) (bucket_at self.now index) }
        ensures fixed { P.matches probe.new ≡ P.matches probe.old }
    {
        self.fact_room();
        let Some((_live, left)) = self.digests.known(&self.buckets, index, hash) else {
            let at = self.bucket(index).get_entry_ptr_by(hash, probe);
            return if at.is_valid() { Some(at) } else { None };
        };
        let (at, _key, _value) = self.buckets.find_among(index, left, hash, probe)?;
        Some(at)
    }

    /// Lends the pair in a live slot of a bucket, with its value for writing. The digest stays.
    ///
    /// Allocates nothing. O(1), but O(blocks in the chain) for a slot there.
    #[inline(always)]
    pub fn entry_mut(&mut self, index: usize, at: &EntryPtr<K, V, TYPE>) -> (&K, &mut V)
        requires within { index < length self.old }
        requires live_slot { IsTrue (is_live (slot_in (bucket_at self.old index) at.now)) }
        ensures* writes_back { sem 𝓛
            (LendsEntryOf K.row V.row L.row TYPE.row
            (record { KEEPS = L.KEEPS; listed = L.listed; IsTail = L.IsTail }) L.Default
            self.entry index at.now result) }
        ensures pair { live_pair (slot_in (bucket_at self.old index) at.now)
            ≡ Some (result.0.now, result.1.now) }
    {
        self.fact_room();
        self.buckets.get_mut(index).entry_mut(at)
    }

    /// Makes the pair in a live slot the one touched last in its bucket. The digest stays.
    ///
    /// Allocates nothing. O(1).
    #[inline(always)]
    pub fn touch(&mut self, index: usize, at: &EntryPtr<K, V, TYPE>)
        requires cache { TYPE ≡ CACHE }
        requires within { index < length self.old }
        requires live_slot { IsTrue (is_live (slot_in (bucket_at self.old index) at.now)) }
        ensures { self.new ≡ slice_set self.old index
            (slots_touched L.KEEPS (bucket_at self.old index) at.now) }
    {
        self.fact_room();
        self.buckets.get_mut(index).update_lru_tail(at);
    }

    /// Makes the pair in a live slot the one touched last in its bucket, and lends it, with its
    /// value for writing. The digest stays.
    ///
    /// Allocates nothing. O(1), but O(blocks in the chain) for a slot there.
    #[inline(always)]
    pub fn touch_entry_mut(&mut self, index: usize, at: &EntryPtr<K, V, TYPE>) -> (&K, &mut V)
        requires cache { TYPE ≡ CACHE }
        requires within { index < length self.old }
        requires live_slot { IsTrue (is_live (slot_in (bucket_at self.old index) at.now)) }
        ensures* writes_back { sem 𝓛
            (LendsTouchedOf K.row V.row L.row TYPE.row
            (record { KEEPS = L.KEEPS; listed = L.listed; IsTail = L.IsTail }) L.Default
            self.entry index at.now result) }
        ensures pair { live_pair (slot_in (bucket_at self.old index) at.now)
            ≡ Some (result.0.now, result.1.now) }
    {
        if at.block() != 0 {
            return self.entry_mut(index, at);
        }
        self.fact_room();
        let bucket = self.buckets.get_mut(index);
        bucket.update_lru_tail(at);
        bucket.entry_mut(at)
    }

    /// Rebuilds a bucket's digest from the bucket. No bucket changes. An array of at most four
    /// buckets has no digests.
    ///
    /// Allocates nothing. O(own slots).
    pub fn refresh(&mut self, index: usize)
        requires { index < length self.old }
        ensures { self.new ≡ self.old }
    {
        if self.buckets.is_short() {
            return;
        }
        self.fact_room();
        let (live, bytes) = self.buckets.get(index).digest();
        self.digests.refresh(index, live, bytes);
    }

    /// Refreshes a bucket's digest if it is stale. No bucket changes.
    #[inline(always)]
    pub(super) fn heal(&mut self, index: usize)
        requires { index < length self.old }
        ensures { self.new ≡ self.old }
    {
        if is_stale(self.digests.live(index)) {
            self.refresh(index);
        }
    }

    /// Takes over the memory of another array's digests and allocates what is missing. All digests
    /// of this array are then stale. No bucket changes.
    ///
    /// Never fails: a digest without memory stays stale. O(1).
    pub fn adopt_digests(&mut self, alloc: Global, from: &mut Self)
        ensures own { self.new ≡ self.old }
        ensures other { from.new ≡ from.old }
    {
        let mut digests = mem::replace(&mut from.digests, Digests::none(alloc));
        digests.restart(alloc, self.digests_len());
        self.digests = digests;
    }

    /// Allocates the digests and builds them; an array of at most four buckets has none. No bucket
    /// changes.
    ///
    /// Never fails: a digest without memory stays stale. O(buckets).
    pub fn start_digests(&mut self, alloc: Global)
        ensures { self.new ≡ self.old }
    {
        if self.buckets.is_short() {
            return;
        }
        self.restart_digests(alloc);
        for index in 0..self.len() {
            self.refresh(index);
        }
    }

    /// Allocates the digests, all stale at first. No bucket changes.
    fn restart_digests(&mut self, alloc: Global)
        ensures { self.new ≡ self.old }
    {
        let len = self.digests_len();
        self.digests.restart(alloc, len);
    }

    /// Returns the number of digests: one for each bucket, or none if there are at most four
    /// buckets.
    pub(super) fn digests_len(&self) -> usize {
        if self.buckets.is_short() {
            0
        } else {
            self.buckets.len()
        }
    }
}
