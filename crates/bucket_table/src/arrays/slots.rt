//! What is done to the pair in a slot of a bucket of either side, for calls by key and locked
//! buckets.
ghost use Rattle.std.specs.Prelude.{◌≡◌, ◌≢◌, ◌%◌, ◌<◌, ℕ, Some, IsTrue, length};
ghost use Rattle.bucket_slots.specs.BucketView.{BucketView, pairs_in, slot_in};
ghost use Rattle.bucket_slots.specs.Digested.{UpsertsIn};
ghost use Rattle.bucket_slots.specs.Evicting.{slots_touched};
ghost use Rattle.bucket_slots.specs.Marking.{slots_marked};
ghost use Rattle.bucket_slots.specs.Removing.{place_after, slots_without};
ghost use Rattle.bucket_slots.specs.Slots.{is_live, live_pair};
ghost use Rattle.bucket_slots.specs.Walking.{pairs_ahead};
ghost use Rattle.bucket_table.specs.Map.ByKey.{InsertsIn};
ghost use Rattle.bucket_table.specs.Map.Taking.{TakesHome, TakesOn};
ghost use Rattle.bucket_table.specs.Views.ArraysView.{ArePlaced};
ghost use Rattle.bucket_table.specs.Resize.Asking.{RemovesAndShrinks};
ghost use Rattle.bucket_table.specs.Views.Sides.{arrays_with, bucket_on, buckets_on};
ghost use Rattle.bucket_table.specs.Views.Keeping.{Keeps};

use super::side::current_in;
use super::{Arrays, Side};
use crate::hash_table::NotInserted;
use bucket_slots::bucket::{CACHE, EntryPtr, Generation, INDEX, KeyProbe};
use bucket_slots::lru::LruList;

impl<K, V, L: LruList, const TYPE: u8> Arrays<K, V, L, TYPE> {
    /// Returns the pair in a live slot.
    #[inline(always)]
    pub(crate) fn entry_of(&self, side: Side, index: usize, at: &EntryPtr<K, V, TYPE>) -> (&K, &V)
        requires within { index < length (buckets_on self.now side) }
        requires live_slot { IsTrue (is_live (slot_in (bucket_on self.now side index) at.now)) }
        ensures { live_pair (slot_in (bucket_on self.now side index) at.now)
            ≡ Some (result.0.now, result.1.now) }
    {
        self.fact_room_of(side);
        self.bucket_of(side, index).entry(at)
    }

    /// Makes the pair in a live slot the one touched last in its bucket.
    #[inline(always)]
    pub(crate) fn touch_slot(&mut self, side: Side, index: usize, at: &EntryPtr<K, V, TYPE>)
        requires cache { TYPE ≡ CACHE }
        requires within { index < length (buckets_on self.old side) }
        requires live_slot { IsTrue (is_live (slot_in (bucket_on self.old side index) at.now)) }
        ensures { self.new ≡ arrays_with self.old side index
            (slots_touched L.KEEPS (bucket_on self.old side index) at.now) }
    {
        match side {
            Side::Current => current_in(&mut self.current).touch(index, at),
            Side::Old => self.linked.array_mut().touch(index, at),
        }
    }

    /// Makes the pair in a live slot a tombstone. Returns the number of live pairs left in the
    /// bucket.
    pub(crate) fn mark_slot<G: Generation>(
        &mut self,
        side: Side,
        index: usize,
        at: &mut EntryPtr<K, V, TYPE>,
        generation: &G,
    ) -> usize
        requires index { TYPE ≡ INDEX }
        requires within { index < length (buckets_on self.old side) }
        requires live_slot { IsTrue (is_live (slot_in (bucket_on self.old side index) at.old)) }
        ensures arrays { self.new ≡ arrays_with self.old side index
            (slots_marked (bucket_on self.old side index) at.old (G.epoch_of generation.now)) }
        ensures pointer { at.new ≡ at.old }
        ensures pairs_ahead { pairs_ahead (bucket_on self.new side index) at.new
            ≡ pairs_ahead (bucket_on self.old side index) at.old }
        ensures left { result ≡ length (pairs_in (bucket_on self.new side index)) }
    {
        self.fact_room_of(side);
        let bucket = self.bucket_of_mut(side, index);
        bucket.mark_removed(at, generation);
        let left = bucket.len();
        self.refresh_on(side, index);
        left
    }
}

impl<K: Drop, V: Drop, L: LruList, const TYPE: u8> Arrays<K, V, L, TYPE> {
    /// Inserts a pair into a bucket, if no live slot there has an equal key.
    #[inline(always)]
    pub(crate) fn insert_home<G: Generation>(
        &mut self,
        side: Side,
        index: usize,
        hash: u64,
        pair: (K, V),
        generation: &G,
    ) -> Result<(), NotInserted<K, V>>
    where
        K: Eq,
        requires { index < length (buckets_on self.old side) }
        ensures { InsertsIn K.eq pair.0 pair.1 (hash % 256) TYPE (G.keeps generation.now)
            (bucket_on self.old side index) result
            (λ left. self.new ≡ arrays_with self.old side index left) }
    {
        let (key, value) = pair;
        match side {
            Side::Current => {
                let array = current_in(&mut self.current);
                array.insert_absent(index, hash, key, value, generation)
            }
            Side::Old => {
                let array = self.linked.array_mut();
                array.insert_absent(index, hash, key, value, generation)
            }
        }
    }

    /// Inserts a pair into a bucket, or replaces the value if the key is there.
    #[inline(always)]
    pub(crate) fn upsert_home<G: Generation>(
        &mut self,
        side: Side,
        index: usize,
        hash: u64,
        pair: (K, V),
        generation: &G,
    ) -> Result<Option<V>, (K, V)>
    where
        K: Eq,
        requires { index < length (buckets_on self.old side) }
        ensures { (left : BucketView K V)
            × UpsertsIn K.eq pair.0 pair.1 (hash % 256) TYPE (G.keeps generation.now)
            (bucket_on self.old side index) result left
            × (self.new ≡ arrays_with self.old side index left) }
    {
        let (key, value) = pair;
        match side {
            Side::Current => {
                let array = current_in(&mut self.current);
                array.upsert(index, hash, key, value, generation)
            }
            Side::Old => {
                let array = self.linked.array_mut();
                array.upsert(index, hash, key, value, generation)
            }
        }
    }

    /// Takes the first pair that matches a probe out of a bucket. Returns it, and the number of
    /// live pairs left there.
    #[inline(always)]
    pub(crate) fn take_home<P: KeyProbe<K>>(
        &mut self,
        side: Side,
        index: usize,
        hash: u64,
        probe: &mut P,
    ) -> Option<((K, V), usize)>
        requires not_index { TYPE ≢ INDEX }
        requires within { index < length (buckets_on self.old side) }
        ensures taken { TakesHome (P.matches probe.old) (hash % 256) side index self.old result
            self.new }
        ensures fixed { P.matches probe.new ≡ P.matches probe.old }
    {
        match side {
            Side::Current => current_in(&mut self.current).take_by(index, hash, probe),
            Side::Old => self.linked.array_mut().take_by(index, hash, probe),
        }
    }

    /// Takes the pair out of a live slot. Returns it, and the number of live pairs left in the
    /// bucket.
    #[inline(always)]
    pub(crate) fn take_slot(
        &mut self,
        side: Side,
        index: usize,
        at: &mut EntryPtr<K, V, TYPE>,
    ) -> ((K, V), usize)
        requires not_index { TYPE ≢ INDEX }
        requires within { index < length (buckets_on self.old side) }
        requires live_slot { IsTrue (is_live (slot_in (bucket_on self.old side index) at.old)) }
        ensures pair { live_pair (slot_in (bucket_on self.old side index) at.old)
            ≡ Some result.0 }
        ensures arrays { self.new ≡ arrays_with self.old side index
            (slots_without (bucket_on self.old side index) at.old) }
        ensures place { at.new ≡ place_after (bucket_on self.old side index) at.old }
        ensures pairs_ahead { pairs_ahead (bucket_on self.new side index) at.new
            ≡ pairs_ahead (bucket_on self.old side index) at.old }
        ensures left { result.1 ≡ length (pairs_in (bucket_on self.new side index)) }
    {
        self.fact_room_of(side);
        let bucket = self.bucket_of_mut(side, index);
        let pair = bucket.remove(at);
        let left = bucket.len();
        self.refresh_on(side, index);
        (pair, left)
    }
}

impl<K: Drop, V: Drop, L: LruList + Drop, const TYPE: u8> Arrays<K, V, L, TYPE> {
    /// Makes the pair in a live slot a tombstone. If no live pair is left in the bucket, the arrays
    /// may shrink, as `shrink_left` does.
    pub(crate) fn mark_at<G: Generation>(
        &mut self,
        side: Side,
        index: usize,
        at: &mut EntryPtr<K, V, TYPE>,
        generation: &G,
        pairs: Option<usize>,
    )
        requires index { TYPE ≡ INDEX }
        requires within { index < length (buckets_on self.old side) }
        requires live_slot { IsTrue (is_live (slot_in (bucket_on self.old side index) at.old)) }
        ensures asked { RemovesAndShrinks pairs self.old side index
            (slots_marked (bucket_on self.old side index) at.old (G.epoch_of generation.now))
            self.new }
        ensures kept { Keeps (arrays_with self.old side index
            (slots_marked (bucket_on self.old side index) at.old (G.epoch_of generation.now)))
            self.new }
        ensures placed { (hash : K → ℕ) → ArePlaced hash (arrays_with self.old side index
            (slots_marked (bucket_on self.old side index) at.old (G.epoch_of generation.now)))
            → ArePlaced hash self.new }
        ensures pointer { at.new ≡ at.old }
    {
        let left = self.mark_slot(side, index, at, generation);
        self.shrink_left(side, index, left, pairs);
    }

    /// Takes the pair out of a live slot. If no live pair is left in the bucket, the arrays may
    /// shrink, as `shrink_left` does.
    #[inline(always)]
    pub(crate) fn take_at(
        &mut self,
        side: Side,
        index: usize,
        at: &mut EntryPtr<K, V, TYPE>,
        pairs: Option<usize>,
    ) -> (K, V)
        requires not_index { TYPE ≢ INDEX }
        requires within { index < length (buckets_on self.old side) }
        requires live_slot { IsTrue (is_live (slot_in (bucket_on self.old side index) at.old)) }
        ensures pair { live_pair (slot_in (bucket_on self.old side index) at.old) ≡ Some result }
        ensures asked { RemovesAndShrinks pairs self.old side index
            (slots_without (bucket_on self.old side index) at.old) self.new }
        ensures kept { Keeps (arrays_with self.old side index
            (slots_without (bucket_on self.old side index) at.old)) self.new }
        ensures placed { (hash : K → ℕ) → ArePlaced hash (arrays_with self.old side index
            (slots_without (bucket_on self.old side index) at.old)) → ArePlaced hash self.new }
        ensures place { at.new ≡ place_after (bucket_on self.old side index) at.old }
    {
        let (pair, left) = self.take_slot(side, index, at);
        self.shrink_left(side, index, left, pairs);
        pair
    }

    /// Takes the first pair that matches a probe out of the home of a hash on one side. If no live
    /// pair is left in the bucket, the arrays may shrink, as `shrink_left` does.
    #[inline(always)]
    pub(crate) fn take_on<P: KeyProbe<K>>(
        &mut self,
        side: Side,
        hash: u64,
        probe: &mut P,
        pairs: Option<usize>,
    ) -> Option<(K, V)>
        requires not_index { TYPE ≢ INDEX }
        ensures taken { TakesOn pairs (P.matches probe.old) hash side self.old result self.new }
        ensures fixed { P.matches probe.new ≡ P.matches probe.old }
    {
        if self.len_on(side) == 0 {
            return None;
        }
        self.fact_room_of(side);
        let index = self.array_of(side).bucket_index(hash);
        let Some((pair, left)) = self.take_home(side, index, hash, probe) else {
            return None;
        };
        self.shrink_left(side, index, left, pairs);
        Some(pair)
    }

    /// Takes the pair that `take_on` takes, but borrows the bucket for writing only if there is
    /// one. Such a borrow initializes the buckets of a part, even in an old array that has freed
    /// them.
    #[inline(always)]
    pub(crate) fn search_and_take<P: KeyProbe<K>>(
        &mut self,
        side: Side,
        hash: u64,
        probe: &mut P,
        pairs: Option<usize>,
    ) -> Option<(K, V)>
        requires not_index { TYPE ≢ INDEX }
        ensures taken { TakesOn pairs (P.matches probe.old) hash side self.old result self.new }
        ensures fixed { P.matches probe.new ≡ P.matches probe.old }
    {
        match self.search_on(side, hash, probe) {
            Some(mut spot) => Some(self.take_at(spot.side, spot.index, &mut spot.at, pairs)),
            None => None,
        }
    }
}
