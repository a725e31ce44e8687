//! Calls by key that insert a pair, or write the value of a present one. They search by a probe
//! that matches the keys equal to their own, and find a pair on either side, moved or not.
ghost use Rattle.std.specs.Prelude.{◌≡◌, ◌%◌, ◌<◌, IsTrue, OnErr, OnOk, Some, is_ok, is_some};
ghost use Rattle.std.specs.Prelude.{length, true};
ghost use Rattle.std.specs.Borrow.{Bor, MutBor};
ghost use Rattle.bucket_slots.specs.BucketView.{bucket_with_value, slot_in, BucketView};
ghost use Rattle.bucket_slots.specs.Clearing.{slots_after_insertion};
ghost use Rattle.bucket_slots.specs.Homes.{IsHome};
ghost use Rattle.bucket_slots.specs.Slots.{is_live, live_pair};
ghost use Rattle.bucket_table.specs.Views.ArraysView.{pairs_of};
ghost use Rattle.bucket_table.specs.Map.ByKey.{ChangesAt, InsertsAt, ReturnsPair};
ghost use Rattle.bucket_table.specs.Map.ByKey.{PreparesThen, Inserts, StandsAt, Swaps, Rewrites};
ghost use Rattle.bucket_table.specs.Map.ByKey.{WritesAt, Upserts, UpsertsAt};
ghost use Rattle.bucket_table.specs.Map.Finding.{FindsThen};
ghost use Rattle.bucket_table.specs.Map.LookingUp.{IsThere};
ghost use Rattle.bucket_table.specs.Map.MapState.{ChangesValue, state_of};
ghost use Rattle.bucket_table.specs.Views.Sides.{bucket_on, buckets_on, with_bucket};
ghost use Rattle.bucket_table.specs.Views.Locking.{IsLocked};
ghost use Rattle.bucket_slots.specs.Digested.{AnswersInsertion, UpsertsIn};
ghost use Rattle.bucket_slots.specs.Replacing.{slots_replaced};
ghost use Rattle.bucket_table.specs.Map.Putting.{ReplacesPair};
ghost use Rattle.bucket_table.specs.Map.Replacing.{Replaces};

use crate::arrays::{Side, Spot, put_len};
use crate::hash_table::{HashTable, NotInserted, ResizeRule};
use crate::key_hash::KeyHash;
use bucket_slots::bucket::{EqProbe, Generation, KeyProbe};
use bucket_slots::lru::LruList;
use std::mem;

impl<K: Eq + Drop, V: Drop, H: KeyHash<K>, L: LruList + Drop, const TYPE: u8> HashTable<
    K,
    V,
    H,
    L,
    TYPE,
> {
    /// Replaces the value of the pair with an equal key, and returns the previous value.
    ///
    /// Works a unit. May allocate, and never fails.
    ///
    /// # Errors
    ///
    /// The key is absent: the value is returned.
    ///
    /// O(unit).
    #[inline(always)]
    pub fn swap(&mut self, key: &K, value: V) -> Result<V, V>
        ensures map { Swaps (λ own. K.eq own key.now) value (state_of TYPE self.old) result
            (state_of TYPE self.new) }
        ensures arrays { PreparesThen TYPE (H.hash_of self.old.hasher key.now) self.old (λ between.
            ChangesAt (λ own. K.eq own key.now) (λ bucket at. bucket_with_value bucket at value)
            (is_ok result) between self.new) }
    {
        let hash = self.hash(key);
        match self.fetch_spot(hash, &mut EqProbe::new(key)) {
            Some(spot) => Ok(self.swap_at(&spot, value)),
            None => Err(value),
        }
    }

    /// Inserts a pair if its key is absent. The table may grow, by the rule `rule`.
    ///
    /// # Errors
    ///
    /// The key is in the map, or it is absent and allocation failed: the pair is returned.
    /// Allocation can't fail if the bucket that is found has a free slot.
    ///
    /// O(unit; buckets that a resize makes).
    #[inline(always)]
    pub fn insert_pair<G: Generation>(
        &mut self,
        key: K,
        value: V,
        generation: &G,
        rule: ResizeRule,
    ) -> Result<(), NotInserted<K, V>>
        ensures map { Inserts K.eq key value (state_of TYPE self.old) result
            (state_of TYPE self.new) }
        ensures arrays { FindsThen rule TYPE (H.hash_of self.old.hasher key) self.old
            (λ answer between. InsertsAt TYPE (G.keeps generation.now) (key, value)
            (H.hash_of self.old.hasher key % 256) between result answer self.new) }
    {
        let hash = self.hash(&key);
        if let Some(index) = self.roomy_home(hash) {
            return self.insert_at(Side::Current, index, hash, (key, value), generation);
        }
        if let Some(index) = self.short_home(hash) {
            return self.insert_at(Side::Current, index, hash, (key, value), generation);
        }
        self.insert_found(hash, key, value, generation, rule)
    }

    /// Finds a bucket for a pair, and inserts it there.
    #[inline(never)]
    fn insert_found<G: Generation>(
        &mut self,
        hash: u64,
        key: K,
        value: V,
        generation: &G,
        rule: ResizeRule,
    ) -> Result<(), NotInserted<K, V>>
        requires own_hash { hash ≡ H.hash_of self.old.hasher key }
        ensures map { Inserts K.eq key value (state_of TYPE self.old) result
            (state_of TYPE self.new) }
        ensures arrays { FindsThen rule TYPE (H.hash_of self.old.hasher key) self.old
            (λ answer between. InsertsAt TYPE (G.keeps generation.now) (key, value)
            (H.hash_of self.old.hasher key % 256) between result answer self.new) }
    {
        let Ok((side, index)) = self.find(hash, rule) else {
            return Err(self.not_inserted(hash, key, value));
        };
        self.insert_at(side, index, hash, (key, value), generation)
    }

    /// Inserts a pair into a locked bucket if its key is absent.
    #[inline(always)]
    fn insert_at<G: Generation>(
        &mut self,
        side: Side,
        index: usize,
        hash: u64,
        pair: (K, V),
        generation: &G,
    ) -> Result<(), NotInserted<K, V>>
        requires locked { IsLocked self.old.arrays side index }
        requires own_hash { hash ≡ H.hash_of self.old.hasher pair.0 }
        requires home { IsHome (length (buckets_on self.old.arrays side)) hash index }
        ensures map { Inserts K.eq pair.0 pair.1 (state_of TYPE self.old) result
            (state_of TYPE self.new) }
        ensures put { OnOk result (self.new ≡ with_bucket self.old side index
            (slots_after_insertion TYPE (G.keeps generation.now)
            (bucket_on self.old.arrays side index) pair (hash % 256))) }
        ensures unchanged { OnErr result (self.new ≡ self.old) }
        ensures answer { AnswersInsertion K.eq pair.0 pair.1 (hash % 256) TYPE
            (G.keeps generation.now) (bucket_on self.old.arrays side index) result }
    {
        let done = self.arrays.insert_home(side, index, hash, pair, generation);
        self.arrays.count_insertion(&mut self.count, &done);
        done
    }

    /// Writes a value into a live slot, and returns the previous one.
    ///
    /// O(blocks of the chain).
    #[inline(always)]
    pub fn swap_at(&mut self, spot: &Spot<K, V, TYPE>, value: V) -> V
        requires within { spot.now.index < length (buckets_on self.old.arrays spot.now.side) }
        requires live_slot { IsTrue (is_live
            (slot_in (bucket_on self.old.arrays spot.now.side spot.now.index) spot.now.at)) }
        ensures map { (found : K) × (live_pair
            (slot_in (bucket_on self.old.arrays spot.now.side spot.now.index) spot.now.at)
            ≡ Some (found, result))
            × ChangesValue (state_of TYPE self.old) (found, result) value (state_of TYPE self.new) }
        ensures table { self.new ≡ with_bucket self.old spot.now.side spot.now.index
            (bucket_with_value (bucket_on self.old.arrays spot.now.side spot.now.index) spot.now.at
            value) }
    {
        mem::replace(self.entry_mut_at(spot).1, value)
    }

    /// Calls `change` with the pair with an equal key, with the value lent for writing, and returns
    /// its result, or `None` exactly if the map has none; then `change` isn't called.
    ///
    /// Works a unit. May allocate, and never fails.
    ///
    /// O(unit).
    #[inline(always)]
    pub fn update<R, F: FnOnce(&K, &mut V) -> R>(&mut self, key: &K, change: F) -> Option<R>
        requires callable { (own : Bor K) (value : MutBor V)
            → IsThere (λ own. K.eq own key.now) (pairs_of self.old.arrays) (own.now, value.now)
            → F.pre change own value }
        ensures map { Rewrites (λ own. K.eq own key.now)
            (λ own before answer after. F.post change own before answer after)
            (state_of TYPE self.old) result (state_of TYPE self.new) }
        ensures arrays { PreparesThen TYPE (H.hash_of self.old.hasher key.now) self.old (λ between.
            WritesAt (λ own. K.eq own key.now) (is_some result) between self.new) }
    {
        let hash = self.hash(key);
        self.update_by(hash, &mut EqProbe::new(key), change)
    }

    /// Calls `change` with the first pair that matches a probe, with the value lent for writing,
    /// and returns its result, or `None` exactly if the map has none; then `change` isn't called.
    /// The probe must match only keys of this hash.
    ///
    /// Works a unit. May allocate, and never fails.
    ///
    /// O(unit).
    #[inline(always)]
    pub fn update_by<R, F: FnOnce(&K, &mut V) -> R, P: KeyProbe<K>>(
        &mut self,
        hash: u64,
        probe: &mut P,
        change: F,
    ) -> Option<R>
        requires own_hash { (key : K)
            → P.matches probe.old key ≡ true
            → H.hash_of self.old.hasher key ≡ hash }
        requires callable { (own : Bor K) (value : MutBor V)
            → IsThere (P.matches probe.old) (pairs_of self.old.arrays) (own.now, value.now)
            → F.pre change own value }
        ensures map { Rewrites (P.matches probe.old)
            (λ own before answer after. F.post change own before answer after)
            (state_of TYPE self.old) result (state_of TYPE self.new) }
        ensures arrays { PreparesThen TYPE hash self.old (λ between.
            WritesAt (P.matches probe.old) (is_some result) between self.new) }
        ensures fixed { P.matches probe.new ≡ P.matches probe.old }
    {
        match self.fetch_spot(hash, probe) {
            Some(spot) => {
                let (key, value) = self.entry_mut_at(&spot);
                Some(change(key, value))
            }
            None => None,
        }
    }

    /// Inserts a pair. If the map has an equal key, the key stays, the value is replaced, and the
    /// previous value is returned. The table may grow, by the rule `rule`.
    ///
    /// Never fails if the key is in the map.
    ///
    /// # Errors
    ///
    /// The key is absent and allocation failed: the pair is returned. This can't happen if the
    /// bucket that is found has a free slot.
    ///
    /// O(unit; buckets that a resize makes).
    #[inline(always)]
    pub fn upsert<G: Generation>(
        &mut self,
        key: K,
        value: V,
        generation: &G,
        rule: ResizeRule,
    ) -> Result<Option<V>, (K, V)>
        ensures map { Upserts K.eq key value (state_of TYPE self.old) result
            (state_of TYPE self.new) }
        ensures arrays { FindsThen rule TYPE (H.hash_of self.old.hasher key) self.old
            (λ answer between. UpsertsAt K.eq TYPE (G.keeps generation.now) key value
            (H.hash_of self.old.hasher key % 256) between result answer self.new) }
    {
        let hash = self.hash(&key);
        if let Some(index) = self.roomy_home(hash) {
            return self.upsert_at(Side::Current, index, hash, (key, value), generation);
        }
        if let Some(index) = self.short_home(hash) {
            return self.upsert_at(Side::Current, index, hash, (key, value), generation);
        }
        self.upsert_found(hash, key, value, generation, rule)
    }

    /// Finds a bucket for a pair, and inserts it there or writes its value.
    #[inline(never)]
    fn upsert_found<G: Generation>(
        &mut self,
        hash: u64,
        key: K,
        value: V,
        generation: &G,
        rule: ResizeRule,
    ) -> Result<Option<V>, (K, V)>
        requires own_hash { hash ≡ H.hash_of self.old.hasher key }
        ensures map { Upserts K.eq key value (state_of TYPE self.old) result
            (state_of TYPE self.new) }
        ensures arrays { FindsThen rule TYPE (H.hash_of self.old.hasher key) self.old
            (λ answer between. UpsertsAt K.eq TYPE (G.keeps generation.now) key value
            (H.hash_of self.old.hasher key % 256) between result answer self.new) }
    {
        match self.find(hash, rule) {
            Ok((side, index)) => self.upsert_at(side, index, hash, (key, value), generation),
            Err(_) => match self.spot_of(&key, hash) {
                Some(spot) => Ok(Some(self.swap_at(&spot, value))),
                None => Err((key, value)),
            },
        }
    }

    /// Inserts a pair into a locked bucket, or writes its value there.
    #[inline(always)]
    pub(super) fn upsert_at<G: Generation>(
        &mut self,
        side: Side,
        index: usize,
        hash: u64,
        pair: (K, V),
        generation: &G,
    ) -> Result<Option<V>, (K, V)>
        requires locked { IsLocked self.old.arrays side index }
        requires own_hash { hash ≡ H.hash_of self.old.hasher pair.0 }
        requires home { IsHome (length (buckets_on self.old.arrays side)) hash index }
        ensures map { Upserts K.eq pair.0 pair.1 (state_of TYPE self.old) result
            (state_of TYPE self.new) }
        ensures bucket { (left : BucketView K V)
            × UpsertsIn K.eq pair.0 pair.1 (hash % 256) TYPE (G.keeps generation.now)
            (bucket_on self.old.arrays side index) result left
            × (self.new ≡ with_bucket self.old side index left) }
    {
        let done = self.arrays.upsert_home(side, index, hash, pair, generation);
        self.count = self.arrays.count_after(&self.count, 0, put_len(&done));
        done
    }

    /// Replaces the pair with an equal key by another one, and returns the previous pair. The slot
    /// leaves the LRU list.
    ///
    /// Works a unit. May allocate, and never fails.
    ///
    /// # Errors
    ///
    /// The key is absent: the pair is returned.
    ///
    /// O(unit).
    #[inline(always)]
    pub fn replace(&mut self, key: K, value: V) -> Result<(K, V), (K, V)>
        ensures map { Replaces K.eq key value (state_of TYPE self.old) result
            (state_of TYPE self.new) }
        ensures arrays { PreparesThen TYPE (H.hash_of self.old.hasher key) self.old (λ between.
            ChangesAt (λ own. K.eq own key)
            (λ bucket at. slots_replaced bucket at (key, value)
            (H.hash_of self.old.hasher key % 256))
            (is_ok result) between self.new) }
    {
        let hash = self.hash(&key);
        let found = self.fetch_spot(hash, &mut EqProbe::new(&key));
        match found {
            Some(spot) => Ok(self.replace_at(&spot, hash, key, value)),
            None => Err((key, value)),
        }
    }

    /// Replaces a pair with an equal key by another one, and returns the previous pair.
    #[inline(always)]
    fn replace_at(&mut self, spot: &Spot<K, V, TYPE>, hash: u64, key: K, value: V) -> (K, V)
        requires stands { StandsAt (λ own. K.eq own key) self.old.arrays spot.now.side
            spot.now.index spot.now.at }
        requires own_hash { hash ≡ H.hash_of self.old.hasher key }
        ensures pair { live_pair
            (slot_in (bucket_on self.old.arrays spot.now.side spot.now.index) spot.now.at)
            ≡ Some result }
        ensures map { ReplacesPair (state_of TYPE self.old) result (key, value)
            (state_of TYPE self.new) }
        ensures table { self.new ≡ with_bucket self.old spot.now.side spot.now.index
            (slots_replaced (bucket_on self.old.arrays spot.now.side spot.now.index) spot.now.at
            (key, value) (hash % 256)) }
    {
        self.arrays
            .replace_slot(spot.side, spot.index, &spot.at, hash, (key, value))
    }
}

impl<K: Eq, V, H: KeyHash<K>, L: LruList, const TYPE: u8> HashTable<K, V, H, L, TYPE> {
    /// Returns the error of an insertion for which no bucket was found: the key is in the map, or
    /// allocation failed.
    pub(super) fn not_inserted(&self, hash: u64, key: K, value: V) -> NotInserted<K, V>
        requires own_hash { hash ≡ H.hash_of self.now.hasher key }
        ensures { ReturnsPair K.eq key value (pairs_of self.now.arrays) result }
    {
        match self.spot_of(&key, hash) {
            Some(_) => NotInserted::Present(key, value),
            None => NotInserted::Memory(key, value),
        }
    }
}
