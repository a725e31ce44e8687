//! Look-ups by key or by a probe, and loans of the pair that is found, for reading or for writing.
ghost use Rattle.std.specs.Prelude.{◌≡◌, ◌<◌, IfSome, IfNone, IsTrue, Some, length, true, ◌+◌, ◌≤◌};
ghost use Rattle.std.specs.Prelude.{false};
ghost use Rattle.std.specs.Borrow.{Bor, sem};
ghost use Rattle.bucket_slots.specs.BucketView.{slot_in};
ghost use Rattle.bucket_slots.specs.Homes.{IsHome};
ghost use Rattle.bucket_slots.specs.Slots.{is_live, live_pair};
ghost use Rattle.bucket_table.specs.Views.ArraysView.{pairs_of, TableView};
ghost use Rattle.bucket_table.specs.Map.ByKey.{StandsAt};
ghost use Rattle.bucket_table.specs.Map.Finding.{Finds, FindsBucket};
ghost use Rattle.bucket_table.specs.Map.LookingUp.{IsAbsent, IsThere, looked_up_len};
ghost use Rattle.bucket_table.specs.Map.MapState.{ChangesValue, state_of, KeepsPairs};
ghost use Rattle.bucket_table.specs.Views.Sides.{bucket_on, buckets_on};
ghost use Rattle.bucket_table.specs.Views.Locking.{IsLocked};
ghost use Rattle.bucket_table.specs.Map.Preparing.{IsReady, IsPrepared};
ghost use Rattle.bucket_table.specs.declared.arrays.side.Side.TheVariants.{Current};
ghost use Rattle.bucket_table.specs.declared.hash_table.ResizeRule.{ResizeRule};
ghost use Rattle.bucket_table.specs.declared.hash_table.ResizeRule.TheVariants.{Sampled};

use crate::arrays::{Side, Spot};
use crate::hash_table::{HashTable, ResizeRule};
use crate::key_hash::KeyHash;
use bucket_slots::bucket::{EqProbe, KeyProbe};
use bucket_slots::lru::LruList;

impl<K: Eq, V, H: KeyHash<K>, L: LruList, const TYPE: u8> HashTable<K, V, H, L, TYPE> {
    ghost use Rattle.bucket_table.specs.Map.Lending.{LendsSlot, with_value};

    /// Returns the live slot with an equal key, on either side, or `None` if the map has none.
    #[inline(always)]
    pub(super) fn spot_of(&self, key: &K, hash: u64) -> Option<Spot<K, V, TYPE>>
        requires own_hash { hash ≡ H.hash_of self.now.hasher key.now }
        ensures found { IfSome result (λ spot.
            StandsAt (λ own. K.eq own key.now) self.now.arrays spot.side spot.index spot.at) }
        ensures absent { IfNone result
            (IsAbsent (λ own. K.eq own key.now) (pairs_of self.now.arrays)) }
    {
        self.spot_by(hash, &mut EqProbe::new(key))
    }

    /// Returns the first live slot that matches a probe, on either side, or `None` if the map has
    /// none. Moves and allocates nothing.
    ///
    /// O(blocks in two chains).
    #[inline(always)]
    pub fn spot_by<P: KeyProbe<K>>(&self, hash: u64, probe: &mut P) -> Option<Spot<K, V, TYPE>>
        requires own_hash { (key : K)
            → P.matches probe.old key ≡ true
            → H.hash_of self.now.hasher key ≡ hash }
        ensures found { IfSome result (λ spot.
            StandsAt (P.matches probe.old) self.now.arrays spot.side spot.index spot.at) }
        ensures absent { IfNone result (IsAbsent (P.matches probe.old) (pairs_of self.now.arrays)) }
        ensures fixed { P.matches probe.new ≡ P.matches probe.old }
    {
        match self.arrays.search_on(Side::Old, hash, probe) {
            Some(spot) => Some(spot),
            None => self.arrays.search_on(Side::Current, hash, probe),
        }
    }

    /// Returns the first live slot that matches a probe, or `None` if the map has none. Each source
    /// of the hash's home must be killed.
    #[inline(always)]
    pub(super) fn spot_at_home<P: KeyProbe<K>>(
        &self,
        hash: u64,
        probe: &mut P,
    ) -> Option<Spot<K, V, TYPE>>
        requires own_hash { (key : K)
            → P.matches probe.old key ≡ true
            → H.hash_of self.now.hasher key ≡ hash }
        requires ready { IsReady self.now.arrays hash }
        ensures found { IfSome result (λ spot.
            StandsAt (P.matches probe.old) self.now.arrays spot.side spot.index spot.at) }
        ensures absent { IfNone result (IsAbsent (P.matches probe.old) (pairs_of self.now.arrays)) }
        ensures fixed { P.matches probe.new ≡ P.matches probe.old }
    {
        self.arrays.fact_room_of(Side::Current);
        let index = self.arrays.home(hash);
        match self
            .arrays
            .array_of(Side::Current)
            .find_by(index, hash, probe)
        {
            Some(at) => Some(Spot {
                side: Side::Current,
                index,
                at,
            }),
            None => None,
        }
    }

    /// Returns the pair with an equal key, or `None` if the map has none.
    ///
    /// Moves and allocates nothing. O(blocks in two chains). scc: `HashTable::peek_entry`.
    #[inline(always)]
    pub fn peek_entry(&self, key: &K) -> Option<(&K, &V)>
        ensures found { IfSome result (λ pair.
            IsThere (λ own. K.eq own key.now) (pairs_of self.now.arrays) (pair.0.now, pair.1.now)) }
        ensures absent { IfNone result
            (IsAbsent (λ own. K.eq own key.now) (pairs_of self.now.arrays)) }
    {
        self.peek_entry_by(self.hash(key), &mut EqProbe::new(key))
    }

    /// Returns a pair whose key matches the probe, or `None` if the map has none. The probe must
    /// match only keys of this hash.
    ///
    /// Asks at most once for each live slot of the hash's two homes with its fingerprint. Moves and
    /// allocates nothing. O(blocks in two chains).
    #[inline(always)]
    pub fn peek_entry_by<P: KeyProbe<K>>(&self, hash: u64, probe: &mut P) -> Option<(&K, &V)>
        requires own_hash { (key : K)
            → P.matches probe.old key ≡ true
            → H.hash_of self.now.hasher key ≡ hash }
        ensures found { IfSome result (λ pair.
            IsThere (P.matches probe.old) (pairs_of self.now.arrays) (pair.0.now, pair.1.now)) }
        ensures absent { IfNone result
            (IsAbsent (P.matches probe.old) (pairs_of self.now.arrays)) }
        ensures few { P.asked probe.new ≤ P.asked probe.old
            + looked_up_len hash
            self.now.arrays.linked self.now.arrays.current }
        ensures fixed { P.matches probe.new ≡ P.matches probe.old }
    {
        self.arrays.peek_by(hash, probe)
    }

    /// Returns the pair in a live slot.
    ///
    /// O(blocks of the chain).
    #[inline(always)]
    pub fn entry_at(&self, spot: &Spot<K, V, TYPE>) -> (&K, &V)
        requires within { spot.now.index < length (buckets_on self.now.arrays spot.now.side) }
        requires live_slot { IsTrue (is_live
            (slot_in (bucket_on self.now.arrays spot.now.side spot.now.index) spot.now.at)) }
        ensures { live_pair
            (slot_in (bucket_on self.now.arrays spot.now.side spot.now.index) spot.now.at)
            ≡ Some (result.0.now, result.1.now) }
    {
        self.arrays.entry_of(spot.side, spot.index, &spot.at)
    }

    /// Lends the pair in a live slot, with its value for writing. What is written to the value is
    /// in the table after the loan.
    ///
    /// O(blocks of the chain).
    #[inline(always)]
    pub fn entry_mut_at(&mut self, spot: &Spot<K, V, TYPE>) -> (&K, &mut V)
        requires within { spot.now.index < length (buckets_on self.old.arrays spot.now.side) }
        requires live_slot { IsTrue (is_live
            (slot_in (bucket_on self.old.arrays spot.now.side spot.now.index) spot.now.at)) }
        ensures* writes_back { sem 𝓛
            (LendsSlot K.row V.row H.row L.row TYPE K.PartialEq H.KeyHash
            (record { KEEPS = L.KEEPS; listed = L.listed; IsTail = L.IsTail }) L.Default
            self.entry spot.now.side spot.now.index spot.now.at result.1) }
        ensures pair { live_pair
            (slot_in (bucket_on self.old.arrays spot.now.side spot.now.index) spot.now.at)
            ≡ Some (result.0.now, result.1.now) }
        ensures map { (value : V) → ChangesValue (state_of TYPE self.old)
            (result.0.now, result.1.now) value
            (state_of TYPE
            (with_value self.old spot.now.side spot.now.index spot.now.at value)) }
    {
        self.arrays.entry_of_mut(spot.side, spot.index, &spot.at)
    }
}

impl<K: Eq + Drop, V: Drop, H: KeyHash<K>, L: LruList + Drop, const TYPE: u8> HashTable<
    K,
    V,
    H,
    L,
    TYPE,
> {
    ghost use Rattle.bucket_table.specs.Map.Lending.{LendsUnder};

    /// Calls `reader` with the pair with an equal key, and returns its result, or `None` if the map
    /// has none; then `reader` isn't called.
    ///
    /// Works a unit. May allocate, and never fails.
    ///
    /// O(unit). scc: `HashTable::reader_sync`.
    pub fn reader_sync<R, F: FnOnce(&K, &V) -> R>(&mut self, key: &K, reader: F) -> Option<R>
        requires callable { (own : Bor K) (value : Bor V)
            → IsThere (λ own. K.eq own key.now) (pairs_of self.old.arrays) (own.now, value.now)
            → F.pre reader own value }
        ensures found { IfSome result (λ answer. (own : Bor K) × (value : Bor V)
            × IsThere (λ own. K.eq own key.now) (pairs_of self.new.arrays) (own.now, value.now)
            × F.post reader own value answer) }
        ensures absent { IfNone result
            (IsAbsent (λ own. K.eq own key.now) (pairs_of self.new.arrays)) }
        ensures prepared { IsPrepared TYPE (H.hash_of self.old.hasher key.now) self.old self.new }
    {
        let hash = self.hasher.hash_one(key);
        let _ = self.fetch_home(hash);
        match self.peek_entry_by(hash, &mut EqProbe::new(key)) {
            Some((own, value)) => Some(reader(own, value)),
            None => None,
        }
    }

    /// Lends the value of the pair with an equal key for writing, or returns `None` exactly if the
    /// map has none.
    ///
    /// Once the loan ends, the pair has the value that was last written, and no other pair has
    /// changed. Works a unit. May allocate, and never fails.
    ///
    /// O(unit).
    #[inline(always)]
    pub fn get_mut(&mut self, key: &K) -> Option<&mut V>
        ensures* writes_back { sem 𝓛
            (LendsUnder K.row V.row H.row L.row TYPE K.PartialEq H.KeyHash
            (record { KEEPS = L.KEEPS; listed = L.listed; IsTail = L.IsTail }) L.Default
            self.entry false (λ own. K.eq own key.now)
            (H.hash_of self.entry.now.hasher key.now) result) }
        ensures found { IfSome result (λ loan. (own : K)
            × IsThere (λ own. K.eq own key.now) (pairs_of self.old.arrays) (own, loan.now)) }
        ensures absent { IfNone result
            (IsAbsent (λ own. K.eq own key.now) (pairs_of self.old.arrays)) }
    {
        let hash = self.hash(key);
        self.get_mut_by(hash, &mut EqProbe::new(key))
    }

    /// Lends the value of the first pair that matches a probe for writing, or returns `None`
    /// exactly if the map has none. The probe must match only keys of this hash.
    ///
    /// Once the loan ends, the pair has the value that was last written, and no other pair has
    /// changed. Works a unit. May allocate, and never fails.
    ///
    /// O(unit).
    #[inline(always)]
    pub fn get_mut_by<P: KeyProbe<K>>(&mut self, hash: u64, probe: &mut P) -> Option<&mut V>
        requires own_hash { (key : K)
            → P.matches probe.old key ≡ true
            → H.hash_of self.old.hasher key ≡ hash }
        ensures* writes_back { sem 𝓛
            (LendsUnder K.row V.row H.row L.row TYPE K.PartialEq H.KeyHash
            (record { KEEPS = L.KEEPS; listed = L.listed; IsTail = L.IsTail }) L.Default
            self.entry false (P.matches probe.old) hash result) }
        ensures found { IfSome result (λ loan.
            (own : K) × IsThere (P.matches probe.old) (pairs_of self.old.arrays) (own, loan.now)) }
        ensures absent { IfNone result (IsAbsent (P.matches probe.old) (pairs_of self.old.arrays)) }
        ensures fixed { P.matches probe.new ≡ P.matches probe.old }
    {
        match self.fetch_spot(hash, probe) {
            Some(spot) => Some(self.entry_mut_at(&spot).1),
            None => None,
        }
    }

    /// Finds the bucket for a writer of a hash whose home is ready, as `find` does after it has
    /// worked the unit. Returns its side and its index.
    ///
    /// O(buckets that a resize makes).
    #[inline(always)]
    pub(super) fn find_ready(&mut self, hash: u64) -> (Side, usize)
        requires ready { IsReady self.old.arrays hash }
        ensures map { KeepsPairs (state_of TYPE self.old) (state_of TYPE self.new) }
        ensures locked { IsLocked self.new.arrays result.0 result.1 }
        ensures home { IsHome (length (buckets_on self.new.arrays result.0)) hash result.1 }
        ensures found { (first : TableView K V H) → IsPrepared TYPE hash first self.old
            → FindsBucket Sampled TYPE hash first result.0 result.1 self.new }
    {
        let index = self.arrays.home(hash);
        let side = self.arrays.grow_at(hash, index);
        (side, index)
    }

    /// Returns the current bucket that `find` would return for a writer of a hash, if the array has
    /// at most four buckets and `find` would change nothing.
    #[inline(always)]
    pub(super) fn short_home(&self, hash: u64) -> Option<usize>
        ensures locked { IfSome result (λ index. IsLocked self.now.arrays Current index) }
        ensures home { IfSome result (λ index. IsHome (length self.now.arrays.current) hash index) }
        ensures found { IfSome result (λ index. (rule : ResizeRule)
            → FindsBucket rule TYPE hash self.now Current index self.now) }
    {
        self.arrays.short_home(hash)
    }

    /// Returns the current bucket that `find` would return for a writer of a hash, if its digest
    /// shows that `find` would change nothing.
    #[inline(always)]
    pub(super) fn roomy_home(&self, hash: u64) -> Option<usize>
        ensures locked { IfSome result (λ index. IsLocked self.now.arrays Current index) }
        ensures home { IfSome result (λ index. IsHome (length self.now.arrays.current) hash index) }
        ensures found { IfSome result (λ index. (rule : ResizeRule)
            → FindsBucket rule TYPE hash self.now Current index self.now) }
    {
        self.arrays.roomy_home(hash)
    }
}
