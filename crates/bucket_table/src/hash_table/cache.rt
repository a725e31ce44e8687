//! Calls that touch the pair of a key, once its home is ready, and the pairs of a cache in LRU
//! order.
ghost use Rattle.std.specs.Prelude.{◌≡◌, ◌<◌, IfSome, IfNone, OnErr, Some, false, true, IfErr};
ghost use Rattle.std.specs.Prelude.{IfOk};
ghost use Rattle.std.specs.Borrow.{sem};
ghost use Rattle.bucket_slots.specs.Evicting.{slots_touched};
ghost use Rattle.bucket_table.specs.Views.ArraysView.{pairs_of};
ghost use Rattle.bucket_table.specs.Map.ByKey.{ChangesAt, PreparesThen, StandsAt, Touches};
ghost use Rattle.bucket_table.specs.Map.ByKey.{ChangesPlace};
ghost use Rattle.bucket_table.specs.Map.LookingUp.{IsAbsent, IsThere};
ghost use Rattle.bucket_table.specs.Map.MapState.{state_of, KeepsPairs};
ghost use Rattle.bucket_table.specs.Map.Preparing.{IsPrepared};
ghost use Rattle.bucket_table.specs.Map.Vacancies.{IsVacancy};
ghost use Rattle.std.specs.List.Sorted.{IsPermutation};
ghost use Rattle.bucket_table.specs.Walking.ByUse.{arrays_by_use};

use crate::arrays::{Missing, PairsByUse, Spot};
use crate::hash_table::{HashTable, Vacancy};
use crate::key_hash::KeyHash;
use bucket_slots::bucket::{CACHE, EqProbe, KeyProbe};
use bucket_slots::lru::{DoublyLinkedList, LruList};

impl<K: Eq + Drop, V: Drop, H: KeyHash<K>, L: LruList + Drop, const TYPE: u8> HashTable<
    K,
    V,
    H,
    L,
    TYPE,
> {
    ghost use Rattle.bucket_table.specs.Map.Lending.{LendsUnder};

    /// Makes the pair of a cache with an equal key the one touched last in its bucket; a slot of
    /// the chain isn't listed. Returns whether there is such a pair.
    ///
    /// Works a unit. May allocate, and never fails.
    ///
    /// O(unit).
    #[inline(always)]
    pub fn touch(&mut self, key: &K) -> bool
        requires cache { TYPE ≡ CACHE }
        ensures map { Touches (λ own. K.eq own key.now) (state_of TYPE self.old) result
            (state_of TYPE self.new) }
        ensures arrays { PreparesThen TYPE (H.hash_of self.old.hasher key.now) self.old (λ between.
            ChangesAt (λ own. K.eq own key.now) (slots_touched L.KEEPS) result between self.new) }
    {
        let hash = self.hash(key);
        self.touch_by(hash, &mut EqProbe::new(key))
    }

    /// Makes the first pair of a cache that matches a probe the one touched last in its bucket, as
    /// `touch_by` does, and lends its value for writing. Returns `None` exactly if the map has
    /// none. The probe must match only keys of this hash.
    ///
    /// Once the loan ends, the pair has the value that was last written, and no other pair has
    /// changed. Works a unit. May allocate, and never fails.
    ///
    /// O(unit).
    #[inline(always)]
    pub fn touch_mut_by<P: KeyProbe<K>>(&mut self, hash: u64, probe: &mut P) -> Option<&mut V>
        requires cache { TYPE ≡ CACHE }
        requires own_hash { (key : K)
            → P.matches probe.old key ≡ true
            → H.hash_of self.old.hasher key ≡ hash }
        ensures* writes_back { sem 𝓛
            (LendsUnder K.row V.row H.row L.row TYPE K.PartialEq H.KeyHash
            (record { KEEPS = L.KEEPS; listed = L.listed; IsTail = L.IsTail }) L.Default
            self.entry L.KEEPS (P.matches probe.old) hash result) }
        ensures found { IfSome result (λ loan.
            (own : K) × IsThere (P.matches probe.old) (pairs_of self.old.arrays) (own, loan.now)) }
        ensures absent { IfNone result (IsAbsent (P.matches probe.old) (pairs_of self.old.arrays)) }
        ensures fixed { P.matches probe.new ≡ P.matches probe.old }
    {
        match self.fetch_spot(hash, probe) {
            Some(spot) => Some(
                self.arrays
                    .touch_entry_of(spot.side, spot.index, &spot.at)
                    .1,
            ),
            None => None,
        }
    }

    /// Makes the first pair of a cache that matches a probe the one touched last in its bucket; a
    /// slot of the chain isn't listed. Returns whether there is such a pair. The probe must match
    /// only keys of this hash.
    ///
    /// Works a unit. May allocate, and never fails.
    ///
    /// O(unit).
    #[inline(always)]
    pub fn touch_by<P: KeyProbe<K>>(&mut self, hash: u64, probe: &mut P) -> bool
        requires cache { TYPE ≡ CACHE }
        requires own_hash { (key : K)
            → P.matches probe.old key ≡ true
            → H.hash_of self.old.hasher key ≡ hash }
        ensures map { Touches (P.matches probe.old) (state_of TYPE self.old) result
            (state_of TYPE self.new) }
        ensures arrays { PreparesThen TYPE hash self.old (λ between.
            ChangesAt (P.matches probe.old) (slots_touched L.KEEPS) result between self.new) }
        ensures fixed { P.matches probe.new ≡ P.matches probe.old }
    {
        let Ok(_) = self.touch_place(hash, probe) else {
            return false;
        };
        true
    }

    /// Makes the first pair of a cache that matches a probe the one touched last in its bucket, as
    /// `touch_by` does, and returns its place. The probe must match only keys of this hash.
    ///
    /// Works a unit. May allocate, and never fails.
    ///
    /// # Errors
    ///
    /// The map has no such pair. The error is the `Vacancy` for `put_vacant`.
    ///
    /// O(unit).
    #[inline(always)]
    pub fn touch_place<P: KeyProbe<K>>(
        &mut self,
        hash: u64,
        probe: &mut P,
    ) -> Result<Spot<K, V, TYPE>, Vacancy>
        requires cache { TYPE ≡ CACHE }
        requires own_hash { (key : K)
            → P.matches probe.old key ≡ true
            → H.hash_of self.old.hasher key ≡ hash }
        ensures map { KeepsPairs (state_of TYPE self.old) (state_of TYPE self.new) }
        ensures touched { IfOk result (λ spot. PreparesThen TYPE hash self.old (λ between.
            ChangesPlace (P.matches probe.old) (slots_touched L.KEEPS) spot.side spot.index spot.at
            between self.new)) }
        ensures found { IfOk result (λ spot.
            StandsAt (P.matches probe.old) self.new.arrays spot.side spot.index spot.at) }
        ensures absent { OnErr result (IsAbsent (P.matches probe.old) (pairs_of self.new.arrays)) }
        ensures prepared { OnErr result (IsPrepared TYPE hash self.old self.new) }
        ensures vacancy { IfErr result (λ home.
            IsVacancy home hash self.old.arrays self.new.arrays) }
        ensures fixed { P.matches probe.new ≡ P.matches probe.old }
    {
        match self.fetch_place(hash, probe) {
            Ok(spot) => {
                self.arrays.touch_slot(spot.side, spot.index, &spot.at);
                Ok(spot)
            }
            Err(home) => Err(home),
        }
    }

    /// Works a unit, moves the sources of a hash's home, and returns the first live slot that
    /// matches a probe, on either side, or `None` if the map has none.
    #[inline(always)]
    pub(super) fn fetch_spot<P: KeyProbe<K>>(
        &mut self,
        hash: u64,
        probe: &mut P,
    ) -> Option<Spot<K, V, TYPE>>
        requires own_hash { (key : K)
            → P.matches probe.old key ≡ true
            → H.hash_of self.old.hasher key ≡ hash }
        ensures prepared { IsPrepared TYPE hash self.old self.new }
        ensures found { IfSome result (λ spot.
            StandsAt (P.matches probe.old) self.new.arrays spot.side spot.index spot.at) }
        ensures absent { IfNone result (IsAbsent (P.matches probe.old) (pairs_of self.old.arrays)) }
        ensures fixed { P.matches probe.new ≡ P.matches probe.old }
    {
        match self.fetch_place(hash, probe) {
            Ok(spot) => Some(spot),
            Err(_) => None,
        }
    }

    /// Works a unit, moves the sources of a hash's home, and returns the place of the first pair
    /// that matches a probe. The probe must match only keys of this hash.
    ///
    /// May allocate; a failed allocation is no error here.
    ///
    /// # Errors
    ///
    /// The map has no such pair. The error is the `Vacancy` for `put_vacant`.
    ///
    /// O(unit).
    #[inline(always)]
    pub fn fetch_place<P: KeyProbe<K>>(
        &mut self,
        hash: u64,
        probe: &mut P,
    ) -> Result<Spot<K, V, TYPE>, Vacancy>
        requires own_hash { (key : K)
            → P.matches probe.old key ≡ true
            → H.hash_of self.old.hasher key ≡ hash }
        ensures prepared { IsPrepared TYPE hash self.old self.new }
        ensures found { IfOk result (λ spot.
            StandsAt (P.matches probe.old) self.new.arrays spot.side spot.index spot.at) }
        ensures absent { OnErr result (IsAbsent (P.matches probe.old) (pairs_of self.new.arrays)) }
        ensures vacancy { IfErr result (λ home.
            IsVacancy home hash self.old.arrays self.new.arrays) }
        ensures fixed { P.matches probe.new ≡ P.matches probe.old }
    {
        self.fact_sound();
        match self.fetch_home(hash) {
            Ok(()) => match self.spot_at_home(hash, probe) {
                Some(spot) => Ok(spot),
                None => Err(Vacancy::Ready),
            },
            Err(missing) => match self.spot_by(hash, probe) {
                Some(spot) => Ok(spot),
                None => Err(match missing {
                    Missing::Nothing => Vacancy::NoArray,
                    Missing::Memory => Vacancy::NoMemory,
                }),
            },
        }
    }
}

impl<K: Eq, V, H: KeyHash<K>> HashTable<K, V, H, DoublyLinkedList, CACHE> {
    /// Returns an iterator over the pairs, bucket by bucket: of each bucket first the listed pairs,
    /// the one touched last first, then the other own pairs, then those of its chain.
    ///
    /// Touches no pair, works no unit and allocates nothing. O(1); all steps together O(slots, and
    /// the square of the number of blocks of each chain).
    pub fn pairs_by_use(&self) -> PairsByUse<'_, K, V>
        ensures by_use { result ≡ arrays_by_use self.now.arrays }
        ensures each { IsPermutation (pairs_of self.now.arrays) result }
    {
        PairsByUse::new(&self.arrays)
    }
}
