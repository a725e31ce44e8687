//! Calls that insert a pair into a cache if its key is absent, and do something else if it is
//! present.
ghost use Rattle.std.specs.Prelude.{◌≡◌, Err, OnErr, false};
ghost use Rattle.std.specs.Borrow.{Bor};
ghost use Rattle.bucket_slots.specs.declared.bucket.TheConstants.{CACHE};
ghost use Rattle.bucket_table.specs.Map.LookingUp.{IsAbsent};
ghost use Rattle.bucket_table.specs.Map.Preparing.{IsPrepared, IsReady};
ghost use Rattle.bucket_table.specs.Map.Vacancies.{IsVacancy};
ghost use Rattle.bucket_table.specs.Views.ArraysView.{TableView, pairs_of};
ghost use Rattle.bucket_slots.specs.declared.not_inserted.NotInserted.TheVariants.{Present};
ghost use Rattle.bucket_table.specs.declared.hash_table.Vacancy.TheVariants.{Ready};
ghost use Rattle.collections.specs.Crowding.{LacksBucket};
ghost use Rattle.collections.specs.Maps.{contains, map_of};

use crate::hash_cache::{HashCache, NotInserted};
use crate::homes::fact_refused;
use crate::key_form::FormProbe;
use bucket_table::hash_table::Vacancy;
use bucket_table::key_hash::KeyHash;
use std::alloc::AllocFailed;

/// What an upsert did.
#[derive(Debug, Drop)]
pub enum Upserted<K, V> {
    /// The key was absent. The pair was inserted, and none evicted.
    Added,
    /// The key was absent. The pair was inserted, and this one evicted.
    Evicted(K, V),
    /// The key was present, with this value, which was replaced.
    Replaced(V),
}

impl<K: Eq + Drop, V: Drop, H: KeyHash<K>> HashCache<K, V, H> {
    ghost use Rattle.collections.specs.CacheUpserts.{GetsOrInserts, PutsVacant, UpsertsInOrder};
    ghost use Rattle.collections.specs.CacheUpserts.{UpsertsOrEvicts};

    /// Inserts a pair as `put` does if its key is absent; else replaces the value of the equal key,
    /// which stays. Either way the pair is now the most recently used one of its bucket. Returns
    /// the earlier value, or the evicted pair, if any. If the cache contains an equal key, the call
    /// never fails, and evicts no pair.
    ///
    /// # Errors
    ///
    /// Allocation failure, as in `put`: the cache contains no equal key, the pair is returned, and
    /// none is evicted.
    ///
    /// O(1) expected, plus any resize. Like std's `HashMap::insert`, and `put` of other caches.
    #[inline(always)]
    pub fn upsert(&mut self, key: K, value: V) -> Result<Upserted<K, V>, AllocFailed<(K, V)>>
        ensures map { UpsertsOrEvicts K.eq key value (map_of self.old) result (map_of self.new) }
        ensures order { UpsertsInOrder K.eq (key, value) (H.hash_of self.old.hasher key) self.old
            result self.new }
        ensures memory { OnErr result (LacksBucket H.hash_of key (map_of self.old)) }
    {
        self.room.fact_fits();
        self.table.fact_sound();
        let hash = self.table.hash(&key);
        match self
            .table
            .touch_place(hash, &mut FormProbe::<&K, H>::new(&key))
        {
            Ok(spot) => Ok(Upserted::Replaced(self.table.swap_at(&spot, value))),
            Err(home) => match self.put_vacant(home, hash, key, value) {
                Ok(None) => Ok(Upserted::Added),
                Ok(Some((key, value))) => Ok(Upserted::Evicted(key, value)),
                Err(NotInserted::Memory(key, value)) => Err(AllocFailed {
                    value: (key, value),
                }),
                Err(NotInserted::Present(_key, _value)) => unreachable!(),
            },
        }
    }

    /// Touches the pair whose key is equal, as `get` does, and calls `reader` with its value. If
    /// the cache does not contain the key, it makes a value, calls `reader` with that, and inserts
    /// it as `put` does. Returns what `reader` returned, and the evicted pair, if any. If the cache
    /// contains the key, no value is made, the call never fails, and no pair is evicted.
    ///
    /// # Errors
    ///
    /// Allocation failure, as in `put`: the cache contains no equal key, the key and the value made
    /// are returned, and none is evicted. The function's result is dropped.
    ///
    /// O(1) expected, plus any resize.
    #[inline(always)]
    pub fn get_or_insert_with<R: Drop, M: FnOnce() -> V, F: FnOnce(&V) -> R>(
        &mut self,
        key: K,
        make: M,
        reader: F,
    ) -> Result<(R, Option<(K, V)>), AllocFailed<(K, V)>>
        requires makes { contains K.eq (map_of self.old) key ≡ false → M.pre make }
        requires reads { (value : Bor V) → F.pre reader value }
        ensures done { GetsOrInserts K.eq key (H.hash_of self.old.hasher key)
            (λ made. M.post make made) (λ value answer. F.post reader value answer) self.old result
            self.new }
        ensures memory { OnErr result (LacksBucket H.hash_of key (map_of self.old)) }
    {
        self.room.fact_fits();
        self.table.fact_sound();
        let hash = self.table.hash(&key);
        match self
            .table
            .touch_place(hash, &mut FormProbe::<&K, H>::new(&key))
        {
            Ok(spot) => Ok((reader(self.table.entry_at(&spot).1), None)),
            Err(home) => {
                let made = make();
                let answer = reader(&made);
                match self.put_vacant(home, hash, key, made) {
                    Ok(gone) => Ok((answer, gone)),
                    Err(NotInserted::Memory(key, made)) => Err(AllocFailed { value: (key, made) }),
                    Err(NotInserted::Present(_key, _made)) => unreachable!(),
                }
            }
        }
    }

    /// Inserts a pair whose key has this hash and wasn't found by a search.
    #[inline(always)]
    pub(super) fn put_vacant(
        &mut self,
        home: Vacancy,
        hash: u64,
        key: K,
        value: V,
    ) -> Result<Option<(K, V)>, NotInserted<K, V>>
        requires own_hash { hash ≡ H.hash_of self.old.hasher key }
        requires absent { IsAbsent (K.eq key) (pairs_of self.old.arrays) }
        requires ready { home ≡ Ready → IsReady self.old.arrays hash }
        ensures absent { (k : K) (v : V) → result ≡ Err (Present k v) → ⊥ }
        ensures put { (first : TableView K V H) → IsPrepared CACHE hash first self.old
            → IsVacancy home hash first.arrays self.old.arrays
            → PutsVacant K.eq H.hash_of key value hash first result self.new }
    {
        self.room.fact_fits();
        self.table.fact_sound();
        let outcome = self.table.put_vacant(home, hash, key, value);
        fact_refused(&self.table, &outcome);
        self.table.fact_sound();
        outcome
    }
}
