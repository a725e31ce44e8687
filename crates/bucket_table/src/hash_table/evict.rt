//! Calls by key that evict a pair of a cache.
ghost use Rattle.std.specs.Prelude.{◌≡◌, ◌%◌, ℕ, Bool, Err, IsOk, Ok, Option, length, true};
ghost use Rattle.bucket_slots.specs.BucketView.{BucketView};
ghost use Rattle.bucket_slots.specs.Homes.{IsHome};
ghost use Rattle.bucket_slots.specs.Sizing.{IsLength};
ghost use Rattle.bucket_table.specs.Map.ByKey.{Evicts, PreparesThen};
ghost use Rattle.bucket_table.specs.Map.Finding.{FindsThen};
ghost use Rattle.bucket_table.specs.Map.LookingUp.{IsAbsent};
ghost use Rattle.bucket_table.specs.Map.MapState.{KeepsPairs, state_of};
ghost use Rattle.bucket_table.specs.Map.Preparing.{IsPrepared, IsReady};
ghost use Rattle.bucket_table.specs.Map.Putting.{EvictsAt, Goes, Puts, PutsAt, PutsIn, slots_left};
ghost use Rattle.bucket_table.specs.Map.Putting.{slots_put};
ghost use Rattle.bucket_table.specs.Map.Splitting.{FindsOrSplitsThen, SplitsReady};
ghost use Rattle.bucket_table.specs.Map.Vacancies.{IsVacancy};
ghost use Rattle.bucket_table.specs.Resize.Overfull.{TriesSplit};
ghost use Rattle.bucket_table.specs.Views.ArraysView.{TableView, pairs_of};
ghost use Rattle.bucket_table.specs.Views.Locking.{IsLocked};
ghost use Rattle.bucket_table.specs.Views.Sides.{bucket_on, buckets_on, with_bucket};
ghost use Rattle.bucket_table.specs.declared.hash_table.ResizeRule.TheVariants.{Sampled};
ghost use Rattle.bucket_slots.specs.declared.not_inserted.NotInserted.TheVariants.{Present};
ghost use Rattle.bucket_table.specs.declared.hash_table.Vacancy.TheVariants.{Ready};

use crate::arrays::{Side, put_len, some_len};
use crate::hash_table::{HashTable, Missing, NotInserted, ResizeRule, Vacancy};
use crate::key_hash::KeyHash;
use bucket_slots::bucket::{Bucket, CACHE};
use bucket_slots::lru::LruList;
use std::alloc::AllocError;

impl<K: Eq + Drop, V: Drop, H: KeyHash<K>, L: LruList + Drop, const TYPE: u8> HashTable<
    K,
    V,
    H,
    L,
    TYPE,
> {
    /// Evicts the pair of a key's home that was touched longest ago, or the one in slot 0 if none
    /// is listed, and returns it. Returns `None` if an own slot of that home is free, or if there
    /// is no array.
    ///
    /// Works a unit. The table isn't shrunk.
    ///
    /// # Errors
    ///
    /// Allocation failed, which can happen only if there is an old array. A source of the home
    /// isn't killed, and nothing is evicted.
    ///
    /// O(unit).
    pub fn evict(&mut self, key: &K) -> Result<Option<(K, V)>, AllocError>
        requires cache { TYPE ≡ CACHE }
        ensures map { Evicts (state_of TYPE self.old) result (state_of TYPE self.new) }
        ensures arrays { PreparesThen TYPE (H.hash_of self.old.hasher key.now) self.old (λ between.
            EvictsAt (H.hash_of self.old.hasher key.now) between result self.new) }
        ensures succeeds { length self.old.arrays.linked ≡ 0 → IsOk result }
    {
        let hash = self.hash(key);
        let mut locked = match self.optional_writer_sync(hash) {
            Ok(locked) => locked,
            Err(Missing::Nothing) => return Ok(None),
            Err(Missing::Memory) => return Err(AllocError),
        };
        Ok(locked.evict_lru_head())
    }

    /// Inserts a pair into a cache if its key is absent, as the one touched last in its bucket. If
    /// no own slot of that bucket is free, it first evicts the pair that was touched longest ago,
    /// or the one in slot 0 if none is listed, and returns it.
    ///
    /// # Errors
    ///
    /// The key is in the map, or it is absent and allocation failed: the pair is returned, and none
    /// is evicted.
    ///
    /// O(unit; buckets that a resize makes). scc: `HashCache::put_sync`.
    pub fn put(&mut self, key: K, value: V) -> Result<Option<(K, V)>, NotInserted<K, V>>
        requires cache { TYPE ≡ CACHE }
        ensures map { Puts K.eq key value (state_of TYPE self.old) result (state_of TYPE self.new) }
        ensures arrays { FindsThen Sampled TYPE (H.hash_of self.old.hasher key) self.old
            (λ answer between. PutsAt L.KEEPS (key, value) (H.hash_of self.old.hasher key % 256)
            between result answer self.new) }
    {
        let hash = self.hash(&key);
        self.put_hashed(hash, key, value)
    }

    /// Inserts a pair whose key is absent into a cache, as `put` does, after `fetch_place` or
    /// `touch_place` found no equal key. It doesn't search again. Returns the evicted pair, if any.
    ///
    /// If the home has as many pairs as own slots, there is no old array, and twice the slots do
    /// not exceed the maximum, it first doubles the slots, works a unit and moves the home's pairs.
    /// So a pair is evicted only if the home is still full then, or if allocation fails.
    ///
    /// # Errors
    ///
    /// Allocation failed: the pair is returned, and none is evicted.
    ///
    /// O(1), and the buckets that a resize makes.
    #[inline(always)]
    pub fn put_vacant(
        &mut self,
        home: Vacancy,
        hash: u64,
        key: K,
        value: V,
    ) -> Result<Option<(K, V)>, NotInserted<K, V>>
        requires cache { TYPE ≡ CACHE }
        requires own_hash { hash ≡ H.hash_of self.old.hasher key }
        requires absent { IsAbsent (K.eq key) (pairs_of self.old.arrays) }
        requires ready { home ≡ Ready → IsReady self.old.arrays hash }
        ensures map { Puts K.eq key value (state_of TYPE self.old) result (state_of TYPE self.new) }
        ensures absent { (k : K) (v : V) → result ≡ Err (Present k v) → ⊥ }
        ensures succeeds { home ≡ Ready → IsOk result }
        ensures arrays { (first : TableView K V H) → IsPrepared TYPE hash first self.old
            → IsVacancy home hash first.arrays self.old.arrays
            → FindsOrSplitsThen TYPE hash first (λ answer between.
            PutsAt L.KEEPS (key, value) (hash % 256) between result answer self.new) }
    {
        match home {
            Vacancy::Ready => {
                self.split_home(hash);
                let (side, index) = self.find_ready(hash);
                Ok(self.put_absent(side, index, hash, key, value))
            }
            Vacancy::NoArray => self.put_hashed(hash, key, value),
            Vacancy::NoMemory => Err(NotInserted::Memory(key, value)),
        }
    }

    /// Doubles the slots for the home of a hash, which must be ready, if it has as many pairs as
    /// own slots, there is no old array, and twice the slots do not exceed the maximum. The home is
    /// then ready again. If allocation fails, nothing changes.
    #[inline(always)]
    fn split_home(&mut self, hash: u64)
        requires ready { IsReady self.old.arrays hash }
        ensures map { KeepsPairs (state_of TYPE self.old) (state_of TYPE self.new) }
        ensures ready { IsReady self.new.arrays hash }
        ensures split { SplitsReady TYPE hash self.old self.new }
    {
        if self.roomy_home(hash).is_some() {
            return;
        }
        let Ok(true) = self.try_split(hash) else {
            return;
        };
        let _ = self.fetch_home(hash);
    }

    /// Doubles the slots, if the home of a hash may be split, and returns whether it did.
    #[inline(never)]
    fn try_split(&mut self, hash: u64) -> Result<bool, AllocError>
        ensures split { TriesSplit hash self.old.arrays result self.new.arrays }
        ensures map { KeepsPairs (state_of TYPE self.old) (state_of TYPE self.new) }
        ensures hasher { self.new.hasher ≡ self.old.hasher }
        ensures long { result ≡ Ok true → IsLength (length self.new.arrays.linked)
            × IsLength (length self.new.arrays.current) }
    {
        self.arrays.split_home(hash)
    }

    /// Inserts a pair whose key is absent and has this hash.
    fn put_hashed(
        &mut self,
        hash: u64,
        key: K,
        value: V,
    ) -> Result<Option<(K, V)>, NotInserted<K, V>>
        requires cache { TYPE ≡ CACHE }
        requires own_hash { hash ≡ H.hash_of self.old.hasher key }
        ensures map { Puts K.eq key value (state_of TYPE self.old) result (state_of TYPE self.new) }
        ensures arrays { FindsThen Sampled TYPE hash self.old (λ answer between.
            PutsAt L.KEEPS (key, value) (hash % 256) between result answer self.new) }
    {
        let Ok((side, index)) = self.find(hash, ResizeRule::Sampled) else {
            return Err(self.not_inserted(hash, key, value));
        };
        self.put_at(side, index, hash, key, value)
    }

    /// Inserts a pair into a locked bucket if its key is absent there. Returns the evicted pair.
    #[inline(always)]
    fn put_absent(
        &mut self,
        side: Side,
        index: usize,
        hash: u64,
        key: K,
        value: V,
    ) -> Option<(K, V)>
        requires cache { TYPE ≡ CACHE }
        requires locked { IsLocked self.old.arrays side index }
        requires own_hash { hash ≡ H.hash_of self.old.hasher key }
        requires home { IsHome (length (buckets_on self.old.arrays side)) hash index }
        requires absent { IsAbsent (λ own. K.eq own key) (pairs_of self.old.arrays) }
        ensures map { Puts K.eq key value (state_of TYPE self.old) (Ok result)
            (state_of TYPE self.new) }
        ensures goes { Goes (bucket_on self.old.arrays side index) result }
        ensures put { self.new ≡ with_bucket self.old side index (slots_put L.KEEPS
            (slots_left (bucket_on self.old.arrays side index) result) (key, value) (hash % 256)) }
    {
        self.arrays.fact_room_of(side);
        let bucket = self.arrays.bucket_of_mut(side, index);
        let gone = put_absent_in(bucket, hash, key, value);
        self.arrays.refresh_on(side, index);
        self.count = self.arrays.count_after(&self.count, some_len(&gone), 1);
        gone
    }

    /// Inserts a pair into a locked bucket.
    fn put_at(
        &mut self,
        side: Side,
        index: usize,
        hash: u64,
        key: K,
        value: V,
    ) -> Result<Option<(K, V)>, NotInserted<K, V>>
        requires cache { TYPE ≡ CACHE }
        requires locked { IsLocked self.old.arrays side index }
        requires own_hash { hash ≡ H.hash_of self.old.hasher key }
        requires home { IsHome (length (buckets_on self.old.arrays side)) hash index }
        ensures map { Puts K.eq key value (state_of TYPE self.old) result (state_of TYPE self.new) }
        ensures bucket { (left : BucketView K V)
            × PutsIn K.eq L.KEEPS key value (hash % 256) (bucket_on self.old.arrays side index)
            result left
            × (self.new ≡ with_bucket self.old side index left) }
    {
        self.arrays.fact_room_of(side);
        let bucket = self.arrays.bucket_of_mut(side, index);
        let done = put_in(bucket, hash, key, value);
        self.arrays.refresh_on(side, index);
        self.count = self.arrays.count_after(&self.count, 0, put_len(&done));
        done
    }
}

/// Inserts a pair into a bucket as the one touched last, if no live slot there has an equal key.
/// Returns the evicted pair.
fn put_in<K: Eq + Drop, V: Drop, L: LruList, const TYPE: u8>(
    bucket: &mut Bucket<K, V, L, TYPE>,
    hash: u64,
    key: K,
    value: V,
) -> Result<Option<(K, V)>, NotInserted<K, V>>
    requires cache { TYPE ≡ CACHE }
    ensures { PutsIn K.eq L.KEEPS key value (hash % 256) bucket.old result bucket.new }
{
    if bucket.get_entry_ptr(&key, hash).is_valid() {
        return Err(NotInserted::Present(key, value));
    }
    Ok(put_absent_in(bucket, hash, key, value))
}

/// Inserts a pair into a bucket as the one touched last. Returns the evicted pair.
#[inline(always)]
fn put_absent_in<K: Drop, V: Drop, L: LruList, const TYPE: u8>(
    bucket: &mut Bucket<K, V, L, TYPE>,
    hash: u64,
    key: K,
    value: V,
) -> Option<(K, V)>
    requires cache { TYPE ≡ CACHE }
    ensures goes { Goes bucket.old result }
    ensures put { bucket.new
        ≡ slots_put L.KEEPS (slots_left bucket.old result) (key, value) (hash % 256) }
{
    let gone = bucket.evict_lru_head();
    let Ok(at) = bucket.insert(hash, (key, value), &()) else {
        unreachable!()
    };
    bucket.update_lru_tail(&at);
    gone
}

/// States that a put inserts its pair into an own slot, so that no chain changes; does nothing at
/// run time.
pub fn puts_keep_chains<K, V>()
    ensures { (keeps : Bool) (bucket : BucketView K V) (gone : Option (K × V)) (pair : K × V)
        (byte : ℕ) → Goes bucket gone
        → (slots_put keeps (slots_left bucket gone) pair byte).chain ≡ bucket.chain }
{}
