//! A bucket that is found for a writer and locked: lent with its table.
//!
//! Model: `LockedBucket`, the table, a side and an index.
//! Invariant (`IsLocked`): a current bucket has all its sources killed; an old one isn't killed,
//! and every current bucket is vacant, as after a resize before the first pair moves.
//!
//! Ports `writer_sync`, `try_reserve_bucket`, `optional_writer_sync` and `try_optional_writer` of
//! scc's `src/hash_table.rs`.
ghost use Rattle.std.specs.Prelude.{ℕ, ◌≡◌, ◌<◌, [], Err, IfErr, IfOk, IfSome, IfNone, IsOk, OnOk};
ghost use Rattle.std.specs.Prelude.{length};
ghost use Rattle.std.specs.Borrow.{RestsIfErr, RestsIfNone, sem};
ghost use Rattle.bucket_slots.specs.Homes.{IsHome};
ghost use Rattle.bucket_table.specs.Views.ArraysView.{pairs_of};
ghost use Rattle.bucket_table.specs.Map.Finding.{Finds, FindsBucket};
ghost use Rattle.bucket_table.specs.Map.Free.{MayLockAtOnce};
ghost use Rattle.bucket_table.specs.Map.Refusing.{IsRefused};
ghost use Rattle.bucket_table.specs.Views.TableRow.{table_row};
ghost use Rattle.bucket_table.specs.Views.Locking.{IsLocked};
ghost use Rattle.bucket_table.specs.Map.Preparing.{HomeNeedsMemory, IsMissing, IsPrepared, IsReady};
ghost use Rattle.bucket_table.specs.Views.Sides.{buckets_on};
ghost use Rattle.bucket_table.specs.declared.arrays.side.Side.TheVariants.{Current};
ghost use Rattle.bucket_table.specs.declared.hash_table.ResizeRule.{ResizeRule};
ghost use Rattle.bucket_table.specs.declared.hash_table.ResizeRule.TheVariants.{Sampled};

use crate::arrays::Side;
use crate::hash_table::{HashTable, LockedBucket, Missing, ResizeRule};
use crate::key_hash::KeyHash;
use bucket_slots::lru::LruList;
use std::alloc::AllocError;

impl<K: Eq + Drop, V: Drop, H: KeyHash<K>, L: LruList + Drop, const TYPE: u8> HashTable<
    K,
    V,
    H,
    L,
    TYPE,
> {
    /// Works a unit, and moves the sources of the home of a hash.
    ///
    /// # Errors
    ///
    /// There is no array, and so no pair; or there is an old array and allocation failed: a source
    /// of the home isn't killed.
    ///
    /// O(unit). scc: `HashTable::dedup_bucket_sync`, `incremental_rehash_sync`.
    #[inline(always)]
    pub fn fetch_home(&mut self, hash: u64) -> Result<(), Missing>
        ensures prepared { IsPrepared TYPE hash self.old self.new }
        ensures ready { OnOk result (IsReady self.new.arrays hash) }
        ensures missing { IfErr result (λ missing. IsMissing missing self.old.arrays) }
        ensures wanted { result ≡ Err Missing.Memory
            → HomeNeedsMemory hash self.old.arrays self.new.arrays }
        ensures empty { result ≡ Err Missing.Nothing → pairs_of self.new.arrays ≡ [] }
    {
        let is_ready = self.arrays.fetch_home(&self.hasher, hash);
        self.arrays.fact_sound();
        is_ready
    }

    /// Finds the bucket for a writer of a hash, and returns its side and its index.
    ///
    /// If the rule is `ResizeRule::Counted` and the home is overfull, the slots are doubled, and
    /// the bucket is the home in the array that has just become the old one. Otherwise a unit is
    /// worked, and a first array is allocated if there is none. Then, if the home is nearly full
    /// and many slots near it are live, the table is resized, and the bucket is again one of the
    /// old array.
    ///
    /// # Errors
    ///
    /// Allocation failed, either for a first array, or while there is an old array: then a source
    /// of the home isn't killed.
    ///
    /// O(unit; buckets that a resize makes).
    #[inline(always)]
    pub fn find(&mut self, hash: u64, rule: ResizeRule) -> Result<(Side, usize), AllocError>
        ensures { Finds rule TYPE hash self.old result self.new }
    {
        self.fact_sound();
        match rule {
            ResizeRule::Sampled => self.find_by_plan(hash),
            ResizeRule::Counted => match self.grow_if_overfull(hash) {
                Ok(true) => Ok((Side::Old, self.arrays.old_home(hash))),
                Ok(false) => self.find_by_plan(hash),
                Err(_) => self.find_by_plan(hash),
            },
        }
    }

    /// Finds the bucket for a writer of a hash, without growing for an overfull home.
    #[inline(always)]
    fn find_by_plan(&mut self, hash: u64) -> Result<(Side, usize), AllocError>
        ensures { (rule : ResizeRule) → Finds rule TYPE hash self.old result self.new }
    {
        self.arrays.find(&self.hasher, hash)
    }

    /// Locks a bucket of one side, as returned by `find`.
    ///
    /// A current bucket can be locked if all its sources are killed. An old one can be locked from
    /// a resize until the first pair moves, that is, while it isn't killed and every current bucket
    /// is vacant.
    ///
    /// O(1).
    #[inline(always)]
    pub fn lock(&mut self, side: Side, index: usize) -> LockedBucket<'_, K, V, H, L, TYPE>
        requires { IsLocked self.old.arrays side index }
        ensures same_table { result.table.ghost_name ≡ self.entry.ghost_name }
        ensures unchanged { result.table.now ≡ self.old }
        ensures side { result.side ≡ side }
        ensures index { result.index ≡ index }
    {
        LockedBucket {
            table: self,
            side,
            index,
        }
    }

    /// Locks the home of a hash in the current array, whose sources are killed.
    ///
    /// O(1).
    pub fn lock_home(&mut self, hash: u64) -> LockedBucket<'_, K, V, H, L, TYPE>
        requires ready { IsReady self.old.arrays hash }
        ensures same_table { result.table.ghost_name ≡ self.entry.ghost_name }
        ensures unchanged { result.table.now ≡ self.old }
        ensures side { result.side ≡ Current }
        ensures home { IsHome
            (length result.table.now.arrays.current) hash result.index }
    {
        let index = self.arrays.home(hash);
        LockedBucket {
            table: self,
            side: Side::Current,
            index,
        }
    }

    /// Finds the bucket for a writer of a hash as `find` does, and locks it.
    ///
    /// # Errors
    ///
    /// Allocation failed, either for a first array, or while there is an old array: then a source
    /// of the home isn't killed. This can't happen if there is a current array and no old one.
    ///
    /// O(unit; buckets that a resize makes). scc: `HashTable::writer_sync`.
    #[inline(always)]
    pub fn writer_sync(
        &mut self,
        hash: u64,
    ) -> Result<LockedBucket<'_, K, V, H, L, TYPE>, AllocError>
        ensures* rests { sem 𝓛 (RestsIfErr
            (table_row K.row V.row H.row L.row TYPE.row K.PartialEq H.KeyHash
            (record { KEEPS = L.KEEPS; listed = L.listed; IsTail = L.IsTail }) L.Default)
            self.entry (λ locked. locked.table.ghost_name) result (IsRefused TYPE hash self.old)) }
        ensures same_table { IfOk result (λ locked. locked.table.ghost_name
            ≡ self.entry.ghost_name) }
        ensures found { IfOk result (λ locked.
            FindsBucket Sampled TYPE hash self.old locked.side locked.index locked.table.now) }
        ensures succeeds { length self.old.arrays.linked ≡ 0 → 0 < length self.old.arrays.current
            → IsOk result }
    {
        match self.find(hash, ResizeRule::Sampled) {
            Ok((side, index)) => Ok(self.lock(side, index)),
            Err(refused) => Err(refused),
        }
    }

    /// Locks the bucket that `writer_sync` locks, since no other lock can be held.
    ///
    /// # Errors
    ///
    /// Those of `writer_sync`.
    ///
    /// O(unit; buckets that a resize makes). scc: `HashTable::try_reserve_bucket`.
    pub fn try_reserve_bucket(
        &mut self,
        hash: u64,
    ) -> Result<LockedBucket<'_, K, V, H, L, TYPE>, AllocError>
        ensures* rests { sem 𝓛 (RestsIfErr
            (table_row K.row V.row H.row L.row TYPE.row K.PartialEq H.KeyHash
            (record { KEEPS = L.KEEPS; listed = L.listed; IsTail = L.IsTail }) L.Default)
            self.entry (λ locked. locked.table.ghost_name) result (IsRefused TYPE hash self.old)) }
        ensures same_table { IfOk result (λ locked. locked.table.ghost_name
            ≡ self.entry.ghost_name) }
        ensures found { IfOk result (λ locked.
            FindsBucket Sampled TYPE hash self.old locked.side locked.index locked.table.now) }
        ensures succeeds { length self.old.arrays.linked ≡ 0 → 0 < length self.old.arrays.current
            → IsOk result }
    {
        self.writer_sync(hash)
    }

    /// Works a unit, moves the sources of the home of a hash, and locks that home.
    ///
    /// # Errors
    ///
    /// There is no array, and so no pair; or there is an old array and allocation failed: a source
    /// of the home isn't killed.
    ///
    /// O(unit). scc: `HashTable::optional_writer_sync`.
    pub fn optional_writer_sync(
        &mut self,
        hash: u64,
    ) -> Result<LockedBucket<'_, K, V, H, L, TYPE>, Missing>
        ensures* rests { sem 𝓛 (RestsIfErr
            (table_row K.row V.row H.row L.row TYPE.row K.PartialEq H.KeyHash
            (record { KEEPS = L.KEEPS; listed = L.listed; IsTail = L.IsTail }) L.Default)
            self.entry (λ locked. locked.table.ghost_name) result
            (λ after. IsPrepared TYPE hash self.old after
            × (result ≡ Err Missing.Memory → HomeNeedsMemory hash self.old.arrays after.arrays))) }
        ensures same_table { IfOk result (λ locked. locked.table.ghost_name
            ≡ self.entry.ghost_name) }
        ensures prepared { IfOk result (λ locked. IsPrepared TYPE hash self.old locked.table.now) }
        ensures side { IfOk result (λ locked. locked.side ≡ Current) }
        ensures missing { IfErr result (λ missing. IsMissing missing self.old.arrays) }
        ensures home { IfOk result (λ locked.
            IsHome (length (buckets_on locked.table.now.arrays locked.side)) hash locked.index) }
        ensures empty { result ≡ Err Missing.Nothing → pairs_of self.old.arrays ≡ [] }
    {
        match self.fetch_home(hash) {
            Ok(()) => Ok(self.lock_home(hash)),
            Err(missing) => Err(missing),
        }
    }

    /// Locks the home of a hash without working a unit. Returns `None` if there is no array, if
    /// there is an old one, or if `CHECK_SIZE` is set and the home has 32 live pairs or more.
    ///
    /// Allocates nothing. O(1). scc: `HashTable::try_optional_writer`.
    pub fn try_optional_writer<const CHECK_SIZE: bool>(
        &mut self,
        hash: u64,
    ) -> Option<LockedBucket<'_, K, V, H, L, TYPE>>
        ensures* rests { sem 𝓛 (RestsIfNone
            (table_row K.row V.row H.row L.row TYPE.row K.PartialEq H.KeyHash
            (record { KEEPS = L.KEEPS; listed = L.listed; IsTail = L.IsTail }) L.Default)
            self.entry (λ locked. locked.table.ghost_name) result (λ after. after ≡ self.old)) }
        ensures same_table { IfSome result (λ locked. locked.table.ghost_name
            ≡ self.entry.ghost_name) }
        ensures unchanged { IfSome result (λ locked. locked.table.now ≡ self.old) }
        ensures side { IfSome result (λ locked. locked.side ≡ Current) }
        ensures free { IfSome result (λ locked.
            MayLockAtOnce CHECK_SIZE self.old.arrays hash locked.index) }
        ensures none { IfNone result
            ((index : ℕ) → MayLockAtOnce CHECK_SIZE self.old.arrays hash index → ⊥) }
    {
        match self.arrays.free_home(hash, CHECK_SIZE) {
            Some(index) => Some(self.lock(Side::Current, index)),
            None => None,
        }
    }
}
