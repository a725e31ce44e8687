//! A locked bucket: a bucket of a table, with an exclusive borrow of the table.
//!
//! Model: `LockedBucket`, the table, a side and an index; `bucket_in` is its bucket. Invariant
//! (`IsLocked`, the ghost field): a current bucket has all its sources killed; an old one isn't
//! killed, and then every slot of the current array is free.
//!
//! Ports `LockedBucket` of scc's `src/hash_table.rs`.
ghost use Rattle.bucket_slots.specs.BucketView.{null_place, slot_in};
ghost use Rattle.bucket_slots.specs.Clearing.{slots_after_insertion};
ghost use Rattle.bucket_slots.specs.Evicting.{slots_touched};
ghost use Rattle.bucket_slots.specs.Homes.{IsHome};
ghost use Rattle.bucket_slots.specs.Marking.{slots_marked};
ghost use Rattle.bucket_slots.specs.Removing.{slots_without};
ghost use Rattle.bucket_slots.specs.Slots.{is_live, live_pair};
ghost use Rattle.bucket_slots.specs.Walking.{pairs_ahead};
ghost use Rattle.bucket_table.specs.Map.LookingUp.{IsAbsent, IsThere};
ghost use Rattle.bucket_table.specs.Map.MapState.{AddsPair, ChangesValue};
ghost use Rattle.bucket_table.specs.Map.MapState.{KeepsPairs, TakesPair, state_of};
ghost use Rattle.bucket_table.specs.Map.Putting.{Goes, slots_left};
ghost use Rattle.bucket_table.specs.Views.ArraysView.{pairs_of};
ghost use Rattle.bucket_table.specs.Views.Locking.{IsLocked};
ghost use Rattle.bucket_table.specs.Views.Sides.{buckets_on};
ghost use Rattle.std.specs.Borrow.{sem};
ghost use Rattle.std.specs.Prelude.{◌%◌, ◌≡◌, ◌≢◌, IfSome, IsTrue, OnOk};
ghost use Rattle.std.specs.Prelude.{Some, if◌then◌else◌, is_ok, length};

mod cursor;
mod shrink;
mod walk;
mod writer;

use crate::arrays::Side;
use crate::hash_table::HashTable;
use crate::key_hash::KeyHash;
use bucket_slots::bucket::{Bucket, CACHE, EntryPtr, Generation, INDEX};
use bucket_slots::bucket_array::BucketArray;
use bucket_slots::lru::LruList;

/// A bucket of a table's current or old array, with the table, which it borrows.
#[derive(Drop)]
pub struct LockedBucket<'a, K: Eq, V, H: KeyHash<K>, L: LruList, const TYPE: u8> {
    pub(crate) table: &'a mut HashTable<K, V, H, L, TYPE>,
    pub(crate) side: Side,
    pub(crate) index: usize,
    ghost locked: { IsLocked table.now.arrays side index },
}

impl<'a, K: Eq, V, H: KeyHash<K>, L: LruList, const TYPE: u8> LockedBucket<'a, K, V, H, L, TYPE> {
    ghost use Rattle.bucket_table.specs.Views.LockedChanges.{Changes, bucket_in};
    ghost use Rattle.bucket_table.specs.Views.LockedLoans.{LendsLocked, table_with_value};

    /// Returns the index of the bucket in its array.
    ///
    /// O(1). scc: `LockedBucket::bucket_index`.
    pub fn bucket_index(&self) -> usize
        ensures { result ≡ self.now.index }
    {
        self.index
    }

    /// Returns the array that the bucket is in.
    ///
    /// O(1). scc: `LockedBucket::bucket_array`.
    pub fn array(&self) -> &BucketArray<K, V, L, TYPE>
        ensures { result.now ≡ buckets_on self.now.table.now.arrays self.now.side }
    {
        let table = &*self.table;
        table.arrays.array_of(self.side)
    }

    /// Returns the bucket.
    ///
    /// O(1). scc: `LockedBucket::writer`.
    pub fn bucket(&self) -> &Bucket<K, V, L, TYPE>
        ensures { result.now ≡ bucket_in self.now }
    {
        let table = &*self.table;
        table.arrays.bucket_of(self.side, self.index)
    }

    /// Returns a pointer to the pair with an equal key, or the null pointer exactly if the table
    /// has none.
    ///
    /// O(slots of the bucket). scc: `LockedBucket::search`.
    #[inline(always)]
    pub fn search(&self, key: &K, hash: u64) -> EntryPtr<K, V, TYPE>
        requires own_hash { hash ≡ H.hash_of self.now.table.now.hasher key.now }
        requires home { IsHome
            (length (buckets_on self.now.table.now.arrays self.now.side)) hash self.now.index }
        ensures found { result.pos ≢ 32 → (pair : K × V)
            × (live_pair
            (slot_in (bucket_in self.now) result)
            ≡ Some pair)
            × IsThere (λ own. K.eq own key.now) (pairs_of self.now.table.now.arrays) pair }
        ensures absent { result.pos ≡ 32 → IsAbsent (λ own. K.eq own key.now)
            (pairs_of self.now.table.now.arrays) }
        ensures null { result.pos ≡ 32 → result ≡ null_place }
    {
        let table = &*self.table;
        table.arrays.fact_room_of(self.side);
        table
            .arrays
            .bucket_of(self.side, self.index)
            .get_entry_ptr(key, hash)
    }

    /// Returns the pair in a live slot.
    ///
    /// O(blocks of the chain). scc: `LockedBucket::entry`.
    pub fn entry(&self, at: &EntryPtr<K, V, TYPE>) -> (&K, &V)
        requires live_slot { IsTrue (is_live
            (slot_in (bucket_in self.now) at.now)) }
        ensures { live_pair
            (slot_in (bucket_in self.now) at.now)
            ≡ Some (result.0.now, result.1.now) }
    {
        let table = &*self.table;
        table.arrays.entry_of(self.side, self.index, at)
    }

    /// Lends the pair in a live slot, with its value for writing. What is written to the value is
    /// in the table after the loan.
    ///
    /// O(blocks of the chain). scc: `LockedBucket::entry_mut`.
    pub fn entry_mut(&mut self, at: &EntryPtr<K, V, TYPE>) -> (&K, &mut V)
        requires live_slot { IsTrue (is_live
            (slot_in (bucket_in self.old) at.now)) }
        ensures* writes_back { sem 𝓛
            (LendsLocked K.row V.row H.row L.row TYPE K.PartialEq H.KeyHash
            (record { KEEPS = L.KEEPS; listed = L.listed; IsTail = L.IsTail }) L.Default
            self.entry at.now result) }
        ensures pair { live_pair
            (slot_in (bucket_in self.old) at.now)
            ≡ Some (result.0.now, result.1.now) }
        ensures map { (value : V) → ChangesValue (state_of TYPE self.old.table.now)
            (result.0.now, result.1.now) value (state_of TYPE
            (table_with_value self.old at.now value)) }
    {
        let side = self.side;
        let index = self.index;
        let table = &mut *self.table;
        table.arrays.entry_of_mut(side, index, at)
    }

    /// Makes a live own slot the one touched last. A slot of the chain isn't listed.
    ///
    /// Allocates nothing. O(1). scc: `Bucket::update_lru_tail`.
    pub fn update_lru_tail(&mut self, at: &EntryPtr<K, V, TYPE>)
        requires cache { TYPE ≡ CACHE }
        requires live_slot { IsTrue (is_live
            (slot_in (bucket_in self.old) at.now)) }
        ensures changed { Changes self.old self.new
            (λ bucket. slots_touched L.KEEPS bucket at.now) }
        ensures map { KeepsPairs (state_of TYPE self.old.table.now)
            (state_of TYPE self.new.table.now) }
    {
        let side = self.side;
        let index = self.index;
        let table = &mut *self.table;
        table.arrays.touch_slot(side, index, at);
    }

    /// Evicts the pair touched longest ago, or the one in slot 0 if none is listed, and returns it,
    /// or `None` exactly if an own slot is free.
    ///
    /// Allocates nothing. O(1). scc: `Bucket::evict_lru_head`.
    pub fn evict_lru_head(&mut self) -> Option<(K, V)>
        requires cache { TYPE ≡ CACHE }
        ensures changed { Changes self.old self.new (λ bucket. slots_left bucket result) }
        ensures map { IfSome result
            (λ pair. TakesPair (state_of TYPE self.old.table.now) pair
            (state_of TYPE self.new.table.now)) }
        ensures answer { Goes (bucket_in self.old) result }
    {
        let side = self.side;
        let index = self.index;
        let table = &mut *self.table;
        table.arrays.fact_room_of(side);
        let gone = table.arrays.bucket_of_mut(side, index).evict_lru_head();
        table.arrays.refresh_on(side, index);
        table.arrays.count_removal(&mut table.count, &gone);
        gone
    }

    /// Makes a live slot of an index a tombstone. The table isn't shrunk.
    ///
    /// Allocates nothing. O(blocks of the chain). scc: `Bucket::mark_removed`.
    pub fn mark_entry<G: Generation>(&mut self, at: &mut EntryPtr<K, V, TYPE>, generation: &G)
        requires index { TYPE ≡ INDEX }
        requires live_slot { IsTrue (is_live
            (slot_in (bucket_in self.old) at.old)) }
        ensures changed { Changes self.old self.new
            (λ bucket. slots_marked bucket at.old (G.epoch_of generation.now)) }
        ensures map { (pair : K × V) × (live_pair (slot_in (bucket_in self.old) at.old) ≡ Some pair)
            × TakesPair (state_of TYPE self.old.table.now) pair (state_of TYPE self.new.table.now) }
        ensures pairs_ahead { pairs_ahead (bucket_in self.new) at.new
            ≡ pairs_ahead (bucket_in self.old) at.old }
    {
        let side = self.side;
        let index = self.index;
        let table = &mut *self.table;
        let _left = table.arrays.mark_slot(side, index, at, generation);
        table.arrays.count_taken(&mut table.count);
    }
}

impl<'a, K: Eq + Drop, V: Drop, H: KeyHash<K>, L: LruList, const TYPE: u8> LockedBucket<
    'a,
    K,
    V,
    H,
    L,
    TYPE,
> {
    ghost use Rattle.bucket_table.specs.Views.LockedChanges.{AnswersPlacing, Changes, bucket_in};

    /// Inserts a pair whose key is absent, and returns its place.
    ///
    /// # Errors
    ///
    /// Allocation failed: the pair is returned and the table is unchanged. This can't happen if a
    /// slot is free.
    ///
    /// O(slots of the bucket). scc: `LockedBucket::insert`.
    #[inline(always)]
    pub fn insert<G: Generation>(
        &mut self,
        hash: u64,
        pair: (K, V),
        generation: &G,
    ) -> Result<EntryPtr<K, V, TYPE>, (K, V)>
        requires own_hash { hash ≡ H.hash_of self.old.table.now.hasher pair.0 }
        requires home { IsHome
            (length (buckets_on self.old.table.now.arrays self.old.side)) hash self.old.index }
        requires key_absent { IsAbsent (λ own. K.eq own pair.0)
            (pairs_of self.old.table.now.arrays) }
        ensures changed { Changes self.old self.new (λ bucket. if is_ok result
            then slots_after_insertion TYPE (G.keeps generation.now) bucket pair (hash % 256)
            else bucket) }
        ensures map { OnOk result (AddsPair (state_of TYPE self.old.table.now) pair
            (state_of TYPE self.new.table.now)) }
        ensures answer { AnswersPlacing TYPE (G.keeps generation.now) pair (hash % 256)
            (bucket_in self.old) result (bucket_in self.new) }
    {
        let side = self.side;
        let index = self.index;
        let table = &mut *self.table;
        table.arrays.fact_room_of(side);
        let placed = table
            .arrays
            .bucket_of_mut(side, index)
            .insert(hash, pair, generation);
        table.arrays.refresh_on(side, index);
        table.arrays.count_insertion(&mut table.count, &placed);
        placed
    }

    /// Takes the pair out of a live slot and returns it. The table isn't shrunk.
    ///
    /// Allocates nothing. O(blocks of the chain). scc: `Bucket::remove`.
    pub fn remove_entry(&mut self, at: &mut EntryPtr<K, V, TYPE>) -> (K, V)
        requires not_index { TYPE ≢ INDEX }
        requires live_slot { IsTrue (is_live
            (slot_in (bucket_in self.old) at.old)) }
        ensures changed { Changes self.old self.new (λ bucket. slots_without bucket at.old) }
        ensures map { TakesPair (state_of TYPE self.old.table.now) result
            (state_of TYPE self.new.table.now) }
        ensures pair { live_pair (slot_in (bucket_in self.old) at.old) ≡ Some result }
        ensures pairs_ahead { pairs_ahead (bucket_in self.new) at.new
            ≡ pairs_ahead (bucket_in self.old) at.old }
    {
        let side = self.side;
        let index = self.index;
        let table = &mut *self.table;
        let (pair, _left) = table.arrays.take_slot(side, index, at);
        table.arrays.count_taken(&mut table.count);
        pair
    }
}
