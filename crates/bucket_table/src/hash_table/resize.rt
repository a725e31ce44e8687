//! Allocating, replacing and dropping the array of a table, and the tickets of a rehash.
//!
//! Model: `TableView`, whose `arrays` are the current one and, during an incremental rehash, the
//! old one. A resize follows its plan (`IsPlan`), which depends on the number of live slots of each
//! bucket; a ticket is an entry of the old array's bag of open units.
//! Invariant: that of the table, `IsOneMap`, whose `LosesNoUnit` says that no unit is lost: each
//! one below the position is killed or open. Each call here keeps the pairs.
//!
//! Ports `get_or_create_array`, `reserve_capacity`, `try_resize`, `start_incremental_rehash`,
//! `relocate_bucket` and `end_incremental_rehash` of scc's `src/hash_table.rs`.
ghost use Rattle.std.specs.Borrow.{sem};
ghost use Rattle.bucket_table.specs.Map.MapState.{KeepsPairs, LowersMinimum, RaisesMinimum};
ghost use Rattle.bucket_table.specs.Map.MapState.{state_of};
ghost use Rattle.bucket_table.specs.Resize.Overfull.{GrowsIfOverfull};
ghost use Rattle.bucket_table.specs.Resize.Resizing.{Releases, Reserves, TriesResize, with_minimum};
ghost use Rattle.std.specs.Prelude.{◌≡◌, ◌≤◌, ◌↔◌, ◌+◌, ◌<◌, false, Err, None, IsTrue, OnOk, OnErr};
ghost use Rattle.std.specs.Prelude.{IsOk, length, ◌-◌, Ok, IfOk};
ghost use Rattle.bucket_table.specs.Resize.Remaking.{RehashesTo};
ghost use Rattle.bucket_slots.specs.ArrayView.{bucket_at};
ghost use Rattle.bucket_slots.specs.BucketView.{listed_pairs};
ghost use Rattle.bucket_table.specs.Rehash.Carrying.{CarriesPairs};
ghost use Rattle.bucket_table.specs.Views.ArraysView.{tombstones_of};
ghost use Rattle.bucket_table.specs.Rehash.Rehashing.{EndsRehash, IsUnmoved, RelocatesAt};
ghost use Rattle.bucket_table.specs.Rehash.Steps.{Starts};
ghost use Rattle.bucket_table.specs.Rehash.Units.{NeedsNoMemory, NeedsMemory, WorksUnits};
ghost use Rattle.bucket_table.specs.declared.tickets.TicketError.TheVariants.{NotOpen};
ghost use Rattle.bucket_slots.specs.Marking.{HasNoNewMark};
ghost use Rattle.bucket_table.specs.Rehash.Finishing.{IsUnopened, units_left};
ghost use Rattle.bucket_table.specs.Views.Keeping.{KeepsArrays};

use crate::arrays::Side;
use crate::hash_table::HashTable;
use crate::key_hash::KeyHash;
use crate::tickets::TicketError;
use bucket_slots::bucket_array::BucketArray;
use bucket_slots::lru::LruList;
use std::alloc::AllocError;

impl<K: Eq + Drop, V: Drop, H: KeyHash<K>, L: LruList + Drop, const TYPE: u8> HashTable<
    K,
    V,
    H,
    L,
    TYPE,
> {
    ghost use Rattle.bucket_table.specs.Views.ArrayAccess.{EndsAs, GetsArray};

    /// Returns the current array. If there is none, it first allocates an empty one for the
    /// minimum.
    ///
    /// # Errors
    ///
    /// Allocation of a first array failed: there is still no array, and the table is unchanged.
    /// This can't happen if there is a current array.
    ///
    /// O(slots of the new array). scc: `HashTable::get_or_create_array`.
    pub fn get_or_create_array(&mut self) -> Result<&BucketArray<K, V, L, TYPE>, AllocError>
        ensures* array { sem 𝓛
            (EndsAs K.row V.row H.row L.row TYPE.row K.PartialEq H.KeyHash
            (record { KEEPS = L.KEEPS; listed = L.listed; IsTail = L.IsTail }) L.Default
            self.entry (λ new. GetsArray self.old result new)) }
    {
        self.arrays.fact_sound();
        self.arrays.make_array()?;
        Ok(self.arrays.array_of(Side::Current))
    }

    /// Doubles the slots, whatever the plan of a resize says, if the home of a hash is overfull: it
    /// has 48 live pairs or more, or 32 and a chain of 8 blocks; the map has at least a pair for
    /// each 8 slots, no incremental rehash is under way, and twice the slots do not exceed the
    /// maximum. Returns whether it did.
    ///
    /// The current array then becomes the old one, unchanged, and an empty array of twice its slots
    /// becomes the current one. Works no unit.
    ///
    /// # Errors
    ///
    /// Allocation of the array failed: the table is unchanged.
    ///
    /// O(1), but for an overfull home O(buckets). Keys that come in the order of their hashes all
    /// go to a few buckets, which may be outside every sample.
    #[inline(always)]
    pub fn grow_if_overfull(&mut self, hash: u64) -> Result<bool, AllocError>
        ensures grown { GrowsIfOverfull hash self.old.arrays result self.new.arrays }
        ensures map { KeepsPairs (state_of TYPE self.old) (state_of TYPE self.new) }
    {
        if !self.arrays.has_full_home(hash) {
            return Ok(false);
        }
        let count = self.len();
        self.arrays.double(count)
    }

    /// Resizes the table, or drops its array, as the plan says. Returns whether it did. It returns
    /// false without a current array, and while there is an old one.
    ///
    /// After a resize the previous current array is the old one, unchanged, and an empty array of
    /// the plan's capacity is the current one.
    ///
    /// # Errors
    ///
    /// Allocation of the planned array failed: the table is unchanged.
    ///
    /// O(buckets of the current array and of the new one). scc: `HashTable::try_resize`.
    pub fn try_resize(&mut self) -> Result<bool, AllocError>
        ensures plan { TriesResize self.old.arrays result self.new.arrays }
        ensures map { KeepsPairs (state_of TYPE self.old) (state_of TYPE self.new) }
    {
        self.arrays.try_resize()
    }

    /// Raises the minimum by a number of slots, and resizes as `try_resize` does. Returns by how
    /// much it was raised. If it would exceed the maximum, that is 0, and there is no resize.
    ///
    /// The result says that the minimum was raised, not that slots were added. May allocate, and
    /// never fails: if allocation fails, the arrays stay.
    ///
    /// O(buckets of the current array and of the new one). scc:
    /// `HashTable::reserve_capacity`.
    pub fn reserve_capacity(&mut self, additional: usize) -> usize
        ensures arrays { Reserves additional self.old.arrays result self.new.arrays }
        ensures map { RaisesMinimum additional (state_of TYPE self.old) result
            (state_of TYPE self.new) }
    {
        self.arrays.reserve_capacity(additional)
    }

    /// Lowers the minimum by a number of slots, and resizes as `try_resize` does. Returns by how
    /// much it was lowered. If the number exceeds the minimum, that is 0, and there is no resize.
    ///
    /// The result says that the minimum was lowered, not that memory was freed. May allocate, and
    /// never fails: if allocation fails, the arrays stay.
    ///
    /// O(buckets of the current array and of the new one).
    pub fn release_capacity(&mut self, released: usize) -> usize
        ensures arrays { Releases released self.old.arrays result self.new.arrays }
        ensures map { LowersMinimum released (state_of TYPE self.old) result
            (state_of TYPE self.new) }
    {
        self.arrays.release_capacity(released)
    }

    /// Moves all pairs into one array for a capacity in slots, whatever the plan of a resize says.
    /// If there is one array alone, and it has this length, nothing changes.
    ///
    /// All open tickets end.
    ///
    /// # Errors
    ///
    /// Allocation failed: no pair is lost, the pairs are in one array or two, and the two
    /// capacities are unchanged.
    ///
    /// O(slots of all arrays, and their pairs).
    pub fn rehash_to(&mut self, capacity: usize) -> Result<(), AllocError>
        requires within { capacity ≤ self.old.arrays.maximum }
        ensures map { KeepsPairs (state_of TYPE self.old) (state_of TYPE self.new) }
        ensures rehashed { RehashesTo capacity self.old.arrays result self.new.arrays }
    {
        self.arrays.rehash_to(&self.hasher, capacity)
    }

    /// Sets the minimum, and resizes nothing.
    ///
    /// Takes no memory. O(1). Own: the minimum is for the plan, which `rehash_to` doesn't follow.
    pub fn set_minimum(&mut self, minimum: usize)
        requires within { minimum ≤ self.old.arrays.maximum }
        ensures { self.new ≡ record self.old { arrays = with_minimum self.old.arrays minimum } }
    {
        self.arrays.set_minimum(minimum);
    }

    /// Moves the pairs of an old bucket to their homes in the current array, and kills it. A killed
    /// bucket stays as it is.
    ///
    /// A cache's LRU order moves with them: a listed pair that lands in an own slot is listed there
    /// after that bucket's own pairs, and the moved pairs keep their order. A pair that lands in a
    /// chain isn't listed.
    ///
    /// # Errors
    ///
    /// Allocation failed: no bucket's live pairs and LRU list have changed, and the old bucket
    /// isn't killed. This can't happen if the current array isn't shorter and the bucket has at
    /// most 32 live pairs.
    ///
    /// O(slots of the bucket and of its targets). scc: `HashTable::relocate_bucket_sync`, which
    /// doesn't carry the order; see `docs/DIFFERENCES.md`.
    pub fn relocate_bucket_sync(&mut self, index: usize) -> Result<(), AllocError>
        requires within { index < length self.old.arrays.linked }
        ensures map { KeepsPairs (state_of TYPE self.old) (state_of TYPE self.new) }
        ensures done { OnOk result (RelocatesAt index self.old.arrays self.new.arrays) }
        ensures recency { OnOk result
            (CarriesPairs K.eq (listed_pairs (bucket_at self.old.arrays.linked index))
            self.old.arrays.current self.new.arrays.current) }
        ensures refused { OnErr result (IsUnmoved self.old.arrays self.new.arrays) }
        ensures succeeds { NeedsNoMemory index (index + 1) self.old.arrays → IsOk result }
        ensures alive { OnErr result
            ((bucket_at self.old.arrays.linked index).killed ≡ false) }
    {
        self.arrays.relocate(&self.hasher, index)
    }

    /// Ends a ticket, and returns whether the old array was dropped. It is dropped once each of its
    /// buckets is killed, no unit is left and no ticket is open. If the ticket ends without
    /// success, its unit will be issued again.
    ///
    /// # Errors
    ///
    /// No such ticket is open, or success is claimed while a bucket of its unit isn't killed. The
    /// table is unchanged.
    ///
    /// O(buckets of a unit, and open tickets). scc: `end_incremental_rehash`, which doesn't check
    /// the ticket; see `docs/DIFFERENCES.md`.
    pub fn end_incremental_rehash(
        &mut self,
        ticket: usize,
        success: bool,
    ) -> Result<bool, TicketError>
        ensures map { KeepsPairs (state_of TYPE self.old) (state_of TYPE self.new) }
        ensures marks { HasNoNewMark (tombstones_of self.old.arrays)
            (tombstones_of self.new.arrays) }
        ensures hasher { self.new.hasher ≡ self.old.hasher }
        ensures rehash { EndsRehash self.old.arrays ticket success result self.new.arrays }
        ensures none { length self.old.arrays.linked ≡ 0 → result ≡ Err NotOpen }
    {
        self.arrays.fact_sound();
        self.arrays.fact_tickets();
        self.arrays.end_incremental_rehash(ticket, success)
    }

    /// Works the units of the old array, one after another, until the array is dropped. Returns how
    /// many units were worked, or 0 if there is no old array.
    ///
    /// # Errors
    ///
    /// Allocation failed, which can happen only if there is an old array. The old array stays, its
    /// pairs are in both arrays, and no ticket is open. The first old bucket that isn't killed had
    /// more than 32 live pairs, or the current array is shorter than the old one. The rehash stops
    /// at the unit of that bucket: the old buckets of later units are unchanged.
    ///
    /// O(old buckets from the position on, and their pairs).
    pub fn finish_rehash(&mut self) -> Result<usize, AllocError>
        requires none_open { IsUnopened self.old.arrays }
        ensures gone { IfOk result (λ count. length self.new.arrays.linked ≡ 0) }
        ensures counted { IfOk result (λ count. count ≡ units_left self.old.arrays) }
        ensures alone { length self.old.arrays.linked ≡ 0
            → (result ≡ Ok 0) × (self.new ≡ self.old) }
        ensures wanted { OnErr result
            (NeedsMemory (λ i. Unit {0}) self.old.arrays self.new.arrays) }
        ensures units { OnErr result (WorksUnits
            (self.new.arrays.tickets.position + 1 - self.old.arrays.tickets.position)
            (λ index. ⊥) self.old.arrays self.new.arrays) }
        // Whether the call succeeds or fails, the map stays the same, and no ticket is open.
        ensures map { KeepsPairs (state_of TYPE self.old) (state_of TYPE self.new) }
        ensures kept { KeepsArrays self.old.arrays self.new.arrays }
        ensures none_open { IsUnopened self.new.arrays }
    {
        self.arrays.fact_sound();
        self.arrays.fact_tickets();
        self.arrays.finish_rehash(&self.hasher)
    }
}

impl<K: Eq, V, H: KeyHash<K>, L: LruList, const TYPE: u8> HashTable<K, V, H, L, TYPE> {
    /// Returns whether there is an old array with a bucket of this index.
    ///
    /// O(1).
    pub fn has_old_bucket(&self, index: usize) -> bool
        ensures { IsTrue result ↔ (index < length self.now.arrays.linked) }
    {
        index < self.arrays.old_len()
    }

    /// Issues the next unit of the old array, and returns its ticket, which is 2048 times the unit.
    /// Returns `None` if there is no old array, if each unit was issued, or if 2047 tickets are
    /// open.
    ///
    /// Allocates nothing: the resize allocated room for the tickets. O(1). scc:
    /// `start_incremental_rehash`.
    pub fn start_incremental_rehash(&mut self) -> Option<usize>
        ensures map { KeepsPairs (state_of TYPE self.old) (state_of TYPE self.new) }
        ensures tickets { Starts self.old.arrays.tickets result self.new.arrays.tickets }
        ensures others { self.new ≡ record self.old {
          arrays = record self.old.arrays { tickets = self.new.arrays.tickets };
        } }
        ensures none { length self.old.arrays.linked ≡ 0 → result ≡ None }
    {
        self.arrays.fact_sound();
        self.arrays.start_incremental_rehash()
    }
}
