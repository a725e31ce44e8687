//! How many slots a map has: reserving room, and freeing slots.
//!
//! The minimum, which scc's `reserve` raises, is the least number of slots that a resize leaves.
//! `try_reserve`, `shrink_to_fit` and `shrink_to` don't rehash incrementally: they move all pairs
//! at once.
ghost use Rattle.std.specs.Prelude.{◌≤◌, ◌≡◌, ◌^◌, [], IsErr, OnOk, min};
ghost use Rattle.bucket_slots.specs.Sizing.{IsPowerIn};
ghost use Rattle.collections.specs.Capacity.{AreTooMany, GainsRoom, IsMinimumFor, MakesRoom};
ghost use Rattle.collections.specs.Capacity.{ShrinksTo, ShrinksToFit, TakesSlots};
ghost use Rattle.collections.specs.Changes.{Reserves, Stays};
ghost use Rattle.collections.specs.Maps.{IsEmpty};

use crate::default_hash::DefaultHash;
use crate::hash_map::HashMap;
use crate::room::Fits;
use crate::sizing::{is_too_full, minimum_for, slots_for, widest};
use bucket_table::hash_table::{HashTable, MAXIMUM_CAPACITY_LIMIT};
use bucket_table::key_hash::KeyHash;
use std::alloc::{AllocError, Global};
use std::hash::Hash;

impl<K: Eq, V, H: KeyHash<K>> HashMap<K, V, H> {
    ghost use Rattle.collections.specs.Room.{MapFits};

    /// Returns an empty map whose first insertion allocates room for `pairs` pairs. Allocates
    /// nothing. The minimum is the fewest slots that the pairs fill to at most 13/16: 64 for no
    /// pairs, and 2^63, which no array has, if they are too many.
    ///
    /// O(1). Like std's `with_capacity_and_hasher`, which allocates.
    pub fn with_capacity_and_hasher(alloc: Global, pairs: usize, hasher: H) -> Self
        requires { MapFits K.row V.row H.row K.PartialEq H.KeyHash }
        ensures empty { IsEmpty result }
        ensures hasher { result.hasher ≡ hasher }
        ensures minimum { IsMinimumFor pairs result.minimum }
        ensures maximum { result.maximum ≡ 2 ^ 63 }
        ensures slots { (result.slots ≡ 0) × (result.old_slots ≡ 0) }
        ensures buckets { result.bucket_lens ≡ [] }
    {
        Self::with_minimum(alloc, hasher, minimum_for(pairs))
    }

    /// Returns an empty map whose minimum is `slots`, limited to 2^63. Allocates nothing: the first
    /// insertion allocates an array.
    ///
    /// O(1). scc: `HashMap::with_capacity_and_hasher`.
    pub fn with_minimum(alloc: Global, hasher: H, slots: usize) -> Self
        requires { MapFits K.row V.row H.row K.PartialEq H.KeyHash }
        ensures empty { IsEmpty result }
        ensures hasher { result.hasher ≡ hasher }
        ensures minimum { result.minimum ≡ min slots (2 ^ 63) }
        ensures maximum { result.maximum ≡ 2 ^ 63 }
        ensures slots { (result.slots ≡ 0) × (result.old_slots ≡ 0) }
        ensures buckets { result.bucket_lens ≡ [] }
    {
        let minimum = slots.min(MAXIMUM_CAPACITY_LIMIT);
        HashMap {
            table: HashTable::new(alloc, hasher, minimum, widest()),
            room: Fits::new(),
        }
    }
}

impl<K: Eq + Hash, V> HashMap<K, V, DefaultHash> {
    /// Returns an empty map that uses std's default hasher, and whose first insertion allocates
    /// room for `pairs` pairs, as `with_capacity_and_hasher` does. Allocates nothing.
    ///
    /// O(1). Like std's `with_capacity`, which allocates.
    pub fn with_capacity(alloc: Global, pairs: usize) -> Self
        ensures empty { IsEmpty result }
        ensures minimum { IsMinimumFor pairs result.minimum }
        ensures maximum { result.maximum ≡ 2 ^ 63 }
        ensures slots { (result.slots ≡ 0) × (result.old_slots ≡ 0) }
        ensures buckets { result.bucket_lens ≡ [] }
    {
        Self::with_capacity_and_hasher(alloc, pairs, DefaultHash::default())
    }
}

impl<K: Eq + Drop, V: Drop, H: KeyHash<K>> HashMap<K, V, H> {
    ghost use Rattle.collections.specs.Room.{MapFits};

    /// Raises the minimum number of slots by `additional`, or by 0 if it would exceed the maximum,
    /// and returns by how much. The pairs stay. The contract doesn't promise that slots are
    /// allocated.
    ///
    /// Never fails. O(slots). scc: `HashMap::reserve`.
    pub fn raise_minimum(&mut self, additional: usize) -> usize
        ensures { Reserves K.eq additional self.old result self.new }
    {
        self.room.fact_fits();
        self.table.fact_sound();
        let raised = self.table.reserve_capacity(additional);
        self.table.fact_sound();
        raised
    }

    /// Returns an empty map whose minimum is `slots`, limited to 2^63, and that has room for
    /// `pairs` pairs if that can be allocated. Without that room, pairs that come in the order of
    /// another map's slots would all go to the first buckets.
    pub(super) fn with_room(alloc: Global, hasher: H, slots: usize, pairs: usize) -> Self
        requires { MapFits K.row V.row H.row K.PartialEq H.KeyHash }
        ensures empty { IsEmpty result }
        ensures hasher { result.hasher ≡ hasher }
        ensures minimum { result.minimum ≡ min slots (2 ^ 63) }
        ensures maximum { result.maximum ≡ 2 ^ 63 }
    {
        let mut made = Self::with_minimum(alloc, hasher, slots);
        let _ = made.try_reserve(pairs);
        made
    }

    /// Makes room for `additional` pairs: afterwards all pairs are in one array, and together with
    /// the additional ones they fill at most 13/16 of its slots. If that holds already, nothing
    /// changes. The minimum and the pairs stay.
    ///
    /// # Errors
    ///
    /// Allocation failure, or more pairs than any array can take: the map keeps all pairs. In the
    /// second case nothing changes.
    ///
    /// O(slots). Like std's `try_reserve`.
    pub fn try_reserve(&mut self, additional: usize) -> Result<(), AllocError>
        ensures { MakesRoom K.eq additional self.old result self.new }
    {
        self.room.fact_fits();
        self.table.fact_sound();
        let Some(pairs) = self.table.len().checked_add(additional) else {
            return Err(AllocError);
        };
        if is_too_full(self.table.num_slots(), pairs) {
            return self.make_room(pairs);
        }
        if self.table.has_linked_array() {
            return self.make_room(pairs);
        }
        Ok(())
    }

    /// Makes room, if it can be allocated, for pairs of which at least `coming` come: in an empty
    /// map for all of them, else for half of them, rounded up, since the map may contain their keys
    /// already.
    ///
    /// Never fails. O(slots), and O(1) if there is room already.
    pub(crate) fn reserve_for(&mut self, coming: usize)
        ensures { GainsRoom K.eq coming self.old self.new }
    {
        if coming == 0 {
            self.fact_sound();
            return;
        }
        let expected = if self.is_empty() {
            coming
        } else {
            coming.div_ceil(2)
        };
        let _ = self.try_reserve(expected);
    }

    /// Moves all pairs into one array with room for `pairs` pairs, and with no fewer slots than
    /// now.
    ///
    /// # Errors
    ///
    /// Allocation failure, or more pairs than any array can take: the map keeps all pairs. In the
    /// second case nothing changes.
    fn make_room(&mut self, pairs: usize) -> Result<(), AllocError>
        ensures map { Stays K.eq self.old self.new }
        ensures slots { OnOk result (TakesSlots pairs self.old self.new) }
        ensures no_fewer { self.old.slots ≤ self.new.slots }
        ensures too_many { AreTooMany pairs → IsErr result × (self.new ≡ self.old) }
    {
        self.room.fact_fits();
        self.table.fact_sound();
        let slots = self.table.num_slots();
        match slots_for(pairs) {
            Some(least) => self.rehash_to(least.max(slots)),
            None => Err(AllocError),
        }
    }

    /// Sets the minimum to 0, and leaves as few slots as the pairs need: the fewest that they fill
    /// to at most 13/16, and none for an empty map. The pairs stay.
    ///
    /// # Errors
    ///
    /// Allocation failure: the map keeps all pairs, and the minimum is 0. It can't fail if the map
    /// is empty, or has as few slots already.
    ///
    /// O(slots). Like std's `shrink_to_fit`, which can't fail.
    pub fn shrink_to_fit(&mut self) -> Result<(), AllocError>
        ensures { ShrinksToFit K.eq self.old result self.new }
    {
        self.room.fact_fits();
        self.table.fact_sound();
        let pairs = self.table.len();
        self.table.set_minimum(0);
        if pairs == 0 {
            self.table.clear();
            return Ok(());
        }
        let Some(slots) = slots_for(pairs) else {
            return Err(AllocError);
        };
        if slots != self.table.num_slots() {
            return self.rehash_to(slots);
        }
        if self.table.has_linked_array() {
            return self.rehash_to(slots);
        }
        Ok(())
    }

    /// Sets the minimum to 0, and leaves no more slots than `pairs` pairs need: the fewest that
    /// they fill to at most 13/16. If the map has at least that many pairs, this is the same as
    /// `shrink_to_fit`. The pairs stay.
    ///
    /// # Errors
    ///
    /// Allocation failure: the map keeps all pairs, and the minimum is 0. It can't fail if the map
    /// has as few slots already.
    ///
    /// O(slots). Like std's `shrink_to`, which can't fail.
    pub fn shrink_to(&mut self, pairs: usize) -> Result<(), AllocError>
        ensures { ShrinksTo K.eq pairs self.old result self.new }
    {
        if pairs <= self.len() {
            return self.shrink_to_fit();
        }
        self.room.fact_fits();
        self.table.fact_sound();
        self.table.set_minimum(0);
        let Some(slots) = slots_for(pairs) else {
            return Ok(());
        };
        if slots < self.table.num_slots() {
            return self.rehash_to(slots);
        }
        Ok(())
    }

    /// Moves all pairs into one array of `slots` slots.
    ///
    /// # Errors
    ///
    /// Allocation failure, or more slots than the map may have: the map keeps all pairs.
    fn rehash_to(&mut self, slots: usize) -> Result<(), AllocError>
        requires { IsPowerIn 64 (2 ^ 62) slots }
        ensures map { Stays K.eq self.old self.new }
        ensures slots { OnOk result ((self.new.slots ≡ slots) × (self.new.old_slots ≡ 0)) }
        ensures no_fewer { self.old.slots ≤ slots → self.old.slots ≤ self.new.slots }
    {
        self.room.fact_fits();
        self.table.fact_sound();
        if slots > self.table.maximum_capacity() {
            return Err(AllocError);
        }
        let outcome = self.table.rehash_to(slots);
        self.table.fact_sound();
        match outcome {
            Ok(()) => Ok(()),
            Err(_) => Err(AllocError),
        }
    }
}
