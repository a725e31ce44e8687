//! A map whose reads move nothing, and whose removed pairs stay in their slots as tombstones until
//! an insertion needs room in their bucket.
//!
//! Model: the table's own view, since tombstones are no part of a map. The map is `map_of` it, and
//! answers as std's `HashMap` does; its tombstones, which no look-up, walk or count sees, are
//! `tombstones_of` its arrays. Only a removal leaves a tombstone, with epoch 0. An insertion drops
//! those of its bucket if no own slot there is free and one has a tombstone. While all own slots
//! have pairs, those of the chain stay, but if it has 8 blocks, the next insertion there doubles
//! the slots. Else a tombstone is dropped with all arrays, if the minimum is 0, or with the old
//! array, by a call that moves pairs out of it.
//!
//! Ports scc's `src/hash_index.rs` to an owned index: where scc asks its collector whether a reader
//! may still see a removed pair, here none can.
ghost use Rattle.std.specs.Prelude.{◌≡◌, ◌<◌, ◌↔◌, ◌-◌, ◌*◌, ◌^◌, [], Err, IfSome, IsTrue};
ghost use Rattle.std.specs.Prelude.{is_some, length, min};
ghost use Rattle.std.specs.Option.{option_copied, option_map};
ghost use Rattle.std.specs.Borrow.{Bor};
ghost use Rattle.bucket_slots.specs.Marking.{HasNoNewMark, MarksBy};
ghost use Rattle.bucket_slots.specs.Walking.{CallsEach};
ghost use Rattle.bucket_table.specs.Map.LookingUp.{IsThere};
ghost use Rattle.bucket_table.specs.Views.ArraysView.{tombstones_of, pairs_of};
ghost use Rattle.bucket_table.specs.Walking.Drains.{emptied};
ghost use Rattle.bucket_slots.specs.declared.not_inserted.NotInserted.TheVariants.{Memory};
ghost use Rattle.collections.specs.Changes.{Inserts, ReadsOut, Reserves, Stays, TakesOut};
ghost use Rattle.collections.specs.Crowding.{LacksSlots};
ghost use Rattle.collections.specs.Maps.{contains_by, get_by, IsEmpty, map_len, map_of};
ghost use Rattle.collections.specs.Maps.{pairs_in_bucket};
ghost use Rattle.collections.specs.Marks.{KeepsMarks, MarksRemoved};
ghost use Rattle.collections.specs.Slots.{GrowsSlots, LosesSlots};
ghost use Rattle.collections.specs.StoredKeys.{key_by};

mod compare;
mod copy;
mod generation;
mod iter;
mod remove;

use crate::default_hash::DefaultHash;
use crate::hash_index::generation::NoneKept;
use crate::hash_map::NotInserted;
use crate::homes::fact_refused;
use crate::key_form::{FormProbe, KeyForm, pair_by, value_by};
use crate::room::{Fits, TableRoom};
use crate::sizing::widest;
use bucket_slots::bucket::INDEX;
use bucket_table::hash_table::{HashTable, MAXIMUM_CAPACITY_LIMIT, ResizeRule};
use bucket_table::key_hash::{KeyHash, StdHash};
pub use iter::{Iter, Keys, Values};
use std::alloc::Global;
use std::hash::{BuildHasherDefault, Hash, RandomState};
use std::marker::Model;

/// A map whose removed pairs stay as tombstones until their bucket needs room. scc: `HashIndex`.
///
/// Incremental rehash and allocation failure are as in `HashMap`: while there is an old array, an
/// insertion or a removal first moves a unit of 64 old buckets, and the old buckets whose pairs
/// belong in the key's bucket. Reads move nothing.
#[derive(Drop)]
pub struct HashIndex<K: Eq, V, H: KeyHash<K> = DefaultHash> {
    table: HashTable<K, V, H, (), INDEX>,
    room: Fits<TableRoom<K, V, H, (), INDEX>>,
}

impl<K: Eq, V, H: KeyHash<K>> Model for HashIndex<K, V, H> {
    ghost use Rattle.bucket_table.specs.Views.ArraysView.{TableView};

    ghost Value = { TableView K V H };

    ghost view = { λ index. index.table };
}

impl<K: Eq, V, H: KeyHash<K>> HashIndex<K, V, H> {
    ghost use Rattle.collections.specs.Room.{IndexFits};

    /// Returns an empty index. Allocates nothing.
    ///
    /// O(1). scc: `HashIndex::with_hasher`.
    pub fn with_hasher(alloc: Global, hasher: H) -> Self
        requires { IndexFits K.row V.row H.row K.PartialEq H.KeyHash }
        ensures empty { IsEmpty (map_of result) }
        ensures unmarked { tombstones_of result.arrays ≡ [] }
        ensures hasher { result.hasher ≡ hasher }
        ensures minimum { result.arrays.minimum ≡ 0 }
        ensures maximum { result.arrays.maximum ≡ 2 ^ 63 }
        ensures slots { (length result.arrays.current ≡ 0) × (length result.arrays.linked ≡ 0) }
    {
        Self::with_minimum(alloc, hasher, 0)
    }

    /// Returns an empty index whose minimum is `slots`, limited to 2^63. Allocates nothing: the
    /// first insertion allocates an array.
    ///
    /// O(1). scc: `HashIndex::with_capacity_and_hasher`.
    pub fn with_minimum(alloc: Global, hasher: H, slots: usize) -> Self
        requires { IndexFits K.row V.row H.row K.PartialEq H.KeyHash }
        ensures empty { IsEmpty (map_of result) }
        ensures unmarked { tombstones_of result.arrays ≡ [] }
        ensures hasher { result.hasher ≡ hasher }
        ensures minimum { result.arrays.minimum ≡ min slots (2 ^ 63) }
        ensures maximum { result.arrays.maximum ≡ 2 ^ 63 }
        ensures slots { (length result.arrays.current ≡ 0) × (length result.arrays.linked ≡ 0) }
    {
        let minimum = slots.min(MAXIMUM_CAPACITY_LIMIT);
        HashIndex {
            table: HashTable::new(alloc, hasher, minimum, widest()),
            room: Fits::new(),
        }
    }

    /// Returns the hasher.
    ///
    /// O(1). scc: `HashIndex::hasher`.
    pub fn hasher(&self) -> &H
        ensures { result.now ≡ self.now.hasher }
    {
        self.room.fact_fits();
        self.table.hasher()
    }

    /// Returns the allocator, which serves all slots of the index.
    ///
    /// O(1). Like the kit's `HashMap::allocator`.
    pub fn allocator(&self) -> Global {
        self.room.fact_fits();
        self.table.allocator()
    }

    /// Returns the number of pairs without tombstones, or 2^64 - 1 if there are more.
    ///
    /// O(1). scc: `HashIndex::len`.
    pub fn len(&self) -> usize
        ensures { result ≡ min (map_len (map_of self.now)) (2 ^ 64 - 1) }
    {
        self.room.fact_fits();
        self.table.len()
    }

    /// Returns `true` if the index has no pairs. Tombstones don't count.
    ///
    /// O(1). scc: `HashIndex::is_empty`.
    pub fn is_empty(&self) -> bool
        ensures { IsTrue result ↔ IsEmpty (map_of self.now) }
    {
        self.room.fact_fits();
        self.table.is_empty()
    }

    /// Returns the number of slots, without those of overflow chains.
    ///
    /// O(1). scc: `HashIndex::capacity`.
    pub fn capacity(&self) -> usize
        ensures { result ≡ 32 * length self.now.arrays.current }
    {
        self.room.fact_fits();
        self.table.num_slots()
    }

    /// Calls a function once with each pair, in the order of the view, and with no tombstone.
    ///
    /// O(slots), plus the function's calls. scc: `HashIndex::iter_sync`.
    #[inline(always)]
    pub fn for_each<F: FnMut(&K, &V)>(&self, f: &mut F)
        requires callable { F.IsAlwaysCallable f.old }
        ensures again { F.IsAlwaysCallable f.new }
        ensures calls { CallsEach (λ state own value last. F.step state own value tt last) f.old
            (pairs_of self.now.arrays) f.new }
    {
        self.room.fact_fits();
        self.table.for_each(f);
    }

    /// Calls a function with each pair of one bucket and with no tombstone, and returns whether
    /// there is such a bucket, like `HashMap::for_each_in`.
    ///
    /// Moves no pairs and allocates nothing. O(1) expected, plus the function's calls.
    pub fn for_each_in<F: FnMut(&K, &V)>(&self, bucket: usize, f: &mut F) -> bool
        requires callable { F.IsAlwaysCallable f.old }
        ensures again { F.IsAlwaysCallable f.new }
        ensures there { IsTrue result ↔ bucket < length (map_of self.now).bucket_lens }
        ensures few { IsTrue result → bucket < 2 ^ 58 }
        ensures calls { CallsEach (λ state own value last. F.step state own value tt last) f.old
            (pairs_in_bucket (map_of self.now) bucket) f.new }
    {
        self.room.fact_fits();
        self.table.for_each_in(bucket, f)
    }

    /// Returns the value under `key`, a key or a form of one; `None` if absent.
    ///
    /// Moves no pairs and allocates nothing. O(1) expected. scc: `HashIndex::peek`.
    #[inline(always)]
    pub fn peek<Q: KeyForm<K, H>>(&self, key: Q) -> Option<&V>
        ensures { option_copied result ≡ get_by (Q.stands_for key) (map_of self.now) }
    {
        self.room.fact_fits();
        value_by(&self.table, key)
    }

    /// Returns the pair under `key`, a key or a form of one: the index's own key and its value;
    /// `None` if absent.
    ///
    /// Moves no pairs and allocates nothing. O(1) expected. Like std's `HashMap::get_key_value`.
    #[inline(always)]
    pub fn peek_key_value<Q: KeyForm<K, H>>(&self, key: Q) -> Option<(&K, &V)>
        ensures key { option_map (λ pair. pair.0.now) result
            ≡ key_by (Q.stands_for key) (map_of self.now) }
        ensures same_key { IfSome result (λ pair. IsTrue (Q.stands_for key pair.0.now)) }
        ensures value { option_map (λ pair. pair.1.now) result
            ≡ get_by (Q.stands_for key) (map_of self.now) }
    {
        self.room.fact_fits();
        pair_by(&self.table, key)
    }

    /// Returns `true` if the index contains `key`, a key or a form of one.
    ///
    /// Moves no pairs and allocates nothing. O(1) expected. scc: `HashIndex::contains`.
    #[inline(always)]
    pub fn contains<Q: KeyForm<K, H>>(&self, key: Q) -> bool
        ensures { result ≡ contains_by (Q.stands_for key) (map_of self.now) }
    {
        self.peek(key).is_some()
    }
}

impl<K: Eq + Drop, V: Drop, H: KeyHash<K>> HashIndex<K, V, H> {
    /// Inserts a pair whose key the index does not contain. If no own slot of its home is free and
    /// one has a tombstone, it first drops all tombstones there.
    ///
    /// # Errors
    ///
    /// The index contains an equal key; or allocation failed, and it contains none. The pair is
    /// returned. Allocation can't fail while the index has slots, at least as many as old slots,
    /// the key's bucket has fewer than 32 pairs, and its bucket among the old slots, if any, at
    /// most 32.
    ///
    /// O(1) expected, plus any resize. scc: `HashIndex::insert_sync`.
    #[inline(always)]
    pub fn insert(&mut self, key: K, value: V) -> Result<(), NotInserted<K, V>>
        ensures map { Inserts K.eq key value (map_of self.old) result (map_of self.new) }
        ensures marks { HasNoNewMark (tombstones_of self.old.arrays)
            (tombstones_of self.new.arrays) }
        ensures slots { GrowsSlots H.hash_of key (map_of self.old) (map_of self.new) }
        ensures memory { result ≡ Err (Memory key value)
            → LacksSlots H.hash_of key self.old self.new }
    {
        self.room.fact_fits();
        self.table.fact_sound();
        let outcome = self
            .table
            .insert_pair(key, value, &NoneKept, ResizeRule::Counted);
        fact_refused(&self.table, &outcome);
        self.table.fact_sound();
        outcome
    }

    /// Removes the pair under `key`, a key or a form of one, and leaves a tombstone in its slot.
    /// The pair is no longer in the index. Returns whether there was one.
    ///
    /// Never fails. O(1) expected, plus any resize. scc: `HashIndex::remove_sync`.
    #[inline(always)]
    pub fn remove<Q: KeyForm<K, H>>(&mut self, key: Q) -> bool
        ensures map { TakesOut K.eq (Q.stands_for key) (map_of self.old) result (map_of self.new) }
        ensures marks { MarksBy 0 (tombstones_of self.old.arrays) (tombstones_of self.new.arrays) }
        ensures marked { MarksRemoved (Q.stands_for key) result self.old.arrays self.new.arrays }
        ensures slots { LosesSlots result (map_of self.old) (map_of self.new) }
    {
        let removed = self.remove_with(key, |_own: &K, _value: &V| ());
        removed.is_some()
    }

    /// Calls a function with the pair under `key`, a key or a form of one, leaves a tombstone as
    /// `remove` does, and returns what the function returns. If the index does not contain the key,
    /// the function isn't called, and the result is `None`.
    ///
    /// Never fails. O(1) expected, plus any resize.
    #[inline(always)]
    pub fn remove_with<Q: KeyForm<K, H>, R, F: FnOnce(&K, &V) -> R>(
        &mut self,
        key: Q,
        reader: F,
    ) -> Option<R>
        requires callable { (own : Bor K) (value : Bor V)
            → IsThere (Q.stands_for key) (pairs_of self.old.arrays) (own.now, value.now)
            → F.pre reader own value }
        ensures map { ReadsOut K.eq (Q.stands_for key)
            (λ own value answer. F.post reader own value answer) (map_of self.old) result
            (map_of self.new) }
        ensures marks { MarksBy 0 (tombstones_of self.old.arrays) (tombstones_of self.new.arrays) }
        ensures marked { MarksRemoved (Q.stands_for key) (is_some result) self.old.arrays
            self.new.arrays }
        ensures slots { LosesSlots (is_some result) (map_of self.old) (map_of self.new) }
    {
        self.room.fact_fits();
        self.table.fact_sound();
        let hash = key.hash_by(self.table.hasher());
        let outcome = self.table.mark_by(
            hash,
            &mut FormProbe::<Q, H>::new(key),
            &NoneKept,
            ResizeRule::Counted,
            reader,
        );
        self.table.fact_sound();
        outcome
    }

    /// Raises the minimum number of slots by `additional`, or by 0 if it would exceed the maximum,
    /// and returns by how much. The pairs stay. The contract doesn't promise that slots are
    /// allocated.
    ///
    /// Never fails. O(slots). scc: `HashIndex::reserve`.
    pub fn raise_minimum(&mut self, additional: usize) -> usize
        ensures map { Reserves K.eq additional (map_of self.old) result (map_of self.new) }
        ensures marks { KeepsMarks self.old.arrays self.new.arrays }
    {
        self.room.fact_fits();
        self.table.fact_sound();
        let raised = self.table.reserve_capacity(additional);
        self.table.fact_sound();
        raised
    }

    /// Sets the minimum to 0. The pairs stay. A resize may then free slots, but the contract
    /// doesn't promise it; a map's `shrink_to_fit` leaves as few as the pairs need.
    ///
    /// Never fails. O(slots). Does what dropping every `Reserve` does in scc.
    pub fn shrink_to_fit(&mut self)
        ensures map { Stays K.eq (record (map_of self.old) { minimum = 0 }) (map_of self.new) }
        ensures marks { KeepsMarks self.old.arrays self.new.arrays }
    {
        self.room.fact_fits();
        self.table.fact_sound();
        let minimum = self.table.minimum_capacity();
        let _ = self.table.release_capacity(minimum);
        self.table.fact_sound();
    }

    /// Drops all pairs and tombstones. The hasher, the capacities and the slots stay;
    /// `shrink_to_fit` frees them.
    ///
    /// Never fails. O(slots). std: `HashMap::clear`. scc: `HashIndex::clear_sync`, which leaves
    /// tombstones.
    pub fn clear(&mut self)
        ensures hasher { self.new.hasher ≡ self.old.hasher }
        ensures arrays { self.new.arrays ≡ emptied self.old.arrays }
    {
        self.room.fact_fits();
        self.table.empty_slots();
    }
}

impl<K: Eq + Hash, V> HashIndex<K, V, DefaultHash> {
    /// Returns an empty index that uses std's default hasher. Allocates nothing.
    ///
    /// O(1). scc: `HashIndex::new`.
    pub fn new(alloc: Global) -> Self
        ensures empty { IsEmpty (map_of result) }
        ensures unmarked { tombstones_of result.arrays ≡ [] }
        ensures minimum { result.arrays.minimum ≡ 0 }
        ensures maximum { result.arrays.maximum ≡ 2 ^ 63 }
        ensures slots { (length result.arrays.current ≡ 0) × (length result.arrays.linked ≡ 0) }
    {
        Self::with_hasher(alloc, StdHash::new(BuildHasherDefault::new()))
    }
}

impl<K: Eq + Hash, V> HashIndex<K, V, StdHash<RandomState>> {
    /// Returns an empty index that hashes with a random seed, for keys that an attacker may choose.
    /// Allocates nothing.
    ///
    /// O(1). Like std's `new`.
    pub fn with_random_state(alloc: Global, state: RandomState) -> Self
        ensures empty { IsEmpty (map_of result) }
        ensures unmarked { tombstones_of result.arrays ≡ [] }
        ensures hasher { result.hasher.builder ≡ state }
        ensures minimum { result.arrays.minimum ≡ 0 }
        ensures maximum { result.arrays.maximum ≡ 2 ^ 63 }
        ensures slots { (length result.arrays.current ≡ 0) × (length result.arrays.linked ≡ 0) }
    {
        Self::with_hasher(alloc, StdHash::new(state))
    }
}
