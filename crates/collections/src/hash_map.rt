//! A map from keys to values.
//!
//! Model: `MapView`, the pairs in an order that any call may change, the hasher, the slots and how
//! many pairs each bucket has. A map answers as std's `HashMap` does: `get` is a look-up of the
//! pairs.
//!
//! Ports scc's `src/hash_map.rs` to an owned map: a call borrows where scc locks.
ghost use Rattle.std.specs.Prelude.{◌≡◌, ◌↔◌, ◌-◌, ◌^◌, [], Err, IsTrue, OnErr, false, is_some};
ghost use Rattle.std.specs.Prelude.{min};
ghost use Rattle.std.specs.Option.{option_copied};
ghost use Rattle.std.specs.Borrow.{Bor, MutBor};
ghost use Rattle.bucket_table.specs.Map.LookingUp.{IsThere};
ghost use Rattle.bucket_slots.specs.declared.not_inserted.NotInserted.TheVariants.{Memory};
ghost use Rattle.collections.specs.Crowding.{LacksRoom};
ghost use Rattle.collections.specs.Maps.{contains_by, get_by, IsEmpty, map_len};
ghost use Rattle.collections.specs.Changes.{Inserts, Removes, Rewrites, Upserts};
ghost use Rattle.collections.specs.Slots.{GrowsSlots, KeepsSlots, LosesSlots, cleared};

mod capacity;
mod collect;
mod compare;
mod copy;
pub mod entry;
mod iter;
mod remove;
mod values;

use crate::default_hash::DefaultHash;
use crate::homes::{fact_homes, fact_refused};
use crate::key_form::{FormProbe, KeyForm, value_by};
use crate::room::{Fits, TableRoom};
use crate::sizing::LEAST_CAPACITY;
use bucket_slots::bucket::MAP;
pub use bucket_table::hash_table::NotInserted;
use bucket_table::hash_table::{HashTable, ResizeRule};
use bucket_table::key_hash::{KeyHash, StdHash};
pub(crate) use copy::clone_pair;
pub use entry::{Entry, EntryRef, OccupiedEntry, OccupiedEntryRef, VacantEntry, VacantEntryRef};
pub use iter::{Drain, ExtractIf, IntoIter, IntoKeys, IntoValues, Iter, Keys, Values};
use std::alloc::{AllocFailed, Global};
use std::fmt::{self, Debug, Formatter, Write};
use std::hash::{BuildHasherDefault, Hash, RandomState};
use std::marker::Model;

/// A map from keys to values. scc: `HashMap`.
///
/// The pairs are in an array of buckets of 32 slots each; a bucket that is full has an overflow
/// chain. When the array gets too full or too empty, a resize allocates another one, and an
/// incremental rehash moves the pairs: while there is an old array, a call that writes under one
/// key first moves a unit of 64 old buckets, and the old buckets whose pairs belong in the key's
/// bucket. A call that never does so is documented with "Moves no pairs".
///
/// On allocation failure a resize is skipped, and a unit that can't be moved stays in the old
/// array; neither is an error. An insertion that fails returns what was to be inserted, and the map
/// keeps the pairs that it had. Calls that insert nothing never fail, except those that copy pairs
/// or move them all at once.
#[derive(Drop)]
pub struct HashMap<K: Eq, V, H: KeyHash<K> = DefaultHash> {
    table: HashTable<K, V, H, (), MAP>,
    room: Fits<TableRoom<K, V, H, (), MAP>>,
}

impl<K: Eq, V, H: KeyHash<K>> Model for HashMap<K, V, H> {
    ghost use Rattle.collections.specs.Maps.{MapView, map_of};

    ghost Value = { MapView K V H };

    ghost view = { λ map. map_of map.table };
}

impl<K: Eq, V, H: KeyHash<K>> HashMap<K, V, H> {
    ghost use Rattle.collections.specs.Room.{MapFits};

    /// Returns an empty map with a minimum of 64 slots. Allocates nothing: the first insertion
    /// allocates the slots, and the removal of the last pair keeps that many.
    ///
    /// O(1). scc: `HashMap::with_hasher`, whose minimum is 0.
    pub fn with_hasher(alloc: Global, hasher: H) -> Self
        requires { MapFits K.row V.row H.row K.PartialEq H.KeyHash }
        ensures empty { IsEmpty result }
        ensures hasher { result.hasher ≡ hasher }
        ensures minimum { result.minimum ≡ 64 }
        ensures maximum { result.maximum ≡ 2 ^ 63 }
        ensures slots { (result.slots ≡ 0) × (result.old_slots ≡ 0) }
        ensures buckets { result.bucket_lens ≡ [] }
    {
        Self::with_minimum(alloc, hasher, LEAST_CAPACITY)
    }

    /// Returns the hasher.
    ///
    /// O(1). scc: `HashMap::hasher`.
    pub fn hasher(&self) -> &H
        ensures { result.now ≡ self.now.hasher }
    {
        self.room.fact_fits();
        self.table.hasher()
    }

    /// Returns the allocator, which serves all slots of the map.
    ///
    /// O(1). Like the kit's `HashMap::allocator`.
    pub fn allocator(&self) -> Global {
        self.room.fact_fits();
        self.table.allocator()
    }

    /// Returns the number of pairs, or 2^64 - 1 if there are more.
    ///
    /// O(1). scc: `HashMap::len`.
    pub fn len(&self) -> usize
        ensures { result ≡ min (map_len self.now) (2 ^ 64 - 1) }
    {
        self.room.fact_fits();
        self.table.len()
    }

    /// Returns `true` if the map has no pairs.
    ///
    /// O(1). scc: `HashMap::is_empty`.
    pub fn is_empty(&self) -> bool
        ensures { IsTrue result ↔ IsEmpty self.now }
    {
        self.room.fact_fits();
        self.table.is_empty()
    }

    /// Returns the number of slots, without those of overflow chains.
    ///
    /// O(1). scc: `HashMap::capacity`.
    pub fn capacity(&self) -> usize
        ensures { result ≡ self.now.slots }
    {
        self.room.fact_fits();
        self.table.num_slots()
    }

    /// Returns the value under `key`, a key or a form of one; `None` if absent.
    ///
    /// Moves no pairs and allocates nothing. O(1) expected. scc: `HashMap::peek_with`.
    #[inline(always)]
    pub fn get<Q: KeyForm<K, H>>(&self, key: Q) -> Option<&V>
        ensures { option_copied result ≡ get_by (Q.stands_for key) self.now }
    {
        self.room.fact_fits();
        value_by(&self.table, key)
    }

    /// Returns `true` if the map contains `key`, a key or a form of one.
    ///
    /// Moves no pairs and allocates nothing. O(1) expected. scc: `HashMap::contains_sync`.
    #[inline(always)]
    pub fn contains<Q: KeyForm<K, H>>(&self, key: Q) -> bool
        ensures { result ≡ contains_by (Q.stands_for key) self.now }
    {
        self.get(key).is_some()
    }

    /// The same as `contains`. std: `HashMap::contains_key`.
    #[inline(always)]
    pub fn contains_key<Q: KeyForm<K, H>>(&self, key: Q) -> bool
        ensures { result ≡ contains_by (Q.stands_for key) self.now }
    {
        self.contains(key)
    }
}

impl<K: Eq + Drop, V: Drop, H: KeyHash<K>> HashMap<K, V, H> {
    /// Inserts a pair whose key the map does not contain.
    ///
    /// # Errors
    ///
    /// The map contains an equal key; or allocation failed, and it contains none. The pair is
    /// returned. Allocation can't fail while the map has slots, at least as many as old slots, the
    /// key's bucket is the home of fewer than 32 pairs, and its bucket among the old slots, if any,
    /// of at most 32.
    ///
    /// O(1) expected, plus any resize. scc: `HashMap::insert_sync`.
    #[inline(always)]
    pub fn insert(&mut self, key: K, value: V) -> Result<(), NotInserted<K, V>>
        ensures map { Inserts K.eq key value self.old result self.new }
        ensures slots { GrowsSlots H.hash_of key self.old self.new }
        ensures memory { result ≡ Err (Memory key value) → LacksRoom H.hash_of key self.old }
    {
        self.room.fact_fits();
        self.table.fact_sound();
        let outcome = self.table.insert_pair(key, value, &(), ResizeRule::Counted);
        fact_refused(&self.table, &outcome);
        self.table.fact_sound();
        outcome
    }

    /// Removes the pair under `key`, a key or a form of one, and returns it; `None` if absent.
    ///
    /// Never fails. O(1) expected, plus any resize. scc: `HashMap::remove_sync`.
    #[inline(always)]
    pub fn remove<Q: KeyForm<K, H>>(&mut self, key: Q) -> Option<(K, V)>
        ensures map { Removes K.eq (Q.stands_for key) self.old result self.new }
        ensures slots { LosesSlots (is_some result) self.old self.new }
    {
        let hash = key.hash_by(self.hasher());
        self.remove_hashed(hash, key)
    }

    /// Inserts a pair. If the map contains an equal key, that key stays, its value is replaced and
    /// returned, and the call never fails.
    ///
    /// # Errors
    ///
    /// Allocation failure, as in `insert`: the map contains no equal key, and the pair is returned.
    ///
    /// O(1) expected, plus any resize. scc: `HashMap::upsert_sync`.
    #[inline(always)]
    pub fn upsert(&mut self, key: K, value: V) -> Result<Option<V>, AllocFailed<(K, V)>>
        ensures map { Upserts K.eq key value self.old result self.new }
        ensures slots { GrowsSlots H.hash_of key self.old self.new }
        ensures memory { OnErr result (LacksRoom H.hash_of key self.old) }
    {
        self.room.fact_fits();
        self.table.fact_sound();
        let outcome = self.table.upsert(key, value, &(), ResizeRule::Counted);
        self.table.fact_sound();
        let earlier = match outcome {
            Ok(earlier) => earlier,
            Err(value) => {
                fact_homes(&self.table, self.table.hash(&value.0));
                return Err(AllocFailed { value });
            }
        };
        Ok(earlier)
    }

    /// Calls a function with the key and a mutable reference to the value under `key`, a key or a
    /// form of one, and returns what the function returns. If the map does not contain the key, the
    /// function isn't called, and the result is `None`.
    ///
    /// Never fails. O(1) expected. scc: `HashMap::update_sync`.
    #[inline(always)]
    pub fn update<Q: KeyForm<K, H>, R, F: FnOnce(&K, &mut V) -> R>(
        &mut self,
        key: Q,
        change: F,
    ) -> Option<R>
        requires callable { (own : Bor K) (value : MutBor V)
            → IsThere (Q.stands_for key) self.old.entries (own.now, value.now)
            → F.pre change own value }
        ensures map { Rewrites K.eq (Q.stands_for key)
            (λ own before answer after. F.post change own before answer after)
            self.old result self.new }
        ensures slots { KeepsSlots self.old self.new }
    {
        self.room.fact_fits();
        self.table.fact_sound();
        let hash = key.hash_by(self.table.hasher());
        let outcome = self
            .table
            .update_by(hash, &mut FormProbe::<Q, H>::new(key), change);
        self.table.fact_sound();
        outcome
    }

    /// Drops all pairs. The hasher, the capacities and the slots stay; `shrink_to_fit` frees them.
    ///
    /// Never fails. O(slots). std: `HashMap::clear`. scc: `HashMap::clear_sync`.
    pub fn clear(&mut self)
        ensures { self.new ≡ cleared self.old }
    {
        self.room.fact_fits();
        let mut keep_none = |_key: &K, _value: &mut V|
            ensures { result ≡ false }
        { false };
        let _ = self.table.retain(&mut keep_none, &());
    }
}

/// The pairs, as std prints a map: `{key: value, ..}`.
impl<K: Eq + Debug, V: Debug, H: KeyHash<K>> Debug for HashMap<K, V, H> {
    fn fmt<W: Write>(&self, f: &mut Formatter<W>) -> fmt::Result {
        let mut out = f.debug_map();
        self.for_each(|key: &K, value: &V| {
            out.entry(key, value);
        });
        out.finish()
    }
}

impl<K: Eq + Hash, V> HashMap<K, V, DefaultHash> {
    /// Returns an empty map with a minimum of 64 slots that uses std's default hasher, as
    /// `with_hasher` does with a given one. Allocates nothing.
    ///
    /// O(1). scc: `HashMap::new`, whose minimum is 0.
    pub fn new(alloc: Global) -> Self
        ensures empty { IsEmpty result }
        ensures minimum { result.minimum ≡ 64 }
        ensures maximum { result.maximum ≡ 2 ^ 63 }
        ensures slots { (result.slots ≡ 0) × (result.old_slots ≡ 0) }
        ensures buckets { result.bucket_lens ≡ [] }
    {
        Self::with_hasher(alloc, StdHash::new(BuildHasherDefault::new()))
    }
}

impl<K: Eq + Hash, V> HashMap<K, V, StdHash<RandomState>> {
    /// Returns an empty map with a minimum of 64 slots that hashes with a random seed, for keys
    /// that an attacker may choose. Allocates nothing.
    ///
    /// O(1). Like std's `new`.
    pub fn with_random_state(alloc: Global, state: RandomState) -> Self
        ensures empty { IsEmpty result }
        ensures hasher { result.hasher.builder ≡ state }
        ensures minimum { result.minimum ≡ 64 }
        ensures maximum { result.maximum ≡ 2 ^ 63 }
        ensures slots { (result.slots ≡ 0) × (result.old_slots ≡ 0) }
        ensures buckets { result.bucket_lens ≡ [] }
    {
        Self::with_hasher(alloc, StdHash::new(state))
    }
}
