//! The calls of an occupied entry.
ghost use Rattle.std.specs.Prelude.{◌≡◌, Some, true};
ghost use Rattle.std.specs.Borrow.{MutBor, sem};
ghost use Rattle.collections.specs.Maps.{get, map_with_value};
ghost use Rattle.collections.specs.Changes.{Holds, Replaces, Takes};
ghost use Rattle.collections.specs.Slots.{KeepsSlots, LosesSlots};

use crate::hash_map::entry::OccupiedEntry;
use bucket_table::key_hash::KeyHash;
use std::mem;

impl<'a, K: Eq, V, H: KeyHash<K>> OccupiedEntry<'a, K, V, H> {
    /// Returns the requested key; the map's own key is equal to it.
    ///
    /// O(1). std: `OccupiedEntry::key`.
    pub fn key(&self) -> &K
        ensures { result.now ≡ self.now.key }
    {
        &self.key
    }

    /// Returns the value under the key.
    ///
    /// Moves no pairs. O(1) expected. std: `OccupiedEntry::get`.
    pub fn get(&self) -> &V
        ensures { get K.eq self.now.map.now self.now.key ≡ Some result.now }
    {
        self.map.get_hashed(self.hash, &self.key).unwrap()
    }
}

impl<'a, K: Eq + Drop, V: Drop, H: KeyHash<K>> OccupiedEntry<'a, K, V, H> {
    ghost use Rattle.collections.specs.Loans.{LendsThere};

    /// Calls a function with a mutable reference to the value under the key, and returns what the
    /// function returns.
    ///
    /// Never fails. O(1) expected. For keys that aren't `Copy`, it replaces std's
    /// `OccupiedEntry::get_mut`.
    pub fn update<R, F: FnOnce(&mut V) -> R>(&mut self, change: F) -> R
        requires callable { (value : MutBor V) → F.pre change value }
        ensures same_map { self.new.map.ghost_name ≡ self.old.map.ghost_name }
        ensures same_key { self.new.key ≡ self.old.key }
        ensures updated { (own : K) × (before after : MutBor V) × F.post change before result after
            × Replaces K.eq self.old.map.now (K.eq self.old.key) (own, before.now) after.now
            self.new.map.now }
        ensures slots { KeepsSlots self.old.map.now self.new.map.now }
    {
        match self.map.get_mut_hashed(self.hash, &self.key) {
            Some(value) => change(value),
            None => unreachable!(),
        }
    }

    /// Returns a mutable reference to the value under the key, for as long as the map is borrowed.
    /// When the borrow ends, the key has the value last written; the other keys keep theirs.
    ///
    /// Moves no pairs. O(1) expected. std: `OccupiedEntry::into_mut`.
    pub fn into_mut(self) -> &'a mut V
        ensures* writes_back { sem 𝓛
            (LendsThere K.row V.row H.row K.PartialEq H.KeyHash self.entry.map
            (K.eq self.entry.key) result) }
        ensures value { get K.eq self.entry.map.now self.entry.key ≡ Some result.now }
        ensures written { (value : V) → Holds K.eq (K.eq self.entry.key) self.entry.map.now
            result.now value (map_with_value (K.eq self.entry.key) self.entry.map.now value) }
    {
        let OccupiedEntry { map, key, hash } = self;
        map.value_mut_hashed(hash, &key)
    }

    /// Replaces the value under the key, and returns the earlier one; the map's own key stays.
    ///
    /// Never fails. O(1) expected. std: `OccupiedEntry::insert`.
    pub fn insert(&mut self, value: V) -> V
        ensures same_map { self.new.map.ghost_name ≡ self.old.map.ghost_name }
        ensures same_key { self.new.key ≡ self.old.key }
        ensures replaced { (own : K)
            × Replaces K.eq self.old.map.now (K.eq self.old.key) (own, result) value
            self.new.map.now }
        ensures slots { KeepsSlots self.old.map.now self.new.map.now }
    {
        self.update(|held| mem::replace(held, value))
    }

    /// Removes the pair from the map, and returns it: the map's own key, and its value.
    ///
    /// Never fails. O(1) expected, plus any resize. std: `OccupiedEntry::remove_entry`.
    pub fn remove_entry(self) -> (K, V)
        ensures map { Takes K.eq self.entry.map.now (K.eq self.entry.key) result self.exit.0.now }
        ensures slots { LosesSlots true self.entry.map.now self.exit.0.now }
    {
        let hash = self.hash;
        let key = self.key;
        self.map.remove_hashed(hash, &key).unwrap()
    }

    /// Removes the pair from the map, and returns its value.
    ///
    /// Never fails. O(1) expected, plus any resize. std: `OccupiedEntry::remove`.
    pub fn remove(self) -> V
        ensures map { (own : K)
            × Takes K.eq self.entry.map.now (K.eq self.entry.key) (own, result) self.exit.0.now }
        ensures slots { LosesSlots true self.entry.map.now self.exit.0.now }
    {
        let (_own, value) = self.remove_entry();
        value
    }
}

impl<'a, K: Eq + Copy, V: Drop, H: KeyHash<K>> OccupiedEntry<'a, K, V, H> {
    ghost use Rattle.collections.specs.EntryLoans.{LendsHeld};

    /// Returns a mutable reference to the value under the key. When the borrow ends, the key has
    /// the value last written; the other keys keep theirs. The entry stays usable. For keys that
    /// aren't `Copy`, use `update`, `into_mut`, or an entry by a form.
    ///
    /// Moves no pairs. O(1) expected. std: `OccupiedEntry::get_mut`.
    pub fn get_mut(&mut self) -> &mut V
        ensures* writes_back { sem 𝓛
            (LendsHeld K.row V.row H.row K.PartialEq H.KeyHash self.entry result) }
        ensures value { get K.eq self.old.map.now self.old.key ≡ Some result.now }
        ensures written { (value : V) → Holds K.eq (K.eq self.old.key) self.old.map.now result.now
            value (map_with_value (K.eq self.old.key) self.old.map.now value) }
    {
        let hash = self.hash;
        let key = self.key;
        self.map.value_mut_hashed(hash, &key)
    }
}
