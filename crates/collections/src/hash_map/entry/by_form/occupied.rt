//! The calls of an occupied entry by a form.
ghost use Rattle.std.specs.Prelude.{◌≡◌, Some};
ghost use Rattle.std.specs.Borrow.{MutBor, sem};
ghost use Rattle.collections.specs.Maps.{get_by, map_with_value};
ghost use Rattle.collections.specs.Changes.{Holds, Replaces};
ghost use Rattle.collections.specs.Slots.{KeepsSlots};

use crate::hash_map::entry::by_form::OccupiedEntryRef;
use crate::key_form::KeyForm;
use bucket_table::key_hash::KeyHash;
use std::mem;

impl<'a, K: Eq, V, H: KeyHash<K>, Q: KeyForm<K, H>> OccupiedEntryRef<'a, K, V, H, Q> {
    /// Returns the value under the key.
    ///
    /// Moves no pairs. O(1) expected. std: `OccupiedEntry::get`.
    pub fn get(&self) -> &V
        ensures { get_by (Q.stands_for self.now.form) self.now.map.now ≡ Some result.now }
    {
        self.map.get_hashed(self.hash, self.form).unwrap()
    }
}

impl<'a, K: Eq + Drop, V: Drop, H: KeyHash<K>, Q: KeyForm<K, H>> OccupiedEntryRef<'a, K, V, H, Q> {
    ghost use Rattle.collections.specs.Loans.{LendsThere};
    ghost use Rattle.collections.specs.EntryLoans.{LendsHeldRef};

    /// Returns a mutable reference to the value under the key. When the borrow ends, the key has
    /// the value last written; the other keys keep theirs. The entry stays usable.
    ///
    /// Moves no pairs. O(1) expected. std: `OccupiedEntry::get_mut`.
    pub fn get_mut(&mut self) -> &mut V
        ensures* writes_back { sem 𝓛
            (LendsHeldRef K.row V.row H.row Q.row K.PartialEq H.KeyHash Q.KeyForm self.entry
            result) }
        ensures value { get_by (Q.stands_for self.old.form) self.old.map.now ≡ Some result.now }
        ensures written { (value : V) → Holds K.eq (Q.stands_for self.old.form) self.old.map.now
            result.now value (map_with_value (Q.stands_for self.old.form) self.old.map.now value) }
    {
        let hash = self.hash;
        let form = self.form;
        self.map.value_mut_hashed(hash, form)
    }

    /// Calls a function with a mutable reference to the value under the key, and returns what the
    /// function returns.
    ///
    /// Never fails. O(1) expected.
    pub fn update<R, F: FnOnce(&mut V) -> R>(&mut self, change: F) -> R
        requires callable { (value : MutBor V) → F.pre change value }
        ensures same_map { self.new.map.ghost_name ≡ self.old.map.ghost_name }
        ensures same_form { self.new.form ≡ self.old.form }
        ensures updated { (own : K) × (before after : MutBor V) × F.post change before result after
            × Replaces K.eq self.old.map.now (Q.stands_for self.old.form) (own, before.now)
            after.now self.new.map.now }
        ensures slots { KeepsSlots self.old.map.now self.new.map.now }
    {
        match self.map.get_mut_hashed(self.hash, self.form) {
            Some(value) => change(value),
            None => unreachable!(),
        }
    }

    /// Returns a mutable reference to the value under the key, for as long as the map is borrowed.
    /// When the borrow ends, the key has the value last written; the other keys keep theirs.
    ///
    /// Moves no pairs. O(1) expected. std: `OccupiedEntry::into_mut`.
    pub fn into_mut(self) -> &'a mut V
        ensures* writes_back { sem 𝓛
            (LendsThere K.row V.row H.row K.PartialEq H.KeyHash self.entry.map
            (Q.stands_for self.entry.form) result) }
        ensures value { get_by (Q.stands_for self.entry.form) self.entry.map.now
            ≡ Some result.now }
        ensures written { (value : V) → Holds K.eq (Q.stands_for self.entry.form)
            self.entry.map.now result.now value
            (map_with_value (Q.stands_for self.entry.form) self.entry.map.now value) }
    {
        let OccupiedEntryRef { map, form, hash } = self;
        map.value_mut_hashed(hash, form)
    }

    /// Replaces the value under the key, and returns the earlier one; the map's own key stays.
    ///
    /// Never fails. O(1) expected. std: `OccupiedEntry::insert`.
    pub fn insert(&mut self, value: V) -> V
        ensures same_map { self.new.map.ghost_name ≡ self.old.map.ghost_name }
        ensures same_form { self.new.form ≡ self.old.form }
        ensures replaced { (own : K)
            × Replaces K.eq self.old.map.now (Q.stands_for self.old.form) (own, result) value
            self.new.map.now }
        ensures slots { KeepsSlots self.old.map.now self.new.map.now }
    {
        self.update(|held| mem::replace(held, value))
    }
}
