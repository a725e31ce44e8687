//! The call that makes an entry by a form, and the calls of such entries of either kind.
ghost use Rattle.std.specs.Prelude.{◌≡◌, false, None, IfErr, IfOk, MatchOption, unwrap_or};
ghost use Rattle.std.specs.Borrow.{MutBor, sem};
ghost use Rattle.collections.specs.Maps.{contains_by, get_by};

use crate::hash_map::HashMap;
use crate::hash_map::entry::by_form::{EntryRef, OccupiedEntryRef, VacantEntryRef};
use crate::key_form::{KeyForm, ToKey};
use bucket_table::key_hash::KeyHash;
use std::alloc::{AllocFailed, Global};
use std::default::MadeWith;

impl<K: Eq, V, H: KeyHash<K>> HashMap<K, V, H> {
    ghost use Rattle.collections.specs.EntryRefs.{is_ref_occupied, ref_form, ref_map};

    /// Returns the entry of the keys that a form stands for, which is occupied exactly if the map
    /// contains one of them. No key is made.
    ///
    /// Never fails, moves no pairs, and allocates nothing. O(1) expected. hashbrown:
    /// `HashMap::entry_ref`.
    pub fn entry_ref<Q: KeyForm<K, H>>(&mut self, key: Q) -> EntryRef<'_, K, V, H, Q>
        ensures form { ref_form result ≡ key }
        ensures found { is_ref_occupied result ≡ contains_by (Q.stands_for key) self.old }
        ensures same_map { (ref_map result).ghost_name ≡ self.entry.ghost_name }
        ensures unchanged { (ref_map result).now ≡ self.old }
    {
        let hash = key.hash_by(self.hasher());
        if self.get_hashed(hash, key).is_some() {
            EntryRef::Occupied(OccupiedEntryRef {
                map: self,
                form: key,
                hash,
            })
        } else {
            EntryRef::Vacant(VacantEntryRef {
                map: self,
                form: key,
                hash,
            })
        }
    }
}

impl<'a, K: Eq + Drop, V: Drop, H: KeyHash<K>, Q: KeyForm<K, H>> EntryRef<'a, K, V, H, Q> {
    ghost use Rattle.collections.specs.EntryRefs.{ModifiesRef, is_ref_occupied, ref_form, ref_map};

    /// Calls a function with a mutable reference to the value under the key, if the map contains
    /// one of the keys. Returns the entry.
    ///
    /// Never fails. O(1) expected. hashbrown: `EntryRef::and_modify`.
    pub fn and_modify<F: FnOnce(&mut V)>(self, change: F) -> EntryRef<'a, K, V, H, Q>
        requires callable { (value : MutBor V) → F.pre change value }
        ensures same_map { (ref_map result).ghost_name ≡ (ref_map self.entry).ghost_name }
        ensures same_form { ref_form result ≡ ref_form self.entry }
        ensures same_kind { is_ref_occupied result ≡ is_ref_occupied self.entry }
        ensures modified { ModifiesRef K.eq Q.stands_for
            (λ before after. F.post change before tt after) self.entry (ref_map result).now }
    {
        match self {
            EntryRef::Occupied(mut entry) => {
                entry.update(change);
                EntryRef::Occupied(entry)
            }
            EntryRef::Vacant(entry) => EntryRef::Vacant(entry),
        }
    }
}

impl<'a, K: Eq + Drop, V: Drop, H: KeyHash<K>, Q: ToKey<K, H>> EntryRef<'a, K, V, H, Q> {
    ghost use Rattle.collections.specs.EntryRefs.{is_ref_occupied, ref_form, ref_map};
    ghost use Rattle.collections.specs.Loans.{LendsPutMatched};

    /// Returns a mutable reference to the value under the key; if the map contains none of the
    /// keys, it first makes one from the form and inserts it with the default. When the borrow
    /// ends, the key has the value last written; the other keys keep theirs. If the map contains
    /// one, no key is made and the call never fails.
    ///
    /// # Errors
    ///
    /// No key could be made, or allocation failed, as in `HashMap::insert`: the default is
    /// returned.
    ///
    /// O(1) expected, plus making the key and any resize. hashbrown: `EntryRef::or_insert`.
    pub fn or_insert(self, default: V, alloc: Global) -> Result<&'a mut V, AllocFailed<V>>
        ensures* writes_back { sem 𝓛
            (LendsPutMatched K.row V.row H.row K.PartialEq H.KeyHash (ref_map self.entry)
            (Q.may_lack (ref_form self.entry)) (Q.stands_for (ref_form self.entry)) result) }
        ensures value { IfOk result (λ lent. lent.now ≡ unwrap_or
            (get_by (Q.stands_for (ref_form self.entry)) (ref_map self.entry).now) default) }
        ensures refused { IfErr result (λ back. (back.value ≡ default)
            × (get_by (Q.stands_for (ref_form self.entry)) (ref_map self.entry).now ≡ None)) }
    {
        match self {
            EntryRef::Occupied(entry) => Ok(entry.into_mut()),
            EntryRef::Vacant(entry) => entry.insert(default, alloc),
        }
    }

    /// Returns a mutable reference to the value under the key; if the map contains none of the
    /// keys, it first makes one from the form and inserts it with the value that the function
    /// returns. When the borrow ends, the key has the value last written; the other keys keep
    /// theirs. If the map contains one, no key is made, the function isn't called, and the call
    /// never fails.
    ///
    /// # Errors
    ///
    /// No key could be made, or allocation failed, as in `HashMap::insert`: the value made is
    /// returned.
    ///
    /// O(1) expected, plus making the key and any resize. hashbrown: `EntryRef::or_insert_with`.
    pub fn or_insert_with<F: FnOnce() -> V>(
        self,
        make: F,
        alloc: Global,
    ) -> Result<&'a mut V, AllocFailed<V>>
        requires callable { is_ref_occupied self ≡ false → F.pre make }
        ensures* writes_back { sem 𝓛
            (LendsPutMatched K.row V.row H.row K.PartialEq H.KeyHash (ref_map self.entry)
            (Q.may_lack (ref_form self.entry)) (Q.stands_for (ref_form self.entry)) result) }
        ensures value { IfOk result (λ lent. MatchOption
            (get_by (Q.stands_for (ref_form self.entry)) (ref_map self.entry).now)
            (F.post make lent.now) (λ held. lent.now ≡ held)) }
        ensures refused { IfErr result (λ back. F.post make back.value
            × (get_by (Q.stands_for (ref_form self.entry)) (ref_map self.entry).now ≡ None)) }
    {
        match self {
            EntryRef::Occupied(entry) => Ok(entry.into_mut()),
            EntryRef::Vacant(entry) => entry.insert(make(), alloc),
        }
    }

    /// Returns a mutable reference to the value under the key; if the map contains none of the
    /// keys, it first makes one from the form and inserts it with the default value. The default of
    /// a collection or a `String` is the empty one, whose memory comes from the allocator. When the
    /// borrow ends, the key has the value last written; the other keys keep theirs. If the map
    /// contains one, no key is made and the call never fails.
    ///
    /// # Errors
    ///
    /// No key could be made, or allocation failed, as in `HashMap::insert`: the default is
    /// returned.
    ///
    /// O(1) expected, plus making the key and any resize. hashbrown: `EntryRef::or_default`.
    pub fn or_default(self, alloc: Global) -> Result<&'a mut V, AllocFailed<V>>
    where
        V: MadeWith<Global>,
        ensures* writes_back { sem 𝓛
            (LendsPutMatched K.row V.row H.row K.PartialEq H.KeyHash (ref_map self.entry)
            (Q.may_lack (ref_form self.entry)) (Q.stands_for (ref_form self.entry)) result) }
        ensures value { IfOk result (λ lent. MatchOption
            (get_by (Q.stands_for (ref_form self.entry)) (ref_map self.entry).now)
            (V.is_made_with lent.now) (λ held. lent.now ≡ held)) }
        ensures refused { IfErr result (λ back. V.is_made_with back.value
            × (get_by (Q.stands_for (ref_form self.entry)) (ref_map self.entry).now ≡ None)) }
    {
        self.or_insert_with(|| V::made_with(alloc), alloc)
    }
}
