//! The call that makes an entry, and the calls of entries of either kind.
ghost use Rattle.std.specs.Prelude.{◌≡◌, None, false, IfErr, IfOk, MatchOption, unwrap_or};
ghost use Rattle.std.specs.Borrow.{MutBor, sem};
ghost use Rattle.collections.specs.Maps.{contains, get};

use crate::hash_map::HashMap;
use crate::hash_map::entry::{Entry, OccupiedEntry, VacantEntry};
use bucket_table::key_hash::KeyHash;
use std::alloc::{AllocFailed, Global};
use std::default::MadeWith;

impl<K: Eq, V, H: KeyHash<K>> HashMap<K, V, H> {
    ghost use Rattle.collections.specs.Entries.{entry_key, entry_map, is_occupied};

    /// Returns the entry of a key, which is occupied exactly if the map contains the key.
    ///
    /// Never fails, moves no pairs, and allocates nothing. O(1) expected. std: `HashMap::entry`.
    pub fn entry(&mut self, key: K) -> Entry<'_, K, V, H>
        ensures key { entry_key result ≡ key }
        ensures found { is_occupied result ≡ contains K.eq self.old key }
        ensures same_map { (entry_map result).ghost_name ≡ self.entry.ghost_name }
        ensures unchanged { (entry_map result).now ≡ self.old }
    {
        let hash = self.hasher().hash_one(&key);
        if self.get_hashed(hash, &key).is_some() {
            Entry::Occupied(OccupiedEntry {
                map: self,
                key,
                hash,
            })
        } else {
            Entry::Vacant(VacantEntry {
                map: self,
                key,
                hash,
            })
        }
    }
}

impl<'a, K: Eq, V, H: KeyHash<K>> Entry<'a, K, V, H> {
    ghost use Rattle.collections.specs.Entries.{entry_key};

    /// Returns the requested key.
    ///
    /// O(1). std: `Entry::key`.
    pub fn key(&self) -> &K
        ensures { result.now ≡ entry_key self.now }
    {
        match self {
            Entry::Occupied(entry) => entry.key(),
            Entry::Vacant(entry) => entry.key(),
        }
    }

    /// Returns the allocator of the map.
    fn allocator(&self) -> Global {
        match self {
            Entry::Occupied(entry) => entry.map.allocator(),
            Entry::Vacant(entry) => entry.map.allocator(),
        }
    }
}

impl<'a, K: Eq + Drop, V: Drop, H: KeyHash<K>> Entry<'a, K, V, H> {
    ghost use Rattle.collections.specs.Entries.{Modifies, entry_key, entry_map, is_occupied};
    ghost use Rattle.collections.specs.Loans.{LendsPut};

    /// Calls a function with a mutable reference to the value under the key, if the map contains
    /// the key. Returns the entry.
    ///
    /// Never fails. O(1) expected. std: `Entry::and_modify`.
    pub fn and_modify<F: FnOnce(&mut V)>(self, change: F) -> Entry<'a, K, V, H>
        requires callable { (value : MutBor V) → F.pre change value }
        ensures same_map { (entry_map result).ghost_name ≡ (entry_map self.entry).ghost_name }
        ensures same_key { entry_key result ≡ entry_key self.entry }
        ensures same_kind { is_occupied result ≡ is_occupied self.entry }
        ensures modified { Modifies K.eq (λ before after. F.post change before tt after) self.entry
            (entry_map result).now }
    {
        match self {
            Entry::Occupied(mut entry) => {
                entry.update(change);
                Entry::Occupied(entry)
            }
            Entry::Vacant(entry) => Entry::Vacant(entry),
        }
    }

    /// Returns a mutable reference to the value under the key; if the map does not contain the key,
    /// it first inserts the key with the default. When the borrow ends, the key has the value last
    /// written; the other keys keep theirs. If the map contains the key, the call never fails.
    ///
    /// # Errors
    ///
    /// Allocation failure, as in `HashMap::insert`: the pair is returned.
    ///
    /// O(1) expected, plus any resize. std: `Entry::or_insert`.
    pub fn or_insert(self, default: V) -> Result<&'a mut V, AllocFailed<(K, V)>>
        ensures* writes_back { sem 𝓛
            (LendsPut K.row V.row H.row K.PartialEq H.KeyHash (entry_map self.entry)
            (entry_key self.entry) result) }
        ensures value { IfOk result (λ lent. lent.now
            ≡ unwrap_or (get K.eq (entry_map self.entry).now (entry_key self.entry)) default) }
        ensures refused { IfErr result (λ back. (back.value ≡ (entry_key self.entry, default))
            × (get K.eq (entry_map self.entry).now (entry_key self.entry) ≡ None)) }
    {
        match self {
            Entry::Occupied(entry) => Ok(entry.into_mut()),
            Entry::Vacant(entry) => entry.insert(default),
        }
    }

    /// Returns a mutable reference to the value under the key; if the map does not contain the key,
    /// it first inserts the key with the value that the function returns. When the borrow ends, the
    /// key has the value last written; the other keys keep theirs. If the map contains the key, the
    /// function isn't called and the call never fails.
    ///
    /// # Errors
    ///
    /// Allocation failure, as in `HashMap::insert`: the key is returned with the value made.
    ///
    /// O(1) expected, plus any resize. std: `Entry::or_insert_with`.
    pub fn or_insert_with<F: FnOnce() -> V>(self, make: F) -> Result<&'a mut V, AllocFailed<(K, V)>>
        requires callable { is_occupied self ≡ false → F.pre make }
        ensures* writes_back { sem 𝓛
            (LendsPut K.row V.row H.row K.PartialEq H.KeyHash (entry_map self.entry)
            (entry_key self.entry) result) }
        ensures value { IfOk result (λ lent.
            MatchOption (get K.eq (entry_map self.entry).now (entry_key self.entry))
            (F.post make lent.now) (λ held. lent.now ≡ held)) }
        ensures refused { IfErr result (λ back. (back.value.0 ≡ entry_key self.entry)
            × F.post make back.value.1
            × (get K.eq (entry_map self.entry).now (entry_key self.entry) ≡ None)) }
    {
        match self {
            Entry::Occupied(entry) => Ok(entry.into_mut()),
            Entry::Vacant(entry) => entry.insert(make()),
        }
    }

    /// Returns a mutable reference to the value under the key; if the map does not contain the key,
    /// it first inserts the key with the default value. The default of a collection or a `String`
    /// is the empty one, whose memory comes from the map's allocator. When the borrow ends, the key
    /// has the value last written; the other keys keep theirs. If the map contains the key, the
    /// call never fails.
    ///
    /// # Errors
    ///
    /// Allocation failure, as in `HashMap::insert`: the key is returned with the default.
    ///
    /// O(1) expected, plus any resize. std: `Entry::or_default`.
    pub fn or_default(self) -> Result<&'a mut V, AllocFailed<(K, V)>>
    where
        V: MadeWith<Global>,
        ensures* writes_back { sem 𝓛
            (LendsPut K.row V.row H.row K.PartialEq H.KeyHash (entry_map self.entry)
            (entry_key self.entry) result) }
        ensures value { IfOk result (λ lent.
            MatchOption (get K.eq (entry_map self.entry).now (entry_key self.entry))
            (V.is_made_with lent.now) (λ held. lent.now ≡ held)) }
        ensures refused { IfErr result (λ back. (back.value.0 ≡ entry_key self.entry)
            × V.is_made_with back.value.1
            × (get K.eq (entry_map self.entry).now (entry_key self.entry) ≡ None)) }
    {
        let alloc = self.allocator();
        self.or_insert_with(|| V::made_with(alloc))
    }
}
