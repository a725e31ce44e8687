//! The calls of a vacant entry.
ghost use Rattle.std.specs.Prelude.{◌≡◌, None, IfErr, IfOk, OnOk};
ghost use Rattle.std.specs.Borrow.{sem};
ghost use Rattle.std.specs.Map.{lookup};
ghost use Rattle.bucket_table.specs.Map.Finding.{Finds};
ghost use Rattle.bucket_table.specs.Map.LookingUp.{IsAbsent};
ghost use Rattle.bucket_table.specs.Views.ArraysView.{pairs_of};
ghost use Rattle.bucket_table.specs.declared.hash_table.ResizeRule.TheVariants.{Counted};
ghost use Rattle.collections.specs.Maps.{get};
ghost use Rattle.collections.specs.Room.{MapFits};

use crate::hash_map::HashMap;
use crate::hash_map::entry::VacantEntry;
use crate::homes::fact_homes;
use bucket_slots::bucket::MAP;
use bucket_table::hash_table::{HashTable, ResizeRule, Side, Spot};
use bucket_table::key_hash::KeyHash;
use std::alloc::{AllocError, AllocFailed};

impl<'a, K: Eq, V, H: KeyHash<K>> VacantEntry<'a, K, V, H> {
    /// Returns the requested key.
    ///
    /// O(1). std: `VacantEntry::key`.
    pub fn key(&self) -> &K
        ensures { result.now ≡ self.now.key }
    {
        &self.key
    }

    /// Returns the key; the map is unchanged.
    ///
    /// O(1). std: `VacantEntry::into_key`.
    pub fn into_key(self) -> K
        ensures key { result ≡ self.entry.key }
        ensures unchanged { self.exit.0.now ≡ self.entry.map.now }
    {
        let VacantEntry {
            map: _map,
            key,
            hash: _hash,
        } = self;
        key
    }
}

impl<'a, K: Eq + Drop, V: Drop, H: KeyHash<K>> VacantEntry<'a, K, V, H> {
    ghost use Rattle.collections.specs.Loans.{LendsAdded};

    /// Inserts the key with a value, and returns a mutable reference to that value. When the borrow
    /// ends, the map has one more pair: the key with the value last written.
    ///
    /// # Errors
    ///
    /// Allocation failure, as in `HashMap::insert`: the pair is returned.
    ///
    /// O(1) expected, plus any resize. std: `VacantEntry::insert`.
    pub fn insert(self, value: V) -> Result<&'a mut V, AllocFailed<(K, V)>>
        ensures* writes_back { sem 𝓛
            (LendsAdded K.row V.row H.row K.PartialEq H.KeyHash self.entry.map self.entry.key
            result) }
        ensures value { IfOk result (λ lent. lent.now ≡ value) }
        ensures pair_returned { IfErr result (λ back. back.value ≡ (self.entry.key, value)) }
    {
        let VacantEntry { map, key, hash } = self;
        map.add(hash, key, value)
    }
}

impl<K: Eq + Drop, V: Drop, H: KeyHash<K>> HashMap<K, V, H> {
    ghost use Rattle.collections.specs.Loans.{LendsAdded};

    /// Inserts a pair whose key has this hash, and isn't in the map, and returns a mutable
    /// reference to its value.
    pub(super) fn add(&mut self, hash: u64, key: K, value: V) -> Result<&mut V, AllocFailed<(K, V)>>
        requires hashed { hash ≡ H.hash_of self.old.hasher key }
        requires absent { get K.eq self.old key ≡ None }
        ensures* writes_back { sem 𝓛
            (LendsAdded K.row V.row H.row K.PartialEq H.KeyHash self.entry key result) }
        ensures value { IfOk result (λ lent. lent.now ≡ value) }
        ensures pair_returned { IfErr result (λ back. back.value ≡ (key, value)) }
    {
        self.room.fact_fits();
        self.table.fact_sound();
        let Ok((side, index)) = find_absent(&mut self.table, hash, &key) else {
            fact_homes(&self.table, hash);
            self.table.fact_sound();
            return Err(AllocFailed {
                value: (key, value),
            });
        };
        let at = match self.table.lock(side, index).insert(hash, (key, value), &()) {
            Ok(at) => at,
            Err(value) => {
                fact_homes(&self.table, hash);
                self.table.fact_sound();
                return Err(AllocFailed { value });
            }
        };
        self.table.fact_sound();
        Ok(self.table.entry_mut_at(&Spot { side, index, at }).1)
    }
}

/// Finds the bucket for a pair whose key has this hash, and isn't in the table.
#[inline(always)]
fn find_absent<K: Eq + Drop, V: Drop, H: KeyHash<K>>(
    table: &mut HashTable<K, V, H, (), MAP>,
    hash: u64,
    key: &K,
) -> Result<(Side, usize), AllocError>
    requires fits { MapFits K.row V.row H.row K.PartialEq H.KeyHash }
    requires hashed { hash ≡ H.hash_of table.old.hasher key.now }
    requires absent { lookup (K.eq key.now) (pairs_of table.old.arrays) ≡ None }
    ensures found { Finds Counted MAP hash table.old result table.new }
    ensures hashed { hash ≡ H.hash_of table.new.hasher key.now }
    ensures absent { OnOk result
        (IsAbsent (λ own. K.eq own key.now) (pairs_of table.new.arrays)) }
{
    table.find(hash, ResizeRule::Counted)
}
