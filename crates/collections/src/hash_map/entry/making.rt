//! The call of an entry of either kind that makes a value of the key.
ghost use Rattle.std.specs.Prelude.{◌≡◌, ◌⊎◌, Err, None, Ok, false, IfErr, IfOk, MatchOption};
ghost use Rattle.std.specs.Prelude.{OnErr};
ghost use Rattle.std.specs.Borrow.{Bor, sem};
ghost use Rattle.collections.specs.Changes.{FailsToAdd};
ghost use Rattle.collections.specs.Crowding.{LacksRoom};
ghost use Rattle.collections.specs.Maps.{get};

use crate::hash_map::entry::{Entry, VacantEntry};
use bucket_table::key_hash::KeyHash;
use std::alloc::AllocFailed;

impl<'a, K: Eq + Drop, V: Drop, H: KeyHash<K>> Entry<'a, K, V, H> {
    ghost use Rattle.collections.specs.Entries.{entry_key, entry_map, is_occupied};
    ghost use Rattle.collections.specs.Loans.{LendsPut};

    /// Returns a mutable reference to the value under the key; if the map does not contain the key,
    /// it first inserts the key with the value that the function makes from it. When the borrow
    /// ends, the key has the value last written; the other keys keep theirs. If the map contains
    /// the key, the function isn't called and the call never fails.
    ///
    /// # Errors
    ///
    /// Allocation failure, as in `HashMap::insert`: the key is returned with the value made.
    ///
    /// O(1) expected, plus any resize. std: `Entry::or_insert_with_key`.
    pub fn or_insert_with_key<F: FnOnce(&K) -> V>(
        self,
        make: F,
    ) -> Result<&'a mut V, AllocFailed<(K, V)>>
        requires callable { is_occupied self ≡ false
            → (key : Bor K) → key.now ≡ entry_key self → F.pre make key }
        ensures* writes_back { sem 𝓛
            (LendsPut K.row V.row H.row K.PartialEq H.KeyHash (entry_map self.entry)
            (entry_key self.entry) result) }
        ensures value { IfOk result (λ lent.
            MatchOption (get K.eq (entry_map self.entry).now (entry_key self.entry))
            ((key : Bor K) × (key.now ≡ entry_key self.entry) × F.post make key lent.now)
            (λ held. lent.now ≡ held)) }
        ensures refused { IfErr result (λ back. (back.value.0 ≡ entry_key self.entry)
            × ((key : Bor K) × (key.now ≡ entry_key self.entry) × F.post make key back.value.1)
            × (get K.eq (entry_map self.entry).now (entry_key self.entry) ≡ None)) }
    {
        match self {
            Entry::Occupied(entry) => Ok(entry.into_mut()),
            Entry::Vacant(entry) => entry.insert_made(make),
        }
    }
}

impl<'a, K: Eq + Drop, V: Drop, H: KeyHash<K>> Entry<'a, K, V, H> {
    ghost use Rattle.collections.specs.Entries.{entry_key, entry_map, is_occupied};
    ghost use Rattle.collections.specs.Loans.{LendsTried};

    /// Returns a mutable reference to the value under the key; if the map does not contain the key,
    /// it first inserts the key with the value that the function returns. When the borrow ends, the
    /// key has the value last written; the other keys keep theirs. If the map contains the key, the
    /// function isn't called and the call never fails.
    ///
    /// # Errors
    ///
    /// The function's error; or allocation failed, and `E::from` makes the error from the key and
    /// the value made.
    ///
    /// O(1) expected, plus any resize. Like the kit's `Entry::or_try_insert_with`.
    pub fn or_try_insert_with<E: From<AllocFailed<(K, V)>>, F: FnOnce() -> Result<V, E>>(
        self,
        make: F,
    ) -> Result<&'a mut V, E>
        requires callable { is_occupied self ≡ false → F.pre make }
        ensures* writes_back { sem 𝓛
            (LendsTried K.row V.row H.row K.PartialEq H.KeyHash (entry_map self.entry)
            (entry_key self.entry) result) }
        ensures value { IfOk result (λ lent.
            MatchOption (get K.eq (entry_map self.entry).now (entry_key self.entry))
            (F.post make (Ok lent.now)) (λ held. lent.now ≡ held)) }
        ensures absent { OnErr result
            (get K.eq (entry_map self.entry).now (entry_key self.entry) ≡ None) }
        ensures refused { IfErr result (λ why. F.post make (Err why)
            ⊎ FailsToAdd (λ back e. E.from_gives back e) (λ value. F.post make (Ok value))
            (entry_key self.entry)
            (LacksRoom H.hash_of (entry_key self.entry) (entry_map self.entry).now) why) }
    {
        match self {
            Entry::Occupied(entry) => Ok(entry.into_mut()),
            Entry::Vacant(entry) => entry.insert_tried(make),
        }
    }
}

impl<'a, K: Eq + Drop, V: Drop, H: KeyHash<K>> VacantEntry<'a, K, V, H> {
    ghost use Rattle.collections.specs.Loans.{LendsAdded, LendsTriedNew};

    /// Inserts the key with the value that a function returns, and returns a mutable reference to
    /// that value; or returns the function's error, or that of a failed insertion.
    fn insert_tried<E: From<AllocFailed<(K, V)>>, F: FnOnce() -> Result<V, E>>(
        self,
        make: F,
    ) -> Result<&'a mut V, E>
        requires callable { F.pre make }
        ensures* writes_back { sem 𝓛
            (LendsTriedNew K.row V.row H.row K.PartialEq H.KeyHash self.entry.map self.entry.key
            result) }
        ensures absent { get K.eq self.entry.map.now self.entry.key ≡ None }
        ensures value { IfOk result (λ lent. F.post make (Ok lent.now)) }
        ensures refused { IfErr result (λ why. F.post make (Err why)
            ⊎ FailsToAdd (λ back e. E.from_gives back e) (λ value. F.post make (Ok value))
            self.entry.key (LacksRoom H.hash_of self.entry.key self.entry.map.now) why) }
    {
        let VacantEntry { map, key, hash } = self;
        match make() {
            Ok(value) => match map.add(hash, key, value) {
                Ok(lent) => Ok(lent),
                Err(back) => Err(E::from(back)),
            },
            Err(why) => {
                map.fact_sound();
                Err(why)
            }
        }
    }

    /// Inserts the key with the value that a function makes from it, and returns a mutable
    /// reference to that value.
    fn insert_made<F: FnOnce(&K) -> V>(self, make: F) -> Result<&'a mut V, AllocFailed<(K, V)>>
        requires callable { (key : Bor K) → key.now ≡ self.key → F.pre make key }
        ensures* writes_back { sem 𝓛
            (LendsAdded K.row V.row H.row K.PartialEq H.KeyHash self.entry.map self.entry.key
            result) }
        ensures absent { get K.eq self.entry.map.now self.entry.key ≡ None }
        ensures value { IfOk result (λ lent. (key : Bor K) × (key.now ≡ self.entry.key)
            × F.post make key lent.now) }
        ensures pair_returned { IfErr result (λ back. (back.value.0 ≡ self.entry.key)
            × ((key : Bor K) × (key.now ≡ self.entry.key) × F.post make key back.value.1)) }
    {
        let value = make(self.key());
        self.insert(value)
    }
}
