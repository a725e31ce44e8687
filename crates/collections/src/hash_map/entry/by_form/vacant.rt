//! The call of a vacant entry by a form.
ghost use Rattle.std.specs.Prelude.{◌≡◌, IfErr, IfOk};
ghost use Rattle.std.specs.Borrow.{sem};

use crate::hash_map::entry::by_form::VacantEntryRef;
use crate::key_form::{KeyForm, ToKey};
use bucket_table::key_hash::KeyHash;
use std::alloc::{AllocFailed, Global};

impl<'a, K: Eq + Drop, V: Drop, H: KeyHash<K>, Q: KeyForm<K, H>> VacantEntryRef<'a, K, V, H, Q> {
    ghost use Rattle.collections.specs.Loans.{LendsMatched};

    /// Inserts a key that the form stands for, with a value, and returns a mutable reference to
    /// that value. When the borrow ends, the map has one more pair: the key with the value last
    /// written. The key isn't hashed again.
    ///
    /// # Errors
    ///
    /// Allocation failure, as in `HashMap::insert`, or the form doesn't stand for the key: the pair
    /// is returned.
    ///
    /// O(1) expected, plus any resize. hashbrown: `VacantEntryRef::insert_with_key`.
    pub fn insert_with_key(self, key: K, value: V) -> Result<&'a mut V, AllocFailed<(K, V)>>
        ensures* writes_back { sem 𝓛
            (LendsMatched K.row V.row H.row K.PartialEq H.KeyHash self.entry.map
            (Q.stands_for self.entry.form) key result) }
        ensures value { IfOk result (λ lent. lent.now ≡ value) }
        ensures pair_returned { IfErr result (λ back. back.value ≡ (key, value)) }
    {
        let VacantEntryRef { map, form, hash } = self;
        if !form.stands_for(&key) {
            map.fact_sound();
            return Err(AllocFailed {
                value: (key, value),
            });
        }
        map.add(hash, key, value)
    }
}

impl<'a, K: Eq + Drop, V: Drop, H: KeyHash<K>, Q: ToKey<K, H>> VacantEntryRef<'a, K, V, H, Q> {
    ghost use Rattle.collections.specs.Loans.{LendsMade};

    /// Makes a key from the form, inserts it with a value, and returns a mutable reference to that
    /// value. When the borrow ends, the map has one more pair: a key that the form stands for, with
    /// the value last written. The key isn't hashed again, and takes its memory from `alloc`.
    ///
    /// # Errors
    ///
    /// No key could be made, or allocation failed, as in `HashMap::insert`: the value is returned.
    ///
    /// O(1) expected, plus making the key and any resize. hashbrown: `VacantEntryRef::insert`.
    pub fn insert(self, value: V, alloc: Global) -> Result<&'a mut V, AllocFailed<V>>
        ensures* writes_back { sem 𝓛
            (LendsMade K.row V.row H.row K.PartialEq H.KeyHash self.entry.map
            (Q.may_lack self.entry.form) (Q.stands_for self.entry.form) result) }
        ensures value { IfOk result (λ lent. lent.now ≡ value) }
        ensures value_returned { IfErr result (λ back. back.value ≡ value) }
    {
        let VacantEntryRef { map, form, hash } = self;
        let Ok(key) = form.to_key(alloc) else {
            map.fact_sound();
            return Err(AllocFailed { value });
        };
        match map.add(hash, key, value) {
            Ok(lent) => Ok(lent),
            Err(back) => Err(AllocFailed {
                value: back.value.1,
            }),
        }
    }
}
