//! Calls of std's `HashSet` that return a key of the set, or a `bool`.
ghost use Rattle.std.specs.Prelude.{◌≡◌, IfSome, IsTrue, OnErr, is_some};
ghost use Rattle.std.specs.Option.{option_copied};
ghost use Rattle.collections.specs.Changes.{TakesOut};
ghost use Rattle.collections.specs.Crowding.{LacksRoom};
ghost use Rattle.collections.specs.Slots.{GrowsSlots, LosesSlots};
ghost use Rattle.collections.specs.Maps.{contains_by};
ghost use Rattle.collections.specs.SetChanges.{SetAdds, SetReplaces};
ghost use Rattle.collections.specs.StoredKeys.{key_by};

use crate::hash_map::NotInserted;
use crate::hash_set::HashSet;
use crate::key_form::KeyForm;
use bucket_table::key_hash::KeyHash;
use std::alloc::AllocFailed;

impl<K: Eq, H: KeyHash<K>> HashSet<K, H> {
    /// Returns the set's own key that matches `key`, a key or a form of one; `None` if absent.
    ///
    /// Moves no pairs and allocates nothing. O(1) expected. std: `HashSet::get`.
    #[inline(always)]
    pub fn get<Q: KeyForm<K, H>>(&self, key: Q) -> Option<&K>
        ensures key { option_copied result ≡ key_by (Q.stands_for key) self.now }
        ensures same_key { IfSome result (λ own. IsTrue (Q.stands_for key own.now)) }
        ensures found { is_some result ≡ contains_by (Q.stands_for key) self.now }
    {
        match self.map.get_key_value(key) {
            Some((own, _)) => Some(own),
            None => None,
        }
    }
}

impl<K: Eq + Drop, H: KeyHash<K>> HashSet<K, H> {
    /// Inserts a key if the set contains no equal one, and returns whether it was inserted. If the
    /// set contains an equal key, that one stays and the other is dropped.
    ///
    /// # Errors
    ///
    /// Allocation failure: the set contains no equal key, and the key is returned.
    ///
    /// O(1) expected, plus any resize. std: `HashSet::insert`.
    #[inline(always)]
    pub fn insert(&mut self, key: K) -> Result<bool, AllocFailed<K>>
        ensures set { SetAdds K.eq key self.old result self.new }
        ensures slots { GrowsSlots H.hash_of key self.old self.new }
        ensures memory { OnErr result (LacksRoom H.hash_of key self.old) }
    {
        match self.map.insert(key, ()) {
            Ok(()) => Ok(true),
            Err(NotInserted::Present(_, ())) => Ok(false),
            Err(NotInserted::Memory(value, ())) => Err(AllocFailed { value }),
        }
    }

    /// Drops the key that matches `key`, a key or a form of one, and returns whether there was one.
    ///
    /// Never fails. O(1) expected, plus any resize. std: `HashSet::remove`.
    #[inline(always)]
    pub fn remove<Q: KeyForm<K, H>>(&mut self, key: Q) -> bool
        ensures set { TakesOut K.eq (Q.stands_for key) self.old result self.new }
        ensures slots { LosesSlots result self.old self.new }
    {
        let Some(pair) = self.map.remove(key) else {
            return false;
        };
        drop(pair);
        true
    }

    /// Inserts a key in place of the equal one, and returns that one, or `None` if there was none.
    /// If the set contains an equal key, the call never fails.
    ///
    /// # Errors
    ///
    /// Allocation failure, as in `insert`: the set contains no equal key, and the key is returned.
    ///
    /// O(1) expected, plus any resize. std: `HashSet::replace`.
    pub fn replace(&mut self, key: K) -> Result<Option<K>, AllocFailed<K>>
        ensures set { SetReplaces K.eq key self.old result self.new }
        ensures slots { GrowsSlots H.hash_of key self.old self.new }
        ensures memory { OnErr result (LacksRoom H.hash_of key self.old) }
    {
        if !self.contains(&key) {
            return match self.insert(key) {
                Ok(_added) => Ok(None),
                Err(back) => Err(back),
            };
        }
        let Ok(own) = self.map.swap_key(key) else {
            unreachable!()
        };
        Ok(Some(own))
    }
}
