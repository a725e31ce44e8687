//! The keys of an iterator, inserted into a set or made a set. Allocation may fail.
ghost use Rattle.std.specs.Prelude.{map, IfOk};
ghost use Rattle.std.specs.Iterator.{IsFinite, size};
ghost use Rattle.collections.specs.Collecting.{PutsKeys, PutsKeysFrom, empty_map};

use crate::default_hash::DefaultHash;
use crate::hash_set::HashSet;
use bucket_table::key_hash::KeyHash;
use std::alloc::{AllocError, AllocFailed, Global};
use std::hash::Hash;
use std::iter::{Extend, FromIterator, IntoIterator};

impl<K: Eq + Drop, H: KeyHash<K>> HashSet<K, H> {
    /// Inserts the keys of an iterator, one after the other: if the set contains an equal key, that
    /// one stays and the other is dropped.
    ///
    /// # Errors
    ///
    /// Allocation failure: the key that wasn't inserted is returned, those before it are in the
    /// set, and those after it are still in the iterator. The set contains no key equal to it.
    ///
    /// It first reserves room for as many keys as the iterator has at least, if that can be
    /// allocated; a set that isn't empty reserves room for half of them, rounded up, since it may
    /// contain them already. A loop of `insert` reserves none, and moves a few keys a call.
    ///
    /// O(keys) expected, plus any resizes. Like std's `HashSet::extend`, but nothing is lost.
    pub fn try_extend<I: Iterator<Item = K>>(&mut self, keys: &mut I) -> Result<(), AllocFailed<K>>
        requires can { I.can_next keys.old }
        requires finite { IsFinite (I.remaining keys.old) }
        ensures { PutsKeysFrom K.eq H.hash_of I.next_gives (size (I.remaining keys.old)) keys.old
            self.old result self.new keys.new }
    {
        self.reserve_for(keys.size_hint().0);
        while let Some(key) = keys.next() {
            match self.insert(key) {
                Ok(_added) => {}
                Err(back) => return Err(back),
            }
        }
        Ok(())
    }
}

/// Reserves room and inserts the keys, as `try_extend` does.
///
/// If allocation fails, the key that wasn't inserted is dropped, and so are those after it;
/// `try_extend` loses none.
impl<K: Eq + Drop, H: KeyHash<K>> Extend<K> for HashSet<K, H> {
    ghost extend_gives = { λ old keys new. PutsKeys K.eq old keys new };

    fn extend<U: IntoIterator<Item = K>>(&mut self, iter: U) -> Result<(), AllocError> {
        let mut keys = iter.into_iter();
        match self.try_extend(&mut keys) {
            Ok(()) => Ok(()),
            Err(_) => Err(AllocError),
        }
    }
}

/// Inserts copies of the keys that an iterator borrows, like keys by value, and reserves room
/// first.
impl<'a, K: Eq + Copy + 'a, H: KeyHash<K>> Extend<&'a K> for HashSet<K, H> {
    ghost extend_gives = { λ old keys new. PutsKeys K.eq old (map (λ key. key.now) keys) new };

    fn extend<U: IntoIterator<Item = &'a K>>(&mut self, iter: U) -> Result<(), AllocError> {
        let mut keys = iter.into_iter();
        self.reserve_for(keys.size_hint().0);
        while let Some(key) = keys.next() {
            match self.insert(*key) {
                Ok(_added) => {}
                Err(_) => return Err(AllocError),
            }
        }
        Ok(())
    }
}

/// `collect(alloc)` makes a set of the keys of an iterator, inserted one after the other: of equal
/// keys the first stays.
///
/// If allocation fails, the keys are dropped; `try_extend` of a new set loses none.
impl<K: Eq + Hash + Drop> FromIterator<K> for HashSet<K, DefaultHash> {
    type Alloc = Global;

    ghost from_iter_gives = { λ keys set. PutsKeys K.eq (empty_map set.hasher) keys set };

    fn from_iter<U: IntoIterator<Item = K>>(
        alloc: Global,
        iter: U,
    ) -> Result<HashSet<K, DefaultHash>, AllocError> {
        let mut keys = iter.into_iter();
        let mut set = HashSet::new(alloc);
        match set.try_extend(&mut keys) {
            Ok(()) => Ok(set),
            Err(_) => Err(AllocError),
        }
    }
}

impl<K: Eq + Hash + Drop> HashSet<K, DefaultHash> {
    /// Returns a set of the keys of an array, inserted one after the other: of equal keys the first
    /// stays.
    ///
    /// # Errors
    ///
    /// Allocation failure; the keys are dropped.
    ///
    /// O(keys) expected. std: `From<[K; N]>` of `HashSet`.
    pub fn from_array<const N: usize>(alloc: Global, keys: [K; N]) -> Result<Self, AllocError>
        ensures { IfOk result (λ set. PutsKeys K.eq (empty_map set.hasher) keys set) }
    {
        match Vec::from_array(alloc, keys) {
            Ok(all) => HashSet::from_iter(alloc, all),
            Err(_) => Err(AllocError),
        }
    }
}
