//! The pairs of an iterator, inserted into a map or made a map. Allocation may fail.
ghost use Rattle.std.specs.Iterator.{IsFinite, size};
ghost use Rattle.collections.specs.Collecting.{PutsAll, PutsFrom, copied_pairs, empty_map};
ghost use Rattle.std.specs.Prelude.{IfOk};

use crate::default_hash::DefaultHash;
use crate::hash_map::HashMap;
use bucket_table::key_hash::KeyHash;
use std::alloc::{AllocError, AllocFailed, Global};
use std::hash::Hash;
use std::iter::{Extend, FromIterator, IntoIterator};

impl<K: Eq + Drop, V: Drop, H: KeyHash<K>> HashMap<K, V, H> {
    /// Upserts the pairs of an iterator, one after the other: if the map contains a pair's key, its
    /// value is replaced, and the earlier one dropped.
    ///
    /// # Errors
    ///
    /// Allocation failure: the pair that wasn't inserted is returned, those before it are in the
    /// map, and those after it are still in the iterator. The map contains no key equal to its key.
    ///
    /// It first reserves room for as many pairs as the iterator has at least, if that can be
    /// allocated; a map that isn't empty reserves room for half of them, rounded up, since it may
    /// contain their keys already. A loop of `upsert` reserves none, and moves a few pairs a call.
    ///
    /// O(pairs) expected, plus any resizes. Like std's `HashMap::extend`, but nothing is lost.
    pub fn try_extend<I: Iterator<Item = (K, V)>>(
        &mut self,
        pairs: &mut I,
    ) -> Result<(), AllocFailed<(K, V)>>
        requires can { I.can_next pairs.old }
        requires finite { IsFinite (I.remaining pairs.old) }
        ensures { PutsFrom K.eq H.hash_of I.next_gives (size (I.remaining pairs.old)) pairs.old
            self.old result self.new pairs.new }
    {
        self.reserve_for(pairs.size_hint().0);
        while let Some(pair) = pairs.next() {
            let (key, value) = pair;
            match self.upsert(key, value) {
                Ok(earlier) => drop(earlier),
                Err(back) => return Err(back),
            }
        }
        Ok(())
    }
}

/// Reserves room and inserts the pairs, as `try_extend` does.
///
/// If allocation fails, the pair that wasn't inserted is dropped, and so are those after it;
/// `try_extend` loses none.
impl<K: Eq + Drop, V: Drop, H: KeyHash<K>> Extend<(K, V)> for HashMap<K, V, H> {
    ghost extend_gives = { λ old pairs new. PutsAll K.eq old pairs new };

    fn extend<U: IntoIterator<Item = (K, V)>>(&mut self, iter: U) -> Result<(), AllocError> {
        let mut pairs = iter.into_iter();
        match self.try_extend(&mut pairs) {
            Ok(()) => Ok(()),
            Err(_) => Err(AllocError),
        }
    }
}

/// Inserts copies of the pairs that an iterator borrows, like pairs by value, and reserves room
/// first.
impl<'a, K: Eq + Copy + 'a, V: Copy + 'a, H: KeyHash<K>> Extend<(&'a K, &'a V)>
    for HashMap<K, V, H> {
    ghost extend_gives = { λ old pairs new. PutsAll K.eq old (copied_pairs pairs) new };

    fn extend<U: IntoIterator<Item = (&'a K, &'a V)>>(
        &mut self,
        iter: U,
    ) -> Result<(), AllocError> {
        let mut pairs = iter.into_iter();
        self.reserve_for(pairs.size_hint().0);
        while let Some(pair) = pairs.next() {
            let (key, value) = pair;
            match self.upsert(*key, *value) {
                Ok(_earlier) => {}
                Err(_) => return Err(AllocError),
            }
        }
        Ok(())
    }
}

/// `collect(alloc)` makes a map of the pairs of an iterator, inserted one after the other: each key
/// has the last of its values.
///
/// If allocation fails, the pairs are dropped; `try_extend` of a new map loses none.
impl<K: Eq + Hash + Drop, V: Drop> FromIterator<(K, V)> for HashMap<K, V, DefaultHash> {
    type Alloc = Global;

    ghost from_iter_gives = { λ pairs map. PutsAll K.eq (empty_map map.hasher) pairs map };

    fn from_iter<U: IntoIterator<Item = (K, V)>>(
        alloc: Global,
        iter: U,
    ) -> Result<HashMap<K, V, DefaultHash>, AllocError> {
        let mut pairs = iter.into_iter();
        let mut map = HashMap::new(alloc);
        match map.try_extend(&mut pairs) {
            Ok(()) => Ok(map),
            Err(_) => Err(AllocError),
        }
    }
}

impl<K: Eq + Hash + Drop, V: Drop> HashMap<K, V, DefaultHash> {
    /// Returns a map of the pairs of an array, inserted one after the other: each key has the last
    /// of its values.
    ///
    /// # Errors
    ///
    /// Allocation failure; the pairs are dropped.
    ///
    /// O(pairs) expected. std: `From<[(K, V); N]>` of `HashMap`.
    pub fn from_array<const N: usize>(alloc: Global, pairs: [(K, V); N]) -> Result<Self, AllocError>
        ensures { IfOk result (λ map. PutsAll K.eq (empty_map map.hasher) pairs map) }
    {
        match Vec::from_array(alloc, pairs) {
            Ok(all) => HashMap::from_iter(alloc, all),
            Err(_) => Err(AllocError),
        }
    }
}
