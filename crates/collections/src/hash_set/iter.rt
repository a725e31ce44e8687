//! Iterators over a set's keys, by reference and by value, and the iterator that removes the keys
//! that a function picks.
ghost use Rattle.std.specs.Prelude.{◌≡◌, [], length};
ghost use Rattle.std.specs.Iterator.{YieldsFirstRef, item_count, YieldsFirst, at_most};
ghost use Rattle.std.specs.Map.{keys_of};
ghost use Rattle.collections.specs.Maps.{IsUnique, map_of};
ghost use Rattle.std.specs.Fn.{CalledAt};
ghost use Rattle.bucket_table.specs.Views.ArraysView.{IsOneMap};
ghost use Rattle.bucket_table.specs.Walking.Extracting.{Extracts};
ghost use Rattle.collections.specs.Extracting.{AsksKey};

use crate::calling::fact_asks;
use crate::draining::DrainKeys;
use crate::extracting::{Extraction, PutBack};
use crate::hash_map::{HashMap, IntoKeys, Keys};
use crate::hash_set::HashSet;
use bucket_slots::bucket::MAP;
use bucket_table::hash_table::TableExtract;
use bucket_table::key_hash::KeyHash;
use std::alloc::AllocError;
use std::iter::{FusedIterator, IntoIterator};
use std::marker::Model;

/// An iterator over the keys of a set. std: `hash_set::Iter`.
#[derive(Drop)]
pub struct Iter<'a, K> {
    inner: Keys<'a, K, ()>,
}

impl<'a, K> Model for Iter<'a, K> {
    ghost use Rattle.std.specs.Prelude.{List};

    ghost Value = { List K };

    ghost view = { λ keys. keys.inner };
}

impl<'a, K> Iterator for Iter<'a, K> {
    type Item = &'a K;

    ghost next_gives = { YieldsFirstRef (λ left. left) };

    ghost remaining = { item_count (λ left. left) };

    fn next(&mut self) -> Option<&'a K> {
        self.inner.next()
    }

    /// The size hint of a map's keys. O(1).
    fn size_hint(&self) -> (usize, Option<usize>) {
        self.inner.size_hint()
    }
}

/// Allocates nothing and can't fail.
impl<'a, K> Clone for Iter<'a, K> {
    ghost is_clone = { λ own copy. copy ≡ own };

    ghost is_infallible = { λ _. Unit {0} };

    fn clone(&self) -> Result<Iter<'a, K>, AllocError> {
        let inner = self.inner.clone()?;
        Ok(Iter { inner })
    }
}

impl<'a, K> FusedIterator for Iter<'a, K> {}

impl<K: Eq, H: KeyHash<K>> HashSet<K, H> {
    ghost use Rattle.collections.specs.Extracting.{extract_left, extract_map};

    /// Returns an iterator over the keys, in the order of the view.
    ///
    /// Allocates nothing. O(1); all steps together O(slots), plus the square of the number of
    /// blocks of each chain. std: `HashSet::iter`.
    pub fn iter(&self) -> Iter<'_, K>
        ensures rest { result ≡ keys_of self.now.entries }
        ensures unique { IsUnique K.eq self.now }
    {
        Iter {
            inner: self.map.keys(),
        }
    }

    /// Returns an iterator over all keys by value, in the order of the view. The set is empty at
    /// once and has no slots; the hasher and the capacities stay. If the iterator is dropped early,
    /// the rest is dropped with it.
    ///
    /// To fill the set again at once, call `try_reserve` first: it then allocates its slots once.
    ///
    /// Allocates nothing and never fails. O(1); all steps together O(slots). std: `HashSet::drain`,
    /// which borrows the set and keeps its memory.
    pub fn drain(&mut self) -> Drain<K>
        ensures rest { result ≡ keys_of self.old.entries }
        ensures unique { IsUnique K.eq self.old }
        ensures set { self.new
            ≡ record self.old { entries = []; slots = 0; old_slots = 0; bucket_lens = [] } }
    {
        Drain {
            inner: DrainKeys {
                inner: self.map.drain(),
            },
        }
    }

    /// Returns an iterator that removes the keys for which a function returns `true`, in the order
    /// of the view. Each step calls the function with the next keys, one by one, until it returns
    /// `true`; that key is removed and returned. Each key is tested once. If the iterator is
    /// dropped early, the keys that it hasn't reached stay.
    ///
    /// The slots stay, and the iterator holds the arrays, as in `HashMap::extract_if`.
    ///
    /// Never fails and allocates nothing. O(1); all steps and its drop together O(slots), plus the
    /// function's calls. std: `HashSet::extract_if`.
    pub fn extract_if<F: FnMut(&K) -> bool>(&mut self, test: F) -> ExtractIf<'_, K, H, F>
        requires callable { F.IsAlwaysCallable test }
        ensures same_set { result.from.ghost_name ≡ self.entry.ghost_name }
        ensures unchanged { extract_map result ≡ self.old }
        ensures left { keys_of (extract_left result) ≡ keys_of self.old.entries }
        ensures test { result.test ≡ test }
        ensures unique { IsUnique K.eq self.old }
    {
        let taken = self.map.take_arrays();
        Extraction {
            from: self,
            taken,
            test,
        }
    }
}

impl<'a, K: Eq, H: KeyHash<K>> IntoIterator for &'a HashSet<K, H> {
    type Item = &'a K;

    type IntoIter = Iter<'a, K>;

    ghost into_iter_gives = { λ set keys. keys ≡ keys_of set.now.entries };

    fn into_iter(self) -> Iter<'a, K> {
        self.iter()
    }
}

/// A draining iterator over the keys of a set. std: `hash_set::Drain`.
#[derive(Drop)]
pub struct Drain<K> {
    inner: IntoKeys<K, ()>,
}

/// An iterator over the keys of a set by value. std: `hash_set::IntoIter`.
pub type IntoIter<K> = Drain<K>;

impl<K> Model for Drain<K> {
    ghost use Rattle.std.specs.Prelude.{List};

    ghost Value = { List K };

    ghost view = { λ keys. keys.inner };
}

impl<K: Drop> Iterator for Drain<K> {
    type Item = K;

    ghost next_gives = { YieldsFirst (λ left. left) };

    ghost remaining = { item_count (λ left. left) };

    fn next(&mut self) -> Option<K> {
        self.inner.next()
    }

    /// The size hint of a map's keys. O(1).
    fn size_hint(&self) -> (usize, Option<usize>) {
        self.inner.size_hint()
    }
}

impl<K: Drop> FusedIterator for Drain<K> {}

/// Allocates nothing. The same cost as `drain`.
impl<K: Eq + Drop, H: KeyHash<K> + Drop> IntoIterator for HashSet<K, H> {
    type Item = K;

    type IntoIter = IntoIter<K>;

    ghost into_iter_gives = { λ set keys. keys ≡ keys_of set.entries };

    fn into_iter(mut self) -> IntoIter<K> {
        self.drain()
    }
}

/// An iterator that removes the keys of a set for which a function returns `true`. The keys that it
/// hasn't reached stay in the set. std: `hash_set::ExtractIf`.
pub type ExtractIf<'a, K, H, F> = Extraction<'a, HashSet<K, H>, F, TableExtract<K, (), (), MAP>>;

impl<K: Eq, H: KeyHash<K>> PutBack<HashSet<K, H>> for TableExtract<K, (), (), MAP> {
    ghost fits = { λ set taken. IsOneMap K.eq (H.hash_of set.hasher) taken.arrays };

    ghost after = { λ set taken. map_of (record { hasher = set.hasher; arrays = taken.arrays }) };

    fn put_back(&mut self, to: &mut HashSet<K, H>) {
        PutBack::<HashMap<K, (), H>>::put_back(self, &mut to.map);
    }
}

impl<'a, K: Eq + Drop, H: KeyHash<K>, F: FnMut(&K) -> bool> Iterator
    for Extraction<'a, HashSet<K, H>, F, TableExtract<K, (), (), MAP>> {
    ghost use Rattle.collections.specs.Extracting.{ExtractsKeyIf, extract_left};

    type Item = K;

    ghost can_next = { λ it. F.IsAlwaysCallable it.test };

    ghost next_gives = { ExtractsKeyIf K.eq F.FnMut };

    ghost remaining = { λ it. at_most (length (extract_left it)) };

    fn next(&mut self) -> Option<K> {
        match next_key(&mut self.taken, &mut self.test) {
            Some((key, _)) => Some(key),
            None => None,
        }
    }

    /// From 0 to the number of keys that weren't tested yet. O(1).
    fn size_hint(&self) -> (usize, Option<usize>) {
        (0, self.taken.most_left())
    }
}

impl<'a, K: Eq + Drop, H: KeyHash<K>, F: Drop> FusedIterator
    for Extraction<'a, HashSet<K, H>, F, TableExtract<K, (), (), MAP>>
where
    Extraction<'a, HashSet<K, H>, F, TableExtract<K, (), (), MAP>>: Iterator,
{}

/// Removes the next key for which a function returns `true`.
fn next_key<K: Drop, F: FnMut(&K) -> bool>(
    taken: &mut TableExtract<K, (), (), MAP>,
    test: &mut F,
) -> Option<(K, ())>
    requires callable { F.IsAlwaysCallable test.old }
    ensures again { F.IsAlwaysCallable test.new }
    ensures extracted { Extracts MAP (AsksKey F.FnMut) test.old taken.old result taken.new
        test.new }
{
    let mut pick = |key: &K, _value: &mut ()|
        requires { F.IsAlwaysCallable test.now }
        ensures { CalledAt F.FnMut test.entry.now key.now result test.exit.now }
    { test(key) };
    fact_asks(&pick);
    taken.extract_next(&mut pick)
}
