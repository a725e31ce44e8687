//! Iterators over a map's pairs, its keys and its values, by reference and by value, calls of a
//! function with each pair, and the iterator that removes the pairs that a function picks.
ghost use Rattle.std.specs.Prelude.{◌≡◌, ◌<◌, ◌↔◌, ◌^◌, IsTrue, length, []};
ghost use Rattle.std.specs.Map.{keys_of, values_of};
ghost use Rattle.bucket_slots.specs.Walking.{CallsEach};
ghost use Rattle.collections.specs.Maps.{IsUnique, pairs_in_bucket, map_of};
ghost use Rattle.std.specs.Iterator.{at_most};
ghost use Rattle.bucket_table.specs.Views.ArraysView.{IsOneMap, pairs_of};

use crate::draining::{DrainKeys, DrainValues};
use crate::extracting::{Extraction, PutBack};
use crate::hash_map::HashMap;
use crate::iterating::{PairKeys, PairValues, TableKeys, TableValues};
use bucket_slots::bucket::MAP;
use bucket_table::hash_table::{TableDrain, TableExtract, TablePairs};
use bucket_table::key_hash::KeyHash;
use std::iter::{FusedIterator, IntoIterator};

/// An iterator over the pairs of a map, each as `(&K, &V)`. std: `hash_map::Iter`.
pub type Iter<'a, K, V> = TablePairs<'a, K, V, (), MAP>;

/// An iterator over the keys of a map. std: `hash_map::Keys`.
pub type Keys<'a, K, V> = TableKeys<'a, K, V, (), MAP>;

/// An iterator over the values of a map. std: `hash_map::Values`.
pub type Values<'a, K, V> = TableValues<'a, K, V, (), MAP>;

impl<K: Eq, V, H: KeyHash<K>> HashMap<K, V, H> {
    ghost use Rattle.collections.specs.Extracting.{extract_left, extract_map};

    /// Returns an iterator over the pairs, in the order of the view.
    ///
    /// Allocates nothing. O(1); all steps together O(slots), plus the square of the number of
    /// blocks of each chain. std: `HashMap::iter`.
    pub fn iter(&self) -> Iter<'_, K, V>
        ensures rest { result ≡ self.now.entries }
        ensures unique { IsUnique K.eq self.now }
    {
        self.room.fact_fits();
        self.table.fact_sound();
        self.table.pairs()
    }

    /// Returns an iterator over the keys, in the order of the view.
    ///
    /// Allocates nothing. The same cost as `iter`. std: `HashMap::keys`.
    pub fn keys(&self) -> Keys<'_, K, V>
        ensures rest { result ≡ keys_of self.now.entries }
        ensures unique { IsUnique K.eq self.now }
    {
        self.room.fact_fits();
        self.table.fact_sound();
        PairKeys {
            inner: self.table.pairs(),
        }
    }

    /// Returns an iterator over the values, in the order of the view.
    ///
    /// Allocates nothing. The same cost as `iter`. std: `HashMap::values`.
    pub fn values(&self) -> Values<'_, K, V>
        ensures { result ≡ values_of self.now.entries }
    {
        self.room.fact_fits();
        PairValues {
            inner: self.table.pairs(),
        }
    }

    /// Calls a function once with each pair, in the order of the view.
    ///
    /// O(slots), plus the function's calls. Like a loop over std's `iter`.
    #[inline(always)]
    pub fn for_each<F: FnMut(&K, &V)>(&self, mut f: F)
        requires callable { F.IsAlwaysCallable f }
        ensures calls { (last : F) × CallsEach (λ state own value after. F.step state own value tt
            after) f self.now.entries last }
    {
        self.for_each_ref(&mut f);
    }

    /// Like `for_each`, but borrows the function; the contract gives its state after the call.
    ///
    /// O(slots), plus the function's calls. scc: `HashMap::iter_sync`.
    #[inline(always)]
    pub fn for_each_ref<F: FnMut(&K, &V)>(&self, f: &mut F)
        requires callable { F.IsAlwaysCallable f.old }
        ensures again { F.IsAlwaysCallable f.new }
        ensures calls { CallsEach (λ state own value last. F.step state own value tt last) f.old
            self.now.entries f.new }
    {
        self.room.fact_fits();
        self.table.for_each(f);
    }

    /// Calls a function with each pair of one bucket, in the order of the view, and returns whether
    /// there is such a bucket. Buckets are numbered from 0: first those of the slots, then those of
    /// the old slots. Together they have the pairs of `for_each`, until a call changes the map.
    ///
    /// Moves no pairs and allocates nothing. O(1) expected, plus the function's calls.
    #[inline(always)]
    pub fn for_each_in<F: FnMut(&K, &V)>(&self, bucket: usize, f: &mut F) -> bool
        requires callable { F.IsAlwaysCallable f.old }
        ensures again { F.IsAlwaysCallable f.new }
        ensures there { IsTrue result ↔ bucket < length self.now.bucket_lens }
        ensures few { IsTrue result → bucket < 2 ^ 58 }
        ensures calls { CallsEach (λ state own value last. F.step state own value tt last) f.old
            (pairs_in_bucket self.now bucket) f.new }
    {
        self.room.fact_fits();
        self.table.for_each_in(bucket, f)
    }

    /// Returns an iterator over all pairs by value, in the order of the view. The map is empty at
    /// once and has no slots; the hasher and the capacities stay. If the iterator is dropped early,
    /// the rest is dropped with it.
    ///
    /// To fill the map again at once, call `try_reserve` first: it then allocates its slots once.
    ///
    /// Allocates nothing and never fails. O(1); all steps together O(slots). std: `HashMap::drain`,
    /// which borrows the map and keeps its memory.
    pub fn drain(&mut self) -> Drain<K, V>
        ensures rest { result ≡ self.old.entries }
        ensures unique { IsUnique K.eq self.old }
        ensures map { self.new
            ≡ record self.old { entries = []; slots = 0; old_slots = 0; bucket_lens = [] } }
    {
        self.room.fact_fits();
        self.table.fact_sound();
        self.table.drain()
    }

    /// Returns an iterator that removes the pairs for which a function returns `true`, in the order
    /// of the view. Each step calls the function with the next pairs, one by one and their values
    /// mutable, until it returns `true`; that pair is removed and returned. Each pair is tested
    /// once. The others stay, with the values that the function left. If the iterator is dropped
    /// early, the pairs that it hasn't reached stay as they were.
    ///
    /// The slots stay, the old ones too. The iterator holds the map's arrays, and puts them back
    /// when it is dropped. A leaked iterator keeps them.
    ///
    /// Never fails and allocates nothing. O(1); all steps and its drop together O(slots), plus the
    /// function's calls. std: `HashMap::extract_if`.
    pub fn extract_if<F: FnMut(&K, &mut V) -> bool>(&mut self, test: F) -> ExtractIf<'_, K, V, H, F>
        requires callable { F.IsAlwaysCallable test }
        ensures same_map { result.from.ghost_name ≡ self.entry.ghost_name }
        ensures unchanged { extract_map result ≡ self.old }
        ensures left { extract_left result ≡ self.old.entries }
        ensures test { result.test ≡ test }
        ensures unique { IsUnique K.eq self.old }
    {
        let taken = self.take_arrays();
        Extraction {
            from: self,
            taken,
            test,
        }
    }

    /// Takes the arrays out of the map, to go through their pairs.
    pub(crate) fn take_arrays(&mut self) -> TableExtract<K, V, (), MAP>
        ensures one_map { IsOneMap K.eq (H.hash_of self.old.hasher) result.arrays }
        ensures map { map_of (record { hasher = self.old.hasher; arrays = result.arrays })
            ≡ self.old }
        ensures left { result.left ≡ pairs_of result.arrays }
        ensures hasher { self.new.hasher ≡ self.old.hasher }
    {
        self.room.fact_fits();
        self.table.fact_sound();
        self.table.extract()
    }
}

impl<'a, K: Eq, V, H: KeyHash<K>> IntoIterator for &'a HashMap<K, V, H> {
    type Item = (&'a K, &'a V);

    type IntoIter = Iter<'a, K, V>;

    ghost into_iter_gives = { λ map pairs. pairs ≡ map.now.entries };

    fn into_iter(self) -> Iter<'a, K, V> {
        self.iter()
    }
}

/// A draining iterator over the pairs of a map. std: `hash_map::Drain`.
pub type Drain<K, V> = TableDrain<K, V, (), MAP>;

/// An iterator over the pairs of a map by value. std: `hash_map::IntoIter`.
pub type IntoIter<K, V> = Drain<K, V>;

/// An iterator over the keys of a map by value. std: `hash_map::IntoKeys`.
pub type IntoKeys<K, V> = DrainKeys<K, V, (), MAP>;

/// An iterator over the values of a map by value. std: `hash_map::IntoValues`.
pub type IntoValues<K, V> = DrainValues<K, V, (), MAP>;

impl<K: Eq + Drop, V: Drop, H: KeyHash<K> + Drop> HashMap<K, V, H> {
    /// Returns an iterator over the keys by value, in the order of the view, and drops the values.
    ///
    /// Allocates nothing. The same cost as `drain`. std: `HashMap::into_keys`.
    pub fn into_keys(mut self) -> IntoKeys<K, V>
        ensures rest { result ≡ keys_of self.entries }
        ensures unique { IsUnique K.eq self }
    {
        DrainKeys {
            inner: self.drain(),
        }
    }

    /// Returns an iterator over the values by value, in the order of the view, and drops the keys.
    ///
    /// Allocates nothing. The same cost as `drain`. std: `HashMap::into_values`.
    pub fn into_values(mut self) -> IntoValues<K, V>
        ensures { result ≡ values_of self.entries }
    {
        DrainValues {
            inner: self.drain(),
        }
    }
}

/// Allocates nothing. The same cost as `drain`.
impl<K: Eq + Drop, V: Drop, H: KeyHash<K> + Drop> IntoIterator for HashMap<K, V, H> {
    type Item = (K, V);

    type IntoIter = IntoIter<K, V>;

    ghost into_iter_gives = { λ map pairs. pairs ≡ map.entries };

    fn into_iter(mut self) -> IntoIter<K, V> {
        self.drain()
    }
}

/// An iterator that removes the pairs of a map for which a function returns `true`. The pairs that
/// it hasn't reached stay in the map. std: `hash_map::ExtractIf`.
pub type ExtractIf<'a, K, V, H, F> = Extraction<
    'a,
    HashMap<K, V, H>,
    F,
    TableExtract<K, V, (), MAP>,
>;

impl<K: Eq, V, H: KeyHash<K>> PutBack<HashMap<K, V, H>> for TableExtract<K, V, (), MAP> {
    ghost fits = { λ map taken. IsOneMap K.eq (H.hash_of map.hasher) taken.arrays };

    ghost after = { λ map taken. map_of (record { hasher = map.hasher; arrays = taken.arrays }) };

    fn put_back(&mut self, to: &mut HashMap<K, V, H>) {
        to.room.fact_fits();
        to.table.restore(self);
    }
}

impl<'a, K: Eq + Drop, V: Drop, H: KeyHash<K>, F: FnMut(&K, &mut V) -> bool> Iterator
    for Extraction<'a, HashMap<K, V, H>, F, TableExtract<K, V, (), MAP>> {
    ghost use Rattle.collections.specs.Extracting.{ExtractsIf, extract_left};

    type Item = (K, V);

    ghost can_next = { λ it. F.IsAlwaysCallable it.test };

    ghost next_gives = { ExtractsIf K.eq
        (λ state own before answer after last. F.step state own before answer after last) };

    ghost remaining = { λ it. at_most (length (extract_left it)) };

    fn next(&mut self) -> Option<(K, V)> {
        self.taken.extract_next(&mut self.test)
    }

    /// From 0 to the number of pairs that weren't tested yet. O(1).
    fn size_hint(&self) -> (usize, Option<usize>) {
        (0, self.taken.most_left())
    }
}

impl<'a, K: Eq + Drop, V: Drop, H: KeyHash<K>, F: Drop> FusedIterator
    for Extraction<'a, HashMap<K, V, H>, F, TableExtract<K, V, (), MAP>>
where
    Extraction<'a, HashMap<K, V, H>, F, TableExtract<K, V, (), MAP>>: Iterator,
{}
