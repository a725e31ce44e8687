//! The iterators over a cache's pairs, by reference and by value, its keys and its values. None
//! touches a pair.
ghost use Rattle.std.specs.Prelude.{◌≡◌, []};
ghost use Rattle.std.specs.List.Sorted.{IsPermutation};
ghost use Rattle.std.specs.Map.{keys_of, values_of};
ghost use Rattle.bucket_table.specs.Views.ArraysView.{pairs_of};
ghost use Rattle.bucket_table.specs.Walking.ByUse.{arrays_by_use};
ghost use Rattle.collections.specs.Maps.{IsUnique, map_of};
ghost use Rattle.bucket_table.specs.Rehash.State.{first_tickets};

use crate::hash_cache::HashCache;
use crate::iterating::{PairKeys, PairValues, TableKeys, TableValues};
use bucket_slots::bucket::CACHE;
use bucket_slots::lru::DoublyLinkedList;
use bucket_table::hash_table::{PairsByUse, TableDrain, TablePairs};
use bucket_table::key_hash::KeyHash;
use std::iter::IntoIterator;

/// An iterator over the pairs of a cache, each as `(&K, &V)`.
pub type Iter<'a, K, V> = TablePairs<'a, K, V, DoublyLinkedList, CACHE>;

/// An iterator over the pairs of a cache, bucket by bucket, in LRU order in each.
pub type IterByUse<'a, K, V> = PairsByUse<'a, K, V>;

/// An iterator over the keys of a cache.
pub type Keys<'a, K, V> = TableKeys<'a, K, V, DoublyLinkedList, CACHE>;

/// An iterator over the values of a cache.
pub type Values<'a, K, V> = TableValues<'a, K, V, DoublyLinkedList, CACHE>;

impl<K: Eq, V, H: KeyHash<K>> HashCache<K, V, H> {
    /// Returns an iterator over the pairs, in the order of the view, which isn't the LRU order (see
    /// `iter_by_use`). No pair is touched.
    ///
    /// Allocates nothing. O(1); all steps together O(slots), plus the square of the number of
    /// blocks of each chain.
    pub fn iter(&self) -> Iter<'_, K, V>
        ensures rest { result ≡ pairs_of self.now.arrays }
        ensures unique { IsUnique K.eq (map_of self.now) }
    {
        self.room.fact_fits();
        self.table.fact_sound();
        self.table.pairs()
    }

    /// Returns an iterator over the pairs, bucket by bucket. In each bucket the pairs in the LRU
    /// order come first, the most recently used one at the front, then the rest of its own slots,
    /// and then its overflow chain. No pair is touched.
    ///
    /// Allocates nothing. The same cost as `iter`. Like `iter` of the crate `lru`, but one bucket
    /// at a time.
    pub fn iter_by_use(&self) -> IterByUse<'_, K, V>
        ensures by_use { result ≡ arrays_by_use self.now.arrays }
        ensures each { IsPermutation (pairs_of self.now.arrays) result }
        ensures unique { IsUnique K.eq (map_of self.now) }
    {
        self.room.fact_fits();
        self.table.fact_sound();
        self.table.pairs_by_use()
    }

    /// Returns an iterator over the keys, in the order of the view. No pair is touched.
    ///
    /// Allocates nothing. The same cost as `iter`.
    pub fn keys(&self) -> Keys<'_, K, V>
        ensures rest { result ≡ keys_of (pairs_of self.now.arrays) }
        ensures unique { IsUnique K.eq (map_of self.now) }
    {
        self.room.fact_fits();
        self.table.fact_sound();
        PairKeys {
            inner: self.table.pairs(),
        }
    }

    /// Returns an iterator over the values, in the order of the view. No pair is touched.
    ///
    /// Allocates nothing. The same cost as `iter`.
    pub fn values(&self) -> Values<'_, K, V>
        ensures { result ≡ values_of (pairs_of self.now.arrays) }
    {
        self.room.fact_fits();
        PairValues {
            inner: self.table.pairs(),
        }
    }

    /// Returns an iterator over all pairs by value, in the order of the view, which isn't the LRU
    /// order. The cache is empty at once and has no slots; the hasher and the capacities stay. If
    /// the iterator is dropped early, the rest is dropped with it.
    ///
    /// Allocates nothing and never fails. O(1); all steps together O(slots).
    pub fn drain(&mut self) -> Drain<K, V>
        ensures rest { result ≡ pairs_of self.old.arrays }
        ensures unique { IsUnique K.eq (map_of self.old) }
        ensures hasher { self.new.hasher ≡ self.old.hasher }
        ensures arrays { self.new.arrays
            ≡ record self.old.arrays { current = []; linked = []; tickets = first_tickets 0 } }
    {
        self.room.fact_fits();
        self.table.fact_sound();
        self.table.drain()
    }
}

impl<'a, K: Eq, V, H: KeyHash<K>> IntoIterator for &'a HashCache<K, V, H> {
    type Item = (&'a K, &'a V);

    type IntoIter = Iter<'a, K, V>;

    ghost into_iter_gives = { λ cache pairs. pairs ≡ pairs_of cache.now.arrays };

    fn into_iter(self) -> Iter<'a, K, V> {
        self.iter()
    }
}

/// A draining iterator over the pairs of a cache.
pub type Drain<K, V> = TableDrain<K, V, DoublyLinkedList, CACHE>;
