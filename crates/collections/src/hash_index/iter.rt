//! The iterators over an index's pairs, its keys and its values. None returns a tombstone.
ghost use Rattle.std.specs.Prelude.{◌≡◌};
ghost use Rattle.std.specs.Map.{keys_of, values_of};
ghost use Rattle.bucket_table.specs.Views.ArraysView.{pairs_of};
ghost use Rattle.collections.specs.Maps.{IsUnique, map_of};

use crate::hash_index::HashIndex;
use crate::iterating::{PairKeys, PairValues, TableKeys, TableValues};
use bucket_slots::bucket::INDEX;
use bucket_table::hash_table::TablePairs;
use bucket_table::key_hash::KeyHash;
use std::iter::IntoIterator;

/// An iterator over the pairs of an index, each as `(&K, &V)`. scc: `hash_index::Iter`.
pub type Iter<'a, K, V> = TablePairs<'a, K, V, (), INDEX>;

/// An iterator over the keys of an index.
pub type Keys<'a, K, V> = TableKeys<'a, K, V, (), INDEX>;

/// An iterator over the values of an index.
pub type Values<'a, K, V> = TableValues<'a, K, V, (), INDEX>;

impl<K: Eq, V, H: KeyHash<K>> HashIndex<K, V, H> {
    /// Returns an iterator over the pairs, in the order of the view, without tombstones.
    ///
    /// Allocates nothing. O(1); all steps together O(slots), plus the square of the number of
    /// blocks of each chain. scc: `HashIndex::iter`.
    pub fn iter(&self) -> Iter<'_, K, V>
        ensures rest { result ≡ pairs_of self.now.arrays }
        ensures unique { IsUnique K.eq (map_of self.now) }
    {
        self.room.fact_fits();
        self.table.fact_sound();
        self.table.pairs()
    }

    /// Returns an iterator over the keys, in the order of the view.
    ///
    /// Allocates nothing. The same cost as `iter`.
    pub fn keys(&self) -> Keys<'_, K, V>
        ensures rest { result ≡ keys_of (pairs_of self.now.arrays) }
        ensures unique { IsUnique K.eq (map_of self.now) }
    {
        self.room.fact_fits();
        self.table.fact_sound();
        PairKeys {
            inner: self.table.pairs(),
        }
    }

    /// Returns an iterator over the values, in the order of the view.
    ///
    /// Allocates nothing. The same cost as `iter`.
    pub fn values(&self) -> Values<'_, K, V>
        ensures { result ≡ values_of (pairs_of self.now.arrays) }
    {
        self.room.fact_fits();
        PairValues {
            inner: self.table.pairs(),
        }
    }
}

impl<'a, K: Eq, V, H: KeyHash<K>> IntoIterator for &'a HashIndex<K, V, H> {
    type Item = (&'a K, &'a V);

    type IntoIter = Iter<'a, K, V>;

    ghost into_iter_gives = { λ index pairs. pairs ≡ pairs_of index.now.arrays };

    fn into_iter(self) -> Iter<'a, K, V> {
        self.iter()
    }
}
