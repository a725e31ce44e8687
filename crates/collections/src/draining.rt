//! Iterators over the keys or the values of a collection by value: each step takes a pair out of
//! the table, returns one half, and drops the other.
ghost use Rattle.std.specs.Iterator.{YieldsFirst, item_count};

use bucket_slots::lru::LruList;
use bucket_table::hash_table::TableDrain;
use std::iter::FusedIterator;
use std::marker::Model;

/// An iterator over the keys by value.
#[derive(Drop)]
pub struct DrainKeys<K, V, L: LruList, const TYPE: u8> {
    pub(crate) inner: TableDrain<K, V, L, TYPE>,
}

impl<K, V, L: LruList, const TYPE: u8> Model for DrainKeys<K, V, L, TYPE> {
    ghost use Rattle.std.specs.Prelude.{List};
    ghost use Rattle.std.specs.Map.{keys_of};

    ghost Value = { List K };

    ghost view = { λ keys. keys_of keys.inner };
}

impl<K: Drop, V: Drop, L: LruList + Drop, const TYPE: u8> Iterator for DrainKeys<K, V, L, TYPE> {
    type Item = K;

    ghost next_gives = { YieldsFirst (λ left. left) };

    ghost remaining = { item_count (λ left. left) };

    fn next(&mut self) -> Option<K> {
        match self.inner.next() {
            Some((key, _)) => Some(key),
            None => None,
        }
    }

    /// The pairs' size hint. O(1).
    fn size_hint(&self) -> (usize, Option<usize>) {
        self.inner.size_hint()
    }
}

impl<K: Drop, V: Drop, L: LruList + Drop, const TYPE: u8> FusedIterator
    for DrainKeys<K, V, L, TYPE> {}

/// An iterator over the values by value.
#[derive(Drop)]
pub struct DrainValues<K, V, L: LruList, const TYPE: u8> {
    pub(crate) inner: TableDrain<K, V, L, TYPE>,
}

impl<K, V, L: LruList, const TYPE: u8> Model for DrainValues<K, V, L, TYPE> {
    ghost use Rattle.std.specs.Prelude.{List};
    ghost use Rattle.std.specs.Map.{values_of};

    ghost Value = { List V };

    ghost view = { λ values. values_of values.inner };
}

impl<K: Drop, V: Drop, L: LruList + Drop, const TYPE: u8> Iterator for DrainValues<K, V, L, TYPE> {
    type Item = V;

    ghost next_gives = { YieldsFirst (λ left. left) };

    ghost remaining = { item_count (λ left. left) };

    fn next(&mut self) -> Option<V> {
        match self.inner.next() {
            Some((_, value)) => Some(value),
            None => None,
        }
    }

    /// The pairs' size hint. O(1).
    fn size_hint(&self) -> (usize, Option<usize>) {
        self.inner.size_hint()
    }
}

impl<K: Drop, V: Drop, L: LruList + Drop, const TYPE: u8> FusedIterator
    for DrainValues<K, V, L, TYPE> {}
