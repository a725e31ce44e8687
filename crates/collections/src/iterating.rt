//! Iterators over the keys and the values of each collection. Each wraps the iterator over a
//! table's pairs, and returns one half of each pair.
//!
//! The last type parameter is that of the table's own iterator: a borrow of the kind of table,
//! which no field holds. A `size_hint` is that of the pairs, in O(1). No iterator is an
//! `ExactSizeIterator`, since no clause says that there are fewer than 2^64 pairs.
ghost use Rattle.std.specs.Prelude.{◌≡◌};
ghost use Rattle.std.specs.Iterator.{YieldsFirstRef, item_count};

use bucket_slots::lru::LruList;
use bucket_table::hash_table::{ArraysPairs, Kind};
use std::alloc::AllocError;
use std::iter::FusedIterator;
use std::marker::Model;

/// An iterator over the keys of a collection.
#[derive(Drop)]
pub struct PairKeys<'a, K, V, L: LruList, const TYPE: u8, R> {
    pub(crate) inner: ArraysPairs<'a, K, V, L, TYPE, R>,
}

/// An iterator over the keys of a table.
pub type TableKeys<'a, K, V, L, const TYPE: u8> = PairKeys<'a, K, V, L, TYPE, &'a Kind<TYPE>>;

impl<'a, K, V, L: LruList, const TYPE: u8, R> Model for PairKeys<'a, K, V, L, TYPE, R> {
    ghost use Rattle.std.specs.Prelude.{List};
    ghost use Rattle.std.specs.Map.{keys_of};

    ghost Value = { List K };

    ghost view = { λ keys. keys_of keys.inner };
}

impl<'a, K, V, L: LruList, const TYPE: u8> Iterator
    for PairKeys<'a, K, V, L, TYPE, &'a Kind<TYPE>> {
    type Item = &'a K;

    ghost next_gives = { YieldsFirstRef (λ left. left) };

    ghost remaining = { item_count (λ left. left) };

    fn next(&mut self) -> Option<&'a K> {
        match self.inner.next() {
            Some((key, _)) => Some(key),
            None => None,
        }
    }

    /// The pairs' size hint. O(1).
    fn size_hint(&self) -> (usize, Option<usize>) {
        self.inner.size_hint()
    }
}

/// Allocates nothing and can't fail.
impl<'a, K, V, L: LruList, const TYPE: u8> Clone for PairKeys<'a, K, V, L, TYPE, &'a Kind<TYPE>> {
    ghost is_clone = { λ own copy. copy ≡ own };

    ghost is_infallible = { λ _. Unit {0} };

    fn clone(&self) -> Result<PairKeys<'a, K, V, L, TYPE, &'a Kind<TYPE>>, AllocError> {
        let inner = self.inner.clone()?;
        Ok(PairKeys { inner })
    }
}

impl<'a, K, V, L: LruList, const TYPE: u8> FusedIterator
    for PairKeys<'a, K, V, L, TYPE, &'a Kind<TYPE>> {}

/// An iterator over the values of a collection.
#[derive(Drop)]
pub struct PairValues<'a, K, V, L: LruList, const TYPE: u8, R> {
    pub(crate) inner: ArraysPairs<'a, K, V, L, TYPE, R>,
}

/// An iterator over the values of a table.
pub type TableValues<'a, K, V, L, const TYPE: u8> = PairValues<'a, K, V, L, TYPE, &'a Kind<TYPE>>;

impl<'a, K, V, L: LruList, const TYPE: u8, R> Model for PairValues<'a, K, V, L, TYPE, R> {
    ghost use Rattle.std.specs.Prelude.{List};
    ghost use Rattle.std.specs.Map.{values_of};

    ghost Value = { List V };

    ghost view = { λ values. values_of values.inner };
}

impl<'a, K, V, L: LruList, const TYPE: u8> Iterator
    for PairValues<'a, K, V, L, TYPE, &'a Kind<TYPE>> {
    type Item = &'a V;

    ghost next_gives = { YieldsFirstRef (λ left. left) };

    ghost remaining = { item_count (λ left. left) };

    fn next(&mut self) -> Option<&'a V> {
        match self.inner.next() {
            Some((_, value)) => Some(value),
            None => None,
        }
    }

    /// The pairs' size hint. O(1).
    fn size_hint(&self) -> (usize, Option<usize>) {
        self.inner.size_hint()
    }
}

/// Allocates nothing and can't fail.
impl<'a, K, V, L: LruList, const TYPE: u8> Clone for PairValues<'a, K, V, L, TYPE, &'a Kind<TYPE>> {
    ghost is_clone = { λ own copy. copy ≡ own };

    ghost is_infallible = { λ _. Unit {0} };

    fn clone(&self) -> Result<PairValues<'a, K, V, L, TYPE, &'a Kind<TYPE>>, AllocError> {
        let inner = self.inner.clone()?;
        Ok(PairValues { inner })
    }
}

impl<'a, K, V, L: LruList, const TYPE: u8> FusedIterator
    for PairValues<'a, K, V, L, TYPE, &'a Kind<TYPE>> {}
