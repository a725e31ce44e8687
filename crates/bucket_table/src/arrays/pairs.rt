//! An iterator over the pairs of the arrays, in the order of their view, and calls of a function
//! with each of them.
//!
//! The type of the iterator ends in a parameter that no field holds. In `next` it is a borrow of
//! the kind of table, from which the borrow checker knows that TYPE lives as long as the buckets.
ghost use Rattle.std.specs.Prelude.{◌≡◌, ◌-◌, ◌^◌, length, min, ◌<◌, ◌↔◌, IsTrue};
ghost use Rattle.std.specs.Iterator.{YieldsFirstBy, item_count};
ghost use Rattle.bucket_table.specs.Map.Counting.{counted_to};
ghost use Rattle.bucket_table.specs.Views.ArraysView.{pairs_of};
ghost use Rattle.bucket_slots.specs.ArrayView.{bucket_at};
ghost use Rattle.bucket_slots.specs.BucketView.{pairs_in};
ghost use Rattle.bucket_slots.specs.Walking.{CallsEach};
ghost use Rattle.bucket_table.specs.Map.LookingUp.{lent_buckets, pairs_in_all};
ghost use Rattle.bucket_table.specs.Walking.Row.{row_of};

use super::Arrays;
use super::row::{is_exact, one_less};
use bucket_slots::bucket::{Bucket, EntryPtr};
use bucket_slots::bucket_array::BucketArray;
use bucket_slots::lru::LruList;
use std::alloc::AllocError;
use std::iter::FusedIterator;
use std::marker::{Model, PhantomData};
use std::slice;

/// Represents a kind of table in a type.
pub struct Kind<const TYPE: u8> {}

/// The remaining pairs of the arrays: those after a place.
///
/// `here` and `left` cache what is read of the current bucket, for all of its pairs: the bucket, as
/// a slice of one element, and its live own slots after the place. If `left` is 0, both are
/// meaningless. If `is_counted`, `rest` is the number of remaining pairs.
#[derive(Drop)]
pub struct ArraysPairs<'a, K, V, L: LruList, const TYPE: u8, R> {
    arrays: &'a Arrays<K, V, L, TYPE>,
    index: usize,
    at: EntryPtr<K, V, TYPE>,
    here: &'a [Bucket<K, V, L, TYPE>],
    left: u32,
    rest: usize,
    is_counted: bool,
    loan: PhantomData<R>,
}

/// The remaining pairs of a table.
pub type TablePairs<'a, K, V, L, const TYPE: u8> = ArraysPairs<'a, K, V, L, TYPE, &'a Kind<TYPE>>;

impl<'a, K, V, L: LruList, const TYPE: u8, R> Model for ArraysPairs<'a, K, V, L, TYPE, R> {
    ghost use Rattle.std.specs.Prelude.{List};
    ghost use Rattle.bucket_table.specs.Map.Counting.{IsRest};
    ghost use Rattle.bucket_table.specs.Walking.Row.{LendsLeft, pairs_from, row_of};

    ghost Value = { List (K × V) };

    ghost view = { λ pairs. pairs_from (row_of pairs.arrays.now) pairs.index pairs.at };

    ghost invariant = { λ pairs. LendsLeft (row_of pairs.arrays.now) pairs.index pairs.at
        pairs.here.now pairs.left
        × IsRest pairs.is_counted pairs.rest
        (pairs_from (row_of pairs.arrays.now) pairs.index pairs.at) };
}

impl<'a, K, V, L: LruList, const TYPE: u8> Iterator
    for ArraysPairs<'a, K, V, L, TYPE, &'a Kind<TYPE>> {
    type Item = (&'a K, &'a V);

    ghost next_gives = { YieldsFirstBy (λ pair. (pair.0.now, pair.1.now)) (λ left. left) };

    ghost remaining = { item_count (λ left. left) };

    #[inline(always)]
    fn next(&mut self) -> Option<(&'a K, &'a V)> {
        if !self.arrays.has_row_or(self.left != 0) {
            return None;
        }
        self.arrays.fact_row_room();
        let found = self
            .arrays
            .own_left(&mut self.index, &mut self.at, self.here, self.left);
        let Some((bucket, left)) = found else {
            self.left = 0;
            return self.next_slot();
        };
        self.left = bucket.next_own(&mut self.at, left);
        self.here = slice::from_ref(bucket);
        self.rest = one_less(self.rest);
        Some(bucket.entry(&self.at))
    }

    /// The number of remaining pairs, as both bounds. There is no upper bound if the table had
    /// 2^64 - 1 pairs or more.
    ///
    /// O(1).
    fn size_hint(&self) -> (usize, Option<usize>) {
        if self.is_counted {
            return (self.rest, Some(self.rest));
        }
        (0, None)
    }
}

impl<'a, K, V, L: LruList, const TYPE: u8> ArraysPairs<'a, K, V, L, TYPE, &'a Kind<TYPE>> {
    /// Returns the next pair, whether it is in an own slot or in a chain.
    #[inline(always)]
    fn next_slot(&mut self) -> Option<(&'a K, &'a V)>
        ensures { YieldsFirstBy (λ pair. (pair.0.now, pair.1.now)) (λ left. left) self.old result
            self.new }
    {
        self.left = 0;
        if !self.arrays.has_row() {
            return None;
        }
        self.arrays.fact_row_room();
        let Some(bucket) = self.arrays.next_slot(&mut self.index, &mut self.at) else {
            return None;
        };
        self.rest = one_less(self.rest);
        Some(bucket.entry(&self.at))
    }

    /// Returns an iterator over the same pairs.
    fn again(&self) -> Self
        ensures { result ≡ self.now }
    {
        ArraysPairs {
            arrays: self.arrays,
            index: self.index,
            at: self.at.clone(),
            here: self.here,
            left: self.left,
            rest: self.rest,
            is_counted: self.is_counted,
            loan: PhantomData,
        }
    }

    /// Returns the number of remaining pairs, at most 2^64 - 1.
    ///
    /// O(remaining slots).
    pub fn count_left(&self) -> usize
        ensures { result ≡ min (length self.now) (2 ^ 64 - 1) }
    {
        let mut rest = self.again();
        let mut count = 0usize;
        'pairs: while let Some(_pair) = rest.next() {
            count = count.saturating_add(1);
        }
        count
    }
}

/// Allocates nothing and can't fail.
impl<'a, K, V, L: LruList, const TYPE: u8> Clone
    for ArraysPairs<'a, K, V, L, TYPE, &'a Kind<TYPE>> {
    ghost is_clone = { λ own copy. copy ≡ own };

    ghost is_infallible = { λ _. Unit {0} };

    fn clone(&self) -> Result<ArraysPairs<'a, K, V, L, TYPE, &'a Kind<TYPE>>, AllocError> {
        Ok(self.again())
    }
}

impl<'a, K, V, L: LruList, const TYPE: u8> FusedIterator
    for ArraysPairs<'a, K, V, L, TYPE, &'a Kind<TYPE>> {}

impl<K, V, L: LruList, const TYPE: u8> Arrays<K, V, L, TYPE> {
    /// Returns an iterator over all pairs, of which there are `count`.
    pub(crate) fn pairs(&self, count: usize) -> TablePairs<'_, K, V, L, TYPE>
        requires { count ≡ counted_to (pairs_of self.now) }
        ensures { result ≡ pairs_of self.now }
    {
        ArraysPairs {
            arrays: self,
            index: 0,
            at: EntryPtr::null(),
            here: &[],
            left: 0,
            rest: count,
            is_counted: is_exact(count),
            loan: PhantomData,
        }
    }

    /// Calls a function with each pair, those of the current array first.
    #[inline(always)]
    pub(crate) fn for_each<F: FnMut(&K, &V)>(&self, f: &mut F)
        requires callable { F.IsAlwaysCallable f.old }
        ensures again { F.IsAlwaysCallable f.new }
        ensures calls { CallsEach (λ state own value last. F.step state own value tt last) f.old
            (pairs_of self.now) f.new }
    {
        for_each_of(self.array(), f);
        for_each_of(self.linked_array(), f);
    }

    /// Calls a function with each pair of one bucket of the row, and returns whether there is such
    /// a bucket.
    #[inline(always)]
    pub(crate) fn for_each_in<F: FnMut(&K, &V)>(&self, index: usize, f: &mut F) -> bool
        requires callable { F.IsAlwaysCallable f.old }
        ensures again { F.IsAlwaysCallable f.new }
        ensures there { IsTrue result ↔ index < length (row_of self.now) }
        ensures few { IsTrue result → index < 2 ^ 58 }
        ensures calls { CallsEach (λ state own value last. F.step state own value tt last) f.old
            (pairs_in (bucket_at (row_of self.now) index)) f.new }
    {
        if let Some((array, own)) = self.array_at(index) {
            array.for_each_in(own, f);
            return true;
        }
        false
    }
}

/// Calls a function with each pair of an array.
#[inline(always)]
fn for_each_of<K, V, L: LruList, F: FnMut(&K, &V), const TYPE: u8>(
    held: Option<&BucketArray<K, V, L, TYPE>>,
    f: &mut F,
)
    requires callable { F.IsAlwaysCallable f.old }
    ensures again { F.IsAlwaysCallable f.new }
    ensures calls { CallsEach (λ state own value last. F.step state own value tt last) f.old
        (pairs_in_all (lent_buckets held.entry)) f.new }
{
    let Some(array) = held else {
        return;
    };
    for index in 0..array.len() {
        array.for_each_in(index, f);
    }
}
