//! When a resize is tried: by the live slots of a few buckets near one, or by one overfull bucket.
ghost use Rattle.std.specs.Prelude.{◌≡◌, ◌+◌, ◌-◌, ◌^◌, ◌<◌, ◌≤◌, length, min, ℕ, [], ◌↔◌, IsTrue};
ghost use Rattle.std.specs.Prelude.{Ok, true};
ghost use Rattle.bucket_table.specs.Resize.Sampling.{counted, estimate, live_counts, IsCrowded};
ghost use Rattle.bucket_table.specs.Resize.Sampling.{IsDeserted};
ghost use Rattle.bucket_table.specs.Views.ArraysView.{ArePlaced, pairs_of};
ghost use Rattle.bucket_table.specs.Views.Keeping.{Keeps};
ghost use Rattle.bucket_table.specs.Views.Sides.{buckets_on};
ghost use Rattle.bucket_slots.specs.ArrayView.{bucket_at};
ghost use Rattle.bucket_slots.specs.BucketView.{pairs_in};
ghost use Rattle.bucket_table.specs.Resize.Asking.{AsksGrowth, AsksShrinking, ResizesIf, ShrinksBy};
ghost use Rattle.bucket_slots.specs.Homes.{IsHome};
ghost use Rattle.bucket_table.specs.Map.Counting.{counted_to};
ghost use Rattle.bucket_slots.specs.Sizing.{IsLength, IsTooEmpty, IsTooFull};
ghost use Rattle.bucket_table.specs.Resize.Overfull.{GrowsIfOverfull, HasFullHome, MaySplit};
ghost use Rattle.bucket_table.specs.Resize.Overfull.{IsOverfullBucket, TriesSplit};

use super::{Arrays, Side};
use bucket_slots::bucket::{BUCKET_LEN, Bucket};
use bucket_slots::bucket_array::BucketArray;
use bucket_slots::lru::LruList;
use std::alloc::AllocError;

/// Returns an estimate of the number of live slots of an array: those of `size` buckets from
/// `start` on, times the number of such samples in the array. Sum and product saturate.
pub(crate) fn sample<K, V, L: LruList, const TYPE: u8>(
    array: &BucketArray<K, V, L, TYPE>,
    start: usize,
    size: usize,
) -> usize
    requires some { 0 < size }
    requires within { start + size ≤ length array.now }
    ensures { result ≡ estimate (live_counts array.now) start size }
{
    let len = array.len();
    live_slots(array, start, size).saturating_mul(len / size)
}

/// Returns the number of live slots of `size` buckets from `start` on, saturating.
pub(crate) fn live_slots<K, V, L: LruList, const TYPE: u8>(
    array: &BucketArray<K, V, L, TYPE>,
    start: usize,
    size: usize,
) -> usize
    requires within { start + size ≤ length array.now }
    ensures { result ≡ min (counted (live_counts array.now) start size) (2 ^ 64 - 1) }
{
    array.fact_room();
    let _len = array.len();
    let mut live: usize = 0;
    for offset in 0..size {
        live = live.saturating_add(array.bucket(start + offset).len());
    }
    live
}

impl<K: Drop, V: Drop, L: LruList + Drop, const TYPE: u8> Arrays<K, V, L, TYPE> {
    /// Resizes if the buckets near this index have few live slots.
    ///
    /// If allocation fails, nothing changes.
    #[inline(never)]
    pub(crate) fn try_shrink(&mut self, index: usize)
        ensures asked { ResizesIf (AsksShrinking self.old index) self.old self.new }
        ensures kept { Keeps self.old self.new }
        ensures placed { (hash : K → ℕ) → ArePlaced hash self.old → ArePlaced hash self.new }
    {
        if !self.asks_shrinking(index) {
            return;
        }
        let _ = self.try_resize();
    }

    /// Does what `try_shrink` does if a bucket has no live pair left.
    #[inline(always)]
    pub(crate) fn shrink_emptied(&mut self, side: Side, index: usize)
        requires within { index < length (buckets_on self.old side) }
        ensures asked { ResizesIf ((pairs_in (bucket_at (buckets_on self.old side) index) ≡ [])
            × AsksShrinking self.old index) self.old self.new }
        ensures kept { Keeps self.old self.new }
        ensures placed { (hash : K → ℕ) → ArePlaced hash self.old → ArePlaced hash self.new }
    {
        self.fact_room_of(side);
        let left = self.bucket_of(side, index).len();
        self.shrink_left(side, index, left, None);
    }

    /// Does what `try_shrink` does if `left`, the number of live pairs left in a bucket, is 0. If
    /// the number of pairs in the arrays is given, it shrinks only if that agrees, as `shrink_to`
    /// does.
    #[inline(always)]
    pub(crate) fn shrink_left(
        &mut self,
        side: Side,
        index: usize,
        left: usize,
        pairs: Option<usize>,
    )
        requires within { index < length (buckets_on self.old side) }
        requires left { left ≡ length (pairs_in (bucket_at (buckets_on self.old side) index)) }
        ensures asked { ShrinksBy pairs (pairs_in (bucket_at (buckets_on self.old side) index) ≡ [])
            index self.old self.new }
        ensures kept { Keeps self.old self.new }
        ensures placed { (hash : K → ℕ) → ArePlaced hash self.old → ArePlaced hash self.new }
    {
        if left != 0 {
            return;
        }
        match pairs {
            None => self.try_shrink(index),
            Some(pairs) => self.shrink_to(index, pairs),
        }
    }

    /// Makes the current array the old one, and an empty array of twice its slots the current one,
    /// if `count` is at least a pair for each 8 slots, and twice the slots do not exceed the
    /// maximum. Returns whether it did.
    ///
    /// # Errors
    ///
    /// Allocation failed: nothing changes.
    #[inline(never)]
    pub(crate) fn double(&mut self, count: usize) -> Result<bool, AllocError>
        requires alone { length self.old.linked ≡ 0 }
        requires count { count ≡ counted_to (pairs_of self.old) }
        ensures grown { (hash : ℕ) → HasFullHome hash self.old
            → GrowsIfOverfull hash self.old result self.new }
        ensures kept { Keeps self.old self.new }
        ensures placed { (hash_of : K → ℕ) → ArePlaced hash_of self.old
            → ArePlaced hash_of self.new }
    {
        let len = self.len();
        if count < len * (BUCKET_LEN / 8) {
            return Ok(false);
        }
        if len * (2 * BUCKET_LEN) > self.maximum {
            return Ok(false);
        }
        match self.remake_array(len * (2 * BUCKET_LEN)) {
            Ok(()) => Ok(true),
            Err(refused) => Err(refused),
        }
    }

    /// Makes the current array the old one, and an empty array of twice its slots the current one,
    /// if the home of a hash has as many pairs as own slots, there is no old array, and twice the
    /// slots do not exceed the maximum. Returns whether it did.
    ///
    /// # Errors
    ///
    /// Allocation failed: nothing changes.
    #[inline(never)]
    pub(crate) fn split_home(&mut self, hash: u64) -> Result<bool, AllocError>
        ensures split { TriesSplit hash self.old result self.new }
        ensures kept { Keeps self.old self.new }
        ensures placed { (hash_of : K → ℕ) → ArePlaced hash_of self.old
            → ArePlaced hash_of self.new }
        ensures long { result ≡ Ok true → IsLength (length self.new.linked)
            × IsLength (length self.new.current) }
    {
        if !self.may_split(hash) {
            return Ok(false);
        }
        match self.remake_array(self.len() * (2 * BUCKET_LEN)) {
            Ok(()) => {
                let _old_len = self.old_len();
                let _len = self.len();
                Ok(true)
            }
            Err(refused) => Err(refused),
        }
    }
}

impl<K, V, L: LruList, const TYPE: u8> Arrays<K, V, L, TYPE> {
    /// Returns whether there is no old array, and so many slots near an index are live that the
    /// array should grow.
    #[inline(never)]
    pub(crate) fn asks_growth(&self, index: usize) -> bool
        ensures { IsTrue result ↔ AsksGrowth self.now index }
    {
        if self.len() == 0 || self.has_old() {
            return false;
        }
        let (slots, live) = near_slots(self.array_of(Side::Current), index);
        BucketArray::<K, V, L, TYPE>::need_enlarge(slots, live)
    }

    /// Returns whether there is no old array, the array has more slots than the minimum, and so few
    /// near an index are live that it should shrink.
    pub(crate) fn asks_shrinking(&self, index: usize) -> bool
        ensures { IsTrue result ↔ AsksShrinking self.now index }
    {
        if self.len() == 0 || self.has_old() {
            return false;
        }
        let array = self.array_of(Side::Current);
        if array.num_slots() <= self.minimum {
            return false;
        }
        let (slots, live) = near_slots(array, index);
        BucketArray::<K, V, L, TYPE>::need_shrink(slots, live)
    }

    /// Returns whether there is no old array, and the home of a hash is an overfull bucket.
    #[inline(always)]
    pub(crate) fn has_full_home(&self, hash: u64) -> bool
        ensures { IsTrue result ↔ HasFullHome hash self.now }
    {
        if self.has_old() {
            return false;
        }
        if !self.has_current() {
            return false;
        }
        let index = self.home(hash);
        self.fact_room_of(Side::Current);
        is_overfull(self.bucket_of(Side::Current, index))
    }

    /// Returns whether there is no old array, the home of a hash has as many pairs as own slots,
    /// and twice the slots do not exceed the maximum.
    #[inline(always)]
    fn may_split(&self, hash: u64) -> bool
        ensures { IsTrue result ↔ MaySplit hash self.now }
    {
        if self.has_old() {
            return false;
        }
        if !self.has_current() {
            return false;
        }
        let index = self.home(hash);
        self.fact_room_of(Side::Current);
        if self.bucket_of(Side::Current, index).len() != BUCKET_LEN {
            return false;
        }
        self.len() * (2 * BUCKET_LEN) <= self.maximum
    }

    /// Returns the index of a hash's home in the old array.
    #[inline(always)]
    pub(crate) fn old_home(&self, hash: u64) -> usize
        requires { 0 < length self.now.linked }
        ensures { IsHome (length self.now.linked) hash result }
    {
        self.array_of(Side::Old).bucket_index(hash)
    }
}

/// Returns the number of own slots of a few buckets near an index, and how many of them are live.
fn near_slots<K, V, L: LruList, const TYPE: u8>(
    array: &BucketArray<K, V, L, TYPE>,
    index: usize,
) -> (usize, usize)
    ensures full { IsTooFull result.0 result.1 ↔ IsCrowded (live_counts array.now) index }
    ensures empty { IsTooEmpty result.0 result.1 ↔ IsDeserted (live_counts array.now) index }
{
    let _len = array.len();
    let size = array.small_sample_size();
    let live = live_slots(array, index % size, size);
    (size * BUCKET_LEN, live)
}

/// Returns whether a bucket has far more pairs than own slots, or as many and a long chain, whose
/// slots may be tombstones.
fn is_overfull<K, V, L: LruList, const TYPE: u8>(bucket: &Bucket<K, V, L, TYPE>) -> bool
    ensures { IsTrue result ↔ IsOverfullBucket bucket.now }
{
    let live = bucket.len();
    if live >= OVERFULL_LEN {
        return true;
    }
    if live < BUCKET_LEN {
        return false;
    }
    bucket.chain_len() >= LONG_CHAIN_LEN
}

/// The number of live pairs that makes a bucket overfull: one and a half for each own slot.
const OVERFULL_LEN: usize = BUCKET_LEN / 2 * 3;

/// The number of blocks that makes a chain long.
const LONG_CHAIN_LEN: usize = 8;

const _: () = prove!(OVERFULL_LEN == 48);
