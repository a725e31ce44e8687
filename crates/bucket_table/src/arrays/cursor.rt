//! Cursors over the arrays.
ghost use Rattle.std.specs.Prelude.{◌≡◌, ◌≢◌, ℕ, ◌<◌, ◌≤◌, ◌+◌, [], Ok, length, IfOk};
ghost use Rattle.bucket_slots.specs.BucketView.{BucketView, pairs_in};
ghost use Rattle.bucket_slots.specs.Homes.{IsInInterval, interval_width};
ghost use Rattle.bucket_slots.specs.Sizing.{IsLength};
ghost use Rattle.bucket_slots.specs.Walking.{MovesToNext, pairs_ahead};
ghost use Rattle.bucket_table.specs.Views.ArraysView.{ArePlaced};
ghost use Rattle.bucket_table.specs.Walking.Cursors.{ShrinksThenPasses, IsFoundFrom, Leaves};
ghost use Rattle.bucket_table.specs.Walking.Cursors.{LeavesTo, ReachesPast, Passes, bound_of};
ghost use Rattle.bucket_table.specs.Views.Keeping.{Keeps, KeepsArrays};
ghost use Rattle.bucket_table.specs.Walking.Retains.{AnswersBy};
ghost use Rattle.bucket_table.specs.Views.Sides.{arrays_with, bucket_on, buckets_on};
ghost use Rattle.bucket_table.specs.Walking.Sweeps.{RetainsAt};
ghost use Rattle.bucket_table.specs.declared.arrays.side.Side.TheVariants.{Current};

use super::{Arrays, Missing, Side};
use crate::capacity::from_index_to_range;
use crate::key_hash::KeyHash;
use crate::retain::retain_in;
use crate::visit::Visit;
use bucket_slots::bucket::{Bucket, EntryPtr, Generation};
use bucket_slots::lru::LruList;

impl<K: Eq + Drop, V: Drop, L: LruList + Drop, const TYPE: u8> Arrays<K, V, L, TYPE> {
    /// Moves a pointer to the first live pair of the current buckets from `start` on, and returns
    /// that bucket's index.
    ///
    /// # Errors
    ///
    /// There is no live pair, or allocation failed: the pointer is null.
    pub(crate) fn first_from<H: KeyHash<K>>(
        &mut self,
        hasher: &H,
        start: usize,
        at: &mut EntryPtr<K, V, TYPE>,
    ) -> Result<usize, Missing>
        requires placed { ArePlaced (H.hash_of hasher.now) self.old }
        ensures placed { ArePlaced (H.hash_of hasher.now) self.new }
        ensures kept { KeepsArrays self.old self.new }
        ensures found { IsFoundFrom (H.hash_of hasher.now)
            (bound_of (length self.old.current) start) result self.new at.new }
        ensures order { IfOk result (λ found. start ≤ found) }
        ensures passes { (bound : ℕ)
            → (0 < interval_width (length self.old.current)
            → IsInInterval (length self.old.current) start bound)
            → Passes (λ index. index) bound self.old result self.new }
    {
        *at = EntryPtr::null();
        let mut index = start;
        while index < self.len() {
            let Ok(()) = self.prepare_at(hasher, index) else {
                return Err(Missing::Memory);
            };
            self.fact_room_of(Side::Current);
            if at.find_next(self.bucket_of(Side::Current, index)) {
                return Ok(index);
            }
            index += 1;
        }
        self.fact_sound();
        Err(Missing::Nothing)
    }

    /// Moves a pointer to the first live pair past a bucket of an array of `len` buckets, and
    /// returns that pair's current bucket.
    ///
    /// # Errors
    ///
    /// No live pair has a hash past the bucket's, or allocation failed: the pointer is null.
    fn first_past<H: KeyHash<K>>(
        &mut self,
        hasher: &H,
        index: usize,
        len: usize,
        at: &mut EntryPtr<K, V, TYPE>,
    ) -> Result<usize, Missing>
        requires length { IsLength len }
        requires within { index < len }
        requires placed { ArePlaced (H.hash_of hasher.now) self.old }
        ensures placed { ArePlaced (H.hash_of hasher.now) self.new }
        ensures kept { KeepsArrays self.old self.new }
        ensures found { IsFoundFrom (H.hash_of hasher.now) (bound_of len (index + 1)) result
            self.new at.new }
        ensures reaches { ReachesPast (bound_of len (index + 1)) result self.new }
        ensures passes { Passes (λ index. index) (bound_of len (index + 1)) self.old result
            self.new }
    {
        *at = EntryPtr::null();
        self.fact_sound();
        let now = self.len();
        if now == 0 {
            return Err(Missing::Nothing);
        }
        if index + 1 == len {
            return Err(Missing::Nothing);
        }
        self.first_from(hasher, scaled(len, now, index + 1), at)
    }

    /// Moves a pointer to the first live pair past a bucket, and returns that pair's current
    /// bucket. If the bucket is empty, the arrays may be resized first.
    ///
    /// # Errors
    ///
    /// No live pair has a hash past the bucket's, or allocation failed: the pointer is null.
    pub(crate) fn first_past_bucket<H: KeyHash<K>>(
        &mut self,
        hasher: &H,
        side: Side,
        index: usize,
        at: &mut EntryPtr<K, V, TYPE>,
    ) -> Result<usize, Missing>
        requires within { index < length (buckets_on self.old side) }
        requires placed { ArePlaced (H.hash_of hasher.now) self.old }
        ensures placed { ArePlaced (H.hash_of hasher.now) self.new }
        ensures kept { Keeps self.old self.new }
        ensures leaves { Leaves (H.hash_of hasher.now) (bound_of
            (length (buckets_on self.old side)) (index + 1)) result self.new at.new }
        ensures departs { ShrinksThenPasses (λ index. index) side index self.old result self.new }
    {
        let len = self.len_on(side);
        self.shrink_emptied(side, index);
        self.first_past(hasher, index, len, at)
    }

    /// Moves a pointer from its place in a bucket to the next live pair. Returns the side of that
    /// pair's bucket, and its index.
    ///
    /// # Errors
    ///
    /// No live pair has a hash past the bucket's, or allocation failed: the pointer is null.
    pub(crate) fn advance<H: KeyHash<K>>(
        &mut self,
        hasher: &H,
        side: Side,
        index: usize,
        at: &mut EntryPtr<K, V, TYPE>,
    ) -> Result<(Side, usize), Missing>
        requires within { index < length (buckets_on self.old side) }
        requires placed { ArePlaced (H.hash_of hasher.now) self.old }
        ensures placed { ArePlaced (H.hash_of hasher.now) self.new }
        ensures kept { Keeps self.old self.new }
        ensures stays { pairs_ahead (bucket_on self.old side index) at.old ≢ []
            → (result ≡ Ok (side, index)) × (self.new ≡ self.old)
            × MovesToNext (bucket_on self.old side index) at.old at.new }
        ensures leaves { pairs_ahead (bucket_on self.old side index) at.old ≡ []
            → LeavesTo (H.hash_of hasher.now) (bound_of (length (buckets_on self.old side))
            (index + 1)) result self.new at.new }
        ensures departs { pairs_ahead (bucket_on self.old side index) at.old ≡ []
            → ShrinksThenPasses (λ to. to.1) side index self.old result self.new }
    {
        self.fact_room_of(side);
        if at.find_next(self.bucket_of(side, index)) {
            return Ok((side, index));
        }
        match self.first_past_bucket(hasher, side, index, at) {
            Ok(next) => Ok((Side::Current, next)),
            Err(missing) => Err(missing),
        }
    }

    /// Lends a current bucket to a visitor.
    pub(crate) fn visit_at<F: Visit<Bucket<K, V, L, TYPE>>>(
        &mut self,
        index: usize,
        visitor: &mut F,
        flag: &mut bool,
    ) -> bool
        requires within { index < length self.old.current }
        requires may { F.may_visit visitor.old }
        ensures again { F.may_visit visitor.new }
        ensures visited { (left : BucketView K V)
            × F.visits visitor.old (bucket_on self.old Current index) flag.old result left flag.new
            visitor.new
            × (self.new ≡ arrays_with self.old Current index left) }
    {
        self.fact_room_of(Side::Current);
        let stops = visitor.visit(self.bucket_of_mut(Side::Current, index), flag);
        self.refresh_on(Side::Current, index);
        stops
    }

    /// Returns the number of pairs in a current bucket.
    pub(crate) fn len_at(&self, index: usize) -> usize
        requires within { index < length self.now.current }
        ensures { result ≡ length (pairs_in (bucket_on self.now Current index)) }
    {
        self.fact_room_of(Side::Current);
        self.bucket_of(Side::Current, index).len()
    }

    /// Removes each pair of a current bucket for which `keep` returns false; in an index it becomes
    /// a tombstone. Returns how many were removed.
    pub(crate) fn retain_bucket<F: Fn(&K, &V) -> bool, G: Generation>(
        &mut self,
        index: usize,
        keep: &F,
        generation: &G,
    ) -> usize
        requires within { index < length self.old.current }
        requires callable { F.IsAlwaysCallable keep.now }
        ensures retained { RetainsAt
            (AnswersBy (λ key value answer. F.post keep.now key value answer)) TYPE
            (G.epoch_of generation.now) self.old index result self.new }
    {
        self.fact_room_of(Side::Current);
        let gone = retain_in(self.bucket_of_mut(Side::Current, index), keep, generation);
        self.refresh_on(Side::Current, index);
        gone
    }
}

/// Returns the index in an array of `to` buckets at which a walk continues that has reached `index`
/// in an array of `from` buckets.
fn scaled(from: usize, to: usize, index: usize) -> usize
    requires from_length { IsLength from }
    requires to_length { IsLength to }
    requires within { index < from }
    ensures early { bound_of to result ≤ bound_of from index }
    ensures reaches { bound_of from index < bound_of to (result + 1) }
{
    if from == to {
        return index;
    }
    from_index_to_range(from, to, index).0
}
