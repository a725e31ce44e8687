//! The buckets of both arrays in a row, those of the current one first: a place that moves from
//! live slot to live slot, and the number of pairs.
ghost use Rattle.std.specs.Prelude.{◌≡◌, ◌≢◌, ◌<◌, ◌≤◌, ◌^◌, [], false, IfNone, IfSome, IsTrue};
ghost use Rattle.std.specs.Prelude.{MatchOption, length, ◌*◌, ◌-◌, ◌++◌, ℕ, if◌then◌else◌, is_ok};
ghost use Rattle.std.specs.Prelude.{is_some};
ghost use Rattle.std.specs.Borrow.{sem};
ghost use Rattle.bucket_slots.specs.ArrayRoom.{BucketFits};
ghost use Rattle.bucket_slots.specs.ArrayView.{bucket_at};
ghost use Rattle.bucket_slots.specs.BucketView.{slot_in};
ghost use Rattle.bucket_slots.specs.OwnWalks.{AreOwnAfter};
ghost use Rattle.bucket_slots.specs.Slots.{is_live};
ghost use Rattle.bucket_table.specs.Walking.Row.{HasOwnLeft, LendsLeft, MovesOn, StandsAt};
ghost use Rattle.bucket_table.specs.Walking.Row.{pairs_from, row_of};
ghost use Rattle.bucket_table.specs.Views.ArraysView.{ArePlaced, entries_of, pairs_of};
ghost use Rattle.bucket_table.specs.Resize.Asking.{ResizesIf};
ghost use Rattle.bucket_table.specs.Map.Counting.{CountsAfter, CountsAndResizes, IsHeldBy};
ghost use Rattle.bucket_table.specs.Map.Counting.{IsOneLess, counted_to, put_count};
ghost use Rattle.bucket_table.specs.Views.Keeping.{Keeps};
ghost use Rattle.bucket_table.specs.Rehash.Units.{WorksUnits};

use super::{Arrays, Side};
use crate::key_hash::KeyHash;
use crate::pair_count::PairCount;
use bucket_slots::bucket::{BUCKET_LEN, Bucket, EntryPtr};
use bucket_slots::bucket_array::BucketArray;
use bucket_slots::lru::LruList;

impl<K, V, L: LruList, const TYPE: u8> Arrays<K, V, L, TYPE> {
    ghost use Rattle.bucket_table.specs.Views.ArraysLoan.{LendsNth};

    /// Returns whether the row has a bucket.
    #[inline(always)]
    pub(crate) fn has_row(&self) -> bool
        ensures some { IsTrue result → 0 < length (row_of self.now) }
        ensures none { result ≡ false → row_of self.now ≡ [] }
    {
        self.fact_sound();
        self.has_current()
    }

    /// Returns whether the row has a bucket. If `known` is true, it doesn't test.
    #[inline(always)]
    pub(super) fn has_row_or(&self, known: bool) -> bool
        requires { IsTrue known → 0 < length (row_of self.now) }
        ensures some { IsTrue result → 0 < length (row_of self.now) }
        ensures none { result ≡ false → row_of self.now ≡ [] }
    {
        known || self.has_row()
    }

    /// States that a bucket fits in memory; does nothing at run time. Generic code calls it before
    /// it reads a bucket.
    #[inline(always)]
    pub(crate) fn fact_row_room(&self)
        requires { 0 < length (row_of self.now) }
        ensures { BucketFits K.row V.row L.row TYPE.row
            (record { KEEPS = L.KEEPS; listed = L.listed; IsTail = L.IsTail }) L.Default }
    {
        self.fact_sound();
        if let Some(array) = &self.current {
            array.fact_room();
        }
    }

    /// Returns the bucket at an index of the row, or `None` past its end.
    #[inline(always)]
    pub(crate) fn nth(&self, index: usize) -> Option<&Bucket<K, V, L, TYPE>>
        ensures bucket { MatchOption result (length (row_of self.now) ≤ index) (λ bucket.
            (index < length (row_of self.now)) × (bucket.now ≡ bucket_at (row_of self.now) index)) }
        ensures few { IfSome result (λ _. index < 2 ^ 58) }
    {
        let len = self.len();
        if index < len {
            return Some(self.bucket_of(Side::Current, index));
        }
        let own = index - len;
        if own < self.old_len() {
            return Some(self.bucket_of(Side::Old, own));
        }
        None
    }

    /// Returns the array that has the bucket at an index of the row, and the bucket's index in that
    /// array, or `None` past the row's end.
    #[inline(always)]
    pub(super) fn array_at(&self, index: usize) -> Option<(&BucketArray<K, V, L, TYPE>, usize)>
        ensures array { MatchOption result (length (row_of self.now) ≤ index) (λ found.
            StandsAt (row_of self.now) index found.0.now found.1) }
        ensures few { IfSome result (λ _. index < 2 ^ 58) }
    {
        let len = self.len();
        if index < len {
            return Some((self.array_of(Side::Current), index));
        }
        let own = index - len;
        if own < self.old_len() {
            return Some((self.array_of(Side::Old), own));
        }
        None
    }

    /// Lends the bucket at an index of the row for writing.
    #[inline(always)]
    pub(crate) fn nth_mut(&mut self, index: usize) -> &mut Bucket<K, V, L, TYPE>
        requires { index < length (row_of self.old) }
        ensures* writes_back { sem 𝓛
            (LendsNth K.row V.row L.row TYPE.row
            (record { KEEPS = L.KEEPS; listed = L.listed; IsTail = L.IsTail }) L.Default
            self.entry index result) }
        ensures bucket { result.now ≡ bucket_at (row_of self.old) index }
    {
        let len = self.len();
        if index < len {
            return self.bucket_of_mut(Side::Current, index);
        }
        self.bucket_of_mut(Side::Old, index - len)
    }

    /// Refreshes the digest of a bucket of the row, if it is a current one. No bucket changes.
    #[inline(always)]
    pub(crate) fn refresh_nth(&mut self, index: usize)
        ensures { self.new ≡ self.old }
    {
        if index < self.len() {
            self.refresh_on(Side::Current, index);
        }
    }

    /// Returns a bucket and the bitmap of its live own slots after a place: the bucket in `here`
    /// with the bitmap `left`, or, if `left` is 0, those that `next_own` returns.
    #[inline(always)]
    pub(super) fn own_left<'a>(
        &'a self,
        index: &mut usize,
        at: &mut EntryPtr<K, V, TYPE>,
        here: &'a [Bucket<K, V, L, TYPE>],
        left: u32,
    ) -> Option<(&'a Bucket<K, V, L, TYPE>, u32)>
        requires { LendsLeft (row_of self.now) index.old at.old here.now left }
        ensures left { pairs_from (row_of self.now) index.old at.old
            ≡ pairs_from (row_of self.now) index.new at.new }
        ensures own { IfSome result (λ found.
            HasOwnLeft (row_of self.now) index.new at.new found.0.now found.1) }
    {
        if left != 0 {
            return Some((&here[0], left));
        }
        self.next_own(index, at)
    }

    /// Moves a place to the bucket with the next live slot of the row, but not to that slot.
    /// Returns the bucket and the bitmap of its live own slots after the place. Returns `None` at a
    /// bucket whose digest is stale and that has no live own slot after the place.
    #[inline(always)]
    pub(super) fn next_own(
        &self,
        index: &mut usize,
        at: &mut EntryPtr<K, V, TYPE>,
    ) -> Option<(&Bucket<K, V, L, TYPE>, u32)>
        ensures left { pairs_from (row_of self.now) index.old at.old
            ≡ pairs_from (row_of self.now) index.new at.new }
        ensures own { IfSome result (λ found.
            HasOwnLeft (row_of self.now) index.new at.new found.0.now found.1) }
    {
        'buckets: while let Some((array, own)) = self.array_at(*index) {
            let Some(left) = array.own_after(own, at) else {
                return own_in(array.bucket(own), at);
            };
            if left != 0 {
                return Some((array.bucket(own), left));
            }
            *index += 1;
            *at = EntryPtr::null();
        }
        None
    }

    /// Moves a place to the next live slot of the row, and returns that slot's bucket, or `None` if
    /// there is none.
    #[inline(always)]
    pub(super) fn next_slot(
        &self,
        index: &mut usize,
        at: &mut EntryPtr<K, V, TYPE>,
    ) -> Option<&Bucket<K, V, L, TYPE>>
        ensures moves { IfSome result (λ bucket.
            MovesOn (row_of self.now) index.old at.old bucket.now index.new at.new) }
        ensures live { IfSome result (λ bucket. IsTrue (is_live (slot_in bucket.now at.new))) }
        ensures within { IfSome result (λ _. index.new < length (row_of self.now)) }
        ensures there { IfSome result (λ _.
            IsTrue (is_live (slot_in (bucket_at (row_of self.now) index.new) at.new))) }
        ensures end { IfNone result ((pairs_from (row_of self.now) index.old at.old ≡ [])
            × (pairs_from (row_of self.now) index.new at.new ≡ [])) }
    {
        'buckets: while let Some(bucket) = self.nth(*index) {
            if at.find_next(bucket) {
                return Some(bucket);
            }
            *index += 1;
        }
        None
    }

    /// Returns the number of pairs, saturating.
    pub(crate) fn count(&self) -> usize
        ensures count { result ≡ counted_to (entries_of self.now) }
        ensures within { IsHeldBy (entries_of self.now) (self.now.current ++ self.now.linked) }
    {
        if !self.has_row() {
            return 0;
        }
        self.fact_row_room();
        let mut live: usize = 0;
        let mut index = 0;
        while let Some(bucket) = self.nth(index) {
            bucket.fact_sound();
            live = live.saturating_add(bucket.len());
            index += 1;
        }
        live
    }

    /// Returns the number of own slots of both arrays.
    #[inline(always)]
    pub(crate) fn own_slots(&self) -> usize
        ensures { result ≡ 32 * length (self.now.current ++ self.now.linked) }
    {
        (self.len() + self.old_len()) * BUCKET_LEN
    }

    /// Updates `count` after the removal of a pair.
    #[inline(always)]
    pub(crate) fn count_taken(&self, count: &mut PairCount)
        ensures { CountsAfter count.old 1 0 (pairs_of self.now) count.new }
    {
        if !count.step_down() {
            *count = PairCount::new(self.count());
        }
    }

    /// Updates `count` after a removal, which removed a pair if `taken` has one.
    #[inline(always)]
    pub(crate) fn count_removal<T>(&self, count: &mut PairCount, taken: &Option<T>)
        ensures { CountsAfter count.old (if is_some taken.now then 1 else 0) 0 (pairs_of self.now)
            count.new }
    {
        match taken {
            Some(_) => self.count_taken(count),
            None => {}
        }
    }

    /// Updates `count` after an insertion, which inserted a pair if `done` is `Ok`.
    #[inline(always)]
    pub(crate) fn count_insertion<T, E>(&self, count: &mut PairCount, done: &Result<T, E>)
        ensures { CountsAfter count.old 0 (if is_ok done.now then 1 else 0) (pairs_of self.now)
            count.new }
    {
        match done {
            Ok(_) => count.step_up(),
            Err(_) => {}
        }
    }

    /// Returns the number of pairs, saturating, after `gone` pairs were removed and `added` ones
    /// inserted. `count` is the number before.
    #[inline(always)]
    pub(crate) fn count_after(&self, count: &PairCount, gone: usize, added: usize) -> PairCount
        ensures { CountsAfter count.now gone added (pairs_of self.now) result }
    {
        let before = count.get();
        if gone <= added {
            return PairCount::new(before.saturating_add(added - gone));
        }
        if before == usize::MAX || before < gone - added {
            return PairCount::new(self.count());
        }
        PairCount::new(before - (gone - added))
    }
}

/// Returns a bucket and the bitmap of its live own slots after a place, or `None` if there are
/// none.
#[inline(always)]
fn own_in<'a, K, V, L: LruList, const TYPE: u8>(
    bucket: &'a Bucket<K, V, L, TYPE>,
    at: &EntryPtr<K, V, TYPE>,
) -> Option<(&'a Bucket<K, V, L, TYPE>, u32)>
    ensures { IfSome result (λ found.
        (found.0.now ≡ bucket.now) × (found.1 ≢ 0) × AreOwnAfter bucket.now at.now found.1) }
{
    let left = bucket.own_after(at);
    if left == 0 {
        return None;
    }
    Some((bucket, left))
}

impl<K: Eq + Drop, V: Drop, L: LruList + Drop, const TYPE: u8> Arrays<K, V, L, TYPE> {
    /// Works a unit. If `count`, the number of pairs, is 0 and so is the minimum, it resizes.
    pub(crate) fn count_on<H: KeyHash<K>>(&mut self, hasher: &H, count: usize)
        requires count { count ≡ counted_to (pairs_of self.old) }
        requires placed { ArePlaced (H.hash_of hasher.now) self.old }
        ensures placed { ArePlaced (H.hash_of hasher.now) self.new }
        ensures kept { Keeps self.old self.new }
        ensures units { WorksUnits 1 (λ index. ⊥) self.old self.new }
        ensures arrays { CountsAndResizes self.old self.new }
        ensures alone { length self.old.linked ≡ 0 → (entries_of self.old ≡ [] → ⊥)
            → self.new ≡ self.old }
    {
        let _ = self.work_unit(hasher);
        if count != 0 {
            return;
        }
        self.drop_if_empty();
    }

    /// Resizes arrays without pairs if the minimum is 0.
    fn drop_if_empty(&mut self)
        requires empty { entries_of self.old ≡ [] }
        ensures kept { Keeps self.old self.new }
        ensures linked { self.new.linked ≡ self.old.linked }
        ensures tickets { self.new.tickets ≡ self.old.tickets }
        ensures resized { ResizesIf ((entries_of self.old ≡ []) × (self.old.minimum ≡ 0))
            self.old self.new }
        ensures placed { (hash : K → ℕ) → ArePlaced hash self.old → ArePlaced hash self.new }
    {
        if self.minimum != 0 {
            return;
        }
        let _ = self.try_resize();
    }
}

/// Returns 1 for `Some`, and 0 for `None`.
#[inline(always)]
pub(crate) fn some_len<T>(held: &Option<T>) -> usize
    ensures { result ≡ (if is_some held.now then 1 else 0) }
{
    match held {
        Some(_) => 1,
        None => 0,
    }
}

/// Returns 1 if a pair was inserted and none was evicted for it, and 0 otherwise.
#[inline(always)]
pub(crate) fn put_len<T, E>(done: &Result<Option<T>, E>) -> usize
    ensures { result ≡ put_count done.now }
{
    match done {
        Ok(None) => 1,
        Ok(Some(_)) => 0,
        Err(_) => 0,
    }
}

/// Returns whether a count of pairs, which saturates, is exact.
#[inline(always)]
pub(crate) fn is_exact(count: usize) -> bool
    ensures { IsTrue result → count ≢ 2 ^ 64 - 1 }
{
    count != usize::MAX
}

/// Returns the remaining number after one more removal.
#[inline(always)]
pub(crate) fn one_less(rest: usize) -> usize
    ensures { IsOneLess rest result }
{
    rest.wrapping_sub(1)
}

/// Returns the remaining number after a step.
#[inline(always)]
pub(crate) fn rest_after<T>(rest: usize, step: &Option<T>) -> usize
    ensures { MatchOption step.now (result ≡ rest) (λ _. IsOneLess rest result) }
{
    match step {
        Some(_) => one_less(rest),
        None => rest,
    }
}
