//! Cursors over a table, and sweeps by them.
ghost use Rattle.std.specs.Prelude.{◌≡◌, ◌≢◌, ◌<◌, ◌+◌, [], ℕ, Bool, Ok, Err, length, IfOk};
ghost use Rattle.std.specs.Prelude.{IsErrAnd, IsOk, OnErr, if◌then◌else◌, is_ok};
ghost use Rattle.std.specs.Borrow.{RestsIfErr, sem};
ghost use Rattle.std.specs.Result.{result_map_both};
ghost use Rattle.bucket_slots.specs.BucketView.{null_place, pairs_in};
ghost use Rattle.bucket_slots.specs.Marking.{HasNoNewMark, MarksBy};
ghost use Rattle.bucket_slots.specs.Walking.{pairs_ahead};
ghost use Rattle.bucket_table.specs.Views.ArraysView.{tombstones_of, pairs_of};
ghost use Rattle.bucket_table.specs.Resize.Asking.{AsksShrinking};
ghost use Rattle.bucket_table.specs.Walking.Cursors.{Advances, ShrinksThenPasses, HasNoneFrom};
ghost use Rattle.bucket_table.specs.Walking.Cursors.{Leaves, SetsOut, bound_of};
ghost use Rattle.bucket_table.specs.Views.Locking.{IsLocked};
ghost use Rattle.bucket_table.specs.Map.MapState.{KeepsPairs, state_of};
ghost use Rattle.bucket_table.specs.Walking.Retains.{AnswersBy, IsSwept, IsSweptBelow};
ghost use Rattle.bucket_table.specs.Views.Settings.{KeepsSettings};
ghost use Rattle.bucket_table.specs.Views.Sides.{bucket_on, buckets_on};
ghost use Rattle.bucket_table.specs.Walking.Sweeps.{RetainsAt, Sweeps};
ghost use Rattle.bucket_table.specs.Views.TableRow.{table_row};
ghost use Rattle.bucket_table.specs.declared.arrays.side.Side.TheVariants.{Current};

use crate::arrays::Side;
use crate::hash_table::{HashTable, LockedBucket, Missing};
use crate::key_hash::KeyHash;
use bucket_slots::bucket::{EntryPtr, Generation};
use bucket_slots::lru::LruList;
use std::alloc::AllocError;

impl<K: Eq + Drop, V: Drop, H: KeyHash<K>, L: LruList + Drop, const TYPE: u8> HashTable<
    K,
    V,
    H,
    L,
    TYPE,
> {
    /// Removes each pair for which `keep` returns false; in an index it becomes a tombstone.
    /// Returns how many were removed, saturating.
    ///
    /// # Errors
    ///
    /// Allocation failed: the pairs with hashes below some bound are swept, and the others are
    /// unchanged.
    ///
    /// O(pairs, and buckets of the arrays that it passes).
    pub fn sweep<F: Fn(&K, &V) -> bool, G: Generation>(
        &mut self,
        keep: &F,
        generation: &G,
    ) -> Result<usize, AllocError>
        requires callable { F.IsAlwaysCallable keep.now }
        ensures settings { KeepsSettings self.old self.new }
        ensures swept { IfOk result (λ count. (test : K × V → Bool)
            → AnswersBy (λ key value answer. F.post keep.now key value answer) test
            → IsSwept test (pairs_of self.old.arrays) (pairs_of self.new.arrays) count) }
        ensures arrays { Sweeps (AnswersBy (λ key value answer. F.post keep.now key value answer))
            TYPE (G.epoch_of generation.now) self.old.arrays
            (record {
              place = Err (if is_ok result then Missing.Nothing else Missing.Memory);
              arrays = self.new.arrays;
            }) }
        ensures marks { MarksBy (G.epoch_of generation.now) (tombstones_of self.old.arrays)
            (tombstones_of self.new.arrays) }
        ensures unchanged { length self.old.arrays.linked ≡ 0 → result ≡ Ok 0
            → self.new ≡ self.old }
        ensures refused { OnErr result ((bound : ℕ) × ((test : K × V → Bool)
            → AnswersBy (λ key value answer. F.post keep.now key value answer) test
            → IsSweptBelow (H.hash_of self.old.hasher) bound test (pairs_of self.old.arrays)
            (pairs_of self.new.arrays))) }
    {
        let mut count: usize = 0;
        let mut at = EntryPtr::null();
        let mut place = self.first(&mut at);
        while let Ok(index) = place {
            self.fact_sound();
            let taken = self.retain_bucket(index, keep, generation);
            count = count.saturating_add(taken);
            place = self.first_past_bucket(index, &mut at);
        }
        match place {
            Err(Missing::Memory) => Err(AllocError),
            _ => Ok(count),
        }
    }

    /// Moves a pointer to the first live pair, and returns that pair's current bucket.
    fn first(&mut self, at: &mut EntryPtr<K, V, TYPE>) -> Result<usize, Missing>
        ensures sets_out { SetsOut TYPE H.hash_of self.old result at.new self.new }
        ensures none { result ≡ Err Missing.Nothing → pairs_of self.old.arrays ≡ [] }
    {
        self.arrays.first_from(&self.hasher, 0, at)
    }

    /// Moves a pointer to the first live pair past a current bucket, and returns that pair's
    /// current bucket.
    fn first_past_bucket(
        &mut self,
        index: usize,
        at: &mut EntryPtr<K, V, TYPE>,
    ) -> Result<usize, Missing>
        requires within { index < length self.old.arrays.current }
        ensures map { KeepsPairs (state_of TYPE self.old) (state_of TYPE self.new) }
        ensures leaves { Leaves (H.hash_of self.old.hasher)
            (bound_of (length self.old.arrays.current) (index + 1)) result
            self.new.arrays at.new }
        ensures departs { ShrinksThenPasses (λ to. to) Current index self.old.arrays result
            self.new.arrays }
        ensures marks { HasNoNewMark (tombstones_of self.old.arrays)
            (tombstones_of self.new.arrays) }
    {
        self.arrays
            .first_past_bucket(&self.hasher, Side::Current, index, at)
    }

    /// Removes each pair of a current bucket for which `keep` returns false. Returns how many were
    /// removed.
    fn retain_bucket<F: Fn(&K, &V) -> bool, G: Generation>(
        &mut self,
        index: usize,
        keep: &F,
        generation: &G,
    ) -> usize
        requires locked { IsLocked self.old.arrays Current index }
        requires callable { F.IsAlwaysCallable keep.now }
        ensures hasher { self.new.hasher ≡ self.old.hasher }
        ensures retained { RetainsAt
            (AnswersBy (λ key value answer. F.post keep.now key value answer)) TYPE
            (G.epoch_of generation.now) self.old.arrays index result self.new.arrays }
    {
        let before = self.arrays.len_at(index);
        let gone = self.arrays.retain_bucket(index, keep, generation);
        let after = self.arrays.len_at(index);
        self.count = self.arrays.count_after(&self.count, before, after);
        gone
    }

    /// Moves a pointer to the first live pair, and locks that pair's bucket.
    ///
    /// Works a unit before each bucket that it passes.
    ///
    /// # Errors
    ///
    /// The map is empty, or allocation failed while there is an old array: the pointer is null.
    ///
    /// O(buckets passed, and pairs that move).
    pub fn first_sync(
        &mut self,
        at: &mut EntryPtr<K, V, TYPE>,
    ) -> Result<LockedBucket<'_, K, V, H, L, TYPE>, Missing>
        ensures* rests { sem 𝓛 (RestsIfErr
            (table_row K.row V.row H.row L.row TYPE.row K.PartialEq H.KeyHash
            (record { KEEPS = L.KEEPS; listed = L.listed; IsTail = L.IsTail }) L.Default)
            self.entry (λ locked. locked.table.ghost_name) result
            (SetsOut TYPE H.hash_of self.old
            (result_map_both (λ locked. locked.index) (λ missing. missing) result) at.new)) }
        ensures same_table { IfOk result (λ locked. locked.table.ghost_name
            ≡ self.entry.ghost_name) }
        ensures sets_out { IfOk result (λ locked. SetsOut TYPE H.hash_of self.old
            (result_map_both (λ locked. locked.index) (λ missing. missing) result) at.new
            locked.table.now) }
        ensures side { IfOk result (λ locked. locked.side ≡ Current) }
        ensures none { result ≡ Err Missing.Nothing → pairs_of self.old.arrays ≡ [] }
        ensures null { OnErr result (at.new ≡ null_place) }
        ensures succeeds { length self.old.arrays.linked ≡ 0
            → IsErrAnd result (λ missing. missing ≡ Missing.Memory) → ⊥ }
    {
        match self.first(at) {
            Ok(index) => Ok(self.lock(Side::Current, index)),
            Err(missing) => Err(missing),
        }
    }
}

impl<'a, K: Eq + Drop, V: Drop, H: KeyHash<K>, L: LruList + Drop, const TYPE: u8> LockedBucket<
    'a,
    K,
    V,
    H,
    L,
    TYPE,
> {
    /// Moves a pointer from its place in the bucket to the next live pair, and locks that pair's
    /// bucket.
    ///
    /// If it leaves a bucket without a live pair, the table may be resized. Before each bucket that
    /// it then passes, it works a unit. A pair may be visited twice.
    ///
    /// # Errors
    ///
    /// No live pair has a hash past the bucket's, or allocation failed while there is an old array:
    /// the pointer is null, and no bucket is locked.
    ///
    /// O(buckets passed, and pairs that move). scc: `LockedBucket::next_sync`.
    pub fn next_sync(self, at: &mut EntryPtr<K, V, TYPE>) -> Result<Self, Missing>
        ensures* rests { sem 𝓛 (RestsIfErr
            (table_row K.row V.row H.row L.row TYPE.row K.PartialEq H.KeyHash
            (record { KEEPS = L.KEEPS; listed = L.listed; IsTail = L.IsTail }) L.Default)
            self.entry.table (λ locked. locked.table.ghost_name) result
            (Advances TYPE H.hash_of self.entry.table.now self.entry.side self.entry.index at.old
            (result_map_both (λ locked. (locked.side, locked.index)) (λ missing. missing) result)
            at.new)) }
        ensures same_table { IfOk result (λ locked. locked.table.ghost_name
            ≡ self.entry.table.ghost_name) }
        ensures advances { IfOk result (λ locked. Advances TYPE H.hash_of self.entry.table.now
            self.entry.side self.entry.index at.old
            (result_map_both (λ locked. (locked.side, locked.index)) (λ missing. missing) result)
            at.new locked.table.now) }
        ensures held { pairs_ahead (bucket_on self.entry.table.now.arrays self.entry.side
            self.entry.index) at.old ≢ [] → IsOk result }
        ensures none { result ≡ Err Missing.Nothing
            → HasNoneFrom (H.hash_of self.entry.table.now.hasher)
            (bound_of (length (buckets_on self.entry.table.now.arrays self.entry.side))
            (self.entry.index + 1)) (pairs_of self.entry.table.now.arrays) }
        ensures null { OnErr result (at.new ≡ null_place) }
        ensures succeeds { length self.entry.table.now.arrays.linked ≡ 0
            → (pairs_in (bucket_on self.entry.table.now.arrays self.entry.side self.entry.index)
            ≡ [] → AsksShrinking self.entry.table.now.arrays self.entry.index → ⊥)
            → IsErrAnd result (λ missing. missing ≡ Missing.Memory) → ⊥ }
    {
        let LockedBucket { table, side, index } = self;
        match table.arrays.advance(&table.hasher, side, index, at) {
            Ok((side, index)) => Ok(LockedBucket { table, side, index }),
            Err(missing) => Err(missing),
        }
    }
}
