//! All pairs of a table: counted, iterated over, kept or removed by a function, or taken out.
//!
//! Ports `num_entries` and `has_entry` of scc's `src/hash_table.rs`.
ghost use Rattle.std.specs.Prelude.{◌*◌, ◌≤◌, ◌≡◌, ◌↔◌, ◌<◌, ◌++◌, [], IsTrue, length, ◌^◌, ◌≢◌};
ghost use Rattle.std.specs.Prelude.{IfErr, IfOk, Some, true};
ghost use Rattle.std.specs.Borrow.{Bor};
ghost use Rattle.bucket_table.specs.Map.Cloning.{AreMadeOf};
ghost use Rattle.bucket_table.specs.Views.ArraysView.{pairs_of, tombstones_of, IsOneMap};
ghost use Rattle.bucket_table.specs.Map.Counting.{CountsAndResizes, IsHeldBy, counted_to};
ghost use Rattle.bucket_table.specs.Map.MapState.{KeepsPairs, state_of};
ghost use Rattle.bucket_table.specs.Rehash.Units.{WorksUnits};
ghost use Rattle.bucket_slots.specs.ArrayView.{bucket_at};
ghost use Rattle.bucket_slots.specs.BucketView.{pairs_in};
ghost use Rattle.bucket_slots.specs.Walking.{CallsEach};
ghost use Rattle.bucket_table.specs.Walking.Drains.{emptied};
ghost use Rattle.bucket_table.specs.Walking.Row.{row_of};
ghost use Rattle.bucket_slots.specs.Marking.{MarksBy};
ghost use Rattle.bucket_table.specs.Views.Settings.{KeepsSettings};
ghost use Rattle.bucket_table.specs.Walking.Retains.{AreLeftOf, RetainsEach, RetainsIn, gone_len};
ghost use Rattle.bucket_table.specs.Rehash.State.{first_tickets};

use crate::arrays::{TableDrain, TableExtract, TablePairs};
use crate::hash_table::HashTable;
use crate::key_hash::KeyHash;
use crate::pair_count::PairCount;
use crate::retain::retain_each_in;
use bucket_slots::bucket::{Generation, INDEX};
use bucket_slots::lru::LruList;
use std::alloc::Global;

impl<K: Eq + Drop, V: Drop, H: KeyHash<K>, L: LruList + Drop, const TYPE: u8> HashTable<
    K,
    V,
    H,
    L,
    TYPE,
> {
    /// Returns how many pairs the map has, at most 2^64 - 1.
    ///
    /// Works a unit. If no pair is found and the minimum is 0, it resizes as `try_resize` does, so
    /// that a count may drop the array. May take memory, and never fails.
    ///
    /// O(unit); O(buckets) if it drops the array. scc: `HashTable::num_entries`.
    pub fn num_entries(&mut self) -> usize
        ensures count { result ≡ counted_to (pairs_of self.new.arrays) }
        ensures map { KeepsPairs (state_of TYPE self.old) (state_of TYPE self.new) }
        ensures units { WorksUnits 1 (λ index. ⊥) self.old.arrays self.new.arrays }
        ensures arrays { CountsAndResizes self.old.arrays self.new.arrays }
        ensures alone { length self.old.arrays.linked ≡ 0 → (pairs_of self.old.arrays ≡ [] → ⊥)
            → self.new ≡ self.old }
    {
        self.arrays.count_on(&self.hasher, self.count.get());
        self.count.get()
    }

    /// Tests whether the map has a pair.
    ///
    /// Works a unit, and resizes as `num_entries` does. May take memory, and never fails.
    ///
    /// O(unit); O(buckets) if it drops the array. scc: `HashTable::has_entry`.
    pub fn has_entry(&mut self) -> bool
        ensures has { IsTrue result ↔ (0 < length (pairs_of self.new.arrays)) }
        ensures map { KeepsPairs (state_of TYPE self.old) (state_of TYPE self.new) }
        ensures units { WorksUnits 1 (λ index. ⊥) self.old.arrays self.new.arrays }
        ensures arrays { CountsAndResizes self.old.arrays self.new.arrays }
        ensures alone { length self.old.arrays.linked ≡ 0 → (pairs_of self.old.arrays ≡ [] → ⊥)
            → self.new ≡ self.old }
    {
        self.num_entries() > 0
    }

    /// Calls `keep` once with each pair, with the value lent for writing, and removes each pair for
    /// which it returns false; in an index it becomes a tombstone. Returns how many were removed,
    /// saturating.
    ///
    /// It goes through the current array first, then the old one. No pair moves, and nothing is
    /// resized.
    ///
    /// Allocates nothing itself. O(pairs, and buckets of both arrays), plus the calls of `keep`.
    pub fn retain<F: FnMut(&K, &mut V) -> bool, G: Generation>(
        &mut self,
        keep: &mut F,
        generation: &G,
    ) -> usize
        requires callable { F.IsAlwaysCallable keep.old }
        ensures again { F.IsAlwaysCallable keep.new }
        ensures retained { RetainsEach
            (λ state own before answer after last. F.step state own before answer after last)
            keep.old (pairs_of self.old.arrays) (pairs_of self.new.arrays) keep.new }
        ensures count { result ≡ gone_len (pairs_of self.old.arrays) (pairs_of self.new.arrays) }
        ensures marks { MarksBy (G.epoch_of generation.now) (tombstones_of self.old.arrays)
            (tombstones_of self.new.arrays) }
        // Only pairs change in the arrays, and the rehash goes on from where it was.
        ensures settings { KeepsSettings self.old self.new }
        ensures tickets { self.new.arrays.tickets ≡ self.old.arrays.tickets }
        ensures current { AreLeftOf TYPE (G.epoch_of generation.now) self.old.arrays.current
            self.new.arrays.current }
        ensures linked { AreLeftOf TYPE (G.epoch_of generation.now) self.old.arrays.linked
            self.new.arrays.linked }
    {
        if !self.arrays.has_row() {
            return 0;
        }
        self.arrays.fact_row_room();
        let mut count: usize = 0;
        let mut index = 0;
        while let Some(bucket) = self.arrays.nth(index) {
            if self.count.get() == 0 {
                return count;
            }
            if bucket.len() != 0 {
                let gone = self.retain_nth(index, keep, generation);
                count = count.saturating_add(gone);
            }
            index += 1;
        }
        count
    }

    /// Calls `keep` with each pair of a bucket of the row, if it has any. Returns how many were
    /// removed.
    fn retain_nth<F: FnMut(&K, &mut V) -> bool, G: Generation>(
        &mut self,
        index: usize,
        keep: &mut F,
        generation: &G,
    ) -> usize
        requires within { index < length (row_of self.old.arrays) }
        requires some { pairs_in (bucket_at (row_of self.old.arrays) index) ≢ [] }
        requires callable { F.IsAlwaysCallable keep.old }
        ensures again { F.IsAlwaysCallable keep.new }
        ensures retained { RetainsIn
            (λ state own before answer after last. F.step state own before answer after last)
            TYPE (G.epoch_of generation.now) keep.old self.old.arrays index result self.new.arrays
            keep.new }
        ensures hasher { self.new.hasher ≡ self.old.hasher }
    {
        self.arrays.fact_row_room();
        let gone = retain_each_in(self.arrays.nth_mut(index), keep, generation);
        self.arrays.refresh_nth(index);
        self.count = self.arrays.count_after(&self.count, gone, 0);
        gone
    }

    /// Drops both arrays with their pairs and tombstones. Open tickets end with the old array. The
    /// hasher and the capacities stay.
    ///
    /// Allocates nothing and never fails. O(pairs, and buckets).
    pub fn clear(&mut self)
        ensures hasher { self.new.hasher ≡ self.old.hasher }
        ensures arrays { self.new.arrays
            ≡ record self.old.arrays { current = []; linked = []; tickets = first_tickets 0 } }
    {
        self.arrays.clear();
        self.count = PairCount::new(0);
    }

    /// Drops all pairs and tombstones, and the old array, with which open tickets end. The hasher,
    /// the capacities and the slots of the current array stay.
    ///
    /// Allocates at most digests and never fails. O(pairs, and buckets).
    pub fn empty_slots(&mut self)
        ensures hasher { self.new.hasher ≡ self.old.hasher }
        ensures arrays { self.new.arrays ≡ emptied self.old.arrays }
    {
        self.arrays.empty_slots();
        self.count = PairCount::new(0);
    }
}

impl<K: Eq, V, H: KeyHash<K>, L: LruList, const TYPE: u8> HashTable<K, V, H, L, TYPE> {
    /// Returns how many pairs there are, at most 2^64 - 1.
    ///
    /// It changes nothing, works no unit, and counts the old array's pairs too.
    ///
    /// O(1). scc: `HashMap::len`.
    #[inline(always)]
    pub fn len(&self) -> usize
        ensures { result ≡ counted_to (pairs_of self.now.arrays) }
    {
        self.count.get()
    }

    /// Returns what `len` returns, and states that there are at most as many pairs as own slots,
    /// and those in the chains.
    ///
    /// O(1); O(buckets) if there are more pairs than own slots.
    pub fn bounded_len(&self) -> usize
        ensures count { result ≡ counted_to (pairs_of self.now.arrays) }
        ensures within { IsHeldBy (pairs_of self.now.arrays)
            (self.now.arrays.current ++ self.now.arrays.linked) }
    {
        if self.count.get() > self.arrays.own_slots() {
            return self.arrays.count();
        }
        self.count.get()
    }

    /// States that the current array has no more slots than the maximum; does nothing at run time.
    pub fn fact_bounded(&self)
        ensures { 32 * length self.now.arrays.current ≤ self.now.arrays.maximum }
    {
        self.arrays.fact_sound();
    }

    /// Tests whether the map has no pair.
    ///
    /// It changes nothing and works no unit.
    ///
    /// O(1). scc: `HashMap::is_empty`.
    pub fn is_empty(&self) -> bool
        ensures { IsTrue result ↔ pairs_of self.now.arrays ≡ [] }
    {
        self.count.get() == 0
    }

    /// Returns an iterator over the pairs, in the order of `for_each`, without tombstones.
    ///
    /// Changes nothing, works no unit and allocates nothing. O(1); all steps together O(slots, and
    /// the square of the number of blocks of each chain).
    pub fn pairs(&self) -> TablePairs<'_, K, V, L, TYPE>
        ensures { result ≡ pairs_of self.now.arrays }
    {
        self.arrays.pairs(self.count.get())
    }

    /// Calls a function once with each pair: bucket after bucket of the current array, then of the
    /// old one, each bucket in slot order.
    ///
    /// Changes nothing, works no unit, and allocates nothing itself.
    ///
    /// O(slots, and the square of the number of blocks of each chain), plus the function's calls.
    #[inline(always)]
    pub fn for_each<F: FnMut(&K, &V)>(&self, f: &mut F)
        requires callable { F.IsAlwaysCallable f.old }
        ensures again { F.IsAlwaysCallable f.new }
        ensures calls { CallsEach (λ state own value last. F.step state own value tt last) f.old
            (pairs_of self.now.arrays) f.new }
    {
        self.arrays.for_each(f);
    }

    /// Calls a function with each pair of one bucket, in slot order, and returns whether there is
    /// such a bucket. `bucket` counts the buckets of the current array, then those of the old one.
    ///
    /// Changes nothing, works no unit, and allocates nothing itself.
    ///
    /// O(32, and the square of the number of blocks of the chain), plus the function's calls.
    #[inline(always)]
    pub fn for_each_in<F: FnMut(&K, &V)>(&self, bucket: usize, f: &mut F) -> bool
        requires callable { F.IsAlwaysCallable f.old }
        ensures again { F.IsAlwaysCallable f.new }
        ensures there { IsTrue result ↔ bucket < length (row_of self.now.arrays) }
        ensures few { IsTrue result → bucket < 2 ^ 58 }
        ensures calls { CallsEach (λ state own value last. F.step state own value tt last) f.old
            (pairs_in (bucket_at (row_of self.now.arrays) bucket)) f.new }
    {
        self.arrays.for_each_in(bucket, f)
    }

    /// Takes both arrays out, and returns an iterator over their pairs by value, in the order of
    /// `for_each`. The table is empty at once; open tickets end with the old array, and the hasher
    /// and the capacities stay. When the iterator is dropped, so are the remaining pairs and the
    /// memory of the slots.
    ///
    /// Allocates nothing and never fails. O(1); all steps together O(pairs, and buckets).
    pub fn drain(&mut self) -> TableDrain<K, V, L, TYPE>
        requires not_index { TYPE ≢ INDEX }
        ensures pairs { result ≡ pairs_of self.old.arrays }
        ensures hasher { self.new.hasher ≡ self.old.hasher }
        ensures arrays { self.new.arrays
            ≡ record self.old.arrays { current = []; linked = []; tickets = first_tickets 0 } }
    {
        let count = self.count.get();
        self.count = PairCount::new(0);
        self.arrays.drain(count)
    }

    /// Takes both arrays out, with their tickets, for calls of `extract_next`. The table has no
    /// array until `restore` puts them back; the hasher and the capacities stay.
    ///
    /// Allocates nothing and never fails. O(1).
    pub fn extract(&mut self) -> TableExtract<K, V, L, TYPE>
        requires not_index { TYPE ≢ INDEX }
        ensures arrays_out { result.arrays ≡ self.old.arrays }
        ensures left { result.left ≡ pairs_of self.old.arrays }
        ensures hasher { self.new.hasher ≡ self.old.hasher }
        ensures arrays { self.new.arrays
            ≡ record self.old.arrays { current = []; linked = []; tickets = first_tickets 0 } }
    {
        let count = self.count.get();
        self.count = PairCount::new(0);
        self.arrays.extract(count)
    }

    /// Puts arrays back that were taken out, with their tickets and capacities, in exchange for
    /// those of the table.
    ///
    /// Allocates nothing and never fails. O(buckets), since it counts the pairs.
    pub fn restore(&mut self, taken: &mut TableExtract<K, V, L, TYPE>)
        requires one_map { ∥ IsOneMap K.eq (H.hash_of self.old.hasher) taken.old.arrays ∥₁ }
        ensures { self.new ≡ record self.old { arrays = taken.old.arrays } }
    {
        taken.swap_arrays(&mut self.arrays);
        self.count = PairCount::new(self.arrays.count());
    }
}

impl<K: Eq + Drop, V: Drop, H: KeyHash<K>, L: LruList + Drop, const TYPE: u8> HashTable<
    K,
    V,
    H,
    L,
    TYPE,
> {
    /// Returns a table with the same capacities and slots and another hasher. Its pairs are those
    /// that `make` returns for this table's pairs, each in the bucket of its original.
    ///
    /// # Errors
    ///
    /// The hasher is returned, and what was made is dropped, if there is no current array, or an
    /// old one; if `make` returns `None`; if a pair's home is another bucket; or if allocation
    /// fails.
    ///
    /// O(slots).
    pub fn cloned_by<F: Fn(&K, &V) -> Option<(K, V)>>(
        &self,
        alloc: Global,
        hasher: H,
        make: &F,
    ) -> Result<Self, H>
        requires callable { F.IsAlwaysCallable make.now }
        requires equal { (key : Bor K) (value : Bor V) (pair : K × V)
            → F.post make.now key value (Some pair)
            → K.eq key.now pair.0 ≡ true }
        ensures pairs { IfOk result (λ copy.
            AreMadeOf (λ key value made. F.post make.now key value made)
            (pairs_of self.now.arrays) (pairs_of copy.arrays)) }
        ensures hasher { IfOk result (λ copy. copy.hasher ≡ hasher) }
        ensures settings { IfOk result (λ copy. (copy.arrays.minimum ≡ self.now.arrays.minimum)
            × (copy.arrays.maximum ≡ self.now.arrays.maximum)) }
        ensures bounded { IfOk result (λ copy. copy.arrays.minimum ≤ copy.arrays.maximum) }
        ensures slots { IfOk result (λ copy.
            length copy.arrays.current ≡ length self.now.arrays.current) }
        ensures hasher_returned { IfErr result (λ back. back ≡ hasher) }
    {
        let Some(arrays) = self.arrays.cloned_by(alloc, &hasher, make) else {
            return Err(hasher);
        };
        arrays.fact_sound();
        Ok(HashTable {
            hasher,
            arrays,
            count: PairCount::new(self.count.get()),
        })
    }
}
