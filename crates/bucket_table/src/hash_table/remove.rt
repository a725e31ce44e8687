//! Calls that remove a pair, or make it a tombstone, by key or by a probe that matches only keys of
//! one hash.
ghost use Rattle.std.specs.Prelude.{◌≡◌, ◌≢◌, ◌<◌, Some, is_some, true};
ghost use Rattle.std.specs.Borrow.{Bor};
ghost use Rattle.bucket_slots.specs.Marking.{MarksBy, slots_marked};
ghost use Rattle.bucket_slots.specs.Removing.{slots_without};
ghost use Rattle.bucket_table.specs.Views.ArraysView.{tombstones_of, pairs_of};
ghost use Rattle.bucket_table.specs.Map.ByKey.{PreparesThen, Marks, ShrinksAt, Takes};
ghost use Rattle.bucket_table.specs.Map.Counting.{pairs_left};
ghost use Rattle.bucket_table.specs.Map.LookingUp.{IsThere};
ghost use Rattle.bucket_table.specs.Map.MapState.{state_of};

use crate::arrays::Side;
use crate::hash_table::{HashTable, ResizeRule};
use crate::key_hash::KeyHash;
use bucket_slots::bucket::{EqProbe, Generation, INDEX, KeyProbe};
use bucket_slots::lru::LruList;

impl<K: Eq + Drop, V: Drop, H: KeyHash<K>, L: LruList + Drop, const TYPE: u8> HashTable<
    K,
    V,
    H,
    L,
    TYPE,
> {
    /// Removes the pair with an equal key and returns it, or `None` exactly if the map has none.
    ///
    /// Works a unit. May allocate, and never fails. If no live pair is left in the bucket, the
    /// table may shrink, by the rule `rule`.
    ///
    /// O(unit; buckets if it shrinks).
    #[inline(always)]
    pub fn take(&mut self, key: &K, rule: ResizeRule) -> Option<(K, V)>
        requires not_index { TYPE ≢ INDEX }
        ensures map { Takes (λ own. K.eq own key.now) (state_of TYPE self.old) result
            (state_of TYPE self.new) }
        ensures arrays { PreparesThen TYPE (H.hash_of self.old.hasher key.now) self.old (λ between.
            ShrinksAt (λ own. K.eq own key.now) slots_without (pairs_left rule self.old.arrays)
            (is_some result) between self.new) }
    {
        let hash = self.hash(key);
        self.take_by(hash, &mut EqProbe::new(key), rule)
    }

    /// Calls `reader` with the pair of an index with an equal key, makes the pair a tombstone, and
    /// returns the result of `reader`. Returns `None` exactly if the map has none; then `reader`
    /// isn't called.
    ///
    /// Works a unit. May allocate, and never fails. If no live pair is left in the bucket, the
    /// table may shrink, by the rule `rule`.
    ///
    /// O(unit; buckets if it shrinks).
    pub fn mark<R, F: FnOnce(&K, &V) -> R, G: Generation>(
        &mut self,
        key: &K,
        generation: &G,
        rule: ResizeRule,
        reader: F,
    ) -> Option<R>
        requires index { TYPE ≡ INDEX }
        requires callable { (own : Bor K) (value : Bor V)
            → IsThere (λ own. K.eq own key.now) (pairs_of self.old.arrays) (own.now, value.now)
            → F.pre reader own value }
        ensures map { Marks (λ own. K.eq own key.now)
            (λ own value answer. F.post reader own value answer)
            (state_of TYPE self.old) result (state_of TYPE self.new) }
        ensures arrays { PreparesThen TYPE (H.hash_of self.old.hasher key.now) self.old (λ between.
            ShrinksAt (λ own. K.eq own key.now)
            (λ bucket at. slots_marked bucket at (G.epoch_of generation.now))
            (pairs_left rule self.old.arrays) (is_some result) between self.new) }
        ensures marks { MarksBy (G.epoch_of generation.now) (tombstones_of self.old.arrays)
            (tombstones_of self.new.arrays) }
    {
        let hash = self.hash(key);
        self.mark_by(hash, &mut EqProbe::new(key), generation, rule, reader)
    }

    /// Removes the first pair that matches a probe and returns it, or `None` exactly if the map has
    /// none. The probe must match only keys of this hash.
    ///
    /// Works a unit. May allocate, and never fails. If no live pair is left in the bucket, the
    /// table may shrink, by the rule `rule`.
    ///
    /// O(unit; buckets if it shrinks).
    #[inline(always)]
    pub fn take_by<P: KeyProbe<K>>(
        &mut self,
        hash: u64,
        probe: &mut P,
        rule: ResizeRule,
    ) -> Option<(K, V)>
        requires not_index { TYPE ≢ INDEX }
        requires own_hash { (key : K)
            → P.matches probe.old key ≡ true
            → H.hash_of self.old.hasher key ≡ hash }
        ensures map { Takes (P.matches probe.old) (state_of TYPE self.old) result
            (state_of TYPE self.new) }
        ensures arrays { PreparesThen TYPE hash self.old (λ between.
            ShrinksAt (P.matches probe.old) slots_without (pairs_left rule self.old.arrays)
            (is_some result) between self.new) }
        ensures fixed { P.matches probe.new ≡ P.matches probe.old }
    {
        let pairs = self.pairs_left(rule);
        let _ready = self.fetch_home(hash);
        if let Some(pair) = self.arrays.search_and_take(Side::Old, hash, probe, pairs) {
            self.arrays.count_taken(&mut self.count);
            return Some(pair);
        }
        let taken = self.arrays.take_on(Side::Current, hash, probe, pairs);
        self.arrays.count_removal(&mut self.count, &taken);
        taken
    }

    /// Calls `reader` with the first pair of an index that matches a probe, makes the pair a
    /// tombstone, and returns the result of `reader`. Returns `None` exactly if the map has none;
    /// then `reader` isn't called. The probe must match only keys of this hash.
    ///
    /// Works a unit. May allocate, and never fails. If no live pair is left in the bucket, the
    /// table may shrink, by the rule `rule`.
    ///
    /// O(unit; buckets if it shrinks).
    pub fn mark_by<R, F: FnOnce(&K, &V) -> R, G: Generation, P: KeyProbe<K>>(
        &mut self,
        hash: u64,
        probe: &mut P,
        generation: &G,
        rule: ResizeRule,
        reader: F,
    ) -> Option<R>
        requires index { TYPE ≡ INDEX }
        requires own_hash { (key : K)
            → P.matches probe.old key ≡ true
            → H.hash_of self.old.hasher key ≡ hash }
        requires callable { (own : Bor K) (value : Bor V)
            → IsThere (P.matches probe.old) (pairs_of self.old.arrays) (own.now, value.now)
            → F.pre reader own value }
        ensures map { Marks (P.matches probe.old)
            (λ own value answer. F.post reader own value answer)
            (state_of TYPE self.old) result (state_of TYPE self.new) }
        ensures arrays { PreparesThen TYPE hash self.old (λ between. ShrinksAt (P.matches probe.old)
            (λ bucket at. slots_marked bucket at (G.epoch_of generation.now))
            (pairs_left rule self.old.arrays) (is_some result) between self.new) }
        ensures marks { MarksBy (G.epoch_of generation.now) (tombstones_of self.old.arrays)
            (tombstones_of self.new.arrays) }
        ensures fixed { P.matches probe.new ≡ P.matches probe.old }
    {
        let pairs = self.pairs_left(rule);
        match self.fetch_spot(hash, probe) {
            Some(mut spot) => {
                let (key, value) = self.arrays.entry_of(spot.side, spot.index, &spot.at);
                let answer = reader(key, value);
                self.arrays
                    .mark_at(spot.side, spot.index, &mut spot.at, generation, pairs);
                self.arrays.count_taken(&mut self.count);
                Some(answer)
            }
            None => None,
        }
    }
}

impl<K: Eq, V, H: KeyHash<K>, L: LruList, const TYPE: u8> HashTable<K, V, H, L, TYPE> {
    /// Returns the number of pairs that a removal leaves, if the rule depends on it.
    #[inline(always)]
    fn pairs_left(&self, rule: ResizeRule) -> Option<usize>
        ensures { result ≡ pairs_left rule self.now.arrays }
    {
        match rule {
            ResizeRule::Sampled => None,
            ResizeRule::Counted => Some(self.count.get().saturating_sub(1)),
        }
    }
}
