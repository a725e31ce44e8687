//! Calls that remove the pairs of an index that a function picks.
ghost use Rattle.std.specs.Prelude.{◌≡◌};
ghost use Rattle.std.specs.Borrow.{Bor};
ghost use Rattle.std.specs.Bool.{OnFalse};
ghost use Rattle.bucket_slots.specs.Marking.{MarksBy};
ghost use Rattle.bucket_table.specs.Map.LookingUp.{IsThere};
ghost use Rattle.bucket_table.specs.Views.ArraysView.{tombstones_of, pairs_of};
ghost use Rattle.collections.specs.Maps.{map_of};
ghost use Rattle.collections.specs.Marks.{MarksRemoved};
ghost use Rattle.collections.specs.Removals.{TakesOutIf};
ghost use Rattle.collections.specs.Slots.{LosesSlots};
ghost use Rattle.collections.specs.Changes.{Retains};
ghost use Rattle.collections.specs.Retaining.{LeavesBuckets};

use crate::calling::fact_asks;
use crate::hash_index::HashIndex;
use crate::hash_index::generation::NoneKept;
use crate::key_form::{KeyForm, asks};
use bucket_slots::bucket::INDEX;
use bucket_table::key_hash::KeyHash;

impl<K: Eq + Drop, V: Drop, H: KeyHash<K>> HashIndex<K, V, H> {
    /// Calls a function with the pair under `key`, a key or a form of one. If it returns `true`,
    /// the pair is removed as by `remove`. Returns whether it was. If it returns `false`, or if the
    /// key is absent and the function isn't called, nothing changes.
    ///
    /// Never fails. O(1) expected, plus any resize. scc: `HashIndex::remove_if_sync`.
    pub fn remove_if<Q: KeyForm<K, H>, F: FnOnce(&K, &V) -> bool>(
        &mut self,
        key: Q,
        condition: F,
    ) -> bool
        requires callable { (own : Bor K) (value : Bor V)
            → IsThere (Q.stands_for key) (pairs_of self.old.arrays) (own.now, value.now)
            → F.pre condition own value }
        ensures map { TakesOutIf K.eq (Q.stands_for key)
            (λ own value answer. F.post condition own value answer) (map_of self.old) result
            (map_of self.new) }
        ensures unchanged { OnFalse result (self.new ≡ self.old) }
        ensures marks { MarksBy 0 (tombstones_of self.old.arrays) (tombstones_of self.new.arrays) }
        ensures marked { MarksRemoved (Q.stands_for key) result self.old.arrays self.new.arrays }
        ensures slots { LosesSlots result (map_of self.old) (map_of self.new) }
    {
        self.room.fact_fits();
        if asks(&self.table, key, condition) {
            self.remove(key)
        } else {
            false
        }
    }

    /// Calls a function once with each pair, and removes each pair for which it returns `false`. A
    /// removed pair leaves a tombstone, and earlier tombstones stay.
    ///
    /// Never fails and allocates nothing. O(slots), plus the function's calls. scc:
    /// `HashIndex::retain_sync`.
    pub fn retain<F: FnMut(&K, &V) -> bool>(&mut self, f: &mut F)
        requires callable { F.IsAlwaysCallable f.old }
        ensures again { F.IsAlwaysCallable f.new }
        ensures retained { Retains K.eq
            (λ state own before answer after last. (after.now ≡ before.now)
            × ((value : Bor V) × (value.now ≡ before.now) × F.step state own value answer last))
            f.old (map_of self.old) (map_of self.new) f.new }
        ensures marks { MarksBy 0 (tombstones_of self.old.arrays) (tombstones_of self.new.arrays) }
        ensures buckets { LeavesBuckets INDEX self.old.arrays self.new.arrays }
    {
        let mut keep = |key: &K, value: &mut V|
            requires { F.IsAlwaysCallable f.now }
            ensures { (value.new ≡ value.old) × ((lent : Bor V) × (lent.now ≡ value.old)
                × F.step f.entry.now key.entry lent result f.exit.now) }
        { f(key, &*value) };
        fact_asks(&keep);
        self.retain_mut(&mut keep);
    }

    /// Like `retain`, with a function that may write the values.
    fn retain_mut<F: FnMut(&K, &mut V) -> bool>(&mut self, f: &mut F)
        requires callable { F.IsAlwaysCallable f.old }
        ensures again { F.IsAlwaysCallable f.new }
        ensures retained { Retains K.eq
            (λ state own before answer after last. F.step state own before answer after last)
            f.old (map_of self.old) (map_of self.new) f.new }
        ensures marks { MarksBy 0 (tombstones_of self.old.arrays) (tombstones_of self.new.arrays) }
        ensures buckets { LeavesBuckets INDEX self.old.arrays self.new.arrays }
    {
        self.room.fact_fits();
        let _ = self.table.retain(f, &NoneKept);
        self.table.fact_sound();
    }
}
