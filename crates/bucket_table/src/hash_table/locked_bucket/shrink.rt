//! Calls that take a locked bucket by value: they may shrink the table, and return the table.
//!
//! Model: `LockedBucket`, and the table that is returned. Invariant: that of the table, `IsOneMap`;
//! a resize ends the lock of the bucket.
//!
//! Ports `LockedBucket::remove`, `mark_removed` and `try_shrink` of scc's `src/hash_table.rs`.
ghost use Rattle.std.specs.Prelude.{◌≡◌, ◌≢◌, Some, IsTrue};
ghost use Rattle.bucket_slots.specs.BucketView.{slot_in};
ghost use Rattle.bucket_slots.specs.Marking.{slots_marked};
ghost use Rattle.bucket_slots.specs.Removing.{place_after, slots_without};
ghost use Rattle.bucket_slots.specs.Slots.{is_live, live_pair};
ghost use Rattle.bucket_table.specs.Resize.Asking.{AsksShrinking, ResizesIf};
ghost use Rattle.bucket_table.specs.Map.MapState.{KeepsPairs, TakesPair, state_of};

use crate::hash_table::{HashTable, LockedBucket};
use crate::key_hash::KeyHash;
use bucket_slots::bucket::{EntryPtr, Generation, INDEX};
use bucket_slots::lru::LruList;

impl<'a, K: Eq + Drop, V: Drop, H: KeyHash<K>, L: LruList + Drop, const TYPE: u8> LockedBucket<
    'a,
    K,
    V,
    H,
    L,
    TYPE,
> {
    ghost use Rattle.bucket_table.specs.Views.LockedChanges.{ChangesThenShrinks, bucket_in};

    /// Shrinks the table if few slots near the bucket are live. Returns the table, since a resize
    /// ends the lock of the bucket.
    ///
    /// May allocate, and never fails: if allocation fails, nothing changes. O(buckets). scc:
    /// `HashTable::try_shrink`.
    pub fn try_shrink(self) -> &'a mut HashTable<K, V, H, L, TYPE>
        ensures same_table { result.ghost_name ≡ self.entry.table.ghost_name }
        ensures map { KeepsPairs (state_of TYPE self.entry.table.now) (state_of TYPE result.now) }
        ensures asked { ResizesIf (AsksShrinking self.entry.table.now.arrays self.entry.index)
            self.entry.table.now.arrays result.now.arrays }
    {
        let LockedBucket {
            table,
            side: _,
            index,
        } = self;
        table.arrays.try_shrink(index);
        table
    }

    /// Takes the pair out of a live slot. If no live pair is left in the bucket and few slots near
    /// it are live, it shrinks the table. Returns the pair and the table.
    ///
    /// May allocate, and never fails. O(buckets). scc: `LockedBucket::remove`.
    #[inline(always)]
    pub fn remove(
        self,
        at: &mut EntryPtr<K, V, TYPE>,
    ) -> ((K, V), &'a mut HashTable<K, V, H, L, TYPE>)
        requires not_index { TYPE ≢ INDEX }
        requires live_slot { IsTrue
            (is_live (slot_in (bucket_in self) at.old)) }
        ensures changed { ChangesThenShrinks self.entry result.1
            (λ bucket. slots_without bucket at.old) }
        ensures map { TakesPair (state_of TYPE self.entry.table.now) result.0
            (state_of TYPE result.1.now) }
        ensures pair { live_pair (slot_in (bucket_in self.entry) at.old) ≡ Some result.0 }
        ensures place { at.new ≡ place_after (bucket_in self.entry) at.old }
    {
        let LockedBucket { table, side, index } = self;
        let pair = table.arrays.take_at(side, index, at, None);
        table.arrays.count_taken(&mut table.count);
        (pair, table)
    }

    /// Makes a live slot of an index a tombstone. If no live pair is left in the bucket and few
    /// slots near it are live, it shrinks the table. Returns the table.
    ///
    /// May allocate, and never fails. O(buckets). scc: `LockedBucket::mark_removed`.
    pub fn mark_removed<G: Generation>(
        self,
        at: &mut EntryPtr<K, V, TYPE>,
        generation: &G,
    ) -> &'a mut HashTable<K, V, H, L, TYPE>
        requires index { TYPE ≡ INDEX }
        requires live_slot { IsTrue
            (is_live (slot_in (bucket_in self) at.old)) }
        ensures changed { ChangesThenShrinks self.entry result
            (λ bucket. slots_marked bucket at.old (G.epoch_of generation.now)) }
        ensures map { (pair : K × V)
            × (live_pair (slot_in (bucket_in self.entry) at.old) ≡ Some pair)
            × TakesPair (state_of TYPE self.entry.table.now) pair (state_of TYPE result.now) }
        ensures pointer { at.new ≡ at.old }
    {
        let LockedBucket { table, side, index } = self;
        table.arrays.mark_at(side, index, at, generation, None);
        table.arrays.count_taken(&mut table.count);
        table
    }
}
