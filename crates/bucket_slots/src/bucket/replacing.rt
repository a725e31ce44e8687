//! Replacing a pair by another one.
ghost use Rattle.std.specs.Prelude.{◌≡◌, ◌%◌, Some, IsTrue};
ghost use Rattle.bucket_slots.specs.BucketView.{slot_in};
ghost use Rattle.bucket_slots.specs.Replacing.{slots_replaced};
ghost use Rattle.bucket_slots.specs.Slots.{is_live, live_pair};

use crate::bucket::{Bucket, EntryPtr};
use crate::lru::LruList;

impl<K: Drop, V: Drop, L: LruList, const TYPE: u8> Bucket<K, V, L, TYPE> {
    /// Replaces the pair in a live slot by another one, under `hash`, and returns the previous
    /// pair. The slot leaves the LRU list.
    ///
    /// Allocates nothing. O(1) in the own slots, else O(blocks in the chain).
    #[inline(always)]
    pub fn replace(&mut self, at: &EntryPtr<K, V, TYPE>, hash: u64, pair: (K, V)) -> (K, V)
        requires live_slot { IsTrue (is_live (slot_in self.old at.now)) }
        ensures pair { live_pair (slot_in self.old at.now) ≡ Some result }
        ensures slots { self.new ≡ slots_replaced self.old at.now pair (hash % 256) }
    {
        let earlier = self.vacate(at);
        self.fill(at, (hash % 256) as u8, pair);
        earlier
    }
}
