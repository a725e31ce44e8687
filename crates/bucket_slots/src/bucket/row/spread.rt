//! Moves of pairs from a row to the own slots of buckets.
ghost use Rattle.std.specs.Prelude.{◌≡◌, ◌≢◌, ◌+◌, ◌<◌, ◌≤◌, ◌^◌, [], length};
ghost use Rattle.bucket_slots.specs.Layout.OwnSpreading.{SpreadsOwn};
ghost use Rattle.bucket_slots.specs.Spreading.{IsShifted};

use crate::bucket::bits::{lowest_bit, without_lowest};
use crate::bucket::remove::unlist;
use crate::bucket::row::Row;
use crate::bucket::transfer::target_at;
use crate::bucket::{Bucket, CACHE, EntryPtr};
use crate::lru::LruList;

impl<K: Drop, V: Drop, const LEN: usize> Row<K, V, LEN> {
    /// Moves live pairs, the first ones in slot order, as `Bucket::spread_own` does. The row must
    /// be the own slots of the bucket with this LRU list and tail.
    ///
    /// The loop only empties the places. The bitmap of the occupied slots is written once, at the
    /// end.
    #[inline(always)]
    pub(crate) fn spread<L: LruList, F: Fn(&K) -> u64, const TYPE: u8>(
        &mut self,
        lru: &mut L,
        tail: &mut u32,
        targets: &mut [Bucket<K, V, L, TYPE>],
        start: usize,
        shift: u32,
        hash_of: &F,
    )
        requires callable { F.IsAlwaysCallable hash_of.now }
        requires shift { shift < 64 }
        requires bounded { start + length targets.old ≤ 2 ^ 64 }
        requires own_tail { L.IsTail lru.old tail.old }
        requires unlisted { TYPE ≢ CACHE → L.listed lru.old tail.old ≡ [] }
        ensures tail { L.IsTail lru.new tail.new }
        ensures spread { SpreadsOwn TYPE (λ key answer. F.post hash_of.now key answer)
            (IsShifted shift) start self.old (L.listed lru.old tail.old) targets.old
            self.new (L.listed lru.new tail.new) targets.new }
    {
        let mut left = self.live();
        while left != 0 {
            let pos = lowest_bit(left);
            let hash = hash_of(self.block.pair(pos as usize).0);
            let index = ((hash >> shift) as usize).wrapping_sub(start);
            if index >= targets.len() {
                break;
            }
            let target = target_at(targets, index);
            target.fact_sound();
            let Some(free) = target.free_own() else {
                break;
            };
            left = without_lowest(left);
            let pair = self.block.read(pos as usize);
            *tail = unlist::<L, TYPE>(lru, *tail, pos as u8);
            target.fill(&EntryPtr::at(0, free), (hash % 256) as u8, pair);
        }
        self.occupied = self.marks | left;
    }
}
