//! Moves between two arrays. Pairs move to several homes at once, and the memory of parts that are
//! done is freed or reused.
ghost use Rattle.std.specs.Prelude.{◌≡◌, ◌<◌, length};
ghost use Rattle.bucket_slots.specs.Homes.{IsHome};
ghost use Rattle.bucket_slots.specs.Spreading.{SpreadsSome};

use super::{BucketArray, sizing};
use crate::bucket::Bucket;
use crate::lru::LruList;

impl<K: Drop, V: Drop, L: LruList, const TYPE: u8> BucketArray<K, V, L, TYPE> {
    /// Moves pairs of own slots of a bucket, the first ones in slot order, to own slots of their
    /// homes, if these are among the buckets from `start` up to but not including `end`. It may
    /// stop at any pair. It moves none if there is only one such bucket, or if one of them may have
    /// a digest. The slots that the pairs leave are free.
    ///
    /// Allocates nothing. O(own slots), but O(buckets of a part) if buckets aren't initialized yet.
    #[inline(always)]
    pub fn spread_own<F: Fn(&K) -> u64>(
        &mut self,
        source: &mut Bucket<K, V, L, TYPE>,
        start: usize,
        end: usize,
        hash_of: &F,
    )
        requires callable { F.IsAlwaysCallable hash_of.now }
        ensures { SpreadsSome TYPE (λ key answer. F.post hash_of.now key answer)
            (IsHome (length self.old)) 0 source.old self.old source.new self.new }
    {
        let len = sizing::span(start, end);
        if len < 2 {
            return;
        }
        if start >= self.buckets.len() {
            return;
        }
        if !self.digests.is_stale_from(start) {
            return;
        }
        self.fact_room();
        self.buckets
            .spread(source, start, len, self.hash_offset, hash_of);
    }
}

impl<K: Drop, V: Drop, L: LruList + Drop, const TYPE: u8> BucketArray<K, V, L, TYPE> {
    /// Frees the buckets of the part around a bucket, if all are killed and empty. No bucket
    /// changes. If parts have the least length, nothing is freed: such an array is small, and is
    /// freed as a whole.
    ///
    /// New memory replaces that of the buckets. If it can't be allocated, the old memory is kept.
    ///
    /// O(1) if the last of them isn't killed, else O(buckets of the part).
    pub fn release_around(&mut self, index: usize)
        requires { index < length self.old }
        ensures { self.new ≡ self.old }
    {
        self.buckets.release(index);
    }

    /// Frees the buckets of the part around a bucket, if all are killed and empty, and exchanges
    /// their memory with that of a part of another array in which no bucket is initialized: one of
    /// the next parts that pairs move to. If there is none, it does what `release_around` does. No
    /// bucket changes.
    ///
    /// O(1) if the last of them isn't killed, else O(buckets of the part).
    pub fn release_into(&mut self, index: usize, to: &mut Self)
        requires { index < length self.old }
        ensures kept { self.new ≡ self.old }
        ensures other { to.new ≡ to.old }
    {
        if self.buckets.release_into(index, &mut to.buckets) {
            return;
        }
        self.buckets.release(index);
    }
}
