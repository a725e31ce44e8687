//! Walks over the buckets of an array that read digests first, and skip each bucket whose digest
//! shows that it is empty.
ghost use Rattle.std.specs.Prelude.{◌≡◌, ◌<◌, IfSome, length};
ghost use Rattle.bucket_slots.specs.ArrayView.{bucket_at};
ghost use Rattle.bucket_slots.specs.BucketView.{pairs_in};
ghost use Rattle.bucket_slots.specs.OwnWalks.{AreAllAfter, AreAllOwn};
ghost use Rattle.bucket_slots.specs.Walking.{CallsEach};

use super::BucketArray;
use super::digests::is_stale;
use crate::bucket::EntryPtr;
use crate::lru::LruList;

impl<K, V, L: LruList, const TYPE: u8> BucketArray<K, V, L, TYPE> {
    /// Returns a bitmap of the live own slots of a bucket, if its digest isn't stale; then it has
    /// no chain. In an array of at most four buckets, which has no digests, the bucket is read.
    #[inline(always)]
    fn known_own(&self, index: usize) -> Option<u32>
        ensures { IfSome result (λ live. AreAllOwn (bucket_at self.now index) live) }
    {
        let live = self.digests.live(index);
        if !is_stale(live) {
            return Some(live);
        }
        if !self.buckets.is_short() || self.buckets.len() <= index {
            return None;
        }
        self.fact_room();
        let (live, _bytes) = self.buckets.get(index).digest();
        if is_stale(live) { None } else { Some(live) }
    }

    /// Returns a bitmap of the live own slots of a bucket after a pointer, if the bucket's digest
    /// isn't stale. Then no slot of a chain is live.
    ///
    /// O(1).
    #[inline(always)]
    pub fn own_after(&self, index: usize, at: &EntryPtr<K, V, TYPE>) -> Option<u32>
        ensures { IfSome result (λ left. AreAllAfter (bucket_at self.now index) at.now left) }
    {
        match self.known_own(index) {
            Some(live) => Some(at.own_after(live)),
            None => None,
        }
    }

    /// Calls a function with each live pair of a bucket, in slot order.
    ///
    /// O(live slots), but O(32, and the square of the number of blocks of the chain) if the digest
    /// is stale, plus the function's calls.
    #[inline(always)]
    pub fn for_each_in<F: FnMut(&K, &V)>(&self, index: usize, f: &mut F)
        requires callable { F.IsAlwaysCallable f.old }
        requires within { index < length self.now }
        ensures again { F.IsAlwaysCallable f.new }
        ensures calls { CallsEach (λ state own value last. F.step state own value tt last) f.old
            (pairs_in (bucket_at self.now index)) f.new }
    {
        self.fact_room();
        let Some(live) = self.known_own(index) else {
            self.bucket(index).for_each(f);
            return;
        };
        if live != 0 {
            self.bucket(index).for_each_own(live, f);
        }
    }
}
