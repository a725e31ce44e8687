//! Copies of an array: each pair is made of one of the array's, and is in the same bucket.
ghost use Rattle.std.specs.Prelude.{◌≡◌, ◌≢◌, ◌<◌, [], IfSome, IsTrue, length, replicate};
ghost use Rattle.std.specs.Prelude.{false, true};
ghost use Rattle.bucket_slots.specs.BucketView.{empty_bucket, slot_in};
ghost use Rattle.bucket_slots.specs.ArrayView.{bucket_at};
ghost use Rattle.bucket_slots.specs.OwnWalks.{AreOwnAfter};
ghost use Rattle.bucket_slots.specs.Slots.{is_live};
ghost use Rattle.bucket_slots.specs.Walking.{MovesToNext, pairs_ahead};
ghost use Rattle.bucket_table.specs.Map.Cloning.{AreMadeBuckets, IsMadeBucket};
ghost use Rattle.bucket_table.specs.Rehash.State.{first_tickets};

use super::Arrays;
use super::side::current_in;
use crate::key_hash::KeyHash;
use bucket_slots::bucket::{Bucket, EntryPtr};
use bucket_slots::bucket_array::BucketArray;
use bucket_slots::lru::LruList;
use std::alloc::Global;

impl<K: Eq + Drop, V: Drop, L: LruList + Drop, const TYPE: u8> Arrays<K, V, L, TYPE> {
    /// Returns arrays of which the current one has the pairs that `make` returns for the pairs of
    /// this current array, each in the bucket of its original. Returns `None` if there is no
    /// current array, or an old one; if `make` does; if a pair's home is another bucket; or if
    /// allocation fails.
    pub(crate) fn cloned_by<H: KeyHash<K>, F: Fn(&K, &V) -> Option<(K, V)>>(
        &self,
        alloc: Global,
        hasher: &H,
        make: &F,
    ) -> Option<Self>
        requires { F.IsAlwaysCallable make.now }
        ensures alone { IfSome result (λ copy. length self.now.linked ≡ 0) }
        ensures made { IfSome result (λ copy. AreMadeBuckets (H.hash_of hasher.now)
            (λ key value made. F.post make.now key value made) self.now.current copy.current) }
        ensures others { IfSome result (λ copy. copy ≡ record {
          minimum = self.now.minimum;
          maximum = self.now.maximum;
          current = copy.current;
          linked = [];
          tickets = first_tickets 0;
        }) }
    {
        if self.has_old() {
            return None;
        }
        let Some(array) = self.array() else {
            return None;
        };
        self.fact_sound();
        let mut copy = Arrays::new(alloc, self.minimum, self.maximum);
        let Ok(()) = copy.make_first_array(array.num_slots()) else {
            return None;
        };
        if copy.len() != array.len() {
            return None;
        }
        if !clone_buckets(array, current_in(&mut copy.current), hasher, make) {
            return None;
        }
        Some(copy)
    }
}

/// Inserts the pairs that `make` returns for the pairs of an array into the same buckets of an
/// empty one. Returns false once a pair can't be made or inserted, or has another home.
fn clone_buckets<K: Eq + Drop, V: Drop, H: KeyHash<K>, L: LruList, F, const TYPE: u8>(
    from: &BucketArray<K, V, L, TYPE>,
    to: &mut BucketArray<K, V, L, TYPE>,
    hasher: &H,
    make: &F,
) -> bool
where
    F: Fn(&K, &V) -> Option<(K, V)>,
    requires callable { F.IsAlwaysCallable make.now }
    requires empty { to.old ≡ replicate (length from.now) empty_bucket }
    ensures { result ≡ true → AreMadeBuckets (H.hash_of hasher.now)
        (λ key value made. F.post make.now key value made) from.now to.new }
{
    from.fact_room();
    'buckets: for index in 0..from.len() {
        if !clone_bucket(from, index, to.bucket_mut(index), hasher, make) {
            return false;
        }
        to.refresh(index);
    }
    true
}

/// Does what `clone_buckets` does with one bucket.
fn clone_bucket<K: Eq + Drop, V: Drop, H: KeyHash<K>, L: LruList, F, const TYPE: u8>(
    from: &BucketArray<K, V, L, TYPE>,
    index: usize,
    target: &mut Bucket<K, V, L, TYPE>,
    hasher: &H,
    make: &F,
) -> bool
where
    F: Fn(&K, &V) -> Option<(K, V)>,
    requires callable { F.IsAlwaysCallable make.now }
    requires within { index < length from.now }
    requires empty { target.old ≡ empty_bucket }
    ensures { result ≡ true → IsMadeBucket (H.hash_of hasher.now)
        (λ key value made. F.post make.now key value made) (length from.now) index
        (bucket_at from.now index) target.new }
{
    from.fact_room();
    let source = from.bucket(index);
    let mut at = EntryPtr::null();
    let mut left = source.own_after(&at);
    'pairs: while next_pair(source, &mut at, &mut left) {
        let (key, value) = source.entry(&at);
        let Some(pair) = make(key, value) else {
            return false;
        };
        let hash = hasher.hash_one(&pair.0);
        if from.bucket_index(hash) != index {
            return false;
        }
        let Ok(_at) = target.insert(hash, pair, &()) else {
            return false;
        };
    }
    true
}

/// Moves a pointer to the next live slot of a bucket. Returns false if there is none. `left` is the
/// bitmap of the live own slots after the pointer, and 0 once it is past them.
#[inline(always)]
fn next_pair<K, V, L: LruList, const TYPE: u8>(
    source: &Bucket<K, V, L, TYPE>,
    at: &mut EntryPtr<K, V, TYPE>,
    left: &mut u32,
) -> bool
    requires own { left.old ≢ 0 → AreOwnAfter source.now at.old left.old }
    ensures moves { IsTrue result → MovesToNext source.now at.old at.new }
    ensures live { IsTrue result → IsTrue (is_live (slot_in source.now at.new)) }
    ensures own { left.new ≢ 0 → AreOwnAfter source.now at.new left.new }
    ensures end { result ≡ false → pairs_ahead source.now at.old ≡ [] }
{
    if *left != 0 {
        *left = source.next_own(at, *left);
        return true;
    }
    at.find_next(source)
}
