//! Room for the pairs of an old bucket in the buckets to which they will move.
ghost use Rattle.std.specs.Prelude.{◌≡◌, ◌+◌, ◌<◌, ◌≤◌, IsOk, OnOk, length, ℕ, IfOk, slice_index};
ghost use Rattle.bucket_slots.specs.ArrayView.{bucket_at};
ghost use Rattle.bucket_slots.specs.Homes.{IsInRange};
ghost use Rattle.std.specs.List.{All};
ghost use Rattle.bucket_slots.specs.BucketView.{pairs_in};
ghost use Rattle.bucket_slots.specs.Reserving.{free_len_in};
ghost use Rattle.bucket_table.specs.Layout.Moving.{CanMoveInto, IsBound};
ghost use Rattle.bucket_table.specs.Rehash.Relocation.{HasRoomFor, KeepsEntries, KeepsOthers};
ghost use Rattle.bucket_table.specs.Rehash.Relocation.{home_of, homed_len};

use crate::key_hash::KeyHash;
use bucket_slots::bucket::{BUCKET_LEN, Bucket, EntryPtr};
use bucket_slots::bucket_array::BucketArray;
use bucket_slots::lru::LruList;
use std::alloc::{AllocError, Global};

/// The greatest number of targets for which pairs are counted without allocating.
const COUNTED_TARGETS: usize = 8;

/// Makes room for the pairs of a bucket of an array of `from` buckets in its targets, which are the
/// buckets from the first number of `targets` up to but not including the second, if there may be
/// too little: that array is longer, or the bucket has more pairs than an empty target has own
/// slots.
#[inline(always)]
pub(super) fn make_room<K: Eq + Drop, V: Drop, H: KeyHash<K>, L: LruList, const TYPE: u8>(
    alloc: Global,
    hasher: &H,
    current: &mut BucketArray<K, V, L, TYPE>,
    source: &Bucket<K, V, L, TYPE>,
    targets: (usize, usize),
    from: usize,
) -> Result<(), AllocError>
    requires { IsBound (H.hash_of hasher.now) from targets.0 targets.1 source.now current.old }
    ensures ready { OnOk result
        (CanMoveInto (H.hash_of hasher.now) targets.0 targets.1 source.now current.new) }
    ensures kept { KeepsEntries current.old current.new }
    ensures others { KeepsOthers targets.0 targets.1 current.old current.new }
    ensures never_refused { from ≤ length current.old
        → length (pairs_in source.now) ≤ BUCKET_LEN
        → IsOk result }
{
    current.fact_room();
    let to = current.len();
    if to < from || BUCKET_LEN < source.len() {
        return reserve_targets(alloc, hasher, current, source, targets.0, targets.1);
    }
    Ok(())
}

/// Reserves a slot for each pair of a bucket in its home, which is one of the buckets from `start`
/// up to but not including `end`.
#[tactic(auto, using(crate::proofs::Moves::RoomMade::few_zeros))]
fn reserve_targets<K: Eq + Drop, V: Drop, H: KeyHash<K>, L: LruList, const TYPE: u8>(
    alloc: Global,
    hasher: &H,
    current: &mut BucketArray<K, V, L, TYPE>,
    source: &Bucket<K, V, L, TYPE>,
    start: usize,
    end: usize,
) -> Result<(), AllocError>
    requires some { start < end }
    requires within { end ≤ length current.old }
    requires in_range { All
        (λ pair. IsInRange start end (home_of (length current.old) (H.hash_of hasher.now pair.0)))
        (pairs_in source.now) }
    ensures room { OnOk result
        (HasRoomFor (H.hash_of hasher.now) current.new (pairs_in source.now)) }
    ensures kept { KeepsEntries current.old current.new }
    ensures others { KeepsOthers start end current.old current.new }
{
    let len = end - start;
    if len == 1 {
        return reserve_each(current, start, &[source.len()]);
    }
    if len <= COUNTED_TARGETS {
        let mut counts = [0; COUNTED_TARGETS];
        let part = &mut counts[..len];
        count_targets(hasher, current, source, start, part);
        return reserve_each(current, start, part);
    }
    let Ok(mut counts) = zero_counts(alloc, len) else {
        return Err(AllocError);
    };
    count_targets(hasher, current, source, start, &mut counts);
    reserve_each(current, start, &counts)
}

/// Returns `len` counts of 0.
#[inline(always)]
fn zero_counts(alloc: Global, len: usize) -> Result<Vec<usize>, AllocError>
    ensures len { IfOk result (λ counts. length counts.items ≡ len) }
    ensures zeros { IfOk result (λ counts. (k : ℕ) → k < length counts.items
        → slice_index counts.items k ≡ 0) }
{
    let Ok(counts) = vec![in alloc; 0; len] else {
        return Err(AllocError);
    };
    Ok(counts)
}

/// Counts the pairs of a bucket by their homes, starting at bucket `start` of an array.
fn count_targets<K: Eq, V, H: KeyHash<K>, L: LruList, const TYPE: u8>(
    hasher: &H,
    current: &BucketArray<K, V, L, TYPE>,
    source: &Bucket<K, V, L, TYPE>,
    start: usize,
    counts: &mut [usize],
)
    requires zeros { (k : ℕ) → k < length counts.old → slice_index counts.old k ≡ 0 }
    requires in_range { All
        (λ pair. IsInRange start (start + length counts.old)
        (home_of (length current.now) (H.hash_of hasher.now pair.0)))
        (pairs_in source.now) }
    ensures { (k : ℕ) → k < length counts.old → slice_index counts.new k
        ≡ homed_len (H.hash_of hasher.now) (length current.now) (start + k) (pairs_in source.now) }
{
    let _most = source.len();
    let mut at = EntryPtr::null();
    'pairs: while at.find_next(source) {
        let home = current.bucket_index(hasher.hash_one(at.key(source)));
        counts[home - start] += 1;
    }
}

/// Reserves slots in the buckets of an array from `start` on, in each bucket as many as `counts`
/// says.
fn reserve_each<K: Drop, V: Drop, L: LruList, const TYPE: u8>(
    current: &mut BucketArray<K, V, L, TYPE>,
    start: usize,
    counts: &[usize],
) -> Result<(), AllocError>
    requires within { start + length counts.now ≤ length current.old }
    ensures room { OnOk result ((k : ℕ) → k < length counts.now
        → slice_index counts.now k ≤ free_len_in (bucket_at current.new (start + k))) }
    ensures kept { KeepsEntries current.old current.new }
    ensures others { KeepsOthers start (start + length counts.now) current.old current.new }
{
    current.fact_room();
    let _buckets = current.len();
    'counts: for k in 0..counts.len() {
        if let Err(refused) = current.bucket_mut(start + k).reserve_slots(counts[k]) {
            return Err(refused);
        }
    }
    Ok(())
}
