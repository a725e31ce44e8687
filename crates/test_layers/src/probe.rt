//! Buckets in a vector, reached by generic code.
//!
//! A bucket's size depends on its type parameters, so generic code that takes one out of a vector
//! has to prove that it takes fewer than 2^63 bytes. A slice of the vector implies it, so callers
//! need no premise.
ghost use Rattle.std.specs.Prelude.{◌≡◌, ◌<◌, ◌%◌, None, length, slice_set, slice_index_or, OnOk};
ghost use Rattle.std.specs.Prelude.{OnErr, IfErr, IfOk};
ghost use Rattle.bucket_slots.specs.BucketView.{empty_bucket, first_place, pairs_in};
ghost use Rattle.bucket_slots.specs.Clearing.{slots_after_insertion, slots_for_insertion};
ghost use Rattle.bucket_slots.specs.Placing.{place_for_next};
ghost use Rattle.bucket_slots.specs.Slots.{is_free};

use bucket_slots::bucket::{Bucket, EntryPtr, Generation};
use bucket_slots::lru::LruList;

/// Returns the number of live slots of one bucket of a vector.
///
/// Allocates nothing. O(1).
pub fn len_at<K, V, L: LruList, const TYPE: u8>(
    buckets: &Vec<Bucket<K, V, L, TYPE>>,
    index: usize,
) -> usize
    requires { index < length buckets.now.items }
    ensures { result ≡ length (pairs_in (slice_index_or buckets.now.items index empty_bucket)) }
{
    let _ = buckets.as_slice();
    buckets[index].len()
}

/// Inserts a pair into one bucket of a vector and returns its place there.
///
/// # Errors
///
/// Allocation failure: the pair is returned and the buckets are as they were.
///
/// O(blocks in the bucket's chain).
pub fn insert_at<K: Drop, V: Drop, L: LruList, G: Generation, const TYPE: u8>(
    buckets: &mut Vec<Bucket<K, V, L, TYPE>>,
    index: usize,
    hash: u64,
    pair: (K, V),
    generation: &G,
) -> Result<EntryPtr<K, V, TYPE>, (K, V)>
    requires within { index < length buckets.old.items }
    ensures place { IfOk result
        (λ at. at ≡ place_for_next
        (slots_for_insertion
        TYPE
        (G.keeps generation.now)
        (slice_index_or buckets.old.items index empty_bucket))) }
    ensures buckets { OnOk result
        (buckets.new.items
        ≡ slice_set
        buckets.old.items
        index
        (slots_after_insertion
        TYPE
        (G.keeps generation.now)
        (slice_index_or buckets.old.items index empty_bucket)
        pair
        (hash % 256))) }
    ensures pair_returned { IfErr result (λ back. back ≡ pair) }
    ensures unchanged { OnErr result (buckets.new.items ≡ buckets.old.items) }
    ensures no_free_slot { OnErr result
        (first_place
        is_free
        (slots_for_insertion
        TYPE
        (G.keeps generation.now)
        (slice_index_or buckets.old.items index empty_bucket))
        ≡ None) }
{
    let _ = buckets.as_slice();
    buckets[index].insert(hash, pair, generation)
}
