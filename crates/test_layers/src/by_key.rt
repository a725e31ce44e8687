//! Calls on one bucket that begin with a search for a key.
ghost use Rattle.std.specs.Prelude.{◌≡◌, IfSome, IsTrue};
ghost use Rattle.bucket_slots.specs.BucketView.{slot_in};
ghost use Rattle.bucket_slots.specs.Slots.{is_live};

use crate::steps::Spot;
use bucket_slots::bucket::{Bucket, CACHE, EntryPtr, Generation, INDEX};
use bucket_slots::lru::LruList;
use std::alloc::AllocError;
use std::mem;

/// Returns a pointer to the pair of a key, if there is one.
pub(crate) fn find<V, L: LruList, const TYPE: u8>(
    bucket: &Bucket<u64, V, L, TYPE>,
    key: u64,
    hash: u64,
) -> Option<EntryPtr<u64, V, TYPE>>
    ensures { IfSome result (λ at. IsTrue (is_live (slot_in bucket.now at))) }
{
    let at = bucket.get_entry_ptr(&key, hash);
    if at.is_valid() { Some(at) } else { None }
}

/// Removes the pair of a key, unless the bucket is an index's, and returns it with the pointer as
/// the removal leaves it.
pub(crate) fn remove_at<V: Drop, L: LruList, const TYPE: u8>(
    bucket: &mut Bucket<u64, V, L, TYPE>,
    key: u64,
    hash: u64,
) -> Option<((u64, V), EntryPtr<u64, V, TYPE>)> {
    if TYPE == INDEX {
        return None;
    }
    let mut at = find(bucket, key, hash)?;
    let pair = bucket.remove(&mut at);
    Some((pair, at))
}

/// Writes the value of a key and returns the earlier one.
pub(crate) fn write_key<V: Drop, L: LruList, const TYPE: u8>(
    bucket: &mut Bucket<u64, V, L, TYPE>,
    key: u64,
    hash: u64,
    value: V,
) -> Option<V> {
    let at = find(bucket, key, hash)?;
    Some(mem::replace(bucket.entry_mut(&at).1, value))
}

/// Touches the pair of a key in a cache, and returns whether there is one.
pub(crate) fn touch_key<V, L: LruList, const TYPE: u8>(
    bucket: &mut Bucket<u64, V, L, TYPE>,
    key: u64,
    hash: u64,
) -> bool {
    if TYPE != CACHE {
        return false;
    }
    let Some(at) = find(bucket, key, hash) else {
        return false;
    };
    bucket.update_lru_tail(&at);
    true
}

/// Inserts a pair, and puts it at the oldest end of the LRU list if it is in an own slot.
pub(crate) fn insert_oldest<V: Drop, L: LruList, G: Generation, const TYPE: u8>(
    bucket: &mut Bucket<u64, V, L, TYPE>,
    hash: u64,
    pair: (u64, V),
    generation: &G,
) -> Result<EntryPtr<u64, V, TYPE>, (u64, V)>
    requires cache { TYPE ≡ CACHE }
{
    bucket.fact_sound();
    let at = bucket.insert(hash, pair, generation)?;
    bucket.append_lru(&at);
    Ok(at)
}

/// Moves the pair of a key to a bucket that isn't killed. Returns its place there, and where the
/// pointer to its earlier place is then.
pub(crate) fn move_key<V: Drop, L: LruList, const TYPE: u8>(
    target: &mut Bucket<u64, V, L, TYPE>,
    source: &mut Bucket<u64, V, L, TYPE>,
    key: u64,
    hash: u64,
) -> Result<Option<(Spot, Spot)>, AllocError> {
    let Some(mut from) = find(source, key, hash) else {
        return Ok(None);
    };
    if target.is_killed() {
        return Ok(None);
    }
    match target.extract_from(hash, source, &mut from) {
        Ok(to) => Ok(Some(((to.block(), to.pos()), (from.block(), from.pos())))),
        Err(refused) => Err(refused),
    }
}

/// Kills a bucket if it has no pair and isn't killed yet, and returns whether it did.
pub(crate) fn kill_empty<V: Drop, L: LruList, const TYPE: u8>(
    bucket: &mut Bucket<u64, V, L, TYPE>,
) -> bool {
    if bucket.len() != 0 || bucket.is_killed() {
        return false;
    }
    bucket.kill();
    true
}

/// Marks the pair of a key as removed in an index, and returns whether there was one.
pub(crate) fn mark_key<V, L: LruList, G: Generation, const TYPE: u8>(
    bucket: &mut Bucket<u64, V, L, TYPE>,
    key: u64,
    hash: u64,
    generation: &G,
) -> bool {
    if TYPE != INDEX {
        return false;
    }
    let Some(mut at) = find(bucket, key, hash) else {
        return false;
    };
    bucket.mark_removed(&mut at, generation);
    true
}
