//! A caller of the table that continues from the pair of a key.
ghost use Rattle.std.specs.Prelude.{◌≡◌, IfOk, OnErr};
ghost use Rattle.bucket_slots.specs.BucketView.{null_place};
ghost use Rattle.bucket_table.specs.Map.MapState.{KeepsPairs, state_of};

use bucket_slots::bucket::EntryPtr;
use bucket_slots::lru::LruList;
use bucket_table::hash_table::{HashTable, KeyHash, LockedBucket, Missing};

/// Finds the pair of a key, and locks the bucket of the next live pair.
///
/// # Errors
///
/// There is no next live pair, or allocation failed: the pointer is null.
pub fn next_after<'a, K: Eq + Drop, V: Drop, H: KeyHash<K>, L: LruList + Drop, const TYPE: u8>(
    table: &'a mut HashTable<K, V, H, L, TYPE>,
    key: &K,
    at: &mut EntryPtr<K, V, TYPE>,
) -> Result<LockedBucket<'a, K, V, H, L, TYPE>, Missing>
    ensures same_table { IfOk result (λ locked.
        locked.table.ghost_name ≡ table.entry.ghost_name) }
    ensures map { IfOk result (λ locked.
        KeepsPairs (state_of TYPE table.old) (state_of TYPE locked.table.now)) }
    ensures null { OnErr result (at.new ≡ null_place) }
{
    *at = EntryPtr::null();
    let hash = table.hash(key);
    let locked = match table.writer_sync(hash) {
        Ok(locked) => locked,
        Err(_) => return Err(Missing::Memory),
    };
    *at = locked.search(key, hash);
    locked.next_sync(at)
}
