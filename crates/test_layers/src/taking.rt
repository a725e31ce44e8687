//! A caller of the table that removes the pair of a key.
ghost use Rattle.std.specs.Prelude.{◌≡◌, ◌≢◌};
ghost use Rattle.bucket_table.specs.Map.MapState.{state_of};
ghost use Rattle.test_layers.specs.Taking.{TakesKey};

use bucket_slots::bucket::INDEX;
use bucket_slots::lru::LruList;
use bucket_table::hash_table::HashTable;
use bucket_table::key_hash::KeyHash;
use std::alloc::AllocError;

/// Removes the pair whose key is equal; `None` if the map has none.
///
/// # Errors
///
/// Allocation failure: the map is as it was.
pub fn take<K: Eq + Drop, V: Drop, H: KeyHash<K>, L: LruList + Drop, const TYPE: u8>(
    table: &mut HashTable<K, V, H, L, TYPE>,
    key: &K,
) -> Result<Option<(K, V)>, AllocError>
    requires { TYPE ≢ INDEX }
    ensures { TakesKey K.eq key.now (state_of TYPE table.old) result (state_of TYPE table.new) }
{
    let hash = table.hash(key);
    let locked = match table.writer_sync(hash) {
        Ok(locked) => locked,
        Err(refused) => return Err(refused),
    };
    let mut at = locked.search(key, hash);
    if !at.is_valid() {
        return Ok(None);
    }
    let (pair, _table) = locked.remove(&mut at);
    Ok(Some(pair))
}
