//! States what is known of the home buckets of a hash after an insertion failed.
ghost use Rattle.std.specs.Prelude.{◌≡◌, ◌<◌, Err, IfSome, length};
ghost use Rattle.bucket_slots.specs.declared.not_inserted.NotInserted.TheVariants.{Memory};
ghost use Rattle.collections.specs.Crowding.{KeepsHome};

use bucket_slots::bucket_array::BucketArray;
use bucket_slots::lru::LruList;
use bucket_table::hash_table::{HashTable, NotInserted};
use bucket_table::key_hash::KeyHash;

/// States what is known of the homes of a key's hash if allocation for its pair failed.
///
/// O(1). Does nothing if the pair was inserted or its key is present.
#[inline(always)]
pub(crate) fn fact_refused<A, K: Eq, V, H: KeyHash<K>, L: LruList, const TYPE: u8>(
    table: &HashTable<K, V, H, L, TYPE>,
    outcome: &Result<A, NotInserted<K, V>>,
)
    ensures current { (key : K) (value : V) → outcome.now ≡ Err (Memory key value)
        → 0 < length table.now.arrays.current
        → KeepsHome TYPE (H.hash_of table.now.hasher key) table.now.arrays.current }
    ensures old { (key : K) (value : V) → outcome.now ≡ Err (Memory key value)
        → 0 < length table.now.arrays.linked
        → KeepsHome TYPE (H.hash_of table.now.hasher key) table.now.arrays.linked }
{
    match outcome {
        Ok(_) => {}
        Err(NotInserted::Present(_, _)) => {}
        Err(NotInserted::Memory(key, _)) => fact_homes(table, table.hash(key)),
    }
}

/// States what is known of the homes of a hash, in the current array and in the old one.
///
/// O(1).
#[inline(never)]
pub(crate) fn fact_homes<K: Eq, V, H: KeyHash<K>, L: LruList, const TYPE: u8>(
    table: &HashTable<K, V, H, L, TYPE>,
    hash: u64,
)
    ensures current { 0 < length table.now.arrays.current
        → KeepsHome TYPE hash table.now.arrays.current }
    ensures old { 0 < length table.now.arrays.linked → KeepsHome TYPE hash table.now.arrays.linked }
{
    fact_home(table.array(), hash);
    fact_home(table.linked_array(), hash);
}

/// States what is known of the home of a hash in an array.
fn fact_home<K, V, L: LruList, const TYPE: u8>(
    array: Option<&BucketArray<K, V, L, TYPE>>,
    hash: u64,
)
    ensures { IfSome array.entry (λ array. KeepsHome TYPE hash array.now) }
{
    let Some(array) = array else {
        return;
    };
    array.fact_room();
    let index = array.bucket_index(hash);
    array.bucket(index).fact_sound();
}
