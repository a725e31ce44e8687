//! The collections that a handle can hold.
use bucket_calls::seed::SeededHash;
use collections::hash_cache::HashCache;
use collections::hash_map::HashMap;
use collections::hash_set::HashSet;

/// What a handle holds.
#[derive(Drop)]
pub enum Table {
    Map(HashMap<u64, u64, SeededHash>),
    TextMap(HashMap<Vec<u8>, u64, SeededHash>),
    Set(HashSet<u64, SeededHash>),
    TextSet(HashSet<Vec<u8>, SeededHash>),
    Store(HashMap<Vec<u8>, Vec<u8>, SeededHash>),
    Cache(HashCache<u64, u64, SeededHash>),
    TextCache(HashCache<Vec<u8>, u64, SeededHash>),
}
