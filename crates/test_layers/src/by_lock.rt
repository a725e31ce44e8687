//! Calls on a table of numbers that lock a bucket, and what they return.
use crate::steps::Spot;
use bucket_slots::bucket::{Generation, MAP};
use bucket_slots::lru::LruList;
use bucket_table::hash_table::HashTable;
use bucket_table::script::ScriptHash;

/// A table of numbers.
pub(crate) type Table<L, const TYPE: u8> = HashTable<u64, u64, ScriptHash, L, TYPE>;

/// A map of numbers.
pub(crate) type Map = Table<(), MAP>;

/// Inserts a new key, as its own value, into the bucket that a writer is given. Returns that
/// bucket's index, and the pair's place in it.
pub(crate) fn put_at<L: LruList + Drop, G: Generation, const TYPE: u8>(
    table: &mut Table<L, TYPE>,
    key: u64,
    generation: &G,
) -> Option<(usize, Spot)> {
    let hash = table.hash(&key);
    let mut locked = match table.writer_sync(hash) {
        Ok(locked) => locked,
        Err(_) => return None,
    };
    let at = locked.search(&key, hash);
    if at.is_valid() {
        return None;
    }
    let index = locked.bucket_index();
    match locked.insert(hash, (key, key), generation) {
        Ok(at) => Some((index, (at.block(), at.pos()))),
        Err(_) => None,
    }
}

/// Removes a key by a call on its locked bucket, and returns where the pointer is then.
pub(crate) fn take_at(table: &mut Map, key: u64) -> Option<Spot> {
    let hash = table.hash(&key);
    let mut locked = match table.writer_sync(hash) {
        Ok(locked) => locked,
        Err(_) => return None,
    };
    let mut at = locked.search(&key, hash);
    if !at.is_valid() {
        return None;
    }
    let _ = locked.remove_entry(&mut at);
    Some((at.block(), at.pos()))
}

/// Returns the place of a key's pair.
pub(crate) fn place_of(table: &mut Map, key: u64) -> Option<Spot> {
    let hash = table.hash(&key);
    let locked = match table.writer_sync(hash) {
        Ok(locked) => locked,
        Err(_) => return None,
    };
    let at = locked.search(&key, hash);
    Some((at.block(), at.pos()))
}

/// Returns the index of the bucket that a writer of a hash is given.
pub(crate) fn index_of(table: &mut Map, hash: u64) -> Option<usize> {
    match table.writer_sync(hash) {
        Ok(locked) => Some(locked.bucket_index()),
        Err(_) => None,
    }
}

/// The same by the call's other name.
pub(crate) fn reserved_index_of(table: &mut Map, hash: u64) -> Option<usize> {
    match table.try_reserve_bucket(hash) {
        Ok(locked) => Some(locked.bucket_index()),
        Err(_) => None,
    }
}

/// Returns the index of a key's bucket and how many pairs are in it, if there is no old array.
pub(crate) fn home_of(table: &mut Map, key: u64) -> Option<(usize, usize)> {
    let hash = table.hash(&key);
    match table.try_optional_writer::<false>(hash) {
        Some(locked) => Some((locked.bucket_index(), locked.bucket().len())),
        None => None,
    }
}
