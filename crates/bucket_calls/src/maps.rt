//! The library's calls on maps and sets, each of which returns a code.
ghost use Rattle.std.specs.Prelude.{◌≡◌};
ghost use Rattle.collections.specs.Maps.{get_by};
ghost use Rattle.bucket_calls.specs.Codes.{found_code};
ghost use Rattle.bucket_calls.specs.Sizing.{MakesRoomBy, ShrinksBy};
ghost use Rattle.bucket_calls.specs.Maps.{Drops, Finds, InsertsOne, RemovesEqual, RemovesKey};
ghost use Rattle.bucket_calls.specs.Maps.{RemovesOne, UpsertsOne};

use crate::codes::{ABSENT, NO_MEMORY, OK, PRESENT};
use bucket_table::key_hash::KeyHash;
use collections::hash_map::{HashMap, NotInserted};
use collections::hash_set::HashSet;
use collections::key_form::KeyForm;

/// Inserts a pair if its key is absent.
#[inline(always)]
pub fn insert<K: Eq + Drop, V: Drop, H: KeyHash<K>>(
    map: &mut HashMap<K, V, H>,
    key: K,
    value: V,
) -> u32
    ensures { InsertsOne K.eq H.hash_of key value map.old result map.new }
{
    match map.insert(key, value) {
        Ok(()) => OK,
        Err(NotInserted::Present(_key, _value)) => PRESENT,
        Err(NotInserted::Memory(_key, _value)) => NO_MEMORY,
    }
}

/// Inserts a pair if its key is absent; else replaces the value of the present key, and outputs the
/// earlier value.
#[inline(always)]
pub fn upsert<K: Eq + Drop, H: KeyHash<K>>(
    map: &mut HashMap<K, u64, H>,
    key: K,
    value: u64,
    earlier: &mut u64,
) -> u32
    ensures { UpsertsOne K.eq H.hash_of key value earlier.old map.old result map.new earlier.new }
{
    match map.upsert(key, value) {
        Ok(None) => OK,
        Ok(Some(own)) => {
            *earlier = own;
            PRESENT
        }
        Err(_back) => NO_MEMORY,
    }
}

/// Makes room in a map for `additional` more pairs.
pub fn reserve<K: Eq + Drop, V: Drop, H: KeyHash<K>>(
    map: &mut HashMap<K, V, H>,
    additional: usize,
) -> u32
    ensures { MakesRoomBy K.eq additional map.old result map.new }
{
    match map.try_reserve(additional) {
        Ok(()) => OK,
        Err(_) => NO_MEMORY,
    }
}

/// Leaves as few slots as a map's pairs need.
pub fn shrink<K: Eq + Drop, V: Drop, H: KeyHash<K>>(map: &mut HashMap<K, V, H>) -> u32
    ensures { ShrinksBy K.eq map.old result map.new }
{
    match map.shrink_to_fit() {
        Ok(()) => OK,
        Err(_) => NO_MEMORY,
    }
}

/// Makes room in a set for `additional` more keys.
pub fn reserve_keys<K: Eq + Drop, H: KeyHash<K>>(set: &mut HashSet<K, H>, additional: usize) -> u32
    ensures { MakesRoomBy K.eq additional set.old result set.new }
{
    match set.try_reserve(additional) {
        Ok(()) => OK,
        Err(_) => NO_MEMORY,
    }
}

/// Leaves as few slots as a set's keys need.
pub fn shrink_keys<K: Eq + Drop, H: KeyHash<K>>(set: &mut HashSet<K, H>) -> u32
    ensures { ShrinksBy K.eq set.old result set.new }
{
    match set.shrink_to_fit() {
        Ok(()) => OK,
        Err(_) => NO_MEMORY,
    }
}

/// Outputs the value under the keys that a form stands for.
#[inline(always)]
pub fn get<K: Eq, H: KeyHash<K>, Q: KeyForm<K, H>>(
    map: &HashMap<K, u64, H>,
    key: Q,
    value: &mut u64,
) -> u32
    ensures { Finds (Q.stands_for key) map.now value.old result value.new }
{
    match map.get(key) {
        Some(own) => {
            *value = *own;
            OK
        }
        None => ABSENT,
    }
}

/// Tests whether the map contains a key that a form stands for.
#[inline(always)]
pub fn contains<K: Eq, V, H: KeyHash<K>, Q: KeyForm<K, H>>(map: &HashMap<K, V, H>, key: Q) -> u32
    ensures { result ≡ found_code (get_by (Q.stands_for key) map.now) }
{
    match map.get(key) {
        Some(_) => OK,
        None => ABSENT,
    }
}

/// Removes the pair under the keys that a form stands for, and outputs its value.
#[inline(always)]
pub fn remove<K: Eq + Drop, H: KeyHash<K>, Q: KeyForm<K, H>>(
    map: &mut HashMap<K, u64, H>,
    key: Q,
    value: &mut u64,
) -> u32
    ensures { RemovesOne K.eq (Q.stands_for key) value.old map.old result map.new value.new }
{
    match map.remove(key) {
        Some((_key, own)) => {
            *value = own;
            OK
        }
        None => ABSENT,
    }
}

/// Removes the pair under the keys that a form stands for, and drops it.
pub fn drop_pair<K: Eq + Drop, V: Drop, H: KeyHash<K>, Q: KeyForm<K, H>>(
    map: &mut HashMap<K, V, H>,
    key: Q,
) -> u32
    ensures { Drops K.eq (Q.stands_for key) map.old result map.new }
{
    match map.remove(key) {
        Some(_pair) => OK,
        None => ABSENT,
    }
}

/// Removes the pair under the keys that a form stands for if it has the given value; if it has
/// another one, outputs that.
#[inline(always)]
pub fn remove_if_equal<K: Eq + Drop, H: KeyHash<K>, Q: KeyForm<K, H>>(
    map: &mut HashMap<K, u64, H>,
    key: Q,
    value: u64,
    held: &mut u64,
) -> u32
    ensures { RemovesEqual K.eq (Q.stands_for key) value held.old map.old result map.new held.new }
{
    let own = match map.get(key) {
        Some(own) => *own,
        None => return ABSENT,
    };
    if own != value {
        *held = own;
        return PRESENT;
    }
    let _ = map.remove(key);
    OK
}

/// Inserts a key if it is absent.
#[inline(always)]
pub fn insert_key<K: Eq + Drop, H: KeyHash<K>>(set: &mut HashSet<K, H>, key: K) -> u32
    ensures { InsertsOne K.eq H.hash_of key tt set.old result set.new }
{
    match set.insert_new(key) {
        Ok(()) => OK,
        Err(NotInserted::Present(_own, _)) => PRESENT,
        Err(NotInserted::Memory(_own, _)) => NO_MEMORY,
    }
}

/// Tests whether the set contains a key that a form stands for.
#[inline(always)]
pub fn contains_key<K: Eq, H: KeyHash<K>, Q: KeyForm<K, H>>(set: &HashSet<K, H>, key: Q) -> u32
    ensures { result ≡ found_code (get_by (Q.stands_for key) set.now) }
{
    if set.contains(key) { OK } else { ABSENT }
}

/// Removes the key that a form stands for.
#[inline(always)]
pub fn remove_key<K: Eq + Drop, H: KeyHash<K>, Q: KeyForm<K, H>>(
    set: &mut HashSet<K, H>,
    key: Q,
) -> u32
    ensures { RemovesKey K.eq (Q.stands_for key) set.old result set.new }
{
    match set.take(key) {
        Some(_own) => OK,
        None => ABSENT,
    }
}
