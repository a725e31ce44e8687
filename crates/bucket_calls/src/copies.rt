//! The library's calls that are given a key in some form, each of which returns a code. The key
//! itself is made only if the map or the set does not contain it.
ghost use Rattle.std.specs.Prelude.{◌≡◌, false};
ghost use Rattle.bucket_calls.specs.Copies.{AddsCopy, AddsTo, GetsOrInserts, InsertsCopy};
ghost use Rattle.bucket_calls.specs.Copies.{UpsertsCopy};
ghost use Rattle.collections.specs.Maps.{contains_by};

use crate::codes::{NO_MEMORY, PRESENT};
use crate::copied_key::CopiedKey;
use crate::maps;
use bucket_table::key_hash::KeyHash;
use collections::hash_map::HashMap;
use collections::hash_set::HashSet;
use std::alloc::Global;
use std::mem::replace;

/// Inserts a pair if its key is absent.
#[tactic(auto, unfolding(crate::specs::Copies::InsertsCopy))]
pub fn insert<K: Eq + Drop, V: Drop, H: KeyHash<K>, Q: CopiedKey<K, H>>(
    map: &mut HashMap<K, V, H>,
    alloc: Global,
    key: Q,
    value: V,
) -> u32
    ensures { InsertsCopy K.eq H.hash_of (Q.stands_for key) (Q.may_fail key) value map.old result
        map.new }
{
    if map.contains(key) {
        return PRESENT;
    }
    add_copy(map, alloc, key, value)
}

/// Inserts a pair if its key is absent; else replaces the value of the present key, and outputs the
/// earlier value.
#[tactic(auto, unfolding(crate::specs::Copies::PutsCopy))]
pub fn upsert<K: Eq + Drop, V: Drop, H: KeyHash<K>, Q: CopiedKey<K, H>>(
    map: &mut HashMap<K, V, H>,
    alloc: Global,
    key: Q,
    value: V,
    earlier: &mut V,
) -> u32
    ensures { UpsertsCopy K.eq H.hash_of (Q.stands_for key) (Q.may_fail key) value earlier.old
        map.old result map.new earlier.new }
{
    if !map.contains(key) {
        return add_copy(map, alloc, key, value);
    }
    match map.get_mut(key) {
        Some(held) => {
            *earlier = replace(held, value);
            PRESENT
        }
        None => unreachable!(),
    }
}

/// Adds to the word under a key, or inserts the key with the summand if it is absent, and outputs
/// the sum.
#[tactic(auto, unfolding(crate::specs::Copies::PutsCopy))]
pub fn add<K: Eq + Drop, H: KeyHash<K>, Q: CopiedKey<K, H>>(
    map: &mut HashMap<K, u64, H>,
    alloc: Global,
    key: Q,
    amount: u64,
    total: &mut u64,
) -> u32
    ensures { AddsTo K.eq H.hash_of (Q.stands_for key) (Q.may_fail key) amount total.old map.old
        result map.new total.new }
{
    if !map.contains(key) {
        let code = add_copy(map, alloc, key, amount);
        if code == NO_MEMORY {
            return NO_MEMORY;
        }
        *total = amount;
        return code;
    }
    match map.get_mut(key) {
        Some(held) => {
            let sum = held.wrapping_add(amount);
            *held = sum;
            *total = sum;
            PRESENT
        }
        None => unreachable!(),
    }
}

/// Inserts a pair if its key is absent, and outputs the value that is then under the key.
#[tactic(auto, unfolding(crate::specs::Copies::InsertsCopy))]
pub fn get_or_insert<K: Eq + Drop, H: KeyHash<K>, Q: CopiedKey<K, H>>(
    map: &mut HashMap<K, u64, H>,
    alloc: Global,
    key: Q,
    value: u64,
    held: &mut u64,
) -> u32
    ensures { GetsOrInserts K.eq H.hash_of (Q.stands_for key) (Q.may_fail key) value held.old
        map.old result map.new held.new }
{
    if let Some(own) = map.get(key) {
        *held = *own;
        return PRESENT;
    }
    let code = add_copy(map, alloc, key, value);
    if code == NO_MEMORY {
        return NO_MEMORY;
    }
    *held = value;
    code
}

/// Makes a key that the map does not contain, and inserts it with a value.
#[inline(always)]
pub fn add_copy<K: Eq + Drop, V: Drop, H: KeyHash<K>, Q: CopiedKey<K, H>>(
    map: &mut HashMap<K, V, H>,
    alloc: Global,
    key: Q,
    value: V,
) -> u32
    requires { contains_by (Q.stands_for key) map.old ≡ false }
    ensures { AddsCopy K.eq H.hash_of (Q.stands_for key) (Q.may_fail key) value map.old result
        map.new }
{
    match key.copied(alloc) {
        Ok(own) => maps::insert(map, own, value),
        Err(_) => NO_MEMORY,
    }
}

/// Inserts a key if it is absent.
#[tactic(auto, unfolding(crate::specs::Copies::InsertsCopy))]
pub fn insert_key<K: Eq + Drop, H: KeyHash<K>, Q: CopiedKey<K, H>>(
    set: &mut HashSet<K, H>,
    alloc: Global,
    key: Q,
) -> u32
    ensures { InsertsCopy K.eq H.hash_of (Q.stands_for key) (Q.may_fail key) tt set.old result
        set.new }
{
    if set.contains(key) {
        return PRESENT;
    }
    match key.copied(alloc) {
        Ok(own) => maps::insert_key(set, own),
        Err(_) => NO_MEMORY,
    }
}
