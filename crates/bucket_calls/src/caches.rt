//! The library's calls on caches, each of which returns a code.
ghost use Rattle.std.specs.Prelude.{◌≡◌, nat_eq, unwrap_or};
ghost use Rattle.collections.specs.Maps.{get_by, map_of};
ghost use Rattle.bucket_calls.specs.Caches.{GetsOne, PutsOne, TakesOne, UpsertsInto, text_copied};
ghost use Rattle.bucket_calls.specs.Codes.{found_code};
ghost use Rattle.bucket_calls.specs.Hashing.{text_hash, word_hash};
ghost use Rattle.bucket_calls.specs.Maps.{Finds};
ghost use Rattle.bucket_calls.specs.Views.{text_eq};

use crate::bytes::copy_out;
use crate::codes::{ABSENT, EVICTED, NO_MEMORY, OK, PRESENT};
use crate::seed::SeededHash;
use bucket_table::key_hash::KeyHash;
use collections::hash_cache::{HashCache, NotInserted, Upserted};
use collections::key_form::KeyForm;

/// Outputs the value under the keys that a form stands for, and touches its pair.
#[inline(always)]
pub fn get<K: Eq + Drop, H: KeyHash<K>, Q: KeyForm<K, H>>(
    cache: &mut HashCache<K, u64, H>,
    key: Q,
    value: &mut u64,
) -> u32
    ensures { GetsOne K.eq (Q.stands_for key) value.old cache.old result cache.new value.new }
{
    match cache.get(key) {
        Some(own) => {
            *value = *own;
            OK
        }
        None => ABSENT,
    }
}

/// Outputs the value under the keys that a form stands for, and touches no pair.
#[inline(always)]
pub fn peek<K: Eq, H: KeyHash<K>, Q: KeyForm<K, H>>(
    cache: &HashCache<K, u64, H>,
    key: Q,
    value: &mut u64,
) -> u32
    ensures { Finds (Q.stands_for key) (map_of cache.now) value.old result value.new }
{
    match cache.peek(key) {
        Some(own) => {
            *value = *own;
            OK
        }
        None => ABSENT,
    }
}

/// Tests whether the cache contains a key that a form stands for, and touches no pair.
#[inline(always)]
pub fn contains<K: Eq, H: KeyHash<K>, Q: KeyForm<K, H>>(cache: &HashCache<K, u64, H>, key: Q) -> u32
    ensures { result ≡ found_code (get_by (Q.stands_for key) (map_of cache.now)) }
{
    match cache.peek(key) {
        Some(_) => OK,
        None => ABSENT,
    }
}

/// Removes the pair under the keys that a form stands for, and outputs its value.
#[inline(always)]
pub fn remove<K: Eq + Drop, H: KeyHash<K>, Q: KeyForm<K, H>>(
    cache: &mut HashCache<K, u64, H>,
    key: Q,
    value: &mut u64,
) -> u32
    ensures { TakesOne K.eq (Q.stands_for key) value.old cache.old result cache.new value.new }
{
    match cache.remove(key) {
        Some((_key, own)) => {
            *value = own;
            OK
        }
        None => ABSENT,
    }
}

/// Inserts a pair if its key is absent, and outputs the evicted pair, if any.
pub fn put(
    cache: &mut HashCache<u64, u64, SeededHash>,
    key: u64,
    value: u64,
    gone: &mut u64,
    before: &mut u64,
) -> u32
    ensures { PutsOne nat_eq word_hash key value (λ went. unwrap_or went gone.old) before.old
        cache.old result cache.new gone.new before.new }
{
    match cache.put(key, value) {
        Ok(None) => OK,
        Ok(Some((own, held))) => {
            *gone = own;
            *before = held;
            EVICTED
        }
        Err(NotInserted::Present(_key, _value)) => PRESENT,
        Err(NotInserted::Memory(_key, _value)) => NO_MEMORY,
    }
}

/// Inserts a pair if its key is absent, and outputs the evicted pair, if any; else replaces the
/// value of the present key, and outputs the earlier value. Either way the pair is touched.
pub fn upsert(
    cache: &mut HashCache<u64, u64, SeededHash>,
    key: u64,
    value: u64,
    gone: &mut u64,
    before: &mut u64,
) -> u32
    ensures { UpsertsInto nat_eq word_hash key value (λ went. unwrap_or went gone.old) before.old
        cache.old result cache.new gone.new before.new }
{
    match cache.upsert(key, value) {
        Ok(Upserted::Added) => OK,
        Ok(Upserted::Evicted(own, held)) => {
            *gone = own;
            *before = held;
            EVICTED
        }
        Ok(Upserted::Replaced(held)) => {
            *before = held;
            PRESENT
        }
        Err(_back) => NO_MEMORY,
    }
}

/// Like `put`, for a cache whose keys are byte strings.
pub fn put_text(
    cache: &mut HashCache<Vec<u8>, u64, SeededHash>,
    key: Vec<u8>,
    value: u64,
    bytes: &mut [u8],
    len: &mut usize,
    before: &mut u64,
) -> u32
    ensures { PutsOne text_eq text_hash key value (text_copied bytes.old len.old) before.old
        cache.old result cache.new (bytes.new, len.new) before.new }
{
    match cache.put(key, value) {
        Ok(None) => OK,
        Ok(Some((own, held))) => {
            copy_out(&own, bytes, len);
            *before = held;
            EVICTED
        }
        Err(NotInserted::Present(_key, _value)) => PRESENT,
        Err(NotInserted::Memory(_key, _value)) => NO_MEMORY,
    }
}

/// Like `upsert`, for a cache whose keys are byte strings.
pub fn upsert_text(
    cache: &mut HashCache<Vec<u8>, u64, SeededHash>,
    key: Vec<u8>,
    value: u64,
    bytes: &mut [u8],
    len: &mut usize,
    before: &mut u64,
) -> u32
    ensures { UpsertsInto text_eq text_hash key value (text_copied bytes.old len.old) before.old
        cache.old result cache.new (bytes.new, len.new) before.new }
{
    match cache.upsert(key, value) {
        Ok(Upserted::Added) => OK,
        Ok(Upserted::Evicted(own, held)) => {
            copy_out(&own, bytes, len);
            *before = held;
            EVICTED
        }
        Ok(Upserted::Replaced(held)) => {
            *before = held;
            PRESENT
        }
        Err(_back) => NO_MEMORY,
    }
}
