//! Calls on caches of byte strings, which own copies of their keys: a key is copied only if the
//! cache does not contain it.
ghost use Rattle.std.specs.Prelude.{◌≡◌};
ghost use Rattle.bucket_calls.specs.Texts.{PutsText, UpsertsTextInto};

use crate::bytes::copy_of;
use crate::caches;
use crate::codes::{NO_MEMORY, PRESENT};
use crate::seed::SeededHash;
use collections::hash_cache::HashCache;
use std::mem::replace;

/// Inserts a pair if its key is absent, and outputs the evicted pair, if any.
#[tactic(auto, unfolding(crate::specs::Texts::PutsText))]
pub fn put(
    cache: &mut HashCache<Vec<u8>, u64, SeededHash>,
    key: &[u8],
    value: u64,
    bytes: &mut [u8],
    len: &mut usize,
    before: &mut u64,
) -> u32
    ensures { PutsText key.now value bytes.old len.old before.old cache.old result cache.new
        bytes.new len.new
        before.new }
{
    if cache.contains(key) {
        return PRESENT;
    }
    match copy_of(cache.allocator(), key) {
        Ok(own) => caches::put_text(cache, own, value, bytes, len, before),
        Err(_) => NO_MEMORY,
    }
}

/// Inserts a pair if its key is absent, and outputs the evicted pair, if any; else replaces the
/// value of the present key, and outputs the earlier value.
#[tactic(auto, unfolding(crate::specs::Texts::UpsertsTextInto))]
pub fn upsert(
    cache: &mut HashCache<Vec<u8>, u64, SeededHash>,
    key: &[u8],
    value: u64,
    bytes: &mut [u8],
    len: &mut usize,
    before: &mut u64,
) -> u32
    ensures { UpsertsTextInto key.now value bytes.old len.old before.old cache.old result
        cache.new bytes.new
        len.new before.new }
{
    if cache.contains(key) {
        return match cache.get_mut(key) {
            Some(held) => {
                *before = replace(held, value);
                PRESENT
            }
            None => unreachable!(),
        };
    }
    match copy_of(cache.allocator(), key) {
        Ok(own) => caches::upsert_text(cache, own, value, bytes, len, before),
        Err(_) => NO_MEMORY,
    }
}
