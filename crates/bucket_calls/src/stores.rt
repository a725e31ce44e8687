//! The library's calls on maps from byte strings to byte strings, each of which returns a code.
ghost use Rattle.std.specs.Prelude.{◌≡◌};
ghost use Rattle.collections.specs.Maps.{get_by};
ghost use Rattle.bucket_calls.specs.Stores.{FindsBytes, InsertsBytes, UpsertsBytes};
ghost use Rattle.bucket_calls.specs.Views.{has_bytes};

use crate::bytes::{copy_of, copy_out};
use crate::codes::{ABSENT, NO_MEMORY, OK, PRESENT, TOO_LONG};
use crate::copies;
use crate::seed::SeededHash;
use collections::hash_map::HashMap;
use std::alloc::Global;

/// Inserts a pair if its key is absent.
#[tactic(auto, unfolding(crate::specs::Stores::InsertsBytes))]
pub fn insert(
    map: &mut HashMap<Vec<u8>, Vec<u8>, SeededHash>,
    alloc: Global,
    key: &[u8],
    value: &[u8],
) -> u32
    ensures { InsertsBytes key.now value.now map.old result map.new }
{
    if map.contains(key) {
        return PRESENT;
    }
    match copy_of(alloc, value) {
        Ok(held) => copies::add_copy(map, alloc, key, held),
        Err(_) => NO_MEMORY,
    }
}

/// Inserts a pair if its key is absent; else replaces the value of the present key.
#[tactic(auto, unfolding(crate::specs::Stores::UpsertsBytes))]
pub fn upsert(
    map: &mut HashMap<Vec<u8>, Vec<u8>, SeededHash>,
    alloc: Global,
    key: &[u8],
    value: &[u8],
) -> u32
    ensures { UpsertsBytes key.now value.now map.old result map.new }
{
    match copy_of(alloc, value) {
        Ok(held) => {
            let mut earlier = Vec::new(alloc);
            copies::upsert(map, alloc, key, held, &mut earlier)
        }
        Err(_) => NO_MEMORY,
    }
}

/// Outputs the bytes of the value under a key, as many as there is room for, and its length.
pub fn get(
    map: &HashMap<Vec<u8>, Vec<u8>, SeededHash>,
    key: &[u8],
    bytes: &mut [u8],
    len: &mut usize,
) -> u32
    ensures { FindsBytes (get_by (has_bytes key.now) map.now) bytes.old len.old result bytes.new
        len.new }
{
    let Some(held) = map.get(key) else {
        return ABSENT;
    };
    copy_out(held, bytes, len);
    if held.len() > bytes.len() {
        return TOO_LONG;
    }
    OK
}
