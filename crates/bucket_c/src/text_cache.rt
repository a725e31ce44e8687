//! Exports: a cache from byte strings to words. `put` and `upsert` copy a key that the cache does
//! not contain, and can fail for that; no other call copies it.
//!
//! Each call but `new` also returns `CLOSED` and `OTHER_KIND`, and then does nothing.
ghost use Rattle.std.specs.Prelude.{◌≡◌};
ghost use Rattle.collections.specs.Maps.{get_by, map_of};
ghost use Rattle.bucket_calls.specs.Caches.{GetsOne, TakesOne};
ghost use Rattle.bucket_calls.specs.Codes.{found_code};
ghost use Rattle.bucket_calls.specs.Maps.{Finds};
ghost use Rattle.bucket_calls.specs.Texts.{PutsText, UpsertsTextInto};
ghost use Rattle.bucket_calls.specs.Views.{Caches, Text, has_bytes, text_eq};
ghost use Rattle.bucket_c.specs.Opening.{IsNewCache};
ghost use Rattle.bucket_c.specs.Tables.{OnTextCache, Opens, Reads, text_cache_in};
ghost use Rattle.bucket_c.specs.declared.tables.Table.TheVariants.{TextCache};

use crate::handle::Handle;
use crate::tables::Table;
use bucket_calls::codes::{CLOSED, OTHER_KIND};
use bucket_calls::seed::{Seed, hash_by};
use bucket_calls::{caches, texts};
use collections::hash_cache::HashCache;
use std::alloc::Global;

/// Opens a closed handle on an empty cache of at least `minimum` and at most `maximum` slots,
/// adjusted as by `HashCache::with_capacity`.
///
/// Returns `OK`; `NO_MEMORY` if allocation fails: the handle stays closed; `OPEN` if it is open
/// already: what it holds stays. O(1).
#[unsafe(no_mangle)]
pub extern "C" fn bucket_text_cache_new(
    alloc: Global,
    handle: &mut Handle,
    minimum: usize,
    maximum: usize,
    seed: Seed,
) -> u32
    ensures { (cache : Caches Text) × IsNewCache minimum maximum seed cache
        × Opens (TextCache cache) handle.old.held.table result handle.new.held.table }
{
    let cache = HashCache::with_capacity(alloc, hash_by(seed), minimum, maximum);
    handle.open(alloc, Table::TextCache(cache))
}

/// Inserts a pair if its key is absent, and outputs the evicted pair, if any.
///
/// Returns `OK`; `EVICTED` if a pair was evicted; `PRESENT` if the key is present, `NO_MEMORY` if
/// allocation fails: nothing changes in either case. O(1) expected. `HashCache::put`.
#[unsafe(no_mangle)]
pub extern "C" fn bucket_text_cache_put(
    alloc: Global,
    handle: &mut Handle,
    key: &[u8],
    value: u64,
    gone: &mut [u8],
    len: &mut usize,
    before: &mut u64,
) -> u32
    ensures { OnTextCache (λ old code new. PutsText key.now value gone.old len.old before.old old
        code new gone.new len.new before.new)
        ((gone.new ≡ gone.old) × (len.new ≡ len.old) × (before.new ≡ before.old))
        handle.old.held.table result handle.new.held.table }
{
    on_table!(handle, alloc, TextCache(cache) =>
        texts::put(cache, key, value, gone, len, before))
}

/// Inserts a pair if its key is absent, and outputs the evicted pair, if any; else replaces the
/// value of the present key, and outputs the earlier value. Either way the pair is touched.
///
/// Returns `OK`; `EVICTED` if a pair was evicted; `PRESENT` if the key was present; `NO_MEMORY` if
/// allocation fails, and then nothing changes. O(1) expected. `HashCache::upsert`.
#[unsafe(no_mangle)]
pub extern "C" fn bucket_text_cache_upsert(
    alloc: Global,
    handle: &mut Handle,
    key: &[u8],
    value: u64,
    gone: &mut [u8],
    len: &mut usize,
    before: &mut u64,
) -> u32
    ensures { OnTextCache (λ old code new. UpsertsTextInto key.now value gone.old len.old
        before.old old code new gone.new len.new before.new)
        ((gone.new ≡ gone.old) × (len.new ≡ len.old) × (before.new ≡ before.old))
        handle.old.held.table result handle.new.held.table }
{
    on_table!(handle, alloc, TextCache(cache) =>
        texts::upsert(cache, key, value, gone, len, before))
}

/// Outputs the value under a key, and touches its pair.
///
/// Returns `OK`, `ABSENT`. O(1) expected. `HashCache::get`.
#[unsafe(no_mangle)]
pub extern "C" fn bucket_text_cache_get(
    alloc: Global,
    handle: &mut Handle,
    key: &[u8],
    value: &mut u64,
) -> u32
    ensures { OnTextCache (λ old code new. GetsOne text_eq (has_bytes key.now) value.old old code
        new value.new) (value.new ≡ value.old)
        handle.old.held.table result handle.new.held.table }
{
    on_table!(handle, alloc, TextCache(cache) => caches::get(cache, key, value))
}

/// Outputs the value under a key, and touches no pair.
///
/// Returns `OK`, `ABSENT`. O(1) expected. `HashCache::peek`.
#[unsafe(no_mangle)]
pub extern "C" fn bucket_text_cache_peek(handle: &mut Handle, key: &[u8], value: &mut u64) -> u32
    ensures found { Reads text_cache_in
        (λ cache code. Finds (has_bytes key.now) (map_of cache) value.old code value.new)
        (value.new ≡ value.old) handle.old.held.table result }
    ensures same { handle.new ≡ handle.old }
{
    on_shared!(handle, TextCache(cache) => caches::peek(cache, key, value))
}

/// Tests whether the cache contains a key, and touches no pair.
///
/// Returns `OK`, `ABSENT`. O(1) expected. `HashCache::contains`.
#[unsafe(no_mangle)]
pub extern "C" fn bucket_text_cache_contains(handle: &mut Handle, key: &[u8]) -> u32
    ensures found { Reads text_cache_in
        (λ cache code. code ≡ found_code (get_by (has_bytes key.now) (map_of cache)))
        (Unit {0}) handle.old.held.table result }
    ensures same { handle.new ≡ handle.old }
{
    on_shared!(handle, TextCache(cache) => caches::contains(cache, key))
}

/// Removes the pair under a key, and outputs its value.
///
/// Returns `OK`, `ABSENT`. O(1) expected. `HashCache::remove`.
#[unsafe(no_mangle)]
pub extern "C" fn bucket_text_cache_remove(
    alloc: Global,
    handle: &mut Handle,
    key: &[u8],
    value: &mut u64,
) -> u32
    ensures { OnTextCache (λ old code new. TakesOne text_eq (has_bytes key.now) value.old old code
        new value.new) (value.new ≡ value.old)
        handle.old.held.table result handle.new.held.table }
{
    on_table!(handle, alloc, TextCache(cache) => caches::remove(cache, key, value))
}
