//! Exports: a cache from words to words.
//!
//! Each call but `new` also returns `CLOSED` and `OTHER_KIND`, and then does nothing.
ghost use Rattle.std.specs.Prelude.{◌≡◌, ℕ, nat_eq, unwrap_or};
ghost use Rattle.collections.specs.Maps.{get, map_of};
ghost use Rattle.bucket_calls.specs.Caches.{GetsOne, PutsOne, TakesOne, UpsertsInto};
ghost use Rattle.bucket_calls.specs.Codes.{found_code};
ghost use Rattle.bucket_calls.specs.Hashing.{word_hash};
ghost use Rattle.bucket_calls.specs.Maps.{Finds};
ghost use Rattle.bucket_calls.specs.Views.{Caches};
ghost use Rattle.bucket_c.specs.Opening.{IsNewCache};
ghost use Rattle.bucket_c.specs.Tables.{OnCache, Opens, Reads, cache_in};
ghost use Rattle.bucket_c.specs.declared.tables.Table.TheVariants.{Cache};

use crate::handle::Handle;
use crate::tables::Table;
use bucket_calls::caches;
use bucket_calls::codes::{CLOSED, OTHER_KIND};
use bucket_calls::seed::{Seed, hash_by};
use collections::hash_cache::HashCache;
use std::alloc::Global;

/// Opens a closed handle on an empty cache of at least `minimum` and at most `maximum` slots,
/// adjusted as by `HashCache::with_capacity`.
///
/// Returns `OK`; `NO_MEMORY` if allocation fails: the handle stays closed; `OPEN` if it is open
/// already: what it holds stays. O(1).
#[unsafe(no_mangle)]
pub extern "C" fn bucket_cache_new(
    alloc: Global,
    handle: &mut Handle,
    minimum: usize,
    maximum: usize,
    seed: Seed,
) -> u32
    ensures { (cache : Caches ℕ) × IsNewCache minimum maximum seed cache
        × Opens (Cache cache) handle.old.held.table result handle.new.held.table }
{
    let cache = HashCache::with_capacity(alloc, hash_by(seed), minimum, maximum);
    handle.open(alloc, Table::Cache(cache))
}

/// Inserts a pair if its key is absent, and outputs the evicted pair, if any.
///
/// Returns `OK`; `EVICTED` if a pair was evicted; `PRESENT` if the key is present, `NO_MEMORY` if
/// allocation fails: nothing changes in either case. O(1) expected. `HashCache::put`.
#[unsafe(no_mangle)]
pub extern "C" fn bucket_cache_put(
    alloc: Global,
    handle: &mut Handle,
    key: u64,
    value: u64,
    gone: &mut u64,
    before: &mut u64,
) -> u32
    ensures { OnCache (λ old code new. PutsOne nat_eq word_hash key value
        (λ went. unwrap_or went gone.old) before.old old code new gone.new before.new)
        ((gone.new ≡ gone.old) × (before.new ≡ before.old))
        handle.old.held.table result handle.new.held.table }
{
    on_table!(handle, alloc, Cache(cache) => caches::put(cache, key, value, gone, before))
}

/// Inserts a pair if its key is absent, and outputs the evicted pair, if any; else replaces the
/// value of the present key, and outputs the earlier value. Either way the pair is touched.
///
/// Returns `OK`; `EVICTED` if a pair was evicted; `PRESENT` if the key was present; `NO_MEMORY` if
/// allocation fails, and then nothing changes. O(1) expected. `HashCache::upsert`.
#[unsafe(no_mangle)]
pub extern "C" fn bucket_cache_upsert(
    alloc: Global,
    handle: &mut Handle,
    key: u64,
    value: u64,
    gone: &mut u64,
    before: &mut u64,
) -> u32
    ensures { OnCache (λ old code new. UpsertsInto nat_eq word_hash key value
        (λ went. unwrap_or went gone.old) before.old old code new gone.new before.new)
        ((gone.new ≡ gone.old) × (before.new ≡ before.old))
        handle.old.held.table result handle.new.held.table }
{
    on_table!(handle, alloc, Cache(cache) => caches::upsert(cache, key, value, gone, before))
}

/// Outputs the value under a key, and touches its pair.
///
/// Returns `OK`, `ABSENT`. O(1) expected. `HashCache::get`.
#[unsafe(no_mangle)]
pub extern "C" fn bucket_cache_get(
    alloc: Global,
    handle: &mut Handle,
    key: u64,
    value: &mut u64,
) -> u32
    ensures { OnCache (λ old code new. GetsOne nat_eq (nat_eq key) value.old old code new value.new)
        (value.new ≡ value.old) handle.old.held.table result handle.new.held.table }
{
    on_table!(handle, alloc, Cache(cache) => caches::get(cache, &key, value))
}

/// Outputs the value under a key, and touches no pair.
///
/// Returns `OK`, `ABSENT`. O(1) expected. `HashCache::peek`.
#[unsafe(no_mangle)]
pub extern "C" fn bucket_cache_peek(handle: &mut Handle, key: u64, value: &mut u64) -> u32
    ensures found { Reads cache_in
        (λ cache code. Finds (nat_eq key) (map_of cache) value.old code value.new)
        (value.new ≡ value.old) handle.old.held.table result }
    ensures same { handle.new ≡ handle.old }
{
    on_shared!(handle, Cache(cache) => caches::peek(cache, &key, value))
}

/// Tests whether the cache contains a key, and touches no pair.
///
/// Returns `OK`, `ABSENT`. O(1) expected. `HashCache::contains`.
#[unsafe(no_mangle)]
pub extern "C" fn bucket_cache_contains(handle: &mut Handle, key: u64) -> u32
    ensures found { Reads cache_in (λ cache code. code ≡ found_code (get nat_eq (map_of cache) key))
        (Unit {0}) handle.old.held.table result }
    ensures same { handle.new ≡ handle.old }
{
    on_shared!(handle, Cache(cache) => caches::contains(cache, &key))
}

/// Removes the pair under a key, and outputs its value.
///
/// Returns `OK`, `ABSENT`. O(1) expected. `HashCache::remove`.
#[unsafe(no_mangle)]
pub extern "C" fn bucket_cache_remove(
    alloc: Global,
    handle: &mut Handle,
    key: u64,
    value: &mut u64,
) -> u32
    ensures { OnCache
        (λ old code new. TakesOne nat_eq (nat_eq key) value.old old code new value.new)
        (value.new ≡ value.old) handle.old.held.table result handle.new.held.table }
{
    on_table!(handle, alloc, Cache(cache) => caches::remove(cache, &key, value))
}
