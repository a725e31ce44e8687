//! Exports: a store, a map from byte strings to byte strings. It keeps copies of both; an insertion
//! copies a key that the store does not contain, and can fail if a copy does.
//!
//! Each call but `new` also returns `CLOSED` and `OTHER_KIND`, and then does nothing.
ghost use Rattle.std.specs.Prelude.{◌≡◌};
ghost use Rattle.collections.specs.Maps.{get_by};
ghost use Rattle.bucket_calls.specs.Codes.{found_code};
ghost use Rattle.bucket_calls.specs.Maps.{Drops};
ghost use Rattle.bucket_calls.specs.Stores.{FindsBytes, InsertsBytes, UpsertsBytes};
ghost use Rattle.bucket_calls.specs.Views.{Maps, Text, has_bytes, text_eq};
ghost use Rattle.bucket_c.specs.Opening.{IsNew};
ghost use Rattle.bucket_c.specs.Tables.{OnStore, Opens, Reads, store_in};
ghost use Rattle.bucket_c.specs.declared.tables.Table.TheVariants.{Store};

use crate::handle::Handle;
use crate::tables::Table;
use bucket_calls::codes::{CLOSED, OTHER_KIND};
use bucket_calls::seed::{Seed, hash_by};
use bucket_calls::{maps, stores};
use collections::hash_map::HashMap;
use std::alloc::Global;

/// Opens a closed handle on an empty store.
///
/// Returns `OK`; `NO_MEMORY` if allocation fails: the handle stays closed; `OPEN` if it is open
/// already: what it holds stays. O(1).
#[unsafe(no_mangle)]
pub extern "C" fn bucket_store_new(
    alloc: Global,
    handle: &mut Handle,
    capacity: usize,
    seed: Seed,
) -> u32
    ensures { (map : Maps Text Text) × IsNew capacity seed map
        × Opens (Store map) handle.old.held.table result handle.new.held.table }
{
    let map = HashMap::with_capacity_and_hasher(alloc, capacity, hash_by(seed));
    handle.open(alloc, Table::Store(map))
}

/// Inserts a pair if its key is absent.
///
/// Returns `OK`; `PRESENT` if the key is present, `NO_MEMORY` if allocation fails: nothing changes
/// in either case. O(1) expected. `HashMap::contains`, `HashMap::insert`.
#[unsafe(no_mangle)]
pub extern "C" fn bucket_store_insert(
    alloc: Global,
    handle: &mut Handle,
    key: &[u8],
    value: &[u8],
) -> u32
    ensures { OnStore (InsertsBytes key.now value.now) (Unit {0})
        handle.old.held.table result handle.new.held.table }
{
    on_table!(handle, alloc, Store(map) => stores::insert(map, alloc, key, value))
}

/// Inserts a pair if its key is absent; else replaces and drops the value of the present key.
///
/// Returns `OK` if the key was absent, `PRESENT` if it was present; `NO_MEMORY` if allocation
/// fails, and then nothing changes. O(1) expected. `HashMap::get_mut`, `HashMap::insert`.
#[unsafe(no_mangle)]
pub extern "C" fn bucket_store_upsert(
    alloc: Global,
    handle: &mut Handle,
    key: &[u8],
    value: &[u8],
) -> u32
    ensures { OnStore (UpsertsBytes key.now value.now) (Unit {0})
        handle.old.held.table result handle.new.held.table }
{
    on_table!(handle, alloc, Store(map) => stores::upsert(map, alloc, key, value))
}

/// Outputs the bytes of the value under a key, as many as there is room for, and its length.
///
/// Returns `OK`; `TOO_LONG` if the value is longer than the room; `ABSENT`. O(1) expected, plus the
/// value's length. `HashMap::get`.
#[unsafe(no_mangle)]
pub extern "C" fn bucket_store_get(
    handle: &mut Handle,
    key: &[u8],
    bytes: &mut [u8],
    len: &mut usize,
) -> u32
    ensures found { Reads store_in
        (λ map code. FindsBytes (get_by (has_bytes key.now) map) bytes.old len.old code bytes.new
        len.new) ((bytes.new ≡ bytes.old) × (len.new ≡ len.old)) handle.old.held.table result }
    ensures same { handle.new ≡ handle.old }
{
    on_shared!(handle, Store(map) => stores::get(map, key, bytes, len))
}

/// Tests whether the store contains a key.
///
/// Returns `OK`, `ABSENT`. O(1) expected. `HashMap::get`.
#[unsafe(no_mangle)]
pub extern "C" fn bucket_store_contains(handle: &mut Handle, key: &[u8]) -> u32
    ensures found { Reads store_in
        (λ map code. code ≡ found_code (get_by (has_bytes key.now) map))
        (Unit {0}) handle.old.held.table result }
    ensures same { handle.new ≡ handle.old }
{
    on_shared!(handle, Store(map) => maps::contains(map, key))
}

/// Removes the pair under a key, and drops it.
///
/// Returns `OK`, `ABSENT`. O(1) expected. `HashMap::remove`.
#[unsafe(no_mangle)]
pub extern "C" fn bucket_store_remove(alloc: Global, handle: &mut Handle, key: &[u8]) -> u32
    ensures { OnStore (Drops text_eq (has_bytes key.now)) (Unit {0})
        handle.old.held.table result handle.new.held.table }
{
    on_table!(handle, alloc, Store(map) => maps::drop_pair(map, key))
}
