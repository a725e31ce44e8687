//! Exports: a map from words to words.
//!
//! Each call but `new` also returns `CLOSED` and `OTHER_KIND`, and then does nothing.
ghost use Rattle.std.specs.Prelude.{◌≡◌, ℕ, nat_eq};
ghost use Rattle.collections.specs.Maps.{get};
ghost use Rattle.bucket_calls.specs.Codes.{found_code};
ghost use Rattle.bucket_calls.specs.Copies.{AddsTo, GetsOrInserts};
ghost use Rattle.bucket_calls.specs.Hashing.{word_hash};
ghost use Rattle.bucket_calls.specs.Maps.{Finds, InsertsOne, RemovesEqual, RemovesOne, UpsertsOne};
ghost use Rattle.bucket_calls.specs.Views.{Maps};
ghost use Rattle.bucket_c.specs.Opening.{IsNew};
ghost use Rattle.bucket_c.specs.Tables.{OnMap, Opens, Reads, map_in};
ghost use Rattle.bucket_c.specs.declared.tables.Table.TheVariants.{Map};

use crate::handle::Handle;
use crate::tables::Table;
use bucket_calls::codes::{CLOSED, OTHER_KIND};
use bucket_calls::seed::{Seed, hash_by};
use bucket_calls::{copies, maps};
use collections::hash_map::HashMap;
use std::alloc::Global;

/// Opens a closed handle on an empty map.
///
/// Returns `OK`; `NO_MEMORY` if allocation fails: the handle stays closed; `OPEN` if it is open
/// already: what it holds stays. O(1).
#[unsafe(no_mangle)]
pub extern "C" fn bucket_map_new(
    alloc: Global,
    handle: &mut Handle,
    capacity: usize,
    seed: Seed,
) -> u32
    ensures { (map : Maps ℕ ℕ) × IsNew capacity seed map
        × Opens (Map map) handle.old.held.table result handle.new.held.table }
{
    let map = HashMap::with_capacity_and_hasher(alloc, capacity, hash_by(seed));
    handle.open(alloc, Table::Map(map))
}

/// Inserts a pair if its key is absent.
///
/// Returns `OK`; `PRESENT` if the key is present, `NO_MEMORY` if allocation fails: nothing changes
/// in either case. O(1) expected. `HashMap::insert`.
#[unsafe(no_mangle)]
pub extern "C" fn bucket_map_insert(alloc: Global, handle: &mut Handle, key: u64, value: u64) -> u32
    ensures { OnMap (InsertsOne nat_eq word_hash key value) (Unit {0})
        handle.old.held.table result handle.new.held.table }
{
    on_table!(handle, alloc, Map(map) => maps::insert(map, key, value))
}

/// Inserts a pair if its key is absent; else replaces the value of the present key, and outputs the
/// earlier value.
///
/// Returns `OK` if the key was absent, `PRESENT` if it was present; `NO_MEMORY` if allocation
/// fails, and then nothing changes. O(1) expected. `HashMap::upsert`.
#[unsafe(no_mangle)]
pub extern "C" fn bucket_map_upsert(
    alloc: Global,
    handle: &mut Handle,
    key: u64,
    value: u64,
    earlier: &mut u64,
) -> u32
    ensures { OnMap
        (λ old code new. UpsertsOne nat_eq word_hash key value earlier.old old code new earlier.new)
        (earlier.new ≡ earlier.old) handle.old.held.table result handle.new.held.table }
{
    on_table!(handle, alloc, Map(map) => maps::upsert(map, key, value, earlier))
}

/// Outputs the value under a key.
///
/// Returns `OK`, `ABSENT`. O(1) expected. `HashMap::get`.
#[unsafe(no_mangle)]
pub extern "C" fn bucket_map_get(handle: &mut Handle, key: u64, value: &mut u64) -> u32
    ensures found { Reads map_in (λ map code. Finds (nat_eq key) map value.old code value.new)
        (value.new ≡ value.old) handle.old.held.table result }
    ensures same { handle.new ≡ handle.old }
{
    on_shared!(handle, Map(map) => maps::get(map, &key, value))
}

/// Tests whether the map contains a key.
///
/// Returns `OK`, `ABSENT`. O(1) expected. `HashMap::contains`.
#[unsafe(no_mangle)]
pub extern "C" fn bucket_map_contains(handle: &mut Handle, key: u64) -> u32
    ensures found { Reads map_in (λ map code. code ≡ found_code (get nat_eq map key))
        (Unit {0}) handle.old.held.table result }
    ensures same { handle.new ≡ handle.old }
{
    on_shared!(handle, Map(map) => maps::contains(map, &key))
}

/// Removes the pair under a key, and outputs its value.
///
/// Returns `OK`, `ABSENT`. O(1) expected. `HashMap::remove`.
#[unsafe(no_mangle)]
pub extern "C" fn bucket_map_remove(
    alloc: Global,
    handle: &mut Handle,
    key: u64,
    value: &mut u64,
) -> u32
    ensures { OnMap
        (λ old code new. RemovesOne nat_eq (nat_eq key) value.old old code new value.new)
        (value.new ≡ value.old) handle.old.held.table result handle.new.held.table }
{
    on_table!(handle, alloc, Map(map) => maps::remove(map, &key, value))
}

/// Adds to the value under a key, modulo 2^64, or inserts the key with the summand if it is absent;
/// outputs the sum.
///
/// Returns `OK` if the key was absent, `PRESENT` if it was present; `NO_MEMORY` if allocation
/// fails, and then nothing changes. O(1) expected. `HashMap::get_mut`, `HashMap::insert`.
#[unsafe(no_mangle)]
pub extern "C" fn bucket_map_add(
    alloc: Global,
    handle: &mut Handle,
    key: u64,
    amount: u64,
    total: &mut u64,
) -> u32
    ensures { OnMap (λ old code new. AddsTo nat_eq word_hash (nat_eq key) ⊥ amount total.old old
        code new total.new)
        (total.new ≡ total.old) handle.old.held.table result handle.new.held.table }
{
    on_table!(handle, alloc, Map(map) => copies::add(map, alloc, &key, amount, total))
}

/// Inserts a pair if its key is absent, and outputs the value that is then under the key.
///
/// Returns `OK`; `PRESENT` if the key was present; `NO_MEMORY` if allocation fails, and then
/// nothing changes. O(1) expected. `HashMap::get`, `HashMap::insert`.
#[unsafe(no_mangle)]
pub extern "C" fn bucket_map_get_or_insert(
    alloc: Global,
    handle: &mut Handle,
    key: u64,
    value: u64,
    held: &mut u64,
) -> u32
    ensures { OnMap (λ old code new. GetsOrInserts nat_eq word_hash (nat_eq key) ⊥ value held.old
        old code new held.new)
        (held.new ≡ held.old) handle.old.held.table result handle.new.held.table }
{
    on_table!(handle, alloc, Map(map) => copies::get_or_insert(map, alloc, &key, value, held))
}

/// Removes the pair under a key if it has the given value; if it has another one, outputs that.
///
/// Returns `OK`; `PRESENT` if it has another one, and then it stays; `ABSENT`. O(1) expected.
/// `HashMap::get`, `HashMap::remove`.
#[unsafe(no_mangle)]
pub extern "C" fn bucket_map_remove_if_equal(
    alloc: Global,
    handle: &mut Handle,
    key: u64,
    value: u64,
    held: &mut u64,
) -> u32
    ensures { OnMap (λ old code new. RemovesEqual nat_eq (nat_eq key) value held.old old code new
        held.new)
        (held.new ≡ held.old) handle.old.held.table result handle.new.held.table }
{
    on_table!(handle, alloc, Map(map) => maps::remove_if_equal(map, &key, value, held))
}
