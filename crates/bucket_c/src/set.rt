//! Exports: a set of words.
//!
//! Each call but `new` also returns `CLOSED` and `OTHER_KIND`, and then does nothing.
ghost use Rattle.std.specs.Prelude.{◌≡◌, ℕ, nat_eq};
ghost use Rattle.collections.specs.Maps.{get};
ghost use Rattle.bucket_calls.specs.Codes.{found_code};
ghost use Rattle.bucket_calls.specs.Hashing.{word_hash};
ghost use Rattle.bucket_calls.specs.Maps.{InsertsOne, RemovesKey};
ghost use Rattle.bucket_calls.specs.Views.{Maps};
ghost use Rattle.bucket_c.specs.Opening.{IsNew};
ghost use Rattle.bucket_c.specs.Tables.{OnSet, Opens, Reads, set_in};
ghost use Rattle.bucket_c.specs.declared.tables.Table.TheVariants.{Set};

use crate::handle::Handle;
use crate::tables::Table;
use bucket_calls::codes::{CLOSED, OTHER_KIND};
use bucket_calls::maps;
use bucket_calls::seed::{Seed, hash_by};
use collections::hash_set::HashSet;
use std::alloc::Global;

/// Opens a closed handle on an empty set.
///
/// Returns `OK`; `NO_MEMORY` if allocation fails: the handle stays closed; `OPEN` if it is open
/// already: what it holds stays. O(1).
#[unsafe(no_mangle)]
pub extern "C" fn bucket_set_new(alloc: Global, handle: &mut Handle, seed: Seed) -> u32
    ensures { (set : Maps ℕ (Unit {0})) × IsNew 0 seed set
        × Opens (Set set) handle.old.held.table result handle.new.held.table }
{
    let set = HashSet::with_capacity_and_hasher(alloc, 0, hash_by(seed));
    handle.open(alloc, Table::Set(set))
}

/// Inserts a key if it is absent.
///
/// Returns `OK`; `PRESENT` if the key is present, `NO_MEMORY` if allocation fails: nothing changes
/// in either case. O(1) expected. `HashSet::insert_new`.
#[unsafe(no_mangle)]
pub extern "C" fn bucket_set_insert(alloc: Global, handle: &mut Handle, key: u64) -> u32
    ensures { OnSet (InsertsOne nat_eq word_hash key tt) (Unit {0})
        handle.old.held.table result handle.new.held.table }
{
    on_table!(handle, alloc, Set(set) => maps::insert_key(set, key))
}

/// Tests whether the set contains a key.
///
/// Returns `OK`, `ABSENT`. O(1) expected. `HashSet::contains`.
#[unsafe(no_mangle)]
pub extern "C" fn bucket_set_contains(handle: &mut Handle, key: u64) -> u32
    ensures found { Reads set_in (λ set code. code ≡ found_code (get nat_eq set key))
        (Unit {0}) handle.old.held.table result }
    ensures same { handle.new ≡ handle.old }
{
    on_shared!(handle, Set(set) => maps::contains_key(set, &key))
}

/// Removes a key.
///
/// Returns `OK`, `ABSENT`. O(1) expected. `HashSet::take`.
#[unsafe(no_mangle)]
pub extern "C" fn bucket_set_remove(alloc: Global, handle: &mut Handle, key: u64) -> u32
    ensures { OnSet (RemovesKey nat_eq (nat_eq key)) (Unit {0})
        handle.old.held.table result handle.new.held.table }
{
    on_table!(handle, alloc, Set(set) => maps::remove_key(set, &key))
}
