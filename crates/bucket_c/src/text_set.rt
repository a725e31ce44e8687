//! Exports: a set of byte strings. An insertion copies a key that the set does not contain, and can
//! fail for that; no other call copies it.
//!
//! Each call but `new` also returns `CLOSED` and `OTHER_KIND`, and then does nothing.
ghost use Rattle.std.specs.Prelude.{◌≡◌};
ghost use Rattle.collections.specs.Maps.{get_by};
ghost use Rattle.bucket_calls.specs.Codes.{found_code};
ghost use Rattle.bucket_calls.specs.Maps.{RemovesKey};
ghost use Rattle.bucket_calls.specs.Texts.{InsertsText};
ghost use Rattle.bucket_calls.specs.Views.{Maps, Text, has_bytes, text_eq};
ghost use Rattle.bucket_c.specs.Opening.{IsNew};
ghost use Rattle.bucket_c.specs.Tables.{OnTextSet, Opens, Reads, text_set_in};
ghost use Rattle.bucket_c.specs.declared.tables.Table.TheVariants.{TextSet};

use crate::handle::Handle;
use crate::tables::Table;
use bucket_calls::codes::{CLOSED, OTHER_KIND};
use bucket_calls::seed::{Seed, hash_by};
use bucket_calls::{copies, maps};
use collections::hash_set::HashSet;
use std::alloc::Global;

/// Opens a closed handle on an empty set.
///
/// Returns `OK`; `NO_MEMORY` if allocation fails: the handle stays closed; `OPEN` if it is open
/// already: what it holds stays. O(1).
#[unsafe(no_mangle)]
pub extern "C" fn bucket_text_set_new(alloc: Global, handle: &mut Handle, seed: Seed) -> u32
    ensures { (set : Maps Text (Unit {0})) × IsNew 0 seed set
        × Opens (TextSet set) handle.old.held.table result handle.new.held.table }
{
    let set = HashSet::with_capacity_and_hasher(alloc, 0, hash_by(seed));
    handle.open(alloc, Table::TextSet(set))
}

/// Inserts a key if it is absent.
///
/// Returns `OK`; `PRESENT` if the key is present, `NO_MEMORY` if allocation fails: nothing changes
/// in either case. O(1) expected. `HashSet::contains`, `HashSet::insert_new`.
#[unsafe(no_mangle)]
pub extern "C" fn bucket_text_set_insert(alloc: Global, handle: &mut Handle, key: &[u8]) -> u32
    ensures { OnTextSet (InsertsText key.now tt) (Unit {0})
        handle.old.held.table result handle.new.held.table }
{
    on_table!(handle, alloc, TextSet(set) => copies::insert_key(set, alloc, key))
}

/// Tests whether the set contains a key.
///
/// Returns `OK`, `ABSENT`. O(1) expected. `HashSet::contains`.
#[unsafe(no_mangle)]
pub extern "C" fn bucket_text_set_contains(handle: &mut Handle, key: &[u8]) -> u32
    ensures found { Reads text_set_in
        (λ set code. code ≡ found_code (get_by (has_bytes key.now) set))
        (Unit {0}) handle.old.held.table result }
    ensures same { handle.new ≡ handle.old }
{
    on_shared!(handle, TextSet(set) => maps::contains_key(set, key))
}

/// Removes a key.
///
/// Returns `OK`, `ABSENT`. O(1) expected. `HashSet::remove`.
#[unsafe(no_mangle)]
pub extern "C" fn bucket_text_set_remove(alloc: Global, handle: &mut Handle, key: &[u8]) -> u32
    ensures { OnTextSet (RemovesKey text_eq (has_bytes key.now)) (Unit {0})
        handle.old.held.table result handle.new.held.table }
{
    on_table!(handle, alloc, TextSet(set) => maps::remove_key(set, key))
}
