//! Exports that take a handle of any kind.
ghost use Rattle.std.specs.Prelude.{◌≡◌, ◌-◌, ◌^◌, None, min};
ghost use Rattle.bucket_c.specs.Any.{Clears, ReservesMore, Shrinks};
ghost use Rattle.bucket_c.specs.Tables.{capacity_of, len_of};

use crate::handle::Handle;
use crate::tables::Table;
use bucket_calls::codes::{CLOSED, OK, OTHER_KIND};
use bucket_calls::maps;
use std::alloc::Global;

/// The version of these calls, 0.2.0: major * 65536 + minor * 256 + patch.
const VERSION: u32 = 512;

/// Returns the version of these calls.
///
/// O(1).
#[unsafe(no_mangle)]
pub extern "C" fn bucket_version() -> u32
    ensures { result ≡ 512 }
{
    VERSION
}

/// Frees what the handle holds, and closes it.
///
/// O(slots).
#[unsafe(no_mangle)]
pub extern "C" fn bucket_free(alloc: Global, handle: &mut Handle)
    ensures { handle.new.held.table ≡ None }
{
    let _ = handle.take(alloc);
}

/// Returns how many pairs or keys the handle holds; 0 if it is closed.
///
/// O(1). `HashMap::len`.
#[unsafe(no_mangle)]
pub extern "C" fn bucket_len(handle: &mut Handle) -> usize
    ensures len { result ≡ min (len_of handle.old.held.table) (2 ^ 64 - 1) }
    ensures same { handle.new ≡ handle.old }
{
    if !handle.live {
        return 0;
    }
    match &*handle.held.table() {
        Table::Map(map) => map.len(),
        Table::TextMap(map) => map.len(),
        Table::Set(set) => set.len(),
        Table::TextSet(set) => set.len(),
        Table::Store(map) => map.len(),
        Table::Cache(cache) => cache.len(),
        Table::TextCache(cache) => cache.len(),
    }
}

/// Returns how many slots the current array has; 0 if the handle is closed.
///
/// O(1). `HashMap::capacity`.
#[unsafe(no_mangle)]
pub extern "C" fn bucket_capacity(handle: &mut Handle) -> usize
    ensures capacity { result ≡ capacity_of handle.old.held.table }
    ensures same { handle.new ≡ handle.old }
{
    if !handle.live {
        return 0;
    }
    match &*handle.held.table() {
        Table::Map(map) => map.capacity(),
        Table::TextMap(map) => map.capacity(),
        Table::Set(set) => set.capacity(),
        Table::TextSet(set) => set.capacity(),
        Table::Store(map) => map.capacity(),
        Table::Cache(cache) => cache.capacity(),
        Table::TextCache(cache) => cache.capacity(),
    }
}

/// Drops all pairs. The seed, the capacities and the slots stay.
///
/// Returns `OK`, `CLOSED`. O(slots). `HashMap::clear`.
#[unsafe(no_mangle)]
pub extern "C" fn bucket_clear(alloc: Global, handle: &mut Handle) -> u32
    ensures { Clears handle.old.held.table result handle.new.held.table }
{
    let Some(mut table) = handle.take(alloc) else {
        return CLOSED;
    };
    match &mut *table {
        Table::Map(map) => map.clear(),
        Table::TextMap(map) => map.clear(),
        Table::Set(set) => set.clear(),
        Table::TextSet(set) => set.clear(),
        Table::Store(map) => map.clear(),
        Table::Cache(cache) => cache.clear(),
        Table::TextCache(cache) => cache.clear(),
    }
    handle.put(table);
    OK
}

/// Makes room for `additional` more pairs.
///
/// Returns `OK`; `NO_MEMORY` if allocation fails, or if no array can hold so many: the pairs stay.
/// `CLOSED`; `OTHER_KIND` for a cache, whose capacity is fixed when it is made. O(slots).
/// `HashMap::try_reserve`.
#[unsafe(no_mangle)]
pub extern "C" fn bucket_reserve(alloc: Global, handle: &mut Handle, additional: usize) -> u32
    ensures { ReservesMore additional handle.old.held.table result handle.new.held.table }
{
    let Some(mut table) = handle.take(alloc) else {
        return CLOSED;
    };
    let code = match &mut *table {
        Table::Map(map) => maps::reserve(map, additional),
        Table::TextMap(map) => maps::reserve(map, additional),
        Table::Set(set) => maps::reserve_keys(set, additional),
        Table::TextSet(set) => maps::reserve_keys(set, additional),
        Table::Store(map) => maps::reserve(map, additional),
        _ => OTHER_KIND,
    };
    handle.put(table);
    code
}

/// Leaves as few slots as the pairs need, and none if there are no pairs.
///
/// Returns `OK`; `NO_MEMORY` if allocation fails, unless there are no pairs or the slots are as few
/// already: the pairs stay. `CLOSED`; `OTHER_KIND` for a cache. O(slots). `HashMap::shrink_to_fit`.
#[unsafe(no_mangle)]
pub extern "C" fn bucket_shrink(alloc: Global, handle: &mut Handle) -> u32
    ensures { Shrinks handle.old.held.table result handle.new.held.table }
{
    let Some(mut table) = handle.take(alloc) else {
        return CLOSED;
    };
    let code = match &mut *table {
        Table::Map(map) => maps::shrink(map),
        Table::TextMap(map) => maps::shrink(map),
        Table::Set(set) => maps::shrink_keys(set),
        Table::TextSet(set) => maps::shrink_keys(set),
        Table::Store(map) => maps::shrink(map),
        _ => OTHER_KIND,
    };
    handle.put(table);
    code
}
