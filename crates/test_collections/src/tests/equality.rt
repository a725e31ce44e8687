//! Which maps, sets, indexes and caches are equal: neither the order of insertion nor the hasher
//! counts, nor do tombstones and the LRU order.
use super::caches::Cache;
use super::check_same;
use super::indexes::Index;
use super::maps::Map;
use super::sets::Set;
use bucket_table::script::ScriptHash;
use collections::hash_cache::HashCache;
use collections::hash_index::HashIndex;
use collections::hash_map::HashMap;
use collections::hash_set::HashSet;
use std::alloc::Global;
use std::fmt::Debug;
use std::process::Abort;
use std::test::Fail;
use test_helpers::steps;

type Pairs = &'static [(u64, u64)];

/// Two lists of pairs, whether the maps of them are equal, and whether the sets of their keys are.
type Row = (Pairs, Pairs, bool, bool);

const ROWS: &[Row] = steps! {
    (&[], &[], true, true),
    (&[(1, 10)], &[(1, 10)], true, true),
    (&[(1, 10), (2, 20), (3, 30)], &[(3, 30), (1, 10), (2, 20)], true, true),
    (&[(1, 10), (2, 20), (3, 30)], &[(3, 30), (1, 10), (2, 21)], false, true),
    (&[(1, 10), (2, 20)], &[(1, 20), (2, 10)], false, true),
    (&[(1, 10)], &[], false, false),
    (&[(1, 10), (2, 20)], &[(2, 20)], false, false),
    (&[(1, 10), (2, 20)], &[(2, 20), (3, 10)], false, false),
    // test_eq of the standard library's map
    (&[(1, 2), (2, 3), (3, 4)], &[(1, 2), (2, 3)], false, false),
    (&[(1, 2), (2, 3), (3, 4)], &[(1, 2), (2, 3), (3, 4)], true, true)
};

#[test]
fn equal_are_maps_of_the_same_pairs(rt: HostRuntime) -> Result<(), Fail> {
    for (number, row) in ROWS.iter().enumerate() {
        check_maps(&rt, rt.alloc(), row, number);
        check_sets(&rt, rt.alloc(), row, number);
    }
    Ok(())
}

// A key of no row.
const GONE: u64 = 9;

// One has a tombstone.
#[test]
fn equal_are_indexes_of_the_same_pairs(rt: HostRuntime) -> Result<(), Fail> {
    for (number, row) in ROWS.iter().enumerate() {
        let mut one = index_of(rt.alloc(), ScriptHash::Id, row.0);
        let other = index_of(rt.alloc(), ScriptHash::Zero, row.1);
        let went = one.insert(GONE, 0).is_ok() && one.remove(&GONE);
        check_same(&rt, went, true, number);
        check_equal(&rt, &one, &other, row.2, ("indexes", number));
    }
    Ok(())
}

// One is touched.
#[test]
fn equal_are_caches_of_the_same_pairs(rt: HostRuntime) -> Result<(), Fail> {
    for (number, row) in ROWS.iter().enumerate() {
        let mut one = cache_of(rt.alloc(), ScriptHash::Zero, row.0);
        let other = cache_of(rt.alloc(), ScriptHash::Spread, row.1);
        let _ = one.get(&1);
        check_equal(&rt, &one, &other, row.2, ("caches", number));
    }
    Ok(())
}

// Whether the maps of pairs are equal.
fn check_maps(rt: &impl Abort, alloc: Global, row: &Row, number: usize) {
    let one = map_of(alloc, ScriptHash::Id, row.0);
    let other = map_of(alloc, ScriptHash::Zero, row.1);
    check_equal(rt, &one, &other, row.2, ("maps", number));
}

// Whether the sets of their keys are equal.
fn check_sets(rt: &impl Abort, alloc: Global, row: &Row, number: usize) {
    let one = keys_of(alloc, ScriptHash::Spread, row.0);
    let other = keys_of(alloc, ScriptHash::Id, row.1);
    check_equal(rt, &one, &other, row.3, ("sets", number));
}

// Checks both ways whether two values are equal, and that each is equal to itself.
pub(super) fn check_equal<T: Eq, R: Debug + Drop>(
    rt: &impl Abort,
    one: &T,
    other: &T,
    equal: bool,
    row: R,
) {
    let found = (one == other, other == one, one == one, other == other);
    check_same(rt, found, (equal, equal, true, true), row);
}

// A map of pairs with distinct keys.
fn map_of(alloc: Global, hasher: ScriptHash, pairs: Pairs) -> Map {
    let mut map = HashMap::with_hasher(alloc, hasher);
    for (key, value) in pairs {
        let _ = map.insert(*key, *value);
    }
    map
}

// The set of their keys.
fn keys_of(alloc: Global, hasher: ScriptHash, pairs: Pairs) -> Set {
    let mut set = HashSet::with_hasher(alloc, hasher);
    for (key, _) in pairs {
        let _ = set.insert(*key);
    }
    set
}

// An index of pairs with distinct keys.
fn index_of(alloc: Global, hasher: ScriptHash, pairs: Pairs) -> Index {
    let mut index = HashIndex::with_hasher(alloc, hasher);
    for (key, value) in pairs {
        let _ = index.insert(*key, *value);
    }
    index
}

// A cache of them.
fn cache_of(alloc: Global, hasher: ScriptHash, pairs: Pairs) -> Cache {
    let mut cache = HashCache::with_hasher(alloc, hasher);
    for (key, value) in pairs {
        let _ = cache.put(*key, *value);
    }
    cache
}
