//! How collections are printed, which no clause states: like those of the standard library.
use super::check_same;
use super::maps::Map;
use super::sets::Set;
use bucket_table::script::ScriptHash;
use collections::hash_cache::HashCache;
use collections::hash_index::HashIndex;
use collections::hash_map::HashMap;
use collections::hash_set::HashSet;
use std::alloc::{AllocError, Global};
use std::fmt::Debug;
use std::process::Abort;
use std::test::Fail;
use test_helpers::steps;

type Cache = HashCache<u64, u64, ScriptHash>;

type Index = HashIndex<u64, u64, ScriptHash>;

/// A pair or none, how the map of it is printed in a line and in several, and how the set of its
/// key is.
struct Row {
    pair: Option<(u64, u64)>,
    map: [&'static str; 2],
    set: [&'static str; 2],
}

const ROWS: &[Row] = steps! {
    Row { pair: None, map: ["{}", "{}"], set: ["{}", "{}"] },
    Row { pair: Some((1, 10)), map: ["{1: 10}", "{\n    1: 10,\n}"],
        set: ["{1}", "{\n    1,\n}"] }
};

#[test]
fn maps_and_sets_are_printed(rt: HostRuntime) -> Result<(), Fail> {
    for (number, row) in ROWS.iter().enumerate() {
        let mut map: Map = HashMap::with_hasher(rt.alloc(), ScriptHash::Id);
        let mut set: Set = HashSet::with_hasher(rt.alloc(), ScriptHash::Id);
        if let Some((key, value)) = row.pair {
            let are_in = map.insert(key, value).is_ok() && set.insert_new(key).is_ok();
            check_same(&rt, are_in, true, number);
        }
        check_shown(&rt, rt.alloc(), &map, row.map, number);
        check_shown(&rt, rt.alloc(), &set, row.set, number);
    }
    Ok(())
}

// How a collection is printed in a line, and in several.
fn check_shown<T: Debug>(
    rt: &impl Abort,
    alloc: Global,
    collection: &T,
    wanted: [&str; 2],
    row: usize,
) {
    let [line, lines] = wanted;
    check_text(rt, format!(in alloc; "{collection:?}"), line, row);
    check_text(rt, format!(in alloc; "{collection:#?}"), lines, row);
}

fn check_text(rt: &impl Abort, shown: Result<String, AllocError>, wanted: &str, row: usize) {
    match shown {
        Ok(text) => check_same(rt, text.as_str(), wanted, row),
        Err(_) => check_same(rt, "no memory", wanted, row),
    }
}

const QUOTES: [&str; 2] = ["{\"a\": \"b\\\"c\"}", "{\n    \"a\": \"b\\\"c\",\n}"];

#[test]
fn words_are_printed_in_quotes(rt: HostRuntime) -> Result<(), Fail> {
    let mut words = HashMap::new(rt.alloc());
    check_same(&rt, words.insert("a", "b\"c").is_ok(), true, "inserted");
    check_shown(&rt, rt.alloc(), &words, QUOTES, 0);
    Ok(())
}

// The map grows when its last key is inserted.
#[test]
fn a_map_amid_a_growth_is_printed_whole(rt: HostRuntime) -> Result<(), Fail> {
    let mut map: Map = HashMap::with_hasher(rt.alloc(), ScriptHash::Spread);
    fill_to_1000(&mut map, 128, 159);
    fill_to_1000(&mut map, 0, 32);
    let found = (map.len(), map.capacity(), printed(rt.alloc(), &map));
    check_same(&rt, found, (63, 128, Some(63)), "pairs");
    Ok(())
}

// Inserts keys, each with 1000 less the key.
fn fill_to_1000(map: &mut Map, first: u64, last: u64) {
    for key in first..last {
        let _ = map.insert(key, 1000u64.wrapping_sub(key));
    }
}

// How many pairs are printed of a map, as `pairs_in` counts them.
fn printed(alloc: Global, map: &Map) -> Option<usize> {
    match format!(in alloc; "{map:?}") {
        Ok(shown) => pairs_in(shown.as_str()),
        Err(_) => None,
    }
}

// How many pairs a map's line has: of the keys 0 to 31 and 128 to 158 each at most once, and with
// it 1000 less the key; else none.
fn pairs_in(line: &str) -> Option<usize> {
    let mut is_met = [false; 256];
    let mut came: usize = 0;
    for pair in line.strip_prefix('{')?.strip_suffix('}')?.split(", ") {
        let place = is_met.get_mut(key_in(pair)?)?;
        if *place {
            return None;
        }
        *place = true;
        came = came.saturating_add(1);
    }
    Some(came)
}

// The key of a pair as it is printed, if it is one of those, with 1000 less the key.
fn key_in(pair: &str) -> Option<usize> {
    let (key, value) = pair.split_once(": ")?;
    let (key, value): (usize, usize) = (key.parse().ok()?, value.parse().ok()?);
    if matches!(key, 0..=31 | 128..=158) && value == 1000usize.wrapping_sub(key) {
        Some(key)
    } else {
        None
    }
}

// As the map of the pair. A removed pair of an index isn't printed, and printing touches no pair of
// a cache.
#[test]
fn caches_and_indexes_are_printed(rt: HostRuntime) -> Result<(), Fail> {
    for (number, row) in ROWS.iter().enumerate() {
        let mut cache: Cache = HashCache::with_hasher(rt.alloc(), ScriptHash::Id);
        let mut index: Index = HashIndex::with_hasher(rt.alloc(), ScriptHash::Id);
        let is_gone = index.insert(7, 70).is_ok() && index.remove(&7);
        check_same(&rt, is_gone, true, number);
        if let Some((key, value)) = row.pair {
            let are_in = cache.put(key, value).is_ok() && index.insert(key, value).is_ok();
            check_same(&rt, are_in, true, number);
        }
        check_shown(&rt, rt.alloc(), &cache, row.map, number);
        check_shown(&rt, rt.alloc(), &index, row.map, number);
    }
    Ok(())
}
