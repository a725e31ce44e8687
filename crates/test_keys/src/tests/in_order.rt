//! Keys that come in the order of their hashes, as from another collection with the same hasher.
//! They all go to the first buckets, where no sample of a resize looks, and yet the slots grow with
//! the keys, and no bucket is left with many of them.
use super::check_same;
use bucket_table::script::ScriptHash;
use collections::DefaultHash;
use collections::hash_cache::HashCache;
use collections::hash_index::HashIndex;
use collections::hash_map::HashMap;
use collections::hash_set::HashSet;
use std::alloc::Global;
use std::process::Abort;
use std::test::Fail;

// How many keys there are.
const KEYS: usize = 20000;

// The most keys that a bucket has when all are inserted: its 32 slots, and as many again.
const MOST: usize = 64;

// Checks how many keys and slots there are, and how many keys the fullest bucket has.
fn check_shape(rt: &impl Abort, keys: usize, slots: usize, fullest: usize, row: &'static str) {
    let few = slots <= KEYS.saturating_mul(4);
    check_same(rt, (keys, KEYS <= slots, few), (KEYS, true, true), row);
    check_same(rt, fullest <= MOST, true, (row, fullest));
}

// A map with the keys, each as its own value.
fn filled(alloc: Global) -> HashMap<u64, u64> {
    let mut map = HashMap::new(alloc);
    for key in 0..KEYS as u64 {
        let _ = map.insert(key, key);
    }
    map
}

// How many pairs the fullest bucket of a map has.
fn fullest_of(map: &HashMap<u64, u64>) -> usize {
    let mut fullest: usize = 0;
    for bucket in 0..usize::MAX {
        let mut len: usize = 0;
        let is_there = map.for_each_in(
            bucket,
            &mut |_key: &u64, _value: &u64| {
                len = len.saturating_add(1);
            },
        );
        if !is_there {
            break;
        }
        fullest = fullest.max(len);
    }
    fullest
}

#[test]
fn a_map_grows_with_the_pairs_of_another(rt: HostRuntime) -> Result<(), Fail> {
    let from = filled(rt.alloc());
    let mut to = HashMap::new(rt.alloc());
    for (key, value) in &from {
        let _ = to.insert(*key, *value);
    }
    check_shape(&rt, to.len(), to.capacity(), fullest_of(&to), "inserted");
    Ok(())
}

#[test]
fn a_map_grows_with_the_pairs_that_replace_values(rt: HostRuntime) -> Result<(), Fail> {
    let from = filled(rt.alloc());
    let mut to = HashMap::new(rt.alloc());
    for (key, value) in &from {
        let _ = to.upsert(*key, *value);
    }
    check_shape(&rt, to.len(), to.capacity(), fullest_of(&to), "upserted");
    Ok(())
}

#[test]
fn a_map_grows_with_the_pairs_of_entries(rt: HostRuntime) -> Result<(), Fail> {
    let from = filled(rt.alloc());
    let mut to: HashMap<u64, u64> = HashMap::new(rt.alloc());
    for (key, value) in &from {
        let _ = to.entry(*key).or_insert(*value);
    }
    check_shape(&rt, to.len(), to.capacity(), fullest_of(&to), "entries");
    Ok(())
}

// An iterator that drops keys has no lower bound of their number, so no slots are made first.
#[test]
fn a_map_grows_with_the_pairs_that_are_left_of_another(rt: HostRuntime) -> Result<(), Fail> {
    let from = filled(rt.alloc());
    let to: HashMap<u64, u64> = from
        .iter()
        .filter(|pair| *pair.0 < u64::MAX)
        .map(|(key, value)| (*key, *value))
        .collect(rt.alloc())?;
    check_shape(&rt, to.len(), to.capacity(), fullest_of(&to), "collected");
    Ok(())
}

#[test]
fn a_set_grows_with_the_keys_of_a_map(rt: HostRuntime) -> Result<(), Fail> {
    let from = filled(rt.alloc());
    let mut to: HashSet<u64> = HashSet::new(rt.alloc());
    for key in from.keys() {
        let _ = to.insert(*key);
    }
    check_shape(&rt, to.len(), to.capacity(), fullest_of_set(&to), "set");
    Ok(())
}

// How many keys the fullest bucket of a set has.
fn fullest_of_set(set: &HashSet<u64>) -> usize {
    let mut fullest: usize = 0;
    for bucket in 0..usize::MAX {
        let mut len: usize = 0;
        let is_there = set.for_each_in(
            bucket,
            &mut |_key: &u64| {
                len = len.saturating_add(1);
            },
        );
        if !is_there {
            break;
        }
        fullest = fullest.max(len);
    }
    fullest
}

#[test]
fn an_index_grows_with_the_pairs_of_a_map(rt: HostRuntime) -> Result<(), Fail> {
    let from = filled(rt.alloc());
    let mut to: HashIndex<u64, u64> = HashIndex::new(rt.alloc());
    for (key, value) in &from {
        let _ = to.insert(*key, *value);
    }
    check_shape(&rt, to.len(), to.capacity(), fullest_of_index(&to), "index");
    Ok(())
}

// How many pairs the fullest bucket of an index has.
fn fullest_of_index(index: &HashIndex<u64, u64>) -> usize {
    let mut fullest: usize = 0;
    for bucket in 0..usize::MAX {
        let mut len: usize = 0;
        let is_there = index.for_each_in(
            bucket,
            &mut |_key: &u64, _value: &u64| {
                len = len.saturating_add(1);
            },
        );
        if !is_there {
            break;
        }
        fullest = fullest.max(len);
    }
    fullest
}

// Removes some of a map's keys.
fn remove_range(map: &mut HashMap<u64, u64>, keys: &[u64], from: usize, to: usize) {
    for at in from..to {
        if let Some(key) = keys.get(at) {
            let _ = map.remove(key);
        }
    }
}

// Keys are removed from the buckets that the samples of a resize read: those in the middle, the
// last but one key, and then the first. Three of four pairs are left, which the samples don't see.
#[test]
fn a_map_keeps_slots_for_the_pairs_that_no_sample_sees(rt: HostRuntime) -> Result<(), Fail> {
    let mut map = filled(rt.alloc());
    let keys: Vec<u64> = map.keys().copied().collect(rt.alloc())?;
    let part = KEYS / 16;
    remove_range(&mut map, &keys, part * 7, part * 9);
    remove_range(&mut map, &keys, part * 15, KEYS - 1);
    remove_range(&mut map, &keys, 0, part);
    let left = map.len();
    check_same(&rt, left, 15001, "left");
    check_same(&rt, left <= map.capacity(), true, "slots");
    check_same(&rt, fullest_of(&map) <= MOST, true, "fullest");
    Ok(())
}

// As few are left as the samples report: the slots are freed.
#[test]
fn a_map_frees_the_slots_of_most_of_its_pairs(rt: HostRuntime) -> Result<(), Fail> {
    let mut map = filled(rt.alloc());
    for key in 100..KEYS as u64 {
        let _ = map.remove(&key);
    }
    let (left, slots) = (map.len(), map.capacity());
    check_same(&rt, left, 100, "left");
    check_same(
        &rt,
        slots <= left.saturating_mul(16),
        true,
        ("slots", slots),
    );
    Ok(())
}

// All keys have one hash, so more slots wouldn't help: there are at most 16 slots for each pair.
#[test]
fn a_map_of_one_hash_grows_no_further(rt: HostRuntime) -> Result<(), Fail> {
    let mut map: HashMap<u64, u64, ScriptHash> = HashMap::with_hasher(rt.alloc(), ScriptHash::Zero);
    for key in 0..1000 {
        let _ = map.insert(key, key);
    }
    check_same(
        &rt,
        (map.len(), map.capacity() <= 16000),
        (1000, true),
        "one hash",
    );
    Ok(())
}

// A cache doubles its slots before it evicts, so it loses only what comes while pairs move: fewer
// than one in a thousand.
#[test]
fn a_cache_grows_before_it_evicts(rt: HostRuntime) -> Result<(), Fail> {
    let from = filled(rt.alloc());
    let mut to: HashCache<u64, u64> = HashCache::with_capacity(
        rt.alloc(),
        DefaultHash::default(),
        0,
        65536,
    );
    for (key, value) in &from {
        let _ = to.put(*key, *value);
    }
    let kept = to.len();
    check_same(&rt, KEYS - KEYS / 1000 <= kept, true, ("cache", kept));
    Ok(())
}
