//! Collections that are taken by `try_take`, which leaves empty ones, and collections that are the
//! values of a map.
use super::check_same;
use collections::DefaultHash;
use collections::hash_cache::HashCache;
use collections::hash_index::HashIndex;
use collections::hash_map::HashMap;
use collections::hash_set::HashSet;
use std::alloc::AllocError;
use std::mem;
use std::test::Fail;

/// How many keys are left behind when a collection with one key is taken, and whether that key was
/// taken.
type Left = Result<(usize, bool), AllocError>;

#[test]
fn a_taken_collection_leaves_an_empty_one(rt: HostRuntime) -> Result<(), Fail> {
    let map = take_map(&mut HashMap::new(rt.alloc()));
    check_same(&rt, map, Ok((0, true)), "map");
    let set = take_set(&mut HashSet::new(rt.alloc()));
    check_same(&rt, set, Ok((0, true)), "set");
    let index = take_index(&mut HashIndex::new(rt.alloc()));
    check_same(&rt, index, Ok((0, true)), "index");
    let cache = take_cache(&mut HashCache::new(rt.alloc()));
    check_same(&rt, cache, Ok((0, true)), "cache");
    Ok(())
}

fn take_map(map: &mut HashMap<u64, u64>) -> Left {
    map.upsert(1, 10)?;
    let taken = mem::try_take(map)?;
    Ok((map.len(), taken.get(&1).copied() == Some(10)))
}

fn take_set(set: &mut HashSet<u64>) -> Left {
    set.insert(1)?;
    let taken = mem::try_take(set)?;
    Ok((set.len(), taken.contains(&1)))
}

fn take_index(index: &mut HashIndex<u64, u64>) -> Left {
    if index.insert(1, 10).is_err() {
        return Err(AllocError);
    }
    let taken = mem::try_take(index)?;
    Ok((index.len(), taken.peek(&1).copied() == Some(10)))
}

fn take_cache(cache: &mut HashCache<u64, u64>) -> Left {
    cache.upsert(1, 10)?;
    let taken = mem::try_take(cache)?;
    Ok((cache.len(), taken.peek(&1).copied() == Some(10)))
}

#[test]
fn a_taken_cache_leaves_its_capacities(rt: HostRuntime) -> Result<(), Fail> {
    let mut cache = HashCache::with_size(rt.alloc(), DefaultHash::default(), 1024);
    check_same(&rt, slots_once_taken(&mut cache), Ok(1024), "slots");
    Ok(())
}

// Takes a cache, and puts a pair into the empty one that is left. Returns how many slots that has.
fn slots_once_taken(cache: &mut HashCache<u64, u64>) -> Result<usize, AllocError> {
    let taken = mem::try_take(cache)?;
    drop(taken);
    cache.upsert(1, 10)?;
    Ok(cache.capacity())
}

#[test]
fn a_map_is_the_default_of_its_place(rt: HostRuntime) -> Result<(), Fail> {
    let mut towns = HashMap::new(rt.alloc());
    check_same(&rt, give(&mut towns, 1, 2, 5), Ok(5), "new");
    check_same(&rt, give(&mut towns, 1, 2, 6), Ok(11), "present");
    check_same(&rt, towns.len(), 1, "len");
    Ok(())
}

// Adds to what a person has in a town, and returns the sum.
fn give(
    towns: &mut HashMap<u64, HashMap<u64, u64>>,
    town: u64,
    person: u64,
    more: u64,
) -> Result<u64, AllocError> {
    let held = towns.entry(town).or_default()?.entry(person).or_default()?;
    *held = held.wrapping_add(more);
    Ok(*held)
}

#[test]
fn a_set_is_the_default_of_its_place(rt: HostRuntime) -> Result<(), Fail> {
    let mut sets = HashMap::new(rt.alloc());
    check_same(&rt, join(&mut sets, 3), Ok(true), "new");
    check_same(&rt, join(&mut sets, 3), Ok(false), "present");
    Ok(())
}

// Inserts a number into the set of a place, and returns whether it was inserted.
fn join(sets: &mut HashMap<u64, HashSet<u64>>, number: u64) -> Result<bool, AllocError> {
    let came = sets.entry(1).or_default()?.insert(number)?;
    Ok(came)
}

#[test]
fn an_index_is_the_default_of_its_place(rt: HostRuntime) -> Result<(), Fail> {
    let mut indexes = HashMap::new(rt.alloc());
    check_same(&rt, index(&mut indexes, 3), Ok(1), "new");
    check_same(&rt, index(&mut indexes, 4), Ok(2), "present");
    Ok(())
}

// Puts a number into the index of a place, and returns how many that has.
fn index(
    indexes: &mut HashMap<u64, HashIndex<u64, u64>>,
    number: u64,
) -> Result<usize, AllocError> {
    let index = indexes.entry(1).or_default()?;
    if index.insert(number, 0).is_err() {
        return Err(AllocError);
    }
    Ok(index.len())
}

#[test]
fn a_cache_is_the_default_of_its_place(rt: HostRuntime) -> Result<(), Fail> {
    let mut caches = HashMap::new(rt.alloc());
    check_same(&rt, keep(&mut caches, 3), Ok(1), "new");
    check_same(&rt, keep(&mut caches, 4), Ok(2), "present");
    Ok(())
}

// Puts a number into the cache of a place, and returns how many that has.
fn keep(caches: &mut HashMap<u64, HashCache<u64, u64>>, number: u64) -> Result<usize, AllocError> {
    let cache = caches.entry(1).or_default()?;
    cache.upsert(number, 0)?;
    Ok(cache.len())
}
