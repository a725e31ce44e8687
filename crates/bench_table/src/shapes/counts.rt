//! Calls that only count. Two maps are called in an irregular order, so that a compiler can't
//! compute one result for all calls.
use crate::shapes::print_shape;
use bucket_table::key_hash::KeyHash;
use bucket_table::script::ScriptHash;
use collections::hash_map::HashMap;
use std::io;
use std::time::Instant;

/// How often `len` and `is_empty` are called.
const CALLS: u64 = 1000;

/// How often `size_hint` is called.
const HINTS: u64 = 10;

/// Prints the cost of the calls on a map of that many pairs.
pub(crate) fn run_counts(rt: &HostRuntime, pairs: u64) -> io::Result<()> {
    let mut maps: Vec<HashMap<u64, u64>> = Vec::new(rt.alloc());
    for _ in 0..2 {
        maps.push(fill(HashMap::new(rt.alloc()), pairs))?;
    }
    run_calls(rt, "counts", &maps)
}

/// Prints the cost of the calls on a map of that many keys that all have one hash.
pub(crate) fn run_crowd(rt: &HostRuntime, pairs: u64) -> io::Result<()> {
    let mut maps: Vec<HashMap<u64, u64, ScriptHash>> = Vec::new(rt.alloc());
    for _ in 0..2 {
        let empty = HashMap::with_hasher(rt.alloc(), ScriptHash::Zero);
        maps.push(fill(empty, pairs))?;
    }
    run_calls(rt, "crowd", &maps)
}

/// Inserts the numbers below `pairs` into a map.
fn fill<H: KeyHash<u64>>(mut map: HashMap<u64, u64, H>, pairs: u64) -> HashMap<u64, u64, H> {
    for key in 0..pairs {
        let _ = map.upsert(key, key);
    }
    map
}

/// Prints the cost of each call.
fn run_calls<H: KeyHash<u64>>(
    rt: &HostRuntime,
    kind: &str,
    maps: &[HashMap<u64, u64, H>],
) -> io::Result<()> {
    let start = Instant::now(rt)?;
    let sum = lens(maps);
    print_shape(rt, start, CALLS, sum, kind, "len")?;
    let start = Instant::now(rt)?;
    let sum = empties(maps);
    print_shape(rt, start, CALLS, sum, kind, "is_empty")?;
    let start = Instant::now(rt)?;
    let sum = hints(maps);
    print_shape(rt, start, HINTS, sum, kind, "iter().size_hint()")
}

/// The next state of an irregular order, whose upper bit selects the map.
fn next_state(state: u64) -> u64 {
    state
        .wrapping_mul(6364136223846793005)
        .wrapping_add(1442695040888963407)
}

/// Returns the sum of the results of `len`.
#[inline(never)]
fn lens<H: KeyHash<u64>>(maps: &[HashMap<u64, u64, H>]) -> u64 {
    let mut state: u64 = 0;
    let mut sum: u64 = 0;
    for _ in 0..CALLS {
        state = next_state(state);
        if let Some(map) = maps.get((state >> 63) as usize) {
            sum = sum.wrapping_add(map.len() as u64);
        }
    }
    sum
}

/// Returns how often `is_empty` returns `true`.
#[inline(never)]
fn empties<H: KeyHash<u64>>(maps: &[HashMap<u64, u64, H>]) -> u64 {
    let mut state: u64 = 0;
    let mut count: u64 = 0;
    for _ in 0..CALLS {
        state = next_state(state);
        if let Some(map) = maps.get((state >> 63) as usize)
            && map.is_empty()
        {
            count = count.wrapping_add(1);
        }
    }
    count
}

/// Returns the sum of the lower bounds that `size_hint` returns.
#[inline(never)]
fn hints<H: KeyHash<u64>>(maps: &[HashMap<u64, u64, H>]) -> u64 {
    let mut state: u64 = 0;
    let mut sum: u64 = 0;
    for _ in 0..HINTS {
        state = next_state(state);
        if let Some(map) = maps.get((state >> 63) as usize) {
            sum = sum.wrapping_add(map.iter().size_hint().0 as u64);
        }
    }
    sum
}
