//! The courses that a map of numbers goes through, and the cost of each of their calls.
//!
//! Each figure is a line: its name, the total in nanoseconds or bytes, and the number of calls or
//! pairs.
use crate::measured::Measured;
use crate::resident::resident_bytes;
use std::io;
use std::time::Instant;

/// Prints the cost of a call: its name, the time since `start`, and the number of calls. Without
/// times it prints the name and the number.
pub(crate) fn print_time(
    rt: &HostRuntime,
    prints_times: bool,
    name: &str,
    start: Instant,
    calls: u64,
) -> io::Result<()> {
    let nanoseconds = start.elapsed(rt)?.as_nanos();
    if prints_times {
        println!(rt; "{name} {nanoseconds} {calls}")
    } else {
        println!(rt; "{name} {calls}")
    }
}

/// Prints the cost of calls on a map that grows from nothing to an even number of pairs.
pub(crate) fn run_calls<M: Measured>(
    rt: &HostRuntime,
    prints_times: bool,
    pairs: u64,
) -> io::Result<()> {
    let twice = pairs.wrapping_mul(2);
    let before = resident_bytes(rt, prints_times)?;
    let mut map = M::with_room(rt.alloc(), 0)?;
    let start = Instant::now(rt)?;
    require(insert_all(&mut map, 0, pairs) == pairs)?;
    print_time(rt, prints_times, "insert", start, pairs)?;
    let after = resident_bytes(rt, prints_times)?;
    if prints_times {
        println!(rt; "bytes {} {pairs}", after.saturating_sub(before))?;
    }
    let start = Instant::now(rt)?;
    require(find_all(&map, 0, pairs) == pairs)?;
    print_time(rt, prints_times, "hit", start, pairs)?;
    let start = Instant::now(rt)?;
    require(miss_all(&map, pairs, twice) == pairs)?;
    print_time(rt, prints_times, "miss", start, pairs)?;
    let start = Instant::now(rt)?;
    require(churn_all(&mut map, pairs) == pairs)?;
    print_time(rt, prints_times, "churn", start, pairs)?;
    run_ends(rt, prints_times, &mut map, pairs)
}

/// Prints the cost of walks, sweeps and removals on a map with the keys from `pairs` to twice that.
fn run_ends<M: Measured>(
    rt: &HostRuntime,
    prints_times: bool,
    map: &mut M,
    pairs: u64,
) -> io::Result<()> {
    let twice = pairs.wrapping_mul(2);
    let start = Instant::now(rt)?;
    let sum = map.sum();
    print_time(rt, prints_times, "walk", start, pairs)?;
    require(sum == sum_between(pairs, twice))?;
    let start = Instant::now(rt)?;
    let sum = map.iterated();
    print_time(rt, prints_times, "iter", start, pairs)?;
    require(sum == sum_between(pairs, twice))?;
    let start = Instant::now(rt)?;
    require(remove_all(map, pairs, twice) == pairs)?;
    print_time(rt, prints_times, "remove", start, pairs)?;
    require(insert_all(map, 0, pairs) == pairs)?;
    let start = Instant::now(rt)?;
    require(map.drop_odd() == pairs / 2)?;
    print_time(rt, prints_times, "sweep", start, pairs)
}

/// Prints the cost of an insertion in a map that was large enough from the start, and then of a
/// removal, where the map keeps its size.
pub(crate) fn run_large<M: Measured>(
    rt: &HostRuntime,
    prints_times: bool,
    pairs: u64,
) -> io::Result<()> {
    let mut map = M::with_room(rt.alloc(), pairs)?;
    let start = Instant::now(rt)?;
    require(insert_all(&mut map, 0, pairs) == pairs)?;
    print_time(rt, prints_times, "large", start, pairs)?;
    let start = Instant::now(rt)?;
    require(remove_all(&mut map, 0, pairs) == pairs)?;
    print_time(rt, prints_times, "emptied", start, pairs)
}

/// Prints how long single insertions took in a map that grows to that many pairs: the longest, the
/// 99.99th percentile, and those of some ranks, from the slowest.
pub(crate) fn run_single<M: Measured>(
    rt: &HostRuntime,
    prints_times: bool,
    pairs: u64,
) -> io::Result<()> {
    let mut times: Vec<u128> = Vec::with_capacity(rt.alloc(), pairs as usize)?;
    let mut map = M::with_room(rt.alloc(), 0)?;
    for key in 0..pairs {
        times.push(time_of_put(rt, &mut map, key)?)?;
    }
    drop(map);
    times.sort_unstable();
    print_single(rt, prints_times, &times)
}

/// Inserts a key, and returns how many nanoseconds that took.
fn time_of_put<M: Measured>(rt: &HostRuntime, map: &mut M, key: u64) -> io::Result<u128> {
    let start = Instant::now(rt)?;
    let came = map.put(key);
    let nanoseconds = start.elapsed(rt)?.as_nanos();
    require(came)?;
    Ok(nanoseconds)
}

/// Prints some of the times of single insertions, in ascending order.
fn print_single(rt: &HostRuntime, prints_times: bool, times: &[u128]) -> io::Result<()> {
    let len = times.len();
    if !prints_times {
        return println!(rt; "single {len}");
    }
    println!(rt; "longest {} 1", slowest(times, 1))?;
    println!(rt;
        "rarely {} 1",
        slowest(times, (len / 10_000).saturating_add(1))
    )?;
    for rank in [1, 10, 100, 1_000, 10_000, 100_000, 1_000_000] {
        if rank < len {
            println!(rt; "rank{rank} {} 1", slowest(times, rank))?;
        }
    }
    println!(rt; "median {} 1", slowest(times, len / 2))
}

/// The time of a rank, 1 for the slowest, among times in ascending order; 0 if there is none.
fn slowest(times: &[u128], rank: usize) -> u128 {
    match times.len().checked_sub(rank) {
        Some(place) => times.get(place).copied().unwrap_or(0),
        None => 0,
    }
}

/// The error of a run whose calls didn't do what was to be timed.
pub(crate) fn require(holds: bool) -> io::Result<()> {
    if holds {
        Ok(())
    } else {
        Err(io::Error::from(io::ErrorKind::InvalidData))
    }
}

/// Inserts the keys of a half-open range, and returns how many were inserted.
#[inline(never)]
fn insert_all<M: Measured>(map: &mut M, from: u64, to: u64) -> u64 {
    let mut inserted: u64 = 0;
    for key in from..to {
        if map.put(key) {
            inserted = inserted.wrapping_add(1);
        }
    }
    inserted
}

/// Looks up the keys of a half-open range, and returns how many are present.
#[inline(never)]
fn find_all<M: Measured>(map: &M, from: u64, to: u64) -> u64 {
    let mut found: u64 = 0;
    for key in from..to {
        if map.has(key) {
            found = found.wrapping_add(1);
        }
    }
    found
}

/// Looks up the keys of a half-open range, and returns how many are absent.
#[inline(never)]
fn miss_all<M: Measured>(map: &M, from: u64, to: u64) -> u64 {
    let mut missed: u64 = 0;
    for key in from..to {
        if !map.has(key) {
            missed = missed.wrapping_add(1);
        }
    }
    missed
}

/// Removes the keys below `pairs`, and inserts one for each. Returns how many were removed and
/// inserted.
#[inline(never)]
fn churn_all<M: Measured>(map: &mut M, pairs: u64) -> u64 {
    let mut changed: u64 = 0;
    for key in 0..pairs {
        if map.take(key) && map.put(key.wrapping_add(pairs)) {
            changed = changed.wrapping_add(1);
        }
    }
    changed
}

/// Removes the keys of a half-open range, and returns how many were present.
#[inline(never)]
fn remove_all<M: Measured>(map: &mut M, from: u64, to: u64) -> u64 {
    let mut removed: u64 = 0;
    for key in from..to {
        if map.take(key) {
            removed = removed.wrapping_add(1);
        }
    }
    removed
}

/// Returns the sum of the numbers of a half-open range, wrapping.
fn sum_between(from: u64, to: u64) -> u64 {
    let mut sum: u64 = 0;
    for key in from..to {
        sum = sum.wrapping_add(key);
    }
    sum
}
