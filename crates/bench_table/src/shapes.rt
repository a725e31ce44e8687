//! What programs do with the pairs of a collection, timed by `bench/shapes.sh`. Pairs of another
//! collection come in the order of its slots, which is that of their hashes.
//!
//! Each figure is a line: nanoseconds, the number of pairs or calls, how many pairs there are at
//! the end, and the name. All collections have the default hash.
mod counts;
mod of_all;
mod of_maps;
mod of_sets;
mod shaped;

use crate::shapes::counts::{run_counts, run_crowd};
use crate::shapes::of_all::{
    ROUNDS, alternated, cleared, copied, filled, halved, made, refilled, removed, removed_back,
    restored, reversed,
};
use crate::shapes::of_sets::two_sets;
use crate::shapes::shaped::{Cache, Index, Map, Set, Shaped};
use std::alloc::Global;
use std::io;
use std::time::{Duration, Instant};

/// Prints the cost of a group of shapes.
pub(crate) fn run_shapes(rt: &HostRuntime, group: &str, pairs: u64) -> io::Result<()> {
    match group {
        "map" => run_map(rt, pairs),
        "set" => run_set(rt, pairs),
        "index" => run_all_kinds::<Index>(rt, "index", pairs),
        "cache" => run_all_kinds::<Cache>(rt, "cache", pairs),
        "small" => run_small(rt),
        "longest" => run_longest(rt, pairs),
        "counts" => run_counts(rt, pairs),
        "crowd" => run_crowd(rt, pairs),
        _ => Err(io::Error::from(io::ErrorKind::InvalidInput)),
    }
}

/// Runs a table of shapes, each a name and a function, on new collections.
macro_rules! run_table {
    ($rt:expr, $kind:expr, $pairs:expr, $from:expr; $($name:literal => $shape:expr,)*) => {{
        $(run_shape($rt, $kind, $name, $pairs, $from, |alloc, from| $shape(alloc, from))?;)*
    }};
}

/// Runs the shapes of all collections, after an untimed copy that gets memory for the process.
fn run_all_kinds<C: Shaped>(rt: &HostRuntime, kind: &str, pairs: u64) -> io::Result<()> {
    drop(copied(rt.alloc(), filled::<C>(rt.alloc(), pairs))?);
    run_table! { rt, kind, pairs, filled::<C>(rt.alloc(), pairs);
        "loop" => copied::<C>,
        "loop, reverse order" => reversed::<C>,
        "keys, clear, insert" => restored::<C>,
        "remove in order" => removed::<C>,
        "remove in reverse" => removed_back::<C>,
        "retain half" => halved::<C>,
        "clear, refill" => refilled::<C>,
    }
    Ok(())
}

fn run_map(rt: &HostRuntime, pairs: u64) -> io::Result<()> {
    run_all_kinds::<Map>(rt, "map", pairs)?;
    run_table! { rt, "map", pairs, filled::<Map>(rt.alloc(), pairs);
        "filter, map, collect" => of_maps::filtered,
        "into_iter, collect" => of_maps::collected,
        "extend" => of_maps::extended,
        "try_extend" => of_maps::extended_all,
        "drain, insert" => of_maps::drained,
        "extract_if, collect" => of_maps::extracted,
        "split into four" => of_maps::split,
    }
    Ok(())
}

fn run_set(rt: &HostRuntime, pairs: u64) -> io::Result<()> {
    run_all_kinds::<Set>(rt, "set", pairs)?;
    run_table! { rt, "set", pairs, filled::<Set>(rt.alloc(), pairs);
        "filter, map, collect" => of_sets::filtered,
        "into_iter, collect" => of_sets::collected,
        "extend" => of_sets::extended,
        "try_extend" => of_sets::extended_all,
        "drain, insert" => of_sets::drained,
        "extract_if, collect" => of_sets::extracted,
    }
    run_table! { rt, "set", pairs, two_sets(rt.alloc(), pairs);
        "union, collect" => of_sets::united,
        "intersection, collect" => of_sets::intersected,
    }
    Ok(())
}

/// Runs the shapes of few pairs.
fn run_small(rt: &HostRuntime) -> io::Result<()> {
    run_small_kind::<Map>(rt, "map")?;
    run_small_kind::<Set>(rt, "set")?;
    run_small_kind::<Index>(rt, "index")?;
    run_small_kind::<Cache>(rt, "cache")?;
    run_table! { rt, "map", ROUNDS, filled::<Map>(rt.alloc(), 3);
        "clone 3 pairs" => of_maps::cloned,
    }
    Ok(())
}

fn run_small_kind<C: Shaped>(rt: &HostRuntime, kind: &str) -> io::Result<()> {
    run_table! { rt, kind, ROUNDS, C::make(rt.alloc());
        "make, insert 3, get 1, drop" => made::<C>,
        "insert, remove" => alternated::<C>,
        "clear, insert 1" => cleared::<C>,
    }
    Ok(())
}

/// Times the longest insertion of a copy by a loop.
fn run_longest(rt: &HostRuntime, pairs: u64) -> io::Result<()> {
    run_longest_of::<Map>(rt, "map", pairs)?;
    run_longest_of::<Set>(rt, "set", pairs)?;
    run_longest_of::<Index>(rt, "index", pairs)?;
    run_longest_of::<Cache>(rt, "cache", pairs)
}

fn run_longest_of<C: Shaped>(rt: &HostRuntime, kind: &str, pairs: u64) -> io::Result<()> {
    let keys = filled::<C>(rt.alloc(), pairs).listed(rt.alloc())?;
    let mut to = C::make(rt.alloc());
    let mut longest = Duration::ZERO;
    for key in &keys {
        let start = Instant::now(rt)?;
        to.put(*key);
        longest = longest.max(start.elapsed(rt)?);
    }
    let kept = to.count();
    println!(rt; "{} 1 {kept} {kind}: longest insertion", longest.as_nanos())?;
    Ok(())
}

/// Prints the cost of a shape, from one collection to another.
fn run_shape<S: Drop, C: Shaped, F: FnOnce(Global, S) -> io::Result<C>>(
    rt: &HostRuntime,
    kind: &str,
    name: &str,
    pairs: u64,
    from: S,
    shape: F,
) -> io::Result<()>
    requires { F.IsAlwaysCallable shape }
{
    let start = Instant::now(rt)?;
    let to = shape(rt.alloc(), from)?;
    let nanoseconds = start.elapsed(rt)?.as_nanos();
    println!(rt; "{nanoseconds} {pairs} {} {kind}: {name}", to.count())?;
    Ok(())
}

/// Prints how long that many calls took since `start`, and the sum of their results.
fn print_shape(
    rt: &HostRuntime,
    start: Instant,
    calls: u64,
    sum: u64,
    kind: &str,
    name: &str,
) -> io::Result<()> {
    let nanoseconds = start.elapsed(rt)?.as_nanos();
    println!(rt; "{nanoseconds} {calls} {sum} {kind}: {name}")?;
    Ok(())
}
