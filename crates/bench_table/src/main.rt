//! The cost of calls on a table, and on a map over it, compared with the standard library's map
//! with the same hash.
//!
//! The arguments say what runs: `table`, `collections` or `map`, then `calls`, `large` or `single`,
//! and a number of pairs; `cache` or `lru`, then `calls` and a number of pairs; `shapes`, then a
//! group of shapes and a number of pairs; or `arrays`. Small numbers of pairs run several times.
//! Without arguments all courses but the shapes run once, over few pairs, and nothing is printed
//! that varies.
#![tactic(auto)]

mod arrays;
mod cached;
mod collected;
mod course;
mod hashes;
mod measured;
mod resident;
mod shapes;

use crate::arrays::run_arrays;
use crate::cached::{Bucketed, Listed, run_cache};
use crate::collected::Collected;
use crate::course::{run_calls, run_large, run_single};
use crate::measured::{Map, Measured, Table};
use crate::shapes::run_shapes;
use std::{env, io};

/// The minimum number of pairs of a run, all courses taken together.
const PAIRS: u64 = 64_000;

fn main(rt: HostRuntime) -> io::Result<()> {
    let mut args = env::args(&rt)?.skip(1);
    let Some(what) = args.next() else {
        return run_all(&rt);
    };
    if what.as_str() == "arrays" {
        return run_arrays(&rt, true);
    }
    let (Some(course), Some(word)) = (args.next(), args.next()) else {
        return Err(io::Error::from(io::ErrorKind::InvalidInput));
    };
    let Ok(pairs) = word.parse::<u64>() else {
        return Err(io::Error::from(io::ErrorKind::InvalidInput));
    };
    for _ in 0..(PAIRS / pairs.max(1)).max(1) {
        match what.as_str() {
            "cache" => run_cache::<Bucketed>(&rt, true, pairs)?,
            "lru" => run_cache::<Listed>(&rt, true, pairs)?,
            "table" => run_course::<Table>(&rt, course.as_str(), pairs)?,
            "collections" => run_course::<Collected>(&rt, course.as_str(), pairs)?,
            "map" => run_course::<Map>(&rt, course.as_str(), pairs)?,
            "shapes" => run_shapes(&rt, course.as_str(), pairs)?,
            _ => return Err(io::Error::from(io::ErrorKind::InvalidInput)),
        }
    }
    Ok(())
}

/// Runs a course with times.
fn run_course<M: Measured>(rt: &HostRuntime, course: &str, pairs: u64) -> io::Result<()> {
    match course {
        "calls" => run_calls::<M>(rt, true, pairs),
        "large" => run_large::<M>(rt, true, pairs),
        "single" => run_single::<M>(rt, true, pairs),
        _ => Err(io::Error::from(io::ErrorKind::InvalidInput)),
    }
}

/// Runs all courses without times.
fn run_all(rt: &HostRuntime) -> io::Result<()> {
    run_arrays(rt, false)?;
    println!(rt; "table")?;
    run_small::<Table>(rt)?;
    println!(rt; "collections")?;
    run_small::<Collected>(rt)?;
    println!(rt; "map")?;
    run_small::<Map>(rt)?;
    println!(rt; "cache")?;
    run_cache::<Bucketed>(rt, false, 1000)?;
    println!(rt; "lru")?;
    run_cache::<Listed>(rt, false, 1000)
}

/// Runs the courses of one map without times.
fn run_small<M: Measured>(rt: &HostRuntime) -> io::Result<()> {
    run_calls::<M>(rt, false, 1000)?;
    run_large::<M>(rt, false, 1000)?;
    run_single::<M>(rt, false, 1000)
}
