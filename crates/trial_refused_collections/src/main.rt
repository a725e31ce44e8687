//! Random calls on collections of numbers, compared with an array of the expected contents, for
//! runs in which random allocations fail.
//!
//! An insertion may return an allocation failure, and so may an upsert of an absent key and a copy
//! of a map or a set: the collection then has the pairs that it had. No other call may fail. The
//! program checks each result itself, each copy too, and writes a line for each collection. Its
//! status is 0 if every result was right and each cache evicted pairs. The number of pairs in a
//! cache depends on its slots, and isn't printed.
#![tactic(auto)]

mod collection;
mod course;

use crate::collection::Collection;
use crate::course::{Counts, Course};
use bucket_table::script::ScriptHash;
use std::io;
use std::process::ExitCode;

// How many calls there are on each collection.
const CALLS: u64 = 100_000;

fn main(rt: HostRuntime) -> ExitCode {
    let mut status = ExitCode::SUCCESS;
    for hasher in [ScriptHash::Zero, ScriptHash::Id, ScriptHash::Spread] {
        for (name, collection) in Collection::all(rt.alloc(), hasher) {
            match play(&rt, hasher, name, collection) {
                Ok(true) => {}
                Ok(false) => status = ExitCode::from(1),
                Err(_) => return ExitCode::from(12),
            }
        }
    }
    status
}

// Makes the calls on a collection, and prints what became of them. Returns whether every result was
// right, and a cache evicted pairs.
fn play(
    rt: &HostRuntime,
    hasher: ScriptHash,
    name: &str,
    collection: Collection,
) -> io::Result<bool> {
    let (answers_are_right, counts) = outcome(collection);
    let is_right = answers_are_right && (name == "cache") == (counts.gone > 0);
    print_counts(rt, hasher, name, counts, is_right)?;
    Ok(is_right)
}

// Makes the calls on a collection, and returns whether every result was right.
fn outcome(collection: Collection) -> (bool, Counts) {
    let mut course = Course::new(collection);
    let is_right = course.play(CALLS);
    (is_right, course.counts())
}

// Prints what became of the calls on a collection.
fn print_counts(
    rt: &HostRuntime,
    hasher: ScriptHash,
    name: &str,
    counts: Counts,
    is_right: bool,
) -> io::Result<()> {
    let Counts {
        put,
        refused,
        gone: _,
        copied,
        uncopied,
    } = counts;
    let judged = if is_right { "right" } else { "wrong" };
    match name {
        "cache" => println!(rt; "{hasher:?} {name}: {CALLS} calls, {refused} failed, {judged}"),
        "index" => println!(rt;
            "{hasher:?} {name}: {CALLS} calls, {put} pairs put, {refused} failed, {judged}"
        ),
        _ => println!(rt;
            "{hasher:?} {name}: {CALLS} calls, {put} pairs put, {copied} copied, \
             {uncopied} not copied, {refused} failed, {judged}"
        ),
    }
}
