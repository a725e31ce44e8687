//! Calls on tables, on buckets and on new arrays, for runs in which an allocation fails.
//!
//! The program judges its own outcome, and prints it in one line. A right outcome with an
//! allocation failure has its own status, so that of two runs with status 0 both printed `done`,
//! unless one of them was wrong: a trial that makes one allocation after another fail reports such
//! a run.
#![tactic(auto)]

mod arrays;
mod buckets;
mod by_call;
mod cases;
mod direct;
mod outcome;

use crate::arrays::arrays;
use crate::buckets::two_buckets;
use crate::direct::direct_calls;
use crate::outcome::Outcome;
use std::alloc::Global;
use std::process::ExitCode;

fn main(rt: HostRuntime) -> ExitCode {
    let outcome = all_parts(rt.alloc());
    match println!(rt; "{}", outcome.text()) {
        Ok(()) => ExitCode::from(outcome.status()),
        Err(_) => ExitCode::from(12),
    }
}

/// Runs the parts one after another, each if the one before was done.
fn all_parts(alloc: Global) -> Outcome {
    match two_buckets(alloc) {
        Outcome::Done => {}
        outcome => return outcome,
    }
    match arrays(alloc) {
        Outcome::Done => direct_calls(alloc),
        outcome => outcome,
    }
}
