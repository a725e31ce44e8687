//! Counts the lines of its input: prints each distinct line once, after its count, in descending
//! order of the counts and then in the order of the bytes.
//!
//! SPDX-License-Identifier: Apache-2.0
#![tactic(auto)]

ghost use Rattle.std.specs.Prelude.{◌≡◌, ℕ, List, IfSome, OnOk};
ghost use Rattle.example_word_count.specs.Lines.{lines_of};
ghost use Rattle.example_word_count.specs.Reports.{HasReport};

mod failure;
mod line;
mod report;
mod waiting;

use crate::failure::Failure;
use crate::line::lines_of;
use crate::report::{report_of, write_report};
use std::alloc::Global;
use std::io::{Read, Write};
use std::process::ExitCode;

/// Counts the lines of the input, and prints them.
///
/// The whole input is read before a line is counted, so memory holds all of it.
///
/// # Errors
///
/// `InputFailed` and `NoMemory`: nothing is printed. `OutputFailed`: the output may have a prefix
/// of the report.
pub fn print_counts<R: Read + Drop, W: Write>(
    alloc: Global,
    mut input: R,
    output: &mut W,
) -> Result<(), Failure>
    ensures { OnOk result ((bytes : List ℕ) × IfSome (R.remaining input) (λ all. all ≡ bytes)
        × HasReport (lines_of bytes) (W.contents output.old) (W.contents output.new)) }
{
    let mut text = Vec::new(alloc);
    input.read_to_end(&mut text).map_err(Failure::of_reading)?;
    let lines = lines_of(alloc, text.as_slice())?;
    let report = report_of(alloc, lines.as_slice())?;
    write_report(alloc, report.as_slice(), output)
}

fn main(rt: HostRuntime) -> ExitCode {
    let mut output = rt.stdout();
    match print_counts(rt.alloc(), rt.stdin(), &mut output) {
        Ok(()) => ExitCode::SUCCESS,
        Err(failure) => {
            let _ = eprintln!(rt; "example_word_count: {failure}");
            ExitCode::from(failure.status())
        }
    }
}
