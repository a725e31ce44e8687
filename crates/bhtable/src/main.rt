//! A program over one table, on standard input and output: each line of input is a request, and is
//! answered by a line of output. It ignores its arguments.
//!
//! SPDX-License-Identifier: Apache-2.0
#![tactic(auto)]

ghost use Rattle.std.specs.Prelude.{◌≡◌, ℕ, false, List, [], MatchResult};
ghost use Rattle.bhtable.specs.InputLines.{lines_of};
ghost use Rattle.bhtable.specs.Layout.Stops.{IsInput, IsOutputUpTo};
ghost use Rattle.bhtable.specs.Outputs.{HasAnswered, IsServed};
ghost use Rattle.bhtable.specs.Layout.Sessions.{HasEnded, HasTaken};

mod lines;
mod output;
mod replies;
mod request;
mod session;
mod stop;

use crate::lines::{Found, Lines};
use crate::output::report;
use crate::session::Session;
use crate::stop::Stop;
use std::alloc::Global;
use std::io::{Input, Read, Write};
use std::process::ExitCode;

/// Answers each line of the input with one line of output, and returns the exit status.
///
/// The replies of every line that was read are written out before more input is asked for. Memory
/// doesn't grow with the input: lines are read and replies written in pieces of 64 KiB, and at most
/// 1,024 calls are gathered before the table answers them.
///
/// The status is 0 at the end of the input; 2 after `bad line N`, if line N can't be read; 3 after
/// `no memory`; 4 after `input failed`, and if the output can't be written.
///
/// With status 4 the output is the answers of the first lines and then `input failed`, or, if a
/// write failed, a prefix of what it would have been with any status. Nothing is written after a
/// failed write. No clause says that with status 3 an allocation really failed.
pub fn serve<R: Read + Drop, W: Write>(alloc: Global, input: R, output: &mut W) -> u8
    ensures { IsServed (R.remaining input) (W.contents output.old) (W.contents output.new) result }
{
    match answer_input(alloc, input, output) {
        Ok(()) => 0,
        Err(stop) => report(stop, output),
    }
}

// Answers the lines until the end of the input, and writes every reply, even after a stop.
fn answer_input<R: Read + Drop, W: Write>(
    alloc: Global,
    input: R,
    output: &mut W,
) -> Result<(), Stop>
    ensures { (bytes : List ℕ) × IsInput (R.remaining input) bytes × MatchResult result
        (λ _. HasAnswered (lines_of bytes) (W.contents output.old) (W.contents output.new) [])
        (λ stop. IsOutputUpTo stop (lines_of bytes)
        (W.contents output.old) (W.contents output.new)) }
{
    let mut lines = Lines::new(alloc, input)?;
    let mut session = Session::new(alloc)?;
    let ended = answer_lines(&mut lines, &mut session, output);
    session.finish(ended, output)
}

fn answer_lines<R: Read + Drop, W: Write>(
    lines: &mut Lines<R>,
    session: &mut Session,
    output: &mut W,
) -> Result<(), Stop>
    requires none { lines.old.unread ≡ [] }
    requires goes_on { lines.old.is_ended ≡ false }
    requires fresh { HasTaken (W.contents output.old) (W.contents output.old) session.old [] }
    ensures { (bytes : List ℕ) × IsInput lines.old.left bytes
        × HasEnded result (W.contents output.old) (W.contents output.new)
        session.new (lines_of bytes) }
{
    let mut number = 0;
    for turn in 0..u64::MAX {
        match lines.find() {
            Found::Line(line) => {
                number += 1;
                session.take(number, lines.bytes(line), output)?;
                lines.pass(line);
            }
            Found::TooLong => return Err(Stop::BadLine(number + 1)),
            Found::Cut => {
                session.write_out(output)?;
                lines.read_more()?;
            }
            Found::End => return Ok(()),
        }
    }
    Err(Stop::InputFailed)
}

fn main(rt: HostRuntime) -> ExitCode {
    let mut output = rt.stdout();
    ExitCode::from(serve(rt.alloc(), rt.stdin(), &mut output))
}
