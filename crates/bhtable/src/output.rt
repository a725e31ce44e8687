//! Writing to an output that may fail; the last line of output and the exit status after a stop.
ghost use Rattle.bhtable.specs.Growing.{IsWritten};
ghost use Rattle.bhtable.specs.Layout.Stops.{HasLast, IsReported};

use crate::stop::Stop;
use std::io::{ErrorKind, Write};

/// Writes the last line, and returns the status: that of the stop, or 4 if the line can't be
/// written. For a line that can't be read the last line is among the replies already.
///
/// Nothing more is written to an output that failed.
pub(crate) fn report<W: Write>(stop: Stop, output: &mut W) -> u8
    ensures { IsReported stop result (W.contents output.old) (W.contents output.new) }
{
    match stop {
        Stop::BadLine(_) => 2,
        Stop::NoMemory => write_last(output, b"no memory\n", 3),
        Stop::InputFailed => write_last(output, b"input failed\n", 4),
        Stop::OutputFailed => 4,
    }
}

// Writes the last line and returns the status, which is 4 if the line can't be written.
fn write_last<W: Write>(output: &mut W, line: &[u8], status: u8) -> u8
    ensures { HasLast line.now status result (W.contents output.old) (W.contents output.new) }
{
    match write_line(output, line) {
        Ok(()) => status,
        Err(_) => 4,
    }
}

fn write_line<W: Write>(output: &mut W, line: &[u8]) -> Result<(), Stop>
    ensures { IsWritten result (W.contents output.old) (W.contents output.new) line.now }
{
    write_whole(output, line)?;
    output.flush().map_err(|_| Stop::OutputFailed)
}

/// Writes a text, in as many writes as the output needs.
///
/// An interrupted write is repeated. A write that writes nothing has failed.
///
/// # Errors
///
/// `OutputFailed`: the output has a prefix of the text.
///
/// O(bytes of the text), plus the cost of the writes.
pub(crate) fn write_whole<W: Write>(output: &mut W, text: &[u8]) -> Result<(), Stop>
    ensures { IsWritten result (W.contents output.old) (W.contents output.new) text.now }
{
    let mut rest = text;
    for _ in 0..u64::MAX {
        if rest.is_empty() {
            return Ok(());
        }
        match output.write(rest) {
            Ok(0) => return Err(Stop::OutputFailed),
            Ok(count) => rest = &rest[count..],
            Err(error) if error.kind() == ErrorKind::Interrupted => {}
            Err(_) => return Err(Stop::OutputFailed),
        }
    }
    Err(Stop::OutputFailed)
}
