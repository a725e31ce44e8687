//! Text that waits for an output, so that it is written in large pieces.
//!
//! Used instead of std's `BufWriter`, whose contract says nothing of a writer that it borrows.
ghost use Rattle.std.specs.Prelude.{◌≡◌, [], OnOk};
ghost use Rattle.example_word_count.specs.Waiting.{HasPut};

use std::io::{self, Write};

/// Appends bytes to those that wait. If there is no room for them, those that wait are written
/// first.
pub(crate) fn put<W: Write>(bytes: &[u8], waiting: &mut Vec<u8>, output: &mut W) -> io::Result<()>
    ensures { OnOk result (HasPut (W.contents output.old) waiting.old.items
        (W.contents output.new) waiting.new.items bytes.now) }
{
    if bytes.len() > waiting.capacity() - waiting.len() {
        write_out(waiting, output)?;
        if bytes.len() > waiting.capacity() {
            return output.write_all(bytes);
        }
    }
    waiting.extend_from_slice(bytes)?;
    Ok(())
}

/// Writes what waits.
pub(crate) fn write_out<W: Write>(waiting: &mut Vec<u8>, output: &mut W) -> io::Result<()>
    ensures empty { OnOk result (waiting.new.items ≡ []) }
    ensures written { OnOk result (HasPut (W.contents output.old) waiting.old.items
        (W.contents output.new) waiting.new.items []) }
{
    output.write_all(waiting.as_slice())?;
    waiting.clear();
    Ok(())
}
