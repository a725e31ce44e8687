//! The lines of a text.
ghost use Rattle.std.specs.Prelude.{◌≡◌, ◌≤◌, ◌+◌, ◌==◌, IfOk, drop, length, map, position};
ghost use Rattle.std.specs.List.{position_or_len};
ghost use Rattle.example_word_count.specs.Lines.{lines_of};

use std::alloc::{AllocError, Global};
use std::hash::{Hash, Hasher};

/// A line: its bytes without the newline.
#[derive(Clone, Copy, PartialEq, Eq, PartialOrd, Ord)]
pub(crate) struct Line<'a> {
    pub(crate) bytes: &'a [u8],
}

// Std hashes a slice byte by byte; a line is one write.
impl<'a> Hash for Line<'a> {
    ghost use Rattle.std.proofs.Common.{[], ◌∷◌, rules};

    ghost hash_input = { λ line. line.bytes.now ∷ [] };

    ghost respects_eq = { Prim.search rules };

    fn hash<H: Hasher>(&self, state: &mut H) {
        state.write(self.bytes);
    }
}

/// Returns the lines of a text, whose last newline may be missing.
///
/// # Errors
///
/// Allocation failure.
pub(crate) fn lines_of(alloc: Global, text: &[u8]) -> Result<Vec<Line<'_>>, AllocError>
    ensures { IfOk result (λ lines. map (λ line. line.bytes.now) lines.items ≡ lines_of text.now) }
{
    let mut lines = Vec::new(alloc);
    let mut rest = text;
    while !rest.is_empty() {
        let len = line_len(rest);
        lines.push(Line {
            bytes: &rest[..len],
        })?;
        rest = behind_line(rest, len);
    }
    Ok(lines)
}

// The number of bytes before the first newline.
fn line_len(bytes: &[u8]) -> usize
    ensures line { result ≡ position_or_len (λ byte. byte == 10) bytes.now }
    ensures bound { result ≤ length bytes.now }
{
    newline_in(bytes).unwrap_or(bytes.len())
}

fn newline_in(bytes: &[u8]) -> Option<usize>
    ensures { result ≡ position (λ byte. byte == 10) bytes.now }
{
    bytes.iter().position(|byte| *byte == b'\n')
}

// What follows a line of this length and its newline.
fn behind_line(bytes: &[u8], len: usize) -> &[u8]
    ensures { result.now ≡ drop (len + 1) bytes.now }
{
    if len < bytes.len() {
        &bytes[len + 1..]
    } else {
        &[]
    }
}
