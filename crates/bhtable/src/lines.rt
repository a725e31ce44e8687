//! The lines of a reader.
//!
//! Model: `LinesView`, the bytes that are read and not yet passed, whether the reader is at its
//! end, and what the reader has left.
//!
//! A line is first found, as a value, and passed after its bytes are used. So a caller can answer
//! the lines that it has before it reads more.
ghost use Rattle.std.specs.Prelude.{◌≡◌, ◌≤◌, ◌==◌, IfSome, length, position};

mod window;
pub(crate) mod words;

use crate::lines::window::Window;
use crate::stop::Stop;
use bucket_slots::matcher::match_partial_hash;
use std::alloc::{AllocError, Global};
use std::io::Read;
use std::marker::Model;

// The maximum number of bytes of a line, without its newline and one carriage return before that.
const LONGEST_LINE: usize = 4096;

/// The lines of a reader.
#[derive(Drop)]
pub(crate) struct Lines<R: Read> {
    input: R,
    window: Window,
    is_ended: bool,
}

/// A whole line at the front of the bytes that are read.
#[derive(Clone, Copy)]
pub(crate) struct Line {
    /// Its length in bytes, including what ends it.
    pub(crate) whole_len: usize,
    /// Its length in bytes, without what ends it.
    pub(crate) len: usize,
    ghost ordered: { len ≤ whole_len },
}

/// What is at the front of the bytes that are read.
#[derive(Clone, Copy)]
pub(crate) enum Found {
    /// A whole line.
    Line(Line),
    /// A line that is longer than `LONGEST_LINE`.
    TooLong,
    /// A line that isn't whole yet, or nothing yet.
    Cut,
    /// Nothing, and the reader is at its end.
    End,
}

impl<R: Read> Model for Lines<R> {
    ghost use Rattle.bhtable.specs.LinesView.{LinesView};
    ghost use Rattle.bhtable.specs.Layout.Window.{unread};

    ghost Value = { LinesView };

    ghost view = { λ lines. record {
      unread = unread lines.window;
      is_ended = lines.is_ended;
      left = R.remaining lines.input;
    } };
}

impl<R: Read + Drop> Lines<R> {
    ghost use Rattle.std.specs.Prelude.{ℕ, ◌⊎◌, ◌<◌, true, false, List, [], ◌++◌, take, drop};
    ghost use Rattle.std.specs.Prelude.{IfErr, IfOk, OnErr};
    ghost use Rattle.std.specs.Io.KnownBytes.{Consumes, IsAtEnd, Keeps};
    ghost use Rattle.bhtable.specs.Found.{IsFoundIn, IsWithin};

    /// Returns the lines of a reader from which nothing is read yet.
    ///
    /// # Errors
    ///
    /// Allocation failure: a window takes 64 KiB.
    pub(crate) fn new(alloc: Global, input: R) -> Result<Self, AllocError>
        ensures { IfOk result (λ lines. (lines.unread ≡ []) × (lines.is_ended ≡ false)
            × (lines.left ≡ R.remaining input)) }
    {
        Ok(Lines {
            input,
            window: Window::new(alloc)?,
            is_ended: false,
        })
    }

    /// Returns what is at the front. It reads nothing more.
    ///
    /// O(bytes up to the first newline).
    #[inline(always)]
    pub(crate) fn find(&self) -> Found
        ensures found { IsFoundIn self.now.is_ended self.now.unread result }
        ensures within { IsWithin self.now.unread result }
    {
        let unread = self.window.unread();
        match newline_in(unread) {
            Some(at) => Found::of(unread, at, at + 1),
            None if unread.len() > LONGEST_LINE + 1 => Found::TooLong,
            None if !self.is_ended => Found::Cut,
            None if unread.is_empty() => Found::End,
            None => Found::of(unread, unread.len(), unread.len()),
        }
    }

    /// Returns the bytes of a line that was found, without what ends it.
    pub(crate) fn bytes(&self, line: Line) -> &[u8]
        requires { line.whole_len ≤ length self.now.unread }
        ensures { result.now ≡ take line.len self.now.unread }
    {
        &self.window.unread()[..line.len]
    }

    /// Passes a line that was found, with what ends it. What follows it is then at the front.
    pub(crate) fn pass(&mut self, line: Line)
        requires { line.whole_len ≤ length self.old.unread }
        ensures passed { self.new.unread ≡ drop line.whole_len self.old.unread }
        ensures left { self.new.left ≡ self.old.left }
        ensures ended { self.new.is_ended ≡ self.old.is_ended }
    {
        self.window.pass(line.whole_len);
    }

    /// Reads once, and appends to what isn't passed yet; an interrupted read is repeated.
    ///
    /// If nothing is read, the reader is at its end, and `find` returns the rest as a whole line.
    ///
    /// # Errors
    ///
    /// `InputFailed`, if the reader fails: the bytes that were read stay as they are.
    ///
    /// O(bytes that aren't passed yet, plus those that are read).
    pub(crate) fn read_more(&mut self) -> Result<(), Stop>
        requires { length self.old.unread ≤ 4097 }
        ensures read { IfOk result (λ _. (more : List ℕ)
            × (self.new.unread ≡ self.old.unread ++ more)
            × Consumes self.old.left self.new.left more
            × (((self.new.is_ended ≡ true) × IsAtEnd self.new.left)
            ⊎ ((self.new.is_ended ≡ self.old.is_ended) × (0 < length more)))) }
        ensures kept { OnErr result ((self.new.unread ≡ self.old.unread)
            × Keeps self.old.left self.new.left) }
        ensures stop { IfErr result (λ stop. stop ≡ Stop.InputFailed) }
    {
        match self.window.read_from(&mut self.input) {
            Ok(0) => self.is_ended = true,
            Ok(_) => {}
            Err(_) => return Err(Stop::InputFailed),
        }
        Ok(())
    }
}

fn newline_in(bytes: &[u8]) -> Option<usize>
    ensures { result ≡ position (λ byte. byte == 10) bytes.now }
{
    match newline_in_front(bytes) {
        Some(at) => Some(at),
        None => bytes.iter().position(|byte| *byte == b'\n'),
    }
}

// The first newline, if it is one of the first 32 bytes, which are compared at once.
#[inline(always)]
fn newline_in_front(bytes: &[u8]) -> Option<usize>
    ensures { IfSome result (λ _. result ≡ position (λ byte. byte == 10) bytes.now) }
{
    let front = bytes.first_chunk::<32>()?;
    let newlines = match_partial_hash(front, b'\n');
    if newlines == 0 {
        return None;
    }
    Some(newlines.trailing_zeros() as usize)
}

impl Found {
    ghost use Rattle.std.specs.Prelude.{take};
    ghost use Rattle.bhtable.specs.Found.{IsFound, IsWithin};

    // A line of `len` bytes, without the one carriage return that may end them.
    #[inline(always)]
    fn of(bytes: &[u8], len: usize, whole_len: usize) -> Found
        requires bytes { whole_len ≤ length bytes.now }
        requires end { len ≤ whole_len }
        ensures found { IsFound (take len bytes.now) whole_len result }
        ensures within { IsWithin bytes.now result }
    {
        let len = if len > 0 && bytes[len - 1] == b'\r' {
            len - 1
        } else {
            len
        };
        if len <= LONGEST_LINE {
            return Found::Line(Line { whole_len, len });
        }
        Found::TooLong
    }
}
