//! A window of 64 KiB over the bytes of a reader.
ghost use Rattle.std.specs.Prelude.{◌≡◌, ℕ, ◌<◌, ◌≤◌, List, [], ◌++◌, length, take, drop};
ghost use Rattle.std.specs.Prelude.{vec_len, OnErr, IfOk};
ghost use Rattle.std.specs.Io.{ReadsAtMost};
ghost use Rattle.std.specs.Io.KnownBytes.{Consumes, IsAtEnd, Keeps};

use std::alloc::{AllocError, Global};
use std::io;
use std::io::{ErrorKind, Read};

// How many bytes it has room for.
const WINDOW_LEN: usize = 64 * 1024;

/// A window: bytes `start` to `end` are read and not yet passed; the room is after them.
#[derive(Drop)]
pub(crate) struct Window {
    bytes: Vec<u8>,
    start: usize,
    end: usize,
    ghost ordered: { start ≤ end },
    ghost within: { end ≤ vec_len bytes },
    ghost sized: { vec_len bytes ≡ 65536 },
}

impl Window {
    ghost use Rattle.bhtable.specs.Layout.Window.{unread};

    /// A window on which nothing is read yet.
    pub(crate) fn new(alloc: Global) -> Result<Self, AllocError>
        ensures { IfOk result (λ window. unread window ≡ []) }
    {
        let bytes = vec![in alloc; 0; WINDOW_LEN]?;
        Ok(Window {
            bytes,
            start: 0,
            end: 0,
        })
    }

    /// Returns the bytes that are read and not yet passed.
    pub(crate) fn unread(&self) -> &[u8]
        ensures { result.now ≡ unread self.now }
    {
        &self.bytes[self.start..self.end]
    }

    /// Passes the first bytes.
    pub(crate) fn pass(&mut self, count: usize)
        requires { count ≤ length (unread self.old) }
        ensures { unread self.new ≡ drop count (unread self.old) }
    {
        self.start += count;
    }

    /// Reads once, appends to what isn't passed yet, and returns how many bytes were read.
    ///
    /// An interrupted read is repeated. If it fails, nothing changes.
    pub(crate) fn read_from<R: Read>(&mut self, input: &mut R) -> io::Result<usize>
        requires { length (unread self.old) < WINDOW_LEN }
        ensures ok { IfOk result (λ n. (more : List ℕ) × (length more ≡ n)
            × (unread self.new ≡ unread self.old ++ more)
            × Consumes (R.remaining input.old) (R.remaining input.new) more) }
        ensures end { IfOk result (λ n. n ≡ 0 → IsAtEnd (R.remaining input.new)) }
        ensures err { OnErr result ((unread self.new ≡ unread self.old)
            × Keeps (R.remaining input.old) (R.remaining input.new)) }
    {
        self.move_to_front();
        let end = self.end;
        let count = read_once(input, &mut self.bytes[end..])?;
        self.end = end + count;
        Ok(count)
    }

    fn move_to_front(&mut self)
        ensures same { unread self.new ≡ unread self.old }
        ensures room { self.new.start ≡ 0 }
    {
        let (start, end) = (self.start, self.end);
        self.bytes.copy_within(start..end, 0);
        self.start = 0;
        self.end = end - start;
    }
}

fn read_once<R: Read>(input: &mut R, room: &mut [u8]) -> io::Result<usize>
    ensures bound { ReadsAtMost result room.new }
    ensures ok { IfOk result (λ n.
        Consumes (R.remaining input.old) (R.remaining input.new) (take n room.new)) }
    ensures end { IfOk result (λ n. n ≡ 0 → 0 < length room.old → IsAtEnd (R.remaining input.new)) }
    ensures err { OnErr result (Keeps (R.remaining input.old) (R.remaining input.new)) }
{
    for _ in 0..u64::MAX {
        match input.read(room) {
            Err(error) if error.kind() == ErrorKind::Interrupted => {}
            answer => return answer,
        }
    }
    Err(io::Error::from(ErrorKind::Interrupted))
}
