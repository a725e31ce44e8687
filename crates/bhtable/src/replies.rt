//! Replies on their way to a writer.
ghost use Rattle.std.specs.Prelude.{◌≡◌, ◌-◌, ◌≤◌, ℕ, List, [], IfErr, IfOk, OnOk, length};
ghost use Rattle.bhtable.specs.Layout.Replies.{ArePushed, IsPushed, IsTold};
ghost use Rattle.bhtable.specs.OutputLines.{line_of};
ghost use Rattle.bhtable.specs.Texts.{bad_line, text_of};

mod digits;
mod text;

use crate::output::write_whole;
use crate::replies::text::{append_bad_line, append_reply};
use crate::stop::Stop;
use bucket_table::script::Reply;
use std::alloc::{AllocError, Global};
use std::io::Write;
use std::marker::Model;

// How many bytes are written at a time.
const TEXT_CAPACITY: usize = 64 * 1024;

// Longer than the longest reply, a word and two numbers.
const REPLY_ROOM: usize = 64;

/// Replies on their way to a writer: the part of their text that isn't written yet.
#[derive(Drop)]
pub(crate) struct Replies {
    text: Vec<u8>,
}

impl Model for Replies {
    ghost Value = { List ℕ };

    ghost view = { λ replies. replies.text.items };
}

impl Replies {
    /// Returns no replies yet.
    pub(crate) fn new(alloc: Global) -> Result<Self, AllocError>
        ensures { IfOk result (λ replies. replies ≡ []) }
    {
        let text = Vec::with_capacity(alloc, TEXT_CAPACITY)?;
        Ok(Replies { text })
    }

    /// Appends replies, up to the first one that can't be appended.
    pub(crate) fn push_all<W: Write>(
        &mut self,
        replies: &[Reply<u64, u64>],
        output: &mut W,
    ) -> Result<(), Stop>
        ensures { ArePushed result (W.contents output.old) self.old (W.contents output.new) self.new
            replies.now }
    {
        for reply in replies {
            self.push(reply, output)?;
        }
        Ok(())
    }

    /// Appends a reply.
    pub(crate) fn push<W: Write>(
        &mut self,
        reply: &Reply<u64, u64>,
        output: &mut W,
    ) -> Result<(), Stop>
        ensures { IsPushed result (W.contents output.old) self.old (W.contents output.new) self.new
            (line_of (text_of reply.now)) }
    {
        self.make_room(output)?;
        let len = self.text.len();
        if append_reply(&mut self.text, reply).is_err() {
            self.text.truncate(len);
            return Err(Stop::NoMemory);
        }
        Ok(())
    }

    /// Appends the line `bad line N`, if that is the stop.
    pub(crate) fn push_stop<W: Write>(&mut self, stop: Stop, output: &mut W) -> Result<(), Stop>
        ensures { IsTold stop result (W.contents output.old) self.old (W.contents output.new)
            self.new }
    {
        match stop {
            Stop::BadLine(number) => self.push_bad_line(number, output),
            _ => Ok(()),
        }
    }

    // Appends `bad line` and this number.
    fn push_bad_line<W: Write>(&mut self, number: u64, output: &mut W) -> Result<(), Stop>
        ensures { IsPushed result (W.contents output.old) self.old (W.contents output.new) self.new
            (bad_line number) }
    {
        self.make_room(output)?;
        let len = self.text.len();
        if append_bad_line(&mut self.text, number).is_err() {
            self.text.truncate(len);
            return Err(Stop::NoMemory);
        }
        Ok(())
    }

    /// Writes every reply out and flushes the writer. If that fails, the replies are dropped.
    pub(crate) fn write_out<W: Write>(&mut self, output: &mut W) -> Result<(), Stop>
        ensures empty { self.new ≡ [] }
        ensures written { IsPushed result (W.contents output.old) self.old (W.contents output.new)
            self.new [] }
        ensures stop { IfErr result (λ stop. stop ≡ Stop.OutputFailed) }
    {
        if self.text.is_empty() {
            return Ok(());
        }
        self.write_text(output)?;
        output.flush().map_err(|_| Stop::OutputFailed)
    }

    // Makes room for one more line, by writing.
    fn make_room<W: Write>(&mut self, output: &mut W) -> Result<(), Stop>
        ensures room { OnOk result (length self.new ≤ TEXT_CAPACITY - REPLY_ROOM) }
        ensures kept { IsPushed result (W.contents output.old) self.old (W.contents output.new)
            self.new [] }
        ensures stop { IfErr result (λ stop. stop ≡ Stop.OutputFailed) }
    {
        if self.text.len() > TEXT_CAPACITY - REPLY_ROOM {
            self.write_text(output)?;
        }
        Ok(())
    }

    // Writes the text. What can't be written is dropped.
    fn write_text<W: Write>(&mut self, output: &mut W) -> Result<(), Stop>
        ensures empty { self.new ≡ [] }
        ensures written { IsPushed result (W.contents output.old) self.old (W.contents output.new)
            self.new [] }
        ensures stop { IfErr result (λ stop. stop ≡ Stop.OutputFailed) }
    {
        let written = write_whole(output, self.text.as_slice());
        self.text.clear();
        written
    }
}
