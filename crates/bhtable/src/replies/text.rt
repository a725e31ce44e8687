//! The text of a reply.
ghost use Rattle.std.specs.Prelude.{◌≡◌, ◌≤◌, [], ◌∷◌, ◌++◌, OnErr, OnOk, codes, drop};
ghost use Rattle.std.specs.Fmt.{decimal};
ghost use Rattle.std.specs.Io.{StartsWith};
ghost use Rattle.bhtable.specs.OutputLines.{line_of};
ghost use Rattle.bhtable.specs.Texts.{bad_line, text_of};

use crate::replies::digits::{append_number, append_numbered, append_pair};
use bucket_table::script::Reply;
use bucket_table::tickets::TicketError;
use std::alloc::AllocError;

/// Appends a reply's line.
pub(crate) fn append_reply(text: &mut Vec<u8>, reply: &Reply<u64, u64>) -> Result<(), AllocError>
    ensures appended { OnOk result (text.new.items
        ≡ text.old.items ++ line_of (text_of reply.now)) }
    ensures kept { OnErr result (StartsWith text.new.items text.old.items) }
{
    match *reply {
        Reply::Done => text.extend_from_slice(b"ok\n"),
        Reply::Present => text.extend_from_slice(b"present\n"),
        Reply::Absent => text.extend_from_slice(b"absent\n"),
        Reply::Value(value) => append_numbered(text, b"value ", value),
        Reply::Old(value) => append_numbered(text, b"old ", value),
        Reply::Pair(key, value) => append_pair(text, b"pair ", key, value),
        Reply::Nothing => text.extend_from_slice(b"nothing\n"),
        Reply::Number(number) => append_number(text, number as u64, b'\n'),
        Reply::Truth(true) => text.extend_from_slice(b"true\n"),
        Reply::Truth(false) => text.extend_from_slice(b"false\n"),
        Reply::Ticket(ticket) => append_numbered(text, b"ticket ", ticket as u64),
        Reply::NoTicket | Reply::NoWork => text.extend_from_slice(b"none\n"),
        Reply::Ended(true) => text.extend_from_slice(b"gone\n"),
        Reply::Ended(false) => text.extend_from_slice(b"stays\n"),
        Reply::Fault(TicketError::NotOpen) => text.extend_from_slice(b"refused 1\n"),
        Reply::Fault(TicketError::NotDone) => text.extend_from_slice(b"refused 2\n"),
        Reply::Refused => text.extend_from_slice(b"refused 3\n"),
        Reply::WrongKind => text.extend_from_slice(b"wrong kind\n"),
        Reply::Walked(buckets, pairs) => {
            append_pair(text, b"walked ", buckets as u64, pairs as u64)
        }
        Reply::Cleared(count) => append_numbered(text, b"cleared ", count as u64),
    }
}

/// Appends `bad line` and a line's number.
pub(crate) fn append_bad_line(text: &mut Vec<u8>, number: u64) -> Result<(), AllocError>
    ensures appended { OnOk result (text.new.items ≡ text.old.items ++ bad_line number) }
    ensures kept { OnErr result (StartsWith text.new.items text.old.items) }
{
    append_numbered(text, b"bad line ", number)
}
