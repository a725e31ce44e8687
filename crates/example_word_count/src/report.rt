//! The lines with their counts, in the order in which they are printed.
ghost use Rattle.std.specs.Prelude.{◌≡◌, [], ◌∷◌, IfOk, OnOk, map};
ghost use Rattle.std.specs.Io.KnownBytes.{Appends};
ghost use Rattle.example_word_count.specs.Reports.{IsReport, text_of, text_of_row};
ghost use Rattle.example_word_count.specs.Rows.{bytes_of, HasTaken, row_of, row_of_pair};
ghost use Rattle.example_word_count.specs.Waiting.{HasPut};

use crate::failure::Failure;
use crate::line::Line;
use crate::waiting::{put, write_out};
use bucket_table::key_hash::{KeyHash, StdHash};
use collections::hash_map::HashMap;
use example_callers::count_keys;
use std::alloc::{AllocError, Global};
use std::cmp::Reverse;
use std::hash::{BuildHasherDefault, FoldHasher};
use std::io::{self, Write};

/// How many bytes may wait for the output: the same as in std's `BufWriter`.
const WAITING_LEN: usize = 8192;

/// At most 20 digits of a count, and the blank after them.
const COUNT_LEN: usize = 21;

/// A line and its count. The order is that of the report.
#[derive(Clone, Copy, PartialEq, Eq, PartialOrd, Ord)]
pub(crate) struct Counted<'a> {
    count: Reverse<u64>,
    line: Line<'a>,
}

/// Returns each line once with its count, in descending order of the counts and then in the order
/// of the bytes.
///
/// # Errors
///
/// Allocation failure.
pub(crate) fn report_of<'a>(
    alloc: Global,
    lines: &[Line<'a>],
) -> Result<Vec<Counted<'a>>, AllocError>
    ensures { IfOk result (λ report. IsReport (map bytes_of lines.now) (map row_of report.items)) }
{
    // The seed is fixed: lines chosen to collide are counted correctly, but slowly.
    let hasher = StdHash::new(BuildHasherDefault::<FoldHasher>::new());
    let mut counts = HashMap::with_hasher(alloc, hasher);
    count_keys(&mut counts, lines)?;
    let mut rows = Rows {
        taken: Vec::with_capacity(alloc, counts.len())?,
        is_refused: false,
    };
    rows.take_all(&counts);
    if rows.is_refused {
        return Err(AllocError);
    }
    let mut report = rows.taken;
    report.sort_unstable();
    Ok(report)
}

/// The rows so far, and whether allocation failed for one.
#[derive(Drop)]
struct Rows<'a> {
    taken: Vec<Counted<'a>>,
    is_refused: bool,
}

impl<'a> Rows<'a> {
    fn take_all<H: KeyHash<Line<'a>>>(&mut self, counts: &HashMap<Line<'a>, u64, H>)
        ensures { HasTaken self.old (map row_of_pair counts.now.entries) self.new }
    {
        counts.for_each_ref(
            &mut |line, count|
                ensures { HasTaken self.entry.now
                    (row_of_pair (line.now, count.now) ∷ []) self.exit.now }
            {
                self.take(*line, *count);
            },
        );
    }

    fn take(&mut self, line: Line<'a>, count: u64)
        ensures { HasTaken self.old (row_of_pair (line.entry, count) ∷ []) self.new }
    {
        let count = Reverse(count);
        self.is_refused |= self.taken.push(Counted { count, line }).is_err();
    }
}

/// Prints a report.
///
/// # Errors
///
/// `NoMemory`: nothing is printed. `OutputFailed`: the output may have a prefix of the report.
pub(crate) fn write_report<W: Write>(
    alloc: Global,
    report: &[Counted<'_>],
    output: &mut W,
) -> Result<(), Failure>
    ensures { OnOk result (Appends (W.contents output.old) (W.contents output.new)
        (text_of (map row_of report.now))) }
{
    let mut waiting = Vec::with_capacity(alloc, WAITING_LEN)?;
    match write_rows(report, &mut waiting, output) {
        Ok(()) => Ok(()),
        Err(_) => Err(Failure::OutputFailed),
    }
}

fn write_rows<W: Write>(
    report: &[Counted<'_>],
    waiting: &mut Vec<u8>,
    output: &mut W,
) -> io::Result<()>
    requires { waiting.old.items ≡ [] }
    ensures { OnOk result (Appends (W.contents output.old) (W.contents output.new)
        (text_of (map row_of report.now))) }
{
    for counted in report {
        write_row(counted, waiting, output)?;
    }
    write_out(waiting, output)?;
    output.flush()
}

fn write_row<W: Write>(
    counted: &Counted<'_>,
    waiting: &mut Vec<u8>,
    output: &mut W,
) -> io::Result<()>
    ensures { OnOk result (HasPut (W.contents output.old) waiting.old.items
        (W.contents output.new) waiting.new.items (text_of_row (row_of counted.now))) }
{
    if waiting.capacity() - waiting.len() < COUNT_LEN {
        write_out(waiting, output)?;
    }
    write!(waiting, "{} ", counted.count.0)?;
    put(counted.line.bytes, waiting, output)?;
    put(b"\n", waiting, output)
}
