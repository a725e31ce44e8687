//! Copies of pairs into buffers of C.
ghost use Rattle.std.specs.Prelude.{◌≡◌, map};
ghost use Rattle.std.specs.Map.{keys_of};
ghost use Rattle.bucket_calls.specs.Copying.{CopiesPairs, CopiesTexts, key_piece, text_piece};
ghost use Rattle.bucket_calls.specs.Steps.{next_copied, next_text};

use crate::seed::SeededHash;
use crate::words::Bucketed;
use collections::hash_set::HashSet;

/// A pair of words.
#[repr(C)]
#[derive(Clone, Copy)]
pub struct Pair {
    pub key: u64,
    pub value: u64,
}

/// A pair under a byte string: the key's length, and the value; for a store, the value's length.
#[repr(C)]
#[derive(Clone, Copy)]
pub struct TextPair {
    pub len: usize,
    pub value: u64,
}

/// Copies a pair to the next place, if no more pairs are to be skipped and there is room.
#[inline(always)]
pub fn copy_next(skip: &mut usize, count: &mut usize, out: &mut [Pair], key: u64, value: u64)
    ensures { (skip.new, count.new, out.new) ≡ next_copied (skip.old, count.old, out.old) (
      key,
      value,
    ) }
{
    if *skip > 0 {
        *skip -= 1;
    } else if *count < out.len() {
        out[*count] = Pair { key, value };
        *count += 1;
    }
}

/// Copies pairs of words from `start` on, as many as there is room for, and returns how many.
pub fn copy<C: Bucketed<u64, u64>>(table: &C, start: usize, out: &mut [Pair]) -> usize
    ensures { CopiesPairs start (C.map table.now).entries out.old result out.new }
{
    let mut skip = start;
    let mut count = 0;
    let mut visit = |key: &u64, value: &u64|
        ensures { (skip.exit, count.exit, out.exit.now)
            ≡ next_copied (skip.entry, count.entry, out.entry.now) (key.now, value.now) }
    { copy_next(&mut skip, &mut count, out, *key, *value) };
    table.each(&mut visit);
    count
}

/// The progress of a copy of pairs under byte strings: how many are to be skipped, for how many
/// there may be room, how many are copied, and where the bytes of their keys end.
#[derive(Clone, Copy)]
pub struct Place {
    pub skip: usize,
    pub room: usize,
    pub count: usize,
    pub end: usize,
}

/// Copies a pair to the next row, and its key behind the others, if no more pairs are to be skipped
/// and both fit.
pub fn copy_next_text(
    place: &mut Place,
    rows: &mut [TextPair],
    bytes: &mut [u8],
    key: &Vec<u8>,
    value: u64,
)
    ensures { (place.new, rows.new, bytes.new)
        ≡ next_text (place.old, rows.old, bytes.old) (text_piece (key.now, value)) }
{
    if place.skip > 0 {
        place.skip -= 1;
        return;
    }
    let at = place.end;
    let fits = place.count < rows.len() && at <= bytes.len() && key.len() <= bytes.len() - at;
    if place.room == 0 || !fits {
        place.room = 0;
        return;
    }
    let end = at + key.len();
    bytes[at..end].copy_from_slice(key.as_slice());
    rows[place.count] = TextPair {
        len: key.len(),
        value,
    };
    place.room -= 1;
    place.count += 1;
    place.end = end;
}

/// Copies pairs under byte strings from `start` on, as many as fit, and returns how many.
pub fn copy_texts<C: Bucketed<Vec<u8>, u64>>(
    table: &C,
    start: usize,
    rows: &mut [TextPair],
    bytes: &mut [u8],
) -> usize
    ensures { CopiesTexts start (map text_piece (C.map table.now).entries) rows.old bytes.old
        result rows.new bytes.new }
{
    let mut place = Place {
        skip: start,
        room: rows.len(),
        count: 0,
        end: 0,
    };
    let mut visit = |key: &Vec<u8>, value: &u64|
        ensures { (place.exit, rows.exit.now, bytes.exit.now)
            ≡ next_text (place.entry, rows.entry.now, bytes.entry.now)
            (text_piece (key.now, value.now)) }
    { copy_next_text(&mut place, rows, bytes, key, *value) };
    table.each(&mut visit);
    place.count
}

/// Copies a set's keys from `start` on, as many as fit, and returns how many.
pub fn copy_keys(
    set: &HashSet<Vec<u8>, SeededHash>,
    start: usize,
    rows: &mut [TextPair],
    bytes: &mut [u8],
) -> usize
    ensures { CopiesTexts start (map key_piece (keys_of set.now.entries)) rows.old
        bytes.old result rows.new bytes.new }
{
    let mut place = Place {
        skip: start,
        room: rows.len(),
        count: 0,
        end: 0,
    };
    let mut visit = |key: &Vec<u8>|
        ensures { (place.exit, rows.exit.now, bytes.exit.now)
            ≡ next_text (place.entry, rows.entry.now, bytes.entry.now) (key_piece key.now) }
    { copy_next_text(&mut place, rows, bytes, key, 0) };
    set.for_each_ref(&mut visit);
    place.count
}
