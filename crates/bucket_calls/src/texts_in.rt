//! Copies of one bucket's pairs under byte strings into two buffers of C.
ghost use Rattle.std.specs.Prelude.{◌≡◌, map};
ghost use Rattle.std.specs.Map.{keys_of};
ghost use Rattle.collections.specs.Maps.{pairs_in_bucket};
ghost use Rattle.bucket_calls.specs.Buckets.{CopiesBucket};
ghost use Rattle.bucket_calls.specs.Copying.{CopiesTexts, key_piece, piece_of};
ghost use Rattle.bucket_calls.specs.Steps.{next_text};

use crate::buckets::code_of;
use crate::copying::{Place, TextPair, copy_next_text};
use crate::seed::SeededHash;
use crate::words::{Bucketed, Word};
use collections::hash_set::HashSet;

/// Copies pairs of a bucket from `start` on, as many as fit, and outputs how many. The values of a
/// store are encoded as their lengths.
pub fn copy<V: Word, C: Bucketed<Vec<u8>, V>>(
    table: &C,
    bucket: usize,
    start: usize,
    rows: &mut [TextPair],
    bytes: &mut [u8],
    count: &mut usize,
) -> u32
    ensures { CopiesBucket bucket (C.map table.now).bucket_lens
        (CopiesTexts start (map (piece_of V.beside) (pairs_in_bucket (C.map table.now) bucket))
        rows.old bytes.old count.new rows.new bytes.new)
        result }
{
    let mut place = Place {
        skip: start,
        room: rows.len(),
        count: 0,
        end: 0,
    };
    let mut visit = |key: &Vec<u8>, value: &V|
        ensures { (place.exit, rows.exit.now, bytes.exit.now)
            ≡ next_text (place.entry, rows.entry.now, bytes.entry.now)
            (piece_of V.beside (key.now, value.now)) }
    { copy_next_text(&mut place, rows, bytes, key, value.beside()) };
    let there = table.each_in(bucket, &mut visit);
    *count = place.count;
    code_of(there)
}

/// The same for a set, whose keys are paired with 0.
pub fn copy_keys(
    set: &HashSet<Vec<u8>, SeededHash>,
    bucket: usize,
    start: usize,
    rows: &mut [TextPair],
    bytes: &mut [u8],
    count: &mut usize,
) -> u32
    ensures { CopiesBucket bucket set.now.bucket_lens
        (CopiesTexts start (map key_piece (keys_of (pairs_in_bucket set.now bucket))) rows.old
        bytes.old count.new rows.new bytes.new)
        result }
{
    let mut place = Place {
        skip: start,
        room: rows.len(),
        count: 0,
        end: 0,
    };
    let mut visit = |key: &Vec<u8>|
        ensures { (place.exit, rows.exit.now, bytes.exit.now)
            ≡ next_text (place.entry, rows.entry.now, bytes.entry.now) (key_piece key.now) }
    { copy_next_text(&mut place, rows, bytes, key, 0) };
    let there = set.for_each_in(bucket, &mut visit);
    *count = place.count;
    code_of(there)
}
