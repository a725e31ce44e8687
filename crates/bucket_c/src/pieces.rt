//! Exports that copy pairs out, from one place of their order on.
ghost use Rattle.std.specs.Prelude.{◌≡◌};
ghost use Rattle.bucket_c.specs.Buckets.{CopiesTextsIn, CopiesWordsIn};
ghost use Rattle.bucket_c.specs.Pieces.{CopiesTextsOf, CopiesWordsOf};

use crate::handle::Handle;
use crate::tables::Table;
use bucket_calls::codes::{CLOSED, OK, OTHER_KIND};
use bucket_calls::copying::{Pair, TextPair};
use bucket_calls::{buckets, copying, texts_in};

/// Copies pairs of a map or a cache of words from `start` on, as many as there is room for, and
/// outputs how many.
///
/// Returns `OK`, `CLOSED`, `OTHER_KIND`. O(slots). `HashMap::for_each`.
#[unsafe(no_mangle)]
pub extern "C" fn bucket_pairs(
    handle: &mut Handle,
    start: usize,
    out: &mut [Pair],
    count: &mut usize,
) -> u32
    ensures copied { CopiesWordsOf start handle.old.held.table out.old count.old result out.new
        count.new }
    ensures same { handle.new ≡ handle.old }
{
    if !handle.live {
        return CLOSED;
    }
    match &*handle.held.table() {
        Table::Map(map) => {
            *count = copying::copy(map, start, out);
            OK
        }
        Table::Cache(cache) => {
            *count = copying::copy(cache, start, out);
            OK
        }
        _ => OTHER_KIND,
    }
}

/// Copies pairs under byte strings from `start` on, as many as fit: the lengths of their keys and
/// their values, and their keys one after another. The keys of a set are paired with 0.
///
/// Returns `OK`, `CLOSED`, `OTHER_KIND`. O(slots). `HashMap::for_each`.
#[unsafe(no_mangle)]
pub extern "C" fn bucket_texts(
    handle: &mut Handle,
    start: usize,
    rows: &mut [TextPair],
    bytes: &mut [u8],
    count: &mut usize,
) -> u32
    ensures copied { CopiesTextsOf start handle.old.held.table rows.old bytes.old count.old
        result rows.new
        bytes.new count.new }
    ensures same { handle.new ≡ handle.old }
{
    if !handle.live {
        return CLOSED;
    }
    match &*handle.held.table() {
        Table::TextMap(map) => {
            *count = copying::copy_texts(map, start, rows, bytes);
            OK
        }
        Table::TextSet(set) => {
            *count = copying::copy_keys(set, start, rows, bytes);
            OK
        }
        Table::TextCache(cache) => {
            *count = copying::copy_texts(cache, start, rows, bytes);
            OK
        }
        _ => OTHER_KIND,
    }
}

/// Copies the pairs of one bucket from `start` on, as many as there is room for, and outputs how
/// many. A key or a value that is a byte string is encoded as 0, and a set's keys are paired with
/// 0.
///
/// Returns `OK`; `ABSENT` past the last bucket; `CLOSED`. O(pairs of the bucket).
/// `HashMap::for_each_in`.
#[unsafe(no_mangle)]
pub extern "C" fn bucket_pairs_in(
    handle: &mut Handle,
    bucket: usize,
    start: usize,
    out: &mut [Pair],
    count: &mut usize,
) -> u32
    ensures copied { CopiesWordsIn bucket start handle.old.held.table out.old count.old result
        out.new count.new }
    ensures same { handle.new ≡ handle.old }
{
    if !handle.live {
        return CLOSED;
    }
    match &*handle.held.table() {
        Table::Map(map) => buckets::copy(map, bucket, start, out, count),
        Table::TextMap(map) => buckets::copy_texts(map, bucket, start, out, count),
        Table::Set(set) => buckets::copy_keys(set, bucket, start, out, count),
        Table::TextSet(set) => buckets::copy_keys(set, bucket, start, out, count),
        Table::Store(map) => buckets::copy_texts(map, bucket, start, out, count),
        Table::Cache(cache) => buckets::copy(cache, bucket, start, out, count),
        Table::TextCache(cache) => buckets::copy_texts(cache, bucket, start, out, count),
    }
}

/// Copies the pairs of one bucket under byte strings from `start` on, as many as fit: the lengths
/// of their keys and their values, and their keys one after another. The keys of a set are paired
/// with 0, those of a store with the lengths of their values.
///
/// Returns `OK`; `ABSENT` past the last bucket; `CLOSED`, `OTHER_KIND`. O(pairs of the bucket).
/// `HashMap::for_each_in`.
#[unsafe(no_mangle)]
pub extern "C" fn bucket_texts_in(
    handle: &mut Handle,
    bucket: usize,
    start: usize,
    rows: &mut [TextPair],
    bytes: &mut [u8],
    count: &mut usize,
) -> u32
    ensures copied { CopiesTextsIn bucket start handle.old.held.table rows.old bytes.old count.old
        result rows.new bytes.new count.new }
    ensures same { handle.new ≡ handle.old }
{
    if !handle.live {
        return CLOSED;
    }
    match &*handle.held.table() {
        Table::TextMap(map) => texts_in::copy(map, bucket, start, rows, bytes, count),
        Table::TextSet(set) => texts_in::copy_keys(set, bucket, start, rows, bytes, count),
        Table::Store(map) => texts_in::copy(map, bucket, start, rows, bytes, count),
        Table::TextCache(cache) => texts_in::copy(cache, bucket, start, rows, bytes, count),
        _ => OTHER_KIND,
    }
}
