//! Copies of one bucket's pairs into a buffer of C.
ghost use Rattle.std.specs.Prelude.{◌≡◌, cond, map};
ghost use Rattle.std.specs.Map.{keys_of};
ghost use Rattle.collections.specs.Maps.{pairs_in_bucket};
ghost use Rattle.bucket_calls.specs.Buckets.{CopiesBucket, beside_zero, value_alone};
ghost use Rattle.bucket_calls.specs.Copying.{CopiesPairs};
ghost use Rattle.bucket_calls.specs.Codes.{absent, ok};
ghost use Rattle.bucket_calls.specs.Steps.{next_copied};

use crate::codes::{ABSENT, OK};
use crate::copying::{Pair, copy_next};
use crate::seed::SeededHash;
use crate::words::{Bucketed, Word};
use collections::hash_set::HashSet;
use std::hash::Hash;

/// Returns the code for a bucket that exists, or doesn't.
pub fn code_of(there: bool) -> u32
    ensures { result ≡ cond there ok absent }
{
    if there { OK } else { ABSENT }
}

/// Copies pairs of a bucket of words, from one on, as many as there is room for, and outputs how
/// many.
pub fn copy<C: Bucketed<u64, u64>>(
    table: &C,
    bucket: usize,
    start: usize,
    out: &mut [Pair],
    count: &mut usize,
) -> u32
    ensures { CopiesBucket bucket (C.map table.now).bucket_lens
        (CopiesPairs start (pairs_in_bucket (C.map table.now) bucket) out.old count.new out.new)
        result }
{
    let mut skip = start;
    let mut copied = 0;
    let mut visit = |key: &u64, value: &u64|
        ensures { (skip.exit, copied.exit, out.exit.now)
            ≡ next_copied (skip.entry, copied.entry, out.entry.now) (key.now, value.now) }
    { copy_next(&mut skip, &mut copied, out, *key, *value) };
    let there = table.each_in(bucket, &mut visit);
    *count = copied;
    code_of(there)
}

/// The same for pairs under byte strings, each of which is encoded as 0.
pub fn copy_texts<V: Word, C: Bucketed<Vec<u8>, V>>(
    table: &C,
    bucket: usize,
    start: usize,
    out: &mut [Pair],
    count: &mut usize,
) -> u32
    ensures { CopiesBucket bucket (C.map table.now).bucket_lens
        (CopiesPairs start (map (value_alone V.word) (pairs_in_bucket (C.map table.now) bucket))
        out.old count.new out.new) result }
{
    let mut skip = start;
    let mut copied = 0;
    let mut visit = |_key: &Vec<u8>, value: &V|
        ensures { (skip.exit, copied.exit, out.exit.now)
            ≡ next_copied (skip.entry, copied.entry, out.entry.now) (0, V.word value.now) }
    { copy_next(&mut skip, &mut copied, out, 0, value.word()) };
    let there = table.each_in(bucket, &mut visit);
    *count = copied;
    code_of(there)
}

/// The same for a set, whose keys are paired with 0.
pub fn copy_keys<K: Word + Eq + Hash>(
    set: &HashSet<K, SeededHash>,
    bucket: usize,
    start: usize,
    out: &mut [Pair],
    count: &mut usize,
) -> u32
    ensures { CopiesBucket bucket set.now.bucket_lens
        (CopiesPairs start (map (beside_zero K.word) (keys_of (pairs_in_bucket set.now bucket)))
        out.old count.new out.new) result }
{
    let mut skip = start;
    let mut copied = 0;
    let mut visit = |key: &K|
        ensures { (skip.exit, copied.exit, out.exit.now)
            ≡ next_copied (skip.entry, copied.entry, out.entry.now) (K.word key.now, 0) }
    { copy_next(&mut skip, &mut copied, out, key.word(), 0) };
    let there = set.for_each_in(bucket, &mut visit);
    *count = copied;
    code_of(there)
}
