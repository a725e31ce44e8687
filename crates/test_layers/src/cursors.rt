//! A cursor over a map, which may remove the pairs that it visits.
use crate::by_key::find;
use crate::by_lock::Map;
use crate::checks::check_same;
use bucket_slots::bucket::{EntryPtr, MAP};
use bucket_table::hash_table::{LockedBucket, Missing};
use bucket_table::script::ScriptHash;
use std::ops::Range;
use std::process::Abort;
use std::test::Fail;
use test_helpers::At;

type Locked<'a> = LockedBucket<'a, u64, u64, ScriptHash, (), MAP>;

/// Keys that a cursor visits one after another in one bucket.
pub(crate) struct Stop {
    /// The keys.
    pub(crate) keys: Range<u64>,
    /// The bucket's index, and how many slots its array has.
    pub(crate) bucket: (usize, usize),
    /// Whether each pair is removed from the bucket.
    pub(crate) takes: bool,
}

/// Checks that a cursor visits the keys of these stops, and then ends.
pub(crate) fn follow(
    rt: &impl Abort,
    table: &mut Map,
    row: At,
    stops: &[Stop],
) -> Result<(), Fail> {
    let mut at = EntryPtr::null();
    let mut held = found(table.first_sync(&mut at))?;
    for stop in stops {
        held = go_over(rt, held, &mut at, row, stop)?;
    }
    check_same(rt, (held.is_none(), at.is_valid()), (true, false), row);
    Ok(())
}

// Checks that the cursor visits the keys of a stop. Returns the bucket that it reaches then, if
// any.
fn go_over<'a>(
    rt: &impl Abort,
    first: Option<Locked<'a>>,
    at: &mut EntryPtr<u64, u64, MAP>,
    row: At,
    stop: &Stop,
) -> Result<Option<Locked<'a>>, Fail> {
    let mut held = first;
    for key in stop.keys.start..stop.keys.end {
        let Some(mut locked) = held else {
            return Err("the cursor has ended".into());
        };
        let bucket = (locked.bucket_index(), locked.array().num_slots());
        check_same(rt, bucket, stop.bucket, (row, key));
        check_same(
            rt,
            meets(&mut locked, at, key, stop.takes),
            true,
            (row, key),
        );
        held = found(locked.next_sync(at))?;
    }
    Ok(held)
}

// The bucket that a cursor has found; none past the last pair.
fn found(bucket: Result<Locked<'_>, Missing>) -> Result<Option<Locked<'_>>, Fail> {
    match bucket {
        Ok(locked) => Ok(Some(locked)),
        Err(Missing::Nothing) => Ok(None),
        Err(Missing::Memory) => Err("no memory".into()),
    }
}

// Returns whether the cursor is at the pair of a key. If so, and if `takes` is true, removes that
// pair.
fn meets(locked: &mut Locked<'_>, at: &mut EntryPtr<u64, u64, MAP>, key: u64, takes: bool) -> bool {
    // The low byte of a hash is that of its key, unless all hashes are 0, and a bucket reads only
    // that byte.
    let Some(mut there) = find(locked.bucket(), key, key) else {
        return false;
    };
    if (there.block(), there.pos()) != (at.block(), at.pos()) {
        return false;
    }
    if takes {
        let _ = locked.remove_entry(&mut there);
        *at = there;
    }
    true
}
