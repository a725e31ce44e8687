//! Walks over a table, cursors and sweeps, and rehashes that are finished.
ghost use Rattle.std.specs.Prelude.{◌≡◌, false};
ghost use Rattle.bucket_table.specs.Rehash.Finishing.{IsUnopened};
ghost use Rattle.bucket_table.specs.Walking.Walks.{IsKeptBy};

use crate::by_key::find;
use crate::by_lock::Map;
use crate::checks::check_same;
use crate::cursors::Stop;
use crate::growth::DOUBLED;
use crate::tables::Expect::*;
use crate::tables::Rehash::*;
use crate::tables::Step::*;
use crate::tables::{Step, Story, new_map, play, tell};
use bucket_slots::bucket::{Bucket, MAP};
use bucket_table::script::ScriptHash;
use bucket_table::tickets::TICKET_STEP;
use std::alloc::AllocError;
use std::test::Fail;
use test_helpers::steps;

type Pairs = Bucket<u64, u64, (), MAP>;

// An old array of 128 buckets, two units, beside one of 256.
const TWO_UNITS: &[Step] = steps! {
    InsertRange(5..6), Expect(Slots(4096, None)), RaiseMinimum(4096), Expect(Slots(8192, Some(0))),
    Expect(Key(5))
};

// An old array of 128 buckets with key 200 in its second unit, beside one of 256 with two keys.
const ONE_UNIT_LEFT: &[Step] = steps! {
    InsertRange(5..6), InsertRange(200..201), RaiseMinimum(4096), InsertRange(250..251),
    Expect(Slots(8192, Some(2048)))
};

// A map of four buckets, the first with keys 0 to 31, and the third with the other seven.
const SEVEN_BEHIND: &[Step] = steps! {
    InsertRange(0..31), InsertRange(128..159), InsertRange(31..32), Read(0),
    Expect(Slots(128, None)), RemoveRange(128..152)
};

#[test]
fn a_walk_that_is_stopped_has_seen_one_bucket(rt: HostRuntime) -> Result<(), Fail> {
    let mut table = new_map(rt.alloc(), ScriptHash::Spread, 0);
    play(&rt, &mut table, "a growth", DOUBLED)?;
    let mut buckets: usize = 0;
    let mut pairs: usize = 0;
    let mut stops = |bucket: &Pairs| -> bool {
        buckets = buckets.wrapping_add(1);
        pairs = pairs.wrapping_add(bucket.len());
        false
    };
    table.for_each_reader_sync(&mut stops)?;
    check_same(&rt, (buckets, pairs), (1, 32), "the first bucket");
    check_same(&rt, table.rehashing_metadata(), None, "its unit");
    Ok(())
}

/// Finishes a rehash if no ticket is open, and returns how many units were left.
pub(crate) fn finish(table: &mut Map) -> Result<Option<usize>, AllocError> {
    if has_open_ticket(table) {
        return Ok(None);
    }
    match table.finish_rehash() {
        Ok(units) => Ok(Some(units)),
        Err(refused) => Err(refused),
    }
}

// Whether a ticket is open, according to the rehash word.
fn has_open_ticket(table: &Map) -> bool
    ensures { result ≡ false → IsUnopened table.now.arrays }
{
    match table.rehashing_metadata() {
        Some(word) => word % TICKET_STEP != 0,
        None => false,
    }
}

/// Removes two keys in a walk, which then asks for a shorter array. Returns whether each was
/// present.
pub(crate) fn strip(table: &mut Map, keys: (u64, u64)) -> Result<(bool, bool), AllocError> {
    let mut taken = (false, false);
    let mut takes = |bucket: &mut Pairs, flag: &mut bool| -> bool
        ensures { bucket.old.killed ≡ false → IsKeptBy bucket.old bucket.new }
    {
        let first = take_key(bucket, keys.0);
        let second = take_key(bucket, keys.1);
        taken = (taken.0 | first, taken.1 | second);
        *flag |= first | second;
        true
    };
    table.for_each_writer_sync(0, 0, &mut takes)?;
    Ok(taken)
}

// Removes a key from a bucket, and returns whether it was present.
fn take_key(bucket: &mut Pairs, key: u64) -> bool
    ensures { bucket.old.killed ≡ false → IsKeptBy bucket.old bucket.new }
{
    let Some(mut at) = find(bucket, key, key) else {
        return false;
    };
    let _ = bucket.remove(&mut at);
    true
}

const STORIES: &[Story] = steps! {
    Story { name: "a rehash is finished unit by unit", hasher: ScriptHash::Spread, minimum: 4096,
        start: TWO_UNITS, steps: steps! {
            Rehash(Finish(2)), Expect(Slots(8192, None)), Rehash(Finish(0)),
            Expect(Slots(8192, None)), Expect(Key(5)) } },
    Story { name: "a finished unit isn't finished again", hasher: ScriptHash::Spread,
        minimum: 4096, start: TWO_UNITS, steps: steps! {
            Rehash(IssueTicket(0)), Rehash(RelocateRange(0..64)), Rehash(EndTicket(0)),
            Expect(Slots(8192, Some(2048))), Rehash(Finish(1)), Expect(Slots(8192, None)),
            Expect(Key(5)) } },
    Story { name: "a walk removes pairs and leaves a short array", hasher: ScriptHash::Id,
        minimum: 0, start: steps! { InsertRange(1..4) }, steps: steps! {
            RemoveInWalk(2, 3), Expect(Slots(64, None)),
            FollowCursor(&[Stop { keys: 1..2, bucket: (0, 64), takes: false }]) } },
    // Once 0 to 31 are removed, the table shrinks, and the next bucket is the second of two.
    Story { name: "a cursor continues after a shrink it causes", hasher: ScriptHash::Spread,
        minimum: 0, start: SEVEN_BEHIND, steps: steps! {
            FollowCursor(&[
                Stop { keys: 0..32, bucket: (0, 128), takes: true },
                Stop { keys: 152..159, bucket: (1, 64), takes: false },
            ]),
            Expect(Slots(64, None)), Count(7) } },
    Story { name: "a sweep continues after a shrink it causes", hasher: ScriptHash::Spread,
        minimum: 0, start: SEVEN_BEHIND, steps: steps! {
            Sweep(128, 32), Expect(Slots(64, None)), Count(7), Expect(Key(152)) } },
    Story { name: "each pair is visited once, the old array last", hasher: ScriptHash::Spread,
        minimum: 4096, start: ONE_UNIT_LEFT, steps: steps! {
            Expect(Each(&[5, 250, 200])), Expect(Len(3)), Expect(Slots(8192, Some(2048))), Count(3),
            Expect(Slots(8192, None)), Expect(Each(&[5, 200, 250])), Expect(Len(3)) } },
    Story { name: "len counts pairs of the old array", hasher: ScriptHash::Spread, minimum: 0,
        start: DOUBLED, steps: steps! { Expect(Len(63)), Expect(Slots(128, Some(0))) } },
    // The next array has the length of the raised minimum.
    Story { name: "clear drops the arrays and the tickets", hasher: ScriptHash::Spread,
        minimum: 4096, start: ONE_UNIT_LEFT, steps: steps! {
            Rehash(IssueTicket(2048)), Expect(Slots(8192, Some(4097))), Clear,
            Expect(Slots(0, None)), Expect(Len(0)), Expect(Each(&[])),
            Rehash(EndUnknownTicket(2048)), InsertRange(200..202), Expect(Slots(8192, None)),
            Expect(Each(&[200, 201])), Expect(Len(2)), Clear, Clear, Count(0),
            Expect(Slots(0, None)) } }
};

#[test]
fn walks_and_cursors_go_through_the_stories(rt: HostRuntime) -> Result<(), Fail> {
    tell(&rt, rt.alloc(), STORIES)
}
