//! Tables that grow and shrink, and that are dropped: where pairs are then, and which bucket a
//! writer gets.
use crate::by_lock::Map;
use crate::checks::check_same;
use crate::tables::Expect::*;
use crate::tables::Lock::*;
use crate::tables::Rehash::*;
use crate::tables::Step::*;
use crate::tables::{Step, Story, new_map, tell};
use bucket_table::hash_table::MAXIMUM_CAPACITY_LIMIT;
use bucket_table::script::{ScriptHash, run};
use std::test::Fail;
use test_helpers::steps;

// Under the hash that spreads low bytes, the first of two buckets has the keys below 128. The first
// of four has those below 64, and the third those from 128 to 191. The bucket that a writer is
// given is found before the growth, so key 31 goes to the old array.
pub(crate) const DOUBLED: &[Step] = steps! {
    InsertRange(0..31), InsertRange(128..159), Expect(Slots(64, None)),
    Lock(Insert(31, 0, (0, 31))), Expect(Slots(128, Some(0)))
};

const OVERFLOWED: &[Step] = steps! { InsertRange(0..32), Lock(Insert(32, 0, (1, 0))) };

const STORIES: &[Story] = steps! {
    Story { name: "one read moves the pairs of a growth", hasher: ScriptHash::Spread, minimum: 0,
        start: DOUBLED, steps: steps! {
            Lock(FindHome(0, None)), Read(0), Expect(Slots(128, None)),
            Lock(FindHome(0, Some((0, 32)))), Lock(FindHome(128, Some((2, 31)))),
            Lock(FindPlace(31, (0, 31))), Count(63) } },
    Story { name: "reserving a bucket completes a growth", hasher: ScriptHash::Spread,
        minimum: 0, start: DOUBLED, steps: steps! {
            Lock(FindReserved(0, 0)), Expect(Slots(128, None)), Count(63) } },
    Story { name: "keys with equal hashes make a chain", hasher: ScriptHash::Zero, minimum: 0,
        start: OVERFLOWED, steps: steps! {
            Lock(Insert(33, 0, (1, 1))), Lock(Insert(34, 0, (1, 2))), Lock(Insert(35, 0, (1, 3))),
            Lock(Insert(36, 0, (1, 0))), Lock(FindPlace(32, (2, 0))), Lock(FindPlace(33, (2, 1))),
            Lock(FindPlace(34, (2, 2))), Lock(FindPlace(35, (2, 3))), Expect(Slots(64, None)),
            Lock(Remove(36, (1, 32))), Lock(FindPlace(32, (1, 0))) } },
    Story { name: "a pointer returns to the own slots", hasher: ScriptHash::Zero, minimum: 0,
        start: OVERFLOWED, steps: steps! {
            Lock(Remove(32, (0, 31))), Lock(FindHome(0, Some((0, 32)))) } },
    // The last key takes the last place of the chain's head.
    Story { name: "keys of one hash fill 2000 blocks", hasher: ScriptHash::Zero, minimum: 0,
        start: steps! { InsertRange(0..8031) }, steps: steps! {
            Lock(Insert(8031, 0, (1, 3))), Lock(FindPlace(32, (2000, 0))),
            Expect(Slots(64, None)) } },
    Story { name: "a first writer makes an array, and a count drops it", hasher: ScriptHash::Id,
        minimum: 0, start: &[], steps: steps! {
            Lock(FindBucket(0, 0)), Expect(Slots(64, None)), Count(0), Expect(Slots(0, None)),
            Lock(FindReserved(0, 0)), Expect(Slots(64, None)), Count(0), Expect(Slots(0, None)),
            Rehash(MakeArray(2)), Expect(Slots(64, None)), Rehash(MakeArray(2)), Count(0),
            Expect(Slots(0, None)) } },
    // All pairs are in the second bucket, which an automatic growth doesn't look at. 256 is the
    // least power of two whose half isn't below 100.
    Story { name: "a requested resize happens once", hasher: ScriptHash::Spread, minimum: 0,
        start: steps! { InsertRange(128..228), Expect(Slots(64, None)) }, steps: steps! {
            Rehash(TryResize(true)), Expect(Slots(256, Some(0))), Rehash(TryResize(false)),
            Expect(Slots(256, Some(0))), Count(100) } },
    // 384 slots are eight for each pair, so 256 are doubled, and 512 aren't.
    Story { name: "a bucket of 48 pairs doubles the slots", hasher: ScriptHash::Zero, minimum: 0,
        start: steps! {
            InsertRange(0..47), Rehash(GrowIfOverfull(0, false)), InsertRange(47..48),
            Expect(Slots(64, None)) },
        steps: steps! {
            Rehash(GrowIfOverfull(0, true)), Expect(Slots(128, Some(0))),
            Rehash(GrowIfOverfull(0, false)), Read(0), Expect(Slots(128, None)),
            Lock(FindHome(0, Some((0, 48)))), Rehash(GrowIfOverfull(18446744073709551615, false)),
            Rehash(GrowIfOverfull(0, true)), Read(0), Expect(Slots(256, None)),
            Rehash(GrowIfOverfull(0, true)), Read(0), Rehash(GrowIfOverfull(0, false)),
            Expect(Slots(512, None)), Count(48) } },
    Story { name: "a requested resize drops an empty array", hasher: ScriptHash::Id,
        minimum: 0, start: steps! {
            Lock(FindBucket(0, 0)), Expect(Slots(64, None)) }, steps: steps! {
            Rehash(TryResize(true)), Expect(Slots(0, None)), Rehash(TryResize(false)),
            Expect(Slots(0, None)) } },
    // The second bucket has half of all hashes.
    Story { name: "the upper bits of a hash choose its bucket", hasher: ScriptHash::Id, minimum: 0,
        start: &[], steps: steps! {
            Lock(FindBucket(9223372036854775807, 0)), Lock(FindBucket(9223372036854775808, 1)),
            Lock(FindBucket(18446744073709551615, 1)) } }
};

#[test]
fn tables_grow_and_shrink_and_go(rt: HostRuntime) -> Result<(), Fail> {
    tell(&rt, rt.alloc(), STORIES)
}

// A hasher, a key and its hash. Spread puts the key's low byte at both ends of 64 bits.
const HASHES: [(ScriptHash, u64, u64); 8] = [
    (ScriptHash::Zero, 0, 0),
    (ScriptHash::Zero, 18446744073709551615, 0),
    (ScriptHash::Id, 0, 0),
    (ScriptHash::Id, 18446744073709551615, 18446744073709551615),
    (ScriptHash::Spread, 0, 0),
    (ScriptHash::Spread, 128, 128 << 56 | 128),
    (ScriptHash::Spread, 255, 255 << 56 | 255),
    (ScriptHash::Spread, 257, 1 << 56 | 1),
];

#[test]
fn a_new_table_answers_what_it_was_made_of(rt: HostRuntime) -> Result<(), Fail> {
    for (hasher, key, hash) in &HASHES {
        let mut table: Map = new_map(rt.alloc(), *hasher, 1000);
        check_same(&rt, *table.hasher(), *hasher, *key);
        check_same(&rt, table.hash(key), *hash, (*key, *hasher));
        let bounds = (table.minimum_capacity(), table.maximum_capacity());
        check_same(&rt, bounds, (1000, MAXIMUM_CAPACITY_LIMIT), *key);
        check_same(&rt, table.array().is_none(), true, *key);
        check_same(&rt, table.calculate_bucket_index(*hash), 0, *key);

        // An empty list of calls has no replies.
        let replies = run(rt.alloc(), &mut table, Vec::new(rt.alloc()), &())?;
        check_same(&rt, (replies.len(), table.num_slots()), (0, 0), *key);
    }
    Ok(())
}
