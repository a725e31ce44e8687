//! Stories of a map of numbers, and how many slots it has from the first pair on.
use super::maps::Expect::*;
use super::maps::Resize::*;
use super::maps::Step::*;
use super::maps::Write::*;
use super::maps::{Map, Story, play};
use super::{check_same, draining, std_maps};
use bucket_table::script::ScriptHash;
use collections::hash_map::HashMap;
use std::test::Fail;
use test_helpers::steps;

// The maximum number of slots. Allocating this many fails.
const MOST: usize = 1 << 63;

// Under the hash that spreads low bytes, the first of two buckets has the keys below 128. The table
// grows when that bucket is full, and key 255 is always in the last bucket.
const STORIES: &[Story] = steps! {
    Story { name: "an insertion of a present key returns the pair",
        hasher: ScriptHash::Id, minimum: 0, steps: steps! {
            Expect(Slots(0)), Insert(1, 10), InsertPresent(1, 11), Expect(Value(1, Some(10))),
            Expect(Value(2, None)), Insert(2, 10), Expect(Value(2, Some(10))), Expect(Len(2)),
            Expect(Slots(64)) } },
    Story { name: "an upsert inserts a pair once, then replaces its value",
        hasher: ScriptHash::Id, minimum: 0, steps: steps! {
            Upsert(1, 10, None), Upsert(1, 11, Some(10)), Upsert(2, 5, None), Expect(Len(2)),
            Expect(Value(1, Some(11))), InsertPresent(1, 12), Upsert(1, 13, Some(11)),
            Expect(Len(2)) } },
    Story { name: "an update changes a present value, and inserts none",
        hasher: ScriptHash::Id, minimum: 0, steps: steps! {
            Write(AddOne(1, None)), Expect(Len(0)), Expect(Slots(0)), Insert(1, 10),
            Write(AddOne(1, Some((1, 10)))), Write(AddOne(1, Some((1, 11)))),
            Write(AddOne(2, None)), Expect(Value(1, Some(12))), Expect(Len(1)) } },
    Story { name: "a pair is removed once",
        hasher: ScriptHash::Id, minimum: 0, steps: steps! {
            Remove(1, None), RemoveIfAbove(1, 0, None), Insert(1, 10), Insert(2, 20),
            RemoveIfAbove(1, 10, None), Expect(Len(2)), RemoveIfAbove(1, 9, Some((1, 10))),
            Insert(1, 10), Remove(1, Some((1, 10))), Remove(1, None), Expect(Value(1, None)),
            Expect(Value(2, Some(20))), Expect(Len(1)), Insert(1, 11), Remove(1, Some((1, 11))) } },
    Story { name: "pairs are the same before, during and after a growth",
        hasher: ScriptHash::Spread, minimum: 0, steps: steps! {
            InsertRange(0..31), InsertRange(128..159), Expect(Slots(64)), Expect(Len(62)),
            Insert(31, 31), Expect(Slots(128)), Expect(Len(63)), Expect(Value(5, Some(5))),
            Expect(Value(158, Some(158))), Write(AddOne(5, Some((5, 5)))), Expect(Slots(128)),
            Expect(Len(63)), Expect(Value(5, Some(6))), Upsert(130, 1, Some(130)),
            Remove(130, Some((130, 1))), Expect(Len(62)) } },
    Story { name: "a removal and an upsert during a growth find pairs in either array",
        hasher: ScriptHash::Spread, minimum: 0, steps: steps! {
            InsertRange(0..31), InsertRange(128..159), InsertRange(31..32), Expect(Slots(128)),
            Remove(7, Some((7, 7))), Upsert(8, 9, Some(8)), Expect(Value(7, None)),
            Expect(Value(8, Some(9))), Expect(Len(62)) } },
    Story { name: "get_mut changes a present value, and inserts none",
        hasher: ScriptHash::Id, minimum: 0, steps: steps! {
            Write(ByGetMut(1, 10, None)), Expect(Len(0)), Expect(Slots(0)), Insert(1, 10),
            Write(ByGetMut(1, 11, Some(10))), Expect(Value(1, Some(11))),
            Write(ByGetMut(2, 20, None)), Expect(Value(2, None)), Write(ByGetMut(1, 12, Some(11))),
            Remove(1, Some((1, 12))), Write(ByGetMut(1, 13, None)), Expect(Len(0)) } },
    Story { name: "get_mut during a growth finds pairs in either array",
        hasher: ScriptHash::Spread, minimum: 0, steps: steps! {
            InsertRange(0..31), InsertRange(128..159), InsertRange(31..32), Expect(Slots(128)),
            Write(ByGetMut(5, 50, Some(5))), Write(ByGetMut(158, 1, Some(158))),
            Write(ByGetMut(32, 1, None)), Expect(Value(5, Some(50))), Expect(Value(4, Some(4))),
            Expect(Value(158, Some(1))), Expect(Value(157, Some(157))), Expect(Len(63)) } },
    Story { name: "retained pairs have the values that were left", hasher: ScriptHash::Id,
        minimum: 0, steps: steps! {
            RetainAndAddOne(2, 0, 0), Expect(Len(0)), InsertRange(0..10), RetainAndAddOne(1, 0, 10),
            Expect(Len(10)), Expect(Value(3, Some(4))), RetainAndAddOne(3, 1, 10), Expect(Len(3)),
            Expect(Value(1, Some(3))), Expect(Value(4, Some(6))), Expect(Value(7, Some(9))),
            Expect(Value(3, None)), InsertPresent(4, 1), Insert(3, 30), RetainAndAddOne(8, 3, 4),
            Expect(Len(1)), Expect(Value(3, Some(31))), RetainAndAddOne(2, 0, 1), Expect(Len(0)),
            Insert(3, 3), Expect(Len(1)) } },
    // The even keys of both ranges are 16 and 16.
    Story { name: "retain visits both arrays during a growth", hasher: ScriptHash::Spread,
        minimum: 0, steps: steps! {
            InsertRange(0..31), InsertRange(128..159), InsertRange(31..32), Expect(Slots(128)),
            RetainAndAddOne(2, 0, 63), Expect(Len(32)), Expect(Value(0, Some(1))),
            Expect(Value(30, Some(31))), Expect(Value(31, None)), Expect(Value(157, None)),
            Expect(Value(158, Some(159))), Insert(31, 7), RetainAndAddOne(2, 1, 33), Expect(Len(1)),
            Expect(Value(31, Some(8))) } },
    Story { name: "each value is written once", hasher: ScriptHash::Spread, minimum: 0,
        steps: steps! {
            Write(AddOneToAll(0)), Expect(Len(0)), InsertRange(0..31), InsertRange(128..159),
            Write(AddOneToAll(62)), Expect(Value(30, Some(31))), InsertRange(31..32),
            Expect(Slots(128)), Write(AddOneToAll(63)), Expect(Len(63)),
            Expect(Value(30, Some(32))), Expect(Value(31, Some(32))), Expect(Value(158, Some(160))),
            Expect(Value(32, None)) } },
    // A bucket of 48 pairs doubles the slots while there is a pair for each 8: 64 make 1,024.
    Story { name: "keys with equal hashes make a chain", hasher: ScriptHash::Zero, minimum: 0,
        steps: steps! {
            InsertRange(0..100), Expect(Slots(1024)), Expect(Len(100)), Remove(50, Some((50, 50))),
            InsertPresent(99, 1), Expect(Value(99, Some(99))), Write(AddOne(33, Some((33, 33)))),
            Write(ByGetMut(98, 98, Some(98))), RemoveRange(51..100), Expect(Len(50)),
            RetainAndAddOne(2, 1, 50), Expect(Len(25)), Expect(Value(49, Some(50))) } },
    // 13 of 16 of 64 slots are 52 pairs, and of 128 slots 104.
    Story { name: "reserve adds slots only if there are too few", hasher: ScriptHash::Spread,
        minimum: 0, steps: steps! {
            Resize(Reserve(0)), Expect(Slots(0)), Resize(Reserve(1)), Expect(Slots(64)),
            Resize(Reserve(52)), Expect(Slots(64)), Resize(Reserve(53)), Expect(Slots(128)),
            Resize(Reserve(53)), Expect(Slots(128)), InsertRange(0..10), Resize(Reserve(94)),
            Expect(Slots(128)), Resize(Reserve(95)), Expect(Slots(256)), Resize(Reserve(95)),
            Resize(Reserve(1)), Expect(Slots(256)), Expect(Value(9, Some(9))), Expect(Len(10)) } },
    Story { name: "room is reserved during a growth", hasher: ScriptHash::Spread, minimum: 0,
        steps: steps! {
            InsertRange(0..31), InsertRange(128..159), InsertRange(31..32), Expect(Slots(128)),
            Resize(Reserve(41)), Expect(Slots(128)), Expect(Len(63)), Expect(Value(5, Some(5))),
            Expect(Value(158, Some(158))), Resize(Reserve(42)), Expect(Slots(256)), Expect(Len(63)),
            Remove(5, Some((5, 5))), InsertPresent(158, 1) } },
    Story { name: "a map is usable after a failed reservation", hasher: ScriptHash::Id,
        minimum: 0, steps: steps! {
            Resize(ReserveWithoutMemory(1 << 60)), Expect(Slots(0)), Insert(1, 10),
            Resize(ReserveWithoutMemory(1 << 60)), Resize(ReserveWithoutMemory(1 << 63)),
            Resize(ReserveWithoutMemory(usize::MAX)), Expect(Slots(64)), Insert(2, 20),
            Expect(Value(1, Some(10))), Expect(Len(2)) } },
    // 250 pairs are more than 13 of 16 of 256 slots, which are 208.
    Story { name: "shrink_to_fit leaves what the pairs need", hasher: ScriptHash::Spread,
        minimum: 0, steps: steps! {
            Resize(Reserve(100000)), Expect(Slots(131072)), InsertRange(0..250),
            Expect(Slots(131072)), Resize(ShrinkToFit), Expect(Slots(512)), Expect(Len(250)),
            Expect(Value(249, Some(249))), Resize(ShrinkToFit), Expect(Slots(512)),
            RemoveRange(0..250), Resize(ShrinkToFit), Expect(Slots(0)), Resize(ShrinkToFit),
            Expect(Slots(0)), Insert(1, 1), Expect(Slots(64)), Expect(Len(1)) } },
    Story { name: "the first array has the requested capacity", hasher: ScriptHash::Id,
        minimum: 100, steps: steps! { Expect(Slots(0)), Insert(1, 1), Expect(Slots(128)) } },
    Story { name: "a raised minimum is reset", hasher: ScriptHash::Spread, minimum: 100,
        steps: steps! {
            Resize(RaiseMinimum(28, 28)), Expect(Slots(0)), Insert(255, 255), Expect(Slots(128)),
            Resize(RaiseMinimum(3968, 3968)), Expect(Slots(4096)), Expect(Len(1)),
            Expect(Value(255, Some(255))), Write(AddOne(255, Some((255, 255)))),
            Resize(ShrinkToFit), Expect(Slots(64)), Expect(Value(255, Some(256))),
            Expect(Len(1)) } },
    Story { name: "no minimum exceeds the maximum capacity", hasher: ScriptHash::Id,
        minimum: 1, steps: steps! {
            Resize(RaiseMinimum(MOST, 0)), Resize(RaiseMinimum(MOST - 1, MOST - 1)),
            Resize(RaiseMinimum(1, 0)), Resize(RaiseMinimum(0, 0)), InsertWithoutMemory(1, 10),
            Expect(Len(0)), Resize(ShrinkToFit), Resize(RaiseMinimum(1, 1)), Insert(1, 10),
            Expect(Slots(64)) } },
    // The present array stays, and takes pairs.
    Story { name: "a minimum is raised though allocation fails", hasher: ScriptHash::Id,
        minimum: 0, steps: steps! {
            Insert(1, 10), Resize(RaiseMinimum(MOST, MOST)), Expect(Slots(64)), Insert(2, 20),
            Expect(Value(1, Some(10))), Clear, Expect(Slots(64)), Insert(3, 30), Expect(Len(1)),
            Clear, Resize(ShrinkToFit), Expect(Slots(0)) } },
    Story { name: "a cleared map keeps its slots", hasher: ScriptHash::Spread,
        minimum: 128, steps: steps! {
            InsertRange(0..30), Insert(200, 1), Expect(Slots(128)), Clear, Expect(Len(0)),
            Expect(Slots(128)), Expect(Value(5, None)), Expect(Value(200, None)), Remove(5, None),
            Insert(5, 6), Expect(Len(1)), Expect(Value(5, Some(6))), Clear, Clear, Expect(Len(0)),
            Expect(Slots(128)) } },
    Story { name: "a cleared map keeps its minimum", hasher: ScriptHash::Spread, minimum: 100,
        steps: steps! {
            InsertRange(0..40), Expect(Slots(128)), Clear, Expect(Len(0)), Expect(Slots(128)),
            Expect(Value(5, None)), Remove(5, None), Clear, Insert(5, 6), Remove(5, Some((5, 6))),
            Expect(Slots(128)), Resize(ShrinkToFit), Expect(Slots(0)) } },
    Story { name: "a map is cleared during a growth", hasher: ScriptHash::Spread, minimum: 0,
        steps: steps! {
            InsertRange(0..31), InsertRange(128..159), InsertRange(31..32), Expect(Slots(128)),
            Clear, Expect(Len(0)), Expect(Slots(128)), Insert(200, 1), Expect(Slots(128)),
            Expect(Len(1)), Expect(Value(5, None)), Expect(Value(200, Some(1))) } }
};

// Numbers of pairs, and how many slots the first array has for them: the pairs are more than 13/16
// of half as many slots. 13/16 of 2,048 slots are 1,664.
const CAPACITIES: [(usize, usize); 7] = [
    (0, 64),
    (1, 64),
    (52, 64),
    (53, 128),
    (1000, 2048),
    (1664, 2048),
    (1665, 4096),
];

#[test]
fn a_first_array_has_room_for_the_pairs(rt: HostRuntime) -> Result<(), Fail> {
    for (pairs, slots) in &CAPACITIES {
        let mut map: Map = HashMap::with_capacity_and_hasher(
            rt.alloc(),
            *pairs,
            ScriptHash::Spread,
        );
        check_same(&rt, map.capacity(), 0, ("none yet", *pairs));
        let found = (map.insert(1, 1).is_ok(), map.capacity());
        check_same(&rt, found, (true, *slots), ("first", *pairs));
        let room = map.try_reserve(pairs.saturating_sub(1)).is_ok();
        check_same(
            &rt,
            (room, map.capacity()),
            (true, *slots),
            ("room", *pairs),
        );
    }
    Ok(())
}

#[test]
fn maps_go_through_their_stories(rt: HostRuntime) -> Result<(), Fail> {
    for stories in [STORIES, draining::STORIES, std_maps::STORIES] {
        play(&rt, rt.alloc(), stories);
    }
    Ok(())
}
