//! Stories of two maps of numbers: whether they are equal, regardless of the order of insertion and
//! of the hasher; and that a change of one leaves its copy unchanged.
use super::check_same;
use super::equality::check_equal;
use super::maps::Expect::*;
use super::maps::Resize::*;
use super::maps::Step::*;
use super::maps::Write::*;
use super::maps::{Map, Step, fill, take};
use Turn::*;
use bucket_table::script::ScriptHash;
use collections::hash_map::HashMap;
use std::alloc::{AllocError, Global};
use std::ops::Range;
use std::process::Abort;
use std::test::Fail;
use test_helpers::{At, steps};

/// A step of one map, a call on both, or an expectation about both.
enum Turn {
    /// A step of the first map.
    One(Step),
    /// A step of the other map.
    Other(Step),
    /// Replace the other map by a clone of the first.
    CloneOne,
    /// Replace the other map by a copy of the first.
    CopyOne,
    /// Expect the maps to be equal, or not to be.
    ExpectEqual(bool),
    /// Insert keys, each into one map and then into the other: the maps are equal when both have
    /// it.
    InsertInTurn(Range<u64>),
}

/// The hasher and the minimum of a new map.
type Start = (ScriptHash, usize);

/// What happens on two new maps.
struct Story {
    name: &'static str,
    starts: (Start, Start),
    turns: &'static [Turn],
}

// The greatest minimum, which can't be allocated.
const MOST: usize = 1 << 63;

// Of two buckets the first has the keys below 128, under the hash that spreads low bytes, and is
// full when the last one is inserted.
const STORIES: &[Story] = steps! {
    Story { name: "a change of a map doesn't change its copy",
        starts: ((ScriptHash::Spread, 0), (ScriptHash::Id, 0)), turns: steps! {
            One(InsertRange(128..159)), One(InsertRange(0..32)), CloneOne, ExpectEqual(true),
            Other(Expect(Len(63))), Other(Expect(Slots(128))), One(Expect(Slots(128))),
            Other(Remove(150, Some((150, 150)))), One(Upsert(1, 10, Some(1))),
            One(InsertRange(40..41)), One(Expect(Value(150, Some(150)))),
            One(Expect(Value(1, Some(10)))), One(Expect(Len(64))), Other(Expect(Value(150, None))),
            Other(Expect(Value(1, Some(1)))), Other(Expect(Value(40, None))),
            Other(Expect(Len(62))), One(Clear), One(Expect(Len(0))), Other(Expect(Len(62))) } },
    // A copy has the minimum of its map, and takes memory for its pairs alone.
    Story { name: "a map whose minimum can't be allocated is copied",
        starts: ((ScriptHash::Id, 0), (ScriptHash::Id, 0)), turns: steps! {
            One(Insert(1, 10)), One(Resize(RaiseMinimum(MOST, MOST))), CloneOne,
            Other(Expect(Value(1, Some(10)))), Other(Expect(Len(1))), Other(Expect(Slots(64))),
            One(Clear), CloneOne, Other(Expect(Len(0))), Other(Expect(Slots(0))) } },
    // All keys come to the first bucket, until it has 48 pairs and the slots are doubled, twice:
    // then a bucket has 32 of the keys. The copy has 128 slots from the first, and grows once.
    Story { name: "numbers are copied",
        starts: ((ScriptHash::Spread, 0), (ScriptHash::Spread, 0)), turns: steps! {
            One(InsertRange(0..100)), One(Expect(Slots(256))), CopyOne, ExpectEqual(true),
            Other(Expect(Slots(256))), One(Remove(7, Some((7, 7)))),
            Other(Expect(Value(7, Some(7)))), Other(Expect(Len(100))) } },
    // The first map grows when its last key is inserted. All keys of the other share its first
    // bucket, so its 128 slots are doubled twice.
    Story { name: "a map during a growth equals one with the same pairs",
        starts: ((ScriptHash::Spread, 0), (ScriptHash::Id, 128)), turns: steps! {
            One(InsertRange(128..159)), Other(InsertRange(128..159)), InsertInTurn(0..32),
            One(Expect(Slots(128))), Other(Expect(Slots(512))), ExpectEqual(true),
            Other(Write(ByGetMut(150, 0, Some(150)))), ExpectEqual(false),
            Other(Remove(150, Some((150, 0)))), ExpectEqual(false), Other(InsertRange(150..151)),
            ExpectEqual(true) } }
};

#[test]
fn two_maps_go_through_their_stories(rt: HostRuntime) -> Result<(), Fail> {
    for story in STORIES {
        let mut one = new_map(rt.alloc(), story.starts.0);
        let mut other = new_map(rt.alloc(), story.starts.1);
        for (row, turn) in story.turns.iter().enumerate() {
            play(
                &rt,
                rt.alloc(),
                &mut one,
                &mut other,
                (story.name, row),
                turn,
            );
        }
    }
    Ok(())
}

fn new_map(alloc: Global, start: Start) -> Map {
    HashMap::with_minimum(alloc, start.0, start.1)
}

// Takes a turn, and checks its result.
fn play(rt: &impl Abort, alloc: Global, one: &mut Map, other: &mut Map, at: At, turn: &Turn) {
    match turn {
        One(step) => take(rt, one, at, step),
        Other(step) => take(rt, other, at, step),
        CloneOne => {
            let is_made = renew(other, one.try_clone(alloc));
            check_same(rt, (is_made, *other.hasher()), (true, *one.hasher()), at);
        }
        CopyOne => check_same(rt, renew(other, one.try_copy(alloc)), true, at),
        ExpectEqual(equal) => check_equal(rt, &*one, &*other, *equal, at),
        InsertInTurn(keys) => insert_in_turn(rt, one, other, keys),
    }
}

// A map becomes another one, if that was made. Whether it was.
fn renew(map: &mut Map, made: Result<Map, AllocError>) -> bool {
    match made {
        Ok(copy) => {
            *map = copy;
            true
        }
        Err(_) => false,
    }
}

// Each key is inserted into one map and then into the other: they are equal when both have it.
fn insert_in_turn(rt: &impl Abort, one: &mut Map, other: &mut Map, keys: &Range<u64>) {
    for key in keys.start..keys.end {
        let only = key..key.wrapping_add(1);
        check_equal(rt, &*one, &*other, true, ("as many", key));
        check_same(rt, fill(one, &only), true, ("one", key));
        check_equal(rt, &*one, &*other, false, ("one more", key));
        check_same(rt, fill(other, &only), true, ("other", key));
    }
}
