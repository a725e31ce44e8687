//! One bucket of a map, or two: where pairs are placed, what a removal returns, what a search and a
//! walk find, and what moves from one to the other.
use crate::steps::Expect::*;
use crate::steps::Set::*;
use crate::steps::Step::*;
use crate::steps::Walk::*;
use crate::steps::{Story, stories};

pub(crate) const PLACES: &[Story] = stories! {
    "a new bucket finds nothing", 0:
        Expect(Len(0)), Expect(Killed(false)), Expect(Absent(0..4)), Expect(FreeSlots(0..32));
    "a pair takes the lowest free own slot", 32:
        Expect(Len(32)), Remove(4, Some((0, 4))), Expect(Len(31)), Expect(OwnSlot(4, None)),
        Insert(4, (0, 4)), Expect(Len(32)), Expect(OwnSlot(4, Some(4))), Remove(20, Some((0, 20))),
        Expect(Len(31)), Expect(OwnSlot(20, None)), Insert(20, (0, 20)), Expect(Len(32)),
        Expect(OwnSlot(20, Some(20))), Remove(0, Some((0, 0))), Expect(Len(31)),
        Expect(OwnSlot(0, None)), Insert(0, (0, 0)), Expect(Len(32)), Expect(OwnSlot(0, Some(0)));
    "the lowest of several free slots is taken first", 32:
        Remove(9, Some((0, 9))), Remove(4, Some((0, 4))), Remove(30, Some((0, 30))),
        Insert(40, (0, 4)), Insert(41, (0, 9)), Insert(42, (0, 30));
    // The block that was the head is behind the new one then.
    "a pair without a free slot makes a new head", 32:
        Insert(32, (1, 0)), Insert(33, (1, 1)), Insert(34, (1, 2)), Insert(35, (1, 3)),
        Insert(36, (1, 0)), Expect(Len(37)), Expect(Place(36, Some((1, 0)))),
        Expect(Place(32, Some((2, 0)))), Expect(Place(35, Some((2, 3)))),
        Expect(Place(31, Some((0, 31))));
    // The chain of keys 0 to 40 is [40], [36 to 39], [32 to 35].
    "a block is dropped with its last pair", 41:
        Remove(36, Some((2, 0))), Remove(37, Some((2, 1))), Remove(38, Some((2, 2))),
        Remove(39, Some((2, 32))), Remove(40, Some((1, 32))), Expect(Len(36)),
        Expect(Place(32, Some((1, 0)))), Expect(Place(35, Some((1, 3))));
    "dropping the last block moves the pointer to the last own slot", 33:
        Remove(32, Some((0, 31))), Expect(Len(32)), Expect(Place(32, None));
    // 261 has the low byte 5, and only that is compared.
    "a search compares the fingerprint and the key", 0:
        Set(Hashes(5, 0)), Insert(1, (0, 0)), Set(Hashes(6, 0)), Insert(2, (0, 1)),
        Set(Hashes(5, 0)), Expect(Place(1, Some((0, 0)))), Expect(Place(2, None)),
        Expect(Place(3, None)), Set(Hashes(261, 0)), Expect(Place(1, Some((0, 0)))),
        Set(Hashes(6, 0)), Expect(Place(1, None)), Expect(Place(3, None));
    "the first of two equal keys is found", 0:
        Set(Hashes(5, 0)), Insert(1, (0, 0)), Set(Values(10, 1)), Insert(1, (0, 1)),
        Set(Values(10, 0)), Expect(Place(1, Some((0, 0)))), Remove(1, Some((0, 0))),
        Set(Values(10, 1)), Expect(Place(1, Some((0, 1))));
    "a removed pair is not found", 2:
        Remove(0, Some((0, 0))), Expect(Place(0, None)), Expect(Place(1, Some((0, 1)))),
        Remove(1, Some((0, 1))), Expect(Len(0)), Expect(Place(1, None)), Remove(1, None);
    "more keys than own slots are inserted and removed, all with one hash", 0:
        Set(Values(0, 0)), InsertRange(0..34), Expect(Len(34)), Expect(Present(0..34)),
        Expect(Absent(34..68)), RemoveRange(0..34), Expect(Len(0)), Expect(Absent(0..34)),
        Walk(Next(None, (0, 32)));
    "more keys than own slots are inserted and removed, with 32 hashes", 0:
        Set(Values(0, 0)), Set(Hashes(0, 31)), InsertRange(0..34), Expect(Len(34)),
        Expect(Present(0..34)), Expect(Absent(34..68)), RemoveRange(0..34), Expect(Len(0)),
        Expect(Absent(0..34)), Walk(Next(None, (0, 32)));
    // No slot is free after ten pairs, so the next pair makes a new head.
    "reserved slots take the next pairs", 30:
        Reserve(10), Reserve(10), Expect(Len(30)), Insert(30, (0, 30)), Insert(31, (0, 31)),
        Insert(32, (1, 0)), Insert(33, (1, 1)), Insert(34, (1, 2)), Insert(35, (1, 3)),
        Insert(36, (2, 0)), Insert(37, (2, 1)), Insert(38, (2, 2)), Insert(39, (2, 3)),
        Insert(40, (1, 0)), Expect(Place(32, Some((2, 0)))), Expect(Place(39, Some((3, 3))));
    // With the two blocks that were reserved, key 36 would be in the second.
    "a killed bucket drops its chain", 0:
        Set(Values(0, 0)), Reserve(40), Kill(true), Expect(Killed(true)), Kill(false),
        InsertRange(0..37), Expect(Place(36, Some((1, 0)))), Expect(Place(32, Some((2, 0))));
    // None of ten reserved blocks is left: key 36 is in the second block that had to be made.
    "a killed bucket of a map keeps no block", 0:
        Set(Values(0, 0)), Reserve(72), Kill(true), InsertRange(0..36), Insert(36, (1, 0));
};

pub(crate) const WALKS: &[Story] = stories! {
    "a walk over one pair ends and starts again", 1:
        Walk(Next(Some(0), (0, 0))), Walk(Next(None, (0, 32))), Walk(Next(Some(0), (0, 0)));
    "a walk goes through the own slots and then from the head", 41:
        Walk(KeyRange(0..32)), Walk(Keys(&[40, 36, 37, 38, 39, 32, 33, 34, 35])),
        Walk(Next(None, (0, 32))), Expect(Each(&[
            0, 1, 2, 3, 4, 5, 6, 7, 8, 9, 10, 11, 12, 13, 14, 15, 16, 17, 18, 19, 20, 21, 22, 23,
            24, 25, 26, 27, 28, 29, 30, 31, 40, 36, 37, 38, 39, 32, 33, 34, 35,
        ]));
    "a walk continues after a removed pair", 41:
        Remove(36, Some((2, 0))), Walk(Next(Some(37), (2, 1))), Remove(37, Some((2, 1))),
        Walk(Next(Some(38), (2, 2))), Remove(38, Some((2, 2))), Walk(Next(Some(39), (2, 3))),
        Remove(39, Some((2, 32))), Walk(Next(Some(32), (2, 0))), Remove(40, Some((1, 32))),
        Walk(Next(Some(32), (1, 0))), Expect(Len(36));
    "removing the only pair of the head drops its block", 37:
        Expect(Place(36, Some((1, 0)))), Expect(Place(32, Some((2, 0)))),
        Expect(Place(33, Some((2, 1)))), Expect(Place(34, Some((2, 2)))),
        Expect(Place(35, Some((2, 3)))), Remove(36, Some((1, 32))), Walk(Next(Some(32), (1, 0)));
    "a walk ends after the last block is dropped", 33:
        Expect(Place(32, Some((1, 0)))), Remove(32, Some((0, 31))), Walk(Next(None, (0, 32)));
};

pub(crate) const MOVES: &[Story] = stories! {
    // The slots of keys 0 to 43 are all occupied. The next pairs take the slots that were freed,
    // and no block was dropped.
    "a pair moves and leaves its slot free", 44:
        Swap, Move(5, Some((0, 0))), Expect(MovedFrom((0, 5))), Expect(Lens(1, 43)),
        Expect(Place(5, Some((0, 0)))), Move(31, Some((0, 1))), Expect(MovedFrom((0, 31))),
        Expect(Lens(2, 42)), Expect(Place(31, Some((0, 1)))), Move(40, Some((0, 2))),
        Expect(MovedFrom((1, 0))), Expect(Lens(3, 41)), Expect(Place(40, Some((0, 2)))),
        Move(34, Some((0, 3))), Expect(MovedFrom((3, 2))), Expect(Lens(4, 40)),
        Expect(Place(34, Some((0, 3)))), Swap, Expect(Place(36, Some((2, 0)))), Insert(50, (0, 5)),
        Insert(51, (0, 31)), Insert(52, (1, 0)), Insert(53, (3, 2)), Expect(Len(44));
    // The byte of both hashes is 5.
    "a pair moves under the given hash", 0:
        Set(Hashes(5, 0)), Insert(1, (0, 0)), Swap, Set(Hashes(261, 0)), Move(1, Some((0, 0))),
        Expect(MovedFrom((0, 0))), Set(Hashes(5, 0)), Expect(Present(1..2)), Set(Hashes(6, 0)),
        Expect(Absent(1..2)), Set(Hashes(5, 0)), Move(1, None);
};

// The keys are in own slots, among them the first and the last, and in each block of the chain.
macro_rules! written {
    ($($key:literal),+) => {
        &[$((
            "a written value is the only one that changes",
            41,
            &[
                Write($key, 7, Some($key * 10)), Write(41, 7, None), Expect(Len(41)),
                Expect(Present(0..$key)), Expect(Present($key + 1..41)), Set(Values(0, 7)),
                Expect(Present($key..$key + 1)),
            ],
        )),+]
    };
}

pub(crate) const WRITTEN: &[Story] = written!(0, 3, 31, 32, 35, 36, 39, 40);
