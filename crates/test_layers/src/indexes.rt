//! One bucket of an index, or two: removed pairs stay in their slots as tombstones with an epoch,
//! until a test no longer keeps them.
use crate::steps::Expect::*;
use crate::steps::Set::*;
use crate::steps::Step::*;
use crate::steps::Walk::*;
use crate::steps::{Kept, Step, Story, stories};

// Epoch 0, and every tombstone is kept.
const KEEP: Step = Set(Epoch(0, Kept::All));

// Epoch 0, and no tombstone is kept.
const LET_GO: Step = Set(Epoch(0, Kept::None));

// All own slots are occupied: the sum of 2^i over i from 0 to 31.
const ALL_OWN: u32 = 4294967295;

pub(crate) const INSERTIONS: &[Story] = stories! {
    // All tombstones that aren't kept are dropped at once, with the first.
    "tombstones that are kept send a pair to the chain", 32:
        Mark(&[0, 1, 2, 3]), Expect(Len(28)), Expect(Place(0, None)), Insert(32, (1, 0)), LET_GO,
        Insert(33, (0, 0)), Expect(Len(30)), Expect(Place(32, Some((1, 0)))),
        Expect(OwnSlot(1, None)), Expect(OwnSlot(2, None)), Expect(OwnSlot(3, None)), KEEP,
        Insert(34, (0, 1)), Insert(35, (0, 2));
    "tombstones stay while an own slot is free", 31:
        Mark(&[4]), LET_GO, Insert(40, (0, 31)), Expect(OwnSlot(4, Some(4))), Insert(41, (0, 4));
    "chain tombstones stay while no own slot is a tombstone", 33:
        Mark(&[32]), LET_GO, Insert(40, (1, 1)), Insert(41, (1, 2));
    // The own slots have one tombstone of epoch 1, which is kept, and the chain has live key 34
    // between three tombstones of epoch 2, which are not.
    "a block with a live pair stays and takes the next ones", 36:
        Set(Epoch(1, Kept::Rest(255, 1))), Mark(&[7]), Set(Epoch(2, Kept::Rest(255, 1))),
        Mark(&[32, 33, 35]), Expect(Len(32)), Expect(Place(34, Some((1, 2)))), Insert(40, (1, 0)),
        Insert(41, (1, 1)), Insert(42, (1, 3)), Insert(43, (1, 0)), Expect(Len(36)),
        Expect(OwnSlot(7, Some(7))), Expect(Place(34, Some((2, 2)))),
        Expect(Place(42, Some((2, 3))));
    // Two free blocks are behind one full of live pairs. The original drops both before key 40 is
    // inserted, and allocates again; here the last of them is dropped after the insertion.
    "a pair is placed before free blocks are dropped", 36:
        Mark(&[7]), Reserve(8), Insert(40, (2, 0)), Expect(Place(32, Some((1, 0)))),
        Insert(41, (2, 1)), Insert(42, (2, 2)), Insert(43, (2, 3)), Insert(44, (1, 0)),
        Expect(Place(40, Some((3, 0)))), Expect(Place(43, Some((3, 3))));
    // Two pairs are inserted into own slots. Two free blocks are dropped then, and the place of the
    // last pair shows it.
    "free blocks are dropped even if an own slot takes the pair", 32:
        Mark(&[5, 6]), Reserve(8), LET_GO, Insert(40, (0, 5)), Insert(41, (0, 6)),
        Insert(42, (1, 0)), Insert(43, (1, 1)), Insert(44, (1, 2)), Insert(45, (1, 3)),
        Insert(46, (1, 0)), Expect(Len(37));
    // A clearing that keeps none frees the slots 0, 1, 2 and 31.
    "a move into a bucket keeps its tombstones", 40:
        Swap, InsertRange(0..32), Mark(&[0, 1, 2, 31]), Move(32, Some((1, 0))),
        Expect(OwnSlot(0, Some(0))), Expect(OwnSlot(31, Some(31))), Move(33, Some((1, 1))),
        Expect(OwnSlot(0, Some(0))), Expect(OwnSlot(31, Some(31))), Move(39, Some((1, 2))),
        Expect(OwnSlot(0, Some(0))), Expect(OwnSlot(31, Some(31))), ClearTombstones(ALL_OWN),
        LET_GO, ClearTombstones(2147483640), Expect(Lens(31, 37));
};

pub(crate) const RESERVATIONS: &[Story] = stories! {
    // The 28 live pairs and 4 more are as many as the 32 own slots, but none of these is free. The
    // original compares those numbers and adds no block. The second reservation adds none, so key
    // 36 makes a new head.
    "tombstones count as occupied slots", 40:
        Swap, InsertRange(0..32), Mark(&[0, 1, 2, 3]), Expect(Len(28)), Reserve(4), Reserve(4),
        Expect(Len(28)), Move(32, Some((1, 0))), Move(33, Some((1, 1))), Move(34, Some((1, 2))),
        Move(35, Some((1, 3))), Expect(Lens(32, 36)), Move(36, Some((1, 0))),
        Expect(Place(32, Some((2, 0)))), Expect(Place(35, Some((2, 3))));
    // The reserved block is behind the block of live pairs, while a block that a move has to make
    // is before it.
    "a block reserved because of tombstones is at the end", 44:
        Swap, InsertRange(0..36), Mark(&[0, 1, 2, 3]), Reserve(4), Reserve(4),
        Move(36, Some((2, 0))), Move(37, Some((2, 1))), Move(38, Some((2, 2))),
        Move(39, Some((2, 3))), Expect(Place(32, Some((1, 0)))), Move(40, Some((1, 0))),
        Expect(Place(36, Some((3, 0))));
    "a moved pair skips a tombstone in its block", 40:
        Swap, InsertRange(0..34), Mark(&[32]), Reserve(2), Move(36, Some((1, 2))),
        Move(37, Some((1, 3))), Move(38, Some((1, 0))), Expect(Place(33, Some((2, 1))));
    // All own slots but the first four: the sum of 2^i over i from 4 to 31. One block is added.
    "cleared slots are free", 32:
        Mark(&[0, 1, 2, 3]), Expect(Len(28)), LET_GO, ClearTombstones(4294967280), KEEP, Reserve(5),
        Insert(40, (0, 0)), Insert(41, (0, 1)), Insert(42, (0, 2)), Insert(43, (0, 3)),
        Insert(44, (1, 0)), Insert(45, (1, 1)), Insert(46, (1, 2)), Insert(47, (1, 3)),
        Insert(48, (1, 0)), Expect(Place(44, Some((2, 0))));
    // Ten blocks were reserved: key 36 is in the second of them.
    "a killed bucket of an index keeps its chain", 0:
        Set(Values(0, 0)), Reserve(72), Kill(true), InsertRange(0..36), Insert(36, (2, 0));
};

pub(crate) const CLEARINGS: &[Story] = stories! {
    // The chain's first slot is occupied.
    "a clearing that keeps every tombstone changes nothing", 33:
        Expect(Place(32, Some((1, 0)))), Mark(&[0, 1, 32]), Expect(Len(30)),
        ClearTombstones(ALL_OWN), Expect(Len(30)), ClearTombstones(ALL_OWN), Expect(Len(30)),
        Expect(OwnSlot(0, Some(0))), Expect(OwnSlot(1, Some(1))), Expect(OwnSlot(2, Some(2))),
        Insert(40, (1, 1));
    // All own slots but 0 and 1 are occupied then, and the chain is dropped.
    "a clearing that keeps no tombstone frees their slots", 33:
        Expect(Place(32, Some((1, 0)))), Mark(&[0, 1, 32]), Expect(Len(30)), LET_GO,
        ClearTombstones(4294967292), Expect(Len(30)), Expect(OwnSlot(0, None)),
        Expect(OwnSlot(1, None)), Expect(Absent(0..2)), Expect(Absent(32..33)),
        Expect(InOwnSlots(2..32)), KEEP, Insert(50, (0, 0)), Insert(51, (0, 1)), Insert(52, (1, 0));
    "a clearing of an empty bucket changes nothing", 0:
        LET_GO, ClearTombstones(0), Expect(Len(0));
    "a clearing of a bucket of one pair changes nothing", 1:
        LET_GO, ClearTombstones(1), Expect(Len(1)), Expect(Present(0..1));
    "a clearing of a bucket of five pairs changes nothing", 5:
        LET_GO, ClearTombstones(31), Expect(Len(5)), Expect(Present(0..5));
    "a clearing of full own slots changes nothing", 32:
        LET_GO, ClearTombstones(ALL_OWN), Expect(Len(32)), Expect(Present(0..32));
    "a clearing of a chain without tombstones changes nothing", 37:
        LET_GO, ClearTombstones(ALL_OWN), Expect(Len(37)), Expect(Present(0..37));
    // With keys 0 to 36, the chain is [36], [32 to 35]. The fifth pair that is inserted after a
    // clearing shows whether one block, two or none are left.
    "a chain of free blocks is dropped", 37:
        Mark(&[32, 33, 34, 35, 36]), LET_GO, ClearTombstones(ALL_OWN), KEEP, Insert(50, (1, 0)),
        Insert(51, (1, 1)), Insert(52, (1, 2)), Insert(53, (1, 3)), Insert(54, (1, 0));
    "a free block at the end of the chain is dropped", 37:
        Mark(&[32, 33, 34, 35]), LET_GO, ClearTombstones(ALL_OWN), KEEP, Insert(50, (1, 1)),
        Insert(51, (1, 2)), Insert(52, (1, 3)), Insert(53, (1, 0)), Insert(54, (1, 1));
    "a free head stays if a later block has a live pair", 37:
        Mark(&[36]), LET_GO, ClearTombstones(ALL_OWN), Expect(Place(32, Some((2, 0)))),
        Expect(Place(33, Some((2, 1)))), Expect(Place(34, Some((2, 2)))),
        Expect(Place(35, Some((2, 3)))), KEEP, Insert(50, (1, 0)), Insert(51, (1, 1)),
        Insert(52, (1, 2)), Insert(53, (1, 3)), Insert(54, (1, 0));
    // Its free slots come after those of the head.
    "a block with one live pair stays", 37:
        Mark(&[32, 33, 35]), LET_GO, ClearTombstones(ALL_OWN), KEEP, Insert(50, (1, 1)),
        Insert(51, (1, 2)), Insert(52, (1, 3)), Insert(53, (2, 0)), Insert(54, (2, 1));
};

pub(crate) const SEARCHES: &[Story] = stories! {
    // 263 has the low byte 7, and so has the tombstone.
    "a reinserted key is found after its tombstone", 0:
        Set(Hashes(7, 0)), InsertRange(0..3), Set(Hashes(263, 0)), Set(Epoch(7, Kept::All)),
        Mark(&[0]), Expect(Place(0, None)), Set(Values(0, 99)), Insert(0, (0, 3)),
        Expect(Present(0..1)), Expect(Len(3)), Expect(OwnSlot(3, Some(0))), Set(Values(10, 0)),
        Expect(OwnSlot(0, Some(0)));
    "a bucket of tombstones finds and walks nothing", 37:
        MarkRange(0..37, 0), Expect(Len(0)), Expect(Absent(0..37)), Walk(Next(None, (0, 32)));
};

// The hashes have the low byte 7, and so has the tombstone, or another one. The chain is [40], [36
// to 39], [32 to 35], and the only pair of its head is a tombstone.
macro_rules! seven_marked {
    ($($epoch:literal),+) => {
        &[$((
            "tombstones are neither found nor walked",
            0,
            &[
                Set(Hashes(263, 0)), Set(Epoch($epoch, Kept::All)), InsertRange(0..41),
                Mark(&[0, 5, 31, 32, 35, 38, 40]), Expect(Len(34)), Expect(Absent(0..1)),
                Expect(Present(1..5)), Expect(Absent(5..6)), Expect(Present(6..31)),
                Expect(Absent(31..33)), Expect(Present(33..35)), Expect(Absent(35..36)),
                Expect(Present(36..38)), Expect(Absent(38..39)), Expect(Present(39..40)),
                Expect(Absent(40..41)), Walk(KeyRange(1..5)), Walk(KeyRange(6..31)),
                Walk(Keys(&[36, 37, 39, 33, 34])), Walk(Next(None, (0, 32))),
                Walk(Next(Some(1), (0, 1))),
            ],
        )),+]
    };
}

pub(crate) const SEVEN_MARKED: &[Story] = seven_marked!(7, 0, 6, 255);

// Each slot has an epoch of its own, from a multiple of 32 on. The occupied slots are the sum of
// 2^i over each i below 32 that leaves the remainder, since the divisors divide 32.
macro_rules! by_rest {
    ($($first:literal, $divisor:literal, $rest:literal => $left:literal);+) => {
        &[$((
            "tombstones whose epochs have the remainder stay",
            32,
            &[
                Set(Epoch($first, Kept::All)), MarkRange(0..32, 1), Expect(Len(0)),
                Set(Epoch(0, Kept::Rest($divisor, $rest))), ClearTombstones($left), Expect(Len(0)),
            ],
        )),+]
    };
}

pub(crate) const BY_REST: &[Story] = by_rest! {
    0, 1, 0 => 4294967295; 0, 2, 0 => 1431655765; 96, 2, 1 => 2863311530; 128, 16, 0 => 65537;
    192, 32, 31 => 2147483648; 224, 2, 1 => 2863311530; 224, 32, 31 => 2147483648;
    32, 32, 32 => 0; 224, 1, 0 => 4294967295
};

// Every slot is occupied then, by the inserted pair and by 31 tombstones.
macro_rules! gone {
    ($($gone:literal),+) => {
        &[$((
            "an insertion takes the one slot whose tombstone is dropped",
            32,
            &[
                Set(Epoch($gone / 32 * 32, Kept::All)), MarkRange(0..32, 1), Expect(Len(0)),
                Set(Epoch(0, Kept::But($gone))), Insert(40, (0, $gone % 32)), Expect(Len(1)),
                ClearTombstones(ALL_OWN),
            ],
        )),+]
    };
}

pub(crate) const GONE: &[Story] = gone!(0, 1, 31, 32, 77, 100, 127, 128, 200, 254, 255);

// Of 64 keys in a bucket of 32 own slots and eight blocks, those with an odd epoch are dropped. The
// next pairs take the slots with an odd number, first the bucket's own ones.
macro_rules! odd_epochs {
    ($($first:literal),+) => {
        &[$((
            "tombstones in the chain are dropped like those in own slots",
            64,
            &[
                Set(Epoch($first, Kept::All)), MarkRange(0..64, 1), Expect(Len(0)),
                Set(Epoch(0, Kept::Rest(2, 0))), ClearTombstones(1431655765), Insert(70, (0, 1)),
                Insert(71, (0, 3)), Insert(72, (0, 5)), Insert(73, (0, 7)), Insert(74, (0, 9)),
                Insert(75, (0, 11)), Insert(76, (0, 13)), Insert(77, (0, 15)), Insert(78, (0, 17)),
                Insert(79, (0, 19)), Insert(80, (0, 21)), Insert(81, (0, 23)), Insert(82, (0, 25)),
                Insert(83, (0, 27)), Insert(84, (0, 29)), Insert(85, (0, 31)), Insert(100, (1, 1)),
                Insert(101, (1, 3)), Insert(102, (2, 1)), Insert(103, (2, 3)), Insert(104, (3, 1)),
                Insert(105, (3, 3)), Insert(106, (4, 1)), Insert(107, (4, 3)), Insert(108, (5, 1)),
                Insert(109, (5, 3)), Insert(110, (6, 1)), Insert(111, (6, 3)), Insert(112, (7, 1)),
                Insert(113, (7, 3)), Insert(114, (8, 1)), Insert(115, (8, 3)), Expect(Len(32)),
            ],
        )),+]
    };
}

pub(crate) const ODD_EPOCHS: &[Story] = odd_epochs!(0, 64, 128, 192);
