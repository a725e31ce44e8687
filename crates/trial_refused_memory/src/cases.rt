//! The cases of calls on tables, each with the effect of an allocation failure.
use crate::by_call::Lent;
use crate::outcome::Outcome;
use bucket_table::script::ScriptHash;
use std::ops::Range;

/// What happens to a new map.
pub(crate) struct Case {
    pub(crate) hasher: ScriptHash,
    /// How the table is made. An allocation failure here ends the case.
    pub(crate) start: &'static [Step],
    /// The calls under test.
    pub(crate) steps: &'static [Step],
    /// The effect of a failure of any of their allocations on the case.
    pub(crate) refused: Outcome,
}

/// Slots of the current array, and the rehash word.
pub(crate) type Seen = (usize, Option<usize>);

/// A call or several, or what is seen of the table.
pub(crate) enum Step {
    /// Insert keys, each as its own value.
    InsertRange(Range<u64>),
    /// Remove keys.
    RemoveRange(Range<u64>),
    Call(Call),
    Expect(Expect),
}

/// A call on the table.
#[derive(Drop)]
pub(crate) enum Call {
    /// Insert a new key as its own value.
    Insert(u64),
    /// Remove a key.
    Remove(u64),
    /// Run a script, which inserts a new key, reads it and removes it.
    RunScript(u64),
    /// Raise the minimum capacity, which never fails.
    RaiseMinimum(usize),
    /// Issue this ticket, which never fails.
    IssueTicket(usize),
    /// Get the present array, or make one: it has that many buckets.
    MakeArray(usize),
    /// Lock the writer's bucket of a hash, which has this index.
    LockBucket(u64, usize),
    /// The same under the other name of the call.
    ReserveBucket(u64, usize),
    /// Request a resize: whether it happens.
    TryResize(bool),
    /// Double the slots if the home of a hash is overfull: whether it is.
    GrowIfOverfull(u64, bool),
    /// Find a key, which never fails.
    Read(u64),
    /// Replace the value of a key, which never fails.
    Write(u64),
    /// Relocate an old bucket, which has that many pairs.
    Relocate(usize, usize),
    /// Finish the rehash: that many units are left.
    Finish(usize),
    /// Lend that much in a reading walk, and that much before an allocation failure.
    WalkReading(Lent, Lent),
    /// The same in a writing walk.
    WalkWriting(Lent, Lent),
    /// Follow a cursor, which finds these keys.
    FollowCursor(u64, u64),
    /// Remove the keys below the first, and before an allocation failure those below the second.
    Sweep(u64, u64),
}

/// What is expected of the table.
pub(crate) enum Expect {
    /// The expected observation.
    Slots(Seen),
    /// The expected observation after a resize, and if one of its allocations failed.
    Resized(Seen, Seen),
    /// The expected observation after a unit, and if its allocation failed.
    Worked(Seen, Seen),
    /// A key is in an own slot of a bucket, in the array that was current when it was inserted.
    InOwnSlot(u64, usize, usize),
    /// An old bucket is killed, if there is still an old array.
    Killed(usize),
    /// An old bucket is killed. If making room failed, it has that many pairs.
    Moved(usize, usize),
}

use Call::*;
use Expect::*;
use Step::*;

// A bucket of 40 pairs moves from an array of two buckets to one of 128. For that the table counts,
// in a list, the pairs that move to each target.
const FORTY_IN_ONE: &[Step] = &[
    Call(RaiseMinimum(1)),
    InsertRange(128..168),
    Call(RaiseMinimum(4095)),
    Expect(Resized((4096, Some(0)), (64, None))),
];

// An array of 16 buckets has shrunk to four, and its only unit is issued. Old buckets 8 to 10 have
// keys 128 to 167, which all move to bucket 2: 32 to its own slots, so that bucket 10 needs room
// first.
const THREE_TO_ONE: &[Step] = &[
    Call(RaiseMinimum(1)),
    InsertRange(128..228),
    InsertRange(0..32),
    Expect(Resized((512, Some(0)), (64, None))),
    RemoveRange(192..228),
    RemoveRange(168..192),
    RemoveRange(0..16),
    RemoveRange(16..32),
    Expect(Resized((128, Some(0)), (512, None))),
    Call(IssueTicket(0)),
    Expect(Slots((128, Some(2049)))),
];

// The same with a key in bucket 0.
const FIVE_BEFORE_THREE: &[Step] = &[
    Call(RaiseMinimum(1)),
    InsertRange(128..228),
    InsertRange(0..32),
    Expect(Resized((512, Some(0)), (64, None))),
    RemoveRange(192..228),
    RemoveRange(168..192),
    RemoveRange(0..5),
    RemoveRange(6..32),
    Expect(Resized((128, Some(0)), (512, None))),
    Call(IssueTicket(0)),
    Expect(Slots((128, Some(2049)))),
];

// The hash of key 160.
const OF_160: u64 = 160 << 56 | 160;

pub(crate) const CASES: [Case; 22] = [
    // The script allocates only its replies.
    Case {
        hasher: ScriptHash::Id,
        start: &[InsertRange(0..3)],
        steps: &[Call(RunScript(3)), Expect(Slots((64, None)))],
        refused: Outcome::AsBefore,
    },
    Case {
        hasher: ScriptHash::Id,
        start: &[],
        steps: &[
            Call(MakeArray(2)),
            Expect(Slots((64, None))),
            Call(MakeArray(2)),
        ],
        refused: Outcome::AsBefore,
    },
    Case {
        hasher: ScriptHash::Id,
        start: &[],
        steps: &[Call(LockBucket(0, 0)), Expect(Slots((64, None)))],
        refused: Outcome::AsBefore,
    },
    Case {
        hasher: ScriptHash::Id,
        start: &[],
        steps: &[Call(ReserveBucket(0, 0)), Expect(Slots((64, None)))],
        refused: Outcome::AsBefore,
    },
    // The pair beyond the own slots needs a block.
    Case {
        hasher: ScriptHash::Zero,
        start: &[InsertRange(0..32)],
        steps: &[Call(Insert(32)), Expect(Slots((64, None)))],
        refused: Outcome::AsBefore,
    },
    // The last put takes the last own slot of the first bucket. All its allocations are those of
    // the doubling that it starts, which is skipped if one fails.
    Case {
        hasher: ScriptHash::Spread,
        start: &[
            InsertRange(0..31),
            InsertRange(128..159),
            Expect(Slots((64, None))),
        ],
        steps: &[
            Call(Insert(31)),
            Expect(Resized((128, Some(0)), (64, None))),
            Expect(InOwnSlot(31, 0, 31)),
        ],
        refused: Outcome::Unresized,
    },
    Case {
        hasher: ScriptHash::Spread,
        start: &[InsertRange(128..228), Expect(Slots((64, None)))],
        steps: &[
            Call(TryResize(true)),
            Expect(Slots((256, Some(0)))),
            Call(TryResize(false)),
        ],
        refused: Outcome::AsBefore,
    },
    // Half of the pairs move to each of two buckets, so that the unit that counts them at last
    // moves them without allocating.
    Case {
        hasher: ScriptHash::Spread,
        start: &[InsertRange(40..88), Expect(Slots((64, None)))],
        steps: &[
            Call(GrowIfOverfull(0, true)),
            Expect(Slots((128, Some(0)))),
            Call(GrowIfOverfull(0, false)),
        ],
        refused: Outcome::AsBefore,
    },
    // The first read allocates only its unit's list. If that fails, the unit isn't finished, and
    // then the bucket itself is moved.
    Case {
        hasher: ScriptHash::Spread,
        start: FORTY_IN_ONE,
        steps: &[
            Call(Read(128)),
            Expect(Worked((4096, None), (4096, Some(0)))),
            Expect(Killed(1)),
            Call(Read(128)),
            Expect(Slots((4096, None))),
        ],
        refused: Outcome::Unmoved,
    },
    Case {
        hasher: ScriptHash::Spread,
        start: FORTY_IN_ONE,
        steps: &[
            Call(Finish(1)),
            Expect(Slots((4096, None))),
            Call(Finish(0)),
        ],
        refused: Outcome::AsBefore,
    },
    Case {
        hasher: ScriptHash::Spread,
        start: FORTY_IN_ONE,
        steps: &[Call(Relocate(1, 40)), Expect(Slots((4096, Some(0))))],
        refused: Outcome::AsBefore,
    },
    // The first read allocates only the blocks of the eight pairs in bucket 10. If that fails, the
    // pairs stay, and the look-up searches both buckets.
    Case {
        hasher: ScriptHash::Spread,
        start: THREE_TO_ONE,
        steps: &[
            Call(Read(160)),
            Expect(Moved(10, 8)),
            Expect(Slots((128, Some(2049)))),
            Call(Read(160)),
            Expect(Killed(10)),
        ],
        refused: Outcome::Unmoved,
    },
    // A replaced value behaves in the same way.
    Case {
        hasher: ScriptHash::Spread,
        start: THREE_TO_ONE,
        steps: &[
            Call(Write(160)),
            Expect(Moved(10, 8)),
            Expect(Slots((128, Some(2049)))),
            Call(Write(160)),
            Expect(Killed(10)),
        ],
        refused: Outcome::Unmoved,
    },
    Case {
        hasher: ScriptHash::Spread,
        start: THREE_TO_ONE,
        steps: &[
            Call(Insert(170)),
            Expect(Killed(10)),
            Expect(Slots((128, Some(2049)))),
        ],
        refused: Outcome::AsBefore,
    },
    Case {
        hasher: ScriptHash::Spread,
        start: THREE_TO_ONE,
        steps: &[
            Call(Remove(160)),
            Expect(Killed(10)),
            Expect(Slots((128, Some(2049)))),
        ],
        refused: Outcome::AsBefore,
    },
    Case {
        hasher: ScriptHash::Spread,
        start: THREE_TO_ONE,
        steps: &[
            Call(LockBucket(OF_160, 2)),
            Expect(Killed(10)),
            Expect(Slots((128, Some(2049)))),
        ],
        refused: Outcome::AsBefore,
    },
    Case {
        hasher: ScriptHash::Spread,
        start: THREE_TO_ONE,
        steps: &[
            Call(ReserveBucket(OF_160, 2)),
            Expect(Killed(10)),
            Expect(Slots((128, Some(2049)))),
        ],
        refused: Outcome::AsBefore,
    },
    Case {
        hasher: ScriptHash::Spread,
        start: THREE_TO_ONE,
        steps: &[
            Call(WalkReading((4, 40), (2, 0))),
            Expect(Killed(10)),
            Expect(Slots((128, Some(2049)))),
        ],
        refused: Outcome::AsBefore,
    },
    Case {
        hasher: ScriptHash::Spread,
        start: THREE_TO_ONE,
        steps: &[
            Call(WalkWriting((4, 40), (2, 0))),
            Expect(Killed(10)),
            Expect(Slots((128, Some(2049)))),
        ],
        refused: Outcome::AsBefore,
    },
    Case {
        hasher: ScriptHash::Spread,
        start: THREE_TO_ONE,
        steps: &[
            Call(FollowCursor(128, 129)),
            Expect(Killed(10)),
            Expect(Slots((128, Some(2049)))),
        ],
        refused: Outcome::AsBefore,
    },
    Case {
        hasher: ScriptHash::Spread,
        start: FIVE_BEFORE_THREE,
        steps: &[
            Call(FollowCursor(5, 128)),
            Expect(Killed(10)),
            Expect(Slots((128, Some(2049)))),
        ],
        refused: Outcome::AsBefore,
    },
    Case {
        hasher: ScriptHash::Spread,
        start: FIVE_BEFORE_THREE,
        steps: &[
            Call(Sweep(136, 128)),
            Expect(Killed(10)),
            Expect(Slots((128, Some(2049)))),
        ],
        refused: Outcome::AsBefore,
    },
];
