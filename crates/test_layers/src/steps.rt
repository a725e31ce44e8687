//! Steps on a bucket: calls with their answers. A story is a list of steps, and a stage plays it.
use bucket_slots::bucket::Generation;
use std::ops::Range;

/// A place: a block's number and a position in it.
pub(crate) type Spot = (usize, usize);

/// A name, how many keys from 0 on the bucket has at the start, and what happens then.
pub(crate) type Story = (&'static str, u64, &'static [Step]);

/// Stories whose steps may share a line: `"name", keys: step, step, ..;`.
macro_rules! stories {
    ($($story:literal, $keys:literal: $($step:expr),+;)+) => {
        &[$(($story, $keys, &[$($step),+])),+]
    };
}

pub(crate) use stories;

/// Which tombstones are kept.
#[derive(Drop)]
pub(crate) enum Kept {
    /// Every tombstone.
    All,
    /// No tombstone.
    None,
    /// Those that leave this remainder when divided by the divisor.
    Rest(u8, u8),
    /// All but one.
    But(u8),
}

impl Kept {
    /// Whether the tombstone is kept.
    pub(crate) fn keeps(&self, mark: u8) -> bool {
        match *self {
            Kept::All => true,
            Kept::None => false,
            Kept::Rest(divisor, rest) => divisor != 0 && mark % divisor == rest,
            Kept::But(gone) => mark != gone,
        }
    }
}

/// A setting for the steps that follow, a call with its expected answer, or an expectation.
#[derive(Drop)]
pub(crate) enum Step {
    Set(Set),
    /// Swap the bucket and the other one.
    Swap,
    /// Insert keys, each adding one pair.
    InsertRange(Range<u64>),
    /// Insert keys, and touch each.
    InsertAndTouch(Range<u64>),
    /// Insert a key, which is then in this place.
    Insert(u64, Spot),
    /// Insert a key as the oldest. It is then in this place.
    InsertOldest(u64, Spot),
    /// Move a key from the other bucket, where it is no longer found. It is in this place now.
    Move(u64, Option<Spot>),
    /// Reserve this many free slots.
    Reserve(usize),
    /// Remove keys with their values.
    RemoveRange(Range<u64>),
    /// Remove a key with its value, which leaves the walk's pointer in this place; or the key is
    /// absent.
    Remove(u64, Option<Spot>),
    /// Write a key's value: this was the earlier one.
    Write(u64, u64, Option<u64>),
    /// Touch a key: whether it is present.
    Touch(u64, bool),
    /// Evict a pair, which has this key and its value; or none.
    Evict(Option<u64>),
    /// Take the LRU order: these own slots are listed, newest first. After that, none is.
    TakeOrder(&'static [u8]),
    /// Mark the pairs of these keys as removed. They can't be marked again.
    Mark(&'static [u64]),
    /// Mark the pairs of keys as removed, and raise the epoch by a number after each.
    MarkRange(Range<u64>, u8),
    /// Drop the tombstones that aren't kept: these own slots are occupied then.
    ClearTombstones(u32),
    /// Kill the bucket, if it has no pair and isn't killed.
    Kill(bool),
    Walk(Walk),
    Expect(Expect),
}

/// A setting from here on.
#[derive(Drop)]
pub(crate) enum Set {
    /// A key's hash: a number, plus the bits of the key under a mask. At first 0.
    Hashes(u64, u64),
    /// A key's value: the key times a number, plus another one. At first it is ten times the key.
    Values(u64, u64),
    /// The epoch, and which tombstones are kept. At first it is 0, and all are.
    Epoch(u8, Kept),
}

/// Steps of a walk.
#[derive(Drop)]
pub(crate) enum Walk {
    /// The next key, and where the pointer is then.
    Next(Option<u64>, Spot),
    /// The next keys.
    Keys(&'static [u64]),
    /// The next keys, one after another.
    KeyRange(Range<u64>),
}

/// What is expected of the bucket.
#[derive(Drop)]
pub(crate) enum Expect {
    /// All searches find a key with its value, in this place; or none finds it.
    Place(u64, Option<Spot>),
    /// All searches find these keys with their values.
    Present(Range<u64>),
    /// No search finds these keys.
    Absent(Range<u64>),
    /// Keys are found in the own slots of their numbers.
    InOwnSlots(Range<u64>),
    /// An own slot has this key, live or a tombstone, with its value, or none.
    OwnSlot(usize, Option<u64>),
    /// These own slots have no key.
    FreeSlots(Range<usize>),
    /// The pair that was moved last from the other bucket was in that place.
    MovedFrom(Spot),
    /// The keys that `for_each` visits, in its order.
    Each(&'static [u64]),
    /// How many live pairs there are.
    Len(usize),
    /// How many there are in each of both buckets.
    Lens(usize, usize),
    /// Whether the bucket is killed.
    Killed(bool),
}

/// One epoch, and whether each tombstone is kept.
#[derive(Drop)]
pub(crate) struct Answers {
    /// The byte that a tombstone gets now.
    pub(crate) epoch: u8,
    /// Whether a tombstone is kept, for each of the 256.
    pub(crate) kept: [bool; 256],
}

impl Generation for Answers {
    ghost use Rattle.std.specs.Prelude.{slice_index_or, false};

    ghost epoch_of = { λ answers. answers.epoch };

    ghost keeps = { λ answers mark. slice_index_or answers.kept mark false };

    fn epoch(&self) -> u8 {
        self.epoch
    }

    fn same(&self, mark: u8) -> bool {
        self.kept[mark as usize]
    }
}

impl Answers {
    /// Asks the rule for each tombstone.
    pub(crate) fn new(epoch: u8, rule: &Kept) -> Self {
        let mut kept = [false; 256];
        for mark in 0..=255u8 {
            kept[mark as usize] = rule.keeps(mark);
        }
        Answers { epoch, kept }
    }
}
