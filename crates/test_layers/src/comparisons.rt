//! Look-ups, and how many keys each compares: by a probe, and by a key in a map and in a bucket.
ghost use Rattle.std.specs.Prelude.{◌==◌};
ghost use Rattle.std.specs.Cmp.Rules.{comparing};
ghost use Rattle.std.proofs.Common.{rules};

use crate::by_lock::{Map, put_at};
use crate::checks::check_same;
use crate::steps::Spot;
use crate::tables::{check_slots, insert_range, new_map};
use Step::*;
use bucket_slots::bucket::{Bucket, EqProbe, MAP};
use bucket_table::hash_table::{HashTable, ResizeRule};
use bucket_table::key_hash::KeyHash;
use bucket_table::script::ScriptHash;
use std::cell::Cell;
use std::ops::Range;
use std::process::Abort;
use test_helpers::{At, steps};

/// A number as a key, whose comparisons are counted.
#[derive(Clone, Copy)]
struct Counted<'c> {
    number: u64,
    compared: &'c Cell<u64>,
}

impl PartialEq for Counted<'_> {
    ghost eq = { λ key other. (key.number == other.number) };

    ghost laws = { Prim.search (comparing, rules) };

    fn eq(&self, other: &Counted<'_>) -> bool {
        self.compared.set(self.compared.get().wrapping_add(1));
        self.number == other.number
    }
}

impl Eq for Counted<'_> {
    ghost laws = { Prim.search (comparing, rules) };
}

impl KeyHash<Counted<'_>> for ScriptHash {
    ghost use Rattle.bucket_table.specs.Scripts.Hashes.{script_hash};
    ghost use Rattle.bucket_table.specs.Scripts.HashLaws.{script_hash_alike, script_hash_fits};

    ghost hash_of = { λ hasher key. script_hash hasher key.number };

    fn hash_one(&self, key: &Counted<'_>) -> u64 {
        self.hash_one(&key.number)
    }

    ghost fits = { λ hasher key. script_hash_fits hasher key.number };

    ghost alike = { λ hasher key other same.
        script_hash_alike hasher key.number other.number same };
}

/// A map and a bucket of the same keys, and how many keys were compared.
#[derive(Drop)]
struct Both<'c> {
    map: HashTable<Counted<'c>, u64, ScriptHash, (), MAP>,
    bucket: Bucket<Counted<'c>, u64, (), MAP>,
    compared: &'c Cell<u64>,
}

/// A call with its expected result, or an expectation.
enum Step {
    /// Insert keys, each as its own value.
    InsertRange(Range<u64>),
    /// Insert a new key. In the test of a table alone, it goes to this place in the writer's
    /// bucket, which has this index.
    Insert(u64, usize, Spot),
    /// Look a key up: whether it is found, and with how many keys it is compared.
    LookUp(u64, bool, u64),
    /// Expect this many slots in the current array, and this rehash word.
    ExpectSlots(usize, Option<usize>),
}

/// What happens on a new map, or on a new map and a new bucket.
struct Story {
    name: &'static str,
    hasher: ScriptHash,
    steps: &'static [Step],
}

// A look-up compares only keys of its fingerprint: those of the own slots in order, then those of
// the chain from its head on, which is the newest block of four. It stops at the first equal key.
const LOOK_UPS: &[Story] = steps! {
    Story { name: "a look-up compares the keys with the fingerprint in two homes",
        hasher: ScriptHash::Spread, steps: steps! {
            InsertRange(0..31), InsertRange(128..159), ExpectSlots(64, None),
            Insert(31, 0, (0, 31)), ExpectSlots(128, Some(0)), LookUp(5, true, 1),
            LookUp(40, false, 0), ExpectSlots(128, Some(0)) } },
    // The newest block of the chain has keys 36 to 39, and comes before that of 32 to 35.
    Story { name: "a look-up compares in slot order", hasher: ScriptHash::Zero, steps: steps! {
        InsertRange(0..40), LookUp(0, true, 1), LookUp(31, true, 32), LookUp(36, true, 33),
        LookUp(39, true, 36), LookUp(32, true, 37), LookUp(35, true, 40), LookUp(99, false, 40) } },
    // Each of 40 fingerprints has two keys. Keys up to 32 are in own slots. Keys 33 to 40 are in
    // the last two blocks of the chain, behind those of the keys from 257 on.
    Story { name: "a look-up compares no key of another fingerprint", hasher: ScriptHash::Id,
        steps: steps! {
            InsertRange(1..41), InsertRange(257..297), ExpectSlots(64, None), LookUp(5, true, 1),
            LookUp(261, true, 2), LookUp(517, false, 2), LookUp(296, true, 1), LookUp(40, true, 2),
            LookUp(552, false, 2), LookUp(0, false, 0), LookUp(41, false, 0) } }
};

#[test]
fn a_probe_compares_up_to_the_first_equal_key(rt: HostRuntime) {
    for story in LOOK_UPS {
        let mut table = new_map(rt.alloc(), story.hasher, 0);
        for (row, step) in story.steps.iter().enumerate() {
            take(&rt, &mut table, (story.name, row), step);
        }
    }
}

// Takes a step on a table, and checks its result.
fn take(rt: &impl Abort, table: &mut Map, at: At, step: &Step) {
    match step {
        InsertRange(keys) => insert_range(rt, table, at, keys),
        Insert(key, index, spot) => {
            check_same(rt, put_at(table, *key, &()), Some((*index, *spot)), at);
        }
        LookUp(key, found, compared) => {
            let mut probe = EqProbe::new(key);
            let there = table.peek_entry_by(table.hash(key), &mut probe).is_some();
            check_same(rt, (there, probe.asked()), (*found, *compared), at);
        }
        ExpectSlots(slots, word) => check_slots(rt, table, at, *slots, *word),
    }
}

#[test]
fn a_key_is_compared_as_often_as_a_probe(rt: HostRuntime) {
    for story in LOOK_UPS {
        let compared = Cell::new(0);
        let mut both = Both {
            map: HashTable::with_hasher(rt.alloc(), story.hasher),
            bucket: Bucket::new(rt.alloc()),
            compared: &compared,
        };
        for (row, step) in story.steps.iter().enumerate() {
            both.take(&rt, (story.name, row), step);
        }
    }
}

impl<'c> Both<'c> {
    // Takes a step, and checks its result.
    fn take(&mut self, rt: &impl Abort, at: At, step: &Step) {
        match step {
            InsertRange(numbers) => {
                for number in numbers.start..numbers.end {
                    check_same(rt, self.put(number), true, (at, "insert range", number));
                }
            }
            Insert(number, _, _) => {
                check_same(rt, self.put(*number), true, (at, "insert", *number));
            }
            LookUp(number, found, compared) => {
                let answers = [(*found, *compared); 4];
                check_same(rt, self.look_up(*number), answers, (at, "look up", *number));
            }
            ExpectSlots(slots, word) => {
                let found = (self.map.num_slots(), self.map.rehashing_metadata());
                check_same(rt, found, (*slots, *word), (at, "slots"));
            }
        }
    }

    fn key(&self, number: u64) -> Counted<'c> {
        Counted {
            number,
            compared: self.compared,
        }
    }

    // Puts a key into the map and into the bucket, and returns whether there was memory for both.
    fn put(&mut self, number: u64) -> bool {
        let key = self.key(number);
        let hash = self.map.hash(&key);
        self.bucket.insert(hash, (key, number), &()).is_ok()
            && self
                .map
                .insert_pair(key, number, &(), ResizeRule::Sampled)
                .is_ok()
    }

    // Whether each look-up by a key finds it, and how many keys it compares.
    fn look_up(&self, number: u64) -> [(bool, u64); 4] {
        let key = self.key(number);
        let hash = self.map.hash(&key);
        self.compared.set(0);
        [
            self.counted(self.map.peek_entry(&key).is_some()),
            self.counted(self.bucket.search_entry(&key, hash).is_some()),
            self.counted(self.bucket.peek_entry(&key, hash).is_some()),
            self.counted(self.bucket.get_entry_ptr(&key, hash).is_valid()),
        ]
    }

    // The answer of a look-up, and how many keys it compared. Resets the count for the next one.
    fn counted(&self, found: bool) -> (bool, u64) {
        (found, self.compared.replace(0))
    }
}
