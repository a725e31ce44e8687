//! Keys that are equal and not the same: the key that was inserted first stays, and is the one that
//! is returned.
ghost use Rattle.std.specs.Prelude.{◌==◌, refl};
ghost use Rattle.std.specs.Cmp.Rules.{comparing};
ghost use Rattle.std.proofs.Common.{arith, rules};

use super::check_same;
use OnMap::*;
use OnSet::*;
use Step::*;
use bucket_table::key_hash::KeyHash;
use collections::hash_map::{HashMap, NotInserted};
use collections::hash_set::HashSet;
use std::process::Abort;
use std::test::Fail;
use test_helpers::{At, steps};

/// A number that is compared, and a tag that isn't.
#[derive(Clone, Copy, Debug)]
struct Tagged {
    number: u64,
    tag: u64,
}

impl PartialEq for Tagged {
    ghost eq = { λ key other. (key.number == other.number) };

    ghost laws = { Prim.search (comparing, rules) };

    fn eq(&self, other: &Tagged) -> bool {
        self.number == other.number
    }
}

impl Eq for Tagged {
    ghost laws = { Prim.search (comparing, rules) };
}

/// One hash for each key.
#[derive(Drop)]
struct OneHash;

impl KeyHash<Tagged> for OneHash {
    ghost hash_of = { λ hasher key. 7 };

    fn hash_one(&self, _key: &Tagged) -> u64 {
        7
    }

    ghost fits = { λ hasher key. omega arith };

    ghost alike = { λ hasher key other same. refl };
}

const FIRST: Tagged = Tagged { number: 1, tag: 1 };

const SECOND: Tagged = Tagged { number: 1, tag: 2 };

type Map = HashMap<Tagged, u64, OneHash>;

type Set = HashSet<Tagged, OneHash>;

/// A call on a map or a set, with the tag of the key that is returned, or that is present.
enum Step {
    OnMap(OnMap),
    OnSet(OnSet),
}

enum OnMap {
    /// Insert a pair.
    InsertPair(Tagged, u64, Option<u64>),
    /// Insert a value or write it: this was the earlier one.
    Upsert(Tagged, u64, Option<u64>),
    /// Update the pair.
    Update(Tagged, Option<u64>),
    /// Remove the pair, which has this tag and this value.
    RemovePair(Tagged, Option<(u64, u64)>),
}

enum OnSet {
    /// Insert a key by `insert_new`.
    InsertNew(Tagged, Option<u64>),
    /// Insert a key by `insert`: whether no equal one was present.
    Insert(Tagged, bool),
    /// Put a key in the place of its equal.
    Replace(Tagged, Option<u64>),
    /// Look up the key that the set has.
    Get(Tagged, Option<u64>),
    /// Remove the key.
    Take(Tagged, Option<u64>),
    /// Expect this many keys.
    ExpectLen(usize),
}

/// What happens on a new map and a new set.
type Story = (&'static str, &'static [Step]);

const STORIES: &[Story] = steps! {
    ("a map keeps the first of equal keys", steps! {
        OnMap(InsertPair(FIRST, 10, None)), OnMap(InsertPair(SECOND, 11, Some(2))),
        OnMap(Upsert(SECOND, 12, Some(10))), OnMap(Update(SECOND, Some(1))),
        OnMap(RemovePair(SECOND, Some((1, 12)))) }),
    ("a set keeps the first of equal keys", steps! {
        OnSet(InsertNew(FIRST, None)), OnSet(InsertNew(SECOND, Some(2))),
        OnSet(Take(SECOND, Some(1))) }),
    ("replace stores the last of equal keys", steps! {
        OnSet(Get(FIRST, None)), OnSet(Insert(FIRST, true)), OnSet(Get(FIRST, Some(1))),
        OnSet(Replace(FIRST, Some(1))), OnSet(Get(FIRST, Some(1))), OnSet(Get(SECOND, Some(1))),
        OnSet(Insert(SECOND, false)), OnSet(Get(SECOND, Some(1))), OnSet(Replace(SECOND, Some(1))),
        OnSet(Get(SECOND, Some(2))), OnSet(ExpectLen(1)) })
};

#[test]
fn of_equal_keys_the_first_stays(rt: HostRuntime) -> Result<(), Fail> {
    for (name, steps) in STORIES {
        let mut map: Map = HashMap::with_hasher(rt.alloc(), OneHash);
        let mut set: Set = HashSet::with_hasher(rt.alloc(), OneHash);
        for (row, step) in steps.iter().enumerate() {
            match step {
                OnMap(call) => call_map(&rt, &mut map, (*name, row), call),
                OnSet(call) => call_set(&rt, &mut set, (*name, row), call),
            }
        }
    }
    Ok(())
}

// Makes a call on the map, and checks its result.
fn call_map(rt: &impl Abort, map: &mut Map, at: At, call: &OnMap) {
    match *call {
        InsertPair(key, value, back) => {
            check_same(rt, returned(map.insert(key, value)), Some(back), at);
        }
        Upsert(key, value, earlier) => {
            check_same(rt, map.upsert(key, value).ok(), Some(earlier), at);
        }
        Update(key, tag) => check_same(rt, map.update(&key, own_tag), tag, at),
        RemovePair(key, pair) => {
            let found = match map.remove(&key) {
                Some((own, value)) => Some((own.tag, value)),
                None => None,
            };
            check_same(rt, found, pair, at);
        }
    }
}

// Makes a call on the set, and checks its result.
fn call_set(rt: &impl Abort, set: &mut Set, at: At, call: &OnSet) {
    match *call {
        InsertNew(key, back) => check_same(rt, returned(set.insert_new(key)), Some(back), at),
        Insert(key, added) => check_same(rt, set.insert(key).ok(), Some(added), at),
        Replace(key, tag) => check_same(rt, tag_in(set.replace(key).ok().flatten()), tag, at),
        Get(key, tag) => check_same(rt, tag_in(set.get(&key).copied()), tag, at),
        Take(key, tag) => check_same(rt, tag_in(set.take(&key)), tag, at),
        ExpectLen(keys) => check_same(rt, set.len(), keys, at),
    }
}

// The tag of a key that is returned because an equal one is present, or none if the key was
// inserted.
fn returned<V: Drop>(outcome: Result<(), NotInserted<Tagged, V>>) -> Option<Option<u64>> {
    match outcome {
        Ok(()) => Some(None),
        Err(NotInserted::Present(key, _)) => Some(Some(key.tag)),
        Err(NotInserted::Memory(_, _)) => None,
    }
}

// The tag of a key that is present.
fn own_tag(own: &Tagged, _value: &mut u64) -> u64 {
    own.tag
}

// The tag of a key, if there is one.
fn tag_in(key: Option<Tagged>) -> Option<u64> {
    match key {
        Some(own) => Some(own.tag),
        None => None,
    }
}
