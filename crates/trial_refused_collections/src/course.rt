//! A collection and its expected contents, and calls on both. Phases in which the collection grows
//! and phases in which it shrinks alternate, so that it gets longer arrays and shorter ones again.
mod copying;
mod extending;
mod resizing;

use crate::collection::Collection;
use collections::hash_map::NotInserted;
use std::mem;
use test_helpers::{Chance, FewKeys, KEYS, KeyCall, gather, is_growing, spread};

// How many calls a phase has.
const PHASE: u64 = 4000;

// After how many calls the whole collection is compared and copied, and one call is made on all of
// it.
const WHOLE: u64 = 250;

/// How often a pair was put, failed to be put, and was evicted, and how often the collection was
/// copied, and failed to be copied.
#[derive(Clone, Copy)]
pub(crate) struct Counts {
    pub(crate) put: u64,
    pub(crate) refused: u64,
    pub(crate) gone: u64,
    pub(crate) copied: u64,
    pub(crate) uncopied: u64,
}

/// A collection, its expected contents, and what became of the calls so far.
#[derive(Drop)]
pub(crate) struct Course {
    collection: Collection,
    beside: FewKeys,
    chance: Chance,
    counts: Counts,
}

impl Course {
    /// Returns the state of a collection without pairs.
    pub(crate) fn new(collection: Collection) -> Self {
        Course {
            collection,
            beside: FewKeys::new(),
            chance: Chance::new(),
            counts: Counts {
                put: 0,
                refused: 0,
                gone: 0,
                copied: 0,
                uncopied: 0,
            },
        }
    }

    /// Returns what became of the calls.
    pub(crate) fn counts(&self) -> Counts {
        self.counts
    }

    /// Makes a number of calls, up to the first with a wrong result. Returns whether there was none
    /// and the collection has the expected pairs.
    pub(crate) fn play(&mut self, calls: u64) -> bool {
        for number in 0..calls {
            if !self.call(is_growing(number, PHASE)) {
                return false;
            }
            if number % WHOLE == 0 && !self.call_whole(number / WHOLE % 2 == 0) {
                return false;
            }
        }
        self.is_same()
    }

    /// Copies the collection and makes a call on all of it, and returns whether the results are
    /// right and the collection has the expected pairs before, between and after.
    fn call_whole(&mut self, cloned: bool) -> bool {
        let is_copied = self.is_same() && self.copy(cloned) && self.is_same();
        is_copied && self.call_on_all() && self.is_same()
    }

    /// Makes a call by key, in a phase in which the collection grows or shrinks. Returns whether
    /// its result is right.
    fn call(&mut self, grows: bool) -> bool {
        let number = self.chance.next() % KEYS;
        let has_values = !matches!(self.collection, Collection::Set(_));
        let value = self.chance.next().wrapping_mul(u64::from(has_values));
        match self.chance.key_call(grows) {
            KeyCall::Insert => self.insert(number, value),
            KeyCall::Upsert => self.upsert(number, value),
            KeyCall::Remove => self.remove(number),
            KeyCall::Update => self.update(number, value),
            KeyCall::Get => self.collection.value(spread(number)) == self.beside.value(number),
        }
    }

    /// Inserts a pair.
    fn insert(&mut self, number: u64, value: u64) -> bool {
        let key = spread(number);
        let is_there = self.beside.value(number).is_some();
        match self.collection.insert(key, value) {
            Ok(gone) => {
                let is_right = !is_there && self.goes(gone);
                self.puts(number, value);
                is_right
            }
            Err(NotInserted::Present(own, back)) => is_there && (own, back) == (key, value),
            Err(NotInserted::Memory(own, back)) => {
                self.counts.refused = self.counts.refused.saturating_add(1);
                !is_there && (own, back) == (key, value)
            }
        }
    }

    /// Records the evicted pair, and returns whether it was present.
    fn goes(&mut self, gone: Option<(u64, u64)>) -> bool {
        let Some((key, value)) = gone else {
            return true;
        };
        let number = gather(key);
        let was_there = self.beside.value(number) == Some(value);
        self.beside.set(number, None);
        self.counts.gone = self.counts.gone.saturating_add(1);
        was_there
    }

    /// Upserts a pair in a map; inserts a pair into another collection.
    fn upsert(&mut self, number: u64, value: u64) -> bool {
        let key = spread(number);
        let wanted = self.beside.value(number);
        let Collection::Map(map) = &mut self.collection else {
            return self.insert(number, value);
        };
        match map.upsert(key, value) {
            Ok(None) => {
                self.puts(number, value);
                wanted.is_none()
            }
            Ok(earlier) => {
                self.beside.set(number, Some(value));
                earlier == wanted
            }
            Err(back) => {
                self.counts.refused = self.counts.refused.saturating_add(1);
                wanted.is_none() && back.value == (key, value)
            }
        }
    }

    /// Records an inserted pair.
    fn puts(&mut self, number: u64, value: u64) {
        self.beside.set(number, Some(value));
        self.counts.put = self.counts.put.saturating_add(1);
    }

    /// Removes a pair.
    fn remove(&mut self, number: u64) -> bool {
        let key = spread(number);
        let wanted = self.beside.value(number).map(|value| (key, value));
        self.beside.set(number, None);
        self.collection.remove(key) == wanted
    }

    /// Replaces the value of a map's key, touches a cache's pair, or looks the key up.
    fn update(&mut self, number: u64, value: u64) -> bool {
        let key = spread(number);
        let wanted = self.beside.value(number);
        match &mut self.collection {
            Collection::Map(map) => {
                self.beside.set(number, wanted.map(|_| value));
                let found = map.update(&key, |own: &u64, earlier: &mut u64| {
                    (*own, mem::replace(earlier, value))
                });
                found == wanted.map(|earlier| (key, earlier))
            }
            Collection::Cache(cache) => cache.get(&key).copied() == wanted,
            other => other.value(key) == wanted,
        }
    }

    /// Clears the collection, raises the minimum, makes room, extends it, resizes a cache, or frees
    /// slots.
    fn call_on_all(&mut self) -> bool {
        match self.chance.next() % 8 {
            0 => {
                self.beside = FewKeys::new();
                self.collection.clear()
            }
            1..=2 => self.collection.raise_minimum(256),
            3 => self.collection.try_reserve(256),
            4..=5 => self.extend(),
            6 => self.resize(),
            _ => self.collection.shrink_to_fit(),
        }
    }

    /// Returns whether the collection has exactly the expected pairs.
    fn is_same(&self) -> bool {
        self.agrees_with(&self.collection)
    }

    /// Returns whether a collection has exactly the pairs that this one is expected to have.
    fn agrees_with(&self, collection: &Collection) -> bool {
        for number in 0..KEYS {
            if collection.value(spread(number)) != self.beside.value(number) {
                return false;
            }
        }
        collection.lens() == (self.beside.len(), self.beside.len())
    }
}
