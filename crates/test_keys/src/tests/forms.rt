//! Words that are changed and removed by texts, and lists by slices, in a collection of each kind.
use super::check_same;
use Step::*;
use collections::hash_cache::HashCache;
use collections::hash_index::HashIndex;
use collections::hash_map::HashMap;
use collections::hash_set::HashSet;
use std::alloc::Global;
use std::mem;
use std::process::Abort;
use std::test::Fail;
use test_helpers::{At, overwrite, steps};

/// A call on a collection of each kind, and the earlier number.
enum Step {
    /// Insert a word with a number.
    Insert(&'static str, u64),
    /// Find it by `get`.
    Get(&'static str, Option<u64>),
    /// Write another number by `update`.
    Update(&'static str, u64, Option<u64>),
    /// Write another number through `get_mut`.
    WriteByGetMut(&'static str, u64, Option<u64>),
    /// Remove it by `remove_if` if it is even.
    RemoveIfEven(&'static str, Option<u64>),
    /// Remove it.
    Remove(&'static str, Option<u64>),
}

const STEPS: &[Step] = steps! {
    Remove("Ann", None), Update("Ann", 1, None), WriteByGetMut("", 1, None), Insert("Ann", 1),
    Insert("", 2), Insert("Bob", 3), Get("Ann", Some(1)), Update("Ann", 4, Some(1)),
    WriteByGetMut("Ann", 5, Some(4)), WriteByGetMut("An", 6, None), Update("Anna", 6, None),
    Get("Ann", Some(5)), Get("Bob", Some(3)), RemoveIfEven("Ann", None), Remove("ann", None),
    Remove("Ann", Some(5)), Remove("Ann", None), Get("Ann", None), RemoveIfEven("", Some(2)),
    Remove("", None), Get("Bob", Some(3)), Remove("Bob", Some(3)), Insert("Ann", 7),
    Remove("Ann", Some(7))
};

/// A collection of each kind.
#[derive(Drop)]
pub(super) struct Words {
    pub(super) map: HashMap<String, u64>,
    pub(super) set: HashSet<String>,
    pub(super) index: HashIndex<String, u64>,
    pub(super) cache: HashCache<String, u64>,
}

pub(super) fn no_words(alloc: Global) -> Words {
    Words {
        map: HashMap::new(alloc),
        set: HashSet::new(alloc),
        index: HashIndex::new(alloc),
        cache: HashCache::new(alloc),
    }
}

#[test]
fn words_are_changed_and_removed_by_texts(rt: HostRuntime) -> Result<(), Fail> {
    let mut words = no_words(rt.alloc());
    for (row, step) in STEPS.iter().enumerate() {
        take(&rt, rt.alloc(), &mut words, ("words", row), step);
    }
    Ok(())
}

// Takes a step, and checks the earlier number.
fn take(rt: &impl Abort, alloc: Global, words: &mut Words, at: At, step: &Step) {
    match *step {
        Insert(word, number) => check_same(rt, put(alloc, words, word, number), true, at),
        Get(word, number) => {
            check_same(rt, get(words, word), (number, number), (at, "map, cache"));
            let there = (words.set.contains(word), words.index.contains(word));
            let wanted = (number.is_some(), number.is_some());
            check_same(rt, there, wanted, (at, "set, index"));
        }
        Update(word, later, number) => {
            check_same(rt, update(words, word, later), (number, number), at);
        }
        WriteByGetMut(word, later, number) => {
            check_same(rt, write_both(words, word, later), (number, number), at);
        }
        RemoveIfEven(word, number) => {
            let found = number_of(words.map.remove_if(word, is_even));
            check_same(rt, found, number, (at, "map"));
            if number.is_some() {
                remove_elsewhere(rt, words, at, word, number);
            }
        }
        Remove(word, number) => {
            check_same(rt, number_of(words.map.remove(word)), number, (at, "map"));
            remove_elsewhere(rt, words, at, word, number);
        }
    }
}

// A text as an owned word; no text if allocation fails.
pub(super) fn owned(alloc: Global, text: &str) -> String {
    match String::from_str(alloc, text) {
        Ok(own) => own,
        Err(_) => String::new(alloc),
    }
}

// Inserts a word with a number into each collection. Returns whether all insertions succeeded.
pub(super) fn put(alloc: Global, words: &mut Words, word: &str, number: u64) -> bool {
    words.map.insert(owned(alloc, word), number).is_ok()
        && words.set.insert_new(owned(alloc, word)).is_ok()
        && words.index.insert(owned(alloc, word), number).is_ok()
        && words.cache.put(owned(alloc, word), number).is_ok()
}

// The number of a word, in the map and in the cache.
fn get(words: &mut Words, word: &str) -> (Option<u64>, Option<u64>) {
    (words.map.get(word).copied(), words.cache.get(word).copied())
}

fn is_even(_own: &String, number: &u64) -> bool {
    *number % 2 == 0
}

// Updates the number of a word. Returns the earlier ones, of the map and of the cache.
fn update(words: &mut Words, word: &str, later: u64) -> (Option<u64>, Option<u64>) {
    let write = move |_own: &String, held: &mut u64| mem::replace(held, later);
    (
        words.map.update(word, write),
        words.cache.update(word, write),
    )
}

// Replaces the number of a word through `get_mut`. Returns the earlier ones, of the map and of the
// cache.
fn write_both(words: &mut Words, word: &str, later: u64) -> (Option<u64>, Option<u64>) {
    let of_map = overwrite(words.map.get_mut(word), later);
    (of_map, overwrite(words.cache.get_mut(word), later))
}

// Removes a word from the set, the index and the cache.
fn remove_elsewhere(rt: &impl Abort, words: &mut Words, at: At, word: &str, number: Option<u64>) {
    let there = (words.set.remove(word), words.index.remove(word));
    let wanted = (number.is_some(), number.is_some());
    check_same(rt, there, wanted, (at, "set, index"));
    check_same(
        rt,
        number_of(words.cache.remove(word)),
        number,
        (at, "cache"),
    );
}

// The number of a pair that was removed.
fn number_of<K: Drop>(pair: Option<(K, u64)>) -> Option<u64> {
    match pair {
        Some((_own, number)) => Some(number),
        None => None,
    }
}

type Lists = HashMap<Vec<u8>, u64>;

const LISTS: [(&[u8], u64); 4] = [(b"", 0), (b"x", 1), (b"xy", 2), (b"yx", 3)];

#[test]
fn lists_are_changed_and_removed_by_slices(rt: HostRuntime) -> Result<(), Fail> {
    change_lists(&rt, rt.alloc());
    remove_lists(&rt, rt.alloc());
    Ok(())
}

// Changes each list's number in a map, and removes each list twice.
fn change_lists(rt: &impl Abort, alloc: Global) {
    let mut map: Lists = HashMap::new(alloc);
    for (list, number) in LISTS.iter() {
        let _ = map.insert(owned_list(alloc, list), *number);
    }
    for (row, (list, number)) in LISTS.iter().enumerate() {
        check_same(
            rt,
            change_list(&mut map, list),
            (Some(*number), Some(9), None),
            row,
        );
    }
    check_same(rt, map.is_empty(), true, "map");
}

// Removes each list twice from a set.
fn remove_lists(rt: &impl Abort, alloc: Global) {
    let mut set: HashSet<Vec<u8>> = HashSet::new(alloc);
    for (list, _) in LISTS.iter() {
        let _ = set.insert_new(owned_list(alloc, list));
    }
    for (row, (list, _)) in LISTS.iter().enumerate() {
        let found = (set.take(*list).is_some(), set.remove(*list));
        check_same(rt, found, (true, false), row);
    }
    check_same(rt, set.is_empty(), true, "set");
}

// A slice as an owned list; an empty one if allocation fails.
fn owned_list(alloc: Global, list: &[u8]) -> Vec<u8> {
    match Vec::from_slice(alloc, list) {
        Ok(own) => own,
        Err(_) => Vec::new(alloc),
    }
}

// Writes 9 over the number of a list, and removes the list twice. Returns the earlier numbers.
fn change_list(map: &mut Lists, list: &[u8]) -> (Option<u64>, Option<u64>, Option<u64>) {
    let earlier = overwrite(map.get_mut(list), 9);
    (
        earlier,
        number_of(map.remove(list)),
        number_of(map.remove(list)),
    )
}
