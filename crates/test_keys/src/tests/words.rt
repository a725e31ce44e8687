//! Words that are looked up by texts, and lists by slices, in collections that name no hasher; and
//! the errors that return a word.
use super::check_same;
use super::forms::{Words, no_words, owned, put};
use Step::*;
use collections::hash_map::{HashMap, NotInserted};
use collections::hash_set::HashSet;
use std::alloc::{AllocError, Global};
use std::error::Error;
use std::io::{self, ErrorKind};
use std::process::Abort;
use std::test::Fail;
use test_helpers::{At, steps};

/// A call on a collection of each kind, with the result of a look-up by a text.
enum Step {
    /// Insert a word with a number.
    Insert(&'static str, u64),
    /// Find the number of a word.
    Find(&'static str, Option<u64>),
}

const STEPS: &[Step] = steps! {
    Find("Ann", None), Find("", None), Insert("Ann", 1), Find("Ann", Some(1)), Find("An", None),
    Find("ann", None), Find("Anna", None), Find("", None), Insert("", 2), Find("", Some(2)),
    Insert("Bob", 3), Find("Bob", Some(3)), Find("Ann", Some(1)), Find("bo", None)
};

#[test]
fn words_are_looked_up_by_texts(rt: HostRuntime) -> Result<(), Fail> {
    let mut words = no_words(rt.alloc());
    play(&rt, rt.alloc(), &mut words);
    check_keys(&rt, rt.alloc(), &words)?;
    Ok(())
}

// Takes the steps.
fn play(rt: &impl Abort, alloc: Global, words: &mut Words) {
    for (row, step) in STEPS.iter().enumerate() {
        take(rt, alloc, words, ("words", row), step);
    }
}

// The words that a map has, in order.
fn check_keys(rt: &impl Abort, alloc: Global, words: &Words) -> Result<(), AllocError> {
    let mut met: Vec<&String> = words.map.keys().collect(alloc)?;
    met.sort()?;
    let shown = format!(in alloc; "{met:?}")?;
    check_same(rt, shown.as_str(), "[\"\", \"Ann\", \"Bob\"]", "keys");
    Ok(())
}

// Takes a step, and checks what is found.
fn take(rt: &impl Abort, alloc: Global, words: &mut Words, at: At, step: &Step) {
    match *step {
        Insert(word, number) => check_same(rt, put(alloc, words, word, number), true, at),
        Find(word, number) => {
            let found = (number, number.is_some());
            check_same(rt, by_text(words, word), (found, found, found), at);
            check_same(rt, words.set.contains(word), number.is_some(), (at, "set"));
            check_same(rt, by_key(words, &owned(alloc, word)), found, (at, "key"));
        }
    }
}

/// The number of a word, and whether the word is present.
type Found = (Option<u64>, bool);

// What is found by a text in the map, the index and the cache.
fn by_text(words: &Words, word: &str) -> (Found, Found, Found) {
    (
        (words.map.get(word).copied(), words.map.contains(word)),
        (words.index.peek(word).copied(), words.index.contains(word)),
        (words.cache.peek(word).copied(), words.cache.contains(word)),
    )
}

// What is found by a word in the map.
fn by_key(words: &Words, key: &String) -> Found {
    (words.map.get(key).copied(), words.map.contains(key))
}

const LISTS: [&[u64]; 4] = [&[], &[1], &[1, 2], &[2, 1]];

#[test]
fn lists_are_looked_up_by_slices(rt: HostRuntime) -> Result<(), Fail> {
    let mut lists = HashSet::new(rt.alloc());
    for (row, list) in LISTS.iter().enumerate() {
        check_same(
            &rt,
            insert_list(rt.alloc(), &mut lists, list),
            (false, true, true),
            row,
        );
    }
    Ok(())
}

// Inserts a list. Returns whether it was present before, was inserted, and is present then.
fn insert_list(alloc: Global, lists: &mut HashSet<Vec<u64>>, list: &[u64]) -> (bool, bool, bool) {
    let was_there = lists.contains(list);
    let came = match Vec::from_slice(alloc, list) {
        Ok(own) => lists.insert_new(own).is_ok(),
        Err(_) => false,
    };
    (was_there, came, lists.contains(list))
}

#[test]
fn refusals_are_errors_and_give_the_pair(rt: HostRuntime) -> Result<(), Fail> {
    check_refusal(
        &rt,
        rt.alloc(),
        NotInserted::Present("Ann", 1),
        "the key is already present",
    )?;
    check_refusal(
        &rt,
        rt.alloc(),
        NotInserted::Memory("Ann", 1),
        "out of memory",
    )?;
    check_insertions(&rt, rt.alloc());
    Ok(())
}

#[test]
fn a_new_map_and_a_new_set_take_words(rt: HostRuntime) -> Result<(), Fail> {
    check_map(&rt, &mut HashMap::new(rt.alloc()));
    check_set(&rt, &mut HashSet::new(rt.alloc()));
    Ok(())
}

// An insertion's error as text, and the pair that it returns.
fn check_refusal(
    rt: &impl Abort,
    alloc: Global,
    refusal: NotInserted<&'static str, u64>,
    text: &'static str,
) -> Result<(), AllocError> {
    let shown = shown(alloc, &refusal)?;
    check_same(rt, shown.as_str(), text, "shown");
    check_same(rt, refusal.into_pair(), ("Ann", 1), text);
    Ok(())
}

// An error as text.
fn shown<E: Error>(alloc: Global, error: &E) -> Result<String, AllocError> {
    format!(in alloc; "{error}")
}

// Checks the error's kind: none for a new word, another if it is present or allocation fails.
fn check_insertions(rt: &impl Abort, alloc: Global) {
    let mut words = HashMap::new(alloc);
    check_same(rt, kind(words.insert("Ann", 1)), None, "inserted");
    let there = Some(ErrorKind::AlreadyExists);
    check_same(rt, kind(words.insert("Ann", 1)), there, "present");
    let refused = Some(ErrorKind::OutOfMemory);
    check_same(
        rt,
        kind(Err(NotInserted::Memory("Ann", 1))),
        refused,
        "no memory",
    );
}

// The kind of the error that `?` makes of an insertion's error.
fn kind(outcome: Result<(), NotInserted<&'static str, u64>>) -> Option<ErrorKind> {
    match passed_on(outcome) {
        Ok(()) => None,
        Err(why) => Some(why.kind()),
    }
}

fn passed_on(outcome: Result<(), NotInserted<&'static str, u64>>) -> io::Result<()> {
    outcome?;
    Ok(())
}

// A new map takes words.
fn check_map(rt: &impl Abort, words: &mut HashMap<&'static str, u64>) {
    check_same(rt, (words.len(), words.capacity()), (0, 0), "new");
    let came = (words.insert("a", 1).is_ok(), words.insert("b", 2).is_ok());
    check_same(rt, came, (true, true), "insert");
    let found = (words.get(&"a").copied(), words.get(&"c").copied());
    check_same(rt, found, (Some(1), None), "get");
    check_same(rt, words.remove(&"b"), Some(("b", 2)), "remove");
}

// A new set takes words.
fn check_set(rt: &impl Abort, words: &mut HashSet<&'static str>) {
    check_same(rt, (words.len(), words.capacity()), (0, 0), "new");
    let came = words.insert_new("a").is_ok();
    let found = (came, words.contains(&"a"), words.contains(&"b"));
    check_same(rt, found, (true, true, false), "contains");
}
