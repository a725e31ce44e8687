//! Stories of entries that are looked up by a text: the map makes the word itself if it is absent.
use super::check_same;
use super::forms::owned;
use Expect::*;
use Step::*;
use collections::hash_map::HashMap;
use collections::hash_map::entry::EntryRef;
use collections::{KeyForm, StdHash, ToKey};
use std::alloc::{AllocError, Global};
use std::hash::BuildHasher;
use std::process::Abort;
use std::test::Fail;
use test_helpers::{At, steps};

/// A map from words to numbers.
type Words = HashMap<String, u64>;

/// A text from which no word can be made, as if allocation failed.
#[derive(Clone, Copy)]
struct Unmade {
    text: &'static str,
}

/// It stands for the words that have its bytes.
impl<S: BuildHasher> KeyForm<String, StdHash<S>> for Unmade {
    ghost use Rattle.std.specs.Prelude.{string_bytes};
    ghost use Rattle.std.specs.Str.{bytes_eq};
    ghost use Rattle.std.specs.Cmp.Lexicographic.{nat_list_eq_equiv};

    ghost stands_for = { λ form key. bytes_eq form.text.now (string_bytes key) };

    fn stands_for(&self, key: &String) -> bool {
        self.text == key.as_str()
    }

    fn hash_by(&self, hasher: &StdHash<S>) -> u64 {
        KeyForm::<String, StdHash<S>>::hash_by(&self.text, hasher)
    }

    ghost alike = { λ form key other. nat_list_eq_equiv.congr form.text.now
        (string_bytes key) (string_bytes other) };
}

impl<S: BuildHasher> ToKey<String, StdHash<S>> for Unmade {
    ghost may_lack = { λ form. Unit {0} };

    fn to_key(self, _alloc: Global) -> Result<String, AllocError> {
        Err(AllocError)
    }
}

/// A call on a word's entry, looked up by its text unless stated otherwise, or an expectation.
enum Step {
    /// Insert a number by `or_insert` if the word is absent. Then add one: this is the result.
    OrInsert(&'static str, u64, u64),
    /// The same by another word that is equal.
    OrInsertByEqual(&'static str, u64, u64),
    /// The same by a text from which no word can be made: the number is returned if the word is
    /// absent.
    OrInsertUnmade(&'static str, u64, Result<u64, u64>),
    /// The same by `or_insert_with`, and whether its function was called.
    OrInsertWith(&'static str, u64, (bool, u64)),
    /// The same by `or_default`.
    OrDefault(&'static str, u64),
    /// Insert a number if the entry is vacant: whether it was.
    InsertVacant(&'static str, u64, bool),
    /// Remove the word: its number.
    Remove(&'static str, Option<u64>),
    Expect(Expect),
}

/// What is expected of the map.
enum Expect {
    /// The number of a word.
    Number(&'static str, Option<u64>),
    /// How many words there are.
    Len(usize),
}

const STEPS: &[Step] = steps! {
    OrInsertUnmade("Ann", 3, Err(3)), Expect(Len(0)), OrInsert("Ann", 3, 4), OrInsert("Ann", 3, 5),
    OrInsertUnmade("Ann", 9, Ok(6)), OrInsertUnmade("An", 9, Err(9)), Expect(Len(1)),
    OrInsertWith("Ann", 1, (false, 7)), OrInsertWith("Bob", 1, (true, 2)), OrDefault("", 1),
    OrDefault("", 2), InsertVacant("Bob", 8, false), InsertVacant("An", 8, true), Expect(Len(4)),
    Expect(Number("Ann", Some(7))), Expect(Number("Bob", Some(2))), Expect(Number("", Some(2))),
    Expect(Number("An", Some(8))), OrInsertByEqual("Ann", 9, 8), OrInsertByEqual("ann", 9, 10),
    Expect(Len(5)), Remove("Ann", Some(8)), OrInsertUnmade("Ann", 9, Err(9)),
    Expect(Number("Ann", None)), OrInsert("Ann", 0, 1), Expect(Len(5))
};

#[test]
fn keys_are_made_of_texts_where_words_are_new(rt: HostRuntime) -> Result<(), Fail> {
    play(&rt, rt.alloc(), &mut HashMap::new(rt.alloc()));
    Ok(())
}

// Takes the steps.
fn play(rt: &impl Abort, alloc: Global, words: &mut Words) {
    for (row, step) in STEPS.iter().enumerate() {
        take(rt, alloc, words, ("words", row), step);
    }
}

// Takes a step, and checks its result.
fn take(rt: &impl Abort, alloc: Global, words: &mut Words, at: At, step: &Step) {
    match step {
        OrInsert(word, number, after) => {
            check_same(rt, add(alloc, words, word, *number), Ok(*after), at);
        }
        OrInsertByEqual(word, number, after) => {
            check_same(rt, add_equal(alloc, words, word, *number), Ok(*after), at);
        }
        OrInsertUnmade(word, number, after) => {
            check_same(rt, find(alloc, words, word, *number), *after, at);
        }
        OrInsertWith(word, number, after) => {
            check_same(rt, make(alloc, words, word, *number), Some(*after), at);
        }
        OrDefault(word, after) => check_same(rt, start(alloc, words, word), Some(*after), at),
        InsertVacant(word, number, vacant) => {
            check_same(rt, fill(alloc, words, word, *number), *vacant, at);
        }
        Remove(word, number) => {
            check_same(rt, words.remove(*word).map(|pair| pair.1), *number, at);
        }
        Expect(wanted) => check_expected(rt, words, at, wanted),
    }
}

// Checks an expectation about the map.
fn check_expected(rt: &impl Abort, words: &Words, at: At, wanted: &Expect) {
    match *wanted {
        Number(word, number) => check_same(rt, words.get(word).copied(), number, at),
        Len(count) => check_same(rt, words.len(), count, at),
    }
}

// Adds one to the number of a word, or to this one if the word is new.
fn add(alloc: Global, words: &mut Words, word: &str, number: u64) -> Result<u64, u64> {
    match words.entry_ref(word).or_insert(number, alloc) {
        Ok(held) => Ok(raise(held)),
        Err(back) => Err(back.value),
    }
}

// The same by another word that is equal.
fn add_equal(alloc: Global, words: &mut Words, word: &str, number: u64) -> Result<u64, u64> {
    let word = owned(alloc, word);
    match words.entry_ref(&word).or_insert(number, alloc) {
        Ok(held) => Ok(raise(held)),
        Err(back) => Err(back.value),
    }
}

// The same if no word can be made.
fn find(alloc: Global, words: &mut Words, word: &'static str, number: u64) -> Result<u64, u64> {
    match words
        .entry_ref(Unmade { text: word })
        .or_insert(number, alloc)
    {
        Ok(held) => Ok(raise(held)),
        Err(back) => Err(back.value),
    }
}

// The same with a number that is made if the word is new, and whether it was.
fn make(alloc: Global, words: &mut Words, word: &str, number: u64) -> Option<(bool, u64)> {
    let mut was_called = false;
    let place = words.entry_ref(word);
    let lent = place.or_insert_with(
        || {
            was_called = true;
            number
        },
        alloc,
    );
    match lent {
        Ok(held) => Some((was_called, raise(held))),
        Err(_) => None,
    }
}

// The same with 0 if the word is new.
fn start(alloc: Global, words: &mut Words, word: &str) -> Option<u64> {
    match words.entry_ref(word).or_default(alloc) {
        Ok(held) => Some(raise(held)),
        Err(_) => None,
    }
}

// Adds one, and returns the result.
fn raise(held: &mut u64) -> u64 {
    *held = held.wrapping_add(1);
    *held
}

// Inserts a number if the word is new, and returns whether it was.
fn fill(alloc: Global, words: &mut Words, word: &str, number: u64) -> bool {
    match words.entry_ref(word) {
        EntryRef::Vacant(place) => place.insert(number, alloc).is_ok(),
        EntryRef::Occupied(_) => false,
    }
}

#[test]
fn keys_are_made_of_slices_where_lists_are_new(rt: HostRuntime) -> Result<(), Fail> {
    let mut lists: HashMap<Vec<u64>, u64> = HashMap::new(rt.alloc());
    let rows: [(&[u64], u64); 6] = [
        (&[1, 2], 1),
        (&[1], 1),
        (&[1, 2], 2),
        (&[], 1),
        (&[2, 1], 1),
        (&[], 2),
    ];
    for (list, after) in rows {
        let count = lists.entry_ref(list).or_insert(0, rt.alloc())?;
        check_same(&rt, raise(count), after, list);
    }
    check_same(&rt, lists.len(), 4, "lists");
    Ok(())
}
