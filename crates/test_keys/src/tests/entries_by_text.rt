//! Stories of entries that are looked up by a text: a word is made from it only if it is absent.
use super::check_same;
use super::forms::owned;
use Expect::*;
use Step::*;
use collections::hash_map::HashMap;
use collections::hash_map::entry::EntryRef;
use std::alloc::Global;
use std::process::Abort;
use std::test::Fail;
use test_helpers::{At, steps};

/// A map from words to numbers.
type Words = HashMap<String, u64>;

/// A call on a word's entry, or an expectation.
enum Step {
    /// Insert a number if the word is absent, and then add one to the number: this is the result.
    InsertAndAddOne(&'static str, u64, u64),
    /// Make the word and insert it with a number if it is absent: whether it was.
    InsertVacant(&'static str, u64, bool),
    /// Insert the second word by the entry of the first, which accepts no other: whether it was
    /// inserted.
    InsertOther(&'static str, &'static str, bool),
    /// Change the number of a present word: this was the earlier one.
    Replace(&'static str, u64, Option<u64>),
    /// Add one to the number of a present word: what it was, and is.
    AddOne(&'static str, Option<(u64, u64)>),
    /// Add one through the entry's mutable reference: what it is then.
    AddOneByGetMut(&'static str, Option<u64>),
    /// Remove the word: its number.
    Remove(&'static str, Option<u64>),
    Expect(Expect),
}

/// What is expected of the map.
enum Expect {
    /// The number of a word.
    Number(&'static str, Option<u64>),
    /// How many words there are.
    Len(usize),
}

const STEPS: &[Step] = steps! {
    InsertOther("Ann", "Bob", false), Expect(Len(0)), Remove("Ann", None), Replace("Ann", 1, None),
    AddOne("Ann", None), Expect(Len(0)), InsertAndAddOne("Ann", 4, 5), InsertAndAddOne("Ann", 4, 6),
    InsertAndAddOne("An", 0, 1), InsertVacant("Ann", 9, false), InsertVacant("", 9, true),
    InsertVacant("", 8, false), Expect(Len(3)), Replace("Ann", 7, Some(6)),
    AddOne("Ann", Some((7, 8))), AddOne("ann", None), Expect(Number("Ann", Some(8))),
    Expect(Number("An", Some(1))), Expect(Number("", Some(9))), AddOneByGetMut("An", Some(2)),
    AddOneByGetMut("an", None), Expect(Number("An", Some(2))), Remove("Ann", Some(8)),
    Remove("Ann", None), Expect(Number("Ann", None)), InsertAndAddOne("Ann", 2, 3), Expect(Len(3))
};

#[test]
fn places_of_words_are_found_by_texts(rt: HostRuntime) -> Result<(), Fail> {
    play(&rt, rt.alloc(), &mut HashMap::new(rt.alloc()));
    Ok(())
}

// Takes the steps.
fn play(rt: &impl Abort, alloc: Global, words: &mut Words) {
    for (row, step) in STEPS.iter().enumerate() {
        take(rt, alloc, words, ("words", row), step);
    }
}

// Takes a step, and checks its result.
fn take(rt: &impl Abort, alloc: Global, words: &mut Words, at: At, step: &Step) {
    match step {
        InsertAndAddOne(word, number, after) => {
            check_same(rt, count(alloc, words, word, *number), Some(*after), at);
        }
        InsertVacant(word, number, vacant) => {
            check_same(
                rt,
                put(words, word, owned(alloc, word), *number),
                *vacant,
                at,
            );
        }
        InsertOther(word, other, came) => {
            check_same(rt, put(words, word, owned(alloc, other), 0), *came, at);
        }
        Replace(word, number, earlier) => {
            check_same(rt, write(words, word, *number), *earlier, at);
        }
        AddOne(word, numbers) => check_same(rt, raise(words, word), *numbers, at),
        AddOneByGetMut(word, number) => check_same(rt, lend(words, word), *number, at),
        Remove(word, number) => check_same(rt, take_out(words, word), *number, at),
        Expect(wanted) => check_expected(rt, words, at, wanted),
    }
}

// Checks an expectation about the map.
fn check_expected(rt: &impl Abort, words: &Words, at: At, wanted: &Expect) {
    match *wanted {
        Number(word, number) => check_same(rt, number_of(words, word), number, at),
        Len(count) => check_same(rt, words.len(), count, at),
    }
}

// Inserts a number if the word is absent, adds one through the mutable reference, and returns what
// the map has then.
fn count(alloc: Global, words: &mut Words, word: &str, number: u64) -> Option<u64> {
    let lent = match words.entry_ref(word) {
        EntryRef::Occupied(place) => Some(place.into_mut()),
        EntryRef::Vacant(place) => place.insert_with_key(owned(alloc, word), number).ok(),
    };
    if let Some(held) = lent {
        add_one(held);
    }
    number_of(words, word)
}

// Inserts a key and a number by the entry of a word, if it is vacant. Returns whether they were
// inserted.
fn put(words: &mut Words, word: &str, key: String, number: u64) -> bool {
    match words.entry_ref(word) {
        EntryRef::Vacant(place) => place.insert_with_key(key, number).is_ok(),
        EntryRef::Occupied(_) => false,
    }
}

// Changes the number of a present word, and returns the earlier one.
fn write(words: &mut Words, word: &str, number: u64) -> Option<u64> {
    match words.entry_ref(word) {
        EntryRef::Occupied(mut place) => Some(place.insert(number)),
        EntryRef::Vacant(_) => None,
    }
}

// Adds one to the number of a present word, and returns what it was and is.
fn raise(words: &mut Words, word: &str) -> Option<(u64, u64)> {
    match words.entry_ref(word) {
        EntryRef::Occupied(mut place) => {
            let before = *place.get();
            place.update(add_one);
            Some((before, *place.get()))
        }
        EntryRef::Vacant(_) => None,
    }
}

// Adds one through the entry's mutable reference, and returns what the number is then.
fn lend(words: &mut Words, word: &str) -> Option<u64> {
    match words.entry_ref(word) {
        EntryRef::Occupied(mut place) => {
            add_one(place.get_mut());
            Some(*place.get())
        }
        EntryRef::Vacant(_) => None,
    }
}

fn add_one(held: &mut u64) {
    *held = held.wrapping_add(1);
}

// Removes the word, and returns its number.
fn take_out(words: &mut Words, word: &str) -> Option<u64> {
    match words.remove(word) {
        Some((_, number)) => Some(number),
        None => None,
    }
}

// Returns the number of a word.
fn number_of(words: &Words, word: &str) -> Option<u64> {
    if words.contains(word) {
        Some(words[word])
    } else {
        None
    }
}
