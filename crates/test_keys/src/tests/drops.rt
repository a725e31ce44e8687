//! Values that are counted, under words as keys: each is dropped once, when its pair is removed.
use super::check_same;
use Step::*;
use bucket_table::key_hash::StdHash;
use collections::hash_map::HashMap;
use std::alloc::Global;
use std::hash::{BuildHasherDefault, FoldHasher};
use std::process::Abort;
use std::rc::Rc;
use std::test::Fail;
use test_helpers::steps;

type Words = HashMap<&'static str, Rc<u64>, StdHash<BuildHasherDefault<FoldHasher>>>;

/// A call on a map, and how many values there are when it has returned and its answer is dropped.
enum Step {
    /// Insert a word with a clone, which is dropped if the word is present.
    Insert(&'static str, usize),
    /// Give a word a clone. The earlier value is dropped.
    Upsert(&'static str, usize),
    /// Replace the value of a present word by a clone, which is dropped if the word is absent.
    Update(&'static str, usize),
    /// Write a clone through a mutable reference to a word's value. It is dropped if the word is
    /// absent.
    WriteByGetMut(&'static str, usize),
    /// Remove all words but one.
    RetainOnly(&'static str, usize),
    /// Remove a word.
    Remove(&'static str, usize),
    /// Remove all words.
    Clear,
}

const STEPS: &[Step] = steps! {
    Insert("", 1), Insert("ab", 2), Insert("a", 3), Insert("ab", 3), Upsert("ab", 3),
    Upsert("b", 4), Update("ab", 4), Update("c", 4), Remove("ab", 3), Remove("ab", 3),
    Insert("ab", 4), WriteByGetMut("ab", 4), WriteByGetMut("c", 4), RetainOnly("a", 1),
    Insert("ab", 2), Insert("b", 3), RetainOnly("c", 0), RetainOnly("", 0), Insert("ab", 1), Clear,
    Clear, Upsert("a", 1), Insert("b", 2)
};

#[test]
fn each_value_is_dropped_once(rt: HostRuntime) -> Result<(), Fail> {
    let counted = Rc::new(rt.alloc(), 0)?;
    play(&rt, &mut no_words(rt.alloc()), &counted);
    check_same(&rt, Rc::strong_count(&counted), 1, "dropped");
    Ok(())
}

fn no_words(alloc: Global) -> Words {
    HashMap::with_hasher(alloc, StdHash::new(BuildHasherDefault::new()))
}

// Takes the steps, and compares how many values there are beside the first.
fn play(rt: &impl Abort, words: &mut Words, counted: &Rc<u64>) {
    for (row, step) in STEPS.iter().enumerate() {
        let left = match counted.clone() {
            Ok(value) => take(words, value, step),
            Err(_) => usize::MAX,
        };
        let found = (words.len(), Rc::strong_count(counted));
        check_same(rt, found, (left, left.saturating_add(1)), row);
    }
}

// Takes a step with a value. Returns how many are to be left.
fn take(words: &mut Words, value: Rc<u64>, step: &Step) -> usize {
    match *step {
        Insert(word, left) => {
            let _ = words.insert(word, value);
            left
        }
        Upsert(word, left) => {
            let _ = words.upsert(word, value);
            left
        }
        Update(word, left) => {
            update(words, word, value);
            left
        }
        WriteByGetMut(word, left) => {
            if let Some(own) = words.get_mut(&word) {
                *own = value;
            }
            left
        }
        RetainOnly(word, left) => {
            retain_only(words, word);
            left
        }
        Remove(word, left) => {
            let _ = words.remove(&word);
            left
        }
        Clear => {
            words.clear();
            0
        }
    }
}

fn update(words: &mut Words, word: &'static str, value: Rc<u64>) {
    let _ = words.update(&word, |_own: &&str, own: &mut Rc<u64>| *own = value);
}

// Removes all words but one.
fn retain_only(words: &mut Words, word: &'static str) {
    words.retain(&mut |own: &&str, _value: &mut Rc<u64>| *own == word);
}
