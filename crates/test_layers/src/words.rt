//! A map whose keys are words, hashed as std's maps hash them.
use crate::checks::check_same;
use bucket_slots::bucket::MAP;
use bucket_table::hash_table::{HashTable, Missing, ResizeRule};
use bucket_table::key_hash::StdHash;
use std::hash::{BuildHasherDefault, FoldHasher};
use std::process::Abort;
use std::test::Fail;

type Words = HashTable<&'static str, u64, StdHash<BuildHasherDefault<FoldHasher>>, (), MAP>;

/// A call on a map of words.
enum Step {
    /// Insert a word with a number: whether it was absent.
    Put(&'static str, u64, bool),
    /// Expect a word to have this number, or to be absent.
    ExpectNumber(&'static str, Option<u64>),
    /// Remove a word with its number, if it was present.
    Take(&'static str, Option<(&'static str, u64)>),
    /// Expect this many words.
    ExpectLen(usize),
    /// Remove all words.
    Clear,
}

const STEPS: &[Step] = &[
    Step::ExpectLen(0),
    Step::ExpectNumber("", None),
    Step::Put("", 0, true),
    Step::Put("ab", 2, true),
    Step::Put("a", 1, true),
    Step::Put("ab", 3, false),
    Step::ExpectNumber("ab", Some(2)),
    Step::ExpectNumber("b", None),
    Step::ExpectLen(3),
    Step::Take("ab", Some(("ab", 2))),
    Step::Take("ab", None),
    Step::ExpectNumber("", Some(0)),
    Step::ExpectNumber("a", Some(1)),
    Step::ExpectLen(2),
    Step::Clear,
    Step::ExpectLen(0),
    Step::ExpectNumber("a", None),
    Step::Put("a", 4, true),
    Step::ExpectNumber("a", Some(4)),
    Step::ExpectLen(1),
];

#[test]
fn words_are_found_by_stds_hashes(rt: HostRuntime) -> Result<(), Fail> {
    let hasher = StdHash::new(BuildHasherDefault::new());
    let mut words: Words = HashTable::with_hasher(rt.alloc(), hasher);
    for (row, step) in STEPS.iter().enumerate() {
        play(&rt, &mut words, row, step);
    }
    Ok(())
}

// Takes a step, and checks its result.
fn play(rt: &impl Abort, words: &mut Words, row: usize, step: &Step) {
    match *step {
        Step::Put(word, number, done) => {
            let put = words.insert_pair(word, number, &(), ResizeRule::Sampled);
            check_same(rt, put.is_ok(), done, row);
        }
        Step::ExpectNumber(word, number) => {
            let found = words.peek_entry(&word).map(|pair| *pair.1);
            check_same(rt, found, number, row);
        }
        Step::Take(word, pair) => check_same(rt, words.take(&word, ResizeRule::Sampled), pair, row),
        Step::ExpectLen(words_there) => {
            let found = (words.len(), words.is_empty());
            check_same(rt, found, (words_there, words_there == 0), row);
        }
        Step::Clear => words.clear(),
    }
}

// Why no bucket is locked, as a value and as a text.
const MISSING: [(Missing, &str, &str); 2] = [
    (Missing::Nothing, "Nothing", "no bucket to lock"),
    (Missing::Memory, "Memory", "out of memory"),
];

#[test]
fn what_is_missing_has_a_text(rt: HostRuntime) -> Result<(), Fail> {
    for (missing, name, text) in &MISSING {
        let debug = format!(in rt.alloc(); "{missing:?}")?;
        let shown = format!(in rt.alloc(); "{missing}")?;
        check_same(
            &rt,
            (debug.as_str(), shown.as_str()),
            (*name, *text),
            "missing",
        );
    }
    Ok(())
}
