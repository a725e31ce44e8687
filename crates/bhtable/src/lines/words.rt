//! The words of a line, and the numbers that they write.
//!
//! Model: the parts that aren't read yet, each a number or another text. Words are separated by
//! blanks, which are spaces and tabs; a number is 1 to 20 decimal digits, below 2^64.
ghost use Rattle.std.specs.Prelude.{◌≡◌, ℕ, ◌<◌, ◌≤◌, true, false, List, [], ◌∷◌, is_some, length};
ghost use Rattle.std.specs.Prelude.{take, drop, slice_index, IfSome, MatchOption};
ghost use Rattle.bhtable.specs.Numbers.{is_number, value_of};
ghost use Rattle.bhtable.specs.Words.{Part, number, is_blank, part_of, parts_of};
ghost use Rattle.bhtable.specs.Words.{with_word, words_of};

use std::marker::Model;

// The maximum number of digits of a number.
const LONGEST_NUMBER: usize = 20;

/// The words of a line that aren't read yet.
#[derive(Drop)]
pub(crate) struct Words<'a> {
    rest: &'a [u8],
}

impl<'a> Model for Words<'a> {
    ghost Value = { List Part };

    ghost view = { λ words. parts_of words.rest.now };
}

impl<'a> Words<'a> {
    /// Returns the words of a line, of which none is read yet.
    pub(crate) fn of(line: &'a [u8]) -> Self
        ensures { result ≡ parts_of line.now }
    {
        Words { rest: line }
    }

    /// Reads the next word and returns its bytes, which aren't empty, or `None` if no word is left.
    ///
    /// O(bytes up to the end of the word).
    pub(crate) fn next_word(&mut self) -> Option<&'a [u8]>
        ensures { MatchOption result (self.old ≡ [])
            (λ word. self.old ≡ part_of word.now ∷ self.new) }
    {
        let rest = &self.rest[blanks_len(self.rest)..];
        let len = word_len(rest);
        self.rest = &rest[len..];
        if len == 0 { None } else { Some(&rest[..len]) }
    }

    /// Reads the next word and returns its number. `None` if no word is left, or if the next one
    /// isn't a number.
    ///
    /// O(bytes up to the end of the word).
    pub(crate) fn number(&mut self) -> Option<u64>
        ensures { MatchOption result
            ((value : ℕ) (rest : List Part) → self.old ≡ number value ∷ rest → ⊥)
            (λ value. self.old ≡ number value ∷ self.new) }
    {
        number_of(self.next_word()?)
    }
}

/// Returns the number of a line that contains nothing else, not even blanks.
///
/// For other lines it returns `None`, but the contract doesn't say so.
pub(crate) fn lone_number(line: &[u8]) -> Option<u64>
    ensures { IfSome result (λ value. parts_of line.now ≡ number value ∷ []) }
{
    number_of(line)
}

/// Returns the two numbers of a line that has no other word.
///
/// For other lines it returns `None`, but the contract doesn't say so.
pub(crate) fn two_numbers(line: &[u8]) -> Option<(u64, u64)>
    ensures { IfSome result (λ pair. parts_of line.now ≡ number pair.0 ∷ number pair.1 ∷ []) }
{
    let mut words = Words::of(line);
    let first = words.number()?;
    let second = words.number()?;
    match words.next_word() {
        None => Some((first, second)),
        Some(_) => None,
    }
}

fn is_blank(byte: u8) -> bool
    ensures { result ≡ is_blank byte }
{
    byte == b' ' || byte == b'\t'
}

// The number of blanks at the front of the bytes.
fn blanks_len(bytes: &[u8]) -> usize
    ensures bound { result ≤ length bytes.now }
    ensures words { words_of (drop result bytes.now) ≡ words_of bytes.now }
    ensures end { result < length bytes.now → is_blank (slice_index bytes.now result) ≡ false }
{
    for (at, byte) in bytes.iter().enumerate() {
        if !is_blank(*byte) {
            return at;
        }
    }
    bytes.len()
}

// The number of bytes before the first blank.
fn word_len(bytes: &[u8]) -> usize
    ensures bound { result ≤ length bytes.now }
    ensures words { words_of bytes.now
        ≡ with_word (take result bytes.now) (words_of (drop result bytes.now)) }
    ensures end { result < length bytes.now → is_blank (slice_index bytes.now result) ≡ true }
{
    for (at, byte) in bytes.iter().enumerate() {
        if is_blank(*byte) {
            return at;
        }
    }
    bytes.len()
}

// A number of 1 to 20 decimal digits below 2^64.
fn number_of(word: &[u8]) -> Option<u64>
    ensures accepted { is_some result ≡ is_number word.now }
    ensures value { IfSome result (λ number. number ≡ value_of word.now) }
{
    if word.is_empty() || word.len() > LONGEST_NUMBER {
        return None;
    }
    let mut number: u64 = 0;
    for byte in word {
        if !byte.is_ascii_digit() {
            return None;
        }
        number = number.checked_mul(10)?.checked_add((*byte - b'0') as u64)?;
    }
    Some(number)
}
