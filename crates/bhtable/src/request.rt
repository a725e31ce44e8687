//! What the words of a line ask for.
//!
//! Words are compared as bytes. A word that isn't UTF-8 equals no known word, so it needs no test
//! of its own.
ghost use Rattle.std.specs.Prelude.{◌≡◌, ◌↔◌, ℕ, List, [], ◌∷◌, IfNone, IfOk, IfSome, IsSome};
ghost use Rattle.std.specs.Prelude.{MatchOption, OnErr, map};
ghost use Rattle.bhtable.specs.Meanings.{IsMeant, meaning};
ghost use Rattle.bhtable.specs.Layout.Forms.{AsksNothing, Begins, form_word};
ghost use Rattle.bhtable.specs.Requests.{AreLimits, Asks, call_line, end_word, hash_word};
ghost use Rattle.bhtable.specs.Requests.{kind_word, mark_word, request_line};
ghost use Rattle.bhtable.specs.Words.{Part, part_of, parts_of};
ghost use Rattle.bhtable.specs.declared.request.NewTable.{NewTable};
ghost use Rattle.bhtable.specs.declared.request.Request.{Request};
ghost use Rattle.bucket_table.specs.declared.script.call.Call.{Call};
ghost use Rattle.bucket_table.specs.declared.script.generation.FixedGeneration.{FixedGeneration};

use crate::lines::words::{Words, lone_number, two_numbers};
use bucket_table::hash_table::MAXIMUM_CAPACITY_LIMIT;
use bucket_table::script::{Call, FixedGeneration, ScriptHash};

/// A line that can't be read.
#[derive(Clone, Copy, Debug, PartialEq, Eq)]
pub(crate) struct Unreadable;

/// What a line asks for.
#[derive(Clone, Copy)]
pub(crate) enum Request {
    /// A fresh table.
    New(NewTable),
    /// A call on the current table.
    Call(Call<u64, u64>),
    /// A question about the current table.
    Question(Question),
    /// From here on, the epoch of an index's tombstones, and whether tombstones are kept.
    Epoch(FixedGeneration),
}

/// A question about a table.
#[derive(Clone, Copy)]
pub(crate) enum Question {
    /// How many slots its current array has.
    Slots,
    /// The rehash word of its old array.
    Word,
}

/// A table to make.
#[derive(Clone, Copy)]
pub(crate) struct NewTable {
    pub(crate) kind: Kind,
    pub(crate) hash: ScriptHash,
    pub(crate) limits: Limits,
}

/// The kind of a table.
#[derive(Clone, Copy)]
pub(crate) enum Kind {
    Map,
    Index,
    Cache,
}

/// The least and the greatest number of slots that a table may have.
#[derive(Clone, Copy)]
pub(crate) struct Limits {
    pub(crate) minimum: usize,
    pub(crate) maximum: usize,
}

// What follows the verb of a line.
#[derive(Clone, Copy)]
enum Form {
    // A kind, a hash and two limits.
    Table,
    // A byte, and whether tombstones are kept.
    Epoch,
    // Nothing.
    Question(Question),
    // The operands of a call like this one.
    Call(Call<u64, u64>),
}

// Each verb and its form: a call has zeros in place of the line's numbers.
const FORMS: [(&[u8], Form); 20] = [
    (b"new", Form::Table),
    (b"epoch", Form::Epoch),
    (b"slots", Form::Question(Question::Slots)),
    (b"word", Form::Question(Question::Word)),
    (b"put", Form::Call(Call::Put(0, 0))),
    (b"write", Form::Call(Call::Write(0, 0))),
    (b"read", Form::Call(Call::Read(0))),
    (b"peek", Form::Call(Call::Peek(0))),
    (b"remove", Form::Call(Call::Remove(0))),
    (b"touch", Form::Call(Call::Touch(0))),
    (b"evict", Form::Call(Call::Evict(0))),
    (b"count", Form::Call(Call::Count)),
    (b"has", Form::Call(Call::Has)),
    (b"reserve", Form::Call(Call::Reserve(0))),
    (b"release", Form::Call(Call::Release(0))),
    (b"start", Form::Call(Call::Start)),
    (b"work", Form::Call(Call::Work(0))),
    (b"end", Form::Call(Call::End(0, false))),
    (b"walk", Form::Call(Call::Walk)),
    (b"clear", Form::Call(Call::Clear)),
];

const KINDS: [(&[u8], Kind); 3] = [
    (b"map", Kind::Map),
    (b"index", Kind::Index),
    (b"cache", Kind::Cache),
];

const HASHES: [(&[u8], ScriptHash); 3] = [
    (b"zero", ScriptHash::Zero),
    (b"id", ScriptHash::Id),
    (b"spread", ScriptHash::Spread),
];

// Whether tombstones are kept.
const MARKS: [(&[u8], bool); 2] = [(b"keep", true), (b"drop", false)];

// Whether a ticket ends with success.
const ENDS: [(&[u8], bool); 2] = [(b"done", true), (b"fail", false)];

/// Reads the request of a line; a line without words has none.
pub(crate) fn request_in(line: &[u8]) -> Result<Option<Request>, Unreadable>
    ensures asked { IfOk result (λ request.
        MatchOption request (parts_of line.now ≡ []) (Asks (parts_of line.now))) }
    ensures unreadable { OnErr result ((parts_of line.now ≡ [] → ⊥)
        × AsksNothing (parts_of line.now)) }
{
    if let Some(call) = plain_call(line) {
        return Ok(Some(Request::Call(call)));
    }
    let mut words = Words::of(line);
    let Some(first) = words.next_word() else {
        return Ok(None);
    };
    match whole_request(first, words) {
        Some(request) => Ok(Some(request)),
        None => Err(Unreadable),
    }
}

// Returns a call that consists of a verb and numbers only, with exactly one blank before the first
// number. Most lines are such calls.
fn plain_call(line: &[u8]) -> Option<Call<u64, u64>>
    ensures { IfSome result (λ call. Asks (parts_of line.now) (Request.Call call)) }
{
    if let Some(key) = line.strip_prefix(b"peek ") {
        return Some(Call::Peek(lone_number(key)?));
    }
    if let Some(key) = line.strip_prefix(b"read ") {
        return Some(Call::Read(lone_number(key)?));
    }
    if let Some(pair) = line.strip_prefix(b"put ") {
        let (key, value) = two_numbers(pair)?;
        return Some(Call::Put(key, value));
    }
    if let Some(pair) = line.strip_prefix(b"write ") {
        let (key, value) = two_numbers(pair)?;
        return Some(Call::Write(key, value));
    }
    if let Some(key) = line.strip_prefix(b"remove ") {
        return Some(Call::Remove(lone_number(key)?));
    }
    if let Some(key) = line.strip_prefix(b"touch ") {
        return Some(Call::Touch(lone_number(key)?));
    }
    let key = line.strip_prefix(b"evict ")?;
    Some(Call::Evict(lone_number(key)?))
}

// The request of a line, all of whose words are used.
fn whole_request(first: &[u8], words: Words<'_>) -> Option<Request>
    ensures asked { IfSome result (Asks (part_of first.now ∷ words.entry)) }
    ensures refused { IfNone result (AsksNothing (part_of first.now ∷ words.entry)) }
{
    let mut words = words;
    let form = meaning_of(&FORMS, first)?;
    let request = request_of(form, &mut words)?;
    match words.next_word() {
        None => Some(request),
        Some(_) => None,
    }
}

// The request of a verb of this form and the words after it.
fn request_of(form: Form, words: &mut Words<'_>) -> Option<Request>
    ensures asked { IfSome result (λ request. ((request_line request).0 ≡ form_word form)
        × Begins words.old request words.new) }
    ensures refused { IfNone result ((request : Request) (rest : List Part)
        → (request_line request).0 ≡ form_word form → Begins words.old request rest → ⊥) }
{
    match form {
        Form::Table => Some(Request::New(new_table(words)?)),
        Form::Epoch => Some(Request::Epoch(generation_in(words)?)),
        Form::Question(question) => Some(Request::Question(question)),
        Form::Call(model) => Some(Request::Call(call_in(model, words)?)),
    }
}

// A call like the model, with the line's operands.
fn call_in(model: Call<u64, u64>, words: &mut Words<'_>) -> Option<Call<u64, u64>>
    ensures asked { IfSome result (λ call. ((call_line call).0 ≡ (call_line model).0)
        × Begins words.old (Request.Call call) words.new) }
    ensures refused { IfNone result ((call : Call ℕ ℕ) (rest : List Part)
        → (call_line call).0 ≡ (call_line model).0
        → Begins words.old (Request.Call call) rest → ⊥) }
{
    Some(match model {
        Call::Put(..) => Call::Put(words.number()?, words.number()?),
        Call::Write(..) => Call::Write(words.number()?, words.number()?),
        Call::Read(_) => Call::Read(words.number()?),
        Call::Peek(_) => Call::Peek(words.number()?),
        Call::Remove(_) => Call::Remove(words.number()?),
        Call::Touch(_) => Call::Touch(words.number()?),
        Call::Evict(_) => Call::Evict(words.number()?),
        Call::Count | Call::Has | Call::Start | Call::Walk | Call::Clear => model,
        Call::Reserve(_) => Call::Reserve(words.number()? as usize),
        Call::Release(_) => Call::Release(words.number()? as usize),
        Call::Work(_) => Call::Work(words.number()? as usize),
        Call::End(..) => Call::End(words.number()? as usize, success_of(words.next_word()?)?),
    })
}

fn new_table(words: &mut Words<'_>) -> Option<NewTable>
    ensures asked { IfSome result (λ new. Begins words.old (Request.New new) words.new) }
    ensures refused { IfNone result ((new : NewTable) (rest : List Part)
        → Begins words.old (Request.New new) rest → ⊥) }
{
    let kind = kind_of(words.next_word()?)?;
    let hash = hash_of(words.next_word()?)?;
    let minimum = words.number()? as usize;
    let maximum = words.number()? as usize;
    let limits = limits_of(minimum, maximum)?;
    Some(NewTable { kind, hash, limits })
}

fn kind_of(word: &[u8]) -> Option<Kind>
    ensures { IsMeant kind_word (part_of word.now) result }
{
    meaning_of(&KINDS, word)
}

fn hash_of(word: &[u8]) -> Option<ScriptHash>
    ensures { IsMeant hash_word (part_of word.now) result }
{
    meaning_of(&HASHES, word)
}

fn generation_in(words: &mut Words<'_>) -> Option<FixedGeneration>
    ensures asked { IfSome result (λ generation.
        Begins words.old (Request.Epoch generation) words.new) }
    ensures refused { IfNone result ((generation : FixedGeneration) (rest : List Part)
        → Begins words.old (Request.Epoch generation) rest → ⊥) }
{
    let epoch = words.number()?;
    let keep = keep_of(words.next_word()?)?;
    if epoch > 255 {
        return None;
    }
    let epoch = epoch as u8;
    Some(FixedGeneration { epoch, keep })
}

fn keep_of(word: &[u8]) -> Option<bool>
    ensures { IsMeant mark_word (part_of word.now) result }
{
    meaning_of(&MARKS, word)
}

fn success_of(word: &[u8]) -> Option<bool>
    ensures { IsMeant end_word (part_of word.now) result }
{
    meaning_of(&ENDS, word)
}

// Returns the meaning of a word, in the first row that has the word, if any.
//
// O(rows).
fn meaning_of<T: Copy>(mut table: &[(&[u8], T)], word: &[u8]) -> Option<T>
    ensures { result ≡ meaning (map (λ row. (row.0.now, row.1)) table.entry.now) word.now }
{
    while let [row, rest @ ..] = table {
        if row.0 == word {
            return Some(row.1);
        }
        table = rest;
    }
    None
}

// The maximum is a power of two from 64 to 2^63, and the minimum is at most that.
fn limits_of(minimum: usize, maximum: usize) -> Option<Limits>
    ensures value { IfSome result (λ limits.
        (limits.minimum ≡ minimum) × (limits.maximum ≡ maximum)) }
    ensures accepted { IsSome result ↔ AreLimits minimum maximum }
{
    if maximum < 64 || maximum > MAXIMUM_CAPACITY_LIMIT || minimum > maximum {
        return None;
    }
    if maximum.next_power_of_two() != maximum {
        return None;
    }
    Some(Limits { minimum, maximum })
}
