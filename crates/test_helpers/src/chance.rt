//! A sequence of random numbers, and the keys and calls that it chooses.
//!
//! A course of random calls has phases. While a collection grows, few pairs are removed; while it
//! shrinks, none is inserted. So it gets longer arrays, and shorter ones again.

/// A linear congruential generator.
#[derive(Drop)]
pub struct Chance {
    state: u64,
}

/// A call by a key.
#[derive(Clone, Copy)]
pub enum KeyCall {
    /// A pair is inserted.
    Insert,
    /// A value is inserted or written.
    Upsert,
    /// A pair is removed.
    Remove,
    /// The value of a present key is written.
    Update,
    /// A key is looked up.
    Get,
}

impl Chance {
    /// The sequence is the same in each run.
    pub fn new() -> Self {
        Chance { state: 1 }
    }

    /// The upper bits of the next number; the lower ones are less random.
    pub fn next(&mut self) -> u64 {
        self.state = self
            .state
            .wrapping_mul(6364136223846793005)
            .wrapping_add(1442695040888963407);
        self.state >> 32
    }

    /// The next call, while the collection grows or shrinks.
    pub fn key_call(&mut self, grows: bool) -> KeyCall {
        match (self.next() % 16, grows) {
            (0..=3, true) => KeyCall::Insert,
            (4..=6, true) => KeyCall::Upsert,
            (0..=6, false) | (7..=8, _) => KeyCall::Remove,
            (9..=11, _) => KeyCall::Update,
            _ => KeyCall::Get,
        }
    }
}

/// Whether the call of this number is in a phase in which the collection grows. Each phase has
/// `phase` calls.
pub fn is_growing(number: u64, phase: u64) -> bool {
    match number.checked_div(phase) {
        Some(phases) => phases % 2 == 0,
        None => true,
    }
}

// An odd number with its bits spread.
const SPREADING: u64 = 11400714819323198485;

// The inverse of the other number, modulo 2^64.
const GATHERING: u64 = 17428512612931826493;

/// The key of a number. The keys of small numbers have homes all over an array.
pub fn spread(number: u64) -> u64 {
    number.wrapping_mul(SPREADING)
}

/// The number of a key.
pub fn gather(key: u64) -> u64 {
    key.wrapping_mul(GATHERING)
}
