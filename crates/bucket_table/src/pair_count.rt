//! A count of pairs, which takes two instructions to increment or decrement.
//!
//! Model: ℕ, the number of pairs; 2^64 - 1 means that there are at least as many.
ghost use Rattle.std.specs.Prelude.{ℕ, ◌≡◌, ◌≢◌, ◌+◌, ◌-◌, ◌%◌, ◌^◌, ◌↔◌, IsTrue, min};

use std::marker::Model;

/// A count of pairs. `next` is the count plus one, modulo 2^64; 0 means too many pairs to count.
#[derive(Drop)]
pub(crate) struct PairCount {
    next: usize,
}

impl Model for PairCount {
    ghost Value = { ℕ };

    ghost view = { λ count. (count.next + (2 ^ 64 - 1)) % 2 ^ 64 };
}

impl PairCount {
    /// Returns the count of `pairs` pairs.
    #[inline(always)]
    pub(crate) fn new(pairs: usize) -> PairCount
        ensures { result ≡ pairs }
    {
        PairCount {
            next: pairs.wrapping_add(1),
        }
    }

    /// Returns the number of pairs, at most 2^64 - 1.
    #[inline(always)]
    pub(crate) fn get(&self) -> usize
        ensures { result ≡ self.now }
    {
        self.next.wrapping_sub(1)
    }

    /// Adds one pair to the count.
    #[inline(always)]
    pub(crate) fn step_up(&mut self)
        ensures { self.new ≡ min (self.old + 1) (2 ^ 64 - 1) }
    {
        let more = if self.next != 0 { 1 } else { 0 };
        self.next = self.next.wrapping_add(more);
    }

    /// Subtracts one pair. Returns false if there were too many to count; the number is then
    /// unknown.
    #[inline(always)]
    pub(crate) fn step_down(&mut self) -> bool
        ensures known { IsTrue result ↔ (self.old ≢ 2 ^ 64 - 1) }
        ensures less { self.old ≢ 2 ^ 64 - 1 → self.old ≢ 0 → self.new ≡ self.old - 1 }
    {
        let next = self.next;
        self.next = next.wrapping_sub(1);
        next != 0
    }
}
