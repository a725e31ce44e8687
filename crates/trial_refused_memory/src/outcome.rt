//! The outcome of a part of the trial.

/// The outcome of a part of the trial.
#[derive(Drop)]
pub(crate) enum Outcome {
    /// Every reply and every pair is the expected one.
    Done,
    /// A call failed to allocate, and all pairs are unchanged.
    AsBefore,
    /// A resize was skipped, since one of its allocations failed. Everything else is as usual.
    Unresized,
    /// An allocation of a look-up failed: a unit wasn't finished, or an old bucket stayed, and the
    /// pair was found nevertheless.
    Unmoved,
    /// A reply or a pair isn't as expected.
    Wrong,
}

impl Outcome {
    /// Returns the line that reports it.
    pub(crate) fn text(&self) -> &'static str {
        match self {
            Outcome::Done => "done",
            Outcome::AsBefore => "as before",
            Outcome::Unresized => "not resized",
            Outcome::Unmoved => "not moved",
            Outcome::Wrong => "wrong",
        }
    }

    /// Returns the exit status: each right outcome has its own, and a wrong one has that of `Done`.
    pub(crate) fn status(&self) -> u8 {
        match self {
            Outcome::Done | Outcome::Wrong => 0,
            Outcome::AsBefore => 10,
            Outcome::Unresized => 13,
            Outcome::Unmoved => 14,
        }
    }
}
