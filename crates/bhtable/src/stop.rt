//! What stops a program before it has answered every line.
ghost use Rattle.std.specs.Prelude.{◌≡◌};
ghost use Rattle.bhtable.specs.declared.stop.Stop.TheVariants.{NoMemory};

use std::alloc::AllocError;

/// Why a program ends before its input does.
#[derive(Clone, Copy, Debug, PartialEq, Eq)]
pub(crate) enum Stop {
    /// The line of this number, counted from 1, can't be read.
    BadLine(u64),
    /// Allocation failed.
    NoMemory,
    /// The input can't be read.
    InputFailed,
    /// The output can't be written.
    OutputFailed,
}

impl From<AllocError> for Stop {
    ghost from_gives = { λ _ stop. stop ≡ NoMemory };

    fn from(_error: AllocError) -> Self {
        Stop::NoMemory
    }
}
