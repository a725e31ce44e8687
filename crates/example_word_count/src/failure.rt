//! What ends the program before its work is done.
use std::alloc::AllocError;
use std::fmt::{Display, Formatter};
use std::io::ErrorKind;
use std::{fmt, io};

/// Why the lines were not all counted and printed.
#[derive(Clone, Copy, Debug, PartialEq, Eq)]
pub enum Failure {
    /// The input can't be read.
    InputFailed,
    /// The output can't be written.
    OutputFailed,
    /// Allocation failed.
    NoMemory,
}

impl Failure {
    /// Returns what an error of the reader means.
    pub(crate) fn of_reading(error: io::Error) -> Failure {
        if error.kind() == ErrorKind::OutOfMemory {
            Failure::NoMemory
        } else {
            Failure::InputFailed
        }
    }

    /// Returns the exit status: 3 for memory, 4 for a device.
    pub fn status(self) -> u8 {
        match self {
            Failure::InputFailed | Failure::OutputFailed => 4,
            Failure::NoMemory => 3,
        }
    }
}

impl From<AllocError> for Failure {
    fn from(_error: AllocError) -> Failure {
        Failure::NoMemory
    }
}

impl Display for Failure {
    fn fmt<W: fmt::Write>(&self, f: &mut Formatter<W>) -> fmt::Result {
        f.write_str(match self {
            Failure::InputFailed => "input failed",
            Failure::OutputFailed => "output failed",
            Failure::NoMemory => "no memory",
        })
    }
}
