//! The error of an insertion, with the pair.
ghost use Rattle.std.specs.Prelude.{◌≡◌};
ghost use Rattle.std.specs.IoError.{error_kind};
ghost use Rattle.bucket_slots.specs.Refusals.{kind_of_refusal, pair_of_refusal};

use std::error::Error;
use std::fmt::{self, Debug};
use std::io::{self, ErrorKind};

/// Why a pair wasn't inserted, with the pair.
#[derive(Debug, Drop)]
pub enum NotInserted<K, V> {
    /// An equal key is present.
    Present(K, V),
    /// Allocation failed.
    Memory(K, V),
}

impl<K, V> NotInserted<K, V> {
    /// Returns the pair, whatever the cause of the error.
    ///
    /// O(1).
    pub fn into_pair(self) -> (K, V)
        ensures { result ≡ pair_of_refusal self }
    {
        match self {
            NotInserted::Present(key, value) | NotInserted::Memory(key, value) => (key, value),
        }
    }
}

impl<K, V> fmt::Display for NotInserted<K, V> {
    fn fmt<W: fmt::Write>(&self, f: &mut fmt::Formatter<W>) -> fmt::Result {
        match self {
            NotInserted::Present(..) => write!(f, "the key is already present"),
            NotInserted::Memory(..) => write!(f, "out of memory"),
        }
    }
}

impl<K: Debug + Drop, V: Debug + Drop> Error for NotInserted<K, V> {}

/// Lets `?` work in a function that returns an `io::Result`. The error's kind says whether the key
/// is in the map or allocation failed. The pair is dropped.
impl<K: Drop, V: Drop> From<NotInserted<K, V>> for io::Error {
    ghost from_gives = { λ refusal error. error_kind error ≡ kind_of_refusal refusal };

    fn from(refusal: NotInserted<K, V>) -> io::Error {
        match refusal {
            NotInserted::Present(..) => io::Error::from(ErrorKind::AlreadyExists),
            NotInserted::Memory(..) => io::Error::from(ErrorKind::OutOfMemory),
        }
    }
}
