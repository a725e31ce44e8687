//! What tables of steps share.
use std::mem;

/// A step's place: the name of its story, and its number there.
pub type At = (&'static str, usize);

/// Steps, several on a line.
#[macro_export]
macro_rules! steps {
    ($($step:expr),+ $(,)?) => { &[$($step),+] };
}

/// Writes a number through a mutable reference, and returns the earlier one.
pub fn overwrite(place: Option<&mut u64>, number: u64) -> Option<u64> {
    match place {
        Some(own) => Some(mem::replace(own, number)),
        None => None,
    }
}
