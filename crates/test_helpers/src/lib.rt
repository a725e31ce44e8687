//! What the tests and the programs of trials share: tables of steps, the choices of random calls,
//! and a map that takes no memory.
//!
//! SPDX-License-Identifier: Apache-2.0
#![tactic(auto)]

mod chance;
mod few_keys;
mod rows;

pub use chance::{Chance, KeyCall, gather, is_growing, spread};
pub use few_keys::{FewKeys, KEYS};
pub use rows::{At, overwrite};
