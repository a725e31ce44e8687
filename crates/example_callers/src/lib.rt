//! Callers of the collections, as a user writes them. Each has a contract, which is proved from
//! those of the calls.
//!
//! SPDX-License-Identifier: Apache-2.0
#![tactic(auto)]

mod counting;
mod expiring;
pub mod filling;
mod grouping;
pub mod ledger;
mod retiring;
mod sessions;
mod words;

pub use counting::count_keys;
pub use expiring::take_expired;
pub use grouping::{group, overwrite};
pub use retiring::retire_keys;
pub use sessions::session_for;
pub use words::count_word;
