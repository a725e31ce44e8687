//! Collections over one bucketed hash table: a map, a set, an index whose removed pairs stay as
//! tombstones until their bucket needs room, and a cache that evicts.
//!
//! A user sees keys, values and allocation failures, but neither arrays nor a rehash. `CALLING.md`
//! lists the counterpart of each std call, and `PROVING.md` the contracts.
//!
//! Ports the surface of scc 3.8.8's `HashMap`, `HashSet`, `HashIndex` and `HashCache` to owned
//! collections: a call borrows where scc locks. SPDX-License-Identifier: Apache-2.0
#![tactic(auto)]

mod calling;
mod comparing;
mod default_hash;
mod draining;
mod extracting;
pub mod hash_cache;
pub mod hash_index;
pub mod hash_map;
pub mod hash_set;
mod homes;
mod iterating;
pub mod key_form;
mod room;
mod sizing;

pub use default_hash::{
    BuildHasherDefault, DefaultHash, FoldHasher, KeyHash, RandomState, StdHash,
};
pub use key_form::{KeyForm, ToKey};
