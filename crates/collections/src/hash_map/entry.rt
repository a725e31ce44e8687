//! A key's place in a map, like std's `Entry`: occupied if the map contains the key, else vacant.
//!
//! An entry borrows the map, and holds the requested key and its hash. It moves no pairs until it
//! is written. The key is hashed once.
ghost use Rattle.std.specs.Prelude.{◌≡◌, None, IsSome};
ghost use Rattle.collections.specs.Maps.{get};

mod by_form;
mod making;
mod occupied;
mod vacant;
mod whole;

use crate::default_hash::DefaultHash;
use crate::hash_map::HashMap;
use bucket_table::key_hash::KeyHash;
pub use by_form::{EntryRef, OccupiedEntryRef, VacantEntryRef};

/// A key's place in a map. std: `hash_map::Entry`.
#[derive(Drop)]
pub enum Entry<'a, K: Eq, V, H: KeyHash<K> = DefaultHash> {
    /// The map contains the key.
    Occupied(OccupiedEntry<'a, K, V, H>),
    /// The map does not contain the key.
    Vacant(VacantEntry<'a, K, V, H>),
}

/// The place of a key that the map contains. std: `hash_map::OccupiedEntry`.
#[derive(Drop)]
pub struct OccupiedEntry<'a, K: Eq, V, H: KeyHash<K> = DefaultHash> {
    map: &'a mut HashMap<K, V, H>,
    key: K,
    hash: u64,
    ghost hashed: { hash ≡ H.hash_of map.now.hasher key },
    ghost there: { IsSome (get K.eq map.now key) },
}

/// The place of a key that the map does not contain. std: `hash_map::VacantEntry`.
#[derive(Drop)]
pub struct VacantEntry<'a, K: Eq, V, H: KeyHash<K> = DefaultHash> {
    map: &'a mut HashMap<K, V, H>,
    key: K,
    hash: u64,
    ghost hashed: { hash ≡ H.hash_of map.now.hasher key },
    ghost absent: { get K.eq map.now key ≡ None },
}
