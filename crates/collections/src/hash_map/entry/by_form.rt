//! The place in a map of the keys that a form stands for, like hashbrown's `EntryRef`: a key is
//! made only if the map contains none.
//!
//! An entry borrows the map, holds the form and its hash, and moves no pairs until it is written.
ghost use Rattle.std.specs.Prelude.{◌≡◌, None, IsSome};
ghost use Rattle.collections.specs.Hashes.{HaveHash};
ghost use Rattle.collections.specs.Maps.{get_by};

mod occupied;
mod vacant;
mod whole;

use crate::hash_map::HashMap;
use crate::key_form::KeyForm;
use bucket_table::key_hash::KeyHash;

/// The place in a map of the keys that a form stands for. hashbrown: `hash_map::EntryRef`.
#[derive(Drop)]
pub enum EntryRef<'a, K: Eq, V, H: KeyHash<K>, Q: KeyForm<K, H>> {
    /// The map contains one of the keys.
    Occupied(OccupiedEntryRef<'a, K, V, H, Q>),
    /// The map contains none of the keys.
    Vacant(VacantEntryRef<'a, K, V, H, Q>),
}

/// The place of a key that the map contains. hashbrown: `hash_map::OccupiedEntry`.
#[derive(Drop)]
pub struct OccupiedEntryRef<'a, K: Eq, V, H: KeyHash<K>, Q: KeyForm<K, H>> {
    map: &'a mut HashMap<K, V, H>,
    form: Q,
    hash: u64,
    ghost hashed: { HaveHash (Q.stands_for form) (H.hash_of map.now.hasher) hash },
    ghost there: { IsSome (get_by (Q.stands_for form) map.now) },
}

/// The place of a key that the map does not contain. hashbrown: `hash_map::VacantEntryRef`.
#[derive(Drop)]
pub struct VacantEntryRef<'a, K: Eq, V, H: KeyHash<K>, Q: KeyForm<K, H>> {
    map: &'a mut HashMap<K, V, H>,
    form: Q,
    hash: u64,
    ghost hashed: { HaveHash (Q.stands_for form) (H.hash_of map.now.hasher) hash },
    ghost absent: { get_by (Q.stands_for form) map.now ≡ None },
}
