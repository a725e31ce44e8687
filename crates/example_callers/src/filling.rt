//! Filling a map with pairs, after making room for them.
ghost use Rattle.std.specs.Prelude.{◌≡◌, ◌+◌, IfErr, OnOk, length};
ghost use Rattle.collections.specs.Maps.{map_len};
ghost use Rattle.example_callers.specs.Filled.{IsForCause};

use bucket_table::key_hash::KeyHash;
use collections::hash_map::{HashMap, NotInserted};

/// Why not all pairs were inserted.
#[derive(Clone, Copy, Debug, PartialEq, Eq)]
pub enum NotFilled {
    /// Allocating the room failed.
    NoRoom,
    /// A key is present already.
    Twice,
    /// Allocation failed for a crowded bucket.
    Crowded,
}

/// Makes room for the pairs of a list, and inserts them.
///
/// # Errors
///
/// Allocating the room failed, a key is present already, or allocation failed for a crowded bucket:
/// the pairs before that one are in the map.
///
/// O(pairs) expected, and O(slots).
pub fn fill<K: Eq + Copy, V: Copy, H: KeyHash<K>>(
    map: &mut HashMap<K, V, H>,
    pairs: &[(K, V)],
) -> Result<(), NotFilled>
    ensures filled { OnOk result (map_len map.new ≡ map_len map.old + length pairs.now) }
    ensures refused { IfErr result (λ why.
        IsForCause (H.hash_of map.old.hasher) (map_len map.old + length pairs.now) map.new why) }
{
    if map.try_reserve(pairs.len()).is_err() {
        return Err(NotFilled::NoRoom);
    }
    for pair in pairs {
        match map.insert(pair.0, pair.1) {
            Ok(()) => {}
            Err(NotInserted::Present(_, _)) => return Err(NotFilled::Twice),
            Err(NotInserted::Memory(_, _)) => return Err(NotFilled::Crowded),
        }
    }
    Ok(())
}
