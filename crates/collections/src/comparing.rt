//! Equality of two tables as maps.
ghost use Rattle.std.specs.Prelude.{◌≡◌, Some};
ghost use Rattle.std.specs.Option.{option_eq};
ghost use Rattle.collections.specs.Equality.{is_within, map_eq};
ghost use Rattle.collections.specs.Maps.{get, map_of};

use crate::key_form::value_by;
use bucket_slots::lru::LruList;
use bucket_table::hash_table::HashTable;
use bucket_table::key_hash::KeyHash;

/// Returns `true` if two tables contain the same keys with equal values. Tombstones don't count.
///
/// Stops at the first difference. Moves and touches no pairs. O(slots of both) expected.
pub(crate) fn are_equal<K: Eq, V: PartialEq, H: KeyHash<K>, L: LruList, const TYPE: u8>(
    own: &HashTable<K, V, H, L, TYPE>,
    other: &HashTable<K, V, H, L, TYPE>,
) -> bool
    ensures { result ≡ map_eq K.eq V.eq (map_of own.now) (map_of other.now) }
{
    has_within(own, other) && has_within(other, own)
}

/// Returns `true` if another table contains each key of a table, with an equal value.
fn has_within<K: Eq, V: PartialEq, H: KeyHash<K>, L: LruList, const TYPE: u8>(
    own: &HashTable<K, V, H, L, TYPE>,
    other: &HashTable<K, V, H, L, TYPE>,
) -> bool
    ensures { result ≡ is_within K.eq V.eq (map_of own.now) (map_of other.now) }
{
    own.fact_sound();
    own.pairs().all(
        |(key, value): (&K, &V)| -> bool
            ensures { result ≡ option_eq V.eq (Some value.entry.now)
                (get K.eq (map_of other.entry.now) key.entry.now) }
        { has_value(other, key, value) },
    )
}

/// Returns `true` if a table contains a key, with an equal value.
fn has_value<K: Eq, V: PartialEq, H: KeyHash<K>, L: LruList, const TYPE: u8>(
    table: &HashTable<K, V, H, L, TYPE>,
    key: &K,
    value: &V,
) -> bool
    ensures { result ≡ option_eq V.eq (Some value.now) (get K.eq (map_of table.now) key.now) }
{
    match value_by(table, key) {
        Some(own) => value.eq(own),
        None => false,
    }
}
