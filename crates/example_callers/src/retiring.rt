//! Removing keys from an index, which keeps their pairs as tombstones.
ghost use Rattle.std.specs.Prelude.{◌≡◌};
ghost use Rattle.std.specs.List.{count_by};
ghost use Rattle.bucket_slots.specs.Marking.{MarksBy};
ghost use Rattle.bucket_table.specs.Views.ArraysView.{tombstones_of};
ghost use Rattle.collections.specs.Maps.{contains, map_of};
ghost use Rattle.example_callers.specs.Without.{IsWithout};

use bucket_table::key_hash::KeyHash;
use collections::hash_index::HashIndex;

/// Removes the keys of a list from an index, and returns how many keys of another list it still
/// contains. Each removed pair stays as a tombstone, which `contains` doesn't see.
///
/// Never fails. O(keys) expected, plus any resize.
pub fn retire_keys<K: Eq + Drop, V: Drop, H: KeyHash<K>>(
    index: &mut HashIndex<K, V, H>,
    retired: &[K],
    asked: &[K],
) -> usize
    ensures left { result ≡ count_by (contains K.eq (map_of index.new)) asked.now }
    ensures map { IsWithout K.eq retired.now (map_of index.old) (map_of index.new) }
    ensures marks { MarksBy 0 (tombstones_of index.old.arrays) (tombstones_of index.new.arrays) }
{
    for key in retired {
        index.remove(key);
    }
    let mut left = 0;
    for other in asked {
        if index.contains(other) {
            left += 1;
        }
    }
    left
}
