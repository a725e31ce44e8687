//! Counting the keys of a list, as in counting words.
ghost use Rattle.std.specs.Prelude.{OnErr, OnOk};
ghost use Rattle.collections.specs.Maps.{IsEmpty, IsUnique};
ghost use Rattle.example_callers.specs.Counts.{Counts, CountsFirst};

use bucket_table::key_hash::KeyHash;
use collections::hash_map::HashMap;
use std::alloc::AllocError;

/// Counts in an empty map how often each key is in a list.
///
/// # Errors
///
/// Allocation failure: the map counts a prefix of the list.
///
/// O(keys) expected.
pub fn count_keys<K: Eq + Copy, H: KeyHash<K>>(
    counts: &mut HashMap<K, u64, H>,
    keys: &[K],
) -> Result<(), AllocError>
    requires empty { IsEmpty counts.old }
    ensures counted { OnOk result (Counts K.eq keys.now counts.new) }
    ensures first_keys { OnErr result (CountsFirst K.eq keys.now counts.new) }
    ensures unique { IsUnique K.eq counts.new }
{
    for key in keys {
        let raised = counts.update(key, |_, count| *count = count.saturating_add(1));
        if raised.is_none() && counts.insert(*key, 1).is_err() {
            return Err(AllocError);
        }
    }
    Ok(())
}
