//! Numbers grouped under keys, and replacing a value.
ghost use Rattle.std.specs.Prelude.{◌≡◌, ◌++◌, ◌∷◌, [], IsTrue, MatchOption, OnOk, Some, true};
ghost use Rattle.collections.specs.Maps.{contains, get};

use collections::hash_map::{Entry, HashMap};
use std::alloc::AllocError;

/// Appends a number to those of its key.
///
/// # Errors
///
/// Allocation failure: the key may be new, and have no number.
///
/// O(1) expected, plus any resize.
pub fn group(groups: &mut HashMap<u64, Vec<u64>>, key: u64, number: u64) -> Result<(), AllocError>
    ensures { OnOk result (MatchOption (get ⟦<u64 as PartialEq>⟧.eq groups.new key) ⊥ (λ numbers.
        MatchOption (get ⟦<u64 as PartialEq>⟧.eq groups.old key) (numbers.items ≡ number ∷ [])
        (λ earlier. numbers.items ≡ earlier.items ++ number ∷ []))) }
{
    groups.entry(key).or_default()?.push(number)?;
    Ok(())
}

/// Replaces the value of a key, and returns whether the map contains the key.
///
/// O(1) expected.
pub fn overwrite(map: &mut HashMap<u64, u64>, key: u64, value: u64) -> bool
    ensures found { result ≡ contains ⟦<u64 as PartialEq>⟧.eq map.old key }
    ensures written { IsTrue result → get ⟦<u64 as PartialEq>⟧.eq map.new key ≡ Some value }
{
    match map.entry(key) {
        Entry::Occupied(mut place) => {
            *place.get_mut() = value;
            true
        }
        Entry::Vacant(_) => false,
    }
}
