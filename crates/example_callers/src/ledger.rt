//! A ledger: counts of names, each the sum of what was added less what was taken.
ghost use Rattle.std.specs.Prelude.{◌≡◌, ◌+◌, IfOk, OnErr, OnOk};
ghost use Rattle.example_callers.specs.Held.{held, HoldsAsBefore, HoldsThen};
ghost use Rattle.example_callers.specs.Moves.{Settles};

use bucket_table::key_hash::KeyHash;
use collections::hash_map::HashMap;

/// Why a count stays as it is.
#[derive(Clone, Copy, Debug, PartialEq, Eq)]
pub enum NotMoved {
    /// The sum would exceed the greatest `u64`.
    TooMany,
    /// More would be taken than the name holds.
    TooFew,
    /// Allocation failed.
    NoMemory,
}

/// A line of a ledger: a count that is added to a name, or taken from it.
#[derive(Clone, Copy)]
pub struct Move<K> {
    /// Whose count it is.
    pub name: K,
    /// Whether it is added.
    pub is_added: bool,
    /// How many are added or taken.
    pub count: u64,
}

/// Returns how many of a name are held: 0 if the map does not contain the name.
///
/// O(1) expected.
pub fn held<K: Eq, H: KeyHash<K>>(counts: &HashMap<K, u64, H>, name: &K) -> u64
    ensures { result ≡ held K.eq counts.now name.now }
{
    counts.get(name).copied().unwrap_or(0)
}

/// Adds to a name, and returns its sum.
///
/// # Errors
///
/// The sum doesn't fit, or allocation failed: each name holds what it held.
///
/// O(1) expected, plus any resize.
pub fn add<K: Eq + Drop, H: KeyHash<K>>(
    counts: &mut HashMap<K, u64, H>,
    name: K,
    count: u64,
) -> Result<u64, NotMoved>
    ensures sum { IfOk result (λ sum. sum ≡ held K.eq counts.old name + count) }
    ensures moved { IfOk result (λ sum. HoldsThen K.eq counts.old name sum counts.new) }
    ensures unchanged { OnErr result (HoldsAsBefore K.eq counts.old counts.new) }
{
    let Some(sum) = held(counts, &name).checked_add(count) else {
        return Err(NotMoved::TooMany);
    };
    match counts.upsert(name, sum) {
        Ok(_) => Ok(sum),
        Err(_) => Err(NotMoved::NoMemory),
    }
}

/// Takes from a name, and returns what is left.
///
/// # Errors
///
/// More would be taken than the name holds: each name holds what it held.
///
/// O(1) expected.
pub fn take<K: Eq + Drop, H: KeyHash<K>>(
    counts: &mut HashMap<K, u64, H>,
    name: &K,
    count: u64,
) -> Result<u64, NotMoved>
    ensures left { IfOk result (λ left. left + count ≡ held K.eq counts.old name.now) }
    ensures moved { IfOk result (λ left. HoldsThen K.eq counts.old name.now left counts.new) }
    ensures unchanged { OnErr result (HoldsAsBefore K.eq counts.old counts.new) }
{
    let Some(left) = held(counts, name).checked_sub(count) else {
        return Err(NotMoved::TooFew);
    };
    counts.update(name, |_, held| *held = left);
    Ok(left)
}

/// Makes the moves of a list in order. Each name then holds what it held, plus what was added to
/// it, less what was taken.
///
/// # Errors
///
/// A move can't be made: those before it are made.
///
/// O(moves) expected, plus any resizes.
pub fn settle<K: Eq + Copy, H: KeyHash<K>>(
    counts: &mut HashMap<K, u64, H>,
    moves: &[Move<K>],
) -> Result<(), NotMoved>
    ensures { OnOk result (Settles K.eq moves.now counts.old counts.new) }
{
    for one in moves {
        if one.is_added {
            add(counts, one.name, one.count)?;
        } else {
            take(counts, &one.name, one.count)?;
        }
    }
    Ok(())
}
