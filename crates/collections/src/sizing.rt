//! How many slots a number of pairs needs.
ghost use Rattle.std.specs.Int.{IsPowerOfTwo};
ghost use Rattle.std.specs.Prelude.{◌≡◌, ◌≤◌, ◌↔◌, ◌^◌, IsTrue, MatchOption, max, min};
ghost use Rattle.bucket_slots.specs.Sizing.{IsLeastPowerOfTwo, IsTooFull};
ghost use Rattle.collections.specs.Capacity.{AreTooMany, IsMinimumFor, IsSlotsFor};

use bucket_slots::bucket_array::MAXIMUM_SLOTS;
use bucket_table::hash_table::MAXIMUM_CAPACITY_LIMIT;

/// The least number of slots that an array has.
pub(crate) const LEAST_CAPACITY: usize = 64;

/// Returns the largest maximum that a collection can have, 2^63 slots.
pub(crate) fn widest() -> usize
    ensures power { IsPowerOfTwo result }
    ensures value { result ≡ 2 ^ 63 }
{
    MAXIMUM_CAPACITY_LIMIT
}

/// Returns the least power of two that is at least `slots` and 64, limited to 2^63.
pub(crate) fn size_for(slots: usize) -> usize
    ensures least { IsLeastPowerOfTwo (min (max slots 64) (2 ^ 63)) result }
    ensures power { IsPowerOfTwo result }
    ensures large { 64 ≤ result }
{
    slots
        .max(LEAST_CAPACITY)
        .min(MAXIMUM_CAPACITY_LIMIT)
        .next_power_of_two()
}

/// Returns `true` if `pairs` pairs fill more than 13/16 of `slots` slots.
pub(crate) fn is_too_full(slots: usize, pairs: usize) -> bool
    ensures { IsTrue result ↔ IsTooFull slots pairs }
{
    pairs > (slots / 16) * 13
}

/// Returns the fewest slots of an array that `pairs` pairs fill to at most 13/16; `None` if they
/// are too many for every array.
pub(crate) fn slots_for(pairs: usize) -> Option<usize>
    ensures { MatchOption result (AreTooMany pairs) (IsSlotsFor pairs) }
{
    if is_too_full(MAXIMUM_SLOTS, pairs) {
        return None;
    }
    let wanted = (pairs + 12) / 13 * 16;
    Some(wanted.max(LEAST_CAPACITY).next_power_of_two())
}

/// Returns the minimum of a map whose first array is to have room for `pairs` pairs.
pub(crate) fn minimum_for(pairs: usize) -> usize
    ensures { IsMinimumFor pairs result }
{
    if pairs == 0 {
        return LEAST_CAPACITY;
    }
    match slots_for(pairs) {
        Some(slots) => slots,
        None => MAXIMUM_CAPACITY_LIMIT,
    }
}
