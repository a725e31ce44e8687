//! Functions of numbers: the length of an array, when it is too full or too empty, its best
//! capacity, and the sizes of samples.
//!
//! Ports the arithmetic of scc's `src/hash_table/bucket_array.rs`, and the test in `HashTable` that
//! decides whether and to what capacity it is resized.
ghost use Rattle.std.specs.Prelude.{◌≡◌, ◌*◌, ◌+◌, ◌-◌, ◌/◌, ◌%◌, ◌^◌, ◌<◌, ◌≤◌, ◌↔◌, IsTrue};
ghost use Rattle.bucket_slots.specs.Sampling.{IsLargeSample, IsSmallSample, full_sample};
ghost use Rattle.bucket_slots.specs.Sizing.{
  IsGrownCapacity,
  IsLeastPowerOfTwo,
  IsLength,
  IsLengthFor,
  IsOptimalCapacity,
  IsPowerIn,
  IsTooEmpty,
  IsTooFull,
};

use crate::bucket::BUCKET_LEN;

/// The least number of slots of an array: two buckets.
pub(crate) const MINIMUM_CAPACITY: usize = 2 * BUCKET_LEN;

/// The greatest number of slots of an array. A greater capacity is reduced to it.
pub const MAXIMUM_SLOTS: usize = 1 << 62;

/// The logarithm of the greatest number of parts of an array.
const MOST_PARTS_BITS: u32 = 10;

/// The logarithm of the least length of a part, if the array has that many buckets.
pub(crate) const LEAST_PART_BITS: u32 = 6;

/// The greatest number of buckets that a full estimate reads.
const FULL_SAMPLE: usize = 128;

/// Returns the number of buckets that a first estimate of the number of entries reads.
///
/// `len` is the length of an array. Allocates nothing. O(1). scc: `BucketArray::small_sample_size`.
pub fn small_sample_size_of(len: usize) -> usize
    requires { IsPowerIn 2 (2 ^ 58) len }
    ensures { IsSmallSample len result }
{
    least_power_of_two(1 + large_sample_size_of(len).ilog2() as usize)
}

/// Returns the number of buckets that an accurate estimate of the number of entries reads.
///
/// `len` is the length of an array. Allocates nothing. O(1). scc: `BucketArray::large_sample_size`.
pub fn large_sample_size_of(len: usize) -> usize
    requires { IsPowerIn 2 (2 ^ 58) len }
    ensures { IsLargeSample len result }
{
    least_power_of_two(len.ilog2() as usize)
}

/// Returns the number of buckets that an estimate for a resize reads: all, but at most 128.
///
/// `len` is the length of an array. Allocates nothing. O(1). scc: `BucketArray::full_sample_size`.
pub fn full_sample_size_of(len: usize) -> usize
    requires { IsPowerIn 2 (2 ^ 58) len }
    ensures { result ≡ full_sample len }
{
    len.min(FULL_SAMPLE)
}

/// Returns the length of an array for a capacity in slots.
pub(crate) fn len_for(capacity: usize) -> usize
    ensures value { IsLengthFor capacity result }
    ensures length { IsLength result }
{
    let slots = least_power_of_two(capacity.min(MAXIMUM_SLOTS)).max(MINIMUM_CAPACITY);
    slots / BUCKET_LEN
}

/// Returns the number of parts of an array of this length, and the logarithm of their length: at
/// most 1,024 parts, of at least 64 buckets. A shorter array is one part.
pub(crate) fn parts_for(len: usize) -> (usize, u32)
    requires { IsLength len }
    ensures whole { len ≡ result.0 * 2 ^ result.1 }
    ensures bits { result.1 < 64 }
{
    let bits = len.ilog2();
    let part_bits = bits
        .saturating_sub(MOST_PARTS_BITS)
        .max(LEAST_PART_BITS)
        .min(bits);
    (len >> part_bits, part_bits)
}

/// Returns the part of a bucket, and its offset in that part.
#[inline(always)]
pub(crate) fn place_of(index: usize, part_bits: u32, part_mask: usize) -> (usize, usize)
    requires few_bits { part_bits < 64 }
    requires mask { part_mask ≡ 2 ^ part_bits - 1 }
    ensures part { result.0 ≡ index / 2 ^ part_bits }
    ensures offset { result.1 ≡ index % 2 ^ part_bits }
{
    (index >> part_bits, index & part_mask)
}

/// Returns the number of indices from `start` up to but not including `end`.
#[inline(always)]
pub(crate) fn span(start: usize, end: usize) -> usize
    ensures { start + result ≤ 2 ^ 64 }
{
    end.saturating_sub(start)
}

/// Returns whether a number of entries is too large for the capacity.
pub(crate) fn need_enlarge(capacity: usize, num_entries: usize) -> bool
    ensures { IsTrue result ↔ IsTooFull capacity num_entries }
{
    num_entries > (capacity / 16) * 13
}

/// Returns whether a number of entries is too small for the capacity.
pub(crate) fn need_shrink(capacity: usize, num_entries: usize) -> bool
    ensures { IsTrue result ↔ IsTooEmpty capacity num_entries }
{
    num_entries < capacity / 8
}

/// Returns the best capacity for a number of entries.
pub(crate) fn optimal_capacity(
    capacity: usize,
    num_entries: usize,
    minimum_capacity: usize,
    maximum_capacity: usize,
) -> usize
    requires maximum { IsPowerIn 64 (2 ^ 63) maximum_capacity }
    requires bounded { minimum_capacity ≤ maximum_capacity }
    requires capacity { IsPowerIn 1 maximum_capacity capacity }
    ensures { IsOptimalCapacity capacity num_entries minimum_capacity maximum_capacity result }
{
    if capacity < minimum_capacity || need_enlarge(capacity, num_entries) {
        grown_capacity(capacity, num_entries, minimum_capacity, maximum_capacity)
    } else if need_shrink(capacity, num_entries) {
        let wanted = (num_entries * 2).max(minimum_capacity);
        least_power_of_two(wanted.max(MINIMUM_CAPACITY))
    } else {
        capacity
    }
}

/// Returns the capacity that a growth aims at.
fn grown_capacity(
    capacity: usize,
    num_entries: usize,
    minimum_capacity: usize,
    maximum_capacity: usize,
) -> usize
    requires maximum { IsPowerIn 64 (2 ^ 63) maximum_capacity }
    requires bounded { minimum_capacity ≤ maximum_capacity }
    requires capacity { IsPowerIn 1 maximum_capacity capacity }
    ensures { IsGrownCapacity capacity num_entries minimum_capacity maximum_capacity result }
{
    let start = least_power_of_two(minimum_capacity)
        .max(capacity)
        .min(maximum_capacity);
    let mut grown = start;
    while grown / 2 < num_entries && grown < maximum_capacity {
        grown *= 2;
    }
    grown
}

/// Returns the least power of two that is at least `n`.
fn least_power_of_two(n: usize) -> usize
    requires { n ≤ 2 ^ 63 }
    ensures { IsLeastPowerOfTwo n result }
{
    n.next_power_of_two()
}
