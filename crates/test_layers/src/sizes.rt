//! Lengths, thresholds, samples, capacities, homes and ranges: calls with their answers.
ghost use Rattle.std.specs.Prelude.{◌≡◌, ◌≤◌, ◌^◌};
ghost use Rattle.std.specs.Int.{IsPowerOfTwo};
ghost use Rattle.bucket_slots.specs.Sizing.{IsPowerIn};

use crate::checks::check_same;
use Made::*;
use Rule::*;
use Size::*;
use bucket_slots::bucket::{AllocError, MAP};
use bucket_slots::bucket_array::{
    BucketArray, full_sample_size_of, large_sample_size_of, small_sample_size_of,
};
use bucket_table::hash_table::{
    from_index_to_range, num_entries_from_hint, table_capacity_from_num_entries,
};
use std::alloc::Global;
use std::process::Abort;
use test_helpers::steps;

type Array = BucketArray<u64, u64, (), MAP>;

// The greatest capacity of a table.
const M: usize = 1 << 63;

// The greatest `usize`.
const MAX: usize = usize::MAX;

/// A call, with its answer last.
enum Size {
    Made(Made),
    Rule(Rule),
}

/// A call on a new array, or one whose allocation fails.
enum Made {
    /// The slots and the length of an array for a capacity; none if that fails.
    Extent(usize, Option<(usize, usize)>),
    /// The small, the large and the full sample of such an array.
    ArraySamples(usize, (usize, usize, usize)),
    /// The home of a hash in an array for a capacity.
    Home(usize, u64, usize),
    /// Whether a hash starts a sampling there: whether its low byte is a multiple of the large
    /// sample.
    Starts(usize, u64, bool),
}

/// A call that allocates nothing.
enum Rule {
    /// The small, the large and the full sample of a length.
    Samples(usize, (usize, usize, usize)),
    /// Whether a capacity's slots are too full for a number of entries.
    Full(usize, usize, bool),
    /// Whether they are too empty.
    Empty(usize, usize, bool),
    /// The best capacity, given the present one, a number of entries, a minimum and a maximum.
    Best(usize, usize, usize, usize, usize),
    /// The least capacity of all.
    Least(usize),
    /// The capacity for a number of entries: a quarter more slots.
    For(usize, usize),
    /// The number of entries that a hint promises, which is its upper bound.
    Hint(usize, Option<usize>, usize),
    /// Given an array's length, another's, and an index in the first: its range in the second.
    IndexRange(usize, usize, usize, (usize, usize)),
}

const SIZES: &[Size] = steps! {
    Made(Extent(0, Some((64, 2)))), Made(Extent(1, Some((64, 2)))), Made(Extent(64, Some((64, 2)))),
    Made(Extent(65, Some((128, 4)))), Made(Extent(128, Some((128, 4)))),
    Made(Extent(129, Some((256, 8)))), Made(Extent(1000, Some((1024, 32)))),
    Made(Extent(4096, Some((4096, 128)))),
    // These exceed the address space.
    Made(Extent(MAX, None)), Made(Extent(1 << 63, None)), Made(Extent(1 << 62, None)),

    Made(ArraySamples(64, (1, 1, 2))), Made(ArraySamples(512, (4, 4, 16))),
    Made(ArraySamples(32768, (8, 16, 128))), Rule(Samples(2, (1, 1, 2))),
    Rule(Samples(4, (2, 2, 4))), Rule(Samples(8, (4, 4, 8))), Rule(Samples(16, (4, 4, 16))),
    Rule(Samples(128, (4, 8, 128))), Rule(Samples(1024, (8, 16, 128))),
    Rule(Samples(65536, (8, 16, 128))), Rule(Samples(1048576, (8, 32, 128))),
    Rule(Samples(1 << 58, (8, 64, 128))),

    // More than thirteen of sixteen are too many, and fewer than one of eight are too few.
    Rule(Full(64, 52, false)), Rule(Full(64, 53, true)), Rule(Full(0, 0, false)),
    Rule(Full(0, 1, true)), Rule(Full(15, 1, true)), Rule(Full(MAX, MAX, true)),
    Rule(Empty(64, 8, false)), Rule(Empty(64, 7, true)), Rule(Empty(0, 0, false)),
    Rule(Empty(7, 0, false)), Rule(Empty(8, 0, true)), Rule(Empty(MAX, MAX, false)),

    Rule(Best(64, 53, 0, M, 128)), Rule(Best(1024, 10, 0, M, 64)), Rule(Best(64, 0, 1000, M, 1024)),
    Rule(Best(64, 0, 0, 64, 64)), Rule(Best(128, 200, 0, 128, 128)),
    Rule(Best(64, 33, 100, M, 128)), Rule(Best(64, 200, 0, 256, 256)), Rule(Best(64, 52, 0, M, 64)),
    Rule(Best(64, 8, 0, M, 64)), Rule(Best(1024, 100, 300, M, 512)), Rule(Best(64, MAX, 0, M, M)),
    Rule(Best(M, MAX, M, M, M)), Rule(Best(M, 0, 0, M, 64)), Rule(Least(64)),

    Rule(For(0, 1)), Rule(For(3, 1)), Rule(For(4, 8)), Rule(For(64, 128)), Rule(For(100, 128)),
    Rule(For(1 << 62, 1 << 62)), Rule(For(MAX, 1 << 62)), Rule(Hint(3, None, 3)),
    Rule(Hint(3, Some(9), 9)), Rule(Hint(MAX, Some(0), 0)),

    // With two buckets, the second is the home of the upper half of the hashes. Then eight buckets.
    Made(Home(64, 0, 0)), Made(Home(64, (1 << 63) - 1, 0)), Made(Home(64, 1 << 63, 1)),
    Made(Home(64, u64::MAX, 1)), Made(Extent(256, Some((256, 8)))), Made(Starts(256, 0, true)),
    Made(Starts(256, 4, true)), Made(Starts(256, 6, false)), Made(Starts(256, 3, false)),
    Made(Starts(256, 252, true)), Made(Starts(256, 255, false)), Made(Starts(256, 256 + 2, false)),
    Made(Starts(256, 1 << 63, true)),

    Rule(IndexRange(2, 8, 1, (4, 8))), Rule(IndexRange(8, 2, 5, (1, 2))),
    Rule(IndexRange(4, 4, 3, (3, 4))), Rule(IndexRange(1, 8, 0, (0, 8))),
    Rule(IndexRange(8, 1, 7, (0, 1))), Rule(IndexRange(2, 8, 0, (0, 4))),
    Rule(IndexRange(1, 1 << 63, 0, (0, 1 << 63))),
    Rule(IndexRange(1 << 63, 1, (1 << 63) - 1, (0, 1)))
};

#[test]
fn sizes_are_those_of_the_rules(rt: HostRuntime) -> Result<(), AllocError> {
    for (row, size) in SIZES.iter().enumerate() {
        match size {
            Made(call) => check_made(&rt, rt.alloc(), row, call)?,
            Rule(call) => check_rule(&rt, row, call),
        }
    }
    Ok(())
}

// Makes a call on an array that is made, and checks its answer.
fn check_made(rt: &impl Abort, alloc: Global, row: usize, call: &Made) -> Result<(), AllocError> {
    match *call {
        Extent(capacity, extent) => {
            let found = match Array::alloc(alloc, capacity) {
                Ok(array) => Some((array.num_slots(), array.len())),
                Err(AllocError) => None,
            };
            check_same(rt, found, extent, (row, "extent", capacity));
        }
        ArraySamples(capacity, samples) => {
            let array = Array::alloc(alloc, capacity)?;
            let large = array.large_sample_size();
            let found = (array.small_sample_size(), large, array.full_sample_size());
            check_same(rt, found, samples, (row, "array's samples", capacity));
        }
        Home(capacity, hash, index) => {
            let array = Array::alloc(alloc, capacity)?;
            check_same(rt, array.bucket_index(hash), index, (row, "home", hash));
        }
        Starts(capacity, hash, starts) => {
            let array = Array::alloc(alloc, capacity)?;
            check_same(
                rt,
                array.initiate_sampling(hash),
                starts,
                (row, "starts", hash),
            );
        }
    }
    Ok(())
}

// Makes a call that allocates nothing, and checks its answer.
fn check_rule(rt: &impl Abort, row: usize, call: &Rule) {
    match *call {
        Samples(len, samples) => {
            assert!(rt; len >= 2 && len <= 1 << 58);
            let power = power_up_to(rt, len, 1 << 58);
            let large = large_sample_size_of(power);
            let found = (
                small_sample_size_of(power),
                large,
                full_sample_size_of(power),
            );
            check_same(rt, found, samples, (row, "samples", len));
        }
        Full(capacity, entries, full) => {
            let found = Array::need_enlarge(capacity, entries);
            check_same(rt, found, full, (row, "full", capacity));
        }
        Empty(capacity, entries, empty) => {
            let found = Array::need_shrink(capacity, entries);
            check_same(rt, found, empty, (row, "empty", capacity));
        }
        Best(capacity, entries, least, most, best) => {
            let found = best_capacity(rt, capacity, entries, least, most);
            check_same(rt, found, best, (row, "best", capacity));
        }
        For(entries, capacity) => {
            let found = table_capacity_from_num_entries(entries);
            check_same(rt, found, capacity, (row, "for", entries));
        }
        Hint(low, high, entries) => {
            let found = num_entries_from_hint((low, high));
            check_same(rt, found, entries, (row, "hint", low));
        }
        IndexRange(from, to, index, range) => {
            let len = power_of_two(rt, from);
            let other_len = power_of_two(rt, to);
            assert!(rt; index < len);
            let found = from_index_to_range(len, other_len, index);
            check_same(rt, found, range, (row, "range", index));
        }
        Least(least) => check_same(rt, Array::minimum_capacity(), least, (row, "least", 0usize)),
    }
}

// The best capacity for entries, from the least to the greatest.
fn best_capacity(
    rt: &impl Abort,
    capacity: usize,
    entries: usize,
    least: usize,
    most: usize,
) -> usize {
    assert!(rt; most >= 64 && most <= M);
    let greatest = power_up_to(rt, most, M);
    let slots = power_up_to(rt, capacity, greatest);
    assert!(rt; least <= greatest);
    Array::optimal_capacity(slots, entries, least, greatest)
}

/// Returns the number, and checks that it is a power of two.
pub(crate) fn power_of_two(rt: &impl Abort, n: usize) -> usize
    ensures value { result ≡ n }
    ensures power { IsPowerOfTwo result }
{
    assert!(rt; n <= M);
    let power = n.next_power_of_two();
    assert_eq!(rt; power, n);
    power
}

// Returns the number, and checks that it is a power of two up to a bound.
fn power_up_to(rt: &impl Abort, n: usize, most: usize) -> usize
    requires { most ≤ 2 ^ 63 }
    ensures value { result ≡ n }
    ensures power { IsPowerIn 1 most result }
{
    assert!(rt; n <= most);
    let power = n.next_power_of_two();
    assert_eq!(rt; power, n);
    power
}
