//! The cost of making an array of 2^20 slots, compared with filling as much memory with zeros.
use bucket_slots::bucket::{Bucket, MAP};
use bucket_slots::bucket_array::BucketArray;
use std::alloc::Global;
use std::time::{Duration, Instant};
use std::{io, mem};

type Pairs = Bucket<u64, u64, (), MAP>;

type Array = BucketArray<u64, u64, (), MAP>;

/// The number of slots of the array.
const SLOTS: usize = 1 << 20;

/// How many times each is made.
const ROUNDS: usize = 9;

/// The number of words of the array's buckets: 2^15 buckets.
const WORDS: usize = (1 << 12) * mem::size_of::<Pairs>();

/// Prints the cost of an array, and of as much memory of zeros.
pub(crate) fn run_arrays(rt: &HostRuntime, prints_times: bool) -> io::Result<()> {
    let mut array_time = Duration::MAX;
    let mut zeros_time = Duration::MAX;
    let mut slots = 0;
    let mut are_zero = true;
    for _ in 0..ROUNDS {
        let start = Instant::now(rt)?;
        let array = array_of(rt.alloc(), SLOTS)?;
        array_time = array_time.min(start.elapsed(rt)?);
        slots = array.num_slots();
        drop(array);

        let start = Instant::now(rt)?;
        let zeros = zeros_of(rt.alloc(), WORDS)?;
        zeros_time = zeros_time.min(start.elapsed(rt)?);
        are_zero = are_zero && zeros.last() == Some(&0);
        drop(zeros);
    }
    println!(rt; "{slots} slots, zeros {are_zero}, {ROUNDS} rounds")?;
    if prints_times {
        println!(rt;
            "array {} us, zeros {} us",
            array_time.as_micros(),
            zeros_time.as_micros()
        )?;
    }
    Ok(())
}

/// Returns an array for a capacity in slots.
fn array_of(alloc: Global, slots: usize) -> io::Result<Array> {
    match Array::alloc(alloc, slots) {
        Ok(array) => Ok(array),
        Err(_) => Err(io::Error::from(io::ErrorKind::OutOfMemory)),
    }
}

/// Returns as many words of zero.
fn zeros_of(alloc: Global, words: usize) -> io::Result<Vec<u64>> {
    let mut zeros = Vec::with_capacity(alloc, words)?;
    zeros.resize(words, 0)?;
    Ok(zeros)
}
