//! Buckets without a pair that have 100,000 blocks: a search doesn't go over the blocks. If it did,
//! the test would exceed its time limit.
use crate::by_key::{mark_key, remove_at};
use crate::checks::check_same;
use bucket_slots::bucket::{Bucket, EqProbe, INDEX, MAP};
use std::alloc::Global;
use std::process::Abort;
use std::test::Fail;

// A bucket of numbers under hash 0.
type Pairs<const TYPE: u8> = Bucket<u64, u64, (), TYPE>;

// The own slots, and those of the blocks.
const SLOTS: usize = 400_032;

// How many keys are looked up, each by five calls.
const LOOKED_UP: u64 = 20_000;

// How many pairs were in the bucket: none, or those of the own slots and of a block. An index keeps
// them as tombstones.
const GONE: [u64; 2] = [0, 36];

#[test]
fn a_bucket_without_a_pair_is_not_searched(rt: HostRuntime) -> Result<(), Fail> {
    for pairs in &GONE {
        check_misses(&rt, &emptied::<MAP>(rt.alloc(), *pairs)?, *pairs);
        check_misses(&rt, &emptied::<INDEX>(rt.alloc(), *pairs)?, *pairs);
    }
    Ok(())
}

// A bucket with the blocks, whose pairs were removed.
fn emptied<const TYPE: u8>(alloc: Global, pairs: u64) -> Result<Pairs<TYPE>, Fail> {
    let mut bucket = Pairs::<TYPE>::new(alloc);
    bucket.reserve_slots(SLOTS)?;
    for key in 0..pairs {
        bucket.insert(0, (key, key), &())?;
    }
    for key in 0..pairs {
        if !mark_key(&mut bucket, key, 0, &()) && remove_at(&mut bucket, key, 0).is_none() {
            return Err("no such key".into());
        }
    }
    Ok(bucket)
}

// Checks that no call finds a key.
fn check_misses<const TYPE: u8>(rt: &impl Abort, bucket: &Pairs<TYPE>, pairs: u64) {
    let mut missed: u64 = 0;
    for key in 0..LOOKED_UP {
        missed = missed.wrapping_add(misses(bucket, key));
    }
    check_same(
        rt,
        (bucket.len(), missed),
        (0, 5 * LOOKED_UP),
        (TYPE, pairs),
    );
}

// How many of the five calls don't find a key.
fn misses<const TYPE: u8>(bucket: &Pairs<TYPE>, key: u64) -> u64 {
    let mut missed: u64 = 0;
    for found in [
        bucket.search_entry(&key, 0).is_some(),
        bucket.peek_entry(&key, 0).is_some(),
        bucket.get_entry_ptr(&key, 0).is_valid(),
        bucket.peek_entry_by(0, &mut EqProbe::new(&key)).is_some(),
        bucket
            .get_entry_ptr_by(0, &mut EqProbe::new(&key))
            .is_valid(),
    ] {
        missed = missed.wrapping_add(u64::from(!found));
    }
    missed
}
