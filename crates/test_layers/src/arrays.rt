//! Arrays of buckets: a bucket that changes leaves the others unchanged, and hashes at both ends of
//! each interval have their homes, for each length.
use crate::by_key::kill_empty;
use crate::checks::check_same;
use crate::sizes::power_of_two;
use bucket_slots::bucket::{CACHE, INDEX, MAP};
use bucket_slots::bucket_array::BucketArray;
use bucket_table::hash_table::from_index_to_range;
use std::alloc::AllocError;
use std::process::Abort;
use std::test::Fail;

type Array = BucketArray<u64, u64, (), MAP>;

// Arrays of buckets without keys and values, which take little memory.
type Homes = BucketArray<(), (), (), MAP>;

// The binary logarithm of the greatest length that is tested.
const MOST: u32 = 20;

// Buckets of an array of eight parts, from the last to the first: at least one in each part, and
// those at the ends of some parts.
const IN_PARTS: [usize; 11] = [511, 510, 449, 448, 447, 320, 300, 255, 130, 64, 3];

#[test]
fn a_bucket_that_is_lent_leaves_the_others(rt: HostRuntime) -> Result<(), Fail> {
    let mut array = Array::alloc(rt.alloc(), 512 * 32)?;
    check_same(&rt, array.len(), 512, "long");
    check_filled(&rt, &array, &[]);
    for (done, index) in IN_PARTS.iter().enumerate() {
        for key in [*index as u64, 1000] {
            assert!(rt; *index < array.len());
            array
                .bucket_mut(*index)
                .insert(key, (key, key.wrapping_mul(10)), &())?;
        }
        check_filled(&rt, &array, &IN_PARTS[..done + 1]);
    }
    assert!(rt; 301 < array.len());
    check_same(&rt, kill_empty(array.bucket_mut(301)), true, "kills");
    for index in [300, 301, 302, 0] {
        assert!(rt; index < array.len());
        let killed = array.bucket(index).is_killed();
        check_same(&rt, killed, index == 301, ("killed", index));
    }
    let index = BucketArray::<u8, u8, (), INDEX>::alloc(rt.alloc(), 0)?;
    let cache = BucketArray::<u8, u8, (), CACHE>::alloc(rt.alloc(), 0)?;
    check_same(&rt, (index.len(), cache.len()), (2, 2), "of each kind");
    Ok(())
}

// Checks that these buckets have their index and 1000 as keys, in this order, and that the others
// are empty.
fn check_filled(rt: &impl Abort, array: &Array, filled: &[usize]) {
    for index in 0..array.len() {
        let there = filled.contains(&index);
        let block = array.data_block(index);
        let found = (
            array.bucket(index).len(),
            block.key(0).copied(),
            block.val(1).copied(),
        );
        let wanted = if there {
            (2, Some(index as u64), Some(10_000))
        } else {
            (0, None, None)
        };
        if found != wanted {
            check_same(rt, found, wanted, index);
        }
    }
}

// The home of the first hash of a bucket begins its range in another array, and the home of the
// last hash ends it. In an array of its own length the range is the bucket alone.
#[test]
fn ranges_go_from_the_home_of_the_first_hash_to_that_of_the_last(
    rt: HostRuntime,
) -> Result<(), AllocError> {
    for k in 1..=MOST {
        let array = Homes::alloc(rt.alloc(), 32 << k)?;
        check_same(&rt, array.len(), 1usize << k, k);
        for other in [k, 1, 5, 10, 16] {
            let lengths = (1usize << other, 1usize << k);
            let width = 1u64 << (64 - other);
            check_ranges(&rt, &array, lengths, width);
        }
    }
    Ok(())
}

// Checks the range of each bucket of an array in another one, whose lengths are given in that
// order. Each bucket of the first array has an interval of this width, and the last interval ends
// at the greatest hash.
fn check_ranges(rt: &impl Abort, array: &Homes, (from, to): (usize, usize), width: u64) {
    let len = power_of_two(rt, from);
    let other_len = power_of_two(rt, to);
    let mut first: u64 = 0;
    for index in 0..len {
        let last = first.wrapping_add(width.wrapping_sub(1));
        let (start, end) = from_index_to_range(len, other_len, index);
        let ends = (array.bucket_index(first), array.bucket_index(last));
        if (start, end - 1) != ends {
            check_same(rt, (start, end - 1), ends, (index, from, to));
        }
        first = last.wrapping_add(1);
    }
    check_same(rt, first, 0, from);
}
