//! Arrays of buckets, for runs in which an allocation fails.
ghost use Rattle.std.specs.Prelude.{◌<◌, length};

use crate::outcome::Outcome;
use bucket_slots::bucket::MAP;
use bucket_slots::bucket_array::BucketArray;
use std::alloc::Global;

type Array = BucketArray<u64, u64, (), MAP>;

// Capacities, and the slots of their arrays.
const CAPACITIES: [(usize, usize); 3] = [(0, 64), (65, 128), (1000, 1024)];

// A capacity whose array has 256 buckets, in four parts.
const IN_PARTS: usize = 8192;

/// Makes an array for each capacity, and drops it; and then one with several parts, and fills a
/// bucket in each, which allocates nothing more.
pub(crate) fn arrays(alloc: Global) -> Outcome {
    for (capacity, slots) in CAPACITIES {
        let Ok(array) = Array::alloc(alloc, capacity) else {
            return Outcome::AsBefore;
        };
        if array.num_slots() != slots {
            return Outcome::Wrong;
        }
    }
    let Ok(mut array) = Array::alloc(alloc, IN_PARTS) else {
        return Outcome::AsBefore;
    };
    for index in [255, 70, 130, 0] {
        if index >= array.len() || !fills(&mut array, index) {
            return Outcome::Wrong;
        }
    }
    Outcome::Done
}

/// Fills the own slots of an empty bucket.
fn fills(array: &mut Array, index: usize) -> bool
    requires { index < length array.old }
{
    let bucket = array.bucket_mut(index);
    for key in 0..32 {
        if bucket.insert(0, (key, key), &()).is_err() {
            return false;
        }
    }
    bucket.len() == 32
}
