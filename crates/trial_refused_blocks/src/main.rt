//! Reserves slots in a new bucket, repeatedly. If no allocation fails, each call succeeds.
//!
//! `trials/refused_blocks.sh` makes allocations fail, which shows how many slots are free: that
//! many can be reserved without an allocation, and no more.
#![tactic(auto)]

use bucket_slots::bucket::{Bucket, MAP};
use std::io;

/// How many slots each call reserves.
const ASKED: [usize; 6] = [40, 36, 37, 40, 40, 41];

fn main(rt: HostRuntime) -> io::Result<()> {
    let mut bucket = Bucket::<u64, u64, (), MAP>::new(rt.alloc());
    let mut granted = [false; 6];
    for (slots, granted) in ASKED.iter().zip(granted.iter_mut()) {
        *granted = bucket.reserve_slots(*slots).is_ok();
    }
    for (slots, granted) in ASKED.iter().zip(granted.iter()) {
        println!(rt; "{slots} {}", if *granted { "reserved" } else { "failed" })?;
    }
    Ok(())
}
