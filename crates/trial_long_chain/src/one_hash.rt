//! Pairs with one hash: all of them are found and walked, most are removed, and the rest dropped.
use crate::by_key::{Counted, find, put_keys, remove_key};
use bucket_slots::bucket::{EntryPtr, MAP};
use std::io;
use std::rc::Rc;

/// How many keys are inserted: they fill the own slots and 2,000 blocks.
const KEYS: u64 = 8_032;

/// The first key that was inserted into the chain.
const FIRST: u64 = 32;

/// Keys below the first are removed in insertion order: those of the chain from its last block.
/// Keys from the second on are removed in reverse order: each time the pair is in the head.
const REMOVED: (u64, u64) = (3_000, 5_000);

/// Puts keys into a bucket and removes most of them, and drops the others with the bucket.
pub(crate) fn come_and_go(rt: &HostRuntime) -> io::Result<()> {
    let counted = Rc::new(rt.alloc(), 0)?;
    let mut bucket = Counted::<MAP>::new(rt.alloc());
    put_and_remove(rt, &mut bucket, &counted)?;
    drop(bucket);
    println!(rt; "dropped: {} value is left", Rc::strong_count(&counted))
}

/// Puts the keys, finds and walks them, and removes most of them.
fn put_and_remove(
    rt: &HostRuntime,
    bucket: &mut Counted<MAP>,
    counted: &Rc<u64>,
) -> io::Result<()> {
    let last = put_keys(bucket, KEYS, counted)?;
    print_places(rt, bucket, last)?;
    println!(rt; "{} found, {} walked", find_all(bucket), walk(bucket))?;
    print!(rt; "{} removed: {} pairs, ", remove_most(bucket), bucket.len())?;
    println!(rt; "{} values are left", Rc::strong_count(counted))
}

/// Prints how many pairs there are, and where the first of the chain and the last one are.
fn print_places(
    rt: &HostRuntime,
    bucket: &Counted<MAP>,
    (block, pos): (usize, usize),
) -> io::Result<()> {
    let first = match find(bucket, FIRST) {
        Some(at) => at.block(),
        None => 0,
    };
    print!(rt; "{} pairs, key {FIRST} in block {first}, ", bucket.len())?;
    println!(rt; "the last at {pos} in block {block}")
}

/// How many keys are found.
fn find_all(bucket: &Counted<MAP>) -> u64 {
    let mut found = 0u64;
    for key in 0..KEYS {
        found = found.wrapping_add(u64::from(find(bucket, key).is_some()));
    }
    found
}

/// Removes keys in both orders, and returns how many were there.
fn remove_most(bucket: &mut Counted<MAP>) -> u64 {
    let mut removed = 0u64;
    for key in 0..REMOVED.0 {
        removed = removed.wrapping_add(u64::from(remove_key(bucket, key)));
    }
    for key in (REMOVED.1..KEYS).rev() {
        removed = removed.wrapping_add(u64::from(remove_key(bucket, key)));
    }
    removed
}

/// How many pairs a walk visits.
fn walk(bucket: &Counted<MAP>) -> u64 {
    let mut at = EntryPtr::null();
    let mut walked = 0u64;
    for _ in 0..KEYS {
        if at.find_next(bucket) {
            walked = walked.wrapping_add(1);
        }
    }
    walked
}
