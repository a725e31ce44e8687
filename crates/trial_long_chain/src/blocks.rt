//! Blocks of free slots, reserved and freed: with their bucket, by a kill, and by a clearing.
use crate::by_key::{Counted, put_keys};
use bucket_slots::bucket::{INDEX, MAP};
use std::io;
use std::rc::Rc;

/// How many blocks are reserved.
const BLOCKS: usize = 100_000;

/// The own slots plus those of the blocks: that many are free after the blocks are reserved.
const SLOTS: usize = 400_032;

const _: () = prove!(SLOTS == 32 + 4 * BLOCKS);

/// How many keys are inserted: they fill the own slots and one block, and the last one needs
/// another block.
const KEYS: u64 = 37;

/// The blocks are freed with their bucket, which has a few pairs.
pub(crate) fn drop_them(rt: &HostRuntime) -> io::Result<()> {
    let counted = Rc::new(rt.alloc(), 0)?;
    let mut bucket = reserved::<MAP>(rt)?;
    let (block, _) = put_keys(&mut bucket, KEYS, &counted)?;
    print!(rt; "{BLOCKS} blocks reserved: the last of {KEYS} pairs is in block {block}; ")?;
    drop(bucket);
    println!(rt; "dropped: {} value is left", Rc::strong_count(&counted))
}

/// The blocks are freed by a kill of their bucket, so that later pairs need blocks again.
pub(crate) fn kill_them(rt: &HostRuntime) -> io::Result<()> {
    let counted = Rc::new(rt.alloc(), 0)?;
    let mut bucket = reserved::<MAP>(rt)?;
    if bucket.len() != 0 || bucket.is_killed() {
        return Err(io::Error::from(io::ErrorKind::InvalidData));
    }
    bucket.kill();
    let (block, _) = put_keys(&mut bucket, KEYS, &counted)?;
    println!(rt; "{BLOCKS} blocks killed: the last of {KEYS} pairs is in block {block}")
}

/// The blocks of an index are freed by a clearing.
pub(crate) fn clear_them(rt: &HostRuntime) -> io::Result<()> {
    let counted = Rc::new(rt.alloc(), 0)?;
    let mut bucket = reserved::<INDEX>(rt)?;
    let taken = bucket.clear_unreachable_entries(&());
    let (block, _) = put_keys(&mut bucket, KEYS, &counted)?;
    println!(rt;
        "{BLOCKS} blocks cleared: {taken} own slots taken; \
        the last of {KEYS} pairs is in block {block}"
    )
}

/// Returns a bucket with these blocks, whose slots are all free.
fn reserved<const TYPE: u8>(rt: &HostRuntime) -> io::Result<Counted<TYPE>> {
    let mut bucket = Counted::<TYPE>::new(rt.alloc());
    match bucket.reserve_slots(SLOTS) {
        Ok(()) => Ok(bucket),
        Err(_) => Err(io::Error::from(io::ErrorKind::OutOfMemory)),
    }
}
