//! Calls on a bucket of counted values whose keys have the same hash.
ghost use Rattle.std.specs.Prelude.{◌≢◌, IfSome, IsTrue};
ghost use Rattle.bucket_slots.specs.BucketView.{slot_in};
ghost use Rattle.bucket_slots.specs.Slots.{is_live};

use bucket_slots::bucket::{Bucket, EntryPtr, INDEX};
use std::io;
use std::rc::Rc;

/// A bucket of values that are counted.
pub(crate) type Counted<const TYPE: u8> = Bucket<u64, Rc<u64>, (), TYPE>;

/// The hash of each key.
const HASH: u64 = 0;

/// Puts a clone of the value under each key from 0 on, and returns the block and the position of
/// the last one.
pub(crate) fn put_keys<const TYPE: u8>(
    bucket: &mut Counted<TYPE>,
    keys: u64,
    counted: &Rc<u64>,
) -> io::Result<(usize, usize)> {
    let mut last = (0, 0);
    for key in 0..keys {
        let Ok(at) = bucket.insert(HASH, (key, counted.clone()?), &()) else {
            return Err(io::Error::from(io::ErrorKind::OutOfMemory));
        };
        last = (at.block(), at.pos());
    }
    Ok(last)
}

/// Returns a pointer to the pair of a key, if there is one.
pub(crate) fn find<const TYPE: u8>(
    bucket: &Counted<TYPE>,
    key: u64,
) -> Option<EntryPtr<u64, Rc<u64>, TYPE>>
    ensures { IfSome result (λ at. IsTrue (is_live (slot_in bucket.now at))) }
{
    let at = bucket.get_entry_ptr(&key, HASH);
    if at.is_valid() { Some(at) } else { None }
}

/// Removes the pair of a key and drops it, and returns whether there was one.
pub(crate) fn remove_key<const TYPE: u8>(bucket: &mut Counted<TYPE>, key: u64) -> bool
    requires not_index { TYPE ≢ INDEX }
{
    let Some(mut at) = find(bucket, key) else {
        return false;
    };
    bucket.remove(&mut at).0 == key
}
