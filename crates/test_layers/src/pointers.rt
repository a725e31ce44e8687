//! Pointers into a bucket, and buckets in a vector.
use crate::checks::check_same;
use crate::probe::{insert_at, len_at};
use bucket_slots::bucket::{Bucket, EntryPtr, MAP};
use std::test::Fail;

type Pairs = Bucket<u64, u64, (), MAP>;

type At = EntryPtr<u64, u64, MAP>;

// Hashes with different bytes, each with the byte that is stored beside its pair.
const HASHES: [(u64, u8); 4] = [(0, 0), (255, 255), (256, 0), (4660, 52)];

// Whether a pointer is valid, and its place.
fn named(at: &At) -> (bool, usize, usize) {
    (at.is_valid(), at.block(), at.pos())
}

#[test]
fn a_pointer_is_null_or_names_a_pair_as_its_clone_does(rt: HostRuntime) -> Result<(), Fail> {
    check_same(&rt, named(&At::null()), (false, 0, 32), "null");
    for (hash, byte) in &HASHES {
        let mut bucket = Pairs::new(rt.alloc());
        bucket.insert(1, (1, 10), &())?;
        let at = bucket.insert(*hash, (7, 70), &())?;
        let found = (at.partial_hash(&bucket), *at.key(&bucket), *at.val(&bucket));
        check_same(&rt, found, (*byte, 7, 70), *hash);
        check_same(&rt, named(&at.clone()), (true, 0, 1), "clone");
        check_same(&rt, named(&at), (true, 0, 1), "pointer");
    }
    Ok(())
}

#[test]
fn buckets_in_a_vector_fill_apart(rt: HostRuntime) -> Result<(), Fail> {
    let mut buckets = Vec::new(rt.alloc());
    for _ in 0..3 {
        buckets.push(Pairs::new(rt.alloc()))?;
    }
    for (index, key) in [(1, 0), (1, 1), (1, 2), (1, 3), (1, 4), (2, 9)] {
        assert!(rt; index < buckets.len());
        insert_at(&mut buckets, index, 0, (key, key.wrapping_mul(10)), &())?;
    }
    for (index, len, pair, place) in [
        (0, 0, None, (false, 0, 32)),
        (1, 5, Some((&3, &30)), (true, 0, 3)),
        (2, 1, None, (false, 0, 32)),
    ] {
        assert!(rt; index < buckets.len());
        check_same(&rt, len_at(&buckets, index), len, index);
        check_same(&rt, buckets[index].search_entry(&3, 0), pair, index);
        check_same(
            &rt,
            named(&buckets[index].get_entry_ptr(&3, 0)),
            place,
            index,
        );
    }
    Ok(())
}
