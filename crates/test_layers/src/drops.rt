//! Values that are counted: each is dropped once, with its removed pair, with its tombstone, or
//! with its bucket, its array or its cleared table.
use crate::by_key::{kill_empty, mark_key, move_key, remove_at, write_key};
use crate::checks::check_same;
use crate::steps::{Answers, Kept, stories};
use Act::*;
use Expect::*;
use bucket_slots::bucket::{Bucket, INDEX, MAP};
use bucket_slots::bucket_array::BucketArray;
use bucket_table::hash_table::{HashTable, ResizeRule};
use bucket_table::script::ScriptHash;
use std::alloc::Global;
use std::ops::Range;
use std::process::Abort;
use std::rc::Rc;
use std::test::Fail;

/// A bucket of values that are counted.
type Counted<const TYPE: u8> = Bucket<u64, Rc<i32>, (), TYPE>;

// Inserts a clone of the value under hash 0.
fn insert_clone<const TYPE: u8>(
    bucket: &mut Counted<TYPE>,
    key: u64,
    counted: &Rc<i32>,
    kept: &Kept,
) -> Result<(), Fail> {
    let value = counted.clone()?;
    bucket.insert(0, (key, value), &Answers::new(0, kept))?;
    Ok(())
}

// A bucket with the keys from 0 on.
fn filled<const TYPE: u8>(
    alloc: Global,
    keys: u64,
    counted: &Rc<i32>,
) -> Result<Counted<TYPE>, Fail> {
    let mut bucket = Counted::<TYPE>::new(alloc);
    for key in 0..keys {
        insert_clone(&mut bucket, key, counted, &Kept::All)?;
    }
    Ok(bucket)
}

/// A call on a bucket, or an expectation.
enum Act {
    /// Insert a key, with a clone and a test of which tombstones are kept.
    Insert(u64, Kept),
    /// Write a clone over the value of each of these keys.
    Write(&'static [u64]),
    /// Reserve this many free slots.
    Reserve(usize),
    /// Remove the pairs of these keys.
    Remove(&'static [u64]),
    /// Remove the pairs of all keys below a number one after another, from the first key on, or
    /// backwards. Each value is dropped at once.
    RemoveAll(u64, bool),
    /// Mark the pairs of these keys as removed.
    Mark(&'static [u64]),
    /// Mark the pairs of keys as removed one after another. The bucket isn't killed before.
    MarkRange(Range<u64>),
    /// Drop tombstones, with a test of which are kept.
    ClearTombstones(Kept),
    /// Kill the bucket, which has no live pair. Then it finds nothing, and can't be killed again.
    Kill,
    Expect(Expect),
}

/// What is expected of a bucket.
enum Expect {
    /// How many there are of the value and its clones.
    Values(usize),
    /// How many pairs are live.
    Len(usize),
    /// An own slot has a value, live or a tombstone.
    OwnSlot(usize),
}

/// A name, how many keys from 0 on the bucket has at the start, and what happens then.
type Story = (&'static str, u64, &'static [Act]);

const OF_MAPS: &[Story] = stories! {
    "each value is dropped once with its bucket", 41:
        Expect(Values(42)), Remove(&[4, 39, 40]), Expect(Values(39));
    // The keys are in own slots, in the chain's head and in its last block.
    "an overwritten value is dropped", 41:
        Write(&[0, 31, 32, 35, 40]), Expect(Values(42)), Expect(Len(41)), Remove(&[32, 40]),
        Expect(Values(40));
    // Two free blocks are behind the one of live pairs. That one is removed, and a pair is
    // inserted into one of them.
    "free blocks hold no value", 33:
        Reserve(11), Expect(Values(34)), Remove(&[32]), Expect(Values(33)), Insert(50, Kept::All),
        Expect(Values(34));
    // In order, the last of 50 blocks is removed first; backwards, the head is removed each time.
    "each removed value is dropped at once, in order", 232:
        RemoveAll(232, false), Expect(Len(0));
    "each removed value is dropped at once, backwards", 232:
        RemoveAll(232, true), Expect(Len(0));
};

const OF_INDEXES: &[Story] = stories! {
    // Two pairs in own slots are removed, and two in the chain.
    "clearing a tombstone drops its value", 37:
        Expect(Values(38)), Mark(&[0, 31, 32, 36]), Expect(Values(38)), ClearTombstones(Kept::All),
        Expect(Values(38)), ClearTombstones(Kept::None), Expect(Values(34)),
        ClearTombstones(Kept::None), Expect(Values(34));
    // One pair is inserted and none dropped; then one is inserted and four are dropped, those in
    // the chain among them.
    "an insertion that clears tombstones drops their values", 37:
        Mark(&[3, 4, 33, 36]), Insert(40, Kept::All), Expect(Values(39)), Insert(41, Kept::None),
        Expect(Values(36)), Expect(Len(35));
    "tombstones are dropped with their bucket", 41:
        Mark(&[0, 7, 32, 39, 40]), Expect(Values(42)), Expect(Len(36));
    // A bucket with live pairs stays. One with only tombstones is killed.
    "clearing a bucket of tombstones drops all values", 41:
        MarkRange(0..41), Expect(Values(42)), ClearTombstones(Kept::None), Expect(Values(1)),
        Insert(50, Kept::None), Expect(Values(2));
    // The free blocks at the chain's end are dropped, and the one before them stays with its live
    // pair.
    "dropping a free block drops no value", 33:
        Reserve(11), Mark(&[5]), ClearTombstones(Kept::All), Expect(Values(34)),
        ClearTombstones(Kept::None), Expect(Values(33)), Expect(Len(32));
    "a killed bucket of an index keeps its tombstones", 41:
        MarkRange(0..41), Kill, Expect(Values(42)), Expect(OwnSlot(31));
};

#[test]
fn each_value_is_dropped_once(rt: HostRuntime) -> Result<(), Fail> {
    let counted = Rc::new(rt.alloc(), 0)?;
    for story in OF_MAPS {
        let mut bucket = filled::<MAP>(rt.alloc(), story.1, &counted)?;
        play(&rt, &mut bucket, &counted, story)?;
        drop(bucket);
        check_same(&rt, Rc::strong_count(&counted), 1, story.0);
    }
    for story in OF_INDEXES {
        let mut bucket = filled::<INDEX>(rt.alloc(), story.1, &counted)?;
        play(&rt, &mut bucket, &counted, story)?;
        drop(bucket);
        check_same(&rt, Rc::strong_count(&counted), 1, story.0);
    }
    Ok(())
}

// Plays a story on a bucket of its keys.
fn play<const TYPE: u8>(
    rt: &impl Abort,
    bucket: &mut Counted<TYPE>,
    counted: &Rc<i32>,
    (story, _, acts): &Story,
) -> Result<(), Fail> {
    for (row, act) in acts.iter().enumerate() {
        take(rt, bucket, counted, (*story, row), act)?;
    }
    Ok(())
}

// Makes a call, or checks an expectation.
fn take<const TYPE: u8>(
    rt: &impl Abort,
    bucket: &mut Counted<TYPE>,
    counted: &Rc<i32>,
    row: (&str, usize),
    act: &Act,
) -> Result<(), Fail> {
    match act {
        Insert(key, kept) => insert_clone(bucket, *key, counted, kept)?,
        Write(keys) => write_clones(rt, bucket, counted, row, keys)?,
        Reserve(slots) => bucket.reserve_slots(*slots)?,
        Remove(keys) => {
            for key in *keys {
                let taken = remove_at(bucket, *key, 0).is_some();
                check_same(rt, taken, true, (row, "remove", *key));
            }
        }
        RemoveAll(keys, backwards) => remove_all(rt, bucket, counted, row, *keys, *backwards),
        Mark(keys) => {
            for key in *keys {
                let marked = mark_key(bucket, *key, 0, &());
                check_same(rt, marked, true, (row, "mark", *key));
            }
        }
        MarkRange(keys) => {
            for key in keys.start..keys.end {
                let done = (kill_empty(bucket), mark_key(bucket, key, 0, &()));
                check_same(rt, done, (false, true), (row, "mark range", key));
            }
        }
        ClearTombstones(kept) => check_same(rt, clear(bucket, kept), true, (row, "clear")),
        Kill => check_kill(rt, bucket),
        Expect(wanted) => check_expected(rt, bucket, counted, row, wanted),
    }
    Ok(())
}

// Writes a clone over the value of each of these keys.
fn write_clones<const TYPE: u8>(
    rt: &impl Abort,
    bucket: &mut Counted<TYPE>,
    counted: &Rc<i32>,
    row: (&str, usize),
    keys: &[u64],
) -> Result<(), Fail> {
    for key in keys {
        let old = write_key(bucket, *key, 0, counted.clone()?);
        check_same(rt, old.is_some(), true, (row, "write", *key));
    }
    Ok(())
}

// Removes the pairs of all keys below a number, from the first key on, or backwards.
fn remove_all<const TYPE: u8>(
    rt: &impl Abort,
    bucket: &mut Counted<TYPE>,
    counted: &Rc<i32>,
    row: (&str, usize),
    keys: u64,
    backwards: bool,
) {
    for gone in 0..keys {
        let left = keys.wrapping_sub(gone);
        let key = if backwards {
            left.wrapping_sub(1)
        } else {
            gone
        };
        let taken = remove_at(bucket, key, 0).is_some();
        let found = (taken, Rc::strong_count(counted));
        check_same(rt, found, (true, left as usize), (row, "remove all", key));
    }
}

// Checks an expectation about a bucket.
fn check_expected<const TYPE: u8>(
    rt: &impl Abort,
    bucket: &Counted<TYPE>,
    counted: &Rc<i32>,
    row: (&str, usize),
    wanted: &Expect,
) {
    match *wanted {
        Values(values) => check_same(rt, Rc::strong_count(counted), values, (row, "values")),
        Len(len) => check_same(rt, bucket.len(), len, (row, "len")),
        OwnSlot(slot) => {
            let there = bucket.data_block().val(slot).is_some();
            check_same(rt, there, true, (row, "own slot"));
        }
    }
}

// Clears a bucket of an index.
fn clear<const TYPE: u8>(bucket: &mut Counted<TYPE>, kept: &Kept) -> bool {
    if TYPE != INDEX {
        return false;
    }
    bucket.clear_unreachable_entries(&Answers::new(0, kept));
    true
}

// Kills a bucket without live pairs. Then it finds nothing, and can't be killed again.
fn check_kill<const TYPE: u8>(rt: &impl Abort, bucket: &mut Counted<TYPE>) {
    check_same(rt, (bucket.len(), kill_empty(bucket)), (0, true), "kills");
    check_same(rt, (bucket.len(), bucket.is_killed()), (0, true), "killed");
    check_same(
        rt,
        bucket.search_entry(&0, 0).is_none(),
        true,
        "finds nothing",
    );
    check_same(rt, kill_empty(bucket), false, "kills again");
}

// The source keeps its blocks, which are free, until it is killed.
#[test]
fn each_value_is_dropped_once_after_its_bucket_is_killed(rt: HostRuntime) -> Result<(), Fail> {
    let counted = Rc::new(rt.alloc(), 0)?;
    let mut source = filled::<MAP>(rt.alloc(), 41, &counted)?;
    let mut target = Counted::<MAP>::new(rt.alloc());
    for key in 0..41 {
        check_same(&rt, kill_empty(&mut source), false, "killed with pairs");
        let moved = move_key(&mut target, &mut source, key, 0)?.is_some();
        check_same(&rt, moved, true, key);
    }
    check_kill(&rt, &mut source);
    let found = (target.len(), target.is_killed());
    check_same(&rt, found, (41, false), "target");
    check_same(&rt, Rc::strong_count(&counted), 42, "moved");
    drop(source);
    check_same(&rt, Rc::strong_count(&counted), 42, "without the source");
    drop(target);
    check_same(&rt, Rc::strong_count(&counted), 1, "without the target");
    Ok(())
}

// The length of an array of eight parts.
const LENGTH: usize = 512;

// The buckets that pairs are inserted into, each with their number: at an end of the first part and
// of the last one, and in the middle of a part. Two of these buckets need a chain.
const TOUCHED: [(usize, u64); 4] = [(0, 1), (300, 40), (510, 33), (511, 2)];

// How many pairs these are in all.
const PAIRS: usize = 76;

#[test]
fn pairs_in_a_few_parts_of_an_array_are_dropped_once(rt: HostRuntime) -> Result<(), Fail> {
    let counted = Rc::new(rt.alloc(), 0)?;
    let untouched = BucketArray::<u64, Rc<i32>, (), MAP>::alloc(rt.alloc(), LENGTH * 32)?;
    let mut array = BucketArray::<u64, Rc<i32>, (), MAP>::alloc(rt.alloc(), LENGTH * 32)?;
    let lengths = (array.len(), untouched.len());
    check_same(&rt, lengths, (LENGTH, LENGTH), "long");
    for (index, keys) in &TOUCHED {
        for key in 0..*keys {
            assert!(rt; *index < array.len());
            insert_clone(array.bucket_mut(*index), key, &counted, &Kept::All)?;
        }
    }
    check_same(&rt, Rc::strong_count(&counted), 1 + PAIRS, "inserted");
    for key in 0..20 {
        assert!(rt; 300 < array.len());
        let taken = remove_at(array.bucket_mut(300), key, 0).is_some();
        check_same(&rt, taken, true, key);
    }
    check_same(&rt, Rc::strong_count(&counted), 1 + PAIRS - 20, "removed");
    drop(untouched);
    check_same(&rt, Rc::strong_count(&counted), 1 + PAIRS - 20, "kept");
    drop(array);
    check_same(&rt, Rc::strong_count(&counted), 1, "dropped");
    Ok(())
}

#[test]
fn a_cleared_table_drops_each_value_once(rt: HostRuntime) -> Result<(), Fail> {
    let counted = Rc::new(rt.alloc(), 0)?;
    let mut table: HashTable<u64, Rc<i32>, ScriptHash, (), MAP> = HashTable::with_hasher(
        rt.alloc(),
        ScriptHash::Spread,
    );
    let _ = table.reserve_capacity(4096);
    table.insert_pair(5, counted.clone()?, &(), ResizeRule::Sampled)?;
    table.insert_pair(200, counted.clone()?, &(), ResizeRule::Sampled)?;
    let _ = table.reserve_capacity(4096);
    table.insert_pair(250, counted.clone()?, &(), ResizeRule::Sampled)?;
    let before = (Rc::strong_count(&counted), table.has_linked_array());
    check_same(&rt, before, (4, true), "before");
    table.clear();
    let cleared = (Rc::strong_count(&counted), table.has_linked_array());
    check_same(&rt, cleared, (1, false), "cleared");
    table.insert_pair(200, counted.clone()?, &(), ResizeRule::Sampled)?;
    check_same(&rt, Rc::strong_count(&counted), 2, "put again");
    drop(table);
    check_same(&rt, Rc::strong_count(&counted), 1, "dropped");
    Ok(())
}
