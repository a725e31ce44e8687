//! Iterators over pairs by value: over none, a few, those of two arrays and of one chain; what is
//! left of the collection; and values that are counted, of which some are returned.
ghost use Rattle.std.specs.Iterator.{IsFinite};

use super::caches::{Cache, put, put_range};
use super::check_same;
use super::maps::Expect::*;
use super::maps::Step::*;
use super::maps::{Map, Story, map_of};
use super::two_sets::{Ranges, check_listed, set_of};
use bucket_table::script::ScriptHash;
use collections::hash_cache::HashCache;
use collections::hash_map::{Drain, HashMap, IntoIter};
use std::alloc::{AllocError, Global};
use std::process::Abort;
use std::rc::Rc;
use std::test::Fail;
use test_helpers::steps;

/// The keys of a collection, each its own value, in the order of their insertion, and sorted.
struct Row {
    name: &'static str,
    hasher: ScriptHash,
    keys: Ranges,
    in_order: Ranges,
}

// The keys 0 to 30 and 128 to 158 are in one array; when key 31 is inserted, a second one is made.
// Under the hash 0 all keys are in one bucket, and those past the first 32 in its chain.
const ROWS: &[Row] = steps! {
    Row { name: "none", hasher: ScriptHash::Spread, keys: &[], in_order: &[] },
    Row { name: "one", hasher: ScriptHash::Id, keys: &[7..8], in_order: &[7..8] },
    Row { name: "a few", hasher: ScriptHash::Spread, keys: &[200..204, 1..3],
        in_order: &[1..3, 200..204] },
    Row { name: "two arrays", hasher: ScriptHash::Spread, keys: &[0..31, 128..159, 31..32],
        in_order: &[0..32, 128..159] },
    Row { name: "a chain", hasher: ScriptHash::Zero, keys: &[0..100], in_order: &[0..100] }
};

/// A way to take the pairs of a map by value.
#[derive(Clone, Copy, Debug)]
enum Way {
    Drain,
    IntoIter,
    IntoKeys,
    IntoValues,
}

#[test]
fn pairs_come_by_value(rt: HostRuntime) -> Result<(), Fail> {
    for row in ROWS {
        for way in [Way::Drain, Way::IntoIter, Way::IntoKeys, Way::IntoValues] {
            let found = taken(rt.alloc(), map_of(rt.alloc(), row.hasher, row.keys), way)?;
            check_listed(&rt, rt.alloc(), found, row.in_order, (row.name, way));
        }
    }
    Ok(())
}

#[test]
fn keys_come_by_value(rt: HostRuntime) -> Result<(), Fail> {
    for row in ROWS {
        let mut set = set_of(rt.alloc(), row.hasher, row.keys);
        let found = met(rt.alloc(), set.drain());
        check_listed(&rt, rt.alloc(), found, row.in_order, (row.name, "drain"));
        check_same(&rt, (set.len(), set.capacity()), (0, 0), (row.name, "left"));
        let set = set_of(rt.alloc(), row.hasher, row.keys);
        let found = met(rt.alloc(), set.into_iter());
        check_listed(&rt, rt.alloc(), found, row.in_order, (row.name, "loop"));
    }
    Ok(())
}

// The keys that an iterator yields.
fn met<I: Iterator<Item = u64> + Drop>(alloc: Global, keys: I) -> Vec<u64>
    requires can { I.can_next keys }
    requires finite { IsFinite (I.remaining keys) }
{
    let mut met = Vec::new(alloc);
    for key in keys {
        let _ = met.push(key);
    }
    met
}

// The keys, or the values, of a map by value.
fn taken(alloc: Global, mut map: Map, way: Way) -> Result<Vec<u64>, AllocError> {
    match way {
        Way::Drain => Ok(keys_of(alloc, map.drain())),
        Way::IntoIter => Ok(keys_of(alloc, map.into_iter())),
        Way::IntoKeys => map.into_keys().collect(alloc),
        Way::IntoValues => map.into_values().collect(alloc),
    }
}

// The keys of pairs. A pair whose value isn't its key yields both.
fn keys_of(alloc: Global, pairs: IntoIter<u64, u64>) -> Vec<u64> {
    let mut keys = Vec::new(alloc);
    for (key, value) in pairs {
        let _ = keys.push(key);
        if key != value {
            let _ = keys.push(value);
        }
    }
    keys
}

pub(super) const STORIES: &[Story] = steps! {
    Story { name: "a map takes pairs after a drain", hasher: ScriptHash::Spread, minimum: 0,
        steps: steps! {
            DrainPart(0), Expect(Len(0)), Expect(Slots(0)), InsertRange(1..3), Expect(Len(2)),
            Expect(Slots(64)), DrainPart(2), Expect(Len(0)), Expect(Slots(0)),
            Expect(Value(1, None)), InsertRange(1..2), Expect(Value(1, Some(1))), Expect(Len(1)),
            Expect(Slots(64)), DrainPart(0), Expect(Len(0)), Expect(Slots(0)), InsertRange(0..31),
            InsertRange(128..159), InsertRange(31..32), Expect(Len(63)), Expect(Slots(128)),
            DrainPart(40), Expect(Len(0)), Expect(Slots(0)), Expect(Value(31, None)),
            Expect(Value(158, None)), InsertRange(0..31), Expect(Len(31)), Expect(Slots(64)),
            InsertRange(128..159), InsertRange(31..32), Expect(Len(63)), Expect(Slots(128)),
            Expect(Value(158, Some(158))), DrainPart(63), Expect(Len(0)), Expect(Slots(0)) } }
};

#[test]
fn a_cache_is_drained_and_takes_pairs_again(rt: HostRuntime) -> Result<(), Fail> {
    let mut cache: Cache = HashCache::with_capacity(rt.alloc(), ScriptHash::Zero, 0, 256);
    check_same(&rt, put_range(&mut cache, &(0..32)), true, "put");
    check_same(
        &rt,
        put(&mut cache, 32, 320),
        Some(Ok(Some((0, 0)))),
        "evicted",
    );
    let found = met(rt.alloc(), cache.drain().map(key_of));
    check_listed(&rt, rt.alloc(), found, &[1..33], "drained");
    check_same(&rt, (cache.len(), cache.capacity()), (0, 0), "left");
    check_same(&rt, put(&mut cache, 0, 5), Some(Ok(None)), "put");
    let found = (cache.len(), cache.get(&0).copied());
    check_same(&rt, found, (1, Some(5)), "again");
    Ok(())
}

fn key_of(pair: (u64, u64)) -> u64 {
    pair.0
}

type Counted = HashMap<u64, Rc<u64>, ScriptHash>;

// How many of 63 pairs in two arrays a drain returns before it is dropped.
const HANDED_OUT: [usize; 6] = [0, 1, 2, 32, 62, 63];

#[test]
fn what_is_not_handed_out_is_dropped(rt: HostRuntime) -> Result<(), Fail> {
    let counted = Rc::new(rt.alloc(), 0u64)?;
    let mut map: Counted = HashMap::with_hasher(rt.alloc(), ScriptHash::Spread);
    for handed_out in HANDED_OUT {
        put_clones(&mut map, &counted);
        check_same(&rt, Rc::strong_count(&counted), 64, (handed_out, "put"));
        hand_out(&rt, rt.alloc(), &mut map, &counted, handed_out);
        check_same(&rt, Rc::strong_count(&counted), 1, (handed_out, "dropped"));
    }
    Ok(())
}

// Puts a clone under each of 63 keys. The insertion of the last one makes a second array.
fn put_clones(map: &mut Counted, counted: &Rc<u64>) {
    for number in 0..63u64 {
        let key = match number {
            0..=30 => number,
            31..=61 => number.wrapping_add(97),
            _ => 31,
        };
        put_clone(map, counted, key);
    }
}

// Puts a clone under a key.
fn put_clone(map: &mut Counted, counted: &Rc<u64>, key: u64) {
    if let Ok(value) = counted.clone() {
        let _ = map.insert(key, value);
    }
}

// Takes this many pairs from a drain, and drops the drain and then the pairs.
fn hand_out(
    rt: &impl Abort,
    alloc: Global,
    map: &mut Counted,
    counted: &Rc<u64>,
    handed_out: usize,
) {
    let mut left = map.drain();
    let held = first_of(alloc, &mut left, handed_out);
    let found = (Rc::strong_count(counted), map.len());
    check_same(rt, found, (64, 0), (handed_out, "during drain"));
    drop(left);
    let wanted = handed_out.saturating_add(1);
    check_same(rt, Rc::strong_count(counted), wanted, (handed_out, "held"));
    drop(held);
}

// The first pairs of a drain, this many.
fn first_of(
    alloc: Global,
    left: &mut Drain<u64, Rc<u64>>,
    pairs: usize,
) -> Vec<Option<(u64, Rc<u64>)>> {
    let mut held = Vec::new(alloc);
    for _ in 0..pairs {
        let _ = held.push(left.next());
    }
    held
}

#[test]
fn the_other_half_of_each_pair_is_dropped(rt: HostRuntime) -> Result<(), Fail> {
    let counted = Rc::new(rt.alloc(), 0u64)?;
    take_keys(&rt, map_of_40(rt.alloc(), &counted), &counted);
    check_same(&rt, Rc::strong_count(&counted), 1, "dropped");
    Ok(())
}

// A map with a clone under each of 40 keys.
fn map_of_40(alloc: Global, counted: &Rc<u64>) -> Counted {
    let mut map = HashMap::with_hasher(alloc, ScriptHash::Zero);
    for key in 0..40 {
        put_clone(&mut map, counted, key);
    }
    map
}

// Takes three keys of 40, and drops the others.
fn take_keys(rt: &impl Abort, map: Counted, counted: &Rc<u64>) {
    let mut keys = map.into_keys();
    for left in [40usize, 39, 38] {
        check_same(rt, Rc::strong_count(counted), left.saturating_add(1), left);
        check_same(rt, keys.next().is_some(), true, left);
    }
}
