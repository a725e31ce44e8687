//! Iterators that remove the pairs or keys that a function picks: which are removed, with which
//! values, and which stay, if the iterator reaches its end or is dropped before; of one array, of
//! two, and of a chain.
use super::check_same;
use super::maps::{Map, fill, map_of};
use super::two_sets::{Ranges, check_listed, set_of};
use bucket_table::script::ScriptHash;
use collections::hash_map::HashMap;
use std::alloc::Global;
use std::process::Abort;
use std::test::Fail;
use test_helpers::steps;

/// The keys of a collection, each its own value; the function picks those that leave the second
/// number as their remainder when divided by the first.
struct Row {
    name: &'static str,
    hasher: ScriptHash,
    keys: Ranges,
    picks: (u64, u64),
    gone: Ranges,
    left: Ranges,
}

// The standard library's tests of a map's extract_if: empty, consuming_nothing, consuming_all,
// mutating_and_keeping and mutating_and_removing; and of a set test_extract_if. The keys 0 to 30
// and 128 to 158 are in one array; when key 31 is inserted, a second one is made. Under the hash 0
// all keys are in one bucket, and those past the first 32 in its chain.
const ROWS: &[Row] = steps! {
    Row { name: "empty", hasher: ScriptHash::Id, keys: &[], picks: (1, 0), gone: &[], left: &[] },
    Row { name: "none is picked", hasher: ScriptHash::Spread, keys: &[0..3], picks: (9, 8),
        gone: &[], left: &[0..3] },
    Row { name: "all are picked", hasher: ScriptHash::Spread, keys: &[0..3], picks: (1, 0),
        gone: &[0..3], left: &[] },
    Row { name: "the even ones", hasher: ScriptHash::Spread, keys: &[0..6], picks: (2, 0),
        gone: &[0..1, 2..3, 4..5], left: &[1..2, 3..4, 5..6] },
    Row { name: "all of two arrays", hasher: ScriptHash::Spread,
        keys: &[0..31, 128..159, 31..32], picks: (1, 0), gone: &[0..32, 128..159],
        left: &[] },
    Row { name: "one of each array", hasher: ScriptHash::Spread,
        keys: &[0..31, 128..159, 31..32], picks: (130, 5), gone: &[5..6, 135..136],
        left: &[0..5, 6..32, 128..135, 136..159] },
    Row { name: "the last ones of a chain", hasher: ScriptHash::Zero, keys: &[0..100],
        picks: (98, 1), gone: &[1..2, 99..100], left: &[0..1, 2..99] },
    Row { name: "all of a chain", hasher: ScriptHash::Zero, keys: &[0..100], picks: (1, 0),
        gone: &[0..100], left: &[] }
};

#[test]
fn picked_keys_come_and_the_others_stay(rt: HostRuntime) -> Result<(), Fail> {
    for row in ROWS {
        let mut map = map_of(rt.alloc(), row.hasher, row.keys);
        let slots = map.capacity();
        let found = taken(rt.alloc(), &mut map, row.picks, usize::MAX);
        check_listed(&rt, rt.alloc(), found, row.gone, (row.name, "removed"));
        let (left, asked) = sorted_out(rt.alloc(), &map);
        check_same(&rt, asked, map.len(), (row.name, "calls"));
        check_listed(&rt, rt.alloc(), left, row.left, (row.name, "left"));
        check_same(&rt, map.capacity(), slots, (row.name, "slots"));
    }
    Ok(())
}

#[test]
fn picked_keys_of_a_set_come_and_the_others_stay(rt: HostRuntime) -> Result<(), Fail> {
    for row in ROWS {
        let mut set = set_of(rt.alloc(), row.hasher, row.keys);
        let (by, rest) = row.picks;
        let mut gone = Vec::new(rt.alloc());
        for key in set.extract_if(move |key: &u64| leaves(*key, by, rest)) {
            let _ = gone.push(key);
        }
        check_listed(&rt, rt.alloc(), gone, row.gone, (row.name, "removed"));
        let mut left = Vec::new(rt.alloc());
        for key in &set {
            let _ = left.push(*key);
        }
        check_listed(&rt, rt.alloc(), left, row.left, (row.name, "left"));
    }
    Ok(())
}

// How many pairs are taken before the iterator is dropped.
const TAKEN: [usize; 5] = [0, 1, 2, 31, 32];

// Of 63 pairs in two arrays every second one is picked: the function is called up to the last pair
// that is returned, and those after it keep their values.
#[test]
fn what_is_not_asked_for_stays_as_it_was(rt: HostRuntime) -> Result<(), Fail> {
    for count in TAKEN {
        let mut map: Map = HashMap::with_hasher(rt.alloc(), ScriptHash::Spread);
        let are_in = fill(&mut map, &(0..31))
            && fill(&mut map, &(128..159))
            && fill(&mut map, &(31..32));
        check_same(&rt, are_in, true, count);
        let found = taken(rt.alloc(), &mut map, (2, 0), count);
        check_same(
            &rt,
            (found.len(), map.len()),
            (count, 63usize.saturating_sub(count)),
            count,
        );
        let (_, asked) = sorted_out(rt.alloc(), &map);
        check_same(&rt, asked <= count.saturating_add(1), true, (count, asked));
        check_same(&rt, fill(&mut map, &(1000..1010)), true, (count, "filled"));
    }
    Ok(())
}

// Whether a number leaves a remainder.
fn leaves(key: u64, by: u64, rest: u64) -> bool {
    by != 0 && key % by == rest
}

// Adds 1000 to each value that is reached, and removes at most this many pairs, whose keys leave a
// remainder. Returns their keys; a pair whose value isn't 1000 more yields both.
fn taken(alloc: Global, map: &mut Map, picks: (u64, u64), at_most: usize) -> Vec<u64> {
    let mut gone = Vec::new(alloc);
    let (by, rest) = picks;
    let mut picked = map.extract_if(move |key: &u64, value: &mut u64| {
        *value = value.wrapping_add(1000);
        leaves(*key, by, rest)
    });
    for _ in 0..at_most {
        let Some((key, value)) = picked.next() else {
            break;
        };
        let _ = gone.push(key);
        if value != key.wrapping_add(1000) {
            let _ = gone.push(value);
        }
    }
    gone
}

// The keys that a map has, and how many of them have a value that is 1000 more.
fn sorted_out(alloc: Global, map: &Map) -> (Vec<u64>, usize) {
    let mut left = Vec::new(alloc);
    let mut asked: usize = 0;
    for (key, value) in map {
        let _ = left.push(*key);
        if *value == key.wrapping_add(1000) {
            asked = asked.saturating_add(1);
        }
    }
    (left, asked)
}
