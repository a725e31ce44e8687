//! Values that are counted, in a cache: each is dropped once.
use super::check_same;
use Step::*;
use bucket_table::script::ScriptHash;
use collections::hash_cache::HashCache;
use std::process::Abort;
use std::rc::Rc;
use std::test::Fail;
use test_helpers::{At, steps};

type Cache = HashCache<u64, Rc<u64>, ScriptHash>;

/// A call on a cache, all of whose values are clones of one, or an expectation.
enum Step {
    /// Insert a clone under each key below a number. Each adds a pair and a clone, up to 32 of
    /// each.
    FillBelow(u64),
    /// Insert a clone under a key: whether it succeeded.
    Insert(u64, bool),
    /// Remove a key.
    Remove(u64),
    /// Retain the keys below 16.
    RetainBelow16,
    /// Remove all pairs.
    Clear,
    /// Expect this many pairs, and as many clones.
    ExpectPairs(usize),
}

/// A name, whether clones are inserted by `upsert` or by `put`, and what happens on a new cache.
type Story = (&'static str, bool, &'static [Step]);

// All keys have one bucket, of 32 own slots.
const STORIES: &[Story] = steps! {
    ("puts", false, steps! {
        FillBelow(40), Insert(39, false), ExpectPairs(32), Remove(39), ExpectPairs(31), Clear,
        ExpectPairs(0), Insert(39, true), ExpectPairs(1) }),
    ("upserts", true, steps! {
        FillBelow(40), Insert(39, true), ExpectPairs(32), RetainBelow16, ExpectPairs(8) })
};

#[test]
fn each_value_of_a_cache_is_dropped_once(rt: HostRuntime) -> Result<(), Fail> {
    let counted = Rc::new(rt.alloc(), 0)?;
    for (name, upserts, steps) in STORIES {
        let mut cache: Cache = HashCache::with_hasher(rt.alloc(), ScriptHash::Zero);
        for (row, step) in steps.iter().enumerate() {
            take(&rt, &mut cache, &counted, (*name, row), *upserts, step);
        }
        drop(cache);
        check_same(&rt, Rc::strong_count(&counted), 1, *name);
    }
    Ok(())
}

// Takes a step, and checks its result.
fn take(rt: &impl Abort, cache: &mut Cache, counted: &Rc<u64>, at: At, upserts: bool, step: &Step) {
    match *step {
        FillBelow(to) => fill(rt, cache, counted, upserts, to),
        Insert(key, is_in) => check_same(rt, give(cache, counted, upserts, key), is_in, at),
        Remove(key) => drop(cache.remove(&key)),
        RetainBelow16 => cache.retain(&mut is_below_16),
        Clear => cache.clear(),
        ExpectPairs(values) => {
            let found = (cache.len(), Rc::strong_count(counted));
            check_same(rt, found, (values, values.saturating_add(1)), at);
        }
    }
}

// A clone is inserted under each key below a number: there are as many clones as pairs.
fn fill(rt: &impl Abort, cache: &mut Cache, counted: &Rc<u64>, upserts: bool, to: u64) {
    for key in 0..to {
        let done = give(cache, counted, upserts, key);
        let values = (key as usize).saturating_add(1).min(32);
        let found = (done, cache.len(), Rc::strong_count(counted));
        check_same(rt, found, (true, values, values.saturating_add(1)), key);
    }
}

fn is_below_16(key: &u64, _value: &mut Rc<u64>) -> bool {
    *key < 16
}

// Inserts a clone of a value under a key. Returns whether it succeeded.
fn give(cache: &mut Cache, counted: &Rc<u64>, upserts: bool, key: u64) -> bool {
    match counted.clone() {
        Ok(value) => {
            if upserts {
                cache.upsert(key, value).is_ok()
            } else {
                cache.put(key, value).is_ok()
            }
        }
        Err(_) => false,
    }
}
