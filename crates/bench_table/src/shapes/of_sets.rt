//! The shapes of sets only.
use crate::shapes::of_all::filled;
use crate::shapes::shaped::Set;
use std::alloc::Global;
use std::io;

/// Two sets.
pub(crate) type TwoSets = (Set, Set);

/// Returns two sets of as many keys: half of them are common.
pub(crate) fn two_sets(alloc: Global, pairs: u64) -> TwoSets {
    let mut other = Set::new(alloc);
    for key in pairs / 2..(pairs / 2).wrapping_add(pairs) {
        let _ = other.insert(key);
    }
    (filled(alloc, pairs), other)
}

/// Collects half of the keys.
pub(crate) fn filtered(alloc: Global, from: Set) -> io::Result<Set> {
    let to: Set = from
        .iter()
        .filter(|key| **key % 2 == 0)
        .map(|key| *key)
        .collect(alloc)?;
    Ok(to)
}

/// Collects the keys by value.
pub(crate) fn collected(alloc: Global, from: Set) -> io::Result<Set> {
    let to: Set = from.into_iter().collect(alloc)?;
    Ok(to)
}

/// Extends a set by the keys by value.
pub(crate) fn extended(alloc: Global, from: Set) -> io::Result<Set> {
    let mut to = Set::new(alloc);
    to.extend(from)?;
    Ok(to)
}

/// The same with the call that loses no key.
pub(crate) fn extended_all(alloc: Global, from: Set) -> io::Result<Set> {
    let mut to = Set::new(alloc);
    to.try_extend(&mut from.into_iter())?;
    Ok(to)
}

/// Drains the keys into a `Vec` and inserts them again.
pub(crate) fn drained(alloc: Global, mut from: Set) -> io::Result<Set> {
    let keys: Vec<u64> = from.drain().collect(alloc)?;
    for key in &keys {
        let _ = from.insert(*key);
    }
    Ok(from)
}

/// Extracts half of the keys and collects them.
pub(crate) fn extracted(alloc: Global, mut from: Set) -> io::Result<Set> {
    let picked = from.extract_if(move |key: &u64| *key % 2 == 0);
    let to: Set = picked.collect(alloc)?;
    Ok(to)
}

/// Collects the keys in either of two sets.
pub(crate) fn united(alloc: Global, from: TwoSets) -> io::Result<Set> {
    let (one, other) = from;
    let to: Set = one.union(&other).copied().collect(alloc)?;
    Ok(to)
}

/// Collects the keys in both of two sets.
pub(crate) fn intersected(alloc: Global, from: TwoSets) -> io::Result<Set> {
    let (one, other) = from;
    let to: Set = one.intersection(&other).copied().collect(alloc)?;
    Ok(to)
}
