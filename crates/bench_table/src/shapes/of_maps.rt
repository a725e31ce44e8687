//! The shapes of maps only.
use crate::shapes::of_all::ROUNDS;
use crate::shapes::shaped::Map;
use std::alloc::Global;
use std::io;

/// Collects half of the pairs.
pub(crate) fn filtered(alloc: Global, from: Map) -> io::Result<Map> {
    let to: Map = from
        .iter()
        .filter(|pair| *pair.0 % 2 == 0)
        .map(|(key, value)| (*key, *value))
        .collect(alloc)?;
    Ok(to)
}

/// Collects the pairs by value.
pub(crate) fn collected(alloc: Global, from: Map) -> io::Result<Map> {
    let to: Map = from.into_iter().collect(alloc)?;
    Ok(to)
}

/// Extends a map by the pairs by value.
pub(crate) fn extended(alloc: Global, from: Map) -> io::Result<Map> {
    let mut to = Map::new(alloc);
    to.extend(from)?;
    Ok(to)
}

/// The same with the call that loses no pair.
pub(crate) fn extended_all(alloc: Global, from: Map) -> io::Result<Map> {
    let mut to = Map::new(alloc);
    to.try_extend(&mut from.into_iter())?;
    Ok(to)
}

/// Drains the pairs into a `Vec` and inserts them again.
pub(crate) fn drained(alloc: Global, mut from: Map) -> io::Result<Map> {
    let pairs: Vec<(u64, u64)> = from.drain().collect(alloc)?;
    for pair in &pairs {
        let _ = from.upsert(pair.0, pair.1);
    }
    Ok(from)
}

/// Extracts half of the pairs and collects them.
pub(crate) fn extracted(alloc: Global, mut from: Map) -> io::Result<Map> {
    let picked = from.extract_if(move |key: &u64, _value: &mut u64| *key % 2 == 0);
    let to: Map = picked.collect(alloc)?;
    Ok(to)
}

/// Splits the pairs into four maps by a loop, and returns one.
pub(crate) fn split(alloc: Global, from: Map) -> io::Result<Map> {
    let mut parts: Vec<Map> = Vec::new(alloc);
    for _ in 0..4 {
        parts.push(Map::new(alloc))?;
    }
    for (key, value) in &from {
        if let Some(part) = parts.get_mut((*key % 4) as usize) {
            let _ = part.upsert(*key, *value);
        }
    }
    Ok(parts.pop().unwrap_or(from))
}

/// Clones a map.
pub(crate) fn cloned(alloc: Global, from: Map) -> io::Result<Map> {
    let mut last = Map::new(alloc);
    for _ in 0..ROUNDS {
        last = from.clone()?;
    }
    Ok(last)
}
