//! The shapes of all four collections.
use crate::shapes::shaped::Shaped;
use std::alloc::Global;
use std::io;

/// How often a shape of few pairs runs.
pub(crate) const ROUNDS: u64 = 10_000;

/// Returns a collection with the numbers below `pairs`.
pub(crate) fn filled<C: Shaped>(alloc: Global, pairs: u64) -> C {
    let mut made = C::make(alloc);
    for key in 0..pairs {
        made.put(key);
    }
    made
}

/// Copies by a loop.
pub(crate) fn copied<C: Shaped>(alloc: Global, from: C) -> io::Result<C> {
    let mut to = C::make(alloc);
    from.pour(&mut to);
    Ok(to)
}

/// Copies by a loop in reverse order.
pub(crate) fn reversed<C: Shaped>(alloc: Global, from: C) -> io::Result<C> {
    let keys = from.listed(alloc)?;
    let mut to = C::make(alloc);
    for key in keys.iter().rev() {
        to.put(*key);
    }
    Ok(to)
}

/// Saves the keys, removes all pairs and inserts them again.
pub(crate) fn restored<C: Shaped>(alloc: Global, mut from: C) -> io::Result<C> {
    let keys = from.listed(alloc)?;
    from.wipe();
    for key in &keys {
        from.put(*key);
    }
    Ok(from)
}

/// Removes each pair, in the order of the slots.
pub(crate) fn removed<C: Shaped>(alloc: Global, mut from: C) -> io::Result<C> {
    let keys = from.listed(alloc)?;
    for key in &keys {
        from.take(*key);
    }
    Ok(from)
}

/// Removes each pair, in reverse order.
pub(crate) fn removed_back<C: Shaped>(alloc: Global, mut from: C) -> io::Result<C> {
    let keys = from.listed(alloc)?;
    for key in keys.iter().rev() {
        from.take(*key);
    }
    Ok(from)
}

/// Retains half.
pub(crate) fn halved<C: Shaped>(_alloc: Global, mut from: C) -> io::Result<C> {
    from.halve();
    Ok(from)
}

/// Removes all pairs and inserts as many in ascending order.
pub(crate) fn refilled<C: Shaped>(_alloc: Global, mut from: C) -> io::Result<C> {
    let pairs = from.count();
    from.wipe();
    for key in 0..pairs {
        from.put(key as u64);
    }
    Ok(from)
}

/// Makes collections of three pairs, gets one and drops them.
pub(crate) fn made<C: Shaped>(alloc: Global, mut last: C) -> io::Result<C> {
    for _ in 0..ROUNDS {
        last = three(alloc);
    }
    Ok(last)
}

/// Returns a collection with three pairs.
#[inline(never)]
fn three<C: Shaped>(alloc: Global) -> C {
    let mut made = C::make(alloc);
    made.put(1);
    made.put(2);
    made.put(3);
    if !made.has(2) {
        made.put(4);
    }
    made
}

/// Inserts and removes in a collection that is empty in between.
pub(crate) fn alternated<C: Shaped>(_alloc: Global, mut from: C) -> io::Result<C> {
    for key in 0..ROUNDS {
        from.put(key);
        from.take(key);
    }
    Ok(from)
}

/// Removes all pairs and inserts one.
pub(crate) fn cleared<C: Shaped>(_alloc: Global, mut from: C) -> io::Result<C> {
    for key in 0..ROUNDS {
        from.wipe();
        from.put(key);
    }
    Ok(from)
}
