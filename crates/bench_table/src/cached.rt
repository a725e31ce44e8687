//! The cost of calls on a cache: on that of the collections, which evicts from one bucket, and on
//! the kit's, which evicts the least recently used pair of all.
use crate::course::{print_time, require};
use crate::hashes::{MapHash, TableHash};
use collections::hash_cache::HashCache;
use lru::LruCache;
use std::alloc::Global;
use std::io;
use std::num::NonZeroUsize;
use std::time::Instant;

/// A cache of numbers. Each value is its key.
pub(crate) trait Cached: Drop {
    /// Returns an empty cache with room for that many pairs.
    fn with_size(alloc: Global, pairs: u64) -> io::Result<Self>
    where
        Self: Sized;

    /// Puts an absent key, and returns whether it is in the cache.
    fn put(&mut self, key: u64) -> bool;

    /// Looks a key up, which makes its pair the most recently used, and returns whether it is
    /// present.
    fn touch(&mut self, key: u64) -> bool;
}

/// The cache of the collections.
pub(crate) type Bucketed = HashCache<u64, u64, TableHash>;

/// The kit's cache.
pub(crate) type Listed = LruCache<u64, u64, MapHash, Global>;

impl Cached for Bucketed {
    fn with_size(alloc: Global, pairs: u64) -> io::Result<Bucketed> {
        Ok(HashCache::with_size(alloc, TableHash, pairs as usize))
    }

    #[inline(always)]
    fn put(&mut self, key: u64) -> bool {
        HashCache::put(self, key, key).is_ok()
    }

    #[inline(always)]
    fn touch(&mut self, key: u64) -> bool {
        self.get(&key).is_some()
    }
}

impl Cached for Listed {
    fn with_size(alloc: Global, pairs: u64) -> io::Result<Listed> {
        let Some(size) = NonZeroUsize::new(pairs as usize) else {
            return Err(io::Error::from(io::ErrorKind::InvalidInput));
        };
        Ok(LruCache::with_hasher(alloc, size, MapHash)?)
    }

    #[inline(always)]
    fn put(&mut self, key: u64) -> bool {
        LruCache::put(self, key, key).is_ok()
    }

    #[inline(always)]
    fn touch(&mut self, key: u64) -> bool {
        self.get(&key).is_some()
    }
}

/// Prints the cost of calls on a cache for that many pairs: it is half filled, each of its keys and
/// as many absent ones are looked up, and then twice as many keys are put as there is room for.
pub(crate) fn run_cache<C: Cached>(
    rt: &HostRuntime,
    prints_times: bool,
    pairs: u64,
) -> io::Result<()> {
    let half = pairs / 2;
    let twice = pairs.wrapping_mul(2);
    let mut cache = C::with_size(rt.alloc(), pairs)?;
    let start = Instant::now(rt)?;
    require(put_all(&mut cache, 0, half) == half)?;
    print_time(rt, prints_times, "fill", start, half)?;
    let start = Instant::now(rt)?;
    let found = touch_all(&mut cache, 0, half);
    print_time(rt, prints_times, "touch", start, half)?;
    require(found >= half - half / 16)?;
    let start = Instant::now(rt)?;
    require(touch_all(&mut cache, pairs, pairs.wrapping_add(half)) == 0)?;
    print_time(rt, prints_times, "absent", start, half)?;
    let start = Instant::now(rt)?;
    require(put_all(&mut cache, pairs, pairs.wrapping_add(twice)) == twice)?;
    print_time(rt, prints_times, "evict", start, twice)
}

/// Puts the keys of a half-open range, and returns how many are in the cache.
#[inline(never)]
fn put_all<C: Cached>(cache: &mut C, from: u64, to: u64) -> u64 {
    let mut put: u64 = 0;
    for key in from..to {
        if cache.put(key) {
            put = put.wrapping_add(1);
        }
    }
    put
}

/// Looks up the keys of a half-open range, and returns how many are present.
#[inline(never)]
fn touch_all<C: Cached>(cache: &mut C, from: u64, to: u64) -> u64 {
    let mut found: u64 = 0;
    for key in from..to {
        if cache.touch(key) {
            found = found.wrapping_add(1);
        }
    }
    found
}
