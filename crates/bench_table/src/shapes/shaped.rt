//! What the four collections share: numbers with the default hash, each its own value.
use collections::DefaultHash;
use collections::hash_cache::HashCache;
use collections::hash_index::HashIndex;
use collections::hash_map::HashMap;
use collections::hash_set::HashSet;
use std::alloc::Global;
use std::io;

/// A collection of numbers.
pub(crate) trait Shaped: Drop {
    /// Returns an empty collection.
    fn make(alloc: Global) -> Self
    where
        Self: Sized;

    /// Inserts a key if it is absent.
    fn put(&mut self, key: u64);

    /// Returns whether a key is present.
    fn has(&self, key: u64) -> bool;

    /// Removes a key.
    fn take(&mut self, key: u64);

    /// Removes all keys.
    fn wipe(&mut self);

    /// Removes each odd key.
    fn halve(&mut self);

    /// Returns the number of keys.
    fn count(&self) -> usize;

    /// Returns the keys in the order of the iterator.
    fn listed(&self, alloc: Global) -> io::Result<Vec<u64>>;

    /// Inserts each pair into another collection, by a loop.
    fn pour(&self, to: &mut Self);
}

/// A map.
pub(crate) type Map = HashMap<u64, u64>;

/// A set.
pub(crate) type Set = HashSet<u64>;

/// An index.
pub(crate) type Index = HashIndex<u64, u64>;

/// A cache.
pub(crate) type Cache = HashCache<u64, u64>;

/// The maximum number of slots of a cache: at least four for each pair that comes.
const MOST_SLOTS: usize = 1 << 21;

impl Shaped for Map {
    fn make(alloc: Global) -> Map {
        HashMap::new(alloc)
    }

    #[inline(always)]
    fn put(&mut self, key: u64) {
        let _ = self.upsert(key, key);
    }

    #[inline(always)]
    fn has(&self, key: u64) -> bool {
        self.contains(&key)
    }

    #[inline(always)]
    fn take(&mut self, key: u64) {
        let _ = self.remove(&key);
    }

    #[inline(always)]
    fn wipe(&mut self) {
        self.clear();
    }

    fn halve(&mut self) {
        self.retain(|key, _value| *key % 2 == 0);
    }

    fn count(&self) -> usize {
        self.len()
    }

    fn listed(&self, alloc: Global) -> io::Result<Vec<u64>> {
        Ok(self.keys().copied().collect(alloc)?)
    }

    fn pour(&self, to: &mut Map) {
        for (key, value) in self {
            let _ = to.upsert(*key, *value);
        }
    }
}

impl Shaped for Set {
    fn make(alloc: Global) -> Set {
        HashSet::new(alloc)
    }

    #[inline(always)]
    fn put(&mut self, key: u64) {
        let _ = self.insert(key);
    }

    #[inline(always)]
    fn has(&self, key: u64) -> bool {
        self.contains(&key)
    }

    #[inline(always)]
    fn take(&mut self, key: u64) {
        let _ = self.remove(&key);
    }

    #[inline(always)]
    fn wipe(&mut self) {
        self.clear();
    }

    fn halve(&mut self) {
        self.retain(|key| *key % 2 == 0);
    }

    fn count(&self) -> usize {
        self.len()
    }

    fn listed(&self, alloc: Global) -> io::Result<Vec<u64>> {
        Ok(self.iter().copied().collect(alloc)?)
    }

    fn pour(&self, to: &mut Set) {
        for key in self {
            let _ = to.insert(*key);
        }
    }
}

impl Shaped for Index {
    fn make(alloc: Global) -> Index {
        HashIndex::new(alloc)
    }

    #[inline(always)]
    fn put(&mut self, key: u64) {
        let _ = self.insert(key, key);
    }

    #[inline(always)]
    fn has(&self, key: u64) -> bool {
        self.contains(&key)
    }

    #[inline(always)]
    fn take(&mut self, key: u64) {
        let _ = self.remove(&key);
    }

    #[inline(always)]
    fn wipe(&mut self) {
        self.clear();
    }

    fn halve(&mut self) {
        let mut keep = |key: &u64, _value: &u64| -> bool { *key % 2 == 0 };
        self.retain(&mut keep);
    }

    fn count(&self) -> usize {
        self.len()
    }

    fn listed(&self, alloc: Global) -> io::Result<Vec<u64>> {
        Ok(self.keys().copied().collect(alloc)?)
    }

    fn pour(&self, to: &mut Index) {
        for (key, value) in self {
            let _ = to.insert(*key, *value);
        }
    }
}

impl Shaped for Cache {
    fn make(alloc: Global) -> Cache {
        HashCache::with_capacity(alloc, DefaultHash::default(), 0, MOST_SLOTS)
    }

    #[inline(always)]
    fn put(&mut self, key: u64) {
        let _ = self.upsert(key, key);
    }

    #[inline(always)]
    fn has(&self, key: u64) -> bool {
        self.contains(&key)
    }

    #[inline(always)]
    fn take(&mut self, key: u64) {
        let _ = self.remove(&key);
    }

    #[inline(always)]
    fn wipe(&mut self) {
        self.clear();
    }

    fn halve(&mut self) {
        let mut keep = |key: &u64, _value: &mut u64| -> bool { *key % 2 == 0 };
        self.retain(&mut keep);
    }

    fn count(&self) -> usize {
        self.len()
    }

    fn listed(&self, alloc: Global) -> io::Result<Vec<u64>> {
        Ok(self.keys().copied().collect(alloc)?)
    }

    fn pour(&self, to: &mut Cache) {
        for (key, value) in self {
            let _ = to.upsert(*key, *value);
        }
    }
}
