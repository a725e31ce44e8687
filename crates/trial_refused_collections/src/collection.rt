//! The four collections, and the calls that they share.
use Collection::{Cache, Index, Map, Set};
use bucket_table::script::ScriptHash;
use collections::hash_cache::HashCache;
use collections::hash_index::HashIndex;
use collections::hash_map::{HashMap, NotInserted};
use collections::hash_set::HashSet;
use std::alloc::{AllocError, Global};

/// A collection. The value under each key of a set is 0.
#[derive(Drop)]
pub(crate) enum Collection {
    Map(HashMap<u64, u64, ScriptHash>),
    Set(HashSet<u64, ScriptHash>),
    Index(HashIndex<u64, u64, ScriptHash>),
    /// A cache of at most 128 slots.
    Cache(HashCache<u64, u64, ScriptHash>),
}

/// Makes the same call on any collection, or a different one on a cache.
macro_rules! on_each {
    ($collection:expr, $any:ident => $call:expr, $cache:pat => $of_cache:expr) => {
        match $collection {
            Map($any) => $call,
            Set($any) => $call,
            Index($any) => $call,
            Cache($cache) => $of_cache,
        }
    };
}

impl Collection {
    /// Returns one of each with its name, without pairs.
    pub(crate) fn all(alloc: Global, hasher: ScriptHash) -> [(&'static str, Self); 4] {
        let cache = HashCache::with_capacity(alloc, hasher, 0, 128);
        [
            ("map", Map(HashMap::with_hasher(alloc, hasher))),
            ("set", Set(HashSet::with_hasher(alloc, hasher))),
            ("index", Index(HashIndex::with_hasher(alloc, hasher))),
            ("cache", Cache(cache)),
        ]
    }

    /// Inserts a pair, and returns the one that a cache evicts for it.
    pub(crate) fn insert(
        &mut self,
        key: u64,
        value: u64,
    ) -> Result<Option<(u64, u64)>, NotInserted<u64, u64>> {
        match self {
            Map(map) => map.insert(key, value)?,
            Set(set) => match set.insert_new(key) {
                Ok(()) => {}
                Err(NotInserted::Present(own, _)) => return Err(NotInserted::Present(own, 0)),
                Err(NotInserted::Memory(own, _)) => return Err(NotInserted::Memory(own, 0)),
            },
            Index(index) => index.insert(key, value)?,
            Cache(cache) => return cache.put(key, value),
        }
        Ok(None)
    }

    /// Removes a pair.
    pub(crate) fn remove(&mut self, key: u64) -> Option<(u64, u64)> {
        match self {
            Map(map) => map.remove(&key),
            Set(set) => set.take(&key).map(|own| (own, 0)),
            Index(index) => index.remove_with(&key, |own: &u64, value: &u64| (*own, *value)),
            Cache(cache) => cache.remove(&key),
        }
    }

    /// Returns the value under a key.
    pub(crate) fn value(&self, key: u64) -> Option<u64> {
        match self {
            Map(map) => map.get(&key).copied(),
            Set(set) => set.contains(&key).then_some(0),
            Index(index) => index.peek(&key).copied(),
            Cache(cache) => cache.peek(&key).copied(),
        }
    }

    /// Returns how many pairs its iterator yields, and how many `len` reports.
    pub(crate) fn lens(&self) -> (usize, usize) {
        let mut came: usize = 0;
        let mut meet = |_key: &u64, _value: &u64| came = came.saturating_add(1);
        match self {
            Map(map) => map.for_each(&mut meet),
            Set(set) => set.for_each(&mut |key: &u64| meet(key, &0)),
            Index(index) => index.for_each(&mut meet),
            Cache(cache) => cache.for_each(&mut meet),
        }
        (came, on_each!(self, any => any.len(), cache => cache.len()))
    }

    /// Clears the collection. Returns whether it then has no pair, and as many slots as before.
    pub(crate) fn clear(&mut self) -> bool {
        let slots = self.slots();
        on_each!(self, any => any.clear(), cache => cache.clear());
        self.slots() == slots && on_each!(self, any => any.is_empty(), cache => cache.is_empty())
    }

    /// Returns the number of slots.
    fn slots(&self) -> usize {
        on_each!(self, any => any.capacity(), cache => cache.capacity())
    }

    /// Raises the minimum, if there is one, and returns whether it was raised.
    pub(crate) fn raise_minimum(&mut self, additional: usize) -> bool {
        on_each!(self, any => any.raise_minimum(additional) == additional, _ => true)
    }

    /// Makes room in a map or a set, and returns whether it then has slots, or allocation failed.
    pub(crate) fn try_reserve(&mut self, additional: usize) -> bool {
        match self {
            Map(map) => map.try_reserve(additional).is_err() || map.capacity() >= additional,
            Set(set) => set.try_reserve(additional).is_err() || set.capacity() >= additional,
            _ => true,
        }
    }

    /// Sets the minimum to 0, and shrinks a map or a set to fit. Returns `true` if slots are left
    /// exactly if there are pairs, or if allocation failed.
    pub(crate) fn shrink_to_fit(&mut self) -> bool {
        match self {
            Map(map) => map.shrink_to_fit().is_err() || (map.capacity() == 0) == map.is_empty(),
            Set(set) => set.shrink_to_fit().is_err() || (set.capacity() == 0) == set.is_empty(),
            Index(index) => {
                index.shrink_to_fit();
                true
            }
            Cache(_) => true,
        }
    }

    /// Copies a map or a set, by clones of its pairs or as they are; `None` for another collection.
    ///
    /// # Errors
    ///
    /// Allocation failure.
    pub(crate) fn try_copied(&self, cloned: bool) -> Result<Option<Self>, AllocError> {
        let copy = match self {
            Map(map) if cloned => Map(map.try_clone(map.allocator())?),
            Map(map) => Map(map.try_copy(map.allocator())?),
            Set(set) if cloned => Set(set.try_clone(set.allocator())?),
            Set(set) => Set(set.try_copy(set.allocator())?),
            _ => return Ok(None),
        };
        Ok(Some(copy))
    }
}
