//! Resizing a cache at once, and empty caches for `mem::try_take` and for an entry's `or_default`.
ghost use Rattle.std.specs.Prelude.{◌≡◌, OnErr, OnOk};
ghost use Rattle.collections.specs.Resizing.{ResizesTo};
ghost use Rattle.collections.specs.Maps.{IsEmpty, map_of};

use crate::default_hash::DefaultHash;
use crate::hash_cache::HashCache;
use crate::sizing::size_for;
use bucket_table::key_hash::KeyHash;
use std::alloc::{AllocError, Global};
use std::default::{Emptied, MadeWith};
use std::hash::Hash;

impl<K: Eq + Drop, V: Drop, H: KeyHash<K>> HashCache<K, V, H> {
    /// Moves all pairs into a new array, and makes its size the minimum and the maximum, as
    /// `with_size` does: the least power of two that is at least `slots` and 64, limited to 2^63.
    /// The result is as if each pair were `put` into an empty cache of that size, those of a bucket
    /// in LRU order, the least recently used one first. A pair is evicted, and dropped, only when
    /// its new bucket has 32 pairs already, the least recently used one first. A pair outside the
    /// LRU order counts as less recently used than those of its bucket that are in it.
    ///
    /// # Errors
    ///
    /// Allocation failure for the new array: the cache is unchanged.
    ///
    /// O(slots of all arrays). lru: `LruCache::resize`.
    pub fn resize(&mut self, slots: usize) -> Result<(), AllocError>
        ensures hasher { self.new.hasher ≡ self.old.hasher }
        ensures resized { OnOk result
            (ResizesTo K.eq (H.hash_of self.old.hasher) slots self.old self.new) }
        ensures unchanged { OnErr result (self.new.arrays ≡ self.old.arrays) }
    {
        self.room.fact_fits();
        self.table.fact_sound();
        let Ok(()) = self.table.renew(size_for(slots)) else {
            return Err(AllocError);
        };
        self.table.fact_sound();
        Ok(())
    }
}

/// `mem::try_take(&mut cache)` takes a cache, and leaves an empty one with the same capacities and
/// a clone of its hasher. It fails only if that clone does. O(1).
impl<K: Eq, V, H: KeyHash<K> + Clone> Emptied for HashCache<K, V, H> {
    ghost is_emptied = { λ cache. IsEmpty (map_of cache) };

    fn emptied(like: &HashCache<K, V, H>) -> Result<HashCache<K, V, H>, AllocError> {
        like.room.fact_fits();
        let hasher = like.table.hasher().clone()?;
        let minimum = like.table.minimum_capacity();
        let maximum = like.table.maximum_capacity();
        Ok(HashCache::with_capacity(like.table.allocator(), hasher, minimum, maximum))
    }
}

/// A cache of at most 256 slots can be the value that an entry's `or_default` makes.
impl<K: Eq + Hash, V> MadeWith<Global> for HashCache<K, V, DefaultHash> {
    ghost is_made_with = { λ cache. IsEmpty (map_of cache) };

    fn made_with(alloc: Global) -> HashCache<K, V, DefaultHash> {
        HashCache::new(alloc)
    }
}
