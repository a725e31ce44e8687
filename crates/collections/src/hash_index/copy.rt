//! A copy of an index whose keys and values are clones, and empty indexes for `mem::try_take` and
//! for an entry's `or_default`. Allocation may fail.
ghost use Rattle.std.specs.Prelude.{◌≡◌, [], IfOk, IsOk, OnOk, min};
ghost use Rattle.bucket_table.specs.Resize.Resizing.{with_minimum};
ghost use Rattle.bucket_table.specs.Views.ArraysView.{tombstones_of};
ghost use Rattle.collections.specs.Clones.{IsClone, PutsClone};
ghost use Rattle.collections.specs.Maps.{IsEmpty, map_of};

use crate::default_hash::DefaultHash;
use crate::hash_index::HashIndex;
use crate::hash_map::clone_pair;
use crate::sizing::minimum_for;
use bucket_table::key_hash::KeyHash;
use std::alloc::{AllocError, Global};
use std::default::{Emptied, MadeWith};
use std::hash::Hash;

impl<K: Eq + Clone, V: Clone, H: KeyHash<K> + Clone> HashIndex<K, V, H> {
    /// Returns another index with clones of the pairs and of the hasher, the same capacities and no
    /// tombstones, whose slots are allocated from `alloc`.
    ///
    /// # Errors
    ///
    /// Allocation failure; or a key's clone isn't equal to the key, which no law of `Clone` rules
    /// out. An empty index allocates nothing but its hasher's clone.
    ///
    /// O(slots) expected. scc: `HashIndex::clone`.
    pub fn try_clone(&self, alloc: Global) -> Result<Self, AllocError>
        ensures copy { IfOk result (λ copy. IsClone K.eq K.is_clone V.is_clone H.is_clone
            (map_of self.now) (map_of copy) × (tombstones_of copy.arrays ≡ [])) }
        ensures succeeds { IsEmpty (map_of self.now)
            → H.is_infallible self.now.hasher
            → IsOk result }
    {
        self.room.fact_fits();
        let minimum = self.table.minimum_capacity();
        let hasher = self.table.hasher().clone()?;
        let roomy = minimum.max(minimum_for(self.len()));
        let mut copy = HashIndex::with_minimum(alloc, hasher, roomy);
        let mut pairs = self.iter();
        while let Some(pair) = pairs.next() {
            let (key, value) = pair;
            copy.put_clone(key, value)?;
        }
        copy.set_minimum(minimum);
        Ok(copy)
    }
}

impl<K: Eq + Clone, V: Clone, H: KeyHash<K>> HashIndex<K, V, H> {
    /// Sets the minimum to `slots`, or to the maximum if that is less, and resizes nothing.
    fn set_minimum(&mut self, slots: usize)
        ensures { self.new ≡ record self.old {
          arrays = with_minimum self.old.arrays (min slots self.old.arrays.maximum);
        } }
    {
        self.room.fact_fits();
        let least = slots.min(self.table.maximum_capacity());
        self.table.set_minimum(least);
    }

    /// Inserts clones of a key and a value, if the key's clone is equal to it.
    fn put_clone(&mut self, key: &K, value: &V) -> Result<(), AllocError>
        ensures { OnOk result (PutsClone K.eq K.is_clone V.is_clone (map_of self.old)
            (key.now, value.now) (map_of self.new)
            × (tombstones_of self.old.arrays ≡ [] → tombstones_of self.new.arrays ≡ [])) }
    {
        let Some((own, held)) = clone_pair(key, value) else {
            return Err(AllocError);
        };
        let Ok(_added) = self.insert(own, held) else {
            return Err(AllocError);
        };
        Ok(())
    }
}

/// Like `try_clone`, with memory from the index's own allocator, so that a struct with an index can
/// derive `Clone`.
impl<K: Eq + Clone, V: Clone, H: KeyHash<K> + Clone> Clone for HashIndex<K, V, H> {
    ghost is_clone = { λ own copy. IsClone K.eq K.is_clone V.is_clone H.is_clone (map_of own)
        (map_of copy) × (tombstones_of copy.arrays ≡ []) };

    ghost is_infallible = { λ own. IsEmpty (map_of own) × H.is_infallible own.hasher };

    fn clone(&self) -> Result<HashIndex<K, V, H>, AllocError> {
        self.room.fact_fits();
        self.try_clone(self.table.allocator())
    }
}

/// `mem::try_take(&mut index)` takes an index with its tombstones, and leaves an empty one with a
/// clone of its hasher. Its minimum is 0. It fails only if that clone does. O(1).
impl<K: Eq, V, H: KeyHash<K> + Clone> Emptied for HashIndex<K, V, H> {
    ghost is_emptied = { λ index. IsEmpty (map_of index) × (tombstones_of index.arrays ≡ []) };

    fn emptied(like: &HashIndex<K, V, H>) -> Result<HashIndex<K, V, H>, AllocError> {
        like.room.fact_fits();
        Ok(HashIndex::with_hasher(like.table.allocator(), like.table.hasher().clone()?))
    }
}

/// An index can be the value that an entry's `or_default` makes.
impl<K: Eq + Hash, V> MadeWith<Global> for HashIndex<K, V, DefaultHash> {
    ghost is_made_with = { λ index. IsEmpty (map_of index) × (tombstones_of index.arrays ≡ []) };

    fn made_with(alloc: Global) -> HashIndex<K, V, DefaultHash> {
        HashIndex::new(alloc)
    }
}
