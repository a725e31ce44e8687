//! A copy of a set whose keys are clones, and empty sets for `mem::try_take` and for an entry's
//! `or_default`. Allocation may fail.
ghost use Rattle.std.specs.Prelude.{◌≡◌, IfOk, IsOk};
ghost use Rattle.collections.specs.Clones.{IsClone};
ghost use Rattle.collections.specs.Maps.{IsEmpty};
ghost use Rattle.collections.specs.Collecting.{empty_map};

use crate::default_hash::DefaultHash;
use crate::hash_set::HashSet;
use bucket_table::key_hash::KeyHash;
use std::alloc::{AllocError, Global};
use std::default::{Emptied, MadeWith};
use std::hash::Hash;

impl<K: Eq + Clone, H: KeyHash<K> + Clone> HashSet<K, H> {
    /// Returns another set with clones of the keys and of the hasher, and the same capacities,
    /// whose slots are allocated from `alloc`.
    ///
    /// # Errors
    ///
    /// Allocation failure; or a key's clone isn't equal to the key, which no law of `Clone` rules
    /// out. An empty set allocates nothing but its hasher's clone.
    ///
    /// O(slots) expected. scc: `HashSet::clone`.
    pub fn try_clone(&self, alloc: Global) -> Result<Self, AllocError>
        ensures copy { IfOk result (λ copy. IsClone K.eq K.is_clone (λ own held. held ≡ own)
            H.is_clone self.now copy) }
        ensures succeeds { IsEmpty self.now → H.is_infallible self.now.hasher → IsOk result }
    {
        match self.map.try_clone(alloc) {
            Ok(map) => Ok(HashSet { map }),
            Err(refused) => Err(refused),
        }
    }
}

/// Like `try_clone`, with memory from the set's own allocator, so that a struct with a set can
/// derive `Clone`.
impl<K: Eq + Clone, H: KeyHash<K> + Clone> Clone for HashSet<K, H> {
    ghost is_clone = { λ own copy. IsClone K.eq K.is_clone (λ unit held. held ≡ unit) H.is_clone
        own copy };

    ghost is_infallible = { λ own. IsEmpty own × H.is_infallible own.hasher };

    fn clone(&self) -> Result<HashSet<K, H>, AllocError> {
        self.try_clone(self.allocator())
    }
}

/// `mem::try_take(&mut set)` takes a set, and leaves an empty one, as with a map. O(1).
impl<K: Eq, H: KeyHash<K> + Clone> Emptied for HashSet<K, H> {
    ghost is_emptied = { λ set. set ≡ empty_map set.hasher };

    fn emptied(like: &HashSet<K, H>) -> Result<HashSet<K, H>, AllocError> {
        like.empty_like()
    }
}

impl<K: Eq, H: KeyHash<K> + Clone> HashSet<K, H> {
    /// Returns an empty set with a clone of the hasher, whose memory comes from the same allocator.
    ///
    /// # Errors
    ///
    /// The hasher's clone fails.
    pub(super) fn empty_like(&self) -> Result<Self, AllocError>
        ensures empty { IfOk result (λ made. made ≡ empty_map made.hasher) }
        ensures hasher { IfOk result (λ made. H.is_clone self.now.hasher made.hasher) }
    {
        let map = self.map.empty_like()?;
        Ok(HashSet { map })
    }
}

/// A set can be the value that an entry's `or_default` makes.
impl<K: Eq + Hash> MadeWith<Global> for HashSet<K, DefaultHash> {
    ghost is_made_with = { λ set. set ≡ empty_map set.hasher };

    fn made_with(alloc: Global) -> HashSet<K, DefaultHash> {
        HashSet::new(alloc)
    }
}
