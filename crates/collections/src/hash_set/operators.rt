//! `&own | &other`, and the same with `&`, `-` and `^`: each inserts clones of keys into a new set.
//!
//! The new set has the first set's allocator, a clone of its hasher, and room for as many keys as
//! the first set has. A call fails if allocation fails, or if a key's clone isn't equal to the key.
ghost use Rattle.std.specs.Prelude.{◌&&◌, ◌||◌, IfOk, OnOk, not};
ghost use Rattle.std.specs.Iterator.{IsFinite};
ghost use Rattle.collections.specs.Clones.{JoinsClones, PutsClonesFrom, PutsKeyClone};
ghost use Rattle.collections.specs.Collecting.{empty_map};
ghost use Rattle.collections.specs.Keys.{keys_of_either, keys_of_one, keys_outside, keys_within};

use crate::hash_set::HashSet;
use bucket_table::key_hash::KeyHash;
use std::alloc::AllocError;
use std::ops::{BitAnd, BitOr, BitXor, Sub};

impl<K: Eq + Clone, H: KeyHash<K>> HashSet<K, H> {
    /// Inserts clones of the keys that an iterator borrows.
    fn put_clones<'k, I: Iterator<Item = &'k K>>(&mut self, keys: &mut I) -> Result<(), AllocError>
    where
        K: 'k,
        requires can { I.can_next keys.old }
        requires finite { IsFinite (I.remaining keys.old) }
        ensures { OnOk result
            (PutsClonesFrom K.eq K.is_clone I.next_gives keys.old self.old self.new) }
    {
        self.map.fact_sound();
        while let Some(key) = keys.next() {
            self.put_clone(key)?;
        }
        Ok(())
    }

    /// Inserts a clone of a key, if the clone is equal to it.
    fn put_clone(&mut self, key: &K) -> Result<(), AllocError>
        ensures { OnOk result (PutsKeyClone K.eq K.is_clone self.old key.now self.new) }
    {
        let own = key.clone()?;
        if !key.eq(&own) {
            return Err(AllocError);
        }
        let Ok(_added) = self.insert(own) else {
            return Err(AllocError);
        };
        Ok(())
    }

    /// Returns a new set of clones of the keys that an iterator borrows.
    fn clones_of<'k, I: Iterator<Item = &'k K>>(
        &self,
        len: usize,
        keys: &mut I,
    ) -> Result<Self, AllocError>
    where
        K: 'k,
        H: Clone,
        requires can { I.can_next keys.old }
        requires finite { IsFinite (I.remaining keys.old) }
        ensures clones { IfOk result (λ made. PutsClonesFrom K.eq K.is_clone I.next_gives
            keys.old (empty_map made.hasher) made) }
        ensures hasher { IfOk result (λ made. H.is_clone self.now.hasher made.hasher) }
    {
        let mut made = self.empty_like()?;
        let _ = made.try_reserve(len);
        made.put_clones(keys)?;
        Ok(made)
    }
}

/// `&own | &other` is a set of clones of the keys in either set.
impl<'a, 'b, K: Eq + Clone, H: KeyHash<K> + Clone> BitOr<&'b HashSet<K, H>> for &'a HashSet<K, H> {
    type Output = Result<HashSet<K, H>, AllocError>;

    ghost bitor_gives = { λ own other made. IfOk made (JoinsClones K.eq K.is_clone H.is_clone
        own.now other.now (keys_of_either K.eq own.now other.now)
        (λ own other. own || other)) };

    fn bitor(self, other: &'b HashSet<K, H>) -> Result<HashSet<K, H>, AllocError> {
        let mut keys = self.union(other);
        self.clones_of(self.len(), &mut keys)
    }
}

/// `&own & &other` is a set of clones of the keys in both sets.
impl<'a, 'b, K: Eq + Clone, H: KeyHash<K> + Clone> BitAnd<&'b HashSet<K, H>> for &'a HashSet<K, H> {
    type Output = Result<HashSet<K, H>, AllocError>;

    ghost bitand_gives = { λ own other made. IfOk made (JoinsClones K.eq K.is_clone H.is_clone
        own.now other.now (keys_within K.eq own.now other.now)
        (λ own other. own && other)) };

    fn bitand(self, other: &'b HashSet<K, H>) -> Result<HashSet<K, H>, AllocError> {
        let mut keys = self.intersection(other);
        self.clones_of(self.len().min(other.len()), &mut keys)
    }
}

/// `&own - &other` is a set of clones of the keys in the first set that aren't in the other.
impl<'a, 'b, K: Eq + Clone, H: KeyHash<K> + Clone> Sub<&'b HashSet<K, H>> for &'a HashSet<K, H> {
    type Output = Result<HashSet<K, H>, AllocError>;

    ghost sub_gives = { λ own other made. IfOk made (JoinsClones K.eq K.is_clone H.is_clone
        own.now other.now (keys_outside K.eq own.now other.now)
        (λ own other. own && not other)) };

    fn sub(self, other: &'b HashSet<K, H>) -> Result<HashSet<K, H>, AllocError> {
        let mut keys = self.difference(other);
        self.clones_of(self.len(), &mut keys)
    }
}

/// `&own ^ &other` is a set of clones of the keys in exactly one of the sets.
impl<'a, 'b, K: Eq + Clone, H: KeyHash<K> + Clone> BitXor<&'b HashSet<K, H>> for &'a HashSet<K, H> {
    type Output = Result<HashSet<K, H>, AllocError>;

    ghost bitxor_gives = { λ own other made. IfOk made (JoinsClones K.eq K.is_clone H.is_clone
        own.now other.now (keys_of_one K.eq own.now other.now)
        (λ own other. (own && not other) || (other && not own))) };

    fn bitxor(self, other: &'b HashSet<K, H>) -> Result<HashSet<K, H>, AllocError> {
        let mut keys = self.symmetric_difference(other);
        self.clones_of(self.len(), &mut keys)
    }
}
