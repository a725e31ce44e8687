//! Copies of a map, and empty maps for `mem::try_take` and for an entry's `or_default`. Allocation
//! may fail.
ghost use Rattle.std.specs.Prelude.{IfErr, IfOk, IfSome, IsOk, OnOk, ◌≡◌, ◌^◌, None, Some, min};
ghost use Rattle.std.specs.Prelude.{true};
ghost use Rattle.std.specs.Borrow.{Bor};
ghost use Rattle.bucket_table.specs.Map.Cloning.{AreMadeOf};
ghost use Rattle.collections.specs.Clones.{IsClone, IsClonedPair, PutsClone};
ghost use Rattle.collections.specs.Maps.{IsEmpty, get};
ghost use Rattle.std.specs.List.{FoldsTo};
ghost use Rattle.collections.specs.Changes.{Adds};
ghost use Rattle.collections.specs.Copies.{BecomesOrGoes, IsCopy};
ghost use Rattle.collections.specs.Collecting.{empty_map};

use crate::default_hash::DefaultHash;
use crate::hash_map::HashMap;
use crate::room::Fits;
use crate::sizing::LEAST_CAPACITY;
use bucket_table::hash_table::MAXIMUM_CAPACITY_LIMIT;
use bucket_table::key_hash::KeyHash;
use std::alloc::{AllocError, Global};
use std::default::{Emptied, MadeWith};
use std::hash::Hash;

impl<K: Eq + Clone, V: Clone, H: KeyHash<K> + Clone> HashMap<K, V, H> {
    /// Returns another map with clones of the pairs and of the hasher, and the same capacities,
    /// whose slots are allocated from `alloc`.
    ///
    /// # Errors
    ///
    /// Allocation failure; or a key's clone isn't equal to the key, which no law of `Clone` rules
    /// out. An empty map allocates nothing but its hasher's clone.
    ///
    /// O(slots) expected. scc: `HashMap::clone`.
    pub fn try_clone(&self, alloc: Global) -> Result<Self, AllocError>
        ensures copy { IfOk result (λ copy. IsClone K.eq K.is_clone V.is_clone H.is_clone self.now
            copy) }
        ensures succeeds { IsEmpty self.now → H.is_infallible self.now.hasher → IsOk result }
    {
        self.room.fact_fits();
        self.table.fact_sound();
        let hasher = self.table.hasher().clone()?;
        let make = |key: &K, value: &V|
            ensures { IfSome result (λ pair. IsClonedPair K.eq K.is_clone V.is_clone
                (key.now, value.now) pair) }
        { clone_pair(key, value) };
        match self.copy_slots(alloc, hasher, &make) {
            Ok(copy) => Ok(copy),
            Err(hasher) => self.clone_pairs(alloc, hasher),
        }
    }

    /// Returns a clone with this clone of the hasher, into which clones of the pairs are inserted
    /// one by one.
    fn clone_pairs(&self, alloc: Global, hasher: H) -> Result<Self, AllocError>
        requires { H.is_clone self.now.hasher hasher }
        ensures copy { IfOk result (λ copy. IsClone K.eq K.is_clone V.is_clone H.is_clone self.now
            copy) }
        ensures succeeds { IsEmpty self.now → IsOk result }
    {
        self.room.fact_fits();
        let minimum = self.table.minimum_capacity();
        let mut copy = HashMap::with_room(alloc, hasher, minimum, self.len());
        let mut pairs = self.iter();
        while let Some(pair) = pairs.next() {
            let (key, value) = pair;
            copy.put_clone(key, value)?;
        }
        Ok(copy)
    }
}

impl<K: Eq + Clone, V: Clone, H: KeyHash<K>> HashMap<K, V, H> {
    /// Inserts clones of a key and a value, if the key's clone is equal to it.
    fn put_clone(&mut self, key: &K, value: &V) -> Result<(), AllocError>
        ensures { OnOk result
            (PutsClone K.eq K.is_clone V.is_clone self.old (key.now, value.now) self.new) }
    {
        let Some((own, held)) = clone_pair(key, value) else {
            return Err(AllocError);
        };
        match self.upsert(own, held) {
            Ok(_earlier) => Ok(()),
            Err(_) => Err(AllocError),
        }
    }
}

impl<K: Eq + Drop, V: Drop, H: KeyHash<K>> HashMap<K, V, H> {
    /// Returns a map with another hasher and as many slots. Its pairs are those that `make` returns
    /// for this map's pairs, each in the bucket of its original.
    ///
    /// # Errors
    ///
    /// The hasher is returned if the map is empty, has old slots, or uses less than an eighth of
    /// its slots and could do with fewer; if a pair's hash belongs in another bucket; if `make`
    /// returns `None`; or if allocation fails.
    fn copy_slots<F: Fn(&K, &V) -> Option<(K, V)>>(
        &self,
        alloc: Global,
        hasher: H,
        make: &F,
    ) -> Result<Self, H>
        requires callable { F.IsAlwaysCallable make.now }
        requires equal { (key : Bor K) (value : Bor V) (pair : K × V)
            → F.post make.now key value (Some pair)
            → K.eq key.now pair.0 ≡ true }
        ensures pairs { IfOk result (λ copy.
            AreMadeOf (λ key value made. F.post make.now key value made) self.now.entries
            copy.entries) }
        ensures hasher { IfOk result (λ copy. copy.hasher ≡ hasher) }
        ensures minimum { IfOk result (λ copy. copy.minimum ≡ min self.now.minimum (2 ^ 63)) }
        ensures maximum { IfOk result (λ copy. copy.maximum ≡ 2 ^ 63) }
        ensures hasher_returned { IfErr result (λ back. back ≡ hasher) }
    {
        self.room.fact_fits();
        let slots = self.table.num_slots();
        let is_sparse = slots > LEAST_CAPACITY && slots / 8 > self.table.len();
        if self.table.is_empty() || is_sparse {
            return Err(hasher);
        }
        if self.table.maximum_capacity() != MAXIMUM_CAPACITY_LIMIT {
            return Err(hasher);
        }
        match self.table.cloned_by(alloc, hasher, make) {
            Ok(table) => Ok(HashMap {
                table,
                room: Fits::new(),
            }),
            Err(hasher) => Err(hasher),
        }
    }
}

/// Returns clones of a key and a value. Returns `None` if one of them can't be made, or the key's
/// clone isn't equal to it.
#[inline(always)]
pub(crate) fn clone_pair<K: Eq + Clone, V: Clone>(key: &K, value: &V) -> Option<(K, V)>
    ensures { IfSome result (λ pair. IsClonedPair K.eq K.is_clone V.is_clone (key.now, value.now)
        pair) }
{
    let Ok(own) = key.clone() else {
        return None;
    };
    if !key.eq(&own) {
        return None;
    }
    let Ok(held) = value.clone() else {
        return None;
    };
    Some((own, held))
}

/// Like `try_clone`, with memory from the map's own allocator, so that a struct with a map can
/// derive `Clone`.
impl<K: Eq + Clone, V: Clone, H: KeyHash<K> + Clone> Clone for HashMap<K, V, H> {
    ghost is_clone = { λ own copy. IsClone K.eq K.is_clone V.is_clone H.is_clone own copy };

    ghost is_infallible = { λ own. IsEmpty own × H.is_infallible own.hasher };

    fn clone(&self) -> Result<HashMap<K, V, H>, AllocError> {
        self.try_clone(self.allocator())
    }
}

/// A target that takes the pairs of a copy.
trait TakesPairs<K, V> {
    /// The target after it has taken a pair.
    ghost Takes: { Self → K → V → Self → Type 0 };

    /// Takes a pair.
    fn take_pair(&mut self, key: K, value: V)
        ensures { Self.Takes self.old key value self.new };
}

/// A copy that isn't complete yet; `None` once an insertion failed.
impl<K: Eq + Copy, V: Copy, H: KeyHash<K> + Copy> TakesPairs<K, V> for Option<HashMap<K, V, H>> {
    ghost Takes = { λ before key value after. BecomesOrGoes (λ old new. get K.eq old key ≡ None
        → Adds K.eq old key value new) before after };

    fn take_pair(&mut self, key: K, value: V) {
        let refused = match self {
            Some(own) => own.upsert(key, value).is_err(),
            None => false,
        };
        if refused {
            *self = None;
        }
    }
}

impl<K: Eq + Copy, V: Copy, H: KeyHash<K> + Copy> HashMap<K, V, H> {
    /// Returns a copy with the same pairs, hasher and capacities, allocated from `alloc`.
    ///
    /// # Errors
    ///
    /// Allocation failure. An empty map allocates nothing.
    ///
    /// O(slots) expected. This is `try_clone` for `Copy` pairs, with a stronger contract.
    pub fn try_copy(&self, alloc: Global) -> Result<Self, AllocError>
        ensures copy { IfOk result (λ copy. IsCopy K.eq self.now copy) }
        ensures succeeds { IsEmpty self.now → IsOk result }
    {
        self.room.fact_fits();
        self.table.fact_sound();
        let make = |key: &K, value: &V|
            ensures { result ≡ Some (key.now, value.now) }
        { Some((*key, *value)) };
        let hasher = match self.copy_slots(alloc, *self.table.hasher(), &make) {
            Ok(copy) => return Ok(copy),
            Err(hasher) => hasher,
        };
        let minimum = self.table.minimum_capacity();
        let roomy = HashMap::with_room(alloc, hasher, minimum, self.len());
        let mut copy = Some(roomy);
        self.pour(&mut copy);
        match copy {
            Some(own) => Ok(own),
            None => Err(AllocError),
        }
    }

    /// Passes each pair to the target once, in the order of the view.
    fn pour<M: TakesPairs<K, V>>(&self, into: &mut M)
        ensures { FoldsTo (λ before pair after. M.Takes before pair.0 pair.1 after) into.old
            self.now.entries into.new }
    {
        let mut put = |key: &K, value: &V|
            ensures { M.Takes into.entry.now key.now value.now into.exit.now }
        {
            into.take_pair(*key, *value);
        };
        self.for_each_ref(&mut put);
    }
}

/// `mem::try_take(&mut map)` takes a map, and leaves an empty one with a clone of its hasher. Its
/// minimum is 0. It fails only if that clone does. O(1).
impl<K: Eq, V, H: KeyHash<K> + Clone> Emptied for HashMap<K, V, H> {
    ghost is_emptied = { λ map. map ≡ empty_map map.hasher };

    fn emptied(like: &HashMap<K, V, H>) -> Result<HashMap<K, V, H>, AllocError> {
        like.empty_like()
    }
}

impl<K: Eq, V, H: KeyHash<K> + Clone> HashMap<K, V, H> {
    /// Returns an empty map with a clone of the hasher, whose memory comes from the same allocator.
    ///
    /// # Errors
    ///
    /// The hasher's clone fails.
    pub(crate) fn empty_like(&self) -> Result<Self, AllocError>
        ensures empty { IfOk result (λ made. made ≡ empty_map made.hasher) }
        ensures hasher { IfOk result (λ made. H.is_clone self.now.hasher made.hasher) }
    {
        self.room.fact_fits();
        Ok(HashMap::with_hasher(self.allocator(), self.hasher().clone()?))
    }
}

/// A map can be the value that an entry's `or_default` makes.
impl<K: Eq + Hash, V> MadeWith<Global> for HashMap<K, V, DefaultHash> {
    ghost is_made_with = { λ map. map ≡ empty_map map.hasher };

    fn made_with(alloc: Global) -> HashMap<K, V, DefaultHash> {
        HashMap::new(alloc)
    }
}
