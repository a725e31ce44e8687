//! A set of keys: a map to `()`.
//!
//! Model: `MapView`, whose pairs are the keys beside `()`.
//!
//! Ports scc's `src/hash_set.rs` to an owned set.
ghost use Rattle.std.specs.Prelude.{◌≡◌, ◌<◌, ◌↔◌, ◌-◌, ◌^◌, [], Err, IfOk, IsOk, IsTrue, is_some};
ghost use Rattle.std.specs.Prelude.{length, min, true};
ghost use Rattle.std.specs.Fn.{CalledAt};
ghost use Rattle.std.specs.Map.{keys_of};
ghost use Rattle.bucket_slots.specs.declared.not_inserted.NotInserted.TheVariants.{Memory};
ghost use Rattle.collections.specs.Changes.{Inserts, SetRemoves};
ghost use Rattle.collections.specs.Copies.{IsCopy};
ghost use Rattle.collections.specs.Crowding.{LacksRoom};
ghost use Rattle.collections.specs.Slots.{GrowsSlots, LosesSlots, cleared};
ghost use Rattle.collections.specs.Keys.{CallsEachKey, RetainsKeys};
ghost use Rattle.collections.specs.Maps.{contains_by, IsEmpty, map_len, pairs_in_bucket};

mod algebra;
mod capacity;
mod collect;
mod copy;
mod iter;
mod keys;
mod operators;

use crate::calling::{fact_asks, fact_visits};
use crate::default_hash::DefaultHash;
use crate::hash_map::{HashMap, NotInserted};
use crate::key_form::KeyForm;
pub use algebra::{Difference, Intersection, SymmetricDifference, Union};
use bucket_table::key_hash::{KeyHash, StdHash};
pub use iter::{Drain, ExtractIf, IntoIter, Iter};
use std::alloc::{AllocError, Global};
use std::fmt::{self, Debug, Formatter, Write};
use std::hash::{BuildHasherDefault, Hash, RandomState};
use std::marker::Model;

/// A set of keys. scc: `HashSet`.
///
/// Incremental rehash and allocation failure are as in `HashMap`.
#[derive(Drop)]
pub struct HashSet<K: Eq, H: KeyHash<K> = DefaultHash> {
    map: HashMap<K, (), H>,
}

impl<K: Eq, H: KeyHash<K>> Model for HashSet<K, H> {
    ghost use Rattle.collections.specs.Maps.{MapView};

    ghost Value = { MapView K (Unit {0}) H };

    ghost view = { λ set. set.map };
}

impl<K: Eq, H: KeyHash<K>> HashSet<K, H> {
    ghost use Rattle.collections.specs.Room.{SetFits};

    /// Returns an empty set with a minimum of 64 slots. Allocates nothing: the first insertion
    /// allocates the slots, and the removal of the last key keeps that many.
    ///
    /// O(1). scc: `HashSet::with_hasher`, whose minimum is 0.
    pub fn with_hasher(alloc: Global, hasher: H) -> Self
        requires { SetFits K.row H.row K.PartialEq H.KeyHash }
        ensures empty { IsEmpty result }
        ensures hasher { result.hasher ≡ hasher }
        ensures minimum { result.minimum ≡ 64 }
        ensures maximum { result.maximum ≡ 2 ^ 63 }
        ensures slots { (result.slots ≡ 0) × (result.old_slots ≡ 0) }
        ensures buckets { result.bucket_lens ≡ [] }
    {
        HashSet {
            map: HashMap::with_hasher(alloc, hasher),
        }
    }

    /// Returns `true` if the set contains `key`, a key or a form of one.
    ///
    /// Moves no pairs and allocates nothing. O(1) expected. scc: `HashSet::contains_sync`.
    #[inline(always)]
    pub fn contains<Q: KeyForm<K, H>>(&self, key: Q) -> bool
        ensures { result ≡ contains_by (Q.stands_for key) self.now }
    {
        self.map.contains(key)
    }

    /// Returns the allocator, which serves all slots of the set.
    ///
    /// O(1). Like the kit's `HashSet::allocator`.
    pub fn allocator(&self) -> Global {
        self.map.allocator()
    }

    /// Returns the number of keys, or 2^64 - 1 if there are more.
    ///
    /// O(1). scc: `HashSet::len`.
    pub fn len(&self) -> usize
        ensures { result ≡ min (map_len self.now) (2 ^ 64 - 1) }
    {
        self.map.len()
    }

    /// Returns `true` if the set has no keys.
    ///
    /// O(1). scc: `HashSet::is_empty`.
    pub fn is_empty(&self) -> bool
        ensures { IsTrue result ↔ IsEmpty self.now }
    {
        self.map.is_empty()
    }

    /// Returns the hasher.
    ///
    /// O(1). scc: `HashSet::hasher`.
    pub fn hasher(&self) -> &H
        ensures { result.now ≡ self.now.hasher }
    {
        self.map.hasher()
    }

    /// Returns the number of slots, without those of overflow chains.
    ///
    /// O(1). scc: `HashSet::capacity`.
    pub fn capacity(&self) -> usize
        ensures { result ≡ self.now.slots }
    {
        self.map.capacity()
    }

    /// Calls a function once with each key, in the order of the view.
    ///
    /// O(slots), plus the function's calls. Like a loop over std's `iter`.
    pub fn for_each<F: FnMut(&K)>(&self, mut f: F)
        requires callable { F.IsAlwaysCallable f }
        ensures calls { (last : F) × CallsEachKey F.FnMut f (keys_of self.now.entries) last }
    {
        self.for_each_ref(&mut f);
    }

    /// Like `for_each`, but borrows the function; the contract gives its state after the call.
    ///
    /// O(slots), plus the function's calls. scc: `HashSet::iter_sync`.
    pub fn for_each_ref<F: FnMut(&K)>(&self, f: &mut F)
        requires callable { F.IsAlwaysCallable f.old }
        ensures again { F.IsAlwaysCallable f.new }
        ensures calls { CallsEachKey F.FnMut f.old (keys_of self.now.entries) f.new }
    {
        let mut visit = |key: &K, _value: &()|
            requires { F.IsAlwaysCallable f.now }
            ensures { CalledAt F.FnMut f.entry.now key.now tt f.exit.now }
        {
            f(key);
        };
        fact_visits(&visit);
        self.map.for_each_ref(&mut visit);
    }

    /// Calls a function with each key of one bucket, and returns whether there is such a bucket,
    /// like `HashMap::for_each_in`.
    ///
    /// Moves no pairs and allocates nothing. O(1) expected, plus the function's calls.
    pub fn for_each_in<F: FnMut(&K)>(&self, bucket: usize, f: &mut F) -> bool
        requires callable { F.IsAlwaysCallable f.old }
        ensures again { F.IsAlwaysCallable f.new }
        ensures there { IsTrue result ↔ bucket < length self.now.bucket_lens }
        ensures few { IsTrue result → bucket < 2 ^ 58 }
        ensures calls { CallsEachKey F.FnMut f.old (keys_of (pairs_in_bucket self.now bucket))
            f.new }
    {
        let mut visit = |key: &K, _value: &()|
            requires { F.IsAlwaysCallable f.now }
            ensures { CalledAt F.FnMut f.entry.now key.now tt f.exit.now }
        {
            f(key);
        };
        fact_visits(&visit);
        self.map.for_each_in(bucket, &mut visit)
    }
}

impl<K: Eq + Drop, H: KeyHash<K>> HashSet<K, H> {
    /// Inserts a key that the set does not contain.
    ///
    /// # Errors
    ///
    /// The set contains an equal key; or allocation failed, as in `HashMap::insert`, and it
    /// contains none. The key is returned.
    ///
    /// O(1) expected, plus any resize. scc: `HashSet::insert_sync`; std's is `insert`.
    #[inline(always)]
    pub fn insert_new(&mut self, key: K) -> Result<(), NotInserted<K, ()>>
        ensures map { Inserts K.eq key tt self.old result self.new }
        ensures slots { GrowsSlots H.hash_of key self.old self.new }
        ensures memory { result ≡ Err (Memory key tt) → LacksRoom H.hash_of key self.old }
    {
        self.map.insert(key, ())
    }

    /// Removes the set's own key that matches `key`, a key or a form of one, and returns it; `None`
    /// if absent.
    ///
    /// Never fails. O(1) expected, plus any resize. scc: `HashSet::remove_sync`; std's
    /// `HashSet::take`.
    #[inline(always)]
    pub fn take<Q: KeyForm<K, H>>(&mut self, key: Q) -> Option<K>
        ensures set { SetRemoves K.eq (Q.stands_for key) self.old result self.new }
        ensures slots { LosesSlots (is_some result) self.old self.new }
    {
        match self.map.remove(key) {
            Some((own, _)) => Some(own),
            None => None,
        }
    }

    /// Calls a function once with each key, and drops each key for which it returns `false`.
    ///
    /// Never fails and allocates nothing. O(slots), plus the function's calls. std:
    /// `HashSet::retain`.
    pub fn retain<F: FnMut(&K) -> bool>(&mut self, mut f: F)
        requires callable { F.IsAlwaysCallable f }
        ensures retained { (last : F) × RetainsKeys K.eq F.FnMut f self.old self.new last }
    {
        self.retain_ref(&mut f);
    }

    /// Like `retain`, but borrows the function; the contract gives its state after the call.
    ///
    /// Never fails and allocates nothing. O(slots), plus the function's calls. scc:
    /// `HashSet::retain_sync`.
    pub fn retain_ref<F: FnMut(&K) -> bool>(&mut self, f: &mut F)
        requires callable { F.IsAlwaysCallable f.old }
        ensures again { F.IsAlwaysCallable f.new }
        ensures retained { RetainsKeys K.eq F.FnMut f.old self.old self.new f.new }
    {
        let mut keep = |key: &K, _value: &mut ()|
            requires { F.IsAlwaysCallable f.now }
            ensures { CalledAt F.FnMut f.entry.now key.now result f.exit.now }
        { f(key) };
        fact_asks(&keep);
        self.map.retain_ref(&mut keep);
    }

    /// Drops all keys. The hasher, the capacities and the slots stay; `shrink_to_fit` frees them.
    ///
    /// Never fails. O(slots). std: `HashSet::clear`. scc: `HashSet::clear_sync`.
    pub fn clear(&mut self)
        ensures { self.new ≡ cleared self.old }
    {
        self.map.clear();
    }
}

impl<K: Eq + Copy, H: KeyHash<K> + Copy> HashSet<K, H> {
    /// Returns a copy with the same keys, hasher and capacities, allocated from `alloc`.
    ///
    /// # Errors
    ///
    /// Allocation failure. An empty set allocates nothing.
    ///
    /// O(slots) expected. This is `try_clone` for `Copy` keys, with a stronger contract.
    pub fn try_copy(&self, alloc: Global) -> Result<Self, AllocError>
        ensures copy { IfOk result (λ copy. IsCopy K.eq self.now copy) }
        ensures succeeds { IsEmpty self.now → IsOk result }
    {
        let map = self.map.try_copy(alloc)?;
        Ok(HashSet { map })
    }
}

impl<K: Eq + Hash> HashSet<K, DefaultHash> {
    /// Returns an empty set with a minimum of 64 slots that uses std's default hasher, as
    /// `with_hasher` does with a given one. Allocates nothing.
    ///
    /// O(1). scc: `HashSet::new`, whose minimum is 0.
    pub fn new(alloc: Global) -> Self
        ensures empty { IsEmpty result }
        ensures minimum { result.minimum ≡ 64 }
        ensures maximum { result.maximum ≡ 2 ^ 63 }
        ensures slots { (result.slots ≡ 0) × (result.old_slots ≡ 0) }
        ensures buckets { result.bucket_lens ≡ [] }
    {
        Self::with_hasher(alloc, StdHash::new(BuildHasherDefault::new()))
    }
}

impl<K: Eq + Hash> HashSet<K, StdHash<RandomState>> {
    /// Returns an empty set with a minimum of 64 slots that hashes with a random seed, for keys
    /// that an attacker may choose. Allocates nothing.
    ///
    /// O(1). Like std's `new`.
    pub fn with_random_state(alloc: Global, state: RandomState) -> Self
        ensures empty { IsEmpty result }
        ensures hasher { result.hasher.builder ≡ state }
        ensures minimum { result.minimum ≡ 64 }
        ensures maximum { result.maximum ≡ 2 ^ 63 }
        ensures slots { (result.slots ≡ 0) × (result.old_slots ≡ 0) }
        ensures buckets { result.bucket_lens ≡ [] }
    {
        Self::with_hasher(alloc, StdHash::new(state))
    }
}

/// The keys, as std prints a set: `{key, ..}`.
impl<K: Eq + Debug, H: KeyHash<K>> Debug for HashSet<K, H> {
    fn fmt<W: Write>(&self, f: &mut Formatter<W>) -> fmt::Result {
        let mut out = f.debug_set();
        self.for_each(|key: &K| {
            out.entry(key);
        });
        out.finish()
    }
}

/// As with std's sets, two sets are equal if each contains the keys of the other.
impl<K: Eq, H: KeyHash<K>> PartialEq for HashSet<K, H> {
    ghost use Rattle.collections.specs.Equality.{map_eq};
    ghost use Rattle.collections.specs.EqualityLaws.{map_eq_joined, map_eq_turned};
    ghost use Rattle.std.proofs.Common.{refl};

    ghost eq = { map_eq K.eq (λ _ _. true) };

    ghost laws = { record {
      symm = map_eq_turned K.eq (λ _ _. true);
      trans = map_eq_joined K.eq K.Eq.laws (λ _ _. true) (λ _ _. refl) (λ _ _ _ _ _. refl);
    } };

    fn eq(&self, other: &HashSet<K, H>) -> bool {
        self.map.eq(&other.map)
    }
}

impl<K: Eq, H: KeyHash<K>> Eq for HashSet<K, H> {
    ghost use Rattle.collections.specs.EqualityLaws.{map_eq_itself, map_eq_joined, map_eq_turned};
    ghost use Rattle.std.proofs.Common.{refl};
    ghost use Rattle.std.specs.Cmp.{equiv};

    ghost laws = { equiv (record {
      symm = map_eq_turned K.eq (λ _ _. true);
      trans = map_eq_joined K.eq K.Eq.laws (λ _ _. true) (λ _ _. refl) (λ _ _ _ _ _. refl);
    })
        (map_eq_itself K.eq (λ _ _. true) (λ _. refl)) };
}
