//! A cache: a map of bounded size, whose insertions may evict an earlier pair.
//!
//! Model: the table's own view, since the home of a key decides which pair is evicted. The map is
//! `map_of` it, and answers as std's `HashMap` does.
//!
//! Ports scc's `src/hash_cache.rs` to an owned cache: a call borrows where scc locks.
ghost use Rattle.std.specs.Prelude.{◌≤◌, ◌<◌, ◌≡◌, ◌↔◌, ◌^◌, ◌*◌, ◌-◌, ◌++◌, Err, IfSome};
ghost use Rattle.std.specs.Prelude.{IsTrue, false, is_some, length, max, min};
ghost use Rattle.std.specs.Borrow.{sem};
ghost use Rattle.std.specs.Option.{option_copied, option_map};
ghost use Rattle.bucket_slots.specs.Sizing.{IsLeastPowerOfTwo};
ghost use Rattle.bucket_slots.specs.Walking.{CallsEach};
ghost use Rattle.bucket_table.specs.Map.Counting.{IsHeldBy};
ghost use Rattle.bucket_table.specs.Views.ArraysView.{pairs_of};
ghost use Rattle.bucket_slots.specs.declared.not_inserted.NotInserted.TheVariants.{Memory};
ghost use Rattle.collections.specs.Changes.{Puts, Removes};
ghost use Rattle.collections.specs.Crowding.{LacksBucket};
ghost use Rattle.collections.specs.Maps.{contains_by, get_by, IsEmpty, map_len, map_of};
ghost use Rattle.collections.specs.Maps.{pairs_in_bucket};
ghost use Rattle.collections.specs.Retaining.{LeavesBuckets};
ghost use Rattle.collections.specs.Slots.{cleared};
ghost use Rattle.collections.specs.StoredKeys.{key_by};

mod capacity;
mod change;
mod compare;
mod iter;
mod put;
mod remove;

use crate::default_hash::DefaultHash;
use crate::key_form::{FormProbe, KeyForm, pair_by, value_by};
use crate::room::{Fits, TableRoom};
use crate::sizing::{LEAST_CAPACITY, size_for};
use bucket_slots::bucket::CACHE;
use bucket_slots::lru::DoublyLinkedList;
pub use bucket_table::hash_table::NotInserted;
use bucket_table::hash_table::{HashTable, MAXIMUM_CAPACITY_LIMIT, ResizeRule};
use bucket_table::key_hash::{KeyHash, StdHash};
pub use iter::{Drain, Iter, IterByUse, Keys, Values};
pub use put::Upserted;
use std::alloc::Global;
use std::hash::{BuildHasherDefault, Hash, RandomState};
use std::marker::Model;

/// The maximum number of slots of a cache that is made without one. scc:
/// `DEFAULT_MAXIMUM_CAPACITY`.
pub const DEFAULT_MAXIMUM_CAPACITY: usize = 256;

/// A cache: a map of bounded size, whose insertions may evict an earlier pair. scc: `HashCache`.
///
/// Each bucket has an LRU order of the touched pairs in its own slots. An insertion into a full
/// bucket evicts the least recently used pair of that bucket.
///
/// Incremental rehash and allocation failure are as in `HashMap`: while there is an old array, a
/// call that inserts, removes, changes or touches a pair by its key first moves a unit of 64 old
/// buckets, and the old buckets whose pairs belong in the key's bucket.
#[derive(Drop)]
pub struct HashCache<K: Eq, V, H: KeyHash<K> = DefaultHash> {
    table: HashTable<K, V, H, DoublyLinkedList, CACHE>,
    room: Fits<TableRoom<K, V, H, DoublyLinkedList, CACHE>>,
}

impl<K: Eq, V, H: KeyHash<K>> Model for HashCache<K, V, H> {
    ghost use Rattle.bucket_table.specs.Views.ArraysView.{TableView};

    ghost Value = { TableView K V H };

    ghost view = { λ cache. cache.table };
}

impl<K: Eq, V, H: KeyHash<K>> HashCache<K, V, H> {
    ghost use Rattle.collections.specs.Room.{CacheFits};

    /// Returns an empty cache of at most 256 slots, plus their overflow chains. Allocates nothing.
    ///
    /// O(1). scc: `HashCache::with_hasher`.
    pub fn with_hasher(alloc: Global, hasher: H) -> Self
        requires { CacheFits K.row V.row H.row K.PartialEq H.KeyHash }
        ensures empty { IsEmpty (map_of result) }
        ensures hasher { result.hasher ≡ hasher }
        ensures minimum { result.arrays.minimum ≡ 0 }
        ensures maximum { result.arrays.maximum ≡ 256 }
        ensures slots { (length result.arrays.current ≡ 0) × (length result.arrays.linked ≡ 0) }
    {
        Self::with_capacity(alloc, hasher, 0, DEFAULT_MAXIMUM_CAPACITY)
    }

    /// Returns an empty cache whose arrays have at least `minimum` slots, and at most the least
    /// power of two that is at least `maximum`, `minimum` and 64; both are limited to 2^63.
    /// Allocates nothing: the first insertion allocates the array.
    ///
    /// O(1). scc: `HashCache::with_capacity_and_hasher`.
    pub fn with_capacity(alloc: Global, hasher: H, minimum: usize, maximum: usize) -> Self
        requires { CacheFits K.row V.row H.row K.PartialEq H.KeyHash }
        ensures empty { IsEmpty (map_of result) }
        ensures hasher { result.hasher ≡ hasher }
        ensures minimum { result.arrays.minimum ≡ min minimum (2 ^ 63) }
        ensures maximum { IsLeastPowerOfTwo (min (max (max maximum minimum) 64) (2 ^ 63))
            result.arrays.maximum }
        ensures slots { (length result.arrays.current ≡ 0) × (length result.arrays.linked ≡ 0) }
    {
        let least = minimum.min(MAXIMUM_CAPACITY_LIMIT);
        let greatest = maximum
            .max(minimum)
            .max(LEAST_CAPACITY)
            .min(MAXIMUM_CAPACITY_LIMIT)
            .next_power_of_two();
        HashCache {
            table: HashTable::new(alloc, hasher, least, greatest),
            room: Fits::new(),
        }
    }

    /// Returns an empty cache whose minimum and maximum are the same number of slots: the least
    /// power of two that is at least `slots` and 64, limited to 2^63. The first insertion allocates
    /// the array at its full size. Allocates nothing.
    ///
    /// O(1). Like scc's `with_capacity_and_hasher` with equal capacities.
    pub fn with_size(alloc: Global, hasher: H, slots: usize) -> Self
        requires { CacheFits K.row V.row H.row K.PartialEq H.KeyHash }
        ensures empty { IsEmpty (map_of result) }
        ensures hasher { result.hasher ≡ hasher }
        ensures minimum { result.arrays.minimum ≡ result.arrays.maximum }
        ensures maximum { IsLeastPowerOfTwo (min (max slots 64) (2 ^ 63)) result.arrays.maximum }
        ensures slots { (length result.arrays.current ≡ 0) × (length result.arrays.linked ≡ 0) }
    {
        let size = size_for(slots);
        HashCache {
            table: HashTable::new(alloc, hasher, size, size),
            room: Fits::new(),
        }
    }

    /// Returns the hasher.
    ///
    /// O(1). scc: `HashCache::hasher`.
    pub fn hasher(&self) -> &H
        ensures { result.now ≡ self.now.hasher }
    {
        self.room.fact_fits();
        self.table.hasher()
    }

    /// Returns the allocator, which serves all slots of the cache.
    ///
    /// O(1). Like the kit's `HashMap::allocator`.
    pub fn allocator(&self) -> Global {
        self.room.fact_fits();
        self.table.allocator()
    }

    /// Returns the number of pairs, or 2^64 - 1 if there are more. It is at most the number of
    /// slots in the arrays plus the number of pairs in their overflow chains. The current array has
    /// no more slots than the maximum.
    ///
    /// O(1); O(slots / 32) if there are more pairs than slots. scc: `HashCache::len`.
    pub fn len(&self) -> usize
        ensures count { result ≡ min (map_len (map_of self.now)) (2 ^ 64 - 1) }
        ensures within { IsHeldBy (pairs_of self.now.arrays)
            (self.now.arrays.current ++ self.now.arrays.linked) }
        ensures bounded { 32 * length self.now.arrays.current ≤ self.now.arrays.maximum }
    {
        self.room.fact_fits();
        self.table.fact_bounded();
        self.table.bounded_len()
    }

    /// Returns `true` if the cache has no pairs.
    ///
    /// O(1). scc: `HashCache::is_empty`.
    pub fn is_empty(&self) -> bool
        ensures { IsTrue result ↔ IsEmpty (map_of self.now) }
    {
        self.room.fact_fits();
        self.table.is_empty()
    }

    /// Calls a function once with each pair, in the order of the view. No pair is touched.
    ///
    /// O(slots), plus the function's calls. scc: `HashCache::iter_sync`.
    #[inline(always)]
    pub fn for_each<F: FnMut(&K, &V)>(&self, f: &mut F)
        requires callable { F.IsAlwaysCallable f.old }
        ensures again { F.IsAlwaysCallable f.new }
        ensures calls { CallsEach (λ state own value last. F.step state own value tt last) f.old
            (pairs_of self.now.arrays) f.new }
    {
        self.room.fact_fits();
        self.table.for_each(f);
    }

    /// Calls a function with each pair of one bucket, and returns whether there is such a bucket,
    /// like `HashMap::for_each_in`. No pair is touched.
    ///
    /// Moves no pairs and allocates nothing. O(1) expected, plus the function's calls.
    pub fn for_each_in<F: FnMut(&K, &V)>(&self, bucket: usize, f: &mut F) -> bool
        requires callable { F.IsAlwaysCallable f.old }
        ensures again { F.IsAlwaysCallable f.new }
        ensures there { IsTrue result ↔ bucket < length (map_of self.now).bucket_lens }
        ensures few { IsTrue result → bucket < 2 ^ 58 }
        ensures calls { CallsEach (λ state own value last. F.step state own value tt last) f.old
            (pairs_in_bucket (map_of self.now) bucket) f.new }
    {
        self.room.fact_fits();
        self.table.for_each_in(bucket, f)
    }

    /// Returns the number of slots, without those of overflow chains.
    ///
    /// O(1). scc: `HashCache::capacity`.
    pub fn capacity(&self) -> usize
        ensures { result ≡ 32 * length self.now.arrays.current }
    {
        self.room.fact_fits();
        self.table.num_slots()
    }

    /// Returns the value under `key`, a key or a form of one, without touching its pair; `None` if
    /// absent.
    ///
    /// Moves no pairs and allocates nothing. O(1) expected. scc: `HashCache::peek_with`.
    #[inline(always)]
    pub fn peek<Q: KeyForm<K, H>>(&self, key: Q) -> Option<&V>
        ensures { option_copied result ≡ get_by (Q.stands_for key) (map_of self.now) }
    {
        self.room.fact_fits();
        value_by(&self.table, key)
    }

    /// Returns the pair under `key`, a key or a form of one, without touching it: the cache's own
    /// key and its value; `None` if absent.
    ///
    /// Moves no pairs and allocates nothing. O(1) expected. Like std's `HashMap::get_key_value`.
    #[inline(always)]
    pub fn peek_key_value<Q: KeyForm<K, H>>(&self, key: Q) -> Option<(&K, &V)>
        ensures key { option_map (λ pair. pair.0.now) result
            ≡ key_by (Q.stands_for key) (map_of self.now) }
        ensures same_key { IfSome result (λ pair. IsTrue (Q.stands_for key pair.0.now)) }
        ensures value { option_map (λ pair. pair.1.now) result
            ≡ get_by (Q.stands_for key) (map_of self.now) }
    {
        self.room.fact_fits();
        pair_by(&self.table, key)
    }

    /// Returns `true` if the cache contains `key`, a key or a form of one. No pair is touched.
    ///
    /// Moves no pairs and allocates nothing. O(1) expected. scc: `HashCache::contains_sync`.
    #[inline(always)]
    pub fn contains<Q: KeyForm<K, H>>(&self, key: Q) -> bool
        ensures { result ≡ contains_by (Q.stands_for key) (map_of self.now) }
    {
        self.peek(key).is_some()
    }
}

impl<K: Eq + Drop, V: Drop, H: KeyHash<K>> HashCache<K, V, H> {
    ghost use Rattle.collections.specs.CacheLoans.{EndsSo};
    ghost use Rattle.collections.specs.Orders.{IsTouched, LeavesPlace, PutsOrKeeps};

    /// Returns the value under `key`, a key or a form of one, and touches its pair, which becomes
    /// the most recently used one of its bucket. A pair in an overflow chain isn't in the LRU
    /// order, and stays out of it. `None` if absent.
    ///
    /// Never fails. O(1) expected. scc: `HashCache::get_sync`.
    #[inline(always)]
    pub fn get<Q: KeyForm<K, H>>(&mut self, key: Q) -> Option<&V>
        ensures value { option_copied result ≡ get_by (Q.stands_for key) (map_of self.old) }
        ensures* ends { sem 𝓛 (EndsSo K.row V.row H.row K.PartialEq H.KeyHash self.entry
            (IsTouched K.eq (Q.stands_for key) (is_some result) self.old)) }
    {
        self.room.fact_fits();
        self.table.fact_sound();
        let hash = key.hash_by(self.table.hasher());
        match self
            .table
            .touch_mut_by(hash, &mut FormProbe::<Q, H>::new(key))
        {
            Some(value) => Some(value),
            None => None,
        }
    }

    /// Touches the pair under `key`, a key or a form of one, as `get` does, and returns whether the
    /// cache contains the key.
    ///
    /// Never fails. O(1) expected. lru: `LruCache::promote`.
    #[inline(always)]
    pub fn promote<Q: KeyForm<K, H>>(&mut self, key: Q) -> bool
        ensures found { result ≡ contains_by (Q.stands_for key) (map_of self.old) }
        ensures touched { IsTouched K.eq (Q.stands_for key) result self.old self.new }
    {
        self.room.fact_fits();
        self.table.fact_sound();
        let hash = key.hash_by(self.table.hasher());
        self.table.touch_by(hash, &mut FormProbe::<Q, H>::new(key))
    }

    /// Inserts a pair whose key the cache does not contain, as the most recently used one of its
    /// bucket.
    ///
    /// If that bucket has 32 pairs, the slots are doubled first, unless they are at the maximum or
    /// an earlier resize still moves pairs. If no own slot of the bucket is free then, a pair is
    /// evicted and returned: the least recently used one, or the one in slot 0 if no pair was
    /// touched. The new pair takes an own slot, so no overflow chain grows.
    ///
    /// # Errors
    ///
    /// The cache contains an equal key; or allocation failed, and it contains none. The pair is
    /// returned, and none is evicted. Allocation can't fail while the cache has slots, at least as
    /// many as old slots, and the key's bucket among the old slots, if any, is the home of at most
    /// 32 pairs.
    ///
    /// O(1) expected, plus any resize. scc: `HashCache::put_sync`.
    pub fn put(&mut self, key: K, value: V) -> Result<Option<(K, V)>, NotInserted<K, V>>
        ensures map { Puts K.eq key value (map_of self.old) result (map_of self.new) }
        ensures home { PutsOrKeeps K.eq (key, value) (H.hash_of self.old.hasher key) self.old result
            self.new.arrays }
        ensures memory { result ≡ Err (Memory key value)
            → LacksBucket H.hash_of key (map_of self.old) }
    {
        self.room.fact_fits();
        self.table.fact_sound();
        let hash = self.table.hash(&key);
        match self
            .table
            .fetch_place(hash, &mut FormProbe::<&K, H>::new(&key))
        {
            Ok(_spot) => {
                self.table.fact_sound();
                return Err(NotInserted::Present(key, value));
            }
            Err(home) => self.put_vacant(home, hash, key, value),
        }
    }

    /// Removes the pair under `key`, a key or a form of one, and returns it; `None` if absent.
    ///
    /// Never fails. O(1) expected, plus any resize. scc: `HashCache::remove_sync`.
    #[inline(always)]
    pub fn remove<Q: KeyForm<K, H>>(&mut self, key: Q) -> Option<(K, V)>
        ensures map { Removes K.eq (Q.stands_for key) (map_of self.old) result (map_of self.new) }
        ensures place { LeavesPlace (Q.stands_for key) (is_some result) self.old.arrays
            self.new.arrays }
    {
        self.room.fact_fits();
        self.table.fact_sound();
        let hash = key.hash_by(self.table.hasher());
        let taken = self.table.take_by(hash, &mut FormProbe::<Q, H>::new(key), ResizeRule::Counted);
        self.table.fact_sound();
        taken
    }

    /// Drops all pairs. The hasher, the capacities and the slots stay; `drain` frees the slots.
    ///
    /// Never fails. O(slots). scc: `HashCache::clear_sync`.
    pub fn clear(&mut self)
        ensures map { map_of self.new ≡ cleared (map_of self.old) }
        ensures buckets { LeavesBuckets CACHE self.old.arrays self.new.arrays }
    {
        self.room.fact_fits();
        let mut keep_none = |_key: &K, _value: &mut V|
            ensures { result ≡ false }
        { false };
        let _ = self.table.retain(&mut keep_none, &());
    }
}

impl<K: Eq + Hash, V> HashCache<K, V, DefaultHash> {
    /// Returns an empty cache that uses std's default hasher and has at most 256 slots, plus their
    /// overflow chains. Allocates nothing.
    ///
    /// O(1). scc: `HashCache::new`.
    pub fn new(alloc: Global) -> Self
        ensures empty { IsEmpty (map_of result) }
        ensures minimum { result.arrays.minimum ≡ 0 }
        ensures maximum { result.arrays.maximum ≡ 256 }
        ensures slots { (length result.arrays.current ≡ 0) × (length result.arrays.linked ≡ 0) }
    {
        Self::with_hasher(alloc, StdHash::new(BuildHasherDefault::new()))
    }
}

impl<K: Eq + Hash, V> HashCache<K, V, StdHash<RandomState>> {
    /// Returns an empty cache that hashes with a random seed, for keys that an attacker may choose,
    /// and has at most 256 slots, plus their overflow chains. Allocates nothing.
    ///
    /// O(1). Like std's `new`.
    pub fn with_random_state(alloc: Global, state: RandomState) -> Self
        ensures empty { IsEmpty (map_of result) }
        ensures hasher { result.hasher.builder ≡ state }
        ensures minimum { result.arrays.minimum ≡ 0 }
        ensures maximum { result.arrays.maximum ≡ 256 }
        ensures slots { (length result.arrays.current ≡ 0) × (length result.arrays.linked ≡ 0) }
    {
        Self::with_hasher(alloc, StdHash::new(state))
    }
}
