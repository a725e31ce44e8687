//! A map from keys to values: a hasher and the arrays of buckets. There is a current array and,
//! during an incremental rehash, an old one.
//!
//! Model: `TableView`, the hasher and the arrays; the map is `pairs_of` the arrays. Invariant
//! (`IsCountedMap`): `count` is the number of pairs, at most 2^64 - 1, and (`IsOneMap`) keys are
//! distinct, each live pair of both arrays is in its home with its fingerprint, a killed bucket has
//! no live pair, and no unit of the old array is lost.
//!
//! Ports scc's `src/hash_table.rs`. The table owns its arrays, and a lock is a borrow.
ghost use Rattle.std.specs.Prelude.{◌≡◌, ◌↔◌, ◌<◌, ◌≤◌, ◌*◌, ◌^◌, [], IsTrue, MatchOption, length};
ghost use Rattle.std.specs.Int.{IsPowerOfTwo};
ghost use Rattle.bucket_slots.specs.Homes.{IsHome};
ghost use Rattle.bucket_slots.specs.Sizing.{IsLength};
ghost use Rattle.bucket_table.specs.Views.ArraysView.{IsOneMap, pairs_of};
ghost use Rattle.bucket_table.specs.Rehash.State.{first_tickets, word_of};

mod cache;
mod evict;
mod insert;
mod iter;
mod locked_bucket;
mod lookup;
mod remove;
mod renew;
mod resize;

use crate::arrays::Arrays;
pub use crate::arrays::{
    ArraysPairs, Kind, Missing, PairsByUse, Side, Spot, TableDrain, TableExtract, TablePairs,
    peek_arrays,
};
pub use crate::capacity::{
    from_index_to_range, num_entries_from_hint, ranges_part_the_indices,
    table_capacity_from_num_entries,
};
pub use crate::key_hash::{KeyHash, StdHash};
use crate::pair_count::PairCount;
pub use crate::tickets::{REF_COUNT_BITS, REHASHING_UNIT_LEN, TicketError};
use bucket_slots::bucket::BUCKET_LEN;
use bucket_slots::bucket_array::BucketArray;
use bucket_slots::lru::LruList;
pub use bucket_slots::not_inserted::NotInserted;
pub use evict::puts_keep_chains;
pub use locked_bucket::LockedBucket;
use std::alloc::Global;
use std::marker::Model;

/// The greatest capacity that a table can have, in slots. scc: `MAXIMUM_CAPACITY_LIMIT`.
pub const MAXIMUM_CAPACITY_LIMIT: usize = 1 << 63;

const _: () = prove!(MAXIMUM_CAPACITY_LIMIT == 9223372036854775808);

/// What a search that found nothing learned about the home. An insertion of the key resumes from
/// it.
#[derive(Debug, Drop)]
pub enum Vacancy {
    /// Each source of the home is killed.
    Ready,
    /// There is no array.
    NoArray,
    /// Allocation failed for a source of the home.
    NoMemory,
}

/// The rule by which an insertion adds slots and a removal frees some.
#[derive(Clone, Copy, Debug, Drop)]
pub enum ResizeRule {
    /// Only if the samples of a resize call for it, as in scc.
    Sampled,
    /// Also by the number of pairs. If keys come in the order of their hashes, they all go to a few
    /// buckets, which may be outside every sample. So an insertion also doubles the slots for an
    /// overfull home, as `HashTable::grow_if_overfull` does. A removal frees slots only if the
    /// remaining pairs are also less than an eighth of them, and leaves at least two slots for each
    /// pair.
    Counted,
}

/// A map from keys to values, in one array or two.
///
/// A unit is 64 buckets of the old array. A call that works a unit first moves the pairs of the
/// next 64 old buckets to the current array; without an old array it moves none. A call for a hash
/// then also moves the pairs of the sources of the hash's home, which are the old buckets that
/// share hashes with it. If allocation fails there, the pairs that haven't moved stay in the old
/// array, and the call finds them there.
///
/// These calls work one unit: each call by key or by a probe that borrows the table mutably, except
/// `put_vacant`, and `reader_sync`, `fetch_home`, `find`, `writer_sync`, `try_reserve_bucket`,
/// `optional_writer_sync`, `num_entries` and `has_entry`. Walks and cursors work one before each
/// bucket, and move the pairs of the bucket's sources. `finish_rehash` works all units. In costs,
/// `unit` means the slots of the unit, of the sources and of their targets.
#[derive(Drop)]
pub struct HashTable<K: Eq, V, H: KeyHash<K>, L: LruList, const TYPE: u8> {
    pub(crate) hasher: H,
    pub(crate) arrays: Arrays<K, V, L, TYPE>,
    pub(crate) count: PairCount,
}

impl<K: Eq, V, H: KeyHash<K>, L: LruList, const TYPE: u8> Model for HashTable<K, V, H, L, TYPE> {
    ghost use Rattle.bucket_table.specs.Views.ArraysView.{TableView};
    ghost use Rattle.bucket_table.specs.Map.Counting.{IsCountedMap};

    ghost Value = { TableView K V H };

    ghost view = { λ table. record { hasher = table.hasher; arrays = table.arrays } };

    ghost invariant = { λ table. IsCountedMap K.eq (H.hash_of table.hasher) table.arrays
        table.count };
}

impl<K: Eq, V, H: KeyHash<K>, L: LruList, const TYPE: u8> HashTable<K, V, H, L, TYPE> {
    /// Returns an empty table without an array.
    ///
    /// `minimum` and `maximum` are numbers of slots. All memory of the table is allocated from
    /// `alloc`. Allocates nothing. O(1).
    pub fn new(alloc: Global, hasher: H, minimum: usize, maximum: usize) -> Self
        requires power { IsPowerOfTwo maximum }
        requires large { 64 ≤ maximum }
        requires bounded { minimum ≤ maximum }
        ensures hasher { result.hasher ≡ hasher }
        ensures arrays { result.arrays ≡ record {
          minimum = minimum;
          maximum = maximum;
          current = [];
          linked = [];
          tickets = first_tickets 0;
        } }
    {
        HashTable {
            hasher,
            arrays: Arrays::new(alloc, minimum, maximum),
            count: PairCount::new(0),
        }
    }

    /// Returns an empty table without an array. Its minimum is 0, and its maximum is
    /// `MAXIMUM_CAPACITY_LIMIT`, so it may shrink to no slots and grow as far as any table.
    ///
    /// All memory of the table is allocated from `alloc`. Allocates nothing. O(1). scc:
    /// `HashMap::with_hasher`.
    pub fn with_hasher(alloc: Global, hasher: H) -> Self
        ensures hasher { result.hasher ≡ hasher }
        ensures arrays { result.arrays ≡ record {
          minimum = 0;
          maximum = 2 ^ 63;
          current = [];
          linked = [];
          tickets = first_tickets 0;
        } }
    {
        HashTable::new(alloc, hasher, 0, MAXIMUM_CAPACITY_LIMIT)
    }

    /// Returns the hasher.
    ///
    /// O(1). scc: `HashTable::hasher`.
    pub fn hasher(&self) -> &H
        ensures { result.now ≡ self.now.hasher }
    {
        &self.hasher
    }

    /// Returns the allocator of the table's memory.
    ///
    /// O(1).
    pub fn allocator(&self) -> Global {
        self.arrays.allocator()
    }

    /// Returns the hash of a key.
    ///
    /// O(1). scc: `HashTable::hash`.
    pub fn hash(&self, key: &K) -> u64
        ensures { result ≡ H.hash_of self.now.hasher key.now }
    {
        self.hasher.hash_one(key)
    }

    /// Returns the minimum, which is the least number of slots that a shrink leaves.
    ///
    /// O(1). scc: `HashTable::minimum_capacity`.
    pub fn minimum_capacity(&self) -> usize
        ensures { result ≡ self.now.arrays.minimum }
    {
        self.arrays.minimum()
    }

    /// Returns the maximum, which is the greatest number of slots that a growth makes.
    ///
    /// O(1). scc: `HashTable::maximum_capacity`.
    pub fn maximum_capacity(&self) -> usize
        ensures { result ≡ self.now.arrays.maximum }
    {
        self.arrays.maximum()
    }

    /// Returns the current array, or `None` if there is none.
    ///
    /// O(1). scc: `HashTable::array`.
    pub fn array(&self) -> Option<&BucketArray<K, V, L, TYPE>>
        ensures { MatchOption result (length self.now.arrays.current ≡ 0) (λ array.
            (0 < length array.now) × (array.now ≡ self.now.arrays.current)) }
    {
        self.arrays.array()
    }

    /// Returns the old array, or `None` if no incremental rehash is under way.
    ///
    /// O(1). scc: `BucketArray::linked_array`.
    pub fn linked_array(&self) -> Option<&BucketArray<K, V, L, TYPE>>
        ensures { MatchOption result (length self.now.arrays.linked ≡ 0) (λ array.
            (0 < length array.now) × (array.now ≡ self.now.arrays.linked)) }
    {
        self.arrays.linked_array()
    }

    /// Returns the index of a hash's home in the current array, or 0 if there is no array.
    ///
    /// O(1). scc: `HashTable::calculate_bucket_index`.
    pub fn calculate_bucket_index(&self, hash: u64) -> usize
        ensures home { 0 < length self.now.arrays.current
            → IsHome (length self.now.arrays.current) hash result }
        ensures none { length self.now.arrays.current ≡ 0 → result ≡ 0 }
    {
        match self.arrays.array() {
            Some(array) => array.bucket_index(hash),
            None => 0,
        }
    }

    /// Returns the number of own slots in the current array, or 0 if there is no array.
    ///
    /// O(1). scc: `HashTable::num_slots`.
    pub fn num_slots(&self) -> usize
        ensures { result ≡ 32 * length self.now.arrays.current }
    {
        self.arrays.len() * BUCKET_LEN
    }

    /// Returns whether there is an old array.
    ///
    /// O(1). scc: `BucketArray::has_linked_array`.
    pub fn has_linked_array(&self) -> bool
        ensures { IsTrue result ↔ 0 < length self.now.arrays.linked }
    {
        self.arrays.has_old()
    }

    /// Returns the rehash word, which is 2048 times the next unit to issue plus the number of open
    /// tickets (at most 2047), or `None` if there is no old array.
    ///
    /// O(1). scc: `BucketArray::rehashing_metadata`.
    pub fn rehashing_metadata(&self) -> Option<usize>
        ensures { MatchOption result (length self.now.arrays.linked ≡ 0) (λ word.
            (0 < length self.now.arrays.linked) × (word ≡ word_of self.now.arrays.tickets)
            × (length self.now.arrays.tickets.open_units ≤ 2047)) }
    {
        self.arrays.word()
    }

    /// States that the table is one map, that the current array, if there is one, has the length of
    /// an array, and that an old array exists only beside a current one; does nothing at run time.
    pub fn fact_sound(&self)
        ensures one_map { IsOneMap K.eq (H.hash_of self.now.hasher) self.now.arrays }
        ensures long { 0 < length self.now.arrays.current
            → IsLength (length self.now.arrays.current) }
        ensures empty { length self.now.arrays.current ≡ 0
            → pairs_of self.now.arrays ≡ [] }
        ensures beside { 0 < length self.now.arrays.linked → 0 < length self.now.arrays.current }
    {
        self.arrays.fact_sound();
    }
}
