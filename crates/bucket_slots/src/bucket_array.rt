//! An array of buckets. The upper bits of a hash are the index of its home.
//!
//! Model: the list of the buckets, in the order of their intervals of hashes. Invariant
//! (`IsArray`): the length is a power of two from 2 to 2^57, the stored offset shifts a hash to the
//! index of its home, and the stored sample size is that of the length. Each digest that isn't
//! stale matches its bucket (`AreDigests`).
//!
//! Ports scc's `src/hash_table/bucket_array.rs`. The buckets are in vectors whose memory is
//! allocated at once, and a bucket is initialized when it is first lent for writing. scc allocates
//! zeroed raw memory, aligns it and writes data blocks into it.
//!
//! What `digested`, `moving`, `walking` and `writing` export is public only for `bucket_table`, as
//! are `clear`, `refresh`, `adopt_digests`, `start_digests`, `spread_own`, `release_into` and
//! `release_around`.
ghost use Rattle.std.specs.Prelude.{◌≡◌, ◌*◌, ◌^◌, ◌<◌, ◌≤◌, ◌↔◌, IfOk, IsTrue, length};
ghost use Rattle.std.specs.Prelude.{replicate};
ghost use Rattle.std.specs.Borrow.{sem};
ghost use Rattle.bucket_slots.specs.ArrayView.{IsNewArray, bucket_at};
ghost use Rattle.bucket_slots.specs.BucketView.{empty_bucket};
ghost use Rattle.bucket_slots.specs.Homes.{IsHome};
ghost use Rattle.bucket_slots.specs.Sampling.{IsLargeSample, IsSmallSample};
ghost use Rattle.bucket_slots.specs.Sampling.{StartsSampling, full_sample};
ghost use Rattle.bucket_slots.specs.Sizing.{IsLength, IsOptimalCapacity};
ghost use Rattle.bucket_slots.specs.Sizing.{IsPowerIn, IsTooEmpty, IsTooFull};
ghost use Rattle.bucket_slots.specs.Slots.{places_of};

mod buckets;
mod digested;
mod digests;
mod moving;
mod part;
mod sizing;
mod walking;
mod writing;

use crate::bucket::{BUCKET_LEN, Bucket};
use crate::data_block::DataBlock;
use crate::lru::LruList;
use buckets::Buckets;
use digests::Digests;
use sizing::MINIMUM_CAPACITY;
pub use sizing::{MAXIMUM_SLOTS, full_sample_size_of, large_sample_size_of, small_sample_size_of};
use std::alloc::{AllocError, Global};
use std::marker::Model;

/// Buckets of the kind `TYPE` with LRU lists `L`. Each is the home of an interval of hashes.
#[derive(Drop)]
pub struct BucketArray<K, V, L: LruList, const TYPE: u8> {
    hash_offset: u32,
    sample_size: u8,
    buckets: Buckets<K, V, L, TYPE>,
    digests: Digests,
}

impl<K, V, L: LruList, const TYPE: u8> Model for BucketArray<K, V, L, TYPE> {
    ghost use Rattle.std.specs.Prelude.{List, length};
    ghost use Rattle.bucket_slots.specs.BucketView.{BucketView};
    ghost use Rattle.bucket_slots.specs.Layout.ArrayFields.{IsArray};
    ghost use Rattle.bucket_slots.specs.Layout.Digests.{AreDigests};

    ghost Value = { List (BucketView K V) };

    ghost view = { λ array. array.buckets };

    ghost invariant = { λ array. IsArray (length array.buckets) array.hash_offset array.sample_size
        × AreDigests array.digests array.buckets };
}

impl<K: Drop, V: Drop, L: LruList + Drop, const TYPE: u8> BucketArray<K, V, L, TYPE> {
    /// Returns an array for a capacity in slots, with all buckets empty.
    ///
    /// The number of slots is the least power of two that is at least the capacity, but at least 64
    /// and at most 2^62. Buckets and chains are allocated from `alloc`.
    ///
    /// # Errors
    ///
    /// Allocation failed: nothing is kept. The memory of all buckets is allocated here, part by
    /// part; if there are more than four buckets, they are initialized later.
    ///
    /// O(parts); there are at most 1,024. scc: `BucketArray::new`.
    pub fn alloc(alloc: Global, capacity: usize) -> Result<Self, AllocError>
        ensures { IfOk result (IsNewArray capacity) }
    {
        let len = sizing::len_for(capacity);
        let buckets = Buckets::alloc(alloc, len)?;
        Ok(BucketArray {
            hash_offset: 64 - len.ilog2(),
            sample_size: large_sample_size_of(len) as u8,
            buckets,
            digests: Digests::none(alloc),
        })
    }

    /// Makes all buckets empty. Drops their pairs, tombstones and blocks, and keeps the memory of
    /// the slots.
    ///
    /// Allocates at most digests, and never fails: a digest without memory stays stale.
    /// O(buckets, and pairs).
    pub fn clear(&mut self, alloc: Global)
        ensures { self.new ≡ replicate (length self.old) empty_bucket }
    {
        let len = self.digests_len();
        self.digests.restart(alloc, len);
        self.buckets.clear();
        self.start_digests(alloc);
    }
}

impl<K, V, L: LruList, const TYPE: u8> BucketArray<K, V, L, TYPE> {
    ghost use Rattle.bucket_slots.specs.ArrayLoans.{LendsBucket};
    ghost use Rattle.bucket_slots.specs.ArrayRoom.{BucketFits};

    /// Returns the number of buckets.
    ///
    /// O(1). scc: `BucketArray::len`.
    pub fn len(&self) -> usize
        ensures value { result ≡ length self.now }
        ensures length { IsLength result }
    {
        self.buckets.len()
    }

    /// Returns the number of own slots in all buckets.
    ///
    /// O(1). scc: `BucketArray::num_slots`.
    pub fn num_slots(&self) -> usize
        ensures { result ≡ BUCKET_LEN * length self.now }
    {
        self.buckets.len() * BUCKET_LEN
    }

    /// Returns the index of a hash's home, which is the upper bits of the hash.
    ///
    /// O(1), one shift. scc: `BucketArray::bucket_index`.
    #[inline(always)]
    pub fn bucket_index(&self, hash: u64) -> usize
        ensures { IsHome (length self.now) hash result }
    {
        (hash >> self.hash_offset) as usize
    }

    /// Returns whether an insertion under this hash samples the array, that is, whether the low
    /// byte of the hash is a multiple of the large sample size.
    ///
    /// O(1). scc: `BucketArray::initiate_sampling`.
    pub fn initiate_sampling(&self, hash: u64) -> bool
        ensures { IsTrue result ↔ StartsSampling (length self.now) hash }
    {
        (hash % 256) as u8 & (self.sample_size - 1) == 0
    }

    /// Returns the number of buckets that a first estimate of the number of entries reads.
    ///
    /// O(1). scc: `BucketArray::small_sample_size`.
    pub fn small_sample_size(&self) -> usize
        ensures { IsSmallSample (length self.now) result }
    {
        small_sample_size_of(self.buckets.len())
    }

    /// Returns the number of buckets that an accurate estimate of the number of entries reads.
    ///
    /// O(1). scc: `BucketArray::large_sample_size`.
    pub fn large_sample_size(&self) -> usize
        ensures { IsLargeSample (length self.now) result }
    {
        usize::from(self.sample_size)
    }

    /// Returns the number of buckets that an estimate for a resize reads: all of them, but at most
    /// 128.
    ///
    /// O(1). scc: `BucketArray::full_sample_size`.
    pub fn full_sample_size(&self) -> usize
        ensures { result ≡ full_sample (length self.now) }
    {
        full_sample_size_of(self.buckets.len())
    }

    /// Returns the bucket at `index`.
    ///
    /// O(1). scc: `BucketArray::bucket`.
    #[inline(always)]
    pub fn bucket(&self, index: usize) -> &Bucket<K, V, L, TYPE>
        requires { index < length self.now }
        ensures { result.now ≡ bucket_at self.now index }
    {
        self.buckets.get(index)
    }

    /// Lends the bucket at `index` for writing. No other bucket changes. The digest becomes stale.
    ///
    /// Allocates nothing. O(1), but O(buckets of its part) if the bucket isn't initialized yet.
    #[inline(always)]
    pub fn bucket_mut(&mut self, index: usize) -> &mut Bucket<K, V, L, TYPE>
        requires { index < length self.old }
        ensures* writes_back { sem 𝓛
            (LendsBucket K.row V.row L.row TYPE.row
            (record { KEEPS = L.KEEPS; listed = L.listed; IsTail = L.IsTail }) L.Default
            self.entry index result) }
        ensures bucket { result.now ≡ bucket_at self.old index }
    {
        self.digests.lose(index);
        self.buckets.get_mut(index)
    }

    /// Returns the row of pairs in the own slots of the bucket at `index`, including those of
    /// tombstones.
    ///
    /// O(1). scc: `BucketArray::data_block`.
    pub fn data_block(&self, index: usize) -> &DataBlock<K, V, BUCKET_LEN>
        requires { index < length self.now }
        ensures { result.now ≡ places_of (bucket_at self.now index).own }
    {
        self.fact_room();
        self.bucket(index).data_block()
    }

    /// Returns the least number of slots of an array.
    ///
    /// O(1). scc: `BucketArray::minimum_capacity`.
    pub fn minimum_capacity() -> usize
        ensures { result ≡ 64 }
    {
        MINIMUM_CAPACITY
    }

    /// Returns whether there are more entries than 13 for each 16 slots.
    ///
    /// O(1). scc: `HashTable::try_enlarge`.
    pub fn need_enlarge(capacity: usize, num_entries: usize) -> bool
        ensures { IsTrue result ↔ IsTooFull capacity num_entries }
    {
        sizing::need_enlarge(capacity, num_entries)
    }

    /// Returns whether there are fewer entries than one for each 8 slots.
    ///
    /// O(1). scc: `HashTable::try_shrink`.
    pub fn need_shrink(capacity: usize, num_entries: usize) -> bool
        ensures { IsTrue result ↔ IsTooEmpty capacity num_entries }
    {
        sizing::need_shrink(capacity, num_entries)
    }

    /// Returns the best capacity for a number of entries, between a minimum and a maximum capacity.
    ///
    /// O(log of the maximum capacity). scc: `HashTable::try_resize`.
    pub fn optimal_capacity(
        capacity: usize,
        num_entries: usize,
        minimum_capacity: usize,
        maximum_capacity: usize,
    ) -> usize
        requires maximum { IsPowerIn 64 (2 ^ 63) maximum_capacity }
        requires bounded { minimum_capacity ≤ maximum_capacity }
        requires capacity { IsPowerIn 1 maximum_capacity capacity }
        ensures { IsOptimalCapacity capacity num_entries minimum_capacity maximum_capacity result }
    {
        sizing::optimal_capacity(capacity, num_entries, minimum_capacity, maximum_capacity)
    }

    /// States that a bucket takes fewer than 2^63 bytes, and which lengths an array can have; does
    /// nothing at run time. Generic code calls it before it calls a method of a bucket.
    ///
    /// O(1).
    #[inline(always)]
    pub fn fact_room(&self)
        ensures fits { BucketFits K.row V.row L.row TYPE.row
            (record { KEEPS = L.KEEPS; listed = L.listed; IsTail = L.IsTail }) L.Default }
        ensures length { IsLength (length self.now) }
    {
        self.buckets.fact_room();
    }
}
