//! The buckets of an array, in parts of equal length. A bucket is initialized when it is first lent
//! for writing. A short array, of at most four buckets, has no parts: one vector holds its buckets,
//! which are all initialized at once.
//!
//! Model: the list of the buckets. Invariant (`AreBuckets`): the length is stored, and each part
//! has the number of buckets that the stored bits give. Beside the parts are an empty bucket and a
//! killed one, which stand for those that aren't initialized; a short array has its buckets there.
ghost use Rattle.std.specs.Prelude.{◌≡◌, ◌≢◌, ℕ, ◌+◌, ◌-◌, ◌<◌, ◌≤◌, ◌^◌, ◌%◌, [], Some, true};
ghost use Rattle.std.specs.Prelude.{◌↔◌, IfOk, IfSome, IsTrue, length, option_map, replicate};
ghost use Rattle.std.specs.Prelude.{false, slice_set};
ghost use Rattle.std.specs.Borrow.{sem};
ghost use Rattle.std.specs.List.{list_any, position};
ghost use Rattle.bucket_slots.specs.ArrayRoom.{BucketFits};
ghost use Rattle.bucket_slots.specs.ArrayView.{bucket_at};
ghost use Rattle.bucket_slots.specs.BucketView.{empty_bucket, slot_in};
ghost use Rattle.bucket_slots.specs.Masks.{IsMaskOf};
ghost use Rattle.bucket_slots.specs.Placing.{slots_with};
ghost use Rattle.bucket_slots.specs.Removing.{slots_without};
ghost use Rattle.bucket_slots.specs.Searching.{has_byte, matching_len, place_matched};
ghost use Rattle.bucket_slots.specs.Sizing.{IsLength};
ghost use Rattle.bucket_slots.specs.Slots.{is_free, is_live, is_marked, live_pair, slot_at};
ghost use Rattle.bucket_slots.specs.Spreading.{IsShifted, SpreadsSome};

use super::part::{Part, empty_all, empty_buckets, first_fresh, spare_buckets};
use super::sizing::{LEAST_PART_BITS, parts_for, place_of};
use crate::bucket::room::fits_in_memory;
use crate::bucket::{Bucket, EntryPtr, INDEX, KeyProbe};
use crate::lru::LruList;
use std::alloc::{AllocError, Global};
use std::marker::Model;

/// The greatest number of buckets in a short array.
const SHORT_LEN: usize = 4;

/// The buckets of an array.
pub(crate) struct Buckets<K, V, L: LruList, const TYPE: u8> {
    parts: Vec<Part<K, V, L, TYPE>>,
    beside: Vec<Bucket<K, V, L, TYPE>>,
    len: usize,
    part_bits: u32,
    part_mask: usize,
}

impl<K, V, L: LruList, const TYPE: u8> Model for Buckets<K, V, L, TYPE> {
    ghost use Rattle.std.specs.Prelude.{List, ◌≡◌, ◌^◌, ◌-◌};
    ghost use Rattle.bucket_slots.specs.BucketView.{BucketView};
    ghost use Rattle.bucket_slots.specs.Layout.ArrayParts.{AreBuckets, buckets_of};

    ghost Value = { List (BucketView K V) };

    ghost view = { λ buckets. buckets_of buckets.parts.items buckets.beside.items };

    ghost invariant = { λ buckets.
        AreBuckets buckets.parts.items buckets.beside.items buckets.len buckets.part_bits
        × (buckets.part_mask ≡ 2 ^ buckets.part_bits - 1) };
}

/// Taking the slice of the buckets beside the parts states that a bucket fits in memory.
impl<K: Drop, V: Drop, L: LruList + Drop, const TYPE: u8> Drop for Buckets<K, V, L, TYPE> {
    fn drop(self) {
        let Buckets {
            parts,
            beside,
            len: _,
            part_bits: _,
            part_mask: _,
        } = self;
        drop(parts);
        let _ = beside.as_slice();
        drop(beside);
    }
}

impl<K: Drop, V: Drop, L: LruList + Drop, const TYPE: u8> Buckets<K, V, L, TYPE> {
    /// Returns `len` empty buckets. In a short array all are initialized, otherwise none.
    ///
    /// # Errors
    ///
    /// Allocation failed: nothing is kept. The memory of all buckets is allocated here, part by
    /// part.
    pub(crate) fn alloc(alloc: Global, len: usize) -> Result<Self, AllocError>
        requires { IsLength len }
        ensures { IfOk result (λ buckets. buckets ≡ replicate len empty_bucket) }
    {
        if !fits_in_memory::<Bucket<K, V, L, TYPE>>() {
            return Err(AllocError);
        }
        if len <= SHORT_LEN {
            let beside = empty_buckets(alloc, len)?;
            return Ok(Buckets {
                parts: Vec::new(alloc),
                beside,
                len,
                part_bits: 0,
                part_mask: 0,
            });
        }
        let (count, part_bits) = parts_for(len);
        let part_len: usize = 1 << part_bits;
        let parts = Part::alloc_all(alloc, count, part_len)?;
        let beside = spare_buckets(alloc)?;
        Ok(Buckets {
            parts,
            beside,
            len,
            part_bits,
            part_mask: part_len - 1,
        })
    }
}

impl<K, V, L: LruList, const TYPE: u8> Buckets<K, V, L, TYPE> {
    ghost use Rattle.bucket_slots.specs.Layout.BucketsLoans.{LendsBucketAt};

    /// Returns the number of buckets.
    #[inline(always)]
    pub(crate) fn len(&self) -> usize
        ensures { result ≡ length self.now }
    {
        self.len
    }

    /// Returns whether the array is short, with at most four buckets.
    #[inline(always)]
    pub(crate) fn is_short(&self) -> bool
        ensures { IsTrue result ↔ (length self.now ≤ 4) }
    {
        self.len <= SHORT_LEN
    }

    /// States that a bucket takes fewer than 2^63 bytes; does nothing at run time.
    #[inline(always)]
    pub(crate) fn fact_room(&self)
        ensures { BucketFits K.row V.row L.row TYPE.row
            (record { KEEPS = L.KEEPS; listed = L.listed; IsTail = L.IsTail }) L.Default }
    {
        let _ = self.beside.as_slice();
    }

    /// Returns the bucket at `index`.
    #[inline(always)]
    pub(crate) fn get(&self, index: usize) -> &Bucket<K, V, L, TYPE>
        requires { index < length self.now }
        ensures { result.now ≡ bucket_at self.now index }
    {
        self.fact_room();
        if self.len <= SHORT_LEN {
            return &self.beside[index];
        }
        let (part, offset) = place_of(index, self.part_bits, self.part_mask);
        self.parts[part].bucket(offset, &self.beside)
    }

    /// Lends the bucket at `index` for writing. If it isn't initialized yet, it and those before it
    /// in its part are initialized first.
    #[inline(always)]
    pub(crate) fn get_mut(&mut self, index: usize) -> &mut Bucket<K, V, L, TYPE>
        requires { index < length self.old }
        ensures* writes_back { sem 𝓛
            (LendsBucketAt K.row V.row L.row TYPE.row
            (record { KEEPS = L.KEEPS; listed = L.listed; IsTail = L.IsTail }) L.Default
            self.entry index result) }
        ensures bucket { result.now ≡ bucket_at self.old index }
    {
        if self.is_short() {
            return &mut self.beside[index];
        }
        self.get_long_mut(index)
    }

    /// Does what `get_mut` does, in an array that isn't short.
    #[inline(always)]
    fn get_long_mut(&mut self, index: usize) -> &mut Bucket<K, V, L, TYPE>
        requires long { 4 < length self.old }
        requires within { index < length self.old }
        ensures* writes_back { sem 𝓛
            (LendsBucketAt K.row V.row L.row TYPE.row
            (record { KEEPS = L.KEEPS; listed = L.listed; IsTail = L.IsTail }) L.Default
            self.entry index result) }
        ensures bucket { result.now ≡ bucket_at self.old index }
    {
        self.fact_room();
        let (part, offset) = place_of(index, self.part_bits, self.part_mask);
        let held = &mut self.parts[part];
        prove!(offset < held.len());
        held.bucket_mut(offset)
    }

    /// Returns a bucket with a live own slot, which is always initialized, in an array that isn't
    /// short.
    #[inline(always)]
    pub(crate) fn made(&self, index: usize) -> &Bucket<K, V, L, TYPE>
        requires long { 4 < length self.now }
        requires within { index < length self.now }
        requires live_slot { (pos : ℕ)
            × (is_live (slot_at (bucket_at self.now index).own pos) ≡ true) }
        ensures { result.now ≡ bucket_at self.now index }
    {
        self.fact_room();
        let (part, offset) = place_of(index, self.part_bits, self.part_mask);
        self.parts[part].made_bucket(offset)
    }

    /// Lends a bucket with a live own slot, which is always initialized, for writing, in an array
    /// that isn't short.
    #[inline(always)]
    pub(crate) fn made_mut(&mut self, index: usize) -> &mut Bucket<K, V, L, TYPE>
        requires long { 4 < length self.old }
        requires within { index < length self.old }
        requires live_slot { (pos : ℕ)
            × (is_live (slot_at (bucket_at self.old index).own pos) ≡ true) }
        ensures* writes_back { sem 𝓛
            (LendsBucketAt K.row V.row L.row TYPE.row
            (record { KEEPS = L.KEEPS; listed = L.listed; IsTail = L.IsTail }) L.Default
            self.entry index result) }
        ensures bucket { result.now ≡ bucket_at self.old index }
    {
        self.fact_room();
        let (part, offset) = place_of(index, self.part_bits, self.part_mask);
        let held = &mut self.parts[part];
        held.made_bucket_mut(offset)
    }

    /// Returns the place and the pair of the first matching slot of a bucket without a chain, in an
    /// array that isn't short. `candidates` is the bitmap of the live own slots with the hash's
    /// fingerprint. If it is 0, no bucket is read.
    #[inline(always)]
    pub(crate) fn find_among<P: KeyProbe<K>>(
        &self,
        index: usize,
        candidates: u32,
        hash: u64,
        probe: &mut P,
    ) -> Option<(EntryPtr<K, V, TYPE>, &K, &V)>
        requires long { 4 < length self.now }
        requires within { index < length self.now }
        requires mask { IsMaskOf (has_byte (hash % 256)) (bucket_at self.now index).own candidates }
        requires chainless { (bucket_at self.now index).chain ≡ [] }
        ensures place { option_map (λ found. found.0) result
            ≡ place_matched (P.matches probe.old) (hash % 256) (bucket_at self.now index) }
        ensures pair { IfSome result (λ found.
            live_pair (slot_in (bucket_at self.now index) found.0)
            ≡ Some (found.1.now, found.2.now)) }
        ensures own { IfSome result (λ found. (found.0.block ≡ 0) × (found.0.pos < 32)) }
        ensures live { IfSome result
            (λ found. IsTrue (is_live (slot_in (bucket_at self.now index) found.0))) }
        ensures few { P.asked probe.new
            ≤ P.asked probe.old + matching_len (hash % 256) (bucket_at self.now index) }
        ensures fixed { P.matches probe.new ≡ P.matches probe.old }
    {
        self.fact_room();
        if candidates == 0 {
            return None;
        }
        self.made(index)
            .find_among(candidates, (hash % 256) as u8, probe)
    }
}

impl<K: Drop, V: Drop, L: LruList, const TYPE: u8> Buckets<K, V, L, TYPE> {
    /// Takes the pair out of a live own slot of a bucket, in an array that isn't short.
    #[inline(always)]
    pub(crate) fn remove(&mut self, index: usize, at: EntryPtr<K, V, TYPE>) -> (K, V)
        requires not_index { TYPE ≢ INDEX }
        requires long { 4 < length self.old }
        requires within { index < length self.old }
        requires own { at.block ≡ 0 }
        requires live_slot { IsTrue (is_live (slot_in (bucket_at self.old index) at)) }
        ensures pair { live_pair (slot_in (bucket_at self.old index) at) ≡ Some result }
        ensures slots { self.new
            ≡ slice_set self.old index (slots_without (bucket_at self.old index) at) }
    {
        self.fact_room();
        let mut at = at;
        self.made_mut(index).remove(&mut at)
    }

    /// Puts a live pair into the lowest free own slot of a bucket, in an array that isn't short,
    /// and returns its position. No own slot is a tombstone, and `lives` is the bitmap of the live
    /// ones.
    #[inline(always)]
    pub(crate) fn fill(&mut self, index: usize, lives: u32, byte: u8, pair: (K, V)) -> u32
        requires unmarked { list_any is_marked (bucket_at self.old index).own ≡ false }
        requires long { 4 < length self.old }
        requires within { index < length self.old }
        requires mask { IsMaskOf is_live (bucket_at self.old index).own lives }
        requires some { lives ≢ 2 ^ 32 - 1 }
        ensures place { position is_free (bucket_at self.old index).own ≡ Some result }
        ensures short { result < 32 }
        ensures slots { self.new
            ≡ slice_set self.old index (slots_with (bucket_at self.old index) pair byte) }
    {
        self.fact_room();
        self.get_long_mut(index).fill_own(lives, byte, pair)
    }

    /// Moves pairs of own slots of a bucket to `len` buckets from `start` on, as
    /// `Bucket::spread_own` does. Moves none if the part of the first one ends before the last.
    #[inline(always)]
    pub(crate) fn spread<F: Fn(&K) -> u64>(
        &mut self,
        source: &mut Bucket<K, V, L, TYPE>,
        start: usize,
        len: usize,
        shift: u32,
        hash_of: &F,
    )
        requires callable { F.IsAlwaysCallable hash_of.now }
        requires within { start < length self.old }
        requires shift { shift < 64 }
        requires bounded { start + len ≤ 2 ^ 64 }
        ensures spreads { SpreadsSome TYPE (λ key answer. F.post hash_of.now key answer)
            (IsShifted shift) 0 source.old self.old source.new self.new }

        // The buckets before the first one stay the same.
        ensures front { (i : ℕ) → i < start → bucket_at self.new i ≡ bucket_at self.old i }
    {
        self.fact_room();
        if self.len <= SHORT_LEN {
            self.spread_beside(source, start, len, shift, hash_of);
            return;
        }
        let (part, offset) = place_of(start, self.part_bits, self.part_mask);
        let held = &mut self.parts[part];
        prove!(offset < held.len());
        held.spread(source, offset, len, start, shift, hash_of);
    }
}

impl<K: Drop, V: Drop, L: LruList, const TYPE: u8> Buckets<K, V, L, TYPE> {
    /// Does what `spread` does, in a short array.
    fn spread_beside<F: Fn(&K) -> u64>(
        &mut self,
        source: &mut Bucket<K, V, L, TYPE>,
        start: usize,
        len: usize,
        shift: u32,
        hash_of: &F,
    )
        requires short { length self.old ≤ 4 }
        requires callable { F.IsAlwaysCallable hash_of.now }
        requires within { start < length self.old }
        requires shift { shift < 64 }
        requires bounded { start + len ≤ 2 ^ 64 }
        ensures spreads { SpreadsSome TYPE (λ key answer. F.post hash_of.now key answer)
            (IsShifted shift) 0 source.old self.old source.new self.new }
        ensures front { (i : ℕ) → i < start → bucket_at self.new i ≡ bucket_at self.old i }
    {
        if self.beside.len() - start < len {
            return;
        }
        self.fact_room();
        source.spread_own(
            self.beside.slice_mut(start..start + len),
            start,
            shift,
            hash_of,
        );
    }
}

impl<K: Drop, V: Drop, L: LruList + Drop, const TYPE: u8> Buckets<K, V, L, TYPE> {
    /// Makes all buckets empty. Drops their pairs and blocks, and keeps the memory of the slots.
    pub(crate) fn clear(&mut self)
        ensures { self.new ≡ replicate (length self.old) empty_bucket }
    {
        self.fact_room();
        if self.len <= SHORT_LEN {
            empty_all(&mut self.beside);
        } else {
            Part::clear_all(&mut self.parts);
        }
    }

    /// Frees the buckets of the part around a bucket, if all are killed and empty, and the part is
    /// longer than the least length. No bucket changes.
    pub(crate) fn release(&mut self, index: usize)
        requires { index < length self.old }
        ensures { self.new ≡ self.old }
    {
        if self.part_bits <= LEAST_PART_BITS {
            return;
        }
        self.fact_room();
        let (part, _offset) = place_of(index, self.part_bits, self.part_mask);
        self.parts[part].release();
    }

    /// Frees the buckets of the part around a bucket, if all are killed and empty, and exchanges
    /// their memory with that of a part of equal length of another array in which no bucket is
    /// initialized: the first one among a few parts that pairs move to next. Returns whether there
    /// is such a part. No bucket changes.
    pub(crate) fn release_into(&mut self, index: usize, to: &mut Self) -> bool
        requires { index < length self.old }
        ensures kept { self.new ≡ self.old }
        ensures other { to.new ≡ to.old }
    {
        if self.len <= SHORT_LEN {
            return false;
        }
        if self.part_bits != to.part_bits {
            return false;
        }
        self.fact_room();
        let (part, _offset) = place_of(index, self.part_bits, self.part_mask);
        let next = (part + 1).saturating_mul(to.parts.len()) / self.parts.len();
        let Some(fresh) = first_fresh(&to.parts, next) else {
            return false;
        };
        self.parts[part].release_to(&mut to.parts[fresh]);
        true
    }
}
