//! Digests of buckets. Each is a bitmap of the bucket's live own slots, and their fingerprints.
//!
//! Model: the digest of each index. A digest is stale if its bitmap is all ones or its index is
//! past the end; then it is no information about its bucket.
ghost use Rattle.std.specs.Prelude.{◌≡◌, ◌≢◌, ◌==◌, ℕ, ◌-◌, ◌^◌, ◌<◌, ◌%◌};
ghost use Rattle.std.specs.Prelude.{IfSome, IsTrue, ◌↔◌, [], bit_and, length, slice_set};
ghost use Rattle.std.specs.Int.Count.{ones};
ghost use Rattle.bucket_slots.specs.Layout.Bitmaps.{SetsBit};
ghost use Rattle.bucket_slots.specs.ArrayView.{bucket_at};
ghost use Rattle.bucket_slots.specs.Layout.Digests.{AreDigests, ChangesOne, IsStale, KnowsNone};
ghost use Rattle.bucket_slots.specs.Layout.Digests.{Refreshes, digest_at};
ghost use Rattle.bucket_slots.specs.Masks.{IsMaskOf};
ghost use Rattle.bucket_slots.specs.Searching.{has_byte};
ghost use Rattle.bucket_slots.specs.Slots.{is_live};

use super::buckets::Buckets;
use crate::bucket::BUCKET_LEN;
use crate::bucket::bits::{with_bit, without_bit};
use crate::lru::LruList;
use crate::matcher::match_partial_hash;
use std::alloc::Global;
use std::marker::Model;

/// The bitmap of a stale digest.
const STALE: u32 = u32::MAX;

/// The digests of an array's buckets.
#[derive(Drop)]
pub(crate) struct Digests {
    lives: Vec<u32>,
    bytes: Vec<[u8; BUCKET_LEN]>,
}

impl Model for Digests {
    ghost use Rattle.std.specs.Prelude.{◌≡◌, length};
    ghost use Rattle.bucket_slots.specs.Layout.Digests.{DigestLists};

    ghost Value = { DigestLists };

    ghost view = { λ digests. record { lives = digests.lives.items; bytes = digests.bytes.items } };

    ghost invariant = { λ digests. length digests.lives.items ≡ length digests.bytes.items };
}

impl Digests {
    /// Returns digests that are all stale.
    pub(crate) fn none(alloc: Global) -> Self
        ensures { KnowsNone 0 result }
    {
        Digests {
            lives: Vec::new(alloc),
            bytes: Vec::new(alloc),
        }
    }

    /// Allocates `len` digests, all stale at first. If that fails, there are none.
    pub(crate) fn restart(&mut self, alloc: Global, len: usize)
        ensures { KnowsNone 0 self.new }
    {
        self.lives.clear();
        self.bytes.clear();
        if len < self.bytes.capacity() {
            self.lives = Vec::new(alloc);
            self.bytes = Vec::new(alloc);
        }
        if self.lives.try_reserve(len).is_ok() {
            let _ = self.bytes.try_reserve(len);
        }
    }

    /// Returns the bitmap in a bucket's digest.
    #[inline(always)]
    pub(crate) fn live(&self, index: usize) -> u32
        ensures { result ≡ (digest_at self.now index).live }
    {
        match self.lives.get(index) {
            Some(live) => *live,
            None => STALE,
        }
    }

    /// Returns whether the digests of a bucket and of all buckets after it are stale.
    #[inline(always)]
    pub(crate) fn is_stale_from(&self, index: usize) -> bool
        ensures { IsTrue result → KnowsNone index self.now }
    {
        self.lives.len() <= index
    }

    /// Returns the bitmap of a bucket's live own slots, and the bitmap of those with the hash's
    /// fingerprint, or `None` if the digest is stale. A bucket whose digest isn't stale has no
    /// chain.
    #[inline(always)]
    pub(crate) fn known<K, V, L: LruList, const TYPE: u8>(
        &self,
        buckets: &Buckets<K, V, L, TYPE>,
        index: usize,
        hash: u64,
    ) -> Option<(u32, u32)>
        requires { AreDigests self.now buckets.now }
        ensures live { IfSome result (λ known. known.0 ≡ (digest_at self.now index).live) }
        ensures known { IfSome result (λ known. known.0 ≢ 2 ^ 32 - 1) }
        ensures said { IfSome result (λ _known. (digest_at self.now index).live ≢ 2 ^ 32 - 1) }
        ensures lives { IfSome result
            (λ known. IsMaskOf is_live (bucket_at buckets.now index).own known.0) }
        ensures mask { IfSome result
            (λ known. IsMaskOf (has_byte (hash % 256)) (bucket_at buckets.now index).own known.1) }
        ensures chainless { IfSome result (λ _known. (bucket_at buckets.now index).chain ≡ []) }
        ensures long { IfSome result (λ _known. 4 < length buckets.now) }
    {
        let live = self.live(index);
        if is_stale(live) {
            return None;
        }
        prove!(live != STALE);
        Some((live, self.candidates(index, live, (hash % 256) as u8)))
    }

    /// Returns a bitmap of those of the live own slots that have this fingerprint.
    #[inline(always)]
    fn candidates(&self, index: usize, live: u32, byte: u8) -> u32
        requires known { (digest_at self.now index).live ≢ 2 ^ 32 - 1 }
        ensures { (mask : ℕ) × IsMaskOf (λ own. own == byte) (digest_at self.now index).bytes mask
            × (result ≡ bit_and mask live) }
    {
        match_partial_hash(&self.bytes[index], byte) & live
    }

    /// Makes a bucket's digest stale.
    #[inline(always)]
    pub(crate) fn lose(&mut self, index: usize)
        ensures stale { IsStale (digest_at self.new index) }
        ensures others { ChangesOne index self.old self.new }
    {
        if index < self.lives.len() {
            self.lives[index] = STALE;
        }
    }

    /// Stores a bucket's digest, if there is room for it.
    #[inline(always)]
    pub(crate) fn refresh(&mut self, index: usize, live: u32, bytes: &[u8; BUCKET_LEN])
        ensures refreshed { Refreshes live bytes.now (digest_at self.new index) }
        ensures others { ChangesOne index self.old self.new }
    {
        if index < self.lives.len() {
            self.lives[index] = live;
            self.bytes[index] = *bytes;
        } else if index == self.lives.len()
            && index < self.lives.capacity()
            && index < self.bytes.capacity()
        {
            self.lives.push_reserved(live);
            self.bytes.push_reserved(*bytes);
        }
    }

    /// Updates the digest after an own slot was filled.
    #[inline(always)]
    pub(crate) fn fill(&mut self, index: usize, live: u32, pos: u32, byte: u8)
        requires known { (digest_at self.old index).live ≢ 2 ^ 32 - 1 }
        requires live { live ≡ (digest_at self.old index).live }
        requires pos { pos < 32 }
        ensures live { SetsBit (digest_at self.old index).live pos 1
            (digest_at self.new index).live }
        ensures bytes { (digest_at self.new index).bytes
            ≡ slice_set (digest_at self.old index).bytes pos byte }
        ensures others { ChangesOne index self.old self.new }
    {
        self.lives[index] = with_bit(live, pos);
        let row = &mut self.bytes[index];
        row[pos as usize] = byte;
    }

    /// Updates the digest after an own slot was freed. Returns the number of live own slots.
    #[inline(always)]
    pub(crate) fn free(&mut self, index: usize, live: u32, pos: u32) -> usize
        requires known { (digest_at self.old index).live ≢ 2 ^ 32 - 1 }
        requires live { live ≡ (digest_at self.old index).live }
        requires pos { pos < 32 }
        ensures live { SetsBit (digest_at self.old index).live pos 0
            (digest_at self.new index).live }
        ensures bytes { (digest_at self.new index).bytes ≡ (digest_at self.old index).bytes }
        ensures others { ChangesOne index self.old self.new }
        ensures left { result ≡ ones (digest_at self.new index).live }
    {
        let left = without_bit(live, pos);
        self.lives[index] = left;
        left.count_ones() as usize
    }
}

/// Returns whether a bitmap is that of a stale digest.
#[inline(always)]
pub(crate) fn is_stale(live: u32) -> bool
    ensures { IsTrue result ↔ (live ≡ 2 ^ 32 - 1) }
{
    live == STALE
}
