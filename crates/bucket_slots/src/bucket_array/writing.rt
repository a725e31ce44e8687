//! Insertions into a bucket of an array, and removals from it, by its digest.
ghost use Rattle.std.specs.Prelude.{◌≡◌, ◌≢◌, ◌%◌, ◌<◌, OnErr, OnOk, length, slice_set};
ghost use Rattle.bucket_slots.specs.ArrayView.{bucket_at};
ghost use Rattle.bucket_slots.specs.BucketView.{BucketView};
ghost use Rattle.bucket_slots.specs.Clearing.{slots_after_insertion};
ghost use Rattle.bucket_slots.specs.Digested.{AnswersInsertion, TakesMatched, UpsertsIn};

use super::BucketArray;
use super::digests::is_stale;
use crate::bucket::{EqProbe, Generation, INDEX, KeyProbe};
use crate::lru::LruList;
use crate::not_inserted::NotInserted;
use std::mem;

impl<K: Drop, V: Drop, L: LruList, const TYPE: u8> BucketArray<K, V, L, TYPE> {
    /// Removes the first pair of a bucket that matches a probe. Returns it and the number of live
    /// pairs left in the bucket, or `None` if none matches.
    ///
    /// Allocates nothing. O(1), but O(blocks in the chain) if the digest is stale.
    #[inline(always)]
    pub fn take_by<P: KeyProbe<K>>(
        &mut self,
        index: usize,
        hash: u64,
        probe: &mut P,
    ) -> Option<((K, V), usize)>
        requires not_index { TYPE ≢ INDEX }
        requires within { index < length self.old }
        ensures taken { TakesMatched (P.matches probe.old) (hash % 256) index self.old result
            self.new }
        ensures fixed { P.matches probe.new ≡ P.matches probe.old }
    {
        self.fact_room();
        let Some((live, left)) = self.digests.known(&self.buckets, index, hash) else {
            return self.take_stale(index, hash, probe);
        };
        let at = match self.buckets.find_among(index, left, hash, probe) {
            Some((at, _, _)) => at,
            None => return None,
        };
        let pos = at.pos() as u32;
        let pair = self.buckets.remove(index, at);
        let left = self.digests.free(index, live, pos);
        Some((pair, left))
    }

    /// Does what `take_by` does, if the bucket's digest is stale.
    #[inline(always)]
    fn take_stale<P: KeyProbe<K>>(
        &mut self,
        index: usize,
        hash: u64,
        probe: &mut P,
    ) -> Option<((K, V), usize)>
        requires not_index { TYPE ≢ INDEX }
        requires within { index < length self.old }
        ensures taken { TakesMatched (P.matches probe.old) (hash % 256) index self.old result
            self.new }
        ensures fixed { P.matches probe.new ≡ P.matches probe.old }
    {
        self.fact_room();
        let bucket = self.bucket_mut(index);
        let mut at = bucket.get_entry_ptr_by(hash, probe);
        if !at.is_valid() {
            return None;
        }
        let pair = bucket.remove(&mut at);
        let left = bucket.len();
        self.refresh(index);
        Some((pair, left))
    }

    /// Inserts a pair into a bucket if no live slot there has an equal key.
    ///
    /// # Errors
    ///
    /// An equal key is in the bucket, or allocation failed: the pair is returned, and no bucket
    /// changes. Allocation can't fail while a slot is free.
    ///
    /// O(1), but O(blocks in the chain) if the digest is stale.
    #[inline(always)]
    pub fn insert_absent<G: Generation>(
        &mut self,
        index: usize,
        hash: u64,
        key: K,
        value: V,
        generation: &G,
    ) -> Result<(), NotInserted<K, V>>
    where
        K: Eq,
        requires { index < length self.old }
        ensures answer { AnswersInsertion K.eq key value (hash % 256) TYPE (G.keeps generation.now)
            (bucket_at self.old index) result }
        ensures put { OnOk result (self.new ≡ slice_set self.old index
            (slots_after_insertion TYPE (G.keeps generation.now) (bucket_at self.old index)
            (key, value) (hash % 256))) }
        ensures unchanged { OnErr result (self.new ≡ self.old) }
    {
        self.fact_room();
        let Some((live, left)) = self.digests.known(&self.buckets, index, hash) else {
            return self.insert_stale(index, hash, key, value, generation);
        };
        if self.buckets.get(index).has_marks() {
            return self.insert_stale(index, hash, key, value, generation);
        }
        if let Some(_found) = self
            .buckets
            .find_among(index, left, hash, &mut EqProbe::new(&key))
        {
            return Err(NotInserted::Present(key, value));
        }
        let byte = (hash % 256) as u8;
        let pos = self.buckets.fill(index, live, byte, (key, value));
        self.digests.fill(index, live, pos, byte);
        Ok(())
    }

    /// Inserts a pair into a bucket. If the key is there already, the value is replaced, and the
    /// previous value is returned.
    ///
    /// # Errors
    ///
    /// Allocation failed, and the key is absent: the pair is returned, and no bucket changes.
    ///
    /// O(1), but O(blocks in the chain) if there is a chain.
    #[inline(always)]
    pub fn upsert<G: Generation>(
        &mut self,
        index: usize,
        hash: u64,
        key: K,
        value: V,
        generation: &G,
    ) -> Result<Option<V>, (K, V)>
    where
        K: Eq,
        requires { index < length self.old }
        ensures { (left : BucketView K V)
            × UpsertsIn K.eq key value (hash % 256) TYPE (G.keeps generation.now)
            (bucket_at self.old index) result left
            × (self.new ≡ slice_set self.old index left) }
    {
        if is_stale(self.digests.live(index)) {
            if self.buckets.is_short() {
                return self.upsert_stale(index, hash, key, value, generation);
            }
        }
        self.heal(index);
        match self.find_by(index, hash, &mut EqProbe::new(&key)) {
            Some(at) => {
                let (_own, old) = self.entry_mut(index, &at);
                Ok(Some(mem::replace(old, value)))
            }
            None => match self.insert_absent(index, hash, key, value, generation) {
                Ok(()) => Ok(None),
                Err(NotInserted::Present(_key, _value)) => unreachable!(),
                Err(NotInserted::Memory(key, value)) => Err((key, value)),
            },
        }
    }

    /// Does what `upsert` does, if the bucket's digest is stale.
    #[inline(always)]
    fn upsert_stale<G: Generation>(
        &mut self,
        index: usize,
        hash: u64,
        key: K,
        value: V,
        generation: &G,
    ) -> Result<Option<V>, (K, V)>
    where
        K: Eq,
        requires { index < length self.old }
        ensures { (left : BucketView K V)
            × UpsertsIn K.eq key value (hash % 256) TYPE (G.keeps generation.now)
            (bucket_at self.old index) result left
            × (self.new ≡ slice_set self.old index left) }
    {
        self.fact_room();
        let bucket = self.bucket_mut(index);
        let at = bucket.get_entry_ptr(&key, hash);
        if at.is_valid() {
            let (_own, held) = bucket.entry_mut(&at);
            return Ok(Some(mem::replace(held, value)));
        }
        match bucket.insert(hash, (key, value), generation) {
            Ok(_) => Ok(None),
            Err(pair) => Err(pair),
        }
    }

    /// Does what `insert_absent` does, if the bucket's digest is stale or it is a bucket of an
    /// index.
    #[inline(always)]
    fn insert_stale<G: Generation>(
        &mut self,
        index: usize,
        hash: u64,
        key: K,
        value: V,
        generation: &G,
    ) -> Result<(), NotInserted<K, V>>
    where
        K: Eq,
        requires { index < length self.old }
        ensures answer { AnswersInsertion K.eq key value (hash % 256) TYPE (G.keeps generation.now)
            (bucket_at self.old index) result }
        ensures put { OnOk result (self.new ≡ slice_set self.old index
            (slots_after_insertion TYPE (G.keeps generation.now) (bucket_at self.old index)
            (key, value) (hash % 256))) }
        ensures unchanged { OnErr result (self.new ≡ self.old) }
    {
        self.fact_room();
        let bucket = self.bucket_mut(index);
        if bucket.get_entry_ptr(&key, hash).is_valid() {
            return Err(NotInserted::Present(key, value));
        }
        let placed = bucket.insert(hash, (key, value), generation);
        self.refresh(index);
        match placed {
            Ok(_) => Ok(()),
            Err((key, value)) => Err(NotInserted::Memory(key, value)),
        }
    }
}
