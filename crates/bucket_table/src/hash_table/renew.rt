//! Moving all pairs of a cache into a new array, one by one.
ghost use Rattle.std.specs.Prelude.{◌≡◌, ◌≢◌, ◌≤◌, ℕ, [], ◌∷◌, OnErr, OnOk};
ghost use Rattle.std.specs.Int.{IsPowerOfTwo};
ghost use Rattle.bucket_slots.specs.Slots.{live_pair, slot_at};
ghost use Rattle.bucket_table.specs.Resize.Renewing.{Awaits, Pours, Renews, arrays_by_age};
ghost use Rattle.bucket_table.specs.Resize.Renewing.{chain_pairs, own_by_age, pairs_by_age};
ghost use Rattle.bucket_table.specs.Walking.ByUse.{own_left};

use crate::arrays::Arrays;
use crate::hash_table::HashTable;
use crate::key_hash::KeyHash;
use crate::pair_count::PairCount;
use bucket_slots::bucket::{BUCKET_LEN, Bucket, CACHE, EntryPtr};
use bucket_slots::lru::DoublyLinkedList;
use std::alloc::AllocError;
use std::mem;

impl<K: Eq + Drop, V: Drop, H: KeyHash<K>, const TYPE: u8> HashTable<
    K,
    V,
    H,
    DoublyLinkedList,
    TYPE,
> {
    /// Moves all pairs of a cache into a new array for a capacity, which becomes the minimum and
    /// the maximum. Each pair is inserted as `put` does: bucket by bucket, first the pairs of the
    /// chain, then the own ones, with the one touched longest ago first. If a pair's new bucket has
    /// no free own slot, a pair is evicted from it and dropped.
    ///
    /// An incremental rehash that is under way ends with the old arrays, and then no ticket is
    /// open.
    ///
    /// # Errors
    ///
    /// Allocation of the new array failed, as it always does for 2^63 slots: nothing changes.
    ///
    /// O(slots of all arrays, and the square of the number of blocks of each chain). Like
    /// `LruCache::resize` of the crate lru.
    pub fn renew(&mut self, capacity: usize) -> Result<(), AllocError>
        requires cache { TYPE ≡ CACHE }
        requires power { IsPowerOfTwo capacity }
        requires large { 64 ≤ capacity }
        ensures hasher { self.new.hasher ≡ self.old.hasher }
        ensures renewed { OnOk result (Renews (H.hash_of self.old.hasher) capacity self.old.arrays
            self.new.arrays) }
        ensures unchanged { OnErr result (self.new.arrays ≡ self.old.arrays) }
    {
        let fresh = self.arrays.fresh(capacity)?;
        let mut source = mem::replace(&mut self.arrays, fresh);
        self.count = PairCount::new(0);
        self.pour_all(&mut source);
        Ok(())
    }

    /// Inserts the pairs of other arrays, bucket by bucket.
    fn pour_all(&mut self, source: &mut Arrays<K, V, DoublyLinkedList, TYPE>)
        requires cache { TYPE ≡ CACHE }
        requires awaits { Awaits K.eq self.old (arrays_by_age source.old) }
        ensures { Pours H.hash_of self.old (arrays_by_age source.old) self.new }
    {
        if !source.has_row() {
            return;
        }
        source.fact_row_room();
        let mut index = 0;
        'buckets: while let Some(_bucket) = source.nth(index) {
            self.pour_bucket(source.nth_mut(index));
            index += 1;
        }
    }

    /// Inserts the pairs of a bucket by age.
    fn pour_bucket(&mut self, bucket: &mut Bucket<K, V, DoublyLinkedList, TYPE>)
        requires cache { TYPE ≡ CACHE }
        requires awaits { Awaits K.eq self.old (pairs_by_age bucket.old) }
        ensures { Pours H.hash_of self.old (pairs_by_age bucket.old) self.new }
    {
        self.pour_chain(bucket);
        self.pour_own(bucket);
    }

    /// Inserts the pairs of a bucket's chain, from its head on.
    #[tactic(auto, using(crate::proofs::Walking::Retaining::next_live))]
    fn pour_chain(&mut self, bucket: &mut Bucket<K, V, DoublyLinkedList, TYPE>)
        requires cache { TYPE ≡ CACHE }
        requires awaits { Awaits K.eq self.old (pairs_by_age bucket.old) }
        ensures poured { Pours H.hash_of self.old (chain_pairs bucket.old) self.new }
        ensures left { own_by_age bucket.new ≡ own_by_age bucket.old }
        ensures awaits { Awaits K.eq self.new (own_by_age bucket.new) }
    {
        bucket.fact_sound();
        let mut at = EntryPtr::own_slot(BUCKET_LEN - 1);
        'pairs: while at.find_next(bucket) {
            let (key, value) = bucket.remove(&mut at);
            self.pour_pair(key, value);
        }
    }

    /// Inserts the pairs of a bucket's own slots by age.
    fn pour_own(&mut self, bucket: &mut Bucket<K, V, DoublyLinkedList, TYPE>)
        requires cache { TYPE ≡ CACHE }
        requires awaits { Awaits K.eq self.old (own_by_age bucket.old) }
        ensures { Pours H.hash_of self.old (own_by_age bucket.old) self.new }
    {
        bucket.fact_sound();
        let slots = bucket.slots_by_use();
        let mut left = BUCKET_LEN;
        'slots: while left > 0 {
            left -= 1;
            self.pour_slot(bucket, slots[left] as usize);
        }
    }

    /// Inserts the pair of an own slot, if it is live.
    fn pour_slot(&mut self, bucket: &mut Bucket<K, V, DoublyLinkedList, TYPE>, slot: usize)
        requires cache { TYPE ≡ CACHE }
        requires awaits { Awaits K.eq self.old (own_left bucket.old (slot ∷ [])) }
        ensures poured { Pours H.hash_of self.old (own_left bucket.old (slot ∷ [])) self.new }
        ensures others { (other : ℕ) → other ≢ slot
            → slot_at bucket.new.own other ≡ slot_at bucket.old.own other }
    {
        match take_own(bucket, slot) {
            Some((key, value)) => self.pour_pair(key, value),
            None => {}
        }
    }

    /// Inserts a pair whose key is absent. The pair that is evicted for it is dropped.
    fn pour_pair(&mut self, key: K, value: V)
        requires cache { TYPE ≡ CACHE }
        requires awaits { Awaits K.eq self.old ((key, value) ∷ []) }
        ensures { Pours H.hash_of self.old ((key, value) ∷ []) self.new }
    {
        let _ = self.put(key, value);
    }
}

/// Takes the pair out of an own slot, if it is live.
fn take_own<K: Drop, V: Drop, const TYPE: u8>(
    bucket: &mut Bucket<K, V, DoublyLinkedList, TYPE>,
    slot: usize,
) -> Option<(K, V)>
    requires cache { TYPE ≡ CACHE }
    ensures pair { result ≡ live_pair (slot_at bucket.old.own slot) }
    ensures others { (other : ℕ) → other ≢ slot
        → slot_at bucket.new.own other ≡ slot_at bucket.old.own other }
{
    if bucket.own_pair(slot).is_none() {
        return None;
    }
    Some(bucket.remove(&mut EntryPtr::own_slot(slot)))
}
