//! An iterator over the pairs of a cache's arrays, bucket by bucket, those of each in LRU order.
//!
//! The own slots of a bucket come first, starting with the one touched last, and then its chain.
ghost use Rattle.std.specs.Prelude.{◌≡◌, ◌∷◌, MatchOption, drop};
ghost use Rattle.std.specs.Iterator.{YieldsFirstBy, item_count};
ghost use Rattle.bucket_slots.specs.ByUse.{pairs_by_use};
ghost use Rattle.bucket_slots.specs.Walking.{IsEnd, pairs_ahead};
ghost use Rattle.bucket_table.specs.Map.LookingUp.{lent_buckets};
ghost use Rattle.bucket_table.specs.Walking.ByUse.{all_by_use, arrays_by_use, left_of, own_left};

use super::Arrays;
use bucket_slots::bucket::{BUCKET_LEN, Bucket, CACHE, EntryPtr};
use bucket_slots::bucket_array::BucketArray;
use bucket_slots::lru::DoublyLinkedList;
use std::iter::FusedIterator;
use std::marker::Model;

/// The remaining pairs of a bucket: those of its own slots in LRU order, from an index on, then
/// those past a place.
#[derive(Drop)]
pub struct BucketByUse<'a, K, V> {
    bucket: &'a Bucket<K, V, DoublyLinkedList, CACHE>,
    slots: [u8; BUCKET_LEN],
    given: usize,
    at: EntryPtr<K, V, CACHE>,
}

impl<'a, K, V> Model for BucketByUse<'a, K, V> {
    ghost use Rattle.std.specs.Prelude.{List, ◌++◌, drop};
    ghost use Rattle.bucket_slots.specs.Walking.{pairs_ahead};
    ghost use Rattle.bucket_table.specs.Walking.ByUse.{own_left};

    ghost Value = { List (K × V) };

    ghost view = { λ pairs. own_left pairs.bucket.now (drop pairs.given pairs.slots)
        ++ pairs_ahead pairs.bucket.now pairs.at };
}

impl<'a, K, V> BucketByUse<'a, K, V> {
    /// Begins with all pairs of a bucket.
    fn new(bucket: &'a Bucket<K, V, DoublyLinkedList, CACHE>) -> Self
        ensures { result ≡ pairs_by_use bucket.now }
    {
        bucket.fact_sound();
        BucketByUse {
            bucket,
            slots: bucket.slots_by_use(),
            given: 0,
            at: EntryPtr::own_slot(BUCKET_LEN - 1),
        }
    }

    /// Returns the next pair. The array is passed since it states that its buckets fit in memory.
    fn next_pair(
        &mut self,
        array: &BucketArray<K, V, DoublyLinkedList, CACHE>,
    ) -> Option<(&'a K, &'a V)>
        ensures { YieldsFirstBy (λ pair. (pair.0.now, pair.1.now)) (λ left. left) self.old result
            self.new }
    {
        array.fact_room();
        let bucket = self.bucket;
        match own_past(bucket, &self.slots, &mut self.given) {
            Some((key, value)) => Some((key, value)),
            None => {
                let mut ahead = self.at.clone();
                match pair_past(bucket, &mut ahead) {
                    Some((key, value)) => {
                        self.at = ahead;
                        Some((key, value))
                    }
                    None => None,
                }
            }
        }
    }
}

/// Moves a pointer to the next live slot of a bucket, and returns that slot's pair. At the end the
/// pointer becomes null, and the result is `None`.
#[inline(always)]
fn pair_past<'b, K, V>(
    bucket: &'b Bucket<K, V, DoublyLinkedList, CACHE>,
    at: &mut EntryPtr<K, V, CACHE>,
) -> Option<(&'b K, &'b V)>
    ensures { MatchOption result (IsEnd bucket.now at.old at.new)
        (λ pair. pairs_ahead bucket.now at.old
        ≡ (pair.0.now, pair.1.now) ∷ pairs_ahead bucket.now at.new) }
{
    if at.find_next(bucket) {
        Some(bucket.entry(at))
    } else {
        None
    }
}

/// Returns the pair of the next live own slot among those in `slots`, from an index on.
fn own_past<'b, K, V>(
    bucket: &'b Bucket<K, V, DoublyLinkedList, CACHE>,
    slots: &[u8; BUCKET_LEN],
    given: &mut usize,
) -> Option<(&'b K, &'b V)>
    ensures { YieldsFirstBy (λ pair. (pair.0.now, pair.1.now))
        (λ given. own_left bucket.now (drop given slots.now)) given.old result given.new }
{
    'slots: while *given < BUCKET_LEN {
        let slot = slots[*given] as usize;
        *given += 1;
        match bucket.own_pair(slot) {
            Some((key, value)) => return Some((key, value)),
            None => {}
        }
    }
    None
}

/// The remaining pairs of an array: those of a bucket, and of the buckets from an index on.
#[derive(Drop)]
pub struct ArrayByUse<'a, K, V> {
    array: &'a BucketArray<K, V, DoublyLinkedList, CACHE>,
    here: BucketByUse<'a, K, V>,
    next: usize,
}

impl<'a, K, V> Model for ArrayByUse<'a, K, V> {
    ghost use Rattle.std.specs.Prelude.{List, ◌++◌, drop};
    ghost use Rattle.bucket_table.specs.Walking.ByUse.{all_by_use};

    ghost Value = { List (K × V) };

    ghost view = { λ pairs. pairs.here ++ all_by_use (drop pairs.next pairs.array.now) };
}

impl<'a, K, V> ArrayByUse<'a, K, V> {
    /// Begins with all pairs of an array.
    fn new(array: &'a BucketArray<K, V, DoublyLinkedList, CACHE>) -> Self
        ensures { result ≡ all_by_use array.now }
    {
        array.fact_room();
        ArrayByUse {
            array,
            here: BucketByUse::new(array.bucket(0)),
            next: 1,
        }
    }

    /// Returns the next pair.
    fn next_pair(&mut self) -> Option<(&'a K, &'a V)>
        ensures { YieldsFirstBy (λ pair. (pair.0.now, pair.1.now)) (λ left. left) self.old result
            self.new }
    {
        'buckets: loop {
            self.array.fact_room();
            match self.here.next_pair(self.array) {
                Some((key, value)) => return Some((key, value)),
                None => {}
            }
            if self.next >= self.array.len() {
                return None;
            }
            self.here = BucketByUse::new(self.array.bucket(self.next));
            self.next += 1;
        }
    }
}

/// The remaining pairs of the arrays, those of the current one first.
#[derive(Drop)]
pub struct PairsByUse<'a, K, V> {
    current: Option<ArrayByUse<'a, K, V>>,
    linked: Option<ArrayByUse<'a, K, V>>,
}

impl<'a, K, V> Model for PairsByUse<'a, K, V> {
    ghost use Rattle.std.specs.Prelude.{List, ◌++◌};
    ghost use Rattle.bucket_table.specs.Walking.ByUse.{left_of};

    ghost Value = { List (K × V) };

    ghost view = { λ pairs. left_of pairs.current ++ left_of pairs.linked };
}

impl<'a, K, V> PairsByUse<'a, K, V> {
    /// Begins with all pairs of the arrays.
    pub(crate) fn new(arrays: &'a Arrays<K, V, DoublyLinkedList, CACHE>) -> Self
        ensures { result ≡ arrays_by_use arrays.now }
    {
        PairsByUse {
            current: pairs_on(arrays.array()),
            linked: pairs_on(arrays.linked_array()),
        }
    }
}

impl<'a, K, V> Iterator for PairsByUse<'a, K, V> {
    type Item = (&'a K, &'a V);

    ghost next_gives = { YieldsFirstBy (λ pair. (pair.0.now, pair.1.now)) (λ left. left) };

    ghost remaining = { item_count (λ left. left) };

    fn next(&mut self) -> Option<(&'a K, &'a V)> {
        match next_of(&mut self.current) {
            Some(pair) => Some(pair),
            None => next_of(&mut self.linked),
        }
    }
}

impl<'a, K, V> FusedIterator for PairsByUse<'a, K, V> {}

/// Returns the next pair of an array.
fn next_of<'a, K, V>(pairs: &mut Option<ArrayByUse<'a, K, V>>) -> Option<(&'a K, &'a V)>
    ensures { YieldsFirstBy (λ pair. (pair.0.now, pair.1.now)) left_of pairs.old result pairs.new }
{
    match pairs {
        Some(left) => left.next_pair(),
        None => None,
    }
}

/// Begins with all pairs of an array.
fn pairs_on<'a, K, V>(
    side: Option<&'a BucketArray<K, V, DoublyLinkedList, CACHE>>,
) -> Option<ArrayByUse<'a, K, V>>
    ensures { left_of result ≡ all_by_use (lent_buckets side.entry) }
{
    match side {
        None => None,
        Some(array) => Some(ArrayByUse::new(array)),
    }
}
