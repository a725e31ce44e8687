//! The calls of a script that visit all buckets.
ghost use Rattle.bucket_slots.specs.BucketView.{BucketView};
ghost use Rattle.bucket_table.specs.Scripts.Calls.{Step};
ghost use Rattle.bucket_table.specs.Scripts.Tallying.{Empties};
ghost use Rattle.bucket_table.specs.Walking.Walks.{KeepsBuckets};
ghost use Rattle.bucket_table.specs.Map.MapState.{state_of};
ghost use Rattle.bucket_table.specs.Scripts.TicketCalls.{TicketStep, rehash_of};

use super::call::Call;
use super::reply::Reply;
use crate::hash_table::HashTable;
use crate::key_hash::KeyHash;
use crate::retain::retain_in;
use crate::visit::{Read, Visit};
use bucket_slots::bucket::{Bucket, Generation};
use bucket_slots::lru::LruList;

/// A visitor that counts the buckets that it is lent, and their pairs.
#[derive(Drop)]
struct Tally {
    buckets: usize,
    pairs: usize,
}

impl<K, V, L: LruList, const TYPE: u8> Read<Bucket<K, V, L, TYPE>> for Tally {
    ghost use Rattle.bucket_table.specs.Scripts.Tallying.{Tallies};

    ghost may_read = { λ _. Unit {0} };

    ghost reads = { λ tally lent more after.
        Tallies tally.buckets tally.pairs lent more after.buckets after.pairs };

    fn read(&mut self, bucket: &Bucket<K, V, L, TYPE>) -> bool {
        self.buckets = self.buckets.saturating_add(1);
        self.pairs = self.pairs.saturating_add(bucket.len());
        true
    }
}

/// A visitor that removes all pairs of the buckets that it is lent and counts them. In an index
/// they become tombstones.
#[derive(Drop)]
struct Emptier<'a, G> {
    generation: &'a G,
    count: usize,
}

impl<'a, K: Drop, V: Drop, L: LruList, G: Generation, const TYPE: u8> Visit<Bucket<K, V, L, TYPE>>
    for Emptier<'a, G> {
    ghost use Rattle.bucket_table.specs.Scripts.Tallying.{Empties};

    ghost may_visit = { λ _. Unit {0} };

    ghost visits = { λ emptier lent flag more left last after.
        Empties TYPE (G.epoch_of emptier.generation.now) emptier.count lent flag more left last
        after.count };

    fn visit(&mut self, bucket: &mut Bucket<K, V, L, TYPE>, flag: &mut bool) -> bool {
        let keep = |_key: &K, _value: &V| false;
        let taken = retain_in(bucket, &keep, self.generation);
        self.count = self.count.saturating_add(taken);
        *flag |= taken > 0;
        true
    }
}

/// Visits all buckets, and counts them and their pairs.
pub(super) fn walk<K: Eq + Copy, V: Copy, H: KeyHash<K>, L: LruList + Drop, const TYPE: u8>(
    table: &mut HashTable<K, V, H, L, TYPE>,
) -> Reply<K, V>
    ensures step { Step K.eq H.hash_of (state_of TYPE table.old) Call.Walk result
        (state_of TYPE table.new) }
    ensures tickets { TicketStep (rehash_of table.old.arrays) Call.Walk result
        (rehash_of table.new.arrays) }
{
    table.fact_sound();
    if table.num_slots() == 0 {
        return Reply::Walked(0, 0);
    }
    table.fact_room();
    let mut tally = Tally {
        buckets: 0,
        pairs: 0,
    };
    match table.for_each_reader_sync(&mut tally) {
        Ok(()) => Reply::Walked(tally.buckets, tally.pairs),
        Err(_) => Reply::Refused,
    }
}

/// States that an `Emptier` does what a walk requires of its visitor; does nothing at run time.
fn empties_keep<K, V, G: Generation, const TYPE: u8>()
    ensures { KeepsBuckets
        (λ (emptier : Emptier G) (lent : BucketView K V) flag more left last after.
        Empties TYPE (G.epoch_of emptier.generation.now) emptier.count lent flag more left last
        after.count) }
{}

/// Removes all pairs. In an index they become tombstones.
pub(super) fn clear<
    K: Eq + Copy,
    V: Copy,
    H: KeyHash<K>,
    L: LruList + Drop,
    G: Generation,
    const TYPE: u8,
>(table: &mut HashTable<K, V, H, L, TYPE>, generation: &G) -> Reply<K, V>
    ensures step { Step K.eq H.hash_of (state_of TYPE table.old) Call.Clear result
        (state_of TYPE table.new) }
    ensures tickets { TicketStep (rehash_of table.old.arrays) Call.Clear result
        (rehash_of table.new.arrays) }
{
    table.fact_sound();
    if table.num_slots() == 0 {
        return Reply::Cleared(0);
    }
    table.fact_room();
    empties_keep::<K, V, G, TYPE>();
    let mut emptier = Emptier {
        generation,
        count: 0,
    };
    match table.for_each_writer_sync(0, 0, &mut emptier) {
        Ok(()) => Reply::Cleared(emptier.count),
        Err(_) => Reply::Refused,
    }
}
