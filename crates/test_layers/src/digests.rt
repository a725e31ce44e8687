//! Calls that change a bucket leave its digest fresh, though a loan of the bucket makes it stale.
//! No clause says so: a stale digest only makes the next look-up read the bucket.
ghost use Rattle.std.specs.Prelude.{◌≤◌};

use crate::by_lock::{Table, put_at};
use crate::checks::check_same;
use crate::tables::new_map;
use Call::*;
use bucket_slots::bucket::{BUCKET_LEN, CACHE, EqProbe, INDEX};
use bucket_slots::lru::{DoublyLinkedList, LruList};
use bucket_table::hash_table::{HashTable, MAXIMUM_CAPACITY_LIMIT, ResizeRule};
use bucket_table::script::ScriptHash;
use std::alloc::Global;
use std::process::Abort;
use std::test::Fail;

/// A call that changes the bucket of keys 1 and 2, of which it contains key 1. The table has eight
/// buckets, since an array of four or fewer has no digests.
#[derive(Debug, Drop)]
enum Call {
    /// Insert key 2.
    Insert,
    /// Insert key 2 by `upsert`.
    Upsert,
    /// Insert key 2 where a search found no pair.
    PutVacant,
    /// Put key 2.
    Put,
    /// Replace the pair of key 1.
    Replace,
    /// Remove key 1.
    Take,
    /// Make key 1 a tombstone.
    Mark,
    /// Remove all pairs by `retain`.
    Retain,
}

#[test]
fn calls_on_a_map_leave_a_digest_fresh(rt: HostRuntime) -> Result<(), Fail> {
    for call in &[Insert, Upsert, Replace, Take, Retain] {
        let mut map = new_map(rt.alloc(), ScriptHash::Spread, 256);
        insert_first(&rt, &mut map, call);
        let done = match call {
            Insert => map.insert_pair(2, 2, &(), ResizeRule::Sampled).is_ok(),
            Upsert => map.upsert(2, 2, &(), ResizeRule::Sampled).is_ok(),
            Replace => map.replace(1, 10).is_ok(),
            Take => map.take(&1, ResizeRule::Sampled).is_some(),
            Retain => map.retain(&mut is_kept, &()) == 1,
            PutVacant | Put | Mark => false,
        };
        check_same(&rt, (done, is_fresh(&map)), (true, true), call);
    }
    Ok(())
}

#[test]
fn calls_on_an_index_leave_a_digest_fresh(rt: HostRuntime) -> Result<(), Fail> {
    for call in &[Insert, Mark] {
        let mut index = new_index(rt.alloc(), 256);
        insert_first(&rt, &mut index, call);
        let done = match call {
            Insert => index.insert_pair(2, 2, &(), ResizeRule::Sampled).is_ok(),
            Mark => index.mark(&1, &(), ResizeRule::Sampled, is_read).is_some(),
            Upsert | PutVacant | Put | Replace | Take | Retain => false,
        };
        check_same(&rt, (done, is_fresh(&index)), (true, true), call);
    }
    Ok(())
}

#[test]
fn calls_on_a_cache_leave_a_digest_fresh(rt: HostRuntime) -> Result<(), Fail> {
    for call in &[Put, PutVacant, Take, Retain] {
        let mut cache = new_cache(rt.alloc(), 256);
        insert_first(&rt, &mut cache, call);
        let done = match call {
            Put => cache.put(2, 2).is_ok(),
            PutVacant => {
                let hash = cache.hash(&2);
                match cache.touch_place(hash, &mut EqProbe::new(&2)) {
                    Ok(_) => false,
                    Err(home) => cache.put_vacant(home, hash, 2, 2).is_ok(),
                }
            }
            Take => cache.take(&1, ResizeRule::Sampled).is_some(),
            Retain => cache.retain(&mut is_kept, &()) == 1,
            Insert | Upsert | Replace | Mark => false,
        };
        check_same(&rt, (done, is_fresh(&cache)), (true, true), call);
    }
    Ok(())
}

fn new_index(alloc: Global, minimum: usize) -> Table<(), INDEX>
    requires { minimum ≤ 4096 }
{
    HashTable::new(alloc, ScriptHash::Spread, minimum, MAXIMUM_CAPACITY_LIMIT)
}

fn new_cache(alloc: Global, minimum: usize) -> Table<DoublyLinkedList, CACHE>
    requires { minimum ≤ 4096 }
{
    HashTable::new(alloc, ScriptHash::Spread, minimum, MAXIMUM_CAPACITY_LIMIT)
}

// Inserts key 1 through a locked bucket.
fn insert_first<L: LruList + Drop, const TYPE: u8>(
    rt: &impl Abort,
    table: &mut Table<L, TYPE>,
    call: &Call,
) {
    let is_in = put_at(table, 1, &()).is_some();
    check_same(rt, (is_in, is_fresh(table)), (true, true), call);
}

// Whether the digest of the bucket of keys 1 and 2 is fresh. A stale digest shows no free slot.
fn is_fresh<L: LruList, const TYPE: u8>(table: &Table<L, TYPE>) -> bool {
    let index = match table.array() {
        Some(array) => array.bucket_index(table.hash(&1)),
        None => return false,
    };
    match table.array() {
        Some(array) => array.has_fewer(index, BUCKET_LEN as u32),
        None => false,
    }
}

fn is_kept(_key: &u64, _value: &mut u64) -> bool {
    false
}

fn is_read(_key: &u64, _value: &u64) {}
