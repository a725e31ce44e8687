//! Stories of a cache of numbers: which pair is evicted for another, and how many slots there are.
use super::caches::Expect::*;
use super::caches::Made::*;
use super::caches::Step::*;
use super::caches::{Cache, Story, play, put};
use super::{cache_changes, check_same, lru_caches};
use bucket_table::script::ScriptHash;
use collections::hash_cache::HashCache;
use std::test::Fail;
use test_helpers::{spread, steps};

// Under the hash 0 all keys have one bucket, of 32 own slots. Each pair that comes to it when it is
// full doubles the slots, up to the maximum, and evicts a pair all the same. Under the hash that
// spreads low bytes the keys below 128 have the first of two buckets, and those below 64 the first
// of four.
const STORIES: &[Story] = steps! {
    Story { name: "a full bucket evicts its least recent pair", hasher: ScriptHash::Zero,
        made: Within(0, 256), steps: steps! {
            Expect(Slots(0)), PutRange(0..32), Expect(Slots(64)), Expect(Len(32)), Get(0, Some(0)),
            Put(32, 320, Some((1, 1))), Expect(Slots(128)), Expect(Len(32)), Expect(Value(1, None)),
            Expect(Value(0, Some(0))), Expect(Value(32, Some(320))), Put(33, 330, Some((2, 2))),
            Expect(Slots(256)), Get(3, Some(3)), Put(34, 340, Some((4, 4))),
            Expect(Value(3, Some(3))), Expect(Slots(256)), Expect(Len(32)) } },
    // A full home of two buckets is one of four that has half of its pairs.
    Story { name: "slots are doubled before a pair is evicted", hasher: ScriptHash::Spread,
        made: Within(0, 128), steps: steps! {
            PutRange(32..64), Expect(Slots(64)), PutRange(64..96), Expect(Slots(128)),
            Expect(Len(64)), Put(0, 1, Some((32, 32))), Expect(Slots(128)), Expect(Len(64)) } },
    // The keys 3 to 31 are evicted first, then the touched ones, and then those that were put for
    // them.
    Story { name: "pairs are evicted in LRU order", hasher: ScriptHash::Zero,
        made: Within(0, 256), steps: steps! {
            PutRange(0..32), Get(2, Some(2)), Get(0, Some(0)), Get(1, Some(1)), Get(0, Some(0)),
            PutRangeEvicting(32..61, 3), Put(61, 61, Some((2, 2))), Put(62, 62, Some((1, 1))),
            Put(63, 63, Some((0, 0))), PutRangeEvicting(64..100, 32), Expect(Len(32)) } },
    Story { name: "a look-up or a rejected put touches no pair", hasher: ScriptHash::Zero,
        made: Within(0, 256), steps: steps! {
            PutRange(0..32), Expect(Value(0, Some(0))), PutPresent(0, 9), Expect(Value(0, Some(0))),
            Expect(Len(32)), Get(99, None), Remove(99, None), Put(32, 1, Some((0, 0))),
            Expect(Value(1, Some(1))), PutPresent(1, 9), Put(33, 1, Some((1, 1))) } },
    Story { name: "a removed pair frees its slot for the next one", hasher: ScriptHash::Zero,
        made: Within(0, 256), steps: steps! {
            Remove(0, None), PutRange(0..32), Remove(5, Some((5, 5))), Remove(5, None),
            Remove(0, Some((0, 0))), Get(5, None), Expect(Len(30)), PutRange(40..42),
            Expect(Len(32)), Put(42, 1, Some((1, 1))), Remove(42, Some((42, 1))), Put(0, 7, None),
            Expect(Value(0, Some(7))), Put(43, 1, Some((2, 2))), Expect(Len(32)) } },
    Story { name: "a cleared cache is filled again", hasher: ScriptHash::Zero,
        made: Within(100, 0), steps: steps! {
            PutRange(0..32), Expect(Slots(128)), Get(0, Some(0)), Clear, Expect(Len(0)),
            Expect(Slots(128)), Expect(Value(0, None)), Get(1, None), Clear, PutRange(0..32),
            Expect(Slots(128)), Expect(Len(32)), Put(32, 1, Some((0, 0))) } },
    Story { name: "a cache of 64 slots doesn't grow", hasher: ScriptHash::Spread,
        made: Within(0, 0), steps: steps! {
            Expect(Slots(0)), PutRange(0..32), Expect(Slots(64)), PutRangeEvicting(32..40, 0),
            PutRange(128..160), PutRangeEvicting(160..170, 128), Expect(Slots(64)), Expect(Len(64)),
            Expect(Value(7, None)), Expect(Value(8, Some(8))), Expect(Value(137, None)),
            Expect(Value(138, Some(138))) } },
    Story { name: "the maximum is rounded up to a power of two no less than the minimum",
        hasher: ScriptHash::Spread, made: Within(100, 64), steps: steps! {
            PutRange(0..32), Expect(Slots(128)), PutRange(64..96), PutRangeEvicting(32..64, 0),
            PutRange(128..160), PutRange(192..224), Expect(Slots(128)), Expect(Len(128)),
            PutRangeEvicting(224..256, 192), Expect(Slots(128)), Expect(Len(128)) } },
    Story { name: "a growth keeps the LRU order", hasher: ScriptHash::Spread,
        made: Within(0, 100), steps: steps! {
            PutRange(0..31), PutRange(128..159), Expect(Slots(64)), Get(0, Some(0)),
            Get(128, Some(128)), PutRange(31..32), Expect(Slots(128)), Expect(Len(63)),
            Get(1, Some(1)), Get(32, None), Put(32, 320, Some((2, 2))), Put(33, 330, Some((3, 3))),
            PutPresent(31, 1), Expect(Len(63)), PutRange(159..160), Put(160, 1, Some((129, 129))),
            Remove(31, Some((31, 31))), Expect(Value(30, Some(30))), Expect(Value(128, Some(128))),
            Expect(Slots(128)), Expect(Len(63)) } },
    // A cache has its size from the first pair on: the least sufficient power of two, at least 64.
    Story { name: "size 0 makes 64", hasher: ScriptHash::Spread, made: Sized(0), steps: steps! {
        Expect(Slots(0)), Put(1, 1, None), Expect(Slots(64)), Remove(1, Some((1, 1))),
        Expect(Slots(64)) } },
    Story { name: "size 64 makes 64", hasher: ScriptHash::Spread, made: Sized(64), steps: steps! {
        Expect(Slots(0)), Put(1, 1, None), Expect(Slots(64)), Remove(1, Some((1, 1))),
        Expect(Slots(64)) } },
    Story { name: "size 65 makes 128", hasher: ScriptHash::Spread, made: Sized(65), steps: steps! {
        Expect(Slots(0)), Put(1, 1, None), Expect(Slots(128)), Remove(1, Some((1, 1))),
        Expect(Slots(128)) } },
    Story { name: "size 1000 makes 1024", hasher: ScriptHash::Spread, made: Sized(1000),
        steps: steps! {
            Expect(Slots(0)), Put(1, 1, None), Expect(Slots(1024)), Remove(1, Some((1, 1))),
            Expect(Slots(1024)) } },
    Story { name: "size 1024 makes 1024", hasher: ScriptHash::Spread, made: Sized(1024),
        steps: steps! {
            Expect(Slots(0)), Put(1, 1, None), Expect(Slots(1024)), Remove(1, Some((1, 1))),
            Expect(Slots(1024)) } }
};

#[test]
fn caches_go_through_their_stories(rt: HostRuntime) -> Result<(), Fail> {
    for stories in [STORIES, cache_changes::STORIES, lru_caches::STORIES] {
        play(&rt, rt.alloc(), stories);
    }
    Ok(())
}

// Each of eight homes has more than 32 of the 1000 keys. Each key is present right after it was
// put.
#[test]
fn a_cache_has_at_most_256_slots_unless_told(rt: HostRuntime) -> Result<(), Fail> {
    let mut cache: Cache = HashCache::with_hasher(rt.alloc(), ScriptHash::Id);
    let mut gone: usize = 0;
    for number in 0..1000u64 {
        let key = spread(number);
        match put(&mut cache, key, number) {
            Some(Ok(None)) => {}
            Some(Ok(Some(_))) => gone = gone.saturating_add(1),
            _ => check_same(&rt, true, false, (number, "put")),
        }
        check_same(&rt, cache.get(&key).copied(), Some(number), number);
    }
    let found = (cache.capacity(), cache.len(), gone);
    check_same(&rt, found, (256, 256, 744), "slots");
    Ok(())
}
