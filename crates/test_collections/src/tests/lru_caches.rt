//! What the tests of the crate `lru` check: the same calls on this cache, with the same answers. A
//! comment names the test, and the capacity of its cache if a pair is evicted. All keys have one
//! bucket, of 32 own slots: keys from 100 on fill it up to that capacity, and are touched before a
//! pair is to be evicted.
use super::caches::Expect::*;
use super::caches::Made::*;
use super::caches::Step::*;
use super::caches::Story;
use super::caches::Write::*;
use bucket_table::script::ScriptHash;
use test_helpers::steps;

// Of the words in those tests apple is 1, banana 2, pear 3 and lemon 4; red is 10, yellow 20 and
// green 30.
pub(super) const STORIES: &[Story] = steps! {
    // test_put_and_get
    Story { name: "get returns what was put", hasher: ScriptHash::Zero, made: Within(0, 256),
        steps: steps! {
            Expect(Len(0)), Upsert(1, 10, None), Upsert(2, 20, None), Expect(Len(2)),
            Get(1, Some(10)), Get(2, Some(20)) } },
    // test_put_and_get_or_insert, 2 pairs
    Story { name: "only a missing value is made", hasher: ScriptHash::Zero,
        made: Within(0, 256), steps: steps! {
            UpsertRange(100..130), Upsert(1, 10, None), Upsert(2, 20, None), Expect(Len(32)),
            GetOrInsert(1, 10, None), GetOrInsert(2, 20, None), GetRange(100..130),
            GetOrInsert(4, 1004, Some((1, 10))), GetOrInsert(4, 1004, None), Expect(Len(32)) } },
    // test_get_mut_and_update
    Story { name: "a lent value is written", hasher: ScriptHash::Zero, made: Within(0, 256),
        steps: steps! {
            Upsert(1, 1, None), Upsert(2, 3, None), Write(ByGetMut(1, 4, Some(1))), Expect(Len(2)),
            Write(ByGetMut(1, 4, Some(4))), Write(ByGetMut(2, 3, Some(3))) } },
    // test_put_update
    Story { name: "a second value replaces the first", hasher: ScriptHash::Zero,
        made: Within(0, 256), steps: steps! {
            Upsert(1, 10, None), UpsertPresent(1, 30, 10), Expect(Len(1)), Get(1, Some(30)) } },
    // test_put_removes_oldest, 2 pairs
    Story { name: "the oldest is evicted, and inserted again", hasher: ScriptHash::Zero,
        made: Within(0, 256), steps: steps! {
            UpsertRange(100..130), Upsert(1, 10, None), Upsert(2, 20, None), GetRange(100..130),
            Upsert(3, 30, Some((1, 10))), Get(1, None), Get(2, Some(20)), Get(3, Some(30)),
            GetRange(100..130), Upsert(1, 30, Some((2, 20))), GetRange(100..130),
            Upsert(5, 10, Some((3, 30))), Get(3, None), Get(1, Some(30)), Get(5, Some(10)) } },
    // test_peek, test_contains, 2 pairs
    Story { name: "a peek touches no pair", hasher: ScriptHash::Zero, made: Within(0, 256),
        steps: steps! {
            UpsertRange(100..130), Upsert(1, 10, None), Upsert(2, 20, None),
            Expect(Value(2, Some(20))), Expect(Value(1, Some(10))), GetRange(100..130),
            Upsert(3, 30, Some((1, 10))), Expect(Value(1, None)), Expect(Value(2, Some(20))),
            Expect(Value(3, Some(30))) } },
    // test_peek_mut, 2 pairs
    Story { name: "peek_mut touches no pair", hasher: ScriptHash::Zero,
        made: Within(0, 256), steps: steps! {
            UpsertRange(100..130), Upsert(1, 10, None), Upsert(2, 20, None),
            Write(ByPeekMut(2, 20, Some(20))), Write(ByPeekMut(1, 10, Some(10))),
            Write(ByPeekMut(3, 30, None)), GetRange(100..130), Upsert(3, 30, Some((1, 10))),
            Write(ByPeekMut(1, 10, None)), Write(ByPeekMut(2, 20, Some(20))),
            Write(ByPeekMut(3, 30, Some(30))), Write(ByPeekMut(2, 30, Some(20))),
            Expect(Value(2, Some(30))) } },
    // test_pop, test_pop_entry
    Story { name: "a pair is popped once", hasher: ScriptHash::Zero, made: Within(0, 256),
        steps: steps! {
            Upsert(1, 10, None), Upsert(2, 20, None), Expect(Len(2)), Get(1, Some(10)),
            Get(2, Some(20)), Remove(1, Some((1, 10))), Expect(Len(1)), Get(1, None),
            Get(2, Some(20)), Remove(1, None), Expect(Len(1)) } },
    // test_iter_forwards
    Story { name: "iter_by_use begins with the newest pair", hasher: ScriptHash::Zero,
        made: Within(0, 256), steps: steps! {
            Expect(ByUse(&[])), UpsertRange(1..4), Expect(Len(3)), Expect(ByUse(&[3, 2, 1])) } },
    // test_resize_larger, 2 pairs that become 4: of one home of four buckets, and of another
    Story { name: "a larger cache holds more pairs", hasher: ScriptHash::Spread,
        made: Sized(64), steps: steps! {
            UpsertRange(30..62), Upsert(64, 1, Some((30, 30))), Upsert(65, 2, Some((31, 31))),
            Resize(128), Upsert(66, 3, None), Upsert(67, 4, None), Expect(Len(34)),
            Get(64, Some(1)), Get(65, Some(2)), Get(66, Some(3)), Get(67, Some(4)) } },
    // test_resize_smaller, 4 pairs of which 2 are evicted
    Story { name: "a smaller cache evicts the oldest pairs", hasher: ScriptHash::Spread,
        made: Sized(128), steps: steps! {
            UpsertRange(0..4), UpsertRange(64..94), Resize(64), Expect(Len(32)), Get(0, None),
            Get(1, None), Get(2, Some(2)), Get(3, Some(3)) } },
    // test_clear
    Story { name: "a cleared cache is empty", hasher: ScriptHash::Zero, made: Within(0, 256),
        steps: steps! {
            Upsert(1, 10, None), Upsert(2, 20, None), Expect(Len(2)), Get(1, Some(10)),
            Get(2, Some(20)), Clear, Expect(Len(0)), Get(1, None) } },
    // test_that_pop_actually_detaches_node, 5 pairs
    Story { name: "popping a pair keeps the others' order", hasher: ScriptHash::Zero,
        made: Within(0, 256), steps: steps! {
            UpsertRange(100..127), UpsertRange(1..6), Remove(3, Some((3, 3))), Upsert(6, 6, None),
            Expect(Len(32)), GetRange(100..127), Upsert(7, 1, Some((1, 1))),
            Upsert(8, 1, Some((2, 2))), Upsert(9, 1, Some((4, 4))), Upsert(10, 1, Some((5, 5))),
            Upsert(11, 1, Some((6, 6))), Upsert(12, 1, Some((100, 100))) } }
};
