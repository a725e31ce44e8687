//! Stories of a cache whose values are changed: which of the calls touch a pair, and which pair is
//! evicted then.
use super::caches::Expect::*;
use super::caches::Made::*;
use super::caches::Step::*;
use super::caches::Story;
use super::caches::Write::*;
use bucket_table::script::ScriptHash;
use test_helpers::steps;

// Under the hash 0 all keys have one bucket, of 32 own slots. Under the hash that spreads low bytes
// the keys below 128 have the first of two buckets, and those below 64 the first of four.
pub(super) const STORIES: &[Story] = steps! {
    Story { name: "iter_by_use shows each touch", hasher: ScriptHash::Zero,
        made: Within(0, 256), steps: steps! {
            PutRange(0..6), Expect(ByUse(&[5, 4, 3, 2, 1, 0])), Get(1, Some(1)),
            Expect(Value(3, Some(3))), Expect(ByUse(&[1, 5, 4, 3, 2, 0])), UpsertPresent(0, 50, 0),
            Write(ByGetMut(2, 52, Some(2))), Write(ByUpdate(4, 54, Some((4, 4)))),
            Write(ByPeekMut(5, 55, Some(5))), Expect(ByUse(&[2, 0, 1, 5, 4, 3])),
            Remove(1, Some((1, 1))), Expect(ByUse(&[2, 0, 5, 4, 3])), Expect(Len(5)),
            Put(6, 6, None), Expect(ByUse(&[6, 2, 0, 5, 4, 3])), RetainEvenAndAdd100,
            Expect(ByUse(&[6, 2, 0, 4])), Clear, Expect(ByUse(&[])) } },
    Story { name: "iter_by_use goes bucket by bucket", hasher: ScriptHash::Spread,
        made: Within(0, 0), steps: steps! {
            PutRange(128..131), PutRange(0..3), Get(129, Some(129)), Get(0, Some(0)),
            Expect(Slots(64)), Expect(ByUse(&[0, 2, 1, 129, 130, 128])) } },
    Story { name: "a smaller size evicts the least recently touched pairs of two buckets",
        hasher: ScriptHash::Spread, made: Sized(128), steps: steps! {
            PutRange(0..32), PutRange(64..74), Get(0, Some(0)), Expect(Slots(128)), Expect(Len(42)),
            Resize(64), Expect(Slots(64)), Expect(Len(32)), Expect(Value(1, None)),
            Expect(Value(10, None)), Expect(Value(11, Some(11))), Expect(Value(0, Some(0))),
            Get(64, Some(64)), Put(32, 32, Some((11, 11))), Put(33, 33, Some((12, 12))),
            PutRange(128..160), PutRangeEvicting(160..161, 128), Expect(Len(64)) } },
    Story { name: "a larger size holds more pairs, and keeps the LRU order",
        hasher: ScriptHash::Spread, made: Sized(64), steps: steps! {
            PutRange(64..96), Get(64, Some(64)), Put(0, 0, Some((65, 65))), Resize(100),
            Expect(Slots(128)), Expect(Len(32)), PutRange(65..66), PutRangeEvicting(96..97, 66),
            Get(67, Some(67)), PutRangeEvicting(97..98, 68), PutRange(1..32), Expect(Len(64)),
            Expect(Slots(128)) } },
    Story { name: "a cache keeps its size over a clear",
        hasher: ScriptHash::Spread, made: Within(0, 256), steps: steps! {
            Resize(200), Expect(Slots(256)), Expect(Len(0)), PutRange(0..32), Expect(Slots(256)),
            Clear, Expect(Slots(256)), PutRange(0..32), Expect(Slots(256)), Resize(0),
            Expect(Slots(64)), Expect(Len(32)) } },
    Story { name: "of the calls that lend a value, only get_mut touches", hasher: ScriptHash::Zero,
        made: Within(0, 256), steps: steps! {
            UpsertRange(0..32), Write(ByUpdate(0, 50, Some((0, 0)))),
            Write(ByPeekMut(1, 51, Some(1))), Write(ByGetMut(2, 52, Some(2))),
            Expect(Value(0, Some(50))), Expect(Value(1, Some(51))), Expect(Value(2, Some(52))),
            Upsert(32, 1, Some((0, 50))), Upsert(33, 1, Some((1, 51))), Upsert(34, 1, Some((3, 3))),
            Expect(Value(2, Some(52))), Expect(Len(32)) } },
    Story { name: "remove_if doesn't touch a pair that it keeps", hasher: ScriptHash::Zero,
        made: Within(0, 256), steps: steps! {
            RemoveIfAbove(0, 0, None), UpsertRange(0..32), RemoveIfAbove(0, 0, None),
            RemoveIfAbove(40, 0, None), Expect(Value(0, Some(0))), Expect(Len(32)),
            Upsert(32, 1, Some((0, 0))), RemoveIfAbove(1, 0, Some((1, 1))),
            RemoveIfAbove(1, 0, None), Expect(Value(1, None)), Expect(Len(31)), Upsert(33, 1, None),
            Upsert(34, 1, Some((2, 2))), Expect(Len(32)) } },
    Story { name: "a call on an absent key writes and touches nothing",
        hasher: ScriptHash::Zero, made: Within(0, 256), steps: steps! {
            Write(ByUpdate(9, 1, None)), Write(ByGetMut(9, 1, None)), Write(ByPeekMut(9, 1, None)),
            Expect(Len(0)), UpsertRange(0..32), Write(ByUpdate(40, 1, None)),
            Write(ByGetMut(40, 1, None)), Write(ByPeekMut(40, 1, None)), Expect(Value(40, None)),
            Upsert(32, 1, Some((0, 0))), Expect(Len(32)) } },
    Story { name: "an upsert inserts once, then replaces the value", hasher: ScriptHash::Id,
        made: Within(0, 256), steps: steps! {
            Expect(Slots(0)), Upsert(1, 10, None), Expect(Slots(64)), UpsertPresent(1, 11, 10),
            UpsertPresent(1, 12, 11), Expect(Value(1, Some(12))), Expect(Len(1)),
            Remove(1, Some((1, 12))), Upsert(1, 13, None), Expect(Len(1)) } },
    Story { name: "an upsert makes its pair the newest", hasher: ScriptHash::Zero,
        made: Within(0, 256), steps: steps! {
            UpsertRange(0..32), UpsertPresent(0, 50, 0), Upsert(32, 1, Some((1, 1))),
            UpsertPresent(32, 2, 1), UpsertPresent(2, 52, 2), Upsert(33, 1, Some((3, 3))),
            Expect(Value(0, Some(50))), Expect(Value(2, Some(52))), Expect(Value(32, Some(2))),
            Expect(Len(32)) } },
    Story { name: "a missing value is made, and its pair is touched",
        hasher: ScriptHash::Zero, made: Within(0, 256), steps: steps! {
            GetOrInsert(0, 1000, None), GetOrInsert(0, 1000, None), Expect(Len(1)),
            Remove(0, Some((0, 1000))), UpsertRange(0..32), GetOrInsert(0, 0, None),
            GetOrInsert(32, 1032, Some((1, 1))), GetOrInsert(32, 1032, None),
            GetOrInsert(2, 2, None), GetOrInsert(33, 1033, Some((3, 3))), Expect(Value(0, Some(0))),
            Expect(Value(2, Some(2))), Expect(Value(33, Some(1033))), Expect(Len(32)) } },
    // The keys that are left are evicted in LRU order, once their bucket is full again.
    Story { name: "retained pairs keep their LRU order", hasher: ScriptHash::Zero,
        made: Within(0, 256), steps: steps! {
            RetainEvenAndAdd100, Expect(Len(0)), UpsertRange(0..32),
            Write(ByGetMut(0, 50, Some(0))), RetainEvenAndAdd100, Expect(Len(16)),
            Expect(Value(1, None)), Expect(Value(0, Some(150))), Expect(Value(30, Some(130))),
            UpsertRange(41..57), Expect(Len(32)), Upsert(57, 1, Some((2, 102))),
            Upsert(58, 1, Some((4, 104))), UpsertPresent(6, 1, 106), Upsert(59, 1, Some((8, 108))),
            Expect(Len(32)) } },
    Story { name: "a promoted pair is the newest", hasher: ScriptHash::Zero,
        made: Within(0, 256), steps: steps! {
            Promote(1, false), PutRange(0..4), Promote(1, true), Expect(ByUse(&[1, 3, 2, 0])),
            Promote(9, false), Expect(ByUse(&[1, 3, 2, 0])), Remove(1, Some((1, 1))),
            Promote(1, false), PutRange(4..33), Promote(0, true), Expect(Value(0, Some(0))),
            Put(33, 1, Some((2, 2))), Expect(Len(32)) } },
    Story { name: "a pair is promoted during a growth", hasher: ScriptHash::Spread,
        made: Within(0, 100), steps: steps! {
            PutRange(0..31), PutRange(128..159), Expect(Slots(64)), PutRange(31..32),
            Expect(Slots(128)), Promote(0, true), Promote(32, false), Put(32, 320, Some((1, 1))),
            Expect(Value(0, Some(0))), Expect(Len(63)) } },
    // The keys are evicted in the order in which they were put.
    Story { name: "for_each_mut writes each value, and touches none", hasher: ScriptHash::Zero,
        made: Within(0, 256), steps: steps! {
            Write(Add100ToAll), Expect(Len(0)), UpsertRange(0..32), Write(Add100ToAll),
            Expect(Len(32)), Expect(Value(0, Some(100))), Expect(Value(31, Some(131))),
            Upsert(32, 1, Some((0, 100))), Write(Add100ToAll), Expect(Value(32, Some(101))),
            Upsert(33, 1, Some((1, 201))), Expect(Len(32)) } },
    Story { name: "calls during a growth find pairs in either array",
        hasher: ScriptHash::Spread, made: Within(0, 100), steps: steps! {
            UpsertRange(0..31), UpsertRange(128..159), Expect(Slots(64)),
            Write(ByGetMut(0, 50, Some(0))), Write(ByGetMut(128, 51, Some(128))),
            UpsertRange(31..32), Expect(Slots(128)), Expect(Len(63)),
            Write(ByGetMut(1, 52, Some(1))), Write(ByUpdate(2, 53, Some((2, 2)))),
            Write(ByPeekMut(150, 54, Some(150))), UpsertPresent(140, 55, 140),
            Upsert(32, 1, Some((2, 53))), UpsertPresent(3, 56, 3), Upsert(33, 1, Some((4, 4))),
            Expect(Value(0, Some(50))), Expect(Value(1, Some(52))), Expect(Value(3, Some(56))),
            Expect(Value(128, Some(51))), Expect(Value(140, Some(55))),
            Expect(Value(150, Some(54))), Expect(Len(63)), RetainEvenAndAdd100, Expect(Len(31)),
            Expect(Value(0, Some(150))), Expect(Value(128, Some(151))), Expect(Value(129, None)),
            Expect(Slots(128)) } }
};
