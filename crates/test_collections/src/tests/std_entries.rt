//! What the standard library's tests of a map's entries check: the same calls on this map, with the
//! same answers. A comment names the test.
use super::entries::Expect::*;
use super::entries::Step::*;
use super::entries::Story;
use bucket_table::script::ScriptHash;
use test_helpers::steps;

pub(super) const STORIES: &[Story] = steps! {
    // test_empty_entry
    Story { name: "an entry of an empty map is vacant", hasher: ScriptHash::Id, steps: steps! {
        Replace(0, 9, None), DoubleOrInsert(0, 1, 1), Expect(Len(1)) } },
    // test_entry
    Story { name: "entries are read, written, removed, inserted", hasher: ScriptHash::Id,
        steps: steps! {
            DoubleOrInsert(1, 10, 10), DoubleOrInsert(2, 20, 20), DoubleOrInsert(3, 30, 30),
            DoubleOrInsert(4, 40, 40), DoubleOrInsert(5, 50, 50), DoubleOrInsert(6, 60, 60),
            Replace(1, 100, Some(10)), Expect(Value(1, Some(100))), Expect(Len(6)),
            Remove(3, Some((3, 30))), Expect(Value(3, None)), Expect(Len(5)),
            DoubleOrInsert(10, 1000, 1000), Expect(Value(10, Some(1000))), Expect(Len(6)) } },
    // test_occupied_entry_key, test_vacant_entry_key
    Story { name: "an entry returns its key", hasher: ScriptHash::Id, steps: steps! {
        Expect(Len(0)), Expect(Key(7)), Expect(Len(0)), DoubleOrInsert(7, 70, 70), Expect(Len(1)),
        Expect(Value(7, Some(70))), Expect(Key(7)), Expect(Len(1)), Expect(Value(7, Some(70))) } },
    // test_entry_take_doesnt_corrupt
    Story { name: "removing a key keeps the others", hasher: ScriptHash::Spread,
        steps: steps! {
            InsertRange(0..20), Remove(13, Some((13, 13))), Expect(Len(19)),
            Remove(0, Some((0, 0))), Expect(Len(18)), Remove(13, None), Expect(Len(18)),
            Remove(19, Some((19, 19))), Expect(Len(17)), Remove(7, Some((7, 7))), Expect(Len(16)),
            Remove(20, None), Expect(Len(16)), Remove(0, None), Expect(Len(16)),
            Remove(6, Some((6, 6))), Expect(Len(15)), Remove(12, Some((12, 12))), Expect(Len(14)),
            Remove(1, Some((1, 1))), Expect(Len(13)), Remove(18, Some((18, 18))), Expect(Len(12)),
            Remove(8, Some((8, 8))), Expect(Len(11)), Remove(5, Some((5, 5))), Expect(Len(10)),
            Remove(7, None), Expect(Len(10)), Remove(14, Some((14, 14))), Expect(Len(9)),
            Remove(2, Some((2, 2))), Expect(Len(8)), Remove(17, Some((17, 17))), Expect(Len(7)),
            Remove(9, Some((9, 9))), Expect(Len(6)), Remove(4, Some((4, 4))), Expect(Len(5)),
            Remove(15, Some((15, 15))), Expect(Len(4)), Remove(3, Some((3, 3))), Expect(Len(3)),
            Remove(16, Some((16, 16))), Expect(Len(2)), Remove(10, Some((10, 10))), Expect(Len(1)),
            Remove(11, Some((11, 11))), Expect(Len(0)) } }
};
