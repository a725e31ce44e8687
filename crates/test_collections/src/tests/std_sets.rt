//! What the standard library's tests of its set check: the same calls on this set, with the same
//! answers. A comment names the test; a key -n of the test is 200 - n here.
use super::check_same;
use super::sets::Expect::*;
use super::sets::Step::*;
use super::sets::{Set, Step};
use super::two_sets::{Ranges, Row, set_of};
use bucket_table::script::ScriptHash;
use std::test::Fail;
use test_helpers::steps;

pub(super) const STEPS: &[Step] = steps! {
    // test_iterate
    ExtendBy(&[0, 1, 2, 3, 4, 5, 6, 7, 8, 9, 10, 11, 12, 13, 14, 15]),
    ExtendBy(&[16, 17, 18, 19, 20, 21, 22, 23, 24, 25, 26, 27, 28, 29, 30, 31]),
    Expect(Keys(&[0..32])), Clear,
    // test_from_iter
    ExtendBy(&[1, 2, 2, 3, 4, 5, 6, 7, 8, 9]), Expect(Keys(&[1..10])), Clear,
    // test_extend_ref
    Insert(1, true), ExtendBy(&[2, 3, 4]), Expect(Counts(4, 64)), Expect(Keys(&[1..5])),
    ExtendBy(&[5, 6]), Expect(Counts(6, 64)), Expect(Keys(&[1..7])), Clear,
    // test_retain
    ExtendBy(&[1, 2, 3, 4, 5, 6]), RetainMultiples(2, 6), Expect(Counts(3, 64)),
    Expect(Contains(2, true)), Expect(Contains(4, true)), Expect(Contains(6, true))
};

pub(super) const ROWS: &[Row] = steps! {
    // test_intersection, test_difference, test_symmetric_difference, test_union: of no keys
    Row { one: &[], other: &[], union: &[], intersection: &[], difference: &[],
        symmetric_difference: &[] },
    // test_intersection
    Row { one: &[1..2, 3..4, 5..6, 11..12, 77..78, 103..104, 195..196],
        other: &[2..4, 5..6, 11..12, 77..78, 158..159, 191..192],
        union: &[1..4, 5..6, 11..12, 77..78, 103..104, 158..159, 191..192,
            195..196],
        intersection: &[3..4, 5..6, 11..12, 77..78],
        difference: &[1..2, 103..104, 195..196],
        symmetric_difference: &[1..3, 103..104, 158..159, 191..192, 195..196] },
    // test_difference
    Row { one: &[1..2, 3..4, 5..6, 9..10, 11..12], other: &[3..4, 9..10],
        union: &[1..2, 3..4, 5..6, 9..10, 11..12], intersection: &[3..4, 9..10],
        difference: &[1..2, 5..6, 11..12],
        symmetric_difference: &[1..2, 5..6, 11..12] },
    // test_symmetric_difference
    Row { one: &[1..2, 3..4, 5..6, 9..10, 11..12],
        other: &[3..4, 9..10, 14..15, 22..23, 198..199],
        union: &[1..2, 3..4, 5..6, 9..10, 11..12, 14..15, 22..23, 198..199],
        intersection: &[3..4, 9..10], difference: &[1..2, 5..6, 11..12],
        symmetric_difference: &[1..2, 5..6, 11..12, 14..15, 22..23, 198..199] },
    // test_union
    Row { one: &[1..2, 3..4, 5..6, 9..10, 11..12, 16..17, 19..20, 24..25],
        other: &[1..2, 5..6, 9..10, 13..14, 19..20, 198..199],
        union: &[1..2, 3..4, 5..6, 9..10, 11..12, 13..14, 16..17, 19..20, 24..25,
            198..199],
        intersection: &[1..2, 5..6, 9..10, 19..20],
        difference: &[3..4, 11..12, 16..17, 24..25],
        symmetric_difference: &[3..4, 11..12, 13..14, 16..17, 24..25, 198..199] }
};

/// Two sets, whether the first is a subset of the other, a superset of it and disjoint from it, and
/// whether they are equal.
type Relation = (Ranges, Ranges, [bool; 4]);

const RELATIONS: &[Relation] = steps! {
    // test_disjoint
    (&[], &[], [true, true, true, true]),
    (&[], &[11..12], [true, false, true, false]),
    (&[7..8], &[11..12], [false, false, true, false]),
    (&[4..5, 7..8, 19..20], &[2..3, 11..12, 189..190], [false, false, true, false]),
    (&[4..5, 7..8, 19..20], &[2..3, 7..8, 11..12, 189..190], [false; 4]),
    // test_subset_and_superset
    (&[0..1, 5..6, 7..8, 11..12],
        &[0..1, 7..8, 11..12, 19..20, 200..201, 250..251], [false; 4]),
    (&[0..1, 5..6, 7..8, 11..12],
        &[0..1, 5..6, 7..8, 11..12, 19..20, 200..201, 250..251],
        [true, false, false, false]),
    // test_eq
    (&[1..4], &[1..3], [false, true, false, false]),
    (&[1..4], &[1..4], [true, true, false, true])
};

#[test]
fn sets_are_related_as_those_of_std(rt: HostRuntime) -> Result<(), Fail> {
    for (row, (keys, others, wanted)) in RELATIONS.iter().enumerate() {
        let one = set_of(rt.alloc(), ScriptHash::Spread, keys);
        let other = set_of(rt.alloc(), ScriptHash::Spread, others);
        check_same(&rt, relations(&one, &other), *wanted, row);
        check_same(&rt, relations(&other, &one), turned(*wanted), row);
    }
    Ok(())
}

// The same relations with the sets exchanged.
fn turned(wanted: [bool; 4]) -> [bool; 4] {
    let [within, around, apart, equal] = wanted;
    [around, within, apart, equal]
}

fn relations(one: &Set, other: &Set) -> [bool; 4] {
    [
        one.is_subset(other),
        one.is_superset(other),
        one.is_disjoint(other),
        one == other,
    ]
}
