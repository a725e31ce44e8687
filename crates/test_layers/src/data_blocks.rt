//! Rows of places: every call, at both lengths.
use crate::checks::check_same;
use Act::*;
use bucket_slots::data_block::DataBlock;
use std::mem;
use std::process::Abort;
use std::string::String;
use std::test::Fail;

/// A call on a row, with its answer.
enum Act {
    /// The pair at a place, in the row or past its end.
    See(usize, Option<(u64, u64)>),
    /// A pair is put if the place is empty.
    Fill(usize, (u64, u64), bool),
    /// A value is written through a mutable reference to the value, and was this one.
    SetValue(usize, u64, Option<u64>),
    /// A value is written through a mutable reference to the pair, and the pair was this one.
    SetPair(usize, u64, Option<(u64, u64)>),
    /// The pair is removed.
    Take(usize, Option<(u64, u64)>),
    /// The pair is dropped, if there is one.
    LetGo(usize, bool),
}

// The first and the last place of an empty row are filled, written and emptied. A filled place
// stays, and no place past the end has or returns a pair.
macro_rules! acts {
    ($last:literal, $len:literal) => {
        &[
            See(0, None), SetValue(0, 9, None), SetPair(0, 9, None),
            See($last, None), SetValue($last, 9, None), SetPair($last, 9, None),
            See($len, None), SetValue($len, 9, None), SetPair($len, 9, None),
            See(usize::MAX, None), SetValue(usize::MAX, 9, None), SetPair(usize::MAX, 9, None),
            Fill(0, (1, 10), true), Fill($last, (5, 50), true), Fill($last, (6, 60), false),
            See($last, Some((5, 50))), SetValue($last, 51, Some(50)), See($last, Some((5, 51))),
            SetPair($last, 52, Some((5, 51))), See($last, Some((5, 52))), See(0, Some((1, 10))),
            See($len, None), SetValue($len, 9, None), SetPair($len, 9, None),
            Take($last, Some((5, 52))), Take($last, None),
            See($last, None), SetValue($last, 9, None), SetPair($last, 9, None),
            See(0, Some((1, 10))), LetGo(0, true),
            See(0, None), SetValue(0, 9, None), SetPair(0, 9, None),
        ]
    };
}

const OF_4: &[Act] = acts!(3, 4);

const OF_32: &[Act] = acts!(31, 32);

#[test]
fn a_row_keeps_lends_and_gives_back(rt: HostRuntime) {
    play(&rt, &mut DataBlock::<u64, u64, 4>::new(), OF_4);
    play(&rt, &mut DataBlock::<u64, u64, 32>::new(), OF_32);
}

// Makes the calls one after another, and checks each answer.
fn play<const LEN: usize>(rt: &impl Abort, block: &mut DataBlock<u64, u64, LEN>, acts: &[Act]) {
    for (row, act) in acts.iter().enumerate() {
        check_act(rt, block, row, act);
    }
}

// Makes a call, and checks its answer.
fn check_act<const LEN: usize>(
    rt: &impl Abort,
    block: &mut DataBlock<u64, u64, LEN>,
    row: usize,
    act: &Act,
) {
    match act {
        See(pos, pair) => {
            let wanted = match pair {
                Some((key, value)) => (Some(*key), Some(*value)),
                None => (None, None),
            };
            let found = (block.key(*pos).copied(), block.val(*pos).copied());
            check_same(rt, found, wanted, (LEN, row, "see"));
        }
        Fill(pos, pair, wanted) => {
            let fills = *pos < LEN && block.key(*pos).is_none();
            if fills {
                block.write(*pos, pair.0, pair.1);
            }
            check_same(rt, fills, *wanted, (LEN, row, "fill"));
        }
        SetValue(pos, value, wanted) => {
            let earlier = match block.val_mut(*pos) {
                Some(lent) => Some(mem::replace(lent, *value)),
                None => None,
            };
            check_same(rt, earlier, *wanted, (LEN, row, "set value"));
        }
        SetPair(pos, value, wanted) => {
            let earlier = match block.pair_mut(*pos) {
                Some((key, lent)) => Some((*key, mem::replace(lent, *value))),
                None => None,
            };
            check_same(rt, earlier, *wanted, (LEN, row, "set pair"));
        }
        Take(pos, wanted) => {
            let taken = if block.key(*pos).is_none() {
                None
            } else {
                Some(block.read(*pos))
            };
            check_same(rt, taken, *wanted, (LEN, row, "take"));
        }
        LetGo(pos, wanted) => {
            let there = block.key(*pos).is_some();
            if there {
                block.drop_in_place(*pos);
            }
            check_same(rt, there, *wanted, (LEN, row, "drop"));
        }
    }
}

#[test]
fn lends_texts_without_moving_them(rt: HostRuntime) -> Result<(), Fail> {
    let key = "key".to_string(rt.alloc())?;
    let value = "old".to_string(rt.alloc())?;
    let text = "new".to_string(rt.alloc())?;
    let mut block = DataBlock::<String, String, 4>::new();
    block.write(2, key, value);
    if let Some((key, value)) = block.pair_mut(2) {
        check_same(&rt, key.as_str(), "key", 2);
        *value = text;
    }
    check_same(
        &rt,
        block.val(2).map(|value| value.as_str()),
        Some("new"),
        2,
    );
    Ok(())
}
