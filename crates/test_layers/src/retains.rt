//! `retain` on tables, with mutable values.
use crate::by_lock::Map;
use crate::checks::check_same;
use crate::growth::DOUBLED;
use crate::tables::{new_map, play};
use bucket_table::hash_table::ResizeRule;
use bucket_table::script::ScriptHash;
use std::process::Abort;
use std::test::Fail;

// Whether the growth inserted this key, as its own value.
fn is_put(key: u64) -> bool {
    key < 32 || (128 <= key && key < 159)
}

// Keeps the keys that three doesn't divide, and adds one to each value. Returns how often the
// function was called, and how many pairs were removed.
fn retain_some(table: &mut Map) -> (usize, usize) {
    let mut asked: usize = 0;
    let mut keep = |key: &u64, value: &mut u64| -> bool {
        asked = asked.wrapping_add(1);
        *value = value.wrapping_add(1);
        *key % 3 != 0
    };
    let gone = table.retain(&mut keep, &());
    (asked, gone)
}

// Checks that the keys that three doesn't divide were kept this many times, and that the others
// were removed.
fn check_kept(rt: &impl Abort, table: &Map, times: u64) {
    for key in 0..160 {
        let value = times.wrapping_add(key);
        let wanted = if is_put(key) && key % 3 != 0 {
            Some((&key, &value))
        } else {
            None
        };
        check_same(rt, table.peek_entry(&key), wanted, (key, times));
    }
}

#[test]
fn both_arrays_are_asked_for_once_and_stay(rt: HostRuntime) -> Result<(), Fail> {
    let mut table = new_map(rt.alloc(), ScriptHash::Spread, 0);
    play(&rt, &mut table, "a growth", DOUBLED)?;
    check_same(&rt, retain_some(&mut table), (63, 21), "the first time");
    check_kept(&rt, &table, 1);
    check_same(&rt, table.rehashing_metadata(), Some(0), "the old array");
    check_same(&rt, retain_some(&mut table), (42, 0), "the second time");
    check_kept(&rt, &table, 2);
    check_same(&rt, table.num_slots(), 128, "the current array");
    check_same(&rt, table.num_entries(), 42, "what is left");
    Ok(())
}

#[test]
fn a_chain_is_asked_for_to_its_end(rt: HostRuntime) -> Result<(), Fail> {
    let mut table = new_map(rt.alloc(), ScriptHash::Zero, 0);
    for key in 0..100 {
        let done = table
            .insert_pair(key, key, &(), ResizeRule::Sampled)
            .is_ok();
        check_same(&rt, done, true, ("put", key));
    }
    check_same(&rt, retain_some(&mut table), (100, 34), "a chain");
    check_same(&rt, retain_some(&mut table), (66, 0), "what is left of it");
    check_same(
        &rt,
        table.peek_entry(&98),
        Some((&98, &100)),
        "a value in it",
    );
    Ok(())
}
