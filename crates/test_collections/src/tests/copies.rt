//! Copies of sets and indexes, and of words that a map and a set have, which name no hasher: each
//! copy has its own.
use super::check_same;
use super::sets::{Set, fill_set};
use bucket_table::script::ScriptHash;
use collections::hash_index::HashIndex;
use collections::hash_map::HashMap;
use collections::hash_set::HashSet;
use std::alloc::Global;
use std::process::Abort;
use std::test::Fail;

#[test]
fn a_change_of_a_set_leaves_its_copy(rt: HostRuntime) -> Result<(), Fail> {
    let mut set: Set = HashSet::with_hasher(rt.alloc(), ScriptHash::Id);
    check_same(&rt, fill_set(&mut set, &(0..100)), true, "filled");
    match set.try_copy(rt.alloc()) {
        Ok(copy) => check_same(&rt, copy == set, true, "keys are copied"),
        Err(_) => check_same(&rt, true, false, "no memory"),
    }
    match set.try_clone(rt.alloc()) {
        Ok(mut copy) => change_both(&rt, &mut set, &mut copy),
        Err(_) => check_same(&rt, true, false, "no memory"),
    }
    Ok(())
}

// A set and its copy are changed independently.
fn change_both(rt: &impl Abort, set: &mut Set, copy: &mut Set) {
    check_same(rt, (*set == *copy, copy.len()), (true, 100), "copied");
    let went = (set.take(&7), copy.take(&8));
    check_same(rt, went, (Some(7), Some(8)), "removed");
    let found = (set.contains(&7), set.contains(&8));
    check_same(rt, found, (false, true), "set");
    let found = (copy.contains(&7), copy.contains(&8));
    check_same(rt, found, (true, false), "copy");
}

type Index = HashIndex<u64, u64, ScriptHash>;

#[test]
fn a_change_of_an_index_leaves_its_copy(rt: HostRuntime) -> Result<(), Fail> {
    let mut index: Index = HashIndex::with_minimum(rt.alloc(), ScriptHash::Id, 100);
    fill_index(&rt, &mut index);
    match index.try_clone(rt.alloc()) {
        Ok(mut copy) => change_index(&rt, &mut index, &mut copy),
        Err(_) => check_same(&rt, true, false, "no memory"),
    }
    Ok(())
}

// Inserts 40 keys.
fn fill_index(rt: &impl Abort, index: &mut Index) {
    for key in 0..40 {
        check_same(rt, index.insert(key, key).is_ok(), true, "inserted");
    }
}

// An index and its copy are changed independently.
fn change_index(rt: &impl Abort, index: &mut Index, copy: &mut Index) {
    check_same(rt, (copy.len(), copy.capacity()), (40, 128), "copied");
    let went = (index.remove(&7), copy.remove(&8));
    check_same(rt, went, (true, true), "removed");
    let found = (index.contains(&7), index.contains(&8));
    check_same(rt, found, (false, true), "index");
    check_same(rt, (copy.peek(&7), copy.peek(&8)), (Some(&7), None), "copy");
}

type Ages = HashMap<String, u64>;

type Names = HashSet<String>;

const AGES: [(&str, u64); 3] = [("Ann", 30), ("Bob", 40), ("", 0)];

#[test]
fn copies_have_words_of_their_own(rt: HostRuntime) -> Result<(), Fail> {
    check_map(&rt, rt.alloc(), &mut HashMap::new(rt.alloc()));
    check_set(&rt, rt.alloc(), &mut HashSet::new(rt.alloc()));
    Ok(())
}

// Ages are inserted into a map, and stay in its copy when the map is cleared.
fn check_map(rt: &impl Abort, alloc: Global, ages: &mut Ages) {
    for (name, age) in AGES.iter() {
        let _ = ages.insert(owned(alloc, name), *age);
    }
    match ages.try_clone(alloc) {
        Ok(copy) => check_copied_map(rt, ages, &copy),
        Err(_) => check_same(rt, true, false, "no memory"),
    }
}

fn check_copied_map(rt: &impl Abort, ages: &mut Ages, copy: &Ages) {
    check_same(rt, *copy == *ages, true, "equal");
    ages.clear();
    for (name, age) in AGES.iter() {
        let found = (copy.get(*name).copied(), copy.len());
        check_same(rt, found, (Some(*age), 3), *name);
    }
}

// Names are inserted into a set, and stay in its copy when the set is cleared.
fn check_set(rt: &impl Abort, alloc: Global, names: &mut Names) {
    for (name, _) in AGES.iter() {
        let _ = names.insert(owned(alloc, name));
    }
    match names.try_clone(alloc) {
        Ok(copy) => check_copied_set(rt, names, &copy),
        Err(_) => check_same(rt, true, false, "no memory"),
    }
}

fn check_copied_set(rt: &impl Abort, names: &mut Names, copy: &Names) {
    check_same(rt, *copy == *names, true, "equal");
    names.clear();
    for (name, _) in AGES.iter() {
        check_same(rt, (copy.contains(*name), copy.len()), (true, 3), *name);
    }
    check_same(rt, copy.contains("Ben"), false, "Ben");
}

// A text as an owned word; no text if allocation fails.
fn owned(alloc: Global, text: &str) -> String {
    match String::from_str(alloc, text) {
        Ok(own) => own,
        Err(_) => String::new(alloc),
    }
}
