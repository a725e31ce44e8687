//! Calls as they are written with the standard library: a vector that an entry makes, mutable
//! references out of an entry, copies by `clone`.
use super::check_same;
use collections::hash_map::{Entry, HashMap};
use collections::hash_set::HashSet;
use std::alloc::{AllocError, Global};
use std::process::Abort;
use std::test::Fail;

// The words of each length.
#[derive(Clone, Drop)]
struct ByLength {
    words: HashMap<u64, Vec<u64>>,
}

// Appends a number to those of a length.
fn note(all: &mut ByLength, len: u64, number: u64) -> Result<(), AllocError> {
    all.words.entry(len).or_default()?.push(number)?;
    Ok(())
}

// Puts the numbers of words under their lengths.
fn by_length(alloc: Global, words: &[&str]) -> Result<ByLength, AllocError> {
    let mut all = ByLength {
        words: HashMap::new(alloc),
    };
    for i in 0..words.len() {
        note(&mut all, words[i].len() as u64, i as u64)?;
    }
    Ok(all)
}

// The words of a length.
fn words_of(all: &ByLength, len: u64) -> &[u64] {
    match all.words.get(&len) {
        Some(own) => own.as_slice(),
        None => &[],
    }
}

#[test]
fn a_vector_is_the_default_of_its_place(rt: HostRuntime) -> Result<(), Fail> {
    let all = by_length(rt.alloc(), &["Ann", "Bo", "Bob", "Eve"])?;
    check_same(&rt, words_of(&all, 3), [0, 2, 3].as_slice(), 3);
    check_same(&rt, words_of(&all, 2), [1].as_slice(), 2);
    check_same(&rt, all.words.len(), 2, "len");
    Ok(())
}

#[test]
fn a_struct_with_a_map_is_cloned(rt: HostRuntime) -> Result<(), Fail> {
    let mut all = by_length(rt.alloc(), &["Ann", "Bo"])?;
    let copy = all.clone()?;
    note_beside(&rt, &mut all, &copy)?;
    Ok(())
}

// Notes a word of three letters, which the copy doesn't contain.
fn note_beside(rt: &impl Abort, all: &mut ByLength, copy: &ByLength) -> Result<(), AllocError> {
    note(all, 3, 7)?;
    check_same(rt, words_of(copy, 3), [0].as_slice(), "copy");
    check_same(rt, words_of(all, 3), [0, 7].as_slice(), "own");
    Ok(())
}

#[test]
fn a_set_is_cloned(rt: HostRuntime) -> Result<(), Fail> {
    let mut set = HashSet::new(rt.alloc());
    check_same(&rt, grow_beside_clone(&mut set), Ok((2, 1)), "set");
    Ok(())
}

// Inserts a key into a set, and another once the set is cloned. Returns how many keys the set and
// its clone have then.
fn grow_beside_clone(set: &mut HashSet<u64>) -> Result<(usize, usize), AllocError> {
    set.insert(1)?;
    let copy = set.clone()?;
    set.insert(2)?;
    Ok((set.len(), copy.len()))
}

// Adds to the value of a key, through the two mutable references that its entry returns, and
// returns the value.
fn raise(map: &mut HashMap<u64, u64>, key: u64) -> Option<(u64, u64)> {
    match map.entry(key) {
        Entry::Occupied(mut place) => {
            let first = *place.get();
            *place.get_mut() = first.wrapping_add(1);
            let second = *place.get();
            let lent = place.into_mut();
            *lent = lent.wrapping_add(1);
            Some((first, second))
        }
        Entry::Vacant(_) => None,
    }
}

#[test]
fn an_entry_lends_its_value(rt: HostRuntime) -> Result<(), Fail> {
    let mut map: HashMap<u64, u64> = HashMap::new(rt.alloc());
    check_same(&rt, map.upsert(1, 10).ok(), Some(None), "new");
    check_same(&rt, raise(&mut map, 1), Some((10, 11)), "present");
    check_same(&rt, raise(&mut map, 2), None, "absent");
    check_same(&rt, map.get(&1).copied(), Some(12), "after");
    Ok(())
}

// Returns the text of a key, which is made only if there is none; making it fails at 9.
fn text_of(alloc: Global, texts: &mut HashMap<u64, String>, key: u64) -> Result<usize, AllocError> {
    let make = || if key == 9 {
        Err(AllocError)
    } else {
        String::from_str(alloc, "new")
    };
    let lent = texts.entry(key).or_try_insert_with(make)?;
    lent.push_str("!")?;
    Ok(lent.len())
}

// The keys, and the result for the text of each.
const TEXTS: [(u64, Option<usize>); 3] = [(1, Some(4)), (1, Some(5)), (9, None)];

#[test]
fn a_value_whose_making_fails_is_not_put(rt: HostRuntime) -> Result<(), Fail> {
    let mut texts = HashMap::new(rt.alloc());
    for (key, len) in TEXTS.iter() {
        let found = text_of(rt.alloc(), &mut texts, *key).ok();
        check_same(&rt, found, *len, *key);
    }
    check_same(&rt, texts.len(), 1, "len");
    Ok(())
}
