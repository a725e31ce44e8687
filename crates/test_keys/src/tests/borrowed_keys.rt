//! Keys that aren't a `String` or a `Vec`, looked up by a text or by a slice.
use super::check_same;
use super::forms::owned;
use collections::hash_map::HashMap;
use collections::{DefaultHash, KeyForm};
use std::borrow::{CowSlice, CowStr};
use std::hash::Hash;
use std::process::Abort;
use std::rc::RcStr;
use std::test::Fail;

// Inserts a key, and checks that its form finds it and another form finds none.
fn check_form<K: Eq + Hash + Drop, Q: KeyForm<K, DefaultHash>>(
    rt: &impl Abort,
    map: &mut HashMap<K, u64>,
    key: K,
    form: Q,
    other: Q,
) {
    let came = map.upsert(key, 1).is_ok();
    let found = (came, map.get(form).copied(), map.get(other).copied());
    check_same(rt, found, (true, Some(1), None), "form");
}

#[test]
fn texts_that_are_lent_are_looked_up(rt: HostRuntime) -> Result<(), Fail> {
    check_form(&rt, &mut HashMap::new(rt.alloc()), "Ann", "Ann", "Bob");
    Ok(())
}

#[test]
fn boxed_and_shared_texts_are_looked_up(rt: HostRuntime) -> Result<(), Fail> {
    let boxed = owned(rt.alloc(), "Ann").into_boxed_str();
    check_form(&rt, &mut HashMap::new(rt.alloc()), boxed, "Ann", "Bob");
    let shared = RcStr::from_str(rt.alloc(), "Ann")?;
    check_form(&rt, &mut HashMap::new(rt.alloc()), shared, "Ann", "Bob");
    Ok(())
}

#[test]
fn texts_that_are_lent_or_owned_are_looked_up(rt: HostRuntime) -> Result<(), Fail> {
    let lent: CowStr<'static> = CowStr::Borrowed("Ann");
    check_form(&rt, &mut HashMap::new(rt.alloc()), lent, "Ann", "Bob");
    let own: CowStr<'static> = CowStr::Owned(owned(rt.alloc(), "Ann"));
    check_form(&rt, &mut HashMap::new(rt.alloc()), own, "Ann", "Bob");
    Ok(())
}

const LIST: &[u64] = &[1, 2];

const OTHER: &[u64] = &[2, 1];

#[test]
fn slices_that_are_lent_are_looked_up(rt: HostRuntime) -> Result<(), Fail> {
    check_form(&rt, &mut HashMap::new(rt.alloc()), LIST, LIST, OTHER);
    Ok(())
}

#[test]
fn boxed_slices_are_looked_up(rt: HostRuntime) -> Result<(), Fail> {
    let boxed = Vec::from_slice(rt.alloc(), LIST)?.into_boxed_slice();
    check_form(&rt, &mut HashMap::new(rt.alloc()), boxed, LIST, OTHER);
    Ok(())
}

#[test]
fn slices_that_are_lent_or_owned_are_looked_up(rt: HostRuntime) -> Result<(), Fail> {
    let lent: CowSlice<'static, u64> = CowSlice::Borrowed(LIST);
    check_form(&rt, &mut HashMap::new(rt.alloc()), lent, LIST, OTHER);
    let own: CowSlice<'static, u64> = CowSlice::Owned(Vec::from_slice(rt.alloc(), LIST)?);
    check_form(&rt, &mut HashMap::new(rt.alloc()), own, LIST, OTHER);
    Ok(())
}
