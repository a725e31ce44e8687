//! Calls that have the names and results of the standard library's: room, functions by value,
//! `extend`, and iterators.
use super::check_same;
use collections::DefaultHash;
use collections::hash_map::HashMap;
use collections::hash_set::HashSet;
use std::alloc::AllocError;
use std::process::Abort;
use std::test::Fail;

type Map = HashMap<u64, u64>;

type Set = HashSet<u64>;

#[test]
fn a_set_answers_as_that_of_std(rt: HostRuntime) -> Result<(), Fail> {
    answer(&rt, &mut HashSet::new(rt.alloc()));
    Ok(())
}

// A key is inserted twice, and removed twice.
fn answer(rt: &impl Abort, set: &mut Set) {
    let came = (set.insert(1).ok(), set.insert(1).ok());
    check_same(rt, came, (Some(true), Some(false)), "insert");
    check_same(
        rt,
        (set.remove(&1), set.remove(&1)),
        (true, false),
        "remove",
    );
    check_same(rt, set.take(&1), None, "take");
}

/// The numbers of pairs for which a map with one pair shrinks in turn, and its slots then: the
/// pairs take no more than 13 of 16 slots, and half the slots would be too few, or fewer than 64.
const SHRINKING: [(usize, usize); 3] = [(100, 128), (50, 64), (0, 64)];

#[test]
fn a_map_with_room_for_pairs_shrinks(rt: HostRuntime) -> Result<(), Fail> {
    let hasher = DefaultHash::default();
    let mut map = HashMap::with_capacity_and_hasher(rt.alloc(), 100, hasher);
    shrink_map(&rt, &mut map);
    shrink_map(&rt, &mut HashMap::with_capacity(rt.alloc(), 100));
    Ok(())
}

fn shrink_map(rt: &impl Abort, map: &mut Map) {
    check_same(rt, map.upsert(1, 1).ok(), Some(None), "new");
    let found = (map.contains_key(&1), map.contains_key(&2), map.capacity());
    check_same(rt, found, (true, false, 128), "room");
    for (pairs, slots) in SHRINKING.iter() {
        let found = (map.shrink_to(*pairs).is_ok(), map.capacity(), map.len());
        check_same(rt, found, (true, *slots, 1), *pairs);
    }
}

#[test]
fn a_set_with_room_for_keys_shrinks(rt: HostRuntime) -> Result<(), Fail> {
    let hasher = DefaultHash::default();
    let mut set = HashSet::with_capacity_and_hasher(rt.alloc(), 100, hasher);
    shrink_set(&rt, &mut set);
    shrink_set(&rt, &mut HashSet::with_capacity(rt.alloc(), 100));
    Ok(())
}

fn shrink_set(rt: &impl Abort, set: &mut Set) {
    check_same(rt, set.insert(1).ok(), Some(true), "new");
    check_same(rt, set.capacity(), 128, "room");
    for (keys, slots) in SHRINKING.iter() {
        let found = (set.shrink_to(*keys).is_ok(), set.capacity(), set.len());
        check_same(rt, found, (true, *slots, 1), *keys);
    }
}

#[test]
fn functions_go_to_a_map_by_value(rt: HostRuntime) -> Result<(), Fail> {
    let mut map = HashMap::from_array(rt.alloc(), [(1, 10), (2, 20), (3, 30)])?;
    change(&mut map);
    check_same(&rt, sum(&map), 46, "sum");
    Ok(())
}

// Drops the pair of key 2, and adds one to the other values.
fn change(map: &mut Map) {
    map.retain(|key: &u64, _value: &mut u64| *key != 2);
    map.for_each_mut(|_key: &u64, value: &mut u64| *value = value.wrapping_add(1));
}

// The sum of the keys and the values.
fn sum(map: &Map) -> u64 {
    let mut sum = 0u64;
    map.for_each(|key: &u64, value: &u64| sum = sum.wrapping_add(*key).wrapping_add(*value));
    sum
}

#[test]
fn functions_go_to_a_set_by_value(rt: HostRuntime) -> Result<(), Fail> {
    let mut set = HashSet::from_array(rt.alloc(), [1, 2, 3])?;
    drop_two(&mut set);
    check_same(&rt, sum_of_keys(&set), 4, "sum");
    Ok(())
}

fn drop_two(set: &mut Set) {
    set.retain(|key: &u64| *key != 2);
}

fn sum_of_keys(set: &Set) -> u64 {
    let mut sum = 0u64;
    set.for_each(|key: &u64| sum = sum.wrapping_add(*key));
    sum
}

#[test]
fn pairs_extend_a_map(rt: HostRuntime) -> Result<(), Fail> {
    let mut map = HashMap::new(rt.alloc());
    check_same(&rt, put_pairs(&mut map), Ok(2), "len");
    check_same(&rt, map.get(&1).copied(), Some(11), "last");
    Ok(())
}

fn put_pairs(map: &mut Map) -> Result<usize, AllocError> {
    map.extend([(1, 10), (2, 20), (1, 11)])?;
    Ok(map.len())
}

#[test]
fn a_map_extends_another(rt: HostRuntime) -> Result<(), Fail> {
    let map = HashMap::from_array(rt.alloc(), [(1, 11), (2, 20)])?;
    let found = copy_pairs(&mut HashMap::new(rt.alloc()), &map);
    check_same(&rt, found, Ok((2, 3, Some(11))), "copied");
    Ok(())
}

// Extends a map by another, and by a pair. Returns how many pairs it has before that and then, and
// the value of key 1.
fn copy_pairs(own: &mut Map, map: &Map) -> Result<(usize, usize, Option<u64>), AllocError> {
    own.extend(map)?;
    let copied = own.len();
    own.extend([(3, 30)])?;
    Ok((copied, own.len(), own.get(&1).copied()))
}

#[test]
fn keys_extend_a_set(rt: HostRuntime) -> Result<(), Fail> {
    check_same(&rt, put_keys(&mut HashSet::new(rt.alloc())), Ok(2), "len");
    Ok(())
}

fn put_keys(set: &mut Set) -> Result<usize, AllocError> {
    set.extend([1, 2, 1])?;
    Ok(set.len())
}

#[test]
fn a_set_extends_another(rt: HostRuntime) -> Result<(), Fail> {
    let set = HashSet::from_array(rt.alloc(), [1, 2])?;
    let found = copy_keys(&mut HashSet::new(rt.alloc()), &set);
    check_same(&rt, found, Ok((2, 3)), "copied");
    Ok(())
}

// Extends a set by another, and by a key. Returns how many keys it has before that and then.
fn copy_keys(own: &mut Set, set: &Set) -> Result<(usize, usize), AllocError> {
    own.extend(set)?;
    let copied = own.len();
    own.extend([3])?;
    Ok((copied, own.len()))
}

#[test]
fn the_allocator_of_a_collection_serves_others(rt: HostRuntime) -> Result<(), Fail> {
    let map = list_map(&mut HashMap::new(rt.alloc()));
    check_same(&rt, map, Ok(1), "map");
    let set = list_set(&mut HashSet::new(rt.alloc()));
    check_same(&rt, set, Ok(1), "set");
    Ok(())
}

// Puts a pair, and makes a list of the map's keys with the map's allocator. Returns how many it
// has.
fn list_map(map: &mut Map) -> Result<usize, AllocError> {
    map.upsert(1, 10)?;
    let keys: Vec<&u64> = map.keys().collect(map.allocator())?;
    Ok(keys.len())
}

// Inserts a key, and makes a list of the set's keys with the set's allocator. Returns how many it
// has.
fn list_set(set: &mut Set) -> Result<usize, AllocError> {
    set.insert(1)?;
    let keys: Vec<&u64> = set.iter().collect(set.allocator())?;
    Ok(keys.len())
}

/// How many are left.
type Hint = (usize, Option<usize>);

// What is left of an iterator that stepped once, and of a copy that was made before; and how many
// the copy gives, up to nine.
macro_rules! stepped {
    ($left:expr) => {{
        let mut left = $left;
        let copy = left.clone()?;
        let _first = left.next();
        Ok((left.size_hint(), copy.size_hint(), copy.take(9).count()))
    }};
}

type Stepped = Result<(Hint, Hint, usize), AllocError>;

fn step_pairs(map: &Map) -> Stepped {
    stepped!(map.iter())
}

fn step_keys(map: &Map) -> Stepped {
    stepped!(map.keys())
}

fn step_values(map: &Map) -> Stepped {
    stepped!(map.values())
}

fn step_set(set: &Set) -> Stepped {
    stepped!(set.iter())
}

/// Of three.
const STEPPED: Stepped = Ok(((2, Some(2)), (3, Some(3)), 3));

#[test]
fn iterators_are_cloned_and_hint_their_sizes(rt: HostRuntime) -> Result<(), Fail> {
    let map = HashMap::from_array(rt.alloc(), [(1, 10), (2, 20), (3, 30)])?;
    check_same(&rt, step_pairs(&map), STEPPED, "pairs");
    check_same(&rt, step_keys(&map), STEPPED, "keys");
    check_same(&rt, step_values(&map), STEPPED, "values");
    Ok(())
}

#[test]
fn an_iterator_of_a_set_is_cloned_and_hints_its_size(rt: HostRuntime) -> Result<(), Fail> {
    let set = HashSet::from_array(rt.alloc(), [4, 5, 6])?;
    check_same(&rt, step_set(&set), STEPPED, "set");
    Ok(())
}
