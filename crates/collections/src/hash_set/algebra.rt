//! The keys in both of two sets, in either, in one only, or in exactly one, and whether one set is
//! a subset of another.
ghost use Rattle.std.specs.Prelude.{◌≡◌, ◌+◌, IfSome, IsSomeAnd, not};
ghost use Rattle.std.specs.Iterator.{YieldsFirstRef, item_count};
ghost use Rattle.collections.specs.Keys.{keys_of_either, keys_of_one, keys_outside, keys_within};
ghost use Rattle.std.specs.List.{list_all};
ghost use Rattle.std.specs.Map.{keys_of};
ghost use Rattle.collections.specs.Maps.{contains};

use crate::default_hash::DefaultHash;
use crate::hash_set::{HashSet, Iter};
use bucket_table::key_hash::KeyHash;
use std::iter::FusedIterator;
use std::marker::Model;

/// An iterator over the keys in both of two sets. std: `hash_set::Intersection`.
#[derive(Drop)]
pub struct Intersection<'a, K: Eq, H: KeyHash<K> = DefaultHash> {
    keys: Iter<'a, K>,
    other: &'a HashSet<K, H>,
}

impl<'a, K: Eq, H: KeyHash<K>> Model for Intersection<'a, K, H> {
    ghost use Rattle.std.specs.Prelude.{List, filter};
    ghost use Rattle.collections.specs.Maps.{contains};

    ghost Value = { List K };

    ghost view = { λ both. filter (contains K.eq both.other.now) both.keys };
}

impl<'a, K: Eq, H: KeyHash<K>> Iterator for Intersection<'a, K, H> {
    type Item = &'a K;

    ghost next_gives = { YieldsFirstRef (λ left. left) };

    ghost remaining = { item_count (λ left. left) };

    fn next(&mut self) -> Option<&'a K> {
        'keys: while let Some(key) = self.keys.next() {
            if self.other.contains(key) {
                return Some(key);
            }
        }
        None
    }

    /// From 0 to the number of keys that weren't looked up yet. O(1).
    fn size_hint(&self) -> (usize, Option<usize>) {
        (0, self.keys.size_hint().1)
    }
}

impl<'a, K: Eq, H: KeyHash<K>> FusedIterator for Intersection<'a, K, H> {}

/// An iterator over the keys in one set that are not in another. std: `hash_set::Difference`.
#[derive(Drop)]
pub struct Difference<'a, K: Eq, H: KeyHash<K> = DefaultHash> {
    keys: Iter<'a, K>,
    other: &'a HashSet<K, H>,
}

impl<'a, K: Eq, H: KeyHash<K>> Model for Difference<'a, K, H> {
    ghost use Rattle.std.specs.Prelude.{List, filter, not};
    ghost use Rattle.collections.specs.Maps.{contains};

    ghost Value = { List K };

    ghost view = { λ own. filter (λ key. not (contains K.eq own.other.now key)) own.keys };
}

impl<'a, K: Eq, H: KeyHash<K>> Iterator for Difference<'a, K, H> {
    type Item = &'a K;

    ghost next_gives = { YieldsFirstRef (λ left. left) };

    ghost remaining = { item_count (λ left. left) };

    fn next(&mut self) -> Option<&'a K> {
        'keys: while let Some(key) = self.keys.next() {
            if !self.other.contains(key) {
                return Some(key);
            }
        }
        None
    }

    /// From 0 to the number of keys that weren't looked up yet. O(1).
    fn size_hint(&self) -> (usize, Option<usize>) {
        (0, self.keys.size_hint().1)
    }
}

impl<'a, K: Eq, H: KeyHash<K>> FusedIterator for Difference<'a, K, H> {}

/// An iterator over the keys in either of two sets. std: `hash_set::Union`.
#[derive(Drop)]
pub struct Union<'a, K: Eq, H: KeyHash<K> = DefaultHash> {
    own: Iter<'a, K>,
    others: Difference<'a, K, H>,
}

impl<'a, K: Eq, H: KeyHash<K>> Model for Union<'a, K, H> {
    ghost use Rattle.std.specs.Prelude.{List, ◌++◌};

    ghost Value = { List K };

    ghost view = { λ either. either.own ++ either.others };
}

impl<'a, K: Eq, H: KeyHash<K>> Iterator for Union<'a, K, H> {
    type Item = &'a K;

    ghost next_gives = { YieldsFirstRef (λ left. left) };

    ghost remaining = { item_count (λ left. left) };

    fn next(&mut self) -> Option<&'a K> {
        if let Some(key) = self.own.next() {
            return Some(key);
        }
        self.others.next()
    }

    /// From the number of remaining keys of the first set, to the sum of that and the number of the
    /// other's keys that weren't looked up yet. O(1).
    fn size_hint(&self) -> (usize, Option<usize>) {
        let (least, most) = self.own.size_hint();
        (least, sum_of_bounds(most, self.others.size_hint().1))
    }
}

impl<'a, K: Eq, H: KeyHash<K>> FusedIterator for Union<'a, K, H> {}

/// An iterator over the keys in exactly one of two sets. std: `hash_set::SymmetricDifference`.
#[derive(Drop)]
pub struct SymmetricDifference<'a, K: Eq, H: KeyHash<K> = DefaultHash> {
    own: Difference<'a, K, H>,
    others: Difference<'a, K, H>,
}

impl<'a, K: Eq, H: KeyHash<K>> Model for SymmetricDifference<'a, K, H> {
    ghost use Rattle.std.specs.Prelude.{List, ◌++◌};

    ghost Value = { List K };

    ghost view = { λ one. one.own ++ one.others };
}

impl<'a, K: Eq, H: KeyHash<K>> Iterator for SymmetricDifference<'a, K, H> {
    type Item = &'a K;

    ghost next_gives = { YieldsFirstRef (λ left. left) };

    ghost remaining = { item_count (λ left. left) };

    fn next(&mut self) -> Option<&'a K> {
        if let Some(key) = self.own.next() {
            return Some(key);
        }
        self.others.next()
    }

    /// From 0 to the number of keys that weren't looked up yet. O(1).
    fn size_hint(&self) -> (usize, Option<usize>) {
        (
            0,
            sum_of_bounds(self.own.size_hint().1, self.others.size_hint().1),
        )
    }
}

impl<'a, K: Eq, H: KeyHash<K>> FusedIterator for SymmetricDifference<'a, K, H> {}

/// Returns the sum of two bounds; `None` if one of them is `None` or the sum isn't a `usize`.
fn sum_of_bounds(own: Option<usize>, others: Option<usize>) -> Option<usize>
    ensures { IfSome result (λ sum. IsSomeAnd own (λ x. IsSomeAnd others (λ y. sum ≡ x + y))) }
{
    match (own, others) {
        (Some(x), Some(y)) => x.checked_add(y),
        _ => None,
    }
}

impl<K: Eq, H: KeyHash<K>> HashSet<K, H> {
    /// Returns an iterator over the set's own keys that another set contains too, in the order of
    /// the view.
    ///
    /// Allocates nothing. O(1); all steps together cost those of `iter`, plus one look-up in the
    /// other set for each key. std: `HashSet::intersection`, which goes over the smaller set.
    pub fn intersection<'a>(&'a self, other: &'a Self) -> Intersection<'a, K, H>
        ensures { result ≡ keys_within K.eq self.now other.now }
    {
        Intersection {
            keys: self.iter(),
            other,
        }
    }

    /// Returns an iterator over the keys that another set does not contain, in the order of the
    /// view.
    ///
    /// Allocates nothing. O(1); all steps together cost those of `iter`, plus one look-up in the
    /// other set for each key. std: `HashSet::difference`.
    pub fn difference<'a>(&'a self, other: &'a Self) -> Difference<'a, K, H>
        ensures { result ≡ keys_outside K.eq self.now other.now }
    {
        Difference {
            keys: self.iter(),
            other,
        }
    }

    /// Returns an iterator over the keys of both sets, each once: first the set's own keys, then
    /// those of the other set that it does not contain, both in the order of their view.
    ///
    /// Allocates nothing. O(1); all steps together cost those of `iter` of both sets, plus one
    /// look-up for each key of the other set. std: `HashSet::union`, which begins with the larger
    /// set.
    pub fn union<'a>(&'a self, other: &'a Self) -> Union<'a, K, H>
        ensures { result ≡ keys_of_either K.eq self.now other.now }
    {
        Union {
            own: self.iter(),
            others: other.difference(self),
        }
    }

    /// Returns an iterator over the keys in exactly one of two sets: first the set's own keys that
    /// the other does not contain, then the other's that it does not contain, both in the order of
    /// their view.
    ///
    /// Allocates nothing. O(1); all steps together cost those of `iter` of both sets, plus one
    /// look-up for each key. std: `HashSet::symmetric_difference`.
    pub fn symmetric_difference<'a>(&'a self, other: &'a Self) -> SymmetricDifference<'a, K, H>
        ensures { result ≡ keys_of_one K.eq self.now other.now }
    {
        SymmetricDifference {
            own: self.difference(other),
            others: other.difference(self),
        }
    }

    /// Returns `true` if another set contains each key of this one.
    ///
    /// Stops at the first missing key. O(slots) expected. std:
    /// `HashSet::is_subset`.
    pub fn is_subset(&self, other: &Self) -> bool
        ensures { result ≡ list_all (contains K.eq other.now) (keys_of self.now.entries) }
    {
        self.iter().all(|key: &K| other.contains(key))
    }

    /// Returns `true` if this set contains each key of another.
    ///
    /// Stops at the first missing key. O(slots of the other) expected. std:
    /// `HashSet::is_superset`.
    pub fn is_superset(&self, other: &Self) -> bool
        ensures { result ≡ list_all (contains K.eq self.now) (keys_of other.now.entries) }
    {
        other.is_subset(self)
    }

    /// Returns `true` if no key is in both sets.
    ///
    /// Stops at the first key in both. O(slots) expected. std: `HashSet::is_disjoint`.
    pub fn is_disjoint(&self, other: &Self) -> bool
        ensures { result
            ≡ list_all (λ key. not (contains K.eq other.now key)) (keys_of self.now.entries) }
    {
        self.iter().all(|key: &K| !other.contains(key))
    }
}
