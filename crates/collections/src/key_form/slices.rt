//! Slices as the form of keys that have the items of a slice but aren't a `Vec`.
ghost use Rattle.std.specs.Box.{boxed_slice_items};
ghost use Rattle.std.specs.Cow.{cow_slice_items};

use crate::key_form::KeyForm;
use bucket_table::key_hash::StdHash;
use std::alloc::Allocator;
use std::borrow::CowSlice;
use std::boxed::BoxedSlice;
use std::hash::{BuildHasher, Hash};

/// A slice stands for the slices that have its items.
impl<'s, 'b, T: Eq + Hash, S: BuildHasher> KeyForm<&'b [T], StdHash<S>> for &'s [T] {
    ghost use Rattle.std.specs.Cmp.Lexicographic.{lists_equiv, pointwise};

    ghost stands_for = { λ form key. pointwise T.eq form.now key.now };

    fn stands_for(&self, key: &&'b [T]) -> bool {
        *self == *key
    }

    fn hash_by(&self, hasher: &StdHash<S>) -> u64 {
        hasher.builder.hash_one(self)
    }

    ghost alike = { λ form key other. (lists_equiv T.Eq.laws).congr form.now key.now other.now };
}

/// A slice stands for the boxed slices that have its items.
impl<'s, T: Eq + Hash, A: Allocator, S: BuildHasher> KeyForm<BoxedSlice<T, A>, StdHash<S>>
    for &'s [T] {
    ghost use Rattle.std.specs.Cmp.Lexicographic.{lists_equiv, pointwise};

    ghost stands_for = { λ form key. pointwise T.eq form.now (boxed_slice_items key) };

    fn stands_for(&self, key: &BoxedSlice<T, A>) -> bool {
        *self == key.as_slice()
    }

    fn hash_by(&self, hasher: &StdHash<S>) -> u64 {
        hasher.builder.hash_one(self)
    }

    ghost alike = { λ form key other. (lists_equiv T.Eq.laws).congr form.now
        (boxed_slice_items key) (boxed_slice_items other) };
}

/// A slice stands for the slices, borrowed or owned, that have its items.
impl<'s, 'b, T: Eq + Hash, A: Allocator, S: BuildHasher> KeyForm<CowSlice<'b, T, A>, StdHash<S>>
    for &'s [T] {
    ghost use Rattle.std.specs.Cmp.Lexicographic.{lists_equiv, pointwise};

    ghost stands_for = { λ form key. pointwise T.eq form.now (cow_slice_items key) };

    fn stands_for(&self, key: &CowSlice<'b, T, A>) -> bool {
        *self == key.as_slice()
    }

    fn hash_by(&self, hasher: &StdHash<S>) -> u64 {
        hasher.builder.hash_one(self)
    }

    ghost alike = { λ form key other. (lists_equiv T.Eq.laws).congr form.now
        (cow_slice_items key) (cow_slice_items other) };
}
