//! Texts as the form of keys that have the bytes of a text but aren't a `String`.
ghost use Rattle.std.specs.Prelude.{◌≡◌, true};
ghost use Rattle.std.specs.Box.{boxed_str_bytes};
ghost use Rattle.std.specs.Cow.{cow_str_bytes};
ghost use Rattle.std.specs.Rc.{rc_str_bytes};
ghost use Rattle.std.specs.Str.{bytes_eq};

use crate::key_form::KeyForm;
use bucket_table::key_hash::{KeyHash, StdHash};
use std::alloc::Allocator;
use std::borrow::CowStr;
use std::boxed::BoxedStr;
use std::hash::BuildHasher;
use std::rc::RcStr;

/// A text stands for the texts that have its bytes.
impl<'s, 'b, S: BuildHasher> KeyForm<&'b str, StdHash<S>> for &'s str {
    ghost use Rattle.std.specs.Cmp.Lexicographic.{nat_list_eq_equiv};

    ghost stands_for = { λ form key. bytes_eq form.now key.now };

    fn stands_for(&self, key: &&'b str) -> bool {
        *self == *key
    }

    fn hash_by(&self, hasher: &StdHash<S>) -> u64
        ensures { (key : _) → bytes_eq self.now.now key.now ≡ true
            → ⟦<StdHash<S> as KeyHash<&'static str>>⟧.hash_of hasher.now key ≡ result }
    {
        hasher.builder.hash_one(self)
    }

    ghost alike = { λ form key other. nat_list_eq_equiv.congr form.now key.now other.now };
}

/// A text stands for the boxed texts that have its bytes.
impl<'s, A: Allocator, S: BuildHasher> KeyForm<BoxedStr<A>, StdHash<S>> for &'s str {
    ghost use Rattle.std.specs.Cmp.Lexicographic.{nat_list_eq_equiv};

    ghost stands_for = { λ form key. bytes_eq form.now (boxed_str_bytes key) };

    fn stands_for(&self, key: &BoxedStr<A>) -> bool {
        *self == key.as_str()
    }

    fn hash_by(&self, hasher: &StdHash<S>) -> u64 {
        hasher.builder.hash_one(self)
    }

    ghost alike = { λ form key other. nat_list_eq_equiv.congr form.now
        (boxed_str_bytes key) (boxed_str_bytes other) };
}

/// A text stands for the shared texts that have its bytes.
impl<'s, A: Allocator, S: BuildHasher> KeyForm<RcStr<A>, StdHash<S>> for &'s str {
    ghost use Rattle.std.specs.Cmp.Lexicographic.{nat_list_eq_equiv};

    ghost stands_for = { λ form key. bytes_eq form.now (rc_str_bytes key) };

    fn stands_for(&self, key: &RcStr<A>) -> bool {
        *self == key.as_str()
    }

    fn hash_by(&self, hasher: &StdHash<S>) -> u64 {
        hasher.builder.hash_one(self)
    }

    ghost alike = { λ form key other. nat_list_eq_equiv.congr form.now
        (rc_str_bytes key) (rc_str_bytes other) };
}

/// A text stands for the texts, borrowed or owned, that have its bytes.
impl<'s, 'b, A: Allocator, S: BuildHasher> KeyForm<CowStr<'b, A>, StdHash<S>> for &'s str {
    ghost use Rattle.std.specs.Cmp.Lexicographic.{nat_list_eq_equiv};

    ghost stands_for = { λ form key. bytes_eq form.now (cow_str_bytes key) };

    fn stands_for(&self, key: &CowStr<'b, A>) -> bool {
        *self == key.as_str()
    }

    fn hash_by(&self, hasher: &StdHash<S>) -> u64
        ensures { (key : _) → bytes_eq self.now.now (cow_str_bytes key) ≡ true
            → ⟦<StdHash<S> as KeyHash<CowStr<'static, A>>>⟧.hash_of hasher.now key ≡ result }
    {
        hasher.builder.hash_one(self)
    }

    ghost alike = { λ form key other. nat_list_eq_equiv.congr form.now
        (cow_str_bytes key) (cow_str_bytes other) };
}
