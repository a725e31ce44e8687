//! Forms in which a key can be looked up, such as a `&str` for a `String`.
ghost use Rattle.std.specs.Prelude.{◌≡◌, Bool, IfSome, IsTrue, true, string_bytes};
ghost use Rattle.std.specs.Borrow.{Bor};
ghost use Rattle.std.specs.Option.{option_copied, option_map};
ghost use Rattle.std.specs.Str.{bytes_eq};
ghost use Rattle.bucket_table.specs.Map.LookingUp.{IsThere};
ghost use Rattle.bucket_table.specs.Views.ArraysView.{pairs_of};
ghost use Rattle.collections.specs.Hashes.{HaveHash};
ghost use Rattle.collections.specs.Maps.{IsUnique, get_by, map_of};
ghost use Rattle.collections.specs.Removals.{AsksThere};
ghost use Rattle.collections.specs.StoredKeys.{key_by};

mod slices;
mod texts;
mod to_key;

use bucket_slots::bucket::KeyProbe;
use bucket_slots::lru::LruList;
use bucket_table::hash_table::HashTable;
use bucket_table::key_hash::{KeyHash, StdHash};
use std::alloc::Allocator;
use std::hash::{BuildHasher, Hash};
use std::marker::PhantomData;
pub use to_key::ToKey;

/// A form in which a key can be looked up, such as a `&str` for a `String`. It stands for a class
/// of equal keys, and has their hash. std uses `Borrow` for this, scc `Equivalent`.
pub trait KeyForm<K: Eq, H: KeyHash<K>>: Copy {
    /// Whether the form stands for a key.
    ghost stands_for: { Self → K → Bool };

    /// Returns whether it stands for a key.
    fn stands_for(&self, key: &K) -> bool
        ensures { result ≡ stands_for self.now key.now };

    /// Returns the hash of the keys that it stands for.
    fn hash_by(&self, hasher: &H) -> u64
        ensures { (key : K) → stands_for self.now key ≡ true → H.hash_of hasher.now key ≡ result };

    /// If it stands for a key, it stands for exactly the keys that are equal to that one.
    ghost alike: { (form : Self) (key other : K)
        → stands_for form key ≡ true
        → stands_for form other ≡ K.eq key other };
}

/// A reference to a key stands for the keys that are equal to it.
impl<'k, K: Eq, H: KeyHash<K>> KeyForm<K, H> for &'k K {
    ghost stands_for = { λ form. K.eq form.now };

    fn stands_for(&self, key: &K) -> bool {
        **self == *key
    }

    fn hash_by(&self, hasher: &H) -> u64 {
        hasher.hash_one(*self)
    }

    ghost alike = { λ form. K.Eq.laws.congr form.now };
}

/// A text stands for the strings that have its bytes.
impl<'s, A: Allocator, S: BuildHasher> KeyForm<String<A>, StdHash<S>> for &'s str {
    ghost use Rattle.std.specs.Cmp.Lexicographic.{nat_list_eq_equiv};

    ghost stands_for = { λ form key. bytes_eq form.now (string_bytes key) };

    fn stands_for(&self, key: &String<A>) -> bool {
        *self == key.as_str()
    }

    fn hash_by(&self, hasher: &StdHash<S>) -> u64 {
        hasher.builder.hash_one(self)
    }

    ghost alike = { λ form key other. nat_list_eq_equiv.congr form.now
        (string_bytes key) (string_bytes other) };
}

/// A slice stands for the vectors that have its items.
impl<'s, T: Eq + Hash, A: Allocator, S: BuildHasher> KeyForm<Vec<T, A>, StdHash<S>> for &'s [T] {
    ghost use Rattle.std.specs.Cmp.Lexicographic.{lists_equiv, pointwise};

    ghost stands_for = { λ form key. pointwise T.eq form.now key.items };

    fn stands_for(&self, key: &Vec<T, A>) -> bool {
        *self == key.as_slice()
    }

    fn hash_by(&self, hasher: &StdHash<S>) -> u64 {
        hasher.builder.hash_one(self)
    }

    ghost alike = { λ form key other. (lists_equiv T.Eq.laws).congr form.now
        key.items other.items };
}

/// A probe for the keys that a form stands for.
#[derive(Drop)]
pub(crate) struct FormProbe<Q: Copy, H> {
    form: Q,
    asked: u64,
    hashed_by: PhantomData<H>,
}

impl<Q: Copy, H> FormProbe<Q, H> {
    /// Returns a probe for a form, which has compared no key yet.
    pub(crate) fn new(form: Q) -> Self
        ensures form { result.form ≡ form }
        ensures asked { result.asked ≡ 0 }
    {
        FormProbe {
            form,
            asked: 0,
            hashed_by: PhantomData,
        }
    }
}

impl<K: Eq, H: KeyHash<K>, Q: KeyForm<K, H>> KeyProbe<K> for FormProbe<Q, H> {
    ghost matches = { λ probe. Q.stands_for probe.form };

    ghost asked = { λ probe. probe.asked };

    fn same(&mut self, key: &K) -> bool {
        self.asked = self.asked.saturating_add(1);
        self.form.stands_for(key)
    }
}

/// Returns the value under the keys that a form stands for; `None` if a table has none of them.
///
/// Moves no pairs and allocates nothing. O(1) expected.
#[inline(always)]
pub(crate) fn value_by<K: Eq, V, H: KeyHash<K>, L: LruList, Q: KeyForm<K, H>, const TYPE: u8>(
    table: &HashTable<K, V, H, L, TYPE>,
    form: Q,
) -> Option<&V>
    ensures { option_copied result ≡ get_by (Q.stands_for form) (map_of table.now) }
{
    let hash = form.hash_by(table.hasher());
    value_hashed(table, hash, form)
}

/// Returns the value under the keys that a form stands for, which have this hash; `None` if a table
/// has none of them.
///
/// Moves no pairs and allocates nothing. O(1) expected.
#[inline(always)]
pub(crate) fn value_hashed<K: Eq, V, H: KeyHash<K>, L: LruList, Q: KeyForm<K, H>, const TYPE: u8>(
    table: &HashTable<K, V, H, L, TYPE>,
    hash: u64,
    form: Q,
) -> Option<&V>
    requires hashed { HaveHash (Q.stands_for form) (H.hash_of table.now.hasher) hash }
    ensures { option_copied result ≡ get_by (Q.stands_for form) (map_of table.now) }
{
    table.fact_sound();
    match table.peek_entry_by(hash, &mut FormProbe::<Q, H>::new(form)) {
        Some((_, value)) => Some(value),
        None => None,
    }
}

/// Returns the pair under the keys that a form stands for: the table's own key, and its value;
/// `None` if the table has none of them.
///
/// Moves no pairs and allocates nothing. O(1) expected.
#[inline(always)]
pub(crate) fn pair_by<K: Eq, V, H: KeyHash<K>, L: LruList, Q: KeyForm<K, H>, const TYPE: u8>(
    table: &HashTable<K, V, H, L, TYPE>,
    form: Q,
) -> Option<(&K, &V)>
    ensures key { option_map (λ pair. pair.0.now) result
        ≡ key_by (Q.stands_for form) (map_of table.now) }
    ensures same_key { IfSome result (λ pair. IsTrue (Q.stands_for form pair.0.now)) }
    ensures value { option_map (λ pair. pair.1.now) result
        ≡ get_by (Q.stands_for form) (map_of table.now) }
    ensures there { IfSome result (λ pair.
        IsThere (Q.stands_for form) (pairs_of table.now.arrays) (pair.0.now, pair.1.now)) }
{
    table.fact_sound();
    let hash = form.hash_by(table.hasher());
    match table.peek_entry_by(hash, &mut FormProbe::<Q, H>::new(form)) {
        Some((own, value)) => Some((own, value)),
        None => None,
    }
}

/// Returns what a function returns for the pair under the keys that a form stands for. If the table
/// has none, the function isn't called, and the result is `false`.
pub(crate) fn asks<
    K: Eq,
    V,
    H: KeyHash<K>,
    L: LruList,
    Q: KeyForm<K, H>,
    F: FnOnce(&K, &V) -> bool,
    const TYPE: u8,
>(table: &HashTable<K, V, H, L, TYPE>, form: Q, condition: F) -> bool
    requires callable { (own : Bor K) (value : Bor V)
        → IsThere (Q.stands_for form) (pairs_of table.now.arrays) (own.now, value.now)
        → F.pre condition own value }
    ensures asked { AsksThere K.eq (Q.stands_for form)
        (λ own value answer. F.post condition own value answer) (map_of table.now) result }
    ensures unique { IsUnique K.eq (map_of table.now) }
{
    table.fact_sound();
    match pair_by(table, form) {
        Some((own, value)) => condition(own, value),
        None => false,
    }
}
