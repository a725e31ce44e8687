//! Calls that lend the values of a map, by key, by a known hash or all of them, and the look-up
//! that also returns the map's own key.
ghost use Rattle.std.specs.Prelude.{◌≡◌, IfSome, IsTrue, IsSome, Some, true, is_some};
ghost use Rattle.std.specs.Option.{option_map, option_copied_mut, option_copied};
ghost use Rattle.collections.specs.Maps.{IsUnique, get_by, map_with_value};
ghost use Rattle.collections.specs.StoredKeys.{key_by};
ghost use Rattle.std.specs.Borrow.{sem};
ghost use Rattle.collections.specs.Changes.{Calls, Retains, Holds, Removes};
ghost use Rattle.collections.specs.Hashes.{HaveHash};
ghost use Rattle.collections.specs.Slots.{LosesSlots, KeepsSlots};
ghost use Rattle.collections.specs.SetChanges.{SwapsKey};

use crate::calling::{called_with, fact_asks};
use crate::hash_map::HashMap;
use crate::key_form::{FormProbe, KeyForm, pair_by, value_hashed};
use bucket_table::hash_table::ResizeRule;
use bucket_table::key_hash::KeyHash;
use std::ops::Index;

impl<K: Eq, V, H: KeyHash<K>> HashMap<K, V, H> {
    /// Returns the pair under `key`, a key or a form of one: the map's own key and its value;
    /// `None` if absent.
    ///
    /// Moves no pairs and allocates nothing. O(1) expected. std: `HashMap::get_key_value`.
    #[inline(always)]
    pub fn get_key_value<Q: KeyForm<K, H>>(&self, key: Q) -> Option<(&K, &V)>
        ensures key { option_map (λ pair. pair.0.now) result ≡ key_by (Q.stands_for key) self.now }
        ensures same_key { IfSome result (λ pair. IsTrue (Q.stands_for key pair.0.now)) }
        ensures value { option_map (λ pair. pair.1.now) result
            ≡ get_by (Q.stands_for key) self.now }
    {
        self.room.fact_fits();
        pair_by(&self.table, key)
    }

    /// States that no two keys are equal. Does nothing at run time.
    pub(crate) fn fact_sound(&self)
        ensures { IsUnique K.eq self.now }
    {
        self.room.fact_fits();
        self.table.fact_sound();
    }

    /// Returns the value under the keys that a form stands for, which have this hash; `None` if the
    /// map has none of them.
    ///
    /// Moves no pairs and allocates nothing. O(1) expected.
    #[inline(always)]
    pub(super) fn get_hashed<Q: KeyForm<K, H>>(&self, hash: u64, key: Q) -> Option<&V>
        requires hashed { HaveHash (Q.stands_for key) (H.hash_of self.now.hasher) hash }
        ensures { option_copied result ≡ get_by (Q.stands_for key) self.now }
    {
        self.room.fact_fits();
        value_hashed(&self.table, hash, key)
    }
}

/// The value under `key`, a key or a form of one, which the map has to contain.
///
/// Moves no pairs. O(1) expected. std: `HashMap::index`.
impl<K: Eq, V, H: KeyHash<K>, Q: KeyForm<K, H>> Index<Q> for HashMap<K, V, H> {
    type Output = V;

    ghost can_index = { λ map key. IsSome (get_by (Q.stands_for key) map) };

    ghost index_gives = { λ map key value. get_by (Q.stands_for key) map ≡ Some value };

    #[inline(always)]
    fn index(&self, key: Q) -> &V {
        self.get(key).unwrap()
    }
}

impl<K: Eq + Drop, V: Drop, H: KeyHash<K>> HashMap<K, V, H> {
    ghost use Rattle.collections.specs.Loans.{LendsValue, LendsThere};

    /// Returns a mutable reference to the value under `key`, a key or a form of one; `None` if
    /// absent. When the borrow ends, the key has the value last written; the other keys keep
    /// theirs.
    ///
    /// Never fails. O(1) expected. scc: `HashMap::get_sync`.
    #[inline(always)]
    pub fn get_mut<Q: KeyForm<K, H>>(&mut self, key: Q) -> Option<&mut V>
        ensures* writes_back { sem 𝓛
            (LendsValue K.row V.row H.row K.PartialEq H.KeyHash self.entry (Q.stands_for key)
            result) }
        ensures value { option_copied_mut result ≡ get_by (Q.stands_for key) self.old }
    {
        let hash = key.hash_by(self.hasher());
        self.get_mut_hashed(hash, key)
    }

    /// Calls a function once with each key and a mutable reference to its value, in the order of
    /// the view. Each pair stays, with the value that the function left.
    ///
    /// Never fails and allocates nothing. O(slots), plus the function's calls. Like a loop over
    /// std's `iter_mut`.
    pub fn for_each_mut<F: FnMut(&K, &mut V)>(&mut self, mut f: F)
        requires callable { F.IsAlwaysCallable f }
        ensures written { (last : F) × Retains K.eq (λ state own before answer after next.
            (answer ≡ true) × F.step state own before tt after next) f self.old self.new last }
    {
        self.for_each_mut_ref(&mut f);
    }

    /// Like `for_each_mut`, but borrows the function; the contract gives its state after the call.
    ///
    /// Never fails and allocates nothing. O(slots), plus the function's calls. Like a loop over
    /// std's `iter_mut`.
    pub fn for_each_mut_ref<F: FnMut(&K, &mut V)>(&mut self, f: &mut F)
        requires callable { F.IsAlwaysCallable f.old }
        ensures again { F.IsAlwaysCallable f.new }
        ensures written { Retains K.eq (λ state own before answer after last. (answer ≡ true)
            × F.step state own before tt after last) f.old self.old self.new f.new }
    {
        let mut keep = |key: &K, value: &mut V|
            requires { F.IsAlwaysCallable f.now }
            ensures { (result ≡ true) × Calls (λ own before after.
                F.step f.entry.now own before tt after f.exit.now) key.now value.old value.new }
        { called_with(f, key, value) };
        fact_asks(&keep);
        self.retain_ref(&mut keep);
    }

    /// Returns a mutable reference to the value under the keys that a form stands for, which have
    /// this hash; `None` if the map has none of them.
    ///
    /// Never fails. O(1) expected.
    #[inline(always)]
    pub(super) fn get_mut_hashed<Q: KeyForm<K, H>>(&mut self, hash: u64, key: Q) -> Option<&mut V>
        requires hashed { HaveHash (Q.stands_for key) (H.hash_of self.old.hasher) hash }
        ensures* writes_back { sem 𝓛
            (LendsValue K.row V.row H.row K.PartialEq H.KeyHash self.entry (Q.stands_for key)
            result) }
        ensures value { option_copied_mut result ≡ get_by (Q.stands_for key) self.old }
    {
        self.room.fact_fits();
        self.table.fact_sound();
        self.table
            .get_mut_by(hash, &mut FormProbe::<Q, H>::new(key))
    }

    /// Returns a mutable reference to the value under the keys that a form stands for, which have
    /// this hash. The map has one of them.
    ///
    /// Moves no pairs and allocates nothing. O(1) expected.
    #[inline(always)]
    pub(super) fn value_mut_hashed<Q: KeyForm<K, H>>(&mut self, hash: u64, key: Q) -> &mut V
        requires hashed { HaveHash (Q.stands_for key) (H.hash_of self.old.hasher) hash }
        requires there { IsSome (get_by (Q.stands_for key) self.old) }
        ensures* writes_back { sem 𝓛
            (LendsThere K.row V.row H.row K.PartialEq H.KeyHash self.entry (Q.stands_for key)
            result) }
        ensures value { get_by (Q.stands_for key) self.old ≡ Some result.now }
        ensures written { (value : V) → Holds K.eq (Q.stands_for key) self.old result.now value
            (map_with_value (Q.stands_for key) self.old value) }
    {
        self.room.fact_fits();
        self.table.fact_sound();
        match self.table.spot_by(hash, &mut FormProbe::<Q, H>::new(key)) {
            Some(spot) => self.table.entry_mut_at(&spot).1,
            None => unreachable!(),
        }
    }

    /// Removes the pair under the keys that a form stands for, which have this hash, and returns
    /// it; `None` if the map has none of them.
    ///
    /// Never fails. O(1) expected, plus any resize.
    #[inline(always)]
    pub(super) fn remove_hashed<Q: KeyForm<K, H>>(&mut self, hash: u64, key: Q) -> Option<(K, V)>
        requires hashed { HaveHash (Q.stands_for key) (H.hash_of self.old.hasher) hash }
        ensures map { Removes K.eq (Q.stands_for key) self.old result self.new }
        ensures slots { LosesSlots (is_some result) self.old self.new }
    {
        self.room.fact_fits();
        self.table.fact_sound();
        let taken = self.table.take_by(hash, &mut FormProbe::<Q, H>::new(key), ResizeRule::Counted);
        self.table.fact_sound();
        taken
    }
}

impl<K: Eq + Drop, H: KeyHash<K>> HashMap<K, (), H> {
    /// Replaces the key that is equal to `key`, and returns it. If there is none, the call returns
    /// `key` as an error, and nothing changes.
    ///
    /// Never fails. O(1) expected.
    pub(crate) fn swap_key(&mut self, key: K) -> Result<K, K>
        ensures keys { SwapsKey K.eq key self.old result self.new }
        ensures slots { KeepsSlots self.old self.new }
    {
        self.room.fact_fits();
        self.table.fact_sound();
        let outcome = self.table.replace(key, ());
        self.table.fact_sound();
        match outcome {
            Ok((own, ())) => Ok(own),
            Err((back, ())) => Err(back),
        }
    }
}
