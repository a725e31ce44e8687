//! Calls that remove the pairs of a map that a function picks.
ghost use Rattle.std.specs.Prelude.{is_some};
ghost use Rattle.std.specs.Borrow.{Bor};
ghost use Rattle.bucket_table.specs.Map.LookingUp.{IsThere};
ghost use Rattle.collections.specs.Removals.{RemovesIf};
ghost use Rattle.collections.specs.Slots.{LosesSlots};
ghost use Rattle.collections.specs.Changes.{Retains};

use crate::hash_map::HashMap;
use crate::key_form::{KeyForm, asks};
use bucket_table::key_hash::KeyHash;

impl<K: Eq + Drop, V: Drop, H: KeyHash<K>> HashMap<K, V, H> {
    /// Calls a function with the pair under `key`, a key or a form of one. If it returns `true`,
    /// the pair is removed and returned. If it returns `false`, or if the key is absent and the
    /// function isn't called, the result is `None`, and the map is unchanged.
    ///
    /// Never fails. O(1) expected, plus any resize. scc: `HashMap::remove_if_sync`, whose function
    /// may write the value.
    pub fn remove_if<Q: KeyForm<K, H>, F: FnOnce(&K, &V) -> bool>(
        &mut self,
        key: Q,
        condition: F,
    ) -> Option<(K, V)>
        requires callable { (own : Bor K) (value : Bor V)
            → IsThere (Q.stands_for key) self.old.entries (own.now, value.now)
            → F.pre condition own value }
        ensures map { RemovesIf K.eq (Q.stands_for key)
            (λ own value answer. F.post condition own value answer) self.old result self.new }
        ensures slots { LosesSlots (is_some result) self.old self.new }
    {
        self.room.fact_fits();
        if asks(&self.table, key, condition) {
            self.remove(key)
        } else {
            None
        }
    }

    /// Calls a function once with each key and a mutable reference to its value, and drops each
    /// pair for which it returns `false`; the others stay, with the values that it left.
    ///
    /// Never fails and allocates nothing. O(slots), plus the function's calls. std:
    /// `HashMap::retain`.
    #[inline(always)]
    pub fn retain<F: FnMut(&K, &mut V) -> bool>(&mut self, mut f: F)
        requires callable { F.IsAlwaysCallable f }
        ensures retained { (last : F) × Retains K.eq
            (λ state own before answer after next. F.step state own before answer after next)
            f self.old self.new last }
    {
        self.retain_ref(&mut f);
    }

    /// Like `retain`, but borrows the function; the contract gives its state after the call.
    ///
    /// Never fails and allocates nothing. O(slots), plus the function's calls. scc:
    /// `HashMap::retain_sync`.
    #[inline(always)]
    pub fn retain_ref<F: FnMut(&K, &mut V) -> bool>(&mut self, f: &mut F)
        requires callable { F.IsAlwaysCallable f.old }
        ensures again { F.IsAlwaysCallable f.new }
        ensures retained { Retains K.eq
            (λ state own before answer after last. F.step state own before answer after last)
            f.old self.old self.new f.new }
    {
        self.room.fact_fits();
        let _ = self.table.retain(f, &());
        self.table.fact_sound();
    }
}
