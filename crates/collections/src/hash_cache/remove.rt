//! The removal of a pair if a function returns `true` for it.
ghost use Rattle.std.specs.Prelude.{◌≡◌, IfNone, is_some};
ghost use Rattle.std.specs.Borrow.{Bor};
ghost use Rattle.bucket_table.specs.Map.LookingUp.{IsThere};
ghost use Rattle.bucket_table.specs.Views.ArraysView.{pairs_of};
ghost use Rattle.collections.specs.Maps.{map_of};
ghost use Rattle.collections.specs.Orders.{LeavesPlace};
ghost use Rattle.collections.specs.Removals.{RemovesIf};

use crate::hash_cache::HashCache;
use crate::key_form::{KeyForm, asks};
use bucket_table::key_hash::KeyHash;

impl<K: Eq + Drop, V: Drop, H: KeyHash<K>> HashCache<K, V, H> {
    /// Calls a function with the pair under `key`, a key or a form of one, without touching it. If
    /// it returns `true`, the pair is removed and returned. If it returns `false`, or if the key is
    /// absent and the function isn't called, the result is `None`, and nothing changes.
    ///
    /// Never fails. O(1) expected, plus any resize. scc: `HashCache::remove_if_sync`, whose
    /// function may write the value.
    pub fn remove_if<Q: KeyForm<K, H>, F: FnOnce(&K, &V) -> bool>(
        &mut self,
        key: Q,
        condition: F,
    ) -> Option<(K, V)>
        requires callable { (own : Bor K) (value : Bor V)
            → IsThere (Q.stands_for key) (pairs_of self.old.arrays) (own.now, value.now)
            → F.pre condition own value }
        ensures map { RemovesIf K.eq (Q.stands_for key)
            (λ own value answer. F.post condition own value answer) (map_of self.old) result
            (map_of self.new) }
        ensures unchanged { IfNone result (self.new ≡ self.old) }
        ensures place { LeavesPlace (Q.stands_for key) (is_some result) self.old.arrays
            self.new.arrays }
    {
        self.room.fact_fits();
        if asks(&self.table, key, condition) {
            self.remove(key)
        } else {
            None
        }
    }
}
