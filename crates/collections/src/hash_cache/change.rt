//! Calls that change values of a cache, or remove the pairs for which a function returns `false`.
ghost use Rattle.std.specs.Prelude.{◌≡◌, is_some, false, true};
ghost use Rattle.std.specs.Borrow.{Bor, MutBor, sem};
ghost use Rattle.std.specs.Option.{option_copied_mut};
ghost use Rattle.bucket_table.specs.Map.LookingUp.{IsThere};
ghost use Rattle.bucket_table.specs.Views.ArraysView.{pairs_of};
ghost use Rattle.collections.specs.CacheWrites.{IsWritten};
ghost use Rattle.collections.specs.Changes.{Calls, Retains, Rewrites};
ghost use Rattle.collections.specs.Maps.{get_by, map_of};
ghost use Rattle.collections.specs.Retaining.{LeavesBuckets};

use crate::calling::{called_with, fact_asks};
use crate::hash_cache::HashCache;
use crate::key_form::{FormProbe, KeyForm};
use bucket_slots::bucket::CACHE;
use bucket_table::key_hash::KeyHash;

impl<K: Eq + Drop, V: Drop, H: KeyHash<K>> HashCache<K, V, H> {
    ghost use Rattle.collections.specs.CacheLends.{LendsValue};

    /// Calls a function with the key and a mutable reference to the value under `key`, a key or a
    /// form of one, and returns what the function returns; `None` if the cache does not contain the
    /// key. The pair isn't touched: its place in the LRU order stays.
    ///
    /// Never fails. O(1) expected.
    #[inline(always)]
    pub fn update<Q: KeyForm<K, H>, R, F: FnOnce(&K, &mut V) -> R>(
        &mut self,
        key: Q,
        change: F,
    ) -> Option<R>
        requires callable { (own : Bor K) (value : MutBor V)
            → IsThere (Q.stands_for key) (pairs_of self.old.arrays) (own.now, value.now)
            → F.pre change own value }
        ensures map { Rewrites K.eq (Q.stands_for key)
            (λ own before answer after. F.post change own before answer after) (map_of self.old)
            result (map_of self.new) }
        ensures place { IsWritten false (Q.stands_for key) K.eq (is_some result) self.old
            self.new }
    {
        self.room.fact_fits();
        self.table.fact_sound();
        let hash = key.hash_by(self.table.hasher());
        let outcome = self
            .table
            .update_by(hash, &mut FormProbe::<Q, H>::new(key), change);
        self.table.fact_sound();
        outcome
    }

    /// Returns a mutable reference to the value under `key`, a key or a form of one, and touches
    /// its pair as `get` does; `None` if the cache does not contain the key. When the borrow ends,
    /// the key has the value last written; the other keys keep theirs.
    ///
    /// Never fails. O(1) expected.
    #[inline(always)]
    pub fn get_mut<Q: KeyForm<K, H>>(&mut self, key: Q) -> Option<&mut V>
        ensures* writes_back { sem 𝓛
            (LendsValue K.row V.row H.row K.PartialEq H.KeyHash self.entry (Q.stands_for key) result
            (IsWritten true (Q.stands_for key) K.eq)) }
        ensures value { option_copied_mut result ≡ get_by (Q.stands_for key) (map_of self.old) }
    {
        self.room.fact_fits();
        self.table.fact_sound();
        let hash = key.hash_by(self.table.hasher());
        self.table
            .touch_mut_by(hash, &mut FormProbe::<Q, H>::new(key))
    }

    /// Returns a mutable reference to the value under `key`, a key or a form of one, without
    /// touching its pair; `None` if absent. When the borrow ends, the key has the value last
    /// written; the other keys keep theirs.
    ///
    /// Never fails. O(1) expected.
    #[inline(always)]
    pub fn peek_mut<Q: KeyForm<K, H>>(&mut self, key: Q) -> Option<&mut V>
        ensures* writes_back { sem 𝓛
            (LendsValue K.row V.row H.row K.PartialEq H.KeyHash self.entry (Q.stands_for key) result
            (IsWritten false (Q.stands_for key) K.eq)) }
        ensures value { option_copied_mut result ≡ get_by (Q.stands_for key) (map_of self.old) }
    {
        self.room.fact_fits();
        self.table.fact_sound();
        let hash = key.hash_by(self.table.hasher());
        self.table
            .get_mut_by(hash, &mut FormProbe::<Q, H>::new(key))
    }

    /// Calls a function once with each key and a mutable reference to its value, and drops each
    /// pair for which it returns `false`; the others stay, with the values that it left and in
    /// their LRU order. No pair is touched.
    ///
    /// Never fails and allocates nothing. O(slots), plus the function's calls. scc:
    /// `HashCache::retain_sync`.
    #[inline(always)]
    pub fn retain<F: FnMut(&K, &mut V) -> bool>(&mut self, f: &mut F)
        requires callable { F.IsAlwaysCallable f.old }
        ensures again { F.IsAlwaysCallable f.new }
        ensures retained { Retains K.eq
            (λ state own before answer after last. F.step state own before answer after last)
            f.old (map_of self.old) (map_of self.new) f.new }
        ensures buckets { LeavesBuckets CACHE self.old.arrays self.new.arrays }
    {
        self.room.fact_fits();
        let _ = self.table.retain(f, &());
        self.table.fact_sound();
    }

    /// Calls a function once with each key and a mutable reference to its value. Each pair stays in
    /// its place, with the value that the function left. No pair is touched.
    ///
    /// Never fails and allocates nothing. O(slots), plus the function's calls. Like a loop over
    /// std's `iter_mut`.
    pub fn for_each_mut<F: FnMut(&K, &mut V)>(&mut self, f: &mut F)
        requires callable { F.IsAlwaysCallable f.old }
        ensures again { F.IsAlwaysCallable f.new }
        ensures written { Retains K.eq (λ state own before answer after last. (answer ≡ true)
            × F.step state own before tt after last) f.old (map_of self.old) (map_of self.new)
            f.new }
        ensures buckets { LeavesBuckets CACHE self.old.arrays self.new.arrays }
    {
        let mut keep = |key: &K, value: &mut V|
            requires { F.IsAlwaysCallable f.now }
            ensures { (result ≡ true) × Calls (λ own before after.
                F.step f.entry.now own before tt after f.exit.now) key.now value.old value.new }
        { called_with(f, key, value) };
        fact_asks(&keep);
        self.retain(&mut keep);
    }
}
