//! How many slots a set has, as in a map: reserving room, and freeing slots.
ghost use Rattle.std.specs.Prelude.{◌≡◌, ◌^◌, [], min};
ghost use Rattle.collections.specs.Capacity.{GainsRoom, IsMinimumFor, MakesRoom, ShrinksTo};
ghost use Rattle.collections.specs.Capacity.{ShrinksToFit};
ghost use Rattle.collections.specs.Changes.{Reserves};
ghost use Rattle.collections.specs.Maps.{IsEmpty};

use crate::default_hash::DefaultHash;
use crate::hash_map::HashMap;
use crate::hash_set::HashSet;
use bucket_table::key_hash::KeyHash;
use std::alloc::{AllocError, Global};
use std::hash::Hash;

impl<K: Eq, H: KeyHash<K>> HashSet<K, H> {
    ghost use Rattle.collections.specs.Room.{SetFits};

    /// Returns an empty set whose first insertion allocates room for `keys` keys, as
    /// `HashMap::with_capacity_and_hasher` does for pairs. Allocates nothing.
    ///
    /// O(1). Like std's `with_capacity_and_hasher`, which allocates.
    pub fn with_capacity_and_hasher(alloc: Global, keys: usize, hasher: H) -> Self
        requires { SetFits K.row H.row K.PartialEq H.KeyHash }
        ensures empty { IsEmpty result }
        ensures hasher { result.hasher ≡ hasher }
        ensures minimum { IsMinimumFor keys result.minimum }
        ensures maximum { result.maximum ≡ 2 ^ 63 }
        ensures slots { (result.slots ≡ 0) × (result.old_slots ≡ 0) }
        ensures buckets { result.bucket_lens ≡ [] }
    {
        HashSet {
            map: HashMap::with_capacity_and_hasher(alloc, keys, hasher),
        }
    }

    /// Returns an empty set whose minimum is `slots`, limited to 2^63. Allocates nothing: the first
    /// insertion allocates an array.
    ///
    /// O(1). scc: `HashSet::with_capacity_and_hasher`.
    pub fn with_minimum(alloc: Global, hasher: H, slots: usize) -> Self
        requires { SetFits K.row H.row K.PartialEq H.KeyHash }
        ensures empty { IsEmpty result }
        ensures hasher { result.hasher ≡ hasher }
        ensures minimum { result.minimum ≡ min slots (2 ^ 63) }
        ensures maximum { result.maximum ≡ 2 ^ 63 }
        ensures slots { (result.slots ≡ 0) × (result.old_slots ≡ 0) }
        ensures buckets { result.bucket_lens ≡ [] }
    {
        HashSet {
            map: HashMap::with_minimum(alloc, hasher, slots),
        }
    }
}

impl<K: Eq + Hash> HashSet<K, DefaultHash> {
    /// Returns an empty set that uses std's default hasher, and whose first insertion allocates
    /// room for `keys` keys, as `with_capacity_and_hasher` does. Allocates nothing.
    ///
    /// O(1). Like std's `with_capacity`, which allocates.
    pub fn with_capacity(alloc: Global, keys: usize) -> Self
        ensures empty { IsEmpty result }
        ensures minimum { IsMinimumFor keys result.minimum }
        ensures maximum { result.maximum ≡ 2 ^ 63 }
        ensures slots { (result.slots ≡ 0) × (result.old_slots ≡ 0) }
        ensures buckets { result.bucket_lens ≡ [] }
    {
        Self::with_capacity_and_hasher(alloc, keys, DefaultHash::default())
    }
}

impl<K: Eq + Drop, H: KeyHash<K>> HashSet<K, H> {
    /// Raises the minimum, as `HashMap::raise_minimum` does, and returns by how much. The keys
    /// stay. The contract doesn't promise that slots are allocated.
    ///
    /// Never fails. O(slots). scc: `HashSet::reserve`.
    pub fn raise_minimum(&mut self, additional: usize) -> usize
        ensures { Reserves K.eq additional self.old result self.new }
    {
        self.map.raise_minimum(additional)
    }

    /// Makes room for `additional` keys, as `HashMap::try_reserve` does for pairs. The minimum and
    /// the keys stay.
    ///
    /// # Errors
    ///
    /// Allocation failure, or more keys than any array can take: the set keeps all keys. In the
    /// second case nothing changes.
    ///
    /// O(slots). Like std's `try_reserve`.
    pub fn try_reserve(&mut self, additional: usize) -> Result<(), AllocError>
        ensures { MakesRoom K.eq additional self.old result self.new }
    {
        self.map.try_reserve(additional)
    }

    /// Makes room, if it can be allocated, for keys of which at least `coming` come, as in a map.
    pub(crate) fn reserve_for(&mut self, coming: usize)
        ensures { GainsRoom K.eq coming self.old self.new }
    {
        self.map.reserve_for(coming);
    }

    /// Sets the minimum to 0, and leaves as few slots as the keys need, as `HashMap::shrink_to_fit`
    /// does. The keys stay.
    ///
    /// # Errors
    ///
    /// Allocation failure: the set keeps all keys, and the minimum is 0. It can't fail if the set
    /// is empty, or has as few slots already.
    ///
    /// O(slots). Like std's `shrink_to_fit`, which can't fail.
    pub fn shrink_to_fit(&mut self) -> Result<(), AllocError>
        ensures { ShrinksToFit K.eq self.old result self.new }
    {
        self.map.shrink_to_fit()
    }

    /// Sets the minimum to 0, and leaves no more slots than `keys` keys need, as
    /// `HashMap::shrink_to` does. The keys stay.
    ///
    /// # Errors
    ///
    /// Allocation failure: the set keeps all keys, and the minimum is 0. It can't fail if the set
    /// has as few slots already.
    ///
    /// O(slots). Like std's `shrink_to`, which can't fail.
    pub fn shrink_to(&mut self, keys: usize) -> Result<(), AllocError>
        ensures { ShrinksTo K.eq keys self.old result self.new }
    {
        self.map.shrink_to(keys)
    }
}
