//! Hashes of std as hashes of keys.
ghost use Rattle.std.specs.Prelude.{◌≡◌};

use crate::key_hash::KeyHash;
use std::hash::{BuildHasher, Hash};

/// Hashes a key as std's maps do: a `BuildHasher` makes a new hasher for each key, and the key is
/// written into it.
#[derive(Clone, Drop)]
pub struct StdHash<S> {
    /// The builder of the hashers.
    pub builder: S,
}

impl<S> StdHash<S> {
    /// Returns a hash function that takes its hashers from a builder.
    pub fn new(builder: S) -> Self
        ensures { result.builder ≡ builder }
    {
        StdHash { builder }
    }
}

impl<S: Default> Default for StdHash<S> {
    ghost is_default = { λ hasher. S.is_default hasher.builder };

    fn default() -> StdHash<S> {
        StdHash::new(S::default())
    }
}

impl<K: Eq + Hash, S: BuildHasher> KeyHash<K> for StdHash<S> {
    ghost use Rattle.std.proofs.Common.{ap, arith};
    ghost use Rattle.std.proofs.Math.Nat.{mod-lt};
    ghost use Rattle.bucket_table.specs.Map.StdHashes.{std_hash};

    ghost hash_of = { λ hasher key. std_hash S.Hasher.finish S.Hasher.write
        (S.build_hasher hasher.builder) (K.hash_input key) };

    fn hash_one(&self, key: &K) -> u64 {
        self.builder.hash_one(key)
    }

    ghost fits = { λ hasher key. mod-lt _ (omega arith) };

    ghost alike = { λ hasher key other same. ap (std_hash S.Hasher.finish S.Hasher.write
        (S.build_hasher hasher.builder)) (K.respects_eq key other same) };
}
