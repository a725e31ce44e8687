//! Keys and values as words of C, and the collections whose pairs are copied.
ghost use Rattle.std.specs.Prelude.{◌≡◌, ℕ, ◌↔◌, ◌<◌, IsTrue, length};
ghost use Rattle.bucket_slots.specs.Walking.{CallsEach};
ghost use Rattle.collections.specs.Maps.{map_of, pairs_in_bucket};
ghost use Rattle.bucket_calls.specs.Views.{Maps};

use crate::seed::SeededHash;
use collections::hash_cache::HashCache;
use collections::hash_map::HashMap;
use std::hash::Hash;

/// A key or a value, as a word of C.
pub trait Word {
    /// The word if no bytes are copied.
    ghost word: { Self → ℕ };

    /// The word next to a key that is copied as bytes.
    ghost beside: { Self → ℕ };

    /// Returns the word if no bytes are copied.
    fn word(&self) -> u64
        ensures { result ≡ word self.now };

    /// Returns the word next to a key that is copied as bytes.
    fn beside(&self) -> u64
        ensures { result ≡ beside self.now };
}

/// A `u64` is encoded as itself.
impl Word for u64 {
    ghost word = { λ own. own };

    ghost beside = { λ own. own };

    #[inline(always)]
    fn word(&self) -> u64 {
        *self
    }

    #[inline(always)]
    fn beside(&self) -> u64 {
        *self
    }
}

/// A byte string is encoded as 0; next to a key that is copied as bytes, as its length.
impl Word for Vec<u8> {
    ghost word = { λ own. 0 };

    ghost beside = { λ own. length own.items };

    #[inline(always)]
    fn word(&self) -> u64 {
        0
    }

    #[inline(always)]
    fn beside(&self) -> u64 {
        self.len() as u64
    }
}

/// A map or a cache, with its pairs in buckets.
pub trait Bucketed<K, V> {
    /// The map that the collection is.
    ghost map: { Self → Maps K V };

    /// Calls a function with each pair.
    fn each<F: FnMut(&K, &V)>(&self, f: &mut F)
        requires { F.IsAlwaysCallable f.old }
        ensures { CallsEach (λ state own value last. F.step state own value tt last) f.old
            (map self.now).entries f.new };

    /// Calls a function with each pair of one bucket, and returns whether there is such a bucket.
    fn each_in<F: FnMut(&K, &V)>(&self, bucket: usize, f: &mut F) -> bool
        requires { F.IsAlwaysCallable f.old }
        ensures there { IsTrue result ↔ bucket < length (map self.now).bucket_lens }
        ensures calls { CallsEach (λ state own value last. F.step state own value tt last) f.old
            (pairs_in_bucket (map self.now) bucket) f.new };
}

impl<K: Eq + Hash, V> Bucketed<K, V> for HashMap<K, V, SeededHash> {
    ghost map = { λ own. own };

    fn each<F: FnMut(&K, &V)>(&self, f: &mut F) {
        self.for_each_ref(f);
    }

    #[inline(always)]
    fn each_in<F: FnMut(&K, &V)>(&self, bucket: usize, f: &mut F) -> bool {
        self.for_each_in(bucket, f)
    }
}

impl<K: Eq + Hash, V> Bucketed<K, V> for HashCache<K, V, SeededHash> {
    ghost map = { map_of };

    fn each<F: FnMut(&K, &V)>(&self, f: &mut F) {
        self.for_each(f);
    }

    #[inline(always)]
    fn each_in<F: FnMut(&K, &V)>(&self, bucket: usize, f: &mut F) -> bool {
        self.for_each_in(bucket, f)
    }
}
