//! One hash for all maps: it multiplies twice, so that consecutive keys are spread over the
//! buckets.
ghost use Rattle.std.specs.Prelude.{◌≡◌, fold};
ghost use Rattle.bench_table.specs.Mixed as spec;
ghost use Rattle.bench_table.specs.Mixed.{mixed_alike, mixed_fits, shifted_in};

use bucket_table::key_hash::KeyHash;
use std::hash::{BuildHasher, Hasher};

/// An odd number whose set bits are spread out.
const MULTIPLIER: u64 = 11400714819323198485;

/// Multiplies a key, adds the upper half to the lower one, and multiplies again.
#[inline(always)]
#[tactic(auto, unfolding(crate::specs::Mixed::mixed))]
fn mixed(key: u64) -> u64
    ensures { result ≡ spec.mixed key }
{
    let once = key.wrapping_mul(MULTIPLIER);
    once.wrapping_add(once >> 32).wrapping_mul(MULTIPLIER)
}

/// The hash of a table's keys.
#[derive(Clone, Copy, Drop)]
pub(crate) struct TableHash;

impl KeyHash<u64> for TableHash {
    ghost hash_of = { λ _ key. spec.mixed key };

    #[inline(always)]
    fn hash_one(&self, key: &u64) -> u64 {
        mixed(*key)
    }

    ghost fits = { λ _ key. mixed_fits key };

    ghost alike = { λ _ key other same. mixed_alike key other same };
}

/// The same hash for the standard library's map.
#[derive(Clone, Copy, Drop)]
pub(crate) struct MapHash;

impl BuildHasher for MapHash {
    type Hasher = Mixer;

    ghost build_hasher = { λ _. record { 0 = 0 } };

    #[inline(always)]
    fn build_hasher(&self) -> Mixer {
        Mixer(0)
    }
}

/// The eight bytes written last, as one number.
#[derive(Clone, Copy, Drop)]
pub(crate) struct Mixer(u64);

impl Hasher for Mixer {
    ghost write = { λ mixer bytes. record { 0 = fold shifted_in mixer.0 bytes } };

    ghost finish = { λ mixer. spec.mixed mixer.0 };

    #[inline(always)]
    fn finish(&self) -> u64 {
        mixed(self.0)
    }

    #[inline(always)]
    fn write(&mut self, bytes: &[u8]) {
        for byte in bytes {
            self.0 = self.0 / 256 + *byte as u64 * (1 << 56);
        }
    }
}
