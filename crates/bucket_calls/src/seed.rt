//! How keys are hashed: by std's default, whose seed is fixed, or by SipHash with a seed's keys.
ghost use Rattle.std.specs.Prelude.{◌≡◌};
ghost use Rattle.bucket_calls.specs.Hashing.{finished, initial_hasher, written};

use bucket_table::key_hash::StdHash;
use core::hash::keyed_hasher;
use std::hash::{BuildHasher, DefaultHasher, FoldHasher, Hasher};

/// 16 bytes of a seed. If all are zero, keys are hashed by `FoldHasher`, else by SipHash-1-3 with
/// the seed's two words as its keys.
#[repr(C)]
#[derive(Clone, Copy)]
pub struct Seed {
    pub key0: u64,
    pub key1: u64,
}

/// The hasher of a seed.
#[derive(Clone, Copy)]
pub enum SeededHasher {
    Fold(FoldHasher),
    Sip(DefaultHasher),
}

/// A `BuildHasher` that copies one hasher, whose type it names, for each hash.
#[derive(Clone, Copy)]
pub struct Beginning<H> {
    /// The hasher before any input.
    pub initial: H,
}

/// How the keys of a collection are hashed.
pub type SeededHash = StdHash<Beginning<SeededHasher>>;

/// Returns the hasher that a seed stands for.
pub fn hash_by(seed: Seed) -> SeededHash
    ensures { result.builder.initial ≡ initial_hasher seed }
{
    let initial = if seed.key0 == 0 && seed.key1 == 0 {
        SeededHasher::Fold(FoldHasher::default())
    } else {
        SeededHasher::Sip(keyed_hasher(seed.key0, seed.key1))
    };
    StdHash::new(Beginning { initial })
}

impl<H: Hasher + Copy> BuildHasher for Beginning<H> {
    type Hasher = H;

    ghost build_hasher = { λ beginning. beginning.initial };

    #[inline(always)]
    fn build_hasher(&self) -> H {
        self.initial
    }
}

impl Hasher for SeededHasher {
    ghost write = { written };

    ghost finish = { finished };

    #[inline(always)]
    fn finish(&self) -> u64 {
        match self {
            SeededHasher::Fold(state) => state.finish(),
            SeededHasher::Sip(state) => state.finish(),
        }
    }

    #[inline(always)]
    fn write(&mut self, bytes: &[u8]) {
        match self {
            SeededHasher::Fold(state) => state.write(bytes),
            SeededHasher::Sip(state) => state.write(bytes),
        }
    }
}
