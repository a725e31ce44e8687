//! Probes: tests of keys that count how often they are asked. Look-ups without `K: Eq` take one.
ghost use Rattle.std.specs.Prelude.{◌≡◌, ◌+◌, ◌-◌, ◌^◌, ℕ, Bool, min};

use std::cmp::Eq;
use std::marker::Model;

/// A test of keys that counts how often it was asked.
pub trait KeyProbe<K> {
    /// Which keys it matches.
    ghost matches: { Self → K → Bool };

    /// How often it was asked.
    ghost asked: { Self → ℕ };

    /// Returns whether it matches this key, and counts the question, up to 2^64 - 1. Which keys it
    /// matches doesn't change.
    fn same(&mut self, key: &K) -> bool
        ensures answer { result ≡ matches self.old key.now }
        ensures counted { asked self.new ≡ min (asked self.old + 1) (2 ^ 64 - 1) }
        ensures fixed { matches self.new ≡ matches self.old };
}

/// A probe that matches the keys that are equal to its own.
///
/// Model: `KeyAsked`, its key and how often it was asked.
#[derive(Drop)]
pub struct EqProbe<'k, K: Eq> {
    key: &'k K,
    asked: u64,
}

impl<'k, K: Eq> Model for EqProbe<'k, K> {
    ghost use Rattle.bucket_slots.specs.Probing.{KeyAsked};

    ghost Value = { KeyAsked K };

    ghost view = { λ probe. record { key = probe.key.now; asked = probe.asked } };
}

impl<'k, K: Eq> EqProbe<'k, K> {
    /// Returns a probe that hasn't compared a key yet.
    ///
    /// O(1).
    pub fn new(key: &'k K) -> Self
        ensures key { result.key ≡ key.now }
        ensures asked { result.asked ≡ 0 }
    {
        EqProbe { key, asked: 0 }
    }

    /// Returns how often it was asked, up to 2^64 - 1.
    ///
    /// O(1).
    pub fn asked(&self) -> u64
        ensures { result ≡ self.now.asked }
    {
        self.asked
    }
}

impl<'k, K: Eq> KeyProbe<K> for EqProbe<'k, K> {
    ghost matches = { λ probe key. K.eq key probe.key };

    ghost asked = { λ probe. probe.asked };

    fn same(&mut self, key: &K) -> bool {
        self.asked = self.asked.saturating_add(1);
        *key == *self.key
    }
}
