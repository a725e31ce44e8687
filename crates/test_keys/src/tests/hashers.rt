//! What the tests of the crate `hashbrown` check of hashers: under each one a set has the inserted
//! keys, neither of those next to them, and neither the least nor the greatest one. A comment names
//! the test.
ghost use Rattle.std.specs.Prelude.{◌%◌, ◌^◌, refl};
ghost use Rattle.std.proofs.Common.{arith};
ghost use Rattle.std.proofs.Math.Nat.{mod-lt};

use super::check_same;
use bucket_table::key_hash::KeyHash;
use collections::hash_set::HashSet;
use std::hash::RandomState;
use std::process::Abort;
use std::test::Fail;

/// One hash for each key.
#[derive(Drop)]
struct Constant {
    hash: u64,
}

impl KeyHash<i32> for Constant {
    ghost hash_of = { λ hasher key. hasher.hash % 2 ^ 64 };

    fn hash_one(&self, _key: &i32) -> u64 {
        self.hash
    }

    ghost fits = { λ hasher key. mod-lt _ (omega arith) };

    ghost alike = { λ hasher key other same. refl };
}

#[test]
fn a_set_has_its_keys_under_each_hasher(rt: HostRuntime) -> Result<(), Fail> {
    let _named: Option<std::hash::DefaultHasher> = None;
    let state = RandomState::new(&rt)?;
    // default
    check_keys(&rt, HashSet::new(rt.alloc()), "default");
    // random_state
    check_keys(
        &rt,
        HashSet::with_random_state(rt.alloc(), state),
        "random state",
    );
    // zero
    check_keys(
        &rt,
        HashSet::with_hasher(rt.alloc(), Constant { hash: 0 }),
        "zero",
    );
    // max
    check_keys(
        &rt,
        HashSet::with_hasher(rt.alloc(), Constant { hash: u64::MAX }),
        "max",
    );
    Ok(())
}

// The keys 0 to 999 are inserted into a set. It has each of them, and no other.
fn check_keys<H: KeyHash<i32> + Drop>(
    rt: &impl Abort,
    mut set: HashSet<i32, H>,
    hasher: &'static str,
) {
    let is_in = set.try_extend(&mut (0..1000)).is_ok();
    check_same(rt, is_in, true, (hasher, "extended"));
    for key in 0..1000 {
        check_same(rt, set.contains(&key), true, (hasher, key));
    }
    for key in [i32::MIN, -1, 1000, i32::MAX] {
        check_same(rt, set.contains(&key), false, (hasher, key));
    }
}
