//! The epochs of an index that has one owner.
ghost use Rattle.std.specs.Prelude.{false};

use bucket_slots::bucket::Generation;

/// Epoch 0, and no tombstone is kept: no reader can hold a removed pair.
pub(super) struct NoneKept;

impl Generation for NoneKept {
    ghost epoch_of = { λ generation. 0 };

    ghost keeps = { λ generation mark. false };

    fn epoch(&self) -> u8 {
        0
    }

    fn same(&self, _mark: u8) -> bool {
        false
    }
}
