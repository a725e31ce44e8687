//! Forms of keys from which a collection's own keys are made.
ghost use Rattle.std.specs.Prelude.{◌≡◌, ◌<◌, IfOk, OnErr, length, true};

use crate::bytes::copy_of;
use crate::seed::SeededHash;
use bucket_table::key_hash::KeyHash;
use collections::key_form::KeyForm;
use std::alloc::{AllocError, Global};

/// A form in which a key is looked up, from which the key itself can be made. The library's `ToKey`
/// compares the key that it made with the form; here they are known to match.
pub trait CopiedKey<K: Eq, H: KeyHash<K>>: KeyForm<K, H> {
    /// Whether the call may fail for the form.
    ghost may_fail: { Self → Type 0 };

    /// Returns a key that the form stands for.
    ///
    /// # Errors
    ///
    /// Allocation failure.
    fn copied(self, alloc: Global) -> Result<K, AllocError>
        ensures made { IfOk result (λ key. Self.stands_for self key ≡ true) }
        ensures memory { OnErr result (may_fail self) };
}

/// Copying a word allocates nothing.
impl<'k> CopiedKey<u64, SeededHash> for &'k u64 {
    ghost may_fail = { λ form. ⊥ };

    #[inline(always)]
    fn copied(self, _alloc: Global) -> Result<u64, AllocError> {
        Ok(*self)
    }
}

/// A byte string is copied. An empty one allocates nothing.
impl<'s> CopiedKey<Vec<u8>, SeededHash> for &'s [u8] {
    ghost may_fail = { λ form. 0 < length form.now };

    fn copied(self, alloc: Global) -> Result<Vec<u8>, AllocError> {
        copy_of(alloc, self)
    }
}
