//! Keys made from the forms in which they are looked up.
ghost use Rattle.std.specs.Prelude.{◌≡◌, ◌<◌, ◌⊎◌, false, true, length, IfOk, OnErr};

use crate::key_form::KeyForm;
use bucket_table::key_hash::{KeyHash, StdHash};
use std::alloc::{AllocError, Global};
use std::hash::{BuildHasher, Hash};

/// A form from which a key can be made. hashbrown uses `From` for this.
pub trait ToKey<K: Eq, H: KeyHash<K>>: KeyForm<K, H> {
    /// Whether the call may fail for the form.
    ghost may_lack: { Self → Type 0 };

    /// Returns a key that the form stands for, whose memory comes from `alloc`.
    ///
    /// # Errors
    ///
    /// Allocation failure; or the key made isn't one that the form stands for, such as a clone that
    /// isn't equal.
    fn to_key(self, alloc: Global) -> Result<K, AllocError>
        ensures made { IfOk result (λ key. Self.stands_for self key ≡ true) }
        ensures lacks { OnErr result (may_lack self) };
}

/// The key is a clone, if that is equal: a clone may fail, or differ.
impl<'k, K: Eq + Clone, H: KeyHash<K>> ToKey<K, H> for &'k K {
    ghost may_lack = { λ form. (¬ (K.is_infallible form.now))
        ⊎ ((key : K) × K.is_clone form.now key × (K.eq form.now key ≡ false)) };

    fn to_key(self, _alloc: Global) -> Result<K, AllocError> {
        let key = self.clone()?;
        if *self == key {
            Ok(key)
        } else {
            Err(AllocError)
        }
    }
}

/// The key has the bytes of the text. An empty one allocates nothing.
impl<'s, S: BuildHasher> ToKey<String, StdHash<S>> for &'s str {
    ghost may_lack = { λ form. 0 < length form.now };

    fn to_key(self, alloc: Global) -> Result<String, AllocError> {
        if self.is_empty() {
            return Ok(String::new(alloc));
        }
        String::from_str(alloc, self)
    }
}

/// The key has clones of the items, if they are equal. One of no items allocates nothing.
impl<'s, T: Eq + Hash + Clone, S: BuildHasher> ToKey<Vec<T>, StdHash<S>> for &'s [T] {
    ghost may_lack = { λ form. 0 < length form.now };

    fn to_key(self, alloc: Global) -> Result<Vec<T>, AllocError> {
        if self.is_empty() {
            return Ok(Vec::new(alloc));
        }
        let key = self.to_vec(alloc)?;
        if self == key.as_slice() {
            Ok(key)
        } else {
            Err(AllocError)
        }
    }
}
