//! Copies of byte strings, from C and to it.
ghost use Rattle.std.specs.Prelude.{◌≡◌, ◌<◌, ◌++◌, IfOk, OnErr, drop, length, take, true};
ghost use Rattle.bucket_calls.specs.Views.{has_bytes};

use std::alloc::{AllocError, Global};

/// Copies a byte string.
///
/// # Errors
///
/// Allocation failure. An empty one allocates nothing.
pub fn copy_of(alloc: Global, bytes: &[u8]) -> Result<Vec<u8>, AllocError>
    ensures copied { IfOk result (λ own. has_bytes bytes.now own ≡ true) }
    ensures memory { OnErr result (0 < length bytes.now) }
{
    if bytes.is_empty() {
        return Ok(Vec::new(alloc));
    }
    Vec::from_slice(alloc, bytes)
}

/// Outputs a byte string's length, and as many of its bytes as there is room for.
pub fn copy_out(text: &[u8], bytes: &mut [u8], len: &mut usize)
    ensures bytes { bytes.new ≡ take (length bytes.old) text.now ++ drop (length text.now)
        bytes.old }
    ensures len { len.new ≡ length text.now }
{
    *len = text.len();
    let count = text.len().min(bytes.len());
    bytes[..count].copy_from_slice(&text[..count]);
}
