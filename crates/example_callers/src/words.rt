//! Counting words by their texts: a key is made only if a word is new.
ghost use Rattle.std.specs.Prelude.{string_bytes, OnErr, OnOk};
ghost use Rattle.std.specs.Str.{bytes_eq};
ghost use Rattle.collections.specs.Changes.{Stays};
ghost use Rattle.example_callers.specs.Counts.{CountsOneMore};

use collections::hash_map::HashMap;
use std::alloc::{AllocError, Global};

/// Counts a word once more, up to the greatest `u64`.
///
/// # Errors
///
/// Allocation failure, for the key or for the map: the map keeps its counts.
///
/// O(word) expected, plus any resize.
pub fn count_word(
    counts: &mut HashMap<String, u64>,
    word: &str,
    alloc: Global,
) -> Result<(), AllocError>
    ensures counted { OnOk result (CountsOneMore ⟦<String as PartialEq>⟧.eq
        (λ key. bytes_eq word.now (string_bytes key)) counts.old counts.new) }
    ensures unchanged { OnErr result (Stays ⟦<String as PartialEq>⟧.eq counts.old counts.new) }
{
    let count = counts.entry_ref(word).or_insert(0, alloc)?;
    *count = count.saturating_add(1);
    Ok(())
}
