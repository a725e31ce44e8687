//! Equality of indexes, and an index as it is printed.

use crate::comparing::are_equal;
use crate::hash_index::HashIndex;
use bucket_table::key_hash::KeyHash;
use std::fmt::{self, Debug, Formatter, Write};

/// Two indexes are equal if each contains the keys of the other, with equal values, as with maps.
/// Tombstones don't count.
impl<K: Eq, V: PartialEq, H: KeyHash<K>> PartialEq for HashIndex<K, V, H> {
    ghost use Rattle.std.specs.Cmp.{on_per};
    ghost use Rattle.collections.specs.Equality.{map_eq};
    ghost use Rattle.collections.specs.EqualityLaws.{map_eq_per};
    ghost use Rattle.collections.specs.Maps.{map_of};

    ghost eq = { λ own other. map_eq K.eq V.eq (map_of own) (map_of other) };

    ghost laws = { on_per map_of (map_eq_per K.eq K.Eq.laws V.eq V.laws) };

    fn eq(&self, other: &HashIndex<K, V, H>) -> bool {
        self.room.fact_fits();
        are_equal(&self.table, &other.table)
    }
}

impl<K: Eq, V: Eq, H: KeyHash<K>> Eq for HashIndex<K, V, H> {
    ghost use Rattle.std.specs.Cmp.{on_equiv};
    ghost use Rattle.collections.specs.EqualityLaws.{map_eq_equiv};
    ghost use Rattle.collections.specs.Maps.{map_of};

    ghost laws = { on_equiv map_of (map_eq_equiv K.eq K.Eq.laws V.eq V.Eq.laws) };
}

/// The pairs, as std prints a map: `{key: value, ..}`, without removed ones.
impl<K: Eq + Debug, V: Debug, H: KeyHash<K>> Debug for HashIndex<K, V, H> {
    fn fmt<W: Write>(&self, f: &mut Formatter<W>) -> fmt::Result {
        let mut out = f.debug_map();
        self.for_each(&mut |key: &K, value: &V| {
            out.entry(key, value);
        });
        out.finish()
    }
}
