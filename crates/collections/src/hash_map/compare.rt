//! Equality of maps.

use crate::comparing::are_equal;
use crate::hash_map::HashMap;
use bucket_table::key_hash::KeyHash;

/// As with std's maps, two maps are equal if each contains the keys of the other, with equal
/// values.
impl<K: Eq, V: PartialEq, H: KeyHash<K>> PartialEq for HashMap<K, V, H> {
    ghost use Rattle.collections.specs.Equality.{map_eq};
    ghost use Rattle.collections.specs.EqualityLaws.{map_eq_per};

    ghost eq = { map_eq K.eq V.eq };

    ghost laws = { map_eq_per K.eq K.Eq.laws V.eq V.laws };

    fn eq(&self, other: &HashMap<K, V, H>) -> bool {
        self.room.fact_fits();
        are_equal(&self.table, &other.table)
    }
}

impl<K: Eq, V: Eq, H: KeyHash<K>> Eq for HashMap<K, V, H> {
    ghost use Rattle.collections.specs.EqualityLaws.{map_eq_equiv};

    ghost laws = { map_eq_equiv K.eq K.Eq.laws V.eq V.Eq.laws };
}
