//! Look-ups that change nothing, of a pair or of the slot that it is in.
ghost use Rattle.std.specs.Prelude.{◌≡◌, ◌%◌, ◌+◌, ◌≤◌, None, IfSome, IfNone};
ghost use Rattle.bucket_slots.specs.Places.{pair_lent};
ghost use Rattle.bucket_slots.specs.Searching.{matching_len, pair_matched};
ghost use Rattle.bucket_table.specs.Map.LookingUp.{home_bucket, lent_buckets, looked_up_len};
ghost use Rattle.bucket_table.specs.Map.LookingUp.{pair_looked_up};
ghost use Rattle.bucket_table.specs.Map.ByKey.{StandsAt};
ghost use Rattle.bucket_table.specs.Views.Sides.{buckets_on};

use super::{Arrays, Side};
use bucket_slots::bucket::{EntryPtr, KeyProbe};
use bucket_slots::bucket_array::BucketArray;
use bucket_slots::lru::LruList;

/// A slot of a bucket of one side.
#[derive(Drop)]
pub struct Spot<K, V, const TYPE: u8> {
    /// The side.
    pub side: Side,
    /// The bucket's index in the array of that side.
    pub index: usize,
    /// The slot's place in the bucket.
    pub at: EntryPtr<K, V, TYPE>,
}

impl<K, V, L: LruList, const TYPE: u8> Arrays<K, V, L, TYPE> {
    /// Returns the first matching pair of the old home of a hash, else of its current home. It asks
    /// at most once for each live slot there with the hash's fingerprint.
    #[inline(always)]
    pub(crate) fn peek_by<P: KeyProbe<K>>(&self, hash: u64, probe: &mut P) -> Option<(&K, &V)>
        ensures first { pair_lent result
            ≡ pair_looked_up (P.matches probe.old) hash
            self.now.linked self.now.current }
        ensures few { P.asked probe.new ≤ P.asked probe.old
            + looked_up_len hash self.now.linked self.now.current }
        ensures fixed { P.matches probe.new ≡ P.matches probe.old }
    {
        match &self.current {
            Some(current) => peek_arrays(self.linked_array(), current, hash, probe),
            None => None,
        }
    }

    /// Returns the first live slot with a matching key in the home of a hash on one side, or `None`
    /// if that home has none.
    #[inline(always)]
    pub(crate) fn search_on<P: KeyProbe<K>>(
        &self,
        side: Side,
        hash: u64,
        probe: &mut P,
    ) -> Option<Spot<K, V, TYPE>>
        ensures found { IfSome result (λ spot.
            StandsAt (P.matches probe.old) self.now spot.side spot.index spot.at) }
        ensures side { IfSome result (λ spot. spot.side ≡ side) }
        ensures absent { IfNone result (pair_matched (P.matches probe.old) (hash % 256)
            (home_bucket hash (buckets_on self.now side)) ≡ None) }
        ensures fixed { P.matches probe.new ≡ P.matches probe.old }
    {
        if self.len_on(side) == 0 {
            return None;
        }
        self.fact_room_of(side);
        let array = self.array_of(side);
        let index = array.bucket_index(hash);
        let at = array.bucket(index).get_entry_ptr_by(hash, probe);
        if !at.is_valid() {
            return None;
        }
        Some(Spot { side, index, at })
    }
}

/// Returns the first matching pair of the home of a hash in the old array, else of its home in the
/// current one, or `None` if neither has one.
///
/// Asks at most once for each live slot of the two homes with the hash's fingerprint. Allocates
/// nothing. O(blocks in two chains).
#[inline(always)]
pub fn peek_arrays<'a, K, V, L: LruList, const TYPE: u8, P: KeyProbe<K>>(
    old: Option<&'a BucketArray<K, V, L, TYPE>>,
    current: &'a BucketArray<K, V, L, TYPE>,
    hash: u64,
    probe: &mut P,
) -> Option<(&'a K, &'a V)>
    ensures first { pair_lent result
        ≡ pair_looked_up (P.matches probe.old) hash (lent_buckets old.entry) current.now }
    ensures few { P.asked probe.new ≤ P.asked probe.old
        + looked_up_len hash (lent_buckets old.entry) current.now }
    ensures fixed { P.matches probe.new ≡ P.matches probe.old }
{
    let Some(array) = old else {
        return peek_home(current, hash, probe);
    };
    match peek_home(array, hash, probe) {
        Some((key, value)) => Some((key, value)),
        None => peek_home(current, hash, probe),
    }
}

/// Returns the first matching pair of the home of a hash.
#[inline(always)]
fn peek_home<'a, K, V, L: LruList, const TYPE: u8, P: KeyProbe<K>>(
    array: &'a BucketArray<K, V, L, TYPE>,
    hash: u64,
    probe: &mut P,
) -> Option<(&'a K, &'a V)>
    ensures pair { pair_lent result
        ≡ pair_matched (P.matches probe.old) (hash % 256) (home_bucket hash array.now) }
    ensures few { P.asked probe.new ≤ P.asked probe.old
        + matching_len (hash % 256) (home_bucket hash array.now) }
    ensures fixed { P.matches probe.new ≡ P.matches probe.old }
{
    array.fact_room();
    array.peek_by(array.bucket_index(hash), hash, probe)
}
