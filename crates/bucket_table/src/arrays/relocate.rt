//! Moving pairs: those of an old bucket move to their homes in the current array, and it is killed.
//!
//! Ports `relocate_bucket` of scc's `src/hash_table.rs`.
ghost use Rattle.std.specs.Prelude.{false, ◌≡◌, ◌+◌, ◌<◌, ◌≤◌, true, IsOk, OnOk, OnErr, length, []};
ghost use Rattle.std.specs.Prelude.{IfNone, IfSome, IsTrue, None, Some, replicate, take};
ghost use Rattle.bucket_slots.specs.ArrayView.{bucket_at};
ghost use Rattle.bucket_slots.specs.Homes.{IsInRange};
ghost use Rattle.bucket_table.specs.Views.ArraysView.{ArePlaced};
ghost use Rattle.bucket_table.specs.Layout.Landings.{CarriesRecency, AreListable, HaveLanded};
ghost use Rattle.bucket_table.specs.Layout.Landings.{HasBegun, IsTakenOrder, ListsArrivals};
ghost use Rattle.bucket_table.specs.Layout.Landings.{MoveInOrder, landings_with};
ghost use Rattle.bucket_table.specs.Rehash.Rehashing.{IsUnmoved, RelocatesAt};
ghost use Rattle.bucket_table.specs.Rehash.Units.{KillsOnly, NeedsNoMemory, SpendsSome};
ghost use Rattle.bucket_table.specs.Rehash.Units.{NeedsMemory, WorksRange};
ghost use Rattle.bucket_slots.specs.BucketView.{BucketView, pairs_in, slot_in};
ghost use Rattle.bucket_slots.specs.Recency.{order_and_zeros};
ghost use Rattle.bucket_slots.specs.Slots.{is_live, live_pair};
ghost use Rattle.bucket_table.specs.Layout.Moving.{AreTargets, CanMoveInto, IsBound, MovesHome};
ghost use Rattle.bucket_table.specs.Rehash.Carrying.{WentInOrder};
ghost use Rattle.bucket_table.specs.Rehash.Relocation.{AreHome, AreTwoArrays, IsRelocated, IsWay};
ghost use Rattle.bucket_table.specs.Rehash.Relocation.{KeepsEntries, MovesInto};

use super::Arrays;
use super::reserve::make_room;
use super::side::current_in;
use crate::capacity::from_index_to_range;
use crate::key_hash::KeyHash;
use bucket_slots::bucket::{BUCKET_LEN, Bucket, EntryPtr};
use bucket_slots::bucket_array::BucketArray;
use bucket_slots::lru::LruList;
use std::alloc::{AllocError, Global};

impl<K: Eq + Drop, V: Drop, L: LruList + Drop, const TYPE: u8> Arrays<K, V, L, TYPE> {
    /// Moves the pairs of an old bucket to their homes in the current array, with the LRU order,
    /// and kills the bucket.
    ///
    /// # Errors
    ///
    /// Allocation failed: no pair has moved, no LRU list has changed, and the bucket isn't killed.
    pub(crate) fn relocate<H: KeyHash<K>>(
        &mut self,
        hasher: &H,
        index: usize,
    ) -> Result<(), AllocError>
        requires within { index < length self.old.linked }
        requires placed { ArePlaced (H.hash_of hasher.now) self.old }
        ensures placed { ArePlaced (H.hash_of hasher.now) self.new }
        ensures done { OnOk result (RelocatesAt index self.old self.new) }
        ensures recency { OnOk result (CarriesRecency (bucket_at self.old.linked index)
            self.old.current self.new.current) }
        ensures refused { OnErr result (IsUnmoved self.old self.new) }
        ensures succeeds { NeedsNoMemory index (index + 1) self.old → IsOk result }
        ensures alive { OnErr result
            ((bucket_at self.old.linked index).killed ≡ false) }
    {
        let current = current_in(&mut self.current);
        relocate(self.alloc, hasher, current, self.linked.array_mut(), index)
    }

    /// Moves the old buckets from `start` up to but not including `end`, one after another. Returns
    /// true if all have moved, and false once allocation fails.
    pub(crate) fn relocate_range<H: KeyHash<K>>(
        &mut self,
        hasher: &H,
        start: usize,
        end: usize,
    ) -> bool
        requires within { end ≤ length self.old.linked }
        requires placed { ArePlaced (H.hash_of hasher.now) self.old }
        ensures placed { ArePlaced (H.hash_of hasher.now) self.new }
        ensures worked { WorksRange start end result self.old self.new }
        ensures spends { SpendsSome self.old.linked self.new.linked }
        ensures only { KillsOnly (IsInRange start end) self.old.linked self.new.linked }
        ensures wanted { result ≡ false → NeedsMemory (IsInRange start end) self.old self.new }
    {
        'buckets: for index in start..end {
            let Ok(()) = self.relocate(hasher, index) else {
                return false;
            };
        }
        true
    }
}

/// Where the pair of an own slot has moved: the index of a bucket, and an own slot of it.
#[derive(Clone, Copy)]
pub(crate) struct Landing {
    home: usize,
    slot: usize,
}

/// Moves the pairs of an old bucket to their homes in the current array, and kills the bucket. A
/// bucket that is killed already stays as it is.
///
/// If the old array is longer, or the bucket has more pairs than an empty target has own slots,
/// slots are reserved in all targets before a pair moves. The LRU order moves with the pairs.
///
/// # Errors
///
/// Allocation failed: no pair has moved, no LRU list has changed, and the bucket isn't killed.
#[tactic(auto, using(crate::proofs::Moves::Relocating::bound_lent))]
pub(crate) fn relocate<K: Eq + Drop, V: Drop, H: KeyHash<K>, L: LruList, const TYPE: u8>(
    alloc: Global,
    hasher: &H,
    current: &mut BucketArray<K, V, L, TYPE>,
    linked: &mut BucketArray<K, V, L, TYPE>,
    index: usize,
) -> Result<(), AllocError>
    requires within { index < length linked.old }
    requires law { AreTwoArrays (H.hash_of hasher.now) current.old linked.old }
    ensures law { AreTwoArrays (H.hash_of hasher.now) current.new linked.new }
    ensures moved { OnOk result (IsRelocated index current.old linked.old current.new linked.new) }
    ensures kept { OnErr result (KeepsEntries current.old current.new) }
    ensures linked_kept { OnErr result (linked.new ≡ linked.old) }
    ensures never_refused { length linked.old ≤ length current.old
        → length (pairs_in (bucket_at linked.old index)) ≤ BUCKET_LEN
        → IsOk result }
    ensures recency { OnOk result
        (CarriesRecency (bucket_at linked.old index) current.old current.new) }
    ensures alive { OnErr result ((bucket_at linked.old index).killed ≡ false) }
{
    current.fact_room();
    let from = linked.len();
    let Some(targets) = targets_of(hasher, current, linked, index, from) else {
        return Ok(());
    };
    let source = linked.bucket_mut(index);
    source.fact_sound();
    let Ok(()) = make_room(alloc, hasher, current, source, targets, from) else {
        return Err(AllocError);
    };
    carry_pairs(hasher, current, source, targets.0, targets.1);
    source.kill();
    Ok(())
}

/// Returns the range of the buckets of the current array to which the pairs of a bucket of the old
/// array move, or `None` if that is killed. The old array has `from` buckets.
#[inline(always)]
fn targets_of<K: Eq, V, H: KeyHash<K>, L: LruList, const TYPE: u8>(
    _hasher: &H,
    current: &BucketArray<K, V, L, TYPE>,
    linked: &BucketArray<K, V, L, TYPE>,
    index: usize,
    from: usize,
) -> Option<(usize, usize)>
    requires within { index < length linked.now }
    requires len { from ≡ length linked.now }
    requires law { AreTwoArrays (H.hash_of _hasher.now) current.now linked.now }
    ensures killed { IfNone result ((bucket_at linked.now index).killed ≡ true) }
    ensures alive { IfSome result (λ _. (bucket_at linked.now index).killed ≡ false) }
    ensures targets { IfSome result (λ targets. AreTargets (H.hash_of _hasher.now)
        current.now linked.now index targets.0 targets.1) }
    ensures bound { IfSome result (λ targets. IsBound (H.hash_of _hasher.now)
        from targets.0 targets.1 (bucket_at linked.now index) current.now) }
{
    current.fact_room();
    if linked.bucket(index).is_killed() {
        return None;
    }
    let _len = linked.len();
    Some(from_index_to_range(from, current.len(), index))
}

/// Moves each pair of a bucket to its home in an array that has room for it, which is one of the
/// buckets from `start` up to but not including `end`. The LRU order moves with the pairs.
///
/// A listed pair that lands in an own slot is listed there after that bucket's own pairs, and the
/// moved pairs keep their order. A pair that lands in a chain isn't listed.
fn carry_pairs<K: Eq + Drop, V: Drop, H: KeyHash<K>, L: LruList, const TYPE: u8>(
    hasher: &H,
    current: &mut BucketArray<K, V, L, TYPE>,
    source: &mut Bucket<K, V, L, TYPE>,
    start: usize,
    end: usize,
)
    requires { CanMoveInto (H.hash_of hasher.now) start end source.old current.old }
    ensures moved { MovesInto (H.hash_of hasher.now) source.old current.old source.new current.new }
    ensures homes { AreHome (H.hash_of hasher.now) current.new }
    ensures emptied { pairs_in source.new ≡ [] }
    ensures recency { CarriesRecency source.old current.old current.new }
{
    source.fact_sound();
    let (order, len) = take_order(hasher, current, source, start, end);
    if len == 0 {
        move_pairs(hasher, current, source, (start, end), &mut []);
        return;
    }
    let mut landings = [None; BUCKET_LEN];
    move_pairs(hasher, current, source, (start, end), &mut landings);
    append_arrivals(current, &order[..len], &landings);
}

/// Empties the LRU list of a bucket whose pairs can move, and returns its slots, newest first, and
/// their number. If there are none, pairs of own slots may move already.
#[inline(always)]
fn take_order<K: Eq + Drop, V: Drop, H: KeyHash<K>, L: LruList, const TYPE: u8>(
    hasher: &H,
    current: &mut BucketArray<K, V, L, TYPE>,
    source: &mut Bucket<K, V, L, TYPE>,
    start: usize,
    end: usize,
) -> ([u8; BUCKET_LEN], usize)
    requires { CanMoveInto (H.hash_of hasher.now) start end source.old current.old }
    ensures ready { CanMoveInto (H.hash_of hasher.now) start end source.new current.new }
    ensures order { IsTakenOrder TYPE L.KEEPS (take result.1 result.0) }
    ensures number { result.1 ≡ length source.old.listed }
    ensures bytes { result.0 ≡ order_and_zeros source.old.listed }
    ensures begun { HasBegun (H.hash_of hasher.now) source.old current.old source.new current.new }
{
    source.fact_sound();
    let (order, len) = source.take_lru();
    if len > 0 {
        return (order, len);
    }
    current.spread_own(source, start, end, &|key: &K| hasher.hash_one(key));
    (order, len)
}

/// Moves each pair of a bucket to its home in an array that has room for it, which is one of the
/// buckets from the first number of `targets` up to but not including the second. Records the new
/// place of each own slot's pair in `landings`, as far as it has room. A pair that lands in a chain
/// is not recorded.
#[tactic(auto, using(crate::proofs::Walking::Retaining::next_live))]
fn move_pairs<K: Eq + Drop, V: Drop, H: KeyHash<K>, L: LruList, const TYPE: u8>(
    hasher: &H,
    current: &mut BucketArray<K, V, L, TYPE>,
    source: &mut Bucket<K, V, L, TYPE>,
    targets: (usize, usize),
    landings: &mut [Option<Landing>],
)
    requires ready { CanMoveInto (H.hash_of hasher.now) targets.0 targets.1 source.old current.old }
    requires unsaid { landings.old ≡ replicate (length landings.old) None }
    ensures moved { MovesInto (H.hash_of hasher.now) source.old current.old source.new current.new }
    ensures homes { AreHome (H.hash_of hasher.now) current.new }
    ensures emptied { pairs_in source.new ≡ [] }
    ensures landed { HaveLanded (H.hash_of hasher.now) source.old current.old
        current.new landings.new }
    ensures in_order { (first : BucketView K V) → MoveInOrder first source.old current.old
        → WentInOrder current.new (pairs_in first) }
{
    let mut at = EntryPtr::null();
    'own: while at.find_next_here(source) {
        move_pair(hasher, current, source, &mut at, targets, landings);
        at = EntryPtr::null();
    }
    'pairs: while at.find_next(source) {
        move_pair(hasher, current, source, &mut at, targets, landings);
    }
}

/// Moves the pair at a pointer to its home, and records its new place in `landings`. The pointer
/// stays.
#[inline(always)]
fn move_pair<K: Eq + Drop, V: Drop, H: KeyHash<K>, L: LruList, const TYPE: u8>(
    hasher: &H,
    current: &mut BucketArray<K, V, L, TYPE>,
    source: &mut Bucket<K, V, L, TYPE>,
    at: &mut EntryPtr<K, V, TYPE>,
    targets: (usize, usize),
    landings: &mut [Option<Landing>],
)
    requires ready { CanMoveInto (H.hash_of hasher.now) targets.0 targets.1 source.old current.old }
    requires live_slot { IsTrue (is_live (slot_in source.old at.old)) }
    ensures moved { MovesHome TYPE (H.hash_of hasher.now) at.old source.old current.old landings.old
        source.new current.new landings.new }
    ensures pointer { at.new ≡ at.old }
{
    source.fact_sound();
    let (home, hash) = destination_of(hasher, current, source, at, targets);
    let target = current.bucket_mut(home);
    target.fact_sound();
    let Ok(to) = target.extract_from(hash, source, at) else {
        unreachable!()
    };
    record_landing(landings, at, home, &to);
}

/// Records in `landings`, if there is room, where a pair landed that moved from an own slot to
/// bucket `home`, if that is an own slot.
#[inline(always)]
fn record_landing<K, V, const TYPE: u8>(
    landings: &mut [Option<Landing>],
    from: &EntryPtr<K, V, TYPE>,
    home: usize,
    to: &EntryPtr<K, V, TYPE>,
)
    ensures { landings.new ≡ landings_with landings.old from.now home to.now }
{
    let pos = from.pos();
    if pos < landings.len() && from.block() == 0 && to.block() == 0 {
        let slot = to.pos();
        landings[pos] = Some(Landing { home, slot });
    }
}

/// Appends own slots of an array to the LRU lists of their buckets: those in which the pairs of the
/// slots of an order landed, in that order.
fn append_arrivals<K: Eq + Drop, V: Drop, L: LruList, const TYPE: u8>(
    current: &mut BucketArray<K, V, L, TYPE>,
    order: &[u8],
    landings: &[Option<Landing>; BUCKET_LEN],
)
    requires order { IsTakenOrder TYPE L.KEEPS order.now }
    requires table { AreListable landings.now current.old }
    ensures { ListsArrivals landings.now order.now current.old current.new }
{
    current.fact_room();
    'order: for slot in order {
        if let Some(landing) = landings[*slot as usize] {
            let at = EntryPtr::own_slot(landing.slot);
            let target = current.bucket_mut(landing.home);
            target.append_lru(&at);
        }
    }
}

/// Returns the index of the home of a slot's pair in an array, and a number whose low byte is the
/// pair's fingerprint. If there is one target, the stored fingerprint is enough; otherwise the key
/// is hashed again.
#[inline(always)]
#[tactic(auto, using(crate::proofs::Words::live_not_free))]
fn destination_of<K: Eq, V, H: KeyHash<K>, L: LruList, const TYPE: u8>(
    hasher: &H,
    current: &BucketArray<K, V, L, TYPE>,
    source: &Bucket<K, V, L, TYPE>,
    at: &EntryPtr<K, V, TYPE>,
    targets: (usize, usize),
) -> (usize, u64)
    requires ready { CanMoveInto (H.hash_of hasher.now) targets.0 targets.1 source.now
        current.now }
    requires live_slot { IsTrue (is_live (slot_in source.now at.now)) }
    ensures way { (pair : K × V) → live_pair (slot_in source.now at.now) ≡ Some pair
        → IsWay (H.hash_of hasher.now) (length current.now) pair result.0 result.1 }
    ensures within { result.0 < length current.now }
    ensures alive { (home : BucketView K V) → home ≡ bucket_at current.now result.0
        → home.killed ≡ false }
{
    let _buckets = current.len();
    let (start, end) = targets;
    if end.saturating_sub(start) == 1 {
        return (start, u64::from(at.partial_hash(source)));
    }
    let hash = hasher.hash_one(at.key(source));
    (current.bucket_index(hash), hash)
}
