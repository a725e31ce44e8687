//! Removal of the pairs of a bucket for which a test returns false.
ghost use Rattle.std.specs.Prelude.{◌≡◌, ◌≢◌, Some, IsTrue, ℕ, length};
ghost use Rattle.bucket_slots.specs.BucketView.{slot_in};
ghost use Rattle.bucket_slots.specs.Slots.{is_live, live_pair};
ghost use Rattle.bucket_slots.specs.Walking.{pairs_ahead};
ghost use Rattle.bucket_table.specs.Walking.Retains.{AnswersBy, AsksFront, IsLeftOf, Retains};
ghost use Rattle.bucket_table.specs.Walking.Extracting.{AsksAt};
ghost use Rattle.bucket_table.specs.Walking.Retains.{RetainsBucket, RetainsPair, slots_taken};

use bucket_slots::bucket::{BUCKET_LEN, Bucket, CACHE, EntryPtr, Generation, INDEX};
use bucket_slots::lru::LruList;

/// Removes each pair for which the test returns false; in an index it becomes a tombstone. Returns
/// how many were removed.
#[tactic(auto, using(crate::proofs::Walking::Retaining::next_live))]
pub(crate) fn retain_in<
    K: Drop,
    V: Drop,
    L: LruList,
    F: Fn(&K, &V) -> bool,
    G: Generation,
    const TYPE: u8,
>(bucket: &mut Bucket<K, V, L, TYPE>, keep: &F, generation: &G) -> usize
    requires callable { F.IsAlwaysCallable keep.now }
    ensures retained { Retains (AnswersBy (λ key value answer. F.post keep.now key value answer))
        bucket.old bucket.new result }
    ensures left { IsLeftOf TYPE (G.epoch_of generation.now) bucket.old bucket.new }
{
    let before = bucket.len();
    let mut at = EntryPtr::null();
    'own: while at.find_next_here(bucket) {
        retain_at(bucket, &mut at, keep, generation);
    }
    'pairs: while at.find_next(bucket) {
        retain_at(bucket, &mut at, keep, generation);
    }
    before - bucket.len()
}

/// Removes the pair in a live slot if the test returns false. In an index the slot becomes a
/// tombstone.
#[inline(always)]
fn retain_at<K: Drop, V: Drop, L: LruList, F: Fn(&K, &V) -> bool, G: Generation, const TYPE: u8>(
    bucket: &mut Bucket<K, V, L, TYPE>,
    at: &mut EntryPtr<K, V, TYPE>,
    keep: &F,
    generation: &G,
)
    requires callable { F.IsAlwaysCallable keep.now }
    requires live_slot { IsTrue (is_live (slot_in bucket.old at.old)) }
    ensures retained { (pair : K × V) → live_pair (slot_in bucket.old at.old) ≡ Some pair
        → RetainsPair (AnswersBy (λ key value answer. F.post keep.now key value answer)) pair
        bucket.old at.old bucket.new at.new }
    ensures left { IsLeftOf TYPE (G.epoch_of generation.now) bucket.old bucket.new }
{
    if keep(at.key(bucket), at.val(bucket)) {
        return;
    }
    drop(take_at(bucket, at, generation));
}

/// Calls `keep` with each live pair, in slot order, with the value lent for writing, and removes
/// each pair for which it returns false; in an index it becomes a tombstone. Returns how many were
/// removed.
#[tactic(auto, using(crate::proofs::Walking::Retaining::next_live))]
pub(crate) fn retain_each_in<
    K: Drop,
    V: Drop,
    L: LruList,
    F: FnMut(&K, &mut V) -> bool,
    G: Generation,
    const TYPE: u8,
>(bucket: &mut Bucket<K, V, L, TYPE>, keep: &mut F, generation: &G) -> usize
    requires callable { F.IsAlwaysCallable keep.old }
    ensures again { F.IsAlwaysCallable keep.new }
    ensures retained { RetainsBucket
        (λ state own before answer after last. F.step state own before answer after last)
        keep.old bucket.old bucket.new result keep.new }
    ensures left { IsLeftOf TYPE (G.epoch_of generation.now) bucket.old bucket.new }
{
    let before = bucket.len();
    let mut at = retain_front(bucket, keep);
    'own: while at.find_next_here(bucket) {
        drop(ask_slot(bucket, &mut at, keep, true, generation));
    }
    'pairs: while at.find_next(bucket) {
        drop(ask_slot(bucket, &mut at, keep, true, generation));
    }
    before - bucket.len()
}

/// Calls `keep` with all pairs of the own slots, if this kind of bucket has neither tombstones nor
/// an LRU list, and drops each pair for which it returns false. Returns the pointer after which the
/// remaining pairs are.
#[inline(always)]
#[tactic(auto, unfolding(crate::specs::Walking::Retains::AsksFront))]
fn retain_front<K: Drop, V: Drop, L: LruList, F: FnMut(&K, &mut V) -> bool, const TYPE: u8>(
    bucket: &mut Bucket<K, V, L, TYPE>,
    keep: &mut F,
) -> EntryPtr<K, V, TYPE>
    requires callable { F.IsAlwaysCallable keep.old }
    ensures again { F.IsAlwaysCallable keep.new }
    ensures asked { AsksFront
        (λ state own before answer after last. F.step state own before answer after last)
        keep.old bucket.old result bucket.new keep.new }
    ensures left { (epoch : ℕ) → IsLeftOf TYPE epoch bucket.old bucket.new }
    ensures own_long { length bucket.old.own ≡ BUCKET_LEN }
{
    bucket.fact_sound();
    if TYPE == INDEX || TYPE == CACHE {
        return EntryPtr::null();
    }
    bucket.retain_own(keep);
    EntryPtr::own_slot(BUCKET_LEN - 1)
}

/// Calls a function with the pair in a live slot, with the value lent for writing. If the result
/// isn't `keeps`, takes the pair out and returns it; in an index the slot becomes a tombstone.
#[inline(always)]
#[tactic(auto, using(crate::proofs::Walking::AskingSlot::stays_live))]
pub(crate) fn ask_slot<
    K: Drop,
    V: Drop,
    L: LruList,
    F: FnMut(&K, &mut V) -> bool,
    G: Generation,
    const TYPE: u8,
>(
    bucket: &mut Bucket<K, V, L, TYPE>,
    at: &mut EntryPtr<K, V, TYPE>,
    ask: &mut F,
    keeps: bool,
    generation: &G,
) -> Option<(K, V)>
    requires callable { F.IsAlwaysCallable ask.old }
    requires live_slot { IsTrue (is_live (slot_in bucket.old at.old)) }
    ensures again { F.IsAlwaysCallable ask.new }
    ensures asked { (pair : K × V) → live_pair (slot_in bucket.old at.old) ≡ Some pair → AsksAt
        (λ state own before answer after last. F.step state own before answer after last)
        TYPE keeps ask.old pair bucket.old at.old result bucket.new at.new ask.new }
    ensures left { IsLeftOf TYPE (G.epoch_of generation.now) bucket.old bucket.new }
{
    bucket.fact_sound();
    let (key, value) = bucket.entry_mut(at);
    if ask(key, value) == keeps {
        return None;
    }
    bucket.fact_sound();
    take_at(bucket, at, generation)
}

/// Takes the pair out of a live slot and returns it. In an index the slot becomes a tombstone.
pub(crate) fn take_at<K: Drop, V: Drop, L: LruList, G: Generation, const TYPE: u8>(
    bucket: &mut Bucket<K, V, L, TYPE>,
    at: &mut EntryPtr<K, V, TYPE>,
    generation: &G,
) -> Option<(K, V)>
    requires live_slot { IsTrue (is_live (slot_in bucket.old at.old)) }
    ensures pair { TYPE ≢ INDEX → result ≡ live_pair (slot_in bucket.old at.old) }
    ensures slots { bucket.new ≡ slots_taken TYPE (G.epoch_of generation.now) bucket.old at.old }
    ensures pairs_ahead { pairs_ahead bucket.new at.new ≡ pairs_ahead bucket.old at.old }
{
    bucket.fact_sound();
    if TYPE == INDEX {
        bucket.mark_removed(at, generation);
        return None;
    }
    Some(bucket.remove(at))
}
