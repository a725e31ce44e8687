//! The own slots of a bucket in LRU order.
ghost use Rattle.std.specs.Prelude.{◌≡◌};
ghost use Rattle.bucket_slots.specs.ByUse.{slots_by_use};
ghost use Rattle.bucket_slots.specs.Places.{pair_lent};
ghost use Rattle.bucket_slots.specs.Slots.{live_pair, slot_at};

use super::recency::take_order;
use crate::bucket::{BUCKET_LEN, Bucket};
use crate::lru::{DoublyLinkedList, LruList};

impl<K, V, L: LruList, const TYPE: u8> Bucket<K, V, L, TYPE> {
    /// Returns the pair of an own slot, or `None` if the slot isn't live.
    ///
    /// O(1).
    #[inline(always)]
    pub fn own_pair(&self, pos: usize) -> Option<(&K, &V)>
        ensures { pair_lent result ≡ live_pair (slot_at self.now.own pos) }
    {
        match self.own.next_live(pos) {
            Some(next) => {
                if next == pos {
                    Some(self.own.pair(pos))
                } else {
                    None
                }
            }
            None => None,
        }
    }
}

impl<K, V, const TYPE: u8> Bucket<K, V, DoublyLinkedList, TYPE> {
    /// Returns the own slots in LRU order: the listed ones, newest first, then the others in slot
    /// order.
    ///
    /// Changes and allocates nothing. O(1), since the number of own slots is fixed.
    pub fn slots_by_use(&self) -> [u8; BUCKET_LEN]
        ensures { result ≡ slots_by_use 32 self.now.listed }
    {
        let (mut slots, mut len) = take_order(&mut self.lru.copy(), self.tail);
        let mut slot = 0;
        'others: while slot < BUCKET_LEN {
            let listed = slots[..len].contains(&(slot as u8));
            if !listed {
                slots[len] = slot as u8;
                len += 1;
            }
            slot += 1;
        }
        slots
    }
}
