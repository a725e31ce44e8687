//! Resizing a cache.
use super::Course;
use crate::collection::Collection;
use test_helpers::{KEYS, spread};

impl Course {
    /// Resizes a cache of 64 slots to 128, and any other cache to 64, and returns whether the
    /// result is right; in another collection frees slots.
    pub(super) fn resize(&mut self) -> bool {
        let Collection::Cache(cache) = &mut self.collection else {
            return self.collection.shrink_to_fit();
        };
        let slots = if cache.capacity() == 64 { 128 } else { 64 };
        if cache.resize(slots).is_err() {
            self.counts.refused = self.counts.refused.saturating_add(1);
            return true;
        }
        self.lets_go()
    }

    /// Records the pairs that were evicted, and returns whether the others have their values.
    fn lets_go(&mut self) -> bool {
        for number in 0..KEYS {
            let found = self.collection.value(spread(number));
            if found != self.beside.value(number) {
                if found.is_some() {
                    return false;
                }
                self.beside.set(number, None);
                self.counts.gone = self.counts.gone.saturating_add(1);
            }
        }
        true
    }
}
