//! Plays the stories of one or two buckets of each kind.
use crate::stage::Stage;
use crate::{caches, indexes, maps};
use bucket_slots::bucket::{CACHE, INDEX, MAP};
use bucket_slots::lru::DoublyLinkedList;
use std::test::Fail;

#[test]
fn buckets_of_each_kind_go_through_their_stories(rt: HostRuntime) -> Result<(), Fail> {
    for stories in [maps::PLACES, maps::WALKS, maps::MOVES, maps::WRITTEN] {
        for story in stories {
            Stage::<(), MAP>::new(rt.alloc()).tell(&rt, story)?;
        }
    }
    for stories in [
        indexes::INSERTIONS,
        indexes::RESERVATIONS,
        indexes::CLEARINGS,
        indexes::SEARCHES,
        indexes::SEVEN_MARKED,
        indexes::BY_REST,
        indexes::GONE,
        indexes::ODD_EPOCHS,
    ] {
        for story in stories {
            Stage::<(), INDEX>::new(rt.alloc()).tell(&rt, story)?;
        }
    }
    for stories in [caches::EVICTIONS, caches::ORDERS] {
        for story in stories {
            Stage::<DoublyLinkedList, CACHE>::new(rt.alloc()).tell(&rt, story)?;
        }
    }
    // A cache that keeps no LRU order.
    for story in caches::NO_ORDER {
        Stage::<(), CACHE>::new(rt.alloc()).tell(&rt, story)?;
    }
    Ok(())
}
