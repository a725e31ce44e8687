//! LRU lists on their own, with the tail that their owner keeps.
ghost use Rattle.std.specs.Prelude.{◌<◌, ℕ, List};

use crate::checks::check_same;
use Act::*;
use bucket_slots::lru::{DoublyLinkedList, LruList};
use std::marker::Model;
use std::process::Abort;
use test_helpers::steps;

/// A list with its tail, as its owner keeps them.
#[derive(Drop)]
struct Recent<L: LruList> {
    list: L,
    tail: u32,
}

impl<L: LruList> Model for Recent<L> {
    ghost Value = { List ℕ };

    ghost view = { λ recent. L.listed recent.list recent.tail };

    ghost invariant = { λ recent. L.IsTail recent.list recent.tail };
}

/// A call on a list of slots below 32, with its answer.
enum Act {
    /// Evict a slot: this slot and the new tail, or none.
    Evict(Option<(u8, u32)>),
    /// Remove a slot: the new tail, if it changes.
    Remove(u8, Option<u32>),
    /// Make a slot the newest: the new tail, if it changes.
    Promote(u8, Option<u32>),
    /// Make a slot the oldest, after removing it if it is listed: the new tail, if no other slot is
    /// listed.
    Append(u8, Option<u32>),
}

impl<L: LruList> Recent<L> {
    fn new() -> Self {
        Recent {
            list: L::default(),
            tail: 0,
        }
    }

    // Makes the calls one after another, and checks each answer.
    fn play(&mut self, rt: &impl Abort, story: &str, acts: &[Act]) {
        for (row, act) in acts.iter().enumerate() {
            self.act(rt, (story, row), act);
        }
    }

    // Makes a call, and checks its answer.
    fn act(&mut self, rt: &impl Abort, row: (&str, usize), act: &Act) {
        match act {
            Evict(wanted) => {
                let found = self.list.evict(self.tail);
                if let Some((_, tail)) = found {
                    self.tail = tail;
                }
                check_same(rt, found, *wanted, (row, "evict", 0));
            }
            Remove(slot, wanted) => {
                assert!(rt; *slot < 32);
                let found = self.list.remove(self.tail, *slot);
                self.tail = found.unwrap_or(self.tail);
                check_same(rt, found, *wanted, (row, "remove", *slot));
            }
            Promote(slot, wanted) => {
                assert!(rt; *slot < 32);
                let found = self.list.promote(self.tail, *slot);
                self.tail = found.unwrap_or(self.tail);
                check_same(rt, found, *wanted, (row, "promote", *slot));
            }
            Append(slot, wanted) => {
                assert!(rt; *slot < 32);
                check_same(rt, self.append(*slot), *wanted, (row, "append", *slot));
            }
        }
    }

    // Removes a slot if it is listed, and puts it at the oldest end.
    fn append(&mut self, slot: u8) -> Option<u32>
        requires { slot < 32 }
    {
        let left = self.list.remove(self.tail, slot);
        self.tail = left.unwrap_or(self.tail);
        let found = self.list.append(self.tail, slot);
        self.tail = found.unwrap_or(self.tail);
        found
    }
}

const STORIES: &[(&str, &[Act])] = steps! {
    ("the only slot is removed", steps! {
        Promote(5, Some(6)), Promote(5, None), Remove(5, Some(0)), Evict(None) }),
    ("the oldest is evicted first", steps! {
        Promote(1, Some(2)), Promote(2, Some(3)), Promote(3, Some(4)), Remove(3, Some(3)),
        Promote(1, Some(2)), Evict(Some((2, 2))), Evict(Some((1, 0))), Evict(None) }),
    // Slot 3 has slot 0 on both sides.
    ("slot three is evicted", steps! {
        Promote(3, Some(4)), Promote(0, Some(1)), Evict(Some((3, 1))), Evict(Some((0, 0))),
        Evict(None) }),
    ("slot three is removed", steps! {
        Promote(3, Some(4)), Promote(0, Some(1)), Remove(3, None), Evict(Some((0, 0))),
        Evict(None) }),
    // A slot that isn't listed, on an empty list and beside slot 0.
    ("nothing is removed", steps! {
        Remove(3, None), Promote(0, Some(1)), Remove(3, None), Evict(Some((0, 0))), Evict(None) }),
    ("appended slots are older than all others", steps! {
        Append(5, Some(6)), Append(9, None), Promote(7, Some(8)), Append(0, None),
        Evict(Some((0, 8))), Evict(Some((9, 8))), Evict(Some((5, 8))), Evict(Some((7, 0))),
        Evict(None) }),
    ("a listed slot is appended", steps! {
        Promote(3, Some(4)), Append(3, Some(4)), Promote(31, Some(32)), Promote(30, Some(31)),
        Append(30, None), Append(31, None), Evict(Some((31, 4))), Remove(30, None),
        Append(3, Some(4)), Evict(Some((3, 0))), Evict(None) }),
    // Slot 3 has slot 0 on both sides, at the other end.
    ("slot three is appended", steps! {
        Append(0, Some(1)), Append(3, None), Remove(0, Some(4)), Append(0, None),
        Evict(Some((0, 4))), Evict(Some((3, 0))), Evict(None) })
};

const NOTHING_IS_KEPT: &[Act] = &[
    Promote(3, None),
    Promote(0, None),
    Append(3, None),
    Append(0, None),
    Remove(3, None),
    Evict(None),
];

#[test]
fn lists_answer_as_worked_out_by_hand(rt: HostRuntime) {
    // A list that is empty again behaves as a new one.
    let mut used = Recent::<DoublyLinkedList>::new();
    for (story, acts) in STORIES {
        Recent::<DoublyLinkedList>::new().play(&rt, story, acts);
        used.play(&rt, story, acts);
        used.play(&rt, story, acts);
    }
    Recent::<()>::new().play(
        &rt,
        "the list that keeps nothing stays empty",
        NOTHING_IS_KEPT,
    );
}
