//! The pairs of the arrays by value: all of them, or those that a function picks.
ghost use Rattle.std.specs.Prelude.{◌≡◌, [], ◌≢◌, ◌≤◌, ◌<◌, IfSome, IsTrue, Some, length};
ghost use Rattle.bucket_table.specs.Rehash.State.{first_tickets};
ghost use Rattle.std.specs.Iterator.{YieldsFirst, item_count};
ghost use Rattle.bucket_table.specs.Map.Counting.{counted_to};
ghost use Rattle.bucket_table.specs.Views.ArraysView.{pairs_of};
ghost use Rattle.bucket_table.specs.Walking.Drains.{FreesSlots, emptied};
ghost use Rattle.bucket_table.specs.Walking.Row.{pairs_from, row_of};
ghost use Rattle.bucket_slots.specs.ArrayView.{bucket_at};
ghost use Rattle.bucket_slots.specs.BucketView.{slot_in};
ghost use Rattle.bucket_slots.specs.Slots.{is_live, live_pair};
ghost use Rattle.bucket_table.specs.Walking.Extracting.{AsksPair, Extracts, ExtractsAt};

use super::Arrays;
use super::old_array::OldArray;
use super::row::{is_exact, one_less, rest_after};
use crate::retain::ask_slot;
use bucket_slots::bucket::{EntryPtr, INDEX};
use bucket_slots::lru::LruList;
use std::iter::FusedIterator;
use std::marker::Model;
use std::mem;

impl<K: Drop, V: Drop, L: LruList + Drop, const TYPE: u8> Arrays<K, V, L, TYPE> {
    /// Drops both arrays and the tickets.
    pub(crate) fn clear(&mut self)
        ensures { self.new
            ≡ record self.old { current = []; linked = []; tickets = first_tickets 0 } }
    {
        self.current = None;
        self.linked = OldArray::none();
    }

    /// Makes the buckets of the current array empty, and drops the old array and the tickets.
    pub(crate) fn empty_slots(&mut self)
        ensures { self.new ≡ emptied self.old }
    {
        self.linked = OldArray::none();
        if let Some(array) = &mut self.current {
            array.clear(self.alloc);
        }
    }
}

/// The remaining pairs of a table by value: those after a place. Dropping it drops these pairs and
/// the memory of the slots.
///
/// If `is_counted`, `rest` is the number of remaining pairs.
#[derive(Drop)]
pub struct TableDrain<K, V, L: LruList, const TYPE: u8> {
    arrays: Arrays<K, V, L, TYPE>,
    index: usize,
    at: EntryPtr<K, V, TYPE>,
    rest: usize,
    is_counted: bool,
    ghost not_index: { FreesSlots TYPE },
}

impl<K, V, L: LruList, const TYPE: u8> Model for TableDrain<K, V, L, TYPE> {
    ghost use Rattle.std.specs.Prelude.{List};
    ghost use Rattle.bucket_table.specs.Map.Counting.{IsRest};
    ghost use Rattle.bucket_table.specs.Walking.Row.{pairs_from, row_of};

    ghost Value = { List (K × V) };

    ghost view = { λ drain. pairs_from (row_of drain.arrays) drain.index drain.at };

    ghost invariant = { λ drain. IsRest drain.is_counted drain.rest
        (pairs_from (row_of drain.arrays) drain.index drain.at) };
}

impl<K: Drop, V: Drop, L: LruList + Drop, const TYPE: u8> Iterator for TableDrain<K, V, L, TYPE> {
    type Item = (K, V);

    ghost next_gives = { YieldsFirst (λ left. left) };

    ghost remaining = { item_count (λ left. left) };

    fn next(&mut self) -> Option<(K, V)> {
        let taken = self.arrays.take_next(&mut self.index, &mut self.at);
        self.rest = rest_after(self.rest, &taken);
        taken
    }

    /// The number of remaining pairs, as both bounds. There is no upper bound if the table had
    /// 2^64 - 1 pairs or more.
    ///
    /// O(1).
    fn size_hint(&self) -> (usize, Option<usize>) {
        if self.is_counted {
            return (self.rest, Some(self.rest));
        }
        (0, None)
    }
}

impl<K: Drop, V: Drop, L: LruList + Drop, const TYPE: u8> FusedIterator
    for TableDrain<K, V, L, TYPE> {}

impl<K: Drop, V: Drop, L: LruList, const TYPE: u8> Arrays<K, V, L, TYPE> {
    /// Takes out the first pair after a place.
    fn take_next(&mut self, index: &mut usize, at: &mut EntryPtr<K, V, TYPE>) -> Option<(K, V)>
        requires not_index { TYPE ≢ INDEX }
        ensures { YieldsFirst (λ left. left) (pairs_from (row_of self.old) index.old at.old) result
            (pairs_from (row_of self.new) index.new at.new) }
    {
        if !self.has_row() {
            return None;
        }
        self.fact_row_room();
        let Some(_bucket) = self.next_slot(index, at) else {
            return None;
        };
        Some(self.nth_mut(*index).remove(at))
    }
}

impl<K, V, L: LruList, const TYPE: u8> Arrays<K, V, L, TYPE> {
    /// Takes both arrays out, and begins with all their pairs, of which there are `count`. The
    /// tickets are dropped.
    pub(crate) fn drain(&mut self, count: usize) -> TableDrain<K, V, L, TYPE>
        requires not_index { TYPE ≢ INDEX }
        requires count { count ≡ counted_to (pairs_of self.old) }
        ensures pairs { result ≡ pairs_of self.old }
        ensures arrays { self.new
            ≡ record self.old { current = []; linked = []; tickets = first_tickets 0 } }
    {
        TableDrain {
            arrays: self.take_out(),
            index: 0,
            at: EntryPtr::null(),
            rest: count,
            is_counted: is_exact(count),
        }
    }

    /// Takes both arrays out with their tickets, and begins with all their pairs, of which there
    /// are `count`.
    pub(crate) fn extract(&mut self, count: usize) -> TableExtract<K, V, L, TYPE>
        requires not_index { TYPE ≢ INDEX }
        requires count { count ≡ counted_to (pairs_of self.old) }
        ensures arrays_out { result.arrays ≡ self.old }
        ensures left { result.left ≡ pairs_of self.old }
        ensures arrays { self.new
            ≡ record self.old { current = []; linked = []; tickets = first_tickets 0 } }
    {
        TableExtract {
            arrays: self.take_out(),
            index: 0,
            at: EntryPtr::null(),
            most: count,
            is_counted: is_exact(count),
        }
    }

    /// Takes both arrays out with their tickets. No array is left.
    pub(super) fn take_out(&mut self) -> Self
        ensures taken { result ≡ self.old }
        ensures arrays { self.new
            ≡ record self.old { current = []; linked = []; tickets = first_tickets 0 } }
    {
        self.fact_sound();
        let none = Arrays::new(self.alloc, self.minimum, self.maximum);
        mem::replace(self, none)
    }
}

/// A table's arrays, and the place up to which `pick` was called. Dropping it drops the arrays.
///
/// If `is_counted`, at most `most` pairs are after the place.
#[derive(Drop)]
pub struct TableExtract<K, V, L: LruList, const TYPE: u8> {
    arrays: Arrays<K, V, L, TYPE>,
    index: usize,
    at: EntryPtr<K, V, TYPE>,
    most: usize,
    is_counted: bool,
    ghost not_index: { FreesSlots TYPE },
}

impl<K, V, L: LruList, const TYPE: u8> Model for TableExtract<K, V, L, TYPE> {
    ghost use Rattle.bucket_table.specs.Map.Counting.{IsMost};
    ghost use Rattle.bucket_table.specs.Walking.Extracting.{ExtractView};
    ghost use Rattle.bucket_table.specs.Walking.Row.{pairs_from, row_of};

    ghost Value = { ExtractView K V };

    ghost view = { λ taken. record {
      arrays = taken.arrays;
      left = pairs_from (row_of taken.arrays) taken.index taken.at;
    } };

    ghost invariant = { λ taken. IsMost taken.is_counted taken.most
        (pairs_from (row_of taken.arrays) taken.index taken.at) };
}

impl<K: Drop, V: Drop, L: LruList, const TYPE: u8> TableExtract<K, V, L, TYPE> {
    /// Calls `pick` with the remaining pairs in turn, with each value lent for writing, up to the
    /// first for which it returns true. Takes that pair out and returns it, or returns `None` if
    /// there is none.
    ///
    /// Allocates nothing itself. O(pairs and buckets passed), plus the calls of `pick`.
    pub fn extract_next<F: FnMut(&K, &mut V) -> bool>(&mut self, pick: &mut F) -> Option<(K, V)>
        requires callable { F.IsAlwaysCallable pick.old }
        ensures again { F.IsAlwaysCallable pick.new }
        ensures extracted { Extracts TYPE (AsksPair
            (λ state own before answer after last. F.step state own before answer after last))
            pick.old self.old result self.new pick.new }
    {
        if !self.arrays.has_row() {
            return None;
        }
        self.arrays.fact_row_room();
        'slots: while let Some(_bucket) = self.arrays.next_slot(&mut self.index, &mut self.at) {
            self.most = one_less(self.most);
            match ask_at(&mut self.arrays, self.index, &mut self.at, pick) {
                Some(pair) => return Some(pair),
                None => {}
            }
        }
        None
    }
}

impl<K, V, L: LruList, const TYPE: u8> TableExtract<K, V, L, TYPE> {
    /// Returns an upper bound on the number of remaining pairs, or `None` if the table had 2^64 - 1
    /// pairs or more. Each call of `pick` lowers it by one.
    ///
    /// O(1).
    pub fn most_left(&self) -> Option<usize>
        ensures { IfSome result (λ most. length self.now.left ≤ most) }
    {
        if self.is_counted {
            return Some(self.most);
        }
        None
    }

    /// Exchanges its arrays for others. The place is then meaningless.
    pub(crate) fn swap_arrays(&mut self, arrays: &mut Arrays<K, V, L, TYPE>)
        ensures there { arrays.new ≡ self.old.arrays }
    {
        self.is_counted = false;
        mem::swap(&mut self.arrays, arrays);
    }
}

/// Calls `pick` with the pair in a live slot of a bucket of the row, and takes the pair out if it
/// returns true.
#[inline(always)]
fn ask_at<K: Drop, V: Drop, L: LruList, F: FnMut(&K, &mut V) -> bool, const TYPE: u8>(
    arrays: &mut Arrays<K, V, L, TYPE>,
    index: usize,
    at: &mut EntryPtr<K, V, TYPE>,
    pick: &mut F,
) -> Option<(K, V)>
    requires not_index { TYPE ≢ INDEX }
    requires within { index < length (row_of arrays.old) }
    requires live_slot { IsTrue (is_live (slot_in (bucket_at (row_of arrays.old) index) at.old)) }
    requires callable { F.IsAlwaysCallable pick.old }
    ensures again { F.IsAlwaysCallable pick.new }
    ensures asked { (pair : K × V)
        → live_pair (slot_in (bucket_at (row_of arrays.old) index) at.old) ≡ Some pair
        → ExtractsAt
        (λ state own before answer after last. F.step state own before answer after last)
        TYPE pick.old pair arrays.old index at.old result arrays.new at.new pick.new }
{
    arrays.fact_row_room();
    let taken = ask_slot(arrays.nth_mut(index), at, pick, false, &());
    arrays.refresh_nth(index);
    taken
}
