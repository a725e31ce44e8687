//! The old array of an incremental rehash and its tickets, in a box, so that a table without an old
//! array is small.
//!
//! Model: `OldView`, the buckets, none where there is no old array, and the tickets. No invariant.
ghost use Rattle.std.specs.Prelude.{◌≡◌, ◌<◌, ◌≤◌, ◌↔◌, ◌^◌, IsTrue, IfOk, IfErr, IfSome, length};
ghost use Rattle.std.specs.Prelude.{IsSome, MatchOption};
ghost use Rattle.std.specs.Borrow.{sem};
ghost use Rattle.bucket_slots.specs.Sizing.{IsLength};
ghost use Rattle.bucket_table.specs.Layout.OldFields.{no_old};
ghost use Rattle.bucket_table.specs.Map.LookingUp.{lent_buckets};
ghost use Rattle.bucket_table.specs.Rehash.Covered.{IsUnitKilled};
ghost use Rattle.bucket_table.specs.Rehash.State.{IsTicketState, first_tickets, word_of};
ghost use Rattle.bucket_table.specs.Rehash.Steps.{Ends, Starts};
ghost use Rattle.bucket_table.specs.Views.ArraysView.{killed_flags};
ghost use Rattle.bucket_table.specs.Views.OldLoan.{LendsBoxed, LendsHeld};

use crate::tickets::{REHASHING_UNIT_LEN, TicketError, Tickets};
use bucket_slots::bucket_array::BucketArray;
use bucket_slots::lru::LruList;
use std::alloc::Global;
use std::marker::Model;

/// An array and the tickets of its units.
#[derive(Drop)]
struct Rehash<A> {
    array: A,
    tickets: Tickets,
}

/// The old array with its tickets, or neither.
#[derive(Drop)]
pub(super) struct OldArray<K, V, L: LruList, const TYPE: u8> {
    rehash: Option<Box<Rehash<BucketArray<K, V, L, TYPE>>>>,
}

impl<K, V, L: LruList, const TYPE: u8> Model for OldArray<K, V, L, TYPE> {
    ghost use Rattle.bucket_table.specs.Layout.OldFields.{OldView, old_view};

    ghost Value = { OldView K V };

    ghost view = { λ old. old_view old.rehash };
}

impl<K, V, L: LruList, const TYPE: u8> OldArray<K, V, L, TYPE> {
    ghost use Rattle.bucket_table.specs.Views.OldLoan.{LendsArray};

    /// Returns no old array. Takes no memory.
    pub(super) fn none() -> Self
        ensures { result ≡ no_old }
    {
        OldArray { rehash: None }
    }

    /// Returns an old array with its tickets.
    ///
    /// # Errors
    ///
    /// Allocation failed: the array is returned.
    pub(super) fn new(
        alloc: Global,
        array: BucketArray<K, V, L, TYPE>,
        tickets: Tickets,
    ) -> Result<Self, BucketArray<K, V, L, TYPE>>
        ensures made { IfOk result (λ old. old ≡ record { array = array; tickets = tickets }) }
        ensures array_returned { IfErr result (λ back. back ≡ array) }
    {
        match Box::new(alloc, Rehash { array, tickets }) {
            Ok(rehash) => Ok(OldArray {
                rehash: Some(rehash),
            }),
            Err(back) => Err(back.value.array),
        }
    }

    /// Tests whether there is an old array.
    #[inline(always)]
    pub(super) fn is_some(&self) -> bool
        ensures { IsTrue result ↔ (0 < length self.now.array) }
    {
        match &self.rehash {
            None => false,
            Some(rehash) => {
                let _len = rehash.array.len();
                true
            }
        }
    }

    /// Returns the number of buckets, and 0 where there is no old array.
    #[inline(always)]
    pub(super) fn len(&self) -> usize
        ensures value { result ≡ length self.now.array }
        ensures few { result ≤ 2 ^ 57 }
        ensures power { 0 < result → IsLength result }
    {
        match &self.rehash {
            None => 0,
            Some(rehash) => rehash.array.len(),
        }
    }

    /// Returns the array.
    #[inline(always)]
    pub(super) fn array(&self) -> Option<&BucketArray<K, V, L, TYPE>>
        ensures there { MatchOption result (length self.now.array ≡ 0) (λ array.
            (0 < length array.now) × (array.now ≡ self.now.array)) }
        ensures lent { lent_buckets result ≡ self.now.array }
    {
        match &self.rehash {
            None => None,
            Some(rehash) => {
                let _len = rehash.array.len();
                Some(&rehash.array)
            }
        }
    }

    /// Lends the array for writing.
    #[inline(always)]
    pub(super) fn array_mut(&mut self) -> &mut BucketArray<K, V, L, TYPE>
        requires { 0 < length self.old.array }
        ensures* writes_back { sem 𝓛
            (LendsArray K.row V.row L.row TYPE.row
            (record { KEEPS = L.KEEPS; listed = L.listed; IsTail = L.IsTail }) L.Default
            self.entry result) }
        ensures array { result.now ≡ self.old.array }
    {
        array_in(&mut self.rehash)
    }

    /// Returns the rehash word; 0 where there is no old array.
    pub(super) fn word(&self) -> usize
        ensures word { result ≡ word_of self.now.tickets }
        ensures few { length self.now.tickets.open_units ≤ 2047 }
    {
        match &self.rehash {
            Some(rehash) => rehash.tickets.word(),
            None => 0,
        }
    }

    /// States that the tickets are within their bounds; does nothing at run time.
    pub(super) fn fact_tickets(&self)
        ensures { IsTicketState self.now.tickets }
    {
        if let Some(rehash) = &self.rehash {
            rehash.tickets.fact_sound();
        }
    }

    /// Tests whether each bucket of a unit is killed.
    pub(super) fn is_unit_killed(&self, unit: usize) -> bool
        requires { unit < 2 ^ 53 }
        ensures { IsTrue result ↔ IsUnitKilled (killed_flags self.now.array) unit }
    {
        match &self.rehash {
            None => true,
            Some(rehash) => is_unit_killed(&rehash.array, unit),
        }
    }

    /// Issues the ticket of the next unit; `None` where no unit is left, or too many are open.
    pub(super) fn start(&mut self) -> Option<usize>
        ensures tickets { Starts self.old.tickets result self.new.tickets }
        ensures array { self.new.array ≡ self.old.array }
    {
        match &mut self.rehash {
            Some(rehash) => rehash.tickets.start(),
            None => None,
        }
    }

    /// Ends every ticket, so that each unit is issued again.
    pub(super) fn reset(&mut self)
        ensures { self.new
            ≡ record self.old { tickets = first_tickets self.old.tickets.len } }
    {
        if let Some(rehash) = &mut self.rehash {
            rehash.tickets.reset();
        }
    }

    /// Ends a ticket, and returns whether nothing is left to do, as `Tickets::end` does.
    pub(super) fn end(
        &mut self,
        ticket: usize,
        success: bool,
        unit_done: bool,
    ) -> Result<bool, TicketError>
        ensures tickets { Ends self.old.tickets ticket success (IsTrue unit_done) result
            self.new.tickets }
        ensures array { self.new.array ≡ self.old.array }
    {
        match &mut self.rehash {
            Some(rehash) => rehash.tickets.end(ticket, success, unit_done),
            None => Err(TicketError::NotOpen),
        }
    }
}

/// Tests whether each bucket of a unit is killed.
fn is_unit_killed<K, V, L: LruList, const TYPE: u8>(
    array: &BucketArray<K, V, L, TYPE>,
    unit: usize,
) -> bool
    requires { unit < 2 ^ 53 }
    ensures { IsTrue result ↔ IsUnitKilled (killed_flags array.now) unit }
{
    array.fact_room();
    let start = (unit * REHASHING_UNIT_LEN).min(array.len());
    let end = (unit * REHASHING_UNIT_LEN + REHASHING_UNIT_LEN).min(array.len());
    for i in start..end {
        if !array.bucket(i).is_killed() {
            return false;
        }
    }
    true
}

/// Lends the array of a rehash for writing.
#[inline(always)]
fn array_in<A>(held: &mut Option<Box<Rehash<A>>>) -> &mut A
    requires { IsSome held.old }
    ensures* writes_back { sem 𝓛 (LendsHeld A.row held.entry result) }
    ensures array { IfSome held.old (λ rehash. result.now ≡ rehash.value.array) }
{
    match held {
        Some(rehash) => array_of(rehash),
        None => unreachable!(),
    }
}

/// Lends the array in a box for writing.
#[inline(always)]
fn array_of<A>(rehash: &mut Box<Rehash<A>>) -> &mut A
    ensures* writes_back { sem 𝓛 (LendsBoxed A.row rehash.entry result) }
    ensures array { result.now ≡ rehash.old.value.array }
{
    &mut rehash.array
}
