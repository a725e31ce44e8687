//! The tickets of one old array: which of its units are issued.
ghost use Rattle.std.specs.Prelude.{◌≡◌, ◌+◌, ◌*◌, ◌/◌, ◌%◌, ◌^◌, ◌<◌, ◌≤◌, ℕ, length};
ghost use Rattle.std.specs.Prelude.{IfOk, IsTrue, ◌↔◌, MatchOption, slice_index};
ghost use Rattle.std.specs.List.{Contains};
ghost use Rattle.bucket_table.specs.Rehash.State.{IsTicketState, first_tickets, word_of};
ghost use Rattle.bucket_table.specs.Rehash.Steps.{Starts, Ends, IsOver};

use std::alloc::{AllocError, Global};
use std::marker::Model;

/// The number of old buckets in a unit. scc: `REHASHING_UNIT_LEN`.
pub const REHASHING_UNIT_LEN: usize = 64;

/// The number of low bits of the rehash word that count open tickets. scc: `REF_COUNT_BITS`.
pub const REF_COUNT_BITS: u32 = 11;

/// How much a unit adds to the rehash word: one more than the greatest number of open tickets.
pub const TICKET_STEP: usize = 1 << REF_COUNT_BITS;

/// The greatest number of tickets that can be open at a time.
const MAXIMUM_OPEN: usize = TICKET_STEP - 1;

const _: () = prove!(REHASHING_UNIT_LEN == 64 && TICKET_STEP == 2048 && MAXIMUM_OPEN == 2047);

/// Why a ticket can't be ended.
#[derive(Drop)]
pub enum TicketError {
    NotOpen,
    NotDone,
}

/// The tickets of an old array.
#[derive(Drop)]
pub struct Tickets {
    position: usize,
    open_units: Vec<usize>,
    len: usize,
}

impl Model for Tickets {
    ghost use Rattle.bucket_table.specs.Rehash.State.{TicketState, IsTicketState};
    ghost use Rattle.bucket_table.specs.Layout.TicketFields.{HasRoom, state_of};

    ghost Value = { TicketState };

    ghost view = { state_of };

    ghost invariant = { HasRoom };
}

impl Tickets {
    /// Returns tickets for an old array of `len` buckets, with no unit issued. O(1).
    ///
    /// # Errors
    ///
    /// Allocation of the list of open tickets failed.
    pub fn new(alloc: Global, len: usize) -> Result<Tickets, AllocError>
        requires { len ≤ 2 ^ 58 }
        ensures { IfOk result (λ tickets. tickets ≡ first_tickets len) }
    {
        let most = if len <= REHASHING_UNIT_LEN {
            1
        } else {
            MAXIMUM_OPEN
        };
        let open_units = Vec::with_capacity(alloc, most)?;
        Ok(Tickets {
            position: 0,
            open_units,
            len,
        })
    }

    /// Returns the tickets of a table without an old array: no unit is issued, and none will be.
    /// Allocates nothing. O(1).
    pub fn none(alloc: Global) -> Tickets
        ensures { result ≡ first_tickets 0 }
    {
        Tickets {
            position: 0,
            open_units: Vec::new(alloc),
            len: 0,
        }
    }

    /// States that the position and the number of open tickets are in their bounds; does nothing at
    /// run time.
    pub fn fact_sound(&self)
        ensures { IsTicketState self.now }
    {
        let _ = &self.position;
    }

    /// Returns the rehash word: 2048 times the next unit to issue, plus the number of open tickets.
    pub fn word(&self) -> usize
        ensures word { result ≡ word_of self.now }
        ensures few { length self.now.open_units ≤ 2047 }
    {
        self.position * TICKET_STEP + self.open_units.len()
    }

    /// Returns whether no unit is open and none is left to issue.
    pub fn is_over(&self) -> bool
        ensures { IsTrue result ↔ IsOver self.now }
    {
        self.open_units.is_empty() && self.position * REHASHING_UNIT_LEN >= self.len
    }

    /// Issues the next unit and returns its ticket, or `None` if no unit is left or too many are
    /// open.
    pub fn start(&mut self) -> Option<usize>
        ensures { Starts self.old result self.new }
    {
        if self.open_units.len() == MAXIMUM_OPEN || self.position * REHASHING_UNIT_LEN >= self.len {
            return None;
        }
        let unit = self.position;
        self.open_units.push_reserved(unit);
        self.position = unit + 1;
        Some(unit * TICKET_STEP)
    }

    /// Ends every ticket, so that each unit will be issued again.
    pub fn reset(&mut self)
        ensures { self.new ≡ first_tickets self.old.len }
    {
        self.open_units.clear();
        self.position = 0;
    }

    /// Ends a ticket, and returns whether the old array is to be dropped. O(open tickets).
    ///
    /// # Errors
    ///
    /// The ticket isn't open, or `success` is claimed but the unit isn't done: nothing changes.
    pub fn end(
        &mut self,
        ticket: usize,
        success: bool,
        unit_done: bool,
    ) -> Result<bool, TicketError>
        ensures { Ends self.old ticket success (IsTrue unit_done) result self.new }
    {
        let Some(place) = place_of(&self.open_units, ticket) else {
            return Err(TicketError::NotOpen);
        };
        if success && !unit_done {
            return Err(TicketError::NotDone);
        }
        let unit = self.open_units.swap_remove(place);
        if success {
            Ok(self.is_over())
        } else {
            self.position = self.position.min(unit);
            Ok(false)
        }
    }
}

/// Returns a position of the ticket's unit in the list of open units.
fn place_of(open_units: &[usize], ticket: usize) -> Option<usize>
    ensures { MatchOption result
        ((unit : ℕ) → ticket ≡ 2048 * unit → Contains open_units.now unit → ⊥) (λ place.
        (place < length open_units.now) × (ticket ≡ 2048 * slice_index open_units.now place)) }
{
    if ticket % TICKET_STEP != 0 {
        return None;
    }
    let unit = ticket / TICKET_STEP;
    open_units.iter().position(|other| *other == unit)
}
