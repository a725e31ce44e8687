//! The incremental rehash: its tickets, a unit inside a call, and all that is left at once.
ghost use Rattle.std.specs.Prelude.{◌≡◌, ◌+◌, ◌*◌, ◌<◌, [], false, IfNone, None, length, ◌-◌, Ok};
ghost use Rattle.std.specs.Prelude.{IfOk, OnErr, ◌≤◌};
ghost use Rattle.bucket_table.specs.Views.ArraysView.{LosesNoUnit, entries_of, ArePlaced};
ghost use Rattle.bucket_table.specs.Rehash.Rehashing.{EndsRehash};
ghost use Rattle.bucket_table.specs.Rehash.Steps.{Starts};
ghost use Rattle.bucket_table.specs.Resize.Remaking.{unopened, RehashesTo};
ghost use Rattle.bucket_slots.specs.Homes.{IsInRange};
ghost use Rattle.bucket_table.specs.Views.Sides.{buckets_on};
ghost use Rattle.bucket_table.specs.Views.Keeping.{KeepsArrays};
ghost use Rattle.bucket_table.specs.Rehash.Finishing.{Finishes, units_left};
ghost use Rattle.bucket_table.specs.Rehash.Units.{KillsOnly, SpendsSome, NeedsMemory, WorksUnit};
ghost use Rattle.bucket_table.specs.Rehash.Units.{WorksUnits};

use super::old_array::OldArray;
use super::side::current_in;
use super::{Arrays, Side};
use crate::capacity::{from_index_to_range, len_for};
use crate::key_hash::KeyHash;
use crate::tickets::{REHASHING_UNIT_LEN, TICKET_STEP, TicketError};
use bucket_slots::lru::LruList;
use std::alloc::AllocError;

impl<K, V, L: LruList, const TYPE: u8> Arrays<K, V, L, TYPE> {
    /// Issues the next unit of the old array, and returns its ticket.
    pub fn start_incremental_rehash(&mut self) -> Option<usize>
        ensures tickets { Starts self.old.tickets result self.new.tickets }
        ensures others { self.new ≡ record self.old { tickets = self.new.tickets } }
    {
        self.linked.start()
    }

    /// Ends every ticket, so that each unit will be issued again. A killed bucket has no pair left,
    /// so no pair is lost.
    pub(crate) fn reset_tickets(&mut self)
        ensures { self.new ≡ unopened self.old }
    {
        self.fact_sound();
        self.linked.reset();
    }

    /// Rebuilds the digest of a bucket, if it is a current one. No bucket changes.
    pub(crate) fn refresh_on(&mut self, side: Side, index: usize)
        requires { index < length (buckets_on self.old side) }
        ensures { self.new ≡ self.old }
    {
        match side {
            Side::Current => current_in(&mut self.current).refresh(index),
            Side::Old => {}
        }
    }
}

impl<K: Drop, V: Drop, L: LruList + Drop, const TYPE: u8> Arrays<K, V, L, TYPE> {
    /// Ends a ticket, and returns whether the old array was dropped.
    pub fn end_incremental_rehash(
        &mut self,
        ticket: usize,
        success: bool,
    ) -> Result<bool, TicketError>
        requires { LosesNoUnit self.old.linked self.old.tickets }
        ensures rehash { EndsRehash self.old ticket success result self.new }
        ensures same_pairs { entries_of self.new ≡ entries_of self.old }
    {
        let is_done = self.linked.is_unit_killed(ticket / TICKET_STEP);
        match self.linked.end(ticket, success, is_done) {
            Ok(true) => {
                self.linked = OldArray::none();
                Ok(true)
            }
            Ok(false) => Ok(false),
            Err(error) => Err(error),
        }
    }
}

impl<K: Eq + Drop, V: Drop, L: LruList + Drop, const TYPE: u8> Arrays<K, V, L, TYPE> {
    /// Works the next unit of the old array, and returns whether all of it has moved: an allocation
    /// failure ends the unit early. Returns `None` if no unit can be issued.
    pub(crate) fn work_unit<H: KeyHash<K>>(&mut self, hasher: &H) -> Option<bool>
        requires placed { ArePlaced (H.hash_of hasher.now) self.old }
        ensures placed { ArePlaced (H.hash_of hasher.now) self.new }
        ensures kept { KeepsArrays self.old self.new }
        ensures units { WorksUnits 1 (λ index. ⊥) self.old self.new }
        ensures alone { length self.old.linked ≡ 0 → (result ≡ None) × (self.new ≡ self.old) }
        ensures none { IfNone result (self.new ≡ self.old) }
        ensures finishes { self.old.tickets.open_units ≡ [] → Finishes self.old result self.new }
    {
        self.fact_sound();
        let Some(ticket) = self.start_incremental_rehash() else {
            return None;
        };
        let success = self.relocate_unit(hasher, ticket / TICKET_STEP);
        let _ = self.end_incremental_rehash(ticket, success);
        Some(success)
    }

    /// Relocates each old bucket of a unit in turn, and returns whether no allocation failed.
    pub(crate) fn relocate_unit<H: KeyHash<K>>(&mut self, hasher: &H, unit: usize) -> bool
        requires within { 64 * unit < length self.old.linked }
        requires placed { ArePlaced (H.hash_of hasher.now) self.old }
        ensures placed { ArePlaced (H.hash_of hasher.now) self.new }
        ensures worked { WorksUnit unit result self.old self.new }
        ensures spends { SpendsSome self.old.linked self.new.linked }
        ensures only { KillsOnly (IsInRange (64 * unit) (64 * unit + 64)) self.old.linked
            self.new.linked }
        ensures wanted { result ≡ false
            → NeedsMemory (IsInRange (64 * unit) (64 * unit + 64)) self.old self.new }
    {
        let len = self.old_len();
        let start = unit * REHASHING_UNIT_LEN;
        let end = (start + REHASHING_UNIT_LEN).min(len);
        let success = self.relocate_range(hasher, start, end);
        self.refresh_unit(start, end);
        self.release_old(start);
        success
    }

    /// Rebuilds the digests of the homes of some old buckets. No bucket changes.
    fn refresh_unit(&mut self, start: usize, end: usize)
        ensures { self.new ≡ self.old }
    {
        let from = self.old_len();
        let to = self.len();
        if start >= end || end > from || to == 0 {
            return;
        }
        let (first, _) = from_index_to_range(from, to, start);
        let (_, last) = from_index_to_range(from, to, end - 1);
        for home in first..last {
            self.refresh_on(Side::Current, home);
        }
    }

    /// Frees the old buckets around one, if they are killed and empty.
    fn release_old(&mut self, index: usize)
        requires { index < length self.old.linked }
        ensures { self.new ≡ self.old }
    {
        let linked = self.linked.array_mut();
        match &mut self.current {
            Some(current) => linked.release_into(index, current),
            None => linked.release_around(index),
        }
    }

    /// Works the units of the old array, one after another, until it is dropped. Returns how many
    /// units were worked.
    ///
    /// # Errors
    ///
    /// Allocation failed: no ticket is open.
    pub(crate) fn finish_rehash<H: KeyHash<K>>(&mut self, hasher: &H) -> Result<usize, AllocError>
        requires placed { ArePlaced (H.hash_of hasher.now) self.old }
        requires none_open { self.old.tickets.open_units ≡ [] }
        ensures placed { ArePlaced (H.hash_of hasher.now) self.new }
        ensures kept { KeepsArrays self.old self.new }
        ensures none_open { self.new.tickets.open_units ≡ [] }
        ensures gone { IfOk result (λ count. length self.new.linked ≡ 0) }
        ensures counted { IfOk result (λ count. count ≡ units_left self.old) }
        ensures wanted { OnErr result (NeedsMemory (λ i. Unit {0}) self.old self.new) }
        ensures units { OnErr result (WorksUnits
            (self.new.tickets.position + 1 - self.old.tickets.position)
            (λ index. ⊥) self.old self.new) }
        ensures alone { length self.old.linked ≡ 0 → (result ≡ Ok 0) × (self.new ≡ self.old) }
    {
        let _len = self.old_len();
        let mut count: usize = 0;
        while let Some(success) = self.work_unit(hasher) {
            if !success {
                return Err(AllocError);
            }
            count += 1;
        }
        Ok(count)
    }

    /// Ends the rehash that is under way, and moves all pairs into an array for a capacity, if the
    /// current one doesn't have that length.
    ///
    /// # Errors
    ///
    /// Allocation failed: no pair is lost, and the pairs are in one array or two.
    pub(crate) fn rehash_to<H: KeyHash<K>>(
        &mut self,
        hasher: &H,
        capacity: usize,
    ) -> Result<(), AllocError>
        requires placed { ArePlaced (H.hash_of hasher.now) self.old }
        requires within { capacity ≤ self.old.maximum }
        ensures placed { ArePlaced (H.hash_of hasher.now) self.new }
        ensures rehashed { RehashesTo capacity self.old result self.new }
    {
        self.fact_sound();
        self.fact_tickets();
        self.reset_tickets();
        self.finish_rehash(hasher)?;
        if self.len() == len_for(capacity) {
            return Ok(());
        }
        self.remake_array(capacity)?;
        self.finish_rehash(hasher)?;
        Ok(())
    }
}
