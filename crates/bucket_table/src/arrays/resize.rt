//! Resizes: by a plan, which depends only on estimates, the current array becomes the old one or is
//! dropped.
ghost use Rattle.std.specs.Prelude.{◌≡◌, ◌*◌, ◌^◌, ◌≤◌, ◌↔◌, ℕ, List, IsTrue, length, ◌<◌, ◌+◌};
ghost use Rattle.std.specs.Prelude.{◌-◌, [], IfOk, OnOk, OnErr};
ghost use Rattle.std.specs.List.{All};
ghost use Rattle.bucket_slots.specs.Sizing.{IsOptimalCapacity, IsPowerIn};
ghost use Rattle.bucket_table.specs.Resize.ResizePlan.{IsCapacityWithin, IsPlan, IsPlanTo};
ghost use Rattle.bucket_table.specs.Resize.ResizePlan.{first_estimate, middle_estimate, slots_of};
ghost use Rattle.bucket_slots.specs.Sampling.{IsLargeSample};
ghost use Rattle.bucket_table.specs.Resize.Sampling.{live_counts};
ghost use Rattle.bucket_slots.specs.ArrayView.{IsNewArray};
ghost use Rattle.bucket_table.specs.Rehash.State.{first_tickets};
ghost use Rattle.bucket_table.specs.Views.ArraysView.{ArePlaced};
ghost use Rattle.bucket_table.specs.Views.Keeping.{Keeps};
ghost use Rattle.bucket_table.specs.Resize.Asking.{AsksShrinking};
ghost use Rattle.bucket_table.specs.Resize.Resizing.{IsPlanOf, IsPushed, MakesArray, Releases};
ghost use Rattle.bucket_table.specs.Resize.Resizing.{Reserves, Resizes, TriesResize, with_minimum};
ghost use Rattle.bucket_table.specs.Resize.Sparse.{IsSparse, ShrinksIf};

use super::old_array::OldArray;
use super::sampling::sample;
use super::side::current_in;
use super::{Arrays, Side};
use crate::tickets::Tickets;
use bucket_slots::bucket::BUCKET_LEN;
use bucket_slots::bucket_array::BucketArray;
use bucket_slots::lru::LruList;
use std::alloc::AllocError;

/// What a resize does.
#[derive(Drop)]
pub enum Plan {
    /// Nothing changes.
    Keep,
    /// The array is dropped.
    GiveUp,
    /// An array for this capacity in slots becomes the current one.
    Resize(usize),
}

/// Returns the plan for an array.
pub(crate) fn plan_of<K, V, L: LruList, const TYPE: u8>(
    array: &BucketArray<K, V, L, TYPE>,
    minimum: usize,
    maximum: usize,
) -> Plan
    requires maximum { IsPowerIn 64 (2 ^ 63) maximum }
    requires bounded { minimum ≤ maximum }
    requires within { 32 * length array.now ≤ maximum }
    ensures plan { IsPlan (live_counts array.now) minimum maximum result }
    ensures capacity { IsCapacityWithin maximum result }
{
    let slots = array.num_slots();
    let large = array.large_sample_size();
    let last = sample(array, array.len() - large, large);
    if last == 0 && minimum == 0 {
        if is_empty(array) {
            return Plan::GiveUp;
        }
        return Plan::Keep;
    }
    let is_full = BucketArray::<K, V, L, TYPE>::need_enlarge(slots, last);
    if !is_full && !BucketArray::<K, V, L, TYPE>::need_shrink(slots, last) {
        return Plan::Keep;
    }
    plan_by_middle(array, large, minimum, maximum)
}

/// Returns the plan for an array by the full sample.
fn plan_by_middle<K, V, L: LruList, const TYPE: u8>(
    array: &BucketArray<K, V, L, TYPE>,
    large: usize,
    minimum: usize,
    maximum: usize,
) -> Plan
    requires maximum { IsPowerIn 64 (2 ^ 63) maximum }
    requires bounded { minimum ≤ maximum }
    requires within { 32 * length array.now ≤ maximum }
    requires large { IsLargeSample (length array.now) large }
    ensures plan { (capacity : ℕ)
        × IsOptimalCapacity (slots_of (live_counts array.now))
        (middle_estimate (live_counts array.now)) minimum maximum capacity
        × IsPlanTo (slots_of (live_counts array.now)) capacity
        (IsOptimalCapacity (slots_of (live_counts array.now))
        (first_estimate (live_counts array.now) large) minimum maximum)
        result }
    ensures capacity { IsCapacityWithin maximum result }
{
    let slots = array.num_slots();
    let full = array.full_sample_size();
    let middle = sample(array, (array.len() - full) / 2, full);
    let capacity = BucketArray::<K, V, L, TYPE>::optimal_capacity(slots, middle, minimum, maximum);
    if capacity == slots {
        return Plan::Keep;
    }
    if slots < capacity {
        return Plan::Resize(capacity);
    }
    let first = sample(array, 0, large);
    let asked = BucketArray::<K, V, L, TYPE>::optimal_capacity(slots, first, minimum, maximum);
    if capacity < asked {
        Plan::Keep
    } else {
        Plan::Resize(capacity)
    }
}

/// Returns whether no bucket has a live slot.
fn is_empty<K, V, L: LruList, const TYPE: u8>(array: &BucketArray<K, V, L, TYPE>) -> bool
    ensures { IsTrue result ↔ All (λ count. count ≡ 0) (live_counts array.now) }
{
    array.fact_room();
    for index in 0..array.len() {
        if array.bucket(index).len() != 0 {
            return false;
        }
    }
    true
}

/// States that an array has only one plan; does nothing at run time.
pub(crate) fn plans_are_one()
    ensures { (counts : List ℕ) (minimum maximum : ℕ) (plan other : Plan)
        → IsPlan counts minimum maximum plan
        → IsPlan counts minimum maximum other
        → plan ≡ other }
{}

impl<K, V, L: LruList, const TYPE: u8> Arrays<K, V, L, TYPE> {
    /// Returns the plan of a resize.
    fn resize_plan(&self) -> Plan
        ensures plan { IsPlanOf self.now result }
        ensures capacity { IsCapacityWithin self.now.maximum result }
    {
        if self.len() == 0 || self.has_old() {
            return Plan::Keep;
        }
        plan_of(self.array_of(Side::Current), self.minimum, self.maximum)
    }
}

impl<K: Drop, V: Drop, L: LruList + Drop, const TYPE: u8> Arrays<K, V, L, TYPE> {
    /// Resizes the current array, or drops it, as the plan says. Returns whether it did.
    ///
    /// # Errors
    ///
    /// Allocation failed: nothing changes.
    #[inline(never)]
    pub(crate) fn try_resize(&mut self) -> Result<bool, AllocError>
        ensures resized { TriesResize self.old result self.new }
        ensures kept { Keeps self.old self.new }
        ensures placed { (hash : K → ℕ) → ArePlaced hash self.old → ArePlaced hash self.new }
    {
        match self.resize_plan() {
            Plan::Keep => Ok(false),
            Plan::GiveUp => {
                self.give_array_up();
                Ok(true)
            }
            Plan::Resize(capacity) => {
                self.push_array(capacity)?;
                Ok(true)
            }
        }
    }

    /// Shrinks as `try_shrink` does, if `pairs` is less than an eighth of the slots, the buckets
    /// near this index have few live slots, and the plan of a resize is an array with fewer slots,
    /// or none. The new array has at least two slots for each of the pairs.
    ///
    /// If allocation fails, nothing changes.
    #[inline(never)]
    pub(crate) fn shrink_to(&mut self, index: usize, pairs: usize)
        ensures asked { ShrinksIf (IsSparse pairs self.old × AsksShrinking self.old index) pairs
            self.old self.new }
        ensures kept { Keeps self.old self.new }
        ensures placed { (hash : K → ℕ) → ArePlaced hash self.old → ArePlaced hash self.new }
    {
        self.fact_sound();
        let len = self.len();
        if pairs / (BUCKET_LEN / 8) >= len || !self.asks_shrinking(index) {
            return;
        }
        match self.resize_plan() {
            Plan::Keep => {}
            Plan::GiveUp => self.give_array_up(),
            Plan::Resize(capacity) => {
                if capacity < len * BUCKET_LEN {
                    let _ = self.push_array(capacity.max(pairs * 2));
                }
            }
        }
    }

    /// Allocates an empty array for the minimum, if there is none.
    ///
    /// # Errors
    ///
    /// Allocation failed: there is still no array.
    #[inline(always)]
    pub(crate) fn make_array(&mut self) -> Result<(), AllocError>
        ensures made { OnOk result (MakesArray self.old self.new) }
        ensures unchanged { OnErr result ((length self.old.current ≡ 0) × (self.new ≡ self.old)) }
    {
        if self.has_current() {
            return Ok(());
        }
        self.fact_sound();
        self.make_first_array(self.minimum)
    }

    /// Returns other arrays: only a new one, for a capacity that is also the minimum and the
    /// maximum.
    ///
    /// # Errors
    ///
    /// Allocation failed, as it always does for 2^63 slots: no array has more than 2^62.
    pub(crate) fn fresh(&self, capacity: usize) -> Result<Self, AllocError>
        requires power { IsPowerIn 64 (2 ^ 63) capacity }
        ensures array { IfOk result (λ fresh. IsNewArray capacity fresh.current) }
        ensures full { IfOk result (λ fresh. 32 * length fresh.current ≡ capacity) }
        ensures others { IfOk result (λ fresh. fresh ≡ record {
          minimum = capacity;
          maximum = capacity;
          current = fresh.current;
          linked = [];
          tickets = first_tickets 0;
        }) }
    {
        if capacity > 1 << 62 {
            return Err(AllocError);
        }
        let mut fresh = Arrays::new(self.alloc, capacity, capacity);
        fresh.make_first_array(capacity)?;
        Ok(fresh)
    }

    /// Allocates an empty array for a capacity.
    ///
    /// # Errors
    ///
    /// Allocation failed: there is still no array.
    #[inline(never)]
    pub(super) fn make_first_array(&mut self, capacity: usize) -> Result<(), AllocError>
        requires none { length self.old.current ≡ 0 }
        requires capacity { capacity ≤ self.old.maximum }
        ensures fresh { OnOk result (IsNewArray capacity self.new.current) }
        ensures others { OnOk result (self.new ≡ record self.old { current = self.new.current }) }
        ensures unchanged { OnErr result (self.new ≡ self.old) }
    {
        let fresh = BucketArray::alloc(self.alloc, capacity)?;
        fresh.fact_room();
        self.current = Some(fresh);
        current_in(&mut self.current).start_digests(self.alloc);
        Ok(())
    }

    /// Makes the current array the old one, and an empty array for a capacity the current one.
    ///
    /// # Errors
    ///
    /// Allocation failed: nothing changes.
    pub(crate) fn remake_array(&mut self, capacity: usize) -> Result<(), AllocError>
        requires alone { length self.old.linked ≡ 0 }
        requires capacity { capacity ≤ self.old.maximum }
        ensures pushed { OnOk result (IsPushed capacity self.old self.new) }
        ensures unchanged { OnErr result (self.new ≡ self.old) }
    {
        self.fact_sound();
        self.fact_tickets();
        if self.has_current() {
            self.push_array(capacity)
        } else {
            self.make_first_array(capacity)
        }
    }

    /// Raises the minimum by a number of slots, and resizes. Returns by how much it was raised,
    /// which is 0 if it would exceed the maximum.
    ///
    /// If allocation fails, the arrays stay.
    pub(crate) fn reserve_capacity(&mut self, additional: usize) -> usize
        ensures reserved { Reserves additional self.old result self.new }
        ensures kept { Keeps (with_minimum self.old (self.old.minimum + result)) self.new }
        ensures placed { (hash : K → ℕ) → ArePlaced hash self.old → ArePlaced hash self.new }
    {
        self.fact_sound();
        if additional > self.maximum - self.minimum {
            return 0;
        }
        self.apply_minimum(self.minimum + additional);
        additional
    }

    /// Lowers the minimum by a number of slots, and resizes. Returns by how much it was lowered,
    /// which is 0 if the number exceeds the minimum.
    ///
    /// If allocation fails, the arrays stay.
    pub(crate) fn release_capacity(&mut self, released: usize) -> usize
        ensures released { Releases released self.old result self.new }
        ensures kept { Keeps (with_minimum self.old (self.old.minimum - result)) self.new }
        ensures placed { (hash : K → ℕ) → ArePlaced hash self.old → ArePlaced hash self.new }
    {
        self.fact_sound();
        if released > self.minimum {
            return 0;
        }
        self.apply_minimum(self.minimum - released);
        released
    }

    /// Sets the minimum, then resizes. If allocation fails, the arrays stay.
    fn apply_minimum(&mut self, minimum: usize)
        requires { minimum ≤ self.old.maximum }
        ensures settled { Resizes (with_minimum self.old minimum) self.new }
        ensures kept { Keeps (with_minimum self.old minimum) self.new }
        ensures placed { (hash : K → ℕ) → ArePlaced hash self.old → ArePlaced hash self.new }
    {
        self.minimum = minimum;
        let _ = self.try_resize();
    }

    /// Sets the minimum without resizing.
    pub(crate) fn set_minimum(&mut self, minimum: usize)
        requires { minimum ≤ self.old.maximum }
        ensures { self.new ≡ with_minimum self.old minimum }
    {
        self.minimum = minimum;
    }

    /// Drops the current array.
    fn give_array_up(&mut self)
        requires { length self.old.linked ≡ 0 }
        ensures { self.new ≡ record self.old { current = [] } }
    {
        self.current = None;
    }

    /// Makes the current array the old one, and a new array for a capacity the current one.
    ///
    /// All memory is allocated first.
    fn push_array(&mut self, capacity: usize) -> Result<(), AllocError>
        requires stands { 0 < length self.old.current }
        requires alone { length self.old.linked ≡ 0 }
        requires capacity { capacity ≤ self.old.maximum }
        ensures pushed { OnOk result (IsPushed capacity self.old self.new) }
        ensures unchanged { OnErr result (self.new ≡ self.old) }
    {
        self.fact_sound();
        self.fact_tickets();
        let Ok(tickets) = Tickets::new(self.alloc, self.len()) else {
            return Err(AllocError);
        };
        let mut fresh = BucketArray::alloc(self.alloc, capacity)?;
        fresh.fact_room();
        let array = self.current.take().unwrap();
        match OldArray::new(self.alloc, array, tickets) {
            Ok(mut old) => {
                fresh.adopt_digests(self.alloc, old.array_mut());
                self.current = Some(fresh);
                self.linked = old;
                Ok(())
            }
            Err(array) => {
                self.current = Some(array);
                Err(AllocError)
            }
        }
    }
}
