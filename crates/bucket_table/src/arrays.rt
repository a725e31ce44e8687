//! The arrays of a table: a current one, and an old one during an incremental rehash.
ghost use Rattle.std.specs.Prelude.{◌≡◌, ◌^◌, ◌≤◌, ◌<◌, ◌↔◌, [], IsTrue, MatchOption, length};
ghost use Rattle.bucket_slots.specs.Homes.{IsHome};
ghost use Rattle.bucket_slots.specs.Sizing.{IsLength, IsPowerIn};
ghost use Rattle.bucket_table.specs.Map.LookingUp.{lent_buckets};
ghost use Rattle.bucket_table.specs.Views.ArraysView.{AreArrays, list_of};
ghost use Rattle.bucket_table.specs.Views.Sides.{buckets_on};
ghost use Rattle.bucket_table.specs.Rehash.State.{IsTicketState, first_tickets, word_of};

mod by_use;
mod copy;
mod cursor;
mod drain;
mod lookup;
mod old_array;
mod pairs;
mod rehash;
mod relocate;
mod reserve;
mod resize;
mod row;
mod sampling;
mod side;
mod slots;
mod writer;

use bucket_slots::bucket_array::BucketArray;
use bucket_slots::lru::LruList;
pub use by_use::PairsByUse;
pub use drain::{TableDrain, TableExtract};
pub use lookup::{Spot, peek_arrays};
use old_array::OldArray;
pub use pairs::{ArraysPairs, Kind, TablePairs};
pub(crate) use row::{put_len, some_len};
pub use side::Side;
use std::alloc::Global;
use std::error::Error;
use std::fmt;
use std::marker::Model;

/// Why no bucket is locked.
#[derive(Debug, Drop)]
pub enum Missing {
    /// There is no bucket to lock: no array, or no live pair ahead.
    Nothing,
    /// Allocation failure.
    Memory,
}

impl fmt::Display for Missing {
    fn fmt<W: fmt::Write>(&self, f: &mut fmt::Formatter<W>) -> fmt::Result {
        match self {
            Missing::Nothing => write!(f, "no bucket to lock"),
            Missing::Memory => write!(f, "out of memory"),
        }
    }
}

impl Error for Missing {}

/// A current array, and an old one with its tickets during an incremental rehash.
#[derive(Drop)]
pub struct Arrays<K, V, L: LruList, const TYPE: u8> {
    alloc: Global,
    minimum: usize,
    maximum: usize,
    current: Option<BucketArray<K, V, L, TYPE>>,
    linked: OldArray<K, V, L, TYPE>,
}

impl<K, V, L: LruList, const TYPE: u8> Model for Arrays<K, V, L, TYPE> {
    ghost use Rattle.bucket_table.specs.Views.ArraysView.{AreArrays, ArraysView, list_of};

    ghost Value = { ArraysView K V };

    ghost view = { λ arrays. record {
      minimum = arrays.minimum;
      maximum = arrays.maximum;
      current = list_of arrays.current;
      linked = arrays.linked.array;
      tickets = arrays.linked.tickets;
    } };

    ghost invariant = { λ arrays. AreArrays (record {
      minimum = arrays.minimum;
      maximum = arrays.maximum;
      current = list_of arrays.current;
      linked = arrays.linked.array;
      tickets = arrays.linked.tickets;
    }) };
}

impl<K, V, L: LruList, const TYPE: u8> Arrays<K, V, L, TYPE> {
    /// Returns arrays with neither a current nor an old one.
    pub fn new(alloc: Global, minimum: usize, maximum: usize) -> Self
        requires power { IsPowerIn 64 (2 ^ 63) maximum }
        requires bounded { minimum ≤ maximum }
        ensures { result ≡ record {
          minimum = minimum;
          maximum = maximum;
          current = [];
          linked = [];
          tickets = first_tickets 0;
        } }
    {
        Arrays {
            alloc,
            minimum,
            maximum,
            current: None,
            linked: OldArray::none(),
        }
    }

    /// Returns the allocator.
    pub(crate) fn allocator(&self) -> Global {
        self.alloc
    }

    /// Returns the least capacity, in slots.
    pub(crate) fn minimum(&self) -> usize
        ensures { result ≡ self.now.minimum }
    {
        self.minimum
    }

    /// Returns the greatest capacity, in slots.
    pub(crate) fn maximum(&self) -> usize
        ensures { result ≡ self.now.maximum }
    {
        self.maximum
    }

    /// Tests whether there is an old array.
    #[inline(always)]
    pub(crate) fn has_old(&self) -> bool
        ensures { IsTrue result ↔ (0 < length self.now.linked) }
    {
        self.linked.is_some()
    }

    /// Tests whether there is a current array.
    #[inline(always)]
    pub(crate) fn has_current(&self) -> bool
        ensures { IsTrue result ↔ (0 < length self.now.current) }
    {
        stands(&self.current)
    }

    /// Returns the rehash word; `None` where there is no old array.
    pub(crate) fn word(&self) -> Option<usize>
        ensures { MatchOption result (length self.now.linked ≡ 0) (λ word.
            (0 < length self.now.linked) × (word ≡ word_of self.now.tickets)
            × (length self.now.tickets.open_units ≤ 2047)) }
    {
        if !self.has_old() {
            return None;
        }
        Some(self.linked.word())
    }

    /// States that the arrays are within their bounds; does nothing at run time.
    pub(crate) fn fact_sound(&self)
        ensures { AreArrays self.now }
    {
        let _ = &self.minimum;
    }

    /// States that the tickets are within their bounds; does nothing at run time.
    pub(crate) fn fact_tickets(&self)
        ensures { IsTicketState self.now.tickets }
    {
        self.linked.fact_tickets();
    }

    /// Returns the number of buckets of the current array, and 0 where there is none.
    #[inline(always)]
    pub(crate) fn len(&self) -> usize
        ensures value { result ≡ length self.now.current }
        ensures few { result ≤ 2 ^ 57 }
        ensures power { 0 < result → IsLength result }
    {
        len_of(&self.current)
    }

    /// Returns the number of buckets of the old array, and 0 where there is none.
    #[inline(always)]
    pub(crate) fn old_len(&self) -> usize
        ensures value { result ≡ length self.now.linked }
        ensures few { result ≤ 2 ^ 57 }
        ensures power { 0 < result → IsLength result }
    {
        self.linked.len()
    }

    /// Returns the number of buckets of one side, and 0 where there is no such array.
    pub(crate) fn len_on(&self, side: Side) -> usize
        ensures value { result ≡ length (buckets_on self.now side) }
        ensures power { 0 < result → IsLength result }
    {
        match side {
            Side::Current => self.len(),
            Side::Old => self.old_len(),
        }
    }

    /// Returns the current array.
    #[inline(always)]
    pub(crate) fn array(&self) -> Option<&BucketArray<K, V, L, TYPE>>
        ensures there { MatchOption result (length self.now.current ≡ 0) (λ array.
            (0 < length array.now) × (array.now ≡ self.now.current)) }
        ensures lent { lent_buckets result ≡ self.now.current }
    {
        array_in(&self.current)
    }

    /// Returns the old array.
    #[inline(always)]
    pub(crate) fn linked_array(&self) -> Option<&BucketArray<K, V, L, TYPE>>
        ensures there { MatchOption result (length self.now.linked ≡ 0) (λ array.
            (0 < length array.now) × (array.now ≡ self.now.linked)) }
        ensures lent { lent_buckets result ≡ self.now.linked }
    {
        self.linked.array()
    }

    /// Returns the array of one side.
    #[inline(always)]
    pub(crate) fn array_of(&self, side: Side) -> &BucketArray<K, V, L, TYPE>
        requires { 0 < length (buckets_on self.now side) }
        ensures { result.now ≡ buckets_on self.now side }
    {
        let array = match side {
            Side::Current => self.array(),
            Side::Old => self.linked_array(),
        };
        array.unwrap()
    }

    /// Returns the index of a hash's home in the current array.
    #[inline(always)]
    pub(crate) fn home(&self, hash: u64) -> usize
        requires { 0 < length self.now.current }
        ensures { IsHome (length self.now.current) hash result }
    {
        self.array_of(Side::Current).bucket_index(hash)
    }
}

/// Tests whether there is an array.
#[inline(always)]
fn stands<K, V, L: LruList, const TYPE: u8>(held: &Option<BucketArray<K, V, L, TYPE>>) -> bool
    ensures { IsTrue result ↔ (0 < length (list_of held.now)) }
{
    match held {
        None => false,
        Some(array) => {
            let _len = array.len();
            true
        }
    }
}

/// Returns the number of buckets of an array, and 0 where there is none.
#[inline(always)]
fn len_of<K, V, L: LruList, const TYPE: u8>(held: &Option<BucketArray<K, V, L, TYPE>>) -> usize
    ensures value { result ≡ length (list_of held.now) }
    ensures few { result ≤ 2 ^ 57 }
    ensures power { 0 < result → IsLength result }
{
    match held {
        None => 0,
        Some(array) => array.len(),
    }
}

/// Returns the current array.
#[inline(always)]
fn array_in<K, V, L: LruList, const TYPE: u8>(
    held: &Option<BucketArray<K, V, L, TYPE>>,
) -> Option<&BucketArray<K, V, L, TYPE>>
    ensures there { MatchOption result (length (list_of held.now) ≡ 0) (λ array.
        (0 < length array.now) × (array.now ≡ list_of held.now)) }
    ensures lent { lent_buckets result ≡ list_of held.now }
{
    match held {
        None => None,
        Some(array) => {
            let _len = array.len();
            Some(array)
        }
    }
}
