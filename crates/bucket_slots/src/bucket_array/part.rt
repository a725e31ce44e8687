//! A part of an array: a run of buckets, each initialized when it is first lent for writing.
//!
//! Model: the list of its buckets, as many as its vector has room for. Those after the initialized
//! ones are empty, and initializing them allocates nothing. A part whose buckets are all killed and
//! empty can be released: its buckets are dropped, and those that aren't initialized then read as
//! killed ones.
ghost use Rattle.std.specs.Prelude.{◌≡◌, ℕ, ◌+◌, ◌<◌, ◌≤◌, ◌^◌, ◌∷◌, [], List, true, false};
ghost use Rattle.std.specs.Prelude.{IfOk, IfSome, length, replicate, vec_capacity, vec_len};
ghost use Rattle.std.specs.Borrow.{sem};
ghost use Rattle.std.specs.List.{All};
ghost use Rattle.bucket_slots.specs.ArrayRoom.{BucketFits};
ghost use Rattle.bucket_slots.specs.ArrayView.{bucket_at};
ghost use Rattle.bucket_slots.specs.BucketView.{BucketView, empty_bucket};
ghost use Rattle.bucket_slots.specs.Layout.ArrayParts.{unmade_bucket, with_unmade};
ghost use Rattle.bucket_slots.specs.Slots.{is_live, slot_at};
ghost use Rattle.bucket_slots.specs.Spreading.{IsShifted, SpreadsSome};

use crate::bucket::Bucket;
use crate::lru::LruList;
use std::alloc::{AllocError, Global};
use std::marker::Model;
use std::mem;

/// The number of parts that are searched for one in which no bucket is initialized.
const FRESH_TRIES: usize = 8;

/// A run of buckets, of which the first ones are initialized.
pub(crate) struct Part<K, V, L: LruList, const TYPE: u8> {
    made: Vec<Bucket<K, V, L, TYPE>>,
    released: bool,
}

impl<K, V, L: LruList, const TYPE: u8> Model for Part<K, V, L, TYPE> {
    ghost use Rattle.std.specs.Prelude.{List, vec_capacity};
    ghost use Rattle.bucket_slots.specs.BucketView.{BucketView};
    ghost use Rattle.bucket_slots.specs.Layout.ArrayParts.{with_unmade};

    ghost Value = { List (BucketView K V) };

    ghost view = { λ part. with_unmade part.made.items (vec_capacity part.made) part.released };
}

/// Taking a slice of a bucket states that a bucket fits in memory.
impl<K: Drop, V: Drop, L: LruList + Drop, const TYPE: u8> Drop for Part<K, V, L, TYPE> {
    fn drop(self) {
        let Part { made, released: _ } = self;
        if 0 < made.len() {
            let _ = made.as_slice();
            drop(made);
        } else {
            made.destroy_empty();
        }
    }
}

impl<K, V, L: LruList, const TYPE: u8> Part<K, V, L, TYPE> {
    ghost use Rattle.bucket_slots.specs.Layout.PartLoans.{LendsBucketOf};

    /// Returns a part of this length. None of its buckets is initialized.
    ///
    /// # Errors
    ///
    /// Allocation failed. The memory of all its buckets is allocated here.
    pub(crate) fn alloc(alloc: Global, len: usize) -> Result<Self, AllocError>
        ensures { IfOk result (λ part. part ≡ replicate len empty_bucket) }
    {
        let Ok(made) = Vec::with_capacity(alloc, len) else {
            return Err(AllocError);
        };
        Ok(Part {
            made,
            released: false,
        })
    }

    /// Returns the number of buckets.
    #[inline(always)]
    pub(crate) fn len(&self) -> usize
        ensures { result ≡ length self.now }
    {
        self.made.capacity()
    }

    /// Returns the bucket at an offset, or a spare one if it isn't initialized.
    #[inline(always)]
    pub(crate) fn bucket<'a>(
        &'a self,
        offset: usize,
        spare: &'a Vec<Bucket<K, V, L, TYPE>>,
    ) -> &'a Bucket<K, V, L, TYPE>
        requires within { offset < length self.now }
        requires spare { spare.now.items ≡ unmade_bucket false ∷ unmade_bucket true ∷ [] }
        ensures { result.now ≡ bucket_at self.now offset }
    {
        if offset < self.made.len() {
            &self.made[offset]
        } else if self.released {
            &spare[1]
        } else {
            &spare[0]
        }
    }

    /// Returns a bucket with a live own slot, which is always initialized.
    #[inline(always)]
    pub(crate) fn made_bucket(&self, offset: usize) -> &Bucket<K, V, L, TYPE>
        requires within { offset < length self.now }
        requires live_slot { (pos : ℕ)
            × (is_live (slot_at (bucket_at self.now offset).own pos) ≡ true) }
        ensures { result.now ≡ bucket_at self.now offset }
    {
        &self.made[offset]
    }

    /// Lends a bucket with a live own slot for writing. It is always initialized.
    #[inline(always)]
    pub(crate) fn made_bucket_mut(&mut self, offset: usize) -> &mut Bucket<K, V, L, TYPE>
        requires within { offset < length self.old }
        requires live_slot { (pos : ℕ)
            × (is_live (slot_at (bucket_at self.old offset).own pos) ≡ true) }
        ensures* writes_back { sem 𝓛
            (LendsBucketOf K.row V.row L.row TYPE.row
            (record { KEEPS = L.KEEPS; listed = L.listed; IsTail = L.IsTail }) L.Default
            self.entry offset result) }
        ensures bucket { result.now ≡ bucket_at self.old offset }
    {
        &mut self.made[offset]
    }

    /// Lends the bucket at an offset for writing. If it isn't initialized yet, it and those before
    /// it are initialized first.
    #[inline(always)]
    pub(crate) fn bucket_mut(&mut self, offset: usize) -> &mut Bucket<K, V, L, TYPE>
        requires fits { BucketFits K.row V.row L.row TYPE.row
            (record { KEEPS = L.KEEPS; listed = L.listed; IsTail = L.IsTail }) L.Default }
        requires within { offset < length self.old }
        ensures* writes_back { sem 𝓛
            (LendsBucketOf K.row V.row L.row TYPE.row
            (record { KEEPS = L.KEEPS; listed = L.listed; IsTail = L.IsTail }) L.Default
            self.entry offset result) }
        ensures bucket { result.now ≡ bucket_at self.old offset }
    {
        make_to(&mut self.made, offset + 1, self.released);
        &mut self.made[offset]
    }
}

impl<K: Drop, V: Drop, L: LruList + Drop, const TYPE: u8> Part<K, V, L, TYPE> {
    /// Drops the buckets, so that all are empty. Keeps the memory.
    pub(crate) fn clear(&mut self)
        requires { BucketFits K.row V.row L.row TYPE.row
            (record { KEEPS = L.KEEPS; listed = L.listed; IsTail = L.IsTail }) L.Default }
        ensures { self.new ≡ replicate (length self.old) empty_bucket }
    {
        self.made.clear();
        self.released = false;
    }

    /// Makes the buckets of all parts empty, as `clear` does.
    pub(crate) fn clear_all(parts: &mut Vec<Part<K, V, L, TYPE>>)
        requires { BucketFits K.row V.row L.row TYPE.row
            (record { KEEPS = L.KEEPS; listed = L.listed; IsTail = L.IsTail }) L.Default }
        ensures { (len : ℕ) → All (λ part. length part ≡ len) parts.old.items
            → parts.new.items ≡ replicate (length parts.old.items) (replicate len empty_bucket) }
    {
        for index in 0..parts.len() {
            parts[index].clear();
        }
    }

    /// Drops the buckets, if all are killed and empty. Reads of the part stay the same.
    ///
    /// New memory replaces that of the buckets, so lending a bucket for writing still allocates
    /// nothing. If it can't be allocated, the old memory is kept.
    pub(crate) fn release(&mut self)
        requires { BucketFits K.row V.row L.row TYPE.row
            (record { KEEPS = L.KEEPS; listed = L.listed; IsTail = L.IsTail }) L.Default }
        ensures { self.new ≡ self.old }
    {
        if self.made.len() == self.made.capacity() && are_spent(&self.made) {
            let alloc = *self.made.allocator();
            self.made.clear();
            if let Ok(untouched) = Vec::with_capacity(alloc, self.made.capacity()) {
                self.made = untouched;
            }
            self.released = true;
        }
    }

    /// Drops the buckets, if all are killed and empty, and exchanges their memory with that of a
    /// part of the same length in which no bucket is initialized. Reads of both parts stay the
    /// same.
    pub(crate) fn release_to(&mut self, fresh: &mut Self)
        requires { BucketFits K.row V.row L.row TYPE.row
            (record { KEEPS = L.KEEPS; listed = L.listed; IsTail = L.IsTail }) L.Default }
        ensures kept { self.new ≡ self.old }
        ensures fresh { fresh.new ≡ fresh.old }
    {
        if !fresh.made.is_empty() {
            return;
        }
        if fresh.made.capacity() != self.made.capacity() {
            return;
        }
        if self.made.len() != self.made.capacity() {
            return;
        }
        if !are_spent(&self.made) {
            return;
        }
        self.made.clear();
        mem::swap(&mut self.made, &mut fresh.made);
        self.released = true;
    }

    /// Returns `count` parts of this length.
    ///
    /// # Errors
    ///
    /// Allocation failed: nothing is kept.
    pub(crate) fn alloc_all(
        alloc: Global,
        count: usize,
        len: usize,
    ) -> Result<Vec<Part<K, V, L, TYPE>>, AllocError>
        ensures { IfOk result
            (λ parts. parts.items ≡ replicate count (replicate len empty_bucket)) }
    {
        let Ok(mut parts) = Vec::with_capacity(alloc, count) else {
            return Err(AllocError);
        };
        for _i in 0..count {
            let part = Part::alloc(alloc, len)?;
            parts.push_reserved(part);
        }
        Ok(parts)
    }
}

impl<K: Drop, V: Drop, L: LruList, const TYPE: u8> Part<K, V, L, TYPE> {
    /// Moves pairs of own slots of a bucket to `len` buckets from an offset on, as
    /// `Bucket::spread_own` does. Moves none if the part ends before the last. `start` is the index
    /// in the array of the bucket at the offset.
    #[inline(always)]
    pub(crate) fn spread<F: Fn(&K) -> u64>(
        &mut self,
        source: &mut Bucket<K, V, L, TYPE>,
        offset: usize,
        len: usize,
        start: usize,
        shift: u32,
        hash_of: &F,
    )
        requires fits { BucketFits K.row V.row L.row TYPE.row
            (record { KEEPS = L.KEEPS; listed = L.listed; IsTail = L.IsTail }) L.Default }
        requires callable { F.IsAlwaysCallable hash_of.now }
        requires within { offset < length self.old }
        requires shift { shift < 64 }
        requires bounded { start + len ≤ 2 ^ 64 }
        ensures spreads { (first : ℕ) → start ≡ first + offset
            → SpreadsSome TYPE (λ key answer. F.post hash_of.now key answer) (IsShifted shift) first
            source.old self.old source.new self.new }

        // The buckets before the offset stay the same.
        ensures front { (i : ℕ) → i < offset → bucket_at self.new i ≡ bucket_at self.old i }
    {
        if self.made.capacity() - offset < len {
            return;
        }
        make_to(&mut self.made, offset + len, self.released);
        source.spread_own(
            self.made.slice_mut(offset..offset + len),
            start,
            shift,
            hash_of,
        );
    }
}

/// Returns an empty bucket and a killed one. A bucket that isn't initialized reads as one of them.
///
/// # Errors
///
/// Allocation failed.
pub(crate) fn spare_buckets<K, V, L: LruList, const TYPE: u8>(
    alloc: Global,
) -> Result<Vec<Bucket<K, V, L, TYPE>>, AllocError>
    ensures { IfOk result
        (λ spare. spare.items ≡ unmade_bucket false ∷ unmade_bucket true ∷ []) }
{
    let Ok(mut spare) = Vec::with_capacity(alloc, 2) else {
        return Err(AllocError);
    };
    spare.push_reserved(Bucket::new(alloc));
    spare.push_reserved(Bucket::empty(alloc, true));
    Ok(spare)
}

/// Returns `len` empty buckets.
///
/// # Errors
///
/// Allocation failed.
pub(crate) fn empty_buckets<K, V, L: LruList + Drop, const TYPE: u8>(
    alloc: Global,
    len: usize,
) -> Result<Vec<Bucket<K, V, L, TYPE>>, AllocError>
where
    K: Drop,
    V: Drop,
    ensures { IfOk result (λ buckets. buckets.items ≡ replicate len empty_bucket) }
{
    let Ok(mut buckets) = Vec::with_capacity(alloc, len) else {
        return Err(AllocError);
    };
    for _i in 0..len {
        buckets.push_reserved(Bucket::new(alloc));
    }
    Ok(buckets)
}

/// Makes buckets empty.
pub(crate) fn empty_all<K, V, L: LruList + Drop, const TYPE: u8>(
    buckets: &mut Vec<Bucket<K, V, L, TYPE>>,
)
where
    K: Drop,
    V: Drop,
    requires { BucketFits K.row V.row L.row TYPE.row
        (record { KEEPS = L.KEEPS; listed = L.listed; IsTail = L.IsTail }) L.Default }
    ensures { buckets.new.items ≡ replicate (length buckets.old.items) empty_bucket }
{
    let alloc = *buckets.allocator();
    for index in 0..buckets.len() {
        buckets[index] = Bucket::new(alloc);
    }
}

/// Returns whether all buckets are killed and empty. The last ones are tested first, since they are
/// killed last.
fn are_spent<K, V, L: LruList, const TYPE: u8>(made: &Vec<Bucket<K, V, L, TYPE>>) -> bool
    requires { BucketFits K.row V.row L.row TYPE.row
        (record { KEEPS = L.KEEPS; listed = L.listed; IsTail = L.IsTail }) L.Default }
    ensures { result ≡ true
        → made.now.items ≡ replicate (length made.now.items) (unmade_bucket true) }
{
    let mut left = made.len();
    while 0 < left {
        left -= 1;
        if !made[left].is_spent() {
            return false;
        }
    }
    true
}

/// Initializes buckets until there are at least `len`. Reads of the part stay the same.
#[inline(always)]
fn make_to<K, V, L: LruList, const TYPE: u8>(
    made: &mut Vec<Bucket<K, V, L, TYPE>>,
    len: usize,
    released: bool,
)
    requires fits { BucketFits K.row V.row L.row TYPE.row
        (record { KEEPS = L.KEEPS; listed = L.listed; IsTail = L.IsTail }) L.Default }
    requires room { len ≤ vec_capacity made.old }
    ensures made { len ≤ vec_len made.new }
    ensures same { with_unmade made.new.items (vec_capacity made.new) released
        ≡ with_unmade made.old.items (vec_capacity made.old) released }
{
    if made.len() < len {
        make_more(made, len, released);
    }
}

/// Initializes buckets until there are `len`. Reads of the part stay the same.
#[inline(never)]
fn make_more<K, V, L: LruList, const TYPE: u8>(
    made: &mut Vec<Bucket<K, V, L, TYPE>>,
    len: usize,
    released: bool,
)
    requires fits { BucketFits K.row V.row L.row TYPE.row
        (record { KEEPS = L.KEEPS; listed = L.listed; IsTail = L.IsTail }) L.Default }
    requires room { len ≤ vec_capacity made.old }
    ensures made { len ≤ vec_len made.new }
    ensures same { with_unmade made.new.items (vec_capacity made.new) released
        ≡ with_unmade made.old.items (vec_capacity made.old) released }
{
    let alloc = *made.allocator();
    while made.len() < len {
        made.push_reserved(Bucket::empty(alloc, released));
    }
}

/// Returns the first of a few parts, from an index on, in which no bucket is initialized.
pub(crate) fn first_fresh<K, V, L: LruList, const TYPE: u8>(
    parts: &Vec<Part<K, V, L, TYPE>>,
    start: usize,
) -> Option<usize>
    ensures { IfSome result (λ part. part < vec_len parts.now) }
{
    let end = start.saturating_add(FRESH_TRIES).min(parts.len());
    for part in start..end {
        if parts[part].made.is_empty() {
            return Some(part);
        }
    }
    None
}
