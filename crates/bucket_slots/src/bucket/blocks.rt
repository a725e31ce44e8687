//! Rows in boxed blocks, each of which owns the next.
//!
//! Model: the list of rows, the first one first. No invariant.
//!
//! Ports the links of `LinkedBucket` in scc's `src/hash_table/bucket.rs`.
ghost use Rattle.std.specs.Prelude.{◌≡◌, ◌≤◌, ◌<◌, ◌^◌, ◌∷◌, ◌++◌, [], IfSome, IfNone, OnOk};
ghost use Rattle.std.specs.Prelude.{OnErr, drop, length, reverse, slice_index_or, take};
ghost use Rattle.std.specs.Borrow.{sem};
ghost use Rattle.bucket_slots.specs.Layout.BoxedRows.{rows_of};
ghost use Rattle.bucket_slots.specs.Layout.LinkLoans.{LendsNext, LendsNextOf, LendsRest};
ghost use Rattle.bucket_slots.specs.Layout.LinkLoans.{LendsRow, LendsRowIn, LendsRowOf};

use std::alloc::{AllocError, Global};
use std::marker::Model;
use std::mem::replace;

/// A list of rows in boxed blocks.
#[cycle(blocks)]
pub(super) struct Blocks<T> {
    pub(super) first: Option<Box<Block<T>>>,
}

/// A row and the blocks after it.
#[cycle(blocks)]
#[derive(Drop)]
pub(super) struct Block<T> {
    pub(super) row: T,
    pub(super) next: Blocks<T>,
}

impl<T> Model for Blocks<T> {
    ghost use Rattle.std.specs.Prelude.{List, length};

    ghost Value = { List T };

    ghost use Rattle.bucket_slots.specs.Layout.BoxedRows.{rows_of};

    ghost view = { λ blocks. rows_of blocks.first };

    ghost size = { length };

    ghost use Rattle.std.proofs.Common.{arith};

    ghost size_decreases = { λ a h. Prim.grind arith };
}

/// Drops the blocks one after the other, so that a long chain can't overflow the stack.
impl<T: Drop> Drop for Blocks<T> {
    fn drop(self) {
        let Blocks { first: mut at } = self;
        while let Some(block) = at {
            let (row, next) = Box::into_inner(block).into_parts();
            drop(row);
            at = next.into_first();
        }
    }
}

impl<T> Block<T> {
    /// Returns the row and the blocks after it.
    pub(super) fn into_parts(self) -> (T, Blocks<T>)
        ensures { self ≡ record { row = result.0; next = result.1 } }
    {
        let Block { row, next } = self;
        (row, next)
    }
}

impl<T> Blocks<T> {
    /// Returns an empty list. Allocates nothing.
    pub(super) fn new() -> Self
        ensures { result ≡ [] }
    {
        Blocks { first: None }
    }

    /// Returns the first block, which owns the others.
    pub(super) fn into_first(self) -> Option<Box<Block<T>>>
        ensures { self ≡ rows_of result }
    {
        let Blocks { first } = self;
        first
    }

    /// Returns the blocks after the first `count`, or an empty list if there are no more.
    pub(super) fn rest(&self, count: usize) -> &Self
        ensures { result.now ≡ drop count self.now }
    {
        let mut at = self;
        for _i in 0..count {
            match &at.first {
                Some(block) => at = &block.next,
                None => return at,
            }
        }
        at
    }

    /// Returns the row at `index`.
    pub(super) fn row(&self, index: usize) -> &T
        requires { index < length self.now }
        ensures { result.now ≡ slice_index_or self.now index result.now }
    {
        match &self.rest(index).first {
            Some(block) => &block.row,
            None => unreachable!(),
        }
    }

    /// Lends the row at `index` for writing.
    pub(super) fn row_mut(&mut self, index: usize) -> &mut T
        requires within { index < length self.old }
        requires few { index < 2 ^ 28 }
        ensures* writes_back { sem 𝓛 (LendsRow T.row self.entry index result) }
        ensures row { result.now ≡ slice_index_or self.old index result.now }
    {
        let link = Far::walk(self, index);
        row_in(link)
    }
}

impl<T: Drop> Blocks<T> {
    /// Puts a block at the front.
    pub(super) fn push(&mut self, mut block: Box<Block<T>>)
        ensures { self.new ≡ block.value.row ∷ self.old }
    {
        block.next = replace(self, Blocks::new());
        self.first = Some(block);
    }

    /// Removes the first block and returns it.
    pub(super) fn pop(&mut self) -> Option<Box<Block<T>>>
        ensures some { IfSome result (λ block. self.old ≡ block.value.row ∷ self.new) }
        ensures none { IfNone result (self.old ≡ []) }
        ensures rest { self.new ≡ drop 1 self.old }
    {
        let mut block = self.first.take()?;
        let next = replace(&mut block.next, Blocks::new());
        self.first = next.into_first();
        Some(block)
    }

    /// Puts a row at the front.
    ///
    /// # Errors
    ///
    /// Allocation failed: the blocks are unchanged.
    pub(super) fn push_front(&mut self, alloc: Global, row: T) -> Result<(), AllocError>
        ensures rows { OnOk result (self.new ≡ row ∷ self.old) }
        ensures unchanged { OnErr result (self.new ≡ self.old) }
    {
        let block = Box::new(
            alloc,
            Block {
                row,
                next: Blocks::new(),
            },
        )?;
        self.push(block);
        Ok(())
    }

    /// Returns the blocks in reverse order.
    pub(super) fn reversed(mut self) -> Self
        ensures { result ≡ reverse self }
    {
        let mut turned = Blocks::new();
        while let Some(block) = self.pop() {
            turned.push(block);
        }
        turned
    }

    /// Puts rows after the last one.
    pub(super) fn append(&mut self, len: usize, more: Blocks<T>)
        requires counted { len ≡ length self.old }
        requires few { len < 2 ^ 28 }
        ensures { self.new ≡ self.old ++ more }
    {
        let link = Far::walk(self, len);
        *link = more.into_first();
    }

    /// Drops the rows after the first `count`.
    pub(super) fn truncate(&mut self, count: usize)
        requires within { count ≤ length self.old }
        requires few { count < 2 ^ 28 }
        ensures { self.new ≡ take count self.old }
    {
        let link = Far::walk(self, count);
        let _ = link.take();
    }
}

/// A walk past some blocks. A function that returns a mutable reference can't be proved if it calls
/// itself, so a walk consists of two shorter ones of another type.
pub(super) trait Walk {
    ghost use Rattle.std.specs.Prelude.{ℕ};

    /// The greatest number of blocks that it can pass.
    ghost reach: { ℕ };

    /// Lends the option that owns the block after the first `count`.
    fn walk<T>(blocks: &mut Blocks<T>, count: usize) -> &mut Option<Box<Block<T>>>
        requires within { count ≤ length blocks.old }
        requires reached { count ≤ Self.reach }
        ensures* writes_back { sem 𝓛 (LendsRest T.row blocks.entry count result) }
        ensures rest { rows_of result.now ≡ drop count blocks.old };
}

/// The walk that passes no block.
pub(super) struct Here;

/// A walk, then one block, then the walk again.
pub(super) struct Twice<W>(W);

/// A walk doubled four times.
pub(super) type Longer<W> = Twice<Twice<Twice<Twice<W>>>>;

/// A walk past fewer than 2^28 blocks. Its calls are nested at most 28 deep.
pub(super) type Far = Longer<Longer<Longer<Longer<Longer<Longer<Longer<Here>>>>>>>;

impl Walk for Here {
    ghost reach = { 0 };

    fn walk<T>(blocks: &mut Blocks<T>, _count: usize) -> &mut Option<Box<Block<T>>> {
        &mut blocks.first
    }
}

impl<W: Walk> Walk for Twice<W> {
    ghost use Rattle.std.specs.Prelude.{◌+◌, ◌*◌};

    ghost reach = { 2 * W.reach + 1 };

    fn walk<T>(blocks: &mut Blocks<T>, count: usize) -> &mut Option<Box<Block<T>>> {
        if count == 0 {
            return &mut blocks.first;
        }
        let half = count / 2;
        let middle = W::walk(blocks, half);
        let next = next_in(middle);
        W::walk(next, count - half - 1)
    }
}

/// Lends the blocks after a first block.
fn next_in<T>(first: &mut Option<Box<Block<T>>>) -> &mut Blocks<T>
    requires { 0 < length (rows_of first.old) }
    ensures* writes_back { sem 𝓛 (LendsNext T.row first.entry result) }
    ensures rest { result.now ≡ drop 1 (rows_of first.old) }
{
    match first {
        Some(block) => next_of(block),
        None => unreachable!(),
    }
}

/// Lends the blocks after a block.
fn next_of<T>(block: &mut Box<Block<T>>) -> &mut Blocks<T>
    ensures* writes_back { sem 𝓛 (LendsNextOf T.row block.entry result) }
    ensures rest { result.now ≡ block.old.value.next }
{
    &mut block.next
}

/// Lends the row of a first block.
fn row_in<T>(first: &mut Option<Box<Block<T>>>) -> &mut T
    requires { 0 < length (rows_of first.old) }
    ensures* writes_back { sem 𝓛 (LendsRowIn T.row first.entry result) }
    ensures row { rows_of first.old ≡ result.now ∷ drop 1 (rows_of first.old) }
{
    match first {
        Some(block) => row_of(block),
        None => unreachable!(),
    }
}

/// Lends the row of a block.
fn row_of<T>(block: &mut Box<Block<T>>) -> &mut T
    ensures* writes_back { sem 𝓛 (LendsRowOf T.row block.entry result) }
    ensures row { result.now ≡ block.old.value.row }
{
    &mut block.row
}
