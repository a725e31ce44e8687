//! Linking and unlinking the blocks of a chain.
#![tactic(auto, using(crate::proofs::ChainRows::chain_rows))]

ghost use Rattle.std.specs.Prelude.{◌≡◌, ℕ, ◌+◌, ◌-◌, ◌<◌, ◌≤◌, ◌∷◌, ◌++◌, [], Some};
ghost use Rattle.std.specs.Prelude.{length, IsTrue, map, OnOk, OnErr, replicate};
ghost use Rattle.std.specs.List.{suffix_len};
ghost use Rattle.bucket_slots.specs.BucketView.{row_at, rows_with};
ghost use Rattle.bucket_slots.specs.Clearing.{rows_without_free_end, slot_without_expired};
ghost use Rattle.bucket_slots.specs.Layout.BoxedRows.{rows_of};
ghost use Rattle.bucket_slots.specs.Placing.{free_block};
ghost use Rattle.bucket_slots.specs.Removing.{place_unlinked, rows_unlinked};
ghost use Rattle.bucket_slots.specs.Slots.{all_free, free, is_live, live_pair, slot_at};

use super::{BLOCK_LEN, Chain, MAX_BLOCKS};
use crate::bucket::blocks::{Block, Blocks, Far, Walk};
use crate::bucket::entry_ptr::EntryPtr;
use crate::bucket::room::fits_in_memory;
use crate::bucket::row::Row;
use crate::bucket::{BUCKET_LEN, Generation};
use std::alloc::{AllocError, Global};
use std::mem::replace;

impl<K: Drop, V: Drop> Chain<K, V> {
    /// Puts a block of free slots at the front.
    ///
    /// # Errors
    ///
    /// Allocation failed, or the chain already has 2^28 blocks: it is unchanged.
    pub(crate) fn push_front(&mut self) -> Result<(), AllocError>
        ensures blocks { OnOk result (self.new ≡ free_block ∷ self.old) }
        ensures unchanged { OnErr result (self.new ≡ self.old) }
    {
        if self.len.get() >= MAX_BLOCKS || !fits_in_memory::<Row<K, V, BLOCK_LEN>>() {
            return Err(AllocError);
        }
        let Ok(()) = self.blocks.push_front(self.alloc, Row::new()) else {
            return Err(AllocError);
        };
        self.len.set(self.len.get() + 1);
        Ok(())
    }

    /// Puts blocks of free slots at the end.
    ///
    /// # Errors
    ///
    /// Allocation failed, or the chain has reached 2^28 blocks: fewer blocks were added.
    pub(crate) fn append(&mut self, count: usize) -> Result<(), AllocError>
        ensures blocks { OnOk result (self.new ≡ self.old ++ replicate count free_block) }
        ensures fewer { OnErr result
            ((some : ℕ) × (some < count) × (self.new ≡ self.old ++ replicate some free_block)) }
    {
        let len = self.len.get();
        let mut more = Chain::free_blocks(self.alloc, count.min(MAX_BLOCKS - len));
        let made = more.len.get();
        if made > 0 {
            more.fact_room();
            self.blocks
                .append(len, replace(&mut more.blocks, Blocks::new()));
            self.len.set(len + made);
            more.len.set(0);
        }
        if made < count {
            Err(AllocError)
        } else {
            Ok(())
        }
    }

    /// Returns `count` blocks of free slots, or fewer if allocation fails.
    fn free_blocks(alloc: Global, count: usize) -> Self
        ensures most { length result ≤ count }
        ensures free { result ≡ replicate (length result) free_block }
    {
        let mut chain = Chain::new(alloc);
        for _made in 0..count {
            let Ok(()) = chain.push_front() else {
                return chain;
            };
        }
        chain
    }

    /// Drops all blocks.
    pub(crate) fn clear(&mut self)
        ensures { self.new ≡ [] }
    {
        *self = Chain::new(self.alloc);
    }

    /// Takes the pair out of a live slot of a block, and drops the block if it is then all free.
    /// Returns the pair, and the place for the pointer to the slot: the same if the block stays,
    /// else before the next block, or at the end of the previous one if there is no next.
    pub(crate) fn take<const TYPE: u8>(
        &mut self,
        block: usize,
        pos: usize,
    ) -> ((K, V), EntryPtr<K, V, TYPE>)
        requires within { block < length self.old }
        requires pos { pos < 4 }
        requires live_slot { IsTrue (is_live (slot_at (row_at self.old block) pos)) }
        ensures pair { live_pair (slot_at (row_at self.old block) pos) ≡ Some result.0 }
        ensures rows { self.new ≡ rows_unlinked (rows_with self.old block pos free) block }
        ensures place { result.1 ≡ place_unlinked (rows_with self.old block pos free) block pos }
    {
        self.fact_room();
        let link = Far::walk(&mut self.blocks, block);
        let (pair, gone) = take_first(link, pos);
        if !gone {
            return (pair, EntryPtr::at(block + 1, pos));
        }
        let len = self.len.get() - 1;
        self.len.set(len);
        if block < len {
            return (pair, EntryPtr::at(block + 1, BUCKET_LEN));
        }
        (pair, EntryPtr::at(block, BUCKET_LEN - 1))
    }

    /// Drops each tombstone whose epoch the generation doesn't keep. No block is dropped.
    pub(crate) fn drop_expired<G: Generation>(&mut self, generation: &G)
        ensures { self.new ≡ map (map (slot_without_expired (G.keeps generation.now))) self.old }
    {
        if self.len.get() == 0 {
            return;
        }
        self.fact_room();
        let mut left = replace(&mut self.blocks, Blocks::new());
        let mut done = Blocks::new();
        while let Some(mut block) = left.pop() {
            block.row.drop_expired(generation);
            done.push(block);
        }
        self.blocks = done.reversed();
    }

    /// Drops the blocks at the end whose slots are all free.
    pub(crate) fn trim(&mut self)
        ensures { self.new ≡ rows_without_free_end self.old }
    {
        let kept = self.kept_len();
        if kept < self.len.get() {
            self.fact_room();
            self.blocks.truncate(kept);
            self.len.set(kept);
        }
    }
}

impl<K, V> Chain<K, V> {
    /// Returns the number of blocks up to the last one that isn't all free.
    fn kept_len(&self) -> usize
        ensures { result ≡ length self.now - suffix_len all_free self.now }
    {
        let mut at = &self.blocks;
        let mut passed = 0;
        let mut kept = 0;
        while let Some(block) = &at.first {
            self.fact_room();
            passed += 1;
            if !block.row.is_empty() {
                kept = passed;
            }
            at = &block.next;
        }
        kept
    }
}

/// Takes the pair out of a live slot of the first block, and drops the block if it is then all
/// free. Returns the pair and whether the block was dropped.
fn take_first<K: Drop, V: Drop>(
    first: &mut Option<Box<Block<Row<K, V, BLOCK_LEN>>>>,
    pos: usize,
) -> ((K, V), bool)
    requires pos { pos < 4 }
    requires live_slot { IsTrue (is_live (slot_at (row_at (rows_of first.old) 0) pos)) }
    ensures pair { live_pair (slot_at (row_at (rows_of first.old) 0) pos) ≡ Some result.0 }
    ensures gone { result.1 ≡ all_free (row_at (rows_with (rows_of first.old) 0 pos free) 0) }
    ensures rows { rows_of first.new ≡ rows_unlinked (rows_with (rows_of first.old) 0 pos free) 0 }
{
    let Some(mut block) = first.take() else {
        unreachable!()
    };
    let pair = block.row.take(pos);
    if !block.row.is_empty() {
        *first = Some(block);
        return (pair, false);
    }
    let (_, next) = Box::into_inner(block).into_parts();
    *first = next.into_first();
    (pair, true)
}
