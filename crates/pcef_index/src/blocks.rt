//! Words of bits for blocks of lines, by rows.

ghost use Rattle.std.specs.Prelude.{◌≡◌, ◌≤◌, ◌<◌, ◌+◌, ◌*◌, ℕ, IfOk, OnOk, length};
ghost use Rattle.std.specs.Int.{bit_at};
ghost use Rattle.pcef_index.specs.private.Blocks.{HasWord, HaveWords, IsLaid, HasBit};

use crate::words::{Spot, mark_words};
use std::alloc::{AllocError, Global};

/// A word for each row of each block of 64 lines, with a bit for each line. Rows of a block that lie side by side share a
/// word where the same lines have a bit.
#[derive(Drop)]
pub(crate) struct BlockWords {
    /// How many rows each block has.
    rows: usize,
    /// For each block, for each of its rows, the place of its word.
    places: Vec<u16>,
    words: Vec<u64>,
}

/// The places of words, block by block.
#[derive(Drop)]
pub(crate) struct Layout {
    rows: usize,
    places: Vec<u16>,
    /// Where the word of the next block will stand.
    next: u16,
}

impl Layout {
    /// No block. So many will come, with so many rows each.
    pub(crate) fn new(alloc: Global, blocks: usize, rows: usize) -> Result<Layout, AllocError>
        ensures laid { IfOk result (IsLaid 0) }
        ensures rows { IfOk result (λ l. l.rows ≡ rows) }
    {
        Ok(Layout {
            rows,
            places: Vec::with_capacity(alloc, rows.saturating_mul(blocks))?,
            next: 0,
        })
    }

    /// Adds a block. A word begins at its first row, and at each where this says so.
    pub(crate) fn push_block(&mut self, begins: &[bool]) -> Result<(), AllocError>
        ensures laid { OnOk result ((blocks : ℕ) → IsLaid blocks self.old → IsLaid (blocks + 1) self.new) }
        ensures rows { self.new.rows ≡ self.old.rows }
    {
        self.places.reserve(self.rows)?;
        let mut here = self.next;
        for row in 0..self.rows {
            if row < begins.len() && begins[row] {
                here = here.saturating_add(1);
            }
            self.places.push_reserved(here);
        }
        self.next = here.saturating_add(1);
        Ok(())
    }
}

impl BlockWords {
    /// The words of the blocks of a layout, without a bit. Fails when out of memory.
    pub(crate) fn new(alloc: Global, layout: Layout) -> Result<BlockWords, AllocError>
        ensures words { IfOk result (λ w. (blocks : ℕ) → IsLaid blocks layout → HaveWords blocks w) }
        ensures rows { IfOk result (λ w. w.rows ≡ layout.rows) }
    {
        let Layout { rows, places, next } = layout;
        let words = vec![in alloc; 0u64; usize::from(next) + 1]?;
        Ok(BlockWords {
            rows,
            places,
            words,
        })
    }

    /// Sets the bit of a line in the words of rows, from the first to the last.
    pub(crate) fn mark(&mut self, spot: Spot, first: usize, last: usize)
        requires bit { spot.bit < 64 }
        requires block { spot.block < spot.blocks }
        requires first { first < self.old.rows }
        requires last { last < self.old.rows }
        requires words { HaveWords spot.blocks self.old }
        ensures words { HaveWords spot.blocks self.new }
        ensures rows { self.new.rows ≡ self.old.rows }
        ensures keeps { (block row i : ℕ) → HasBit self.old block row i → HasBit self.new block row i }
        ensures sets { (row : ℕ) → first ≤ row → row ≤ last → HasBit self.new spot.block row spot.bit }
    {
        let at = self.rows * spot.block;
        let first = usize::from(self.places[at + first]);
        let last = usize::from(self.places[at + last]);
        mark_words(&mut self.words, spot.bit, first, last);
    }

    /// Which of the 64 lines of a block have a bit in a row.
    #[inline(always)]
    pub(crate) fn word(&self, block: usize, row: usize) -> u64
        requires { HasWord self.now block row }
        ensures { (i : ℕ) → HasBit self.now block row i → bit_at result i ≡ 1 }
    {
        let place = self.places[self.rows * block + row];
        self.words[usize::from(place)]
    }
}
