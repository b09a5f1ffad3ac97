//! Which lines let an address of version 6 pass, by networks.

ghost use Rattle.std.specs.Prelude.{◌≡◌, ◌≤◌, ◌<◌, ◌+◌, ◌-◌, ◌/◌, ◌^◌, ℕ, IfOk, length};
ghost use Rattle.pcef_index.specs.private.Nets.{AreNets, LetsNet, net_row};

use crate::blocks::{BlockWords, Layout};
use crate::bounds::Bounds;
use crate::fields::{loose_bits, net_on};
use crate::lines::Line;
use crate::rows::note;
use crate::sides::Side;
use crate::words::{Spot, block_of};
use pcef_packet::Addr;
use std::alloc::{AllocError, Global};

/// Which of the lines that look at an address let it pass: words by the intervals between the ends of their networks.
#[derive(Drop)]
pub(crate) struct Nets {
    /// The ends.
    pub bounds: Bounds,
    /// The words, a row for each interval.
    pub words: BlockWords,
}

/// The first and the last of the numbers that agree with one above some low bits.
fn range_of(number: u128, loose: u8) -> (u128, u128)
    ensures { (n : ℕ) → n < 2 ^ 128 → n / 2 ^ loose ≡ number / 2 ^ loose → (result.0 ≤ n) × (n ≤ result.1) }
{
    if loose >= 128 {
        return (0, u128::MAX);
    }
    let first = number >> loose << loose;
    (first, first.saturating_add((1 << loose) - 1))
}

/// The first and the last address of the network of a line on a side, where it has one of version 6.
fn range_on(side: Side, line: &Line) -> Option<(u128, u128)> {
    let net = net_on(side, line)?;
    match net.addr {
        Addr::V4(_) => None,
        Addr::V6(number) => Some(range_of(number, loose_bits(net))),
    }
}

/// The ends of the networks of lines.
fn bounds_of(
    alloc: Global,
    side: Side,
    lines: &[Line],
    numbers: &[usize],
) -> Result<Bounds, AllocError> {
    let mut ends = Vec::new(alloc);
    for number in numbers {
        if let Some(line) = lines.get(*number) {
            if let Some((first, last)) = range_on(side, line) {
                ends.push(first)?;
                ends.push(last.saturating_add(1))?;
            }
        }
    }
    Bounds::new(alloc, ends)
}

/// Notes the row at which the network of a line begins, and that behind its last.
fn note_line(begins: &mut [bool], bounds: &Bounds, side: Side, line: &Line) {
    if let Some((first, last)) = range_on(side, line) {
        note(begins, bounds.cell_of(first));
        note(begins, bounds.cell_of(last) + 1);
    }
}

impl Nets {
    /// The rows of lines with these numbers, none of which is added yet. Fails when out of memory.
    pub(crate) fn new(
        alloc: Global,
        side: Side,
        lines: &[Line],
        numbers: &[usize],
    ) -> Result<Nets, AllocError>
        ensures { IfOk result (AreNets ((length numbers.now + 63) / 64)) }
    {
        let bounds = bounds_of(alloc, side, lines, numbers)?;
        let rows = bounds.len() + 1;
        let blocks = numbers.len().div_ceil(64);
        let mut layout = Layout::new(alloc, blocks, rows)?;
        for block in 0..blocks {
            let mut begins = vec![in alloc; false; rows]?;
            for number in block_of(numbers, block) {
                if let Some(line) = lines.get(*number) {
                    note_line(&mut begins, &bounds, side, line);
                }
            }
            layout.push_block(&begins)?;
        }
        let words = BlockWords::new(alloc, layout)?;
        Ok(Nets { bounds, words })
    }

    /// Whether no line has a network.
    #[inline(always)]
    pub(crate) fn is_empty(&self) -> bool {
        self.bounds.len() == 0
    }

    /// Adds a line, which lets the addresses pass that agree with a number above some low bits.
    pub(crate) fn add(&mut self, spot: Spot, number: u128, loose: u8)
        requires bit { spot.bit < 64 }
        requires block { spot.block < spot.blocks }
        requires loose { loose ≤ 128 }
        requires nets { AreNets spot.blocks self.old }
        ensures nets { AreNets spot.blocks self.new }
        ensures keeps { (block n i : ℕ) → LetsNet self.old block n i → LetsNet self.new block n i }
        ensures lets { (n : ℕ) → n / 2 ^ loose ≡ number / 2 ^ loose → LetsNet self.new spot.block n spot.bit }
    {
        let (first, last) = range_of(number, loose);
        let first = self.bounds.cell_of(first);
        let last = self.bounds.cell_of(last);
        self.words.mark(spot, first, last);
    }

    /// The row of an address.
    #[inline(always)]
    pub(crate) fn row_of(&self, number: u128) -> usize
        ensures is { result ≡ net_row self.now number }
        ensures within { result < length self.now.bounds.ends.items + 1 }
    {
        self.bounds.cell_of(number)
    }
}
