//! Which lines let a number pass, by ranges.

ghost use Rattle.std.specs.Prelude.{◌≡◌, ◌≤◌, ◌<◌, ◌+◌, ◌/◌, ◌^◌, ℕ, IfOk, IfSome, length, true};
ghost use Rattle.pcef_filter.specs.Matching.{in_ranges};
ghost use Rattle.pcef_index.specs.private.Rows.{AreRows, LetsNumber, row_of, step_cell};

use crate::blocks::{BlockWords, Layout};
use crate::ends::Ends;
use crate::fields::{Field, add_ends, proto_of, ranges_on};
use crate::lines::Line;
use crate::steps::Steps;
use crate::words::{Spot, block_of};
use pcef_filter::PortRange;
use std::alloc::{AllocError, Global};

/// Which of the lines that look at a number let it pass: words by the intervals between the ends of their ranges.
#[derive(Drop)]
pub(crate) struct Rows {
    /// The ends.
    pub steps: Steps,
    /// The words, a row for each interval.
    pub words: BlockWords,
}

/// The row of a range's last number, where that of its first is known. Most ranges are of one port.
#[inline(always)]
fn last_row(steps: &Steps, range: PortRange, first: usize) -> usize
    requires is { first ≡ step_cell steps.now range.first }
    requires within { first ≤ length steps.now.ports.items }
    ensures is { result ≡ step_cell steps.now range.last }
    ensures within { result ≤ length steps.now.ports.items }
    ensures ranged { range.last < 2 ^ 16 }
{
    if range.last == range.first {
        first
    } else {
        steps.cell_of(range.last)
    }
}

/// Notes the rows at which ranges begin, and those behind their last. Both numbers are ends, so no row lies between the
/// last one of a range and the next.
fn note_ranges(begins: &mut [bool], steps: &Steps, ranges: &[PortRange]) {
    for range in ranges {
        let first = steps.cell_of(range.first);
        note(begins, first);
        note(begins, last_row(steps, *range, first).saturating_add(1));
    }
}

/// Notes a row.
pub(crate) fn note(begins: &mut [bool], row: usize) {
    if let Some(begins) = begins.get_mut(row) {
        *begins = true;
    }
}

/// Notes the rows at which the ranges of a line begin, and those behind their last.
fn note_line(begins: &mut [bool], steps: &Steps, field: Field, line: &Line) {
    match field {
        Field::Port(side) => note_ranges(begins, steps, ranges_on(side, line)),
        Field::Proto => {
            if let Some(range) = proto_of(line) {
                note_ranges(begins, steps, &[range]);
            }
        }
        Field::Nothing => (),
    }
}

/// Where words begin in a block, among so many rows: where ranges of its lines do, and behind their last numbers.
fn begins_of(
    alloc: Global,
    steps: &Steps,
    field: Field,
    lines: &[Line],
    numbers: &[usize],
) -> Result<Vec<bool>, AllocError> {
    let rows = steps.len().saturating_add(1);
    let mut begins = vec![in alloc; false; rows]?;
    // A field that no line looks at has one row.
    if rows > 1 {
        for number in numbers {
            if let Some(line) = lines.get(*number) {
                note_line(&mut begins, steps, field, line);
            }
        }
    }
    Ok(begins)
}

/// The ends of what lines let pass of a field. None is left in `ends`.
fn steps_of(
    alloc: Global,
    ends: &mut Ends,
    field: Field,
    lines: &[Line],
    numbers: &[usize],
) -> Result<Steps, AllocError> {
    for number in numbers {
        if let Some(line) = lines.get(*number) {
            add_ends(ends, field, line);
        }
    }
    Steps::new(alloc, ends.take(alloc)?)
}

impl Rows {
    /// The rows of lines with these numbers, none of which is added yet. No end is left in `ends`. Fails when out of memory.
    pub(crate) fn new(
        alloc: Global,
        ends: &mut Ends,
        field: Field,
        lines: &[Line],
        numbers: &[usize],
    ) -> Result<Rows, AllocError>
        ensures { IfOk result (AreRows ((length numbers.now + 63) / 64)) }
    {
        let steps = steps_of(alloc, ends, field, lines, numbers)?;
        let rows = steps.len() + 1;
        let blocks = numbers.len().div_ceil(64);
        let mut layout = Layout::new(alloc, blocks, rows)?;
        for block in 0..blocks {
            let begins = begins_of(alloc, &steps, field, lines, block_of(numbers, block))?;
            layout.push_block(&begins)?;
        }
        let words = BlockWords::new(alloc, layout)?;
        Ok(Rows { steps, words })
    }

    /// Adds a line, which lets the numbers of these ranges pass.
    pub(crate) fn add(&mut self, spot: Spot, ranges: &[PortRange])
        requires bit { spot.bit < 64 }
        requires block { spot.block < spot.blocks }
        requires rows { AreRows spot.blocks self.old }
        ensures rows { AreRows spot.blocks self.new }
        ensures keeps { (block n i : ℕ) → LetsNumber self.old block n i → LetsNumber self.new block n i }
        ensures lets { (n : ℕ) → n < 2 ^ 16 → in_ranges ranges.now n ≡ true
            → LetsNumber self.new spot.block n spot.bit }
    {
        for range in ranges {
            let first = self.steps.cell_of(range.first);
            let last = last_row(&self.steps, *range, first);
            self.words.mark(spot, first, last);
        }
    }

    /// The row of a number, if there is one.
    #[inline(always)]
    pub(crate) fn row_of(&self, number: Option<u16>) -> Option<usize>
        ensures is { result ≡ row_of self.now number }
        ensures within { IfSome result (λ k. k < length self.now.steps.ports.items + 1) }
        ensures ranged { IfSome number (λ n. n < 2 ^ 16) }
    {
        let number = number?;
        Some(self.steps.cell_of(number))
    }
}
