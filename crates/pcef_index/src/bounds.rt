//! Bounds: the addresses at which the intervals begin that networks make.

ghost use Rattle.std.specs.Prelude.{◌≡◌, ◌≤◌, ◌<◌, ◌^◌, length};
ghost use Rattle.pcef_index.specs.private.Bounds.{bound_cell, search};

use std::alloc::{AllocError, Global};

/// The addresses where intervals begin, as numbers, in ascending order.
#[derive(Drop)]
pub(crate) struct Bounds {
    ends: Vec<u128>,
}

impl Bounds {
    /// The bounds at some addresses. Fails when out of memory.
    pub(crate) fn new(alloc: Global, addresses: Vec<u128>) -> Result<Bounds, AllocError> {
        let mut sorted = addresses;
        sorted.sort()?;
        let mut ends: Vec<u128> = Vec::new(alloc);
        for end in &sorted {
            if ends.last() != Some(end) {
                ends.push(*end)?;
            }
        }
        Ok(Bounds { ends })
    }

    /// How many bounds there are.
    pub(crate) fn len(&self) -> usize
        ensures { result ≡ length self.now.ends.items }
    {
        self.ends.len()
    }

    /// How many bounds are at or below an address. Not inlined: its loop wants the registers that a look-up is full of.
    #[inline(never)]
    pub(crate) fn cell_of(&self, address: u128) -> usize
        ensures is { result ≡ bound_cell self.now.ends.items address }
        ensures within { result ≤ length self.now.ends.items }
    {
        let mut from = 0;
        let mut to = self.ends.len();
        while from < to {
            let middle = from + (to - from) / 2;
            if self.ends[middle] <= address {
                from = middle + 1;
            } else {
                to = middle;
            }
        }
        from
    }
}
