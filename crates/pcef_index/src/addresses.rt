//! Which lines let an address of a version pass.

ghost use Rattle.std.specs.Prelude.{◌≡◌, ◌<◌, ◌+◌, ◌/◌, ◌⊎◌, ℕ, IfOk, length, true};
ghost use Rattle.std.specs.Int.{bit_at};
ghost use Rattle.pcef_packet.specs.Addresses.{agrees_in};
ghost use Rattle.pcef_packet.specs.declared.header.Addr.{Addr};
ghost use Rattle.pcef_packet.specs.declared.header.Addr.TheVariants as Addr;
ghost use Rattle.pcef_index.specs.private.Addresses.{AreAddresses, HasBlock, IsSought, LetsAddr, version_in};
ghost use Rattle.pcef_index.specs.private.Digits.{AreDigits, LetsDigits};
ghost use Rattle.pcef_index.specs.private.Kinds.{version_of};
ghost use Rattle.pcef_index.specs.private.Nets.{AreNets, LetsNet};
ghost use Rattle.pcef_index.specs.private.Sieves.{LetsPlace};

use crate::digits::{Digits, places_of};
use crate::fields::{loose_bits, net_on};
use crate::kinds::{Version, version_of};
use crate::lines::Line;
use crate::nets::Nets;
use crate::sides::Side;
use crate::words::{Spot, set};
use pcef_filter::Net;
use pcef_packet::Addr;
use std::alloc::{AllocError, Global};

/// Which of the lines that look at an address let it pass.
#[derive(Drop)]
pub(crate) enum Addresses {
    /// By its digits, in version 4.
    Narrow(Digits),
    /// By networks, in version 6.
    Wide(Nets),
}

/// An address as it is looked up.
#[derive(Clone, Copy)]
pub(crate) enum Sought {
    /// Of version 4: the places of the words of its digits.
    Narrow([usize; 8]),
    /// The row of one of version 6.
    Wide(usize),
    /// One that isn't looked up, so all lines let it pass.
    Other,
}

/// Whether one of the lines with these numbers has a network of a version.
fn is_looked_at(version: Version, side: Side, lines: &[Line], numbers: &[usize]) -> bool {
    for number in numbers {
        if let Some(line) = lines.get(*number) {
            if let Some(net) = net_on(side, line) {
                if version_of(net.addr) == version {
                    return true;
                }
            }
        }
    }
    false
}

/// Adds a line to the digits of version 4. Where no line was to look at an address, the line lets all pass: its bit is set
/// among those that are free.
fn add_narrow(digits: &mut Digits, free: &mut u64, spot: Spot, net: Net)
    requires bit { spot.bit < 64 }
    requires block { spot.block < spot.blocks }
    requires digits { AreDigits spot.blocks digits.old }
    ensures digits { AreDigits spot.blocks digits.new }
    ensures keeps { (block n i : ℕ) → LetsDigits digits.old block n i → LetsDigits digits.new block n i }
    ensures free { (i : ℕ) → bit_at free.old i ≡ 1 → bit_at free.new i ≡ 1 }
    ensures lets { (n : ℕ) → agrees_in net.bits (Addr.V4 n) net.addr ≡ true
        → (bit_at free.new spot.bit ≡ 1) ⊎ LetsDigits digits.new spot.block n spot.bit }
{
    match net.addr {
        Addr::V4(number) => {
            if digits.is_empty() {
                set(free, spot.bit);
            } else {
                digits.add(spot, number, loose_bits(net));
            }
        }
        Addr::V6(_) => (),
    }
}

/// Adds a line to the networks of version 6.
fn add_wide(nets: &mut Nets, spot: Spot, net: Net)
    requires bit { spot.bit < 64 }
    requires block { spot.block < spot.blocks }
    requires nets { AreNets spot.blocks nets.old }
    ensures nets { AreNets spot.blocks nets.new }
    ensures keeps { (block n i : ℕ) → LetsNet nets.old block n i → LetsNet nets.new block n i }
    ensures lets { (n : ℕ) → agrees_in net.bits (Addr.V6 n) net.addr ≡ true → LetsNet nets.new spot.block n spot.bit }
{
    match net.addr {
        Addr::V4(_) => (),
        Addr::V6(number) => nets.add(spot, number, loose_bits(net)),
    }
}

impl Addresses {
    /// Those of lines with these numbers, none of which is added yet. Fails when out of memory.
    pub(crate) fn new(
        alloc: Global,
        version: Version,
        side: Side,
        lines: &[Line],
        numbers: &[usize],
    ) -> Result<Addresses, AllocError>
        ensures shaped { IfOk result (AreAddresses ((length numbers.now + 63) / 64)) }
        ensures version { IfOk result (λ a. version_in a ≡ version) }
    {
        match version {
            Version::V4 => {
                let blocks = numbers.len().div_ceil(64);
                let is_looked_at = is_looked_at(version, side, lines, numbers);
                Ok(Addresses::Narrow(Digits::new(alloc, blocks, is_looked_at)?))
            }
            Version::V6 => Ok(Addresses::Wide(Nets::new(alloc, side, lines, numbers)?)),
        }
    }

    /// Adds a line, which lets the addresses of a network pass.
    pub(crate) fn add(&mut self, free: &mut u64, spot: Spot, net: Net)
        requires bit { spot.bit < 64 }
        requires block { spot.block < spot.blocks }
        requires addresses { AreAddresses spot.blocks self.old }
        ensures addresses { AreAddresses spot.blocks self.new }
        ensures version { version_in self.new ≡ version_in self.old }
        ensures keeps { (block i : ℕ) (a : Addr) → LetsAddr self.old block a i → LetsAddr self.new block a i }
        ensures free { (i : ℕ) → bit_at free.old i ≡ 1 → bit_at free.new i ≡ 1 }
        ensures lets { (a : Addr) → agrees_in net.bits a net.addr ≡ true
            → LetsPlace free.new self.new spot.block a spot.bit }
    {
        match self {
            Addresses::Narrow(digits) => add_narrow(digits, free, spot, net),
            Addresses::Wide(nets) => add_wide(nets, spot, net),
        }
    }

    /// Whether no line has a network.
    #[inline(always)]
    fn is_empty(&self) -> bool {
        match self {
            Addresses::Narrow(digits) => digits.is_empty(),
            Addresses::Wide(nets) => nets.is_empty(),
        }
    }

    /// An address as it is looked up.
    #[inline(always)]
    pub(crate) fn sought(&self, addr: Addr) -> Sought
        ensures { IsSought self.now addr result }
    {
        match (self, addr) {
            (Addresses::Narrow(_), Addr::V4(number)) => Sought::Narrow(places_of(number)),
            (Addresses::Wide(nets), Addr::V6(number)) => Sought::Wide(nets.row_of(number)),
            _ => Sought::Other,
        }
    }

    /// The same where all lines let it pass if none has a network: it isn't looked up then. A remote address is, since
    /// lines may ask for the session's own.
    #[inline(always)]
    pub(crate) fn sought_if_any(&self, addr: Addr) -> Sought
        ensures { IsSought self.now addr result }
    {
        if self.is_empty() {
            Sought::Other
        } else {
            self.sought(addr)
        }
    }

    /// Which of the 64 lines of a block let an address pass; all where it isn't looked up.
    #[inline(always)]
    pub(crate) fn word(&self, block: usize, sought: Sought) -> u64
        requires { HasBlock self.now block sought }
        ensures { (i : ℕ) (a : Addr) → i < 64 → IsSought self.now a sought
            → (version_of a ≡ version_in self.now → LetsAddr self.now block a i) → bit_at result i ≡ 1 }
    {
        match (self, sought) {
            (Addresses::Narrow(digits), Sought::Narrow(places)) => digits.word(block, places),
            (Addresses::Wide(nets), Sought::Wide(row)) => nets.words.word(block, row),
            _ => u64::MAX,
        }
    }
}
