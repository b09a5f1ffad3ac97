//! Which lines of a sieve let a packet pass, and the first of them that fits it.

ghost use Rattle.std.specs.Prelude.{◌≡◌, ◌<◌, ◌≤◌, ◌+◌, ◌*◌, ◌^◌, ℕ, IfSome, List, Option, false, length, true};
ghost use Rattle.std.specs.Int.{bit_at};
ghost use Rattle.pcef_catalog.specs.declared.listing.Offer.{Offer};
ghost use Rattle.pcef_packet.specs.declared.header.Addr.{Addr};
ghost use Rattle.pcef_packet.specs.declared.header.Header.{Header};
ghost use Rattle.pcef_index.specs.private.Blocks.{HasWord};
ghost use Rattle.pcef_index.specs.private.Lines.{standing_fits};
ghost use Rattle.pcef_index.specs.private.Rows.{row_of};
ghost use Rattle.pcef_index.specs.private.Runs.{AreRuns};
ghost use Rattle.pcef_index.specs.private.Sieves.{AreNumbers, AreWithin, HasWords, IsProbe, IsSieve, Lets, LetsRow};
ghost use Rattle.pcef_index.specs.private.Standing.{AreStanding};
ghost use Rattle.pcef_index.specs.private.Words.{AreSieved, IsFirstIn, IsFitAt, first_of, fits_at, passes_at};

use crate::addresses::Sought;
use crate::lines::Standing;
use crate::rows::Rows;
use crate::sides::{Side, addr_on, port_on, proto_number};
use crate::sieve::Sieve;
use crate::standing_words::standing_at;
use crate::words::above;
use pcef_catalog::Detects;
use pcef_packet::{Addr, Header};

/// The numbers of a packet that rows are looked up by.
#[derive(Clone, Copy)]
pub(crate) struct Numbers {
    /// The protocol.
    pub proto: u16,
    /// The remote port, if the packet has ports.
    pub remote_port: Option<u16>,
    /// The port on the user equipment's side.
    pub local_port: Option<u16>,
}

/// What a sieve looks up of a packet.
#[derive(Clone, Copy)]
pub(crate) struct Probe {
    /// Its remote address.
    pub remote: Sought,
    /// All bits where that address is the session's, else none.
    pub assigned: u64,
    /// The user equipment's address.
    pub local: Sought,
    /// The row of its protocol.
    pub proto: Option<usize>,
    /// That of its remote port.
    pub remote_port: Option<usize>,
    /// That of its port on the user equipment's side.
    pub local_port: Option<usize>,
}

/// The lines of a block that let a packet pass, and whose rules stand.
#[derive(Clone, Copy)]
struct Passed {
    /// The number of the block.
    block: usize,
    /// A bit for each of its 64 lines.
    word: u64,
}

/// The numbers of a packet.
#[inline(always)]
fn numbers_of(header: &Header) -> Numbers
    ensures { AreNumbers header.now result }
{
    Numbers {
        proto: proto_number(header.proto),
        remote_port: port_on(Side::Remote, header),
        local_port: port_on(Side::Local, header),
    }
}

/// Which of the 64 lines of a block let a number pass, if there is one.
#[inline(always)]
fn number_word(free: u64, rows: &Rows, block: usize, row: Option<usize>) -> u64
    requires { IfSome row (HasWord rows.now.words block) }
    ensures { (i : ℕ) (n : Option ℕ) → row ≡ row_of rows.now n → LetsRow free rows.now block n i → bit_at result i ≡ 1 }
{
    match row {
        None => free,
        Some(row) => free | rows.words.word(block, row),
    }
}

impl Sieve {
    /// What it looks up of a packet of a session.
    #[inline(always)]
    fn probe(&self, numbers: Numbers, ue: &Addr, header: &Header) -> Probe
        requires numbers { AreNumbers header.now numbers }
        ensures is { IsProbe self.now ue.now header.now result }
        ensures within { AreWithin self.now result }
    {
        let remote = addr_on(Side::Remote, header);
        Probe {
            remote: self.remote.sought(remote),
            assigned: if remote.is_assigned(*ue) { u64::MAX } else { 0 },
            local: self.local.sought_if_any(addr_on(Side::Local, header)),
            proto: self.proto.row_of(Some(numbers.proto)),
            remote_port: self.remote_port.row_of(numbers.remote_port),
            local_port: self.local_port.row_of(numbers.local_port),
        }
    }

    /// Which of the 64 lines of a block let the ports and the protocol of a packet pass.
    #[inline(always)]
    fn numbers_word(&self, block: usize, probe: &Probe) -> u64
        requires block { block < length self.now.free.items }
        requires words { HasWords self.now block probe.now }
        ensures { (ue : Addr) (h : Header) (i : ℕ) → IsProbe self.now ue h probe.now → Lets self.now block ue h i
            → bit_at result i ≡ 1 }
    {
        let free = &self.free[block];
        number_word(
            free.remote_port,
            &self.remote_port,
            block,
            probe.remote_port,
        ) & number_word(free.local_port, &self.local_port, block, probe.local_port)
            & number_word(free.proto, &self.proto, block, probe.proto)
    }

    /// Which of some of the 64 lines of a block let a packet pass, a bit for each.
    #[inline(always)]
    fn sieved(&self, block: usize, some: u64, probe: &Probe) -> u64
        requires block { block < length self.now.free.items }
        requires words { HasWords self.now block probe.now }
        ensures { (ue : Addr) (h : Header) (i : ℕ) → IsProbe self.now ue h probe.now → i < 64 → bit_at some i ≡ 1
            → Lets self.now block ue h i → bit_at result i ≡ 1 }
    {
        let free = &self.free[block];
        let word = some & (free.local | self.local.word(block, probe.local));
        if word == 0 {
            return 0;
        }
        let word = word & self.numbers_word(block, probe);
        if word == 0 {
            return 0;
        }
        let own = free.assigned & probe.assigned;
        word & (free.remote | own | self.remote.word(block, probe.remote))
    }

    /// The place of the rule of one of the lines, if it fits and its rule still stands.
    #[inline(always)]
    fn fitting<C: Detects>(
        &self,
        standing: Standing<'_>,
        place: usize,
        catalog: &C,
        ue: &Addr,
        header: &Header,
    ) -> Option<u8>
        ensures { IsFitAt (standing_fits standing.entry.places.now (C.offers catalog.now) ue.now header.now)
            standing.entry.lines.now self.now.numbers.items place result }
    {
        let number = self.numbers.get(place)?;
        let line = standing.lines.get(*number)?;
        if standing.fits(line, catalog, ue, header) {
            Some(line.place)
        } else {
            None
        }
    }

    /// The last line of a block that fails where one does: all do where no rule from this one's on stands.
    #[inline(always)]
    fn last_failing(&self, standing: Standing<'_>, block: usize, bit: u32) -> u32
        requires few { block * 64 + 64 < 2 ^ 64 }
        requires bit { bit < 64 }
        requires runs { AreRuns standing.lines.now self.now.numbers.items self.now.runs }
        ensures least { bit ≤ result }
        ensures most { result < 64 }
        ensures fail { (offers : List Offer) (ue : Addr) (h : Header) (t : ℕ)
            → passes_at (fits_at (standing_fits standing.entry.places.now offers ue h) standing.entry.lines.now) self.now.numbers.items (block * 64 + bit) ≡ false
            → bit ≤ t → t ≤ result
            → passes_at (fits_at (standing_fits standing.entry.places.now offers ue h) standing.entry.lines.now) self.now.numbers.items (block * 64 + t) ≡ false }
    {
        if self
            .runs
            .are_behind(block * 64 + bit as usize, standing.places.len())
        {
            63
        } else {
            bit
        }
    }

    /// The place of the rule of the first line that fits, and whose rule still stands, among those of a block that have
    /// a bit.
    #[inline(always)]
    fn first_in<C: Detects>(
        &self,
        standing: Standing<'_>,
        passed: Passed,
        catalog: &C,
        ue: &Addr,
        header: &Header,
    ) -> Option<u8>
        requires few { passed.block * 64 + 64 < 2 ^ 64 }
        requires runs { AreRuns standing.lines.now self.now.numbers.items self.now.runs }
        requires sieved { AreSieved (fits_at (standing_fits standing.places.now (C.offers catalog.now) ue.now header.now) standing.lines.now)
            self.now.numbers.items (passed.block * 64) passed.word }
        ensures { IsFirstIn (standing_fits standing.entry.places.now (C.offers catalog.now) ue.now header.now)
            standing.entry.lines.now self.now.numbers.items (passed.block * 64) result }
    {
        let mut left = passed.word;
        while left != 0 {
            let bit = left.trailing_zeros();
            let place = passed.block * 64 + bit as usize;
            if let Some(place) = self.fitting(standing, place, catalog, ue, header) {
                return Some(place);
            }
            left = above(left, self.last_failing(standing, passed.block, bit));
        }
        None
    }

    /// The place of the rule of the first line that fits a packet, and whose rule still stands.
    #[inline(always)]
    pub(crate) fn first_place<C: Detects>(
        &self,
        standing: Standing<'_>,
        words: &[u64],
        catalog: &C,
        ue: &Addr,
        header: &Header,
    ) -> Option<u8>
        requires sieve { IsSieve standing.lines.now self.now }
        requires words { AreStanding standing.places.now standing.lines.now self.now.numbers.items words.now }
        ensures { result ≡ first_of (standing_fits standing.entry.places.now (C.offers catalog.now) ue.now header.now)
            standing.entry.lines.now self.now.numbers.items }
    {
        if self.runs.are_behind(0, standing.places.len()) {
            return None;
        }
        let probe = self.probe(numbers_of(header), ue, header);
        for block in 0..self.free.len() {
            let word = self.sieved(block, standing_at(words, block), &probe);
            let passed = Passed { block, word };
            if let Some(place) = self.first_in(standing, passed, catalog, ue, header) {
                return Some(place);
            }
            if self.runs.are_behind(block * 64 + 64, standing.places.len()) {
                return None;
            }
        }
        None
    }
}
