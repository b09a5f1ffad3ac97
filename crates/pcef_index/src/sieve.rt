//! A sieve: the lines of a list that may fit packets of a kind, and which of them let a packet pass, field by field.

ghost use Rattle.std.specs.Prelude.{◌≡◌, ◌<◌, ◌≤◌, ◌+◌, ◌/◌, ◌%◌, ℕ, IfOk, IfSome, List, length, true};
ghost use Rattle.pcef_catalog.specs.declared.listing.Offer.{Offer};
ghost use Rattle.pcef_filter.specs.Matching.{matches};
ghost use Rattle.pcef_packet.specs.declared.header.Addr.{Addr};
ghost use Rattle.pcef_packet.specs.declared.header.Header.{Header};
ghost use Rattle.pcef_index.specs.private.Lines.{line_fits};
ghost use Rattle.pcef_index.specs.private.Runs.{AreRuns};
ghost use Rattle.pcef_index.specs.private.Sides.{proto_number};
ghost use Rattle.pcef_index.specs.private.Sieves.{IsRanged, IsShaped, IsSieve, Serves, Lets, LetsProto, LetsSides};
ghost use Rattle.pcef_index.specs.private.Words.{fits_at, passes_at};

use crate::addresses::Addresses;
use crate::ends::Ends;
use crate::fields::{Field, proto_of};
use crate::free::{Free, add_local, add_ranges, add_remote};
use crate::kinds::{Class, Kind, numbers_of};
use crate::lines::{Line, Part};
use crate::rows::Rows;
use crate::rule_filter::RuleFilter;
use crate::runs::Runs;
use crate::sides::{Side, end_on};
use crate::words::{Spot, set};
use pcef_filter::{Filter, PortRange};
use std::alloc::{AllocError, Global};

/// The lines of a list that may fit packets of a kind.
#[derive(Drop)]
pub(crate) struct Sieve {
    /// The places of the lines in the list.
    pub numbers: Vec<usize>,
    /// Of which rules they are.
    pub runs: Runs,
    /// For each 64 of them which let a field pass whatever it is.
    pub free: Vec<Free>,
    /// By the remote address.
    pub remote: Addresses,
    /// By the user equipment's address.
    pub local: Addresses,
    /// By the protocol.
    pub proto: Rows,
    /// By the remote port.
    pub remote_port: Rows,
    /// By the user equipment's port.
    pub local_port: Rows,
}

/// The protocol that a line asks for, as a range, where a class has several.
fn proto_in(class: Class, line: &Line) -> Option<PortRange>
    ensures { (offers : List Offer) (ue : Addr) (h : Header) → line_fits offers ue h line.now ≡ true
        → IfSome result (λ r. (r.first ≤ proto_number h.proto) × (proto_number h.proto ≤ r.last)) }
{
    match class {
        Class::Other => proto_of(line),
        Class::Tcp | Class::Udp => None,
    }
}

impl Sieve {
    /// The sieve of lines with these numbers, none of which is added yet.
    fn with_numbers(
        alloc: Global,
        kind: Kind,
        lines: &[Line],
        numbers: Vec<usize>,
        ends: &mut Ends,
    ) -> Result<Sieve, AllocError>
        ensures shaped { IfOk result (λ s. IsShaped ((length s.numbers.items + 63) / 64) s) }
        ensures numbers { IfOk result (λ s. s.numbers.items ≡ numbers.items) }
        ensures runs { IfOk result (λ s. AreRuns lines.now numbers.items s.runs) }
    {
        let remote = Addresses::new(alloc, kind.version, Side::Remote, lines, &numbers)?;
        let local = Addresses::new(alloc, kind.version, Side::Local, lines, &numbers)?;
        let by_proto = match kind.class {
            Class::Other => Field::Proto,
            Class::Tcp | Class::Udp => Field::Nothing,
        };
        let proto = Rows::new(alloc, ends, by_proto, lines, &numbers)?;
        let remote_port = Rows::new(alloc, ends, Field::Port(Side::Remote), lines, &numbers)?;
        let local_port = Rows::new(alloc, ends, Field::Port(Side::Local), lines, &numbers)?;
        let runs = Runs::new(alloc, lines, &numbers)?;
        let free = vec![in alloc; Free::default(); numbers.len().div_ceil(64)]?;
        Ok(Sieve {
            numbers,
            runs,
            free,
            remote,
            local,
            proto,
            remote_port,
            local_port,
        })
    }

    /// Adds what a filter lets pass of both sides: all addresses of the user equipment's, where it is open.
    fn add_sides(&mut self, spot: Spot, filter: &Filter, is_open: bool)
        requires bit { spot.bit < 64 }
        requires block { spot.block < spot.blocks }
        requires shaped { IsShaped spot.blocks self.old }
        ensures shaped { IsShaped spot.blocks self.new }
        ensures numbers { self.new.numbers.items ≡ self.old.numbers.items }
        ensures runs { self.new.runs ≡ self.old.runs }
        ensures keeps { (block i : ℕ) (ue : Addr) (h : Header) → Lets self.old block ue h i → Lets self.new block ue h i }
        ensures lets { (ue : Addr) (h : Header) → IsRanged h → matches filter.now ue h ≡ true
            → LetsSides self.new spot.block ue h spot.bit }
    {
        let remote = end_on(Side::Remote, filter);
        let local = end_on(Side::Local, filter);
        let free = &mut self.free[spot.block];
        add_remote(
            &mut self.remote,
            &mut free.remote,
            &mut free.assigned,
            spot,
            &remote.place,
        );
        add_local(
            &mut self.local,
            &mut free.local,
            spot,
            &local.place,
            is_open,
        );
        add_ranges(
            &mut self.remote_port,
            &mut free.remote_port,
            spot,
            &remote.ports,
        );
        add_ranges(
            &mut self.local_port,
            &mut free.local_port,
            spot,
            &local.ports,
        );
    }

    /// Adds what a line lets pass of the protocol, where its class has several.
    fn add_proto(&mut self, spot: Spot, proto: Option<PortRange>)
        requires bit { spot.bit < 64 }
        requires block { spot.block < spot.blocks }
        requires shaped { IsShaped spot.blocks self.old }
        ensures shaped { IsShaped spot.blocks self.new }
        ensures numbers { self.new.numbers.items ≡ self.old.numbers.items }
        ensures runs { self.new.runs ≡ self.old.runs }
        ensures keeps { (block i : ℕ) (ue : Addr) (h : Header) → Lets self.old block ue h i → Lets self.new block ue h i }
        ensures sides { (block i : ℕ) (ue : Addr) (h : Header) → LetsSides self.old block ue h i → LetsSides self.new block ue h i }
        ensures lets { (h : Header) → IsRanged h → IfSome proto (λ r. (r.first ≤ proto_number h.proto) × (proto_number h.proto ≤ r.last))
            → LetsProto self.new spot.block h spot.bit }
    {
        match proto {
            None => set(&mut self.free[spot.block].proto, spot.bit),
            Some(range) => self.proto.add(spot, &[range]),
        }
    }

    /// Adds a filter.
    fn add_filter(&mut self, spot: Spot, filter: &RuleFilter, proto: Option<PortRange>)
        requires bit { spot.bit < 64 }
        requires block { spot.block < spot.blocks }
        requires shaped { IsShaped spot.blocks self.old }
        ensures shaped { IsShaped spot.blocks self.new }
        ensures numbers { self.new.numbers.items ≡ self.old.numbers.items }
        ensures runs { self.new.runs ≡ self.old.runs }
        ensures keeps { (block i : ℕ) (ue : Addr) (h : Header) → Lets self.old block ue h i → Lets self.new block ue h i }
        ensures lets { (ue : Addr) (h : Header) → IsRanged h → matches filter.now ue h ≡ true
            → IfSome proto (λ r. (r.first ≤ proto_number h.proto) × (proto_number h.proto ≤ r.last)) → Lets self.new spot.block ue h spot.bit }
    {
        self.add_sides(spot, filter.get(), filter.is_open());
        self.add_proto(spot, proto);
    }

    /// Adds a rule that looks at more than the fields.
    fn add_offer(&mut self, spot: Spot)
        requires bit { spot.bit < 64 }
        requires block { spot.block < spot.blocks }
        requires shaped { IsShaped spot.blocks self.old }
        ensures shaped { IsShaped spot.blocks self.new }
        ensures numbers { self.new.numbers.items ≡ self.old.numbers.items }
        ensures runs { self.new.runs ≡ self.old.runs }
        ensures keeps { (block i : ℕ) (ue : Addr) (h : Header) → Lets self.old block ue h i → Lets self.new block ue h i }
        ensures lets { (ue : Addr) (h : Header) → Lets self.new spot.block ue h spot.bit }
    {
        let free = &mut self.free[spot.block];
        set(&mut free.remote, spot.bit);
        set(&mut free.local, spot.bit);
        set(&mut free.proto, spot.bit);
        set(&mut free.remote_port, spot.bit);
        set(&mut free.local_port, spot.bit);
    }

    /// Adds a line.
    fn add(&mut self, class: Class, spot: Spot, line: &Line)
        requires bit { spot.bit < 64 }
        requires block { spot.block < spot.blocks }
        requires shaped { IsShaped spot.blocks self.old }
        ensures shaped { IsShaped spot.blocks self.new }
        ensures numbers { self.new.numbers.items ≡ self.old.numbers.items }
        ensures runs { self.new.runs ≡ self.old.runs }
        ensures keeps { (block i : ℕ) (ue : Addr) (h : Header) → Lets self.old block ue h i → Lets self.new block ue h i }
        ensures lets { (offers : List Offer) (ue : Addr) (h : Header) → IsRanged h
            → line_fits offers ue h line.now ≡ true → Lets self.new spot.block ue h spot.bit }
    {
        let proto = proto_in(class, line);
        match &line.part {
            Part::Filter(filter) => self.add_filter(spot, filter, proto),
            Part::Offer(_) => self.add_offer(spot),
        }
    }

    /// Adds the line whose number stands at a place.
    fn add_at(&mut self, class: Class, lines: &[Line], place: usize)
        requires shaped { IsShaped ((length self.old.numbers.items + 63) / 64) self.old }
        requires place { place < length self.old.numbers.items }
        ensures shaped { IsShaped ((length self.old.numbers.items + 63) / 64) self.new }
        ensures numbers { self.new.numbers.items ≡ self.old.numbers.items }
        ensures runs { self.new.runs ≡ self.old.runs }
        ensures keeps { (block i : ℕ) (ue : Addr) (h : Header) → Lets self.old block ue h i → Lets self.new block ue h i }
        ensures lets { (offers : List Offer) (ue : Addr) (h : Header) → IsRanged h
            → passes_at (fits_at (line_fits offers ue h) lines.now) self.old.numbers.items place ≡ true
            → Lets self.new (place / 64) ue h (place % 64) }
    {
        let spot = Spot {
            blocks: self.free.len(),
            block: place / 64,
            bit: (place % 64) as u32,
        };
        if let Some(line) = lines.get(self.numbers[place]) {
            self.add(class, spot, line);
        }
    }

    /// Adds all lines.
    fn fill(&mut self, class: Class, lines: &[Line])
        requires shaped { IsShaped ((length self.old.numbers.items + 63) / 64) self.old }
        requires runs { AreRuns lines.now self.old.numbers.items self.old.runs }
        ensures sieve { IsSieve lines.now self.new }
        ensures numbers { self.new.numbers.items ≡ self.old.numbers.items }
        ensures runs { self.new.runs ≡ self.old.runs }
    {
        for place in 0..self.numbers.len() {
            self.add_at(class, lines, place);
        }
    }

    /// The sieve of a kind, if a line may fit its packets. No end is left in `ends`. Fails when out of memory.
    pub(crate) fn new(
        alloc: Global,
        kind: Kind,
        lines: &[Line],
        ends: &mut Ends,
    ) -> Result<Option<Box<Sieve>>, AllocError>
        ensures { IfOk result (Serves lines.now kind) }
    {
        let numbers = numbers_of(alloc, lines, kind)?;
        if numbers.is_empty() {
            return Ok(None);
        }
        let mut sieve = Sieve::with_numbers(alloc, kind, lines, numbers, ends)?;
        sieve.fill(kind.class, lines);
        Ok(Some(Box::new(alloc, sieve)?))
    }
}
