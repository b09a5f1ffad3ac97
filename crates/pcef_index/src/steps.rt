//! Steps: the ports at which the intervals begin that ranges make.

ghost use Rattle.std.specs.Prelude.{◌≡◌, ◌≤◌, ◌<◌, ◌/◌, ◌^◌, IfOk, length};
ghost use Rattle.pcef_index.specs.private.Bounds.{search};
ghost use Rattle.pcef_index.specs.private.Starts.{ArePlaced, cell_at, cell_of, count_on, count_up};

use std::alloc::{AllocError, Global};

/// So many steps are compared one after the other.
const MOST_COUNTED: usize = 8;

/// So many steps of a high octet are compared one after the other; more are cut in half again and again.
const MOST_IN_TURN: usize = 16;

/// The ports where intervals begin, in ascending order, and where those of each high octet begin and end among them.
#[derive(Drop)]
pub(crate) struct Steps {
    /// Where the steps of each high octet begin, and where the last end; empty where there are few.
    starts: Vec<u16>,
    ports: Vec<u16>,
    ghost placed: { 257 ≤ length starts.items → ArePlaced starts.items ports.items },
}

/// How many ports from the first on are at or below one, up to the first that isn't.
fn count_up(ports: &[u16], port: u16) -> usize
    ensures is { result ≡ count_up port ports.now }
    ensures within { result ≤ length ports.now }
{
    for place in 0..ports.len() {
        if ports[place] > port {
            return place;
        }
    }
    ports.len()
}

/// The same of ports in ascending order, by halves.
#[inline(never)]
fn count_by_halves(ports: &[u16], port: u16) -> usize
    ensures is { result ≡ search (length ports.now) ports.now port 0 (length ports.now) }
    ensures within { result ≤ length ports.now }
{
    let mut from = 0;
    let mut to = ports.len();
    while from < to {
        let middle = from + (to - from) / 2;
        if ports[middle] <= port {
            from = middle + 1;
        } else {
            to = middle;
        }
    }
    from
}

/// The same of ports in ascending order, which may be many.
#[inline(always)]
fn count_on(ports: &[u16], port: u16) -> usize
    ensures is { result ≡ count_on port ports.now }
    ensures within { result ≤ length ports.now }
{
    if ports.len() > MOST_IN_TURN {
        count_by_halves(ports, port)
    } else {
        count_up(ports, port)
    }
}

/// How many of these ports, in ascending order, are of no higher octet than one, as far as 16 bits count them; those up to
/// a number are.
fn end_of(ports: &[u16], from: u16, octet: u8) -> u16
    requires { from ≤ length ports.now }
    ensures ordered { from ≤ result }
    ensures within { result ≤ length ports.now }
{
    let mut end = from;
    while end < u16::MAX && usize::from(end) < ports.len() {
        if ports[usize::from(end)] / 256 > u16::from(octet) {
            return end;
        }
        end += 1;
    }
    end
}

/// Where those of each high octet begin among ports in ascending order, and where the last end.
fn starts_of(alloc: Global, ports: &[u16]) -> Result<Vec<u16>, AllocError>
    ensures { IfOk result (λ v. ArePlaced v.items ports.now) }
{
    let mut starts = Vec::with_capacity(alloc, 257)?;
    let mut next = 0u16;
    for octet in 0..=u8::MAX {
        starts.push_reserved(next);
        next = end_of(ports, next, octet);
    }
    starts.push_reserved(next);
    Ok(starts)
}

impl Steps {
    /// No steps.
    pub(crate) fn none(alloc: Global) -> Steps {
        Steps {
            starts: Vec::new(alloc),
            ports: Vec::new(alloc),
        }
    }

    /// The steps at some ports, which are in ascending order. Fails when out of memory.
    pub(crate) fn new(alloc: Global, ports: Vec<u16>) -> Result<Steps, AllocError> {
        let starts = if ports.len() > MOST_COUNTED {
            starts_of(alloc, &ports)?
        } else {
            Vec::new(alloc)
        };
        Ok(Steps { starts, ports })
    }

    /// How many steps there are.
    pub(crate) fn len(&self) -> usize
        ensures { result ≡ length self.now.ports.items }
    {
        self.ports.len()
    }

    /// How many steps are at or below a port, where they are many: those of lower high octets aren't compared.
    #[inline(always)]
    fn cell_among(&self, port: u16) -> usize
        requires { 257 ≤ length self.now.starts.items }
        ensures is { result ≡ cell_at self.now.starts.items self.now.ports.items (port / 256) port }
        ensures within { result ≤ length self.now.ports.items }
    {
        let octet = usize::from(port / 256);
        let from = usize::from(self.starts[octet]);
        let to = usize::from(self.starts[octet + 1]);
        from + count_on(&self.ports[from..to], port)
    }

    /// How many steps are at or below a port.
    #[inline(always)]
    #[tactic(auto, unfolding(crate::specs::private::Starts::cell_of))]
    pub(crate) fn cell_of(&self, port: u16) -> usize
        ensures is { result ≡ cell_of self.now.starts.items self.now.ports.items port }
        ensures within { result ≤ length self.now.ports.items }
        ensures ranged { port < 2 ^ 16 }
    {
        if self.starts.len() < 257 {
            count_up(&self.ports, port)
        } else {
            self.cell_among(port)
        }
    }
}
