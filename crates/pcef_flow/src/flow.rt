//! What the packets of a flow have in common.

ghost use Rattle.std.specs.Prelude.{◌≡◌, ◌/◌, ◌%◌, ◌^◌, IsTrue};
ghost use Rattle.pcef_flow.specs.Flows.{flow_of};
ghost use Rattle.pcef_flow.specs.private.Packed.{addr_of, header_of};

use pcef_packet::{Addr, Dir, Header, Ports};

/// An address in numbers of 64 bits: one of 128 bits would have to stand at a multiple of 16 octets.
#[derive(Clone, Copy)]
pub(crate) enum FlowAddr {
    /// One of version 4.
    V4(u32),
    /// One of version 6: its first 64 bits, and the others.
    V6(u64, u64),
}

fn high_of(number: u128) -> u64
    ensures { result ≡ number / 2 ^ 64 }
{
    (number >> 64) as u64
}

fn low_of(number: u128) -> u64
    ensures { result ≡ number % 2 ^ 64 }
{
    (number & 0xffff_ffff_ffff_ffff) as u64
}

impl FlowAddr {
    fn new(addr: Addr) -> FlowAddr
        ensures { addr_of result ≡ addr }
    {
        match addr {
            Addr::V4(number) => FlowAddr::V4(number),
            Addr::V6(number) => FlowAddr::V6(high_of(number), low_of(number)),
        }
    }

    /// Whether it is this address.
    fn is(&self, addr: &Addr) -> bool
        ensures { IsTrue result → addr_of self.now ≡ addr.now }
    {
        match (self, addr) {
            (FlowAddr::V4(number), Addr::V4(other)) => *number == *other,
            (FlowAddr::V6(high, low), Addr::V6(other)) => {
                *high == high_of(*other) && *low == low_of(*other)
            }
            _ => false,
        }
    }
}

/// All that is read of a packet but its volume.
#[derive(Clone, Copy)]
pub(crate) struct Flow {
    src: FlowAddr,
    dst: FlowAddr,
    ports: Option<Ports>,
    dir: Dir,
    proto: u8,
    dscp: u8,
}

impl Flow {
    /// The flow of a packet.
    pub(crate) fn of(header: &Header) -> Flow
        ensures { header_of result ≡ flow_of header.now }
    {
        Flow {
            src: FlowAddr::new(header.src),
            dst: FlowAddr::new(header.dst),
            ports: header.ports,
            dir: header.dir,
            proto: header.proto,
            dscp: header.dscp,
        }
    }

    /// Whether a packet is of the flow. The ports are compared first, since they differ most often.
    pub(crate) fn has(&self, header: &Header) -> bool
        ensures { IsTrue result → header_of self.now ≡ flow_of header.now }
    {
        self.ports == header.ports
            && self.src.is(&header.src)
            && self.dst.is(&header.dst)
            && self.dir == header.dir
            && self.proto == header.proto
            && self.dscp == header.dscp
    }
}

/// The last bits of an address, which differ among most.
fn last_bits(addr: &Addr) -> u64 {
    match addr {
        Addr::V4(number) => u64::from(*number),
        Addr::V6(number) => low_of(*number),
    }
}

/// A number by which flows are spread over places, below 2^16. No contract speaks of it.
pub(crate) fn spread(header: &Header) -> usize {
    let ports = match header.ports {
        Some(ports) => u64::from(ports.src) << 48 | u64::from(ports.dst) << 32,
        None => 0,
    };
    let ends = last_bits(&header.src) ^ last_bits(&header.dst).rotate_left(17);
    ((ends ^ ports).wrapping_mul(0x9e37_79b9_7f4a_7c15) >> 48) as usize
}
