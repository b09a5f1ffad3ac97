//! The two sides of filters and of packets: the remote one, and the user equipment's.

ghost use Rattle.std.specs.Prelude.{◌≡◌};
ghost use Rattle.pcef_index.specs.private.Sides.{addr_on, end_on, port_in, port_on, proto_number};

use pcef_filter::{Direction, Endpoint, Filter};
use pcef_packet::{Addr, Dir, Header, Ports};

/// A side of a filter or a packet.
#[derive(Clone, Copy, Debug, PartialEq, Eq)]
pub(crate) enum Side {
    /// The remote side.
    Remote,
    /// The user equipment's side.
    Local,
}

/// The end of a filter on a side, whatever the direction of a packet.
pub(crate) fn end_on(side: Side, filter: &Filter) -> &Endpoint
    ensures { result.now ≡ end_on side filter.now }
{
    match (side, filter.direction) {
        (Side::Remote, Direction::In) | (Side::Local, Direction::Out) => &filter.target,
        (Side::Remote, Direction::Out) | (Side::Local, Direction::In) => &filter.source,
    }
}

/// The address of a packet on a side.
#[inline(always)]
pub(crate) fn addr_on(side: Side, header: &Header) -> Addr
    ensures { result ≡ addr_on side header.now }
{
    match (side, header.dir) {
        (Side::Remote, Dir::Up) | (Side::Local, Dir::Down) => header.dst,
        (Side::Remote, Dir::Down) | (Side::Local, Dir::Up) => header.src,
    }
}

fn port_in(side: Side, dir: Dir, ports: Ports) -> u16
    ensures { result ≡ port_in side dir ports }
{
    match (side, dir) {
        (Side::Remote, Dir::Up) | (Side::Local, Dir::Down) => ports.dst,
        (Side::Remote, Dir::Down) | (Side::Local, Dir::Up) => ports.src,
    }
}

/// A protocol as a number that is looked up as ports are. It is the high octet, so few intervals are compared.
#[inline(always)]
pub(crate) fn proto_number(proto: u8) -> u16
    ensures { result ≡ proto_number proto }
{
    u16::from(proto) * 256
}

/// The port of a packet on a side, where it has ports.
#[inline(always)]
pub(crate) fn port_on(side: Side, header: &Header) -> Option<u16>
    ensures { result ≡ port_on side header.now }
{
    match header.ports {
        None => None,
        Some(ports) => Some(port_in(side, header.dir, ports)),
    }
}
