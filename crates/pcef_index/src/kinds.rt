//! Kinds of packets, each with a sieve of its own: by direction, version, and TCP, UDP or another protocol.

ghost use Rattle.std.specs.Prelude.{◌≡◌, ℕ, List, IfOk, true};
ghost use Rattle.pcef_catalog.specs.declared.listing.Offer.{Offer};
ghost use Rattle.pcef_filter.specs.Matching.{matches, orientation_of, applies, place_fits, proto_fits};
ghost use Rattle.pcef_packet.specs.declared.header.Addr.{Addr};
ghost use Rattle.pcef_packet.specs.declared.header.Header.{Header};
ghost use Rattle.pcef_index.specs.private.Kinds.{class_of, kind_of, version_of};
ghost use Rattle.pcef_index.specs.private.Lines.{line_fits};
ghost use Rattle.pcef_index.specs.private.Sieves.{KeepsFirst};

use crate::lines::{Line, Part};
use crate::sides::{Side, addr_on, end_on};
use pcef_filter::{Direction, Filter, Flow, Place};
use pcef_packet::{Addr, Dir, Header};
use std::alloc::{AllocError, Global};

/// A version of IP.
#[derive(Clone, Copy, Debug, PartialEq, Eq)]
pub(crate) enum Version {
    /// Version 4.
    V4,
    /// Version 6.
    V6,
}

/// A class of protocols.
#[derive(Clone, Copy, Debug, PartialEq, Eq)]
pub(crate) enum Class {
    /// TCP.
    Tcp,
    /// UDP.
    Udp,
    /// The other protocols.
    Other,
}

/// A kind of packets.
#[derive(Clone, Copy, Debug, PartialEq, Eq)]
pub(crate) struct Kind {
    /// The direction.
    pub dir: Dir,
    /// The version of the remote address.
    pub version: Version,
    /// The protocol's class.
    pub class: Class,
}

/// The version of an address.
pub(crate) fn version_of(addr: Addr) -> Version
    ensures { result ≡ version_of addr }
{
    match addr {
        Addr::V4(_) => Version::V4,
        Addr::V6(_) => Version::V6,
    }
}

/// The class of a protocol.
fn class_of(proto: u8) -> Class
    ensures { result ≡ class_of proto }
{
    match proto {
        6 => Class::Tcp,
        17 => Class::Udp,
        _ => Class::Other,
    }
}

/// The kind of a packet.
#[inline(always)]
pub(crate) fn kind_of(header: &Header) -> Kind
    ensures { result ≡ kind_of header.now }
{
    Kind {
        dir: header.dir,
        version: version_of(addr_on(Side::Remote, header)),
        class: class_of(header.proto),
    }
}

/// Whether a filter may match packets of a direction.
fn goes(filter: &Filter, dir: Dir) -> bool
    ensures { applies (orientation_of filter.now.direction filter.now.flow dir) ≡ true → result ≡ true }
{
    match (filter.direction, filter.flow) {
        (Direction::In, _) => dir == Dir::Up,
        (Direction::Out, None | Some(Flow::Downlink)) => dir == Dir::Down,
        (Direction::Out, Some(Flow::Uplink)) => dir == Dir::Up,
        (Direction::Out, Some(Flow::Bidirectional)) => true,
    }
}

/// Whether a place may have addresses of a version.
fn is_of_version(place: &Place, version: Version) -> bool
    ensures { (ue addr : Addr) → place_fits place.now ue addr ≡ true → version_of addr ≡ version
        → result ≡ true }
{
    match place {
        Place::Any | Place::Assigned => true,
        Place::Net(net) => version_of(net.addr) == version,
    }
}

/// Whether a filter may match packets of a class.
fn is_of_class(wanted: Option<u8>, class: Class) -> bool
    ensures { (proto : ℕ) → proto_fits wanted proto ≡ true → class_of proto ≡ class → result ≡ true }
{
    match wanted {
        None => true,
        Some(wanted) => class_of(wanted) == class,
    }
}

/// Whether a filter may match packets of a kind.
fn may_match(filter: &Filter, kind: Kind) -> bool
    ensures { (ue : Addr) (header : Header) → kind_of header ≡ kind → matches filter.now ue header ≡ true
        → result ≡ true }
{
    goes(filter, kind.dir)
        && is_of_class(filter.proto, kind.class)
        && is_of_version(&end_on(Side::Remote, filter).place, kind.version)
}

/// Whether a line may fit packets of a kind.
fn may_fit(line: &Line, kind: Kind) -> bool
    ensures { (offers : List Offer) (ue : Addr) (header : Header) → kind_of header ≡ kind
        → line_fits offers ue header line.now ≡ true → result ≡ true }
{
    match &line.part {
        Part::Filter(filter) => may_match(filter.get(), kind),
        Part::Offer(_) => true,
    }
}

/// The numbers of the lines that may fit packets of a kind, in order.
pub(crate) fn numbers_of(
    alloc: Global,
    lines: &[Line],
    kind: Kind,
) -> Result<Vec<usize>, AllocError>
    ensures { IfOk result (λ v. KeepsFirst lines.now v.items kind) }
{
    let mut numbers = Vec::new(alloc);
    for number in 0..lines.len() {
        if may_fit(&lines[number], kind) {
            numbers.push(number)?;
        }
    }
    numbers.shrink_to_fit();
    Ok(numbers)
}
