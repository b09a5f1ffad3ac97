//! The fields of lines that are numbers, and the ends of their ranges.

ghost use Rattle.std.specs.Prelude.{◌≡◌, ◌≤◌, ◌-◌, IfSome, List, true};
ghost use Rattle.pcef_catalog.specs.declared.listing.Offer.{Offer};
ghost use Rattle.pcef_packet.specs.Addresses.{width_of};
ghost use Rattle.pcef_packet.specs.declared.header.Addr.{Addr};
ghost use Rattle.pcef_packet.specs.declared.header.Header.{Header};
ghost use Rattle.pcef_index.specs.private.Lines.{line_fits};
ghost use Rattle.pcef_index.specs.private.Sides.{proto_number};

use crate::ends::Ends;
use crate::lines::{Line, Part};
use crate::sides::{Side, end_on, proto_number};
use pcef_filter::{Net, Place, PortRange};

/// A field that is a number.
#[derive(Clone, Copy)]
pub(crate) enum Field {
    /// The port of a side.
    Port(Side),
    /// The protocol.
    Proto,
    /// None: no line looks at it.
    Nothing,
}

/// The network of a line on a side, where it has one and may not let all addresses of its session pass.
pub(crate) fn net_on(side: Side, line: &Line) -> Option<Net> {
    match &line.part {
        Part::Filter(filter) if side == Side::Local && filter.is_open() => None,
        Part::Filter(filter) => match end_on(side, filter.get()).place {
            Place::Net(net) => Some(net),
            Place::Any | Place::Assigned => None,
        },
        Part::Offer(_) => None,
    }
}

/// How many low bits of an address a network leaves open.
pub(crate) fn loose_bits(net: Net) -> u8
    ensures { result ≡ width_of net.addr - net.bits }
{
    net.addr.width().saturating_sub(net.bits)
}

/// The ranges of a line's ports on a side.
pub(crate) fn ranges_on(side: Side, line: &Line) -> &[PortRange] {
    match &line.part {
        Part::Filter(filter) => &end_on(side, filter.get()).ports,
        Part::Offer(_) => &[],
    }
}

/// The protocol of a line as a range of numbers, where it looks at it.
pub(crate) fn proto_of(line: &Line) -> Option<PortRange>
    ensures { (offers : List Offer) (ue : Addr) (h : Header) → line_fits offers ue h line.now ≡ true
        → IfSome result (λ r. (r.first ≤ proto_number h.proto) × (proto_number h.proto ≤ r.last)) }
{
    match &line.part {
        Part::Filter(filter) => match filter.get().proto {
            None => None,
            Some(proto) => {
                let first = proto_number(proto);
                Some(PortRange {
                    first,
                    last: first + 255,
                })
            }
        },
        Part::Offer(_) => None,
    }
}

/// Adds the ends of what a line lets pass of a field.
pub(crate) fn add_ends(ends: &mut Ends, field: Field, line: &Line) {
    match field {
        Field::Port(side) => ends.add_ranges(ranges_on(side, line)),
        Field::Proto => {
            if let Some(range) = proto_of(line) {
                ends.add_ranges(&[range]);
            }
        }
        Field::Nothing => (),
    }
}
