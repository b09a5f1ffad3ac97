//! Which headers a filter matches.

ghost use Rattle.std.specs.Prelude.{◌≡◌, ◌==◌, ◌&&◌, not};
ghost use Rattle.std.specs.List.{list_any};
ghost use Rattle.pcef_filter.specs.Matching.{applies, orientation_of, dst_port, endpoints_fit, in_ranges, matches, place_fits, ports_fit, proto_fits, src_port};

use crate::filter::{Direction, Endpoint, Filter, Flow, Place, PortRange};
use pcef_packet::{Addr, Dir, Header, Ports};

/// Whether the flow word of an `out` text asks for uplink packets.
fn asks_for_uplink(flow: Option<Flow>) -> bool
    ensures { result ≡ applies (orientation_of Direction.Out flow Dir.Up) }
{
    match flow {
        Some(Flow::Uplink | Flow::Bidirectional) => true,
        _ => false,
    }
}

/// Whether the flow word of an `out` text leaves out downlink packets.
fn leaves_downlink(flow: Option<Flow>) -> bool
    ensures { result ≡ not (applies (orientation_of Direction.Out flow Dir.Down)) }
{
    match flow {
        Some(Flow::Uplink) => true,
        _ => false,
    }
}

fn is_in_ranges(ranges: &[PortRange], port: u16) -> bool
    ensures { result ≡ in_ranges ranges.now port }
{
    ranges
        .iter()
        .any(|range| range.first <= port && port <= range.last)
}

fn ports_fit(ranges: &[PortRange], port: Option<u16>) -> bool
    ensures { result ≡ ports_fit ranges.now port }
{
    if ranges.is_empty() {
        return true;
    }
    match port {
        None => false,
        Some(port) => is_in_ranges(ranges, port),
    }
}

/// How far a protocol is from the wanted one: 0 where it fits.
fn proto_difference(wanted: Option<u8>, proto: u8) -> u8
    ensures { (result == 0) ≡ proto_fits wanted proto }
{
    match wanted {
        None => 0,
        Some(wanted) => wanted ^ proto,
    }
}

impl Place {
    fn fits(&self, ue: &Addr, addr: &Addr) -> bool
        ensures { result ≡ place_fits self.now ue.now addr.now }
    {
        match self {
            Place::Any => true,
            Place::Assigned => addr.is_assigned(*ue),
            Place::Net(net) => addr.agrees_in(net.bits, net.addr),
        }
    }
}

fn src_of(ports: Option<Ports>) -> Option<u16>
    ensures { result ≡ src_port ports }
{
    ports.map(|ports| ports.src)
}

fn dst_of(ports: Option<Ports>) -> Option<u16>
    ensures { result ≡ dst_port ports }
{
    ports.map(|ports| ports.dst)
}

/// Whether a filter doesn't apply, or has another protocol. Most filters end here, so this is one sum and one branch,
/// which a processor predicts well.
fn fails_early(applies: bool, proto_difference: u8) -> bool
    ensures { result ≡ not (applies && (proto_difference == 0)) }
{
    u32::from(!applies) + u32::from(proto_difference) != 0
}

/// Whether one endpoint fits the packet's source, and the other its destination. The addresses are tested first, since
/// few fit by them. The session's address is passed by reference: by value, its 32 octets were written to memory again
/// for each filter of a scan. Not inlined, so that the tests before it are, which most filters fail.
#[inline(never)]
fn fit(source: &Endpoint, target: &Endpoint, ue: &Addr, header: &Header) -> bool
    ensures { result ≡ endpoints_fit source.now target.now ue.now header.now }
{
    source.place.fits(ue, &header.src)
        && target.place.fits(ue, &header.dst)
        && ports_fit(&source.ports, src_of(header.ports))
        && ports_fit(&target.ports, dst_of(header.ports))
}

impl Filter {
    /// Whether the filter matches an uplink packet.
    #[inline]
    fn matches_uplink(&self, ue: &Addr, header: &Header) -> bool
        requires { header.now.dir ≡ Dir.Up }
        ensures { result ≡ matches self.now ue.now header.now }
    {
        let is_in = self.direction == Direction::In;
        let applies = is_in | asks_for_uplink(self.flow);
        if fails_early(applies, proto_difference(self.proto, header.proto)) {
            return false;
        }
        let (source, target) = if is_in {
            (&self.source, &self.target)
        } else {
            (&self.target, &self.source)
        };
        fit(source, target, ue, header)
    }

    /// Whether the filter matches a downlink packet.
    #[inline]
    fn matches_downlink(&self, ue: &Addr, header: &Header) -> bool
        requires { header.now.dir ≡ Dir.Down }
        ensures { result ≡ matches self.now ue.now header.now }
    {
        let applies = !((self.direction == Direction::In) | leaves_downlink(self.flow));
        if fails_early(applies, proto_difference(self.proto, header.proto)) {
            return false;
        }
        fit(&self.source, &self.target, ue, header)
    }

    /// Whether the filter matches a header (RFC 6733, clause 4.3.1), for a session with this address.
    pub fn matches(&self, ue: Addr, header: &Header) -> bool
        ensures { result ≡ matches self.now ue header.now }
    {
        self.matches_for(&ue, header)
    }

    /// As `matches`, with a reference to the session's address, so that callers that try many filters needn't copy it
    /// for each.
    pub fn matches_for(&self, ue: &Addr, header: &Header) -> bool
        ensures { result ≡ matches self.now ue.now header.now }
    {
        match header.dir {
            Dir::Up => self.matches_uplink(ue, header),
            Dir::Down => self.matches_downlink(ue, header),
        }
    }
}

fn any_matches_uplink(filters: &[Filter], ue: &Addr, header: &Header) -> bool
    requires { header.now.dir ≡ Dir.Up }
    ensures { result ≡ list_any (λ f. matches f ue.now header.now) filters.now }
{
    filters
        .iter()
        .any(|filter| filter.matches_uplink(ue, header))
}

fn any_matches_downlink(filters: &[Filter], ue: &Addr, header: &Header) -> bool
    requires { header.now.dir ≡ Dir.Down }
    ensures { result ≡ list_any (λ f. matches f ue.now header.now) filters.now }
{
    filters
        .iter()
        .any(|filter| filter.matches_downlink(ue, header))
}

/// Whether one of the filters matches a header.
pub fn any_matches(filters: &[Filter], ue: &Addr, header: &Header) -> bool
    ensures { result ≡ list_any (λ f. matches f ue.now header.now) filters.now }
{
    match header.dir {
        Dir::Up => any_matches_uplink(filters, ue, header),
        Dir::Down => any_matches_downlink(filters, ue, header),
    }
}
