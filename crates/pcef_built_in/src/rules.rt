//! The rules (own choice). The program makes closures of them in its `main`; these call the functions of this module.

ghost use Rattle.std.specs.Prelude.{◌≡◌, None};
ghost use Rattle.pcef_catalog.specs.Shapes.{port_between, remote_port, shape_holds};
ghost use Rattle.pcef_rule.specs.Name.{IsName};
ghost use Rattle.pcef_rule.specs.Priority.{IsLevel};
ghost use Rattle.pcef_rule.specs.declared.gate.Gate.TheVariants as gate;
ghost use Rattle.pcef_built_in.specs.BuiltIn.{dns_properties, dns_shape, expedited_properties, expedited_shape, qos_of, remaining_properties, remaining_shape};

use arrayvec::ArrayVec;
use pcef_catalog::{Alternative, Shape, Test};
use pcef_packet::{Dir, Header};
use pcef_rule::{Arp, Gate, KeyName, Properties, Qci, Qos, RuleName};

/// The pair of a QCI and of an ARP that can't pre-empt.
fn qos(qci: u8, level: u8, vulnerability: bool) -> Qos
    requires { IsLevel level }
    ensures { result ≡ qos_of qci level vulnerability }
{
    Qos {
        qci: Qci(qci),
        arp: Arp::known(level, false, vulnerability),
    }
}

fn properties(name: &str, precedence: u32, qos: Qos, key: Option<KeyName>) -> Properties
    requires { IsName name.now }
    ensures { result ≡ record {
      name = name.now;
      precedence = precedence;
      qos = qos;
      rates = None;
      gate = gate.Enabled;
      key = key;
    } }
{
    Properties {
        name: RuleName::known(name),
        precedence,
        qos,
        rates: None,
        gate: Gate::Enabled,
        key,
    }
}

/// The properties of the rule for DNS.
pub fn dns_properties() -> Properties
    ensures { result ≡ dns_properties }
{
    properties("pre-dns", 50, qos(9, 8, true), Some(KeyName::known("dns")))
}

/// The properties of the rule for expedited forwarding.
pub fn expedited_properties() -> Properties
    ensures { result ≡ expedited_properties }
{
    properties("pre-ef", 200, qos(5, 4, false), None)
}

/// The properties of the rule for all packets.
pub fn remaining_properties() -> Properties
    ensures { result ≡ remaining_properties }
{
    properties("pre-rest", 4_294_967_295, qos(9, 8, true), None)
}

/// DNS over UDP or TCP: the remote port is 53.
pub fn dns_shape() -> Shape
    ensures { result ≡ dns_shape }
{
    let mut udp = Alternative::default();
    udp.tests.push(Test::Proto(17));
    udp.tests.push(Test::RemotePort(53, 53));
    let mut tcp = Alternative::default();
    tcp.tests.push(Test::Proto(6));
    tcp.tests.push(Test::RemotePort(53, 53));
    let mut alternatives = ArrayVec::new();
    alternatives.push(udp);
    alternatives.push(tcp);
    Shape::new(alternatives)
}

/// Expedited forwarding (RFC 3246): the DSCP is 46.
pub fn expedited_shape() -> Shape
    ensures { result ≡ expedited_shape }
{
    let mut expedited = Alternative::default();
    expedited.tests.push(Test::Dscp(46));
    let mut alternatives = ArrayVec::new();
    alternatives.push(expedited);
    Shape::new(alternatives)
}

/// All packets: an alternative without tests.
pub fn remaining_shape() -> Shape
    ensures { result ≡ remaining_shape }
{
    let mut alternatives = ArrayVec::new();
    alternatives.push(Alternative::default());
    Shape::new(alternatives)
}

/// Whether there are ports and the remote one is 53.
fn is_remote_dns(header: &Header) -> bool
    ensures { result ≡ port_between (remote_port header.now.dir) header.now.ports 53 53 }
{
    match header.ports {
        None => false,
        Some(ports) => match header.dir {
            Dir::Up => ports.dst == 53,
            Dir::Down => ports.src == 53,
        },
    }
}

/// Whether a packet is DNS over UDP or TCP.
pub fn is_dns(header: &Header) -> bool
    ensures { result ≡ shape_holds dns_shape header.now }
{
    (header.proto == 17 || header.proto == 6) && is_remote_dns(header)
}

/// Whether a packet asks for expedited forwarding.
pub fn is_expedited(header: &Header) -> bool
    ensures { result ≡ shape_holds expedited_shape header.now }
{
    header.dscp == 46
}

/// Whether a packet is any packet.
pub fn is_remaining(_header: &Header) -> bool
    ensures { result ≡ shape_holds remaining_shape _header.now }
{
    true
}
