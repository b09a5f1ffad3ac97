//! Shapes: what a predefined rule detects.

ghost use Rattle.std.specs.Prelude.{◌≡◌, ◌≤◌, length, map};
ghost use Rattle.std.specs.List.{list_all, list_any};
ghost use Rattle.pcef_packet.specs.Addresses.{remote_side};
ghost use Rattle.pcef_catalog.specs.Shapes.{local_port, port_between, remote_port, shape_holds, shape_ignores_volume, test_holds, test_ignores_volume};

use arrayvec::ArrayVec;
use pcef_filter::Net;
use pcef_packet::{Addr, Dir, Header, Ports};
use std::marker::Model;

/// One test of a header. The local side is the user equipment's, the remote side the other one.
#[derive(Clone, Copy, Debug, PartialEq, Eq)]
pub enum Test {
    /// The protocol is this one.
    Proto(u8),
    /// The DSCP is this one.
    Dscp(u8),
    /// There are ports, and the remote one lies between these, both included.
    RemotePort(u16, u16),
    /// There are ports, and the local one lies between these, both included.
    LocalPort(u16, u16),
    /// The remote address is of this network.
    RemoteIn(Net),
    /// The volume is at most this many octets.
    OctetsAtMost(u16),
    /// The packet goes in this direction.
    Going(Dir),
}

impl Default for Test {
    ghost use Rattle.std.specs.Prelude.{◌≡◌};

    fn default() -> Self
        ensures { result ≡ Test.Proto 0 }
    {
        Test::Proto(0)
    }
}

/// Tests that must all be true. With none, the alternative is always true.
#[derive(Debug, Default, Drop)]
pub struct Alternative {
    /// The tests, at most 8.
    pub tests: ArrayVec<Test, 8>,
}

impl Alternative {
    /// A copy. Takes no memory.
    fn copy(&self) -> Alternative
        ensures { result ≡ self.now }
    {
        Alternative {
            tests: copy_tests(&self.tests),
        }
    }
}

/// At most 8 alternatives. The shape holds where one of them is true; with none it never holds.
#[derive(Debug)]
pub struct Shape {
    alternatives: ArrayVec<Alternative, 8>,
}

// Written out, so that an owner proves one call on each return path.
impl Drop for Shape {
    fn drop(self) {
        let Shape { alternatives: _ } = self;
    }
}

impl Model for Shape {
    ghost use Rattle.std.specs.Prelude.{List, map};
    ghost use Rattle.pcef_catalog.specs.declared.shape.Test.{Test};

    ghost Value = { List (List Test) };

    ghost view = { λ s. map (λ a. a.tests.items) s.alternatives.items };
}

impl Shape {
    /// The shape of these alternatives.
    pub fn new(alternatives: ArrayVec<Alternative, 8>) -> Shape
        ensures { result ≡ map (λ a. a.tests.items) alternatives.items }
    {
        Shape { alternatives }
    }

    /// A copy. Takes no memory.
    pub fn copy(&self) -> Shape
        ensures { result ≡ self.now }
    {
        Shape {
            alternatives: copy_alternatives(&self.alternatives),
        }
    }

    /// Whether all tests of some alternative are true of a header.
    pub fn holds(&self, header: &Header) -> bool
        ensures { result ≡ shape_holds self.now header.now }
    {
        any_holds(self.alternatives.as_slice(), header)
    }

    /// Whether no test looks at the volume of a packet. Such a shape holds for all packets of a flow that have one code
    /// point, or for none of them.
    pub fn ignores_volume(&self) -> bool
        ensures { result ≡ shape_ignores_volume self.now }
    {
        all_ignore_volume(self.alternatives.as_slice())
    }
}

fn copy_tests(tests: &[Test]) -> ArrayVec<Test, 8>
    requires { length tests.now ≤ 8 }
    ensures { result.items ≡ tests.now }
{
    let mut copy = ArrayVec::new();
    for test in tests {
        copy.push(*test);
    }
    copy
}

fn copy_alternatives(alternatives: &[Alternative]) -> ArrayVec<Alternative, 8>
    requires { length alternatives.now ≤ 8 }
    ensures { result.items ≡ alternatives.now }
{
    let mut copy = ArrayVec::new();
    for alternative in alternatives {
        copy.push(alternative.copy());
    }
    copy
}

fn any_holds(alternatives: &[Alternative], header: &Header) -> bool
    ensures { result
        ≡ list_any (λ a. list_all (test_holds header.now) a.tests.items) alternatives.now }
{
    alternatives.iter().any(|a| all_hold(&a.tests, header))
}

fn all_hold(tests: &[Test], header: &Header) -> bool
    ensures { result ≡ list_all (test_holds header.now) tests.now }
{
    tests.iter().all(|test| test.holds(header))
}

fn all_ignore_volume(alternatives: &[Alternative]) -> bool
    ensures { result
        ≡ list_all (λ a. list_all test_ignores_volume a.tests.items) alternatives.now }
{
    alternatives.iter().all(|a| ignore_volume(&a.tests))
}

fn ignore_volume(tests: &[Test]) -> bool
    ensures { result ≡ list_all test_ignores_volume tests.now }
{
    tests.iter().all(|test| test.ignores_volume())
}

fn remote_addr(header: &Header) -> Addr
    ensures { result ≡ remote_side header.now }
{
    match header.dir {
        Dir::Up => header.dst,
        Dir::Down => header.src,
    }
}

fn is_remote_between(dir: Dir, ports: Option<Ports>, low: u16, high: u16) -> bool
    ensures { result ≡ port_between (remote_port dir) ports low high }
{
    match ports {
        None => false,
        Some(ports) => match dir {
            Dir::Up => low <= ports.dst && ports.dst <= high,
            Dir::Down => low <= ports.src && ports.src <= high,
        },
    }
}

fn is_local_between(dir: Dir, ports: Option<Ports>, low: u16, high: u16) -> bool
    ensures { result ≡ port_between (local_port dir) ports low high }
{
    match ports {
        None => false,
        Some(ports) => match dir {
            Dir::Up => low <= ports.src && ports.src <= high,
            Dir::Down => low <= ports.dst && ports.dst <= high,
        },
    }
}

impl Test {
    /// Whether the test is true of a header.
    pub fn holds(&self, header: &Header) -> bool
        ensures { result ≡ test_holds header.now self.now }
    {
        match self {
            Test::Proto(proto) => header.proto == *proto,
            Test::Dscp(point) => header.dscp == *point,
            Test::RemotePort(low, high) => is_remote_between(header.dir, header.ports, *low, *high),
            Test::LocalPort(low, high) => is_local_between(header.dir, header.ports, *low, *high),
            Test::RemoteIn(net) => remote_addr(header).agrees_in(net.bits, net.addr),
            Test::OctetsAtMost(most) => header.octets <= u32::from(*most),
            Test::Going(dir) => header.dir == *dir,
        }
    }

    /// Whether the test doesn't look at the volume of a packet, which differs among the packets of a flow.
    pub fn ignores_volume(&self) -> bool
        ensures { result ≡ test_ignores_volume self.now }
    {
        !matches!(self, Test::OctetsAtMost(_))
    }
}
