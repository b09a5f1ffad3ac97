//! Whether two rules are equal.

ghost use Rattle.std.specs.Prelude.{◌≡◌, ◌↔◌, IsTrue};

use crate::rule::{Properties, Rule};
use arrayvec::ArrayVec;
use pcef_filter::{Endpoint, Filter, PortRange};

fn are_equal_ports(a: &ArrayVec<PortRange, 8>, b: &ArrayVec<PortRange, 8>) -> bool
    ensures { IsTrue result ↔ (a.now ≡ b.now) }
{
    *a == *b
}

fn are_equal_endpoints(a: &Endpoint, b: &Endpoint) -> bool
    ensures { IsTrue result ↔ (a.now ≡ b.now) }
{
    a.place == b.place && are_equal_ports(&a.ports, &b.ports)
}

fn is_equal_filter(a: &Filter, b: &Filter) -> bool
    ensures { IsTrue result ↔ (a.now ≡ b.now) }
{
    a.direction == b.direction
        && a.flow == b.flow
        && a.proto == b.proto
        && are_equal_endpoints(&a.source, &b.source)
        && are_equal_endpoints(&a.target, &b.target)
}

fn are_equal_filters(a: &[Filter], b: &[Filter]) -> bool
    ensures { IsTrue result ↔ (a.now ≡ b.now) }
{
    if a.len() != b.len() {
        return false;
    }
    for place in 0..a.len() {
        if !is_equal_filter(&a[place], &b[place]) {
            return false;
        }
    }
    true
}

fn are_equal_properties(a: &Properties, b: &Properties) -> bool
    ensures { IsTrue result ↔ (a.now ≡ b.now) }
{
    a.name == b.name
        && a.precedence == b.precedence
        && a.qos == b.qos
        && a.rates == b.rates
        && a.gate == b.gate
        && a.key == b.key
}

impl Rule {
    /// Whether two rules have equal properties and filters.
    pub fn is_equal(&self, other: &Rule) -> bool
        ensures { IsTrue result ↔ (self.now ≡ other.now) }
    {
        are_equal_properties(self.properties(), other.properties())
            && are_equal_filters(self.filters(), other.filters())
    }
}
