//! Numbers that distinguish most lists of rules. No contract speaks of them.

use pcef_filter::{Endpoint, Filter, Place};
use pcef_packet::Addr;
use pcef_table::Source;

/// Mixes a number into others.
fn mix(others: u64, number: u64) -> u64 {
    let product = (others ^ number).wrapping_mul(0x9e37_79b9_7f4a_7c15);
    product ^ (product >> 29)
}

fn with_addr(others: u64, addr: Addr) -> u64 {
    match addr {
        Addr::V4(number) => mix(others, u64::from(number)),
        Addr::V6(number) => {
            let low = (number & 0xffff_ffff_ffff_ffff) as u64;
            mix(mix(others, (number >> 64) as u64), low)
        }
    }
}

/// Mixes the place and the first ports into others.
fn with_endpoint(others: u64, endpoint: &Endpoint) -> u64 {
    let others = match endpoint.place {
        Place::Any => mix(others, 1),
        Place::Assigned => mix(others, 2),
        Place::Net(net) => mix(with_addr(others, net.addr), u64::from(net.bits)),
    };
    match endpoint.ports.first() {
        Some(range) => mix(others, u64::from(range.first) << 16 | u64::from(range.last)),
        None => others,
    }
}

fn with_filter(others: u64, filter: &Filter) -> u64 {
    let others = match filter.proto {
        Some(number) => mix(others, u64::from(number)),
        None => others,
    };
    with_endpoint(with_endpoint(others, &filter.source), &filter.target)
}

fn with_filters(others: u64, filters: &[Filter]) -> u64 {
    let mut all = others;
    for filter in filters {
        all = with_filter(all, filter);
    }
    all
}

fn with_source(others: u64, source: &Source) -> u64 {
    match source {
        Source::Dynamic(rule) => {
            let precedence = u64::from(rule.properties().precedence);
            with_filters(mix(others, precedence), rule.filters())
        }
        Source::Predefined(index) => mix(others, u64::from(*index)),
    }
}

/// A number that depends on the rules alone, among others on their filters' protocols, addresses and first ports.
pub(crate) fn fingerprint(sources: &[Source]) -> u64 {
    let mut all = 0;
    for source in sources {
        all = with_source(all, source);
    }
    all
}
