//! The port lists of a filter text.

ghost use Rattle.std.specs.Prelude.{◌≡◌};
ghost use Rattle.pcef_filter.specs.ReadingClasses.{port_in, ports_in, range_in};

use crate::decimal::{MOST_DIGITS, number_of};
use crate::filter::PortRange;
use crate::pieces::cut;
use arrayvec::ArrayVec;

/// A port.
#[tactic(auto, unfolding(crate::specs::ReadingClasses::port_in))]
fn port_of(piece: &[u8]) -> Option<u16>
    ensures { result ≡ port_in piece.now }
{
    let port = number_of(piece, MOST_DIGITS)?;
    if port > 65535 {
        return None;
    }
    Some(port as u16)
}

/// A range of ports, or one port.
#[tactic(auto, unfolding(crate::specs::ReadingClasses::range_in))]
fn range_of(piece: &[u8]) -> Option<PortRange>
    ensures { result ≡ range_in piece.now }
{
    let (front, left) = cut(piece, b'-');
    let Some(left) = left else {
        let port = port_of(front)?;
        return Some(PortRange {
            first: port,
            last: port,
        });
    };
    let (back, left) = cut(left, b'-');
    if left.is_some() {
        return None;
    }
    let first = port_of(front)?;
    let last = port_of(back)?;
    if first <= last {
        Some(PortRange { first, last })
    } else {
        None
    }
}

/// The ports of one side.
#[tactic(auto, unfolding(crate::specs::ReadingClasses::ports_in))]
pub(crate) fn ports_of(token: &[u8]) -> Option<ArrayVec<PortRange, 8>>
    ensures { result ≡ ports_in token.now }
{
    let mut ranges = ArrayVec::new();
    let mut left = Some(token);
    while let Some(list) = left {
        let (piece, rest) = cut(list, b',');
        let Some(range) = range_of(piece) else {
            return None;
        };
        if ranges.is_full() {
            return None;
        }
        ranges.push(range);
        left = rest;
    }
    Some(ranges)
}
