//! The places of a filter text: addresses and networks.

ghost use Rattle.std.specs.Prelude.{◌≡◌};
ghost use Rattle.pcef_filter.specs.ReadingClasses.{bits_in, net_in, place_in};

use crate::decimal::{MOST_DIGITS, number_of};
use crate::filter::{Net, Place};
use crate::pieces::cut;
use pcef_packet::Addr;

/// How many bits of addresses of this width count.
#[tactic(auto, unfolding(crate::specs::ReadingClasses::bits_in))]
fn bits_of(width: u8, piece: &[u8]) -> Option<u8>
    ensures { result ≡ bits_in width piece.now }
{
    let bits = number_of(piece, MOST_DIGITS)?;
    if bits > u32::from(width) {
        return None;
    }
    Some(bits as u8)
}

/// A network, or one address, all of whose bits count.
#[tactic(auto, unfolding(crate::specs::ReadingClasses::net_in))]
fn net_of(token: &[u8]) -> Option<Net>
    ensures { result ≡ net_in token.now }
{
    let (front, left) = cut(token, b'/');
    let Some(left) = left else {
        let addr = Addr::from_text(front)?;
        return Some(Net {
            addr,
            bits: addr.width(),
        });
    };
    let (back, left) = cut(left, b'/');
    if left.is_some() {
        return None;
    }
    let addr = Addr::from_text(front)?;
    let bits = bits_of(addr.width(), back)?;
    Some(Net { addr, bits })
}

/// The addresses of one side.
#[tactic(auto, unfolding(crate::specs::ReadingClasses::place_in))]
pub(crate) fn place_of(token: &[u8]) -> Option<Place>
    ensures { result ≡ place_in token.now }
{
    if token == b"any".as_slice() {
        return Some(Place::Any);
    }
    if token == b"assigned".as_slice() {
        return Some(Place::Assigned);
    }
    let net = net_of(token)?;
    Some(Place::Net(net))
}
