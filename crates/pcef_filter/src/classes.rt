//! The values of single tokens. A reader returns `None` for a token that isn't of its class.

ghost use Rattle.std.specs.Prelude.{◌≡◌};
ghost use Rattle.pcef_filter.specs.Tokens.{begins_with_digit};
ghost use Rattle.pcef_filter.specs.ReadingClasses.{direction_in, is_clash, proto_in};

use crate::decimal::{MOST_DIGITS, number_of};
use crate::filter::{Direction, Flow};

/// Whether a token is read as a port list: no other token behind a place begins with a digit.
#[tactic(auto, unfolding(crate::specs::Tokens::begins_with_digit))]
pub(crate) fn starts_with_digit(token: &[u8]) -> bool
    ensures { result ≡ begins_with_digit token.now }
{
    match token {
        [] => false,
        [octet, ..] => octet.is_ascii_digit(),
    }
}

/// The direction word.
#[tactic(auto, unfolding(crate::specs::ReadingClasses::direction_in))]
pub(crate) fn direction_of(token: &[u8]) -> Option<Direction>
    ensures { result ≡ direction_in token.now }
{
    if token == b"in".as_slice() {
        return Some(Direction::In);
    }
    if token == b"out".as_slice() {
        return Some(Direction::Out);
    }
    None
}

/// The protocol, which is none for every protocol.
#[tactic(auto, unfolding(crate::specs::ReadingClasses::proto_in))]
pub(crate) fn proto_of(token: &[u8]) -> Option<Option<u8>>
    ensures { result ≡ proto_in token.now }
{
    if token == b"ip".as_slice() {
        return Some(None);
    }
    let proto = number_of(token, MOST_DIGITS)?;
    if proto > 255 {
        return None;
    }
    Some(Some(proto as u8))
}

/// Whether a flow word is given that may not stand beside a text of this direction.
pub(crate) fn clashes(direction: Direction, flow: Option<Flow>) -> bool
    ensures { result ≡ is_clash direction flow }
{
    match direction {
        Direction::In => flow.is_some(),
        Direction::Out => false,
    }
}
