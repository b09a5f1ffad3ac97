//! The session that a line is for.

ghost use Rattle.std.specs.Prelude.{◌≡◌, Some, None, if◌then◌else◌};
ghost use Rattle.std.specs.Option.{option_map};
ghost use Rattle.pcef_sessions.specs.Addressed.{addressed, at_space, is_session_name};

use memchr::memchr;
use pcef_rule::Name;
use pcef_script::is_blank;
use std::str;

/// Marks the name of a session.
#[derive(Clone, Copy, Debug, PartialEq, Eq)]
pub struct OfSession;

/// The name of a session: 1 to 64 octets from 0x21 to 0x7E. A session isn't named [`NO_NAME`].
pub type SessionName = Name<OfSession>;

/// What stands before an answer that has no name.
pub(crate) const NO_NAME: &str = "-";

/// The session's name that octets are.
pub(crate) fn name_of(octets: &[u8]) -> Option<SessionName>
    ensures { result ≡ (if is_session_name octets.now then Some octets.now else None) }
{
    if octets == NO_NAME.as_bytes() {
        return None;
    }
    let Ok(text) = str::from_utf8(octets) else {
        return None;
    };
    match Name::new(text) {
        Ok(name) => Some(name),
        Err(_) => None,
    }
}

/// A line at its first space: what stands before it, and what behind it.
pub(crate) fn at_space(line: &[u8]) -> Option<(&[u8], &[u8])>
    ensures { option_map (λ p. (p.0.now, p.1.now)) result ≡ at_space line.now }
{
    match memchr(b' ', line) {
        Some(place) => Some((line.split_at(place).0, line.split_at(place + 1).1)),
        None => None,
    }
}

/// The name of the session that a line is for, and the line that the session gets, if there are both.
pub(crate) fn split_name(line: &[u8]) -> Option<(SessionName, &[u8])>
    ensures { option_map (λ p. (p.0, p.1.now)) result ≡ addressed line.now }
{
    let (front, rest) = at_space(line)?;
    let name = name_of(front)?;
    if is_blank(rest) {
        return None;
    }
    Some((name, rest))
}
