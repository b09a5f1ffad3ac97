//! The messages of a stream.

ghost use Rattle.std.specs.Prelude.{◌≡◌};
ghost use Rattle.pcef_gx_peer.specs.Fronts.{IsAtFront, front_of};

use pcef_diameter::{HEADER_LEN, word_at};

/// The most octets of a message that is taken from a stream: an own choice, for a Message Length goes up to 16,777,215.
pub const MAX_LEN: usize = 65_536;

/// What a stream begins with.
#[derive(Clone, Copy, Debug, PartialEq, Eq)]
pub enum Front {
    /// A whole message, of so many octets: 20 to 65,536.
    Whole(usize),
    /// A part of a message: more has to come.
    More,
    /// No message that is taken. Where the next one begins can't be told, so the stream is to be closed.
    Lost,
}

/// What a stream begins with, of which these octets came so far (RFC 6733, clause 3). It is lost where the version
/// isn't 1, which the first octet tells, or where the Message Length, in octets 1 to 3, is below 20, no multiple of
/// four, or above 65,536. Takes no memory.
#[tactic(auto, unfolding(crate::specs::Fronts::front_of))]
pub fn front_of(octets: &[u8]) -> Front
    ensures exact { result ≡ front_of octets.now }
    ensures room { IsAtFront octets.now result }
{
    let Some(version) = octets.first() else {
        return Front::More;
    };
    if *version != 1 {
        return Front::Lost;
    }
    if octets.len() < 4 {
        return Front::More;
    }
    let len = (word_at(octets, 0) & 0xff_ffff) as usize;
    if len < HEADER_LEN || len % 4 != 0 || MAX_LEN < len {
        return Front::Lost;
    }
    if octets.len() < len {
        return Front::More;
    }
    Front::Whole(len)
}
