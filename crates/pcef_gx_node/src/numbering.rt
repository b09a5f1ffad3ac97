//! The identifiers of requests.

ghost use Rattle.std.specs.Prelude.{◌≡◌};
ghost use Rattle.pcef_gx_node.specs.Numberings.{after, identifiers, start_of};

use pcef_gx_peer::Identifiers;

/// The identifiers of the requests of a node: both count up from one start.
#[derive(Clone, Copy, Debug, PartialEq, Eq)]
pub struct Numbering {
    /// The next number.
    pub next: u32,
}

impl Numbering {
    /// It starts where the low 12 bits of the time, in seconds since 1970, stand in front of 20 bits of zero: so the
    /// numbers of a node that starts again are others (RFC 6733, clause 3, where the 20 bits are random). Takes no memory.
    pub fn at(seconds: u64) -> Numbering
        ensures { result.next ≡ start_of seconds }
    {
        Numbering {
            next: ((seconds & 0xfff) << 20) as u32,
        }
    }

    /// The identifiers of the next request. Takes no memory.
    pub fn identifiers(&mut self) -> Identifiers
        ensures result { result ≡ identifiers self.old.next }
        ensures after { self.new.next ≡ after self.old.next }
    {
        let number = self.next;
        self.next = number.wrapping_add(1);
        Identifiers {
            hop_by_hop: number,
            end_to_end: number,
        }
    }
}
