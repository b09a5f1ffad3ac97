//! The headers that frames begin with.

ghost use Rattle.std.specs.Prelude.{◌≡◌};
ghost use Rattle.pcef_capture_file.specs.Links.{link_of};

/// The header that the frames of an interface begin with.
#[derive(Clone, Copy, Debug, PartialEq, Eq)]
pub enum Link {
    /// The protocol family in four octets, in the order of the machine that recorded.
    Null,
    /// Ethernet: two addresses, at most two VLAN tags, and the type.
    Ethernet,
    /// Nothing: the packet itself.
    Raw,
    /// The protocol family in four octets, the highest first.
    Loop,
    /// The first Linux cooked header, of 16 octets.
    LinuxCooked,
    /// The second Linux cooked header, of 20 octets.
    LinuxCooked2,
}

impl Link {
    /// The link of a number in the registry of link types, or none where this crate can't read it.
    /// Raw packets have five numbers: 12, 14, 101, 228 and 229. Takes no memory.
    pub fn of_number(number: u32) -> Option<Link>
        ensures { result ≡ link_of number }
    {
        match number {
            0 => Some(Link::Null),
            1 => Some(Link::Ethernet),
            12 | 14 | 101 | 228 | 229 => Some(Link::Raw),
            108 => Some(Link::Loop),
            113 => Some(Link::LinuxCooked),
            276 => Some(Link::LinuxCooked2),
            _ => None,
        }
    }
}
