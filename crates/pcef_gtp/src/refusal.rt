//! Why an IP packet has no packet of a tunnel in it.

/// Why an IP packet has no packet of a tunnel in it: the first reason that holds.
#[derive(Clone, Copy, Debug, PartialEq, Eq)]
pub enum NotTunneled {
    /// The octets don't begin with a whole packet of IPv4 or IPv6.
    NotWhole,
    /// It carries no UDP datagram to port 2152. So does one of IPv6 with another header than UDP's or a fragment's
    /// behind the fixed one.
    NotGtp,
    /// It is a fragment of a UDP datagram.
    Fragment,
    /// The message has fewer octets than its header: 8, or 12 with one of the flags E, S and PN.
    ShortHeader,
    /// Its version isn't 1, or its protocol type is that of GTP'.
    Version,
    /// It is another message than a G-PDU, as an echo, an error indication or an end marker.
    NotGpdu,
    /// The length of the datagram is below 8 octets or goes on beyond the packet, or that of the message goes on beyond
    /// the datagram.
    Length,
    /// An extension header has the length 0, or goes on beyond the message.
    Extension,
}
