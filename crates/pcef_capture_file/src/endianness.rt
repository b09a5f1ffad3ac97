//! Numbers of several octets.

ghost use Rattle.std.specs.Prelude.{◌≡◌, ◌+◌, ◌≤◌, length};
ghost use Rattle.pcef_capture_file.specs.Numbers.{number_by};

use byteorder::{BigEndian, ByteOrder, LittleEndian};

/// The order in which the octets of a number stand.
#[derive(Clone, Copy, Debug, PartialEq, Eq)]
pub enum Endianness {
    /// The highest octet comes first.
    Big,
    /// The lowest octet comes first.
    Little,
}

impl Endianness {
    /// The number in two octets from a place on.
    pub(crate) fn number_in_2(self, octets: &[u8], place: usize) -> u16
        requires { place + 2 ≤ length octets.now }
        ensures { result ≡ number_by self octets.now place 2 }
    {
        match self {
            Endianness::Big => BigEndian::read_u16(&octets[place..]),
            Endianness::Little => LittleEndian::read_u16(&octets[place..]),
        }
    }

    /// The number in four octets from a place on.
    pub(crate) fn number_in_4(self, octets: &[u8], place: usize) -> u32
        requires { place + 4 ≤ length octets.now }
        ensures { result ≡ number_by self octets.now place 4 }
    {
        match self {
            Endianness::Big => BigEndian::read_u32(&octets[place..]),
            Endianness::Little => LittleEndian::read_u32(&octets[place..]),
        }
    }

    /// The number in eight octets from a place on.
    pub(crate) fn number_in_8(self, octets: &[u8], place: usize) -> u64
        requires { place + 8 ≤ length octets.now }
        ensures { result ≡ number_by self octets.now place 8 }
    {
        match self {
            Endianness::Big => BigEndian::read_u64(&octets[place..]),
            Endianness::Little => LittleEndian::read_u64(&octets[place..]),
        }
    }
}
