//! Numbers of several octets, the highest octet first.

ghost use Rattle.std.specs.Prelude.{◌≡◌, ◌+◌, ◌≤◌, length};
ghost use Rattle.pcef_diameter.specs.Numbers.{unsigned32_of, unsigned64_of, word_at};

/// The number in the four octets at a place. The caller sees that they are there. Takes no memory.
pub fn word_at(octets: &[u8], place: usize) -> u32
    requires { place + 4 ≤ length octets.now }
    ensures { result ≡ word_at octets.now place }
{
    let word = octets.split_at(place).1.split_at(4).0;
    u32::from_be_bytes([word[0], word[1], word[2], word[3]])
}

/// The number that data of type Unsigned32 are (RFC 6733, clause 4.2); `None` where they haven't four octets. An
/// Enumerated or an Integer32 has the same bits. Takes no memory.
pub fn read_unsigned32(data: &[u8]) -> Option<u32>
    ensures { result ≡ unsigned32_of «data».now }
{
    match data {
        [a, b, c, d] => Some(u32::from_be_bytes([*a, *b, *c, *d])),
        _ => None,
    }
}

/// The number that data of type Unsigned64 are (RFC 6733, clause 4.2); `None` where they haven't eight octets. An
/// Integer64 has the same bits. Takes no memory.
pub fn read_unsigned64(data: &[u8]) -> Option<u64>
    ensures { result ≡ unsigned64_of «data».now }
{
    match data {
        [a, b, c, d, e, f, g, h] => Some(u64::from_be_bytes([*a, *b, *c, *d, *e, *f, *g, *h])),
        _ => None,
    }
}
