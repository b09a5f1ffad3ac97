//! Text in UTF-16, which isn't read.

/// Whether the octet at a place is NUL.
fn is_nul(octets: &[u8], place: usize) -> bool {
    octets.get(place) == Some(&0)
}

/// Whether octets are a text in UTF-16, by their front: they begin with its byte order mark, or every other one of the
/// first four is NUL, as in letters and digits.
pub(crate) fn is_wide(octets: &[u8]) -> bool {
    if octets.starts_with(b"\xff\xfe") || octets.starts_with(b"\xfe\xff") {
        return true;
    }
    let first = is_nul(octets, 0);
    let second = is_nul(octets, 1);
    first != second
        && (octets.len() < 4 || (is_nul(octets, 2) == first && is_nul(octets, 3) == second))
}
