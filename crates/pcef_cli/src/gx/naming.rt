//! Whose a line is.

use std::str;

/// What is answered to a line without a right name.
const BAD_NAME: &[u8] = b"{\"fault\":1,\"name\":\"BadName\"}";

/// What is answered to a line for a session that there isn't.
pub(crate) const NO_SESSION: &[u8] = b"{\"name\":\"NoSession\",\"refused\":0}";

/// Whether a line has spaces, tabs and CR alone: it asks for nothing.
pub(crate) fn is_blank(line: &[u8]) -> bool {
    line.iter()
        .all(|octet| matches!(*octet, b' ' | b'\t' | b'\r'))
}

/// The number that digits write, without a zero in front.
fn number_of(name: &[u8]) -> Option<usize> {
    match name.first() {
        Some(b'1'..=b'9') => str::from_utf8(name).ok()?.parse::<usize>().ok(),
        _ => None,
    }
}

/// The place of the session among `count` whose number stands in front of a line and a space, and the line behind them;
/// or what is answered.
pub(crate) fn named(line: &[u8], count: usize) -> Result<(usize, &[u8]), &'static [u8]> {
    let Some(space) = line.iter().position(|octet| *octet == b' ') else {
        return Err(BAD_NAME);
    };
    let (name, behind) = line.split_at(space);
    match number_of(name) {
        Some(number) if number > count => Err(NO_SESSION),
        Some(number) => Ok((number.saturating_sub(1), behind.split_at(1).1)),
        None => Err(BAD_NAME),
    }
}
