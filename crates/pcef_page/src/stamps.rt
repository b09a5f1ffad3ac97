//! The times of packets.

use crate::Stamp;
use crate::sheet::Sheet;

/// The last packet up to the line of this number, of packets in the order of their lines.
pub(crate) fn last_up_to(stamps: &[Stamp], line: u64) -> Option<&Stamp> {
    let later = stamps.partition_point(|stamp| stamp.line <= line);
    stamps.get(later.checked_sub(1)?)
}

/// The packet of the line of this number.
pub(crate) fn stamp_at(stamps: &[Stamp], line: u64) -> Option<&Stamp> {
    match last_up_to(stamps, line) {
        Some(stamp) if stamp.line == line => Some(stamp),
        _ => None,
    }
}

/// The nanoseconds of a second.
const SECOND: u64 = 1_000_000_000;

/// Writes seconds with nine digits behind the point.
pub(crate) fn push_time(text: &mut Sheet, nanoseconds: u64) {
    text.number(nanoseconds / SECOND);
    text.raw(".");
    let mut unit = SECOND;
    for _ in 0..9 {
        unit /= 10;
        text.number(nanoseconds / unit.max(1) % 10);
    }
}
