//! What is taken of a capture, and by whom.

use pcef_packet::Addr;

/// What is taken of a capture for one session, and by whom.
#[derive(Clone, Copy)]
pub struct Plan {
    /// The session's address, of either version.
    pub ue: Addr,
    /// How many workers take packets in turn: 1 to 16.
    pub workers: u8,
    /// How many packets a worker takes before it flushes: 1 to 32.
    pub batch: u8,
    /// Whether packets that were recorded in part are padded, in place of left out.
    pub pads: bool,
}
