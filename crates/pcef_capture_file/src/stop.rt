//! Why the reading of a capture stops.

use crate::fault::CaptureFault;

/// Why nothing more is read of the octets at hand.
#[derive(Clone, Copy)]
pub enum Stop {
    /// They are all read, or end within a record or a block: more octets are wanted. If none follow, the capture ends
    /// with this fault, or without one.
    Waits(Option<CaptureFault>),
    /// What stands here is at fault, whatever follows.
    Fault(CaptureFault),
    /// There is no memory left.
    NoMemory,
}
