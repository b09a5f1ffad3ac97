//! Packet rows.

ghost use Rattle.std.specs.Prelude.{◌≡◌};

use crate::verdict::Verdict;
use pcef_packet::Header;

/// A packet that a worker judged. The header stands first, so that no octets between the fields are copied with it.
#[derive(Debug, PartialEq, Eq, Drop)]
pub struct Row {
    /// The packet's header.
    pub header: Header,
    /// What the generation decided.
    pub verdict: Verdict,
    /// How many rows the worker had before.
    pub seq: u64,
    /// The generation that judged the packet.
    pub generation: u32,
    /// The worker.
    pub worker: u8,
}

impl Row {
    /// A copy. Takes no memory.
    pub fn copy(&self) -> Row
        ensures { result ≡ self.now }
    {
        Row {
            worker: self.worker,
            seq: self.seq,
            generation: self.generation,
            header: self.header,
            verdict: self.verdict.copy(),
        }
    }
}
