//! Judges a packet by the newest generation.

ghost use Rattle.std.specs.Prelude.{◌≢◌, ◌≡◌, ◌≤◌, Err, length};
ghost use Rattle.pcef_packet.specs.HeaderOf.{version};
ghost use Rattle.pcef_handle.specs.Judging.{JudgesBriefly, JudgesFront, JudgesHeader};
ghost use Rattle.pcef_handle.specs.declared.judging.JudgeRefusal.TheVariants.{TooFew};

use crate::held::{Handle, OpenSession};
use pcef_front::{FrontFault, read_front, read_plain};
use pcef_packet::{Dir, Header, PacketFault};
use pcef_world::Brief;
use thiserror::Error;

/// Why a packet isn't judged.
#[derive(Clone, Copy, Debug, PartialEq, Eq, Error)]
pub enum JudgeRefusal {
    /// The handle has no session.
    #[error("the handle has no session")]
    NoSession,
    /// The octets are no packet, whatever follows them.
    #[error("{0}")]
    NoPacket(PacketFault),
    /// The octets of the packet beyond those at hand decide what is read.
    #[error("the octets at hand are too few to read the packet")]
    TooFew,
}

impl OpenSession {
    /// Judges a packet by the newest generation.
    #[inline(always)]
    fn judge(&mut self, header: &Header) -> Brief
        ensures session { self.new ≡ self.old }
        ensures brief { JudgesHeader self.old header.now result }
    {
        self.world.judge(&self.catalog, header)
    }

    /// Judges a packet of `whole` octets that begins with `front`.
    #[inline(never)]
    fn judge_front(&mut self, dir: Dir, front: &[u8], whole: usize) -> Result<Brief, JudgeRefusal>
        ensures session { self.new ≡ self.old }
        ensures judged { JudgesFront self.old dir front.now whole result }
        ensures at_hand { whole ≤ length front.now → result ≢ Err TooFew }
        ensures enough_v4 { version front.now ≡ 4 → 64 ≤ length front.now → result ≢ Err TooFew }
    {
        match read_front(dir, front, whole) {
            Ok(header) => Ok(self.judge(&header)),
            Err(FrontFault::Packet(fault)) => Err(JudgeRefusal::NoPacket(fault)),
            Err(FrontFault::TooFew) => Err(JudgeRefusal::TooFew),
        }
    }

    /// The same, of a packet that most are like.
    #[inline(always)]
    fn judge_plain(&mut self, dir: Dir, front: &[u8], whole: usize) -> Result<Brief, JudgeRefusal>
        ensures session { self.new ≡ self.old }
        ensures judged { JudgesFront self.old dir front.now whole result }
        ensures at_hand { whole ≤ length front.now → result ≢ Err TooFew }
        ensures enough_v4 { version front.now ≡ 4 → 64 ≤ length front.now → result ≢ Err TooFew }
    {
        if whole == front.len() {
            if let Some(header) = read_plain(dir, front) {
                return Ok(self.judge(&header));
            }
        }
        self.judge_front(dir, front, whole)
    }
}

impl Handle {
    /// Judges a packet of `whole` octets by the newest generation. The packet begins with `octets`; those beyond
    /// `whole` are ignored. Nothing is counted, and no row is kept. Takes no memory. `TooFew` where two packets that
    /// begin so are read differently.
    #[inline(always)]
    pub fn judge(&mut self, dir: Dir, octets: &[u8], whole: usize) -> Result<Brief, JudgeRefusal>
        ensures judged { JudgesBriefly self.old dir octets.now whole result }
        ensures handle { self.new ≡ self.old }
        ensures at_hand { whole ≤ length octets.now → result ≢ Err TooFew }
        ensures enough_v4 { version octets.now ≡ 4 → 64 ≤ length octets.now → result ≢ Err TooFew }
    {
        match &mut self.session {
            None => Err(JudgeRefusal::NoSession),
            Some(session) => session.judge_plain(dir, octets, whole),
        }
    }
}
