//! The outcomes of packets.

ghost use Rattle.std.specs.Prelude.{◌≡◌};
ghost use Rattle.pcef_capture_script.specs.Counting.{with_counted};

/// The outcome of a frame.
#[derive(Clone, Copy)]
pub enum Outcome {
    /// Its packet has a line.
    Taken,
    /// It has no packet of IPv4 or IPv6, or one whose header is wrong.
    NotIp,
    /// It was recorded in part, and its packet is left out.
    Cut,
    /// The session is on neither side of its packet.
    Neither,
}

/// How many frames had each outcome. The counts stop at 2 ^ 64 - 1.
#[derive(Clone, Copy, Default)]
pub struct Counts {
    /// All that were read.
    pub read: u64,
    /// Those of [`Outcome::Taken`].
    pub taken: u64,
    /// Those of [`Outcome::NotIp`].
    pub not_ip: u64,
    /// Those of [`Outcome::Cut`].
    pub cut: u64,
    /// Those of [`Outcome::Neither`].
    pub neither: u64,
}

impl Counts {
    /// Counts one frame more.
    pub fn count(&mut self, outcome: Outcome)
        ensures { self.new ≡ with_counted outcome self.old }
    {
        self.read = self.read.saturating_add(1);
        match outcome {
            Outcome::Taken => self.taken = self.taken.saturating_add(1),
            Outcome::NotIp => self.not_ip = self.not_ip.saturating_add(1),
            Outcome::Cut => self.cut = self.cut.saturating_add(1),
            Outcome::Neither => self.neither = self.neither.saturating_add(1),
        }
    }
}
