//! What became of the frames.

use pcef_gtp::NotTunneled;

/// What became of a frame.
#[derive(Clone, Copy)]
pub(crate) enum Outcome {
    /// Its packet has a line, or two.
    Taken,
    /// It has no packet of IPv4 or IPv6, or one whose header is wrong.
    NotIp,
    /// It was recorded in part, and its packet is left out.
    Cut,
    /// No session is on either side of its packet.
    Neither,
    /// It has no packet of a tunnel.
    NotTunneled(NotTunneled),
    /// Its packet is that of another tunnel.
    OtherTunnel,
}

/// How many frames had no packet of a tunnel, by the reason.
#[derive(Clone, Copy, Default)]
pub(crate) struct TunnelCounts {
    pub not_gtp: u64,
    pub fragments: u64,
    pub not_gpdu: u64,
    pub other_tunnel: u64,
    pub short_header: u64,
    pub version: u64,
    pub length: u64,
    pub extension: u64,
}

/// How many frames had each outcome. The counts stop at 2 ^ 64 - 1.
#[derive(Clone, Copy, Default)]
pub(crate) struct Counts {
    pub read: u64,
    pub taken: u64,
    pub not_ip: u64,
    pub cut: u64,
    pub neither: u64,
    pub tunnels: TunnelCounts,
}

fn count(one: &mut u64) {
    *one = one.saturating_add(1);
}

impl TunnelCounts {
    /// The count for a reason. Octets that are no whole packet are never counted here.
    fn count_of(&mut self, reason: NotTunneled) -> &mut u64 {
        match reason {
            NotTunneled::NotWhole | NotTunneled::NotGtp => &mut self.not_gtp,
            NotTunneled::Fragment => &mut self.fragments,
            NotTunneled::ShortHeader => &mut self.short_header,
            NotTunneled::Version => &mut self.version,
            NotTunneled::NotGpdu => &mut self.not_gpdu,
            NotTunneled::Length => &mut self.length,
            NotTunneled::Extension => &mut self.extension,
        }
    }
}

impl Counts {
    /// Counts one frame more.
    pub(crate) fn count(&mut self, outcome: Outcome) {
        count(&mut self.read);
        match outcome {
            Outcome::Taken => count(&mut self.taken),
            Outcome::NotIp => count(&mut self.not_ip),
            Outcome::Cut => count(&mut self.cut),
            Outcome::Neither => count(&mut self.neither),
            Outcome::NotTunneled(reason) => count(self.tunnels.count_of(reason)),
            Outcome::OtherTunnel => count(&mut self.tunnels.other_tunnel),
        }
    }
}
