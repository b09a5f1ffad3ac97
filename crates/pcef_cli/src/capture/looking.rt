//! What the octets of an IP packet have for the sessions.

use crate::capture::counts::Outcome;
use crate::capture::sessions::Sessions;
use pcef_capture_script::Packets;
use pcef_gtp::{NotTunneled, tunneled_of};
use pcef_packet::{Dir, Header, PacketFault, read_header};

/// The sessions of a packet, by their numbers.
#[derive(Clone, Copy)]
pub(crate) struct Sides {
    /// The session that it comes from: it goes up.
    pub from: Option<usize>,
    /// The session that it goes to, if that is another one: it goes down.
    pub to: Option<usize>,
}

/// What the octets of an IP packet have for the sessions.
#[derive(Clone, Copy)]
pub(crate) enum Look<'a> {
    /// A packet of one or two sessions.
    Packet(Sides, &'a [u8]),
    /// No whole packet, which may come of a short recording.
    NotWhole,
    /// Nothing that is taken.
    Nothing(Outcome),
}

/// The sessions of a packet.
fn sides_of(sessions: &Sessions, header: &Header) -> Sides {
    let from = sessions.number_of(header.src);
    let to = sessions.number_of(header.dst);
    Sides {
        from,
        to: if to == from { None } else { to },
    }
}

/// What a packet is for the sessions.
fn look_at<'a>(sessions: &Sessions, octets: &'a [u8]) -> Look<'a> {
    match read_header(Dir::Up, octets) {
        Ok(header) => match sides_of(sessions, &header) {
            Sides {
                from: None,
                to: None,
            } => Look::Nothing(Outcome::Neither),
            sides => Look::Packet(sides, octets),
        },
        Err(PacketFault::Version) => Look::Nothing(Outcome::NotIp),
        Err(_) => Look::NotWhole,
    }
}

/// What the packet in a tunnel is for the sessions: that of any tunnel, or of one alone.
fn look_in_tunnel<'a>(sessions: &Sessions, teid: Option<u32>, octets: &'a [u8]) -> Look<'a> {
    match tunneled_of(octets) {
        Ok(tunneled) if teid.is_some_and(|teid| teid != tunneled.teid) => {
            Look::Nothing(Outcome::OtherTunnel)
        }
        Ok(tunneled) => look_at(sessions, tunneled.packet),
        Err(NotTunneled::NotWhole) => Look::NotWhole,
        Err(reason) => Look::Nothing(Outcome::NotTunneled(reason)),
    }
}

/// What the octets of an IP packet have for the sessions.
pub(crate) fn look_into<'a>(sessions: &Sessions, packets: Packets, octets: &'a [u8]) -> Look<'a> {
    match packets {
        Packets::OfFrames => look_at(sessions, octets),
        Packets::OfTunnels => look_in_tunnel(sessions, None, octets),
        Packets::OfTunnel(teid) => look_in_tunnel(sessions, Some(teid), octets),
    }
}
