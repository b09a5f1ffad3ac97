//! What a frame says.

ghost use Rattle.std.specs.Prelude.{◌≡◌, ◌≤◌, ◌∷◌, Err, IfErr, IfNone, IfOk, IfSome, Ok};
ghost use Rattle.pcef_sessions.specs.Frames.{any_line, flush_fields, flushed, line_of_kind, meaning, named, take_fields, taken, taken_to};
ghost use Rattle.pcef_sessions.specs.declared.frame_fault.FrameFault.TheVariants.{ShortFrame};
ghost use Rattle.pcef_sessions.specs.private.FrameLines.{IsFrame, IsRight, line_of};

use crate::frame_fault::FrameFault;
use crate::name::{SessionName, name_of};
use crate::running::has_feed;
use pcef_packet::Dir;
use pcef_script::is_blank;

/// The highest number of a worker.
const LAST_WORKER: u8 = 15;

/// The most octets of a packet in a frame: a header of version 6, and the longest payload behind it.
const MOST_PACKET: usize = 65_575;

/// What a frame says to the session of its name.
#[derive(Clone, Copy)]
pub(crate) enum Frame<'a> {
    /// Any line, as it stands behind the name.
    Line(&'a [u8]),
    /// A packet for a worker.
    Take {
        /// The worker: 0 to 15.
        worker: u8,
        /// Which way the packet goes.
        dir: Dir,
        /// The packet: up to 65,575 octets.
        packet: &'a [u8],
    },
    /// A worker hands its rows over.
    Flush {
        /// The worker: 0 to 15.
        worker: u8,
    },
}

fn line(octets: &[u8]) -> Result<Frame<'_>, FrameFault>
    ensures ok { IfOk result (λ f. IsRight f × (any_line octets.now ≡ Ok (line_of f))) }
    ensures err { IfErr result (λ e. any_line octets.now ≡ Err e) }
{
    if has_feed(octets) || is_blank(octets) {
        return Err(FrameFault::BadLine);
    }
    Ok(Frame::Line(octets))
}

fn take_to(worker: u8, dir: Dir, packet: &[u8]) -> Result<Frame<'_>, FrameFault>
    requires { worker ≤ 15 }
    ensures ok { IfOk result (λ f. IsRight f × (taken_to worker dir packet.now ≡ Ok (line_of f))) }
    ensures err { IfErr result (λ e. taken_to worker dir packet.now ≡ Err e) }
{
    if packet.len() > MOST_PACKET {
        return Err(FrameFault::LongFrame);
    }
    Ok(Frame::Take {
        worker,
        dir,
        packet,
    })
}

fn take(worker: u8, direction: u8, packet: &[u8]) -> Result<Frame<'_>, FrameFault>
    ensures ok { IfOk result (λ f. IsRight f × (taken worker direction packet.now ≡ Ok (line_of f))) }
    ensures err { IfErr result (λ e. taken worker direction packet.now ≡ Err e) }
{
    if worker > LAST_WORKER {
        return Err(FrameFault::BadWorker);
    }
    match direction {
        0 => take_to(worker, Dir::Up, packet),
        1 => take_to(worker, Dir::Down, packet),
        _ => Err(FrameFault::BadDirection),
    }
}

fn take_fields(fields: &[u8]) -> Result<Frame<'_>, FrameFault>
    ensures ok { IfOk result (λ f. IsRight f × (take_fields fields.now ≡ Ok (line_of f))) }
    ensures err { IfErr result (λ e. take_fields fields.now ≡ Err e) }
{
    match fields {
        [worker, direction, packet @ ..] => take(*worker, *direction, packet),
        _ => Err(FrameFault::ShortFrame),
    }
}

fn flush(worker: u8) -> Result<Frame<'static>, FrameFault>
    ensures ok { IfOk result (λ f. IsRight f × (flushed worker ≡ Ok (line_of f))) }
    ensures err { IfErr result (λ e. flushed worker ≡ Err e) }
{
    if worker > LAST_WORKER {
        return Err(FrameFault::BadWorker);
    }
    Ok(Frame::Flush { worker })
}

fn flush_fields(fields: &[u8]) -> Result<Frame<'static>, FrameFault>
    ensures ok { IfOk result (λ f. IsRight f × (flush_fields fields.now ≡ Ok (line_of f))) }
    ensures err { IfErr result (λ e. flush_fields fields.now ≡ Err e) }
{
    match fields {
        [] => Err(FrameFault::ShortFrame),
        [worker] => flush(*worker),
        _ => Err(FrameFault::LongFrame),
    }
}

/// What a frame of this kind says.
fn of_kind(kind: u8, fields: &[u8]) -> Result<Frame<'_>, FrameFault>
    ensures ok { IfOk result (λ f. IsRight f × (line_of_kind kind fields.now ≡ Ok (line_of f))) }
    ensures err { IfErr result (λ e. line_of_kind kind fields.now ≡ Err e) }
{
    match kind {
        0 => line(fields),
        1 => take_fields(fields),
        2 => flush_fields(fields),
        _ => Err(FrameFault::UnknownKind),
    }
}

/// The name that begins a frame, its kind, and the fields behind it.
pub(crate) fn parts(frame: &[u8]) -> Option<(&[u8], u8, &[u8])>
    ensures some { IfSome result (λ p. meaning frame.now ≡ named p.0.now (p.1 ∷ p.2.now)) }
    ensures none { IfNone result (meaning frame.now ≡ Err ShortFrame) }
{
    let (length, rest) = frame.split_first()?;
    let (name, rest) = rest.split_at_checked(usize::from(*length))?;
    let (kind, fields) = rest.split_first()?;
    Some((name, *kind, fields))
}

/// The session that a frame is for, and what it says to it, or the frame's first fault.
pub(crate) fn read_frame(frame: &[u8]) -> Result<(SessionName, Frame<'_>), FrameFault>
    ensures ok { IfOk result (λ p. IsFrame frame.now p.0 p.1) }
    ensures err { IfErr result (λ e. meaning frame.now ≡ Err e) }
{
    let Some((name, kind, fields)) = parts(frame) else {
        return Err(FrameFault::ShortFrame);
    };
    let Some(name) = name_of(name) else {
        return Err(FrameFault::BadName);
    };
    match of_kind(kind, fields) {
        Ok(frame) => Ok((name, frame)),
        Err(fault) => Err(fault),
    }
}
