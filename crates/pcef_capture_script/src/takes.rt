//! Lines for packets.

ghost use Rattle.std.specs.Prelude.{◌≡◌, IfOk, OnErr, OnOk, codes, string_bytes};
ghost use Rattle.std.specs.Io.KnownBytes.{Appends};
ghost use Rattle.pcef_capture_file.specs.Captured.{captured};
ghost use Rattle.pcef_capture_script.specs.declared.counts.Outcome.TheVariants.{Taken};
ghost use Rattle.pcef_capture_file.specs.Directions.{direction_of_packet};
ghost use Rattle.pcef_capture_file.specs.Padding.{padded};
ghost use Rattle.pcef_capture_script.specs.Fates.{filled_fate};
ghost use Rattle.pcef_capture_script.specs.Lines.{dir_word, flush_line, take_line};
ghost use Rattle.pcef_capture_script.specs.Turns.{flush_if, lines_at, rest_flush, taken_after, WroteFate, WroteFrame, WroteFrameFront};
ghost use Rattle.pcef_base.specs.Writing.{AppendsFront};

use crate::counts::Outcome;
use crate::plan::Plan;
use crate::turn::Turn;
use pcef_base::put_all;
use pcef_capture_file::{Content, Packet, content_of, direction_of, padded};
use pcef_packet::{Addr, Dir};
use std::alloc::Global;
use std::io::{self, Write};

/// The word for a direction.
fn word(dir: Dir) -> &'static str
    ensures { result.now ≡ dir_word dir }
{
    match dir {
        Dir::Up => "up",
        Dir::Down => "down",
    }
}

/// Writes the line of a flush of a worker. An `Err` is that of the writer.
#[tactic(auto, unfolding(crate::specs::Lines::flush_line))]
pub fn write_flush_line<W: Write>(writer: &mut W, worker: u8) -> io::Result<()>
    ensures { OnOk result (
        Appends (W.contents writer.old) (W.contents writer.new) (flush_line worker)) }
{
    writeln!(writer, "{{\"do\":\"flush\",\"worker\":{worker}}}")
}

/// Writes the line of a flush, if a worker is to flush.
fn write_full<W: Write>(writer: &mut W, full: Option<u8>) -> io::Result<()>
    ensures { OnOk result (
        Appends (W.contents writer.old) (W.contents writer.new) (flush_if full)) }
{
    match full {
        Some(worker) => write_flush_line(writer, worker),
        None => Ok(()),
    }
}

/// Writes the line of a packet that a worker takes. Takes memory for the packet's text; an `Err` is that of the writer, or
/// out of memory.
#[tactic(auto, unfolding(crate::specs::Lines::take_line))]
pub fn write_take_line<W: Write>(
    alloc: Global,
    writer: &mut W,
    worker: u8,
    dir: Dir,
    octets: &[u8],
) -> io::Result<()>
    ensures { OnOk result (Appends (W.contents writer.old) (W.contents writer.new)
        (take_line worker (dir, octets.now))) }
{
    let packet = hex::encode(alloc, octets)?;
    let dir = word(dir);
    writeln!(
        writer,
        "{{\"do\":\"take\",\"worker\":{worker},\"dir\":\"{dir}\",\"packet\":\"{packet}\"}}"
    )
}

/// Writes the line of a packet, and that of a flush where it is the last of a batch.
fn write_take<W: Write>(
    alloc: Global,
    writer: &mut W,
    turn: &mut Turn,
    dir: Dir,
    octets: &[u8],
) -> io::Result<Outcome>
    ensures lines { OnOk result (Appends (W.contents writer.old) (W.contents writer.new)
        (lines_at turn.old (dir, octets.now))) }
    ensures turn { OnOk result (turn.new ≡ taken_after turn.old) }
    ensures outcome { IfOk result (λ outcome. outcome ≡ Taken) }
{
    write_take_line(alloc, writer, turn.worker, dir, octets)?;
    write_full(writer, turn.take())?;
    Ok(Outcome::Taken)
}

/// Writes the line of a packet that was recorded in part, with zeros for the rest.
fn write_padded<W: Write>(
    alloc: Global,
    writer: &mut W,
    turn: &mut Turn,
    ue: Addr,
    octets: &[u8],
) -> io::Result<Outcome>
    ensures { IfOk result (λ outcome. WroteFate turn.old turn.new
        (W.contents writer.old) (W.contents writer.new) outcome
        (filled_fate (padded octets.now) (direction_of_packet ue (padded octets.now)))) }
{
    let whole = padded(alloc, octets)?;
    match direction_of(ue, &whole) {
        Ok(Some(dir)) => write_take(alloc, writer, turn, dir, &whole),
        Ok(None) => Ok(Outcome::Neither),
        Err(_) => Ok(Outcome::Cut),
    }
}

/// Writes the lines for a frame, if it has any.
fn write_packet<W: Write>(
    alloc: Global,
    writer: &mut W,
    turn: &mut Turn,
    plan: &Plan,
    packet: &Packet<'_>,
) -> io::Result<Outcome>
    ensures { IfOk result (λ outcome.
        WroteFrame plan.now.ue plan.now.pads (captured packet.now) turn.old turn.new
        (W.contents writer.old) (W.contents writer.new) outcome) }
{
    match content_of(plan.ue, packet) {
        Content::Packet(dir, octets) => write_take(alloc, writer, turn, dir, octets),
        Content::Cut(octets) => {
            if plan.pads {
                write_padded(alloc, writer, turn, plan.ue, octets)
            } else {
                Ok(Outcome::Cut)
            }
        }
        Content::Neither => Ok(Outcome::Neither),
        Content::NotIp => Ok(Outcome::NotIp),
    }
}

/// Writes the line of a flush where packets wait.
fn write_rest<W: Write>(writer: &mut W, turn: &Turn) -> io::Result<()>
    ensures { OnOk result (
        Appends (W.contents writer.old) (W.contents writer.new) (rest_flush turn.now)) }
{
    if turn.waiting == 0 {
        Ok(())
    } else {
        write_flush_line(writer, turn.worker)
    }
}

/// Puts the lines for a frame, if it has any, or a front of them.
pub(crate) fn put_packet<W: Write>(
    alloc: Global,
    writer: &mut W,
    turn: &mut Turn,
    plan: &Plan,
    packet: &Packet<'_>,
) -> io::Result<Outcome>
    ensures lines { IfOk result (λ outcome.
        WroteFrame plan.now.ue plan.now.pads (captured packet.now) turn.old turn.new
        (W.contents writer.old) (W.contents writer.new) outcome) }
    ensures front { OnErr result (
        WroteFrameFront plan.now.ue plan.now.pads (captured packet.now) turn.old
        (W.contents writer.old) (W.contents writer.new)) }
{
    let mut lines = Vec::new(alloc);
    let outcome = write_packet(alloc, &mut lines, turn, plan, packet)?;
    put_all(writer, lines.as_slice())?;
    Ok(outcome)
}

/// Puts the line of a flush where packets wait, or a front of it.
pub(crate) fn put_rest<W: Write>(alloc: Global, writer: &mut W, turn: &Turn) -> io::Result<()>
    ensures lines { OnOk result (
        Appends (W.contents writer.old) (W.contents writer.new) (rest_flush turn.now)) }
    ensures front { OnErr result (
        AppendsFront (W.contents writer.old) (W.contents writer.new) (rest_flush turn.now)) }
{
    let mut line = Vec::new(alloc);
    write_rest(&mut line, turn)?;
    put_all(writer, line.as_slice())
}
