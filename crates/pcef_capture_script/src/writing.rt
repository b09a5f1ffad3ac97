//! Lines for a capture, written as it is read.

ghost use Rattle.std.specs.Prelude.{◌≡◌, ◌≤◌, [], ◌∷◌, ◌++◌, IfErr, IfOk, List, OnErr, OnOk, Option, drop, length, option_map, ℕ};
ghost use Rattle.pcef_capture_file.specs.Captured.{Captured, captured};
ghost use Rattle.pcef_capture_file.specs.PcapNg.{packets_among};
ghost use Rattle.pcef_capture_file.specs.Streams.{StandsBehind};
ghost use Rattle.std.specs.Io.KnownBytes.{Appends, Consumes};
ghost use Rattle.pcef_capture_script.specs.Progress.{FailsInFront, FailsToRead, IsWrittenAfter, IsWriteEnd, Paused, Reached, ReadsFront, ReadsMore, WroteLinesFront, rota_of};
ghost use Rattle.pcef_capture_script.specs.Scripts.{Rota};
ghost use Rattle.pcef_capture_script.specs.Streams.{WritesCapture};
ghost use Rattle.pcef_capture_script.specs.Turns.{WroteSoFar, rest_flush};
ghost use Rattle.pcef_base.specs.Writing.{AppendsFront};
ghost use Rattle.pcef_capture_script.specs.Writing.{WritesScriptFront};

use crate::counts::Counts;
use crate::end::End;
use crate::plan::Plan;
use crate::takes::{put_packet, put_rest};
use crate::turn::Turn;
use pcef_capture_file::{CaptureFault, CaptureStream, Packet, Stop};
use std::alloc::{AllocError, Global};
use std::io::{self, ErrorKind, Read, Write};

/// How many octets are read at a time.
const BLOCK_LEN: usize = 8192;

/// How many octets it takes to know a capture's format, and whether a classic file's header is at fault.
const FRONT_LEN: usize = 24;

/// What was written so far.
#[derive(Clone, Copy)]
pub(crate) struct Written {
    /// Whose turn it is.
    pub turn: Turn,
    /// What became of the frames.
    pub counts: Counts,
}

/// The end of the program where the writer fails, or memory runs out while lines are made.
fn write_end(error: io::Error) -> End
    ensures { IsWriteEnd result }
{
    match error.kind() {
        ErrorKind::OutOfMemory => End::NoMemory,
        _ => End::Write(error),
    }
}

/// Puts the lines for a frame, if there is one, and counts it.
fn put_frame<W: Write>(
    alloc: Global,
    plan: &Plan,
    written: &mut Written,
    packet: Option<Packet<'_>>,
    writer: &mut W,
) -> io::Result<()>
    ensures lines { (frames : List Captured) (start : Option (List ℕ)) (rota : Rota)
        → WroteSoFar plan.now.ue plan.now.pads rota frames start (W.contents writer.old)
        written.old.turn written.old.counts
        → OnOk result (WroteSoFar plan.now.ue plan.now.pads rota
        (frames ++ packets_among (option_map captured packet.entry ∷ [])) start
        (W.contents writer.new) written.new.turn written.new.counts) }
    ensures front { (frames rest : List Captured) (start : Option (List ℕ)) (rota : Rota)
        → WroteSoFar plan.now.ue plan.now.pads rota frames start (W.contents writer.old)
        written.old.turn written.old.counts
        → OnErr result (WritesScriptFront plan.now.ue plan.now.pads rota
        (frames ++ (packets_among (option_map captured packet.entry ∷ []) ++ rest)) start
        (W.contents writer.new)) }
{
    match packet {
        Some(packet) => {
            let outcome = put_packet(alloc, writer, &mut written.turn, plan, &packet)?;
            written.counts.count(outcome);
            Ok(())
        }
        None => Ok(()),
    }
}

/// Puts the lines for all whole records or blocks at the front of the octets at hand. Returns the octets behind them,
/// and why nothing more is read of these.
fn put_whole<'a, W: Write>(
    alloc: Global,
    plan: &Plan,
    stream: &mut CaptureStream,
    written: &mut Written,
    octets: &'a [u8],
    writer: &mut W,
) -> io::Result<(&'a [u8], Stop)>
    ensures lines { (start : Option (List ℕ)) (rota : Rota) (input : List ℕ)
        → IsWrittenAfter plan.now.ue plan.now.pads rota start (W.contents writer.old) written.old
        stream.old octets.entry.now input
        → IfOk result (λ found. Paused plan.now.ue plan.now.pads rota start
        (W.contents writer.new) written.new stream.new found.1 found.0.now input) }
    ensures front { (start : Option (List ℕ)) (rota : Rota) (input : List ℕ)
        → IsWrittenAfter plan.now.ue plan.now.pads rota start (W.contents writer.old) written.old
        stream.old octets.entry.now input
        → OnErr result (WroteLinesFront plan.now.ue plan.now.pads rota start
        (W.contents writer.new) input) }
    ensures behind { IfOk result (λ found. StandsBehind octets.entry.now found.0.now) }
{
    let mut rest = octets;
    loop {
        match stream.step(rest) {
            Ok((packet, others)) => {
                put_frame(alloc, plan, written, packet, writer)?;
                rest = others;
            }
            Err(stop) => return Ok((rest, stop)),
        }
    }
}

/// Drops `taken` octets at the front. Takes memory for the others.
pub fn forget(octets: &mut Vec<u8>, taken: usize) -> Result<(), AllocError>
    requires { taken ≤ length octets.old.items }
    ensures { OnOk result (octets.new.items ≡ drop taken octets.old.items) }
{
    if taken > 0 {
        *octets = octets.split_off(taken)?;
    }
    Ok(())
}

/// Puts the lines for all whole records or blocks at hand and flushes the writer. Keeps the octets behind them, and
/// returns why nothing more is read of these.
fn put_waiting<W: Write>(
    alloc: Global,
    plan: &Plan,
    stream: &mut CaptureStream,
    written: &mut Written,
    waiting: &mut Vec<u8>,
    writer: &mut W,
) -> Result<Stop, End>
    ensures lines { (start : Option (List ℕ)) (rota : Rota) (input : List ℕ)
        → IsWrittenAfter plan.now.ue plan.now.pads rota start (W.contents writer.old) written.old
        stream.old waiting.old.items input
        → IfOk result (λ stop. Paused plan.now.ue plan.now.pads rota start
        (W.contents writer.new) written.new stream.new stop waiting.new.items input) }
    ensures front { (start : Option (List ℕ)) (rota : Rota) (input : List ℕ)
        → IsWrittenAfter plan.now.ue plan.now.pads rota start (W.contents writer.old) written.old
        stream.old waiting.old.items input
        → OnErr result (WroteLinesFront plan.now.ue plan.now.pads rota start
        (W.contents writer.new) input) }
    ensures end { IfErr result (λ end. IsWriteEnd end) }
{
    let octets = waiting.as_slice();
    let len = octets.len();
    let (kept, stop) = match put_whole(alloc, plan, stream, written, octets, writer) {
        Ok((rest, stop)) => (rest.len(), stop),
        Err(error) => return Err(write_end(error)),
    };
    if let Err(error) = writer.flush() {
        return Err(write_end(error));
    }
    match forget(waiting, len.saturating_sub(kept)) {
        Ok(()) => Ok(stop),
        Err(_) => Err(End::NoMemory),
    }
}

/// Reads some octets behind those that wait, and returns their number: 0 at the end of the input. Takes memory for them.
pub fn read_more<R: Read>(reader: &mut R, waiting: &mut Vec<u8>) -> Result<usize, End>
    ensures more { ReadsMore result (R.remaining reader.old) (R.remaining reader.new)
        waiting.old.items waiting.new.items }
    ensures end { IfErr result (λ end.
        FailsToRead end (R.remaining reader.old) (R.remaining reader.new)) }
{
    let mut block = [0u8; BLOCK_LEN];
    match reader.read(&mut block) {
        Ok(n) => match waiting.extend_from_slice(&block[..n]) {
            Ok(()) => Ok(n),
            Err(_) => Err(End::NoMemory),
        },
        Err(error) => match error.kind() {
            ErrorKind::OutOfMemory => Err(End::NoMemory),
            _ => Err(End::Read(error)),
        },
    }
}

/// Reads octets until enough wait to know the format and a header's fault, or the input ends. Takes memory for them.
pub fn read_front<R: Read>(reader: &mut R, waiting: &mut Vec<u8>) -> Result<(), End>
    requires { waiting.old.items ≡ [] }
    ensures front { OnOk result
        (ReadsFront (R.remaining reader.old) (R.remaining reader.new) waiting.new.items) }
    ensures end { IfErr result (λ end.
        FailsInFront end (R.remaining reader.old) (R.remaining reader.new)) }
{
    while waiting.len() < FRONT_LEN {
        if read_more(reader, waiting)? == 0 {
            return Ok(());
        }
    }
    Ok(())
}

/// Puts the line of a flush where packets wait. Returns the counts, and the fault.
fn finish<W: Write>(
    alloc: Global,
    written: &Written,
    fault: Option<CaptureFault>,
    writer: &mut W,
) -> Result<(Counts, Option<CaptureFault>), End>
    ensures lines { IfOk result (λ ended. (ended ≡ (written.now.counts, fault)) × Appends
        (W.contents writer.old) (W.contents writer.new) (rest_flush written.now.turn)) }
    ensures front { IfErr result (λ end. IsWriteEnd end × AppendsFront
        (W.contents writer.old) (W.contents writer.new) (rest_flush written.now.turn)) }
{
    match put_rest(alloc, writer, &written.turn) {
        Ok(()) => Ok((written.counts, fault)),
        Err(error) => Err(write_end(error)),
    }
}

/// Writes the lines for a capture from these octets on, up to its end or its fault.
fn write_rest<R: Read, W: Write>(
    alloc: Global,
    plan: &Plan,
    stream: &mut CaptureStream,
    waiting: &mut Vec<u8>,
    reader: &mut R,
    writer: &mut W,
) -> Result<(Counts, Option<CaptureFault>), End>
    ensures { (before : Option (List ℕ)) (input : List ℕ)
        → Consumes before (R.remaining reader.old) input
        → Reached input [] stream.old waiting.old.items
        → WritesCapture plan.now.ue plan.now.pads (rota_of plan.now) result before
        (R.remaining reader.new) (W.contents writer.old) (W.contents writer.new) }
{
    let mut written = Written {
        turn: Turn::first(plan.workers, plan.batch),
        counts: Counts::default(),
    };
    for _ in 0..u64::MAX {
        match put_waiting(alloc, plan, stream, &mut written, waiting, writer)? {
            Stop::Waits(fault) => {
                if read_more(reader, waiting)? == 0 {
                    return finish(alloc, &written, fault, writer);
                }
            }
            Stop::Fault(fault) => return finish(alloc, &written, Some(fault), writer),
            Stop::NoMemory => return Err(End::NoMemory),
        }
    }
    Err(End::NoMemory)
}

/// A capture whose front was read.
#[derive(Drop)]
struct Opened {
    /// What is known of the frames that follow.
    stream: CaptureStream,
    /// How many octets its front takes.
    taken: usize,
}

/// Drops the octets that were taken, and writes the lines for the capture from those behind them on.
fn write_behind<R: Read, W: Write>(
    alloc: Global,
    plan: &Plan,
    opened: Opened,
    waiting: &mut Vec<u8>,
    reader: &mut R,
    writer: &mut W,
) -> Result<(Counts, Option<CaptureFault>), End>
    requires { opened.taken ≤ length waiting.old.items }
    ensures { (before : Option (List ℕ)) (input : List ℕ)
        → Consumes before (R.remaining reader.old) input
        → Reached input [] opened.stream (drop opened.taken waiting.old.items)
        → WritesCapture plan.now.ue plan.now.pads (rota_of plan.now) result before
        (R.remaining reader.new) (W.contents writer.old) (W.contents writer.new) }
{
    let Opened { mut stream, taken } = opened;
    match forget(waiting, taken) {
        Ok(()) => write_rest(alloc, plan, &mut stream, waiting, reader, writer),
        Err(_) => Err(End::NoMemory),
    }
}

/// Writes the lines for a capture while it is read: a `take` line for each packet with the session's address on one
/// side, workers in turn, a `flush` line after each batch, and one at the end where packets wait. Before more is read,
/// the lines of all whole frames are written and the writer is flushed. Returns the counts, and the fault up to which
/// the capture was read, or none at its end.
///
/// An `Err` is `Capture`, where the header of a classic file is at fault and nothing is written; the reader's error; or
/// the writer's error or out of memory, where a front of the lines is written. After 2 ^ 64 - 1 reads, which never
/// happen, it would be `NoMemory`.
///
/// `waiting` takes memory for the octets that were read and have no lines yet: those of the record or the block that
/// isn't whole, at most 16,777,216, and the 8,192 that are read at once. At a fault they begin where it is. The
/// interfaces of a pcapng section take memory, too.
pub fn write_capture<R: Read, W: Write>(
    alloc: Global,
    plan: &Plan,
    waiting: &mut Vec<u8>,
    reader: &mut R,
    writer: &mut W,
) -> Result<(Counts, Option<CaptureFault>), End>
    requires { waiting.old.items ≡ [] }
    ensures { WritesCapture plan.now.ue plan.now.pads (rota_of plan.now) result
        (R.remaining reader.old) (R.remaining reader.new)
        (W.contents writer.old) (W.contents writer.new) }
{
    read_front(reader, waiting)?;
    let octets = waiting.as_slice();
    let len = octets.len();
    match CaptureStream::open(alloc, octets) {
        Ok((stream, rest)) => {
            let taken = len.saturating_sub(rest.len());
            let opened = Opened { stream, taken };
            write_behind(alloc, plan, opened, waiting, reader, writer)
        }
        Err(fault) => Err(End::Capture(fault)),
    }
}
