//! A capture that is read, and written for sessions.

ghost use Rattle.std.specs.Prelude.{◌≡◌, []};

use crate::capture::stopped::Stopped;
use crate::capture::taking::{Output, Taking, write_rest};
use pcef_capture_file::{CaptureFault, CaptureStream, Stop};
use pcef_capture_script::{End, forget, read_front, read_more};
use std::alloc::Global;
use std::io::{Read, Write};

/// Writes the lines for all whole records or blocks at the front of the octets. Returns how many octets stand behind
/// them, and why nothing more is read of these.
fn take_whole<W: Write + Drop, T: Write + Drop>(
    alloc: Global,
    stream: &mut CaptureStream,
    taking: &mut Taking,
    octets: &[u8],
    output: &mut Output<W, T>,
) -> Result<(usize, Stop), Stopped> {
    let mut rest = octets;
    loop {
        match stream.step(rest) {
            Ok((frame, others)) => {
                if let Some(frame) = frame {
                    taking.take(alloc, output, &frame)?;
                }
                rest = others;
            }
            Err(stop) => return Ok((rest.len(), stop)),
        }
    }
}

/// Writes the lines for all whole records or blocks at hand and flushes the output. Keeps the octets behind them, and
/// returns why nothing more is read of these.
fn take_waiting<W: Write + Drop, T: Write + Drop>(
    alloc: Global,
    stream: &mut CaptureStream,
    taking: &mut Taking,
    waiting: &mut Vec<u8>,
    output: &mut Output<W, T>,
) -> Result<Stop, Stopped> {
    let len = waiting.len();
    let (kept, stop) = take_whole(alloc, stream, taking, waiting.as_slice(), output)?;
    output.flush()?;
    match forget(waiting, len.saturating_sub(kept)) {
        Ok(()) => Ok(stop),
        Err(_) => Err(Stopped::End(End::NoMemory)),
    }
}

/// Writes the lines of the last flushes, and returns the fault.
fn finish<W: Write + Drop, T: Write + Drop>(
    taking: &mut Taking,
    fault: Option<CaptureFault>,
    output: &mut Output<W, T>,
) -> Result<Option<CaptureFault>, Stopped> {
    if let Err(error) = write_rest(&mut output.lines, &mut taking.sessions) {
        return Err(Stopped::at_write(error));
    }
    output.flush()?;
    Ok(fault)
}

/// Writes the lines for a capture from these octets on, up to its end or its fault.
fn follow_rest<R: Read, W: Write + Drop, T: Write + Drop>(
    alloc: Global,
    stream: &mut CaptureStream,
    taking: &mut Taking,
    waiting: &mut Vec<u8>,
    reader: &mut R,
    output: &mut Output<W, T>,
) -> Result<Option<CaptureFault>, Stopped> {
    for _ in 0..u64::MAX {
        match take_waiting(alloc, stream, taking, waiting, output)? {
            Stop::Waits(fault) => {
                if read_more(reader, waiting)? == 0 {
                    return finish(taking, fault, output);
                }
            }
            Stop::Fault(fault) => return finish(taking, Some(fault), output),
            Stop::NoMemory => return Err(Stopped::End(End::NoMemory)),
        }
    }
    Err(Stopped::End(End::NoMemory))
}

/// Writes the lines for a capture while it is read, as `write_capture` does for one session. Returns the fault up to
/// which it was read, or none at its end. `waiting` has the octets that have no lines yet.
pub(crate) fn follow<R: Read, W: Write + Drop, T: Write + Drop>(
    alloc: Global,
    taking: &mut Taking,
    waiting: &mut Vec<u8>,
    reader: &mut R,
    output: &mut Output<W, T>,
) -> Result<Option<CaptureFault>, Stopped>
    requires { waiting.old.items ≡ [] }
{
    read_front(reader, waiting)?;
    let octets = waiting.as_slice();
    let len = octets.len();
    let (stream, taken) = match CaptureStream::open(alloc, octets) {
        Ok((stream, rest)) => (stream, len.saturating_sub(rest.len())),
        Err(fault) => return Err(Stopped::End(End::Capture(fault))),
    };
    let mut stream = stream;
    if forget(waiting, taken).is_err() {
        return Err(Stopped::End(End::NoMemory));
    }
    follow_rest(alloc, &mut stream, taking, waiting, reader, output)
}
