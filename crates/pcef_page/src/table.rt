//! The verdicts as CSV (RFC 4180).

use crate::sheet::Sheet;
use crate::stamps::{push_time, stamp_at};
use crate::{Figures, Judged, Stamp};
use csv::{Error, Writer, WriterBuilder};
use itoa::Buffer;
use std::alloc::Global;
use std::io::{self, ErrorKind, Write};

const COLUMNS: &[&str] = &[
    "line",
    "worker",
    "direction",
    "octets",
    "answered",
    "generation",
    "verdict",
    "rule",
    "bearer",
];

/// The most octets of a time: ten digits or eleven, a point and nine digits.
const MOST_TIME: usize = 21;

/// The columns behind these, where packets have times.
const TIME_COLUMNS: &[&str] = &["time", "frame"];

fn write_number<W: Write + Drop>(writer: &mut Writer<W>, number: u64) -> Result<(), Error> {
    writer.write_field(Buffer::new().format(number).as_bytes())
}

fn write_numbers<W: Write + Drop>(writer: &mut Writer<W>, numbers: &[u64]) -> Result<(), Error> {
    for number in numbers {
        write_number(writer, *number)?;
    }
    Ok(())
}

/// The record with the names of the columns.
fn write_names<W: Write + Drop>(writer: &mut Writer<W>, has_times: bool) -> Result<(), Error> {
    for column in COLUMNS {
        writer.write_field(column.as_bytes())?;
    }
    if has_times {
        for column in TIME_COLUMNS {
            writer.write_field(column.as_bytes())?;
        }
    }
    writer.end_record()
}

/// The fields of a packet's time, of which `time` has the room.
fn write_stamp<W: Write + Drop>(
    writer: &mut Writer<W>,
    time: &mut Sheet,
    stamp: Option<&Stamp>,
) -> Result<(), Error> {
    let Some(stamp) = stamp else {
        writer.write_field(b"")?;
        return writer.write_field(b"");
    };
    time.clear();
    push_time(time, stamp.nanoseconds);
    let Ok(text) = time.so_far() else {
        return Err(Error::out_of_memory());
    };
    writer.write_field(text.as_bytes())?;
    write_number(writer, stamp.frame)
}

/// The fields of a packet with its verdict.
fn write_judged<W: Write + Drop>(writer: &mut Writer<W>, judged: &Judged) -> Result<(), Error> {
    let packet = judged.packet;
    let direction = if packet.is_up { "up" } else { "down" };
    write_numbers(writer, &[packet.line, packet.worker])?;
    writer.write_field(direction.as_bytes())?;
    write_numbers(writer, &[packet.octets, judged.answered, judged.generation])?;
    writer.write_field(judged.verdict.text().as_bytes())?;
    writer.write_field(judged.rule.as_bytes())?;
    match judged.bearer {
        Some(bearer) => write_number(writer, bearer),
        None => writer.write_field(b""),
    }
}

fn write_records<W: Write + Drop>(
    alloc: Global,
    writer: &mut Writer<W>,
    figures: &Figures,
    stamps: Option<&[Stamp]>,
) -> Result<(), Error> {
    let Ok(mut time) = Sheet::with_room(alloc, MOST_TIME) else {
        return Err(Error::out_of_memory());
    };
    write_names(writer, stamps.is_some())?;
    for judged in &figures.judged {
        write_judged(writer, judged)?;
        if let Some(stamps) = stamps {
            write_stamp(writer, &mut time, stamp_at(stamps, judged.packet.line))?;
        }
        writer.end_record()?;
    }
    writer.flush()
}

/// Writes a record for each packet with a verdict, behind one with the names of the columns, and flushes the writer.
/// Takes memory for a time, before it writes.
pub fn write_table<W: Write + Drop>(
    alloc: Global,
    writer: W,
    figures: &Figures,
    stamps: Option<&[Stamp]>,
) -> io::Result<()> {
    let mut writer = WriterBuilder::new().from_writer(writer);
    match write_records(alloc, &mut writer, figures, stamps) {
        Ok(()) => Ok(()),
        Err(error) => Err(match error.into_kind() {
            csv::ErrorKind::Io(error) => error,
            _ => ErrorKind::OutOfMemory.into(),
        }),
    }
}
