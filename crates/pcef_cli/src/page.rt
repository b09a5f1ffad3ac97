//! `pcef page`, which shows what a script and its answers say of a session, as a page, as CSV or as metrics.
//!
//! `pcef page [--format FORMAT] [--times FILE] [--profile FILE] [--session NAME] LINES ANSWERS` writes a page of HTML in
//! one file, a record of CSV for each packet with a verdict, OpenMetrics text, or the text format of Prometheus.

mod end;
mod options;

ghost use Rattle.std.specs.Prelude.{◌≤◌};

use crate::asked::{Call, PAGE};
use crate::command_line::{gather, or_no_memory, refuse, refuse_usage};
use crate::page::end::End;
use crate::page::options::{Format, Options, parse_options};
use pcef_base::Fused;
use pcef_page::{
    Fault, Input, Labeled, Stamp, Subject, html_page, metrics_text, read, write_table,
};
use std::io::{self, BufWriter, Write};

/// The times of the packets, none where no file of them is given.
fn stamps_of(input: &Input) -> &[Stamp] {
    match &input.stamps {
        Some(stamps) => stamps.as_slice(),
        None => &[],
    }
}

/// Writes the table of verdicts.
fn write_csv(rt: &HostRuntime, input: &Input) -> io::Result<()> {
    let writer = BufWriter::new(rt.alloc(), Fused::new(io::writer(rt)))?;
    let stamps = input.stamps.as_ref().map(|_| stamps_of(input));
    write_table(rt.alloc(), writer, &input.figures, stamps)
}

/// Writes a text.
fn write_text(rt: &HostRuntime, text: &str) -> io::Result<()> {
    let mut writer = BufWriter::new(rt.alloc(), Fused::new(io::writer(rt)))?;
    writer.write_all(text.as_bytes())?;
    writer.flush()
}

/// Writes the page.
fn write_page(rt: &HostRuntime, options: Options<'_>, input: &Input) -> io::Result<()> {
    let subject = Subject {
        address: input.address.as_deref(),
        profile: options.sources.profile,
        session: options.sources.session,
        lines: options.sources.lines,
        answers: options.sources.answers,
        stamps: stamps_of(input),
    };
    write_text(rt, html_page(rt.alloc(), &input.figures, subject)?.as_str())
}

/// Writes the metrics.
fn write_metrics(rt: &HostRuntime, options: Options<'_>, input: &Input) -> io::Result<()> {
    let labeled = Labeled {
        session: options.sources.session,
        is_open: options.format == Format::OpenMetrics,
        last_packet: stamps_of(input).iter().map(|stamp| stamp.nanoseconds).max(),
    };
    write_text(
        rt,
        metrics_text(rt.alloc(), &input.figures, labeled)?.as_str(),
    )
}

/// Writes what is asked for.
fn write(rt: &HostRuntime, options: Options<'_>, input: &Input) -> io::Result<()> {
    match options.format {
        Format::Html => write_page(rt, options, input),
        Format::Csv => write_csv(rt, input),
        Format::OpenMetrics | Format::Prometheus => write_metrics(rt, options, input),
    }
}

/// Shows what the files say.
fn show<'a>(rt: &HostRuntime, options: Options<'a>) -> End<'a> {
    let input = match read(rt, options.sources) {
        Ok(input) => input,
        Err(fault) => return End::Unread(fault),
    };
    match write(rt, options, &input) {
        Ok(()) => End::Done,
        Err(error) => or_no_memory(error, End::Unread(Fault::NoMemory), End::Write(error)),
    }
}

/// Does what the words of a call ask for, and returns the exit status.
pub(crate) fn answer(rt: &HostRuntime, call: Call) -> u8
    ensures { result ≤ 4 }
{
    let words = match gather(rt, call) {
        Ok(words) => words,
        Err(status) => return status,
    };
    match parse_options(rt.alloc(), words.as_slice()) {
        Ok(Some(options)) => show(rt, options).report(rt),
        Ok(None) => {
            refuse_usage(
                rt,
                "--format: html, csv, openmetrics or prometheus is expected",
            )
        }
        Err(error) => refuse(rt, PAGE, &error),
    }
}
