//! What the program is asked for.

use crate::asked::PAGE;
use clap::{Arg, ArgAction, ArgMatches, Command, Error};
use pcef_base::VERSION;
use pcef_page::Sources;
use std::alloc::{AllocError, Global};

/// What is written.
#[derive(Clone, Copy, PartialEq, Eq)]
pub(crate) enum Format {
    /// A page of HTML.
    Html,
    /// A record of CSV for each packet with a verdict.
    Csv,
    /// OpenMetrics text.
    OpenMetrics,
    /// The text format of Prometheus.
    Prometheus,
}

/// What the program is asked for.
#[derive(Clone, Copy)]
pub(crate) struct Options<'a> {
    /// What is written.
    pub format: Format,
    /// What is read.
    pub sources: Sources<'a>,
}

fn format_of(text: &str) -> Option<Format> {
    match text {
        "html" => Some(Format::Html),
        "csv" => Some(Format::Csv),
        "openmetrics" => Some(Format::OpenMetrics),
        "prometheus" => Some(Format::Prometheus),
        _ => None,
    }
}

fn format_argument<'a>(alloc: Global) -> Arg<'a> {
    Arg::new(alloc, "format")
        .long("format")
        .value_name("FORMAT")
        .action(ArgAction::Set)
        .default_value("html")
        .help(
            "html: a page with pictures; csv: a record for each packet; openmetrics, prometheus: counters",
        )
}

/// An option that names something.
fn named<'a>(alloc: Global, id: &'a str, value: &'a str, help: &'a str) -> Arg<'a> {
    Arg::new(alloc, id)
        .long(id)
        .value_name(value)
        .action(ArgAction::Set)
        .help(help)
}

fn times_argument<'a>(alloc: Global) -> Arg<'a> {
    let help = "The times of the packets, as pcef capture --times writes them";
    named(alloc, "times", "FILE", help)
}

fn profile_argument<'a>(alloc: Global) -> Arg<'a> {
    let help = "The profile of the session: its address stands in the title of the page";
    named(alloc, "profile", "FILE", help)
}

fn session_argument<'a>(alloc: Global) -> Arg<'a> {
    let help = "Shows the last session of this name. LINES and ANSWERS are those of pcef many";
    named(alloc, "session", "NAME", help)
}

fn lines_argument<'a>(alloc: Global) -> Arg<'a> {
    Arg::new(alloc, "lines")
        .value_name("LINES")
        .required(true)
        .action(ArgAction::Set)
        .help("The lines of a script of pcef, or - for standard input")
}

fn answers_argument<'a>(alloc: Global) -> Arg<'a> {
    Arg::new(alloc, "answers")
        .value_name("ANSWERS")
        .required(true)
        .action(ArgAction::Set)
        .help("The answers of pcef script to them, or - for standard input")
}

/// The command line.
fn command<'a>(alloc: Global) -> Result<Command<'a>, AllocError> {
    Command::new(alloc, PAGE)
        .version(VERSION)
        .about("Shows what a script of pcef and its answers say of a session")
        .arg(format_argument(alloc))?
        .arg(times_argument(alloc))?
        .arg(profile_argument(alloc))?
        .arg(session_argument(alloc))?
        .arg(lines_argument(alloc))?
        .arg(answers_argument(alloc))
}

/// What a command line that clap accepted asks for, or none where the format is none.
fn options_of<'a>(matches: &ArgMatches<'a>) -> Option<Options<'a>> {
    Some(Options {
        format: matches.get_str("format").and_then(format_of)?,
        sources: Sources {
            times: matches.get_str("times"),
            profile: matches.get_str("profile"),
            session: matches.get_str("session"),
            lines: matches.get_str("lines")?,
            answers: matches.get_str("answers")?,
        },
    })
}

/// What the words ask for, or none where the format is none. The first word is the program's name. Other wrong words
/// are clap's error, and so are the questions for help and for the version; out of memory too. Takes memory.
pub(crate) fn parse_options<'a>(
    alloc: Global,
    words: &'a [String],
) -> Result<Option<Options<'a>>, Error> {
    let command = command(alloc)?;
    let matches = command.try_get_matches_from(words)?;
    Ok(options_of(&matches))
}
