//! What the program is asked for.

use crate::asked::MANY;
use crate::many::keeping::Keeping;
use clap::{Arg, ArgAction, ArgMatches, Command, Error, value_parser};
use pcef_base::VERSION;
use std::alloc::{AllocError, Global};

/// What the program is asked for.
#[derive(Clone, Copy)]
pub(crate) struct Options<'a> {
    /// How many threads serve the sessions: 1 to 64.
    pub threads: u8,
    /// Whether frames are read, in the place of lines.
    pub has_frames: bool,
    /// Where totals are kept, if they are.
    pub metrics: Option<Keeping<'a>>,
    /// The path of the profile.
    pub profile: &'a str,
}

fn threads_argument<'a>(alloc: Global) -> Arg<'a> {
    Arg::new(alloc, "threads")
        .long("threads")
        .value_name("N")
        .action(ArgAction::Set)
        .value_parser(value_parser!(u8).range(1..=64))
        .default_value("1")
        .help("How many threads serve the sessions, 1 to 64. A session is one thread's")
}

fn frames_argument<'a>(alloc: Global) -> Result<Arg<'a>, AllocError> {
    Arg::new(alloc, "frames")
        .long("frames")
        .action(ArgAction::SetTrue)
        .help(
            "Reads binary frames, each of which means a line, in the place of lines, in one thread",
        )
        .conflicts_with("threads")
}

fn metrics_argument<'a>(alloc: Global) -> Arg<'a> {
    Arg::new(alloc, "metrics")
        .long("metrics")
        .value_name("FILE")
        .action(ArgAction::Set)
        .help("Keeps totals in FILE, in the text format of Prometheus")
}

fn every_argument<'a>(alloc: Global) -> Arg<'a> {
    Arg::new(alloc, "every")
        .long("every")
        .value_name("SECONDS")
        .action(ArgAction::Set)
        .value_parser(value_parser!(u64).range(1..=86400))
        .default_value("15")
        .help("How often FILE is written, 1 to 86400; also at the end")
}

fn profile_argument<'a>(alloc: Global) -> Arg<'a> {
    Arg::new(alloc, "profile")
        .value_name("PROFILE")
        .required(true)
        .action(ArgAction::Set)
        .help("The profile of each session, as of pcef script")
}

/// The command line.
fn command<'a>(alloc: Global) -> Result<Command<'a>, AllocError> {
    Command::new(alloc, MANY)
        .version(VERSION)
        .about(
            "Answers lines of many sessions, each behind its session's name: opens one by {\"do\":\"open\"}, renews it by {\"do\":\"renew\"} and ends it by {\"do\":\"end\"}",
        )
        .arg(threads_argument(alloc))?
        .arg(frames_argument(alloc)?)?
        .arg(metrics_argument(alloc))?
        .arg(every_argument(alloc))?
        .arg(profile_argument(alloc))
}

/// What a command line that clap accepted asks for, or none where an option has no value.
fn options_of<'a>(matches: &ArgMatches<'a>) -> Option<Options<'a>> {
    let seconds = matches.get_one::<u64>("every")?;
    Some(Options {
        threads: matches.get_one::<u8>("threads")?,
        has_frames: matches.get_flag("frames"),
        metrics: matches
            .get_str("metrics")
            .map(|file| Keeping { file, seconds }),
        profile: matches.get_str("profile")?,
    })
}

/// What the words ask for; the first one is the program's name. Wrong words are clap's error, and so are the questions
/// for help and for the version; out of memory too. Takes memory.
pub(crate) fn parse_options<'a>(
    alloc: Global,
    words: &'a [String],
) -> Result<Option<Options<'a>>, Error> {
    let command = command(alloc)?;
    let matches = command.try_get_matches_from(words)?;
    Ok(options_of(&matches))
}
