//! The options of the program.

use crate::asked::CHECK;
use clap::{Arg, ArgAction, Command, Error};
use pcef_base::VERSION;
use std::alloc::Global;

/// The options of the program.
#[derive(Clone, Copy)]
pub(crate) struct Options<'a> {
    /// The path of the profile.
    pub profile: &'a str,
    /// The path of the lines, or `-` for standard input, where they are to be checked too.
    pub lines: Option<&'a str>,
}

/// The options in the words, the first of which is the program's name. Wrong words are clap's error; so are the
/// requests for help and for the version, and out of memory. Takes memory.
pub(crate) fn parse_options<'a>(
    alloc: Global,
    words: &'a [String],
) -> Result<Option<Options<'a>>, Error> {
    let profile = Arg::new(alloc, "profile")
        .value_name("PROFILE")
        .required(true)
        .action(ArgAction::Set)
        .help("The profile of the session, as of pcef script");
    let lines = Arg::new(alloc, "lines")
        .value_name("LINES")
        .action(ArgAction::Set)
        .help(
            "The lines of a script, or - for standard input; without it only the profile is checked",
        );
    let command = Command::new(alloc, CHECK)
        .version(VERSION)
        .about(
            "Reports each line of a script of pcef that is answered by a fault or a refusal, and why",
        )
        .arg(profile)?
        .arg(lines)?;
    let matches = command.try_get_matches_from(words)?;
    let Some(profile) = matches.get_str("profile") else {
        return Ok(None);
    };
    Ok(Some(Options {
        profile,
        lines: matches.get_str("lines"),
    }))
}
