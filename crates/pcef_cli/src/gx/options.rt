//! What the program is asked for.

use crate::asked::GX;
use clap::{Arg, ArgAction, ArgMatches, Command, Error, value_parser};
use pcef_base::VERSION;
use std::alloc::{AllocError, Global};

/// Which sessions there are.
#[derive(Clone, Copy)]
pub(crate) enum Sessions<'a> {
    /// One: its Session-Id, and the path of its profile.
    One(&'a str, &'a str),
    /// Those of a file: its path.
    Listed(&'a str),
}

/// What the program is asked for.
#[derive(Clone, Copy)]
pub(crate) struct Options<'a> {
    /// The sessions.
    pub sessions: Sessions<'a>,
    /// The host of this node.
    pub origin_host: &'a str,
    /// The realm of this node.
    pub origin_realm: &'a str,
    /// The realm of the PCRF.
    pub destination_realm: &'a str,
    /// The host of the PCRF, where it is named.
    pub destination_host: Option<&'a str>,
    /// The APN, where it is named.
    pub apn: Option<&'a str>,
    /// The IMSI of the subscriber, where it is named.
    pub subscriber: Option<&'a str>,
    /// The address of this node.
    pub address: &'a str,
    /// The number of the first request, where it isn't the clock's.
    pub first_number: Option<u32>,
    /// The path of the lines of the sessions, where there are any.
    pub packets: Option<&'a str>,
}

/// An option that has one value.
fn valued<'a>(alloc: Global, id: &'a str, value: &'a str, help: &'a str) -> Arg<'a> {
    Arg::new(alloc, id)
        .long(id)
        .value_name(value)
        .action(ArgAction::Set)
        .help(help)
}

/// The option of one session.
fn single_option<'a>(alloc: Global) -> Result<Arg<'a>, AllocError> {
    valued(alloc, "session-id", "TEXT", "The Session-Id").required_unless_present("sessions")
}

/// The option of many sessions.
fn listed_option<'a>(alloc: Global) -> Result<Arg<'a>, AllocError> {
    let help = "Many sessions, in the place of --session-id and PROFILE: lines SESSION-ID PROFILE";
    let sessions = valued(alloc, "sessions", "FILE", help).conflicts_with("session-id")?;
    sessions.conflicts_with("profile")
}

/// Adds the options that say which sessions there are.
fn with_sessions<'a>(alloc: Global, command: Command<'a>) -> Result<Command<'a>, AllocError> {
    let command = command.arg(single_option(alloc)?)?;
    command.arg(listed_option(alloc)?)
}

/// Adds the options that say who speaks, and with whom.
fn with_names<'a>(alloc: Global, command: Command<'a>) -> Result<Command<'a>, AllocError> {
    let host = valued(
        alloc,
        "origin-host",
        "HOST",
        "The Diameter host of this node",
    );
    let command = command.arg(host.required(true))?;
    let realm = valued(alloc, "origin-realm", "REALM", "The realm of this node");
    let command = command.arg(realm.required(true))?;
    let theirs = valued(alloc, "destination-realm", "REALM", "The realm of the PCRF");
    command.arg(theirs.required(true))
}

/// Adds the option of the PCRF's host, and that of an address.
fn with_places<'a>(alloc: Global, command: Command<'a>) -> Result<Command<'a>, AllocError> {
    let host = valued(alloc, "destination-host", "HOST", "The host of the PCRF");
    let command = command.arg(host)?;
    let address = valued(
        alloc,
        "address",
        "ADDRESS",
        "The Host-IP-Address of this node",
    );
    command.arg(address.default_value("127.0.0.1"))
}

/// Adds the options that say what the first request tells, and where lines come from.
fn with_access<'a>(alloc: Global, command: Command<'a>) -> Result<Command<'a>, AllocError> {
    let apn = valued(alloc, "apn", "NAME", "The APN of the session");
    let command = command.arg(apn)?;
    let subscriber = valued(alloc, "subscriber", "IMSI", "The IMSI of the subscriber");
    let command = command.arg(subscriber)?;
    let packets = valued(
        alloc,
        "packets",
        "FIFO",
        "Lines of a script: take, flush, notice .., and {\"do\":\"end\"}; of many sessions, each behind NUMBER and a space",
    );
    command.arg(packets)
}

/// The profile of one session.
fn profile_option<'a>(alloc: Global) -> Result<Arg<'a>, AllocError> {
    let profile = Arg::new(alloc, "profile").value_name("PROFILE");
    let profile = profile
        .action(ArgAction::Set)
        .help("The profile of the session, as of pcef script");
    profile.required_unless_present("sessions")
}

/// Adds the option of the first number, and the profile.
fn with_profile<'a>(alloc: Global, command: Command<'a>) -> Result<Command<'a>, AllocError> {
    let first = valued(
        alloc,
        "first-number",
        "N",
        "The number of the first request, 0 to 4294967295; without it the clock's",
    );
    let command = command.arg(first.value_parser(value_parser!(u32)))?;
    command.arg(profile_option(alloc)?)
}

/// The command line.
fn command<'a>(alloc: Global) -> Result<Command<'a>, AllocError> {
    let command = Command::new(alloc, GX).version(VERSION).about(
        "Speaks of a session with its PCRF: reads Diameter on standard input, and writes it on standard output",
    );
    let command = with_sessions(alloc, command)?;
    let command = with_names(alloc, command)?;
    let command = with_places(alloc, command)?;
    let command = with_access(alloc, command)?;
    with_profile(alloc, command)
}

/// Which sessions there are, or none where an option has no value.
fn sessions_of<'a>(matches: &ArgMatches<'a>) -> Option<Sessions<'a>> {
    match matches.get_str("sessions") {
        Some(file) => Some(Sessions::Listed(file)),
        None => Some(Sessions::One(matches.get_str("session-id")?, matches.get_str("profile")?)),
    }
}

/// What a command line that clap accepted asks for, or none where an option has no value.
fn options_of<'a>(matches: &ArgMatches<'a>) -> Option<Options<'a>> {
    Some(Options {
        sessions: sessions_of(matches)?,
        origin_host: matches.get_str("origin-host")?,
        origin_realm: matches.get_str("origin-realm")?,
        destination_realm: matches.get_str("destination-realm")?,
        destination_host: matches.get_str("destination-host"),
        apn: matches.get_str("apn"),
        subscriber: matches.get_str("subscriber"),
        address: matches.get_str("address")?,
        first_number: matches.get_one::<u32>("first-number"),
        packets: matches.get_str("packets"),
    })
}

/// What the words ask for; the first one is the program's name. Wrong words are clap's error, and so are the questions
/// for help and for the version; out of memory too. Takes memory.
pub(crate) fn parse_options<'a>(
    alloc: Global,
    words: &'a [String],
) -> Result<Option<Options<'a>>, Error> {
    let command = command(alloc)?;
    let matches = command.try_get_matches_from(words)?;
    Ok(options_of(&matches))
}
