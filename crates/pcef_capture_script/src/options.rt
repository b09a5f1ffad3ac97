//! The options of the program.

ghost use Rattle.std.specs.Prelude.{◌≡◌, ◌∷◌, [], ℕ, List, IfErr, IfOk, IfSome, Some, false, map, option_map, string_bytes, true};
ghost use Rattle.clap.specs.Words.{app_of, found_of, kind_of, matches_of, new_rule, rows_of, rule_of, takes};
ghost use Rattle.clap.specs.declared.builder.action.ArgAction.TheVariants.{Set};
ghost use Rattle.clap.specs.declared.error.kind.ErrorKind.TheVariants.{OutOfMemory};
ghost use Rattle.pcef_capture_script.specs.CommandLine.{ArePackets, AreUsers, IsRequest, batch_rule, command_line, file_rule, gtp_rule, line_to_batch, line_to_gtp, line_to_pad, line_to_sessions, line_to_teid, line_to_times, line_to_ue, line_to_workers, pad_rule, sessions_rule, teid_rule, times_rule, ue_rule, workers_rule};

use clap::{Arg, ArgAction, ArgMatches, Command, Error, value_parser};
use pcef_base::VERSION;
use pcef_packet::Addr;
use std::alloc::{AllocError, Global};

/// Whose packets are taken.
#[derive(Clone, Copy)]
pub enum Users<'a> {
    /// Those of the session of this address, of either version.
    One(Addr),
    /// Those of the sessions of the map in the file of this path.
    Map(&'a str),
}

/// Where the packets stand that are taken.
#[derive(Clone, Copy)]
pub enum Packets {
    /// In the frames themselves.
    OfFrames,
    /// In the tunnels of GTP-U.
    OfTunnels,
    /// In the tunnel of GTP-U with this TEID.
    OfTunnel(u32),
}

/// The options of the program.
#[derive(Clone, Copy)]
pub struct Options<'a> {
    /// Whose packets are taken.
    pub users: Users<'a>,
    /// Where they stand.
    pub packets: Packets,
    /// How many workers of a session take packets in turn: 1 to 16.
    pub workers: u8,
    /// How many packets a worker takes before it flushes: 1 to 32.
    pub batch: u8,
    /// Whether packets that were recorded in part are padded, in place of left out.
    pub pads: bool,
    /// The path of the file for the times of the packets, if they are wanted.
    pub times: Option<&'a str>,
    /// The path of the capture file; `-` is standard input.
    pub file: &'a str,
}

/// The request that the words make.
#[derive(Clone, Copy)]
pub enum Request<'a> {
    /// Work with these options.
    Options(Options<'a>),
    /// The text that is given for the session's address is no address.
    NoAddress(&'a str),
    /// Neither an address nor a map is given.
    NoUsers,
    /// Both are given.
    TwoUsers,
}

/// An option or a file that has one value.
fn value<'a>(alloc: Global, id: &'a str, value_name: &'a str, help: &'a str) -> Arg<'a>
    ensures rule { rule_of result
        ≡ record (new_rule id.entry.now) { value_names = 1; action = Some Set } }
    ensures place { result.global ≡ false }
{
    Arg::new(alloc, id)
        .value_name(value_name)
        .action(ArgAction::Set)
        .help(help)
}

fn ue<'a>(alloc: Global) -> Arg<'a>
    ensures rule { rule_of result ≡ ue_rule }
    ensures place { result.global ≡ false }
{
    let help = "The session's IPv4 or IPv6 address; an IPv6 session has all addresses of its /64";
    value(alloc, "ue", "ADDRESS", help).long("ue")
}

fn sessions<'a>(alloc: Global) -> Arg<'a>
    ensures rule { rule_of result ≡ sessions_rule }
    ensures place { result.global ≡ false }
{
    let help =
        "A file with a line for each session, NAME ADDRESS, in the place of --ue: writes lines for pcef many";
    value(alloc, "sessions", "MAP", help).long("sessions")
}

/// An option that has a number.
fn number<'a>(alloc: Global, id: &'a str, default: &'a str, help: &'a str) -> Arg<'a>
    ensures rule { rule_of result ≡ record (new_rule id.entry.now) {
      long = Some id.entry.now;
      value_names = 1;
      action = Some Set;
      defaults = default.entry.now ∷ [];
    } }
    ensures place { result.global ≡ false }
{
    value(alloc, id, "N", help).long(id).default_value(default)
}

fn workers<'a>(alloc: Global) -> Arg<'a>
    ensures rule { rule_of result ≡ workers_rule }
    ensures place { result.global ≡ false }
{
    number(
        alloc,
        "workers",
        "1",
        "How many workers take packets in turn",
    )
    .value_parser(value_parser!(u8).range(1..=16))
}

fn batch<'a>(alloc: Global) -> Arg<'a>
    ensures rule { rule_of result ≡ batch_rule }
    ensures place { result.global ≡ false }
{
    number(
        alloc,
        "batch",
        "32",
        "How many packets a worker takes before it flushes",
    )
    .value_parser(value_parser!(u8).range(1..=32))
}

fn pad<'a>(alloc: Global) -> Arg<'a>
    ensures rule { rule_of result ≡ pad_rule }
    ensures place { result.global ≡ false }
{
    Arg::new(alloc, "pad")
        .long("pad")
        .action(ArgAction::SetTrue)
        .help("Fill packets that were recorded in part with zeros, in place of leaving them out")
}

fn gtp<'a>(alloc: Global) -> Arg<'a>
    ensures rule { rule_of result ≡ gtp_rule }
    ensures place { result.global ≡ false }
{
    Arg::new(alloc, "gtp")
        .long("gtp")
        .action(ArgAction::SetTrue)
        .help("Take the packets that GTP-U tunnels carry, on UDP port 2152")
}

fn teid<'a>(alloc: Global) -> Arg<'a>
    ensures rule { rule_of result ≡ teid_rule }
    ensures place { result.global ≡ false }
{
    let help = "Take the packets of the GTP-U tunnel with this TEID alone";
    value(alloc, "teid", "N", help)
        .long("teid")
        .value_parser(value_parser!(u32))
}

fn times<'a>(alloc: Global) -> Arg<'a>
    ensures rule { rule_of result ≡ times_rule }
    ensures place { result.global ≡ false }
{
    let help =
        "Write a line for each packet taken to this file: its time and the number of its frame";
    value(alloc, "times", "FILE", help).long("times")
}

fn file<'a>(alloc: Global) -> Arg<'a>
    ensures rule { rule_of result ≡ file_rule }
    ensures place { result.global ≡ false }
{
    let help = "A capture file: classic pcap, or pcapng; - is standard input";
    value(alloc, "file", "FILE", help).required(true)
}

/// The command line with the session's address.
fn with_ue<'a>(alloc: Global) -> Result<Command<'a>, AllocError>
    ensures { IfOk result (λ more. app_of more ≡ line_to_ue) }
{
    Command::new(alloc, "pcef capture")
        .version(VERSION)
        .about("Writes the packets of a capture as lines of a script of pcef, or of pcef many")
        .arg(ue(alloc))
}

/// The same with the map of sessions.
fn with_sessions<'a>(alloc: Global) -> Result<Command<'a>, AllocError>
    ensures { IfOk result (λ more. app_of more ≡ line_to_sessions) }
{
    with_ue(alloc)?.arg(sessions(alloc))
}

/// The same with the number of workers that take packets.
fn with_workers<'a>(alloc: Global) -> Result<Command<'a>, AllocError>
    ensures { IfOk result (λ more. app_of more ≡ line_to_workers) }
{
    with_sessions(alloc)?.arg(workers(alloc))
}

/// The same with the number of packets that each takes.
fn with_batch<'a>(alloc: Global) -> Result<Command<'a>, AllocError>
    ensures { IfOk result (λ more. app_of more ≡ line_to_batch) }
{
    with_workers(alloc)?.arg(batch(alloc))
}

/// The same with the option to pad packets.
fn with_pad<'a>(alloc: Global) -> Result<Command<'a>, AllocError>
    ensures { IfOk result (λ more. app_of more ≡ line_to_pad) }
{
    with_batch(alloc)?.arg(pad(alloc))
}

/// The same with the option for tunnels.
fn with_gtp<'a>(alloc: Global) -> Result<Command<'a>, AllocError>
    ensures { IfOk result (λ more. app_of more ≡ line_to_gtp) }
{
    with_pad(alloc)?.arg(gtp(alloc))
}

/// The same with the option for one tunnel.
fn with_teid<'a>(alloc: Global) -> Result<Command<'a>, AllocError>
    ensures { IfOk result (λ more. app_of more ≡ line_to_teid) }
{
    with_gtp(alloc)?.arg(teid(alloc))
}

/// The same with the file for times.
fn with_times<'a>(alloc: Global) -> Result<Command<'a>, AllocError>
    ensures { IfOk result (λ more. app_of more ≡ line_to_times) }
{
    with_teid(alloc)?.arg(times(alloc))
}

/// The command line.
pub fn command<'a>(alloc: Global) -> Result<Command<'a>, AllocError>
    ensures { IfOk result (λ command. app_of command ≡ command_line) }
{
    with_times(alloc)?.arg(file(alloc))
}

/// Whose packets are asked for, by the texts of `--ue` and `--sessions`.
fn users_of<'a>(ue: Option<&'a str>, map: Option<&'a str>) -> Result<Users<'a>, Request<'a>>
    ensures { AreUsers (option_map (λ s. s.now) ue.entry) (option_map (λ s. s.now) map.entry) result }
{
    match (ue, map) {
        (Some(text), None) => match Addr::from_text(text.as_bytes()) {
            Some(address) => Ok(Users::One(address)),
            None => Err(Request::NoAddress(text)),
        },
        (None, Some(map)) => Ok(Users::Map(map)),
        (None, None) => Err(Request::NoUsers),
        (Some(_), Some(_)) => Err(Request::TwoUsers),
    }
}

/// Which packets a command line asks for that clap accepted, or none where an option has no value.
fn packets_of<'a>(matches: &ArgMatches<'a>) -> Option<Packets>
    ensures { (words : List (List ℕ)) →
        rows_of (found_of matches.now) ≡ matches_of command_line words
        → IfSome result (ArePackets words) }
{
    if matches.get_str("teid").is_some() {
        return Some(Packets::OfTunnel(matches.get_one::<u32>("teid")?));
    }
    if matches.get_flag("gtp") {
        Some(Packets::OfTunnels)
    } else {
        Some(Packets::OfFrames)
    }
}

/// The request of a command line that clap accepted, or none where an option has no value.
fn request_of<'a>(matches: &ArgMatches<'a>) -> Option<Request<'a>>
    ensures { (words : List (List ℕ)) →
        rows_of (found_of matches.now) ≡ matches_of command_line words
        → IfSome result (IsRequest words) }
{
    let users = match users_of(matches.get_str("ue"), matches.get_str("sessions")) {
        Ok(users) => users,
        Err(request) => return Some(request),
    };
    let workers = matches.get_one::<u8>("workers")?;
    let batch = matches.get_one::<u8>("batch")?;
    let file = matches.get_str("file")?;
    let packets = packets_of(matches)?;
    Some(Request::Options(Options {
        users,
        packets,
        workers,
        batch,
        pads: matches.get_flag("pad"),
        times: matches.get_str("times"),
        file,
    }))
}

/// The matches that clap finds in the words, or its error.
fn parse<'a>(alloc: Global, words: &'a [String]) -> Result<ArgMatches<'a>, Error>
    ensures rows { IfOk result (λ matches. rows_of (found_of matches)
        ≡ matches_of command_line (map string_bytes words.entry.now)) }
    ensures takes { IfErr result (λ error.
        takes command_line (map string_bytes words.entry.now) ≡ true →
        kind_of error ≡ OutOfMemory) }
{
    command(alloc)?.try_get_matches_from(words)
}

/// The request in the words, the first of which is the program's name. Other wrong words than an address are clap's
/// error; so are the requests for help and for the version, and out of memory. `None` would be an option without a
/// value, which clap never accepts. Takes memory.
pub fn parse_options<'a>(alloc: Global, words: &'a [String]) -> Result<Option<Request<'a>>, Error>
    ensures asks { IfOk result
        (λ request. IfSome request (IsRequest (map string_bytes words.entry.now))) }
    ensures takes { IfErr result (λ error.
        takes command_line (map string_bytes words.entry.now) ≡ true →
        kind_of error ≡ OutOfMemory) }
{
    let matches = parse(alloc, words)?;
    Ok(request_of(&matches))
}
