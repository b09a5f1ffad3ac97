//! The figures of a session.

ghost use Rattle.std.specs.Prelude.{◌≡◌, ◌≢◌, MatchOption};
ghost use Rattle.pcef_page.specs.Collecting.{IsBlank};
ghost use Rattle.pcef_page.specs.Verdicts.{verdict_name};

use std::alloc::Global;

/// The verdict on a packet.
#[derive(Clone, Copy, Debug, PartialEq, Eq)]
pub enum Verdict {
    /// It passed by a rule.
    Passed,
    /// The gate of its rule is closed.
    Gated,
    /// No rule fits it.
    Unmatched,
    /// It isn't the session's.
    Stray,
}

impl Verdict {
    /// The verdict with this name in answers.
    pub(crate) fn from_text(text: &str) -> Option<Verdict>
        ensures { MatchOption result ((v : Verdict) → verdict_name v ≢ text.now)
            (λ v. verdict_name v ≡ text.now) }
    {
        match text {
            "Passed" => Some(Verdict::Passed),
            "Gated" => Some(Verdict::Gated),
            "Unmatched" => Some(Verdict::Unmatched),
            "Stray" => Some(Verdict::Stray),
            _ => None,
        }
    }

    /// Its name in an answer.
    pub fn text(self) -> &'static str
        ensures { result.now ≡ verdict_name self }
    {
        match self {
            Verdict::Passed => "Passed",
            Verdict::Gated => "Gated",
            Verdict::Unmatched => "Unmatched",
            Verdict::Stray => "Stray",
        }
    }
}

/// A packet that was taken and waits for its verdict.
#[derive(Clone, Copy)]
pub struct Handed {
    /// The number of its line, from 1.
    pub line: u64,
    /// The number of its worker.
    pub worker: u64,
    /// Whether it goes up.
    pub is_up: bool,
    /// Its volume in octets, by its header.
    pub octets: u64,
}

/// A packet with its verdict.
#[derive(Drop)]
pub struct Judged {
    /// The packet.
    pub packet: Handed,
    /// The number of the line whose answer has the verdict, from 1.
    pub answered: u64,
    /// The generation that judged it.
    pub generation: u64,
    /// The verdict.
    pub verdict: Verdict,
    /// The rule, or an empty text where none fits.
    pub rule: String,
    /// The bearer, where it passed.
    pub bearer: Option<u64>,
}

/// When the packet of a `take` line was recorded.
#[derive(Clone, Copy, Debug, PartialEq, Eq)]
pub struct Stamp {
    /// The number of the line, from 1.
    pub line: u64,
    /// Nanoseconds since the start of 1970.
    pub nanoseconds: u64,
    /// The number of the frame in its capture, from 1.
    pub frame: u64,
}

/// A report of usage.
#[derive(Drop)]
pub struct Usage {
    /// The number of the line whose answer has it, from 1.
    pub line: u64,
    /// The monitoring key.
    pub key: String,
    /// Why it was reported.
    pub cause: String,
    /// How many octets it has.
    pub octets: u64,
}

/// A grant that a key was given.
#[derive(Drop)]
pub struct Grant {
    /// The number of the line, from 1.
    pub line: u64,
    /// The monitoring key.
    pub key: String,
    /// The grant, in octets.
    pub octets: u64,
}

/// The state of a key, by the last `show`.
#[derive(Drop)]
pub struct KeyState {
    /// The monitoring key.
    pub key: String,
    /// Whether it is on.
    pub is_on: bool,
    /// How many octets were reported.
    pub reported: u64,
    /// How many octets are counted and not yet reported.
    pub unreported: u64,
}

/// The guaranteed rates of a bearer from a generation on, in bit/s.
#[derive(Clone, Copy)]
pub struct Rates {
    /// The generation.
    pub generation: u64,
    /// The bearer's id.
    pub bearer: u64,
    /// The sum of the uplink rates of its rules.
    pub up: u64,
    /// The sum of the downlink rates of its rules.
    pub down: u64,
}

/// A line that was refused or at fault.
#[derive(Drop)]
pub struct Refused {
    /// The number of the line, from 1.
    pub line: u64,
    /// The name of the refusal or the fault.
    pub name: String,
    /// Its number.
    pub number: u64,
    /// Whether it is a fault.
    pub is_fault: bool,
}

/// The figures of a session, from a script and its answers, each list in the order of the lines.
#[derive(Drop)]
pub struct Figures {
    /// How many lines have an answer.
    pub lines: u64,
    /// The number of the last of them, from 1 with blank lines counted.
    pub last: u64,
    /// The newest generation.
    pub generation: u64,
    /// The packets with their verdicts.
    pub judged: Vec<Judged>,
    /// The reports of usage.
    pub usage: Vec<Usage>,
    /// The grants.
    pub grants: Vec<Grant>,
    /// The keys by the last `show`.
    pub keys: Vec<KeyState>,
    /// The guaranteed rates: an entry where those of a bearer change.
    pub rates: Vec<Rates>,
    /// The lines that were refused or at fault.
    pub refused: Vec<Refused>,
}

impl Figures {
    /// No figures yet. Takes no memory.
    pub(crate) fn new(alloc: Global) -> Figures
        ensures { IsBlank result }
    {
        Figures {
            lines: 0,
            last: 0,
            generation: 0,
            judged: Vec::new(alloc),
            usage: Vec::new(alloc),
            grants: Vec::new(alloc),
            keys: Vec::new(alloc),
            rates: Vec::new(alloc),
            refused: Vec::new(alloc),
        }
    }
}
