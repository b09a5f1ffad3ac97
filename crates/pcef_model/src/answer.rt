//! What a session answers.

use crate::verdict::Verdict;
use pcef_rule::BearerId;
use std::error;
use std::fmt::{self, Display, Formatter, Write};
use thiserror::Error;

/// Why a session can't be opened. Of several faults the first in this order is answered.
#[derive(Clone, Copy, Debug, PartialEq, Eq, Error)]
pub enum OpenFault {
    /// The default QCI is neither standard nor declared.
    #[error("the default QCI is unknown")]
    UnknownQci,
    /// The default QCI has a guaranteed bit rate.
    #[error("the default QCI has a guaranteed bit rate")]
    DefaultIsGbr,
    /// There is no memory left.
    #[error("there is no memory left")]
    NoMemory,
}

/// Why a command is refused. Of several refusals the first in this order is answered.
#[derive(Clone, Copy, Debug, PartialEq, Eq)]
pub enum Refusal {
    /// The session was terminated.
    Terminated,
    /// The session was closed.
    Closed,
    /// The journal holds as many commands as the profile allows.
    CommandsFull,
    /// A predefined rule has the name.
    NameIsPredefined,
    /// No rule of the catalog, or no active rule, has the name.
    UnknownRule,
    /// The key isn't on, or has no slot.
    UnknownKey,
    /// The grant is 0.
    ZeroGrant,
    /// No bearer has the id.
    UnknownBearer,
    /// The default bearer can't be lost.
    DefaultBearer,
    /// Workers are still attached, 1 to 16 of them.
    WorkersAttached(u8),
    /// As many rules are active as may be.
    RulesFull,
    /// The key has another level.
    LevelClash,
    /// Every slot has a key.
    KeysFull,
    /// The QCI is neither standard nor declared.
    UnknownQci,
    /// A rule of a GBR QCI has no rates.
    RatesMissing,
    /// A rule of a non-GBR QCI has rates.
    RatesNotWanted,
    /// A new pair of QCI and ARP finds no free bearer.
    TooManyBearers,
    /// The sum of uplink rates would be over the capacity.
    OverCapacityUp,
    /// The sum of downlink rates would be over the capacity.
    OverCapacityDown,
    /// The session's uplink rates would be over the room that its pool has for them.
    PoolUp,
    /// The session's downlink rates would be over the room that its pool has for them.
    PoolDown,
    /// There is no memory left.
    NoMemory,
}

impl Refusal {
    /// What the refusal means, in a few words.
    fn message(self) -> &'static str {
        match self {
            Refusal::Terminated => "the session was terminated",
            Refusal::Closed => "the session was closed",
            Refusal::CommandsFull => "the journal takes no more commands",
            Refusal::NameIsPredefined => "a predefined rule has this name",
            Refusal::UnknownRule => "there is no rule of this name",
            Refusal::UnknownKey => "the key is unknown",
            Refusal::ZeroGrant => "the grant is 0",
            Refusal::UnknownBearer => "there is no bearer of this id",
            Refusal::DefaultBearer => "the default bearer can't be lost",
            Refusal::WorkersAttached(_) => "workers are still attached",
            Refusal::RulesFull => "no more rules can be active",
            Refusal::LevelClash => "the key has another level",
            Refusal::KeysFull => "no more keys can have a slot",
            Refusal::UnknownQci => "the QCI is unknown",
            Refusal::RatesMissing => "the rule has no guaranteed rates",
            Refusal::RatesNotWanted => "the rule has guaranteed rates",
            Refusal::TooManyBearers => "no more bearers can be established",
            Refusal::OverCapacityUp => "the uplink rates are over the capacity",
            Refusal::OverCapacityDown => "the downlink rates are over the capacity",
            Refusal::PoolUp => "the uplink rates are over the room in the pool",
            Refusal::PoolDown => "the downlink rates are over the room in the pool",
            Refusal::NoMemory => "there is no memory left",
        }
    }
}

impl Display for Refusal {
    fn fmt<W: Write>(&self, f: &mut Formatter<W>) -> fmt::Result {
        if let Refusal::WorkersAttached(count) = self {
            write!(f, "{count} ")?;
        }
        f.write_str(self.message())
    }
}

impl error::Error for Refusal {}

/// The answer to an accepted command.
#[derive(Clone, Copy, Debug, PartialEq, Eq)]
pub struct Accepted {
    /// The generation after the command.
    pub generation: u32,
    /// The bearer of the rule that the command makes active.
    pub bearer: Option<BearerId>,
    /// The number of the command's first report.
    pub first_report: u64,
    /// The number after its last report.
    pub past_last_report: u64,
    /// Whether the command left everything as it was.
    pub unchanged: bool,
}

/// Why a worker can't be attached. Of several faults the first in this order is answered.
#[derive(Clone, Copy, Debug, PartialEq, Eq, Error)]
pub enum AttachFault {
    /// Sixteen workers were attached already; one that leaves gives no place back.
    #[error("all places of workers are used")]
    NoPlace,
    /// The session was closed or terminated.
    #[error("the session was closed")]
    Closed,
    /// There is no memory left.
    #[error("there is no memory left")]
    NoMemory,
}

/// Why rows aren't taken over. Of several refusals the first in this order is answered.
#[derive(Clone, Copy, Debug, PartialEq, Eq, Error)]
pub enum FlushRefusal {
    /// The worker isn't attached.
    #[error("the worker isn't attached")]
    NotAttached,
    /// The journal would hold more rows than the profile allows.
    #[error("the journal takes no more rows")]
    RowsFull,
    /// There is no memory left.
    #[error("there is no memory left")]
    NoMemory,
}

/// The verdict on a row that was taken over.
#[derive(Debug, PartialEq, Eq, Drop)]
pub struct Judged {
    /// The generation that judged the row.
    pub generation: u32,
    /// What it decided.
    pub verdict: Verdict,
}

/// The answer to rows that were taken over.
#[derive(Drop)]
pub struct Verdicts {
    /// The verdicts of the rows, in order.
    pub rows: Vec<Judged>,
    /// The number of the first report that they made.
    pub first_report: u64,
    /// The number after the last one.
    pub past_last_report: u64,
}
