//! The commands of a session.

ghost use Rattle.std.specs.Prelude.{◌≡◌, IfOk};
ghost use Rattle.pcef_model.specs.Commands.{is_table, takes_away};

use crate::level::Level;
use crate::trigger::{AccessKind, NoticeValue, TriggerSet};
use pcef_rule::{BearerId, KeyName, Rule, RuleName};
use std::alloc::AllocError;

/// A command of the PCRF or the access network.
#[derive(Drop)]
pub enum Command {
    /// Makes a dynamic rule active, or replaces the active one of its name.
    Install(Rule),
    /// Makes a predefined rule active.
    Activate(RuleName),
    /// Takes an active rule away.
    Remove(RuleName),
    /// Switches a monitoring key on and sets its grant, in octets.
    Monitor {
        /// The key.
        key: KeyName,
        /// How many unreported octets reach the grant.
        grant: u64,
        /// What the key counts.
        level: Level,
    },
    /// Switches a monitoring key off.
    Stop(KeyName),
    /// Asks for a report of a monitoring key.
    ReportNow(KeyName),
    /// Subscribes to these events, and to no other.
    Triggers(TriggerSet),
    /// Notifies of an access event.
    Notice {
        /// Its kind.
        kind: AccessKind,
        /// Its value.
        value: NoticeValue,
    },
    /// Says that a bearer was lost, with the rules that are bound to it.
    LoseBearer(BearerId),
    /// Ends what the PCRF may do, and takes all rules away.
    Close,
    /// Ends the session.
    Terminate,
}

impl Command {
    /// A copy. Fails when out of memory.
    pub fn copy(&self) -> Result<Command, AllocError>
        ensures { IfOk result (λ c. c ≡ self.now) }
    {
        match self {
            Command::Install(rule) => Ok(Command::Install(rule.copy()?)),
            Command::Activate(name) => Ok(Command::Activate(name.copy())),
            Command::Remove(name) => Ok(Command::Remove(name.copy())),
            Command::Monitor { key, grant, level } => Ok(Command::Monitor {
                key: key.copy(),
                grant: *grant,
                level: *level,
            }),
            Command::Stop(key) => Ok(Command::Stop(key.copy())),
            Command::ReportNow(key) => Ok(Command::ReportNow(key.copy())),
            Command::Triggers(set) => Ok(Command::Triggers(*set)),
            Command::Notice { kind, value } => Ok(Command::Notice {
                kind: *kind,
                value: value.copy(),
            }),
            Command::LoseBearer(id) => Ok(Command::LoseBearer(*id)),
            Command::Close => Ok(Command::Close),
            Command::Terminate => Ok(Command::Terminate),
        }
    }

    /// Whether the command makes a new generation: all do but ReportNow, Triggers and Notice.
    pub fn is_table(&self) -> bool
        ensures { result ≡ is_table self.now }
    {
        match self {
            Command::ReportNow(_) | Command::Triggers(_) | Command::Notice { .. } => false,
            _ => true,
        }
    }

    /// Whether the command takes the rule of this name away, which is bound to this bearer.
    pub fn takes_away(&self, name: &RuleName, bearer: BearerId) -> bool
        ensures { result ≡ takes_away self.now name.now bearer.0 }
    {
        match self {
            Command::Remove(removed) => *name == *removed,
            Command::LoseBearer(lost) => bearer.0 == lost.0,
            Command::Close | Command::Terminate => true,
            _ => false,
        }
    }
}
