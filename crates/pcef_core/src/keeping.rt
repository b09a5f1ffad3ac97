//! What a session keeps.

ghost use Rattle.std.specs.Prelude.{◌≡◌};
ghost use Rattle.pcef_core.specs.Keeping.{SessionIsExact};

use pcef_active::ActiveRules;
use pcef_bearer::Bearers;
use pcef_index::Indexed;
use pcef_journal::Journal;
use pcef_session::SessionState;
use pcef_usage::Usage;
use std::marker::Model;

/// What a session keeps, between two calls.
pub struct SessionParts<'s> {
    /// The journal.
    pub journal: &'s Journal,
    /// The active rules by their names, in the order in which they became active.
    pub active: &'s ActiveRules,
    /// The bearers, and the rules that are bound to them.
    pub bearers: &'s Bearers,
    /// The keys that have a slot, with their counters in octets.
    pub usage: &'s Usage,
    /// The table of the newest generation, with its index.
    pub indexed: &'s Indexed,
}

impl<'s> Model for SessionParts<'s> {
    ghost use Rattle.pcef_core.specs.Keeping.{KeptBySession};

    ghost Value = { KeptBySession };

    ghost view = { λ k. record {
      journal = k.journal.now.entries;
      rules = k.active.now.rules;
      binding = k.bearers.now;
      keys = k.usage.now;
      table = k.indexed.now;
    } };
}

/// What a session keeps, and that it is exact. Its journal is lawful. Each active rule is bound once, with its own QCI,
/// ARP and rates, to one bearer, which has its QCI and ARP, and no other rule is bound. Each bearer's guaranteed rates
/// are its rules' exact sums, and all are within the capacity. The reported and unreported octets of each monitoring
/// key are together those of the journal's packet rows that count for it. Each row has the verdict of its own
/// generation. It takes any session: one that stands alone, the one behind a session's lock
/// (`pcef_lock::State::session`), and the one that is left at the end (`pcef_lock::Totals`).
pub fn session_is_exact(session: &SessionState) -> SessionParts<'_>
    ensures journal { result.journal ≡ session.now.journal }
    ensures exact { SessionIsExact session.now.setting result }
{
    let bearers = session.bearers();
    // For its contract on the bearers: two rules share one exactly where they have the same QCI and ARP.
    let _bound = bearers.bound();
    SessionParts {
        journal: session.journal(),
        active: session.active(),
        bearers,
        usage: session.usage(),
        indexed: session.indexed(),
    }
}
