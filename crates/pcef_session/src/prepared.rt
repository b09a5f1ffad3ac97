//! Commands that are accepted, with the memory that they take.

ghost use Rattle.std.specs.Prelude.{◌≡◌};
ghost use Rattle.std.specs.Arc.{arc_value};
ghost use Rattle.std.specs.Option.{option_copied, option_map};
ghost use Rattle.pcef_session.specs.Preparing.{table_made};

use pcef_bearer::Places;
use pcef_index::Indexed;
use pcef_model::{Command, PendingReport};
use pcef_rule::{BearerId, Properties, RuleName};
use pcef_table::Source;
use pcef_usage::KeyPlaces;
use std::sync::Arc;

/// A rule that becomes active.
#[derive(Drop)]
pub struct Activation {
    /// Its properties.
    pub properties: Properties,
    /// Where it comes from.
    pub source: Source,
}

/// A command that changes something, with the memory that it takes.
#[derive(Drop)]
pub struct PreparedChange {
    /// The command.
    pub command: Command,
    /// The table that the command makes, with its index, if it makes one: that of the journal after it and all that is
    /// reported with it.
    pub table: Option<Arc<Indexed>>,
    /// The rule that the command makes active.
    pub rule: Option<Activation>,
    /// The bearer that this rule gets.
    pub bearer: Option<BearerId>,
    /// Memory to bind this rule.
    pub places: Places,
    /// Memory for the key that the command names to get a slot.
    pub key_places: KeyPlaces,
    /// What the command reports by itself, in order.
    pub reports: Vec<PendingReport>,
}

/// A command that a session accepts next.
#[derive(Drop)]
pub enum Prepared {
    /// It changes something.
    Changing(PreparedChange),
    /// It activates the rule of this name, which is active, and so changes nothing.
    Unchanged(RuleName),
}

impl Prepared {
    /// The table, with its index, of the journal after the command and all that is reported with it, if the command
    /// makes one.
    pub fn indexed(&self) -> Option<&Arc<Indexed>>
        ensures { option_map (λ t. arc_value t) (option_copied result) ≡ table_made self.now }
    {
        match self {
            Prepared::Changing(change) => change.table.as_ref(),
            Prepared::Unchanged(_) => None,
        }
    }
}
