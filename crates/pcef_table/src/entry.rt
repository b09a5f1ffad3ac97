//! The entries of a table.

ghost use Rattle.std.specs.Prelude.{◌≡◌, IfOk};

use pcef_rule::{BearerId, Rule, Slot};
use std::alloc::AllocError;

/// Where an active rule comes from.
#[derive(Drop)]
pub enum Source {
    /// It was installed.
    Dynamic(Rule),
    /// It stands at this place of the catalog.
    Predefined(u8),
}

/// An active rule, with its bearer and its key's slot.
#[derive(Drop)]
pub struct TableEntry {
    /// The rule.
    pub source: Source,
    /// The bearer that the rule is bound to.
    pub bearer: BearerId,
    /// The slot of the rule's key, where it has one.
    pub slot: Option<Slot>,
    /// Whether packets that the rule passes count for that slot.
    pub counted: bool,
}

impl Source {
    /// Another owner of the same rule. Fails when out of memory.
    pub fn copy(&self) -> Result<Source, AllocError>
        ensures { IfOk result (λ copy. copy ≡ self.now) }
    {
        match self {
            Source::Dynamic(rule) => Ok(Source::Dynamic(rule.copy()?)),
            Source::Predefined(index) => Ok(Source::Predefined(*index)),
        }
    }
}

impl TableEntry {
    /// A copy. Fails when out of memory.
    pub fn copy(&self) -> Result<TableEntry, AllocError>
        ensures { IfOk result (λ copy. copy ≡ self.now) }
    {
        Ok(TableEntry {
            source: self.source.copy()?,
            bearer: self.bearer,
            slot: self.slot,
            counted: self.counted,
        })
    }
}
