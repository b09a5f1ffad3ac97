//! One who reads what was published.

ghost use Rattle.std.specs.Prelude.{◌≡◌, ◌+◌, IfSome, IfOk, OnErr, length};
ghost use mathlib.Core.List.{IsPrefix};
ghost use Rattle.std.specs.Arc.{arc_value};
ghost use Rattle.pcef_table.specs.Tables.{IsTable};
ghost use Rattle.pcef_publish.specs.Lists.{EndsWith, IsSeen};

use crate::publication::Publication;
use crate::publisher::Publisher;
use crate::shown::{Board, Cell, Shown};
use left_right::ReadHandle;
use pcef_index::Indexed;
use pcef_share::Naming;
use std::alloc::AllocError;
use std::marker::Model;
use std::sync::Arc;

/// Holds a published table. Contracts see the list of tables that it has seen, of which it holds the
/// last.
pub struct Subscriber<N: Naming> {
    reader: ReadHandle<Shown<N>>,
    held: Publication<N>,
}

// Written out, so that an owner proves one call on each return path.
impl<N: Naming> Drop for Subscriber<N> {
    fn drop(self) {
        let Subscriber { reader: _, held: _ } = self;
    }
}

impl<N: Naming> Model for Subscriber<N> {
    ghost use Rattle.std.specs.Prelude.{List};
    ghost use Rattle.pcef_table.specs.Tables.{TableValue};

    ghost Value = { List TableValue };

    ghost view = { λ s. s.held };
}

// Reads once, with no lock.
fn newer<N: Naming>(
    reader: &mut ReadHandle<Shown<N>>,
    held: &Publication<N>,
) -> Option<Publication<N>>
    ensures { IfSome result (λ e. IsPrefix held.now e) }
{
    let guard = reader.enter()?;
    let entry = guard.slot.get()?;
    if entry.begins(held) {
        return None;
    }
    entry.again().ok()
}

impl<N: Naming> Subscriber<N> {
    pub(crate) fn new(reader: ReadHandle<Shown<N>>, held: Publication<N>) -> Subscriber<N>
        ensures { result ≡ held }
    {
        Subscriber { reader, held }
    }

    /// The generation that is held, and its table. Neither waits nor takes memory.
    pub fn current(&self) -> (u32, &Arc<Indexed>)
        ensures number { result.0 ≡ (arc_value result.1.now).number }
        ensures last { EndsWith self.now (arc_value result.1.now) }
        ensures count { result.0 + 1 ≡ N.first + length self.now }
        ensures seen { IsSeen N.first self.now result.0 (arc_value result.1.now) }
        ensures table { IsTable N.setting.catalog (arc_value result.1.now).entries }
    {
        self.held.current()
    }

    /// Reads once, with no lock, and returns the generation that is then held, which is never older than
    /// before. Where the board gives no reading or no copy, the table held stays.
    pub fn refresh(&mut self) -> u32
        ensures grows { IsPrefix self.old self.new }
        ensures number { result + 1 ≡ N.first + length self.new }
    {
        if let Some(entry) = newer(&mut self.reader, &self.held) {
            self.held = entry;
        }
        self.current().0
    }

    /// Shows that what was seen is a beginning of what is published. It changes neither, takes no memory
    /// and can't fail.
    pub fn compare<W: Board<Cell<N>> + Drop>(&self, publisher: &mut Publisher<N, W>)
        ensures begins { IsPrefix self.now publisher.old }
        ensures publisher { publisher.new ≡ publisher.old }
    {
        publisher.compare(&self.held.front);
    }

    /// Takes the newest table: what was seen is then all that is published. Where a further owner of the
    /// table is refused, the table held stays. The publisher is as it was. Counts as a call that may wait,
    /// as every call with a publisher, though nothing in it does.
    pub fn meet<W: Board<Cell<N>> + Drop>(
        &mut self,
        publisher: &mut Publisher<N, W>,
    ) -> Result<(), AllocError>
        ensures grows { IsPrefix self.old self.new }
        ensures newest { IfOk result (λ _. self.new ≡ publisher.old) }
        ensures refused { OnErr result (self.new ≡ self.old) }
        ensures publisher { publisher.new ≡ publisher.old }
    {
        self.compare(publisher);
        self.held = publisher.newest().again()?;
        Ok(())
    }
}
