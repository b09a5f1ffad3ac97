//! The names of rules, by their places.

ghost use Rattle.std.specs.Prelude.{◌≡◌};
ghost use Rattle.pcef_table.specs.Tables.{IsTable};
ghost use Rattle.pcef_handle.specs.Naming.{NamesAt, NamesHeld, NamesIn, NamesNewest};

use crate::held::{Handle, OpenSession};
use crate::text::copy_front;
use crate::worker::WorkerHandle;
use pcef_built_in::ShapedCatalog;
use pcef_index::Indexed;

/// Why no name is written: the first reason in this order.
#[derive(Clone, Copy, Debug, PartialEq, Eq)]
pub enum NameRefusal {
    /// The handle has no session, or no worker.
    NoOwner,
    /// No rule has this place.
    NoRule,
}

/// Writes as much of a rule's name as fits, and returns its length in octets.
pub(crate) fn name_at(
    catalog: &ShapedCatalog,
    held: &Indexed,
    place: u8,
    buffer: &mut [u8],
) -> Result<usize, NameRefusal>
    requires { IsTable catalog.now held.now.entries }
    ensures { NamesAt catalog.now held.now.entries place buffer.old result buffer.new }
{
    match held.table().entry(usize::from(place)) {
        Some(entry) => {
            let name = &entry.source.properties(catalog).name;
            Ok(copy_front(name.as_str().as_bytes(), buffer))
        }
        None => Err(NameRefusal::NoRule),
    }
}

fn name_in_newest(session: &OpenSession, place: u8, buffer: &mut [u8]) -> Result<usize, NameRefusal>
    ensures { NamesNewest session.now place buffer.old result buffer.new }
{
    name_at(
        &session.catalog,
        session.world.session().indexed(),
        place,
        buffer,
    )
}

impl Handle {
    /// Writes the name of the rule at a place of the newest generation, as much of it as fits, to the front of a buffer,
    /// and returns its length in octets, 1 to 64. Takes no memory.
    pub fn rule_name(&self, place: u8, buffer: &mut [u8]) -> Result<usize, NameRefusal>
        ensures { NamesIn self.now.session place buffer.old result buffer.new }
    {
        match &self.session {
            Some(session) => name_in_newest(session, place, buffer),
            None => Err(NameRefusal::NoOwner),
        }
    }
}

impl WorkerHandle {
    /// Writes the name of the rule at a place of the generation that the worker holds, as much of it as fits, to the
    /// front of a buffer, and returns its length in octets, 1 to 64. Takes no memory.
    pub fn rule_name(&self, place: u8, buffer: &mut [u8]) -> Result<usize, NameRefusal>
        ensures { NamesHeld self.now.worker place buffer.old result buffer.new }
    {
        match &self.worker {
            Some(worker) => worker.rule_name(place, buffer),
            None => Err(NameRefusal::NoOwner),
        }
    }
}
