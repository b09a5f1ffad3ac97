//! Commands that are prepared, with what an archive keeps of them.

ghost use Rattle.std.specs.Prelude.{◌≡◌, ◌≤◌, ◌++◌, IfOk, OnOk, length};
ghost use Rattle.std.specs.Option.{option_to_list};
ghost use Rattle.pcef_journaled.specs.Archiving.{change_of, entries_for};

use crate::archive::Archive;
use pcef_model::Command;
use pcef_session::Prepared;
use std::alloc::AllocError;
use std::marker::Model;

/// A command that a session accepts next, and the copy of it that the archive will keep. Contracts see what was
/// prepared.
#[derive(Drop)]
pub struct JournaledCommand {
    prepared: Prepared,
    kept: Option<Command>,
}

impl Model for JournaledCommand {
    ghost use Rattle.std.specs.Prelude.{◌≡◌};
    ghost use Rattle.pcef_session.specs.declared.prepared.Prepared.{Prepared};
    ghost use Rattle.pcef_journaled.specs.Archiving.{change_of};

    ghost Value = { Prepared };

    ghost view = { λ c. c.prepared };

    ghost invariant = { λ c. c.kept ≡ change_of c.prepared };
}

impl JournaledCommand {
    /// Pairs a prepared command with its copy for the archive, and makes room there for all its entries and for the
    /// leaving of `attached` workers. Takes memory.
    pub(crate) fn new(
        archive: &mut Archive,
        prepared: Prepared,
        attached: usize,
    ) -> Result<JournaledCommand, AllocError>
        requires { attached ≤ 16 }
        ensures command { IfOk result (λ c. c ≡ prepared) }
        ensures rows { archive.new.rows ≡ archive.old.rows }
        ensures keeps { archive.new.keeps ≡ archive.old.keeps }
        ensures commands { archive.new.commands ≡ archive.old.commands }
        ensures kept { archive.old.room ≤ archive.new.room }
        ensures room { OnOk result (entries_for prepared attached ≤ archive.new.room) }
    {
        let kept = kept_of(archive, &prepared, attached)?;
        Ok(JournaledCommand { prepared, kept })
    }

    /// What was prepared.
    pub fn prepared(&self) -> &Prepared
        ensures { result.now ≡ self.now }
    {
        &self.prepared
    }

    /// What was prepared, and the copy of the command if it changes something.
    pub(crate) fn into_parts(self) -> (Prepared, Option<Command>)
        ensures prepared { result.0 ≡ self }
        ensures kept { result.1 ≡ change_of self }
    {
        let JournaledCommand { prepared, kept } = self;
        (prepared, kept)
    }
}

/// A copy of the command that was prepared, where it changes something, and room for it.
fn kept_of(
    archive: &mut Archive,
    prepared: &Prepared,
    attached: usize,
) -> Result<Option<Command>, AllocError>
    requires { attached ≤ 16 }
    ensures command { IfOk result (λ c. c ≡ change_of prepared.now) }
    ensures rows { archive.new.rows ≡ archive.old.rows }
    ensures keeps { archive.new.keeps ≡ archive.old.keeps }
    ensures commands { archive.new.commands ≡ archive.old.commands }
    ensures kept { archive.old.room ≤ archive.new.room }
    ensures room { OnOk result (entries_for prepared.now attached ≤ archive.new.room) }
{
    match prepared {
        Prepared::Unchanged(_) => Ok(None),
        Prepared::Changing(change) => {
            archive.reserve(change.reports.len() + 9 + attached)?;
            Ok(Some(change.command.copy()?))
        }
    }
}

/// Keeps a command, where there is one.
pub(crate) fn keep(archive: &mut Archive, command: Option<Command>)
    requires { length (option_to_list command) ≤ archive.old.room }
    ensures rows { archive.new.rows ≡ archive.old.rows }
    ensures keeps { archive.new.keeps ≡ archive.old.keeps }
    ensures commands { archive.new.commands ≡ option_to_list command ++ archive.old.commands }
{
    if let Some(command) = command {
        archive.add_command(command);
    }
}
