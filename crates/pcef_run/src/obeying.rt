//! Commands that a session is given before it runs.

ghost use Rattle.std.specs.Prelude.{◌≡◌, All, IfOk};
ghost use Rattle.std.specs.List.{count_by};
ghost use Rattle.pcef_gateway.specs.Commanding.{FoundMemory};
ghost use Rattle.pcef_run.specs.Runs.{ObeyedBy, is_accepted};

use pcef_gateway::CommandAnswer;
use pcef_journaled::JournaledState;
use pcef_model::{Command, Refusal};
use std::alloc::{AllocError, Global};

/// Gives commands to a session, and keeps the answers. Fails when out of memory, also at a command.
pub(crate) fn obey(
    alloc: Global,
    session: &mut JournaledState,
    commands: Vec<Command>,
) -> Result<Vec<CommandAnswer>, AllocError>
    ensures answers { IfOk result (λ v. ObeyedBy session.old.session commands.items v.items
        session.new.session) }
    ensures memory { IfOk result (λ v. All FoundMemory v.items) }
    ensures setting { session.new.session.setting ≡ session.old.session.setting }
{
    let mut answers = Vec::new(alloc);
    for command in commands {
        match session.command(command) {
            Err(Refusal::NoMemory) => return Err(AllocError),
            answer => answers.push(answer)?,
        }
    }
    Ok(answers)
}

/// How many commands were accepted.
pub(crate) fn accepted_among(answers: &[CommandAnswer]) -> u64
    ensures { result ≡ count_by is_accepted answers.now }
{
    answers.iter().filter(|answer| answer.is_ok()).count() as u64
}
