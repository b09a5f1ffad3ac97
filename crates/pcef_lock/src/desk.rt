//! Who gives commands to a session that threads share.

ghost use Rattle.std.specs.Prelude.{◌≡◌, ◌+◌, ◌⊎◌, Err, IfOk, OnErr, length, reverse};
ghost use Rattle.pcef_model.specs.Entries.{commands};
ghost use Rattle.pcef_model.specs.declared.answer.Refusal.TheVariants.{NoMemory};
ghost use Rattle.pcef_share.specs.Amounts.{command_ledger, plus, zeros};
ghost use Rattle.pcef_lock.specs.Desks.{IsAnswerDue, listed};
ghost use Rattle.pcef_lock.specs.Reports.{AreNumbered};

use crate::shared::Shared;
use pcef_catalog::Offers;
use pcef_journaled::{Commands, JournaledState};
use pcef_model::{Accepted, Command, Refusal, Report};
use pcef_publish::{Board, Cell};
use pcef_share::{Naming, Pooling, Shares};
use std::alloc::{AllocError, Global};
use std::marker::Model;
use std::sync::Wait;

/// Gives the commands of a session and collects its reports. It keeps a list of the commands that were accepted and
/// changed something; its share counts as many.
pub struct Desk<N: Naming> {
    commands: Vec<Command>,
    shares: Shares<N>,
    collected: u64,
}

// Written out, so that an owner proves one call on each return path.
impl<N: Naming> Drop for Desk<N> {
    fn drop(self) {
        let Desk {
            commands: _,
            shares: _,
            collected: _,
        } = self;
    }
}

impl<N: Naming> Model for Desk<N> {
    ghost use Rattle.std.specs.Prelude.{◌≡◌, length};
    ghost use Rattle.pcef_share.specs.Amounts.{command_ledger, plus, zeros};
    ghost use Rattle.pcef_lock.specs.Desks.{DeskModel};

    ghost Value = { DeskModel };

    ghost view = { λ d. record { commands = d.commands.items; collected = d.collected } };

    ghost invariant = { λ d. d.shares ≡ plus zeros command_ledger (length d.commands.items) };
}

/// Copies of commands.
fn copies(alloc: Global, commands: Commands<'_>) -> Result<Vec<Command>, AllocError>
    ensures { IfOk result (λ v. v.items ≡ commands.entry) }
{
    let mut list = Vec::new(alloc);
    for command in commands {
        list.push(command.copy()?)?;
    }
    Ok(list)
}

/// The commands of a session so far, in order. Takes memory for them.
pub fn commands_so_far(alloc: Global, session: &JournaledState) -> Result<Vec<Command>, AllocError>
    ensures { IfOk result (λ v. v.items ≡ reverse (commands session.now.session.journal)) }
{
    copies(alloc, session.commands())
}

impl<N: Naming> Desk<N> {
    /// A desk with these commands, as many as its shares hold, and no report collected.
    pub fn new(commands: Vec<Command>, shares: Shares<N>) -> Desk<N>
        requires { shares ≡ plus zeros command_ledger (length commands.items) }
        ensures { result ≡ record { commands = commands.items; collected = 0 } }
    {
        Desk {
            commands,
            shares,
            collected: 0,
        }
    }

    /// The commands that were accepted and changed something, in order.
    pub fn commands(&self) -> &[Command]
        ensures { result.now ≡ self.now.commands }
    {
        self.commands.as_slice()
    }

    /// The shares of the commands.
    pub(crate) fn into_shares(self) -> Shares<N>
        ensures { result ≡ plus zeros command_ledger (length self.commands) }
    {
        let Desk {
            commands: _,
            shares,
            collected: _,
        } = self;
        shares
    }

    /// Gives a command, and answers as [`crate::State::command`] does, or, for a session on a pool, as
    /// [`crate::State::command_within`]. A command that is accepted and changes something is added to the desk's list
    /// and to its share. Takes memory, and may answer out of memory before another refusal is seen. Waits for the lock,
    /// for the pool's where there is one, and may wait for readers of the publication.
    pub fn command<C: Offers + Drop, W: Board<Cell<N>> + Drop, P: Pooling, R: Wait>(
        &mut self,
        rt: &R,
        shared: &Shared<C, N, W, P>,
        command: Command,
    ) -> Result<Accepted, Refusal>
        ensures list { self.new.commands ≡ listed result command self.old.commands }
        ensures collected { self.new.collected ≡ self.old.collected }
        ensures due { (result ≡ Err NoMemory) ⊎ IsAnswerDue N.setting P.is_there command result }
    {
        let Ok(copy) = command.copy() else {
            return Err(Refusal::NoMemory);
        };
        if self.commands.reserve(1).is_err() {
            return Err(Refusal::NoMemory);
        }
        match shared.command(rt, &mut self.shares, command) {
            Err(refusal) => Err(refusal),
            Ok(accepted) => {
                if !accepted.unchanged {
                    self.commands.push_reserved(copy);
                }
                Ok(accepted)
            }
        }
    }

    /// The reports since those that were collected before, in order, without a gap. Takes memory for them; where there
    /// is none, they can be collected again. Waits for the lock.
    pub fn collect<C: Offers + Drop, W: Board<Cell<N>> + Drop, P: Pooling, R: Wait>(
        &mut self,
        rt: &R,
        shared: &Shared<C, N, W, P>,
    ) -> Result<Vec<Report>, AllocError>
        ensures numbered { IfOk result (λ v. AreNumbered self.old.collected v.items) }
        ensures collected { IfOk result (λ v.
            self.new.collected ≡ self.old.collected + length v.items) }
        ensures refused { OnErr result (self.new ≡ self.old) }
        ensures commands { self.new.commands ≡ self.old.commands }
    {
        let reports = shared.collect(rt, self.collected)?;
        self.collected += reports.len() as u64;
        Ok(reports)
    }
}
