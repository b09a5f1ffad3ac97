//! The lines that make a new session like an open one.

ghost use Rattle.std.specs.Prelude.{◌≡◌, ◌↔◌, Err, IfOk, OnOk, Some, map, string_bytes, true};
ghost use Rattle.pcef_packet.specs.AddressTexts.{address_of};
ghost use Rattle.pcef_model.specs.Refusals.{was_terminated};
ghost use Rattle.pcef_renewal_lines.specs.Addresses.{address_text};
ghost use Rattle.pcef_renewal_lines.specs.Commands.{ReadsBack, line_text};
ghost use Rattle.pcef_renewal_lines.specs.Lines.{AreReadable, HasLines, lines_for, open_text, session_lines};
ghost use Rattle.pcef_renewal_lines.specs.private.Written.{AreAdded, AreLines, IsLine};

use crate::address::address_text;
use crate::command::line_text;
use crate::reading::reads_as;
use pcef_model::Command;
use pcef_packet::Addr;
use pcef_renewal::{ListFault, renewal};
use pcef_session::SessionState;
use std::alloc::{AllocError, Global};
use thiserror::Error;

/// Why there are no lines for a session. Of several refusals the first in this order is answered.
#[derive(Clone, Copy, Debug, PartialEq, Eq, Error)]
pub enum LinesRefusal {
    /// The session was terminated.
    #[error("the session was terminated")]
    Terminated,
    /// A line wouldn't read as its command. No session whose commands were read from lines has such a command.
    #[error("a line wouldn't read as its command")]
    Unwritable,
    /// There is no memory left.
    #[error("there is no memory left")]
    NoMemory,
}

/// The line that opens a session with this address, if its address reads as this one.
fn open_line(alloc: Global, ue: Addr) -> Result<Option<String>, AllocError>
    ensures { IfOk result (λ line. IsLine line (address_of (address_text ue) ≡ Some ue)
        (open_text ue)) }
{
    let address = address_text(alloc, ue)?;
    if Addr::from_text(address.as_bytes()) != Some(ue) {
        return Ok(None);
    }
    let line = format!(in alloc; "{{\"do\":\"open\",\"ue\":\"{address}\"}}")?;
    Ok(Some(line))
}

/// The line of a command, if it reads as this one.
fn command_line(alloc: Global, command: &Command) -> Result<Option<String>, AllocError>
    ensures { IfOk result (λ line. IsLine line (ReadsBack command.now)
        (line_text command.now)) }
{
    let text = line_text(alloc, command)?;
    if reads_as(alloc, &text, command)? {
        Ok(Some(text))
    } else {
        Ok(None)
    }
}

/// Adds the lines of commands, up to one that doesn't read as its command. Returns whether all were added.
fn push_lines(alloc: Global, lines: &mut Vec<String>, list: &[Command]) -> Result<bool, AllocError>
    ensures { IfOk result (λ all. AreAdded all list.now lines.old.items lines.new.items) }
{
    for command in list {
        match command_line(alloc, command)? {
            Some(line) => {
                lines.push(line)?;
            }
            None => return Ok(false),
        }
    }
    Ok(true)
}

/// An `open` with this address, and the lines of these commands, if each reads as what it was made of.
fn lines_for(alloc: Global, ue: Addr, list: &[Command]) -> Result<Option<Vec<String>>, AllocError>
    ensures { IfOk result (λ lines. AreLines lines (AreReadable ue list.now)
        (lines_for ue list.now)) }
{
    let Some(open) = open_line(alloc, ue)? else {
        return Ok(None);
    };
    let mut lines = Vec::new(alloc);
    lines.push(open)?;
    if push_lines(alloc, &mut lines, list)? {
        Ok(Some(lines))
    } else {
        Ok(None)
    }
}

/// The lines that make a new session like this one, in their order: its `open`, with its own address, and one for each
/// command of its renewal. Or the first refusal in the order of [`LinesRefusal`]. Takes memory for the lines.
pub fn renewal_lines(alloc: Global, session: &SessionState) -> Result<Vec<String>, LinesRefusal>
    ensures terminated { (result ≡ Err LinesRefusal.Terminated)
        ↔ (was_terminated session.now.journal ≡ true) }
    ensures unwritable { result ≡ Err LinesRefusal.Unwritable
        → ¬ (HasLines session.now.setting session.now.journal) }
    ensures readable { OnOk result (HasLines session.now.setting session.now.journal) }
    ensures lines { IfOk result (λ lines. map string_bytes lines.items
        ≡ session_lines session.now.setting session.now.journal) }
{
    let list = match renewal(alloc, session) {
        Ok(list) => list,
        Err(ListFault::Terminated) => return Err(LinesRefusal::Terminated),
        Err(ListFault::NoMemory) => return Err(LinesRefusal::NoMemory),
    };
    match lines_for(alloc, session.profile().ue, &list) {
        Ok(Some(lines)) => Ok(lines),
        Ok(None) => Err(LinesRefusal::Unwritable),
        Err(_) => Err(LinesRefusal::NoMemory),
    }
}
