//! Lists that are compared with a journal.

ghost use Rattle.std.specs.Prelude.{◌≡◌, ◌↔◌, IsTrue, map};
ghost use Rattle.pcef_session.specs.Following.{row_of};

use crate::sameness::{is_same_command, is_same_row};
use pcef_journaled::{Commands, Lane};
use pcef_model::Command;
use pcef_session::Item;

/// Whether these are the commands of a journal.
pub fn are_commands(list: &[Command], commands: Commands<'_>) -> bool
    ensures { IsTrue result ↔ (list.now ≡ commands.entry) }
{
    let mut commands = commands;
    for listed in list {
        match commands.next() {
            Some(command) if is_same_command(listed, command) => {}
            _ => return false,
        }
    }
    commands.next().is_none()
}

/// Whether these are the rows of a lane.
pub fn is_lane(items: &[Item], lane: Lane<'_>) -> bool
    ensures { IsTrue result ↔ (map row_of items.now ≡ lane.entry) }
{
    let mut lane = lane;
    for item in items {
        match lane.next() {
            Some(row) if is_same_row(&item.row, &row) => {}
            _ => return false,
        }
    }
    lane.next().is_none()
}
