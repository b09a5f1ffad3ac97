//! Walks over what an archive keeps, from the oldest on.

ghost use Rattle.std.specs.Prelude.{◌≡◌, length};
ghost use Rattle.std.specs.Iterator.{YieldsFirst, YieldsFirstRef, item_count};
ghost use Rattle.pcef_journaled.specs.KeptRows.{ArePlaced, lane_in};

use crate::kept_row::KeptRow;
use pcef_model::{Command, Row};
use pcef_rule::RuleName;
use std::marker::Model;

/// The rows of a worker. A row is made anew, with the name of its rule.
#[derive(Drop)]
pub struct Lane<'a> {
    rest: &'a [KeptRow],
    names: &'a [RuleName],
    worker: u8,
}

impl<'a> Model for Lane<'a> {
    ghost use Rattle.std.specs.Prelude.{List, length};
    ghost use Rattle.pcef_model.specs.declared.row.Row.{Row};
    ghost use Rattle.pcef_journaled.specs.KeptRows.{ArePlaced, lane_in};

    ghost Value = { List Row };

    ghost view = { λ l. lane_in l.worker l.names.now l.rest.now };

    ghost invariant = { λ l. ArePlaced (length l.names.now) l.rest.now };
}

impl<'a> Lane<'a> {
    pub(crate) fn new(rest: &'a [KeptRow], names: &'a [RuleName], worker: u8) -> Self
        requires { ArePlaced (length names.now) rest.now }
        ensures { result ≡ lane_in worker names.now rest.now }
    {
        Lane {
            rest,
            names,
            worker,
        }
    }
}

impl<'a> Iterator for Lane<'a> {
    type Item = Row;

    ghost next_gives = { YieldsFirst (λ rows. rows) };

    ghost remaining = { item_count (λ rows. rows) };

    fn next(&mut self) -> Option<Row> {
        while let Some((first, others)) = self.rest.split_first() {
            self.rest = others;
            if first.worker() == self.worker {
                return Some(first.row(self.names));
            }
        }
        None
    }
}

/// The commands of a session.
#[derive(Drop)]
pub struct Commands<'a> {
    rest: &'a [Command],
}

impl<'a> Model for Commands<'a> {
    ghost use Rattle.std.specs.Prelude.{List};
    ghost use Rattle.pcef_model.specs.declared.command.Command.{Command};

    ghost Value = { List Command };

    ghost view = { λ c. c.rest.now };
}

impl<'a> Commands<'a> {
    pub(crate) fn new(rest: &'a [Command]) -> Self
        ensures { result ≡ rest.now }
    {
        Commands { rest }
    }
}

impl<'a> Iterator for Commands<'a> {
    type Item = &'a Command;

    ghost next_gives = { YieldsFirstRef (λ commands. commands) };

    ghost remaining = { item_count (λ commands. commands) };

    fn next(&mut self) -> Option<&'a Command> {
        let (command, others) = self.rest.split_first()?;
        self.rest = others;
        Some(command)
    }
}
