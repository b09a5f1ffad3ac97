//! What an input asks of a run.

ghost use Rattle.std.specs.Prelude.{◌≡◌, [], IfErr, None, OnOk, Some};
ghost use Rattle.pcef_run.specs.Plans.{AddsLine, IsPlanOf, line_of_command, packet_line, unfit_for};
ghost use Rattle.pcef_run.specs.Reasons.{IsFor};

use crate::unfit::{Unfit, Untaken};
use pcef_gateway::Arrival;
use pcef_line::Line;
use pcef_model::{Command, Step};
use pcef_packet::PackedHeader;
use std::alloc::{AllocError, Global};

/// What an input asks of a run: commands, then packets and, apart from these, the commands after the first of them.
#[derive(Drop)]
pub struct Plan {
    /// The commands that stand before the first packet.
    pub first: Vec<Command>,
    /// The packets, each with its worker, in order.
    pub arrivals: Vec<Arrival>,
    /// The commands that stand after the first packet.
    pub later: Vec<Command>,
}

impl Plan {
    /// Nothing is asked for yet.
    pub(crate) fn new(alloc: Global) -> Plan
        ensures { IsPlanOf [] result }
    {
        Plan {
            first: Vec::new(alloc),
            arrivals: Vec::new(alloc),
            later: Vec::new(alloc),
        }
    }

    fn add_command(&mut self, command: Command) -> Result<(), AllocError>
        ensures { AddsLine (line_of_command command) self.old result self.new }
    {
        if self.arrivals.is_empty() {
            self.first.push(command)?;
        } else {
            self.later.push(command)?;
        }
        Ok(())
    }

    fn add_packet(&mut self, arrival: Arrival) -> Result<(), AllocError>
        ensures { AddsLine (packet_line arrival) self.old result self.new }
    {
        self.arrivals.push(arrival)?;
        Ok(())
    }

    /// Adds what a line asks for, if it is a command or a packet for one of `workers` workers.
    pub(crate) fn add(&mut self, line: Line, workers: u8) -> Result<(), Untaken>
        ensures fits { OnOk result (unfit_for workers line ≡ None) }
        ensures plan { AddsLine line self.old result self.new }
        ensures unfit { IfErr result (IsFor (λ why. unfit_for workers line ≡ Some why)) }
    {
        let added = match line {
            Line::Step(Step::Command(command)) => self.add_command(command),
            Line::Step(Step::Take { worker, header }) if worker < workers => {
                let header = PackedHeader::new(&header);
                self.add_packet(Arrival { header, worker })
            }
            Line::Step(Step::Take { .. }) => {
                return Err(Untaken::Unfit(Unfit::NoWorker(workers)));
            }
            _ => return Err(Untaken::Unfit(Unfit::NotOfRun)),
        };
        match added {
            Ok(()) => Ok(()),
            Err(_) => Err(Untaken::NoMemory),
        }
    }
}
