//! Reads the plan of a run.

ghost use Rattle.std.specs.Prelude.{IfErr, IfOk};
ghost use Rattle.pcef_script.specs.Scripts.{all_lines};
ghost use Rattle.pcef_run.specs.Plans.{AddsBytes, ArePlanned, FailsIn, IsUnfit, Plans};
ghost use Rattle.pcef_run.specs.Reasons.{IsFor};

use crate::fault::PlanFault;
use crate::input::read_all;
use crate::plan::Plan;
use crate::unfit::{Untaken, untaken_for};
use pcef_line::LineReader;
use pcef_script::{first_line, is_blank, line_of};
use std::alloc::Global;
use std::io::Read;

/// Adds what a line asks for to a plan of the lines before it.
fn plan_line(
    alloc: Global,
    reader: &mut LineReader,
    plan: &mut Plan,
    bytes: &[u8],
    workers: u8,
) -> Result<(), Untaken>
    ensures planned { AddsBytes workers bytes.now plan.old result plan.new }
    ensures unfit { IfErr result (IsFor (IsUnfit workers bytes.now)) }
{
    if is_blank(bytes) {
        return Ok(());
    }
    match line_of(alloc, reader, bytes) {
        Ok(line) => plan.add(line, workers),
        Err(fault) => Err(untaken_for(fault)),
    }
}

/// The plan of the lines of an input.
fn plan_of(alloc: Global, input: &[u8], workers: u8) -> Result<Plan, PlanFault>
    ensures plan { IfOk result (λ plan. ArePlanned workers (all_lines input.now) plan) }
    ensures fault { IfErr result (λ e. FailsIn workers (all_lines input.now) e) }
{
    let mut plan = Plan::new(alloc);
    let mut reader = LineReader::new(alloc);
    let mut number = 0u64;
    let mut rest = input;
    loop {
        let (line, later) = first_line(rest);
        number += 1;
        match plan_line(alloc, &mut reader, &mut plan, line, workers) {
            Ok(()) => {}
            Err(untaken) => return Err(PlanFault::at(alloc, number, line, 0, untaken)),
        }
        match later {
            Some(later) => rest = later,
            None => return Ok(plan),
        }
    }
}

/// Reads an input to its end, and returns what its lines ask of a run with `workers` workers: commands, and packets for
/// these workers. Lines are those of a script, and blank ones are passed over. Keeps the whole input, at most
/// 1,073,741,824 bytes, until all lines are read. Takes memory for it and for the plan.
///
/// Answers the first [`PlanFault`] that it meets: that of the reader, an input that is too long, out of memory, or,
/// once all is read, the first line that is at fault, is neither a command nor a packet, or names another worker, with
/// the reason. Takes memory to put the reason in words.
pub fn read_plan<R: Read>(alloc: Global, reader: &mut R, workers: u8) -> Result<Plan, PlanFault>
    ensures { Plans workers result (R.remaining reader.old) (R.remaining reader.new) }
{
    let input = read_all(alloc, reader)?;
    plan_of(alloc, &input, workers)
}
