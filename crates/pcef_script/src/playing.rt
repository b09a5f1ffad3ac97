//! Plays a line, and finds whether it is done.

ghost use Rattle.std.specs.Prelude.{◌≡◌, ◌≢◌, IfOk};
ghost use Rattle.pcef_line.specs.declared.fault.LineFault.TheVariants.{NoMemory};
ghost use Rattle.pcef_world.specs.Steps.{NamesKept, reply_of};
ghost use Rattle.pcef_script.specs.private.Playing.{IsOfFault, PlaysBytes, PlaysLine, PlaysStep, FindsAnswer};

use crate::finding::{Finding, Found, found_in};
use crate::lines::{is_blank, line_of};
use pcef_answer::{fault_text, step_answer};
use pcef_catalog::Detects;
use pcef_line::{Line, LineFault, LineReader};
use pcef_model::Step;
use pcef_world::{StepAnswer, WorldState};
use std::alloc::{AllocError, Global};

/// The finding on a line at fault.
fn fault_found(alloc: Global, number: u64, fault: LineFault) -> Result<Finding, AllocError>
    ensures { IfOk result (IsOfFault number fault) }
{
    Ok(Finding {
        line: number,
        found: Found::Fault(fault),
        answer: fault_text(alloc, fault)?,
    })
}

/// The finding on a line at fault, or out of memory where the line's reader met that.
fn read_fault(alloc: Global, number: u64, fault: LineFault) -> Result<Finding, AllocError>
    ensures { IfOk result (λ x. (fault ≢ NoMemory) × IsOfFault number fault x) }
{
    match fault {
        LineFault::NoMemory => Err(AllocError),
        _ => fault_found(alloc, number, fault),
    }
}

/// The finding on a line whose step has this answer.
fn answer_found(
    alloc: Global,
    world: &WorldState,
    number: u64,
    answer: &StepAnswer,
) -> Result<Option<Finding>, AllocError>
    requires { NamesKept world.now.session.forgotten (reply_of answer.now) }
    ensures { IfOk result (FindsAnswer world.now number answer.now) }
{
    let Some(found) = found_in(answer) else {
        return Ok(None);
    };
    let session = world.session();
    Ok(Some(Finding {
        line: number,
        found,
        answer: step_answer(alloc, session.journal(), session.generation(), answer)?,
    }))
}

/// Makes a step. Returns a finding if it is refused. The reports of the steps before it are forgotten.
fn step<C: Detects>(
    alloc: Global,
    catalog: &C,
    world: &mut WorldState,
    number: u64,
    step: Step,
) -> Result<Option<Finding>, AllocError>
    requires { C.offers catalog.now ≡ world.old.session.setting.catalog }
    ensures found { IfOk result (λ finding. PlaysStep world.old number step finding world.new) }
    ensures setting { world.new.session.setting ≡ world.old.session.setting }
{
    world.forget();
    let answer = world.step(catalog, step)?;
    answer_found(alloc, world, number, &answer)
}

/// Does what a line asks for. Returns a finding if it isn't done.
fn line_found<C: Detects>(
    alloc: Global,
    catalog: &C,
    world: &mut WorldState,
    number: u64,
    line: Line,
) -> Result<Option<Finding>, AllocError>
    requires { C.offers catalog.now ≡ world.old.session.setting.catalog }
    ensures found { IfOk result (λ finding. PlaysLine world.old number line finding world.new) }
    ensures setting { world.new.session.setting ≡ world.old.session.setting }
{
    match line {
        Line::Step(asked) => step(alloc, catalog, world, number, asked),
        Line::Show => Ok(None),
    }
}

/// Reads a line, and does what it asks for. Returns a finding if it isn't done. A blank line has none.
pub(crate) fn play<C: Detects>(
    alloc: Global,
    catalog: &C,
    world: &mut WorldState,
    lines: &mut LineReader,
    number: u64,
    bytes: &[u8],
) -> Result<Option<Finding>, AllocError>
    requires { C.offers catalog.now ≡ world.old.session.setting.catalog }
    ensures found { IfOk result (λ finding. PlaysBytes world.old number bytes.now finding world.new) }
    ensures setting { world.new.session.setting ≡ world.old.session.setting }
{
    if is_blank(bytes) {
        return Ok(None);
    }
    match line_of(alloc, lines, bytes) {
        Ok(line) => line_found(alloc, catalog, world, number, line),
        Err(fault) => Ok(Some(read_fault(alloc, number, fault)?)),
    }
}
