//! What a line does.

ghost use Rattle.std.specs.Prelude.{◌≡◌, ◌≤◌, IfOk, OnErr, Some, false, string_bytes};
ghost use Rattle.pcef_line.specs.LineOf.{LineOf};
ghost use Rattle.pcef_model.specs.Journals.{report_count};
ghost use Rattle.pcef_line.specs.declared.fault.LineFault.TheVariants.{LineTooLong};
ghost use Rattle.pcef_line.specs.declared.line.Line.TheVariants.{Show};
ghost use Rattle.pcef_script.specs.LineAnswers.{AnswersBy, AnswersFault, AnswersRead, AnswersReadFault, DoesWorldLine, AnswersStep, LacksBy, LineLacks, ReadLacks, StepLacks};
ghost use Rattle.pcef_script.specs.ScriptAnswers.{DueWithin};

use pcef_answer::{fault_text, show_answer, step_answer};
use pcef_catalog::Detects;
use pcef_line::{Line, LineFault, LineReader};
use pcef_model::Step;
use pcef_world::WorldState;
use simdutf8::basic::from_utf8;
use std::alloc::{AllocError, Global};

/// The answer to a line, and whether the line is at fault.
#[derive(Drop)]
pub struct LineAnswer {
    /// The text, without the line feed.
    pub text: String,
    /// Whether the line is at fault.
    pub is_fault: bool,
}

fn fault(alloc: Global, fault: LineFault) -> Result<LineAnswer, AllocError>
    ensures { AnswersFault fault result }
{
    Ok(LineAnswer {
        text: fault_text(alloc, fault)?,
        is_fault: true,
    })
}

fn show(alloc: Global, world: &WorldState) -> Result<String, AllocError>
    ensures { IfOk result (λ text. DoesWorldLine world.now Show (string_bytes text) world.now) }
{
    show_answer(alloc, world.session())
}

fn step<C: Detects>(
    alloc: Global,
    catalog: &C,
    world: &mut WorldState,
    step: Step,
) -> Result<String, AllocError>
    requires offered { C.offers catalog.now ≡ world.old.session.setting.catalog }
    requires kept { world.old.session.forgotten ≤ report_count world.old.session.journal }
    ensures answer { IfOk result (λ text. AnswersStep world.old step (string_bytes text) world.new) }
    ensures lacks { OnErr result (StepLacks world.old step world.new) }
    ensures setting { world.new.session.setting ≡ world.old.session.setting }
    ensures forgotten { world.new.session.forgotten ≡ world.old.session.forgotten }
{
    let answer = world.step(catalog, step)?;
    let session = world.session();
    step_answer(alloc, session.journal(), session.generation(), &answer)
}

fn line_text<C: Detects>(
    alloc: Global,
    catalog: &C,
    world: &mut WorldState,
    line: Line,
) -> Result<String, AllocError>
    requires offered { C.offers catalog.now ≡ world.old.session.setting.catalog }
    requires kept { world.old.session.forgotten ≤ report_count world.old.session.journal }
    ensures answer { IfOk result (λ text. DoesWorldLine world.old line (string_bytes text) world.new) }
    ensures lacks { OnErr result (LineLacks world.old line world.new) }
    ensures setting { world.new.session.setting ≡ world.old.session.setting }
    ensures forgotten { world.new.session.forgotten ≡ world.old.session.forgotten }
{
    match line {
        Line::Step(asked) => step(alloc, catalog, world, asked),
        Line::Show => show(alloc, world),
    }
}

fn do_step<C: Detects>(
    alloc: Global,
    catalog: &C,
    world: &mut WorldState,
    line: Line,
) -> Result<LineAnswer, AllocError>
    requires offered { C.offers catalog.now ≡ world.old.session.setting.catalog }
    requires kept { world.old.session.forgotten ≤ report_count world.old.session.journal }
    ensures text { IfOk result (λ a. DoesWorldLine world.old line (string_bytes a.text) world.new) }
    ensures counts { IfOk result (λ a. a.is_fault ≡ false) }
    ensures lacks { OnErr result (LineLacks world.old line world.new) }
    ensures setting { world.new.session.setting ≡ world.old.session.setting }
    ensures forgotten { world.new.session.forgotten ≡ world.old.session.forgotten }
{
    Ok(LineAnswer {
        text: line_text(alloc, catalog, world, line)?,
        is_fault: false,
    })
}

/// The answer to a line with the fault that its reader met, or out of memory where it met that.
fn read_fault(alloc: Global, at_fault: LineFault) -> Result<LineAnswer, AllocError>
    ensures { AnswersReadFault at_fault result }
{
    match at_fault {
        LineFault::NoMemory => Err(AllocError),
        _ => fault(alloc, at_fault),
    }
}

/// Does what a line that was read asks for, or answers with its fault, as a script does. A line at fault changes nothing.
/// Takes memory for the answer and for what the session keeps. When out of memory, the session and its workers are as
/// before the line, or as after it.
pub fn answer_read<C: Detects>(
    alloc: Global,
    catalog: &C,
    world: &mut WorldState,
    read: Result<Line, LineFault>,
) -> Result<LineAnswer, AllocError>
    requires offered { C.offers catalog.now ≡ world.old.session.setting.catalog }
    requires kept { world.old.session.forgotten ≤ report_count world.old.session.journal }
    ensures answer { IfOk result (λ a. AnswersRead read world.old a world.new) }
    ensures lacks { OnErr result (ReadLacks read world.old world.new) }
    ensures setting { world.new.session.setting ≡ world.old.session.setting }
    ensures forgotten { world.new.session.forgotten ≡ world.old.session.forgotten }
{
    match read {
        Ok(asked) => do_step(alloc, catalog, world, asked),
        Err(at_fault) => read_fault(alloc, at_fault),
    }
}

fn answer_text<C: Detects>(
    alloc: Global,
    catalog: &C,
    world: &mut WorldState,
    lines: &mut LineReader,
    text: &str,
) -> Result<LineAnswer, AllocError>
    requires offered { C.offers catalog.now ≡ world.old.session.setting.catalog }
    requires kept { world.old.session.forgotten ≤ report_count world.old.session.journal }
    ensures answer { IfOk result (λ a. AnswersBy (LineOf text.now) world.old a world.new) }
    ensures lacks { OnErr result (LacksBy (LineOf text.now) world.old world.new) }
    ensures setting { world.new.session.setting ≡ world.old.session.setting }
    ensures forgotten { world.new.session.forgotten ≡ world.old.session.forgotten }
{
    match lines.read(alloc, text) {
        Ok(line) => do_step(alloc, catalog, world, line),
        Err(at_fault) => read_fault(alloc, at_fault),
    }
}

/// Does what a line within the limit asks for, and answers. A line at fault changes nothing.
pub(crate) fn answer_line<C: Detects>(
    alloc: Global,
    catalog: &C,
    world: &mut WorldState,
    lines: &mut LineReader,
    line: &[u8],
) -> Result<LineAnswer, AllocError>
    requires offered { C.offers catalog.now ≡ world.old.session.setting.catalog }
    requires kept { world.old.session.forgotten ≤ report_count world.old.session.journal }
    ensures answer { IfOk result (λ a.
        AnswersBy (DueWithin (Some line.now)) world.old a world.new) }
    ensures lacks { OnErr result (LacksBy (DueWithin (Some line.now)) world.old world.new) }
    ensures setting { world.new.session.setting ≡ world.old.session.setting }
    ensures forgotten { world.new.session.forgotten ≡ world.old.session.forgotten }
{
    match from_utf8(line) {
        Ok(text) => answer_text(alloc, catalog, world, lines, text),
        Err(_) => fault(alloc, LineFault::NotUtf8),
    }
}

/// The answer to a line that is too long.
pub(crate) fn answer_too_long(alloc: Global) -> Result<LineAnswer, AllocError>
    ensures { AnswersFault LineTooLong result }
{
    fault(alloc, LineFault::LineTooLong)
}
