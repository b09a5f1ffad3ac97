//! Lines that are commands.

ghost use Rattle.std.specs.Prelude.{◌≡◌};
ghost use Rattle.serde_json.specs.View.{view};
ghost use Rattle.pcef_filter.specs.Reading.{reading_of};
ghost use Rattle.pcef_line.specs.declared.word.Word.TheVariants.{Activate, Install, Lose, Monitor, Notice, Remove, Report, Stop, Triggers};
ghost use Rattle.pcef_line.specs.LineValues.{Gives};
ghost use Rattle.pcef_line.specs.LineTriggers.{event_at, triggers_at};
ghost use Rattle.pcef_line.specs.LineOf.{fields_at, of_command};

use crate::fault::LineFault;
use crate::field::Field;
use crate::level::level_field;
use crate::line::Line;
use crate::rule::rule;
use crate::trigger::{are_triggers, event_of, set_of};
use crate::values::{list_field, name_field, number_field, object_field, text_field};
use pcef_model::{AccessKind, Command, Step, TriggerSet};
use pcef_rule::BearerId;
use serde_json::Value;
use std::alloc::Global;

/// The line of a command.
pub(crate) fn of_command(command: Command) -> Line
    ensures { result ≡ of_command command }
{
    Line::Step(Step::Command(command))
}

#[tactic(auto, unfolding(crate::specs::LineTriggers::event_at))]
fn event_field(line: &Value) -> Result<AccessKind, LineFault>
    ensures { Gives (λ k. k) result (event_at (view line.now)) }
{
    match event_of(text_field(line, Field::Event, Field::Event)?) {
        Some(kind) => Ok(kind),
        None => Err(LineFault::BadField(Field::Event)),
    }
}

#[tactic(auto, unfolding(crate::specs::LineTriggers::triggers_at))]
fn triggers_field(line: &Value) -> Result<TriggerSet, LineFault>
    ensures { Gives (λ s. s) result (triggers_at (view line.now)) }
{
    let events = list_field(line, Field::Events)?;
    if !are_triggers(events) {
        return Err(LineFault::BadField(Field::Events));
    }
    Ok(set_of(events))
}

#[tactic(auto, unfolding(crate::specs::LineOf::fields_at))]
pub(crate) fn install(alloc: Global, line: &Value) -> Result<Line, LineFault>
    ensures { Gives (λ l. l) result (fields_at reading_of Install (view line.now)) }
{
    let rule = rule(alloc, object_field(line, Field::Rule)?)?;
    Ok(of_command(Command::Install(rule)))
}

#[tactic(auto, unfolding(crate::specs::LineOf::fields_at))]
pub(crate) fn activate(line: &Value) -> Result<Line, LineFault>
    ensures { Gives (λ l. l) result (fields_at reading_of Activate (view line.now)) }
{
    Ok(of_command(Command::Activate(name_field(line, Field::Name)?)))
}

#[tactic(auto, unfolding(crate::specs::LineOf::fields_at))]
pub(crate) fn remove(line: &Value) -> Result<Line, LineFault>
    ensures { Gives (λ l. l) result (fields_at reading_of Remove (view line.now)) }
{
    Ok(of_command(Command::Remove(name_field(line, Field::Name)?)))
}

#[tactic(auto, unfolding(crate::specs::LineOf::fields_at))]
pub(crate) fn monitor(line: &Value) -> Result<Line, LineFault>
    ensures { Gives (λ l. l) result (fields_at reading_of Monitor (view line.now)) }
{
    let key = name_field(line, Field::Key)?;
    let grant = number_field(line, Field::Grant, Field::Grant, 0, u64::MAX)?;
    let level = level_field(line)?;
    Ok(of_command(Command::Monitor { key, grant, level }))
}

#[tactic(auto, unfolding(crate::specs::LineOf::fields_at))]
pub(crate) fn stop(line: &Value) -> Result<Line, LineFault>
    ensures { Gives (λ l. l) result (fields_at reading_of Stop (view line.now)) }
{
    Ok(of_command(Command::Stop(name_field(line, Field::Key)?)))
}

#[tactic(auto, unfolding(crate::specs::LineOf::fields_at))]
pub(crate) fn report(line: &Value) -> Result<Line, LineFault>
    ensures { Gives (λ l. l) result (fields_at reading_of Report (view line.now)) }
{
    Ok(of_command(Command::ReportNow(name_field(line, Field::Key)?)))
}

#[tactic(auto, unfolding(crate::specs::LineOf::fields_at))]
pub(crate) fn triggers(line: &Value) -> Result<Line, LineFault>
    ensures { Gives (λ l. l) result (fields_at reading_of Triggers (view line.now)) }
{
    Ok(of_command(Command::Triggers(triggers_field(line)?)))
}

#[tactic(auto, unfolding(crate::specs::LineOf::fields_at))]
pub(crate) fn notice(line: &Value) -> Result<Line, LineFault>
    ensures { Gives (λ l. l) result (fields_at reading_of Notice (view line.now)) }
{
    let kind = event_field(line)?;
    let value = name_field(line, Field::Value)?;
    Ok(of_command(Command::Notice { kind, value }))
}

#[tactic(auto, unfolding(crate::specs::LineOf::fields_at))]
pub(crate) fn lose(line: &Value) -> Result<Line, LineFault>
    ensures { Gives (λ l. l) result (fields_at reading_of Lose (view line.now)) }
{
    let bearer = number_field(line, Field::Bearer, Field::Bearer, 0, 255)? as u8;
    Ok(of_command(Command::LoseBearer(BearerId(bearer))))
}
