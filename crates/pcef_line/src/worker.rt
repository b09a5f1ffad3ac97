//! Lines that are steps of workers.

ghost use Rattle.serde_json.specs.View.{view};
ghost use Rattle.pcef_filter.specs.Reading.{reading_of};
ghost use Rattle.pcef_line.specs.declared.word.Word.TheVariants.{Abandon, Finish, Flush, Refresh, Take};
ghost use Rattle.pcef_line.specs.LineValues.{Gives};
ghost use Rattle.pcef_line.specs.LineOf.{fields_at, worker_at};

use crate::fault::LineFault;
use crate::field::Field;
use crate::line::Line;
use crate::values::{dir_field, number_field, packet_field};
use pcef_model::Step;
use serde_json::Value;
use std::alloc::Global;

/// The highest number of a worker.
const LAST_WORKER: u64 = 15;

#[tactic(auto, unfolding(crate::specs::LineOf::worker_at))]
fn worker_field(line: &Value) -> Result<u8, LineFault>
    ensures { Gives (λ n. n) result (worker_at (view line.now)) }
{
    Ok(number_field(line, Field::Worker, Field::Worker, 0, LAST_WORKER)? as u8)
}

#[tactic(auto, unfolding(crate::specs::LineOf::fields_at))]
pub(crate) fn take(alloc: Global, line: &Value) -> Result<Line, LineFault>
    ensures { Gives (λ l. l) result (fields_at reading_of Take (view line.now)) }
{
    let worker = worker_field(line)?;
    let dir = dir_field(line, Field::Dir)?;
    let header = packet_field(alloc, line, Field::Packet, dir)?;
    Ok(Line::Step(Step::Take { worker, header }))
}

#[tactic(auto, unfolding(crate::specs::LineOf::fields_at))]
pub(crate) fn refresh(line: &Value) -> Result<Line, LineFault>
    ensures { Gives (λ l. l) result (fields_at reading_of Refresh (view line.now)) }
{
    let worker = worker_field(line)?;
    Ok(Line::Step(Step::Refresh { worker }))
}

#[tactic(auto, unfolding(crate::specs::LineOf::fields_at))]
pub(crate) fn flush(line: &Value) -> Result<Line, LineFault>
    ensures { Gives (λ l. l) result (fields_at reading_of Flush (view line.now)) }
{
    let worker = worker_field(line)?;
    Ok(Line::Step(Step::Flush { worker }))
}

#[tactic(auto, unfolding(crate::specs::LineOf::fields_at))]
pub(crate) fn finish(line: &Value) -> Result<Line, LineFault>
    ensures { Gives (λ l. l) result (fields_at reading_of Finish (view line.now)) }
{
    let worker = worker_field(line)?;
    Ok(Line::Step(Step::Finish { worker }))
}

#[tactic(auto, unfolding(crate::specs::LineOf::fields_at))]
pub(crate) fn abandon(line: &Value) -> Result<Line, LineFault>
    ensures { Gives (λ l. l) result (fields_at reading_of Abandon (view line.now)) }
{
    let worker = worker_field(line)?;
    Ok(Line::Step(Step::Abandon { worker }))
}
