//! A line that comes without a script around it.

ghost use Rattle.std.specs.Prelude.{◌≡◌, ◌≤◌, IfOk, OnErr};
ghost use Rattle.std.specs.Option.{option_map};
ghost use Rattle.pcef_model.specs.Journals.{report_count};
ghost use Rattle.pcef_script.specs.LineAnswers.{AnswersBy, LacksBy};
ghost use Rattle.pcef_script.specs.LoneLines.{AnswersAlone, LacksAlone};
ghost use Rattle.pcef_script.specs.ScriptAnswers.{LineDue};
ghost use Rattle.pcef_script.specs.ScriptLines.{within_limit};

use crate::lines::{MAX_LINE, is_blank};
use crate::step::{LineAnswer, answer_line, answer_too_long};
use pcef_catalog::Detects;
use pcef_line::LineReader;
use pcef_world::WorldState;
use std::alloc::{AllocError, Global};

/// The line, unless it is too long.
fn within_limit(line: &[u8]) -> Option<&[u8]>
    ensures { option_map (λ b. b.now) result ≡ within_limit line.now }
{
    if line.len() > MAX_LINE {
        None
    } else {
        Some(line)
    }
}

fn answer_of<C: Detects>(
    alloc: Global,
    catalog: &C,
    world: &mut WorldState,
    lines: &mut LineReader,
    line: &[u8],
) -> Result<LineAnswer, AllocError>
    requires offered { C.offers catalog.now ≡ world.old.session.setting.catalog }
    requires kept { world.old.session.forgotten ≤ report_count world.old.session.journal }
    ensures answer { IfOk result (λ a. AnswersBy (LineDue line.now) world.old a world.new) }
    ensures lacks { OnErr result (LacksBy (LineDue line.now) world.old world.new) }
    ensures setting { world.new.session.setting ≡ world.old.session.setting }
    ensures forgotten { world.new.session.forgotten ≡ world.old.session.forgotten }
{
    match within_limit(line) {
        None => answer_too_long(alloc),
        Some(bytes) => answer_line(alloc, catalog, world, lines, bytes),
    }
}

/// Does what a line of a script asks for, and returns the answer that a script writes for it, without the line feed;
/// none for a line of spaces, tabs and CR alone, which changes nothing. A line of more than 262,144 bytes is at fault.
/// Takes memory for the answer and for what the session keeps. When out of memory, the session and its workers are as
/// before the line, or as after it: the answers to the next lines are those of one of both.
pub fn answer_alone<C: Detects>(
    alloc: Global,
    catalog: &C,
    world: &mut WorldState,
    lines: &mut LineReader,
    line: &[u8],
) -> Result<Option<LineAnswer>, AllocError>
    requires offered { C.offers catalog.now ≡ world.old.session.setting.catalog }
    requires kept { world.old.session.forgotten ≤ report_count world.old.session.journal }
    ensures answer { IfOk result (λ a. AnswersAlone line.now world.old a world.new) }
    ensures lacks { OnErr result (LacksAlone line.now world.old world.new) }
    ensures setting { world.new.session.setting ≡ world.old.session.setting }
    ensures forgotten { world.new.session.forgotten ≡ world.old.session.forgotten }
{
    if is_blank(line) {
        return Ok(None);
    }
    let answer = answer_of(alloc, catalog, world, lines, line)?;
    Ok(Some(answer))
}
