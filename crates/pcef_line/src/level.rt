//! The levels of monitoring keys.

ghost use Rattle.std.specs.Prelude.{◌≡◌};
ghost use Rattle.serde_json.specs.View.{view};
ghost use Rattle.pcef_line.specs.LineLevels.{level_at, level_of, level_word_at};
ghost use Rattle.pcef_line.specs.LineValues.{Gives};

use crate::fault::LineFault;
use crate::field::Field;
use crate::values::text_field;
use pcef_model::Level;
use serde_json::Value;

fn level_of(text: &str) -> Option<Level>
    ensures { result ≡ level_of text.now }
{
    match text {
        "rule" => Some(Level::Rule),
        "session" => Some(Level::Session),
        _ => None,
    }
}

#[tactic(auto, unfolding(crate::specs::LineLevels::level_word_at))]
fn level_word(line: &Value) -> Result<Level, LineFault>
    ensures { Gives (λ l. l) result (level_word_at (view line.now)) }
{
    match level_of(text_field(line, Field::Level, Field::Level)?) {
        Some(level) => Ok(level),
        None => Err(LineFault::BadField(Field::Level)),
    }
}

/// The level that a line states, or rule level.
#[tactic(auto, unfolding(crate::specs::LineLevels::level_at))]
pub(crate) fn level_field(line: &Value) -> Result<Level, LineFault>
    ensures { Gives (λ l. l) result (level_at (view line.now)) }
{
    if line.get(Field::Level.text()).is_none() {
        return Ok(Level::Rule);
    }
    level_word(line)
}
