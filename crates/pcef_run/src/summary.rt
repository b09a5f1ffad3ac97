//! What is said of a run.

ghost use Rattle.std.specs.Prelude.{◌≡◌, ◌++◌, IfOk, OnOk, decimal, string_bytes};
ghost use Rattle.pcef_run.specs.Summaries.{summary_text, with_commands, with_key, with_keys, with_number, and_reports, and_rows};

use crate::run::Ran;
use crate::taken::Counts;
use pcef_lock::KeyTotal;
use std::alloc::{AllocError, Global};

/// Adds a word and a number.
fn push_number(text: &mut String, word: &str, number: u64) -> Result<(), AllocError>
    ensures { OnOk result (string_bytes text.new
        ≡ with_number (string_bytes text.old) word.now number) }
{
    text.push_str(word)?;
    write!(text, "{number}")
}

fn push_rows(text: &mut String, ran: &Ran) -> Result<(), AllocError>
    ensures { OnOk result (string_bytes text.new ≡ and_rows (string_bytes text.old) ran.now) }
{
    push_number(text, "rows ", ran.ended.totals.rows)?;
    push_number(text, " abandoned ", ran.ended.totals.abandoned)?;
    push_number(text, " dropped ", ran.ended.dropped)?;
    text.push('\n')
}

fn push_commands(text: &mut String, ran: &Ran) -> Result<(), AllocError>
    ensures { OnOk result (string_bytes text.new ≡ with_commands (string_bytes text.old) ran.now) }
{
    let accepted = ran.accepted();
    push_number(text, "commands ", accepted)?;
    push_number(text, " refused ", ran.commands().saturating_sub(accepted))?;
    text.push('\n')
}

fn push_reports(text: &mut String, taken: Counts) -> Result<(), AllocError>
    ensures { OnOk result (string_bytes text.new ≡ and_reports (string_bytes text.old) taken) }
{
    push_number(text, "reports usage ", taken.usage)?;
    push_number(text, " access ", taken.access)?;
    push_number(text, " inactive ", taken.inactive)?;
    text.push('\n')
}

fn push_key(text: &mut String, total: &KeyTotal) -> Result<(), AllocError>
    ensures { OnOk result (string_bytes text.new ≡ with_key (string_bytes text.old) total.now) }
{
    text.push_str("key ")?;
    text.push_str(total.key.as_str())?;
    push_number(text, " counted ", total.counted)?;
    push_number(text, " reported ", total.reported)?;
    push_number(text, " unreported ", total.unreported)?;
    text.push('\n')
}

fn push_keys(text: &mut String, totals: &[KeyTotal]) -> Result<(), AllocError>
    ensures { OnOk result (string_bytes text.new ≡ with_keys (string_bytes text.old) totals.now) }
{
    for total in totals {
        push_key(text, total)?;
    }
    Ok(())
}

/// What is said of a run: a line for its rows, its commands and its reports, and one for each monitoring key that has a
/// slot, in slot order. Takes memory for it.
pub fn summary_text(alloc: Global, ran: &Ran, taken: Counts) -> Result<String, AllocError>
    ensures { IfOk result (λ text. string_bytes text ≡ summary_text ran.now taken) }
{
    let mut text = String::new(alloc);
    push_rows(&mut text, ran)?;
    push_commands(&mut text, ran)?;
    push_reports(&mut text, taken)?;
    push_keys(&mut text, ran.ended.totals.keys.as_slice())?;
    Ok(text)
}
