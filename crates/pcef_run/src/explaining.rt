//! Says in words why a line doesn't fit.

ghost use Rattle.std.specs.Prelude.{IfOk, string_bytes};
ghost use Rattle.pcef_explain.specs.Plain.{IsPlain};
ghost use Rattle.pcef_run.specs.Reasons.{NamesReason};

use crate::unfit::Unfit;
use pcef_explain::{Explanation, explain, explain_field, plain_text};
use pcef_line::Field;
use std::alloc::{AllocError, Global};

/// What is expected of a number below `count`.
fn expected_text(alloc: Global, count: usize) -> Result<String, AllocError> {
    if count <= 1 {
        return format!(in alloc; "0 is expected");
    }
    let last = count - 1;
    format!(in alloc; "0 to {last} is expected")
}

/// The explanation of a line, without a column.
fn of_line(alloc: Global, text: &str) -> Result<Explanation, AllocError> {
    Ok(Explanation {
        column: None,
        text: String::from_str(alloc, text)?,
    })
}

/// The explanation for a session that there isn't. Its number and a space stand at the front of the line.
fn of_session(alloc: Global, front: &[u8], sessions: usize) -> Result<Explanation, AllocError> {
    let number = String::from_utf8_lossy(alloc, front)?;
    let number = number.trim_end();
    let expected = expected_text(alloc, sessions)?;
    Ok(Explanation {
        column: None,
        text: format!(in alloc; "the session is {number}: {expected}")?,
    })
}

/// The explanation of a line that doesn't fit. A session's number may stand at its front.
fn explanation(
    alloc: Global,
    front: &[u8],
    line: &[u8],
    why: Unfit,
) -> Result<Explanation, AllocError> {
    match why {
        Unfit::AtFault(fault) => explain(alloc, line, fault),
        Unfit::NotOfRun => explain_field(alloc, line, Field::Do, "a command or take is expected"),
        Unfit::NoWorker(workers) => {
            let expected = expected_text(alloc, usize::from(workers))?;
            explain_field(alloc, line, Field::Worker, expected.as_str())
        }
        Unfit::NoNumber => of_line(
            alloc,
            "the number of a session, as 0 or 12, and one space are expected before a command",
        ),
        Unfit::NoSession(sessions) => of_session(alloc, front, sessions),
        Unfit::NotOfPool => explain_field(alloc, line, Field::Do, "a command is expected"),
    }
}

/// The same in one text, with the column counted from the front.
fn placed_text(alloc: Global, line: &[u8], front: usize, why: Unfit) -> Result<String, AllocError>
    ensures { IfOk result (λ text. IsPlain (string_bytes text)) }
{
    let (front, rest) = line.split_at(front.min(line.len()));
    let Explanation { column, text } = explanation(alloc, front, rest, why)?;
    let text = match column {
        Some(column) => {
            let column = column.saturating_add(front.len());
            format!(in alloc; "column {column}: {text}")?
        }
        None => text,
    };
    plain_text(alloc, text.as_str())
}

/// Explains why a line doesn't fit, in one line with its line feed: the name of the reason, the column where it is
/// known, in octets from 1, what is found there and what is expected. The line of a script stands behind `front`
/// octets. Takes memory for the text.
pub(crate) fn explain_unfit(
    alloc: Global,
    line: &[u8],
    front: usize,
    why: Unfit,
) -> Result<String, AllocError>
    ensures { IfOk result (λ text. NamesReason why (string_bytes text)) }
{
    let name = why.name();
    let text = placed_text(alloc, line, front, why)?;
    format!(in alloc; "{name}: {text}\n")
}
