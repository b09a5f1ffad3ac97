//! The answer that shows a session's lines.

ghost use Rattle.std.specs.Prelude.{◌≡◌, ◌++◌, IfOk, OnOk, Err, codes, map, string_bytes};
ghost use Rattle.pcef_renewal_lines.specs.Commands.{with_commas};
ghost use Rattle.pcef_renewal_lines.specs.Lines.{AnswersLines};
ghost use Rattle.pcef_renewal_lines.specs.private.Written.{IsWhyNot};

use crate::lines::{LinesRefusal, renewal_lines};
use pcef_session::SessionState;
use std::alloc::{AllocError, Global};

fn lines_text(alloc: Global, lines: &[String]) -> Result<String, AllocError>
    ensures { IfOk result (λ text. string_bytes text ≡ codes "{\"lines\":["
        ++ (with_commas (map string_bytes lines.now) ++ codes "],\"ok\":true}")) }
{
    let list = lines.join(alloc, ",")?;
    format!(in alloc; "{{\"lines\":[{list}],\"ok\":true}}")
}

fn refusal_text(alloc: Global, refusal: LinesRefusal) -> Result<String, AllocError>
    ensures { IfOk result (λ text. IsWhyNot refusal (string_bytes text)) }
{
    match refusal {
        LinesRefusal::Terminated => {
            String::from_str(alloc, "{\"name\":\"Terminated\",\"refused\":1}")
        }
        LinesRefusal::Unwritable => {
            String::from_str(alloc, "{\"name\":\"Unwritable\",\"refused\":23}")
        }
        LinesRefusal::NoMemory => Err(AllocError),
    }
}

/// The answer to `lines`: the lines that make a new session like this one, or why there are none. Takes memory for it.
pub fn answer_lines(alloc: Global, session: &SessionState) -> Result<String, AllocError>
    ensures { IfOk result (λ text.
        AnswersLines session.now.setting session.now.journal (string_bytes text)) }
{
    match renewal_lines(alloc, session) {
        Ok(lines) => lines_text(alloc, &lines),
        Err(refusal) => refusal_text(alloc, refusal),
    }
}
