//! Answers to lines.

ghost use Rattle.std.specs.Prelude.{◌≡◌, IfOk, true, string_bytes};
ghost use Rattle.pcef_sessions.specs.FrameSayings.{malformed};
ghost use Rattle.pcef_sessions.specs.Sayings.{said_of};
ghost use Rattle.pcef_sessions.specs.Under.{asking_fault_text};

use crate::asking::AskingFault;
use crate::frame_fault::FrameFault;
use crate::name::SessionName;
use pcef_answer::fault_text;
use pcef_line::LineFault;
use pcef_script::LineAnswer;
use std::alloc::{AllocError, Global};

/// The answer to a line.
#[derive(Drop)]
pub struct NamedAnswer {
    /// The session's name, or none where the line has no right one.
    pub name: Option<SessionName>,
    /// What is answered.
    pub answer: LineAnswer,
}

/// An answer of this text.
pub(crate) fn says(alloc: Global, text: &str, is_fault: bool) -> Result<LineAnswer, AllocError>
    ensures text { IfOk result (λ a. string_bytes a.text ≡ text.now) }
    ensures fault { IfOk result (λ a. a.is_fault ≡ is_fault) }
{
    Ok(LineAnswer {
        text: String::from_str(alloc, text)?,
        is_fault,
    })
}

fn text_of(alloc: Global, fault: AskingFault) -> Result<String, AllocError>
    ensures { IfOk result (λ text. string_bytes text ≡ asking_fault_text fault) }
{
    match fault {
        AskingFault::UnknownField => fault_text(alloc, LineFault::UnknownField),
        AskingFault::BadUe => {
            String::from_str(
                alloc,
                "{\"fault\":8,\"field\":\"ue\",\"name\":\"BadField\"}",
            )
        }
    }
}

/// The answer to a line at fault that opens a session, renews one, shows its lines or ends one.
pub(crate) fn says_fault(alloc: Global, fault: AskingFault) -> Result<LineAnswer, AllocError>
    ensures text { IfOk result (λ a. string_bytes a.text ≡ asking_fault_text fault) }
    ensures fault { IfOk result (λ a. a.is_fault ≡ true) }
{
    Ok(LineAnswer {
        text: text_of(alloc, fault)?,
        is_fault: true,
    })
}

/// The answer to a malformed frame.
pub(crate) fn says_malformed(alloc: Global, fault: FrameFault) -> Result<NamedAnswer, AllocError>
    ensures { IfOk result (λ t. said_of t ≡ malformed fault) }
{
    Ok(NamedAnswer {
        name: None,
        answer: says(alloc, fault.text(), true)?,
    })
}
