//! Answers a line of a script.

ghost use Rattle.std.specs.Prelude.{◌≡◌, ◌≤◌};
ghost use Rattle.pcef_model.specs.Journals.{report_count};
ghost use Rattle.pcef_handle.specs.Answering.{AnswersHandle, AnswersInto, IsPut};

use crate::held::{Handle, OpenSession};
use crate::text::copy_front;
use pcef_script::{LineAnswer, answer_alone};
use pcef_world::WorldState;
use std::alloc::Global;
use thiserror::Error;

/// Why a call on a handle gives no text.
#[derive(Clone, Copy, Debug, PartialEq, Eq, Error)]
pub enum CallRefusal {
    /// The handle has no session.
    #[error("the handle has no session")]
    NoSession,
    /// There is no memory left.
    #[error("there is no memory left")]
    NoMemory,
    /// A report that is asked for is forgotten.
    #[error("a report that is asked for is forgotten")]
    Forgotten,
}

/// The number of forgotten reports: at most all that were made.
fn forgotten_count(world: &WorldState) -> u64
    ensures count { result ≡ world.now.session.forgotten }
    ensures made { world.now.session.forgotten ≤ report_count world.now.session.journal }
{
    world.session().journal().forgotten()
}

/// Writes as much of an answer as fits, and returns its length in octets: 0 where there is none.
fn copy_answer(answer: &Option<LineAnswer>, buffer: &mut [u8]) -> usize
    ensures { IsPut answer.now buffer.old buffer.new result }
{
    match answer {
        Some(answer) => copy_front(answer.text.as_bytes(), buffer),
        None => 0,
    }
}

fn answer_into(
    alloc: Global,
    session: &mut OpenSession,
    line: &[u8],
    buffer: &mut [u8],
) -> Result<usize, CallRefusal>
    ensures { AnswersInto session.old line.now buffer.old result session.new buffer.new }
{
    // For its contract: no forgotten report is in an answer.
    let _gone = forgotten_count(&session.world);
    match answer_alone(
        alloc,
        &session.catalog,
        &mut session.world,
        &mut session.lines,
        line,
    ) {
        Ok(answer) => Ok(copy_answer(&answer, buffer)),
        Err(_) => Err(CallRefusal::NoMemory),
    }
}

impl Handle {
    /// Does what a line of a script asks for, and returns the answer's length in octets. The answer is the text that
    /// `pcef script` writes for the line, without its line feed; as much of it as fits is written to the front of a
    /// buffer. A line of spaces, tabs and CR alone has no answer: 0 is returned. Takes memory for the answer and for
    /// what the session keeps. When out of memory, nothing is written, and the session and its workers are as before
    /// the line, or as after it: the answers to the next lines are those of one of both.
    pub fn line(&mut self, line: &[u8], buffer: &mut [u8]) -> Result<usize, CallRefusal>
        ensures answer { AnswersHandle self.old line.now buffer.old result self.new buffer.new }
        ensures number { self.new.next_number ≡ self.old.next_number }
    {
        let alloc = self.alloc;
        match &mut self.session {
            Some(session) => answer_into(alloc, session, line, buffer),
            None => Err(CallRefusal::NoSession),
        }
    }
}
