//! Writes reports, and forgets them.

ghost use Rattle.std.specs.Prelude.{◌≡◌};
ghost use Rattle.pcef_handle.specs.Reporting.{ForgetsHandle, ForgetsReports, ReportsHandle, ReportsInto};

use crate::held::{Handle, OpenSession};
use crate::line::CallRefusal;
use crate::text::copy_front;
use pcef_answer::reports_answer;
use std::alloc::Global;

fn reports_into(
    alloc: Global,
    session: &OpenSession,
    first: u64,
    buffer: &mut [u8],
) -> Result<usize, CallRefusal>
    ensures { ReportsInto session.now first buffer.old result buffer.new }
{
    let journal = session.world.session().journal();
    if first < journal.forgotten() {
        return Err(CallRefusal::Forgotten);
    }
    match reports_answer(alloc, journal, first) {
        Ok(text) => Ok(copy_front(text.as_bytes(), buffer)),
        Err(_) => Err(CallRefusal::NoMemory),
    }
}

/// Forgets the reports so far, and returns their number.
fn forget_reports(session: &mut OpenSession) -> u64
    ensures { ForgetsReports session.old result session.new }
{
    let count = session.world.session().journal().reports_len();
    session.world.forget();
    count
}

impl Handle {
    /// Writes the text of the session's reports from number `first` on, as much of it as fits, to the front of a
    /// buffer, and returns its length in octets. The text is a JSON array, the oldest report first, each as in answers.
    /// Refused where one of them is forgotten. Takes memory for the text.
    pub fn reports(&self, first: u64, buffer: &mut [u8]) -> Result<usize, CallRefusal>
        ensures { ReportsHandle self.now first buffer.old result buffer.new }
    {
        match &self.session {
            Some(session) => reports_into(self.alloc, session, first, buffer),
            None => Err(CallRefusal::NoSession),
        }
    }

    /// Forgets the reports that the session has made so far. Returns their number, which is the number of the next one.
    /// They can't be read any more, and their memory serves for the next ones; they still count. Nothing else changes.
    /// Takes no memory.
    pub fn forget(&mut self) -> Result<u64, CallRefusal>
        ensures forgets { ForgetsHandle self.old result self.new }
        ensures number { self.new.next_number ≡ self.old.next_number }
    {
        match &mut self.session {
            Some(session) => Ok(forget_reports(session)),
            None => Err(CallRefusal::NoSession),
        }
    }
}
