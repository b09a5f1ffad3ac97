//! Renews a session.

ghost use Rattle.std.specs.Prelude.{◌≡◌, IfOk, OnOk, string_bytes};
ghost use Rattle.pcef_renewal_answer.specs.Renewed.{AnswersRenew, renews};
ghost use Rattle.pcef_handle.specs.Renewing.{IsRenewedInPlace, RenewsHandle, RenewsInto};

use crate::held::{Handle, OpenSession};
use crate::line::CallRefusal;
use crate::text::copy_front;
use pcef_renewal_answer::{RenewAnswer, answer_renew};
use std::alloc::Global;

impl OpenSession {
    /// Renews the session in its place, as [`answer_renew`] does: it gets the number `next` then, and the next session the
    /// one behind it. Takes memory.
    pub fn renew(&mut self, alloc: Global, next: &mut u64) -> RenewAnswer
        ensures answer { IfOk result.text (λ text.
            AnswersRenew self.old.world (string_bytes text) self.new.world) }
        ensures told { OnOk result.text (result.renewed ≡ renews self.old.world) }
        ensures place { IsRenewedInPlace self.old next.old result.renewed self.new next.new }
    {
        let answer = answer_renew(alloc, &mut self.world, &self.catalog);
        if answer.renewed {
            self.number = *next;
            *next = next.wrapping_add(1);
        }
        answer
    }
}

/// Renews a session, with its answer in a buffer.
fn renew_into(
    alloc: Global,
    session: &mut OpenSession,
    next: &mut u64,
    buffer: &mut [u8],
) -> Result<usize, CallRefusal>
    ensures { RenewsInto session.old next.old buffer.old result session.new next.new buffer.new }
{
    let answer = session.renew(alloc, next);
    match answer.text {
        Ok(text) => Ok(copy_front(text.as_bytes(), buffer)),
        Err(_) => Err(CallRefusal::NoMemory),
    }
}

impl Handle {
    /// Renews the session in its place, and returns the answer's length in octets, of which as many as fit are written to
    /// the front of a buffer. Where it is renewed, the answer has the bearers' new numbers, and each report of the old
    /// session that isn't forgotten, and the new session gets the handle's next number. Else it has the reason, and
    /// nothing changes: the session was terminated, a worker is attached, or the new session would take no further
    /// command. Takes memory for the session and for the answer. When out of memory, nothing is written, and the session
    /// is as before, or renewed.
    pub fn renew(&mut self, buffer: &mut [u8]) -> Result<usize, CallRefusal>
        ensures { RenewsHandle self.old buffer.old result self.new buffer.new }
    {
        let alloc = self.alloc;
        match &mut self.session {
            Some(session) => renew_into(alloc, session, &mut self.next_number, buffer),
            None => Err(CallRefusal::NoSession),
        }
    }
}
