//! The calls of C behind their pointers: each is a call on a handle, with its answer as a number.

ghost use Rattle.pcef_c.specs.Calls.{Closes, ForgetReturns, LineReturns, NumberReturns, OpenReturns, RenewReturns, ReportsReturn};
ghost use Rattle.pcef_c.specs.Handles.{IsEmpty};
ghost use Rattle.pcef_c.specs.Judging.{JudgesAll};

use crate::judging::{CPacket, CVerdict, judge_all};
use crate::numbers::{count_number, length_number, open_number};
use pcef_handle::Handle;
use std::alloc::Global;

/// A handle without a session, whose first one gets number 0.
pub(crate) fn empty(alloc: Global) -> Handle
    ensures { IsEmpty result }
{
    Handle::new(alloc)
}

/// Opens a session by the text of a profile. Returns 0, or why there is none.
pub(crate) fn open(handle: &mut Handle, profile: &[u8]) -> u8
    ensures { OpenReturns handle.old profile.now handle.new result }
{
    let opened = handle.open(profile);
    open_number(opened)
}

/// Gives the sessions to come this number and those behind it. Returns the number that the next one would have had.
pub(crate) fn number(handle: &mut Handle, number: u64) -> u64
    ensures { NumberReturns handle.old number handle.new result }
{
    let before = handle.next_number;
    handle.number_from(number);
    before
}

/// Answers a line. Returns the answer's length, or why there is none.
pub(crate) fn line(handle: &mut Handle, line: &[u8], answer: &mut [u8]) -> usize
    ensures { LineReturns handle.old line.now answer.old handle.new answer.new result }
{
    let outcome = handle.line(line, answer);
    length_number(outcome)
}

/// Judges packets, and returns their number. The handle stands last, so that the lifetimes before it have the same
/// places as in the call from C.
pub(crate) fn judge(
    packets: &[CPacket<'_>],
    verdicts: &mut [CVerdict],
    handle: &mut Handle,
) -> usize
    ensures { JudgesAll handle.old packets.now verdicts.old handle.new verdicts.new result }
{
    judge_all(handle, packets, verdicts)
}

/// Writes the reports from number `first` on. Returns the length of their text, or why there is none.
pub(crate) fn reports(handle: &mut Handle, first: u64, answer: &mut [u8]) -> usize
    ensures { ReportsReturn handle.old first answer.old handle.new answer.new result }
{
    let outcome = handle.reports(first, answer);
    length_number(outcome)
}

/// Renews the session. Returns the answer's length, or why there is none.
pub(crate) fn renew(handle: &mut Handle, answer: &mut [u8]) -> usize
    ensures { RenewReturns handle.old answer.old handle.new answer.new result }
{
    let outcome = handle.renew(answer);
    length_number(outcome)
}

/// Forgets the reports so far. Returns their number, or why there are none.
pub(crate) fn forget(handle: &mut Handle) -> usize
    ensures { ForgetReturns handle.old handle.new result }
{
    let outcome = handle.forget();
    count_number(outcome)
}

/// Closes the session. Returns 1, or 0 where there was none.
pub(crate) fn close(handle: &mut Handle) -> u8
    ensures { Closes handle.old handle.new result }
{
    let was_open = handle.session.is_some();
    handle.close();
    if was_open { 1 } else { 0 }
}
