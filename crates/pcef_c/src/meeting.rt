//! The numbers that C gets of what a worker and its session do together.

ghost use Rattle.std.specs.Prelude.{◌≡◌};
ghost use Rattle.pcef_c.specs.Meeting.{attach_number, generation_number, never_counted, meet_number, refresh_number, report_number};

use pcef_handle::{AttachRefusal, MeetRefusal};
use pcef_model::{AttachFault, FlushRefusal};

/// In place of a number: the handle has no session.
const NO_SESSION: u64 = 18_446_744_073_709_551_615;

/// The number of a worker, or why there is none.
pub(crate) fn attach_number(answer: Result<u8, AttachRefusal>) -> u8
    ensures { result ≡ attach_number answer }
{
    match answer {
        Ok(number) => number,
        Err(AttachRefusal::NoSession) => 64,
        Err(AttachRefusal::AlreadyAttached) => 65,
        Err(AttachRefusal::Session(AttachFault::NoPlace)) => 66,
        Err(AttachRefusal::Session(AttachFault::Closed)) => 67,
        Err(AttachRefusal::Session(AttachFault::NoMemory)) => 68,
    }
}

/// The number of a refusal, counted down from the highest one.
fn meet_number(refusal: MeetRefusal) -> u64
    ensures { result ≡ meet_number refusal }
{
    match refusal {
        MeetRefusal::NoSession => NO_SESSION,
        MeetRefusal::Session(FlushRefusal::NoMemory) => NO_SESSION - 1,
        MeetRefusal::NoWorker => NO_SESSION - 3,
        MeetRefusal::OtherSession => NO_SESSION - 4,
        MeetRefusal::Session(FlushRefusal::NotAttached) => NO_SESSION - 5,
        MeetRefusal::Session(FlushRefusal::RowsFull) => NO_SESSION - 6,
    }
}

/// The number of a generation, or why there is none.
pub(crate) fn generation_number(generation: Option<u32>) -> usize
    ensures { result ≡ generation_number generation }
{
    match generation {
        Some(generation) => generation as usize,
        None => 18_446_744_073_709_551_615,
    }
}

/// The number of the generation that a worker holds, or why it takes none.
pub(crate) fn refresh_number(answer: Result<u32, MeetRefusal>) -> u64
    ensures { result ≡ refresh_number answer }
{
    match answer {
        Ok(generation) => u64::from(generation),
        Err(refusal) => meet_number(refusal),
    }
}

/// The number of the next report, or why no rows are handed over.
pub(crate) fn report_number(answer: Result<u64, MeetRefusal>) -> u64
    ensures { result ≡ report_number answer }
{
    match answer {
        Ok(next) => next,
        Err(refusal) => meet_number(refusal),
    }
}

/// How many rows never count, or why a worker stays.
pub(crate) fn left_number(answer: Result<u8, MeetRefusal>) -> u64
    ensures { result ≡ never_counted answer }
{
    match answer {
        Ok(rows) => u64::from(rows),
        Err(refusal) => meet_number(refusal),
    }
}
