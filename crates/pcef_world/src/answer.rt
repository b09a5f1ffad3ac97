//! What is answered to the steps of a session and its workers.

ghost use Rattle.std.specs.Prelude.{◌≡◌, ◌≢◌, Err, IfErr, IfOk};
ghost use Rattle.pcef_model.specs.declared.answer.Refusal.TheVariants.{NoMemory};
ghost use Rattle.pcef_world.specs.declared.answer.StepAnswer.TheVariants as step;
ghost use Rattle.pcef_world.specs.Workers.{waiting_count};
ghost use Rattle.pcef_world.specs.private.Places.{attach_step_answer, finish_step_answer, flush_step_answer};

use crate::worker::Taken;
use pcef_model::{Accepted, AttachFault, FlushRefusal, Refusal, Verdicts};
use pcef_session::BatchFull;
use std::alloc::AllocError;

/// The answer to a worker that left without its waiting rows.
#[derive(Clone, Copy, Debug, PartialEq, Eq)]
pub struct Abandoned {
    /// How many rows waited, 0 to 32, and get no verdict.
    pub waiting: u8,
    /// How many rows the worker's lane has.
    pub rows: u64,
}

/// What is answered to a step. Out of memory is no answer: the step isn't made then.
#[derive(Drop)]
pub enum StepAnswer {
    /// A command is accepted or refused.
    Command(Result<Accepted, Refusal>),
    /// A worker is attached, with this number, or can't be.
    Attach(Result<u8, AttachFault>),
    /// The generation that the worker holds now.
    Refresh(u32),
    /// How many rows of the worker wait now, 1 to 32, or that no more can.
    Take(Result<u8, BatchFull>),
    /// The verdicts on the rows that were handed over, or why they weren't.
    Flush(Result<Verdicts, FlushRefusal>),
    /// The verdicts on the last rows, and the length of the worker's lane, or why it stays.
    Finish(Result<(Verdicts, u64), FlushRefusal>),
    /// The answer to a worker that left without its waiting rows.
    Abandon(Abandoned),
    /// The worker isn't attached.
    NoWorker,
}

/// The answer to a command. Out of memory is no answer.
pub(crate) fn command_step_answer(
    answer: Result<Accepted, Refusal>,
) -> Result<StepAnswer, AllocError>
    ensures answer { IfOk result (λ a. (a ≡ step.Command answer) × (answer ≢ Err NoMemory)) }
    ensures lack { IfErr result (λ _. answer ≡ Err NoMemory) }
{
    match answer {
        Err(Refusal::NoMemory) => Err(AllocError),
        answer => Ok(StepAnswer::Command(answer)),
    }
}

/// The answer to a packet: how many rows wait then.
pub(crate) fn take_step_answer(answer: Result<Taken, BatchFull>) -> StepAnswer
    ensures { result ≡ step.Take (waiting_count answer) }
{
    match answer {
        Ok(taken) => StepAnswer::Take(Ok(taken.waiting)),
        Err(full) => StepAnswer::Take(Err(full)),
    }
}

/// The answer to an attach. Out of memory is no answer.
pub(crate) fn attach_step_answer(answer: Result<u8, AttachFault>) -> Result<StepAnswer, AllocError>
    ensures { result ≡ attach_step_answer answer }
{
    match answer {
        Err(AttachFault::NoMemory) => Err(AllocError),
        answer => Ok(StepAnswer::Attach(answer)),
    }
}

/// The answer to a flush. Out of memory is no answer.
pub(crate) fn flush_step_answer(
    answer: Result<Verdicts, FlushRefusal>,
) -> Result<StepAnswer, AllocError>
    ensures { result ≡ flush_step_answer answer }
{
    match answer {
        Err(FlushRefusal::NoMemory) => Err(AllocError),
        answer => Ok(StepAnswer::Flush(answer)),
    }
}

/// The answer to a finish. Out of memory is no answer.
pub(crate) fn finish_step_answer(
    answer: Result<(Verdicts, u64), FlushRefusal>,
) -> Result<StepAnswer, AllocError>
    ensures { result ≡ finish_step_answer answer }
{
    match answer {
        Err(FlushRefusal::NoMemory) => Err(AllocError),
        answer => Ok(StepAnswer::Finish(answer)),
    }
}
