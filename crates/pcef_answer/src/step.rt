//! The answers to commands and to the steps of workers.

ghost use Rattle.std.specs.Prelude.{◌≡◌, ◌≤◌, IfOk, string_bytes};
ghost use Rattle.pcef_session.specs.Answers.{finished_of, flushed_of};
ghost use Rattle.pcef_world.specs.Steps.{NamesKept, reply_of};
ghost use Rattle.pcef_answer.specs.StepAnswers.{command_text, attached_text, taken_text, finished_text, flushed_text, reply_text};

use crate::refusal::{
    attach_fault_answer, flush_refusal_answer, no_worker_answer, refusal_answer, refused_answer,
};
use crate::written;
use pcef_journal::Journal;
use pcef_model::{Accepted, AttachFault, FlushRefusal, Refusal, Verdicts};
use pcef_session::BatchFull;
use pcef_world::StepAnswer;
use std::alloc::{AllocError, Global};

/// The answer to a step that was made, with the reports that it made, from the journal after it, which has forgotten
/// none of them. The answer to an `attach` has the number of the newest generation.
pub fn step_answer(
    alloc: Global,
    journal: &Journal,
    generation: u32,
    answer: &StepAnswer,
) -> Result<String, AllocError>
    requires { NamesKept journal.now.forgotten (reply_of answer.now) }
    ensures { IfOk result (λ text. string_bytes text
        ≡ reply_text journal.now.entries generation (reply_of answer.now)) }
{
    match answer {
        StepAnswer::Command(answer) => command_answer(alloc, journal, answer),
        StepAnswer::Attach(answer) => attached_answer(alloc, generation, answer),
        StepAnswer::Refresh(held) => written::text_of_refresh(alloc, *held),
        StepAnswer::Take(answer) => taken_answer(alloc, answer),
        StepAnswer::Flush(answer) => flushed_answer(alloc, journal, answer),
        StepAnswer::Finish(answer) => finished_answer(alloc, journal, answer),
        StepAnswer::Abandon(abandoned) => written::text_of_abandon(alloc, *abandoned),
        StepAnswer::NoWorker => no_worker_answer(alloc),
    }
}

/// The answer to a command, with the reports that the command made, from the session's journal.
pub fn command_answer(
    alloc: Global,
    journal: &Journal,
    answer: &Result<Accepted, Refusal>,
) -> Result<String, AllocError>
    requires { IfOk answer.now (λ a. journal.now.forgotten ≤ a.first_report) }
    ensures { IfOk result (λ text. string_bytes text
        ≡ command_text journal.now.entries answer.now) }
{
    match answer {
        Err(refusal) => refusal_answer(alloc, *refusal),
        Ok(accepted) => written::text_of_accepted(alloc, journal, *accepted),
    }
}

// The answer to an `attach`: the worker starts in this generation.
fn attached_answer(
    alloc: Global,
    generation: u32,
    answer: &Result<u8, AttachFault>,
) -> Result<String, AllocError>
    ensures { IfOk result (λ text. string_bytes text ≡ attached_text generation answer.now) }
{
    match answer {
        Err(fault) => attach_fault_answer(alloc, *fault),
        Ok(worker) => written::text_of_attach(alloc, generation, *worker),
    }
}

fn taken_answer(alloc: Global, answer: &Result<u8, BatchFull>) -> Result<String, AllocError>
    ensures { IfOk result (λ text. string_bytes text ≡ taken_text answer.now) }
{
    match answer {
        Err(BatchFull) => refused_answer(alloc, "BatchFull", 1),
        Ok(waiting) => written::text_of_take(alloc, *waiting),
    }
}

// The verdicts, with the reports that they made, from the journal.
fn flushed_answer(
    alloc: Global,
    journal: &Journal,
    answer: &Result<Verdicts, FlushRefusal>,
) -> Result<String, AllocError>
    requires { IfOk (flushed_of answer.now) (λ flushed. journal.now.forgotten ≤ flushed.first_report) }
    ensures { IfOk result (λ text. string_bytes text
        ≡ flushed_text journal.now.entries (flushed_of answer.now)) }
{
    match answer {
        Err(refusal) => flush_refusal_answer(alloc, *refusal),
        Ok(verdicts) => written::text_of_flush(alloc, journal, verdicts),
    }
}

// The verdicts, with the reports that they made, from the journal, and the length of the worker's lane.
fn finished_answer(
    alloc: Global,
    journal: &Journal,
    answer: &Result<(Verdicts, u64), FlushRefusal>,
) -> Result<String, AllocError>
    requires { IfOk (finished_of answer.now) (λ finished.
        journal.now.forgotten ≤ finished.0.first_report) }
    ensures { IfOk result (λ text. string_bytes text
        ≡ finished_text journal.now.entries (finished_of answer.now)) }
{
    match answer {
        Err(refusal) => flush_refusal_answer(alloc, *refusal),
        Ok((verdicts, rows)) => written::text_of_finish(alloc, journal, verdicts, *rows),
    }
}
