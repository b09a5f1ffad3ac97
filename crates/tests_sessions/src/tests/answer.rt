//! Answers that no worked script has.

use pcef_answer::step_answer;
use pcef_journal::Journal;
use pcef_model::FlushRefusal;
use pcef_world::StepAnswer;
use std::alloc::{AllocError, Global};

/// Whether what was answered to a step in the second generation, without a report, has this text.
fn has_text(alloc: Global, answer: &StepAnswer, text: &str) -> Result<bool, AllocError> {
    let outcome = step_answer(alloc, &Journal::new(alloc), 2, answer)?;
    Ok(outcome.as_str() == text)
}

// No script reaches this: it answers NoWorker before it asks the session.
#[test]
fn answers_to_flushes_of_nobody(rt: HostRuntime) -> Result<(), AllocError> {
    let refusal = FlushRefusal::NotAttached;
    let text = "{\"name\":\"NotAttached\",\"refused\":1}";
    let flushed = has_text(rt.alloc(), &StepAnswer::Flush(Err(refusal)), text)?;
    let finished = has_text(rt.alloc(), &StepAnswer::Finish(Err(refusal)), text)?;
    assert!(rt; flushed && finished);
    Ok(())
}
