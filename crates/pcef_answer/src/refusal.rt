//! The answers to refused steps.

ghost use Rattle.std.specs.Prelude.{◌≡◌, ◌++◌, IfOk, OnOk, codes, decimal, string_bytes};
ghost use Rattle.json.specs.Print.{escape};
ghost use Rattle.serde_json.specs.Written.{compact_text};
ghost use Rattle.pcef_answer.specs.RefusalAnswers.{refused_text, refusal_name, refusal_number, refusal_count, counted_data, refusal_text, attach_fault_text, flush_refusal_text, no_worker_text};
ghost use Rattle.pcef_answer.specs.Written.{GoesOn};

use crate::written::{push_count, push_word};
use pcef_model::{AttachFault, FlushRefusal, Refusal};
use std::alloc::{AllocError, Global};

// `front` ends with the quotation mark before the name.
fn push_refused(text: &mut String, front: &str, name: &str, number: u8) -> Result<(), AllocError>
    requires { escape name.now ≡ name.now }
    ensures { OnOk result (GoesOn text.old text.new
        ((front.now ++ (escape name.now ++ codes "\""))
        ++ ((codes ",\"refused\":" ++ decimal number) ++ codes "}"))) }
{
    push_word(text, front, name)?;
    push_count(text, ",\"refused\":", u64::from(number))?;
    text.push_str("}")
}

/// The answer with a refusal's name and number.
pub(crate) fn refused_answer(alloc: Global, name: &str, number: u8) -> Result<String, AllocError>
    requires { escape name.now ≡ name.now }
    ensures { IfOk result (λ text. string_bytes text ≡ refused_text name.now number) }
{
    let mut text = String::with_capacity(alloc, 64)?;
    push_refused(&mut text, "{\"name\":\"", name, number)?;
    Ok(text)
}

/// The answer to a step of a worker that isn't attached.
#[tactic(auto, unfolding(crate::specs::RefusalAnswers::no_worker_text, json::specs::Print::escape_byte))]
pub(crate) fn no_worker_answer(alloc: Global) -> Result<String, AllocError>
    ensures { IfOk result (λ text. string_bytes text ≡ no_worker_text) }
{
    refused_answer(alloc, "NoWorker", 0)
}

/// The answer to a refused command.
pub(crate) fn refusal_answer(alloc: Global, refusal: Refusal) -> Result<String, AllocError>
    ensures { IfOk result (λ text. string_bytes text ≡ refusal_text refusal) }
{
    let mut text = String::with_capacity(alloc, 64)?;
    push_refusal(&mut text, refusal)?;
    Ok(text)
}

fn push_refusal(text: &mut String, refusal: Refusal) -> Result<(), AllocError>
    ensures { OnOk result (GoesOn text.old text.new (refusal_text refusal)) }
{
    let (name, number) = name_of_refusal(refusal);
    match count_of_refusal(refusal) {
        None => push_refused(text, "{\"name\":\"", name, number),
        Some(count) => push_counted(text, count, name, number),
    }
}

fn push_counted(text: &mut String, count: u8, name: &str, number: u8) -> Result<(), AllocError>
    requires { escape name.now ≡ name.now }
    ensures { OnOk result (GoesOn text.old text.new
        (compact_text (counted_data count name.now number))) }
{
    push_count(text, "{\"count\":", u64::from(count))?;
    push_refused(text, ",\"name\":\"", name, number)
}

/// The answer to a refused `attach`.
#[tactic(auto, unfolding(crate::specs::RefusalAnswers::attach_fault_text, json::specs::Print::escape_byte))]
pub(crate) fn attach_fault_answer(alloc: Global, fault: AttachFault) -> Result<String, AllocError>
    ensures { IfOk result (λ text. string_bytes text ≡ attach_fault_text fault) }
{
    match fault {
        AttachFault::NoPlace => refused_answer(alloc, "NoPlace", 1),
        AttachFault::Closed => refused_answer(alloc, "Closed", 2),
        AttachFault::NoMemory => refused_answer(alloc, "NoMemory", 3),
    }
}

/// The answer to a refused `flush`.
#[tactic(auto, unfolding(crate::specs::RefusalAnswers::flush_refusal_text, json::specs::Print::escape_byte))]
pub(crate) fn flush_refusal_answer(
    alloc: Global,
    refusal: FlushRefusal,
) -> Result<String, AllocError>
    ensures { IfOk result (λ text. string_bytes text ≡ flush_refusal_text refusal) }
{
    match refusal {
        FlushRefusal::NotAttached => refused_answer(alloc, "NotAttached", 1),
        FlushRefusal::RowsFull => refused_answer(alloc, "RowsFull", 2),
        FlushRefusal::NoMemory => refused_answer(alloc, "NoMemory", 3),
    }
}

fn count_of_refusal(refusal: Refusal) -> Option<u8>
    ensures { result ≡ refusal_count refusal }
{
    match refusal {
        Refusal::WorkersAttached(count) => Some(count),
        _ => None,
    }
}

fn name_of_refusal(refusal: Refusal) -> (&'static str, u8)
    ensures name { result.0.now ≡ refusal_name refusal }
    ensures number { result.1 ≡ refusal_number refusal }
{
    match refusal {
        Refusal::Terminated => ("Terminated", 1),
        Refusal::Closed => ("Closed", 2),
        Refusal::CommandsFull => ("CommandsFull", 3),
        Refusal::NameIsPredefined => ("NameIsPredefined", 4),
        Refusal::UnknownRule => ("UnknownRule", 5),
        Refusal::UnknownKey => ("UnknownKey", 6),
        Refusal::ZeroGrant => ("ZeroGrant", 7),
        Refusal::UnknownBearer => ("UnknownBearer", 8),
        Refusal::DefaultBearer => ("DefaultBearer", 9),
        Refusal::WorkersAttached(_) => ("WorkersAttached", 10),
        Refusal::RulesFull => ("RulesFull", 11),
        Refusal::LevelClash => ("LevelClash", 20),
        Refusal::KeysFull => ("KeysFull", 12),
        Refusal::UnknownQci => ("UnknownQci", 13),
        Refusal::RatesMissing => ("RatesMissing", 14),
        Refusal::RatesNotWanted => ("RatesNotWanted", 15),
        Refusal::TooManyBearers => ("TooManyBearers", 16),
        Refusal::OverCapacityUp => ("OverCapacityUp", 17),
        Refusal::OverCapacityDown => ("OverCapacityDown", 18),
        Refusal::PoolUp => ("PoolUp", 21),
        Refusal::PoolDown => ("PoolDown", 22),
        Refusal::NoMemory => ("NoMemory", 19),
    }
}
