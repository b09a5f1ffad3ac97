//! The answer to a line at fault.

ghost use Rattle.std.specs.Prelude.{◌≡◌, ◌++◌, IfOk, OnOk, codes, decimal, string_bytes};
ghost use Rattle.json.specs.Print.{escape};
ghost use Rattle.serde_json.specs.Written.{compact_text};
ghost use Rattle.pcef_line.specs.LineFaults.{fault_name, fault_number};
ghost use Rattle.pcef_line.specs.LineWords.{field_text};
ghost use Rattle.pcef_answer.specs.FaultAnswers.{line_data, inner_data, fault_text};
ghost use Rattle.pcef_answer.specs.Written.{GoesOn, name_ending};

use crate::written::{push_count, push_word};
use pcef_line::{Field, LineFault};
use std::alloc::{AllocError, Global};

// Appends the last member of each answer.
fn push_last(text: &mut String, fault: LineFault) -> Result<(), AllocError>
    ensures { OnOk result (GoesOn text.old text.new (name_ending (fault_name fault))) }
{
    push_word(text, ",\"name\":\"", fault.name())?;
    text.push_str("}")
}

fn push_line(text: &mut String, fault: LineFault) -> Result<(), AllocError>
    ensures { OnOk result (GoesOn text.old text.new (compact_text (line_data fault))) }
{
    push_count(text, "{\"fault\":", u64::from(fault.number()))?;
    push_last(text, fault)
}

fn push_field(
    text: &mut String,
    front: &str,
    fault: LineFault,
    field: Field,
) -> Result<(), AllocError>
    ensures { OnOk result (GoesOn text.old text.new
        ((front.now ++ decimal (fault_number fault))
        ++ ((codes ",\"field\":\"" ++ (escape (field_text field) ++ codes "\""))
        ++ name_ending (fault_name fault)))) }
{
    push_count(text, front, u64::from(fault.number()))?;
    push_word(text, ",\"field\":\"", field.text())?;
    push_last(text, fault)
}

fn push_inner(text: &mut String, fault: LineFault, field: Field, code: u8) -> Result<(), AllocError>
    ensures { OnOk result (GoesOn text.old text.new (compact_text (inner_data fault field code))) }
{
    push_count(text, "{\"code\":", u64::from(code))?;
    push_field(text, ",\"fault\":", fault, field)
}

#[tactic(auto, unfolding(crate::specs::FaultAnswers::fault_text, json::specs::Print::escape_byte))]
fn push_fault(text: &mut String, fault: LineFault) -> Result<(), AllocError>
    ensures { OnOk result (GoesOn text.old text.new (fault_text fault)) }
{
    match fault.field() {
        None => push_line(text, fault),
        Some(field) => match fault.code() {
            None => push_field(text, "{\"fault\":", fault, field),
            Some(code) => push_inner(text, fault, field, code),
        },
    }
}

/// The answer to a line with this fault: its number and name, its field where it has one, and the number of the inner
/// fault where there is one.
pub fn fault_text(alloc: Global, fault: LineFault) -> Result<String, AllocError>
    ensures { IfOk result (λ text. string_bytes text ≡ fault_text fault) }
{
    let mut text = String::with_capacity(alloc, 96)?;
    push_fault(&mut text, fault)?;
    Ok(text)
}
