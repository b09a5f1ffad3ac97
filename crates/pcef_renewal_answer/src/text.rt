//! The texts of answers to renewals: compact JSON, whose keys stand in the order of their octets.

ghost use Rattle.std.specs.Prelude.{◌≡◌, ◌++◌, IfOk, OnOk, codes, decimal, string_bytes};
ghost use Rattle.serde_json.specs.Written.{comma_if, compact_text};
ghost use Rattle.pcef_answer.specs.Written.{GoesOn};
ghost use Rattle.pcef_renewal_answer.specs.Texts.{pair_data, pairs_data};
ghost use Rattle.pcef_renewal_answer.specs.private.Pieces.{pieces_of};

use itoa::Buffer;
use pcef_renewal::BearerNumbers;
use pcef_rule::BearerId;
use std::alloc::{AllocError, Global};

fn push_number(text: &mut String, number: u8) -> Result<(), AllocError>
    ensures { OnOk result (GoesOn text.old text.new (decimal number)) }
{
    text.push_str(Buffer::new().format(number))
}

fn push_bearer(text: &mut String, front: &str, bearer: BearerId) -> Result<(), AllocError>
    ensures { OnOk result (GoesOn text.old text.new (front.now ++ decimal bearer.0)) }
{
    text.push_str(front)?;
    push_number(text, bearer.0)
}

fn push_pair(text: &mut String, pair: &BearerNumbers) -> Result<(), AllocError>
    ensures { OnOk result (GoesOn text.old text.new (compact_text (pair_data pair.now))) }
{
    push_bearer(text, "{\"new\":", pair.new)?;
    push_bearer(text, ",\"old\":", pair.old)?;
    text.push_str("}")
}

/// Appends the comma before an item, unless it is the first.
fn push_comma(text: &mut String, later: bool) -> Result<(), AllocError>
    ensures { OnOk result (GoesOn text.old text.new (comma_if later)) }
{
    if later { text.push_str(",") } else { Ok(()) }
}

fn push_item(text: &mut String, later: bool, pair: &BearerNumbers) -> Result<(), AllocError>
    ensures { OnOk result (GoesOn text.old text.new
        (comma_if later ++ compact_text (pair_data pair.now))) }
{
    push_comma(text, later)?;
    push_pair(text, pair)
}

fn push_pairs(text: &mut String, pairs: &[BearerNumbers]) -> Result<(), AllocError>
    ensures { OnOk result (GoesOn text.old text.new (compact_text (pairs_data pairs.now))) }
{
    text.push_str("[")?;
    let mut later = false;
    for pair in pairs {
        push_item(text, later, pair)?;
        later = true;
    }
    text.push_str("]")
}

/// The answer of a session that was renewed: the numbers of its bearers, and its last reports, whose text is given.
pub(crate) fn renewed_text(
    alloc: Global,
    pairs: &[BearerNumbers],
    reports: &str,
) -> Result<String, AllocError>
    ensures { IfOk result (λ text. string_bytes text ≡ pieces_of pairs.now reports.now) }
{
    let mut text = String::with_capacity(alloc, 256)?;
    text.push_str("{\"bearers\":")?;
    push_pairs(&mut text, pairs)?;
    text.push_str(",\"ok\":true,\"reports\":")?;
    text.push_str(reports)?;
    text.push_str("}")?;
    Ok(text)
}
