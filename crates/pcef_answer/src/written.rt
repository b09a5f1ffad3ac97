//! The answers to steps, written piece by piece: no JSON value is built.

ghost use Rattle.std.specs.Prelude.{◌≡◌, ◌++◌, ◌<◌, ◌≤◌, ◌||◌, ◌==◌, IfOk, true, OnOk, codes, decimal, string_bytes};
ghost use Rattle.std.specs.Bool.{OnTrue};
ghost use Rattle.json.specs.Print.{escape, escape_byte};
ghost use Rattle.serde_json.specs.Written.{comma_if, compact_text, members_text};
ghost use Rattle.pcef_answer.specs.ReportAnswers.{reports_text};
ghost use Rattle.pcef_rule.specs.Name.{IsName, IsVisible};
ghost use Rattle.pcef_model.specs.Outcomes.{flush_answer_of};
ghost use Rattle.pcef_model.specs.declared.verdict.Verdict.TheVariants.{Gated, Passed};
ghost use Rattle.pcef_answer.specs.StepAnswers.{abandoned_data, accepted_data, attached_data, finished_data, flushed_data, judged_data, refreshed_data, taken_data, unchanged_last, verdicts_data};
ghost use Rattle.pcef_answer.specs.Written.{GoesOn, verdict_text};

use crate::report::push_reports;
use itoa::Buffer;
use pcef_journal::Journal;
use pcef_model::{Accepted, Judged, Verdict, Verdicts};
use pcef_rule::{BearerId, RuleName};
use pcef_world::Abandoned;
use std::alloc::{AllocError, Global};

/// The answer to an accepted command, with the reports that it made, from the journal.
pub(crate) fn text_of_accepted(
    alloc: Global,
    journal: &Journal,
    accepted: Accepted,
) -> Result<String, AllocError>
    requires { journal.now.forgotten ≤ accepted.first_report }
    ensures { IfOk result (λ text. string_bytes text
        ≡ compact_text (accepted_data journal.now.entries accepted)) }
{
    let mut text = String::with_capacity(alloc, 128)?;
    push_accepted(&mut text, journal, accepted)?;
    Ok(text)
}

fn push_accepted(text: &mut String, journal: &Journal, accepted: Accepted) -> Result<(), AllocError>
    requires { journal.now.forgotten ≤ accepted.first_report }
    ensures { OnOk result (GoesOn text.old text.new
        (compact_text (accepted_data journal.now.entries accepted))) }
{
    match accepted.bearer {
        None => push_change(text, "{\"generation\":", journal, accepted),
        Some(bearer) => {
            push_count(text, "{\"bearer\":", u64::from(bearer.0))?;
            push_change(text, ",\"generation\":", journal, accepted)
        }
    }
}

fn push_change(
    text: &mut String,
    front: &str,
    journal: &Journal,
    accepted: Accepted,
) -> Result<(), AllocError>
    requires { journal.now.forgotten ≤ accepted.first_report }
    ensures { OnOk result (GoesOn text.old text.new
        ((front.now ++ decimal accepted.generation) ++ (codes ",\"ok\":true,\"reports\":"
        ++ (reports_text journal.now.entries accepted.first_report accepted.past_last_report
        ++ members_text true (unchanged_last accepted.unchanged))))) }
{
    push_count(text, front, u64::from(accepted.generation))?;
    text.push_str(",\"ok\":true,\"reports\":")?;
    push_reports(
        text,
        journal,
        accepted.first_report,
        accepted.past_last_report,
    )?;
    push_end(text, accepted.unchanged)
}

#[tactic(auto, unfolding(json::specs::Print::escape_byte))]
fn push_end(text: &mut String, unchanged: bool) -> Result<(), AllocError>
    ensures { OnOk result (GoesOn text.old text.new
        (members_text true (unchanged_last unchanged))) }
{
    if unchanged {
        text.push_str(",\"unchanged\":true}")
    } else {
        text.push_str("}")
    }
}

/// The answer to an `attach`: the worker starts in this generation.
pub(crate) fn text_of_attach(
    alloc: Global,
    generation: u32,
    worker: u8,
) -> Result<String, AllocError>
    ensures { IfOk result (λ text. string_bytes text
        ≡ compact_text (attached_data generation worker)) }
{
    let mut text = String::with_capacity(alloc, 64)?;
    push_count(&mut text, "{\"generation\":", u64::from(generation))?;
    push_last_count(&mut text, ",\"ok\":true,\"worker\":", u64::from(worker))?;
    Ok(text)
}

/// The answer to a `refresh`, after which the worker holds this generation.
pub(crate) fn text_of_refresh(alloc: Global, generation: u32) -> Result<String, AllocError>
    ensures { IfOk result (λ text. string_bytes text ≡ compact_text (refreshed_data generation)) }
{
    let mut text = String::with_capacity(alloc, 64)?;
    push_count(&mut text, "{\"generation\":", u64::from(generation))?;
    text.push_str(",\"ok\":true}")?;
    Ok(text)
}

/// The answer to an `abandon`: how many rows waited, and the length of the worker's lane.
pub(crate) fn text_of_abandon(alloc: Global, abandoned: Abandoned) -> Result<String, AllocError>
    ensures { IfOk result (λ text. string_bytes text ≡ compact_text (abandoned_data abandoned)) }
{
    let mut text = String::with_capacity(alloc, 64)?;
    push_count(&mut text, "{\"abandoned\":", u64::from(abandoned.waiting))?;
    push_last_count(&mut text, ",\"ok\":true,\"rows\":", abandoned.rows)?;
    Ok(text)
}

/// The answer to a packet that was taken: how many rows wait.
pub(crate) fn text_of_take(alloc: Global, waiting: u8) -> Result<String, AllocError>
    ensures { IfOk result (λ text. string_bytes text ≡ compact_text (taken_data waiting)) }
{
    let mut text = String::with_capacity(alloc, 32)?;
    push_last_count(&mut text, "{\"ok\":true,\"waiting\":", u64::from(waiting))?;
    Ok(text)
}

/// The answer to a flush: its verdicts, with the reports that they made, from the journal.
pub(crate) fn text_of_flush(
    alloc: Global,
    journal: &Journal,
    verdicts: &Verdicts,
) -> Result<String, AllocError>
    requires { journal.now.forgotten ≤ verdicts.now.first_report }
    ensures { IfOk result (λ text. string_bytes text
        ≡ compact_text (flushed_data journal.now.entries (flush_answer_of verdicts.now))) }
{
    let room = verdicts.rows.len().saturating_mul(96).saturating_add(64);
    let mut text = String::with_capacity(alloc, room)?;
    text.push_str("{\"ok\":true,\"reports\":")?;
    push_reports(
        &mut text,
        journal,
        verdicts.first_report,
        verdicts.past_last_report,
    )?;
    text.push_str(",\"verdicts\":")?;
    push_verdicts(&mut text, &verdicts.rows)?;
    text.push_str("}")?;
    Ok(text)
}

/// The answer to a finish: that to a flush, and the length of the worker's lane.
pub(crate) fn text_of_finish(
    alloc: Global,
    journal: &Journal,
    verdicts: &Verdicts,
    rows: u64,
) -> Result<String, AllocError>
    requires { journal.now.forgotten ≤ verdicts.now.first_report }
    ensures { IfOk result (λ text. string_bytes text
        ≡ compact_text (finished_data journal.now.entries (flush_answer_of verdicts.now) rows)) }
{
    let room = verdicts.rows.len().saturating_mul(96).saturating_add(96);
    let mut text = String::with_capacity(alloc, room)?;
    text.push_str("{\"ok\":true,\"reports\":")?;
    push_reports(
        &mut text,
        journal,
        verdicts.first_report,
        verdicts.past_last_report,
    )?;
    text.push_str(",\"rows\":")?;
    push_number(&mut text, rows)?;
    text.push_str(",\"verdicts\":")?;
    push_verdicts(&mut text, &verdicts.rows)?;
    text.push_str("}")?;
    Ok(text)
}

fn push_verdicts(text: &mut String, rows: &[Judged]) -> Result<(), AllocError>
    ensures { OnOk result (GoesOn text.old text.new (compact_text (verdicts_data rows.now))) }
{
    text.push_str("[")?;
    let mut later = false;
    for judged in rows {
        push_item(text, later, judged)?;
        later = true;
    }
    text.push_str("]")
}

fn push_item(text: &mut String, later: bool, judged: &Judged) -> Result<(), AllocError>
    ensures { OnOk result (GoesOn text.old text.new
        (comma_if later ++ compact_text (judged_data judged.now))) }
{
    push_comma(text, later)?;
    push_judged(text, judged)
}

fn push_judged(text: &mut String, judged: &Judged) -> Result<(), AllocError>
    ensures { OnOk result (GoesOn text.old text.new (compact_text (judged_data judged.now))) }
{
    let generation = judged.generation;
    match &judged.verdict {
        Verdict::Stray => push_ruleless(text, generation, ",\"verdict\":\"Stray\"}"),
        Verdict::Unmatched => push_ruleless(text, generation, ",\"verdict\":\"Unmatched\"}"),
        Verdict::Gated { rule } => push_gated(text, generation, rule),
        Verdict::Passed { rule, bearer } => push_passed(text, generation, rule, *bearer),
    }
}

fn push_ruleless(text: &mut String, generation: u32, end: &str) -> Result<(), AllocError>
    ensures { OnOk result (GoesOn text.old text.new
        (codes "{\"generation\":" ++ (decimal generation ++ end.now))) }
{
    text.push_str("{\"generation\":")?;
    push_number(text, u64::from(generation))?;
    text.push_str(end)
}

fn push_gated(text: &mut String, generation: u32, rule: &RuleName) -> Result<(), AllocError>
    ensures { OnOk result (GoesOn text.old text.new (verdict_text generation (Gated rule.now))) }
{
    text.push_str("{\"generation\":")?;
    push_number(text, u64::from(generation))?;
    push_rule(text, rule, "\",\"verdict\":\"Gated\"}")
}

fn push_passed(
    text: &mut String,
    generation: u32,
    rule: &RuleName,
    bearer: BearerId,
) -> Result<(), AllocError>
    ensures { OnOk result (GoesOn text.old text.new
        (verdict_text generation (Passed rule.now bearer))) }
{
    text.push_str("{\"bearer\":")?;
    push_number(text, u64::from(bearer.0))?;
    text.push_str(",\"generation\":")?;
    push_number(text, u64::from(generation))?;
    push_rule(text, rule, "\",\"verdict\":\"Passed\"}")
}

// `end` begins with the quotation mark behind the name.
fn push_rule(text: &mut String, rule: &RuleName, end: &str) -> Result<(), AllocError>
    ensures { OnOk result (GoesOn text.old text.new
        (codes ",\"rule\":\"" ++ (escape rule.now ++ end.now))) }
{
    text.push_str(",\"rule\":\"")?;
    push_escaped(text, rule.as_str())?;
    text.push_str(end)
}

/// Appends a name behind a front, which ends with the quotation mark before it.
pub(crate) fn push_name(text: &mut String, front: &str, name: &str) -> Result<(), AllocError>
    requires { IsName name.now }
    ensures { OnOk result (GoesOn text.old text.new
        (front.now ++ (escape name.now ++ codes "\""))) }
{
    text.push_str(front)?;
    push_escaped(text, name)?;
    text.push_str("\"")
}

/// Appends a word that needs no escape behind a front, which ends with the quotation mark before it.
pub(crate) fn push_word(text: &mut String, front: &str, word: &str) -> Result<(), AllocError>
    requires { escape word.now ≡ word.now }
    ensures { OnOk result (GoesOn text.old text.new
        (front.now ++ (escape word.now ++ codes "\""))) }
{
    text.push_str(front)?;
    text.push_str(word)?;
    text.push_str("\"")
}

#[inline(always)]
fn push_escaped(text: &mut String, name: &str) -> Result<(), AllocError>
    requires { IsName name.now }
    ensures { OnOk result (GoesOn text.old text.new (escape name.now)) }
{
    if is_plain(name) {
        text.push_str(name)
    } else {
        push_bytes(text, name)
    }
}

// Whether a name needs no escape. Most names need none.
fn is_plain(name: &str) -> bool
    requires { IsName name.now }
    ensures { OnTrue result (escape name.now ≡ name.now) }
{
    for byte in name.as_bytes() {
        if is_special(*byte) {
            return false;
        }
    }
    true
}

fn is_special(byte: u8) -> bool
    ensures { result ≡ (byte == 34) || (byte == 92) }
{
    byte == b'"' || byte == b'\\'
}

fn push_bytes(text: &mut String, name: &str) -> Result<(), AllocError>
    requires { IsName name.now }
    ensures { OnOk result (GoesOn text.old text.new (escape name.now)) }
{
    for byte in name.as_bytes() {
        push_byte(text, *byte)?;
    }
    Ok(())
}

fn push_byte(text: &mut String, byte: u8) -> Result<(), AllocError>
    requires { IsVisible byte }
    ensures { OnOk result (GoesOn text.old text.new (escape_byte byte)) }
{
    if is_special(byte) {
        text.push_str("\\")?;
        text.push(char::from(byte))
    } else {
        text.push(char::from(byte))
    }
}

/// Appends the comma before an item, unless it is the first.
pub(crate) fn push_comma(text: &mut String, later: bool) -> Result<(), AllocError>
    ensures { OnOk result (GoesOn text.old text.new (comma_if later)) }
{
    if later { text.push_str(",") } else { Ok(()) }
}

/// Appends a number behind a front. Inlined, so that a front of known length is copied without a call.
#[inline(always)]
pub(crate) fn push_count(text: &mut String, front: &str, number: u64) -> Result<(), AllocError>
    ensures { OnOk result (GoesOn text.old text.new (front.now ++ decimal number)) }
{
    text.push_str(front)?;
    push_number(text, number)
}

/// Appends a number behind a front, as the last member.
#[inline(always)]
pub(crate) fn push_last_count(text: &mut String, front: &str, number: u64) -> Result<(), AllocError>
    ensures { OnOk result (GoesOn text.old text.new
        ((front.now ++ decimal number) ++ codes "}")) }
{
    push_count(text, front, number)?;
    text.push_str("}")
}

fn push_number(text: &mut String, number: u64) -> Result<(), AllocError>
    ensures { OnOk result (GoesOn text.old text.new (decimal number)) }
{
    if number < 10 {
        push_digit(text, number as u8)
    } else if number < 100 {
        push_two_digits(text, number as u8)
    } else {
        text.push_str(Buffer::new().format(number))
    }
}

// Most numbers of an answer have one digit or two, and need no buffer.
fn push_two_digits(text: &mut String, number: u8) -> Result<(), AllocError>
    requires { (10 ≤ number) × (number < 100) }
    ensures { OnOk result (GoesOn text.old text.new (decimal number)) }
{
    push_digit(text, number / 10)?;
    push_digit(text, number % 10)
}

fn push_digit(text: &mut String, digit: u8) -> Result<(), AllocError>
    requires { digit < 10 }
    ensures { OnOk result (GoesOn text.old text.new (decimal digit)) }
{
    text.push(char::from(b'0' + digit))
}
