//! Reports in answers.

ghost use Rattle.std.specs.Prelude.{◌≡◌, ◌≤◌, ◌++◌, IfOk, OnOk, codes, decimal, drop, reverse, string_bytes};
ghost use Rattle.json.specs.Print.{escape};
ghost use Rattle.serde_json.specs.Written.{comma_if, compact_text};
ghost use Rattle.pcef_rule.specs.Name.{IsName};
ghost use Rattle.pcef_model.specs.Entries.{reports};
ghost use Rattle.pcef_model.specs.declared.report.Body.TheVariants.{Access, Inactive, Usage};
ghost use Rattle.pcef_answer.specs.ReportAnswers.{body_data, cause_text, inactive_text, report_data, reports_data, reports_text};
ghost use Rattle.pcef_answer.specs.Written.{GoesOn};

use crate::written::{push_comma, push_count, push_name, push_word};
use pcef_journal::{Journal, Reports};
use pcef_line::event_text;
use pcef_model::{AccessKind, Body, Cause, InactiveCause, NoticeValue, Report};
use pcef_rule::{KeyName, RuleName};
use std::alloc::{AllocError, Global};

fn cause_text(cause: Cause) -> &'static str
    ensures { result.now ≡ cause_text cause }
{
    match cause {
        Cause::Threshold => "Threshold",
        Cause::Requested => "Requested",
        Cause::Disabled => "Disabled",
        Cause::RulesGone => "RulesGone",
        Cause::Terminated => "Terminated",
    }
}

fn inactive_text(cause: InactiveCause) -> &'static str
    ensures { result.now ≡ inactive_text cause }
{
    match cause {
        InactiveCause::BearerLost => "BearerLost",
    }
}

fn push_report(text: &mut String, report: &Report) -> Result<(), AllocError>
    ensures { OnOk result (GoesOn text.old text.new (compact_text (report_data report.now))) }
{
    let number = report.number;
    match &report.body {
        Body::Usage { key, octets, cause } => push_usage(text, number, key, *octets, *cause),
        Body::Access { kind, value } => push_access(text, number, *kind, value),
        Body::Inactive { rule, cause } => push_inactive(text, number, rule, *cause),
    }
}

fn push_usage(
    text: &mut String,
    number: u64,
    key: &KeyName,
    octets: u64,
    cause: Cause,
) -> Result<(), AllocError>
    ensures { OnOk result (GoesOn text.old text.new
        (compact_text (body_data number (Usage key.now octets cause)))) }
{
    push_word(text, "{\"cause\":\"", cause_text(cause))?;
    push_name(text, ",\"key\":\"", key.as_str())?;
    push_count(text, ",\"number\":", number)?;
    push_count(text, ",\"octets\":", octets)?;
    text.push_str("}")
}

fn push_access(
    text: &mut String,
    number: u64,
    kind: AccessKind,
    value: &NoticeValue,
) -> Result<(), AllocError>
    ensures { OnOk result (GoesOn text.old text.new
        (compact_text (body_data number (Access kind value.now)))) }
{
    push_word(text, "{\"event\":\"", event_text(kind))?;
    push_last(text, number, ",\"value\":\"", value.as_str())
}

fn push_inactive(
    text: &mut String,
    number: u64,
    rule: &RuleName,
    cause: InactiveCause,
) -> Result<(), AllocError>
    ensures { OnOk result (GoesOn text.old text.new
        (compact_text (body_data number (Inactive rule.now cause)))) }
{
    push_word(text, "{\"cause\":\"", inactive_text(cause))?;
    push_last(text, number, ",\"rule\":\"", rule.as_str())
}

// Appends the number, and a name as the last member.
fn push_last(text: &mut String, number: u64, front: &str, name: &str) -> Result<(), AllocError>
    requires { IsName name.now }
    ensures { OnOk result (GoesOn text.old text.new
        ((codes ",\"number\":" ++ decimal number)
        ++ ((front.now ++ (escape name.now ++ codes "\"")) ++ codes "}"))) }
{
    push_count(text, ",\"number\":", number)?;
    push_name(text, front, name)?;
    text.push_str("}")
}

fn push_item(text: &mut String, later: bool, report: &Report) -> Result<(), AllocError>
    ensures { OnOk result (GoesOn text.old text.new
        (comma_if later ++ compact_text (report_data report.now))) }
{
    push_comma(text, later)?;
    push_report(text, report)
}

fn push_list(text: &mut String, reports: Reports<'_>) -> Result<(), AllocError>
    ensures { OnOk result (GoesOn text.old text.new (compact_text (reports_data reports.entry))) }
{
    text.push_str("[")?;
    let mut later = false;
    for report in reports {
        push_item(text, later, report)?;
        later = true;
    }
    text.push_str("]")
}

/// Appends the reports of a journal from `first` up to its end where `first` is below `past_last`, else none. The
/// journal has forgotten none of them.
pub(crate) fn push_reports(
    text: &mut String,
    journal: &Journal,
    first: u64,
    past_last: u64,
) -> Result<(), AllocError>
    requires { journal.now.forgotten ≤ first }
    ensures { OnOk result (GoesOn text.old text.new
        (reports_text journal.now.entries first past_last)) }
{
    if first < past_last {
        push_list(text, journal.reports_from(first))
    } else {
        text.push_str("[]")
    }
}

/// The reports of a journal from `first` on, the oldest first: a JSON array. The journal has forgotten none of them.
/// Takes memory for the text.
pub fn reports_answer(alloc: Global, journal: &Journal, first: u64) -> Result<String, AllocError>
    requires { journal.now.forgotten ≤ first }
    ensures { IfOk result (λ text. string_bytes text
        ≡ compact_text (reports_data (drop first (reverse (reports journal.now.entries))))) }
{
    let mut text = String::new(alloc);
    push_list(&mut text, journal.reports_from(first))?;
    Ok(text)
}
