//! The figures in the answer to a line.

ghost use Rattle.std.specs.Prelude.{◌≡◌, ◌++◌, IfOk, OnOk, codes, map, option_map};
ghost use Rattle.serde_json.specs.View.{view};
ghost use Rattle.pcef_page.specs.Grants.{grant_asked, grant_of, key_in, key_of, keys_in_all};
ghost use Rattle.pcef_page.specs.Usages.{items_in, refusal_shown, refusal_of, usage_of_report, usage_figure_of, usage_in};

use crate::figures::{Grant, Handed, Judged, KeyState, Refused, Usage, Verdict};
use crate::values::{asks, copy_of, count_at, flag_at, list_at, number_at, text_at};
use serde_json::Value;
use std::alloc::{AllocError, Global};

/// A refusal or a fault, if the answer is one.
pub(crate) fn refused_in(
    alloc: Global,
    line: u64,
    answer: &Value,
) -> Result<Option<Refused>, AllocError>
    ensures { IfOk result (λ refused. option_map refusal_of refused ≡ refusal_shown line (view answer.now)) }
{
    let fault = number_at(answer, "fault");
    let Some(number) = fault.or(number_at(answer, "refused")) else {
        return Ok(None);
    };
    Ok(Some(Refused {
        line,
        name: copy_of(alloc, text_at(answer, "name"))?,
        number,
        is_fault: fault.is_some(),
    }))
}

/// Appends a report, if it is one of usage.
fn push_report(
    alloc: Global,
    usage: &mut Vec<Usage>,
    line: u64,
    report: &Value,
) -> Result<(), AllocError>
    ensures { OnOk result (map usage_figure_of usage.new.items
        ≡ map usage_figure_of usage.old.items ++ usage_of_report line (view report.now)) }
{
    let (Some(key), Some(octets)) = (text_at(report, "key"), number_at(report, "octets")) else {
        return Ok(());
    };
    let key = String::from_str(alloc, key)?;
    let cause = copy_of(alloc, text_at(report, "cause"))?;
    usage.push(Usage {
        line,
        key,
        cause,
        octets,
    })?;
    Ok(())
}

/// Appends the reports of usage that an answer has.
pub(crate) fn push_usage(
    alloc: Global,
    usage: &mut Vec<Usage>,
    line: u64,
    answer: &Value,
) -> Result<(), AllocError>
    ensures { OnOk result (map usage_figure_of usage.new.items
        ≡ map usage_figure_of usage.old.items ++ usage_in line (view answer.now)) }
{
    for report in list_at(answer, "reports") {
        push_report(alloc, usage, line, report)?;
    }
    Ok(())
}

/// Appends the grant of a `monitor` line.
pub(crate) fn push_grant(
    alloc: Global,
    grants: &mut Vec<Grant>,
    number: u64,
    line: &Value,
) -> Result<(), AllocError>
    ensures { OnOk result (map grant_of grants.new.items
        ≡ map grant_of grants.old.items ++ grant_asked number (view line.now)) }
{
    if !asks(line, "monitor") {
        return Ok(());
    }
    let (Some(key), Some(octets)) = (text_at(line, "key"), number_at(line, "grant")) else {
        return Ok(());
    };
    let key = String::from_str(alloc, key)?;
    grants.push(Grant {
        line: number,
        key,
        octets,
    })?;
    Ok(())
}

/// The state of a key, by an answer to `show`.
fn key_in(alloc: Global, state: &Value) -> Result<KeyState, AllocError>
    ensures { IfOk result (λ key. key_of key ≡ key_in (view state.now)) }
{
    let key = copy_of(alloc, text_at(state, "key"))?;
    Ok(KeyState {
        key,
        is_on: flag_at(state, "on"),
        reported: count_at(state, "reported"),
        unreported: count_at(state, "unreported"),
    })
}

/// The keys of an answer to `show`.
pub(crate) fn keys_in(alloc: Global, answer: &Value) -> Result<Vec<KeyState>, AllocError>
    ensures { IfOk result (λ keys. map key_of keys.items
        ≡ keys_in_all (items_in (codes "keys") (view answer.now))) }
{
    let mut keys = Vec::new(alloc);
    for state in list_at(answer, "keys") {
        keys.push(key_in(alloc, state)?)?;
    }
    Ok(keys)
}

/// Removes the first packet of a worker from those that wait, and returns it.
fn take_waiting(waiting: &mut Vec<Handed>, worker: u64) -> Option<Handed> {
    let place = waiting.iter().position(|packet| packet.worker == worker)?;
    Some(waiting.remove(place))
}

/// A packet with its verdict, if the answer has one there.
fn judged_packet(
    alloc: Global,
    packet: Handed,
    answered: u64,
    entry: &Value,
) -> Result<Option<Judged>, AllocError> {
    let Some(verdict) = text_at(entry, "verdict").and_then(Verdict::from_text) else {
        return Ok(None);
    };
    Ok(Some(Judged {
        packet,
        answered,
        generation: number_at(entry, "generation").unwrap_or(0),
        verdict,
        rule: copy_of(alloc, text_at(entry, "rule"))?,
        bearer: number_at(entry, "bearer"),
    }))
}

/// Appends the verdicts of an answer on the packets of a worker that wait. Returns whether there was a packet for each.
pub(crate) fn push_judged(
    alloc: Global,
    all: &mut Vec<Judged>,
    waiting: &mut Vec<Handed>,
    worker: u64,
    line: u64,
    answer: &Value,
) -> Result<bool, AllocError> {
    for entry in list_at(answer, "verdicts") {
        let Some(packet) = take_waiting(waiting, worker) else {
            return Ok(false);
        };
        match judged_packet(alloc, packet, line, entry)? {
            Some(judged) => all.push(judged)?,
            None => return Ok(false),
        }
    }
    Ok(true)
}
