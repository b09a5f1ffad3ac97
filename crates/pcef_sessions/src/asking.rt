//! What a line asks of the sessions.

ghost use Rattle.std.specs.Prelude.{◌≡◌, IfOk, codes};
ghost use Rattle.serde_json.specs.Find.{get};
ghost use Rattle.serde_json.specs.View.{members_view, view};
ghost use Rattle.pcef_sessions.specs.Asked.{alone_at, asked_at, asked_of, asked_text, each_key, has_only_keys, is_do_field, is_open_field, open_at, open_with};

use pcef_packet::Addr;
use pcef_script::MAX_LINE;
use serde_json::{Map, Value};
use std::alloc::{AllocError, Global};
use std::str;
use thiserror::Error;

/// Why a line that opens a session, renews one, shows its lines or ends one isn't right.
#[derive(Clone, Copy, Debug, PartialEq, Eq, Error)]
pub enum AskingFault {
    /// It has a field that the word doesn't have.
    #[error("the line has a field that its word doesn't have")]
    UnknownField,
    /// Its `ue` is no address.
    #[error("`ue` is no address")]
    BadUe,
}

/// What a line asks of the sessions.
#[derive(Clone, Copy, Debug, PartialEq, Eq)]
pub enum Asking {
    /// To open the session, with this address in the place of the profile's, where there is one.
    Open(Option<Addr>),
    /// To renew the session.
    Renew,
    /// To show the lines that make a new session like this one.
    Lines,
    /// To end the session.
    End,
    /// One of these four, in a line at fault.
    Fault(AskingFault),
    /// None of them: the line is one of a script.
    Script,
}

fn is_open_field(key: &str) -> bool
    ensures { result ≡ is_open_field key.now }
{
    key == "do" || key == "ue"
}

fn is_do_field(key: &str) -> bool
    ensures { result ≡ is_do_field key.now }
{
    key == "do"
}

fn are_of_open(members: &Map<String, Value>) -> bool
    ensures { result ≡ each_key is_open_field (members_view members.now.entries) }
{
    members.keys().all(|key| is_open_field(key.as_str()))
}

fn are_do_alone(members: &Map<String, Value>) -> bool
    ensures { result ≡ each_key is_do_field (members_view members.now.entries) }
{
    members.keys().all(|key| is_do_field(key.as_str()))
}

fn has_fields_of_open(line: &Value) -> bool
    ensures { result ≡ has_only_keys is_open_field (view line.now) }
{
    match line.as_object() {
        Some(members) => are_of_open(members),
        None => true,
    }
}

fn has_do_alone(line: &Value) -> bool
    ensures { result ≡ has_only_keys is_do_field (view line.now) }
{
    match line.as_object() {
        Some(members) => are_do_alone(members),
        None => true,
    }
}

/// What a line that opens a session says of its address.
#[tactic(auto, unfolding(crate::specs::Asked::open_with))]
fn address_of(line: &Value) -> Asking
    ensures { result ≡ open_with (get (codes "ue") (view line.now)) }
{
    let Some(ue) = line.get("ue") else {
        return Asking::Open(None);
    };
    let Some(text) = ue.as_str() else {
        return Asking::Fault(AskingFault::BadUe);
    };
    match Addr::from_text(text.as_bytes()) {
        Some(address) => Asking::Open(Some(address)),
        None => Asking::Fault(AskingFault::BadUe),
    }
}

#[tactic(auto, unfolding(crate::specs::Asked::open_at))]
fn opening_of(line: &Value) -> Asking
    ensures { result ≡ open_at (view line.now) }
{
    if has_fields_of_open(line) {
        address_of(line)
    } else {
        Asking::Fault(AskingFault::UnknownField)
    }
}

/// What a line asks by its word alone.
#[tactic(auto, unfolding(crate::specs::Asked::alone_at))]
fn alone_of(line: &Value, asking: Asking) -> Asking
    ensures { result ≡ alone_at asking (view line.now) }
{
    if has_do_alone(line) {
        asking
    } else {
        Asking::Fault(AskingFault::UnknownField)
    }
}

#[tactic(auto, unfolding(crate::specs::Asked::asked_at))]
fn asked_at(line: &Value) -> Asking
    ensures { result ≡ asked_at (view line.now) }
{
    match line.get("do").and_then(Value::as_str) {
        Some("open") => opening_of(line),
        Some("renew") => alone_of(line, Asking::Renew),
        Some("lines") => alone_of(line, Asking::Lines),
        Some("end") => alone_of(line, Asking::End),
        _ => Asking::Script,
    }
}

fn asked_text(alloc: Global, text: &str) -> Result<Asking, AllocError>
    ensures { IfOk result (λ a. a ≡ asked_text text.now) }
{
    match Value::from_str(alloc, text) {
        Ok(line) => Ok(asked_at(&line)),
        Err(error) if error.is_memory() => Err(AllocError),
        Err(_) => Ok(Asking::Script),
    }
}

/// What a line asks of the sessions. Takes memory for the line.
pub(crate) fn asked_of(alloc: Global, line: &[u8]) -> Result<Asking, AllocError>
    ensures { IfOk result (λ a. a ≡ asked_of line.now) }
{
    if line.len() > MAX_LINE {
        return Ok(Asking::Script);
    }
    match str::from_utf8(line) {
        Ok(text) => asked_text(alloc, text),
        Err(_) => Ok(Asking::Script),
    }
}
