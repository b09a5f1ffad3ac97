//! The totals of what was answered.

use memchr::memchr;
use serde_json::Value;
use std::alloc::{AllocError, Global};
use std::collections::BTreeSet;
use std::str;

/// How many packets have which verdict.
#[derive(Clone, Copy)]
pub(crate) struct Verdicts {
    pub passed: u64,
    pub gated: u64,
    pub unmatched: u64,
    pub stray: u64,
}

impl Verdicts {
    const NONE: Verdicts = Verdicts {
        passed: 0,
        gated: 0,
        unmatched: 0,
        stray: 0,
    };

    fn count(&mut self, verdict: &str) {
        let count = match verdict {
            "Passed" => &mut self.passed,
            "Gated" => &mut self.gated,
            "Unmatched" => &mut self.unmatched,
            "Stray" => &mut self.stray,
            _ => return,
        };
        *count = count.saturating_add(1);
    }

    /// Counts the verdict at the end of an object, up to its brace. A text in it can't have this end: a quotation mark
    /// in it stands behind a backslash.
    fn count_end(&mut self, object: &[u8]) {
        if object.ends_with(b"\"verdict\":\"Passed\"") {
            self.passed = self.passed.saturating_add(1);
        } else if object.ends_with(b"\"verdict\":\"Gated\"") {
            self.gated = self.gated.saturating_add(1);
        } else if object.ends_with(b"\"verdict\":\"Unmatched\"") {
            self.unmatched = self.unmatched.saturating_add(1);
        } else if object.ends_with(b"\"verdict\":\"Stray\"") {
            self.stray = self.stray.saturating_add(1);
        }
    }

    /// Counts the verdicts of an answer's text.
    fn count_all(&mut self, answer: &[u8]) {
        for object in answer.split(|octet| *octet == b'}') {
            self.count_end(object);
        }
    }
}

/// How many lines a refusal or a fault answered.
#[derive(Drop)]
pub(crate) struct Refused {
    pub name: String,
    pub lines: u64,
}

/// The totals of what was answered.
#[derive(Drop)]
pub(crate) struct Totals {
    /// The names of the sessions that are open.
    pub open: BTreeSet<Vec<u8>>,
    /// The lines that were answered.
    pub lines: u64,
    /// The packets, by their verdicts.
    pub verdicts: Verdicts,
    /// The octets of the reports of usage.
    pub octets: u64,
    /// The lines that were refused or at fault, by name.
    pub refused: Vec<Refused>,
    /// What there is of an answer that isn't whole yet.
    part: Vec<u8>,
}

/// The answer to an `open` and to an `end` that were done, and to no other line.
const DONE: &[u8] = b"{\"ok\":true}";

/// The front of the answer to a packet that waits for its verdict.
const WAITING: &[u8] = b"{\"ok\":true,\"waiting\":";

/// The front of an answer that has verdicts and no report.
const QUIET: &[u8] = b"{\"ok\":true,\"reports\":[],";

/// The list of this name in an answer.
fn list<'a>(answer: &'a Value, name: &str) -> &'a [Value] {
    match answer.get(name).and_then(Value::as_array) {
        Some(list) => list.as_slice(),
        None => &[],
    }
}

impl Totals {
    /// Nothing was answered yet. Takes no memory.
    pub(crate) fn new(alloc: Global) -> Totals {
        Totals {
            open: BTreeSet::new(alloc),
            lines: 0,
            verdicts: Verdicts::NONE,
            octets: 0,
            refused: Vec::new(alloc),
            part: Vec::new(alloc),
        }
    }

    /// Counts a line that was refused or at fault by this name.
    fn refuse(&mut self, alloc: Global, name: &str) -> Result<(), AllocError> {
        for refused in &mut self.refused {
            if refused.name.as_str() == name {
                refused.lines = refused.lines.saturating_add(1);
                return Ok(());
            }
        }
        let name = String::from_str(alloc, name)?;
        self.refused.push(Refused { name, lines: 1 })?;
        Ok(())
    }

    /// Opens the session of a name, or ends it where it is open.
    fn turn(&mut self, alloc: Global, name: &[u8]) -> Result<(), AllocError> {
        let mut copy = Vec::new(alloc);
        copy.extend_from_slice(name)?;
        if !self.open.remove(&copy) {
            self.open.insert(copy)?;
        }
        Ok(())
    }

    /// Counts the verdicts and reports of an answer, or its refusal or fault.
    fn take_value(&mut self, alloc: Global, answer: &Value) -> Result<(), AllocError> {
        for verdict in list(answer, "verdicts") {
            self.verdicts.count(verdict.get("verdict").and_then(Value::as_str).unwrap_or(""));
        }
        for report in list(answer, "reports") {
            let octets = report.get("octets").and_then(Value::as_u64).unwrap_or(0);
            self.octets = self.octets.saturating_add(octets);
        }
        let is_refused = answer.get("refused").is_some() || answer.get("fault").is_some();
        match answer.get("name").and_then(Value::as_str) {
            Some(name) if is_refused => self.refuse(alloc, name),
            _ => Ok(()),
        }
    }

    /// Counts an answer behind its session's name.
    fn take_answer(&mut self, alloc: Global, name: &[u8], answer: &[u8]) -> Result<(), AllocError> {
        if answer == DONE {
            return self.turn(alloc, name);
        }
        if answer.starts_with(WAITING) {
            return Ok(());
        }
        if answer.starts_with(QUIET) {
            self.verdicts.count_all(answer);
            return Ok(());
        }
        let Ok(text) = str::from_utf8(answer) else {
            return Ok(());
        };
        match Value::from_str(alloc, text) {
            Ok(value) => self.take_value(alloc, &value),
            Err(error) if error.is_memory() => Err(AllocError),
            Err(_) => Ok(()),
        }
    }

    /// Counts a line of answers.
    fn take_line(&mut self, alloc: Global, line: &[u8]) -> Result<(), AllocError> {
        self.lines = self.lines.saturating_add(1);
        match memchr(b' ', line) {
            Some(place) => {
                let (name, rest) = line.split_at(place);
                self.take_answer(alloc, name, rest.split_at(1).1)
            }
            None => Ok(()),
        }
    }

    /// Counts the answer that the last octets end. The octets before them wait.
    fn take_last(&mut self, alloc: Global, octets: &[u8]) -> Result<(), AllocError> {
        if self.part.is_empty() {
            return self.take_line(alloc, octets);
        }
        self.part.extend_from_slice(octets)?;
        let whole = self.part.clone()?;
        self.part.clear();
        self.take_line(alloc, &whole)
    }

    /// Counts what octets of answers say; an answer that isn't whole waits for its rest. Takes memory for the names of
    /// open sessions, for names of refusals, and for an answer in turn.
    pub(crate) fn take(&mut self, alloc: Global, octets: &[u8]) -> Result<(), AllocError> {
        for piece in octets.split_inclusive(|octet| *octet == b'\n') {
            match piece.split_last() {
                Some((b'\n', line)) => self.take_last(alloc, line)?,
                _ => self.part.extend_from_slice(piece)?,
            }
        }
        Ok(())
    }
}
