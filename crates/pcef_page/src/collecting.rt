//! Collects the figures of a script and its answers.

ghost use Rattle.std.specs.Prelude.{◌≡◌, ◌≤◌, ◌+◌, ◌-◌, ◌^◌, ◌++◌, [], IfErr, IfOk, IsOk, OnOk, codes, length, map, min, option_map, true};
ghost use Rattle.serde_json.specs.View.{view};
ghost use Rattle.pcef_page.specs.Collecting.{Fails, IsExchangeFault, IsBlank, IsMismatch, AreFiguresOf};
ghost use Rattle.pcef_page.specs.Grants.{generation_behind, grant_of, grants_in, key_of, keys_behind};
ghost use Rattle.pcef_page.specs.Guarantees.{rates_commanded, rates_in, rules_behind, rules_commanded};
ghost use Rattle.pcef_page.specs.Pairing.{json_of, exchanges, filled, is_answer, has_value};
ghost use Rattle.pcef_page.specs.Usages.{member_number, refusal_of, refusals_in, usage_figure_of, usage_in};
ghost use Rattle.pcef_page.specs.private.Steps.{IsOtherOrMemory, AddsPackets, TakesDone, TakesLine, AddsExchange, exchange_by};

use crate::answers::{keys_in, push_grant, push_judged, push_usage, refused_in};
use crate::figures::{Figures, Handed};
use crate::lines::packet_of;
use crate::pairing::{Filled, Lines};
use crate::rates::ActiveRules;
use crate::values::{count_at, number_at, text_at};
use serde_json::Value;
use std::alloc::{AllocError, AllocFailed, Global};
use std::str;
use thiserror::Error;

/// Why a script and answers don't belong together.
#[derive(Clone, Copy, Debug, PartialEq, Eq, Error)]
pub enum CollectFault {
    /// The answer to the line of this number, from 1, is no answer.
    #[error("the answer to line {0} isn't one")]
    NoAnswer(u64),
    /// The answer to the line of this number has more verdicts than packets wait, or something that is no verdict.
    #[error("the answer to line {0} has verdicts on other packets")]
    OtherPackets(u64),
    /// There are more answers than lines.
    #[error("there are more answers than lines")]
    MoreAnswers,
    /// There is no memory left.
    #[error("there is no memory left")]
    NoMemory,
}

impl From<AllocError> for CollectFault {
    ghost use Rattle.pcef_page.specs.declared.collecting.CollectFault.TheVariants.{NoMemory};

    ghost from_gives = { λ _ fault. fault ≡ NoMemory };

    fn from(_refused: AllocError) -> CollectFault {
        CollectFault::NoMemory
    }
}

impl<T: Drop> From<AllocFailed<T>> for CollectFault {
    ghost use Rattle.pcef_page.specs.declared.collecting.CollectFault.TheVariants.{NoMemory};

    ghost from_gives = { λ _ fault. fault ≡ NoMemory };

    fn from(_refused: AllocFailed<T>) -> CollectFault {
        CollectFault::NoMemory
    }
}

/// What is collected so far.
#[derive(Drop)]
pub struct Collected {
    /// The figures so far.
    pub figures: Figures,
    /// The rules that are active.
    pub active: ActiveRules,
    waiting: Vec<Handed>,
}

/// The JSON value of a line, if it is one.
pub(crate) fn value_of(alloc: Global, line: &[u8]) -> Result<Option<Value>, AllocError>
    ensures { IfOk result (λ value. option_map view value ≡ json_of line.now) }
{
    let Ok(text) = str::from_utf8(line) else {
        return Ok(None);
    };
    match Value::from_str(alloc, text) {
        Ok(value) => Ok(Some(value)),
        Err(error) if error.is_memory() => Err(AllocError),
        Err(_) => Ok(None),
    }
}

impl Collected {
    /// Nothing is collected yet. Takes no memory.
    pub fn new(alloc: Global) -> Collected
        ensures figures { IsBlank result.figures }
        ensures active { result.active ≡ [] }
    {
        Collected {
            figures: Figures::new(alloc),
            waiting: Vec::new(alloc),
            active: ActiveRules::new(alloc),
        }
    }

    fn into_figures(self) -> Figures
        ensures { result ≡ self.figures }
    {
        let Collected {
            figures,
            waiting: _,
            active: _,
        } = self;
        figures
    }

    /// Takes what a line that was done asked for, and what its answer shows.
    fn take_answered(
        &mut self,
        alloc: Global,
        number: u64,
        line: &Value,
        answer: &Value,
    ) -> Result<(), AllocError>
        ensures { OnOk result (TakesDone number (view line.now) (view answer.now) self.old self.new) }
    {
        let generation = count_at(answer, "generation");
        self.figures.generation = self.figures.generation.max(generation);
        push_grant(alloc, &mut self.figures.grants, number, line)?;
        if answer.get("keys").is_some() {
            self.figures.keys = keys_in(alloc, answer)?;
        }
        self.active
            .take(alloc, &mut self.figures.rates, line, answer)
    }

    /// Takes the step of a worker. Returns whether the verdicts are on the packets that wait.
    fn take_step(
        &mut self,
        alloc: Global,
        number: u64,
        worker: u64,
        line: &Value,
        answer: &Value,
    ) -> Result<bool, AllocError>
        ensures figures { OnOk result (AddsPackets self.old.figures self.new.figures) }
        ensures active { OnOk result (self.new.active ≡ self.old.active) }
    {
        match text_at(line, "do") {
            Some("take") => {
                if let Some(packet) = packet_of(alloc, number, line)? {
                    self.waiting.push(packet)?;
                }
                Ok(true)
            }
            Some("abandon") => {
                self.waiting.retain(|packet| packet.worker != worker);
                Ok(true)
            }
            Some("flush" | "finish") => push_judged(
                alloc,
                &mut self.figures.judged,
                &mut self.waiting,
                worker,
                number,
                answer,
            ),
            _ => Ok(true),
        }
    }

    /// Takes a line that was done.
    fn take_done(
        &mut self,
        alloc: Global,
        number: u64,
        line: &Value,
        answer: &Value,
    ) -> Result<(), CollectFault>
        ensures figures { OnOk result (TakesDone number (view line.now) (view answer.now) self.old self.new) }
        ensures fault { IfErr result (IsOtherOrMemory number) }
    {
        self.take_answered(alloc, number, line, answer)?;
        let Some(worker) = number_at(line, "worker") else {
            return Ok(());
        };
        if self.take_step(alloc, number, worker, line, answer)? {
            Ok(())
        } else {
            Err(CollectFault::OtherPackets(number))
        }
    }

    /// Takes a line that was done, or was refused or at fault.
    fn take_line(
        &mut self,
        alloc: Global,
        number: u64,
        line: Option<&Value>,
        answer: &Value,
    ) -> Result<(), CollectFault>
        ensures figures { OnOk result (TakesLine number (option_map (λ l. view l.now) line.entry) (view answer.now) self.old self.new) }
        ensures fault { IfErr result (IsMismatch number (option_map (λ l. view l.now) line.entry) (view answer.now)) }
    {
        if let Some(refused) = refused_in(alloc, number, answer)? {
            self.figures.refused.push(refused)?;
            return Ok(());
        }
        match line {
            Some(line) => self.take_done(alloc, number, line, answer),
            None => Err(CollectFault::NoAnswer(number)),
        }
    }

    /// Takes the line of a number with its answer, a JSON object. `line` is none where the line isn't JSON. Takes
    /// memory for the figures. Where it fails, some of them may be there already.
    ///
    /// An `Err` is that the line can't have this answer, or out of memory.
    pub fn take(
        &mut self,
        alloc: Global,
        number: u64,
        line: Option<&Value>,
        answer: &Value,
    ) -> Result<(), CollectFault>
        ensures lines { OnOk result (self.new.figures.lines ≡ min (self.old.figures.lines + 1) (2 ^ 64 - 1)) }
        ensures last { OnOk result (self.new.figures.last ≡ number) }
        ensures generation { OnOk result (self.new.figures.generation
            ≡ generation_behind self.old.figures.generation number (view answer.now)) }
        ensures usage { OnOk result (map usage_figure_of self.new.figures.usage.items
            ≡ map usage_figure_of self.old.figures.usage.items ++ usage_in number (view answer.now)) }
        ensures grants { OnOk result (map grant_of self.new.figures.grants.items
            ≡ map grant_of self.old.figures.grants.items
            ++ grants_in number (option_map (λ l. view l.now) line.entry) (view answer.now)) }
        ensures keys { OnOk result (map key_of self.new.figures.keys.items
            ≡ keys_behind (map key_of self.old.figures.keys.items) number (view answer.now)) }
        ensures rates { OnOk result (self.new.figures.rates.items ≡ self.old.figures.rates.items
            ++ rates_in self.old.active number (option_map (λ l. view l.now) line.entry) (view answer.now)) }
        ensures active { OnOk result (self.new.active
            ≡ rules_behind self.old.active number (option_map (λ l. view l.now) line.entry) (view answer.now)) }
        ensures refused { OnOk result (map refusal_of self.new.figures.refused.items
            ≡ map refusal_of self.old.figures.refused.items ++ refusals_in number (view answer.now)) }
        ensures answered { OnOk result (has_value number (option_map (λ l. view l.now) line.entry) (view answer.now) ≡ true) }
        ensures fault { IfErr result (IsMismatch number (option_map (λ l. view l.now) line.entry) (view answer.now)) }
    {
        self.figures.lines = self.figures.lines.saturating_add(1);
        self.figures.last = number;
        push_usage(alloc, &mut self.figures.usage, number, answer)?;
        self.take_line(alloc, number, line, answer)
    }
}

/// Whether a value may be an answer: an object, and no line of a script.
fn is_answer(value: &Value) -> bool
    ensures { result ≡ is_answer (view value.now) }
{
    value.is_object() && value.get("do").is_none()
}

/// Takes a line and its answer by their octets.
fn take_octets(
    alloc: Global,
    collected: &mut Collected,
    line: Filled<'_>,
    answer: Filled<'_>,
) -> Result<(), CollectFault>
    ensures figures { OnOk result (AddsExchange (exchange_by line.entry answer.entry) collected.old collected.new) }
    ensures fault { IfErr result (λ fault. IsExchangeFault fault (exchange_by line.entry answer.entry)) }
{
    let answer = match value_of(alloc, answer.octets)? {
        Some(answer) if is_answer(&answer) => answer,
        _ => return Err(CollectFault::NoAnswer(line.number)),
    };
    let value = value_of(alloc, line.octets)?;
    collected.take(alloc, line.number, value.as_ref(), &answer)
}

/// What is told how far the figures are collected.
pub trait Watch {
    /// So many octets more of the lines and the answers are read.
    fn note(&mut self, count: usize);
}

/// Collects the figures of a script's lines and its answers: the nth line that isn't blank has the nth answer. There
/// may be fewer answers than lines. Takes memory for the figures. `watch` is told of each exchange before it is taken.
///
/// An `Err` is the first fault in the order of the lines, or out of memory.
pub fn collect<W: Watch>(
    alloc: Global,
    lines: &[u8],
    answers: &[u8],
    watch: &mut W,
) -> Result<Figures, CollectFault>
    ensures figures { IfOk result (AreFiguresOf (exchanges lines.now answers.now)) }
    ensures all { IsOk result → length (filled answers.now) ≤ length (filled lines.now) }
    ensures fault { IfErr result (λ fault. Fails fault lines.now answers.now) }
{
    let mut collected = Collected::new(alloc);
    let mut script = Lines::of(lines);
    let mut answers = Lines::of(answers);
    while let Some(line) = script.next() {
        let Some(answer) = answers.next() else {
            return Ok(collected.into_figures());
        };
        watch.note(line.octets.len().saturating_add(answer.octets.len()));
        take_octets(alloc, &mut collected, line, answer)?;
    }
    match answers.next() {
        Some(_) => Err(CollectFault::MoreAnswers),
        None => Ok(collected.into_figures()),
    }
}
