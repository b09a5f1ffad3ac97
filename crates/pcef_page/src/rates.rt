//! The guaranteed rates of bearers, by the rules that a script made active.

ghost use Rattle.std.specs.Prelude.{◌≡◌, ℕ, List, [], ◌<◌, ◌++◌, ◌==◌, OnOk, IfOk, codes, not, option_map, slice_index, slice_index_or, string_bytes};
ghost use Rattle.std.specs.Str.{bytes_eq};
ghost use Rattle.serde_json.specs.View.{view};
ghost use Rattle.pcef_page.specs.Guarantees.{RuleFigure, with_activated, bearers, rate_change, rate_changes, down_of, with_rule, installed, without_rules_on, guaranteed_in, rates_commanded, rule_in, rules_by, rules_commanded, up_of, without_rule};
ghost use Rattle.pcef_page.specs.Usages.{member_number};
ghost use Rattle.pcef_page.specs.private.Rules.{rule_of};

use crate::figures::Rates;
use crate::values::{asks, copy_of, count_at, number_at, text_at};
use serde_json::Value;
use std::alloc::{AllocError, Global};
use std::marker::Model;

/// The ids of bearers (TS 24.007, clause 11.2.3.1.5).
const BEARERS: [u64; 11] = [5, 6, 7, 8, 9, 10, 11, 12, 13, 14, 15];

/// A rule that is active.
#[derive(Drop)]
struct Active {
    name: String,
    bearer: u64,
    up: u64,
    down: u64,
}

/// The rules that a script made active, in the order in which they became active.
#[derive(Drop)]
pub struct ActiveRules {
    rules: Vec<Active>,
}

impl Model for ActiveRules {
    ghost use Rattle.std.specs.Prelude.{List, map};
    ghost use Rattle.pcef_page.specs.Guarantees.{RuleFigure};
    ghost use Rattle.pcef_page.specs.private.Rules.{rule_of};

    ghost Value = { List RuleFigure };

    ghost view = { λ s. map rule_of s.rules.items };
}

/// The guaranteed rate of a rule in a direction, in bit/s, or 0.
fn rate(rule: &Value, direction: &str) -> u64
    ensures { result ≡ guaranteed_in direction.now (view rule.now) }
{
    match rule.get("gbr") {
        Some(gbr) => count_at(gbr, direction),
        None => 0,
    }
}

/// A rule that was installed.
fn rule_in(alloc: Global, rule: &Value, bearer: u64) -> Result<Active, AllocError>
    ensures { IfOk result (λ active. rule_of active ≡ rule_in (view rule.now) bearer) }
{
    let name = copy_of(alloc, text_at(rule, "name"))?;
    Ok(Active {
        name,
        bearer,
        up: rate(rule, "up"),
        down: rate(rule, "down"),
    })
}

impl ActiveRules {
    /// No rule. Takes no memory.
    pub(crate) fn new(alloc: Global) -> ActiveRules
        ensures { result ≡ [] }
    {
        ActiveRules {
            rules: Vec::new(alloc),
        }
    }

    fn forget(&mut self, name: &str)
        ensures { self.new ≡ without_rule name.now self.old }
    {
        self.rules.retain(
            |rule: &Active| -> bool
                ensures { result ≡ not (bytes_eq (string_bytes rule.now.name) name.entry.now) }
            { rule.name.as_str() != name },
        );
    }

    fn enter(&mut self, rule: Active) -> Result<(), AllocError>
        ensures { OnOk result (self.new ≡ with_rule self.old (rule_of rule)) }
    {
        self.forget(rule.name.as_str());
        self.rules.push(rule)?;
        Ok(())
    }

    fn install(
        &mut self,
        alloc: Global,
        rule: Option<&Value>,
        bearer: Option<u64>,
    ) -> Result<(), AllocError>
        ensures { OnOk result (self.new
            ≡ installed self.old (option_map (λ r. view r.now) rule.entry) bearer) }
    {
        match (rule, bearer) {
            (Some(rule), Some(bearer)) => {
                let rule = rule_in(alloc, rule, bearer)?;
                self.enter(rule)
            }
            _ => Ok(()),
        }
    }

    fn activate(&mut self, name: String, bearer: Option<u64>) -> Result<(), AllocError>
        ensures { OnOk result (self.new ≡ with_activated self.old (string_bytes name) bearer) }
    {
        match bearer {
            Some(bearer) => self.enter(Active {
                name,
                bearer,
                up: 0,
                down: 0,
            }),
            None => Ok(()),
        }
    }

    fn lose(&mut self, bearer: Option<u64>)
        ensures { self.new ≡ without_rules_on self.old bearer }
    {
        if let Some(bearer) = bearer {
            self.rules.retain(
                |rule: &Active| -> bool
                    ensures { result ≡ not (rule.now.bearer == bearer) }
                { rule.bearer != bearer },
            );
        }
    }

    /// Applies a command that was done to the active rules.
    fn command(&mut self, alloc: Global, line: &Value, answer: &Value) -> Result<(), AllocError>
        ensures { OnOk result (self.new ≡ rules_by self.old (view line.now) (view answer.now)) }
    {
        let bearer = number_at(answer, "bearer");
        let name = copy_of(alloc, text_at(line, "name"))?;
        if asks(line, "install") {
            return self.install(alloc, line.get("rule"), bearer);
        }
        if asks(line, "activate") {
            return self.activate(name, bearer);
        }
        if asks(line, "remove") {
            self.forget(name.as_str());
        } else if asks(line, "lose") {
            self.lose(number_at(line, "bearer"));
        } else if asks(line, "close") || asks(line, "terminate") {
            self.rules.clear();
        }
        Ok(())
    }

    /// The sums of the rates of a bearer's rules, up and down, at most 2^64 - 1.
    fn sums(&self, bearer: u64) -> (u64, u64)
        ensures up { result.0 ≡ up_of self.now bearer }
        ensures down { result.1 ≡ down_of self.now bearer }
    {
        let mut up = 0u64;
        let mut down = 0u64;
        for rule in &self.rules {
            if rule.bearer == bearer {
                up = up.saturating_add(rule.up);
                down = down.saturating_add(rule.down);
            }
        }
        (up, down)
    }

    /// The sums of the rates of each bearer's rules.
    fn all_sums(&self) -> [(u64, u64); 11]
        ensures { (k : ℕ) → k < 11 → slice_index_or result k (0, 0)
            ≡ (up_of self.now (slice_index bearers k), down_of self.now (slice_index bearers k)) }
    {
        let mut all = [(0u64, 0u64); 11];
        for place in 0..11usize {
            all[place] = self.sums(BEARERS[place]);
        }
        all
    }

    /// Appends the rates of a bearer, if its sums changed.
    fn push_change(
        &self,
        rates: &mut Vec<Rates>,
        generation: u64,
        bearer: u64,
        before: (u64, u64),
    ) -> Result<(), AllocError>
        ensures { OnOk result ((rules : List RuleFigure) → before ≡ (up_of rules bearer, down_of rules bearer)
            → rates.new.items ≡ rates.old.items ++ rate_change generation rules self.now bearer) }
    {
        let (up, down) = self.sums(bearer);
        if before.0 != up || before.1 != down {
            rates.push(Rates {
                generation,
                bearer,
                up,
                down,
            })?;
        }
        Ok(())
    }

    /// Appends the rates of each bearer whose sums changed.
    fn push_changes(
        &self,
        rates: &mut Vec<Rates>,
        generation: u64,
        before: &[(u64, u64); 11],
    ) -> Result<(), AllocError>
        ensures { OnOk result ((rules : List RuleFigure)
            → ((k : ℕ) → k < 11 → slice_index_or before.now k (0, 0) ≡ (up_of rules (slice_index bearers k), down_of rules (slice_index bearers k)))
            → rates.new.items ≡ rates.old.items ++ rate_changes generation rules self.now) }
    {
        for place in 0..11usize {
            self.push_change(rates, generation, BEARERS[place], before[place])?;
        }
        Ok(())
    }

    /// Applies a line that was done to the active rules, and appends the rates that it changes.
    pub(crate) fn take(
        &mut self,
        alloc: Global,
        rates: &mut Vec<Rates>,
        line: &Value,
        answer: &Value,
    ) -> Result<(), AllocError>
        ensures rules { OnOk result (self.new
            ≡ rules_commanded self.old (member_number (codes "generation") (view answer.now)) (view line.now) (view answer.now)) }
        ensures rates { OnOk result (rates.new.items ≡ rates.old.items
            ++ rates_commanded self.old (member_number (codes "generation") (view answer.now)) (view line.now) (view answer.now)) }
    {
        let Some(generation) = number_at(answer, "generation") else {
            return Ok(());
        };
        let before = self.all_sums();
        self.command(alloc, line, answer)?;
        self.push_changes(rates, generation, &before)
    }
}
