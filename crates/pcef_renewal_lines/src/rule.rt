//! Rules in lines.

ghost use Rattle.std.specs.Prelude.{◌≡◌, IfOk, string_bytes};
ghost use Rattle.json.specs.Print.{quoted};
ghost use Rattle.pcef_renewal_lines.specs.Rules.{arp_text, gate_part, gate_word, key_part, name_part, qos_part, rates_part, rule_text};

use crate::filter::filters_text;
use pcef_filter::Filter;
use pcef_rule::{Arp, Gate, KeyName, Properties, Rates, Rule};
use serde_json::Value;
use std::alloc::{AllocError, Global};

/// A name as a JSON text.
pub(crate) fn quoted(alloc: Global, name: &str) -> Result<String, AllocError>
    ensures { IfOk result (λ text. string_bytes text ≡ quoted name.now) }
{
    let name = String::from_str(alloc, name)?;
    Value::String(name).to_string(alloc)
}

fn arp_text(alloc: Global, arp: Arp) -> Result<String, AllocError>
    ensures { IfOk result (λ text. string_bytes text ≡ arp_text arp) }
{
    let level = arp.level();
    let capability = arp.capability();
    let vulnerability = arp.vulnerability();
    format!(in alloc;
        "{{\"level\":{level},\"capability\":{capability},\"vulnerability\":{vulnerability}}}"
    )
}

/// The guaranteed rates of a rule, if it has any.
fn rates_part(alloc: Global, rates: Option<Rates>) -> Result<String, AllocError>
    ensures { IfOk result (λ text. string_bytes text ≡ rates_part rates) }
{
    match rates {
        None => Ok(String::new(alloc)),
        Some(Rates { up, down }) => format!(in alloc; ",\"gbr\":{{\"up\":{up},\"down\":{down}}}"),
    }
}

fn gate_word(gate: Gate) -> &'static str
    ensures { result.now ≡ gate_word gate }
{
    match gate {
        Gate::EnabledUplink => "ENABLED-UPLINK",
        Gate::EnabledDownlink => "ENABLED-DOWNLINK",
        Gate::Enabled => "ENABLED",
        Gate::Disabled => "DISABLED",
    }
}

/// The monitoring key of a rule, if it has one.
fn key_part(alloc: Global, key: &Option<KeyName>) -> Result<String, AllocError>
    ensures { IfOk result (λ text. string_bytes text ≡ key_part key.now) }
{
    match key {
        None => Ok(String::new(alloc)),
        Some(key) => {
            let key = quoted(alloc, key.as_str())?;
            format!(in alloc; ",\"key\":{key}")
        }
    }
}

/// The fields of a rule up to its filters.
fn name_part(
    alloc: Global,
    properties: &Properties,
    filters: &[Filter],
) -> Result<String, AllocError>
    ensures { IfOk result (λ text. string_bytes text ≡ name_part properties.now filters.now) }
{
    let name = quoted(alloc, properties.name.as_str())?;
    let precedence = properties.precedence;
    let filters = filters_text(alloc, filters)?;
    format!(in alloc; "{{\"name\":{name},\"precedence\":{precedence},\"filters\":[{filters}]")
}

/// The QoS of a rule, with its rates.
fn qos_part(alloc: Global, properties: &Properties) -> Result<String, AllocError>
    ensures { IfOk result (λ text. string_bytes text ≡ qos_part properties.now) }
{
    let qci = properties.qos.qci.0;
    let arp = arp_text(alloc, properties.qos.arp)?;
    let rates = rates_part(alloc, properties.rates)?;
    format!(in alloc; ",\"qci\":{qci},\"arp\":{arp}{rates}")
}

/// The fields of a rule from its gate on.
fn gate_part(alloc: Global, properties: &Properties) -> Result<String, AllocError>
    ensures { IfOk result (λ text. string_bytes text ≡ gate_part properties.now) }
{
    let gate = gate_word(properties.gate);
    let key = key_part(alloc, &properties.key)?;
    format!(in alloc; ",\"gate\":\"{gate}\"{key}}}")
}

/// A rule as a JSON object.
pub(crate) fn rule_text(alloc: Global, rule: &Rule) -> Result<String, AllocError>
    ensures { IfOk result (λ text. string_bytes text ≡ rule_text rule.now) }
{
    let properties = rule.properties();
    let name = name_part(alloc, properties, rule.filters())?;
    let qos = qos_part(alloc, properties)?;
    let gate = gate_part(alloc, properties)?;
    format!(in alloc; "{name}{qos}{gate}")
}
