//! The rule of a line.

ghost use Rattle.std.specs.Prelude.{◌≡◌};
ghost use Rattle.serde_json.specs.View.{view, items_view};
ghost use Rattle.pcef_filter.specs.Reading.{reading_of};
ghost use Rattle.pcef_line.specs.LineValues.{Gives};
ghost use Rattle.pcef_line.specs.LineRules.{arp_at, both_rates_at, rates_at, gate_of, gate_at, key_at, flow_of, flow_word_at, flow_at, filter_at, filters_of, filters_at, rule_of, rule_at};

use crate::fault::LineFault;
use crate::field::Field;
use crate::values::{flag_field, list_field, name_field, number_field, object_field, text_field};
use pcef_filter::{Filter, Flow, read_filter};
use pcef_rule::{Arp, Gate, KeyName, Properties, Qci, Qos, Rates, Rule, RuleFault};
use serde_json::Value;
use std::alloc::Global;

/// The highest precedence, and the highest rate in bit/s.
const MOST: u64 = 4_294_967_295;

#[tactic(auto, unfolding(crate::specs::LineRules::arp_at))]
fn arp_field(rule: &Value) -> Result<Arp, LineFault>
    ensures { Gives (λ a. a) result (arp_at (view rule.now)) }
{
    let arp = object_field(rule, Field::Arp)?;
    let level = number_field(arp, Field::Level, Field::Arp, 1, 15)? as u8;
    let capability = flag_field(arp, Field::Capability, Field::Arp)?;
    let vulnerability = flag_field(arp, Field::Vulnerability, Field::Arp)?;
    match Arp::new(level, capability, vulnerability) {
        Ok(arp) => Ok(arp),
        Err(_) => Err(LineFault::BadField(Field::Arp)),
    }
}

#[tactic(auto, unfolding(crate::specs::LineRules::both_rates_at))]
fn both_rates(rule: &Value) -> Result<Rates, LineFault>
    ensures { Gives (λ r. r) result (both_rates_at (view rule.now)) }
{
    let gbr = object_field(rule, Field::Gbr)?;
    let up = number_field(gbr, Field::Up, Field::Gbr, 0, MOST)? as u32;
    let down = number_field(gbr, Field::Down, Field::Gbr, 0, MOST)? as u32;
    Ok(Rates { up, down })
}

#[tactic(auto, unfolding(crate::specs::LineRules::rates_at))]
fn rates_field(rule: &Value) -> Result<Option<Rates>, LineFault>
    ensures { Gives (λ r. r) result (rates_at (view rule.now)) }
{
    if rule.get(Field::Gbr.text()).is_none() {
        return Ok(None);
    }
    Ok(Some(both_rates(rule)?))
}

fn gate_of(text: &str) -> Option<Gate>
    ensures { result ≡ gate_of text.now }
{
    match text {
        "ENABLED-UPLINK" => Some(Gate::EnabledUplink),
        "ENABLED-DOWNLINK" => Some(Gate::EnabledDownlink),
        "ENABLED" => Some(Gate::Enabled),
        "DISABLED" => Some(Gate::Disabled),
        _ => None,
    }
}

#[tactic(auto, unfolding(crate::specs::LineRules::gate_at))]
fn gate_field(rule: &Value) -> Result<Gate, LineFault>
    ensures { Gives (λ g. g) result (gate_at (view rule.now)) }
{
    match gate_of(text_field(rule, Field::Gate, Field::Gate)?) {
        Some(gate) => Ok(gate),
        None => Err(LineFault::BadField(Field::Gate)),
    }
}

#[tactic(auto, unfolding(crate::specs::LineRules::key_at))]
fn key_field(rule: &Value) -> Result<Option<KeyName>, LineFault>
    ensures { Gives (λ k. k) result (key_at (view rule.now)) }
{
    if rule.get(Field::Key.text()).is_none() {
        return Ok(None);
    }
    Ok(Some(name_field(rule, Field::Key)?))
}

fn flow_of(text: &str) -> Option<Flow>
    ensures { result ≡ flow_of text.now }
{
    match text {
        "downlink" => Some(Flow::Downlink),
        "uplink" => Some(Flow::Uplink),
        "bidirectional" => Some(Flow::Bidirectional),
        _ => None,
    }
}

#[tactic(auto, unfolding(crate::specs::LineRules::flow_word_at))]
fn flow_word(filter: &Value) -> Result<Flow, LineFault>
    ensures { Gives (λ f. f) result (flow_word_at (view filter.now)) }
{
    match flow_of(text_field(filter, Field::Flow, Field::Filters)?) {
        Some(flow) => Ok(flow),
        None => Err(LineFault::BadField(Field::Filters)),
    }
}

#[tactic(auto, unfolding(crate::specs::LineRules::flow_at))]
fn flow_field(filter: &Value) -> Result<Option<Flow>, LineFault>
    ensures { Gives (λ f. f) result (flow_at (view filter.now)) }
{
    if filter.get(Field::Flow.text()).is_none() {
        return Ok(None);
    }
    Ok(Some(flow_word(filter)?))
}

#[tactic(auto, unfolding(crate::specs::LineRules::filter_at))]
fn filter(value: &Value) -> Result<Filter, LineFault>
    ensures { Gives (λ f. f) result (filter_at reading_of (view value.now)) }
{
    if !value.is_object() {
        return Err(LineFault::BadField(Field::Filters));
    }
    let text = text_field(value, Field::Text, Field::Filters)?;
    let flow = flow_field(value)?;
    match read_filter(text, flow) {
        Ok(filter) => Ok(filter),
        Err(fault) => Err(LineFault::BadFilter(Field::Filters, fault)),
    }
}

fn filters(alloc: Global, values: &[Value]) -> Result<Vec<Filter>, LineFault>
    ensures { Gives (λ fs. fs.items) result (filters_of reading_of (items_view values.now)) }
{
    let mut filters = Vec::new(alloc);
    for value in values {
        filters.push(filter(value)?)?;
    }
    Ok(filters)
}

#[tactic(auto, unfolding(crate::specs::LineRules::filters_at))]
fn filters_field(alloc: Global, rule: &Value) -> Result<Vec<Filter>, LineFault>
    ensures { Gives (λ fs. fs.items) result (filters_at reading_of (view rule.now)) }
{
    filters(alloc, list_field(rule, Field::Filters)?)
}

fn new_rule(alloc: Global, properties: Properties, filters: &[Filter]) -> Result<Rule, LineFault>
    ensures { Gives (λ r. r) result (rule_of properties filters.now) }
{
    match Rule::new(alloc, properties, filters) {
        Ok(rule) => Ok(rule),
        Err(RuleFault::NoMemory) => Err(LineFault::NoMemory),
        Err(fault) => Err(LineFault::BadRule(Field::Rule, fault)),
    }
}

/// The rule that an object is.
#[tactic(auto, unfolding(crate::specs::LineRules::rule_at))]
pub(crate) fn rule(alloc: Global, object: &Value) -> Result<Rule, LineFault>
    ensures { Gives (λ r. r) result (rule_at reading_of (view object.now)) }
{
    let name = name_field(object, Field::Name)?;
    let precedence = number_field(object, Field::Precedence, Field::Precedence, 0, MOST)? as u32;
    let filters = filters_field(alloc, object)?;
    let qci = number_field(object, Field::Qci, Field::Qci, 0, 255)? as u8;
    let arp = arp_field(object)?;
    let rates = rates_field(object)?;
    let gate = gate_field(object)?;
    let key = key_field(object)?;
    let properties = Properties {
        name,
        precedence,
        qos: Qos { qci: Qci(qci), arp },
        rates,
        gate,
        key,
    };
    new_rule(alloc, properties, &filters)
}
