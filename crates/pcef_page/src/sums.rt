//! Sums of octets by name.

ghost use Rattle.std.specs.Prelude.{◌≡◌, ℕ, List, ◌+◌, IfOk, OnOk, if◌then◌else◌};
ghost use Rattle.std.specs.Str.{bytes_eq};
ghost use Rattle.pcef_page.specs.Sums.{IsSum, counted_for_rule, sum_in, usage_octets, weight};

use crate::figures::{Judged, Usage, Verdict};
use std::alloc::{AllocError, Global};
use std::collections::BTreeMap;

/// Sums of octets by name. `None` stands for a sum of 2^64 or more. A name that isn't there has 0.
pub type Sums<'a> = BTreeMap<&'a str, Option<u64>>;

/// The sum of a name.
pub fn sum_of<'a>(sums: &Sums<'a>, name: &'a str) -> Option<u64>
    ensures { result ≡ sum_in sums.now name.now }
{
    match sums.get(&name) {
        Some(sum) => *sum,
        None => Some(0),
    }
}

/// A sum with `octets` more.
fn more(sum: Option<u64>, octets: u64) -> Option<u64>
    ensures { (n : ℕ) → IsSum n sum → IsSum (n + octets) result }
{
    match sum {
        Some(sum) => sum.checked_add(octets),
        None => None,
    }
}

/// Adds octets to the sum of a name.
fn add<'a>(sums: &mut Sums<'a>, name: &'a str, octets: u64) -> Result<(), AllocError>
    ensures { OnOk result ((key : List ℕ) (n : ℕ) → IsSum n (sum_in sums.old key)
        → IsSum (n + (if bytes_eq name.now key then octets else 0)) (sum_in sums.new key)) }
{
    let sum = more(sum_of(sums, name), octets);
    sums.insert(name, sum)?;
    Ok(())
}

/// The octets that the reports of usage have for each key. Takes memory for the keys.
pub fn octets_by_key<'a>(alloc: Global, usage: &'a [Usage]) -> Result<Sums<'a>, AllocError>
    ensures { IfOk result (λ sums. (key : List ℕ) → IsSum (usage_octets key usage.now) (sum_in sums key)) }
{
    let mut sums = BTreeMap::new(alloc);
    for report in usage {
        add(&mut sums, report.key.as_str(), report.octets)?;
    }
    Ok(sums)
}

/// What is counted of the packets of a rule. A packet that passed has a bearer.
#[derive(Clone, Copy, Debug, PartialEq, Eq)]
pub enum Count {
    /// Those that passed on the uplink.
    PacketsUp,
    /// Those that passed on the downlink.
    PacketsDown,
    /// The octets of those that passed on the uplink.
    OctetsUp,
    /// The octets of those that passed on the downlink.
    OctetsDown,
    /// The octets of those that passed, both ways.
    Octets,
    /// Those that didn't pass, for the gate of the rule is closed.
    Gated,
}

/// How much a packet adds to a count.
fn weight(count: Count, judged: &Judged) -> u64
    ensures { result ≡ weight count judged.now }
{
    let octets = judged.packet.octets;
    match (count, judged.bearer.is_some(), judged.packet.is_up) {
        (Count::PacketsUp, true, true) | (Count::PacketsDown, true, false) => 1,
        (Count::OctetsUp, true, true) | (Count::OctetsDown, true, false) => octets,
        (Count::Octets, true, _) => octets,
        (Count::Gated, _, _) if judged.verdict == Verdict::Gated => 1,
        _ => 0,
    }
}

/// The counts of each rule. Takes memory for the rules.
pub fn sums_by_rule<'a>(
    alloc: Global,
    judged: &'a [Judged],
    count: Count,
) -> Result<Sums<'a>, AllocError>
    ensures { IfOk result (λ sums. (rule : List ℕ)
        → IsSum (counted_for_rule count rule judged.now) (sum_in sums rule)) }
{
    let mut sums = BTreeMap::new(alloc);
    for packet in judged {
        add(&mut sums, packet.rule.as_str(), weight(count, packet))?;
    }
    Ok(sums)
}
