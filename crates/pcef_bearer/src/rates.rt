//! Sums of guaranteed rates.

ghost use Rattle.std.specs.Prelude.{◌≡◌, ◌<◌, ◌≤◌, ◌+◌, ◌^◌, nat_lt, if◌then◌else◌};
ghost use Rattle.pcef_model.specs.Bearers.{rate_down, rate_up};
ghost use Rattle.pcef_bearer.specs.Bindings.{rules_on, bound_down, bound_up};
ghost use Rattle.pcef_bearer.specs.BindingSteps.{without_bound};

use crate::bearers::Bound;
use crate::lookup::is_named;
use pcef_rule::{BearerId, Rates, RuleName, Sums};

/// The rates of a rule, or 0 where it has none.
pub(crate) fn sums_of(rates: Option<Rates>) -> Sums
    ensures up { result.up ≡ rate_up rates }
    ensures down { result.down ≡ rate_down rates }
{
    match rates {
        None => Sums { up: 0, down: 0 },
        Some(rates) => Sums {
            up: u64::from(rates.up),
            down: u64::from(rates.down),
        },
    }
}

/// The rates of a rule that counts, or else 0.
fn sums_if(counts: bool, bound: &Bound) -> Sums
    ensures up { result.up ≡ (if counts then rate_up bound.now.rates else 0) }
    ensures down { result.down ≡ (if counts then rate_down bound.now.rates else 0) }
{
    if counts {
        sums_of(bound.rates)
    } else {
        Sums { up: 0, down: 0 }
    }
}

/// The sums over the rules other than the one of this name.
pub(crate) fn sums_excluding(name: &RuleName, bound: &[Bound]) -> Sums
    requires up { bound_up bound.now < 2 ^ 64 }
    requires down { bound_down bound.now < 2 ^ 64 }
    ensures up { result.up ≡ bound_up (without_bound name.now bound.now) }
    ensures down { result.down ≡ bound_down (without_bound name.now bound.now) }
{
    let mut up: u64 = 0;
    let mut down: u64 = 0;
    for b in bound {
        let more = sums_if(!is_named(name, b), b);
        up += more.up;
        down += more.down;
    }
    Sums { up, down }
}

/// The sums over the rules on the bearer of this id.
pub(crate) fn sums_on(id: BearerId, bound: &[Bound]) -> Sums
    requires up { bound_up bound.now < 2 ^ 64 }
    requires down { bound_down bound.now < 2 ^ 64 }
    ensures up { result.up ≡ bound_up (rules_on id.0 bound.now) }
    ensures down { result.down ≡ bound_down (rules_on id.0 bound.now) }
{
    let mut up: u64 = 0;
    let mut down: u64 = 0;
    for b in bound {
        let more = sums_if(b.bearer.0 == id.0, b);
        up += more.up;
        down += more.down;
    }
    Sums { up, down }
}

/// The sums over all rules.
pub(crate) fn sums_of_all(bound: &[Bound]) -> Sums
    requires up { bound_up bound.now < 2 ^ 64 }
    requires down { bound_down bound.now < 2 ^ 64 }
    ensures up { result.up ≡ bound_up bound.now }
    ensures down { result.down ≡ bound_down bound.now }
{
    let mut up: u64 = 0;
    let mut down: u64 = 0;
    for b in bound {
        let more = sums_of(b.rates);
        up += more.up;
        down += more.down;
    }
    Sums { up, down }
}

/// Whether a sum with some more is over a room.
pub(crate) fn is_over_room(room: u64, sum: u64, more: u64) -> bool
    ensures { result ≡ nat_lt room (sum + more) }
{
    if room < sum {
        return true;
    }
    room - sum < more
}

/// Whether a sum with some more is over the capacity.
pub(crate) fn is_over(capacity: u64, sum: u64, more: u64) -> bool
    requires { sum ≤ capacity }
    ensures { result ≡ nat_lt capacity (sum + more) }
{
    capacity - sum < more
}
