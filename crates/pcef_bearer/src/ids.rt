//! The ids of bearers.

ghost use Rattle.std.specs.Prelude.{◌≡◌, ◌==◌, ◌≤◌, find, length};
ghost use Rattle.std.specs.List.{list_any};
ghost use Rattle.std.specs.Option.{option_copied};
ghost use Rattle.pcef_model.specs.Bearers.{least_free};
ghost use Rattle.pcef_bearer.specs.Bindings.{is_present, rules_on};
ghost use Rattle.pcef_bearer.specs.BindingSteps.{finds_no_id, first_unused, id_excluding, id_number, without_bound};

use crate::bearers::Bound;
use crate::lookup::{has_pair_excluding, is_named, of_pair, same_qos};
use pcef_rule::{BearerId, Qos, RuleName};

/// The id of the default bearer.
pub const DEFAULT_BEARER: BearerId = BearerId(5);

/// Whether the bearer of this id carries a rule other than the one of this name.
fn is_used_excluding(name: &RuleName, bound: &[Bound], id: u8) -> bool
    ensures { result ≡ list_any (λ b. id == b.bearer.0) (without_bound name.now bound.now) }
{
    for b in bound {
        if !is_named(name, b) && id == b.bearer.0 {
            return true;
        }
    }
    false
}

/// The first of these ids whose bearer carries no rule other than the one of this name.
fn first_free(ids: &[u8], name: &RuleName, bound: &[Bound]) -> Option<BearerId>
    ensures { id_number result ≡ first_unused ids.now (without_bound name.now bound.now) }
{
    for id in ids {
        if !is_used_excluding(name, bound, *id) {
            return Some(BearerId(*id));
        }
    }
    None
}

/// The least id whose bearer carries no rule other than the one of this name.
pub(crate) fn least_free(name: &RuleName, bound: &[Bound]) -> Option<BearerId>
    ensures { id_number result ≡ least_free (λ b. b.bearer.0) (without_bound name.now bound.now) }
{
    first_free(&[6, 7, 8, 9, 10, 11, 12, 13, 14, 15], name, bound)
}

/// The id of the bearer that a rule of this name gets by this pair.
pub(crate) fn id_excluding(
    default: &Qos,
    name: &RuleName,
    bound: &[Bound],
    qos: &Qos,
) -> Option<BearerId>
    ensures { id_number result
        ≡ id_excluding default.now bound.now (without_bound name.now bound.now) qos.now }
{
    if same_qos(qos, default) {
        return Some(DEFAULT_BEARER);
    }
    match of_pair(bound, qos) {
        Some(b) => Some(b.bearer),
        None => least_free(name, bound),
    }
}

/// Whether, without the rule of this name, this pair has no bearer and no id is free for one.
pub(crate) fn finds_no_bearer(default: &Qos, name: &RuleName, bound: &[Bound], qos: &Qos) -> bool
    ensures { result ≡ finds_no_id default.now (without_bound name.now bound.now) qos.now }
{
    if same_qos(qos, default) || has_pair_excluding(name, bound, qos) {
        return false;
    }
    match least_free(name, bound) {
        None => true,
        Some(_) => false,
    }
}

/// Whether a rule is on the bearer of this id.
fn is_used(id: BearerId, bound: &[Bound]) -> bool
    ensures { result ≡ list_any (λ b. b.bearer.0 == id.0) bound.now }
{
    bound.iter().any(|b| b.bearer.0 == id.0)
}

/// Whether there is a bearer of this id.
pub(crate) fn is_present(id: BearerId, bound: &[Bound]) -> bool
    ensures { result ≡ is_present id.0 bound.now }
{
    id.0 == 5 || is_used(id, bound)
}

/// The first rule on the bearer of this id, if there is one.
pub(crate) fn first_on(id: BearerId, bound: &[Bound]) -> Option<&Bound>
    ensures { option_copied result ≡ find (λ b. b.bearer.0 == id.0) bound.now }
{
    for b in bound {
        if b.bearer.0 == id.0 {
            return Some(b);
        }
    }
    None
}

/// How many rules are on the bearer of this id.
pub(crate) fn count_on(id: BearerId, bound: &[Bound]) -> usize
    ensures { result ≡ length (rules_on id.0 bound.now) }
{
    bound.iter().filter(|b| b.bearer.0 == id.0).count()
}
