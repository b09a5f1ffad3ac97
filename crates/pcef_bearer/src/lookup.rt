//! Rules that are bound, by their names and by their pairs of QCI and ARP.

ghost use Rattle.std.specs.Prelude.{◌≡◌, find, length, not, position, true};
ghost use Rattle.std.specs.List.{list_any};
ghost use Rattle.std.specs.Option.{option_copied};
ghost use Rattle.pcef_model.specs.Commands.{takes_away};
ghost use Rattle.pcef_model.specs.Setting.{same_flag, same_qos};
ghost use Rattle.pcef_bearer.specs.Bindings.{is_bound_as};
ghost use Rattle.pcef_bearer.specs.BindingSteps.{kept_by, with_bound, without_bound, HasRoom};

use crate::bearers::{Bound, Places};
use pcef_model::Command;
use pcef_rule::{Qos, RuleName};

/// Whether a rule has this name.
pub(crate) fn is_named(name: &RuleName, bound: &Bound) -> bool
    ensures { result ≡ is_bound_as name.now bound.now }
{
    bound.name == *name
}

fn same_flag(a: bool, b: bool) -> bool
    ensures { result ≡ same_flag a b }
{
    if a { b } else { !b }
}

/// Whether two pairs have the same QCI, and the same ARP in all three parts.
pub(crate) fn same_qos(a: &Qos, b: &Qos) -> bool
    ensures { result ≡ same_qos a.now b.now }
{
    a.qci.0 == b.qci.0
        && a.arp.level() == b.arp.level()
        && same_flag(a.arp.capability(), b.arp.capability())
        && same_flag(a.arp.vulnerability(), b.arp.vulnerability())
}

/// The place of the rule of this name, if it is bound.
pub(crate) fn place_of(bound: &[Bound], name: &RuleName) -> Option<usize>
    ensures { result ≡ position (is_bound_as name.now) bound.now }
{
    bound.iter().position(|b| is_named(name, b))
}

/// Whether a rule of this name is bound.
pub(crate) fn has_name(bound: &[Bound], name: &RuleName) -> bool
    ensures { result ≡ list_any (is_bound_as name.now) bound.now }
{
    bound.iter().any(|b| is_named(name, b))
}

/// The rule of this name, if it is bound.
pub(crate) fn bound_under<'a>(bound: &'a [Bound], name: &RuleName) -> Option<&'a Bound>
    ensures { option_copied result ≡ find (is_bound_as name.now) bound.now }
{
    for b in bound {
        if is_named(name, b) {
            return Some(b);
        }
    }
    None
}

/// The first rule with this pair, if one is bound.
pub(crate) fn of_pair<'a>(bound: &'a [Bound], qos: &Qos) -> Option<&'a Bound>
    ensures { option_copied result ≡ find (λ b. same_qos qos.now b.qos) bound.now }
{
    for b in bound {
        if same_qos(qos, &b.qos) {
            return Some(b);
        }
    }
    None
}

/// Whether a rule other than the one of this name has this pair.
pub(crate) fn has_pair_excluding(name: &RuleName, bound: &[Bound], qos: &Qos) -> bool
    ensures { result ≡ list_any (λ b. same_qos qos.now b.qos) (without_bound name.now bound.now) }
{
    for b in bound {
        if !is_named(name, b) && same_qos(qos, &b.qos) {
            return true;
        }
    }
    false
}

/// Drops the rule of this name.
pub(crate) fn drop_named(bound: &mut Vec<Bound>, name: &RuleName)
    ensures { bound.new.items ≡ without_bound name.now bound.old.items }
{
    bound.retain(
        |b: &Bound| -> bool
            ensures { result ≡ not (is_bound_as name.entry.now b.now) }
        { !is_named(name, b) },
    );
}

/// Drops the rules that a command removes.
pub(crate) fn drop_taken(bound: &mut Vec<Bound>, command: &Command)
    ensures { bound.new.items ≡ kept_by command.now bound.old.items }
{
    bound.retain(
        |b: &Bound| -> bool
            ensures { result ≡ not (takes_away command.entry.now b.now.name b.now.bearer.0) }
        { !command.takes_away(&b.name, b.bearer) },
    );
}

/// Puts a rule in the place of the one of its name, or behind all others: then all move to `places` with it.
pub(crate) fn put(bound: &mut Vec<Bound>, places: Places, new: Bound)
    requires { HasRoom new.name places bound.old.items }
    ensures { bound.new.items ≡ with_bound new bound.old.items }
{
    match place_of(bound, &new.name) {
        Some(place) => bound[place] = new,
        None => places.take_in(bound, new),
    }
}
