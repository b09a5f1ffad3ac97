//! What an accepted command does to what a session keeps. Nothing here takes memory.

ghost use Rattle.std.specs.Prelude.{◌≡◌, ◌||◌, ◌<◌, ◌≤◌, ◌+◌, ◌∷◌, length, false, unwrap_or, Some, IfOk};
ghost use Rattle.std.specs.Arc.{arc_value};
ghost use Rattle.std.specs.Option.{option_copied, option_map};
ghost use Rattle.pcef_active.specs.ByName.{put_kept};
ghost use Rattle.pcef_model.specs.Refusals.{is_close, is_terminate};
ghost use Rattle.pcef_session.specs.Preparing.{HasPlacesFor, IsBearerFor, IsBearerOf};
ghost use Rattle.pcef_bearer.specs.BindingSteps as binding;
ghost use Rattle.pcef_usage.specs.Commands.{subscribed_by};
ghost use Rattle.pcef_usage.specs.Keys.{HasPlaceFor, finds_no_place, keys_of};
ghost use Rattle.pcef_usage.specs.PendingReports.{KnowsAll};
ghost use Rattle.pcef_session.specs.private.Changes.{Binds, CanBind, IsBoundTo, IsRebound, active_after, counters_after_reports, entered_by, journal_after_reports, key_of, still_active, rule_key};

use crate::prepared::Activation;
use pcef_active::ActiveRules;
use pcef_bearer::{Bearers, Places};
use pcef_index::{IndexShelf, Indexed};
use pcef_model::{Command, Entry, Level, PendingReport, TriggerSet};
use pcef_rule::{BearerId, KeyName};
use pcef_usage::{CountedJournal, KeyPlaces, Usage};
use std::alloc::{AllocError, Global};
use std::sync::Arc;

/// The key of the rule that becomes active.
pub(crate) fn rule_key(rule: Option<&Activation>) -> Option<KeyName>
    ensures { result ≡ rule_key (option_copied rule.entry) }
{
    match &rule?.properties.key {
        Some(key) => Some(key.copy()),
        None => None,
    }
}

/// Memory for the key that a command names to get a slot.
pub(crate) fn key_places(
    alloc: Global,
    usage: &Usage,
    command: &Command,
    of_rule: Option<&KeyName>,
) -> Result<KeyPlaces, AllocError>
    ensures { IfOk result (λ places.
        HasPlaceFor (key_of (option_copied of_rule.entry) command.now) places (keys_of usage.now)) }
{
    match command {
        Command::Monitor { key, .. } => usage.places_for(key),
        _ => match of_rule {
            Some(key) => usage.places_for(key),
            None => Ok(KeyPlaces::none(alloc)),
        },
    }
}

/// Gives the key that a command names a slot, in these places, and switches on that of a Monitor.
fn enter_key(
    counted: &mut CountedJournal,
    command: &Command,
    of_rule: Option<&KeyName>,
    places: KeyPlaces,
)
    requires slot { finds_no_place (key_of (option_copied of_rule) command.now)
        counted.old.states ≡ false }
    requires places { HasPlaceFor (key_of (option_copied of_rule) command.now) places
        (keys_of counted.old.states) }
    ensures journal { counted.new.journal ≡ counted.old.journal }
    ensures forgotten { counted.new.forgotten ≡ counted.old.forgotten }
    ensures states { counted.new.states
        ≡ entered_by (option_copied of_rule.entry) command.now counted.old.states }
    ensures room { counted.new.room ≡ counted.old.room }
{
    match command {
        Command::Monitor { key, grant, level } => {
            counted.keep_slot(Some(key), *level, places);
            counted.start(key, *grant);
        }
        _ => counted.keep_slot(of_rule, Level::Rule, places),
    }
}

/// Adds a command to the journal, with the key that it names, which gets its slot in these places.
pub(crate) fn enter(
    counted: &mut CountedJournal,
    command: Command,
    of_rule: Option<KeyName>,
    places: KeyPlaces,
)
    requires slot { finds_no_place (key_of of_rule command) counted.old.states ≡ false }
    requires places { HasPlaceFor (key_of of_rule command) places (keys_of counted.old.states) }
    requires room { 0 < counted.old.room }
    ensures journal { counted.new.journal ≡ Entry.Command command ∷ counted.old.journal }
    ensures forgotten { counted.new.forgotten ≡ counted.old.forgotten }
    ensures states { counted.new.states ≡ entered_by of_rule command counted.old.states }
    ensures room { counted.old.room ≤ counted.new.room + 1 }
{
    enter_key(counted, &command, of_rule.as_ref(), places);
    counted.enter(Entry::Command(command));
}

/// Adds the command's own reports, and then those of the thresholds.
pub(crate) fn report_all(
    counted: &mut CountedJournal,
    all_pending: &[PendingReport],
    subscribed: bool,
)
    requires known { KnowsAll (keys_of counted.old.states) all_pending.now }
    requires room { length all_pending.now + length counted.old.states ≤ counted.old.room }
    ensures journal { counted.new.journal ≡ journal_after_reports subscribed all_pending.now counted.old }
    ensures forgotten { counted.new.forgotten ≡ counted.old.forgotten }
    ensures states { counted.new.states
        ≡ counters_after_reports subscribed all_pending.now counted.old.states }
    ensures room { counted.old.room
        ≤ counted.new.room + length all_pending.now + length counted.old.states }
{
    counted.switch_off_reported(all_pending);
    counted.append_reports(all_pending);
    counted.report_thresholds(subscribed);
}

/// What is subscribed after a command.
pub(crate) fn subscribed_by(command: &Command, old: TriggerSet) -> TriggerSet
    ensures { result ≡ subscribed_by command.now old }
{
    match command {
        Command::Triggers(set) => *set,
        _ => old,
    }
}

/// Whether the session is closed after a command.
pub(crate) fn closed_by(command: &Command, old: bool) -> bool
    ensures { result ≡ (is_close (Entry.Command command.now) || old) }
{
    matches!(command, Command::Close) || old
}

/// Whether the session is terminated after a command.
pub(crate) fn terminated_by(command: &Command, old: bool) -> bool
    ensures { result ≡ (is_terminate (Entry.Command command.now) || old) }
{
    matches!(command, Command::Terminate) || old
}

/// Holds the table that a command makes, or goes on holding the old one.
pub(crate) fn keep_table(held: &mut Arc<Indexed>, made: Option<Arc<Indexed>>)
    ensures { arc_value held.new
        ≡ unwrap_or (option_map (λ t. arc_value t) made) (arc_value held.old) }
{
    if let Some(table) = made {
        *held = table;
    }
}

/// Lets a table that has no other owner share an index of a shelf.
pub(crate) fn share_index_of(held: &mut Arc<Indexed>, shelf: &mut IndexShelf)
    ensures { arc_value held.new ≡ arc_value held.old }
{
    if let Some(table) = Arc::get_mut(held) {
        shelf.share(table);
    }
}

/// Lets the rules go that a command takes away, once they aren't bound any more.
fn drop_active(active: &mut ActiveRules, bearers: &Bearers, command: &Command)
    ensures { active.new.rules ≡ still_active command.now bearers.now active.old.rules }
{
    match command {
        Command::Remove(name) => active.remove(name),
        Command::LoseBearer(_) => active.retain_bound(bearers),
        Command::Close | Command::Terminate => active.clear(),
        _ => {}
    }
}

/// Takes the rules away that a command takes away, and their bindings.
fn take_away(active: &mut ActiveRules, bearers: &mut Bearers, command: &Command)
    ensures active { active.new.rules ≡ still_active command.now bearers.new active.old.rules }
    ensures bearers { bearers.new
        ≡ binding.with_rules bearers.old (binding.kept_by command.now bearers.old.bound) }
{
    bearers.take_away(command);
    drop_active(active, bearers, command);
}

/// Binds a rule to the bearer that was found for it, and puts it among the active ones.
fn activate(
    active: &mut ActiveRules,
    bearers: &mut Bearers,
    rule: Activation,
    bearer: BearerId,
    places: Places,
)
    requires place { 0 < active.old.room }
    requires can { Binds rule.properties bearers.old }
    requires gets { IsBearerOf bearers.old rule bearer }
    requires places { binding.HasRoom rule.properties.name places bearers.old.bound }
    ensures active { active.new.rules
        ≡ put_kept (rule.properties.name, rule.source) active.old.rules }
    ensures bearers { IsBoundTo rule.properties bearers.old bearers.new bearer }
{
    let name = rule.properties.name.copy();
    bearers.bind_to(
        name.copy(),
        rule.properties.qos,
        rule.properties.rates,
        bearer,
        places,
    );
    active.put(name, rule.source);
}

/// Changes the active rules and their bearers as a command says. The rule that becomes active gets
/// this bearer, and is bound in these places.
pub(crate) fn change_rules(
    active: &mut ActiveRules,
    bearers: &mut Bearers,
    command: &Command,
    rule: Option<Activation>,
    bearer: Option<BearerId>,
    places: Places,
)
    requires place { 0 < active.old.room }
    requires can { CanBind rule bearers.old }
    requires gets { IsBearerFor bearers.old rule bearer }
    requires places { HasPlacesFor bearers.old rule places }
    ensures active { active.new.rules
        ≡ active_after rule command.now bearers.new active.old.rules }
    ensures bearers { IsRebound rule command.now bearers.old bearers.new bearer }
{
    match rule {
        Some(rule) => match bearer {
            Some(bearer) => activate(active, bearers, rule, bearer, places),
            None => unreachable!(),
        },
        None => take_away(active, bearers, command),
    }
}
