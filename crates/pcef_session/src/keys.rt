//! The slots of keys, and which of them are on.

ghost use Rattle.std.specs.Prelude.{◌≡◌};
ghost use Rattle.std.specs.List.{list_any};
ghost use Rattle.std.specs.Option.{option_copied, option_map};
ghost use Rattle.pcef_usage.specs.Keys.{slot_place, state_at};
ghost use Rattle.pcef_session.specs.private.Keys.{is_on, is_on_there, key_switched, level_switched, switches_on};

use pcef_model::{Command, Level};
use pcef_rule::{KeyName, Slot};
use pcef_usage::{KeyState, Usage};

/// The slot of a key, or the one that it gets next.
pub(crate) fn place_of(usage: &Usage, key: &KeyName) -> Slot
    ensures { result.0 ≡ slot_place key.now usage.now }
{
    match usage.find(key) {
        Some(slot) => slot,
        None => Slot(usage.states().len() as u8),
    }
}

/// The slot of a key, if there is one.
pub(crate) fn slot_of(usage: &Usage, key: Option<&KeyName>) -> Option<Slot>
    ensures { option_map (λ s. s.0) result
        ≡ option_map (λ k. slot_place k usage.now) (option_copied key.entry) }
{
    match key {
        Some(key) => Some(place_of(usage, key)),
        None => None,
    }
}

/// Whether a state is that of a key, and it is on.
fn is_on_there(key: &KeyName, state: &KeyState) -> bool
    ensures { result ≡ is_on_there key.now state.now }
{
    state.key == *key && state.on
}

/// Whether a key is on.
fn is_on_in(states: &[KeyState], key: &KeyName) -> bool
    ensures { result ≡ list_any (is_on_there key.now) states.now }
{
    states.iter().any(|state| is_on_there(key, state))
}

/// Whether a key is on, if there is one.
pub(crate) fn is_on(usage: &Usage, key: Option<&KeyName>) -> bool
    ensures { result ≡ is_on (option_copied key.entry) usage.now }
{
    match key {
        Some(key) => is_on_in(usage.states(), key),
        None => false,
    }
}

/// The key that a command switches on or off, if there is one.
pub(crate) fn switched_key(command: &Command) -> Option<&KeyName>
    ensures { option_copied result ≡ key_switched command.now }
{
    match command {
        Command::Monitor { key, .. } => Some(key),
        Command::Stop(key) => Some(key),
        _ => None,
    }
}

/// Whether a command switches a key on.
pub(crate) fn switches_on(command: &Command) -> bool
    ensures { result ≡ switches_on command.now }
{
    matches!(command, Command::Monitor { .. })
}

/// The level of the key that a command switches.
pub(crate) fn level_switched(usage: &Usage, command: &Command, key: &KeyName) -> Level
    ensures { result ≡ level_switched command.now key.now usage.now }
{
    match command {
        Command::Monitor { level, .. } => *level,
        _ => level_of(usage, key),
    }
}

/// The level of a key that has a slot.
pub(crate) fn level_of(usage: &Usage, key: &KeyName) -> Level
    ensures { result ≡ (state_at (slot_place key.now usage.now) usage.now).level }
{
    match usage.find(key) {
        Some(slot) => usage.level(slot),
        None => Level::Rule,
    }
}
