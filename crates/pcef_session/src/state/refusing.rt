//! Why commands are refused.

ghost use Rattle.std.specs.Prelude.{◌≡◌, ◌==◌, None};
ghost use Rattle.std.specs.List.{list_any};
ghost use Rattle.std.specs.Option.{option_copied};
ghost use Rattle.pcef_model.specs.Journals.{now, slots};
ghost use Rattle.pcef_usage.specs.Keys.{level_clashes as key_clashes, finds_no_place as slotless, has_slot};
ghost use Rattle.pcef_model.specs.Commands.{is_among};
ghost use Rattle.pcef_model.specs.declared.command.Command.TheVariants as of;
ghost use Rattle.pcef_model.specs.Refusals.{becoming_active, clashes, common_refusals, end_refusals, finds_no_slot, first_of, first_refusals, is_active, is_bearer, refusals, refusals_within, room_refusals};
ghost use Rattle.pcef_session.specs.private.Sessions.{FindsFull, binding_refusal, finds_no_place, install_refusal, own_refusal, room_refusal};

use super::{MAX_RULES, SessionState};
use crate::keys::{is_on, level_of};
use pcef_bearer::{Bound, DEFAULT_BEARER};
use pcef_model::{Command, Level, Profile, Refusal};
use pcef_rule::{BearerId, KeyName, Properties, RuleName, Sums};
use pcef_usage::{MAX_KEYS, Usage, is_same_level};

/// How many commands a journal takes.
fn commands_of(profile: &Profile) -> u64
    ensures { result ≡ profile.now.commands }
{
    u64::from(profile.commands)
}

/// Whether a key has no slot, and there is none left.
fn finds_no_slot(usage: &Usage, key: Option<&KeyName>) -> bool
    ensures { result ≡ slotless (option_copied key.entry) usage.now }
{
    match key {
        None => false,
        Some(key) => usage.find(key).is_none() && usage.states().len() >= MAX_KEYS,
    }
}

/// Whether a key has a slot, and another level than this one.
fn clashes(usage: &Usage, key: Option<&KeyName>, level: Level) -> bool
    ensures { result ≡ key_clashes (option_copied key.entry) level usage.now }
{
    match key {
        None => false,
        Some(key) => has_slot(usage, key) && !is_same_level(level, level_of(usage, key)),
    }
}

/// Whether some rule is bound to a bearer.
fn is_bearer(bound: &[Bound], bearer: BearerId) -> bool
    ensures { result ≡ list_any (λ b. b.bearer.0 == bearer.0) bound.now }
{
    bound.iter().any(|rule| rule.bearer == bearer)
}

/// Whether a key has a slot.
fn has_slot(usage: &Usage, key: &KeyName) -> bool
    ensures { result ≡ has_slot key.now usage.now }
{
    usage.find(key).is_some()
}

impl SessionState {
    /// Whether the journal holds as many commands as the profile allows.
    fn is_full(&self) -> bool
        ensures { FindsFull self.now result }
    {
        self.counted.journal().commands_len() >= commands_of(&self.profile)
    }

    /// Why any command is refused that has a budget.
    fn common_refusal(&self) -> Option<Refusal>
        ensures { result ≡ first_of (common_refusals self.now.setting self.now.journal) }
    {
        if self.terminated {
            return Some(Refusal::Terminated);
        }
        if self.closed {
            return Some(Refusal::Closed);
        }
        if self.is_full() {
            return Some(Refusal::CommandsFull);
        }
        None
    }

    /// Why a Close is refused.
    fn ended_refusal(&self) -> Option<Refusal>
        ensures { result ≡ first_of (end_refusals self.now.journal) }
    {
        if self.terminated {
            return Some(Refusal::Terminated);
        }
        if self.closed {
            return Some(Refusal::Closed);
        }
        None
    }

    /// Why a command is refused whatever it asks for.
    fn first_refusal(&self, command: &Command) -> Option<Refusal>
        ensures { result ≡ first_of (first_refusals self.now.setting self.now.journal command.now) }
    {
        match command {
            Command::Close => self.ended_refusal(),
            Command::Terminate => {
                if self.terminated {
                    Some(Refusal::Terminated)
                } else {
                    None
                }
            }
            _ => self.common_refusal(),
        }
    }

    /// Whether a key would get another level than it has.
    fn clashes(&self, key: Option<&KeyName>, level: Level) -> bool
        ensures { result
            ≡ clashes self.now.setting self.now.journal level (option_copied key.entry) }
    {
        clashes(self.counted.usage(), key, level)
    }

    fn finds_no_slot(&self, key: Option<&KeyName>) -> bool
        ensures { result
            ≡ finds_no_slot self.now.setting self.now.journal (option_copied key.entry) }
    {
        finds_no_slot(self.counted.usage(), key)
    }

    pub(super) fn is_active(&self, name: &RuleName) -> bool
        ensures { result ≡ is_active self.now.setting self.now.journal name.now }
    {
        self.active.contains(name)
    }

    /// Whether a rule is new, and there is no place for one more.
    fn finds_no_place(&self, name: &RuleName) -> bool
        ensures { result ≡ finds_no_place self.now name.now }
    {
        !self.is_active(name) && self.active.len() >= MAX_RULES
    }

    /// Why a rule can't be bound.
    fn bind_refusal(&self, rule: &Properties) -> Option<Refusal>
        ensures { result ≡ binding_refusal self.now rule.now }
    {
        self.bearers.refusal(&rule.name, rule.qos, rule.rates)
    }

    /// Why a rule can't become active.
    fn becoming_active(&self, rule: &Properties) -> Option<Refusal>
        ensures { result ≡ first_of (becoming_active self.now.setting self.now.journal rule.now) }
    {
        if self.finds_no_place(&rule.name) {
            return Some(Refusal::RulesFull);
        }
        if self.clashes(rule.key.as_ref(), Level::Rule) {
            return Some(Refusal::LevelClash);
        }
        if self.finds_no_slot(rule.key.as_ref()) {
            return Some(Refusal::KeysFull);
        }
        self.bind_refusal(rule)
    }

    fn install_refusal(&self, rule: &Properties) -> Option<Refusal>
        ensures { result ≡ install_refusal self.now rule.now }
    {
        if let Some(_rule) = self.find_offered(&rule.name) {
            return Some(Refusal::NameIsPredefined);
        }
        self.becoming_active(rule)
    }

    fn activate_refusal(&self, name: &RuleName) -> Option<Refusal>
        ensures { result ≡ own_refusal self.now (of.Activate name.now) }
    {
        let Some(rule) = self.find_offered(name) else {
            return Some(Refusal::UnknownRule);
        };
        if self.is_active(name) {
            return None;
        }
        self.becoming_active(&rule.properties)
    }

    fn remove_refusal(&self, name: &RuleName) -> Option<Refusal>
        ensures { result ≡ own_refusal self.now (of.Remove name.now) }
    {
        if self.is_active(name) {
            None
        } else {
            Some(Refusal::UnknownRule)
        }
    }

    fn monitor_refusal(&self, key: &KeyName, grant: u64, level: Level) -> Option<Refusal>
        ensures { result ≡ own_refusal self.now (of.Monitor key.now grant level) }
    {
        if grant == 0 {
            return Some(Refusal::ZeroGrant);
        }
        if self.clashes(Some(key), level) {
            return Some(Refusal::LevelClash);
        }
        if self.finds_no_slot(Some(key)) {
            return Some(Refusal::KeysFull);
        }
        None
    }

    /// Whether a key is on.
    fn is_on(&self, key: &KeyName) -> bool
        ensures { result ≡ is_among key.now (now self.now.setting self.now.journal).on }
    {
        is_on(self.counted.usage(), Some(key))
    }

    fn stop_refusal(&self, key: &KeyName) -> Option<Refusal>
        ensures { result ≡ own_refusal self.now (of.Stop key.now) }
    {
        if self.is_on(key) {
            None
        } else {
            Some(Refusal::UnknownKey)
        }
    }

    /// Whether a key has a slot.
    fn has_slot(&self, key: &KeyName) -> bool
        ensures { result ≡ is_among key.now (slots self.now.setting self.now.journal) }
    {
        has_slot(self.counted.usage(), key)
    }

    fn report_refusal(&self, key: &KeyName) -> Option<Refusal>
        ensures { result ≡ own_refusal self.now (of.ReportNow key.now) }
    {
        if self.has_slot(key) {
            None
        } else {
            Some(Refusal::UnknownKey)
        }
    }

    /// Whether some rule is bound to a bearer.
    fn is_bearer(&self, bearer: BearerId) -> bool
        ensures { result ≡ is_bearer self.now.setting self.now.journal bearer.0 }
    {
        is_bearer(self.bearers.bound(), bearer)
    }

    fn lose_refusal(&self, bearer: BearerId) -> Option<Refusal>
        ensures { result ≡ own_refusal self.now (of.LoseBearer bearer) }
    {
        if bearer == DEFAULT_BEARER {
            return Some(Refusal::DefaultBearer);
        }
        if self.is_bearer(bearer) {
            None
        } else {
            Some(Refusal::UnknownBearer)
        }
    }

    fn terminate_refusal(&self) -> Option<Refusal>
        ensures { result ≡ own_refusal self.now of.Terminate }
    {
        let attached = self.lanes.attached_count() as u8;
        if attached > 0 {
            Some(Refusal::WorkersAttached(attached))
        } else {
            None
        }
    }

    /// Why a command is refused for what it asks for.
    fn own_refusal(&self, command: &Command) -> Option<Refusal>
        ensures { result ≡ own_refusal self.now command.now }
    {
        match command {
            Command::Install(rule) => self.install_refusal(rule.properties()),
            Command::Activate(name) => self.activate_refusal(name),
            Command::Remove(name) => self.remove_refusal(name),
            Command::Monitor { key, grant, level } => self.monitor_refusal(key, *grant, *level),
            Command::Stop(key) => self.stop_refusal(key),
            Command::ReportNow(key) => self.report_refusal(key),
            Command::LoseBearer(bearer) => self.lose_refusal(*bearer),
            Command::Terminate => self.terminate_refusal(),
            Command::Triggers(_) | Command::Notice { .. } | Command::Close => None,
        }
    }

    /// Why a command is refused, out of memory aside: the first reason in the order of [`Refusal`].
    pub(crate) fn refusal(&self, command: &Command) -> Option<Refusal>
        ensures { result ≡ first_of (refusals self.now.setting self.now.journal command.now) }
    {
        if let Some(refusal) = self.first_refusal(command) {
            return Some(refusal);
        }
        self.own_refusal(command)
    }

    /// Why the rates of all rules would be over a room with a rule, if they would.
    fn over_room(&self, rule: &Properties, room: Sums) -> Option<Refusal>
        ensures { result ≡ room_refusal self.now rule.now room }
    {
        self.bearers.room_refusal(&rule.name, rule.rates, room)
    }

    /// Why a command that nothing else refuses is refused in a room.
    fn room_refusal(&self, command: &Command, room: Sums) -> Option<Refusal>
        requires { first_of (refusals self.now.setting self.now.journal command.now) ≡ None }
        ensures { result
            ≡ first_of (room_refusals self.now.setting self.now.journal command.now room) }
    {
        match command {
            Command::Install(rule) => self.over_room(rule.properties(), room),
            Command::Activate(name) => {
                if self.is_active(name) {
                    return None;
                }
                match self.find_offered(name) {
                    Some(rule) => self.over_room(&rule.properties, room),
                    None => unreachable!(),
                }
            }
            Command::Remove(_)
            | Command::Monitor { .. }
            | Command::Stop(_)
            | Command::ReportNow(_)
            | Command::LoseBearer(_)
            | Command::Terminate
            | Command::Triggers(_)
            | Command::Notice { .. }
            | Command::Close => None,
        }
    }

    /// The same, in a room where the session has one.
    pub(crate) fn refusal_within(&self, command: &Command, room: Option<Sums>) -> Option<Refusal>
        ensures { result
            ≡ first_of (refusals_within self.now.setting self.now.journal command.now room) }
    {
        if let Some(refusal) = self.refusal(command) {
            return Some(refusal);
        }
        match room {
            Some(room) => self.room_refusal(command, room),
            None => None,
        }
    }
}
