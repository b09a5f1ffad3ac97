//! The words of event triggers.

ghost use Rattle.std.specs.Prelude.{◌≡◌};
ghost use Rattle.serde_json.specs.View.{view, items_view};
ghost use Rattle.pcef_line.specs.LineTriggers.{event_text, event_of, trigger_text, is_word, is_trigger, are_triggers, lists, set_of};

use pcef_model::{AccessKind, TriggerSet};
use serde_json::Value;

/// A word of `events`.
#[derive(Clone, Copy)]
pub enum Trigger {
    /// `NO_EVENT_TRIGGERS`: no event is subscribed.
    NoEventTriggers,
    /// `USAGE_REPORT`: reached grants are reported.
    UsageReport,
    /// An access event is reported.
    Access(AccessKind),
}

const EVENTS: &[AccessKind] = &[
    AccessKind::RatChange,
    AccessKind::PlmnChange,
    AccessKind::UserLocationChange,
    AccessKind::UeTimeZoneChange,
];

const TRIGGERS: &[Trigger] = &[
    Trigger::NoEventTriggers,
    Trigger::UsageReport,
    Trigger::Access(AccessKind::RatChange),
    Trigger::Access(AccessKind::PlmnChange),
    Trigger::Access(AccessKind::UserLocationChange),
    Trigger::Access(AccessKind::UeTimeZoneChange),
];

/// The word of an access event, in lines and in reports (TS 29.212, clause 5.3.7, Event-Trigger).
pub fn event_text(kind: AccessKind) -> &'static str
    ensures { result.now ≡ event_text kind }
{
    match kind {
        AccessKind::RatChange => "RAT_CHANGE",
        AccessKind::PlmnChange => "PLMN_CHANGE",
        AccessKind::UserLocationChange => "USER_LOCATION_CHANGE",
        AccessKind::UeTimeZoneChange => "UE_TIME_ZONE_CHANGE",
    }
}

impl Trigger {
    fn text(self) -> &'static str
        ensures { result.now ≡ trigger_text self }
    {
        match self {
            Trigger::NoEventTriggers => "NO_EVENT_TRIGGERS",
            Trigger::UsageReport => "USAGE_REPORT",
            Trigger::Access(kind) => event_text(kind),
        }
    }
}

/// The access event that a text is.
pub(crate) fn event_of(text: &str) -> Option<AccessKind>
    ensures { result ≡ event_of text.now }
{
    EVENTS
        .iter()
        .copied()
        .find(|kind| event_text(*kind) == text)
}

fn is_word(value: &Value, trigger: Trigger) -> bool
    ensures { result ≡ is_word (view value.now) trigger }
{
    match value.as_str() {
        Some(text) => text == trigger.text(),
        None => false,
    }
}

fn is_trigger(value: &Value) -> bool
    ensures { result ≡ is_trigger (view value.now) }
{
    TRIGGERS.iter().any(|trigger| is_word(value, *trigger))
}

/// Whether each item is the word of a trigger.
pub(crate) fn are_triggers(values: &[Value]) -> bool
    ensures { result ≡ are_triggers (items_view values.now) }
{
    values.iter().all(is_trigger)
}

fn lists(values: &[Value], trigger: Trigger) -> bool
    ensures { result ≡ lists (items_view values.now) trigger }
{
    values.iter().any(|value| is_word(value, trigger))
}

/// The set of the triggers in a list.
pub(crate) fn set_of(values: &[Value]) -> TriggerSet
    ensures { result ≡ set_of (items_view values.now) }
{
    if lists(values, Trigger::NoEventTriggers) {
        return TriggerSet::default();
    }
    TriggerSet {
        usage_report: lists(values, Trigger::UsageReport),
        rat_change: lists(values, Trigger::Access(AccessKind::RatChange)),
        plmn_change: lists(values, Trigger::Access(AccessKind::PlmnChange)),
        user_location_change: lists(values, Trigger::Access(AccessKind::UserLocationChange)),
        ue_time_zone_change: lists(values, Trigger::Access(AccessKind::UeTimeZoneChange)),
    }
}
