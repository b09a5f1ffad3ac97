//! What may stand at a field.

use pcef_line::Field;
use serde_json::Value;

/// The words of `do`.
pub(crate) const WORDS: &[&str] = &[
    "install",
    "activate",
    "remove",
    "monitor",
    "stop",
    "report",
    "triggers",
    "notice",
    "lose",
    "close",
    "terminate",
    "attach",
    "take",
    "refresh",
    "flush",
    "finish",
    "abandon",
    "show",
];

const TRIGGERS: &[&str] = &[
    "NO_EVENT_TRIGGERS",
    "USAGE_REPORT",
    "RAT_CHANGE",
    "PLMN_CHANGE",
    "USER_LOCATION_CHANGE",
    "UE_TIME_ZONE_CHANGE",
];

const EVENTS: &[&str] = &[
    "RAT_CHANGE",
    "PLMN_CHANGE",
    "USER_LOCATION_CHANGE",
    "UE_TIME_ZONE_CHANGE",
];

const GATES: &[&str] = &["ENABLED", "ENABLED-UPLINK", "ENABLED-DOWNLINK", "DISABLED"];

const FLOWS: &[&str] = &["downlink", "uplink", "bidirectional"];

/// What may stand at a field.
#[derive(Clone, Copy)]
pub(crate) enum Wanted {
    /// A whole number within these.
    Number(u64, u64),
    /// A truth value.
    Flag,
    /// The name of a rule or a key, or the value of an event.
    Name,
    /// One of some words.
    Word(&'static [&'static str]),
    /// The octets of a packet.
    Octets,
    /// A text of any kind.
    Text,
    Object,
    List,
}

/// An item of `events`.
pub(crate) const TRIGGER: Wanted = Wanted::Word(TRIGGERS);

/// The level of an ARP.
pub(crate) const ARP_LEVEL: Wanted = Wanted::Number(1, 15);

/// What may stand at a field of a line or of its rule, or in its `gbr` or a filter.
pub(crate) fn wanted_at(field: Field) -> Wanted {
    match field {
        Field::Do => Wanted::Word(WORDS),
        Field::Rule | Field::Arp | Field::Gbr => Wanted::Object,
        Field::Filters | Field::Events => Wanted::List,
        Field::Key | Field::Value | Field::Name => Wanted::Name,
        Field::Grant => Wanted::Number(0, u64::MAX),
        Field::Event => Wanted::Word(EVENTS),
        Field::Bearer | Field::Qci => Wanted::Number(0, 255),
        Field::Worker => Wanted::Number(0, 15),
        Field::Dir => Wanted::Word(&["up", "down"]),
        Field::Packet => Wanted::Octets,
        Field::Precedence | Field::Up | Field::Down => Wanted::Number(0, 4_294_967_295),
        Field::Text => Wanted::Text,
        Field::Flow => Wanted::Word(FLOWS),
        Field::Level => Wanted::Word(&["rule", "session"]),
        Field::Capability | Field::Vulnerability => Wanted::Flag,
        Field::Gate => Wanted::Word(GATES),
    }
}

impl Wanted {
    /// What it is in words, or how these begin.
    pub(crate) fn text(self) -> &'static str {
        match self {
            Wanted::Number(_, _) => "a whole number from ",
            Wanted::Flag => "true or false",
            Wanted::Name => "a text of 1 to 64 characters without blanks",
            Wanted::Word(_) => "one of ",
            Wanted::Octets => "a text of pairs of hexadecimal digits",
            Wanted::Text => "a text",
            Wanted::Object => "an object",
            Wanted::List => "a list",
        }
    }

    /// Whether a value is of the kind and in the range. Names and octets are judged elsewhere.
    pub(crate) fn is(self, value: &Value) -> bool {
        match self {
            Wanted::Number(least, most) => value
                .as_u64()
                .is_some_and(|number| least <= number && number <= most),
            Wanted::Flag => value.is_boolean(),
            Wanted::Word(words) => value
                .as_str()
                .is_some_and(|text| words.iter().any(|word| *word == text)),
            Wanted::Name | Wanted::Octets | Wanted::Text => value.is_string(),
            Wanted::Object => value.is_object(),
            Wanted::List => value.is_array(),
        }
    }
}
