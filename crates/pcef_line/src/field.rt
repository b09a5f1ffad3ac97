//! The fields of a line and of the objects in it.

ghost use Rattle.std.specs.Prelude.{◌≡◌};
ghost use Rattle.pcef_line.specs.LineWords.{field_text};

/// A field of a line, or of an object in it.
#[derive(Clone, Copy, Debug, PartialEq, Eq)]
pub enum Field {
    /// What the line asks for.
    Do,
    /// A rule.
    Rule,
    /// A monitoring key.
    Key,
    /// A grant in octets.
    Grant,
    /// Event triggers.
    Events,
    /// An access event.
    Event,
    /// The value of an access event.
    Value,
    /// The id of a bearer.
    Bearer,
    /// The number of a worker.
    Worker,
    /// The direction of a packet.
    Dir,
    /// The octets of a packet.
    Packet,
    /// The name of a rule.
    Name,
    /// The precedence of a rule.
    Precedence,
    /// The filters of a rule.
    Filters,
    /// The text of a filter.
    Text,
    /// The flow word of a filter.
    Flow,
    /// A QoS class identifier.
    Qci,
    /// An allocation and retention priority.
    Arp,
    /// A priority level, or the level of a monitoring key.
    Level,
    /// A pre-emption capability.
    Capability,
    /// A pre-emption vulnerability.
    Vulnerability,
    /// Guaranteed rates.
    Gbr,
    /// The uplink rate.
    Up,
    /// The downlink rate.
    Down,
    /// The gate of a rule.
    Gate,
}

impl Field {
    /// The field's name, as it stands in a line.
    pub fn text(self) -> &'static str
        ensures { result.now ≡ field_text self }
    {
        match self {
            Field::Do => "do",
            Field::Rule => "rule",
            Field::Key => "key",
            Field::Grant => "grant",
            Field::Events => "events",
            Field::Event => "event",
            Field::Value => "value",
            Field::Bearer => "bearer",
            Field::Worker => "worker",
            Field::Dir => "dir",
            Field::Packet => "packet",
            Field::Name => "name",
            Field::Precedence => "precedence",
            Field::Filters => "filters",
            Field::Text => "text",
            Field::Flow => "flow",
            Field::Qci => "qci",
            Field::Arp => "arp",
            Field::Level => "level",
            Field::Capability => "capability",
            Field::Vulnerability => "vulnerability",
            Field::Gbr => "gbr",
            Field::Up => "up",
            Field::Down => "down",
            Field::Gate => "gate",
        }
    }
}
