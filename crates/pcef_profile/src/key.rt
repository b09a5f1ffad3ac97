//! The keys of a profile and of the tables in it.

ghost use Rattle.std.specs.Prelude.{◌≡◌};
ghost use Rattle.pcef_profile.specs.ProfileKeys.{key_text};

/// A key of a profile, or of a table in it.
#[derive(Clone, Copy, Debug, PartialEq, Eq)]
pub enum Key {
    Ue,
    Rows,
    Commands,
    Default,
    Capacity,
    Declared,
    Qci,
    Level,
    Capability,
    Vulnerability,
    Up,
    Down,
    Kind,
}

impl Key {
    /// The key, as it stands in a profile.
    pub(crate) fn text(self) -> &'static str
        ensures { result.now ≡ key_text self }
    {
        match self {
            Key::Ue => "ue",
            Key::Rows => "rows",
            Key::Commands => "commands",
            Key::Default => "default",
            Key::Capacity => "capacity",
            Key::Declared => "declared",
            Key::Qci => "qci",
            Key::Level => "level",
            Key::Capability => "capability",
            Key::Vulnerability => "vulnerability",
            Key::Up => "up",
            Key::Down => "down",
            Key::Kind => "kind",
        }
    }
}
