//! Gates.

ghost use Rattle.std.specs.Prelude.{◌≡◌};
ghost use Rattle.pcef_rule.specs.Gate.{opens};

use pcef_packet::Dir;

/// In which directions a rule lets packets pass (TS 29.214, clause 5.3.11, Flow-Status).
#[derive(Clone, Copy, Debug, PartialEq, Eq)]
pub enum Gate {
    /// `ENABLED-UPLINK`.
    EnabledUplink,
    /// `ENABLED-DOWNLINK`.
    EnabledDownlink,
    /// `ENABLED`: in both directions.
    Enabled,
    /// `DISABLED`: in none.
    Disabled,
}

impl Gate {
    /// Whether the gate lets packets of this direction pass.
    pub fn opens(self, dir: Dir) -> bool
        ensures { result ≡ opens self dir }
    {
        match self {
            Gate::EnabledUplink => dir == Dir::Up,
            Gate::EnabledDownlink => dir == Dir::Down,
            Gate::Enabled => true,
            Gate::Disabled => false,
        }
    }
}
