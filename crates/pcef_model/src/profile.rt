//! What is fixed for a session.

use pcef_packet::Addr;
use pcef_rule::{QciTable, Qos, Sums};
use std::marker::Model;

/// The highest capacity in one direction, in bit/s.
pub const MAX_CAPACITY: u64 = 1_099_511_627_775;

/// The highest number of commands.
pub const MAX_COMMANDS: u32 = 1_000_000;

/// What is fixed for a session. Its numbers are within their limits.
#[derive(Drop)]
pub struct Profile {
    /// The address of the user equipment.
    pub ue: Addr,
    /// QCI and ARP of the default bearer.
    pub default_qos: Qos,
    /// What the guaranteed rates of all rules may sum up to: 0 to 1,099,511,627,775 bit/s a direction.
    pub capacity: Sums,
    /// The kinds of QCIs.
    pub qcis: QciTable,
    /// How many rows the journal takes: 1 to 4,294,967,295.
    pub rows: u32,
    /// How many commands other than Close and Terminate the journal takes: 1 to 1,000,000.
    pub commands: u32,
}

impl Model for Profile {
    ghost use Rattle.pcef_model.specs.ProfileModel.{ProfileModel};
    ghost use Rattle.pcef_model.specs.ProfileModel.{IsWithinLimits};

    ghost Value = { ProfileModel };

    ghost view = { λ p. record {
      ue = p.ue;
      default_qos = p.default_qos;
      capacity = p.capacity;
      qcis = p.qcis;
      rows = p.rows;
      commands = p.commands;
    } };

    ghost invariant = { λ p. IsWithinLimits p.capacity p.rows p.commands };
}
