//! QoS class identifiers and their kinds.

ghost use Rattle.std.specs.Prelude.{◌≡◌, ◌↔◌, ◌<◌, ℕ, Bool, true, false, IsTrue, IfOk, Err, drop};
ghost use Rattle.pcef_rule.specs.QciKinds.{declared_at, declared_kind, declares_twice, is_out_of_range, declares_out_of_range, is_declared, kind_of};

use std::marker::Model;
use thiserror::Error;

/// A QoS class identifier (TS 23.203, clause 6.1.7.2).
#[derive(Clone, Copy, Debug, PartialEq, Eq)]
pub struct Qci(pub u8);

/// The kind of a QCI's resources.
#[derive(Clone, Copy, Debug, PartialEq, Eq)]
pub enum Kind {
    /// With a guaranteed bit rate.
    Gbr,
    /// Without one.
    NonGbr,
}

/// Why QCIs can't be declared so.
#[derive(Clone, Copy, Debug, PartialEq, Eq, Error)]
pub enum QciFault {
    /// A QCI isn't 10 to 254.
    #[error("a declared QCI is 10 to 254")]
    OutOfRange,
    /// All are in range, and a QCI is declared twice.
    #[error("a QCI is declared twice")]
    Twice,
}

/// The kinds of QCIs: the standard ones, and those that a profile declares. Contracts see what is
/// declared for each number from 0 to 255.
#[derive(Clone, Copy, Debug)]
pub struct QciTable {
    declared: [Option<Kind>; 256],
}

impl Model for QciTable {
    ghost use Rattle.std.specs.Prelude.{List, Option, ℕ, length, ◌≡◌};
    ghost use Rattle.pcef_rule.specs.declared.qci.Kind.{Kind};

    ghost Value = { List (Option Kind) };

    ghost view = { λ t. t.declared };

    ghost inverse = { λ kinds. record { declared = kinds } };
}

fn is_outside(qci: u8) -> bool
    ensures { result ≡ is_out_of_range qci }
{
    qci < 10 || 254 < qci
}

fn any_outside(declared: &[(u8, Kind)]) -> bool
    ensures { result ≡ declares_out_of_range declared.now }
{
    declared.iter().any(|d| is_outside(d.0))
}

fn is_among(qci: u8, declared: &[(u8, Kind)]) -> bool
    ensures { result ≡ is_declared qci declared.now }
{
    declared.iter().any(|d| d.0 == qci)
}

fn any_twice(declared: &[(u8, Kind)]) -> bool
    ensures { result ≡ declares_twice declared.now }
{
    for (i, d) in declared.iter().enumerate() {
        if is_among(d.0, &declared[i + 1..]) {
            return true;
        }
    }
    false
}

fn kind_among(qci: u8, declared: &[(u8, Kind)]) -> Option<Kind>
    ensures { result ≡ declared_kind declared.now qci }
{
    for d in declared {
        if d.0 == qci {
            return Some(d.1);
        }
    }
    None
}

impl QciTable {
    /// The standard QCIs with these, or the first fault in the order of [`QciFault`]. Takes no memory.
    pub fn new(declared: &[(u8, Kind)]) -> Result<QciTable, QciFault>
        ensures out_of_range { (result ≡ Err QciFault.OutOfRange)
            ↔ IsTrue (declares_out_of_range declared.now) }
        ensures twice { (result ≡ Err QciFault.Twice)
            ↔ ((declares_out_of_range declared.now ≡ false)
            × IsTrue (declares_twice declared.now)) }
        ensures kinds { IfOk result
            (λ t. (n : ℕ) → n < 256 → declared_at t n ≡ declared_kind declared.now n) }
    {
        if any_outside(declared) {
            return Err(QciFault::OutOfRange);
        }
        if any_twice(declared) {
            return Err(QciFault::Twice);
        }
        let mut kinds = [None; 256];
        for qci in 0..256usize {
            kinds[qci] = kind_among(qci as u8, declared);
        }
        Ok(QciTable { declared: kinds })
    }

    /// The kind of a QCI, or none where it is neither standard nor declared.
    pub fn kind_of(&self, qci: Qci) -> Option<Kind>
        ensures { result ≡ kind_of self.now qci.0 }
    {
        match qci.0 {
            1..=4 => Some(Kind::Gbr),
            5..=9 => Some(Kind::NonGbr),
            other => self.declared[usize::from(other)],
        }
    }
}
