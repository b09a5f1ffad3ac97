//! Reads a profile.

ghost use Rattle.std.specs.Prelude.{◌≡◌, IfOk};
ghost use Rattle.toml.specs.View.{table_view};
ghost use Rattle.pcef_base.specs.Readings.{passing};
ghost use Rattle.pcef_profile.specs.ProfileValues.{Gives};
ghost use Rattle.pcef_profile.specs.ProfileOf.{Declares, GivesProfile, kind_with, may_be_declared, said, values_of, profile_of, ProfileOf};
ghost use Rattle.pcef_profile.specs.declared.fault.ReadProfileFault.TheVariants.{BadValue};

use crate::fault::ReadProfileFault;
use crate::key::Key;
use crate::shape::{is_known, is_whole};
use crate::values::{address_at, capacity_at, declarations_at, number_at, qos_at};
use crate::wanted::MAX_ROWS;
use pcef_model::{MAX_CAPACITY, MAX_COMMANDS, Profile};
use pcef_rule::{Kind, Qci, QciFault, QciTable};
use std::alloc::Global;
use toml::Table;

/// The kinds of the QCIs with those that a profile declares.
fn declared_qcis(declared: &[(u8, Kind)]) -> Result<QciTable, ReadProfileFault>
    ensures exact { Gives (λ _. declared.now) result
        (passing may_be_declared BadValue declared.now) }
    ensures kinds { IfOk result (λ t. Declares t declared.now) }
{
    match QciTable::new(declared) {
        Ok(qcis) => Ok(qcis),
        Err(QciFault::OutOfRange) => Err(ReadProfileFault::BadValue),
        Err(QciFault::Twice) => Err(ReadProfileFault::BadValue),
    }
}

#[tactic(auto, using(crate::proofs::DeclaredKinds::kind_is))]
fn kind_with(declared: &[(u8, Kind)], qcis: &QciTable, qci: Qci) -> Option<Kind>
    requires { Declares qcis.now declared.now }
    ensures { result ≡ kind_with declared.now qci.0 }
{
    qcis.kind_of(qci)
}

#[tactic(auto, unfolding(crate::specs::ProfileOf::values_of))]
fn values(table: &Table, declared: &[(u8, Kind)]) -> Result<Profile, ReadProfileFault>
    ensures exact { Gives (said declared.now) result
        (values_of declared.now (table_view table.now)) }
    ensures kinds { IfOk result (λ p. Declares p.qcis declared.now) }
{
    let ue = address_at(table, Key::Ue)?;
    let rows = number_at(table, Key::Rows, 1, MAX_ROWS)? as u32;
    let commands = number_at(table, Key::Commands, 1, u64::from(MAX_COMMANDS))? as u32;
    let default_qos = qos_at(table, Key::Default)?;
    let capacity = capacity_at(table, Key::Capacity, MAX_CAPACITY)?;
    let qcis = declared_qcis(declared)?;
    Ok(Profile {
        ue,
        default_qos,
        capacity,
        qcis,
        rows,
        commands,
    })
}

#[tactic(auto, unfolding(crate::specs::ProfileOf::profile_of))]
fn profile(alloc: Global, table: &Table) -> Result<Profile, ReadProfileFault>
    ensures { GivesProfile result (profile_of (table_view table.now)) }
{
    if !is_known(table) {
        return Err(ReadProfileFault::UnknownKey);
    }
    if !is_whole(table) {
        return Err(ReadProfileFault::Missing);
    }
    let declared = declarations_at(alloc, table, Key::Declared)?;
    let profile = values(table, &declared)?;
    match kind_with(&declared, &profile.qcis, profile.default_qos.qci) {
        None => Err(ReadProfileFault::UnknownQci),
        Some(Kind::Gbr) => Err(ReadProfileFault::DefaultIsGbr),
        Some(Kind::NonGbr) => Ok(profile),
    }
}

/// The profile that a text is, or its first fault in the order of [`ReadProfileFault`]. Its table of
/// QCIs has the standard ones and those that the text declares.
#[tactic(auto, unfolding(crate::specs::ProfileOf::ProfileOf))]
pub fn read_profile(alloc: Global, text: &str) -> Result<Profile, ReadProfileFault>
    ensures { GivesProfile result (ProfileOf text.now) }
{
    match toml::table_from_str(alloc, text) {
        Ok(table) => profile(alloc, &table),
        Err(error) if error.is_memory() => Err(ReadProfileFault::NoMemory),
        Err(_) => Err(ReadProfileFault::NotToml),
    }
}
