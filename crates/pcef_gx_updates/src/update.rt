//! The AVPs of a CCR.

ghost use Rattle.std.specs.Prelude.{◌≡◌, ◌≤◌, IfOk, length, take};
ghost use Rattle.pcef_diameter.specs.Spellings.{avps_octets};
ghost use Rattle.pcef_gx_updates.specs.Updates.{most_reports, untold, update_avps};

use crate::telling::put_reports;
use crate::triggers::{put_access_triggers, put_other_triggers};
use pcef_journal::Journal;
use pcef_model::Report;
use std::alloc::{AllocError, Global};

/// The most reports that a CCR tells: what is left is told by the next one.
pub const MAX_REPORTS: usize = 100;

/// What a CCR tells.
#[derive(Drop)]
pub struct Update {
    /// Its AVPs, in octets: Event-Triggers, and one AVP for each report.
    pub avps: Vec<u8>,
    /// How many reports it tells, 0 to 100.
    pub count: usize,
}

/// The first of these reports, as many as a CCR tells.
fn first_of(reports: &[Report]) -> &[Report]
    ensures { result.now ≡ take most_reports reports.now }
{
    if reports.len() < MAX_REPORTS {
        return reports;
    }
    reports.split_at(MAX_REPORTS).0
}

/// The AVPs that tell these reports, in octets: each report by one AVP, behind each of their event triggers once;
/// LOSS_OF_BEARER where the PCRF asked for it (TS 29.212, clauses 4.5.3 and 5.3.7). Takes memory; an `Err` is want of it.
#[tactic(auto, using(pcef_diameter::proofs::Parts::parts_octets))]
pub fn update_octets(
    alloc: Global,
    asks_for_loss: bool,
    reports: &[Report],
) -> Result<Vec<u8>, AllocError>
    ensures { IfOk result (λ avps.
        avps.items ≡ avps_octets (update_avps asks_for_loss reports.now)) }
{
    let mut avps = Vec::new(alloc);
    put_other_triggers(&mut avps, asks_for_loss, reports)?;
    put_access_triggers(&mut avps, reports)?;
    put_reports(alloc, &mut avps, reports)?;
    Ok(avps)
}

/// What the next CCR of a session tells, where so many reports were told, the forgotten ones among them: the oldest of
/// the others, 100 at most, each by one AVP, and each of their event triggers once; LOSS_OF_BEARER where the PCRF asked
/// for it (TS 29.212, clauses 4.5.3 and 5.3.7). Takes memory; an `Err` is want of it.
pub fn next_update(
    alloc: Global,
    journal: &Journal,
    told: u64,
    asks_for_loss: bool,
) -> Result<Update, AllocError>
    requires { journal.now.forgotten ≤ told }
    ensures avps { IfOk result (λ u.
        u.avps.items ≡ avps_octets (update_avps asks_for_loss (untold journal.now.entries told))) }
    ensures count { IfOk result (λ u. u.count ≡ length (untold journal.now.entries told)) }
{
    let reports = journal.reports_from(told).to_vec(alloc)?;
    let first = first_of(&reports);
    Ok(Update {
        avps: update_octets(alloc, asks_for_loss, first)?,
        count: first.len(),
    })
}
