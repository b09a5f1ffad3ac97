//! The program where a run is asked for.

ghost use Rattle.std.specs.Prelude.{◌≡◌, ◌⊎◌};
ghost use Rattle.std.specs.Io.KnownBytes.{Keeps};
ghost use Rattle.pcef_run.specs.declared.end.End.TheVariants.{Done, Write as WriteEnd};
ghost use Rattle.std.specs.Arc.{arc_value};
ghost use Rattle.pcef_catalog.specs.Catalogs.{offers_of};
ghost use Rattle.pcef_model.specs.ProfileModel.{setting_of};
ghost use Rattle.pcef_run.specs.declared.taken.Counts.{Counts};
ghost use Rattle.pcef_run.specs.PlanRuns.{IsWritten, RanOne, RanPlan};

use crate::end::{End, plan_end, run_end};
use crate::environment::{Environment, Host};
use crate::plan::Plan;
use crate::reading::read_plan;
use crate::run::{Ran, run_plan};
use crate::summary::summary_text;
use crate::taken::{Counts, Taken};
use pcef_model::{Profile, Report};
use pcef_script::put_all;
use pcef_trigger::Outlet;
use std::alloc::Global;
use std::io::{Read, Write};
use std::sync::Wait;
use std::thread::Threads;

/// Flushes the writer.
fn flush_end<W: Write>(writer: &mut W) -> End
    ensures end { (result ≡ Done) ⊎ (result ≡ WriteEnd) }
    ensures kept { Keeps (W.contents writer.old) (W.contents writer.new) }
{
    match writer.flush() {
        Ok(()) => End::Done,
        Err(_) => End::Write,
    }
}

/// Writes the summary of a run, and flushes the writer.
fn write_summary<W: Write>(alloc: Global, ran: &Ran, taken: Counts, writer: &mut W) -> End
    ensures { IsWritten ran.now taken result (W.contents writer.old) (W.contents writer.new) }
{
    let Ok(text) = summary_text(alloc, ran, taken) else {
        return End::NoMemory;
    };
    match put_all(writer, text.as_bytes()) {
        Ok(()) => flush_end(writer),
        Err(_) => End::Write,
    }
}

/// Hands reports on, and says whether all were taken.
fn report(outlet: Outlet, reports: &[Report]) -> bool {
    let mut outlet = outlet;
    outlet.deliver(reports).refused.is_none()
}

/// Hands the reports of a run on, and writes its summary. A reporter refuses when out of memory.
fn report_run<W: Write>(
    alloc: Global,
    ran: &Ran,
    outlet: Outlet,
    taken: &Taken,
    writer: &mut W,
) -> End
    ensures { (taken : Counts) × IsWritten ran.now taken result
        (W.contents writer.old) (W.contents writer.new) }
{
    let all_taken = report(outlet, &ran.ended.reports);
    let counts = taken.counts();
    if all_taken {
        write_summary(alloc, ran, counts, writer)
    } else {
        End::NoMemory
    }
}

/// Runs a plan, and writes its summary.
fn run_one<T: Threads + Wait + Sync, W: Write>(
    host: &Host<'_, T>,
    profile: Profile,
    plan: Plan,
    workers: u8,
    environment: Environment<'_>,
    writer: &mut W,
) -> End
    ensures { RanOne (setting_of profile (offers_of (arc_value environment.entry.catalog))) workers plan result
        (W.contents writer.old) (W.contents writer.new) }
{
    let Environment {
        catalog,
        outlet,
        taken,
    } = environment;
    match run_plan(host.rt, host.alloc, catalog, profile, plan, workers) {
        Ok(ran) => report_run(host.alloc, &ran, outlet, taken, writer),
        Err(end) => run_end(end),
    }
}

/// Reads the plan of an input, runs it on the session of a profile, and writes the summary.
pub(crate) fn run_input<T: Threads + Wait + Sync, R: Read, W: Write>(
    host: &Host<'_, T>,
    profile: Profile,
    workers: u8,
    environment: Environment<'_>,
    reader: &mut R,
    writer: &mut W,
) -> End
    ensures { RanPlan (setting_of profile (offers_of (arc_value environment.entry.catalog))) workers result
        (R.remaining reader.old) (R.remaining reader.new)
        (W.contents writer.old) (W.contents writer.new) }
{
    match read_plan(host.alloc, reader, workers) {
        Ok(plan) => run_one(host, profile, plan, workers, environment, writer),
        Err(fault) => plan_end(host.alloc, fault),
    }
}
