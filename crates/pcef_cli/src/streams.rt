//! `pcef script`, `pcef run` and `pcef pool` on the process's own streams, with the built-in catalog and reporters; and
//! what is said of words that ask for nothing.

ghost use Rattle.std.specs.Prelude.{◌≡◌, ◌≤◌, IfOk};
ghost use Rattle.std.specs.Arc.{arc_value};
ghost use Rattle.pcef_catalog.specs.Catalogs.{offers_of};
ghost use Rattle.pcef_catalog.specs.Shapes.{shape_holds};
ghost use Rattle.pcef_built_in.specs.BuiltIn.{built_in_offers, dns_shape, expedited_shape, remaining_shape};

use crate::arguments::{profiles_of, words};
use crate::command_line::report_no_memory;
use pcef_base::Fused;
use pcef_built_in::{
    dns_properties, dns_shape, expedited_properties, expedited_shape, is_dns, is_expedited,
    is_remaining, remaining_properties, remaining_shape,
};
use pcef_catalog::{Catalog, Detect, Predefined};
use pcef_packet::Header;
use pcef_run::{Arguments, Environment, Host, Shown, Storing, Taken, run_program, shown_by};
use pcef_trigger::{Outlet, ReportKind, Reporter};
use std::alloc::AllocError;
use std::io::{self, BufWriter, ErrorKind, Write};
use std::sync::{Arc, Wait};
use std::thread::Threads;

/// Runs the program on the process's own streams. Its catalog has the built-in rules.
fn run_on_streams<T: Threads + Wait + Sync>(
    threads: &T,
    rt: &HostRuntime,
    arguments: Arguments<'_>,
    environment: Environment<'_>,
) -> io::Result<u8>
    requires { offers_of (arc_value environment.catalog) ≡ built_in_offers }
    ensures { IfOk result (λ status. status ≤ 4) }
{
    let host = Host {
        rt: threads,
        alloc: rt.alloc(),
    };
    let mut reader = rt.stdin();
    let mut writer = BufWriter::new(host.alloc, Fused::new(io::writer(rt)))?;
    let mut faults = rt.stderr();
    Ok(run_program(
        &host,
        arguments,
        environment,
        &mut reader,
        &mut writer,
        &mut faults,
    ))
}

/// Runs the program with a reporter of each kind, which stores what it takes.
fn run_storing<T: Threads + Wait + Sync>(
    threads: &T,
    rt: &HostRuntime,
    arguments: Arguments<'_>,
    catalog: Arc<Catalog>,
    taken: &Arc<Taken>,
) -> io::Result<u8>
    requires { offers_of (arc_value catalog) ≡ built_in_offers }
    ensures { IfOk result (λ status. status ≤ 4) }
{
    let alloc = rt.alloc();
    let mut reporters = Vec::with_capacity(alloc, 3)?;
    for &kind in &[ReportKind::Usage, ReportKind::Access, ReportKind::Inactive] {
        let storing = Storing::new(alloc, kind, Arc::try_clone(taken)?);
        let reporter: Box<dyn Reporter + Send> = Box::new(alloc, storing)?;
        reporters.push((kind, reporter))?;
    }
    match Outlet::new(reporters) {
        Ok(outlet) => {
            let environment = Environment {
                catalog,
                outlet,
                taken,
            };
            run_on_streams(threads, rt, arguments, environment)
        }
        Err(_) => Err(AllocError.into()),
    }
}

/// Writes a text about the program on standard output.
fn write_shown(rt: &HostRuntime, shown: Shown) -> io::Result<()> {
    let mut writer = BufWriter::new(rt.alloc(), Fused::new(io::writer(rt)))?;
    writer.write_all(shown.line().as_bytes())?;
    writer.write_all(shown.note().as_bytes())?;
    writer.flush()
}

/// Shows a text about the program, and returns the exit status: 0, or 4 where it can't be written.
fn show(rt: &HostRuntime, shown: Shown) -> io::Result<u8>
    ensures { IfOk result (λ status. status ≤ 4) }
{
    match write_shown(rt, shown) {
        Ok(()) => Ok(0),
        Err(error) if error.kind() == ErrorKind::OutOfMemory => Err(error),
        Err(_) => {
            let _ = eprintln!(rt; "write fault");
            Ok(4)
        }
    }
}

/// Runs the program as its words ask, or shows the text about it that they ask for.
fn run_with<T: Threads + Wait + Sync>(
    threads: &T,
    rt: &HostRuntime,
    catalog: Arc<Catalog>,
) -> io::Result<u8>
    requires { offers_of (arc_value catalog) ≡ built_in_offers }
    ensures { IfOk result (λ status. status ≤ 4) }
{
    let alloc = rt.alloc();
    let words = words(alloc, rt)?;
    if let Some(shown) = shown_by(&words) {
        return show(rt, shown);
    }
    let profiles = profiles_of(rt, &words)?;
    let taken = Arc::new(alloc, Taken::new())?;
    let arguments = Arguments {
        words: &words,
        profiles: &profiles,
    };
    run_storing(threads, rt, arguments, catalog, &taken)
}

/// Makes the built-in catalog, and runs the program with it.
fn run<T: Threads + Wait + Sync>(threads: &T, rt: &HostRuntime) -> io::Result<u8>
    ensures { IfOk result (λ status. status ≤ 4) }
{
    let alloc = rt.alloc();
    let dns: Detect = Box::new(
        alloc,
        |header: &Header| -> bool
            ensures { result ≡ shape_holds dns_shape header.now }
        { is_dns(header) },
    )?;
    let expedited: Detect = Box::new(
        alloc,
        |header: &Header| -> bool
            ensures { result ≡ shape_holds expedited_shape header.now }
        { is_expedited(header) },
    )?;
    let remaining: Detect = Box::new(
        alloc,
        |header: &Header| -> bool
            ensures { result ≡ shape_holds remaining_shape header.now }
        { is_remaining(header) },
    )?;
    let mut rules = Vec::with_capacity(alloc, 3)?;
    rules.push(Predefined::new(dns_properties(), dns_shape(), dns))?;
    rules.push(Predefined::new(expedited_properties(), expedited_shape(), expedited))?;
    rules.push(Predefined::new(remaining_properties(), remaining_shape(), remaining))?;
    let Ok(catalog) = Catalog::new(alloc, rules) else {
        return Err(AllocError.into());
    };
    run_with(threads, rt, Arc::new(alloc, catalog)?)
}

/// Runs the program and returns its exit status. What keeps it from starting is reported as out of memory.
pub(crate) fn answer<T: Threads + Wait + Sync>(threads: &T, rt: &HostRuntime) -> u8
    ensures { result ≤ 4 }
{
    match run(threads, rt) {
        Ok(status) => status,
        Err(_) => report_no_memory(rt),
    }
}
