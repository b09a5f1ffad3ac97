//! The program, without its ends.

ghost use Rattle.std.specs.Prelude.{◌≡◌, ◌≤◌, Some, option_map};
ghost use Rattle.std.specs.Arc.{arc_value};
ghost use Rattle.pcef_catalog.specs.Catalogs.{offers_of};
ghost use Rattle.pcef_model.specs.ProfileModel.{setting_of};
ghost use Rattle.pcef_run.specs.declared.end.End.{End};
ghost use Rattle.pcef_run.specs.Ends.{end_status};
ghost use Rattle.pcef_run.specs.Programs.{Ends, EndsOne, IsWhole, RanScriptOrPlan, RanScript, asked, asked_pool};
ghost use Rattle.pcef_run.specs.EndWriting.{WritesEnd};

use crate::end::{End, profile_end, script_end, unread_end};
use crate::environment::{Arguments, Environment, Host};
use crate::plan_run::run_input;
use crate::pool_call::run_on_pool;
use crate::reporting::report_end;
use crate::words::{path_of, paths_of, pool_of, workers_of};
use pcef_catalog::Catalog;
use pcef_model::Profile;
use pcef_profile::read_profile;
use pcef_rule::Sums;
use pcef_script::run_script;
use std::alloc::Global;
use std::io::{self, Read, Write};
use std::sync::{Arc, Wait};
use std::thread::Threads;

/// Runs a script on the session of a profile. The writer is flushed, also where the script ends early.
fn run_on<R: Read, W: Write>(
    alloc: Global,
    profile: Profile,
    catalog: Arc<Catalog>,
    reader: &mut R,
    writer: &mut W,
) -> End
    ensures { RanScript (setting_of profile (offers_of (arc_value catalog))) result
        (R.remaining reader.old) (R.remaining reader.new)
        (W.contents writer.old) (W.contents writer.new) }
{
    let ended = run_script(alloc, reader, writer, profile, catalog);
    match writer.flush() {
        Ok(()) => script_end(ended),
        Err(_) => End::Write,
    }
}

/// Runs a script on the session of a profile, or, with a number of workers, a plan.
fn run_as_asked<T: Threads + Wait + Sync, R: Read, W: Write>(
    host: &Host<'_, T>,
    profile: Profile,
    workers: Option<u8>,
    environment: Environment<'_>,
    reader: &mut R,
    writer: &mut W,
) -> End
    ensures { RanScriptOrPlan workers (setting_of profile (offers_of (arc_value environment.entry.catalog))) result
        (R.remaining reader.old) (R.remaining reader.new)
        (W.contents writer.old) (W.contents writer.new) }
{
    match workers {
        None => {
            let Environment {
                catalog,
                outlet: _,
                taken: _,
            } = environment;
            run_on(host.alloc, profile, catalog, reader, writer)
        }
        Some(workers) => run_input(host, profile, workers, environment, reader, writer),
    }
}

fn with_profile<T: Threads + Wait + Sync, R: Read, W: Write>(
    host: &Host<'_, T>,
    profile: &io::Result<String>,
    workers: Option<u8>,
    environment: Environment<'_>,
    reader: &mut R,
    writer: &mut W,
) -> End
    ensures { EndsOne (offers_of (arc_value environment.entry.catalog)) workers (Some profile.now) result
        (R.remaining reader.old) (R.remaining reader.new)
        (W.contents writer.old) (W.contents writer.new) }
{
    let text = match profile {
        Ok(text) => text,
        Err(error) => return unread_end(error.kind()),
    };
    match read_profile(host.alloc, text.as_str()) {
        Ok(profile) => run_as_asked(host, profile, workers, environment, reader, writer),
        Err(fault) => profile_end(fault),
    }
}

/// The profile of the script or the run that the arguments ask for, if they do.
fn request_of<'a>(
    words: &[Vec<u8>],
    profiles: &'a [io::Result<String>],
) -> Option<&'a io::Result<String>>
    ensures { option_map (λ p. p.now) result ≡ asked words.now profiles.now }
{
    match profiles {
        [profile] if path_of(words).is_some() => Some(profile),
        _ => None,
    }
}

/// Runs the script or the run that the arguments ask for, if they do.
fn one_end<T: Threads + Wait + Sync, R: Read, W: Write>(
    host: &Host<'_, T>,
    asked: Option<&io::Result<String>>,
    workers: Option<u8>,
    environment: Environment<'_>,
    reader: &mut R,
    writer: &mut W,
) -> End
    ensures { EndsOne (offers_of (arc_value environment.entry.catalog)) workers
        (option_map (λ p. p.now) asked.entry) result
        (R.remaining reader.old) (R.remaining reader.new)
        (W.contents writer.old) (W.contents writer.new) }
{
    match asked {
        Some(profile) => with_profile(host, profile, workers, environment, reader, writer),
        None => End::Usage,
    }
}

/// The capacity of the pool, if the arguments ask for one and each profile that they name is there.
fn asked_pool(words: &[Vec<u8>], profiles: &[io::Result<String>]) -> Option<Sums>
    ensures { result ≡ asked_pool words.now profiles.now }
{
    if profiles.len() == paths_of(words).len() {
        pool_of(words)
    } else {
        None
    }
}

fn end_of<T: Threads + Wait + Sync, R: Read, W: Write>(
    host: &Host<'_, T>,
    arguments: Arguments<'_>,
    environment: Environment<'_>,
    reader: &mut R,
    writer: &mut W,
) -> End
    ensures { Ends (offers_of (arc_value environment.entry.catalog))
        arguments.entry.words.now arguments.entry.profiles.now result
        (R.remaining reader.old) (R.remaining reader.new)
        (W.contents writer.old) (W.contents writer.new) }
{
    let Arguments { words, profiles } = arguments;
    match asked_pool(words, profiles) {
        Some(capacity) => {
            run_on_pool(
                host.alloc,
                capacity,
                profiles,
                &*environment.catalog,
                reader,
                writer,
            )
        }
        None => {
            let asked = request_of(words, profiles);
            one_end(host, asked, workers_of(words), environment, reader, writer)
        }
    }
}

/// Runs the program and returns its exit status: 0; 1 for a profile fault or a line at fault; 2 for wrong arguments; 3
/// when out of memory; 4 for a failing stream or a run that failed, also for want of a reader, a ring or a thread.
///
/// Where there are more or fewer profiles than the words name, the arguments are wrong. `faults` gets the reason why the
/// program ends early: a line, and below it what a person needs to know. Where `faults` fails, nothing else changes.
///
/// A script is run as `run_script` does, and the writer is flushed at its end. A run reads the whole input first, starts a
/// thread for each worker and waits for them; its reports go to the outlet, whose reporters count them, and one that
/// refuses ends the program as `want of memory`. Sessions on a pool read the whole input first, too, and are run as
/// `run_pool` does; the writer is flushed at its end.
pub fn run_program<T: Threads + Wait + Sync, R: Read, W: Write, E: Write>(
    host: &Host<'_, T>,
    arguments: Arguments<'_>,
    environment: Environment<'_>,
    reader: &mut R,
    writer: &mut W,
    faults: &mut E,
) -> u8
    // The status and what is said are those of the end to which the words, the profile and the input lead.
    ensures ends { (end : End) × (result ≡ end_status end)
        × WritesEnd end (E.contents faults.old) (E.contents faults.new)
        × Ends (offers_of (arc_value environment.entry.catalog))
        arguments.entry.words.now arguments.entry.profiles.now end
        (R.remaining reader.old) (R.remaining reader.new)
        (W.contents writer.old) (W.contents writer.new) }
    ensures most { result ≤ 4 }
    // Status 0 comes only where the whole input was read and all that is due is written.
    ensures whole { result ≡ 0 →
        IsWhole (offers_of (arc_value environment.entry.catalog))
        arguments.entry.words.now arguments.entry.profiles.now
        (R.remaining reader.old) (R.remaining reader.new)
        (W.contents writer.old) (W.contents writer.new) }
{
    let end = end_of(host, arguments, environment, reader, writer);
    report_end(
        host.alloc,
        &end,
        arguments.words,
        arguments.profiles,
        faults,
    );
    end.status()
}
