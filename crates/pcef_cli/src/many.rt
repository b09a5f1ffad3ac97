//! `pcef many`, which answers the lines of many sessions in one process.
//!
//! `pcef many [--threads N | --frames] [--metrics FILE] [--every SECONDS] PROFILE` reads lines from standard input, each
//! of which is a session's name, one space, and a line of a script, or one that opens the session, renews it or ends it;
//! or, with `--frames`, frames that mean such lines. It writes the answers, each behind its name, and keeps totals of them
//! in a file.

mod end;
mod keeping;
mod metrics;
mod options;
mod progress;
mod serving;
mod totals;
mod watched;

ghost use Rattle.std.specs.Prelude.{◌≤◌};

use crate::asked::{Call, MANY};
use crate::command_line::{
    gather, or_no_memory, print_profile_fault, refuse, refuse_usage, report_no_memory,
};
use crate::many::end::End;
use crate::many::keeping::{Keeping, start, write_now};
use crate::many::options::{Options, parse_options};
use crate::many::serving::{Served, random_keys, serve_here, serve_in};
use crate::many::watched::Notes;
use pcef_built_in::ShapedCatalog;
use pcef_explain::read_text;
use pcef_profile::{ReadProfileFault, read_profile};
use std::rt::Clock;
use std::sync::{Arc, Mutex, Wait};
use std::thread::Threads;

/// Serves lines or frames, in as many threads as there are to be.
fn serve<'a, T: Threads + Wait + Clock + Drop + Send + Sync + Copy + 'static>(
    starting: T,
    rt: &HostRuntime,
    served: Served,
    notes: Arc<Mutex<Notes>>,
) -> End<'a> {
    if served.threads == 1 {
        serve_here(starting, rt, served, notes)
    } else {
        serve_in(starting, rt, served, notes)
    }
}

/// How the program ends by what is known of the answers.
fn end_by<'a, T: Wait>(waiting: &T, notes: &Mutex<Notes>, end: End<'a>) -> End<'a> {
    let notes = notes.lock(waiting);
    match end {
        End::Write if notes.lacks_memory => End::NoMemory,
        End::Write if notes.is_left => End::Left,
        end => end,
    }
}

/// Serves lines, and keeps a file of metrics up to date meanwhile. The file is written at the beginning and the end.
fn serve_and_keep<'a, T: Threads + Wait + Clock + Drop + Send + Sync + Copy + 'static>(
    starting: T,
    rt: HostRuntime,
    served: Served,
    notes: Arc<Mutex<Notes>>,
    keeping: Keeping<'a>,
) -> End<'a> {
    let Ok(theirs) = Arc::try_clone(&notes) else {
        return End::NoMemory;
    };
    if let Err(error) = write_now(&starting, &rt, &notes, keeping.file) {
        return or_no_memory(error, End::NoMemory, End::Metrics(keeping.file, error));
    }
    let keeper = match start(starting, rt, &notes, keeping) {
        Ok(keeper) => keeper,
        Err(_) => return End::NoMemory,
    };
    let end = serve(starting, &rt, served, theirs);
    keeper.end(&starting);
    match write_now(&starting, &rt, &notes, keeping.file) {
        Ok(()) => end_by(&starting, &notes, end),
        Err(error) => or_no_memory(error, End::NoMemory, End::Metrics(keeping.file, error)),
    }
}

/// Serves lines, with metrics or without.
fn serve_noting<'a, T: Threads + Wait + Clock + Drop + Send + Sync + Copy + 'static>(
    starting: T,
    rt: HostRuntime,
    served: Served,
    metrics: Option<Keeping<'a>>,
) -> End<'a> {
    let alloc = rt.alloc();
    let notes = Notes::new(alloc, metrics.is_some());
    let Ok(notes) = Arc::new(alloc, Mutex::new(notes)) else {
        return End::NoMemory;
    };
    if let Some(keeping) = metrics {
        return serve_and_keep(starting, rt, served, notes, keeping);
    }
    let Ok(theirs) = Arc::try_clone(&notes) else {
        return End::NoMemory;
    };
    let end = serve(starting, &rt, served, theirs);
    end_by(&starting, &notes, end)
}

/// Reads the profile, and serves lines on it.
fn run<'a, T: Threads + Wait + Clock + Drop + Send + Sync + Copy + 'static>(
    starting: T,
    rt: HostRuntime,
    catalog: ShapedCatalog,
    options: Options<'a>,
) -> End<'a> {
    let text = match read_text(&rt, options.profile) {
        Ok(text) => text,
        Err(error) => {
            return or_no_memory(error, End::NoMemory, End::Read(options.profile, error));
        }
    };
    let profile = match read_profile(rt.alloc(), text.as_str()) {
        Ok(profile) => profile,
        Err(ReadProfileFault::NoMemory) => return End::NoMemory,
        Err(fault) => {
            print_profile_fault(&rt, MANY, options.profile, text.as_str(), fault);
            return End::Profile;
        }
    };
    let keys = match random_keys(&rt) {
        Ok(keys) => keys,
        Err(error) => {
            let file = "the random numbers of the system";
            return or_no_memory(error, End::NoMemory, End::Read(file, error));
        }
    };
    let served = Served {
        catalog,
        profile,
        keys,
        threads: options.threads,
        has_frames: options.has_frames,
    };
    serve_noting(starting, rt, served, options.metrics)
}

/// Does what the words ask for, and returns the exit status.
fn status_with<T: Threads + Wait + Clock + Drop + Send + Sync + Copy + 'static>(
    starting: T,
    rt: HostRuntime,
    catalog: ShapedCatalog,
    call: Call,
) -> u8
    ensures { result ≤ 4 }
{
    let words = match gather(&rt, call) {
        Ok(words) => words,
        Err(status) => return status,
    };
    match parse_options(rt.alloc(), words.as_slice()) {
        Ok(Some(options)) => run(starting, rt, catalog, options).report(&rt),
        Ok(None) => refuse_usage(&rt, "an option has no value"),
        Err(error) => refuse(&rt, MANY, &error),
    }
}

/// Does what the words of a call ask for, and returns the exit status.
pub(crate) fn answer<T: Threads + Wait + Clock + Drop + Send + Sync + Copy + 'static>(
    starting: T,
    rt: HostRuntime,
    call: Call,
) -> u8
    ensures { result ≤ 4 }
{
    match ShapedCatalog::built_in(rt.alloc()) {
        Ok(catalog) => status_with(starting, rt, catalog, call),
        Err(_) => report_no_memory(&rt),
    }
}
