//! Lines from standard input, and their answers on standard output.

use crate::many::end::End;
use crate::many::progress::watched_input;
use crate::many::watched::{Notes, Watched};
use pcef_base::Fused;
use pcef_built_in::ShapedCatalog;
use pcef_model::Profile;
use pcef_script::ScriptFault;
use pcef_sessions::{serve, serve_frames};
use pcef_shards::{Ended, Keys, Outlet, Ran, serve_in_threads};
use std::hash::RandomState;
use std::io::{self, BufWriter, Write};
use std::rt::Stdout;
use std::sync::{Arc, Mutex, Wait};
use std::thread::Threads;

/// New keys.
pub(crate) fn random_keys(rt: &HostRuntime) -> io::Result<Keys> {
    let lines = RandomState::new(rt)?;
    let names = RandomState::new(rt)?;
    Ok(Keys { lines, names })
}

/// How a fault of the lines ends the program.
fn end_of<'a>(fault: ScriptFault) -> End<'a> {
    match fault {
        ScriptFault::Write => End::Write,
        ScriptFault::NoMemory => End::NoMemory,
        ScriptFault::Profile(fault) => End::Session(fault),
        ScriptFault::Read | ScriptFault::TooMuch => End::Lines,
    }
}

/// How lines that are all answered end the program.
fn end_whole<'a>(is_any_at_fault: bool) -> End<'a> {
    if is_any_at_fault {
        End::Faults
    } else {
        End::Clean
    }
}

/// What sessions are served with, and in how many threads; lines, or frames in one thread.
#[derive(Drop)]
pub(crate) struct Served {
    pub catalog: ShapedCatalog,
    pub profile: Profile,
    pub keys: Keys,
    pub threads: u8,
    pub has_frames: bool,
}

/// Serves lines, or frames, in the calling thread.
pub(crate) fn serve_here<'a, T: Wait + Drop>(
    waiting: T,
    rt: &HostRuntime,
    served: Served,
    notes: Arc<Mutex<Notes>>,
) -> End<'a> {
    let Served {
        catalog,
        profile,
        keys,
        threads: _,
        has_frames,
    } = served;
    let alloc = rt.alloc();
    let mut reader = watched_input(rt);
    let watched = Watched::new(waiting, alloc, io::writer(rt), notes);
    let mut writer = match BufWriter::new(alloc, Fused::new(watched)) {
        Ok(writer) => writer,
        Err(_) => return End::NoMemory,
    };
    let answered = if has_frames {
        serve_frames(
            alloc,
            &mut reader,
            &mut writer,
            profile,
            catalog,
            keys.names,
        )
    } else {
        serve(
            alloc,
            &mut reader,
            &mut writer,
            profile,
            catalog,
            keys.names,
        )
    };
    let end = match answered {
        Ok(is_any_at_fault) => end_whole(is_any_at_fault),
        Err(ScriptFault::Write) => return End::Write,
        Err(fault) => end_of(fault),
    };
    match writer.flush() {
        Ok(()) => end,
        Err(_) => End::Write,
    }
}

/// A way to standard output for each thread. Where it fails for one of them, it takes nothing more from any.
type Way<T> = Outlet<T, Fused<Watched<T, Stdout>>>;

fn ways<T: Wait + Drop + Copy>(
    waiting: T,
    rt: &HostRuntime,
    threads: u8,
    notes: Arc<Mutex<Notes>>,
) -> Result<Vec<Way<T>>, ScriptFault> {
    let alloc = rt.alloc();
    let watched = Watched::new(waiting, alloc, rt.stdout(), notes);
    let Ok(output) = Arc::new(alloc, Mutex::new(Fused::new(watched))) else {
        return Err(ScriptFault::NoMemory);
    };
    let mut ways = Vec::new(alloc);
    for _ in 0..threads {
        let Ok(output) = Arc::try_clone(&output) else {
            return Err(ScriptFault::NoMemory);
        };
        if ways.push(Outlet::new(waiting, alloc, output)).is_err() {
            return Err(ScriptFault::NoMemory);
        }
    }
    Ok(ways)
}

/// How one thread ended, after the answers that wait are written.
fn end_of_thread<T: Wait + Drop>(one: Ended<Way<T>>) -> Result<bool, ScriptFault> {
    let Ended { writer, end } = one;
    let mut writer = writer;
    let flushed = writer.end();
    match end {
        Err(ScriptFault::Write) if writer.lacks_memory() => Err(ScriptFault::NoMemory),
        Ok(_) if flushed.is_err() => Err(ScriptFault::Write),
        end => end,
    }
}

/// One end for two: a fault before none, and any other fault before the reader's.
fn first_end(
    one: Result<bool, ScriptFault>,
    other: Result<bool, ScriptFault>,
) -> Result<bool, ScriptFault> {
    match (one, other) {
        (Ok(one), Ok(other)) => Ok(one || other),
        (Err(ScriptFault::Read), Err(fault)) => Err(fault),
        (Err(fault), _) | (Ok(_), Err(fault)) => Err(fault),
    }
}

/// The end of all threads, after the answers that wait are written.
fn end_of_all<T: Wait + Drop>(ran: Ran<Way<T>>) -> Result<bool, ScriptFault> {
    let Ran {
        threads,
        lacks_memory,
    } = ran;
    let mut end = if lacks_memory {
        Err(ScriptFault::NoMemory)
    } else {
        Ok(false)
    };
    for one in threads {
        end = first_end(end, end_of_thread(one));
    }
    end
}

/// Serves lines in a thread for each way to standard output, if there is one.
fn serve_all<T: Threads + Wait + Drop + Send + Sync + Copy + 'static>(
    starting: T,
    rt: &HostRuntime,
    ways: Vec<Way<T>>,
    profile: &Profile,
    keys: Keys,
) -> Result<bool, ScriptFault> {
    if ways.is_empty() {
        return Ok(false);
    }
    let alloc = rt.alloc();
    let ran = serve_in_threads(starting, alloc, watched_input(rt), ways, profile, keys)?;
    end_of_all(ran)
}

/// Serves lines in threads. Each has a built-in catalog of its own.
pub(crate) fn serve_in<'a, T: Threads + Wait + Drop + Send + Sync + Copy + 'static>(
    starting: T,
    rt: &HostRuntime,
    served: Served,
    notes: Arc<Mutex<Notes>>,
) -> End<'a> {
    let Served {
        catalog: _,
        profile,
        keys,
        threads,
        has_frames: _,
    } = served;
    let end = match ways(starting, rt, threads, notes) {
        Ok(ways) => serve_all(starting, rt, ways, &profile, keys),
        Err(fault) => Err(fault),
    };
    match end {
        Ok(is_any_at_fault) => end_whole(is_any_at_fault),
        Err(fault) => end_of(fault),
    }
}
