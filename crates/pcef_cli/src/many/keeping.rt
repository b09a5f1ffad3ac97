//! A file of metrics that is kept up to date.

use crate::many::metrics::metrics_text;
use crate::many::watched::Notes;
use crossbeam_channel::{Receiver, RecvTimeoutError, Sender, bounded};
use std::alloc::Global;
use std::io::{self, ErrorKind};
use std::rt::Clock;
use std::sync::{Arc, Mutex, Wait};
use std::thread::{self, JoinHandle, Threads};
use std::time::Duration;
use std::{fs, str};

/// Where metrics are written, and how often.
#[derive(Clone, Copy)]
pub(crate) struct Keeping<'a> {
    /// The path of the file.
    pub file: &'a str,
    /// How many seconds lie between two writes.
    pub seconds: u64,
}

/// The resident memory of the process in octets, by the system's text of it, in which it stands in kibibytes.
fn resident(text: &str) -> Option<u64> {
    for line in text.lines() {
        if let Some(rest) = line.strip_prefix("VmRSS:") {
            let number = rest.split_ascii_whitespace().next()?;
            return number.parse::<u64>().ok()?.checked_mul(1024);
        }
    }
    None
}

/// The resident memory of the process in octets, where the system says it.
fn memory(rt: &HostRuntime) -> Option<u64> {
    let octets = fs::read(rt, "/proc/self/status").ok()?;
    resident(str::from_utf8(&octets).ok()?)
}

/// The totals so far as metrics, or an empty text where none are counted. Waits for their lock.
fn text_now<T: Wait>(waiting: &T, rt: &HostRuntime, notes: &Mutex<Notes>) -> io::Result<String> {
    let memory = memory(rt);
    let notes = notes.lock(waiting);
    match &notes.totals {
        Some(totals) => Ok(metrics_text(rt.alloc(), totals, memory)?),
        None => Ok(String::new(rt.alloc())),
    }
}

/// Writes the metrics beside the file, and puts them in its place, so that who reads the file reads all of it. Waits
/// for the lock of the totals.
pub(crate) fn write_now<T: Wait>(
    waiting: &T,
    rt: &HostRuntime,
    notes: &Mutex<Notes>,
    file: &str,
) -> io::Result<()> {
    let text = text_now(waiting, rt, notes)?;
    let mut beside = String::from_str(rt.alloc(), file)?;
    beside.push_str(".new")?;
    fs::write(rt, beside.as_str(), text)?;
    fs::rename(rt, beside.as_str(), file)
}

/// Writes the metrics again and again, until the other end of the channel is gone. A write that fails is made again the
/// next time.
fn keep<T: Wait + Clock>(
    waiting: &T,
    rt: &HostRuntime,
    ended: &Receiver<(), Global>,
    notes: &Mutex<Notes>,
    keeping: Keeping<'_>,
) {
    for _ in 0..u64::MAX {
        match ended.recv_timeout(waiting, Duration::from_secs(keeping.seconds)) {
            Err(RecvTimeoutError::Timeout) => {
                let _ = write_now(waiting, rt, notes, keeping.file);
            }
            _ => return,
        }
    }
}

/// A thread that keeps the file up to date, and what ends it.
#[derive(Drop)]
pub(crate) struct Keeper {
    ending: Sender<(), Global>,
    thread: JoinHandle<()>,
}

/// Starts the thread that keeps the file up to date.
pub(crate) fn start<T: Threads + Wait + Clock + Drop + Send + Sync + Copy + 'static>(
    starting: T,
    rt: HostRuntime,
    notes: &Arc<Mutex<Notes>>,
    keeping: Keeping<'_>,
) -> io::Result<Keeper> {
    let alloc = rt.alloc();
    let (ending, ended) = bounded::<(), Global>(alloc, 1)?;
    let notes = Arc::try_clone(notes)?;
    let file = String::from_str(alloc, keeping.file)?;
    let seconds = keeping.seconds;
    let job = move || {
        let keeping = Keeping {
            file: file.as_str(),
            seconds,
        };
        keep(&starting, &rt, &ended, &notes, keeping);
    };
    match thread::spawn(&starting, job) {
        Ok(thread) => Ok(Keeper { ending, thread }),
        Err(_) => Err(ErrorKind::OutOfMemory.into()),
    }
}

impl Keeper {
    /// Ends the thread, and waits for its end.
    pub(crate) fn end<T: Threads>(self, rt: &T) {
        let Keeper { ending, thread } = self;
        drop(ending);
        thread.join(rt);
    }
}
