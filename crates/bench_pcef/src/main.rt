//! A program that measures the time of a packet's verdict, of a refresh, and of workers behind a lock, again and again.
//!
//! - `bench_pcef classify ..` judges recorded packets by a table of rules, with its index or by a linear scan.
//! - `bench_pcef refresh ..` publishes tables and refreshes subscribers.
//! - `bench_pcef workers ..` has workers judge packets and hand them over, each in a thread of its own.
//!
//! The module of each measurement says what follows its word. The word `then` stands between two measurements. The
//! output is the same in each run; the times stand on standard error.
//!
//! The exit status is 2 where the words ask for no measurement, and 4 where a file can't be read, memory is out or a
//! thread doesn't start.
#![tactic(auto)]

mod arguments;
mod classify;
mod laps;
mod refresh;
mod workers;

use arguments::words;
use std::io;
use std::process::ExitCode;
use std::sync::Wait;
use std::thread::Threads;

/// Makes the measurement that these words ask for. False where they ask for none.
fn measure<T: Threads + Wait + Sync>(
    threads: &T,
    rt: &HostRuntime,
    asked: &[String],
) -> io::Result<bool> {
    let [name, words @ ..] = asked else {
        return Ok(false);
    };
    match name.as_str() {
        "classify" => classify::measure(rt, words),
        "refresh" => refresh::measure(threads, rt, words),
        "workers" => workers::measure(threads, rt, words),
        _ => Ok(false),
    }
}

/// Makes each measurement in turn. False, and no further one is made, where one is asked for wrongly.
fn measure_each<T: Threads + Wait + Sync>(threads: &T, rt: &HostRuntime) -> io::Result<bool> {
    let words = words(rt)?;
    for asked in words.as_slice().split(|word| word.as_str() == "then") {
        if !measure(threads, rt, asked)? {
            return Ok(false);
        }
    }
    Ok(true)
}

fn main(rt: HostRuntime) -> ExitCode {
    match measure_each(&rt, &rt) {
        Ok(true) => ExitCode::from(0),
        Ok(false) => ExitCode::from(2),
        Err(_) => ExitCode::from(4),
    }
}
