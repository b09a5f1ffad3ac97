//! The program `pcef`, the policy and charging enforcement function of a mobile packet gateway: its words, the files
//! that they name, and what each does with them.
//!
//! In the order of reading: `arguments`, `asked`, `command_line`; `streams` for `pcef script`, `pcef run` and `pcef
//! pool`; `check`, `many`, `capture`, `page` and `gx`, each for the word of its name.
#![tactic(auto)]

mod arguments;
mod asked;
mod capture;
mod check;
mod command_line;
mod gx;
mod many;
mod page;
mod streams;

ghost use Rattle.std.specs.Prelude.{◌≤◌};

use asked::{Call, Word, call_of};
use command_line::report_no_memory;
use std::process::ExitCode;
use std::rt::Clock;
use std::sync::Wait;
use std::thread::Threads;

/// Does what a word asks for with what stands behind it, and returns the exit status.
fn answer<T: Threads + Wait + Clock + Drop + Send + Sync + Copy + 'static>(
    starting: T,
    rt: HostRuntime,
    call: Call,
) -> u8
    ensures { result ≤ 4 }
{
    match call.word {
        Word::Check => check::answer(&rt, call),
        Word::Many => many::answer(starting, rt, call),
        Word::Capture => capture::answer(&rt, call),
        Word::Page => page::answer(&rt, call),
        Word::Gx => gx::answer(starting, rt, call),
    }
}

/// Does what the words ask for, and returns the exit status. What keeps the program from starting is reported as out of
/// memory.
fn status<T: Threads + Wait + Clock + Drop + Send + Sync + Copy + 'static>(
    starting: T,
    rt: HostRuntime,
) -> u8
    ensures { result ≤ 4 }
{
    match call_of(rt.alloc(), &rt) {
        Ok(Some(call)) => answer(starting, rt, call),
        Ok(None) => streams::answer(&starting, &rt),
        Err(_) => report_no_memory(&rt),
    }
}

fn main(rt: HostRuntime) -> ExitCode {
    ExitCode::from(status(rt, rt))
}
