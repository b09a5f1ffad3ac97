//! A program that goes through the worked examples that its words name: scripts, and files of steps, of lines and of
//! profiles.
//!
//! Its contracts say: nothing of its answers. The gate compares its output with `stdout`: a line for each script, and
//! what was worked out by hand for each line and profile. `.ci/refused-memory` refuses each allocation in turn, and
//! shows that a refused call leaves a world as it was.
//!
//! A word that ends in `.steps`, `.lines` or `.profiles` names a file. Any other names a script: `NAME.jsonl` has its
//! lines, and `NAME.answers.jsonl` their answers, which were worked out by hand. The session's profile is `NAME.toml`
//! where there is such a file, else `profile.toml`. A desk and workers make its steps behind a lock, whose answers must
//! be those, and what they hand in is gathered. For each script a line is written: how many steps were made behind the
//! lock and how many rows were gathered; or the first answer that isn't as worked out. `tests/test_worked.py` has the
//! program `pcef` answer all lines of the same scripts in one thread.
//!
//! A file of steps has the lines of a script, without faults and without `show`. They are answered through the calls of
//! `pcef_core`, on the profile `profile.toml`: one by one on a world, and all at once. The answers are written, and below
//! them what a world has after all steps at once. A call that found no memory is made once more.
//!
//! A file of lines has a line of a script in each line, and what it is read as is written below it. Blank lines and
//! lines that begin with `#` stand between them, and are written as they are. A control picture stands for its control
//! character, and `∅` for no character at all. Each line is read alone, and by a reader that reads all lines of its
//! file; where the two readings differ, it is written. A line behind `~ ` is read so with each stray octet in the place
//! of each of its octets.
//!
//! A file of profiles has a profile behind each line that begins with `===`. Only these lines are written, and below
//! each what its profile is read as. The word `faults_that_no_text_has` has those faults written that no file shows.
//!
//! The exit status is 1 where an answer isn't as worked out, and 3 where a file can't be read, the profile of a script
//! is at fault or a script ends early.
#![tactic(auto)]

mod addresses;
mod behind_a_lock;
mod calls;
mod crew;
mod line_texts;
mod lines;
mod profiles;
mod reading;
mod scripts;
mod steps;

use lines::{write_file, write_other_faults};
use pcef_catalog::Catalog;
use scripts::compare;
use std::process::ExitCode;
use std::sync::{Arc, Wait};
use std::{env, io};
use steps::write_steps;

/// Prints the outcome of an example, and returns whether each answer of a script is as worked out.
fn write_example<T: Wait>(
    threads: &T,
    rt: &HostRuntime,
    catalog: &Arc<Catalog>,
    word: &str,
) -> io::Result<bool> {
    if word == "faults_that_no_text_has" {
        write_other_faults(rt)?;
    } else if word.ends_with(".steps") {
        write_steps(rt, word)?;
    } else if word.ends_with(".lines") || word.ends_with(".profiles") {
        write_file(rt, word)?;
    } else {
        return compare(threads, rt, Arc::try_clone(catalog)?, word);
    }
    Ok(true)
}

/// Prints the outcome of each example that the words name, and returns whether each answer of each script is as worked
/// out.
fn write_examples<T: Wait>(
    threads: &T,
    rt: &HostRuntime,
    catalog: &Arc<Catalog>,
) -> io::Result<bool> {
    let mut are_all = true;
    for word in env::args(rt)?.skip(1) {
        are_all &= write_example(threads, rt, catalog, word.as_str())?;
    }
    Ok(are_all)
}

fn main(rt: HostRuntime) -> ExitCode {
    let alloc = rt.alloc();
    let Ok(catalog) = Catalog::new(alloc, Vec::new(alloc)) else {
        return ExitCode::from(3);
    };
    let Ok(catalog) = Arc::new(alloc, catalog) else {
        return ExitCode::from(3);
    };
    match write_examples(&rt, &rt, &catalog) {
        Ok(true) => ExitCode::from(0),
        Ok(false) => ExitCode::from(1),
        Err(_) => ExitCode::from(3),
    }
}
