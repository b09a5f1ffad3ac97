//! Plays scripts behind a lock, and compares what their steps are answered with what was worked out by hand.

use crate::behind_a_lock::{Played, Worked, play};
use pcef_catalog::Catalog;
use pcef_model::Profile;
use pcef_profile::read_profile;
use std::fs;
use std::io::{self, ErrorKind, Write};
use std::sync::{Arc, Wait};

/// The text of the profile of a script.
fn profile_text(rt: &HostRuntime, name: &str) -> io::Result<String> {
    let own = format!(in rt.alloc(); "{name}.toml")?;
    match fs::read_to_string(rt, own.as_str()) {
        Ok(text) => Ok(text),
        Err(error) if error.kind() == ErrorKind::NotFound => fs::read_to_string(rt, "profile.toml"),
        Err(error) => Err(error),
    }
}

/// The profile of a script.
fn profile_of(rt: &HostRuntime, name: &str) -> io::Result<Profile> {
    let text = profile_text(rt, name)?;
    match read_profile(rt.alloc(), text.as_str()) {
        Ok(profile) => Ok(profile),
        Err(_) => Err(ErrorKind::InvalidData.into()),
    }
}

/// The lines of a script.
fn script_of(rt: &HostRuntime, name: &str) -> io::Result<String> {
    let path = format!(in rt.alloc(); "{name}.jsonl")?;
    fs::read_to_string(rt, path.as_str())
}

/// The answers of a script that were worked out by hand.
fn worked_out(rt: &HostRuntime, name: &str) -> io::Result<String> {
    let path = format!(in rt.alloc(); "{name}.answers.jsonl")?;
    fs::read_to_string(rt, path.as_str())
}

/// Prints the outcome of the steps of a script behind a lock, and returns whether each answer is as worked out.
pub fn compare<T: Wait>(
    threads: &T,
    rt: &HostRuntime,
    catalog: Arc<Catalog>,
    name: &str,
) -> io::Result<bool> {
    let profile = profile_of(rt, name)?;
    let worked = Worked {
        script: script_of(rt, name)?,
        answers: worked_out(rt, name)?,
    };
    let played = play(threads, rt.alloc(), catalog, profile, &worked)?;
    let mut writer = io::writer(rt);
    match played {
        Played::Same { steps, rows } => {
            writeln!(
                writer,
                "{name}: behind a lock {steps} answers the same, rows gathered: {rows}"
            )?;
            Ok(true)
        }
        Played::Differs { answer, is } => {
            writeln!(writer, "{name}: behind a lock answer {answer} is {is}")?;
            Ok(false)
        }
        Played::NotGathered => {
            writeln!(writer, "{name}: behind a lock nothing is gathered")?;
            Ok(false)
        }
    }
}
