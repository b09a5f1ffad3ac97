//! The calls, each made once more where it finds no memory.

ghost use Rattle.std.specs.Prelude.{◌≡◌};

use pcef_answer::step_answer;
use pcef_catalog::Catalog;
use pcef_core::{World, run};
use pcef_journal::Journal;
use pcef_line::{Line, read_line};
use pcef_model::{Profile, Step};
use pcef_profile::read_profile;
use pcef_usage::Usage;
use pcef_world::StepAnswer;
use std::alloc::{AllocError, Global};
use std::io::{self, Write};
use std::sync::Arc;

/// The profile that a session is opened with.
fn profile_of(alloc: Global, text: &str) -> Result<Profile, AllocError> {
    match read_profile(alloc, text) {
        Ok(profile) => Ok(profile),
        Err(_) => Err(AllocError),
    }
}

/// The profile, read once more where the first reading found no memory.
fn profile_at_last(alloc: Global, text: &str) -> Result<Profile, AllocError> {
    match profile_of(alloc, text) {
        Ok(profile) => Ok(profile),
        Err(_) => profile_of(alloc, text),
    }
}

/// The step of a line.
fn step_of(alloc: Global, line: &str) -> Result<Step, AllocError> {
    match read_line(alloc, line) {
        Ok(Line::Step(step)) => Ok(step),
        _ => Err(AllocError),
    }
}

/// The step of a line, read once more where the first reading found no memory.
fn step_at_last(alloc: Global, line: &str) -> Result<Step, AllocError> {
    match step_of(alloc, line) {
        Ok(step) => Ok(step),
        Err(_) => step_of(alloc, line),
    }
}

/// The steps of a script.
fn steps_of(alloc: Global, script: &str) -> Result<Vec<Step>, AllocError> {
    let mut steps = Vec::new(alloc);
    for line in script.lines() {
        steps.push(step_of(alloc, line)?)?;
    }
    Ok(steps)
}

/// The text of an answer, made once more where the first making found no memory.
pub(crate) fn text_of(
    alloc: Global,
    journal: &Journal,
    generation: u32,
    answer: &StepAnswer,
) -> Result<String, AllocError>
    requires { journal.now.forgotten ≡ 0 }
{
    match step_answer(alloc, journal, generation, answer) {
        Ok(text) => Ok(text),
        Err(_) => step_answer(alloc, journal, generation, answer),
    }
}

/// Makes the steps one by one on a new world, and writes the answer to each.
pub(crate) fn answer_steps<W: Write>(
    alloc: Global,
    catalog: Arc<Catalog>,
    profile: &str,
    script: &str,
    writer: &mut W,
) -> io::Result<()> {
    let spare = Arc::try_clone(&catalog)?;
    let opened = match World::open(alloc, profile_at_last(alloc, profile)?, catalog) {
        Ok(world) => Ok(world),
        Err(_) => World::open(alloc, profile_of(alloc, profile)?, spare),
    };
    let Ok(mut world) = opened else {
        return Err(AllocError)?;
    };
    for line in script.lines() {
        let answer = match world.step(step_at_last(alloc, line)?) {
            Ok(answer) => answer,
            Err(_) => world.step(step_of(alloc, line)?)?,
        };
        let session = world.session();
        let text = text_of(alloc, session.journal(), session.generation(), &answer)?;
        writeln!(writer, "{text}")?;
    }
    Ok(())
}

/// How many octets were reported for the keys of a session, and how many were not.
fn octets_of(usage: &Usage) -> (u64, u64) {
    let mut reported = 0u64;
    let mut unreported = 0u64;
    for key in usage.states() {
        reported = reported.saturating_add(key.reported);
        unreported = unreported.saturating_add(key.unreported);
    }
    (reported, unreported)
}

/// How many steps a run of a list answers, and what its world then has: the number of its generation, its rows, its
/// reports, and the octets that were reported for its keys and that were not.
fn list_commands(
    alloc: Global,
    catalog: Arc<Catalog>,
    profile: &str,
    script: &str,
) -> Result<[u64; 6], AllocError> {
    let steps = steps_of(alloc, script)?;
    let Ok((world, answers)) = run(alloc, profile_of(alloc, profile)?, catalog, steps) else {
        return Err(AllocError);
    };
    let session = world.session();
    let (reported, unreported) = octets_of(session.usage());
    Ok([
        answers.len() as u64,
        u64::from(session.generation()),
        session.journal().rows_len(),
        session.journal().reports_len(),
        reported,
        unreported,
    ])
}

/// Makes all steps at once, and writes how many they were and what the session has then.
pub(crate) fn answer_list<W: Write>(
    alloc: Global,
    catalog: Arc<Catalog>,
    profile: &str,
    script: &str,
    writer: &mut W,
) -> io::Result<()> {
    let spare = Arc::try_clone(&catalog)?;
    let figures = match list_commands(alloc, catalog, profile, script) {
        Ok(figures) => figures,
        Err(_) => list_commands(alloc, spare, profile, script)?,
    };
    let [steps, generation, rows, reports, reported, unreported] = figures;
    writeln!(
        writer,
        "steps {steps} generation {generation} rows {rows} reports {reports} octets reported {reported} not {unreported}"
    )
}
