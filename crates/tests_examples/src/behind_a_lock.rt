//! Plays the steps of a script through a desk and workers behind a lock, all in one thread, and compares what these
//! answer with what the script's answers are.

ghost use Rattle.std.specs.Prelude.{◌≡◌, [], IfSome};
ghost use Rattle.std.specs.Arc.{arc_value};
ghost use Rattle.pcef_catalog.specs.Catalogs.{offers_of};
ghost use Rattle.pcef_lock.specs.Opening.{GoesBy};

use crate::calls::text_of;
use crate::crew::Crew;
use pcef_catalog::{Catalog, Detects, Offers};
use pcef_journal::Journal;
use pcef_journaled::JournaledState;
use pcef_line::{Line, LineFault, read_line};
use pcef_lock::{Opening, Shared, open_history};
use pcef_model::{Entry, Profile, Report, Step};
use pcef_publish::{Board, Cell};
use pcef_share::{Blanks, Naming};
use std::alloc::{AllocError, Global};
use std::marker::Brand;
use std::sync::{Arc, Wait};

/// How many workers may be attached.
const PLACES: u8 = 16;

/// A script, and the answers to its lines that were worked out by hand.
#[derive(Drop)]
pub struct Worked {
    /// The lines.
    pub script: String,
    /// An answer for each line that isn't blank.
    pub answers: String,
}

/// The outcome of the steps of a script behind a lock.
#[derive(Drop)]
pub enum Played {
    /// Each step was answered as in the script.
    Same {
        /// How many steps there were.
        steps: u64,
        /// How many rows the workers handed over.
        rows: u64,
    },
    /// A step was answered otherwise.
    Differs {
        /// The number of the script's answer, from 1 on.
        answer: u64,
        /// What the step was answered.
        is: String,
    },
    /// What the workers handed in wasn't gathered.
    NotGathered,
}

/// A new session of a profile over a catalog.
fn session(alloc: Global, profile: Profile, catalog: &Catalog) -> Option<JournaledState>
    ensures fresh { IfSome result (λ s. s.session.journal ≡ []) }
    ensures offers { IfSome result (λ s. s.session.setting.catalog ≡ offers_of catalog.now) }
{
    let listing = catalog.listing().share().ok()?;
    JournaledState::open(alloc, profile, listing).ok()
}

/// Keeps reports, so that answers find them.
fn keep_reports(journal: &mut Journal, reports: Vec<Report>) -> Result<(), AllocError>
    requires { journal.old.forgotten ≡ 0 }
    ensures { journal.new.forgotten ≡ 0 }
{
    for report in &reports {
        journal.reserve(1)?;
        journal.append(Entry::Report(report.copy()));
    }
    Ok(())
}

/// The text of the answer to a step.
fn answer<C: Detects + Drop, N: Naming, W: Board<Cell<N>> + Drop, R: Wait>(
    rt: &R,
    alloc: Global,
    shared: &Shared<C, N, W>,
    crew: &mut Crew<C, N>,
    journal: &mut Journal,
    step: Step,
) -> Result<String, AllocError>
    requires { journal.old.forgotten ≡ 0 }
    ensures { journal.new.forgotten ≡ 0 }
{
    let answer = crew.step(rt, alloc, shared, step);
    keep_reports(journal, crew.collect(rt, shared)?)?;
    text_of(alloc, journal, crew.generation(), &answer)
}

/// The step of a line, if it is one: not a line at fault, and not one that shows what a session holds.
fn step_of(alloc: Global, line: &str) -> Result<Option<Step>, AllocError> {
    match read_line(alloc, line) {
        Ok(Line::Step(step)) => Ok(Some(step)),
        Err(LineFault::NoMemory) => Err(AllocError),
        _ => Ok(None),
    }
}

/// Plays the steps of a script as long as each is answered as is due: how many there are, or the first that is answered
/// otherwise.
fn play_steps<C: Detects + Drop, N: Naming, W: Board<Cell<N>> + Drop, R: Wait>(
    rt: &R,
    alloc: Global,
    shared: &Shared<C, N, W>,
    crew: &mut Crew<C, N>,
    worked: &Worked,
) -> Result<Played, AllocError> {
    let mut journal = Journal::new(alloc);
    let mut answers = worked.answers.as_str().lines();
    let mut steps: u64 = 0;
    let mut number: u64 = 0;
    for line in worked.script.as_str().lines() {
        if line.trim().is_empty() {
            continue;
        }
        let wanted = answers.next().unwrap_or("");
        number = number.saturating_add(1);
        if let Some(step) = step_of(alloc, line)? {
            let text = answer(rt, alloc, shared, crew, &mut journal, step)?;
            if text.as_str() != wanted {
                return Ok(Played::Differs {
                    answer: number,
                    is: text,
                });
            }
            steps = steps.saturating_add(1);
        }
    }
    Ok(Played::Same { steps, rows: 0 })
}

/// Plays the steps of a script to their end, at which all workers leave and what they handed in is gathered.
fn play_to_the_end<C: Detects + Drop, N: Naming, W: Board<Cell<N>> + Drop, R: Wait>(
    rt: &R,
    alloc: Global,
    shared: Shared<C, N, W>,
    crew: Crew<C, N>,
    worked: &Worked,
) -> Result<Played, AllocError> {
    let mut crew = crew;
    let played = play_steps(rt, alloc, &shared, &mut crew, worked)?;
    let Played::Same { steps, .. } = played else {
        return Ok(played);
    };
    let (desk, left) = crew.end(rt, &shared);
    match shared.gather(rt, desk, left) {
        Ok(totals) => Ok(Played::Same {
            steps,
            rows: totals.rows,
        }),
        Err(_) => Ok(Played::NotGathered),
    }
}

/// The session behind its lock, under a name of its own. The texts come in a struct: rattle picks no name at a call
/// that passes a `&str`.
fn behind_its_lock<C: Detects + Drop, N: Naming, R: Wait>(
    rt: &R,
    alloc: Global,
    catalog: Arc<C>,
    opening: Opening,
    worked: &Worked,
) -> Result<Played, AllocError>
    requires named { GoesBy N.ledger N.setting N.first N.book N.root
        opening.session.session opening.opened opening.blanks }
    requires fresh { opening.session.session.journal ≡ [] }
    requires offers { C.offers (arc_value catalog) ≡ opening.session.session.setting.catalog }
{
    match Shared::<C, N, _>::open(rt, alloc, catalog, opening) {
        Ok((shared, desk)) => {
            let crew = Crew::new(alloc, desk)?;
            play_to_the_end(rt, alloc, shared, crew, worked)
        }
        Err(_) => Err(AllocError),
    }
}

/// Makes the steps of a script behind a lock, on a session of this profile, and compares the answers with those that
/// are due.
pub fn play<R: Wait>(
    rt: &R,
    alloc: Global,
    catalog: Arc<Catalog>,
    profile: Profile,
    worked: &Worked,
) -> Result<Played, AllocError> {
    let Some(session) = session(alloc, profile, &*catalog) else {
        return Err(AllocError);
    };
    let Ok(opened) = open_history(&session) else {
        return Err(AllocError);
    };
    let opening = Opening {
        session,
        opened,
        blanks: Blanks::new(),
        places: PLACES,
    };
    behind_its_lock::<Catalog, Brand, _>(rt, alloc, catalog, opening, worked)
}
