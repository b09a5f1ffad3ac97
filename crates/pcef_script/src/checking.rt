//! Finds the lines of a script that aren't done.

ghost use Rattle.std.specs.Prelude.{◌≡◌, ◌++◌, IfErr, IfOk, OnOk};
ghost use Rattle.pcef_model.specs.ProfileModel.{setting_of};
ghost use Rattle.pcef_world.specs.Worlds.{IsOpenedWorld};
ghost use Rattle.pcef_script.specs.Scripts.{all_lines};
ghost use Rattle.pcef_script.specs.Findings.{CantOpen, FindsAll, as_list};
ghost use Rattle.pcef_script.specs.private.Playing.{PlaysLines};

use crate::find_fault::FindFault;
use crate::finding::Finding;
use crate::lines::first_line;
use crate::playing::play;
use pcef_catalog::{Detects, Offers};
use pcef_line::LineReader;
use pcef_model::{OpenFault, Profile};
use pcef_world::WorldState;
use std::alloc::{AllocError, Global};

fn open<C: Offers>(alloc: Global, profile: Profile, catalog: &C) -> Result<WorldState, FindFault>
    ensures made { IfOk result (IsOpenedWorld (setting_of profile (C.offers catalog.now))) }
    ensures fault { IfErr result (CantOpen (setting_of profile (C.offers catalog.now))) }
{
    let Ok(listing) = catalog.listing().share() else {
        return Err(FindFault::NoMemory);
    };
    match WorldState::open(alloc, profile, listing) {
        Ok(world) => Ok(world),
        Err(OpenFault::NoMemory) => Err(FindFault::NoMemory),
        Err(fault) => Err(FindFault::Profile(fault)),
    }
}

fn push(found: &mut Vec<Finding>, next: Option<Finding>) -> Result<(), AllocError>
    ensures { OnOk result (found.new.items ≡ found.old.items ++ as_list next) }
{
    if let Some(next) = next {
        found.push(next)?;
    }
    Ok(())
}

fn find_in<C: Detects>(
    alloc: Global,
    catalog: &C,
    mut world: WorldState,
    input: &[u8],
) -> Result<Vec<Finding>, AllocError>
    requires { C.offers catalog.now ≡ world.session.setting.catalog }
    ensures { IfOk result (λ found. PlaysLines world (all_lines input.now) found.items) }
{
    let mut found = Vec::new(alloc);
    let mut lines = LineReader::new(alloc);
    let mut number = 0u64;
    let mut rest = input;
    loop {
        let (line, later) = first_line(rest);
        number += 1;
        let next = play(alloc, catalog, &mut world, &mut lines, number, line)?;
        push(&mut found, next)?;
        match later {
            Some(later) => rest = later,
            None => return Ok(found),
        }
    }
}

/// Opens a session of a profile and plays the lines of an input on it, as a script does. Returns those that it answers
/// by a fault or a refusal, in order, each with its number and answer. A line feed ends a line, and so does the end of
/// the input. Takes memory for the session, for one line, and for the findings.
///
/// An `Err` is a fault of the profile, before any line, or out of memory.
pub fn find<C: Detects>(
    alloc: Global,
    profile: Profile,
    catalog: &C,
    input: &[u8],
) -> Result<Vec<Finding>, FindFault>
    ensures found { IfOk result (λ found.
        FindsAll (setting_of profile (C.offers catalog.now)) (all_lines input.now) found.items) }
    ensures fault { IfErr result (CantOpen (setting_of profile (C.offers catalog.now))) }
{
    let world = open(alloc, profile, catalog)?;
    match find_in(alloc, catalog, world, input) {
        Ok(found) => Ok(found),
        Err(_) => Err(FindFault::NoMemory),
    }
}
