//! Opens a session by the text of a profile, and answers lines as a script does.
//!
//! Its libraries: `pcef_built_in`, `pcef_script`, `pcef_profile`, `pcef_line`, `pcef_world`, `pcef_model`,
//! `pcef_catalog`.

ghost use Rattle.std.specs.Prelude.{◌≡◌, IfSome, Ok};
ghost use Rattle.pcef_model.specs.ProfileModel.{ProfileModel, setting_of};
ghost use Rattle.pcef_profile.specs.ProfileOf.{GivesProfile, ProfileOf};
ghost use Rattle.pcef_script.specs.LoneLines.{AnswersAlone};
ghost use Rattle.pcef_world.specs.Worlds.{IsOpenedWorld};

use pcef_built_in::ShapedCatalog;
use pcef_catalog::Offers;
use pcef_line::LineReader;
use pcef_profile::read_profile;
use pcef_script::{LineAnswer, answer_alone};
use pcef_world::WorldState;
use std::alloc::Global;
use std::io;

/// The session's user equipment, and what the network grants it.
const PROFILE: &str = "ue = '10.0.0.2'\nrows = 1000\ncommands = 1000\n\
    default = { qci = 9, level = 8, capability = false, vulnerability = true }\n\
    capacity = { up = 1000000, down = 2000000 }\n";

/// A predefined rule is activated; a worker attaches, takes a packet of a name server and flushes; the last line's word
/// is unknown.
const LINES: [&str; 5] = [
    "{\"do\":\"activate\",\"name\":\"pre-dns\"}",
    "{\"do\":\"attach\"}",
    "{\"do\":\"take\",\"worker\":0,\"dir\":\"down\",\
    \"packet\":\"4500001c0000000040110000c63364070a0000020035138800080000\"}",
    "{\"do\":\"flush\",\"worker\":0}",
    "{\"do\":\"fly\"}",
];

/// The session of a profile's text, over the predefined rules.
fn session(alloc: Global, catalog: &ShapedCatalog, text: &str) -> Option<WorldState>
    // What is proved of it: what is fixed for the session is what the text says. No worker is there, and the journal is
    // empty.
    ensures opened { IfSome result (λ w. (p : ProfileModel) × GivesProfile (Ok p) (ProfileOf text.now)
        × IsOpenedWorld (setting_of p catalog.now) w) }
    ensures offered { IfSome result (λ w. catalog.now ≡ w.session.setting.catalog) }
{
    let Ok(profile) = read_profile(alloc, text) else {
        return None;
    };
    let Ok(listing) = catalog.listing().share() else {
        return None;
    };
    match WorldState::open(alloc, profile, listing) {
        Ok(world) => Some(world),
        Err(_) => None,
    }
}

/// The answer to a line.
fn answer_line(
    alloc: Global,
    catalog: &ShapedCatalog,
    world: &mut WorldState,
    lines: &mut LineReader,
    line: &str,
) -> Option<LineAnswer>
    requires { catalog.now ≡ world.old.session.setting.catalog }
    // What is proved of it: the answer is that of a script, and the session stands as after that line.
    ensures answer { IfSome result (λ a. AnswersAlone line.now world.old (Some a) world.new) }
    ensures setting { world.new.session.setting ≡ world.old.session.setting }
{
    // The answers so far held the reports. A session keeps them all until it is asked to forget them.
    world.forget();
    answer_alone(alloc, catalog, world, lines, line.as_bytes()).ok()?
}

/// Opens a session, and prints the answer to each line.
pub fn run(rt: &HostRuntime) -> io::Result<()> {
    let alloc = rt.alloc();
    let Ok(catalog) = ShapedCatalog::built_in(alloc) else {
        return println!(rt; "no memory for the predefined rules");
    };
    let Some(mut world) = session(alloc, &catalog, PROFILE) else {
        return println!(rt; "no session has this profile");
    };
    let mut lines = LineReader::new(alloc);
    for line in LINES {
        match answer_line(alloc, &catalog, &mut world, &mut lines, line) {
            Some(answer) => println!(rt; "{}", answer.text)?,
            None => println!(rt; "no answer")?,
        }
    }
    Ok(())
}
