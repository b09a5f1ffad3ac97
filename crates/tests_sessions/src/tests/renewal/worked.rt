//! What the tests share: a session that takes lines, and a list of commands in few words.

ghost use Rattle.std.specs.Prelude.{◌≡◌, IfOk};

use pcef_built_in::ShapedCatalog;
use pcef_catalog::Offers;
use pcef_line::{Line, read_line};
use pcef_model::{Command, Level, Step};
use pcef_profile::read_profile;
use pcef_session::SessionState;
use pcef_world::WorldState;
use std::alloc::Global;
use std::test::Fail;

/// A profile whose default bearer has QCI 9, and which takes twenty commands.
const PROFILE: &str =
    "ue = \"10.0.0.2\"\nrows = 1000\ncommands = 20\n\n[default]\nqci = 9\nlevel = 8\ncapability = false\nvulnerability = true\n\n[capacity]\nup = 1000000\ndown = 2000000\n";

/// A session and its workers on the built-in catalog, before the first step.
pub(crate) fn opened_world(alloc: Global, catalog: &ShapedCatalog) -> Result<WorldState, Fail>
    ensures { IfOk result (λ w. w.session.setting.catalog ≡ catalog.now) }
{
    let profile = read_profile(alloc, PROFILE)?;
    let listing = catalog.listing().share()?;
    let world = WorldState::open(alloc, profile, listing)?;
    Ok(world)
}

/// A session on the built-in catalog, before its first command.
pub(crate) fn opened(alloc: Global, catalog: &ShapedCatalog) -> Result<SessionState, Fail> {
    let profile = read_profile(alloc, PROFILE)?;
    let listing = catalog.listing().share()?;
    let session = SessionState::open(alloc, profile, listing)?;
    Ok(session)
}

/// The line that installs a rule for all packets, with this QCI, this priority level and this key.
pub(crate) fn install(
    alloc: Global,
    name: &str,
    qci: u8,
    level: u8,
    key: &str,
) -> Result<String, Fail> {
    let filters = "[{\"text\":\"permit out ip from any to any\",\"flow\":\"bidirectional\"}]";
    let arp = format!(in alloc;
        "{{\"level\":{level},\"capability\":false,\"vulnerability\":false}}"
    )?;
    let key = if key.is_empty() {
        String::new(alloc)
    } else {
        format!(in alloc; ",\"key\":\"{key}\"")?
    };
    Ok(format!(in alloc;
        "{{\"do\":\"install\",\"rule\":{{\"name\":\"{name}\",\"precedence\":100,\"filters\":{filters},\"qci\":{qci},\"arp\":{arp},\"gate\":\"ENABLED\"{key}}}}}"
    )?)
}

/// The step that a line asks for.
fn step_of(alloc: Global, line: &str) -> Result<Step, Fail> {
    match read_line(alloc, line)? {
        Line::Step(step) => Ok(step),
        Line::Show => Err(Fail::new("no step")),
    }
}

/// The command that a line gives.
fn command_of(alloc: Global, line: &str) -> Result<Command, Fail> {
    match step_of(alloc, line)? {
        Step::Command(command) => Ok(command),
        _ => Err(Fail::new("no command")),
    }
}

/// Makes the step that a line asks for.
fn make(
    alloc: Global,
    world: &mut WorldState,
    catalog: &ShapedCatalog,
    line: &str,
) -> Result<(), Fail>
    requires { world.old.session.setting.catalog ≡ catalog.now }
    ensures { world.new.session.setting ≡ world.old.session.setting }
{
    let step = match step_of(alloc, line) {
        Ok(step) => step,
        Err(fail) => return Err(fail),
    };
    match world.step(catalog, step) {
        Ok(_) => Ok(()),
        Err(_) => Err(Fail::new("no memory")),
    }
}

/// Makes the steps that lines ask for, one after another.
pub(crate) fn make_all(
    alloc: Global,
    world: &mut WorldState,
    catalog: &ShapedCatalog,
    lines: &[&str],
) -> Result<(), Fail>
    requires { world.old.session.setting.catalog ≡ catalog.now }
    ensures { world.new.session.setting ≡ world.old.session.setting }
{
    for line in lines {
        make(alloc, world, catalog, *line)?;
    }
    Ok(())
}

/// Does what a line says.
fn take(alloc: Global, session: &mut SessionState, line: &str) -> Result<(), Fail> {
    let command = match command_of(alloc, line) {
        Ok(command) => command,
        Err(fail) => return Err(fail),
    };
    match session.command(command) {
        Ok(_) => Ok(()),
        Err(_) => Err(Fail::new("refused")),
    }
}

/// Does what lines say, one after another.
pub(crate) fn take_all(
    alloc: Global,
    session: &mut SessionState,
    lines: &[&str],
) -> Result<(), Fail> {
    for line in lines {
        take(alloc, session, *line)?;
    }
    Ok(())
}

/// A level in one word.
fn word_of(level: Level) -> &'static str {
    match level {
        Level::Rule => "rule",
        Level::Session => "session",
    }
}

/// A command of a renewal in few words.
fn words_of(alloc: Global, command: &Command) -> Result<String, Fail> {
    Ok(match command {
        Command::Monitor { key, grant, level } => {
            let level = word_of(*level);
            format!(in alloc; "monitor {key} {grant} {level}")?
        }
        Command::Triggers(set) => {
            let usage = set.usage_report;
            format!(in alloc; "triggers {usage}")?
        }
        Command::Install(rule) => {
            let name = &rule.properties().name;
            format!(in alloc; "install {name}")?
        }
        Command::Activate(name) => format!(in alloc; "activate {name}")?,
        Command::Close => format!(in alloc; "close")?,
        _ => format!(in alloc; "another")?,
    })
}

/// Commands in few words, each ended by a semicolon.
pub(crate) fn text_of(alloc: Global, list: &[Command]) -> Result<String, Fail> {
    let mut text = String::new(alloc);
    for command in list {
        text.push_str(&words_of(alloc, command)?)?;
        text.push_str("; ")?;
    }
    Ok(text)
}
