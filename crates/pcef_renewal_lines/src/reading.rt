//! Whether a line reads as its command.

ghost use Rattle.std.specs.Prelude.{◌≡◌, ◌≢◌, ◌↔◌, IfOk, IsTrue, false, true};
ghost use Rattle.pcef_line.specs.LineOf.{of_command};
ghost use Rattle.pcef_model.specs.declared.command.Command.TheVariants as of;
ghost use Rattle.pcef_renewal_lines.specs.Commands.{SaysCommand, has_line};

use pcef_line::{Line, LineFault, read_line};
use pcef_model::{Command, Level, Step, TriggerSet};
use pcef_rule::{KeyName, Rule, RuleName};
use std::alloc::{AllocError, Global};

fn is_install(read: &Command, rule: &Rule) -> bool
    ensures { IsTrue result ↔ (read.now ≡ of.Install rule.now) }
{
    match read {
        Command::Install(other) => other.is_equal(rule),
        _ => false,
    }
}

fn is_activate(read: &Command, name: &RuleName) -> bool
    ensures { IsTrue result ↔ (read.now ≡ of.Activate name.now) }
{
    match read {
        Command::Activate(other) => *other == *name,
        _ => false,
    }
}

fn is_monitor(read: &Command, key: &KeyName, grant: u64, level: Level) -> bool
    ensures { IsTrue result ↔ (read.now ≡ of.Monitor key.now grant level) }
{
    match read {
        Command::Monitor {
            key: other,
            grant: octets,
            level: of,
        } => *other == *key && *octets == grant && *of == level,
        _ => false,
    }
}

fn is_triggers(read: &Command, set: TriggerSet) -> bool
    ensures { IsTrue result ↔ (read.now ≡ of.Triggers set) }
{
    match read {
        Command::Triggers(other) => *other == set,
        _ => false,
    }
}

fn is_close(read: &Command) -> bool
    ensures { IsTrue result ↔ (read.now ≡ of.Close) }
{
    match read {
        Command::Close => true,
        _ => false,
    }
}

/// Whether what was read is this command, which a renewal may have.
fn is_command(read: &Command, command: &Command) -> bool
    ensures { IsTrue result
        ↔ ((has_line command.now ≡ true) × (read.now ≡ command.now)) }
{
    match command {
        Command::Install(rule) => is_install(read, rule),
        Command::Activate(name) => is_activate(read, name),
        Command::Monitor { key, grant, level } => is_monitor(read, key, *grant, *level),
        Command::Triggers(set) => is_triggers(read, *set),
        Command::Close => is_close(read),
        _ => false,
    }
}

fn is_line_of(line: &Line, command: &Command) -> bool
    ensures { IsTrue result
        ↔ ((has_line command.now ≡ true) × (line.now ≡ of_command command.now)) }
{
    match line {
        Line::Step(Step::Command(read)) => is_command(read, command),
        _ => false,
    }
}

/// A text with a fault reads as no command. Fails where the fault is want of memory.
fn reads_nothing(fault: LineFault) -> Result<bool, AllocError>
    ensures { IfOk result (λ b. (b ≡ false) × (fault ≢ LineFault.NoMemory)) }
{
    match fault {
        LineFault::NoMemory => Err(AllocError),
        _ => Ok(false),
    }
}

/// Whether a text reads as this command. Takes memory for the line.
pub(crate) fn reads_as(alloc: Global, text: &str, command: &Command) -> Result<bool, AllocError>
    ensures { IfOk result (λ b. IsTrue b ↔ SaysCommand text.now command.now) }
{
    match read_line(alloc, text) {
        Ok(line) => Ok(is_line_of(&line, command)),
        Err(fault) => reads_nothing(fault),
    }
}
