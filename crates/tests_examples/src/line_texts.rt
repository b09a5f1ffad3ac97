//! Short texts of what lines are read as.

use crate::addresses::write_address;
use pcef_line::{Line, LineFault};
use pcef_model::{Command, Level, Step};
use pcef_packet::Header;
use std::alloc::{AllocError, Global};
use std::fmt::Write;

fn write_command(text: &mut String, command: &Command) -> Result<(), AllocError> {
    match command {
        Command::Install(rule) => {
            let count = rule.filters().len();
            write!(text, "install with {count} filters {:?}", rule.properties())
        }
        Command::Activate(name) => write!(text, "activate {name}"),
        Command::Remove(name) => write!(text, "remove {name}"),
        Command::Monitor { key, grant, level } => {
            write!(text, "monitor {key} with {grant}")?;
            match level {
                Level::Rule => Ok(()),
                Level::Session => text.push_str(" for the session"),
            }
        }
        Command::Stop(key) => write!(text, "stop {key}"),
        Command::ReportNow(key) => write!(text, "report {key}"),
        Command::Triggers(set) => write!(text, "{set:?}"),
        Command::Notice { kind, value } => write!(text, "notice {kind:?} {value}"),
        Command::LoseBearer(bearer) => write!(text, "lose {}", bearer.0),
        Command::Close => text.push_str("close"),
        Command::Terminate => text.push_str("terminate"),
    }
}

fn write_take(text: &mut String, worker: u8, header: &Header) -> Result<(), AllocError> {
    write!(text, "take by worker {worker} {:?} from ", header.dir)?;
    write_address(text, header.src)?;
    text.push_str(" to ")?;
    write_address(text, header.dst)?;
    write!(
        text,
        " protocol {} {:?} octets {} DSCP {}",
        header.proto, header.ports, header.octets, header.dscp
    )
}

fn write_step(text: &mut String, step: &Step) -> Result<(), AllocError> {
    match step {
        Step::Command(command) => write_command(text, command),
        Step::Attach => text.push_str("attach"),
        Step::Take { worker, header } => write_take(text, *worker, header),
        Step::Refresh { worker } => write!(text, "refresh by worker {worker}"),
        Step::Flush { worker } => write!(text, "flush by worker {worker}"),
        Step::Finish { worker } => write!(text, "finish by worker {worker}"),
        Step::Abandon { worker } => write!(text, "abandon by worker {worker}"),
    }
}

/// A fault by its number and its name, with its field and the number of the inner fault where it has them.
fn write_fault(text: &mut String, fault: LineFault) -> Result<(), AllocError> {
    let (number, name) = (fault.number(), fault.name());
    match (fault.field(), fault.code()) {
        (Some(field), Some(code)) => {
            write!(
                text,
                "fault {number} {name} {} {code}: {fault}",
                field.text()
            )
        }
        (Some(field), None) => write!(text, "fault {number} {name} {}: {fault}", field.text()),
        (None, _) => write!(text, "fault {number} {name}: {fault}"),
    }
}

/// Writes what a line says, or its fault.
pub fn write_script_line(
    text: &mut String,
    line: &Result<Line, LineFault>,
) -> Result<(), AllocError> {
    match line {
        Ok(Line::Step(step)) => write_step(text, step),
        Ok(Line::Show) => text.push_str("show"),
        Err(fault) => write_fault(text, *fault),
    }
}

/// What a line says, or its fault.
pub fn line_text(alloc: Global, line: &Result<Line, LineFault>) -> Result<String, AllocError> {
    let mut text = String::new(alloc);
    write_script_line(&mut text, line)?;
    Ok(text)
}
