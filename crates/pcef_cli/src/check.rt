//! `pcef check`, which reports the lines of a script that `pcef script` would answer by a fault or a refusal, and why.
//!
//! `pcef check PROFILE [LINES]` plays the lines on a session of the profile and its own, with the built-in catalog.
mod advice;
mod end;
mod options;
mod writing;

ghost use Rattle.std.specs.Prelude.{◌≤◌};

use crate::asked::{CHECK, Call};
use crate::check::end::End;
use crate::check::options::{Options, parse_options};
use crate::check::writing::write_findings;
use crate::command_line::{
    gather, or_no_memory, print_read_fault, print_write_fault, refuse, refuse_usage,
    report_no_memory,
};
use pcef_base::Fused;
use pcef_built_in::ShapedCatalog;
use pcef_explain::read_text;
use pcef_model::Profile;
use pcef_profile::{ReadProfileFault, explain, read_profile};
use pcef_script::{FindFault, Finding, find};
use std::fs;
use std::io::{self, BufWriter, ErrorKind, Read, Write};

/// The most bytes of a script.
const MAX_SCRIPT: usize = 1_073_741_824;

/// The bytes of a file, or of standard input.
fn read(rt: &HostRuntime, path: &str) -> io::Result<Vec<u8>> {
    if path != "-" {
        return fs::read(rt, path);
    }
    let mut bytes = Vec::new(rt.alloc());
    rt.stdin().read_to_end(&mut bytes)?;
    Ok(bytes)
}

/// Writes what was found in lines.
fn write(
    rt: &HostRuntime,
    catalog: &ShapedCatalog,
    file: &str,
    input: &[u8],
    findings: &[Finding],
) -> io::Result<()> {
    let mut writer = BufWriter::new(rt.alloc(), Fused::new(io::writer(rt)))?;
    write_findings(rt.alloc(), &mut writer, catalog, file, input, findings)?;
    writer.flush()
}

/// Finds and writes what is wrong in lines.
fn check_lines<'a>(
    rt: &HostRuntime,
    catalog: &ShapedCatalog,
    profile: Profile,
    file: &'a str,
) -> End<'a> {
    let name = if file == "-" { "Standard input" } else { file };
    let input = match read(rt, file) {
        Ok(input) => input,
        Err(error) => return or_no_memory(error, End::NoMemory, End::Read(name, error)),
    };
    if input.len() > MAX_SCRIPT {
        let message = "there are more than 1073741824 bytes";
        return End::Read(name, io::Error::new(ErrorKind::InvalidData, message));
    }
    let findings = match find(rt.alloc(), profile, catalog, &input) {
        Ok(findings) => findings,
        Err(_) => return End::NoMemory,
    };
    match write(rt, catalog, file, &input, &findings) {
        Ok(()) if findings.is_empty() => End::Clean,
        Ok(()) => End::Found,
        Err(error) => or_no_memory(error, End::NoMemory, End::Write(error)),
    }
}

/// Prints the fault of a profile.
fn print_profile_fault(
    rt: &HostRuntime,
    file: &str,
    text: &str,
    fault: ReadProfileFault,
) -> io::Result<()> {
    let number = fault.number();
    let explanation = explain(rt.alloc(), text, fault)?;
    println!(rt; "{file}: profile fault {number} {explanation}")
}

/// Finds and writes what is wrong in a profile, and then in lines.
fn check<'a>(rt: &HostRuntime, catalog: &ShapedCatalog, options: Options<'a>) -> End<'a> {
    let text = match read_text(rt, options.profile) {
        Ok(text) => text,
        Err(error) => return or_no_memory(error, End::NoMemory, End::Read(options.profile, error)),
    };
    let profile = match read_profile(rt.alloc(), text.as_str()) {
        Ok(profile) => profile,
        Err(ReadProfileFault::NoMemory) => return End::NoMemory,
        Err(fault) => {
            return match print_profile_fault(rt, options.profile, text.as_str(), fault) {
                Ok(()) => End::Found,
                Err(error) => or_no_memory(error, End::NoMemory, End::Write(error)),
            };
        }
    };
    match options.lines {
        Some(lines) => check_lines(rt, catalog, profile, lines),
        None => End::Clean,
    }
}

/// Reports why the program ends early, and returns its exit status. A failing write changes nothing.
fn report_end(rt: &HostRuntime, end: &End<'_>) -> u8
    ensures { result ≤ 4 }
{
    match end {
        End::Clean | End::Found => {}
        End::NoMemory => {
            let _ = report_no_memory(rt);
        }
        End::Read(file, error) => print_read_fault(rt, CHECK, file, error),
        End::Write(error) => print_write_fault(rt, CHECK, "standard output", error),
    }
    end.status()
}

/// Does what the words ask for, and returns the exit status.
fn status_with(rt: &HostRuntime, catalog: &ShapedCatalog, call: Call) -> u8
    ensures { result ≤ 4 }
{
    let words = match gather(rt, call) {
        Ok(words) => words,
        Err(status) => return status,
    };
    match parse_options(rt.alloc(), words.as_slice()) {
        Ok(Some(options)) => report_end(rt, &check(rt, catalog, options)),
        Ok(None) => refuse_usage(rt, "an option has no value"),
        Err(error) => refuse(rt, CHECK, &error),
    }
}

/// Does what the words of a call ask for, and returns the exit status.
pub(crate) fn answer(rt: &HostRuntime, call: Call) -> u8
    ensures { result ≤ 4 }
{
    match ShapedCatalog::built_in(rt.alloc()) {
        Ok(catalog) => status_with(rt, &catalog, call),
        Err(_) => report_no_memory(rt),
    }
}
