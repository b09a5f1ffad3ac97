//! The sessions that are asked for, each with its profile.

use crate::asked::GX;
use crate::command_line::{print_profile_fault, print_read_fault};
use crate::gx::end::{End, Stop};
use crate::gx::member::Member;
use crate::gx::members::Members;
use crate::gx::options::{Options, Sessions};
use pcef_explain::read_text;
use pcef_gx_handle::{BeginRefusal, GxHandle};
use pcef_gx_messages::Identity;
use pcef_gx_node::Access;
use pcef_handle::{Handle, OpenRefusal};
use pcef_model::OpenFault;
use pcef_profile::ReadProfileFault;
use std::io::{self, ErrorKind};
use std::{fs, str};

/// What says of a name that it is too long.
const TOO_LONG: &str = "a name has more than 1024 octets";

/// Reports why a file can't be read.
fn report_read<'a>(rt: &HostRuntime, file: &str, error: &io::Error) -> End<'a> {
    if error.kind() == ErrorKind::OutOfMemory {
        return End::Stopped(Stop::NoMemory);
    }
    print_read_fault(rt, GX, file, error);
    End::Unread
}

/// Prints why no session can have a profile.
fn report_profile<'a>(rt: &HostRuntime, file: &str, text: &[u8], refusal: OpenRefusal) -> End<'a> {
    match refusal {
        OpenRefusal::NoMemory
        | OpenRefusal::Profile(ReadProfileFault::NoMemory)
        | OpenRefusal::Session(OpenFault::NoMemory) => return End::Stopped(Stop::NoMemory),
        OpenRefusal::Profile(fault) => match str::from_utf8(text) {
            Ok(text) => print_profile_fault(rt, GX, file, text, fault),
            Err(_) => {
                let number = fault.number();
                let _ = eprintln!(rt; "profile fault {number}");
            }
        },
        refusal => {
            let _ = eprintln!(rt; "profile fault\npcef gx: {file}: {refusal}");
        }
    }
    End::Profile
}

/// Who speaks of a session, where no name is too long.
fn identity_of<'a>(options: Options<'a>, session_id: &'a str) -> Option<Identity<'a>> {
    Identity::new(
        session_id.as_bytes(),
        options.origin_host.as_bytes(),
        options.origin_realm.as_bytes(),
        options.destination_realm.as_bytes(),
    )
}

/// What each first CCR tells beside its session.
fn access_of<'a>(options: Options<'a>) -> Option<Access<'a>> {
    let host = options.destination_host.map(|text| text.as_bytes());
    let apn = options.apn.map(|text| text.as_bytes());
    let imsi = options.subscriber.map(|text| text.as_bytes());
    Access::new(host, apn, imsi)
}

/// Begins the dialogue of a session that is to have the profile of a file.
fn begin<'a>(
    rt: &HostRuntime,
    options: Options<'a>,
    session_id: &str,
    file: &str,
    others: &[u8],
) -> Result<Member, End<'a>> {
    let Some(identity) = identity_of(options, session_id) else {
        return Err(End::Words(TOO_LONG));
    };
    let text = match fs::read(rt, file) {
        Ok(text) => text,
        Err(error) => return Err(report_read(rt, file, &error)),
    };
    let mut gx = GxHandle::new(rt.alloc());
    match gx.open(&text, &identity, others) {
        Ok(()) => {}
        Err(BeginRefusal::Profile(refusal)) => {
            return Err(report_profile(rt, file, &text, refusal));
        }
        Err(_) => return Err(End::Stopped(Stop::NoMemory)),
    }
    match Vec::from_slice(rt.alloc(), session_id.as_bytes()) {
        Ok(session_id) => Ok(Member::new(session_id, gx, Handle::new(rt.alloc()))),
        Err(_) => Err(End::Stopped(Stop::NoMemory)),
    }
}

/// Puts a session behind others.
fn add<'a>(all: &mut Vec<Member>, member: Member) -> Result<(), End<'a>> {
    match all.push(member) {
        Ok(()) => Ok(()),
        Err(_) => Err(End::Stopped(Stop::NoMemory)),
    }
}

/// Reports a line of a file that names no session.
fn report_line<'a>(rt: &HostRuntime, file: &str, line: usize, why: &str) -> End<'a> {
    let _ = eprintln!(rt; "line {line} fault\npcef gx: {file}: {why}");
    End::Profile
}

/// The sessions of a text, each in a line: a Session-Id, a space and the path of a profile.
fn listed<'a>(
    rt: &HostRuntime,
    options: Options<'a>,
    file: &str,
    text: &str,
    others: &[u8],
) -> Result<Vec<Member>, End<'a>> {
    let mut all: Vec<Member> = Vec::new(rt.alloc());
    for (before, line) in text.lines().enumerate() {
        let number = before.saturating_add(1);
        let Some((session_id, profile)) = line.split_once(' ') else {
            let why = "a Session-Id, a space and the path of a profile are expected";
            return Err(report_line(rt, file, number, why));
        };
        if all.iter().any(|member| member.is(session_id.as_bytes())) {
            let why = "the Session-Id stands in an earlier line";
            return Err(report_line(rt, file, number, why));
        }
        let member = begin(rt, options, session_id, profile, others)?;
        add(&mut all, member)?;
    }
    Ok(all)
}

/// Begins the dialogue of each session that is asked for.
pub(crate) fn members_of<'a>(rt: &HostRuntime, options: Options<'a>) -> Result<Members, End<'a>> {
    let Some(access) = access_of(options) else {
        return Err(End::Words(TOO_LONG));
    };
    let Ok(others) = access.avps(rt.alloc()) else {
        return Err(End::Stopped(Stop::NoMemory));
    };
    let all = match options.sessions {
        Sessions::One(session_id, profile) => {
            let member = begin(rt, options, session_id, profile, &others)?;
            let mut all = Vec::new(rt.alloc());
            add(&mut all, member)?;
            all
        }
        Sessions::Listed(file) => match read_text(rt, file) {
            Ok(text) => listed(rt, options, file, text.as_str(), &others)?,
            Err(error) => return Err(report_read(rt, file, &error)),
        },
    };
    if all.is_empty() {
        return Err(End::Words("--sessions names no session"));
    }
    Ok(Members::new(rt.alloc(), all))
}
