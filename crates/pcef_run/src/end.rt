//! How the program ends.

ghost use Rattle.std.specs.Prelude.{◌≡◌, Err, IfOk, string_bytes};
ghost use Rattle.pcef_run.specs.declared.end.End.TheVariants.{Profile, Run};
ghost use Rattle.pcef_run.specs.Ends.{IsPlanEnd, end_status, end_text, line_reason, line_text, open_end, pool_end, pooled_end, profile_end, reason_front, run_end, script_end, unread_end};

use crate::fault::{PlanFault, RunEnd};
use crate::pool_end::PoolEnd;
use crate::pooled_fault::PooledFault;
use crate::unfit::FirstUnfit;
use pcef_gateway::RunFault;
use pcef_model::OpenFault;
use pcef_profile::ReadProfileFault;
use pcef_script::ScriptFault;
use pcef_share::PoolFault;
use std::alloc::{AllocError, Global};
use std::io::ErrorKind;

pub(crate) const USAGE: &str =
    "usage: pcef script PROFILE | pcef run PROFILE WORKERS | pcef pool UP DOWN PROFILE...\n";

pub(crate) const USAGE_NOTE: &str = "
  script PROFILE       opens a session by the file PROFILE, and answers each line of standard input with a
                       line on standard output, as soon as it can
  run PROFILE WORKERS  reads all commands and packets from standard input, spreads the packets over WORKERS threads,
                       1 to 16, and prints the totals
  pool UP DOWN PROFILE...
                       reads all lines of standard input, each the number of a session, from 0, a space and a
                       command; opens a session for each of 1 to 64 profiles on a pool of UP and DOWN guaranteed
                       bit/s, answers each command with a line, and prints what the pool has granted
  check ..             names each line of a script that is answered by a fault or a refusal, and why
  many ..              answers lines of many sessions, each behind its session's name
  capture ..           writes the packets of a capture as lines of a script, or of pcef many
  page ..              shows what a script and its answers say of a session: a page, CSV, or metrics
  gx ..                speaks of sessions with their PCRF on standard input and output
  help WORD            prints what a word takes, as WORD --help does
  --help, --version    prints this text, or the version

Example: pcef script examples/profile.toml < examples/tutorial.jsonl
Exit status: 0, 1 a profile or a line at fault, 2 usage, 3 want of memory, 4 a read, write or run fault
Documents: README.md, docs/TUTORIAL.md, docs/FORMATS.md
Version: 0.1; a build by `rt try` is not proved, one by `rt run` is, with rattle-kit-13f logic dac8208d650f15bf
";

const TOO_MUCH_NOTE: &str =
    "pcef: standard input has more than 1,073,741,824 bytes; the whole lines of a script within are answered\n";

/// How the program ends.
#[derive(Drop)]
pub enum End {
    /// Well.
    Done,
    /// A line is at fault.
    LinesAtFault,
    /// The arguments are wrong.
    Usage,
    /// The profile is at fault.
    Profile(ReadProfileFault),
    /// There is no memory left.
    NoMemory,
    /// The profile can't be read.
    NoProfile,
    /// Standard input can't be read.
    Read,
    /// Standard input has more than 1,073,741,824 bytes.
    TooMuch,
    /// What is due can't be written.
    Write,
    /// A line of the input of a run or of a pool doesn't fit: the first such line, and the text that names it.
    Line(FirstUnfit, String),
    /// The run failed.
    Run(RunFault),
}

impl End {
    /// The exit status.
    pub fn status(&self) -> u8
        ensures { result ≡ end_status self.now }
    {
        match self {
            End::Done => 0,
            End::LinesAtFault | End::Profile(_) | End::Line(_, _) => 1,
            End::Usage => 2,
            End::NoMemory => 3,
            End::NoProfile | End::Read | End::TooMuch | End::Write | End::Run(_) => 4,
        }
    }

    /// What is said of it: a line, or nothing.
    pub fn text(&self) -> &str
        ensures { result.now ≡ end_text self.now }
    {
        match self {
            End::Done | End::LinesAtFault => "",
            End::Usage => USAGE,
            End::Profile(fault) => profile_text(*fault),
            End::NoMemory => "want of memory\n",
            End::NoProfile | End::Read | End::TooMuch => "read fault\n",
            End::Write => "write fault\n",
            End::Line(_, text) => text.as_str(),
            End::Run(fault) => run_text(*fault),
        }
    }

    /// What is wrong with the line that doesn't fit: a line, or nothing of another end.
    pub fn reason(&self) -> &str
        ensures { result.now ≡ line_reason self.now }
    {
        match self {
            End::Line(first, _) => first.explanation.as_str(),
            _ => "",
        }
    }

    /// What stands before that: the program's name, or nothing of another end.
    pub fn reason_front(&self) -> &'static str
        ensures { result.now ≡ reason_front self.now }
    {
        match self {
            End::Line(_, _) => "pcef: ",
            _ => "",
        }
    }

    /// What a person needs to know of it, where that is always the same: lines, or nothing.
    pub(crate) fn note(&self) -> &'static str {
        match self {
            End::Done | End::LinesAtFault | End::Profile(_) | End::NoProfile | End::Write => "",
            End::Usage => USAGE_NOTE,
            End::NoMemory => "pcef: the lines of a script or of a pool before that are answered\n",
            End::Read =>
                "pcef: standard input fails; the whole lines of a script before that are answered\n",
            End::TooMuch => TOO_MUCH_NOTE,
            End::Line(_, _) => "pcef: nothing was run\n",
            End::Run(fault) => run_note(*fault),
        }
    }
}

fn run_text(fault: RunFault) -> &'static str
    ensures { result.now ≡ end_text (Run fault) }
{
    match fault {
        RunFault::Workers => "run fault 1\n",
        RunFault::StrangeWorker => "run fault 2\n",
        RunFault::Shared => "run fault 3\n",
        RunFault::Ring => "run fault 4\n",
        RunFault::Attach => "run fault 5\n",
        RunFault::Thread => "run fault 6\n",
        RunFault::Gather => "run fault 7\n",
        RunFault::NoMemory => "run fault 8\n",
    }
}

fn run_note(fault: RunFault) -> &'static str {
    match fault {
        RunFault::Workers => "pcef: there are one to sixteen workers\n",
        RunFault::StrangeWorker => "pcef: a packet names a worker that does not exist\n",
        RunFault::Shared => "pcef: the session could not be shared by the workers\n",
        RunFault::Ring => "pcef: there is no ring to a worker, or one failed\n",
        RunFault::Attach =>
            "pcef: a worker wasn't attached: the session was closed before the first packet\n",
        RunFault::Thread => "pcef: there is no thread for a worker\n",
        RunFault::Gather => "pcef: what was handed in does not agree with the journal\n",
        RunFault::NoMemory => "pcef: there is no memory left\n",
    }
}

fn profile_text(fault: ReadProfileFault) -> &'static str
    ensures { result.now ≡ end_text (Profile fault) }
{
    match fault {
        ReadProfileFault::NotToml => "profile fault 1\n",
        ReadProfileFault::UnknownKey => "profile fault 2\n",
        ReadProfileFault::Missing => "profile fault 3\n",
        ReadProfileFault::BadValue => "profile fault 4\n",
        ReadProfileFault::UnknownQci => "profile fault 5\n",
        ReadProfileFault::DefaultIsGbr => "profile fault 6\n",
        ReadProfileFault::NoMemory => "profile fault 7\n",
    }
}

/// The end of a program whose profile's file can't be read.
pub fn unread_end(kind: ErrorKind) -> End
    ensures { result ≡ unread_end kind }
{
    match kind {
        ErrorKind::OutOfMemory => End::NoMemory,
        _ => End::NoProfile,
    }
}

/// The end of a program whose profile has this fault.
pub fn profile_end(fault: ReadProfileFault) -> End
    ensures { result ≡ profile_end fault }
{
    match fault {
        ReadProfileFault::NoMemory => End::NoMemory,
        _ => End::Profile(fault),
    }
}

fn fault_end(fault: ScriptFault) -> End
    ensures { result ≡ script_end (Err fault) }
{
    match fault {
        ScriptFault::Read => End::Read,
        ScriptFault::TooMuch => End::TooMuch,
        ScriptFault::Write => End::Write,
        ScriptFault::Profile(OpenFault::UnknownQci) => End::Profile(ReadProfileFault::UnknownQci),
        ScriptFault::Profile(OpenFault::DefaultIsGbr) => End::Profile(
            ReadProfileFault::DefaultIsGbr,
        ),
        ScriptFault::Profile(OpenFault::NoMemory) | ScriptFault::NoMemory => End::NoMemory,
    }
}

/// The end of a program that ran a script, by the number of its lines at fault or by why it ended early.
pub fn script_end(ended: Result<u64, ScriptFault>) -> End
    ensures { result ≡ script_end ended }
{
    match ended {
        Ok(0) => End::Done,
        Ok(_) => End::LinesAtFault,
        Err(fault) => fault_end(fault),
    }
}

/// What is said of a line at fault.
fn line_text(alloc: Global, number: u64) -> Result<String, AllocError>
    ensures { IfOk result (λ text. string_bytes text ≡ line_text number) }
{
    format!(in alloc; "line {number} fault\n")
}

/// The end of a program that can't read the input of a run or of a pool.
pub fn plan_end(alloc: Global, fault: PlanFault) -> End
    ensures { IsPlanEnd fault result }
{
    match fault {
        PlanFault::Read => End::Read,
        PlanFault::TooMuch => End::TooMuch,
        PlanFault::NoMemory => End::NoMemory,
        PlanFault::Line(first) => match line_text(alloc, first.number) {
            Ok(text) => End::Line(first, text),
            Err(_) => End::NoMemory,
        },
    }
}

fn open_end(fault: OpenFault) -> End
    ensures { result ≡ open_end fault }
{
    match fault {
        OpenFault::UnknownQci => End::Profile(ReadProfileFault::UnknownQci),
        OpenFault::DefaultIsGbr => End::Profile(ReadProfileFault::DefaultIsGbr),
        OpenFault::NoMemory => End::NoMemory,
    }
}

/// The end of a program whose run failed.
pub fn run_end(end: RunEnd) -> End
    ensures { result ≡ run_end end }
{
    match end {
        RunEnd::Open(fault) => open_end(fault),
        RunEnd::Run(fault) => End::Run(fault),
        RunEnd::NoMemory => End::NoMemory,
    }
}

fn pooled_end(fault: PooledFault) -> End
    ensures { result ≡ pooled_end fault }
{
    match fault {
        PooledFault::Sessions | PooledFault::Pool(PoolFault::OutOfRange) => End::Usage,
        PooledFault::Session(_, fault) => open_end(fault),
        PooledFault::NoMemory => End::NoMemory,
    }
}

/// The end of a program whose sessions on a pool answered all orders, or why they didn't.
pub fn pool_end(ended: Result<(), PoolEnd>) -> End
    ensures { result ≡ pool_end ended }
{
    match ended {
        Ok(()) => End::Done,
        Err(PoolEnd::Open(fault)) => pooled_end(fault),
        Err(PoolEnd::Write) => End::Write,
        Err(PoolEnd::NoMemory) => End::NoMemory,
    }
}
