//! Commands that are given while packets come, and their answers.

use super::*;
use crate::tests::expect_equal;
use pcef_model::{Accepted, Level, Refusal};
use pcef_rule::{BearerId, RuleName};
use pcef_worker::OpenGate;

/// Two commands that are refused; a rule is installed, its key is reported, and the session is closed, so that no rule
/// can be removed.
fn commands(alloc: Global) -> Result<Vec<Command>, Fail> {
    let zero = Command::Monitor {
        key: vid()?,
        grant: 0,
        level: Level::Rule,
    };
    Ok(vec![in alloc;
        Command::Remove(RuleName::new("nope")?),
        zero,
        Command::Install(web(alloc)?),
        Command::ReportNow(vid()?),
        Command::Close,
        Command::Remove(RuleName::new("web")?),
    ]?)
}

/// An answer with the generation, the bearer and the reports, from the first to past the last.
fn answer(generation: u32, bearer: Option<BearerId>, reports: (u64, u64)) -> Accepted {
    Accepted {
        generation,
        bearer,
        first_report: reports.0,
        past_last_report: reports.1,
        unchanged: false,
    }
}

/// Whether the answers are those that are due.
fn are_due(ended: &Ended) -> bool {
    let due = [
        Err(Refusal::UnknownRule),
        Err(Refusal::ZeroGrant),
        Ok(answer(1, Some(BearerId(5)), (0, 0))),
        Ok(answer(1, None, (0, 1))),
        Ok(answer(2, None, (1, 1))),
        Err(Refusal::Closed),
    ];
    ended.answers.as_slice() == due.as_slice()
}

#[test]
fn an_answer_among_the_packets_is_whole(rt: HostRuntime) -> Result<(), Fail> {
    let alloc = rt.alloc();
    let load = Workload {
        arrivals: packets(alloc, 50, 1)?,
        commands: commands(alloc)?,
        workers: 1,
    };
    let session = session(alloc, 1000)?;
    let ended = run(&rt, alloc, session, load, &OpenGate)??;
    expect_equal(&rt, &are_due(&ended), &true);
    Ok(())
}
