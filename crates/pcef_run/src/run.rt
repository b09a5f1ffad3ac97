//! Runs a plan.

ghost use Rattle.std.specs.Prelude.{◌≡◌, ◌≢◌, ℕ, IfErr, IfOk};
ghost use Rattle.std.specs.Arc.{arc_value};
ghost use Rattle.pcef_model.specs.Setting.{Setting};
ghost use Rattle.pcef_model.specs.ProfileModel.{setting_of};
ghost use Rattle.pcef_gateway.specs.declared.fault.RunFault.TheVariants.{NoMemory as WantOfMemory};
ghost use Rattle.pcef_session.specs.Answers.{IsOpened};
ghost use Rattle.pcef_run.specs.declared.plan.Plan.{Plan};
ghost use Rattle.pcef_run.specs.Runs.{EndsPlan, FailsRun, OpensNot, RunsPlan, accepted_of, command_count, end_for_fault};

use crate::fault::RunEnd;
use crate::obeying::{accepted_among, obey};
use crate::plan::Plan;
use pcef_catalog::{Detects, Offers};
use pcef_gateway::{CommandAnswer, Ended, RunFault, Workload, run_session};
use pcef_journaled::JournaledState;
use pcef_model::{OpenFault, Profile};
use pcef_worker::OpenGate;
use std::alloc::Global;
use std::sync::{Arc, Wait};
use std::thread::Threads;

/// The outcome of a run of a plan.
#[derive(Drop)]
pub struct Ran {
    /// The answer to each command before the first packet, in order.
    pub answers: Vec<CommandAnswer>,
    /// The end of the session, with the answers to the other commands.
    pub ended: Ended,
}

impl Ran {
    /// How many commands were accepted.
    pub fn accepted(&self) -> u64
        ensures { result ≡ accepted_of self.now }
    {
        accepted_among(&self.answers) + accepted_among(&self.ended.answers)
    }

    /// How many commands there were.
    pub fn commands(&self) -> u64
        ensures { result ≡ command_count self.now }
    {
        self.answers.len() as u64 + self.ended.answers.len() as u64
    }
}

fn open<C: Offers>(alloc: Global, profile: Profile, catalog: &C) -> Result<JournaledState, RunEnd>
    ensures made { IfOk result (λ s.
        IsOpened (setting_of profile (C.offers catalog.now)) s.session) }
    ensures fault { IfErr result (OpensNot (setting_of profile (C.offers catalog.now))) }
{
    let Ok(listing) = catalog.listing().share() else {
        return Err(RunEnd::NoMemory);
    };
    match JournaledState::open(alloc, profile, listing) {
        Ok(session) => Ok(session),
        Err(OpenFault::NoMemory) => Err(RunEnd::NoMemory),
        Err(fault) => Err(RunEnd::Open(fault)),
    }
}

fn run_fault(fault: RunFault) -> RunEnd
    ensures exact { result ≡ end_for_fault fault }
    ensures ends { (p : Setting) (plan : Plan) (n : ℕ) → (fault ≢ WantOfMemory → FailsRun plan n fault)
        → EndsPlan p plan n result }
{
    match fault {
        RunFault::NoMemory => RunEnd::NoMemory,
        _ => RunEnd::Run(fault),
    }
}

/// Opens a session of a profile and gives it the commands before the first packet. Then runs it with `workers` workers,
/// each in a thread of its own: these take the packets while the other commands are given
/// ([`pcef_gateway::run_session`]). Answers the first fault of the profile, a fault of the run, or out of memory; the
/// session is then given up. Takes memory. Waits for the workers.
pub fn run_plan<C: Detects + Drop + Send + Sync, R: Threads + Wait + Sync>(
    rt: &R,
    alloc: Global,
    catalog: Arc<C>,
    profile: Profile,
    plan: Plan,
    workers: u8,
) -> Result<Ran, RunEnd>
    ensures ran { IfOk result
        (RunsPlan (setting_of profile (C.offers (arc_value catalog))) plan workers) }
    ensures fault { IfErr result
        (EndsPlan (setting_of profile (C.offers (arc_value catalog))) plan workers) }
{
    let Plan {
        first,
        arrivals,
        later,
    } = plan;
    let mut session = match open(alloc, profile, &*catalog) {
        Ok(session) => session,
        Err(end) => return Err(end),
    };
    let Ok(answers) = obey(alloc, &mut session, first) else {
        return Err(RunEnd::NoMemory);
    };
    let load = Workload {
        arrivals,
        commands: later,
        workers,
    };
    match run_session(rt, alloc, catalog, session, load, &OpenGate) {
        Ok(ended) => Ok(Ran { answers, ended }),
        Err(fault) => Err(run_fault(fault)),
    }
}
