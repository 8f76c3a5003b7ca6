//! What is reported of the verdict on all runs from a start.
ghost use Rattle.std.specs.Prelude.{◌≡◌, IfOk};
ghost use Rattle.explore.specs.declared.verdict.Verdict as verdicts;
ghost use Rattle.commands.specs.Serving as serving;
ghost use Rattle.jobs.specs.declared.start.Start as starts;
ghost use Rattle.jobs.specs.RunCommands.{Explores};
ghost use Rattle.jobs.specs.Starts.{fault_of, IsReady};

use crate::start::Start;
use commands::{Fault, Refused, Report, Stage};
use explore::{ExploreFault, Verdict};
use std::alloc::{AllocError, Global};
use workers::Gate;

/// The options of a command that explores all runs: what it may report of a verdict on them.
pub trait ReportsVerdict {
    /// What may be reported of a verdict on all runs from a start.
    ghost may_report: { Self → starts.Start → verdicts.Verdict → serving.Report → Type 0 };

    /// A report of a verdict on all runs from a start. The gate is told of what is explored for it.
    fn verdict_report<G: Gate>(
        &self,
        alloc: Global,
        start: &Start,
        verdict: &Verdict,
        gate: &G,
    ) -> Result<Report, AllocError>
        ensures { IfOk result (λ report. may_report self.now start.now verdict.now report) };
}

/// Why it is not told of all runs.
pub fn fault_of(fault: ExploreFault) -> Fault
    ensures { result ≡ fault_of fault }
{
    match fault {
        ExploreFault::TooManyStates => Fault::Refused(Refused::TooManyStates),
        ExploreFault::NoRoom => Fault::Refused(Refused::NoRoom),
        ExploreFault::TooMany => Fault::Refused(Refused::TooManyInRun),
        ExploreFault::NoMemory => Stage::Exploration.missing(),
    }
}

/// A report of all runs from a start, of which at most so many states are told apart.
///
/// # Errors
///
/// R1, R2, I1 of the runs; out of memory, as that of an exploration.
#[tactic(auto, unfolding(commands::specs::Works::MakesOneOf))]
pub fn report_from<A: ReportsVerdict, G: Gate>(
    alloc: Global,
    asked: &A,
    start: &Start,
    states: u64,
    gate: &G,
) -> Result<Report, Fault>
    requires { IsReady start.now.machine }
    ensures { Explores (A.may_report asked.now) states start.now result }
{
    gate.begun(states);
    let verdict = match explore::check(alloc, &start.machine, &start.question, states, gate) {
        Ok(verdict) => verdict,
        Err(fault) => return Err(fault_of(fault)),
    };
    let report = asked.verdict_report(alloc, start, &verdict, gate);
    drop(verdict);
    match report {
        Ok(report) => Ok(report),
        Err(AllocError) => Err(Stage::Exploration.missing()),
    }
}
