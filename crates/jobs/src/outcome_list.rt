//! The report of `outcomes`.
ghost use Rattle.std.specs.Prelude.{◌≡◌, IfOk, Ok, length};
ghost use Rattle.commands.specs.Serving.{MakesReport};
ghost use Rattle.jobs.specs.RunCommands.{outcomes_command};
ghost use Rattle.jobs.specs.OutcomeReports.{asked_outcomes, outcomes_asked, outcomes_report};
ghost use Rattle.jobs.specs.Starts.{exactly};

use crate::outcome_text::push_outcomes;
use crate::start::{Start, outcomes_start};
use crate::verdict::{ReportsVerdict, report_from};
use commands::{Fault, OutcomesOptions, Report, Sources, Status};
use explore::{Findings, Numbers, Verdict};
use std::alloc::{AllocError, Global};
use workers::Gate;

/// The outcomes that are asked for: those after a crash, or those before the first one.
fn asked_outcomes(recovered: bool, found: &Findings) -> &[Numbers]
    ensures { result.now ≡ asked_outcomes recovered found.now }
{
    if recovered {
        found.recovered()
    } else {
        found.ends()
    }
}

/// The outcomes of a verdict that are asked for: those after a crash, or those before the first one.
pub fn outcomes_asked(recovered: bool, verdict: &Verdict) -> &[Numbers]
    ensures { result.now ≡ outcomes_asked recovered verdict.now }
{
    match verdict {
        Verdict::Holds(found) => asked_outcomes(recovered, found),
        Verdict::Fails(_) => &[],
    }
}

impl ReportsVerdict for OutcomesOptions {
    ghost may_report = { λ options. exactly (outcomes_report options) };

    fn verdict_report<G: Gate>(
        &self,
        alloc: Global,
        start: &Start,
        verdict: &Verdict,
        _gate: &G,
    ) -> Result<Report, AllocError> {
        let object = &start.object;
        let processors = object.processors().len();
        let outcomes = outcomes_asked(self.recovered, verdict);
        let mut text = String::new(alloc);
        push_outcomes(&mut text, object.layout(), processors, outcomes)?;
        Ok(Report {
            text: text.into_bytes(),
            status: Status::Done,
        })
    }
}

/// The report of `outcomes`.
#[tactic(auto, unfolding(crate::specs::RunCommands::outcomes_command))]
pub(crate) fn report_outcomes<G: Gate>(
    alloc: Global,
    options: &OutcomesOptions,
    sources: &Sources,
    gate: &G,
) -> Result<Report, Fault>
    ensures { MakesReport (outcomes_command options.now) (Ok sources.now) result }
{
    let start = outcomes_start(alloc, options, &sources.program, &sources.steps)?;
    let report = report_from(alloc, options, &start, options.states, gate);
    drop(start);
    report
}
