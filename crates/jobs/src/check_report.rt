//! The report of `check`.
ghost use Rattle.std.specs.Prelude.{◌≡◌, IfOk, Ok, string_bytes};
ghost use Rattle.explore.specs.declared.verdict.Verdict.TheVariants.{Fails};
ghost use Rattle.jobs.specs.CheckReports.{MayReport, failed_report, found_report, held_report};
ghost use Rattle.commands.specs.Serving.{MakesReport};
ghost use Rattle.jobs.specs.RunCommands.{check_command};

use crate::explained::{Explained, explanation_of};
use crate::failure::failure_text;
use crate::findings::{found_status, found_text};
use crate::start::{Start, check_start};
use crate::verdict::{ReportsVerdict, report_from};
use commands::{CheckOptions, Fault, Report, Sources, Status};
use explore::{Failure, Findings, Verdict};
use std::alloc::{AllocError, Global};
use workers::Gate;

/// What is said where all conditions hold: nothing, where the steps of a run alone are asked for.
fn held_report(
    alloc: Global,
    options: &CheckOptions<'_>,
    start: &Start,
    found: &Findings,
) -> Result<String, AllocError>
    ensures { IfOk result (λ text. string_bytes text ≡ held_report options.now start.now found.now) }
{
    if options.as_steps {
        return Ok(String::new(alloc));
    }
    found_text(alloc, options.names, start, found)
}

/// The report where all conditions hold.
fn found_report(
    alloc: Global,
    options: &CheckOptions<'_>,
    start: &Start,
    found: &Findings,
) -> Result<Report, AllocError>
    ensures { IfOk result (λ report. report ≡ found_report options.now start.now found.now) }
{
    Ok(Report {
        text: held_report(alloc, options, start, found)?.into_bytes(),
        status: found_status(&start.question, found),
    })
}

/// The report of a run that makes a condition false, where this explains it.
fn failure_report(
    alloc: Global,
    options: &CheckOptions<'_>,
    start: &Start,
    failure: &Failure,
    told: &Explained,
) -> Result<Report, AllocError>
    ensures { IfOk result (λ report. report ≡ failed_report options.now start.now failure.now told.now) }
{
    Ok(Report {
        text: failure_text(alloc, options, start, failure, told)?.into_bytes(),
        status: Status::Unmet,
    })
}

/// The same, explained.
fn explained_report<G: Gate>(
    alloc: Global,
    options: &CheckOptions<'_>,
    start: &Start,
    failure: &Failure,
    gate: &G,
) -> Result<Report, AllocError>
    ensures { IfOk result (MayReport options.now start.now (Fails failure.now)) }
{
    let told = explanation_of(alloc, options, start, failure, gate)?;
    failure_report(alloc, options, start, failure, &told)
}

impl ReportsVerdict for CheckOptions<'_> {
    ghost may_report = { MayReport };

    fn verdict_report<G: Gate>(
        &self,
        alloc: Global,
        start: &Start,
        verdict: &Verdict,
        gate: &G,
    ) -> Result<Report, AllocError> {
        match verdict {
            Verdict::Holds(found) => found_report(alloc, self, start, found),
            Verdict::Fails(failure) => explained_report(alloc, self, start, failure, gate),
        }
    }
}

/// The report of `check`.
#[tactic(auto, unfolding(crate::specs::RunCommands::check_command))]
pub(crate) fn report_check<G: Gate>(
    alloc: Global,
    options: &CheckOptions<'_>,
    sources: &Sources,
    gate: &G,
) -> Result<Report, Fault>
    ensures { MakesReport (check_command options.now) (Ok sources.now) result }
{
    let start = check_start(alloc, options, &sources.program, &sources.steps)?;
    let report = report_from(alloc, options, &start, options.states, gate);
    drop(start);
    report
}
