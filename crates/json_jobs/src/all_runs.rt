//! The commands that explore every run, where their report is asked for as JSON.
ghost use Rattle.std.specs.Prelude.{Ok, option_copied};
ghost use Rattle.commands.specs.Devices.{CanCountOneMore};
ghost use Rattle.commands.specs.Serving.{MakesReport, Serves, used};
ghost use Rattle.json_jobs.specs.QuestionData.{ask_command};
ghost use Rattle.json_jobs.specs.RunReports.{check_command, outcomes_command};

use crate::check_report::CheckJson;
use crate::outcome_report::OutcomesJson;
use crate::question_value::report_questions;
use commands::{
    CheckOptions, Fault, OutcomesOptions, QuestionOptions, Report, Sink, Source, Sources, Status,
    read_sources, write_report,
};
use jobs::{check_start, outcomes_start, report_from};
use std::alloc::Global;
use workers::Gate;

/// The report of `check`.
#[tactic(auto, unfolding(crate::specs::RunReports::check_command))]
fn report_check<G: Gate>(
    alloc: Global,
    options: &CheckOptions<'_>,
    sources: &Sources,
    gate: &G,
) -> Result<Report, Fault>
    ensures { MakesReport (check_command options.now) (Ok sources.now) result }
{
    let start = check_start(alloc, options, &sources.program, &sources.steps)?;
    let asked = CheckJson { options };
    report_from(alloc, &asked, &start, options.states, gate)
}

/// Asks conditions of every run, and writes the report as JSON. It is that of any right verdict, as that of [`jobs::check`] is.
///
/// # Errors
///
/// Those of [`jobs::check`].
#[tactic(auto, using(commands::proofs::ServedCommands::served), unfolding(crate::specs::RunReports::check_command))]
pub fn check<P: Source, S: Source, W: Sink, G: Gate>(
    alloc: Global,
    options: &CheckOptions<'_>,
    program: &mut P,
    steps: &mut S,
    out: &mut W,
    gate: &G,
) -> Result<Status, Fault>
    requires program { CanCountOneMore (P.device program.old) }
    requires steps { CanCountOneMore (S.device steps.old) }
    requires out { CanCountOneMore (W.device out.old) }
    ensures { Serves (check_command options.now) (used P.device program.old program.new) (used S.device steps.old steps.new) (used W.device out.old out.new) result }
{
    let sources = read_sources(alloc, true, program, steps)?;
    let report = report_check(alloc, options, &sources, gate)?;
    write_report(out, &report)
}

/// Asks the questions of a program of every run, and writes the report as JSON.
///
/// # Errors
///
/// Those of [`jobs::ask`].
#[tactic(auto, using(commands::proofs::ServedCommands::served), unfolding(crate::specs::QuestionData::ask_command))]
pub fn ask<P: Source, S: Source, W: Sink, G: Gate>(
    alloc: Global,
    file: Option<&str>,
    options: &QuestionOptions<'_>,
    program: &mut P,
    steps: &mut S,
    out: &mut W,
    gate: &G,
) -> Result<Status, Fault>
    requires program { CanCountOneMore (P.device program.old) }
    requires steps { CanCountOneMore (S.device steps.old) }
    requires out { CanCountOneMore (W.device out.old) }
    ensures { Serves (ask_command (option_copied file.entry) options.now) (used P.device program.old program.new) (used S.device steps.old steps.new) (used W.device out.old out.new) result }
{
    let sources = read_sources(alloc, true, program, steps)?;
    let report = report_questions(alloc, file, options, &sources, gate)?;
    write_report(out, &report)
}

/// The report of `outcomes`.
#[tactic(auto, unfolding(crate::specs::RunReports::outcomes_command))]
fn report_outcomes<G: Gate>(
    alloc: Global,
    options: &OutcomesOptions,
    sources: &Sources,
    gate: &G,
) -> Result<Report, Fault>
    ensures { MakesReport (outcomes_command options.now) (Ok sources.now) result }
{
    let start = outcomes_start(alloc, options, &sources.program, &sources.steps)?;
    let asked = OutcomesJson {
        recovered: options.recovered,
    };
    report_from(alloc, &asked, &start, options.states, gate)
}

/// Lists what all runs may end in, and writes the report as JSON.
///
/// # Errors
///
/// Those of [`jobs::list_outcomes`].
#[tactic(auto, using(commands::proofs::ServedCommands::served), unfolding(crate::specs::RunReports::outcomes_command))]
pub fn list_outcomes<P: Source, S: Source, W: Sink, G: Gate>(
    alloc: Global,
    options: &OutcomesOptions,
    program: &mut P,
    steps: &mut S,
    out: &mut W,
    gate: &G,
) -> Result<Status, Fault>
    requires program { CanCountOneMore (P.device program.old) }
    requires steps { CanCountOneMore (S.device steps.old) }
    requires out { CanCountOneMore (W.device out.old) }
    ensures { Serves (outcomes_command options.now) (used P.device program.old program.new) (used S.device steps.old steps.new) (used W.device out.old out.new) result }
{
    let sources = read_sources(alloc, true, program, steps)?;
    let report = report_outcomes(alloc, options, &sources, gate)?;
    write_report(out, &report)
}
