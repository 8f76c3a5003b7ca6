//! The commands that explore every run: what they read is read whole, the report is made of those bytes, and then it is
//! written.
ghost use Rattle.std.specs.Prelude.{option_copied};
ghost use Rattle.commands.specs.Devices.{CanCountOneMore};
ghost use Rattle.commands.specs.Serving.{Serves, used};
ghost use Rattle.jobs.specs.QuestionReports.{ask_command};
ghost use Rattle.jobs.specs.RunCommands.{check_command, outcomes_command};

use crate::check_report::report_check;
use crate::outcome_list::report_outcomes;
use crate::question_report::report_questions;
use commands::{
    CheckOptions, Fault, OutcomesOptions, QuestionOptions, Sink, Source, Status, read_sources,
    write_report,
};
use std::alloc::Global;
use workers::Gate;

/// Asks conditions of every run: reads the program, and then the steps, to their ends, makes the report of `check` of all their
/// bytes, and then writes it.
///
/// The steps are made first, and runs start from the state to which they lead. The gate is told how many states may be told
/// apart, and then of each state that was explored, by its number.
///
/// # Errors
///
/// F1 and F3 of the program, then of the steps; a fault of the program, as an object file or as a litmus text; of a condition, in
/// the order of the options; a bad line of the steps; a step that is refused; R1, R2, I1 of the runs; F2, after which a beginning
/// of the report was written. Out of memory may come in place of any answer, but of no stage behind one that refuses the input
/// (X9 and S2 may also be of the reading, before anything is tested).
#[tactic(auto, using(commands::proofs::ServedCommands::served), unfolding(crate::specs::RunCommands::check_command))]
pub fn check<P: Source, S: Source, W: Sink, G: Gate>(
    alloc: Global,
    options: &CheckOptions<'_>,
    program: &mut P,
    steps: &mut S,
    out: &mut W,
    gate: &G,
) -> Result<Status, Fault>
    requires program { CanCountOneMore (P.device program.old) }
    requires steps { CanCountOneMore (S.device steps.old) }
    requires out { CanCountOneMore (W.device out.old) }
    ensures { Serves (check_command options.now) (used P.device program.old program.new) (used S.device steps.old steps.new) (used W.device out.old out.new) result }
{
    let sources = read_sources(alloc, true, program, steps)?;
    let report = report_check(alloc, options, &sources, gate)?;
    write_report(out, &report)
}

/// Asks the questions of a program of every run: reads the program, and then the steps, to their ends, makes the report of the
/// answers, and then writes it. The gate is told the same as by [`check`], of each exploration: of one for each question, and of
/// one more for a left side where what the question asks holds. Where the file is one of several, it has a name: the report is then
/// one line, which begins with it.
///
/// # Errors
///
/// Those of [`check`], but of conditions; a fault of the questions; usage, where no question has the name that is asked for. R1, R2
/// and I1 are those of the first question that is not told.
#[tactic(auto, using(commands::proofs::ServedCommands::served), unfolding(crate::specs::QuestionReports::ask_command))]
pub fn ask<P: Source, S: Source, W: Sink, G: Gate>(
    alloc: Global,
    file: Option<&str>,
    options: &QuestionOptions<'_>,
    program: &mut P,
    steps: &mut S,
    out: &mut W,
    gate: &G,
) -> Result<Status, Fault>
    requires program { CanCountOneMore (P.device program.old) }
    requires steps { CanCountOneMore (S.device steps.old) }
    requires out { CanCountOneMore (W.device out.old) }
    ensures { Serves (ask_command (option_copied file.entry) options.now) (used P.device program.old program.new) (used S.device steps.old steps.new) (used W.device out.old out.new) result }
{
    let sources = read_sources(alloc, true, program, steps)?;
    let report = report_questions(alloc, file, options, &sources, gate)?;
    write_report(out, &report)
}

/// Lists what all runs may end in: reads the program, and then the steps, to their ends, makes the report of `outcomes` of all
/// their bytes, and then writes it.
///
/// The steps are made first, and runs start from the state to which they lead. The gate is told how many states may be told
/// apart, and then of each state that was explored, by its number.
///
/// # Errors
///
/// Those of [`check`], but of conditions.
#[tactic(auto, using(commands::proofs::ServedCommands::served), unfolding(crate::specs::RunCommands::outcomes_command))]
pub fn list_outcomes<P: Source, S: Source, W: Sink, G: Gate>(
    alloc: Global,
    options: &OutcomesOptions,
    program: &mut P,
    steps: &mut S,
    out: &mut W,
    gate: &G,
) -> Result<Status, Fault>
    requires program { CanCountOneMore (P.device program.old) }
    requires steps { CanCountOneMore (S.device steps.old) }
    requires out { CanCountOneMore (W.device out.old) }
    ensures { Serves (outcomes_command options.now) (used P.device program.old program.new) (used S.device steps.old steps.new) (used W.device out.old out.new) result }
{
    let sources = read_sources(alloc, true, program, steps)?;
    let report = report_outcomes(alloc, options, &sources, gate)?;
    write_report(out, &report)
}
