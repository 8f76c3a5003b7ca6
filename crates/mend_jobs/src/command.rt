//! The whole commands: the program is read whole, the report is made of those bytes, and then it is written.
ghost use Rattle.std.specs.Prelude.{Ok};
ghost use Rattle.commands.specs.Devices.{CanCountOneMore};
ghost use Rattle.commands.specs.Serving.{MakesReport, Serves, used};
ghost use Rattle.mend_jobs.specs.FencesCommand.{fences_command};
ghost use Rattle.mend_jobs.specs.MendCommand.{mend_command};

use crate::asked_program::{asked_program, fences_start};
use crate::form::ReportsMends;
use crate::mend_job::MendJob;
use crate::mend_search::mend_from;
use crate::search::fences_from;
use commands::{
    Fault, FencesOptions, Report, Sink, Source, Sources, Status, read_sources, write_report,
};
use std::alloc::Global;
use std::thread::Threads;
use workers::Gate;

/// The report of `fences`.
#[tactic(auto, unfolding(crate::specs::FencesCommand::fences_command))]
fn report_fences<F: ReportsMends, R: Threads + Sync, G: Gate + Sync>(
    rt: &R,
    alloc: Global,
    options: &FencesOptions<'_>,
    sources: &Sources,
    gate: &G,
) -> Result<Report, Fault>
    ensures { MakesReport (fences_command F.reports options.now) (Ok sources.now) result }
{
    let asked = fences_start(alloc, options, &sources.program)?;
    let report = fences_from::<F, R, G>(rt, alloc, options, &asked, gate);
    drop(asked);
    report
}

/// Reports what each flush and fence of a program is needed for: reads the program to its end, makes the report of all its bytes, in
/// the form `F`, and then writes it. The steps are not touched.
///
/// What no clause says, and tests ask: the gate is told how many states of a program may be told apart, and then of each state that is
/// explored, by its number; programs without an instruction are explored by as many threads as there are.
///
/// # Errors
///
/// F1 and F3 of the program; a fault of the program, as an object file or as a litmus text; of a condition, in the order of the
/// options; K4; R1, R2, I1 of the runs of the program as it is; F2, after which a beginning of the report was written. Out of memory
/// may come in place of any answer, but of no stage behind one that refuses the input (X9 may also be of the reading).
#[tactic(auto, using(commands::proofs::ServedCommands::served), unfolding(crate::specs::FencesCommand::fences_command))]
pub fn fences<F: ReportsMends, R: Threads + Sync, P: Source, S: Source, W: Sink, G: Gate + Sync>(
    rt: &R,
    alloc: Global,
    options: &FencesOptions<'_>,
    program: &mut P,
    steps: &mut S,
    out: &mut W,
    gate: &G,
) -> Result<Status, Fault>
    requires program { CanCountOneMore (P.device program.old) }
    requires steps { CanCountOneMore (S.device steps.old) }
    requires out { CanCountOneMore (W.device out.old) }
    ensures { Serves (fences_command F.reports options.now) (used P.device program.old program.new)
        (used S.device steps.old steps.new) (used W.device out.old out.new) result }
{
    let sources = read_sources(alloc, false, program, steps)?;
    let report = report_fences::<F, R, G>(rt, alloc, options, &sources, gate)?;
    write_report(out, &report)
}

/// The report of `mend`.
#[tactic(auto, unfolding(crate::specs::MendCommand::mend_command))]
fn report_mend<F: ReportsMends, R: Threads + Sync, G: Gate + Sync>(
    rt: &R,
    alloc: Global,
    job: &MendJob<'_>,
    sources: &Sources,
    gate: &G,
) -> Result<Report, Fault>
    ensures { MakesReport (mend_command F.reports job.now.ways.moves job.now.options) (Ok sources.now) result }
{
    let asked = asked_program(alloc, &job.options.asked, &sources.program)?;
    let report = mend_from::<F, R, G>(rt, alloc, job, &asked, gate);
    drop(asked);
    report
}

/// Looks for flushes and fences with which what is asked holds; and where no set of any size holds and moves are asked for, for a
/// move of one store with which one does: reads the program to its end, makes the report of all its bytes, in
/// the form `F`, and then writes it. The steps are not touched.
///
/// What no clause says, and tests ask: the report is the same for any number of workers; the gate is told how many states of a program
/// may be told apart, and then of each state that is explored, by its number, but of none behind a run that is followed.
///
/// # Errors
///
/// Those of [`fences`], but K4.
#[tactic(auto, using(commands::proofs::ServedCommands::served), unfolding(crate::specs::MendCommand::mend_command))]
pub fn mend<F: ReportsMends, R: Threads + Sync, P: Source, S: Source, W: Sink, G: Gate + Sync>(
    rt: &R,
    alloc: Global,
    job: &MendJob<'_>,
    program: &mut P,
    steps: &mut S,
    out: &mut W,
    gate: &G,
) -> Result<Status, Fault>
    requires program { CanCountOneMore (P.device program.old) }
    requires steps { CanCountOneMore (S.device steps.old) }
    requires out { CanCountOneMore (W.device out.old) }
    ensures { Serves (mend_command F.reports job.now.ways.moves job.now.options) (used P.device program.old program.new)
        (used S.device steps.old steps.new) (used W.device out.old out.new) result }
{
    let sources = read_sources(alloc, false, program, steps)?;
    let report = report_mend::<F, R, G>(rt, alloc, job, &sources, gate)?;
    write_report(out, &report)
}
