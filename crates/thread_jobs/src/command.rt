//! The commands that work with threads: what they read is read whole, the report is made of those bytes, and then it is
//! written.
ghost use Rattle.commands.specs.Devices.{CanCountOneMore};
ghost use Rattle.commands.specs.Serving.{MakesReport, Serves, used};
ghost use Rattle.thread_jobs.specs.ThreadReports.{live_command, work_command, MayWork};
ghost use Rattle.workers.specs.Limits.{MayShare};

use crate::ends_report::report_ends;
use crate::form::ReportsSchedules;
use crate::hunt_report::report_hunt;
use crate::journal_form::ReportsJournals;
use crate::live_report::report_live;
use crate::losses_report::report_losses;
use crate::tally_report::report_tally;
use commands::{
    Fault, Report, ScheduleJob, Sink, Source, Sources, Status, read_sources, write_report,
};
use std::alloc::Global;
use std::sync::Wait;
use std::thread::Threads;
use workers::Gate;

/// What a command works with.
#[derive(Drop)]
pub struct Resources<'a, R, G> {
    /// The runtime, which starts its threads.
    pub rt: &'a R,
    /// The memory.
    pub alloc: Global,
    /// The gate to which the threads report.
    pub gate: G,
}

/// The report of a command that runs schedules.
#[tactic(auto, unfolding(crate::specs::ThreadReports::work_command))]
fn work_report<F: ReportsSchedules, R: Threads + Sync, G: Gate + Send + Sync + Drop + 'static>(
    rt: &R,
    alloc: Global,
    job: &ScheduleJob<'_>,
    sources: &Sources,
    gate: G,
) -> Result<Report, Fault>
    requires workers { MayWork job.now }
    ensures { MakesReport (work_command F.reports job.now) (Ok sources.now) result }
{
    let Sources { program, steps } = sources;
    match job {
        ScheduleJob::Tally(options) => report_tally::<F, R, G>(
            rt, alloc, options, program, steps, &gate,
        ),
        ScheduleJob::Losses(options) => report_losses::<F, R, G>(
            rt, alloc, options, program, steps, &gate,
        ),
        ScheduleJob::Ends(options) => report_ends::<F, R, G>(
            rt, alloc, options, program, steps, &gate,
        ),
        ScheduleJob::Hunt(options) => report_hunt::<F, R, G>(
            rt, alloc, options, program, steps, gate,
        ),
    }
}

/// Runs schedules: reads the program, and then the steps, to their ends, makes the report of `tally` or of `hunt` of all their
/// bytes, in the form `F`, and then writes it.
///
/// The steps are made first. They are no turns of the schedules, which run from the state to which they lead.
///
/// What no clause says, and tests ask: the gate is told how many schedules run at most. Then the number of each schedule is
/// reported, once before it runs and once when it has ended. A number that a worker of a hunt claims and then skips is reported
/// once. Where a hunt of ends finds none, its schedules run once more, to count those that come to one, and the gate hears nothing
/// of this. A hunt has as many workers as were asked for, and all threads that were started have ended.
///
/// # Errors
///
/// F1 and F3 of the program, then of the steps; a fault of the program, as an object file or as a litmus text; of a condition;
/// K1; a bad line of the steps; a step that is refused; K3 of `hunt`; F2, after which a beginning of the report was written.
/// Out of memory may come in place of any answer, but of no stage behind one that refuses the input. (X9 and S2 may also be of
/// the reading, before anything is tested.)
pub fn work<
    F: ReportsSchedules,
    R: Threads + Sync,
    P: Source,
    S: Source,
    W: Sink,
    G: Gate + Send + Sync + Drop + 'static,
>(
    resources: Resources<'_, R, G>,
    job: &ScheduleJob<'_>,
    program: &mut P,
    steps: &mut S,
    out: &mut W,
) -> Result<Status, Fault>
    requires workers { MayWork job.now }
    requires program { CanCountOneMore (P.device program.old) }
    requires steps { CanCountOneMore (S.device steps.old) }
    requires out { CanCountOneMore (W.device out.old) }
    ensures { Serves (work_command F.reports job.now) (used P.device program.old program.new)
        (used S.device steps.old steps.new) (used W.device out.old out.new) result }
{
    let Resources { rt, alloc, gate } = resources;
    let sources = read_sources(alloc, true, program, steps)?;
    let report = work_report::<F, R, G>(rt, alloc, job, &sources, gate)?;
    write_report(out, &report)
}

/// Has threads make the steps on one machine: reads the program, and then the steps, to their ends, makes the report of
/// `live` of all their bytes, in the form `F`, and then writes it.
///
/// What is written is a report of one of the journals that there may be, since it is not known in which order the threads
/// come. A step that is refused is in the journal, and is no fault.
///
/// What no clause says, and tests ask: a thread reports the number of a step, from 0, to the gate before the step is made
/// and after that, and all threads that were started have ended.
///
/// # Errors
///
/// F1 and F3 of the program, then of the steps; a fault of the program, as an object file or as a litmus text; a bad line of the
/// steps; K3; V2, which no clause rules out; F2, after which a beginning of the report was written. Out of memory may come in
/// place of any answer, but of no stage behind one that refuses the input. (X9 and S2 may also be of the reading, before anything is
/// tested.)
pub fn share<
    F: ReportsJournals,
    R: Threads + Wait + Sync,
    P: Source,
    S: Source,
    W: Sink,
    G: Gate + Sync + Drop,
>(
    resources: Resources<'_, R, G>,
    threads: u32,
    program: &mut P,
    steps: &mut S,
    out: &mut W,
) -> Result<Status, Fault>
    requires threads { MayShare threads }
    requires program { CanCountOneMore (P.device program.old) }
    requires steps { CanCountOneMore (S.device steps.old) }
    requires out { CanCountOneMore (W.device out.old) }
    ensures { Serves (live_command F.journals threads) (used P.device program.old program.new)
        (used S.device steps.old steps.new) (used W.device out.old out.new) result }
{
    let Resources { rt, alloc, gate } = resources;
    let sources = read_sources(alloc, true, program, steps)?;
    let report = report_live::<F, R, G>(rt, alloc, threads, &sources, gate)?;
    write_report(out, &report)
}
