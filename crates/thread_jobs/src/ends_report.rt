//! The report of `tally --ends` and `tally --recovered`.
ghost use Rattle.std.specs.Prelude.{Ok};
ghost use Rattle.commands.specs.Works.{Makes, work};
ghost use Rattle.commands.specs.declared.fault.Stage.TheVariants as stages;
ghost use Rattle.thread_jobs.specs.ThreadReports.{ends_from, ends_work};

use crate::form::ReportsSchedules;
use crate::start::{HuntStart, hunt_start};
use commands::{EndsOptions, Fault, Report, Stage};
use hunt::count_ends;
use std::alloc::{AllocError, Global};
use std::thread::Threads;
use workers::Gate;

/// The report of the ends to which schedules come.
#[tactic(auto, unfolding(commands::specs::Works::Makes))]
fn ends_from<F: ReportsSchedules, R: Threads + Sync, G: Gate + Sync>(
    rt: &R,
    alloc: Global,
    start: &HuntStart,
    recovered: bool,
    gate: &G,
) -> Result<Report, Fault>
    ensures { Makes (work stages.Schedules (Ok (ends_from F.reports recovered start.now))) result }
{
    gate.begun(start.search.range.n);
    let Ok(counts) = count_ends(rt, alloc, &start.search, recovered, gate) else {
        return Err(Stage::Schedules.missing());
    };
    match F::ends_report(alloc, start.search.range.n, counts) {
        Ok(report) => Ok(report),
        Err(AllocError) => Err(Stage::Schedules.missing()),
    }
}

/// The report of `tally --ends` or `tally --recovered`. Each schedule is reported to the gate.
#[tactic(auto, using(commands::proofs::WorksInTurn::turns))]
pub(crate) fn report_ends<F: ReportsSchedules, R: Threads + Sync, G: Gate + Sync>(
    rt: &R,
    alloc: Global,
    options: &EndsOptions<'_>,
    program: &[u8],
    steps: &[u8],
    gate: &G,
) -> Result<Report, Fault>
    ensures { Makes (ends_work F.reports options.now program.now steps.now) result }
{
    let start = hunt_start(alloc, options.cond, &options.schedules, program, steps)?;
    ends_from::<F, R, G>(rt, alloc, &start, options.recovered, gate)
}
