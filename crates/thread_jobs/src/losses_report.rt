//! The report of `tally --all`.
ghost use Rattle.std.specs.Prelude.{Ok};
ghost use Rattle.commands.specs.Works.{Makes, work};
ghost use Rattle.commands.specs.declared.fault.Stage.TheVariants as stages;
ghost use Rattle.thread_jobs.specs.ThreadReports.{losses_from, losses_work};

use crate::form::ReportsSchedules;
use crate::start::{HuntStart, hunt_start};
use commands::{Fault, LossesOptions, Report, Stage};
use hunt::count_losses;
use std::alloc::{AllocError, Global};
use std::thread::Threads;
use workers::Gate;

/// The report of the losses of schedules.
#[tactic(auto, unfolding(commands::specs::Works::Makes))]
fn losses_from<F: ReportsSchedules, R: Threads + Sync, G: Gate + Sync>(
    rt: &R,
    alloc: Global,
    start: &HuntStart,
    gate: &G,
) -> Result<Report, Fault>
    ensures { Makes (work stages.Schedules (Ok (losses_from F.reports start.now))) result }
{
    gate.begun(start.search.range.n);
    let Ok(found) = count_losses(rt, alloc, &start.search, gate) else {
        return Err(Stage::Schedules.missing());
    };
    match F::losses_report(alloc, start.search.range.n, found) {
        Ok(report) => Ok(report),
        Err(AllocError) => Err(Stage::Schedules.missing()),
    }
}

/// The report of `tally --all`. Each schedule is reported to the gate.
#[tactic(auto, using(commands::proofs::WorksInTurn::turns))]
pub(crate) fn report_losses<F: ReportsSchedules, R: Threads + Sync, G: Gate + Sync>(
    rt: &R,
    alloc: Global,
    options: &LossesOptions<'_>,
    program: &[u8],
    steps: &[u8],
    gate: &G,
) -> Result<Report, Fault>
    ensures { Makes (losses_work F.reports options.now program.now steps.now) result }
{
    let start = hunt_start(alloc, options.all, &options.schedules, program, steps)?;
    losses_from::<F, R, G>(rt, alloc, &start, gate)
}
