//! The report of `tally`.
ghost use Rattle.std.specs.Prelude.{Ok};
ghost use Rattle.commands.specs.Works.{Makes, work};
ghost use Rattle.commands.specs.declared.fault.Stage.TheVariants as stages;
ghost use Rattle.thread_jobs.specs.HuntStarts.{AreNumbersOf};
ghost use Rattle.thread_jobs.specs.ThreadReports.{tally_from, tally_work};

use crate::form::ReportsSchedules;
use crate::start::range_of;
use commands::{Fault, Report, Stage, TallyOptions, machine_after, read_list, read_program};
use hunt::tally;
use lines_layout::Layout;
use machine::Machine;
use schedule::Range;
use std::alloc::{AllocError, Global};
use std::thread::Threads;
use workers::Gate;

/// What schedules run from.
#[derive(Drop)]
struct Start {
    /// The machine after the steps.
    machine: Machine,
    /// The numbers of the schedules.
    range: Range,
}

/// The report of the schedules that are run from the state of a machine.
#[tactic(auto, unfolding(commands::specs::Works::Makes))]
fn tally_from<F: ReportsSchedules, R: Threads + Sync, G: Gate + Sync>(
    rt: &R,
    alloc: Global,
    layout: &Layout,
    options: &TallyOptions,
    start: &Start,
    gate: &G,
) -> Result<Report, Fault>
    requires { AreNumbersOf options.now start.now.range }
    ensures { Makes (work stages.Schedules
        (Ok (tally_from F.reports layout.now options.now start.now.machine))) result }
{
    let Start { machine, range } = start;
    gate.begun(range.n);
    let Ok(counted) = tally(rt, alloc, machine, &options.plan, *range, gate) else {
        return Err(Stage::Schedules.missing());
    };
    match F::tally_report(alloc, layout, &counted) {
        Ok(report) => Ok(report),
        Err(AllocError) => Err(Stage::Schedules.missing()),
    }
}

/// The report of `tally`. Each schedule is reported to the gate.
#[tactic(auto, using(commands::proofs::WorksInTurn::turns))]
pub(crate) fn report_tally<F: ReportsSchedules, R: Threads + Sync, G: Gate + Sync>(
    rt: &R,
    alloc: Global,
    options: &TallyOptions,
    program: &[u8],
    steps: &[u8],
    gate: &G,
) -> Result<Report, Fault>
    ensures { Makes (tally_work F.reports options.now program.now steps.now) result }
{
    let object = read_program(alloc, program)?;
    let range = range_of(options)?;
    let steps = read_list(alloc, steps)?;
    let machine = machine_after(alloc, &object, &steps)?;
    tally_from::<F, R, G>(
        rt,
        alloc,
        object.layout(),
        options,
        &Start { machine, range },
        gate,
    )
}
