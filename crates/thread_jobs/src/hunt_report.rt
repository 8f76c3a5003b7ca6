//! The report of `hunt`.
ghost use Rattle.std.specs.Prelude.{◌≡◌, IfOk, option_copied};
ghost use Rattle.commands.specs.Works.{Makes};
ghost use Rattle.thread_jobs.specs.ThreadReports.{end_found, ended_by, ended_of, found_by, hunt_fault, hunt_from, hunt_work, text_of, threads_work};
ghost use Rattle.workers.specs.Limits.{MayShare};

use crate::form::ReportsSchedules;
use crate::found::Found;
use crate::start::{HuntStart, hunt_start};
use commands::{Demand, Fault, HuntOptions, Report, Stage};
use hunt::{HuntFault, NoThread, count_ends, hunt, hunt_crashes, hunt_ended};
use std::alloc::Global;
use std::thread::Threads;
use workers::{Gate, OpenGate};

/// What is missing where a hunt gave no answer.
fn hunt_fault(fault: HuntFault) -> Fault
    ensures { result ≡ hunt_fault fault }
{
    match fault {
        HuntFault::NoMemory => Stage::Schedules.missing(),
        HuntFault::Fault(NoThread) => Stage::Threads.missing(),
    }
}

/// What a hunt finds that comes to an end, after a crash or before the first one, where the condition does not hold.
fn end_found<R: Threads, G: Gate + Send + Sync + Drop + 'static>(
    rt: &R,
    alloc: Global,
    recovered: bool,
    start: &HuntStart,
    workers: u64,
    gate: G,
) -> Result<Option<Found>, HuntFault>
    requires { MayShare workers }
    ensures { IfOk result (λ found. found ≡ end_found recovered start.now) }
{
    let search = &start.search;
    match hunt_ended(rt, alloc, search, recovered, workers, gate)? {
        Some(number) => Ok(Some(Found::end(&search.plan, number))),
        None => Ok(None),
    }
}

/// What a hunt finds by which the condition is broken where it is demanded.
fn found_by<R: Threads, G: Gate + Send + Sync + Drop + 'static>(
    rt: &R,
    alloc: Global,
    demand: Demand<'_>,
    start: &HuntStart,
    workers: u64,
    gate: G,
) -> Result<Option<Found>, HuntFault>
    requires { MayShare workers }
    ensures { IfOk result (λ found. found ≡ found_by demand.entry start.now) }
{
    let search = &start.search;
    match demand {
        Demand::Cond(_) => match hunt(rt, alloc, search, workers, gate)? {
            Some(number) => Ok(Some(Found::end(&search.plan, number))),
            None => Ok(None),
        },
        Demand::Ends(_) => end_found(rt, alloc, false, start, workers, gate),
        Demand::Recovered(_) => end_found(rt, alloc, true, start, workers, gate),
        Demand::All(_) => match hunt_crashes(rt, alloc, search, workers, gate)? {
            Some(loss) => Ok(Some(Found::crash(loss))),
            None => Ok(None),
        },
    }
}

/// How many schedules come to an end, where ends are asked.
fn ended_of<R: Threads + Sync>(
    rt: &R,
    alloc: Global,
    demand: Demand<'_>,
    start: &HuntStart,
) -> Result<Option<u64>, HuntFault>
    ensures { IfOk result (λ ended. ended ≡ ended_of demand.entry start.now) }
{
    let recovered = match demand {
        Demand::Cond(_) | Demand::All(_) => return Ok(None),
        Demand::Ends(_) => false,
        Demand::Recovered(_) => true,
    };
    let counts = count_ends(rt, alloc, &start.search, recovered, &OpenGate)?;
    Ok(Some(counts.ended))
}

/// The same where none of them breaks the condition.
fn ended_by<R: Threads + Sync>(
    rt: &R,
    alloc: Global,
    demand: Demand<'_>,
    start: &HuntStart,
    found: Option<&Found>,
) -> Result<Option<u64>, HuntFault>
    ensures { IfOk result (λ ended.
        ended ≡ ended_by demand.entry start.now (option_copied found.entry)) }
{
    match found {
        Some(_) => Ok(None),
        None => ended_of(rt, alloc, demand, start),
    }
}

/// The report of a hunt. What its workers do is reported to the gate.
fn report_by_hunt<F: ReportsSchedules, R: Threads + Sync, G: Gate + Send + Sync + Drop + 'static>(
    rt: &R,
    alloc: Global,
    options: &HuntOptions<'_>,
    start: &HuntStart,
    gate: G,
) -> Result<Report, HuntFault>
    requires { MayShare options.now.workers }
    ensures { IfOk result (λ report. report ≡ hunt_from F.reports options.now start.now) }
{
    gate.begun(start.search.range.n);
    let found = found_by(rt, alloc, options.demand, start, options.workers, gate)?;
    let found = found.as_ref();
    let ended = ended_by(rt, alloc, options.demand, start, found)?;
    Ok(F::hunt_report(alloc, options, start, found, ended)?)
}

/// The same, or what is missing for it.
#[tactic(auto, unfolding(commands::specs::Works::Makes))]
fn hunt_from<F: ReportsSchedules, R: Threads + Sync, G: Gate + Send + Sync + Drop + 'static>(
    rt: &R,
    alloc: Global,
    options: &HuntOptions<'_>,
    start: &HuntStart,
    gate: G,
) -> Result<Report, Fault>
    requires { MayShare options.now.workers }
    ensures { Makes (threads_work (hunt_from F.reports options.now start.now)) result }
{
    match report_by_hunt::<F, R, G>(rt, alloc, options, start, gate) {
        Ok(report) => Ok(report),
        Err(fault) => Err(hunt_fault(fault)),
    }
}

/// The text of the condition.
fn text_of<'a>(demand: Demand<'a>) -> &'a str
    ensures { result.now ≡ text_of demand.entry }
{
    match demand {
        Demand::Cond(text) | Demand::All(text) => text,
        Demand::Ends(text) | Demand::Recovered(text) => text,
    }
}

/// The report of `hunt`.
#[tactic(auto, using(commands::proofs::WorksInTurn::turns))]
pub(crate) fn report_hunt<
    F: ReportsSchedules,
    R: Threads + Sync,
    G: Gate + Send + Sync + Drop + 'static,
>(
    rt: &R,
    alloc: Global,
    options: &HuntOptions<'_>,
    program: &[u8],
    steps: &[u8],
    gate: G,
) -> Result<Report, Fault>
    requires { MayShare options.now.workers }
    ensures { Makes (hunt_work F.reports options.now program.now steps.now) result }
{
    let text = text_of(options.demand);
    let start = hunt_start(alloc, text, &options.schedules, program, steps)?;
    hunt_from::<F, R, G>(rt, alloc, options, &start, gate)
}
