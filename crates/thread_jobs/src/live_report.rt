//! The report of `live`.
ghost use Rattle.std.specs.Prelude.{◌≡◌, IfOk, Ok, length, map};
ghost use Rattle.commands.specs.Serving.{MakesReport};
ghost use Rattle.commands.specs.Works.{MakesOneOf};
ghost use Rattle.thread_jobs.specs.JournalForms.{IsReportOf};
ghost use Rattle.thread_jobs.specs.ThreadReports.{live_command, live_fault, live_stages, IsLiveAnswer};
ghost use Rattle.workers.specs.Limits.{MayShare};

use crate::deal::dealt_on;
use crate::fault::LiveEnd;
use crate::journal_form::ReportsJournals;
use crate::worker::Dealing;
use commands::{Fault, Missing, Report, Sources, Stage, read_lined, read_list};
use litmus_text::LinedObject;
use live::Closed;
use machine::{Machine, Step};
use outcomes::OrNoMemory;
use std::alloc::Global;
use std::marker::Brand;
use std::sync::Wait;
use std::sync::ledger::Blank;
use std::thread::Threads;
use workers::Gate;

/// What is reported of a live machine that gives no report.
fn live_fault(end: OrNoMemory<LiveEnd>) -> Fault
    ensures { result ≡ live_fault end }
{
    match end {
        OrNoMemory::Fault(LiveEnd::NoThread) => Stage::Threads.missing(),
        OrNoMemory::Fault(LiveEnd::Stranger(number)) => Fault::Missing(Missing::Receipt(number)),
        OrNoMemory::NoMemory => Stage::Journal.missing(),
    }
}

/// The report of a machine that was closed, in a form.
fn closed_report<F: ReportsJournals>(
    alloc: Global,
    lined: &LinedObject,
    closed: &Closed,
) -> Result<Report, OrNoMemory<LiveEnd>>
    requires { closed.now.machine.shape ≡ map length lined.now.object.layout }
    ensures { IfOk result (λ report. report
        ≡ F.journals lined.now closed.now.journal.items closed.now.machine) }
{
    Ok(F::journal_report(alloc, lined, closed)?)
}

/// The report of steps that many threads make on a machine. The program names its words.
///
/// There are 1 to `MAX_SEATS` threads. Step `i` is made by thread `i mod threads`, and each thread makes its steps in
/// their order; in which order the steps of different threads come is not known. Before a thread makes step
/// `i` it tells the gate so. A step that the machine refuses is in the journal with the refusal.
///
/// # Errors
///
/// Out of memory, a thread that does not start, or a receipt that is not in the journal. No clause
/// rules the last one out. All threads that were started have ended.
fn dealt_report<F: ReportsJournals, R: Threads + Wait + Sync, G: Gate + Sync>(
    rt: &R,
    alloc: Global,
    lined: &LinedObject,
    machine: Machine,
    dealing: Dealing<'_>,
    gate: &G,
) -> Result<Report, OrNoMemory<LiveEnd>>
    requires shape { machine.shape ≡ map length lined.now.object.layout }
    requires threads { MayShare dealing.threads }
    ensures { IfOk result (λ report. IsReportOf F.journals dealing.entry lined.now machine report) }
{
    let blank = Blank::new(dealing.threads as u64);
    match dealt_on::<Brand, R, G>(rt, alloc, machine, blank, dealing, gate) {
        Ok(closed) => closed_report::<F>(alloc, lined, &closed),
        Err(end) => Err(end),
    }
}

/// The report of steps that so many threads make on the machine of a program.
#[tactic(auto, unfolding(commands::specs::Works::MakesOneOf))]
fn live_on<F: ReportsJournals, R: Threads + Wait + Sync, G: Gate + Sync>(
    rt: &R,
    alloc: Global,
    threads: u32,
    lined: &LinedObject,
    steps: &[Step],
    gate: &G,
) -> Result<Report, Fault>
    requires { MayShare threads }
    ensures { MakesOneOf (IsLiveAnswer F.journals threads (lined.now, steps.now)) live_stages result }
{
    let Ok(machine) = Machine::load(alloc, &lined.object) else {
        return Err(Stage::Machine.missing());
    };
    let dealing = Dealing { steps, threads };
    match dealt_report::<F, R, G>(rt, alloc, lined, machine, dealing, gate) {
        Ok(report) => Ok(report),
        Err(end) => Err(live_fault(end)),
    }
}

/// The report of `live`, in the form `F`.
pub(crate) fn report_live<F: ReportsJournals, R: Threads + Wait + Sync, G: Gate + Sync + Drop>(
    rt: &R,
    alloc: Global,
    threads: u32,
    sources: &Sources,
    gate: G,
) -> Result<Report, Fault>
    requires { MayShare threads }
    ensures { MakesReport (live_command F.journals threads) (Ok sources.now) result }
{
    let lined = read_lined(alloc, &sources.program)?;
    let steps = read_list(alloc, &sources.steps)?;
    live_on::<F, R, G>(rt, alloc, threads, &lined, &steps, &gate)
}
