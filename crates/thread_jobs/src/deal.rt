//! Threads that share a live machine.
ghost use Rattle.std.specs.Prelude.{◌≡◌, ◌≢◌, ℕ, ◌<◌, ◌≤◌, ◌++◌, List, IfOk, length, slice_index_or, vec_len};
ghost use Rattle.workers.specs.Limits.{MayShare};
ghost use Rattle.live.specs.Journal.{replay};
ghost use Rattle.live.specs.Seats.{AreFresh, fresh};
ghost use Rattle.live.specs.declared.fault.CloseRefusal.TheVariants.{MissingSeat};
ghost use Rattle.thread_jobs.specs.Dealings.{IsJournalOf, dealt};
ghost use Rattle.thread_jobs.specs.Brought.{AreAllBrought, AreBrought, HasMadeOwn, HasWorked};
ghost use Rattle.machine.specs.declared.step.Step.{Step};

use crate::fault::LiveEnd;
use crate::worker::{Dealing, Shared, Worked, work};
use live::{CloseRefusal, Closed, Live, Naming, Receipt, Seat};
use machine::{Machine, Step};
use outcomes::OrNoMemory;
use std::alloc::Global;
use std::sync::Wait;
use std::sync::ledger::Blank;
use std::thread;
use std::thread::{Promise, PromisedHandle, Scope, Threads};
use workers::Gate;

/// What a thread was started for: the steps of the seat of this number.
#[derive(Clone, Copy)]
pub(crate) struct Errand<'s> {
    number: u32,
    dealing: Dealing<'s>,
}

impl<'s, K: Naming> Promise<Worked<K>> for Errand<'s> {
    ghost use Rattle.std.specs.Prelude.{IfOk};
    ghost use Rattle.thread_jobs.specs.Brought.{HasMadeOwn};

    ghost kept_by = { λ e r. IfOk r (λ w. HasMadeOwn e.dealing e.number w.0 w.1.items) };
}

/// A thread that was started for an errand.
type Worker<'s, K> = PromisedHandle<Worked<K>, Errand<'s>>;

/// Starts a thread for each seat, up to the first that does not start.
///
/// # Errors
///
/// Out of memory. No thread was started.
fn start_all<
    's,
    E,
    K: Naming + Send + Sync + 's,
    R: Threads + Wait + Sync + 's,
    G: Gate + Sync + 's,
>(
    scope: &Scope<'s, E>,
    rt: &'s R,
    alloc: Global,
    shared: Shared<'s, K, G>,
    seats: Vec<Seat<K>>,
    dealing: Dealing<'s>,
) -> Result<Vec<Worker<'s, K>>, OrNoMemory<LiveEnd>>
    requires { (0 < dealing.threads) × AreFresh seats.items dealing.threads }
    ensures few { IfOk result (λ workers. vec_len workers ≤ dealing.entry.threads) }
    ensures errands { IfOk result (λ workers. (k : ℕ) (d : _) → k < vec_len workers
        → ((slice_index_or workers.items k d).promise.number ≡ k)
        × ((slice_index_or workers.items k d).promise.dealing.threads ≡ dealing.entry.threads)
        × ((slice_index_or workers.items k d).promise.dealing.steps.now ≡ dealing.entry.steps.now)) }
{
    let mut workers = Vec::with_capacity(alloc, seats.len())?;
    for seat in seats {
        let errand = Errand {
            number: seat.number(),
            dealing,
        };
        let job = move || -> Worked<K>
            requires { (0 < dealing.threads) × (seat ≡ fresh seat.number) }
            ensures { IfOk result (λ w. HasMadeOwn dealing.entry seat.number w.0 w.1.items) }
        { work(rt, alloc, shared, seat, dealing) };
        let Ok(worker) = scope.spawn_with(errand, job) else {
            break;
        };
        workers.push_reserved(worker);
    }
    Ok(workers)
}

/// Joins threads, and gives what they bring back, in order.
///
/// # Errors
///
/// Out of memory. All were joined.
fn join_all<'s, K: Naming, R: Threads>(
    rt: &R,
    workers: Vec<Worker<'s, K>>,
) -> Result<Vec<Worked<K>>, OrNoMemory<LiveEnd>>
    ensures len { IfOk result (λ all. vec_len all ≡ vec_len workers.entry) }
    ensures kept { IfOk result (λ all. (threads : ℕ) (steps : List Step)
        → ((k : ℕ) (d : _) → k < vec_len workers.entry
        → ((slice_index_or workers.entry.items k d).promise.number ≡ k)
        × ((slice_index_or workers.entry.items k d).promise.dealing.threads ≡ threads)
        × ((slice_index_or workers.entry.items k d).promise.dealing.steps.now ≡ steps))
        → (k : ℕ) (d : _) → k < vec_len all
        → IfOk (slice_index_or all.items k d)
        (λ w. HasWorked w.0 w.1.items k (dealt k threads steps))) }
{
    match thread::join_promised(rt, workers) {
        Ok(all) => Ok(all),
        Err(refused) => {
            for worker in refused.value {
                drop(worker.join(rt));
            }
            Err(OrNoMemory::NoMemory)
        }
    }
}

/// The receipts of both, in order. Those of the first seat are not copied.
///
/// # Errors
///
/// Out of memory.
fn joined(before: Vec<Receipt>, own: Vec<Receipt>) -> Result<Vec<Receipt>, OrNoMemory<LiveEnd>>
    ensures { IfOk result (λ all. all.items ≡ before.items ++ own.items) }
{
    if before.is_empty() {
        return Ok(own);
    }
    let mut all = before;
    let mut own = own;
    all.append(&mut own)?;
    Ok(all)
}

/// All seats, and all receipts one seat after another, of what threads brought back.
///
/// # Errors
///
/// Out of memory, also where a thread found none.
fn gathered<K: Naming>(
    alloc: Global,
    all: Vec<Worked<K>>,
) -> Result<(Vec<Seat<K>>, Vec<Receipt>), OrNoMemory<LiveEnd>>
    ensures { IfOk result (λ b. (threads : ℕ) (steps : List Step)
        → ((k : ℕ) (d : _) → k < vec_len all
        → IfOk (slice_index_or all.items k d)
        (λ w. HasWorked w.0 w.1.items k (dealt k threads steps)))
        → AreBrought (vec_len all) threads steps b.0.items b.1.items) }
{
    let mut seats = Vec::with_capacity(alloc, all.len())?;
    let mut receipts = Vec::new(alloc);
    for worked in all {
        let Ok((seat, own)) = worked else {
            return Err(OrNoMemory::NoMemory);
        };
        receipts = joined(receipts, own)?;
        seats.push_reserved(seat);
    }
    Ok((seats, receipts))
}

/// Deals the steps to the seats, and lets each make its own in a thread of the scope.
fn deal_in<'s, E, K: Naming + Send + Sync + 's, R: Threads + Wait + Sync + 's, G: Gate + Sync + 's>(
    scope: &Scope<'s, E>,
    rt: &'s R,
    alloc: Global,
    shared: Shared<'s, K, G>,
    seats: Vec<Seat<K>>,
    dealing: Dealing<'s>,
) -> Result<(Vec<Seat<K>>, Vec<Receipt>), OrNoMemory<LiveEnd>>
    requires { (0 < dealing.threads) × AreFresh seats.items dealing.threads }
    ensures { IfOk result (λ b. AreAllBrought dealing.entry b.0.items b.1.items) }
{
    let workers = start_all(scope, rt, alloc, shared, seats, dealing)?;
    let started = workers.len();
    let joined = join_all(rt, workers);
    if started < dealing.threads as usize {
        return Err(OrNoMemory::Fault(LiveEnd::NoThread));
    }
    gathered(alloc, joined?)
}

/// Deals the steps to the seats, lets each make its own in a thread, and waits for all that were started.
///
/// # Errors
///
/// Out of memory, or a thread that does not start.
fn deal<'x, K: Naming + Send + Sync, R: Threads + Wait + Sync, G: Gate + Sync>(
    rt: &'x R,
    alloc: Global,
    shared: Shared<'x, K, G>,
    seats: Vec<Seat<K>>,
    dealing: Dealing<'x>,
) -> Result<(Vec<Seat<K>>, Vec<Receipt>), OrNoMemory<LiveEnd>>
    requires { (0 < dealing.threads) × AreFresh seats.items dealing.threads }
    ensures { IfOk result (λ b. AreAllBrought dealing.entry b.0.items b.1.items) }
{
    thread::scope(
        thread::scope_env(),
        rt,
        |scope| -> Result<(Vec<Seat<K>>, Vec<Receipt>), OrNoMemory<LiveEnd>>
            requires { (0 < dealing.threads) × AreFresh seats.items dealing.threads }
            ensures { IfOk result (λ b. AreAllBrought dealing.entry b.0.items b.1.items) }
        { deal_in(scope, rt, alloc, shared, seats, dealing) },
    )
}

/// Closes a live machine with all its seats, of which each made the steps that it was dealt.
fn closed_with<K: Naming>(
    live: Live<K>,
    seats: Vec<Seat<K>>,
    receipts: Vec<Receipt>,
    dealing: Dealing<'_>,
) -> Result<Closed, OrNoMemory<LiveEnd>>
    requires threads { dealing.threads ≡ K.parts }
    requires brought { AreAllBrought dealing seats.items receipts.items }
    ensures dealt { IfOk result (λ c. IsJournalOf dealing.entry K.opening c.journal.items) }
    ensures replay { IfOk result (λ c. c.machine ≡ replay K.opening c.journal.items) }
{
    match live.close(seats, receipts) {
        Ok(closed) => Ok(closed),
        Err(fault) => Err(end_of(fault.why)),
    }
}

/// Deals the steps to the fresh seats of a live machine, and closes it when all have made theirs.
fn dealt_to<K: Naming + Send + Sync, R: Threads + Wait + Sync, G: Gate + Sync>(
    rt: &R,
    alloc: Global,
    live: Live<K>,
    seats: Vec<Seat<K>>,
    dealing: Dealing<'_>,
    gate: &G,
) -> Result<Closed, OrNoMemory<LiveEnd>>
    requires threads { (0 < dealing.threads) × (dealing.threads ≡ K.parts) }
    requires fresh { AreFresh seats.items dealing.threads }
    ensures dealt { IfOk result (λ c. IsJournalOf dealing.entry K.opening c.journal.items) }
    ensures replay { IfOk result (λ c. c.machine ≡ replay K.opening c.journal.items) }
{
    let shared = Shared { live: &live, gate };
    match deal(rt, alloc, shared, seats, dealing) {
        Ok((seats, receipts)) => closed_with(live, seats, receipts, dealing),
        Err(end) => Err(end),
    }
}

/// Opens the machine for so many threads, deals the steps to them, and closes it when they have ended.
///
/// # Errors
///
/// Out of memory, a thread that does not start, or a receipt that is not in the journal.
pub(crate) fn dealt_on<K: Naming + Send + Sync, R: Threads + Wait + Sync, G: Gate + Sync>(
    rt: &R,
    alloc: Global,
    machine: Machine,
    blank: Blank,
    dealing: Dealing<'_>,
    gate: &G,
) -> Result<Closed, OrNoMemory<LiveEnd>>
    requires state { machine ≡ K.opening }
    requires ledger { (blank.name ≡ K.name) × (blank.parts ≡ K.parts) }
    requires threads { (blank.parts ≡ dealing.threads) × MayShare dealing.threads }
    ensures dealt { IfOk result (λ c. IsJournalOf dealing.entry machine c.journal.items) }
    ensures replay { IfOk result (λ c. c.machine ≡ replay machine c.journal.items) }
{
    match Live::<K>::new(alloc, machine, blank, dealing.threads) {
        Ok((live, seats)) => dealt_to(rt, alloc, live, seats, dealing, gate),
        Err(_) => Err(OrNoMemory::NoMemory),
    }
}

/// Why there is no report where a close was refused with all seats at hand.
fn end_of(why: CloseRefusal) -> OrNoMemory<LiveEnd>
    requires { why ≢ MissingSeat }
{
    match why {
        CloseRefusal::Stranger(receipt, _) => OrNoMemory::Fault(LiveEnd::Stranger(receipt.number)),
        CloseRefusal::MissingSeat => unreachable!(),
    }
}
