//! Starting the workers of a hunt, joining them, and drawing the conclusion.
ghost use Rattle.std.specs.Prelude.{◌≡◌, ◌<◌, ◌≤◌, IfOk, OnOk, All, vec_len, vec_capacity};
ghost use Rattle.std.specs.Arc.{arc_value};
ghost use Rattle.machine.specs.Programs.{AreSiblings};
ghost use Rattle.workers.specs.Limits.{max_numbers, MayShare};
ghost use Rattle.hunt.specs.Seats.{limit_of, seats_of};
ghost use Rattle.hunt.specs.Errands.{WorksFor};
ghost use Rattle.hunt.specs.Known.{least_found, told_by, IsTargetOf};
ghost use Rattle.hunt.specs.Searches.{crash_of, least_broken_end, least_crash, least_end, IsLeastIfBroken, IsLeastIfSome, IsNoneIfKept, IsNoneIfSafe};
ghost use Rattle.hunt.specs.Returns.{IsReady, Worked};

use crate::errand::{Errand, Returned, Worker};
use crate::fault::{HuntFault, NoThread};
use crate::found::{Found, lesser};
use crate::least_turn::loss_on;
use crate::loss::Loss;
use crate::search::{Asked, Search, Target};
use crate::seats::{Board, Seat};
use crate::worker::work;
use std::alloc::{AllocError, Global};
use std::snapshot::Snapshot;
use std::sync::Arc;
use std::thread;
use std::thread::Threads;
use workers::Gate;

/// What the workers share.
#[derive(Drop)]
struct Task<G> {
    board: Board,
    target: Target,
    gate: G,
}

/// Starts the worker of a seat.
fn start<R: Threads, G: Gate + Send + Sync + Drop + 'static>(
    rt: &R,
    alloc: Global,
    task: &Arc<Task<G>, Global>,
    seat: Seat,
) -> Result<Worker, HuntFault>
    requires { IsReady (arc_value task.now).board seat }
    ensures { IfOk result (WorksFor (arc_value task.now).board (arc_value task.now).target) }
{
    let Ok(own) = task.target.search.machine.copy(alloc) else {
        return Err(HuntFault::NoMemory);
    };
    let Ok(theirs) = Arc::try_clone(task) else {
        return Err(HuntFault::Fault(NoThread));
    };
    let errand = Errand {
        board: Snapshot::of(&task.board),
        target: Snapshot::of(&task.target),
    };
    let worker = thread::spawn_with(
        rt,
        errand,
        move || -> Result<Returned, AllocError>
            requires seat { IsReady (arc_value theirs).board seat }
            requires own { AreSiblings own (arc_value theirs).target.search.machine }
            ensures { IfOk result (Worked (arc_value theirs).board (arc_value theirs).target) }
        {
            let task: &Task<G> = &theirs;
            let mut own = own;
            work(alloc, &task.board, &task.gate, &task.target, &mut own, seat)
        },
    );
    worker.ok().ok_or(HuntFault::Fault(NoThread))
}

/// Starts a worker for each seat, until one is refused.
fn start_all<R: Threads, G: Gate + Send + Sync + Drop + 'static>(
    rt: &R,
    alloc: Global,
    task: &Arc<Task<G>, Global>,
    mut seats: Vec<Seat>,
    workers: &mut Vec<Worker>,
) -> Result<(), HuntFault>
    requires seats { All (IsReady (arc_value task.now).board) seats.items }
    requires room { (vec_len workers.old ≡ 0) × (vec_len seats ≤ vec_capacity workers.old) }
    ensures each { All (WorksFor (arc_value task.now).board (arc_value task.now).target) workers.new.items }
    ensures room { vec_len workers.new ≤ vec_len seats }
    ensures started { OnOk result (vec_len workers.new ≡ vec_len seats) }
{
    while let Some(seat) = seats.pop() {
        workers.push_reserved(start(rt, alloc, task, seat)?);
    }
    Ok(())
}

/// Joins each worker, and takes what it brings back. The only error is that one of them ran out of memory.
fn join_all<R: Threads>(
    rt: &R,
    board: &Board,
    target: &Target,
    mut workers: Vec<Worker>,
    back: &mut Vec<Returned>,
) -> Result<(), AllocError>
    requires each { All (WorksFor board.now target.now) workers.items }
    requires room { (vec_len back.old ≡ 0) × (vec_len workers ≤ vec_capacity back.old) }
    ensures back { All (Worked board.now target.now) back.new.items }
    ensures all { OnOk result (vec_len back.new ≡ vec_len workers) }
{
    let mut worked = Ok(());
    while let Some(worker) = workers.pop() {
        match worker.join(rt) {
            Ok(returned) => back.push_reserved(returned),
            Err(_) => worked = Err(AllocError),
        }
    }
    worked
}

/// What was found of the least claim that all workers together reported.
fn conclusion(board: &Board, target: &Target, mut back: Vec<Returned>) -> Option<Found>
    requires back { All (Worked board.now target.now) back.items }
    requires all { (vec_len back ≡ seats_of board.now) × (0 < vec_len back) }
    requires fits { limit_of board.now ≤ max_numbers }
    ensures { result ≡ told_by board.now target.now }
{
    let Some(Returned { seat, mut found }) = back.pop() else {
        unreachable!()
    };
    let mut whole = board.gather(seat);
    while let Some(returned) = back.pop() {
        let Returned { seat, found: other } = returned;
        board.absorb(&mut whole, seat);
        found = lesser(found, other);
    }
    let least = board.settle(&mut whole);
    if least == u64::MAX { None } else { found }
}

/// What workers share that search on this board.
fn shared<G: Drop>(
    alloc: Global,
    search: &Search,
    asked: Asked,
    board: Board,
    gate: G,
) -> Result<Arc<Task<G>, Global>, HuntFault>
    ensures board { IfOk result (λ task. (arc_value task).board ≡ board) }
    ensures target { IfOk result (λ task. IsTargetOf search.now asked (arc_value task).target) }
{
    let search = search.copy(alloc)?;
    let target = Target {
        cond_reads_registers: search.cond.reads_registers(),
        search,
        asked,
    };
    Ok(Arc::new(
        alloc,
        Task {
            board,
            target,
            gate,
        },
    )?)
}

/// Starts a worker for each seat, joins those that were started, and draws the conclusion.
fn found_by<R: Threads, G: Gate + Send + Sync + Drop + 'static>(
    rt: &R,
    alloc: Global,
    task: &Arc<Task<G>, Global>,
    seats: Vec<Seat>,
) -> Result<Option<Found>, HuntFault>
    requires seats { All (IsReady (arc_value task.now).board) seats.items }
    requires all { (vec_len seats ≡ seats_of (arc_value task.now).board) × (0 < vec_len seats) }
    requires fits { limit_of (arc_value task.now).board ≤ max_numbers }
    ensures { IfOk result (λ found. found ≡ told_by (arc_value task.now).board (arc_value task.now).target) }
{
    let mut threads = Vec::with_capacity(alloc, seats.len())?;
    let mut back = Vec::with_capacity(alloc, seats.len())?;
    let started = start_all(rt, alloc, task, seats, &mut threads);
    let worked = join_all(rt, &task.board, &task.target, threads, &mut back);
    started?;
    worked?;
    Ok(conclusion(&task.board, &task.target, back))
}

/// What is found of the smallest number of the range whose schedule breaks the condition where it is asked, None where there
/// is none.
fn least_found<R: Threads, G: Gate + Send + Sync + Drop + 'static>(
    rt: &R,
    alloc: Global,
    search: &Search,
    asked: Asked,
    workers: u64,
    gate: G,
) -> Result<Option<Found>, HuntFault>
    requires { MayShare workers }
    ensures { IfOk result (λ found. found ≡ least_found asked search.now) }
{
    let (board, seats) = Board::new(alloc, search.range.n, workers)?;
    let task = shared(alloc, search, asked, board, gate)?;
    found_by(rt, alloc, &task, seats)
}

/// The smallest number of the range whose schedule ends where the condition does not hold, None where there is none. It is the
/// same for any number of workers, from 1 to `MAX_SEATS`, in whatever order they work. The number of each schedule that a
/// worker claims is reported to the gate before it runs, and again when it was run. Every worker that was started is joined
/// before the call answers. Answers over adjoining ranges are put together as `laws::hunts_join` says.
///
/// # Errors
///
/// Out of memory, and `NoThread` where a worker could not be started.
pub fn hunt<R: Threads, G: Gate + Send + Sync + Drop + 'static>(
    rt: &R,
    alloc: Global,
    search: &Search,
    workers: u64,
    gate: G,
) -> Result<Option<u64>, HuntFault>
    requires { MayShare workers }
    ensures { IfOk result (λ found. found ≡ least_end search.now) }
{
    match least_found(rt, alloc, search, Asked::Last, workers, gate)? {
        Some(found) => Ok(Some(found.number)),
        None => Ok(None),
    }
}

/// The smallest number of the range whose schedule comes to an end, after a crash or before the first one, where the condition does
/// not hold.
fn first_broken_end<R: Threads, G: Gate + Send + Sync + Drop + 'static>(
    rt: &R,
    alloc: Global,
    search: &Search,
    recovered: bool,
    workers: u64,
    gate: G,
) -> Result<Option<u64>, HuntFault>
    requires { MayShare workers }
    ensures { IfOk result (λ found. found ≡ least_broken_end recovered search.now) }
{
    match least_found(rt, alloc, search, Asked::Ends(recovered), workers, gate)? {
        Some(Found { number, .. }) => Ok(Some(number)),
        None => Ok(None),
    }
}

/// The smallest number of the range whose schedule comes to an end where the condition does not hold, None where there is none.
/// An end is what `explore` calls so: each processor has nothing left to do, and nothing is pending; all run their recovery programs,
/// or where these are not asked about, their main programs. A schedule comes to one where its last state is one. How many do,
/// [`count_ends`](crate::count_ends) says: None speaks of these alone.
///
/// It is the same for any number of workers, and what they do is reported to the gate, as by [`hunt`]. Answers over adjoining
/// ranges are put together as `laws::hunts_join` says.
///
/// # Errors
///
/// Those of [`hunt`].
pub fn hunt_ended<R: Threads, G: Gate + Send + Sync + Drop + 'static>(
    rt: &R,
    alloc: Global,
    search: &Search,
    recovered: bool,
    workers: u64,
    gate: G,
) -> Result<Option<u64>, HuntFault>
    requires { MayShare workers }
    ensures least { IfOk result (λ found. found ≡ least_broken_end recovered search.now) }
    ensures kept { IfOk result (IsNoneIfKept recovered search.now) }
    ensures broken { IfOk result (IsLeastIfBroken recovered search.now) }
{
    first_broken_end(rt, alloc, search, recovered, workers, gate)
}

/// The first schedule of the range that breaks the condition by what a crash may leave, its least turn, and what breaks it
/// there.
fn first_loss<R: Threads, G: Gate + Send + Sync + Drop + 'static>(
    rt: &R,
    alloc: Global,
    search: &Search,
    workers: u64,
    gate: G,
) -> Result<Option<Loss>, HuntFault>
    requires { MayShare workers }
    ensures { IfOk result (λ found. found ≡ least_crash search.now) }
{
    match least_found(rt, alloc, search, Asked::Crashes, workers, gate)? {
        Some(found) => Ok(found.loss),
        None => Ok(None),
    }
}

/// The smallest number of the range whose schedule breaks the condition by what a crash may leave after one of its turns, the
/// least such turn, and what breaks the condition there. Answers over adjoining ranges are put together as
/// `laws::losses_join` says.
///
/// For the machine of a program, whatever steps it made (`laws::loaded_machines_are_sound`), none says that no crash after
/// any turn of any of these schedules, nor before their first, leaves a memory that breaks the condition. A loss says
/// that its schedule and its turn are the first after which one may, and its image is the least of those that it may leave.
///
/// It is the same for any number of workers, and what they do is reported to the gate, as by [`hunt`].
///
/// # Errors
///
/// Those of [`hunt`]. Memory may also run out for a worker, which lists images.
pub fn hunt_crashes<R: Threads, G: Gate + Send + Sync + Drop + 'static>(
    rt: &R,
    alloc: Global,
    search: &Search,
    workers: u64,
    gate: G,
) -> Result<Option<Loss>, HuntFault>
    requires { MayShare workers }
    ensures least { IfOk result (λ found. found ≡ least_crash search.now) }
    ensures safe { IfOk result (IsNoneIfSafe search.now) }
    ensures broken { IfOk result (IsLeastIfSome search.now) }
{
    first_loss(rt, alloc, search, workers, gate)
}

/// The least turn of the schedule of a number after which a crash may leave what breaks the condition, and what breaks
/// it there. None where no turn is such. The only error is out of memory.
pub fn loss_of(alloc: Global, search: &Search, number: u64) -> Result<Option<Loss>, AllocError>
    ensures { IfOk result (λ found. found ≡ crash_of search.now number) }
{
    let Ok(mut own) = search.machine.copy(alloc) else {
        return Err(AllocError);
    };
    let cond_reads_registers = search.cond.reads_registers();
    loss_on(alloc, search, cond_reads_registers, &mut own, number)
}
