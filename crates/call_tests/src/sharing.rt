//! Threads that make steps of all kinds, looks, and steps that are refused, on one machine.
ghost use Rattle.std.specs.Prelude.{◌≡◌};
ghost use Rattle.workers.specs.Limits.{MayShare};

use crate::machines::{LOOPS, loaded};
use crate::refusals::{refuse, say, spare};
use crate::seat_calls::called;
use crate::states::are_same;
use live::{Answer, Closed, JournalEntry, Live, Naming, Receipt, Seat};
use machine::{Machine, Seen, Step};
use std::alloc::Global;
use std::io::Eprint;
use std::marker::Brand;
use std::sync::Wait;
use std::sync::ledger::Blank;
use std::test::Fail;
use std::thread;
use std::thread::Threads;

/// The step that the call of this number makes for a seat, unless it is a look. Of ten calls three run an instruction and
/// two let an entry leave. Then a write and a marker may persist, a step names no line, and the last crashes once in 500
/// calls, and names no processor otherwise.
fn asked(seat: u32, number: u32) -> Option<Step> {
    let own = seat % 2;
    match number % 10 {
        0 | 1 | 2 => Some(Step::Exec(own)),
        3 | 5 => Some(Step::Drain(own, 0)),
        4 => None,
        6 => Some(Step::Persist(own)),
        7 => Some(Step::Settle),
        8 => Some(Step::Persist(63)),
        _ if number % 500 == 29 => Some(Step::Crash),
        _ => Some(Step::Exec(9)),
    }
}

/// Adds the receipts of so many calls of a seat. Where there is no room for a receipt, a second try finds some.
fn call<K: Naming, R: Wait + Eprint>(
    rt: &R,
    live: &Live<K>,
    seat: &mut Seat<K>,
    receipts: &mut Vec<Receipt>,
    count: u32,
) -> Option<()> {
    for number in 0..count {
        let step = asked(seat.number(), number);
        let receipt = called(rt, live, seat, step)?;
        let _ = receipts.reserve(1);
        receipts.push(receipt).ok()?;
    }
    Some(())
}

/// The seat and the receipts of so many calls.
fn made<K: Naming, R: Wait + Eprint>(
    rt: &R,
    alloc: Global,
    live: &Live<K>,
    seat: Seat<K>,
    count: u32,
) -> Option<(Seat<K>, Vec<Receipt>)> {
    let mut seat = seat;
    let mut receipts = Vec::new(alloc);
    let made = call(rt, live, &mut seat, &mut receipts, count);
    made.and(Some((seat, receipts)))
}

/// Adds a seat and its receipts to those of others.
fn add<K: Naming>(
    seats: &mut Vec<Seat<K>>,
    receipts: &mut Vec<Receipt>,
    made: Option<(Seat<K>, Vec<Receipt>)>,
) -> Option<()> {
    let (seat, mut own) = made?;
    receipts.append(&mut own).ok()?;
    seats.push(seat).ok()
}

/// All seats, and all receipts.
fn gathered<K: Naming>(
    alloc: Global,
    all: Vec<Option<(Seat<K>, Vec<Receipt>)>>,
) -> Option<(Vec<Seat<K>>, Vec<Receipt>)> {
    let mut seats = Vec::new(alloc);
    let mut receipts = Vec::new(alloc);
    let mut are_all = Some(());
    for made in all {
        are_all = are_all.and(add(&mut seats, &mut receipts, made));
    }
    are_all.and(Some((seats, receipts)))
}

/// Why there is no journal.
#[derive(Clone, Copy, Debug, PartialEq, Eq)]
enum End {
    /// The machine was not opened, or its threads were not gathered: memory was refused.
    Refused,
    /// A call was not made when it was made again, or the machine was not closed with all receipts.
    Wrong,
}

/// The same, unless memory was refused as threads were started or gathered.
fn all_gathered<K: Naming>(
    alloc: Global,
    all: Option<Vec<Option<(Seat<K>, Vec<Receipt>)>>>,
) -> Result<(Vec<Seat<K>>, Vec<Receipt>), End> {
    gathered(alloc, all.ok_or(End::Refused)?).ok_or(End::Wrong)
}

/// The journal of a machine on which so many threads make so many calls each. All their receipts are in it.
fn shared<K: Naming + Send + Sync, R: Threads + Wait + Eprint + Sync>(
    rt: &R,
    alloc: Global,
    machine: Machine,
    blank: Blank,
    threads: u32,
    count: u32,
) -> Result<Closed, End>
    requires state { machine ≡ K.opening }
    requires ledger { (blank.name ≡ K.name) × (blank.parts ≡ K.parts) }
    requires threads { (blank.parts ≡ threads) × MayShare threads }
{
    refuse(rt);
    let live = Live::<K>::new(alloc, machine, blank, threads).ok();
    let (live, seats) = live.ok_or(End::Refused)?;
    let work = |seat: Seat<K>| made(rt, alloc, &live, seat, count);
    let all = thread::map_vec(rt, seats, &work).ok();
    spare(rt);
    match all_gathered(alloc, all) {
        Ok((seats, receipts)) => live.close(seats, receipts).ok().ok_or(End::Wrong),
        Err(end) => {
            drop(live);
            Err(end)
        }
    }
}

/// The same of a machine that nobody else has.
fn journal<R: Threads + Wait + Eprint + Sync>(
    rt: &R,
    alloc: Global,
    machine: Machine,
    threads: u32,
    count: u32,
) -> Result<Closed, End>
    requires { MayShare threads }
{
    let blank = Blank::new(threads as u64);
    shared::<Brand, R>(rt, alloc, machine, blank, threads, count)
}

/// Whether a machine answers each call of a journal as the journal has it, and ends in the same state.
fn repeats(alloc: Global, plain: &mut Machine, closed: &Closed) -> bool {
    for entry in &closed.journal {
        if entry.call.made_on(plain) != entry.answer {
            return false;
        }
    }
    are_same(alloc, &plain.view(), &closed.machine.view())
}

/// Whether a plain machine does so.
fn is_one_run(alloc: Global, closed: &Closed) -> Result<bool, Fail> {
    let mut plain = loaded(alloc, LOOPS)?;
    let repeats = repeats(alloc, &mut plain, closed);
    drop(plain);
    Ok(repeats)
}

/// A number for what an entry is: a refused step, a look, or an accepted step of one of the five kinds.
fn kind_of(entry: &JournalEntry) -> u32 {
    match entry.answer {
        Answer::Made(Err(_)) => 0,
        Answer::Looked(_) => 1,
        Answer::Made(Ok(Seen::Ran(..))) => 2,
        Answer::Made(Ok(Seen::Left(..))) => 3,
        Answer::Made(Ok(Seen::Persisted(..))) => 4,
        Answer::Made(Ok(Seen::Settled(_))) => 5,
        Answer::Made(Ok(Seen::Crashed(_))) => 6,
    }
}

/// Whether a journal has an entry of this kind.
fn has(closed: &Closed, kind: u32) -> bool {
    for entry in &closed.journal {
        if kind_of(entry) == kind {
            return true;
        }
    }
    false
}

/// Whether it has an entry of each kind.
fn has_all_kinds(closed: &Closed) -> bool {
    for kind in 0..7 {
        if !has(closed, kind) {
            return false;
        }
    }
    true
}

/// Eight threads make 1,000 calls each, of all kinds. All are in one journal, whose answers and end are those of a
/// plain machine. After the last crash its thread makes 470 calls more: the first marker that then is pending has one
/// write before it at most, which the thread that drained it lets persist; and then the marker may.
#[test]
fn eight_threads_are_one_run(rt: HostRuntime) -> Result<(), Fail> {
    let alloc = rt.alloc();
    let machine = loaded(alloc, LOOPS)?;
    let closed = journal(&rt, alloc, machine, 8, 1000)?;
    let has_all = closed.journal.len() == 8000 && has_all_kinds(&closed);
    let is_one_run = is_one_run(alloc, &closed);
    drop(closed);
    assert!(rt; is_one_run? && has_all);
    Ok(())
}

/// Whether a journal has 120 calls, and they are one run.
fn is_run_of_120(alloc: Global, closed: Closed) -> Result<bool, Fail> {
    let are_all = closed.journal.len() == 120;
    let is_one_run = is_one_run(alloc, &closed);
    drop(closed);
    Ok(is_one_run? && are_all)
}

/// Three threads make 40 calls each. Where one finds no memory, its thread makes it again, and the journal has it once. A
/// refusal at the opening, or as threads are gathered, ends the run.
#[test]
fn refused_calls_are_made_again(rt: HostRuntime) -> Result<(), Fail> {
    let alloc = rt.alloc();
    let machine = loaded(alloc, LOOPS)?;
    let is_right = match journal(&rt, alloc, machine, 3, 40) {
        Ok(closed) => is_run_of_120(alloc, closed)?,
        Err(End::Refused) => {
            say(&rt, "ended");
            true
        }
        Err(End::Wrong) => false,
    };
    assert!(rt; is_right);
    Ok(())
}
