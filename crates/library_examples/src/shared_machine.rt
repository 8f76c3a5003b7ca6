//! One machine that threads share.
ghost use Rattle.std.specs.Prelude.{◌≡◌, IfOk};
ghost use Rattle.px86_machine.specs.Threads.{IsLegal, MayShare, replay};

use anyhow::{Result, bail};
use px86_machine::{Closed, Live, Machine, Naming, Seat, Step, read_litmus};
use std::alloc::Global;
use std::marker::Brand;
use std::sync::Wait;
use std::sync::ledger::Blank;
use std::thread;
use std::thread::Threads;

/// Two processors, each of which adds 1 to the same word.
const TWO_SUMS: &str = "litmus 1\nline sum
cpu\nmov rax, 1\nlock xadd [sum], rax\nend
cpu\nmov rax, 1\nlock xadd [sum], rax\nend\n";

/// The seat after the calls of one thread: two instructions of the processor that has the seat's number.
fn called<K: Naming, R: Wait>(rt: &R, live: &Live<K>, seat: Seat<K>) -> Option<Seat<K>> {
    let mut seat = seat;
    let processor = seat.number();
    for _ in 0..2 {
        live.step(rt, &mut seat, Step::Exec(processor)).ok()?;
    }
    Some(seat)
}

/// The machine and the journal of all calls after so many threads have ended, each of which had a seat.
fn shared<K: Naming + Send + Sync, R: Threads + Wait + Sync>(
    rt: &R,
    alloc: Global,
    machine: Machine,
    blank: Blank,
    threads: u32,
) -> Result<Closed>
    requires state { machine ≡ K.opening }
    requires ledger { (blank.name ≡ K.name) × (blank.parts ≡ K.parts) }
    requires threads { (blank.parts ≡ threads) × MayShare threads }
    ensures legal { IfOk result (λ closed. IsLegal machine closed.journal.items) }
    ensures replay { IfOk result (λ closed. closed.machine ≡ replay machine closed.journal.items) }
{
    let Ok((live, seats)) = Live::<K>::new(alloc, machine, blank, threads) else {
        bail!("no memory for the seats");
    };
    let work = |seat: Seat<K>| called(rt, &live, seat);
    let all = thread::map_vec(rt, seats, &work)?;
    let mut seats = Vec::new(alloc);
    let mut receipts = Vec::new(alloc);
    for seat in all.into_iter().flatten() {
        if let Some(receipt) = seat.last() {
            receipts.push(receipt)?;
        }
        seats.push(seat)?;
    }
    match live.close(seats, receipts) {
        Ok(closed) => Ok(closed),
        Err(refused) => bail!("{}", refused.why),
    }
}

/// The same of a machine that nobody else has, and of two threads.
pub fn journal<R: Threads + Wait + Sync>(rt: &R, alloc: Global, machine: Machine) -> Result<Closed>
    ensures legal { IfOk result (λ closed. IsLegal machine closed.journal.items) }
    ensures replay { IfOk result (λ closed. closed.machine ≡ replay machine closed.journal.items) }
{
    shared::<Brand, R>(rt, alloc, machine, Blank::new(2), 2)
}

/// Prints how many calls two threads made, and what they left: the same in whatever order they came.
pub fn show<R: Print + Threads + Wait + Sync>(rt: &R, alloc: Global) -> Result<()> {
    let object = read_litmus(alloc, TWO_SUMS.as_bytes())?;
    let sum = object.layout().word(b"sum");
    let machine = Machine::load(alloc, &object);
    drop(object);
    let closed = journal(rt, alloc, machine?)?;
    let calls = closed.journal.len();
    let value = sum.and_then(|word| closed.machine.view().coherent(word));
    drop(closed);
    println!(rt; "{calls} calls, sum {value:?}")?;
    Ok(())
}
