//! Crate `machine`: what steps answer, and what `check` says of them before; calls that take memory.
use crate::fixtures::{executed, loaded, machine_of, program, storing, word};
use isa::{Instr, MemoryOperand, Program, Programs, Reg, Source};
use machine::{Act, Entry, Machine, Refusal, Seen, Step};
use persist_buffer::PendingEntry;
use std::alloc::{AllocError, Global};
use std::process::Abort;
use std::test::Fail;

/// Asks the steps of a table, of `check` and of `step`.
fn steps(rt: &impl Abort, machine: &mut Machine, table: &[(Step, Result<Seen, Refusal>)]) {
    for (step, answer) in table {
        assert!(rt; machine.check(*step) == answer.err(), "{step:?}");
        assert!(rt; machine.step(*step) == *answer, "{step:?}");
    }
}

/// The program runs to its end, and the store buffer drains.
fn run_and_drain(rt: &impl Abort, machine: &mut Machine) -> Result<(), Fail> {
    let (x, y) = (word(0)?, word(8)?);
    let (write_x, flush_x, write_y) = (
        Entry::Write(x, 1),
        Entry::Flush(x.line()),
        Entry::Write(y, 2),
    );
    let table = [
        (Step::Exec(1), Err(Refusal::NoCpu)),
        (Step::Drain(0, 0), Err(Refusal::NoEntry)),
        (Step::Exec(0), Ok(Seen::Ran(0, 0, Act::Delay(write_x)))),
        (Step::Exec(0), Ok(Seen::Ran(0, 1, Act::Delay(flush_x)))),
        (Step::Exec(0), Ok(Seen::Ran(0, 2, Act::Delay(write_y)))),
        (Step::Exec(0), Err(Refusal::BufferNotEmpty)),
        (Step::Drain(0, 2), Err(Refusal::Held(0))),
        (Step::Drain(0, 0), Ok(Seen::Left(0, 0, write_x))),
        (Step::Drain(0, 0), Ok(Seen::Left(0, 0, flush_x))),
        (Step::Drain(0, 0), Ok(Seen::Left(0, 0, write_y))),
        (Step::Exec(0), Ok(Seen::Ran(0, 3, Act::Fence))),
        (
            Step::Exec(0),
            Ok(Seen::Ran(0, 4, Act::Locked(x, 1, Some(0)))),
        ),
        (Step::Exec(0), Err(Refusal::Halted)),
    ];
    steps(rt, machine, &table);
    Ok(())
}

/// What is pending then is persisted, and a crash starts recovery.
fn persist_and_crash(rt: &impl Abort, machine: &mut Machine) -> Result<(), Fail> {
    let (x, y) = (word(0)?, word(8)?);
    let table = [
        (Step::Persist(2), Err(Refusal::NoLine)),
        (Step::Persist(1), Err(Refusal::BehindMarker)),
        (Step::Settle, Err(Refusal::MarkerWaits)),
        (Step::Persist(0), Ok(Seen::Persisted(x, 1))),
        (Step::Settle, Ok(Seen::Settled(x.line()))),
        (Step::Settle, Err(Refusal::NoMarker)),
        (Step::Persist(1), Ok(Seen::Persisted(y, 2))),
        (Step::Persist(1), Err(Refusal::NoPending)),
        (Step::Crash, Ok(Seen::Crashed(1))),
        (Step::Exec(0), Ok(Seen::Ran(0, 0, Act::Read(x, 1)))),
        (Step::Crash, Ok(Seen::Crashed(2))),
    ];
    steps(rt, machine, &table);
    Ok(())
}

/// Both, one after the other.
fn run_and_crash(rt: &impl Abort, machine: &mut Machine) -> Result<(), Fail> {
    run_and_drain(rt, machine)?;
    persist_and_crash(rt, machine)
}

#[test]
fn check_says_what_steps_answer(rt: HostRuntime) -> Result<(), Fail> {
    let mut machine = loaded(rt.alloc())?;
    let answered = run_and_crash(&rt, &mut machine);
    drop(machine);
    answered
}

/// A processor that stores 7 to the word at the address 4097, which is none; after a crash it does nothing.
fn trapping(alloc: Global) -> Result<Programs, Fail> {
    let code = [
        Instr::Set(Reg::Rax, Source::Number(4097)),
        Instr::Memory(storing(7), MemoryOperand::Register(Reg::Rax)),
    ];
    let main = program(alloc, &code)?;
    let recovery = Program::empty(alloc);
    Ok(Programs { main, recovery })
}

/// A trap is a step that `check` takes, and no instruction is accepted after it until a crash.
#[test]
fn check_takes_a_trap(rt: HostRuntime) -> Result<(), Fail> {
    let table = [
        (Step::Exec(0), Ok(Seen::Ran(0, 0, Act::Local))),
        (Step::Exec(0), Ok(Seen::Ran(0, 1, Act::Trap(4097)))),
        (Step::Exec(0), Err(Refusal::Halted)),
        (Step::Crash, Ok(Seen::Crashed(1))),
        (Step::Exec(0), Err(Refusal::Halted)),
    ];
    let mut machine = machine_of(rt.alloc(), trapping(rt.alloc())?)?;
    steps(&rt, &mut machine, &table);
    drop(machine);
    Ok(())
}

/// A copy of a machine: the second answer, where the first was refused, as for `load`.
fn copied(alloc: Global, machine: &Machine) -> Result<Machine, AllocError> {
    match machine.copy(alloc) {
        Err(_) => machine.copy(alloc),
        first => first,
    }
}

/// What is pending, likewise.
fn listed(alloc: Global, machine: &Machine) -> Result<Vec<PendingEntry>, AllocError> {
    match machine.view().pending_list(alloc) {
        Err(_) => machine.view().pending_list(alloc),
        first => first,
    }
}

/// How many steps a machine has made, and how many entries are pending.
fn counts(alloc: Global, machine: &Machine) -> Option<(u64, usize)> {
    Some((machine.view().turns(), listed(alloc, machine).ok()?.len()))
}

#[test]
fn a_machine_is_loaded(rt: HostRuntime) -> Result<(), Fail> {
    let machine = loaded(rt.alloc())?;
    let counts = counts(rt.alloc(), &machine);
    drop(machine);
    assert!(rt; counts == Some((0, 0)));
    Ok(())
}

/// The same of a copy of it, once the machine itself has crashed.
fn counts_of_a_copy(alloc: Global, machine: &mut Machine) -> Option<(u64, usize)> {
    let copy = copied(alloc, machine).ok()?;
    let has_crashed = machine.run(&[Step::Crash]) == (1, None);
    let counts = counts(alloc, &copy);
    drop(copy);
    if has_crashed { counts } else { None }
}

/// Eight steps lead to four pending entries, which a copy keeps. A crash loses them.
#[test]
fn a_copy_is_the_machine(rt: HostRuntime) -> Result<(), Fail> {
    let mut machine = executed(rt.alloc())?;
    let counts = [
        counts(rt.alloc(), &machine),
        counts_of_a_copy(rt.alloc(), &mut machine),
        counts(rt.alloc(), &machine),
    ];
    drop(machine);
    assert!(rt; counts == [Some((8, 4)), Some((8, 4)), Some((9, 0))]);
    Ok(())
}
