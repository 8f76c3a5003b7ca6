//! The steps that a state enables, and the written form of steps: commands report both of schedules alone.
use crate::fixtures::{machine_of, program, storing, word};
use isa::{Access, FlushKind, Instr, MemoryOperand, Program, Programs};
use machine::{Machine, Step};
use schedule::{enabled, write_steps};
use std::alloc::{AllocError, Global};
use std::test::Fail;

/// A processor that writes 1 to x, flushes its line and writes 1 to y, on another line.
fn flushing(alloc: Global) -> Result<Programs, Fail> {
    let (at_x, at_y) = (MemoryOperand::Word(word(0)?), MemoryOperand::Word(word(8)?));
    let code = [
        Instr::Memory(storing(1), at_x),
        Instr::Memory(Access::Flush(FlushKind::Clflushopt), at_x),
        Instr::Memory(storing(1), at_y),
    ];
    let main = program(alloc, &code)?;
    let recovery = Program::empty(alloc);
    Ok(Programs { main, recovery })
}

/// The machine of that processor, after its three instructions and the drain of its first write.
fn drained(alloc: Global) -> Result<Machine, Fail> {
    let mut machine = machine_of(alloc, flushing(alloc)?)?;
    let (exec, drain) = (Step::Exec(0), Step::Drain(0, 0));
    if machine.run(&[exec, exec, exec, drain]) == (4, None) {
        Ok(machine)
    } else {
        drop(machine);
        Err(Fail::new("a refused step"))
    }
}

/// The written form of the enabled steps, and whether they are these.
fn written(
    alloc: Global,
    machine: &Machine,
    wanted: &[Step],
) -> Result<(String, bool), AllocError> {
    let steps = enabled(machine);
    Ok((write_steps(alloc, &steps)?, steps.as_slice() == wanted))
}

/// After a pending write of x the flush and the write of y may leave the store buffer, in either order.
#[test]
fn enabled_steps_are_written(rt: HostRuntime) -> Result<(), Fail> {
    let machine = drained(rt.alloc())?;
    let wanted = [Step::Drain(0, 0), Step::Drain(0, 1), Step::Persist(0)];
    let written = written(rt.alloc(), &machine, &wanted);
    drop(machine);
    let (text, are_these) = written?;
    assert!(rt; are_these);
    assert!(rt; text.as_str() == "drain 0 0\ndrain 0 1\npersist 0\n");
    Ok(())
}
