//! A logical processor of the machine: a [`Cpu`] with its two programs and its store buffer.
ghost use Rattle.std.specs.Prelude.{◌≡◌, ◌≤◌, length, IfOk, if◌then◌else◌};
ghost use Rattle.outcomes.specs.Outcomes.{tested};
ghost use Rattle.store_buffer.specs.Buffers.{buffer_room};
ghost use Rattle.machine.specs.Accepted.{drainable_into};
ghost use Rattle.machine.specs.LooseSteps.{run_unwaiting, drain_unheld};
ghost use Rattle.machine.specs.State.{Processor};
ghost use Rattle.machine.specs.Objects.{opening_processor};
ghost use Rattle.machine.specs.Calls.{LetsLeave, RunsNext};
ghost use Rattle.machine.specs.Processors.{program_of, programs_of, halted, instruction_there, run_by, drain_of, restart_of};

use crate::port;
use crate::refusal::Refusal;
use isa::{Instr, Program, Programs, Regs};
use persist_buffer::{LINE_ROOM, MARKER_ROOM, Pending};
use processor::laws::room_decides;
use processor::{Act, Cpu};
use std::alloc::{AllocError, Global};
use std::marker::Model;
use store_buffer::{Buffer, Entry, Mask};

/// A processor of the machine: its programs, which of them it runs, its place and registers, and its
/// store buffer.
#[derive(Drop)]
pub struct Processor {
    main: Program,
    recovery: Program,
    recovering: bool,
    cpu: Cpu,
    buffer: Buffer,
}

impl Model for Processor {
    ghost use Rattle.std.specs.Prelude.{if◌then◌else◌};
    ghost use Rattle.machine.specs.State.{Processor};
    ghost use Rattle.machine.specs.Counts.{IsPlace};

    ghost Value = { Processor };

    ghost view = { λ c. record {
      main = c.main;
      recovery = c.recovery;
      recovering = c.recovering;
      place = c.cpu.place;
      regs = c.cpu.regs;
      trap = c.cpu.trap;
      buffer = c.buffer;
    } };

    ghost invariant = { λ c. IsPlace (if c.recovering then c.recovery else c.main) c.cpu.place };
}

/// The program that is run. A function of its own, since the prover does not take an `if` between
/// two borrows in a longer body.
fn chosen<'a>(recovering: bool, main: &'a Program, recovery: &'a Program) -> &'a Program
    ensures { result.now ≡ (if recovering then recovery.now else main.now) }
{
    if recovering { recovery } else { main }
}

impl Processor {
    /// A processor that starts its main program.
    pub fn new(programs: Programs) -> Processor
        ensures { result ≡ opening_processor programs }
    {
        let Programs { main, recovery } = programs;
        Processor {
            main,
            recovery,
            recovering: false,
            cpu: Cpu::new(),
            buffer: Buffer::new(),
        }
    }

    /// An equal processor. The only error is out of memory.
    pub fn copy(&self, alloc: Global) -> Result<Processor, AllocError>
        ensures { IfOk result (λ c. c ≡ self.now) }
    {
        let main = self.main.copy(alloc)?;
        let recovery = self.recovery.copy(alloc)?;
        Ok(Processor {
            main,
            recovery,
            recovering: self.recovering,
            cpu: self.cpu.copy(),
            buffer: self.buffer.copy(),
        })
    }

    /// The place in its program.
    pub fn place(&self) -> usize
        ensures { result ≡ self.now.place }
    {
        self.cpu.place()
    }

    /// Whether it runs its recovery program.
    pub fn recovering(&self) -> bool
        ensures { result ≡ self.now.recovering }
    {
        self.recovering
    }

    /// Whether it runs no instruction: it is trapped, or its place is its program's length.
    pub fn halted(&self) -> bool
        ensures value { result ≡ halted self.now }
        ensures within { self.now.place ≤ length (program_of self.now) }
    {
        let program = chosen(self.recovering, &self.main, &self.recovery);
        self.cpu.next_instruction(program).is_none()
    }

    /// The instruction at its place, if one is there, also where it is trapped.
    pub fn instruction(&self) -> Option<Instr>
        ensures { result ≡ instruction_there self.now }
    {
        let program = chosen(self.recovering, &self.main, &self.recovery);
        program.get(self.cpu.place())
    }

    /// Its registers and ZF.
    pub fn regs(&self) -> &Regs
        ensures { result.now ≡ self.now.regs }
    {
        self.cpu.regs()
    }

    /// The address at which it is trapped, if it is.
    pub fn trap(&self) -> Option<u64>
        ensures { result ≡ self.now.trap }
    {
        self.cpu.trap()
    }

    /// Its store buffer, oldest first.
    pub fn buffer(&self) -> &[Entry]
        ensures value { result.now ≡ self.now.buffer }
        ensures room { length self.now.buffer ≤ buffer_room }
    {
        self.buffer.entries()
    }

    /// Runs the instruction at its place.
    pub fn exec(&mut self, pending: &mut Pending) -> Result<Act, Refusal>
        ensures does { RunsNext self.old pending.old result self.new pending.new }
        ensures shape { pending.new.shape ≡ pending.old.shape }
    {
        let program = chosen(self.recovering, &self.main, &self.recovery);
        let act = port::exec(&mut self.cpu, program, &mut self.buffer, pending)?;
        Ok(act)
    }

    /// Whether [`Processor::exec`] would be accepted, or its refusal.
    pub fn check_exec(&self, pending: &Pending) -> Result<(), Refusal>
        ensures { result ≡ tested (run_by pending.now.shape self.now pending.now.memory) }
    {
        let program = chosen(self.recovering, &self.main, &self.recovery);
        room_decides();
        port::check(&self.cpu, program, &self.buffer, pending)?;
        Ok(())
    }

    /// Lets the entry at place i leave the store buffer for the memory.
    pub fn drain(&mut self, i: usize, pending: &mut Pending) -> Result<Entry, Refusal>
        ensures does { LetsLeave i self.old pending.old result self.new pending.new }
        ensures shape { pending.new.shape ≡ pending.old.shape }
    {
        let entry = self.buffer.leaving_entry(i)?;
        port::receive(pending, &entry)?;
        self.buffer.remove(i);
        Ok(entry)
    }

    /// Whether [`Processor::drain`] would be accepted, or its refusal.
    pub fn check_drain(&self, i: usize, pending: &Pending) -> Result<(), Refusal>
        ensures { result ≡ tested (drain_of self.now pending.now.memory i) }
    {
        let entry = self.buffer.leaving_entry(i)?;
        port::receive_room(pending, &entry)?;
        Ok(())
    }

    /// Whether the instruction at its place would run if nothing was buffered, or its refusal.
    pub fn check_unwaiting(&self, pending: &Pending) -> Result<(), Refusal>
        ensures { result ≡ tested (run_unwaiting pending.now.shape self.now pending.now.memory) }
    {
        let program = chosen(self.recovering, &self.main, &self.recovery);
        room_decides();
        port::check(&self.cpu, program, &Buffer::new(), pending)?;
        Ok(())
    }

    /// Whether the entry at place i would leave if no other held it, or its refusal.
    pub fn check_unheld(&self, i: usize, pending: &Pending) -> Result<(), Refusal>
        ensures { result ≡ tested (drain_unheld self.now pending.now.memory i) }
    {
        let Some(entry) = self.buffer.entries().get(i) else {
            return Err(Refusal::NoEntry);
        };
        port::receive_room(pending, entry)?;
        Ok(())
    }

    /// The places of the store buffer for whose entries [`Processor::check_drain`] reports no refusal,
    /// one bit a place: of those that may leave, those that find room.
    pub fn drainable(&self, pending: &Pending) -> Mask
        ensures { result ≡ drainable_into pending.now.memory self.now }
    {
        let mut mask = self.buffer.free();
        if pending.len() < LINE_ROOM.min(MARKER_ROOM) {
            // So few leave room for any entry.
            return mask;
        }
        let entries = self.buffer();
        let mut left = mask;
        while left != 0 {
            let place = left.trailing_zeros() as usize;
            left &= !(1 << place);
            if port::receive_room(pending, &entries[place]).is_err() {
                mask &= !(1 << place);
            }
        }
        mask
    }

    /// Makes it equal to a processor with the same programs. It takes no memory.
    pub fn restore(&mut self, from: &Processor)
        requires { programs_of self.old ≡ programs_of from.now }
        ensures { self.new ≡ from.now }
    {
        self.recovering = from.recovering;
        self.cpu = from.cpu.copy();
        self.buffer.restore(&from.buffer);
    }

    /// Starts the recovery program, with empty registers and store buffer.
    pub fn restart(&mut self)
        ensures { self.new ≡ restart_of self.old }
    {
        self.recovering = true;
        self.cpu.restart();
        self.buffer.clear();
    }
}
