//! The machine: its state, its steps, and runs of them.
ghost use Rattle.std.specs.Prelude.{◌≡◌, ◌+◌, ◌<◌, ◌≤◌, Ok, Err, map, length, nat_le, OnErr, IfOk, IfErr};
ghost use Rattle.outcomes.specs.Outcomes.{tested, refuse};
ghost use Rattle.isa.specs.Loadables.{max_processors};
ghost use Rattle.machine.specs.Limits.{max_turns};
ghost use Rattle.machine.specs.State.{State};
ghost use Rattle.machine.specs.declared.refusal.Refusal.TheVariants.{Spent};
ghost use Rattle.machine.specs.Objects.{opening_processor, opening};
ghost use Rattle.machine.specs.Calls.{MakesDrain, MakesExec};
ghost use Rattle.machine.specs.Processors.{programs_of, restart_of};
ghost use Rattle.machine.specs.Programs.{AreSiblings};
ghost use Rattle.machine.specs.Steps.{exec_at, drain_at, step_of, check_of, run_of};

use crate::logical_processor::Processor;
use crate::refusal::Refusal;
use crate::step::{Seen, Step};
use crate::view::View;
use isa::{Object, Programs};
use lines_layout::Shape;
use persist_buffer::Pending;
use std::alloc::{AllocError, Global};
use std::marker::Model;

/// How many steps a machine accepts in all.
pub const MAX_TURNS: u64 = 1 << 62;

/// A multiprocessor with store buffers and persistent memory, which crashes on command. A refused
/// call leaves it as it was.
#[derive(Drop)]
pub struct Machine {
    turns: u64,
    crashes: u64,
    cpus: Vec<Processor>,
    pending: Pending,
}

impl Model for Machine {
    ghost use Rattle.machine.specs.State.{State};
    ghost use Rattle.std.specs.Prelude.{◌≤◌, vec_len};
    ghost use Rattle.isa.specs.Loadables.{max_processors};
    ghost use Rattle.machine.specs.Counts.{AreCounts};

    ghost Value = { State };

    ghost view = { λ m. record {
      turns = m.turns;
      crashes = m.crashes;
      shape = m.pending.shape;
      processors = m.cpus.items;
      memory = m.pending.memory;
    } };

    ghost invariant = { λ m. AreCounts m.turns m.crashes × (vec_len m.cpus ≤ max_processors) };
}

/// A processor before its first step for each pair of programs.
fn start_all(alloc: Global, processors: &[Programs]) -> Result<Vec<Processor>, AllocError>
    ensures { IfOk result (λ cpus. cpus.items ≡ map opening_processor processors.now) }
{
    let mut cpus = Vec::with_capacity(alloc, processors.len())?;
    for programs in processors {
        let cpu = Processor::new(programs.copy(alloc)?);
        cpus.push(cpu)?;
    }
    Ok(cpus)
}

/// An equal processor for each.
fn copy_all(alloc: Global, cpus: &[Processor]) -> Result<Vec<Processor>, AllocError>
    ensures { IfOk result (λ copies. copies.items ≡ cpus.now) }
{
    let mut copies = Vec::with_capacity(alloc, cpus.len())?;
    for cpu in cpus {
        copies.push(cpu.copy(alloc)?)?;
    }
    Ok(copies)
}

/// Processor p runs the instruction at its place.
fn exec(cpus: &mut [Processor], pending: &mut Pending, p: u32) -> Result<Seen, Refusal>
    ensures does { MakesExec p cpus.old pending.old result cpus.new pending.new }
    ensures shape { pending.new.shape ≡ pending.old.shape }
{
    if p as usize >= cpus.len() {
        return Err(Refusal::NoCpu);
    }
    let cpu = &mut cpus[p as usize];
    let place = cpu.place();
    let act = cpu.exec(pending)?;
    Ok(Seen::Ran(p, place, act))
}

/// Whether [`exec`] would be accepted, or its refusal.
fn check_exec(cpus: &[Processor], pending: &Pending, p: u32) -> Result<(), Refusal>
    ensures { result ≡ tested (exec_at pending.now.shape cpus.now pending.now.memory p) }
{
    if p as usize >= cpus.len() {
        return Err(Refusal::NoCpu);
    }
    cpus[p as usize].check_exec(pending)
}

/// The entry at place i of processor p's store buffer leaves it.
fn drain(cpus: &mut [Processor], pending: &mut Pending, p: u32, i: u32) -> Result<Seen, Refusal>
    ensures does { MakesDrain p i cpus.old pending.old result cpus.new pending.new }
    ensures shape { pending.new.shape ≡ pending.old.shape }
{
    if p as usize >= cpus.len() {
        return Err(Refusal::NoCpu);
    }
    let cpu = &mut cpus[p as usize];
    let entry = cpu.drain(i as usize, pending)?;
    Ok(Seen::Left(p, i, entry))
}

/// Whether [`drain`] would be accepted, or its refusal.
fn check_drain(cpus: &[Processor], pending: &Pending, p: u32, i: u32) -> Result<(), Refusal>
    ensures { result ≡ tested (drain_at cpus.now pending.now.memory p i) }
{
    if p as usize >= cpus.len() {
        return Err(Refusal::NoCpu);
    }
    cpus[p as usize].check_drain(i as usize, pending)
}

/// Makes each processor equal to the one of its number there, which has the same programs.
fn restore_all(cpus: &mut [Processor], from: &[Processor])
    requires { map programs_of cpus.old ≡ map programs_of from.now }
    ensures { cpus.new ≡ from.now }
{
    for p in 0..from.len() {
        cpus[p].restore(&from[p]);
    }
}

/// Each processor starts its recovery program.
fn restart_all(cpus: &mut [Processor])
    ensures { cpus.new ≡ map restart_of cpus.old }
{
    for cpu in cpus.iter_mut() {
        cpu.restart();
    }
}

impl Machine {
    /// The machine of these programs and values before its first step. All room that steps need is
    /// taken here. The only error is out of memory.
    pub fn load(alloc: Global, object: &Object) -> Result<Machine, AllocError>
        ensures { IfOk result (λ m. m ≡ opening object.now) }
    {
        let cpus = start_all(alloc, object.processors())?;
        let values = object.values().copy(alloc)?;
        let pending = Pending::new(alloc, object.shape(), values)?;
        Ok(Machine {
            turns: 0,
            crashes: 0,
            cpus,
            pending,
        })
    }

    /// Whether another step may be accepted: [`Refusal::Spent`] where not.
    pub(crate) fn turn_left(&self) -> Result<(), Refusal>
        ensures value { result ≡ refuse Spent (nat_le max_turns self.now.turns) }
        ensures below { IfOk result (λ _. self.now.turns < max_turns) }
    {
        if self.turns >= MAX_TURNS {
            Err(Refusal::Spent)
        } else {
            Ok(())
        }
    }

    /// Makes one step. A refusal is the first that holds, and leaves the machine as it was. No step
    /// needs memory.
    pub fn step(&mut self, step: Step) -> Result<Seen, Refusal>
        ensures accepted { IfOk result (λ seen. step_of self.old step ≡ Ok (seen, self.new)) }
        ensures refused { IfErr result (λ refusal. step_of self.old step ≡ Err refusal) }
        ensures same { OnErr result (self.new ≡ self.old) }
        ensures shape { self.new.shape ≡ self.old.shape }
    {
        self.turn_left()?;
        let seen = match step {
            Step::Exec(p) => exec(&mut self.cpus, &mut self.pending, p)?,
            Step::Drain(p, i) => drain(&mut self.cpus, &mut self.pending, p, i)?,
            Step::Persist(line) => {
                let (word, value) = self.pending.persist(line)?;
                Seen::Persisted(word, value)
            }
            Step::Settle => Seen::Settled(self.pending.settle()?),
            Step::Crash => {
                restart_all(&mut self.cpus);
                self.pending.crash();
                self.crashes += 1;
                Seen::Crashed(self.crashes)
            }
        };
        self.turns += 1;
        Ok(seen)
    }

    /// Whether [`Machine::step`] would accept a step, or its refusal.
    pub(crate) fn test(&self, step: Step) -> Result<(), Refusal>
        ensures { result ≡ tested (step_of self.now step) }
    {
        self.turn_left()?;
        match step {
            Step::Exec(p) => check_exec(&self.cpus, &self.pending, p),
            Step::Drain(p, i) => check_drain(&self.cpus, &self.pending, p, i),
            Step::Persist(line) => {
                self.pending.check_persist(line)?;
                Ok(())
            }
            Step::Settle => {
                self.pending.check_settle()?;
                Ok(())
            }
            Step::Crash => Ok(()),
        }
    }

    /// The refusal that [`Machine::step`] would answer, None where it would accept the step. Nothing
    /// changes.
    pub fn check(&self, step: Step) -> Option<Refusal>
        ensures { result ≡ check_of self.now step }
    {
        match self.test(step) {
            Ok(()) => None,
            Err(refusal) => Some(refusal),
        }
    }

    /// Makes steps up to the first refusal: how many were accepted, and that refusal.
    pub fn run(&mut self, steps: &[Step]) -> (usize, Option<Refusal>)
        ensures run { run_of steps.now self.old
            ≡ record { accepted = result.0; refusal = result.1; state = self.new } }
        ensures shape { self.new.shape ≡ self.old.shape }
    {
        for (n, step) in steps.iter().enumerate() {
            if let Err(refusal) = self.step(*step) {
                return (n, Some(refusal));
            }
        }
        (steps.len(), None)
    }

    /// Another machine in the same state, with its own room. The only error is out of memory.
    pub fn copy(&self, alloc: Global) -> Result<Machine, AllocError>
        ensures { IfOk result (λ m. m ≡ self.now) }
    {
        let cpus = copy_all(alloc, &self.cpus)?;
        let pending = self.pending.copy(alloc)?;
        Ok(Machine {
            turns: self.turns,
            crashes: self.crashes,
            cpus,
            pending,
        })
    }

    /// Makes the state equal to that of a machine with the same shape and programs. It takes no memory.
    pub fn restore(&mut self, from: &Machine)
        requires { AreSiblings self.old from.now }
        ensures { self.new ≡ from.now }
    {
        self.turns = from.turns;
        self.crashes = from.crashes;
        restore_all(&mut self.cpus, &from.cpus);
        self.pending.restore(&from.pending);
    }

    /// The state, to look at.
    pub fn view(&self) -> View<'_>
        ensures { result ≡ self.now }
    {
        View::new(self)
    }

    pub(crate) fn turns(&self) -> u64
        ensures { result ≡ self.now.turns }
    {
        self.turns
    }

    pub(crate) fn crashes(&self) -> u64
        ensures { result ≡ self.now.crashes }
    {
        self.crashes
    }

    /// How many words each line has.
    pub(crate) fn shape(&self) -> &Shape
        ensures { result.now ≡ self.now.shape }
    {
        self.pending.shape()
    }

    pub(crate) fn cpus(&self) -> &[Processor]
        ensures value { result.now ≡ self.now.processors }
        ensures few { length self.now.processors ≤ max_processors }
    {
        self.cpus.as_slice()
    }

    /// The pending list and the persisted values.
    pub(crate) fn pending(&self) -> &Pending
        ensures { result.now ≡ record { shape = self.now.shape; memory = self.now.memory } }
    {
        &self.pending
    }
}
