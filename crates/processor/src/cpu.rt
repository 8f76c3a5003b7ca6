//! A processor's place and registers, and its execution of one instruction.
ghost use Rattle.std.specs.Prelude.{◌≡◌, ◌<◌, ◌≤◌, ◌+◌, length, IfOk, IfSome, true};
ghost use Rattle.isa.specs.declared.instr.Instr.TheVariants.{Memory};
ghost use Rattle.isa.specs.Programs.{max_instructions, leads_within};
ghost use Rattle.processor.specs.Calls.{Runs, StaysWithin};
ghost use Rattle.processor.specs.Cpus.{Cpu, initial_cpu, next_place};
ghost use Rattle.processor.specs.Executions.{next_instruction, ready_access_of, fence_of, effect_of, exec_of, ready_need, next_need};

use crate::accesses::{act_of, is_locked, leave, need_of, set_regs, value_read};
use crate::act::Act;
use crate::need::Need;
use crate::refusal::Refusal;
use crate::storage::Storage;
use isa::{Access, FenceKind, Instr, MemoryOperand, Next, Program, Regs, local};
use lines_layout::{Shape, WordId};
use std::marker::Model;
use store_buffer::Entry;

/// A processor: its place in the program that it runs, its registers with ZF, and whether it is
/// trapped. The program, the store buffer and the memory are its caller's.
#[derive(Drop)]
pub struct Cpu {
    place: usize,
    regs: Regs,
    trap: Option<u64>,
}

impl Model for Cpu {
    ghost use Rattle.processor.specs.Cpus.{Cpu};

    ghost Value = { Cpu };

    ghost view = { λ c. record { place = c.place; regs = c.regs; trap = c.trap } };
}

/// The place where the program goes on.
fn next_place(place: usize, next: Next) -> usize
    requires { place < max_instructions }
    ensures { result ≡ next_place place next }
{
    match next {
        Next::Following => place + 1,
        Next::Target(target) => target,
    }
}

/// What has to find room where an instruction with these registers is to run over words of this
/// shape, or the refusal to wait for an empty store buffer. An instruction that traps needs nothing.
fn ready_need(shape: &Shape, regs: &Regs, empty: bool, instr: &Instr) -> Result<Need, Refusal>
    ensures { result ≡ ready_need shape.now regs.now empty instr.now }
{
    match *instr {
        Instr::Memory(access, operand) => {
            let Some(word) = shape.word_at(operand.address(regs)) else {
                return Ok(Need::Nothing);
            };
            if is_locked(&access) && !empty {
                return Err(Refusal::BufferNotEmpty);
            }
            Ok(need_of(&access, word, regs))
        }
        Instr::Fence(FenceKind::Mfence) => {
            if empty {
                Ok(Need::Nothing)
            } else {
                Err(Refusal::BufferNotEmpty)
            }
        }
        Instr::Fence(FenceKind::Sfence) => Ok(Need::Entry),
        _ => Ok(Need::Nothing),
    }
}

impl Cpu {
    /// At the start of a program, with all registers and ZF 0.
    pub fn new() -> Cpu
        ensures { result ≡ initial_cpu }
    {
        Cpu {
            place: 0,
            regs: Regs::new(),
            trap: None,
        }
    }

    /// The place in the program.
    pub fn place(&self) -> usize
        ensures { result ≡ self.now.place }
    {
        self.place
    }

    /// The registers and ZF.
    pub fn regs(&self) -> &Regs
        ensures { result.now ≡ self.now.regs }
    {
        &self.regs
    }

    /// The address at which it is trapped, if it is.
    pub fn trap(&self) -> Option<u64>
        ensures { result ≡ self.now.trap }
    {
        self.trap
    }

    /// Starts a program from its first instruction, with all registers and ZF 0 and not trapped.
    pub fn restart(&mut self)
        ensures { self.new ≡ initial_cpu }
    {
        self.place = 0;
        self.regs = Regs::new();
        self.trap = None;
    }

    /// An equal processor.
    pub fn copy(&self) -> Cpu
        ensures { result ≡ self.now }
    {
        Cpu {
            place: self.place,
            regs: self.regs,
            trap: self.trap,
        }
    }

    /// The instruction that it runs next: none where it is trapped, or where its place is the
    /// program's length.
    pub fn next_instruction(&self, program: &Program) -> Option<Instr>
        ensures value { result ≡ next_instruction program.now self.now }
        ensures there { IfSome result (λ _. self.now.place < length program.now) }
        ensures bound { IfSome result (λ _. self.now.place < max_instructions) }
        ensures target { IfSome result (λ instr. leads_within (length program.now) instr ≡ true) }
    {
        if self.trap.is_some() {
            return None;
        }
        program.get(self.place)
    }

    /// What the instruction at its place needs room for over words of this shape. Refused where no
    /// instruction is to run, or where it has to wait for the store buffer to be empty.
    pub fn next_need(&self, program: &Program, shape: &Shape, empty: bool) -> Result<Need, Refusal>
        ensures { result ≡ next_need program.now shape.now self.now empty }
    {
        match self.next_instruction(program) {
            Some(instr) => ready_need(shape, &self.regs, empty, &instr),
            None => Err(Refusal::Halted),
        }
    }

    fn access<S: Storage>(
        &mut self,
        access: &Access,
        word: WordId,
        storage: &mut S,
    ) -> Result<Act, Refusal>
        requires { self.old.place < max_instructions }
        ensures does { Runs S.contents (ready_access_of access.now word) self.old storage.old result self.new storage.new }
        ensures place { IfOk result (λ _. self.new.place ≡ self.old.place + 1) }
        ensures stays { S.stays storage.old storage.new }
    {
        if is_locked(access) && !storage.empty() {
            return Err(Refusal::BufferNotEmpty);
        }
        let value = value_read(access, word, storage);
        let act = act_of(access, word, &self.regs, value);
        leave(&act, storage)?;
        set_regs(access, &mut self.regs, value);
        self.place += 1;
        Ok(act)
    }

    /// Accesses what an operand names, or is trapped where its address is no word's.
    fn access_named<S: Storage>(
        &mut self,
        access: &Access,
        operand: MemoryOperand,
        storage: &mut S,
    ) -> Result<Act, Refusal>
        requires { self.old.place < max_instructions }
        ensures does { Runs S.contents (effect_of (Memory access.now operand)) self.old storage.old result self.new storage.new }
        ensures place { IfOk result (λ _. self.new.place ≤ self.old.place + 1) }
        ensures stays { S.stays storage.old storage.new }
    {
        let address = operand.address(&self.regs);
        match storage.at(address) {
            Some(word) => self.access(access, word, storage),
            None => {
                self.trap = Some(address);
                Ok(Act::Trap(address))
            }
        }
    }

    fn fence<S: Storage>(&mut self, kind: FenceKind, storage: &mut S) -> Result<Act, Refusal>
        requires { self.old.place < max_instructions }
        ensures does { Runs S.contents (fence_of kind) self.old storage.old result self.new storage.new }
        ensures place { IfOk result (λ _. self.new.place ≡ self.old.place + 1) }
        ensures stays { S.stays storage.old storage.new }
    {
        let act = match kind {
            FenceKind::Mfence => {
                if !storage.empty() {
                    return Err(Refusal::BufferNotEmpty);
                }
                Act::Fence
            }
            FenceKind::Sfence => {
                storage.delay(Entry::Sfence)?;
                Act::Delay(Entry::Sfence)
            }
        };
        self.place += 1;
        Ok(act)
    }

    /// Runs an instruction.
    #[tactic(auto, using(crate::proofs::LocalStepsStayWithin::local_within))]
    fn run<S: Storage>(&mut self, instr: Instr, storage: &mut S) -> Result<Act, Refusal>
        requires { self.old.place < max_instructions }
        ensures does { Runs S.contents (effect_of instr) self.old storage.old result self.new storage.new }
        ensures within { StaysWithin instr self.old.place result self.new.place }
        ensures stays { S.stays storage.old storage.new }
    {
        match instr {
            Instr::Memory(access, operand) => self.access_named(&access, operand, storage),
            Instr::Fence(kind) => self.fence(kind, storage),
            _ => {
                if let Some(next) = local(&instr, &mut self.regs) {
                    self.place = next_place(self.place, next);
                }
                Ok(Act::Local)
            }
        }
    }

    /// Runs the instruction at its place in this program, by the laws of the storage. Refused with
    /// the first [`Refusal`] that holds, which leaves processor and storage as they were. After it
    /// the place is one of the program, or its length.
    pub fn exec<S: Storage>(&mut self, program: &Program, storage: &mut S) -> Result<Act, Refusal>
        ensures does { Runs S.contents (exec_of program.now) self.old storage.old result self.new storage.new }
        ensures within { IfOk result (λ _. self.new.place ≤ length program.now) }
        ensures stays { S.stays storage.old storage.new }
    {
        match self.next_instruction(program) {
            Some(instr) => self.run(instr, storage),
            None => Err(Refusal::Halted),
        }
    }
}
