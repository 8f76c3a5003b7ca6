//! Crate `processor`, over a storage of its own.
use crate::fixtures::{nothing_pending, program, storing, word};
use isa::{
    Access, FenceKind, FlushKind, Instr, LockedOperation, MemoryOperand, Program, Reg, Source,
};
use lines_layout::{WordId, WordValues};
use persist_buffer::Pending;
use processor::{Act, Cpu, Need, Refusal, Storage};
use std::alloc::Global;
use std::process::Abort;
use std::test::Fail;
use store_buffer::{BUFFER_ROOM, Buffer, Entry};

/// A store buffer and a memory.
#[derive(Drop)]
struct Owned {
    buffer: Buffer,
    pending: Pending,
}

impl Storage for Owned {
    ghost use Rattle.processor.specs.Contents.{Contents};

    ghost contents = { λ s. record { shape = s.pending.shape; buffer = s.buffer; memory = s.pending.memory } };

    ghost stays = { λ _ _. Unit {0} };

    ghost stays_itself = { λ _. tt };

    fn read(&self, word: WordId) -> u64 {
        match self.buffer.forward(word) {
            Some(value) => value,
            None => self.pending.value(word),
        }
    }

    fn coherent(&self, word: WordId) -> u64 {
        self.pending.value(word)
    }

    fn at(&self, address: u64) -> Option<WordId> {
        self.pending.shape().word_at(address)
    }

    fn empty(&self) -> bool {
        self.buffer.is_empty()
    }

    fn delay(&mut self, entry: Entry) -> Result<(), Refusal> {
        match self.buffer.push(entry) {
            Ok(()) => Ok(()),
            Err(_) => Err(Refusal::BufferFull),
        }
    }

    fn locked(&mut self, word: WordId, value: u64) -> Result<(), Refusal> {
        match self.pending.add_write(word, value) {
            Ok(()) => Ok(()),
            Err(_) => Err(Refusal::LineFull),
        }
    }
}

/// An entry in the store buffer, and word 0, which is persisted as 5.
fn storage(alloc: Global) -> Result<Owned, Fail> {
    let x = word(0)?;
    let mut buffer = Buffer::new();
    buffer.push(Entry::Sfence)?;
    let mut values = WordValues::zeroed(alloc)?;
    values.set(x, 5);
    Ok(Owned {
        buffer,
        pending: nothing_pending(alloc, &[1], values)?,
    })
}

/// The same without an entry.
fn empty_storage(alloc: Global) -> Result<Owned, Fail> {
    let mut storage = storage(alloc)?;
    storage.buffer.clear();
    Ok(storage)
}

/// Asks what the next instructions answer, of which a refused one is the next again.
fn runs(
    rt: &impl Abort,
    cpu: &mut Cpu,
    program: &Program,
    storage: &mut Owned,
    answers: &[Result<Act, Refusal>],
) {
    for (at, answer) in answers.iter().enumerate() {
        assert!(rt; cpu.exec(program, storage) == *answer, "{at}");
    }
}

/// Where a processor is, and its register rax.
fn shown(cpu: &Cpu) -> (usize, u64) {
    (cpu.place(), cpu.regs().get(Reg::Rax))
}

/// Whether a processor's next instruction needs nothing of a storage with an entry in its store buffer.
fn needs_nothing(cpu: &Cpu, program: &Program, storage: &Owned) -> bool {
    cpu.next_need(program, storage.pending.shape(), false) == Ok(Need::Nothing)
}

/// Starts a processor again, and shows it and the copy of what it was.
fn restarted(cpu: &mut Cpu) -> [(usize, u64); 2] {
    let copy = cpu.copy();
    cpu.restart();
    [shown(cpu), shown(&copy)]
}

/// What a processor would do, what it did, and that a copy of it stays when it starts again.
#[test]
fn a_processor_starts_again(rt: HostRuntime) -> Result<(), Fail> {
    let alloc = rt.alloc();
    let x = word(0)?;
    let load = Instr::Memory(Access::Load(Reg::Rax), MemoryOperand::Word(x));
    let program = program(alloc, &[load])?;
    let mut storage = storage(alloc)?;
    let mut cpu = Cpu::new();
    let needs_nothing = needs_nothing(&cpu, &program, &storage);
    assert!(rt; needs_nothing && cpu.next_instruction(&program) == Some(load));
    let answers = [Ok(Act::Read(x, 5)), Err(Refusal::Halted)];
    runs(&rt, &mut cpu, &program, &mut storage, &answers);
    drop((program, storage));
    assert!(rt; restarted(&mut cpu) == [(0, 0), (1, 5)]);
    Ok(())
}

/// An access to word 0.
fn at_x(access: Access) -> Result<Instr, Fail> {
    Ok(Instr::Memory(access, MemoryOperand::Word(word(0)?)))
}

/// A processor that stores 7 to word 0, flushes its line, waits, and reads at the address 0, where no word is.
fn waiting(alloc: Global) -> Result<Program, Fail> {
    let code = [
        at_x(storing(7))?,
        at_x(Access::Flush(FlushKind::Clflush))?,
        Instr::Fence(FenceKind::Mfence),
        Instr::Memory(Access::Load(Reg::Rax), MemoryOperand::Register(Reg::Rdx)),
    ];
    program(alloc, &code)
}

/// Whether a store buffer has these entries, which then are gone.
fn had(buffer: &mut Buffer, entries: &[Entry]) -> bool {
    let had = buffer.entries() == entries;
    buffer.clear();
    had
}

/// Where a processor is, and the address at which it is trapped.
fn trapped(cpu: &Cpu) -> (usize, Option<u64>) {
    (cpu.place(), cpu.trap())
}

/// A store and a flush go into the store buffer, and a fence waits until they are gone. An address that is no word's traps.
#[test]
fn a_fence_waits_for_a_storage(rt: HostRuntime) -> Result<(), Fail> {
    let x = word(0)?;
    let entries = [Entry::Write(x, 7), Entry::Flush(x.line())];
    let program = waiting(rt.alloc())?;
    let mut storage = empty_storage(rt.alloc())?;
    let mut cpu = Cpu::new();
    let first = [
        Ok(Act::Delay(entries[0])),
        Ok(Act::Delay(entries[1])),
        Err(Refusal::BufferNotEmpty),
    ];
    runs(&rt, &mut cpu, &program, &mut storage, &first);
    let had = had(&mut storage.buffer, &entries);
    assert!(rt; had && trapped(&cpu) == (2, None));
    let then = [Ok(Act::Fence), Ok(Act::Trap(0)), Err(Refusal::Halted)];
    runs(&rt, &mut cpu, &program, &mut storage, &then);
    drop((program, storage));
    assert!(rt; trapped(&cpu) == (3, Some(0)));
    Ok(())
}

/// A processor that exchanges 9 in rcx with word 0, and then twice writes rcx to the word where it equals rax.
fn exchanging(alloc: Global) -> Result<Program, Fail> {
    let compared = at_x(Access::Locked(LockedOperation::CompareExchange, Reg::Rcx))?;
    let code = [
        Instr::Set(Reg::Rcx, Source::Number(9)),
        at_x(Access::Locked(LockedOperation::Exchange, Reg::Rcx))?,
        compared,
        compared,
    ];
    program(alloc, &code)
}

/// The coherent value of a word, and how many entries are pending.
fn kept(storage: &Owned, word: WordId) -> (u64, usize) {
    (storage.pending.value(word), storage.pending.len())
}

/// Of two comparisons the first fails, as rax is 0 and the word 9, and writes nothing; rax is the word's value then.
#[test]
fn a_failing_comparison_writes_nothing(rt: HostRuntime) -> Result<(), Fail> {
    let x = word(0)?;
    let program = exchanging(rt.alloc())?;
    let mut storage = empty_storage(rt.alloc())?;
    let mut cpu = Cpu::new();
    let first = [
        Ok(Act::Local),
        Ok(Act::Locked(x, 5, Some(9))),
        Ok(Act::Locked(x, 9, None)),
    ];
    runs(&rt, &mut cpu, &program, &mut storage, &first);
    assert!(rt; shown(&cpu) == (3, 9) && kept(&storage, x) == (9, 1));
    let then = [Ok(Act::Locked(x, 9, Some(5))), Err(Refusal::Halted)];
    runs(&rt, &mut cpu, &program, &mut storage, &then);
    let kept = kept(&storage, x);
    drop((program, storage));
    assert!(rt; kept == (5, 2));
    Ok(())
}

/// Pushes as many fences as an empty store buffer has room for, and says how many entries there are then.
fn filled(buffer: &mut Buffer) -> usize {
    for _ in 0..BUFFER_ROOM {
        let _ = buffer.push(Entry::Sfence);
    }
    buffer.len()
}

/// What the oldest entry of a store buffer is, which then is gone.
fn oldest(buffer: &mut Buffer) -> Option<Entry> {
    buffer.take(0).ok()
}

/// A full store buffer refuses an entry, and a read passes it.
#[test]
fn a_full_storage_refuses(rt: HostRuntime) -> Result<(), Fail> {
    let x = word(0)?;
    let code = [at_x(Access::Load(Reg::Rax))?, at_x(storing(7))?];
    let program = program(rt.alloc(), &code)?;
    let mut storage = empty_storage(rt.alloc())?;
    let filled = filled(&mut storage.buffer);
    assert!(rt; filled == BUFFER_ROOM);
    let mut cpu = Cpu::new();
    let first = [Ok(Act::Read(x, 5)), Err(Refusal::BufferFull)];
    runs(&rt, &mut cpu, &program, &mut storage, &first);
    let oldest = oldest(&mut storage.buffer);
    assert!(rt; oldest == Some(Entry::Sfence));
    let then = [Ok(Act::Delay(Entry::Write(x, 7))), Err(Refusal::Halted)];
    runs(&rt, &mut cpu, &program, &mut storage, &then);
    let newest = storage.buffer.forward(x);
    drop((program, storage));
    assert!(rt; newest == Some(7));
    Ok(())
}
