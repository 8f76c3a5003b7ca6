//! Crate `processor`, over a storage that shares no code with the machine's: its store buffer is a list that is looked
//! through from the front, and in its memory no line has room for another write, so that what is pending never changes.
ghost use Rattle.std.specs.Prelude.{◌≡◌};
ghost use Rattle.store_buffer.specs.Buffers.{forward_of, value_to};

use crate::fixtures::{program, storing, word};
use arrayvec::ArrayVec;
use isa::{Access, Instr, LockedOperation, MemoryOperand, Program, Reg, Source};
use lines_layout::{Shape, WordId};
use processor::{Act, Cpu, Refusal, Storage};
use std::alloc::Global;
use std::process::Abort;
use std::test::Fail;
use store_buffer::{BUFFER_ROOM, Entry};

/// A store buffer over a memory in which each line has as many pending writes as may be, all of 0.
#[derive(Drop)]
struct FullStorage {
    shape: Shape,
    entries: ArrayVec<Entry, BUFFER_ROOM>,
}

/// The value that an entry writes to a word.
fn written(entry: &Entry, word: WordId) -> Option<u64>
    ensures { result ≡ value_to word entry.now }
{
    match *entry {
        Entry::Write(target, value) if target == word => Some(value),
        _ => None,
    }
}

/// The value of the newest of these entries that writes to a word.
fn newest(entries: &[Entry], word: WordId) -> Option<u64>
    ensures { result ≡ forward_of entries.now word }
{
    let mut found = None;
    for entry in entries {
        if let Some(value) = written(entry, word) {
            found = Some(value);
        }
    }
    found
}

impl Storage for FullStorage {
    ghost use Rattle.processor.specs.Contents.{Contents};
    ghost use Rattle.layer_tests.specs.FullMemories.{full_memory};

    ghost contents = { λ s. record { shape = s.shape; buffer = s.entries.items; memory = full_memory } };

    ghost stays = { λ _ _. Unit {0} };

    ghost stays_itself = { λ _. tt };

    fn read(&self, word: WordId) -> u64 {
        match newest(self.entries.as_slice(), word) {
            Some(value) => value,
            None => self.coherent(word),
        }
    }

    fn coherent(&self, _word: WordId) -> u64 {
        0
    }

    fn at(&self, address: u64) -> Option<WordId> {
        self.shape.word_at(address)
    }

    fn empty(&self) -> bool {
        self.entries.is_empty()
    }

    fn delay(&mut self, entry: Entry) -> Result<(), Refusal> {
        match self.entries.try_push(entry) {
            Ok(()) => Ok(()),
            Err(_) => Err(Refusal::BufferFull),
        }
    }

    fn locked(&mut self, word: WordId, _value: u64) -> Result<(), Refusal> {
        // The prover learns here that the word lies on one of the lines.
        let _number = word.number();
        Err(Refusal::LineFull)
    }
}

/// That storage, with one line of one word and nothing buffered.
fn storage() -> Result<FullStorage, Fail> {
    Ok(FullStorage {
        shape: Shape::new(&[1])?,
        entries: ArrayVec::new(),
    })
}

/// What the next instructions of a processor answer on that storage, of which a refused one is the next again.
fn runs(
    rt: &impl Abort,
    code: &Program,
    storage: &mut FullStorage,
    answers: &[Result<Act, Refusal>],
) {
    let mut cpu = Cpu::new();
    for (at, answer) in answers.iter().enumerate() {
        assert!(rt; cpu.exec(code, storage) == *answer, "{at}");
    }
}

/// An access to the word.
fn at_x(access: Access) -> Result<Instr, Fail> {
    Ok(Instr::Memory(access, MemoryOperand::Word(word(0)?)))
}

/// Writes rcx to the word where it equals rax.
fn compared() -> Result<Instr, Fail> {
    at_x(Access::Locked(LockedOperation::CompareExchange, Reg::Rcx))
}

/// A processor that sets rax to 1, and then does so twice.
fn comparing(alloc: Global) -> Result<Program, Fail> {
    let code = [
        Instr::Set(Reg::Rax, Source::Number(1)),
        compared()?,
        compared()?,
    ];
    program(alloc, &code)
}

/// A comparison that fails writes nothing, and goes on; one that succeeds has no room to write, and waits.
#[test]
fn a_full_memory_takes_no_write(rt: HostRuntime) -> Result<(), Fail> {
    let x = word(0)?;
    let code = comparing(rt.alloc())?;
    let mut storage = storage()?;
    let answers = [
        Ok(Act::Local),
        Ok(Act::Locked(x, 0, None)),
        Err(Refusal::LineFull),
        Err(Refusal::LineFull),
    ];
    runs(&rt, &code, &mut storage, &answers);
    drop((code, storage));
    Ok(())
}

/// A store waits in the store buffer, where its processor reads it, and a locked operation waits for it.
#[test]
fn a_full_memory_is_written_later(rt: HostRuntime) -> Result<(), Fail> {
    let x = word(0)?;
    let code = [
        at_x(storing(7))?,
        at_x(Access::Load(Reg::Rax))?,
        at_x(Access::Locked(LockedOperation::Exchange, Reg::Rcx))?,
    ];
    let code = program(rt.alloc(), &code)?;
    let mut storage = storage()?;
    let answers = [
        Ok(Act::Delay(Entry::Write(x, 7))),
        Ok(Act::Read(x, 7)),
        Err(Refusal::BufferNotEmpty),
    ];
    runs(&rt, &code, &mut storage, &answers);
    drop((code, storage));
    Ok(())
}

/// Delays as many fences as a storage takes, and says how many these are.
fn filled(storage: &mut FullStorage) -> usize {
    for made in 0..=BUFFER_ROOM {
        if storage.delay(Entry::Sfence) == Err(Refusal::BufferFull) {
            return made;
        }
    }
    0
}

/// A read passes a full store buffer, and a store waits.
#[test]
fn a_full_buffer_takes_no_entry(rt: HostRuntime) -> Result<(), Fail> {
    let x = word(0)?;
    let code = [at_x(Access::Load(Reg::Rax))?, at_x(storing(7))?];
    let code = program(rt.alloc(), &code)?;
    let mut storage = storage()?;
    let filled = filled(&mut storage);
    let answers = [Ok(Act::Read(x, 0)), Err(Refusal::BufferFull)];
    runs(&rt, &code, &mut storage, &answers);
    drop((code, storage));
    assert!(rt; filled == 128);
    Ok(())
}
