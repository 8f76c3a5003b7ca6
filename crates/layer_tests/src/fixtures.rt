//! What the tests start from. Words 0 and 1 lie on line 0, word 8 on line 1.
use isa::{
    Access, FenceKind, FlushKind, Immediate, Instr, LockedOperation, MemoryOperand, Object,
    Program, Programs, Reg, Source,
};
use lines_layout::{Layout, Shape, WordId, WordValues};
use machine::{Machine, Step};
use persist_buffer::Pending;
use std::alloc::{AllocError, Global};
use std::test::Fail;

/// The word of a number.
pub fn word(number: usize) -> Result<WordId, Fail> {
    Ok(WordId::new(number).ok_or("no word")?)
}

/// A store of a number.
pub fn storing(number: u32) -> Access {
    Access::Store(Source::Number(Immediate::of_bits(number)))
}

/// The program of these instructions.
pub fn program(alloc: Global, code: &[Instr]) -> Result<Program, Fail> {
    let code = Vec::from_slice(alloc, code)?;
    Ok(Program::new(code).ok().ok_or("no program")?)
}

/// A processor that stores 1 to word 0, flushes its line, stores 2 to word 8, waits for them to leave
/// and exchanges word 0 with rcx; after a crash it reads word 0.
fn programs(alloc: Global) -> Result<Programs, Fail> {
    let (at_x, at_y) = (MemoryOperand::Word(word(0)?), MemoryOperand::Word(word(8)?));
    let code = [
        Instr::Memory(storing(1), at_x),
        Instr::Memory(Access::Flush(FlushKind::Clflush), at_x),
        Instr::Memory(storing(2), at_y),
        Instr::Fence(FenceKind::Mfence),
        Instr::Memory(Access::Locked(LockedOperation::Exchange, Reg::Rcx), at_x),
    ];
    let main = program(alloc, &code)?;
    let recovery = program(alloc, &[Instr::Memory(Access::Load(Reg::Rax), at_x)])?;
    Ok(Programs { main, recovery })
}

/// One word on each of two lines, and the values of which the word of a number has this one, and all others are 0.
pub fn two_words(alloc: Global, number: usize, value: u64) -> Result<(Layout, WordValues), Fail> {
    let (word, shape) = (word(number)?, Shape::new(&[1, 1])?);
    let mut values = WordValues::zeroed(alloc)?;
    values.set(word, value);
    let layout = Layout::numbered(alloc, &shape).ok();
    Ok((layout.ok_or("no memory")?, values))
}

/// One processor over one word on each of two lines, of which the second starts as 6.
pub fn object_of(alloc: Global, processor: Programs) -> Result<Object, Fail> {
    let processors = vec![in alloc; processor]?;
    let (layout, values) = two_words(alloc, 8, 6)?;
    let object = Object::new(layout, values, processors).ok();
    Ok(object.ok_or("no object")?)
}

/// The object of that processor.
pub fn object(alloc: Global) -> Result<Object, Fail> {
    object_of(alloc, programs(alloc)?)
}

/// Lines of so many words, with these values and nothing pending.
pub fn nothing_pending(alloc: Global, words: &[u8], values: WordValues) -> Result<Pending, Fail> {
    let pending = Pending::new(alloc, &Shape::new(words)?, values).ok();
    Ok(pending.ok_or("no memory")?)
}

/// The steps by which its main program runs to its end. Pending then are a write of 1 to word 0, a
/// marker of its line, a write of 2 to word 8 and a write of 0 to word 0.
const EXECUTED: [Step; 8] = [
    Step::Exec(0),
    Step::Exec(0),
    Step::Exec(0),
    Step::Drain(0, 0),
    Step::Drain(0, 0),
    Step::Drain(0, 0),
    Step::Exec(0),
    Step::Exec(0),
];

/// The machine of an object. That is the second answer, where the first was refused: `rt try --test --fail-alloc N`
/// refuses the allocation N of each test, counted from 1, and where `load` makes it, it has to say so, and the
/// same call after it has to succeed. The gate refuses none.
fn load(alloc: Global, object: &Object) -> Result<Machine, AllocError> {
    match Machine::load(alloc, object) {
        Err(_) => Machine::load(alloc, object),
        first => first,
    }
}

/// The machine of a processor over those words.
pub fn machine_of(alloc: Global, processor: Programs) -> Result<Machine, Fail> {
    let object = object_of(alloc, processor)?;
    let machine = load(alloc, &object);
    drop(object);
    Ok(machine?)
}

/// The machine of that processor.
pub fn loaded(alloc: Global) -> Result<Machine, Fail> {
    machine_of(alloc, programs(alloc)?)
}

/// The same after those steps.
pub fn executed(alloc: Global) -> Result<Machine, Fail> {
    let mut machine = loaded(alloc)?;
    if machine.run(&EXECUTED) == (8, None) {
        Ok(machine)
    } else {
        drop(machine);
        Err(Fail::new("a refused step"))
    }
}
