//! Objects, and their programs' bytes, by calls that no command makes.
use crate::fixtures::{object, two_words};
use codec::round_trip;
use isa::{Access, Instr, JumpKind, MemoryOperand, Object, Program, Programs, Reg, Source};
use lines_layout::{Shape, WordId};
use loader::{ObjectFault, read_object};
use outcomes::OrNoMemory;
use std::alloc::{AllocError, Global};
use std::test::Fail;

/// Whether an object has one word on each of two lines, of which the second is named w8 and has the value 6, and
/// processors of which the first has five instructions, and a recovery program of one.
fn is_as_made(object: &Object) -> Option<bool> {
    let y = WordId::new(8)?;
    let processor = object.processors().first()?;
    let named = object.layout().word(b"w8");
    let words = object.shape().words();
    let lengths = [
        processor.main.len(),
        processor.recovery.len(),
        object.processors().len(),
    ];
    let facts = [
        named == Some(y),
        object.values().get(y) == 6,
        words == [1, 1].as_slice(),
        lengths == [5, 1, 1],
    ];
    Some(facts == [true; 4])
}

/// Whether there is a copy, and it is as the object was made.
fn is_copy(copy: Result<Object, AllocError>) -> Option<bool> {
    is_as_made(&copy.ok()?)
}

/// A copy has what the object has, also once the object is gone.
#[test]
fn a_copy_is_the_object(rt: HostRuntime) -> Result<(), Fail> {
    let made = object(rt.alloc())?;
    let at_first = is_as_made(&made);
    let copy = Object::of(rt.alloc(), &made);
    drop(made);
    let then = is_copy(copy);
    assert!(rt; [at_first, then] == [Some(true); 2]);
    Ok(())
}

/// So many processors without instructions.
fn processors(alloc: Global, count: usize) -> Result<Vec<Programs>, AllocError> {
    let mut processors = Vec::new(alloc);
    for _processor in 0..count {
        let (main, recovery) = (Program::empty(alloc), Program::empty(alloc));
        processors.push(Programs { main, recovery })?;
    }
    Ok(processors)
}

/// Whether there is an object of one word on each of two lines, where the word of a number has a value, and so many
/// processors without instructions.
fn has_object(alloc: Global, number: usize, count: usize) -> Result<bool, Fail> {
    let processors = processors(alloc, count)?;
    let (layout, values) = two_words(alloc, number, 1)?;
    let object = Object::new(layout, values, processors).ok();
    let is_one = object.is_some();
    drop(object);
    Ok(is_one)
}

/// There is a value only where a word is, and there are at most sixteen processors.
#[test]
fn objects_keep_to_their_words(rt: HostRuntime) -> Result<(), Fail> {
    let rows = [
        (0, 0, true),
        (1, 0, false),
        (8, 16, true),
        (8, 17, false),
        (511, 1, false),
    ];
    for (number, processors, wanted) in rows {
        assert!(rt;
            has_object(rt.alloc(), number, processors)? == wanted,
            "{number} {processors}"
        );
    }
    Ok(())
}

/// A program that is assembled and read again.
#[test]
fn what_was_assembled_is_read_again(rt: HostRuntime) -> Result<(), Fail> {
    let shape = Shape::new(&[2, 1])?;
    let code = vec![in rt.alloc();
        Instr::Set(Reg::Rsi, Source::Number(1 << 63)),
        Instr::Memory(Access::Load(Reg::R9), MemoryOperand::Register(Reg::R8)),
        Instr::Jump(JumpKind::IfNotZero, 0),
    ]?;
    match Program::new(code) {
        Ok(program) => {
            let read = round_trip(rt.alloc(), &shape, &program)?;
            assert!(rt; read.instructions() == program.instructions());
            Ok(())
        }
        Err(_) => Err(Fail::new("no program")),
    }
}

/// The 30 bytes of an object of version 1: one word, and one processor that makes an `sfence`.
const FENCE: [u8; 30] = [
    0x50, 0x58, 0x38, 0x36, 0x4F, 0x42, 0x4A, 0x31, 1, 1, 0, 0, 0, 0, 0, 0, 0, 0, 1, 3, 0, 0, 0,
    0x0F, 0xAE, 0xF8, 0, 0, 0, 0,
];

/// The fault of bytes that are no object.
fn fault(alloc: Global, bytes: &[u8]) -> Option<ObjectFault> {
    match read_object(alloc, bytes) {
        Err(OrNoMemory::Fault(fault)) => Some(fault),
        _ => None,
    }
}

/// Each proper beginning of an object is too short, also where it is no more than a beginning of the first eight bytes.
#[test]
fn beginnings_are_short(rt: HostRuntime) {
    for count in 0..30 {
        let (front, _) = FENCE.split_at(count);
        assert!(rt;
            fault(rt.alloc(), front) == Some(ObjectFault::Short),
            "{count}"
        );
    }
}

/// Each bit of the first eight bytes counts.
#[test]
fn first_bytes_are_exact(rt: HostRuntime) {
    for place in 0..8 {
        for bit in [1, 2, 4, 8, 16, 32, 64, 128] {
            let mut bytes = FENCE;
            bytes[place] ^= bit;
            assert!(rt;
                fault(rt.alloc(), &bytes) == Some(ObjectFault::BadMagic),
                "{place} {bit}"
            );
        }
    }
    assert!(rt; fault(rt.alloc(), &FENCE).is_none());
}
