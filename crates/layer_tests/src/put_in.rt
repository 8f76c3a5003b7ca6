//! A program with an instruction that was not there.
use crate::fixtures::word;
use image_reasons::{Repair, Side, Site, repaired};
use isa::{Access, FenceKind, FlushKind, Instr, MemoryOperand, Object};
use litmus_text::read_litmus;
use std::alloc::Global;
use std::test::Fail;

/// A store to which one jump leads, two jumps to what is behind it, and one to the end.
const JUMPS: &str =
    "litmus 1\nline a\ncpu\nnop\nstore:\nmov [a], 1\nbehind:\njz store\njnz behind\njz behind\n\
    jmp last\nlast:\nend\n";

/// The same with a line above that of the store.
const FENCED: &str =
    "litmus 1\nline a\ncpu\nnop\nstore:\nsfence\nmov [a], 1\nbehind:\njz store\njnz behind\njz behind\n\
    jmp last\nlast:\nend\n";

/// The same with a line below it.
const FLUSHED: &str =
    "litmus 1\nline a\ncpu\nnop\nstore:\nmov [a], 1\nclflush [a]\nbehind:\njz store\njnz behind\n\
    jz behind\njmp last\nlast:\nend\n";

/// A place of a processor's main program.
const fn place(processor: u32, place: usize) -> Site {
    Site {
        processor,
        recovering: false,
        place,
    }
}

/// An sfence before an instruction.
const fn fence(site: Site) -> Repair {
    Repair {
        side: Side::Before,
        site,
        instr: Instr::Fence(FenceKind::Sfence),
    }
}

/// A clflush of the word of a number behind an instruction.
fn flush(number: usize, site: Site) -> Result<Repair, Fail> {
    let operand = MemoryOperand::Word(word(number)?);
    Ok(Repair {
        side: Side::Behind,
        site,
        instr: Instr::Memory(Access::Flush(FlushKind::Clflush), operand),
    })
}

/// Whether the first processors of two objects have the same main program.
fn are_alike(one: &Object, other: &Object) -> bool {
    match (one.processors().first(), other.processors().first()) {
        (Some(one), Some(other)) => one.main.instructions() == other.main.instructions(),
        _ => false,
    }
}

/// Whether an object with a repair is what a text says; without a text, whether there is none.
fn is_repaired(
    alloc: Global,
    object: &Object,
    repair: Repair,
    wanted: Option<&str>,
) -> Result<bool, Fail> {
    let found = repaired(alloc, object, repair)?;
    let Some(text) = wanted else {
        return Ok(found.is_none());
    };
    let Some(found) = found else {
        return Ok(false);
    };
    let wanted = read_litmus(alloc, text.as_bytes());
    let alike = match &wanted {
        Ok(wanted) => are_alike(&found, wanted),
        Err(_) => false,
    };
    drop(found);
    drop(wanted);
    Ok(alike)
}

/// A jump to the store leads to what is put before it, and one to what is behind it passes what is put behind it. The second
/// processor is not there.
#[test]
fn jumps_lead_where_they_led(rt: HostRuntime) -> Result<(), Fail> {
    let store = place(0, 1);
    let rows = [
        (fence(store), Some(FENCED)),
        (flush(0, store)?, Some(FLUSHED)),
        (fence(place(1, 0)), None),
    ];
    let object = read_litmus(rt.alloc(), JUMPS.as_bytes())?;
    for (repair, wanted) in rows {
        assert!(rt; is_repaired(rt.alloc(), &object, repair, wanted)?);
    }
    Ok(())
}
