//! A program with an instruction that was not there.
ghost use Rattle.std.specs.Prelude.{◌≡◌, ◌<◌, ◌≤◌, true, IfOk, length, map, min, slice_set};
ghost use Rattle.std.specs.List.{insert};
ghost use Rattle.isa.specs.Programs.{leads_within, max_instructions};
ghost use Rattle.image_reasons.specs.Repairs.{as_program, led_on, put_at, repaired, repaired_programs, shifted, with_instr, with_programs};

use crate::repair::{Repair, Side};
use isa::{Instr, Object, Program, Programs};
use std::alloc::{AllocError, Global};

/// Where a jump leads once an instruction is put next to the one at a place.
fn shifted(place: usize, target: usize) -> usize
    requires { target ≤ max_instructions }
    ensures { result ≡ shifted place target }
{
    if place < target { target + 1 } else { target }
}

/// An instruction of a program of at most so many, which leads on so if it is a jump.
fn led_on(place: usize, instr: Instr, count: usize) -> Instr
    requires few { count ≤ max_instructions }
    requires target { leads_within count instr ≡ true }
    ensures { result ≡ led_on place instr }
{
    match instr {
        Instr::Jump(kind, target) => Instr::Jump(kind, shifted(place, target)),
        other => other,
    }
}

/// The instructions of a program, led on so.
fn all_led_on(alloc: Global, program: &Program, place: usize) -> Result<Vec<Instr>, AllocError>
    ensures { IfOk result (λ code. code.items ≡ map (led_on place) program.now) }
{
    let mut code = Vec::with_capacity(alloc, program.len())?;
    for at in 0..program.len() {
        let instr = program.get(at).unwrap();
        // The toolchain has no proof for a push of an instruction outside its own crate.
        code.extend_from_slice(&[led_on(place, instr, program.len())])?;
    }
    Ok(code)
}

/// Instructions with one more at a place.
fn inserted(
    alloc: Global,
    code: &[Instr],
    place: usize,
    instr: Instr,
) -> Result<Vec<Instr>, AllocError>
    requires { place ≤ length code.now }
    ensures { IfOk result (λ longer. longer.items ≡ insert code.now place instr) }
{
    let (before, behind) = code.split_at(place);
    let mut longer = Vec::from_slice(alloc, before)?;
    longer.extend_from_slice(&[instr])?;
    longer.extend_from_slice(behind)?;
    Ok(longer)
}

/// The place of what is put on a side of the instruction at a place, in a program of so many instructions: at most its end.
fn put_at(side: Side, place: usize, count: usize) -> usize
    ensures { result ≡ min (put_at side place) count }
{
    match side {
        Side::Before => place.min(count),
        Side::Behind if place < count => place + 1,
        Side::Behind => count,
    }
}

/// A program with one more instruction on a side of the one at a place, if what comes out is a program.
fn with_instr(
    alloc: Global,
    program: &Program,
    side: Side,
    place: usize,
    instr: Instr,
) -> Result<Option<Program>, AllocError>
    ensures { IfOk result (λ changed. changed ≡ as_program (with_instr side place instr program.now)) }
{
    let code = all_led_on(alloc, program, place)?;
    let at = put_at(side, place, code.len());
    let longer = inserted(alloc, &code, at, instr)?;
    Ok(Program::new(longer).ok())
}

/// The programs of a processor with an instruction that was not there, if what comes out is a program.
fn repaired_programs(
    alloc: Global,
    programs: &Programs,
    repair: Repair,
) -> Result<Option<Programs>, AllocError>
    ensures { IfOk result (λ changed. changed ≡ repaired_programs repair programs.now) }
{
    let Repair { side, site, instr } = repair;
    if site.recovering {
        let Some(recovery) = with_instr(alloc, &programs.recovery, side, site.place, instr)? else {
            return Ok(None);
        };
        let main = programs.main.copy(alloc)?;
        Ok(Some(Programs { main, recovery }))
    } else {
        let Some(main) = with_instr(alloc, &programs.main, side, site.place, instr)? else {
            return Ok(None);
        };
        let recovery = programs.recovery.copy(alloc)?;
        Ok(Some(Programs { main, recovery }))
    }
}

/// The programs of all processors again.
fn copies(alloc: Global, processors: &[Programs]) -> Result<Vec<Programs>, AllocError>
    ensures { IfOk result (λ copies. copies.items ≡ processors.now) }
{
    let mut copies = Vec::with_capacity(alloc, processors.len())?;
    for programs in processors {
        copies.push(programs.copy(alloc)?)?;
    }
    Ok(copies)
}

/// The programs of all processors, with these in place of those of one.
fn replaced(
    alloc: Global,
    processors: &[Programs],
    processor: usize,
    programs: Programs,
) -> Result<Vec<Programs>, AllocError>
    requires { processor < length processors.now }
    ensures { IfOk result (λ changed. changed.items ≡ slice_set processors.now processor programs) }
{
    let mut changed = copies(alloc, processors)?;
    changed[processor] = programs;
    Ok(changed)
}

/// The object with other programs of a processor, if they can be loaded.
fn with_programs(
    alloc: Global,
    object: &Object,
    processor: usize,
    programs: Programs,
) -> Result<Option<Object>, AllocError>
    requires { processor < length object.now.processors }
    ensures { IfOk result (λ changed. changed ≡ with_programs object.now processor programs) }
{
    let processors = replaced(alloc, object.processors(), processor, programs)?;
    let layout = object.layout().copy(alloc)?;
    let values = object.values().copy(alloc)?;
    Ok(Object::new(layout, values, processors).ok())
}

/// The object with an instruction that was not there, and all else as it was: `laws::one_instruction_is_put_in`. None exactly where
/// there is no such processor, or what comes out is no program, or cannot be loaded. The only error is out of memory.
pub fn repaired(
    alloc: Global,
    object: &Object,
    repair: Repair,
) -> Result<Option<Object>, AllocError>
    ensures { IfOk result (λ changed. changed ≡ repaired object.now repair) }
{
    let processor = repair.site.processor as usize;
    let Some(programs) = object.processors().get(processor) else {
        return Ok(None);
    };
    match repaired_programs(alloc, programs, repair)? {
        Some(changed) => with_programs(alloc, object, processor, changed),
        None => Ok(None),
    }
}
