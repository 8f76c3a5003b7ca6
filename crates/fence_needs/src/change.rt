//! A program with other instructions in places of it: with nops where it is without them.
ghost use Rattle.std.specs.Prelude.{◌≡◌, IfOk, None, slice_set};
ghost use Rattle.isa.specs.Operands.{target_of};
ghost use Rattle.fence_needs.specs.Changes.{MayStandIn, all_replaced, replaced, replaced_if_theirs, replaced_in, without, without_all};

use image_reasons::Site;
use isa::{Instr, Object, Program, Programs};
use std::alloc::{AllocError, Global};

/// These instructions with another one at a place, if there is that place.
fn code_replaced(
    alloc: Global,
    code: &[Instr],
    place: usize,
    instr: &Instr,
) -> Result<Vec<Instr>, AllocError>
    ensures { IfOk result (λ changed. changed.items ≡ slice_set code.now place instr.now) }
{
    let mut changed = Vec::from_slice(alloc, code)?;
    if place < changed.len() {
        changed[place] = *instr;
    }
    Ok(changed)
}

/// A program with another instruction at a place, if it has that place. It is a program too where that one leads nowhere.
fn program_replaced(
    alloc: Global,
    program: &Program,
    place: usize,
    instr: &Instr,
) -> Result<Program, AllocError>
    requires { target_of instr.now ≡ None }
    ensures { IfOk result (λ changed. changed ≡ slice_set program.now place instr.now) }
{
    let code = code_replaced(alloc, program.instructions(), place, instr)?;
    Ok(Program::from_parts(code))
}

/// The programs of a processor with another instruction at a place of one of them.
fn replaced_in(
    alloc: Global,
    programs: &Programs,
    recovering: bool,
    place: usize,
    instr: &Instr,
) -> Result<Programs, AllocError>
    requires { target_of instr.now ≡ None }
    ensures { IfOk result (λ changed. changed ≡ replaced_in recovering place instr.now programs.now) }
{
    if recovering {
        Ok(Programs {
            main: programs.main.copy(alloc)?,
            recovery: program_replaced(alloc, &programs.recovery, place, instr)?,
        })
    } else {
        Ok(Programs {
            main: program_replaced(alloc, &programs.main, place, instr)?,
            recovery: programs.recovery.copy(alloc)?,
        })
    }
}

/// The programs of the processor of this number, with another instruction at a site if it is theirs.
fn replaced_if_theirs(
    alloc: Global,
    programs: &Programs,
    processor: usize,
    site: Site,
    instr: &Instr,
) -> Result<Programs, AllocError>
    requires { target_of instr.now ≡ None }
    ensures { IfOk result (λ changed. changed ≡ replaced_if_theirs processor site instr.now programs.now) }
{
    if processor == site.processor as usize {
        replaced_in(alloc, programs, site.recovering, site.place, instr)
    } else {
        programs.copy(alloc)
    }
}

/// The programs of all processors with another instruction at a site.
fn all_replaced(
    alloc: Global,
    processors: &[Programs],
    site: Site,
    instr: &Instr,
) -> Result<Vec<Programs>, AllocError>
    requires { target_of instr.now ≡ None }
    ensures { IfOk result (λ changed. changed.items ≡ all_replaced site instr.now processors.now) }
{
    let mut changed = Vec::with_capacity(alloc, processors.len())?;
    for (processor, programs) in processors.iter().enumerate() {
        let made = replaced_if_theirs(alloc, programs, processor, site, instr)?;
        changed.push(made)?;
    }
    Ok(changed)
}

/// The object with another instruction at a site, and all else as it was: `laws::one_instruction_is_changed`. The only
/// error is out of memory.
pub fn replaced(
    alloc: Global,
    object: &Object,
    site: Site,
    instr: Instr,
) -> Result<Object, AllocError>
    requires { MayStandIn object.now instr }
    ensures { IfOk result (λ changed. changed ≡ replaced object.now site instr) }
{
    let layout = object.layout().copy(alloc)?;
    let values = object.values().copy(alloc)?;
    let processors = all_replaced(alloc, object.processors(), site, &instr)?;
    Ok(Object::from_parts(layout, values, processors))
}

/// The object with a nop at a site, and all else as it was. The only error is out of memory.
pub fn without(alloc: Global, object: &Object, site: Site) -> Result<Object, AllocError>
    ensures { IfOk result (λ changed. changed ≡ without object.now site) }
{
    replaced(alloc, object, site, Instr::Nop)
}

/// The object with a nop at each of these sites.
pub(crate) fn without_all(
    alloc: Global,
    object: &Object,
    sites: &[Site],
) -> Result<Object, AllocError>
    ensures { IfOk result (λ changed. changed ≡ without_all object.now sites.now) }
{
    let mut changed = Object::of(alloc, object)?;
    for site in sites {
        changed = without(alloc, &changed, *site)?;
    }
    Ok(changed)
}
