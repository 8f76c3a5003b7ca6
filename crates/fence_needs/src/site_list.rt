//! The flushes and fences of a program.
ghost use Rattle.std.specs.Prelude.{◌≡◌, ◌++◌, IfOk};
ghost use Rattle.image_reasons.specs.Repairs.{code_of};
ghost use Rattle.fence_needs.specs.Sites.{instr_at, is_fence, sites_in, sites_of};

use image_reasons::Site;
use isa::{Access, Instr, Object, Program, Programs};
use std::alloc::{AllocError, Global};

/// Whether an instruction is a flush or a fence.
pub fn is_fence(instr: &Instr) -> bool
    ensures { result ≡ is_fence instr.now }
{
    matches!(instr, Instr::Memory(Access::Flush(_), _) | Instr::Fence(_))
}

/// Adds the sites of the flushes and fences of one program.
fn push_sites(
    sites: &mut Vec<Site>,
    processor: u32,
    recovering: bool,
    code: &Program,
) -> Result<(), AllocError>
    ensures { IfOk result (λ _. sites.new.items ≡ sites.old.items ++ sites_in processor recovering code.now) }
{
    for (place, instr) in code.instructions().iter().enumerate() {
        if is_fence(instr) {
            sites.push(Site {
                processor,
                recovering,
                place,
            })?;
        }
    }
    Ok(())
}

/// The sites of all flushes and fences: processor by processor, those of the main program before those of the recovery
/// program, by place. The only error is out of memory.
pub fn fences_of(alloc: Global, object: &Object) -> Result<Vec<Site>, AllocError>
    ensures { IfOk result (λ sites. sites.items ≡ sites_of object.now) }
{
    let mut sites = Vec::new(alloc);
    for (processor, programs) in object.processors().iter().enumerate() {
        push_sites(&mut sites, processor as u32, false, &programs.main)?;
        push_sites(&mut sites, processor as u32, true, &programs.recovery)?;
    }
    Ok(sites)
}

/// The main program of a processor, or its recovery program.
fn code_of(recovering: bool, programs: &Programs) -> &Program
    ensures { result.now ≡ code_of recovering programs.now }
{
    if recovering {
        &programs.recovery
    } else {
        &programs.main
    }
}

/// The instruction at a site, a nop where there is none.
pub fn instr_at(object: &Object, site: Site) -> Instr
    ensures { result ≡ instr_at object.now site }
{
    let Some(programs) = object.processors().get(site.processor as usize) else {
        return Instr::Nop;
    };
    match code_of(site.recovering, programs)
        .instructions()
        .get(site.place)
    {
        Some(instr) => *instr,
        None => Instr::Nop,
    }
}
