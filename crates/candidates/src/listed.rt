//! What may be put into a program.
ghost use Rattle.std.specs.Prelude.{◌≡◌, ◌++◌, [], map, if◌then◌else◌, OnOk, IfOk};
ghost use Rattle.candidates.specs.Candidates.{candidates_at, candidates_in, candidates_of, fences, flushes_behind, flushes_of, is_same_reg, operand_kept, put_behind, reg_kept};

use image_reasons::{Repair, Side, Site};
use isa::{
    Access, FenceKind, FlushKind, Instr, LockedOperation, MemoryOperand, Object, Program, Reg,
};
use std::alloc::{AllocError, Global};

/// Whether two registers are one.
fn is_same_reg(a: Reg, b: Reg) -> bool
    ensures { result ≡ is_same_reg a b }
{
    a as usize == b as usize
}

/// Whether a register has the same value behind an access as before it.
fn reg_kept(access: &Access, r: Reg) -> bool
    ensures { result ≡ reg_kept access.now r }
{
    match *access {
        Access::Load(written) => !is_same_reg(written, r),
        Access::Locked(LockedOperation::CompareExchange, _) => !is_same_reg(Reg::Rax, r),
        Access::Locked(LockedOperation::Exchange | LockedOperation::ExchangeAdd, own) => {
            !is_same_reg(own, r)
        }
        Access::Store(_) | Access::Flush(_) => true,
    }
}

/// Whether an operand means the same address behind an access as before it.
fn operand_kept(access: &Access, operand: &MemoryOperand) -> bool
    ensures { result ≡ operand_kept access.now operand.now }
{
    match *operand {
        MemoryOperand::Word(_) => true,
        MemoryOperand::Register(r) => reg_kept(access, r),
    }
}

/// An instruction behind the one at a site.
fn put_behind(site: Site, instr: Instr) -> Repair
    ensures { result ≡ put_behind site instr }
{
    Repair {
        side: Side::Behind,
        site,
        instr,
    }
}

/// Adds the flushes of an operand, behind the instruction at a site.
fn push_flushes(
    candidates: &mut Vec<Repair>,
    site: Site,
    operand: &MemoryOperand,
) -> Result<(), AllocError>
    ensures { OnOk result (candidates.new.items ≡ candidates.old.items ++ map (put_behind site) (flushes_of operand.now)) }
{
    // The toolchain has no proof for a push of what has an instruction, outside the crate of those.
    candidates.extend_from_slice(&[
        put_behind(
            site,
            Instr::Memory(Access::Flush(FlushKind::Clwb), *operand),
        ),
        put_behind(
            site,
            Instr::Memory(Access::Flush(FlushKind::Clflush), *operand),
        ),
    ])
}

/// Adds the fences, behind the instruction at a site.
fn push_fences(candidates: &mut Vec<Repair>, site: Site) -> Result<(), AllocError>
    ensures { OnOk result (candidates.new.items ≡ candidates.old.items ++ map (put_behind site) fences) }
{
    candidates.extend_from_slice(&[
        put_behind(site, Instr::Fence(FenceKind::Sfence)),
        put_behind(site, Instr::Fence(FenceKind::Mfence)),
    ])
}

/// Whether an access may be followed by a flush of what it accesses: the access is no flush, and its address is still known.
fn may_be_flushed(access: &Access, operand: &MemoryOperand) -> bool
    ensures { flushes_behind access.now operand.now ≡ (if result then flushes_of operand.now else []) }
{
    match access {
        Access::Flush(_) => false,
        Access::Load(_) | Access::Store(_) | Access::Locked(..) => operand_kept(access, operand),
    }
}

/// Adds what may be put in behind the instruction at a site.
fn push_behind(candidates: &mut Vec<Repair>, site: Site, instr: &Instr) -> Result<(), AllocError>
    ensures { OnOk result (candidates.new.items ≡ candidates.old.items ++ candidates_at site instr.now) }
{
    let Instr::Memory(access, operand) = instr else {
        return Ok(());
    };
    if may_be_flushed(access, operand) {
        push_flushes(candidates, site, operand)?;
    }
    push_fences(candidates, site)
}

/// Adds what may be put into a program.
fn push_candidates(
    candidates: &mut Vec<Repair>,
    processor: u32,
    recovering: bool,
    program: &Program,
) -> Result<(), AllocError>
    ensures { OnOk result (candidates.new.items ≡ candidates.old.items ++ candidates_in processor recovering program.now) }
{
    for (place, instr) in program.instructions().iter().enumerate() {
        let site = Site {
            processor,
            recovering,
            place,
        };
        push_behind(candidates, site, instr)?;
    }
    Ok(())
}

/// What may be put into an object, one instruction each: behind each instruction that accesses memory. Processor by processor,
/// into the main program before the recovery program, by place. The only error is out of memory.
pub fn candidates(alloc: Global, object: &Object) -> Result<Vec<Repair>, AllocError>
    ensures { IfOk result (λ candidates. candidates.items ≡ candidates_of object.now) }
{
    let mut candidates = Vec::new(alloc);
    for (processor, programs) in object.processors().iter().enumerate() {
        let processor = processor as u32;
        push_candidates(&mut candidates, processor, false, &programs.main)?;
        push_candidates(&mut candidates, processor, true, &programs.recovery)?;
    }
    Ok(candidates)
}
