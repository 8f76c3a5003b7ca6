//! A program with some of what may be put in, and what that costs.
ghost use Rattle.std.specs.Prelude.{◌≡◌, ◌<◌, ◌≤◌, IfOk};
ghost use Rattle.candidates.specs.Sets.{cost, cost_of, costs_of, with_all};

use image_reasons::{Repair, repaired};
use isa::{Access, FenceKind, FlushKind, Instr, Object};
use std::alloc::{AllocError, Global};

/// What an instruction costs that is put in: 2 of a clflush or an mfence, which wait for more than others, and else 1.
fn cost_of(instr: Instr) -> u8
    ensures value { result ≡ cost_of instr }
    ensures small { result ≤ 2 }
{
    match instr {
        Instr::Memory(Access::Flush(FlushKind::Clflush), _) => 2,
        Instr::Fence(FenceKind::Mfence) => 2,
        _ => 1,
    }
}

/// What instructions cost that are put in: 1 for each clwb, clflushopt and sfence, 2 for each clflush and mfence.
pub fn cost(set: &[Repair]) -> u64
    ensures { result ≡ cost set.now }
{
    let mut total = 0;
    for repair in set {
        total += u64::from(cost_of(repair.instr));
    }
    total
}

/// What each of these costs. The only error is out of memory.
pub fn costs(alloc: Global, candidates: &[Repair]) -> Result<Vec<u8>, AllocError>
    ensures { IfOk result (λ costs. costs.items ≡ costs_of candidates.now) }
{
    let mut costs = Vec::new(alloc);
    for candidate in candidates {
        costs.push(cost_of(candidate.instr))?;
    }
    Ok(costs)
}

/// The object with these instructions, which stand by place, and all else as it was: the last is put in first. None where that is no
/// program, or cannot be loaded. The only error is out of memory.
pub fn with_all(
    alloc: Global,
    object: &Object,
    set: &[Repair],
) -> Result<Option<Object>, AllocError>
    ensures { IfOk result (λ changed. changed ≡ with_all set.now object.now) }
{
    let mut changed = Object::of(alloc, object)?;
    let mut left = set.len();
    while left > 0 {
        left -= 1;
        match repaired(alloc, &changed, set[left])? {
            Some(more) => changed = more,
            None => return Ok(None),
        }
    }
    Ok(Some(changed))
}
