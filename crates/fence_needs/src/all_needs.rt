//! What each flush and each fence of a program is needed for.
ghost use Rattle.std.specs.Prelude.{◌≡◌, IfOk};
ghost use Rattle.verdicts.specs.Verdicts.{IsKeptBy};
ghost use Rattle.fence_needs.specs.Needs.{AreNeeds};
ghost use Rattle.fence_needs.specs.Sites.{sites_of};
ghost use Rattle.fence_needs.specs.Tried.{AreFound};

use crate::alone::each_alone;
use crate::need::SiteNeed;
use crate::one_by_one::{holds_without, left_out, one_by_one};
use crate::site_list::fences_of;
use crate::weaker::with_weaker;
use explore::Question;
use image_reasons::Site;
use isa::Object;
use std::alloc::{AllocError, Global};
use std::thread::Threads;
use workers::Gate;

/// How many states are told apart at most where what so many instructions are needed for is asked: each is left out alone, then
/// those that can be are left out together, and at last one after another; the first of these needs no second exploration. Then the weaker
/// one of each is tried.
fn most_states(limit: u64, count: usize) -> u64 {
    limit.saturating_mul(3).saturating_mul(count as u64)
}

/// What each flush and each fence is needed for, but for the weaker ones: first each alone, by as many threads as there
/// are; then all without which alone what is asked holds together; and where it does not hold then, or is not told, one after
/// another.
fn found<R: Threads + Sync, G: Gate + Sync>(
    rt: &R,
    alloc: Global,
    object: &Object,
    question: &Question,
    limit: u64,
    sites: &[Site],
    gate: &G,
) -> Result<Vec<SiteNeed>, AllocError>
    requires { sites.now ≡ sites_of object.now }
    ensures { IfOk result (λ found. AreFound question.now limit object.now found.items) }
{
    let alone = each_alone(rt, alloc, object, question, limit, sites, gate)?;
    let spare = left_out(alloc, &alone)?;
    if spare.len() < 2 || holds_without(alloc, object, question, limit, &spare, gate)? {
        Ok(alone)
    } else {
        one_by_one(alloc, object, question, limit, alone, gate)
    }
}

/// What each flush and each fence of a program is needed for, in the order of [`fences_of`], and which weaker instruction does in
/// place of each that stays. So many states of each program are told apart at most. The gate is told of each, and how many
/// there may be of all programs. Where what is asked does not hold of the program as it is, nothing is promised.
///
/// # Errors
///
/// Out of memory.
pub fn needs<R: Threads + Sync, G: Gate + Sync>(
    rt: &R,
    alloc: Global,
    object: &Object,
    question: &Question,
    limit: u64,
    gate: &G,
) -> Result<Vec<SiteNeed>, AllocError>
    ensures { IfOk result (λ needs. IsKeptBy question.now object.now → AreNeeds question.now limit object.now needs.items) }
{
    let sites = fences_of(alloc, object)?;
    gate.begun(most_states(limit, sites.len()));
    let found = found(rt, alloc, object, question, limit, &sites, gate)?;
    with_weaker(alloc, object, question, limit, found, gate)
}
