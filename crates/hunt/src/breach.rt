//! Asking what a crash may leave in a state.
ghost use Rattle.std.specs.Prelude.{◌≡◌, IfOk};
ghost use Rattle.conditions.specs.Truth.{reads_registers};
ghost use Rattle.hunt.specs.Crashes.{broken_in};
ghost use Rattle.hunt.specs.Unchanged.{IsBreachAfter, act_leaves_all, leaves_all};

use crate::loss::Breach;
use images::{Cond, all_images, count, list};
use machine::{Act, Entry, Seen, View};
use std::alloc::{AllocError, Global};

/// What breaks a condition in a state, if anything does.
pub(crate) fn breach_in(
    alloc: Global,
    cond: &Cond,
    view: &View<'_>,
) -> Result<Option<Breach>, AllocError>
    ensures { IfOk result (λ found. found ≡ broken_in cond.now view.now) }
{
    let Some(countable) = count(view) else {
        return Ok(Some(Breach::TooMany));
    };
    let images = list(alloc, &countable)?;
    match all_images(cond, view, &images) {
        Some(image) => Ok(Some(Breach::Leaves(image.copy(alloc)?))),
        None => Ok(None),
    }
}

/// Whether an act leaves memory and registers as they were, or memory alone where no register counts.
fn act_leaves_all(act: Act, cond_reads_registers: bool) -> bool
    ensures { result ≡ act_leaves_all act cond_reads_registers }
{
    match act {
        Act::Fence | Act::Delay(_) | Act::Trap(_) => true,
        Act::Local | Act::Read(_, _) | Act::Locked(_, _, None) => !cond_reads_registers,
        Act::Locked(_, _, Some(_)) => false,
    }
}

/// Whether a step that showed this left all that a condition may ask as it was: the pending list, the persisted values,
/// and the registers, unless they do not count.
pub(crate) fn leaves_all(seen: Seen, cond_reads_registers: bool) -> bool
    ensures { result ≡ leaves_all seen cond_reads_registers }
{
    match seen {
        Seen::Ran(_, _, act) => act_leaves_all(act, cond_reads_registers),
        Seen::Left(_, _, Entry::Sfence) => true,
        Seen::Left(_, _, _) | Seen::Persisted(_, _) | Seen::Settled(_) | Seen::Crashed(_) => false,
    }
}

/// What breaks a condition in the state after a step that showed this, where nothing broke it before. Registers count
/// where the condition reads some.
pub(crate) fn breach_after(
    alloc: Global,
    cond: &Cond,
    cond_reads_registers: bool,
    view: &View<'_>,
    seen: Seen,
) -> Result<Option<Breach>, AllocError>
    requires { cond_reads_registers ≡ reads_registers cond.now }
    ensures { IfOk result (IsBreachAfter cond.now seen view.now) }
{
    if leaves_all(seen, cond_reads_registers) {
        return Ok(None);
    }
    breach_in(alloc, cond, view)
}
