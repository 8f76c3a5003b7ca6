//! Machines in which a missing write has persisted.
ghost use Rattle.std.specs.Prelude.{◌≡◌, true, IfOk, IfSome};
ghost use Rattle.pending_images.specs.Images.{image_now};
ghost use Rattle.images.specs.Images.{pending_of};
ghost use Rattle.machine.specs.Objects.{opening};
ghost use Rattle.machine.specs.Steps.{run_of};
ghost use Rattle.explore.specs.Reachable.{IsReachable};
ghost use Rattle.causes.specs.Enough.{HasLeft, HasPersisted};

use crate::moves::{is_there, let_go_on, persist_image};
use image_reasons::Missing;
use isa::Object;
use machine::{Machine, Step};
use pending_images::{Image, closed_set};
use std::alloc::{AllocError, Global};

/// The machine of a program after steps, if all are accepted. The only error is out of memory.
#[tactic(auto, using(crate::proofs::Leads::reached_by_run))]
pub(crate) fn machine_after(
    alloc: Global,
    object: &Object,
    steps: &[Step],
) -> Result<Option<Machine>, AllocError>
    ensures state { IfOk result (λ after. IfSome after (λ machine. machine ≡ (run_of steps.now (opening object.now)).state)) }
    ensures reached { IfOk result (λ after. IfSome after (λ machine. IsReachable true (opening object.now) machine)) }
{
    let mut machine = Machine::load(alloc, object)?;
    let (_, refusal) = machine.run(steps);
    match refusal {
        Some(_) => Ok(None),
        None => Ok(Some(machine)),
    }
}

/// A copy of a machine, in which a missing write was let go on until it had persisted, if that is found. The only error is out of memory.
pub(crate) fn with_write(
    alloc: Global,
    machine: &Machine,
    write: &Missing,
) -> Result<Option<Machine>, AllocError>
    ensures { IfOk result (λ found. IfSome found (HasPersisted machine.now write.now)) }
{
    let mut there = machine.copy(alloc)?;
    let_go_on(alloc, &mut there, write)?;
    if is_there(&there, write) {
        Ok(Some(there))
    } else {
        Ok(None)
    }
}

/// Whether a crash of a machine leaves an image. The only error is out of memory.
#[tactic(auto, using(crate::proofs::Leads::left_by_none))]
fn is_left(alloc: Global, machine: &Machine, image: &Image) -> Result<bool, AllocError>
    ensures { IfOk result (λ left. left ≡ true → image_now (pending_of machine.now) ≡ image.now) }
{
    match closed_set(alloc, machine.view().pending(), image)? {
        Some(places) => Ok(places.is_empty()),
        None => Ok(false),
    }
}

/// A copy of a machine, in which all that an image has was persisted, so that a crash leaves the image, if that is found. The only error is
/// out of memory.
pub(crate) fn with_image(
    alloc: Global,
    machine: &Machine,
    image: &Image,
) -> Result<Option<Machine>, AllocError>
    ensures { IfOk result (λ found. IfSome found (HasLeft machine.now image.now)) }
{
    let mut there = machine.copy(alloc)?;
    persist_image(alloc, &mut there, image)?;
    if is_left(alloc, &there, image)? {
        Ok(Some(there))
    } else {
        Ok(None)
    }
}
