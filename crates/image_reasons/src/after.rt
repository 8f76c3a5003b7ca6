//! Which writes are missing in an image after steps, and what is kept of a run.
ghost use Rattle.std.specs.Prelude.{◌≡◌, IfOk, is_none};
ghost use Rattle.machine.specs.Steps.{run_of};
ghost use Rattle.image_reasons.specs.Origins.{origins_of, origins_on, trace_of};
ghost use Rattle.image_reasons.specs.Reasons.{missing_after, missing_at_end, missing_found};

use crate::missing::Missing;
use crate::origins::Origins;
use isa::Object;
use machine::{Machine, Step};
use pending_images::Image;
use std::alloc::{AllocError, Global};

/// Makes steps and notes each, up to the first that is refused; whether none was.
fn follow(machine: &mut Machine, origins: &mut Origins, steps: &[Step]) -> Result<bool, AllocError>
    ensures done { IfOk result (λ done. done ≡ is_none (run_of steps.now machine.old).refusal) }
    ensures state { IfOk result (λ done. machine.new ≡ (run_of steps.now machine.old).state) }
    ensures noted { IfOk result (λ done. origins.new ≡ origins_on 0 origins.old (trace_of steps.now machine.old)) }
{
    for (n, step) in steps.iter().enumerate() {
        match machine.step(*step) {
            Ok(seen) => origins.note(n, seen)?,
            Err(_) => return Ok(false),
        }
    }
    Ok(true)
}

/// The writes that are missing in an image that a crash after these steps of a machine may leave, of which nothing is noted yet.
fn missing_at_end(
    machine: &mut Machine,
    origins: &mut Origins,
    alloc: Global,
    steps: &[Step],
    image: &Image,
) -> Result<Option<Vec<Missing>>, AllocError>
    ensures { IfOk result (λ m. missing_found m ≡ missing_at_end
        (origins_on 0 origins.old (trace_of steps.now machine.old)) image.now (run_of steps.now machine.old)) }
{
    if follow(machine, origins, steps)? {
        origins.missing_in(alloc, machine.view().pending(), image)
    } else {
        Ok(None)
    }
}

/// The writes that are missing in an image that a crash after these steps may leave, and why each may be: those that are pending, oldest
/// first, and then those that are buffered, by processor and place. None if a step is refused, or no crash after them leaves the image.
/// The only error is out of memory.
pub fn missing_writes(
    alloc: Global,
    object: &Object,
    steps: &[Step],
    image: &Image,
) -> Result<Option<Vec<Missing>>, AllocError>
    ensures { IfOk result (λ m. missing_found m ≡ missing_after object.now steps.now image.now) }
{
    let mut machine = Machine::load(alloc, object)?;
    let mut origins = Origins::new(alloc, object.processors().len())?;
    let missing = missing_at_end(&mut machine, &mut origins, alloc, steps, image);
    drop(machine);
    drop(origins);
    missing
}

/// What is kept of a run of these steps up to the first that is refused: which instruction each buffered and each pending entry is of.
///
/// # Errors
///
/// Out of memory.
pub fn origins_after(alloc: Global, object: &Object, steps: &[Step]) -> Result<Origins, AllocError>
    ensures { IfOk result (λ origins. origins ≡ origins_of object.now steps.now) }
{
    let mut machine = Machine::load(alloc, object)?;
    let mut origins = Origins::new(alloc, object.processors().len())?;
    let followed = follow(&mut machine, &mut origins, steps);
    drop(machine);
    followed?;
    Ok(origins)
}
