//! The crashes of a run that breaks a condition: where each is among its steps, and what it left.
ghost use Rattle.std.specs.Prelude.{◌≡◌, ◌+◌, ◌≤◌, ◌++◌, IfOk, OnOk, map, slice_index, take};
ghost use Rattle.std.specs.List.{range_with_len};
ghost use Rattle.lines_layout.specs.Lines.{max_words};
ghost use Rattle.pending_images.specs.Images.{image_now};
ghost use Rattle.explore.specs.Reachable.{is_crash};
ghost use Rattle.jobs.specs.Crashes.{crash_at, crashes_in, left_after, steps_before};

use crate::start::Start;
use explore::Failure;
use images::Image;
use isa::Object;
use lines_layout::{LINE_WORDS, WordId};
use machine::{Machine, Step};
use persist_buffer::Pending;
use std::alloc::{AllocError, Global};

/// Whether a step is a crash.
fn is_crash(step: Step) -> bool
    ensures { result ≡ is_crash step }
{
    matches!(step, Step::Crash)
}

/// Appends the place of a step, if it is a crash.
fn push_crash_at(places: &mut Vec<usize>, place: usize, step: Step) -> Result<(), AllocError>
    ensures { OnOk result (places.new.items ≡ places.old.items ++ crash_at place step) }
{
    if is_crash(step) {
        places.push(place)?;
    }
    Ok(())
}

/// The places of the crashes among steps, from 0.
///
/// # Errors
///
/// Out of memory.
pub fn crashes_in(alloc: Global, steps: &[Step]) -> Result<Vec<usize>, AllocError>
    ensures { IfOk result (λ places. places.items ≡ crashes_in steps.now) }
{
    let mut places = Vec::new(alloc);
    for (place, step) in steps.iter().enumerate() {
        push_crash_at(&mut places, place, *step)?;
    }
    Ok(places)
}

/// So many of the first steps; all, if there are no more.
fn first_steps(steps: &[Step], count: usize) -> &[Step]
    ensures { result.now ≡ take count steps.now }
{
    if count < steps.len() {
        &steps[..count]
    } else {
        steps
    }
}

/// The steps that lead to a place of the run: the given ones, and those of the run before it.
///
/// # Errors
///
/// Out of memory.
pub fn steps_before(
    alloc: Global,
    start: &Start,
    failure: &Failure,
    place: usize,
) -> Result<Vec<Step>, AllocError>
    ensures { IfOk result (λ steps. steps.items ≡ steps_before start.now failure.now place) }
{
    let mut steps = Vec::from_slice(alloc, start.given.steps())?;
    steps.extend_from_slice(first_steps(failure.run.steps(), place))?;
    Ok(steps)
}

/// Appends the persisted values of so many words from this one on.
#[tactic(auto, using(pending_images::proofs::BaseImage::values_next))]
fn push_values(
    values: &mut Vec<u64>,
    start: usize,
    count: usize,
    pending: &Pending,
) -> Result<(), AllocError>
    requires { start + count ≤ max_words }
    ensures { OnOk result
        (values.new.items ≡ values.old.items ++ map (slice_index pending.now.memory.persisted) (range_with_len start count)) }
{
    for place in 0..count {
        let word = WordId::new(start + place).unwrap();
        values.push(pending.persisted(word))?;
    }
    Ok(())
}

/// The image that has persisted.
#[tactic(auto, using(pending_images::proofs::BaseImage::line_over))]
fn persisted_image(alloc: Global, pending: &Pending) -> Result<Image, AllocError>
    ensures { IfOk result (λ image. image ≡ image_now pending.now) }
{
    let counts = pending.shape().words();
    let mut values = Vec::new(alloc);
    for line in 0..counts.len() {
        push_values(
            &mut values,
            LINE_WORDS * line,
            usize::from(counts[line]),
            pending,
        )?;
    }
    Ok(Image::new(values))
}

/// What a crash leaves after these steps, on the machine of a program: the value of each word that has persisted.
///
/// # Errors
///
/// Out of memory.
pub fn left_after(alloc: Global, object: &Object, steps: &[Step]) -> Result<Image, AllocError>
    ensures { IfOk result (λ image. image ≡ left_after object.now steps.now) }
{
    let mut machine = Machine::load(alloc, object)?;
    let _end = machine.run(steps);
    let image = persisted_image(alloc, machine.view().pending());
    drop(machine);
    image
}
