//! The missing writes, each with whether it is told that it alone is enough.
ghost use Rattle.std.specs.Prelude.{◌≡◌, ℕ, IfOk, true, List};
ghost use Rattle.std.specs.List.{position};
ghost use Rattle.machine.specs.State.{State};
ghost use Rattle.explore.specs.declared.question.Question.{Question};
ghost use Rattle.machine.specs.Objects.{opening};
ghost use Rattle.machine.specs.Steps.{run_of};
ghost use Rattle.image_reasons.specs.Reasons.{missing_after};
ghost use Rattle.explore.specs.Reachable.{IsReachable};
ghost use Rattle.causes.specs.Enough.{AreAllTold, AreTold, IsEnoughBehind, IsEnoughHere, IsEnoughInImage, is_first, is_of_another, is_of_others, is_place, told_of, writes_same};

use crate::keeps::{is_enough_behind, is_enough_here};
use crate::search::{machine_after, with_image};
use crate::told::{MOST_TRIED, Told};
use explore::Question;
use image_reasons::{Missing, missing_writes};
use isa::Object;
use machine::{Machine, Step};
use pending_images::Image;
use std::alloc::{AllocError, Global};
use workers::Gate;

/// Whether another missing write writes the same value to the same word.
fn writes_same(write: &Missing, other: &Missing) -> bool
    ensures { result ≡ writes_same write.now other.now }
{
    other.word == write.word && other.value == write.value
}

/// Whether another missing write writes the same, and is of another processor.
fn is_of_another(write: &Missing, other: &Missing) -> bool
    ensures { result ≡ is_of_another write.now other.now }
{
    writes_same(write, other) && other.site.processor != write.site.processor
}

/// The place of the first missing write that writes the same as one.
fn first_place(missing: &[Missing], write: &Missing) -> Option<usize>
    ensures { result ≡ position (writes_same write.now) missing.now }
{
    missing.iter().position(|other| writes_same(write, other))
}

/// Whether one of these missing writes writes the same as one, and is of another processor.
fn is_of_others(missing: &[Missing], write: &Missing) -> bool
    ensures { result ≡ is_of_others missing.now write.now }
{
    missing.iter().any(|other| is_of_another(write, other))
}

/// Whether this is the place.
fn is_place(place: usize, first: Option<usize>) -> bool
    ensures { result ≡ is_place place first }
{
    match first {
        Some(there) => there == place,
        None => false,
    }
}

/// Whether the missing write at a place is the first that writes the same, and none of another processor does.
fn is_first(missing: &[Missing], place: usize, write: &Missing) -> bool
    ensures { result ≡ is_first missing.now place write.now }
{
    is_place(place, first_place(missing, write)) && !is_of_others(missing, write)
}

/// Missing writes, none told as enough. The only error is out of memory.
fn none_enough(alloc: Global, missing: &[Missing]) -> Result<Vec<Told>, AllocError>
    ensures { IfOk result (λ told. AreAllTold (λ write. ⊥) missing.now told.items) }
{
    let mut told = Vec::with_capacity(alloc, missing.len())?;
    for write in missing {
        told.push(Told {
            write: *write,
            enough: false,
        })?;
    }
    Ok(told)
}

/// The same: right of what a crash left, whatever is enough.
fn none_behind(alloc: Global, missing: &[Missing]) -> Result<Vec<Told>, AllocError>
    ensures { (question : Question) (limit : ℕ) (s : State)
        → IfOk result (λ told. AreAllTold (IsEnoughBehind question limit s) missing.now told.items) }
{
    none_enough(alloc, missing)
}

/// The same: right of an image, whatever is enough.
fn none_in_image(alloc: Global, missing: &[Missing]) -> Result<Vec<Told>, AllocError>
    ensures { (question : Question) (s : State) (image : List ℕ)
        → IfOk result (λ told. AreAllTold (IsEnoughInImage question s image) missing.now told.items) }
{
    none_enough(alloc, missing)
}

/// Whether the write at a place of those that are missing in what a crash of a machine left is found to be enough alone, and is the first
/// that writes the same, as none of another processor does. The only error is out of memory.
fn is_first_enough_behind<G: Gate>(
    alloc: Global,
    object: &Object,
    machine: &Machine,
    missing: &[Missing],
    place: usize,
    write: &Missing,
    question: &Question,
    limit: u64,
    gate: &G,
) -> Result<bool, AllocError>
    requires { IsReachable true (opening object.now) machine.now }
    ensures first { IfOk result (λ enough. enough ≡ true → is_first missing.now place write.now ≡ true) }
    ensures enough { IfOk result (λ enough. enough ≡ true → IsEnoughBehind question.now limit machine.now write.now) }
{
    if !is_first(missing, place, write) {
        return Ok(false);
    }
    is_enough_behind(alloc, object, machine, write, question, limit, gate)
}

/// The same of an image that a crash of a machine leaves.
fn is_first_enough_here(
    alloc: Global,
    machine: &Machine,
    missing: &[Missing],
    place: usize,
    write: &Missing,
    question: &Question,
) -> Result<bool, AllocError>
    ensures first { IfOk result (λ enough. enough ≡ true → is_first missing.now place write.now ≡ true) }
    ensures enough { IfOk result (λ enough. enough ≡ true → IsEnoughHere question.now machine.now write.now) }
{
    if !is_first(missing, place, write) {
        return Ok(false);
    }
    is_enough_here(alloc, machine, write, question)
}

/// Missing writes of what a crash of a machine left. The only error is out of memory.
fn each_behind<G: Gate>(
    alloc: Global,
    object: &Object,
    machine: &Machine,
    missing: &[Missing],
    question: &Question,
    limit: u64,
    gate: &G,
) -> Result<Vec<Told>, AllocError>
    requires { IsReachable true (opening object.now) machine.now }
    ensures { IfOk result (λ told. AreAllTold (IsEnoughBehind question.now limit machine.now) missing.now told.items) }
{
    let mut told = Vec::with_capacity(alloc, missing.len())?;
    for (place, write) in missing.iter().enumerate() {
        let enough = is_first_enough_behind(
            alloc, object, machine, missing, place, write, question, limit, gate,
        )?;
        told.push(Told {
            write: *write,
            enough,
        })?;
    }
    Ok(told)
}

/// Missing writes of the image that a crash of a machine leaves now. The only error is out of memory.
fn each_here(
    alloc: Global,
    machine: &Machine,
    missing: &[Missing],
    question: &Question,
) -> Result<Vec<Told>, AllocError>
    ensures { IfOk result (λ told. AreAllTold (IsEnoughHere question.now machine.now) missing.now told.items) }
{
    let mut told = Vec::with_capacity(alloc, missing.len())?;
    for (place, write) in missing.iter().enumerate() {
        let enough = is_first_enough_here(alloc, machine, missing, place, write, question)?;
        told.push(Told {
            write: *write,
            enough,
        })?;
    }
    Ok(told)
}

/// Missing writes of what a crash after steps of a program left. The only error is out of memory.
fn all_behind<G: Gate>(
    alloc: Global,
    object: &Object,
    steps: &[Step],
    missing: &[Missing],
    question: &Question,
    limit: u64,
    gate: &G,
) -> Result<Vec<Told>, AllocError>
    ensures { IfOk result (λ told. AreAllTold (IsEnoughBehind question.now limit (run_of steps.now (opening object.now)).state) missing.now told.items) }
{
    match machine_after(alloc, object, steps)? {
        Some(machine) if missing.len() <= MOST_TRIED => {
            each_behind(alloc, object, &machine, missing, question, limit, gate)
        }
        Some(_) | None => none_behind(alloc, missing),
    }
}

/// Missing writes of an image that a crash of a machine leaves, where what the image has is first persisted. The only error is out of
/// memory.
fn each_from_image(
    alloc: Global,
    machine: &Machine,
    image: &Image,
    missing: &[Missing],
    question: &Question,
) -> Result<Vec<Told>, AllocError>
    ensures { IfOk result (λ told. AreAllTold (IsEnoughInImage question.now machine.now image.now) missing.now told.items) }
{
    match with_image(alloc, machine, image)? {
        Some(there) => each_here(alloc, &there, missing, question),
        None => none_in_image(alloc, missing),
    }
}

/// Missing writes of an image that a crash after steps of a program leaves. The only error is out of memory.
fn all_in_image(
    alloc: Global,
    object: &Object,
    steps: &[Step],
    image: &Image,
    missing: &[Missing],
    question: &Question,
) -> Result<Vec<Told>, AllocError>
    ensures { IfOk result (λ told. AreAllTold (IsEnoughInImage question.now (run_of steps.now (opening object.now)).state image.now) missing.now told.items) }
{
    match machine_after(alloc, object, steps)? {
        Some(machine) if missing.len() <= MOST_TRIED => {
            each_from_image(alloc, &machine, image, missing, question)
        }
        Some(_) | None => none_in_image(alloc, missing),
    }
}

/// The writes that are missing in what a crash after these steps of a program left, each with whether it is told that it alone is enough:
/// had it persisted too, a crash would lead to where all runs keep what is asked, of which at most so many states are told apart. None
/// where [`missing_writes`] is. The gate is told of each exploration.
///
/// # Errors
///
/// Out of memory.
pub fn told_behind<G: Gate>(
    alloc: Global,
    object: &Object,
    steps: &[Step],
    image: &Image,
    question: &Question,
    limit: u64,
    gate: &G,
) -> Result<Option<Vec<Told>>, AllocError>
    ensures { IfOk result (λ told. AreTold (IsEnoughBehind question.now limit (run_of steps.now (opening object.now)).state)
        (missing_after object.now steps.now image.now) (told_of told)) }
{
    match missing_writes(alloc, object, steps, image)? {
        Some(missing) => {
            let told = all_behind(alloc, object, steps, &missing, question, limit, gate)?;
            Ok(Some(told))
        }
        None => Ok(None),
    }
}

/// The writes that are missing in an image that a crash after these steps of a program leaves, each with whether it is told that it alone
/// is enough: had it persisted too, what the crash leaves would make the condition true that is asked of all images. None where
/// [`missing_writes`] is.
///
/// # Errors
///
/// Out of memory.
pub fn told_in_image(
    alloc: Global,
    object: &Object,
    steps: &[Step],
    image: &Image,
    question: &Question,
) -> Result<Option<Vec<Told>>, AllocError>
    ensures { IfOk result (λ told. AreTold (IsEnoughInImage question.now (run_of steps.now (opening object.now)).state image.now)
        (missing_after object.now steps.now image.now) (told_of told)) }
{
    match missing_writes(alloc, object, steps, image)? {
        Some(missing) => {
            let told = all_in_image(alloc, object, steps, image, &missing, question)?;
            Ok(Some(told))
        }
        None => Ok(None),
    }
}
