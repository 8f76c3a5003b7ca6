//! Steps that are made of themselves: the first enabled step, again and again, and the next instruction of a processor.
ghost use Rattle.std.specs.Prelude.{◌≡◌, ◌∷◌, [], IfOk, List, slice_get};
ghost use Rattle.std.specs.Option.{option_map_or};
ghost use Rattle.machine.specs.State.{State};
ghost use Rattle.machine.specs.declared.step.Step.{Step};
ghost use Rattle.schedule.specs.Enabled.{enabled_of};
ghost use Rattle.conversations.specs.Eager.{first_and, has_processor, is_at, is_met, runs_of, steps_to, steps_until};

use machine::{Machine, Step};
use schedule::enabled;
use std::alloc::{AllocError, Global};

/// How many steps a line makes at most.
pub(crate) const MOST_STEPS: u32 = 1000;

/// The first of the steps that the machine accepts.
fn first_enabled(machine: &Machine) -> Option<Step>
    ensures { result ≡ slice_get (enabled_of machine.now) 0 }
{
    enabled(machine).first().copied()
}

/// Makes the first of the steps that the machine accepts, if there is one.
fn make_first(machine: &mut Machine) -> Option<Step>
    ensures { (others : State → List Step) → first_and others machine.old (slice_get (enabled_of machine.old) 0)
        ≡ option_map_or (λ step. step ∷ others machine.new) result [] }
{
    let step = first_enabled(machine)?;
    match machine.step(step) {
        Ok(_) => Some(step),
        Err(_) => None,
    }
}

/// Where steps that are made of themselves are to end.
#[derive(Clone, Copy)]
pub(crate) enum Aim {
    /// Nowhere before so many are made.
    Nowhere,
    /// Where the processor of this number is at this place of the program that it runs.
    At(u32, u32),
}

/// Whether a processor is at this place of the program that it runs.
fn is_at(machine: &Machine, processor: u32, place: u32) -> bool
    ensures { result ≡ is_at processor place machine.now }
{
    match machine.view().place(processor as usize) {
        Some(own) => own == place as usize,
        None => false,
    }
}

/// Whether the machine is where steps are to end.
fn is_met(machine: &Machine, aim: Aim) -> bool
    ensures { result ≡ is_met aim machine.now }
{
    match aim {
        Aim::Nowhere => false,
        Aim::At(processor, place) => is_at(machine, processor, place),
    }
}

/// Of the steps that are enabled the first, again and again, up to the first state after a step in which they are to end, and at most
/// so many times. The machine stays as it is.
pub(crate) fn steps_to(
    alloc: Global,
    machine: &Machine,
    aim: Aim,
    count: u32,
) -> Result<Vec<Step>, AllocError>
    ensures { IfOk result (λ steps. steps.items ≡ steps_to (is_met aim) count machine.now) }
{
    let Ok(mut own) = machine.copy(alloc) else {
        return Err(AllocError);
    };
    let mut steps = Vec::new(alloc);
    let mut left = count;
    while left > 0 {
        match make_first(&mut own) {
            Some(step) => steps.push(step)?,
            None => return Ok(steps),
        }
        if is_met(&own, aim) {
            return Ok(steps);
        }
        left -= 1;
    }
    Ok(steps)
}

/// Whether there is a processor of this number.
fn has_processor(machine: &Machine, processor: u32) -> bool
    ensures { result ≡ has_processor processor machine.now }
{
    (processor as usize) < machine.view().cpus()
}

/// The same steps up to where a processor is at a place, at most as many as a line may make. Where there is no such processor, its next
/// instruction, which is refused.
pub(crate) fn steps_until(
    alloc: Global,
    machine: &Machine,
    processor: u32,
    place: u32,
) -> Result<Vec<Step>, AllocError>
    ensures { IfOk result (λ steps. steps.items ≡ steps_until processor place machine.now) }
{
    if has_processor(machine, processor) {
        return steps_to(alloc, machine, Aim::At(processor, place), MOST_STEPS);
    }
    let mut steps = Vec::new(alloc);
    steps.push(Step::Exec(processor))?;
    Ok(steps)
}

/// A processor runs an instruction, as often as a line may have it.
#[tactic(auto, unfolding(crate::specs::Eager::runs_of))]
pub(crate) fn runs_of(alloc: Global, processor: u32) -> Result<Vec<Step>, AllocError>
    ensures { IfOk result (λ steps. steps.items ≡ runs_of processor) }
{
    vec![in alloc; Step::Exec(processor); MOST_STEPS as usize]
}
