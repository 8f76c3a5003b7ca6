//! The steps that may come next in a state, one after another.
ghost use Rattle.std.specs.Prelude.{◌≡◌, ◌++◌, ◌<◌, ◌≤◌, [], map, IfOk, OnOk};
ghost use Rattle.std.specs.List.{range_with_len};
ghost use Rattle.std.specs.Option.{option_map_or};
ghost use Rattle.isa.specs.Loadables.{max_processors};
ghost use Rattle.machine.specs.declared.step.Step.TheVariants.{Drain};
ghost use Rattle.machine.specs.State.{processor_at};
ghost use Rattle.schedule.specs.Enabled.{drains, drains_of, execs, persists};
ghost use Rattle.store_buffer.specs.Buffers.{buffer_room};
ghost use Rattle.jobs.specs.NextSteps.{accepted_steps, named_steps, next_steps};

use machine::{Machine, Step, View};
use schedule::enabled;
use std::alloc::{AllocError, Global};

/// Appends an Exec of each processor.
fn push_execs(steps: &mut Vec<Step>, view: &View<'_>) -> Result<(), AllocError>
    ensures { OnOk result (steps.new.items ≡ steps.old.items ++ execs view.now) }
{
    for p in 0..view.cpus() {
        steps.push(Step::Exec(p as u32))?;
    }
    Ok(())
}

/// Appends a Drain of each of so many places of a processor's store buffer.
fn push_places(steps: &mut Vec<Step>, p: u32, places: usize) -> Result<(), AllocError>
    requires { places ≤ buffer_room }
    ensures { OnOk result (steps.new.items
        ≡ steps.old.items ++ map (Drain p) (range_with_len 0 places)) }
{
    for i in 0..places {
        steps.push(Step::Drain(p, i as u32))?;
    }
    Ok(())
}

/// Appends a Drain of each place of processor p's store buffer, if there is one.
fn push_drains_of(steps: &mut Vec<Step>, view: &View<'_>, p: usize) -> Result<(), AllocError>
    requires { p < max_processors }
    ensures { OnOk result (steps.new.items
        ≡ steps.old.items ++ option_map_or (drains_of p) (processor_at view.now p) []) }
{
    let Some(buffer) = view.buffer(p) else {
        return Ok(());
    };
    push_places(steps, p as u32, buffer.len())
}

/// The same of each processor.
fn push_drains(steps: &mut Vec<Step>, view: &View<'_>) -> Result<(), AllocError>
    ensures { OnOk result (steps.new.items ≡ steps.old.items ++ drains view.now) }
{
    for p in 0..view.cpus() {
        push_drains_of(steps, view, p)?;
    }
    Ok(())
}

/// Appends a Persist of each line.
fn push_persists(steps: &mut Vec<Step>, view: &View<'_>) -> Result<(), AllocError>
    ensures { OnOk result (steps.new.items ≡ steps.old.items ++ persists view.now) }
{
    for line in 0..view.shape().line_count() {
        steps.push(Step::Persist(line as u32))?;
    }
    Ok(())
}

/// The steps that name what is there: Exec by processor, Drain by processor and then place, Persist by line, Settle, Crash.
fn named_steps(alloc: Global, view: &View<'_>) -> Result<Vec<Step>, AllocError>
    ensures { IfOk result (λ steps. steps.items ≡ named_steps view.now) }
{
    let mut steps = Vec::new(alloc);
    push_execs(&mut steps, view)?;
    push_drains(&mut steps, view)?;
    push_persists(&mut steps, view)?;
    steps.push(Step::Settle)?;
    steps.push(Step::Crash)?;
    Ok(steps)
}

/// The steps that the machine accepts, in the same order.
fn accepted_steps(alloc: Global, machine: &Machine) -> Result<Vec<Step>, AllocError>
    ensures { IfOk result (λ steps. steps.items ≡ accepted_steps machine.now) }
{
    let mut steps = Vec::from_slice(alloc, &enabled(machine))?;
    if machine.check(Step::Crash).is_none() {
        steps.push(Step::Crash)?;
    }
    Ok(steps)
}

/// The steps that are reported of a state: those that the machine accepts, or with the refused ones all that name what is
/// there.
pub fn next_steps(alloc: Global, machine: &Machine, refused: bool) -> Result<Vec<Step>, AllocError>
    ensures { IfOk result (λ steps. steps.items ≡ next_steps refused machine.now) }
{
    if refused {
        named_steps(alloc, &machine.view())
    } else {
        accepted_steps(alloc, machine)
    }
}
