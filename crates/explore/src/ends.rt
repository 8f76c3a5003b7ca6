//! Ends: whether a state's processors have ended, and what they come to.
ghost use Rattle.std.specs.Prelude.{◌≡◌, ◌++◌, ◌+◌, ◌<◌, true, IfOk, OnOk, map, slice_get, Option, option_copied};
ghost use Rattle.std.specs.Option.{option_map_or};
ghost use Rattle.machine.specs.Programs.{AreSiblings};
ghost use Rattle.images.specs.Images.{image_at};
ghost use Rattle.explore.specs.Ends.{has_ended, is_met, runs_as};
ghost use Rattle.explore.specs.Explored.{have_ended};
ghost use Rattle.explore.specs.Falls.{step_for};
ghost use Rattle.explore.specs.Found.{led_to};
ghost use Rattle.explore.specs.Outcomes.{cpus_outcome, outcome_at, outcome_of};
ghost use Rattle.explore.specs.Visits.{ask_of, SeesEnd, SeesEnds};

use crate::gathered::Gathered;
use crate::key::{push_image, registers, trap};
use crate::node::Node;
use crate::numbers::{NumberSet, Numbers};
use crate::question::Question;
use crate::verdict::{Asked, Failure};
use crate::visit::Stop;
use images::{Cond, Image, holds};
use machine::{Machine, Step, View};
use persist_buffer::PendingEntry;
use std::alloc::{AllocError, Global};

/// Whether processor p, if it is there, has nothing left to do.
fn has_ended(view: &View<'_>, p: usize) -> bool
    ensures { result ≡ option_map_or has_ended (slice_get view.now.processors p) true }
{
    match (view.halted(p), view.buffer(p)) {
        (Some(halted), Some(buffer)) => halted && buffer.is_empty(),
        (None, _) | (_, None) => true,
    }
}

/// Whether processor p, if it is there, runs its recovery program, or its main program.
fn runs_as(view: &View<'_>, recovered: bool, p: usize) -> bool
    ensures { result ≡ option_map_or (runs_as recovered) (slice_get view.now.processors p) true }
{
    match view.recovering(p) {
        Some(recovering) => if recovered { recovering } else { !recovering },
        None => true,
    }
}

/// Whether all processors have nothing left to do, and run their recovery programs (`recovered`), or their main programs.
pub fn have_ended(view: &View<'_>, recovered: bool) -> bool
    ensures { result ≡ have_ended recovered view.now }
{
    for p in 0..view.cpus() {
        if !has_ended(view, p) {
            return false;
        }
        if !runs_as(view, recovered, p) {
            return false;
        }
    }
    true
}

/// The step by which an entry leaves the pending list.
fn step_for(entry: &PendingEntry) -> Step
    ensures { result ≡ step_for entry.now }
{
    match entry {
        PendingEntry::Write(word, _) => Step::Persist(word.line().number() as u32),
        PendingEntry::Marker(_) => Step::Settle,
    }
}

/// The steps by which all that is pending is persisted.
fn settle_steps(alloc: Global, view: &View<'_>) -> Result<Vec<Step>, AllocError>
    ensures { IfOk result (λ steps. steps.items ≡ map step_for view.now.memory.pending) }
{
    let Ok(pending) = view.pending_list(alloc) else {
        return Err(AllocError);
    };
    let mut steps = Vec::new(alloc);
    for entry in &pending {
        steps.push(step_for(entry))?;
    }
    Ok(steps)
}

/// Appends what processor p, if there is one, has come to.
fn push_processor(values: &mut Vec<u64>, view: &View<'_>, p: usize) -> Result<(), AllocError>
    ensures { OnOk result (values.new.items ≡ values.old.items ++ outcome_at view.now p) }
{
    let Some(registers) = registers(view, p) else {
        return Ok(());
    };
    values.extend_from_slice(&trap(view.trap(p)))?;
    values.extend_from_slice(&registers)
}

/// Appends what the processors have come to.
fn push_processors(values: &mut Vec<u64>, view: &View<'_>) -> Result<(), AllocError>
    ensures { OnOk result (values.new.items ≡ values.old.items ++ cpus_outcome view.now) }
{
    for p in 0..view.cpus() {
        push_processor(values, view, p)?;
    }
    Ok(())
}

/// What a state has come to.
fn outcome_of(alloc: Global, view: &View<'_>) -> Result<Numbers, AllocError>
    ensures { IfOk result (λ outcome. outcome ≡ outcome_of view.now) }
{
    let mut values = Vec::new(alloc);
    push_processors(&mut values, view)?;
    push_image(&mut values, view.pending())?;
    Ok(Numbers::new(values))
}

/// The persisted values of all words.
fn words_of(alloc: Global, view: &View<'_>) -> Result<Image, AllocError>
    ensures { IfOk result (λ image. image ≡ image_at view.now.shape view.now.memory.persisted) }
{
    let mut values = Vec::new(alloc);
    push_image(&mut values, view.pending())?;
    Ok(Image::new(values))
}

/// Which condition is asked of such ends.
fn asked_of(recovered: bool) -> Asked
    ensures { result ≡ ask_of recovered }
{
    if recovered {
        Asked::Recovered
    } else {
        Asked::Ends
    }
}

/// Whether a condition, if there is one, is true of a state.
fn is_met(cond: Option<&Cond>, view: &View<'_>) -> bool
    ensures { result ≡ is_met (option_copied cond.entry) view.now }
{
    match cond {
        Some(cond) => holds(cond, view),
        None => true,
    }
}

/// Brings a machine to the end of a state.
fn settle(here: &Machine, spare: &mut Machine, steps: &[Step])
    requires { AreSiblings spare.old here.now }
    ensures end { spare.new ≡ led_to here.now steps.now }
    ensures siblings { AreSiblings spare.new here.now }
{
    spare.restore(here);
    spare.run(steps);
}

/// Looks at the end of a state, if its processors have ended, after a crash or before the first one: its outcome is noted, and
/// the condition that is asked of such ends is tested.
fn look_at_end(
    alloc: Global,
    question: &Question,
    recovered: bool,
    node: &Node,
    spare: &mut Machine,
    outcomes: &mut NumberSet,
) -> Result<Option<Stop>, AllocError>
    requires { AreSiblings spare.old node.now.state }
    ensures seen { IfOk result (SeesEnd question.now recovered node.now outcomes.old outcomes.new) }
    ensures siblings { OnOk result (AreSiblings spare.new node.now.state) }
{
    if !have_ended(&node.state.view(), recovered) {
        return Ok(None);
    }
    let steps = settle_steps(alloc, &node.state.view())?;
    settle(&node.state, spare, &steps);
    outcomes.add(outcome_of(alloc, &spare.view())?)?;
    let cond = question.asked_at(recovered);
    if is_met(cond, &spare.view()) {
        return Ok(None);
    }
    Ok(Some(Stop::Fails(Failure {
        asked: asked_of(recovered),
        values: words_of(alloc, &spare.view())?,
        run: node.path.then(alloc, &steps)?,
    })))
}

/// Looks at the end of a state, if its processors have ended.
pub(crate) fn look_at_ends(
    alloc: Global,
    question: &Question,
    node: &Node,
    spare: &mut Machine,
    gathered: &mut Gathered,
) -> Result<Option<Stop>, AllocError>
    requires { AreSiblings spare.old node.now.state }
    ensures seen { IfOk result (SeesEnds question.now node.now gathered.old gathered.new) }
    ensures siblings { OnOk result (AreSiblings spare.new node.now.state) }
{
    let ends = &mut gathered.ends;
    if let Some(stop) = look_at_end(alloc, question, false, node, spare, ends)? {
        return Ok(Some(stop));
    }
    let recovered = &mut gathered.recovered;
    let stop = look_at_end(alloc, question, true, node, spare, recovered)?;
    Ok(stop)
}
