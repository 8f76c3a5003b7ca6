//! Crashing from a state, with each of its images.
ghost use Rattle.std.specs.Prelude.{◌≡◌, IfOk, OnOk, slice_index_or};
ghost use Rattle.persist_buffer.specs.declared.entry.PendingEntry.TheVariants.{Marker};
ghost use Rattle.explore.specs.Falls.{fall_at, step_for};
ghost use Rattle.explore.specs.Found.{HasNode, fallen_from, falls_from};
ghost use Rattle.explore.specs.Keys.{fallen_key};

use crate::found::Found;
use crate::key::{Key, make_fallen};
use crate::node::Node;
use images::{Image, closed_set};
use machine::{Step, View};
use persist_buffer::PendingEntry;
use std::alloc::{AllocError, Global};

/// The step by which the entry at a place leaves the pending list.
fn step_at(pending: &[PendingEntry], place: usize) -> Step
    ensures { result ≡ step_for (slice_index_or pending.now place (Marker 0)) }
{
    match pending.get(place) {
        Some(PendingEntry::Write(word, _)) => Step::Persist(word.line().number() as u32),
        Some(PendingEntry::Marker(_)) | None => Step::Settle,
    }
}

/// The steps by which the entries at some places leave the pending list, and a crash.
fn fall_steps(alloc: Global, view: &View<'_>, places: &[usize]) -> Result<Vec<Step>, AllocError>
    ensures { IfOk result (λ steps. steps.items ≡ fall_at view.now.memory.pending places.now) }
{
    let Ok(pending) = view.pending_list(alloc) else {
        return Err(AllocError);
    };
    let mut steps = Vec::new(alloc);
    for place in places {
        steps.push(step_at(&pending, *place))?;
    }
    steps.push(Step::Crash)?;
    Ok(steps)
}

/// Crashes a node so that it leaves an image, by a set of the fewest entries, and finds its path with these steps. Where the
/// state behind the crash, which its key tells, was found before, no set is looked for. Another key is room for that one.
fn fall(
    alloc: Global,
    node: &Node,
    image: &Image,
    key: &mut Key,
    found: &mut Found,
) -> Result<(), AllocError>
    requires there { HasNode found.old node.now }
    ensures fallen { OnOk result (found.new ≡ fallen_from node.now image.now found.old) }
    ensures there { OnOk result (HasNode found.new node.now) }
{
    let view = node.state.view();
    make_fallen(found.sets(), &view, image, key)?;
    if found.has(key) {
        return Ok(());
    }
    let Some(places) = closed_set(alloc, &view, image)? else {
        return Ok(());
    };
    let steps = fall_steps(alloc, &view, &places)?;
    found.add_behind(alloc, key.copy(alloc)?, node, &steps)
}

/// Crashes a node with each of some images.
pub(crate) fn fall_all(
    alloc: Global,
    node: &Node,
    images: &[Image],
    found: &mut Found,
) -> Result<(), AllocError>
    requires { HasNode found.old node.now }
    ensures { OnOk result (found.new ≡ falls_from node.now images.now found.old) }
{
    let mut key = Key::empty(alloc);
    for image in images {
        fall(alloc, node, image, &mut key, found)?;
    }
    Ok(())
}
