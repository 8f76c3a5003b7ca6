//! A visit to a state.
ghost use Rattle.std.specs.Prelude.{◌≡◌, ◌↔◌, ◌+◌, ◌<◌, false, true, IfOk, IsTrue, OnOk, length, option_copied};
ghost use Rattle.pending_images.specs.Candidates.{candidates, most_candidates};
ghost use Rattle.machine.specs.Limits.{max_turns};
ghost use Rattle.explore.specs.declared.fault.ExploreFault.TheVariants.{NoRoom};
ghost use Rattle.explore.specs.declared.question.Question.{Question};
ghost use Rattle.explore.specs.declared.visit.Stop.TheVariants.{Untold};
ghost use Rattle.explore.specs.Found.{HasNode};
ghost use Rattle.explore.specs.Questions.{looks, most_turns_before};
ghost use Rattle.explore.specs.Visits.{broken_by, BreaksAmong, FallsIf, HasTurns, IsSight, IsSightOnce, IsSightOr, IsStop};

use crate::asked::least_breaking;
use crate::falls::fall_all;
use crate::fault::ExploreFault;
use crate::found::Found;
use crate::key::list_key;
use crate::looked::Looked;
use crate::node::Node;
use crate::path::Path;
use crate::question::Question;
use crate::verdict::{Asked, Failure};
use images::{Cond, Image, ImageFault, all_images, count, list};
use machine::{MAX_TURNS, Step, View};
use persist_buffer::PendingEntry;
use std::alloc::{AllocError, Global};

/// So few pending entries have few enough images to be listed: at most 2 ^ 16 candidates.
const FEW: usize = 16;

/// What ends an exploration before all is explored.
#[derive(Drop)]
pub(crate) enum Stop {
    /// A run makes a condition false.
    Fails(Failure),
    /// It is not told.
    Untold(ExploreFault),
}

/// What a look at the images of a state tells.
#[derive(Drop)]
pub(crate) enum Sight {
    /// The exploration ends here.
    Ends(Stop),
    /// It goes on: these are the images, where each is listed.
    Go(Vec<Image>),
}

/// Whether turns are left to persist all that is pending, and to crash. A path and a pending list that fit into memory are
/// short: so turns lack only where the start had made very many.
fn has_turns(view: &View<'_>, path: &[Step], pending: &[PendingEntry]) -> bool
    ensures left { IsTrue result ↔ (view.now.turns + length pending.now < max_turns) }
    ensures short { length path.now + length pending.now < most_turns_before }
{
    let turns = view.turns();
    turns < MAX_TURNS && (pending.len() as u64) < MAX_TURNS - turns
}

/// Whether half of all turns are left, and fewer entries are pending: so turns are left to persist them, and to crash.
fn has_many_turns(view: &View<'_>) -> bool
    ensures { IsTrue result → HasTurns view.now }
{
    view.turns() < MAX_TURNS / 2 && (view.pending().len() as u64) < MAX_TURNS / 2
}

/// The first image that makes a condition false, if there is one.
fn breaking<'i>(cond: Option<&Cond>, view: &View<'_>, images: &'i [Image]) -> Option<&'i Image>
    ensures { BreaksAmong (option_copied cond.entry) view.now images.now (option_copied result) }
{
    match cond {
        Some(cond) => all_images(cond, view, images),
        None => None,
    }
}

/// The exploration ends: this image makes the condition false.
fn broken(alloc: Global, image: Image, path: &Path) -> Result<Sight, AllocError>
    ensures { IfOk result (λ sight. sight ≡ broken_by image path.now) }
{
    Ok(Sight::Ends(Stop::Fails(Failure {
        asked: Asked::All,
        values: image,
        run: path.copy(alloc)?,
    })))
}

/// Looks at the images of a state of which all lines together have too many: over the lines that are asked, unless each image is
/// to be listed.
fn look_over_asked(
    alloc: Global,
    question: &Question,
    view: &View<'_>,
    path: &Path,
) -> Result<Sight, AllocError>
    requires looked { looks question.now ≡ true }
    requires turns { HasTurns view.now }
    requires many { most_candidates < candidates view.now.memory.pending }
    ensures { IfOk result (IsSight question.now view.now path.now) }
{
    let too_many = Sight::Ends(Stop::Untold(ExploreFault::TooMany));
    if question.lists() {
        return Ok(too_many);
    }
    let Some(cond) = question.of_all() else {
        return Ok(too_many);
    };
    match least_breaking(alloc, cond, view) {
        Ok(Some(image)) => broken(alloc, image, path),
        Ok(None) => Ok(Sight::Go(Vec::new(alloc))),
        Err(ImageFault::TooMany) => Ok(too_many),
        Err(ImageFault::NoMemory) => Err(AllocError),
    }
}

/// Whether turns lack to persist all that is pending in a state, and to crash: then the exploration ends.
fn lacks_turns(alloc: Global, node: &Node) -> Result<bool, AllocError>
    ensures some { IfOk result (λ lacks. lacks ≡ true → (question : Question) → IsStop question node.now.state node.now.path (Untold NoRoom)) }
    ensures none { IfOk result (λ lacks. lacks ≡ false → HasTurns node.now.state) }
{
    let view = node.state.view();
    if has_many_turns(&view) {
        return Ok(false);
    }
    let Ok(pending) = view.pending_list(alloc) else {
        return Err(AllocError);
    };
    Ok(!has_turns(&view, node.path.steps(), &pending))
}

/// Looks at the images of a state, where they are looked at. Where all lines together have few candidates, each image is listed.
pub(crate) fn look(alloc: Global, question: &Question, node: &Node) -> Result<Sight, AllocError>
    ensures { IfOk result (IsSight question.now node.now.state node.now.path) }
{
    if lacks_turns(alloc, node)? {
        return Ok(Sight::Ends(Stop::Untold(ExploreFault::NoRoom)));
    }
    let view = node.state.view();
    if !question.looks() {
        return Ok(Sight::Go(Vec::new(alloc)));
    }
    let Some(countable) = count(&view) else {
        return look_over_asked(alloc, question, &view, &node.path);
    };
    let images = list(alloc, &countable)?;
    if let Some(image) = breaking(question.of_all(), &view, &images) {
        return broken(alloc, image.copy(alloc)?, &node.path);
    }
    Ok(Sight::Go(images))
}

/// Looks at the images of a state, unless they are left to a later one.
pub(crate) fn look_unless(
    alloc: Global,
    question: &Question,
    node: &Node,
    left: bool,
) -> Result<Sight, AllocError>
    ensures { IfOk result (IsSightOr left question.now node.now.state node.now.path) }
{
    if !left {
        return look(alloc, question, node);
    }
    if lacks_turns(alloc, node)? {
        return Ok(Sight::Ends(Stop::Untold(ExploreFault::NoRoom)));
    }
    Ok(Sight::Go(Vec::new(alloc)))
}

/// Whether images of a memory that were looked at before need no second look: where there are few enough to be listed.
fn is_enough(known: bool, view: &View<'_>) -> bool
    ensures { result ≡ true → known ≡ true }
{
    known && (view.pending().len() <= FEW || count(view).is_some())
}

/// Looks at the images of a state, unless they are left to a later one, or may be looked at once and were, in a state of the same
/// memory.
pub(crate) fn look_once(
    alloc: Global,
    question: &Question,
    node: &Node,
    left: bool,
    once: bool,
    looked: &mut Looked,
) -> Result<Sight, AllocError>
    ensures { IfOk result (IsSightOnce left once question.now node.now.state node.now.path looked.old looked.new) }
{
    if left || !once || !question.looks() {
        return look_unless(alloc, question, node, left);
    }
    let view = node.state.view();
    let key = list_key(alloc, &view)?;
    let known = looked.has(&key);
    let again = is_enough(known, &view);
    let sight = look_unless(alloc, question, node, again)?;
    looked.add(alloc, &key, known)?;
    Ok(sight)
}

/// Crashes a node with each of some images, where runs crash.
pub(crate) fn fall_if(
    alloc: Global,
    crashes: bool,
    node: &Node,
    images: &[Image],
    found: &mut Found,
) -> Result<(), AllocError>
    requires { HasNode found.old node.now }
    ensures { OnOk result (FallsIf crashes node.now images.now found.old found.new) }
{
    if crashes {
        fall_all(alloc, node, images, found)?;
    }
    Ok(())
}
