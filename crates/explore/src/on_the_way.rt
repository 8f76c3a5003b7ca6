//! The states to which a run leads on its way.
ghost use Rattle.std.specs.Prelude.{IfOk};
ghost use Rattle.explore.specs.Visits.{IsFailureIfMade};

use crate::node::Node;
use crate::path::Path;
use crate::question::Question;
use crate::verdict::Failure;
use crate::visit::{Sight, Stop, look};
use machine::Machine;
use std::alloc::{AllocError, Global};

/// The first state on the way of a run, before its last, that has an image which makes the condition false that is asked of images;
/// with the least such image. States with too many candidates are passed over.
pub(crate) fn fails_on_way(
    alloc: Global,
    start: &Machine,
    question: &Question,
    run: &Path,
) -> Result<Option<Failure>, AllocError>
    ensures { IfOk result (IsFailureIfMade question.now start.now run.now) }
{
    if question.of_all().is_none() {
        return Ok(None);
    }
    let mut node = Node::along(alloc, start, &Path::of(Vec::new(alloc)))?;
    for step in run.steps() {
        if let Sight::Ends(Stop::Fails(first)) = look(alloc, question, &node)? {
            return Ok(Some(first));
        }
        node.step(*step)?;
    }
    Ok(None)
}
