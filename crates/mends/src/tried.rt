//! What comes of one choice.
ghost use Rattle.std.specs.Prelude.{◌≡◌, IfOk};
ghost use Rattle.mends.specs.Mends.{IsChoice};
ghost use Rattle.mends.specs.Searches.{IsTask, IsTried};

use crate::task::{Task, chosen, mended};
use explore::{ExploreFault, Failure, Findings, Verdict};
use image_reasons::Repair;
use std::alloc::{AllocError, Global};
use verdicts::laws::failures_break;
use verdicts::verdict_on;
use workers::Gate;

/// What comes of one choice.
#[derive(Drop)]
pub enum Tried {
    /// There is no such program.
    NoProgram,
    /// This run breaks what is asked.
    Broken(Failure),
    /// What is asked holds with this set.
    Holds(Vec<Repair>, Findings),
    /// It is not told of this set.
    Untold(Vec<Repair>, ExploreFault),
}

/// What comes of a choice: all runs of the program with it are explored. The only error is out of memory.
pub(crate) fn try_choice<G: Gate>(
    alloc: Global,
    task: &Task<'_>,
    choice: &[bool],
    limit: u64,
    gate: &G,
) -> Result<Tried, AllocError>
    requires task { IsTask task.now }
    requires choice { IsChoice task.now.object.now choice.now }
    ensures { IfOk result (IsTried task.now.question.now limit task.now.object.now choice.now) }
{
    // For the proof.
    failures_break();
    let Some(changed) = mended(alloc, task, choice)? else {
        return Ok(Tried::NoProgram);
    };
    gate.begun(limit);
    match verdict_on(alloc, &changed, task.question, limit, gate)? {
        Ok(Verdict::Holds(found)) => Ok(Tried::Holds(chosen(alloc, task, choice)?, found)),
        Ok(Verdict::Fails(failure)) => Ok(Tried::Broken(failure)),
        Err(fault) => Ok(Tried::Untold(chosen(alloc, task, choice)?, fault)),
    }
}
