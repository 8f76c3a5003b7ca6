//! What a hunt found.
ghost use Rattle.std.specs.Prelude.{◌≡◌, IfOk};
ghost use Rattle.thread_jobs.specs.Founds.{found_crash, found_end, steps_found, steps_to};

use crate::start::HuntStart;
use hunt::{Breach, Loss, Moment, Search};
use machine::Step;
use schedule::{Plan, first_steps};
use std::alloc::{AllocError, Global};

/// A schedule that was found, as the report tells it: how many of its turns are shown at most, and what breaks the condition
/// after them if crashes are asked about. (`hunt` has a `Found` of its own.)
#[derive(Drop)]
pub struct Found {
    /// The schedule, and its turns.
    pub at: Moment,
    /// What breaks the condition there. None where it does not hold at the end of the schedule.
    pub breach: Option<Breach>,
}

impl Found {
    /// A schedule of a plan that ends where the condition does not hold. Its turn is the plan's length, also where it ended
    /// sooner: all its steps are shown.
    pub(crate) fn end(plan: &Plan, number: u64) -> Found
        ensures { result ≡ found_end plan.now number }
    {
        Found {
            at: Moment {
                number,
                turn: plan.length,
            },
            breach: None,
        }
    }

    /// A schedule and its least turn after which a crash may leave what breaks the condition.
    pub(crate) fn crash(loss: Loss) -> Found
        ensures { result ≡ found_crash loss }
    {
        Found {
            at: loss.at,
            breach: Some(loss.breach),
        }
    }
}

/// The steps of a schedule that was found from a start, up to the turn.
///
/// # Errors
///
/// Out of memory.
pub fn steps_found(alloc: Global, start: &HuntStart, at: Moment) -> Result<Vec<Step>, AllocError>
    ensures { IfOk result (λ steps. steps.items ≡ steps_found start.now at) }
{
    let Search { machine, plan, .. } = &start.search;
    first_steps(alloc, machine, plan, at.number, at.turn)
}

/// The steps that lead to the turn: those that were given, and then those of the schedule.
///
/// # Errors
///
/// Out of memory.
pub fn steps_to(alloc: Global, start: &HuntStart, at: Moment) -> Result<Vec<Step>, AllocError>
    ensures { IfOk result (λ steps. steps.items ≡ steps_to start.now at) }
{
    let found = steps_found(alloc, start, at)?;
    let mut steps = Vec::from_slice(alloc, &start.steps)?;
    steps.extend_from_slice(&found)?;
    Ok(steps)
}
