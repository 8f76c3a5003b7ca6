//! What `law` finds.
ghost use Rattle.std.specs.Prelude.{◌≡◌, IsOk, Ok};
ghost use Rattle.machine.specs.TraceLaws.{law_of};
ghost use Rattle.commands.specs.Works.{Makes, work};
ghost use Rattle.commands.specs.declared.fault.Stage.TheVariants as stages;
ghost use Rattle.jobs.specs.Reports.{law_found, pair_status, IsOfLooseRunOn};

use crate::form::Answer;
use commands::{Fault, Stage, Status, read_list};
use isa::Object;
use machine::laws::{law_is_the_answer, order_has_one_answer};
use machine::{Machine, Pair, Step};
use std::alloc::Global;

/// The status for the pair that was found.
fn pair_status(found: Option<Pair>) -> Status
    ensures { result ≡ pair_status found }
{
    match found {
        Some(_) => Status::Unmet,
        None => Status::Done,
    }
}

/// The pair of operations that these steps break first, on the machine of a program.
#[tactic(auto, unfolding(commands::specs::Works::Makes))]
fn broken_pair(alloc: Global, object: &Object, steps: &[Step]) -> Result<Option<Pair>, Fault>
    ensures { Makes (work stages.Machine (Ok (law_of object.now steps.now))) result }
{
    law_is_the_answer();
    order_has_one_answer();
    match Machine::trace_law(alloc, object, steps) {
        Ok(found) => Ok(found),
        Err(_) => Err(Stage::Machine.missing()),
    }
}

/// What `law` finds. A refused step is none of its faults: the run goes on where a step was refused for
/// its order alone, and any other refusal ends it.
///
/// # Errors
///
/// A fault of the steps; out of memory.
#[tactic(auto, using(commands::proofs::WorksInTurn::turns))]
pub fn find_pair(
    alloc: Global,
    object: &Object,
    steps: &[u8],
) -> Result<Answer<Option<Pair>>, Fault>
    ensures found { Makes (law_found object.now steps.now) result }
    ensures exact { IsOk result → IsOfLooseRunOn object.now steps.now }
{
    law_is_the_answer();
    let steps = read_list(alloc, steps)?;
    let found = broken_pair(alloc, object, &steps)?;
    let status = pair_status(found);
    Ok(Answer { found, status })
}
