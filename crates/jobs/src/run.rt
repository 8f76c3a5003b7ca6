//! What `run` finds: how a run ended.
ghost use Rattle.std.specs.Prelude.{◌≡◌, IfOk, Ok, length, map};
ghost use Rattle.machine.specs.Objects.{opening};
ghost use Rattle.machine.specs.Steps.{run_of};
ghost use Rattle.jobs.specs.Forms.{answer_of};
ghost use Rattle.commands.specs.Works.{Makes, work};
ghost use Rattle.commands.specs.declared.fault.Stage.TheVariants as stages;
ghost use Rattle.jobs.specs.Reports.{end_status, run_found, status_of};

use crate::form::Answer;
use commands::{Fault, Status, load, read_list};
use isa::Object;
use machine::{Machine, Refusal, Step};
use std::alloc::Global;
use std::marker::Model;

/// How a run ended.
#[derive(Drop)]
pub struct Ran {
    /// The machine as it was left.
    pub machine: Machine,
    /// How many steps were accepted.
    pub accepted: usize,
    /// The refusal, if a step was refused.
    pub refusal: Option<Refusal>,
}

impl Model for Ran {
    ghost use Rattle.machine.specs.Steps.{End};

    ghost Value = { End };

    ghost view = { λ r. record { accepted = r.accepted; refusal = r.refusal; state = r.machine } };
}

/// The status of a run.
pub fn status_of(refusal: Option<Refusal>) -> Status
    ensures { result ≡ status_of refusal }
{
    match refusal {
        Some(_) => Status::Refused,
        None => Status::Done,
    }
}

/// How a run of these steps ended.
#[tactic(auto, unfolding(commands::specs::Works::Makes))]
fn run_after(alloc: Global, object: &Object, steps: &[Step]) -> Result<Answer<Ran>, Fault>
    ensures found { Makes (work stages.Machine (Ok (answer_of end_status (run_of steps.now (opening object.now))))) result }
    ensures named { IfOk result (λ answer. answer.found.state.shape ≡ map length object.now.layout) }
{
    let mut machine = load(alloc, object)?;
    let (accepted, refusal) = machine.run(steps);
    Ok(Answer {
        found: Ran {
            machine,
            accepted,
            refusal,
        },
        status: status_of(refusal),
    })
}

/// What `run` finds.
///
/// # Errors
///
/// A fault of the steps; out of memory.
#[tactic(auto, using(commands::proofs::WorksInTurn::turns))]
pub fn find_run(alloc: Global, object: &Object, steps: &[u8]) -> Result<Answer<Ran>, Fault>
    ensures found { Makes (run_found object.now steps.now) result }
    // The words of the state are those that the program names.
    ensures named { IfOk result (λ answer. answer.found.state.shape ≡ map length object.now.layout) }
{
    let steps = read_list(alloc, steps)?;
    run_after(alloc, object, &steps)
}
