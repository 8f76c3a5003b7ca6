//! What `replay` finds: the steps of one schedule.
ghost use Rattle.std.specs.Prelude.{Ok};
ghost use Rattle.commands.specs.Works.{Makes, work};
ghost use Rattle.commands.specs.declared.fault.Stage.TheVariants as stages;
ghost use Rattle.jobs.specs.Reports.{replay_found, replay_from};

use crate::form::Answer;
use commands::{Fault, ReplayOptions, Stage, Status, machine_after, read_list};
use isa::Object;
use machine::{Machine, Step};
use schedule::plan_steps;
use std::alloc::Global;
use std::marker::Model;

/// The steps of a schedule.
#[derive(Drop)]
pub struct Scheduled {
    /// The steps.
    pub steps: Vec<Step>,
}

impl Model for Scheduled {
    ghost use Rattle.std.specs.Prelude.{List};
    ghost use Rattle.machine.specs.declared.step.Step as declared;

    ghost Value = { List declared.Step };

    ghost view = { λ s. s.steps.items };
}

/// The steps of the schedule from the state of a machine.
#[tactic(auto, unfolding(commands::specs::Works::Makes))]
fn replay_from(
    alloc: Global,
    options: &ReplayOptions,
    machine: &Machine,
) -> Result<Answer<Scheduled>, Fault>
    ensures { Makes (work stages.Machine (Ok (replay_from options.now machine.now))) result }
{
    let number = u64::from(options.number);
    match plan_steps(alloc, machine, &options.plan, number) {
        Ok(steps) => Ok(Answer {
            found: Scheduled { steps },
            status: Status::Done,
        }),
        Err(_) => Err(Stage::Machine.missing()),
    }
}

/// What `replay` finds. Out of memory for the schedule is reported as that of the machine.
///
/// # Errors
///
/// A fault of the steps; a step that is refused; out of memory.
#[tactic(auto, using(commands::proofs::WorksInTurn::turns))]
pub fn find_schedule(
    alloc: Global,
    options: &ReplayOptions,
    object: &Object,
    steps: &[u8],
) -> Result<Answer<Scheduled>, Fault>
    ensures { Makes (replay_found options.now object.now steps.now) result }
{
    let steps = read_list(alloc, steps)?;
    let machine = machine_after(alloc, object, &steps)?;
    let found = replay_from(alloc, options, &machine);
    drop(machine);
    found
}
