//! Numbered schedules: random runs that can be made again.
ghost use Rattle.std.specs.Prelude.{◌≡◌, IfNone, IfOk, IfSome, length};
ghost use Rattle.machine.specs.Programs.{AreSiblings};
ghost use Rattle.schedule.specs.Schedules.{chosen, cut_to, ended, first_steps, is_crash_turn, plan_steps, schedule_of, step_by};
ghost use Rattle.schedule.specs.Turns.{GoesOn, LeadsTo, all_turns, rest_of};

use crate::choices::Choices;
use machine::{Machine, Seen, Step};
use rand_core::utils::NextWord;
use rand_pcg::Pcg32;
use std::alloc::{AllocError, Global};
use std::marker::Model;
use std::ops::Range;
use std::snapshot::Snapshot;

/// What schedules have in common that differ by number alone. Schedule k of a plan draws its words from
/// `Pcg32::new(seed, k)`, one a turn.
#[derive(Clone, Copy, Debug, PartialEq, Eq)]
pub struct Plan {
    /// The seed of all its schedules.
    pub seed: u64,
    /// How many turns a schedule has at most.
    pub length: u32,
    /// The turn, from 0, whose step is a crash, if any is.
    pub crash_after: Option<u32>,
    /// Whether its schedules have no Persist and no Settle.
    pub lazy: bool,
}

impl Plan {
    /// The plan of the same schedules, of which each ends after so many turns if it has not ended before.
    pub fn cut_to(self, turns: u32) -> Plan
        ensures { result ≡ cut_to self turns }
    {
        Plan {
            length: turns.min(self.length),
            ..self
        }
    }
}

/// Whether this is the turn that crashes.
fn is_crash_turn(plan: &Plan, turn: u32) -> bool
    ensures { result ≡ is_crash_turn plan.now.crash_after turn }
{
    plan.crash_after == Some(turn)
}

/// The step that a word chooses, where there is one.
fn chosen(word: u32, choices: &Choices) -> Option<Step>
    ensures { result ≡ chosen word choices.now }
{
    let count = choices.count();
    if count == 0 {
        return None;
    }
    choices.step(word as usize % count)
}

/// The step of a turn, where there is one. What the turn before chose from gives way.
fn turn_step(
    choices: &mut Choices,
    machine: &Machine,
    plan: &Plan,
    turn: u32,
    word: u32,
) -> Option<Step>
    ensures { result ≡ step_by plan.now turn word machine.now }
{
    if is_crash_turn(plan, turn) {
        return Some(Step::Crash);
    }
    choices.update(machine, plan.lazy);
    chosen(word, choices)
}

/// The turns of a schedule that are still to come. Whoever asks for them one by one sees each state between them:
/// [`run_plan`] and [`plan_steps`] make all of them.
#[derive(Drop)]
pub struct Turns {
    /// The plan of the schedule.
    plan: Plan,
    /// Its number, for the proof alone.
    number: Snapshot<u64>,
    /// These turns.
    left: Range<u32>,
    /// The generator of their words.
    random: Pcg32,
    /// What the last turn chose from.
    choices: Choices,
}

impl Model for Turns {
    ghost use Rattle.std.specs.Prelude.{◌≡◌, ◌-◌};
    ghost use Rattle.rand_pcg.specs.Lcg.{advance};
    ghost use Rattle.rand_pcg.specs.Pcg.{multiplier_64};
    ghost use Rattle.schedule.specs.Schedules.{generator_of};
    ghost use Rattle.schedule.specs.Turns as turns;

    ghost Value = { turns.Turns };

    ghost view = { λ t. record { plan = t.plan; number = t.number.value; turn = t.left.start; left = t.left.end - t.left.start } };

    ghost invariant = { λ t. t.random ≡ advance 64 multiplier_64 t.left.start (generator_of t.plan t.number.value) };
}

impl Turns {
    /// All turns of schedule `number` of the plan.
    pub fn new(plan: &Plan, number: u64) -> Turns
        ensures { result ≡ all_turns plan.now number }
    {
        Turns {
            plan: *plan,
            number: Snapshot::of(&number),
            left: 0..plan.length,
            random: Pcg32::new(plan.seed, number),
            choices: Choices::new(),
        }
    }

    /// Makes the step of the next turn, if there is one that the machine accepts, and answers it with what it showed.
    /// Otherwise the schedule has ended, and no turn is left: from then on it answers None, and makes no step. It takes no
    /// memory.
    pub fn next(&mut self, machine: &mut Machine) -> Option<(Step, Seen)>
        ensures step { IfSome result (GoesOn self.old machine.old self.new machine.new) }
        ensures seen { IfSome result (LeadsTo machine.old machine.new) }
        ensures end { IfNone result (rest_of self.old machine.old ≡ ended machine.new) }
        ensures over { IfNone result (self.new.left ≡ 0) }
        ensures programs { AreSiblings machine.new machine.old }
    {
        let made = self.make(machine);
        if made.is_none() {
            self.left.end = self.left.start;
        }
        made
    }

    /// Makes the step of the next turn, if there is one that the machine accepts.
    fn make(&mut self, machine: &mut Machine) -> Option<(Step, Seen)>
        ensures step { IfSome result (GoesOn self.old machine.old self.new machine.new) }
        ensures seen { IfSome result (LeadsTo machine.old machine.new) }
        ensures end { IfNone result (rest_of self.old machine.old ≡ ended machine.new) }
        ensures programs { AreSiblings machine.new machine.old }
    {
        let turn = self.left.next()?;
        let word = self.random.next_word();
        let step = turn_step(&mut self.choices, machine, &self.plan, turn, word)?;
        let Ok(seen) = machine.step(step) else {
            return None;
        };
        Some((step, seen))
    }
}

/// Makes the steps of schedule `number` of the plan, and answers how many they were.
///
/// Turn t draws word t. Its step is a crash where `crash_after` is t, otherwise the enabled step whose
/// place is the word modulo their count; a lazy plan leaves Persist and Settle out of these. The schedule
/// ends after `length` turns, where there is no such step, and where a crash is refused. It takes no memory.
#[tactic(auto, using(crate::proofs::SchedulesEnd::schedule_fewer))]
pub fn run_plan(machine: &mut Machine, plan: &Plan, number: u64) -> u32
    ensures turns { result ≡ length (schedule_of plan.now number machine.old).steps }
    ensures state { machine.new ≡ (schedule_of plan.now number machine.old).state }
    ensures programs { AreSiblings machine.new machine.old }
{
    let mut turns = Turns::new(plan, number);
    let mut count = 0;
    while turns.next(machine).is_some() {
        count += 1;
    }
    count
}

/// The steps that [`run_plan`] makes, from the state of a machine, which stays as it is. Run on the machine
/// they are all accepted, and end where the schedule does: [`crate::laws::schedules_are_runs`].
///
/// # Errors
///
/// Memory ran out.
pub fn plan_steps(
    alloc: Global,
    machine: &Machine,
    plan: &Plan,
    number: u64,
) -> Result<Vec<Step>, AllocError>
    ensures steps { IfOk result (λ steps. steps.items ≡ plan_steps plan.now number machine.now) }
{
    let Ok(mut own) = machine.copy(alloc) else {
        return Err(AllocError);
    };
    let mut turns = Turns::new(plan, number);
    let mut steps = Vec::new(alloc);
    while let Some((step, _)) = turns.next(&mut own) {
        steps.push(step)?;
    }
    Ok(steps)
}

/// The steps that [`run_plan`] makes in the first turns of a schedule, at most so many. No further turn is made.
///
/// # Errors
///
/// Memory ran out.
pub fn first_steps(
    alloc: Global,
    machine: &Machine,
    plan: &Plan,
    number: u64,
    turns: u32,
) -> Result<Vec<Step>, AllocError>
    ensures steps { IfOk result (λ v. v.items ≡ first_steps turns plan.now number machine.now) }
{
    plan_steps(alloc, machine, &plan.cut_to(turns), number)
}
