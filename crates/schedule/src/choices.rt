//! The steps that a machine accepts.
ghost use Rattle.std.specs.Prelude.{◌≡◌, ◌+◌, ◌*◌, ◌≤◌, [], length, slice_get, take, Some};
ghost use Rattle.isa.specs.Loadables.{max_processors};
ghost use Rattle.schedule.specs.Choices.{drains_in};
ghost use Rattle.schedule.specs.Enabled.{choices_of, enabled_drains, enabled_of, max_enabled};
ghost use Rattle.schedule.specs.Masks.{mask_room, nth_or_rest};

use crate::masks::{count_in, nth_in};
use arrayvec::ArrayVec;
use isa::MAX_PROCESSORS;
use lines_layout::MAX_LINES;
use machine::{Machine, Mask, Step};
use std::marker::Model;
use store_buffer::BUFFER_ROOM;

/// No more steps than this, 2,129, can be enabled at once: each processor's Exec, each entry's Drain, each
/// line's Persist, and Settle.
pub const MAX_ENABLED: usize = MAX_PROCESSORS + MAX_PROCESSORS * BUFFER_ROOM + MAX_LINES + 1;

/// A list of steps that takes no memory.
pub type StepList = ArrayVec<Step, MAX_ENABLED>;

/// The steps that a machine accepts, crashes apart, as masks: so they are counted, and one of them is
/// taken, without a list of them. Lazy ones lack Persist and Settle.
#[derive(Drop)]
pub(crate) struct Choices {
    /// The processors whose Exec is accepted.
    execs: Mask,
    /// How many processors there are.
    processors: usize,
    /// Of each of them, the places whose Drain is accepted.
    drains: [Mask; MAX_PROCESSORS],
    /// The lines whose Persist is accepted.
    persists: Mask,
    /// Whether Settle is accepted.
    settles: bool,
}

impl Model for Choices {
    ghost use Rattle.std.specs.Prelude.{List, ◌≤◌, length, take};
    ghost use Rattle.isa.specs.Loadables.{max_processors};
    ghost use Rattle.lines_layout.specs.Lines.{max_lines};
    ghost use Rattle.machine.specs.declared.step.Step.{Step};
    ghost use Rattle.schedule.specs.Choices.{steps_in};
    ghost use Rattle.schedule.specs.Masks.{numbers_in};

    ghost Value = { List Step };

    ghost view = { λ c. steps_in c.execs (take c.processors c.drains) c.persists c.settles };

    ghost invariant = { λ c. (c.processors ≤ max_processors) × (length (numbers_in c.execs) ≤ max_processors) × (length (numbers_in c.persists) ≤ max_lines) };
}

/// Makes the first masks those of each processor's places whose Drain is accepted, and answers how many
/// processors there are.
fn update_drains(masks: &mut [Mask; MAX_PROCESSORS], machine: &Machine) -> usize
    ensures steps { drains_in 0 (take result masks.new) ≡ enabled_drains machine.now }
    ensures count { result ≡ length machine.now.processors }
    ensures few { result ≤ max_processors }
{
    let processors = machine.view().cpus();
    for p in 0..processors {
        masks[p] = machine.drainable(p);
    }
    processors
}

/// How many Drain steps the masks of processors have.
fn count_drains(masks: &[Mask]) -> usize
    requires { length masks.now ≤ max_processors }
    ensures value { result ≡ length (drains_in 0 masks.now) }
    ensures most { result ≤ max_processors * mask_room }
{
    let mut count = 0;
    for mask in masks {
        count += count_in(*mask);
    }
    count
}

/// Step n of the Drain steps that the masks of processors have, from 0. The error is by how much n
/// passes them.
fn nth_drain(masks: &[Mask], n: usize) -> Result<Step, usize>
    requires { length masks.now ≤ max_processors }
    ensures { result ≡ nth_or_rest (drains_in 0 masks.now) n }
{
    let mut rest = n;
    for (p, mask) in masks.iter().enumerate() {
        match nth_in(*mask, rest) {
            Ok(i) => return Ok(Step::Drain(p as u32, i)),
            Err(passed) => rest = passed,
        }
    }
    Err(rest)
}

impl Choices {
    /// None.
    pub fn new() -> Choices
        ensures { result ≡ [] }
    {
        Choices {
            execs: 0,
            processors: 0,
            drains: [0; MAX_PROCESSORS],
            persists: 0,
            settles: false,
        }
    }

    /// Makes them those of a machine, lazy or not.
    pub fn update(&mut self, machine: &Machine, lazy: bool)
        ensures { self.new ≡ choices_of lazy machine.now }
    {
        self.execs = Mask::from(machine.runnable());
        self.processors = update_drains(&mut self.drains, machine);
        if lazy {
            self.persists = 0;
            self.settles = false;
        } else {
            self.persists = Mask::from(machine.persistable());
            self.settles = machine.check(Step::Settle).is_none();
        }
    }

    /// How many there are.
    pub fn count(&self) -> usize
        ensures value { result ≡ length self.now }
        ensures most { result ≤ max_enabled }
    {
        let drains = count_drains(&self.drains[..self.processors]);
        count_in(self.execs) + drains + count_in(self.persists) + usize::from(self.settles)
    }

    /// Step n, from 0: Exec by processor, Drain by processor and then place, Persist by line, Settle.
    pub fn step(&self, n: usize) -> Option<Step>
        ensures { result ≡ slice_get self.now n }
    {
        let n = match nth_in(self.execs, n) {
            Ok(p) => return Some(Step::Exec(p)),
            Err(passed) => passed,
        };
        let n = match nth_drain(&self.drains[..self.processors], n) {
            Ok(step) => return Some(step),
            Err(passed) => passed,
        };
        let n = match nth_in(self.persists, n) {
            Ok(line) => return Some(Step::Persist(line)),
            Err(passed) => passed,
        };
        if n > 0 {
            return None;
        }
        self.settles.then_some(Step::Settle)
    }
}

/// The steps that the machine accepts, crashes apart: Exec by processor, Drain by processor and then
/// place, Persist by line, Settle.
pub fn enabled(machine: &Machine) -> StepList
    ensures { result.items ≡ enabled_of machine.now }
{
    let mut choices = Choices::new();
    choices.update(machine, false);
    let mut steps = StepList::new();
    for n in 0..choices.count() {
        if let Some(step) = choices.step(n) {
            steps.push(step);
        }
    }
    steps
}
