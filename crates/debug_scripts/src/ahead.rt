//! The steps of a script that are still to be made.
ghost use Rattle.std.specs.Prelude.{◌≡◌, ◌≤◌, [], OnErr, OnOk, drop, length};
ghost use Rattle.debugger.specs.Marks.{tried};
ghost use Rattle.debug_scripts.specs.Ahead.{all_ahead, left_ahead, steps_ahead, with_gathered};

use debugger::Halt;
use machine::Step;
use std::alloc::{AllocError, Global};
use std::marker::Model;

/// The steps that the last `go` or `continue` left, which are the rest, and those that were gathered since.
#[derive(Drop)]
pub struct StepsAhead {
    /// All steps that were ever gathered, in order.
    steps: Vec<Step>,
    /// Where the rest begins.
    rest_at: usize,
    /// Where the rest ends, and those begin that were gathered since.
    gathered_at: usize,
}

impl Model for StepsAhead {
    ghost use Rattle.std.specs.Prelude.{◌≤◌, drop, length, take};
    ghost use Rattle.debug_scripts.specs.Ahead as kept;

    ghost Value = { kept.Ahead };

    ghost view = { λ a. kept.steps_ahead (drop a.rest_at (take a.gathered_at a.steps.items)) (drop a.gathered_at a.steps.items) };

    ghost invariant = { λ a. (a.rest_at ≤ a.gathered_at) × (a.gathered_at ≤ length a.steps.items) };
}

impl StepsAhead {
    /// Without a step.
    pub fn new(alloc: Global) -> StepsAhead
        ensures { result ≡ steps_ahead [] [] }
    {
        StepsAhead {
            steps: Vec::new(alloc),
            rest_at: 0,
            gathered_at: 0,
        }
    }

    /// Gathers a step.
    pub fn gather(&mut self, step: Step) -> Result<(), AllocError>
        ensures gathered { OnOk result (self.new ≡ with_gathered self.old step) }
        ensures same { OnErr result (self.new ≡ self.old) }
    {
        self.steps.push(step)?;
        Ok(())
    }

    /// All of them, in the order in which they are made.
    pub fn all(&self) -> &[Step]
        ensures { result.now ≡ all_ahead self.now }
    {
        let (_, all) = self.steps.as_slice().split_at(self.rest_at);
        all
    }

    /// Forgets the rest.
    pub(crate) fn forget_rest(&mut self)
        ensures { self.new ≡ steps_ahead [] self.old.gathered }
    {
        self.rest_at = self.gathered_at;
    }

    /// The first `count` of them are no longer to be made, and all others are the rest.
    pub fn pass(&mut self, count: usize)
        requires { count ≤ length (all_ahead self.old) }
        ensures { self.new ≡ steps_ahead (drop count (all_ahead self.old)) [] }
    {
        self.rest_at += count;
        self.gathered_at = self.steps.len();
    }

    /// They were made up to where they halted. Those after the last that was made, or refused, are the rest.
    pub(crate) fn leave(&mut self, halt: Halt)
        requires { tried (all_ahead self.old) halt ≤ length (all_ahead self.old) }
        ensures { self.new ≡ left_ahead self.old halt }
    {
        let count = self.all().len();
        self.pass(match halt {
            Halt::Stop(_, made) | Halt::NoMemory(made) => made,
            Halt::Refused(made, _) => made + 1,
            Halt::End => count,
        });
    }
}
