//! The steps that are still to be made.
ghost use Rattle.std.specs.Prelude.{◌≡◌, ◌≤◌, [], OnErr, OnOk, drop, length};
ghost use Rattle.debug_scripts.specs.Ahead.{all_ahead, steps_ahead, with_gathered};

use debug_scripts::StepsAhead;
use machine::Step;
use std::alloc::{AllocError, Global};
use std::marker::Model;

/// The steps ahead, and how many of them the last `go` or `continue` left.
#[derive(Drop)]
pub(crate) struct Waiting {
    steps: StepsAhead,
    left: usize,
}

impl Model for Waiting {
    ghost use Rattle.std.specs.Prelude.{◌≡◌, length};
    ghost use Rattle.debug_scripts.specs.Ahead as kept;

    ghost Value = { kept.Ahead };

    ghost view = { λ w. w.steps };

    ghost invariant = { λ w. w.left ≡ length w.steps.rest };
}

impl Waiting {
    /// None.
    pub(crate) fn new(alloc: Global) -> Waiting
        ensures { result ≡ steps_ahead [] [] }
    {
        Waiting {
            steps: StepsAhead::new(alloc),
            left: 0,
        }
    }

    /// Gathers a step.
    pub(crate) fn gather(&mut self, step: Step) -> Result<(), AllocError>
        ensures gathered { OnOk result (self.new ≡ with_gathered self.old step) }
        ensures same { OnErr result (self.new ≡ self.old) }
    {
        self.steps.gather(step)
    }

    /// All of them, in the order in which they are made.
    pub(crate) fn all(&self) -> &[Step]
        ensures { result.now ≡ all_ahead self.now }
    {
        self.steps.all()
    }

    /// Those that were gathered since the last `go` or `continue`.
    pub(crate) fn gathered(&self) -> &[Step]
        ensures { result.now ≡ self.now.gathered }
    {
        let (_, gathered) = self.steps.all().split_at(self.left);
        gathered
    }

    /// The first `count` of them are no longer to be made, and all others were left.
    pub(crate) fn pass(&mut self, count: usize)
        requires { count ≤ length (all_ahead self.old) }
        ensures { self.new ≡ steps_ahead (drop count (all_ahead self.old)) [] }
    {
        self.steps.pass(count);
        self.left = self.steps.all().len();
    }

    /// The same of those that were gathered: the others are forgotten.
    #[tactic(auto, using(std::proofs::lemmas::List::drop_at))]
    pub(crate) fn pass_gathered(&mut self, count: usize)
        requires { count ≤ length self.old.gathered }
        ensures { self.new ≡ steps_ahead (drop count self.old.gathered) [] }
    {
        self.steps.pass(self.left);
        self.steps.pass(count);
        self.left = self.steps.all().len();
    }
}
