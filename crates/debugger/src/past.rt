//! What a session has been through.
ghost use Rattle.std.specs.Prelude.{◌≡◌, ◌≤◌, [], length, IfSome, option_copied, MatchResult};
ghost use Rattle.debugger.specs.Pasts.{past, undone, IsPast};
ghost use Rattle.debugger.specs.Checkpoints.{AreCheckpoints, IsReachedBy, replayed_from, kept};
ghost use Rattle.debugger.specs.Turns.{HasAdvanced, HasMarked};

use crate::checkpoint::{Checkpoint, Checkpoints};
use machine::{Machine, Refusal, Seen, Step};
use outcomes::OrNoMemory;
use std::alloc::Global;
use std::marker::Model;

/// A machine, a copy of its opening state, and the steps that it accepted since. The run of these steps
/// from the opening state leads to the machine's state, always.
#[derive(Drop)]
pub struct Past {
    opening: Machine,
    history: Vec<Step>,
    machine: Machine,
    // The machine of a checkpoint that gave way. The next one is made in it.
    spare: Option<Machine>,
}

impl Model for Past {
    ghost use Rattle.debugger.specs.Pasts as pasts;
    ghost use Rattle.debugger.specs.Checkpoints.{IsSpare};

    ghost Value = { pasts.Past };

    ghost view = { λ p. pasts.past p.opening p.history.items p.machine };

    ghost invariant = { λ p. pasts.Leads p.opening p.history.items p.machine × IsSpare p.opening p.spare };
}

impl Past {
    /// The past of a machine that begins here. Without memory the machine is handed back.
    pub(crate) fn new(alloc: Global, machine: Machine) -> Result<Past, Machine>
        ensures { MatchResult result (λ p. p ≡ past machine [] machine) (λ m. m ≡ machine) }
    {
        match machine.copy(alloc) {
            Ok(opening) => Ok(Past {
                opening,
                history: Vec::new(alloc),
                machine,
                spare: None,
            }),
            Err(_) => Err(machine),
        }
    }

    /// Makes one step. Room in the history, and then a checkpoint where one is due, is made before it.
    pub(crate) fn step(
        &mut self,
        alloc: Global,
        checkpoints: &mut Checkpoints,
        step: Step,
    ) -> Result<Seen, OrNoMemory<Refusal>>
        requires { AreCheckpoints self.old checkpoints.old }
        ensures step { HasAdvanced self.old self.new step result }
        ensures checkpoints { HasMarked self.old checkpoints.old checkpoints.new result }
        ensures reached { AreCheckpoints self.new checkpoints.new }
    {
        if self.history.reserve(1).is_err() {
            return Err(OrNoMemory::NoMemory);
        }
        let length = self.history.len();
        if checkpoints
            .mark(alloc, length, &self.machine, &mut self.spare)
            .is_err()
        {
            return Err(OrNoMemory::NoMemory);
        }
        match self.machine.step(step) {
            Ok(seen) => {
                self.history.push_reserved(step);
                Ok(seen)
            }
            Err(refusal) => Err(OrNoMemory::Fault(refusal)),
        }
    }

    /// Drops the checkpoints beyond a length. The machine of one of them is spare then.
    pub(crate) fn keep_to(&mut self, checkpoints: &mut Checkpoints, aim: usize)
        requires { AreCheckpoints self.old checkpoints.old }
        ensures same { self.new ≡ self.old }
        ensures kept { checkpoints.new ≡ kept checkpoints.old aim }
    {
        let given = checkpoints.keep_to(aim);
        if given.is_some() {
            self.spare = given;
        }
    }

    /// Goes back before the last accepted steps, by a run of the others from a checkpoint, or else from the
    /// opening state: how many steps that run made. It takes no memory.
    pub(crate) fn back(&mut self, count: usize, checkpoint: Option<&Checkpoint>) -> usize
        requires within { count ≤ length self.old.history }
        requires checkpoint { IfSome (option_copied checkpoint) (IsReachedBy self.old count) }
        ensures undone { self.new ≡ undone self.old count }
        ensures replayed { result ≡ replayed_from self.old count (option_copied checkpoint.entry) }
    {
        let left = self.history.len() - count;
        let (replayed, _) = match checkpoint {
            Some(checkpoint) => {
                self.machine.restore(&checkpoint.machine);
                self.machine.run(&self.history[checkpoint.length..left])
            }
            None => {
                self.machine.restore(&self.opening);
                self.machine.run(&self.history[..left])
            }
        };
        self.history.truncate(left);
        replayed
    }

    /// How many steps were accepted.
    pub fn len(&self) -> usize
        ensures value { result ≡ length self.now.history }
        ensures past { IsPast self.now }
    {
        self.history.len()
    }

    /// The steps that were accepted.
    pub fn steps(&self) -> &[Step]
        ensures { result.now ≡ self.now.history }
    {
        &self.history
    }

    /// The machine as it is now.
    pub fn machine(&self) -> &Machine
        ensures { result.now ≡ self.now.state }
    {
        &self.machine
    }
}
