//! Whether a list of steps keeps the order of the table, and which pair of operations it breaks first.
ghost use Rattle.std.specs.Prelude.{◌≡◌, IfOk};
ghost use Rattle.outcomes.specs.Outcomes.{tested};
ghost use Rattle.machine.specs.Effects.{IsAnswer};
ghost use Rattle.machine.specs.LooseSteps.{exec_unwaiting, drain_unheld_at, loose_step_of};
ghost use Rattle.machine.specs.Noted.{delayed_at};
ghost use Rattle.machine.specs.ProgramRuns.{end_of, loose_trace};
ghost use Rattle.machine.specs.TraceLaws.{IsRefusedWhereFound, pair_by};

use crate::delayed::{Delayed, delayed_at, none_delayed, note};
use crate::machine::Machine;
use crate::refusal::Refusal;
use crate::step::Step;
use isa::Object;
use std::alloc::{AllocError, Global};

/// Two operations of one processor that the table keeps in order, of which the second took effect
/// while the first had not. Operations are named by the places in the list of steps, from 0, of the
/// steps that execute them.
#[derive(Clone, Copy, Debug, PartialEq, Eq)]
pub struct Pair {
    /// The processor.
    pub cpu: u32,
    /// The operation that was executed first.
    pub first: usize,
    /// The operation that took effect first.
    pub second: usize,
    /// The step by which it did.
    pub at: usize,
}

/// The pair that a step breaks which was refused for its order alone.
fn pair_by(delayed: &[Delayed], step: Step, refusal: Refusal, at: usize) -> Option<Pair>
    ensures { result ≡ pair_by (delayed_at delayed.now) step refusal at }
{
    match (step, refusal) {
        (Step::Exec(p), Refusal::BufferNotEmpty) => Some(Pair {
            cpu: p,
            first: delayed_at(delayed, p, 0)?,
            second: at,
            at,
        }),
        (Step::Drain(p, i), Refusal::Held(holder)) => Some(Pair {
            cpu: p,
            first: delayed_at(delayed, p, holder)?,
            second: delayed_at(delayed, p, i as usize)?,
            at,
        }),
        _ => None,
    }
}

impl Machine {
    /// Whether processor p's instruction would run if nothing was buffered, or the refusal.
    fn check_unwaiting(&self, p: u32) -> Result<(), Refusal>
        ensures { result ≡ tested (exec_unwaiting self.now p) }
    {
        let cpus = self.cpus();
        if p as usize >= cpus.len() {
            return Err(Refusal::NoCpu);
        }
        cpus[p as usize].check_unwaiting(self.pending())
    }

    /// Whether the entry at place i of processor p's store buffer would leave if no other held it, or
    /// the refusal.
    fn check_unheld(&self, p: u32, i: u32) -> Result<(), Refusal>
        ensures { result ≡ tested (drain_unheld_at self.now p i) }
    {
        let cpus = self.cpus();
        if p as usize >= cpus.len() {
            return Err(Refusal::NoCpu);
        }
        cpus[p as usize].check_unheld(i as usize, self.pending())
    }

    /// Whether a step would be accepted if its order was not asked, or its refusal.
    fn test_unordered(&self, step: Step) -> Result<(), Refusal>
        ensures { result ≡ tested (loose_step_of self.now step) }
    {
        match (self.test(step), step) {
            (Err(Refusal::BufferNotEmpty), Step::Exec(p)) => self.check_unwaiting(p),
            (Err(Refusal::Held(_)), Step::Drain(p, i)) => self.check_unheld(p, i),
            (tested, _) => tested,
        }
    }

    /// The first pair of operations that a run of these steps breaks: two of one processor that the
    /// table keeps in order, of which the second took effect while the first had not. Of the pairs
    /// that one step breaks it is that with the oldest first operation. The run goes on where
    /// [`Machine::run`] stops for the order alone: an `mfence` or a locked operation does not wait for
    /// the store buffer to be empty, and an entry leaves although an earlier one holds it. Every other
    /// refusal ends it. Where a pair is told, [`Machine::run`] refuses the step that breaks it, for its order:
    /// by [`Refusal::BufferNotEmpty`] or [`Refusal::Held`]. The only error is out of memory.
    pub fn trace_law(
        alloc: Global,
        object: &Object,
        steps: &[Step],
    ) -> Result<Option<Pair>, AllocError>
        ensures answer { IfOk result (λ found. IsAnswer (loose_trace object.now steps.now) found) }
        ensures order { IfOk result (IsRefusedWhereFound (end_of object.now steps.now)) }
    {
        let mut machine = Machine::load(alloc, object)?;
        let mut delayed = none_delayed(alloc, machine.cpus())?;
        for (at, step) in steps.iter().enumerate() {
            match machine.step(*step) {
                Ok(seen) => note(&mut delayed, at, &seen),
                Err(refusal) => {
                    return match machine.test_unordered(*step) {
                        Ok(()) => Ok(pair_by(&delayed, *step, refusal, at)),
                        Err(_) => Ok(None),
                    };
                }
            }
        }
        Ok(None)
    }
}
