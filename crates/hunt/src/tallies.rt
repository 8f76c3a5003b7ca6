//! The tally of a plan's schedules.
ghost use Rattle.std.specs.Prelude.{IfOk};
ghost use Rattle.hunt.specs.Tallies.{IsTally};

use crate::ends::outcomes_from;
use crate::observed::Outcome;
use crate::outcome_counts::{OutcomeCounts, Tally};
use crate::runs::{Counting, all_of};
use machine::Machine;
use schedule::{Plan, Range};
use std::alloc::{AllocError, Global};
use std::thread::Threads;
use workers::Gate;

/// The schedules whose outcomes are counted, and the gate to which each is reported.
#[derive(Clone, Copy)]
struct Tallied<'a, G> {
    machine: &'a Machine,
    plan: &'a Plan,
    gate: &'a G,
}

impl<G: Gate> Counting<Vec<Outcome>, OutcomeCounts> for Tallied<'_, G> {
    ghost use Rattle.hunt.specs.Outcomes.{AreOutcomes};
    ghost use Rattle.hunt.specs.Tallies.{IsTally};

    ghost IsRun = { λ c. AreOutcomes c.plan.now c.machine.now };

    ghost IsAnswer = { λ c. IsTally c.plan.now c.machine.now };

    fn none(&self, alloc: Global) -> OutcomeCounts {
        OutcomeCounts::new(alloc)
    }

    fn run(&self, alloc: Global, range: Range) -> Result<Vec<Outcome>, AllocError> {
        outcomes_from(alloc, self.machine, self.plan, range, self.gate)
    }

    fn add(&self, counts: &mut OutcomeCounts, outcomes: Vec<Outcome>) -> Result<(), AllocError> {
        counts.count_all(outcomes)?;
        Ok(())
    }
}

/// The tally of the schedules of a plan whose numbers are in a range. It is the same for any number of threads, in whatever
/// order they work. Tallies of adjoining ranges are put together as `laws::tallies_join` says. The thread that runs a
/// schedule reports its number to the gate, before it runs and when it has ended. The only error is out of memory.
pub fn tally<R: Threads + Sync, G: Gate + Sync>(
    rt: &R,
    alloc: Global,
    machine: &Machine,
    plan: &Plan,
    range: Range,
    gate: &G,
) -> Result<Tally, AllocError>
    ensures tally { IfOk result (IsTally plan.now machine.now range.first range.n) }
{
    let tallied = Tallied {
        machine,
        plan,
        gate,
    };
    let counts = all_of(rt, alloc, &tallied, range)?;
    counts.into_tally(alloc)
}
