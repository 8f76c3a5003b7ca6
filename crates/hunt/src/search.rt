//! What is looked for.
ghost use Rattle.std.specs.Prelude.{◌≡◌, IfOk};
ghost use Rattle.conditions.specs.Truth.{reads_registers};

use images::Cond;
use machine::Machine;
use schedule::{Plan, Range};
use std::alloc::{AllocError, Global};

/// What is searched: the schedules of a plan whose numbers are in a range, from the state of a machine, for one that breaks
/// a condition.
#[derive(Drop)]
pub struct Search {
    /// What the schedules start from.
    pub machine: Machine,
    /// What they have in common.
    pub plan: Plan,
    /// What is to hold.
    pub cond: Cond,
    /// Their numbers.
    pub range: Range,
}

impl Search {
    /// A search for the same, with its own machine and condition. The only error is out of memory.
    pub fn copy(&self, alloc: Global) -> Result<Search, AllocError>
        ensures { IfOk result (λ copy. copy ≡ self.now) }
    {
        let cond = self.cond.copy(alloc)?;
        let Ok(machine) = self.machine.copy(alloc) else {
            return Err(AllocError);
        };
        Ok(Search {
            machine,
            plan: self.plan,
            cond,
            range: self.range,
        })
    }
}

/// Of which states of a schedule a condition is asked.
#[derive(Clone, Copy, Debug, PartialEq, Eq)]
pub enum Asked {
    /// Of its last state.
    Last,
    /// Of its last state, where that is an end: after a crash, or before the first one.
    Ends(bool),
    /// Of each, from the one from which it runs to its end, and there of each image that a crash may leave.
    Crashes,
}

/// What workers look for: a schedule of a search that breaks the condition where it is asked. The claims of a board are
/// counted from 0, and the schedules from the first of the range on: what is claimed as k is the schedule whose number is
/// first + k.
#[derive(Drop)]
pub struct Target {
    /// The schedules and the condition.
    pub search: Search,
    /// Where the condition is asked.
    pub asked: Asked,
    /// Whether the condition reads registers, which is asked once a search.
    pub cond_reads_registers: bool,
    ghost law: { cond_reads_registers ≡ reads_registers search.cond },
}
