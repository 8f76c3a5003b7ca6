//! Counting outcomes, and the tally that comes of it.
ghost use Rattle.std.specs.Prelude.{◌≡◌, ◌+◌, ◌<◌, ◌≤◌, ◌↔◌, IfOk, IsTrue, OnOk, [], fold, length, option_map, slice_get};
ghost use Rattle.hunt.specs.Tallies.{counted, total_of};
ghost use Rattle.schedule.specs.Ranges.{max_schedules};

use crate::observed::Outcome;
use indexmap::IndexMap;
use std::alloc::{AllocError, AllocFailed, Global};
use std::marker::Model;

/// The different outcomes of schedules in the order of their first numbers, each with how often it comes.
#[derive(Drop)]
pub struct Tally {
    entries: Vec<(Outcome, u64)>,
}

impl Model for Tally {
    ghost use Rattle.std.specs.Prelude.{ℕ, List};
    ghost use Rattle.hunt.specs.Outcomes.{Observed};

    ghost Value = { List (Observed × ℕ) };

    ghost view = { λ t. t.entries.items };
}

impl Tally {
    /// How many different outcomes there are.
    pub fn len(&self) -> usize
        ensures { result ≡ length self.now }
    {
        self.entries.len()
    }

    /// Whether there is no outcome.
    pub fn is_empty(&self) -> bool
        ensures { IsTrue result ↔ (self.now ≡ []) }
    {
        self.entries.is_empty()
    }

    /// The outcome at a place and how often it comes.
    pub fn get(&self, place: usize) -> Option<(&Outcome, u64)>
        ensures { option_map (λ entry. (entry.0.now, entry.1)) result ≡ slice_get self.now place }
    {
        let (outcome, count) = self.entries.get(place)?;
        Some((outcome, *count))
    }
}

/// Outcomes while they are counted, in a map.
#[derive(Drop)]
pub(crate) struct OutcomeCounts {
    counts: IndexMap<Outcome, u64>,
}

impl Model for OutcomeCounts {
    ghost use Rattle.std.specs.Prelude.{ℕ, List};
    ghost use Rattle.hunt.specs.Outcomes.{Observed};

    ghost Value = { List (Observed × ℕ) };

    ghost view = { λ c. c.counts.entries };
}

impl OutcomeCounts {
    /// Nothing is counted yet.
    pub(crate) fn new(alloc: Global) -> OutcomeCounts
        ensures { result ≡ [] }
    {
        OutcomeCounts {
            counts: IndexMap::new(alloc),
        }
    }

    /// Counts an outcome.
    fn count(&mut self, outcome: Outcome) -> Result<(), AllocFailed<Outcome>>
        requires { total_of self.old < max_schedules }
        ensures { OnOk result (self.new ≡ counted self.old outcome) }
    {
        let count = self.counts.entry(outcome)?.or_insert(0);
        *count += 1;
        Ok(())
    }

    /// Counts outcomes, one after another.
    pub(crate) fn count_all(&mut self, outcomes: Vec<Outcome>) -> Result<(), AllocFailed<Outcome>>
        requires { total_of self.old + length outcomes.items ≤ max_schedules }
        ensures { OnOk result (self.new ≡ fold counted self.old outcomes.items) }
    {
        for outcome in outcomes {
            self.count(outcome)?;
        }
        Ok(())
    }

    /// What was counted, as a list in the same order. The only error is out of memory.
    pub(crate) fn into_tally(self, alloc: Global) -> Result<Tally, AllocError>
        ensures { IfOk result (λ tally. tally ≡ self) }
    {
        let mut entries = Vec::with_capacity(alloc, self.counts.len())?;
        for entry in self.counts {
            entries.push(entry)?;
        }
        Ok(Tally { entries })
    }
}
