//! How many schedules of a plan come to an end, and how many of these break a condition there.
ghost use Rattle.std.specs.Prelude.{◌≡◌, ◌+◌, ◌≤◌, ◌&&◌, not, IfOk};
ghost use Rattle.machine.specs.Programs.{AreSiblings};
ghost use Rattle.schedule.specs.Ranges.{max_schedules};
ghost use Rattle.hunt.specs.Ends.{both_ends, breaks_end, comes_to_end, ends_in, one_end, AreEnds};

use crate::end_state::is_end;
use crate::last_state::run_to_last;
use crate::runs::{Counting, all_of};
use crate::search::Search;
use images::holds;
use machine::Machine;
use schedule::Range;
use std::alloc::{AllocError, Global};
use std::thread::Threads;
use workers::Gate;

/// How many schedules of some come to an end, how many of these break a condition there, and the first of them.
#[derive(Clone, Copy, Debug, PartialEq, Eq)]
pub struct EndCounts {
    /// How many come to an end.
    pub ended: u64,
    /// How many come to one at which the condition is false.
    pub broken: u64,
    /// The smallest number of these.
    pub first: Option<u64>,
}

/// None of the schedules comes to an end.
const NONE: EndCounts = EndCounts {
    ended: 0,
    broken: 0,
    first: None,
};

/// Those of numbers, and then those of the numbers after them.
fn both(counts: EndCounts, later: EndCounts) -> EndCounts
    requires ended { counts.ended + later.ended ≤ max_schedules }
    requires broken { counts.broken + later.broken ≤ max_schedules }
    ensures { result ≡ both_ends counts later }
{
    EndCounts {
        ended: counts.ended + later.ended,
        broken: counts.broken + later.broken,
        first: counts.first.or(later.first),
    }
}

/// A schedule that comes to an end and breaks the condition there, that comes to one, or that does not.
fn one(ended: bool, broken: bool, number: u64) -> EndCounts
    ensures { result ≡ one_end ended broken number }
{
    EndCounts {
        ended: u64::from(ended),
        broken: u64::from(broken),
        first: if broken { Some(number) } else { None },
    }
}

/// Whether it came to an end at which the condition is not met.
fn is_broken(ended: bool, met: bool) -> bool
    ensures { result ≡ ended && not met }
{
    ended && !met
}

/// What the schedule of a number counts as, which is run on a machine of the same programs.
fn counted(search: &Search, recovered: bool, own: &mut Machine, number: u64) -> EndCounts
    requires { AreSiblings own.old search.now.machine }
    ensures counts { result ≡ one_end (comes_to_end recovered search.now.plan search.now.machine number)
        (breaks_end recovered search.now.plan search.now.cond search.now.machine number) number }
    ensures programs { AreSiblings own.new search.now.machine }
{
    run_to_last(search, own, number);
    let view = own.view();
    let ended = is_end(&view, recovered);
    let met = holds(&search.cond, &view);
    one(ended, is_broken(ended, met), number)
}

/// What the schedules of a range count as, one after another. The number of each is reported to the gate, before it runs and when
/// it has ended.
fn ends_of_run<G: Gate>(
    alloc: Global,
    search: &Search,
    recovered: bool,
    range: Range,
    gate: &G,
) -> Result<EndCounts, AllocError>
    ensures { IfOk result (AreEnds recovered search.now range.first range.n) }
{
    let Ok(mut own) = search.machine.copy(alloc) else {
        return Err(AllocError);
    };
    let mut counts = NONE;
    for k in 0..range.n {
        let number = range.first + k;
        gate.claimed(number);
        let found = counted(search, recovered, &mut own, number);
        counts = both(counts, found);
        gate.ended(number);
    }
    Ok(counts)
}

/// The schedules whose ends are counted, after a crash or before the first one, and the gate to which each is reported.
#[derive(Clone, Copy)]
struct Ending<'a, G> {
    search: &'a Search,
    recovered: bool,
    gate: &'a G,
}

impl<G: Gate> Counting<EndCounts, EndCounts> for Ending<'_, G> {
    ghost use Rattle.hunt.specs.Ends.{AreEnds};

    ghost IsRun = { λ c. AreEnds c.recovered c.search.now };

    ghost IsAnswer = { λ c. AreEnds c.recovered c.search.now };

    fn none(&self, _alloc: Global) -> EndCounts {
        NONE
    }

    fn run(&self, alloc: Global, range: Range) -> Result<EndCounts, AllocError> {
        ends_of_run(alloc, self.search, self.recovered, range, self.gate)
    }

    fn add(&self, counts: &mut EndCounts, run: EndCounts) -> Result<(), AllocError> {
        *counts = both(*counts, run);
        Ok(())
    }
}

/// How many schedules of a search come to an end, after a crash or before the first one; how many of these make its condition
/// false there; and the first that does. An end is what `explore` calls so: each processor has nothing left to do, and nothing is
/// pending. A schedule comes to one where its last state is one. It is the same for any number of threads, in whatever order they
/// work. Answers over adjoining ranges are put together as `laws::ends_join` says. The thread that runs a schedule reports its
/// number to the gate, before it runs and when it has ended. The only error is out of memory.
pub fn count_ends<R: Threads + Sync, G: Gate + Sync>(
    rt: &R,
    alloc: Global,
    search: &Search,
    recovered: bool,
    gate: &G,
) -> Result<EndCounts, AllocError>
    ensures { IfOk result (λ counts. counts ≡ ends_in recovered search.now) }
{
    let ending = Ending {
        search,
        recovered,
        gate,
    };
    let counts = all_of(rt, alloc, &ending, search.range)?;
    Ok(counts)
}
