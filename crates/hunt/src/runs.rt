//! What schedules come to, by many threads.
ghost use Rattle.std.specs.Prelude.{◌≡◌, ◌+◌, ◌-◌, ◌*◌, ◌<◌, ℕ, IfOk, OnOk, min};
ghost use Rattle.hunt.specs.Runs.{Adds, Adjoin, AreRuns, IsRunAt, Meaning};

use rayon::prelude::*;
use schedule::Range;
use std::alloc::{AllocError, Global};
use std::thread::Threads;

/// How many schedules a thread takes at a time, on a machine of its own that it makes for them.
pub(crate) const RUN: u64 = 256;

/// How many schedules are shared out to threads at a time. What they come to is kept until all of them have ended.
pub(crate) const BLOCK: u64 = 16_384;

/// What schedules are run for: what a run of them comes to, and the answer that runs are added to.
pub(crate) trait Counting<T, A> {
    /// What a run of so many schedules comes to, of which the first has this number.
    ghost IsRun: { Self → Meaning T };

    /// The answer of so many schedules, of which the first has this number.
    ghost IsAnswer: { Self → Meaning A };

    /// The answer of no schedule.
    fn none(&self, alloc: Global) -> A
        ensures { (first : ℕ) → IsAnswer self.now first 0 result };

    /// What the schedules of a range come to, run by one thread.
    fn run(&self, alloc: Global, range: Range) -> Result<T, AllocError>
        ensures { IfOk result (IsRun self.now range.first range.n) };

    /// Adds a run to the answer of the schedules before it.
    fn add(&self, all: &mut A, run: T) -> Result<(), AllocError>
        requires { Adjoin (IsAnswer self.now) (IsRun self.now) all.old run }
        ensures { OnOk result (Adds (IsAnswer self.now) (IsRun self.now) all.old run all.new) };
}

/// The schedules that a thread takes at a time, of those of a range: the run of this number, from 0.
fn run_of(range: Range, run: u64) -> Range
    requires { 256 * run < range.n }
    ensures first { result.first ≡ range.first + 256 * run }
    ensures n { result.n ≡ min 256 (range.n - 256 * run) }
{
    range.part(RUN * run, RUN)
}

/// What the schedules of a range come to: run by run, by as many threads as there are.
fn by_runs<R: Threads + Sync, T: Send + Drop, A, C: Counting<T, A> + Sync>(
    rt: &R,
    alloc: Global,
    count: &C,
    range: Range,
) -> Result<Vec<T>, AllocError>
    ensures { IfOk result (λ runs. AreRuns (C.IsRun count.now) range.first range.n runs.items) }
{
    let runs = range.n.div_ceil(RUN) as usize;
    let chain = (0..runs).into_par_iter().map(
        move |run: usize| -> Result<T, AllocError>
            requires { 256 * run < range.n }
            ensures { IfOk result (IsRunAt (C.IsRun count.entry.now) range.first range.n run) }
        { count.run(alloc, run_of(range, run as u64)) },
    );
    let Ok(made) = chain
        .with_min_len(1)
        .collect::<Result<Vec<T>, AllocError>>(rt, alloc)
    else {
        return Err(AllocError);
    };
    match made {
        Ok(runs) => Ok(runs),
        Err(_) => Err(AllocError),
    }
}

/// Adds the runs of a range, one after another, to the answer of the schedules before them.
fn add_runs<T: Drop, A, C: Counting<T, A>>(
    count: &C,
    all: &mut A,
    runs: Vec<T>,
) -> Result<(), AllocError>
    requires { Adjoin (C.IsAnswer count.now) (AreRuns (C.IsRun count.now)) all.old runs.items }
    ensures { OnOk result (Adds (C.IsAnswer count.now) (AreRuns (C.IsRun count.now)) all.old runs.items all.new) }
{
    for run in runs {
        count.add(all, run)?;
    }
    Ok(())
}

/// What the schedules of a range come to. It is the same for any number of threads.
pub(crate) fn all_of<R: Threads + Sync, T: Send + Drop, A: Drop, C: Counting<T, A> + Sync>(
    rt: &R,
    alloc: Global,
    count: &C,
    range: Range,
) -> Result<A, AllocError>
    ensures { IfOk result (C.IsAnswer count.now range.first range.n) }
{
    let mut all = count.none(alloc);
    let mut done = 0;
    while done < range.n {
        let block = range.part(done, BLOCK);
        add_runs(count, &mut all, by_runs(rt, alloc, count, block)?)?;
        done += block.n;
    }
    Ok(all)
}
