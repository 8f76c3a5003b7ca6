//! How many schedules of a plan break a condition by what a crash may leave.
ghost use Rattle.std.specs.Prelude.{◌≡◌, ◌+◌, ◌≤◌, IfOk};
ghost use Rattle.conditions.specs.Truth.{reads_registers};
ghost use Rattle.schedule.specs.Ranges.{max_schedules};
ghost use Rattle.hunt.specs.LossSums.{AreLosses, both, one_loss};
ghost use Rattle.hunt.specs.Searches.{losses_in};

use crate::least_turn::loss_on;
use crate::loss::{Loss, Moment};
use crate::runs::{Counting, all_of};
use crate::search::Search;
use schedule::Range;
use std::alloc::{AllocError, Global};
use std::thread::Threads;
use workers::Gate;

/// How many schedules of some break a condition, and the first of them.
#[derive(Clone, Copy, Debug, PartialEq, Eq)]
pub struct Losses {
    /// How many do.
    pub broken: u64,
    /// The one with the smallest number, and the least of its turns after which it does.
    pub first: Option<Moment>,
}

/// Those of numbers, and then those of the numbers after them.
fn both(losses: Losses, later: Losses) -> Losses
    requires { losses.broken + later.broken ≤ max_schedules }
    ensures { result ≡ both losses later }
{
    Losses {
        broken: losses.broken + later.broken,
        first: losses.first.or(later.first),
    }
}

/// A schedule that breaks the condition, or one that does not.
fn one(loss: Option<Loss>) -> Losses
    ensures { result ≡ one_loss loss }
{
    match loss {
        Some(loss) => Losses {
            broken: 1,
            first: Some(loss.at),
        },
        None => NONE,
    }
}

/// None of the schedules breaks the condition.
const NONE: Losses = Losses {
    broken: 0,
    first: None,
};

/// The losses of the schedules of a range, one after another. The number of each is reported to the gate, before it runs
/// and when it has ended. Registers count where the condition reads some.
fn losses_of_run<G: Gate>(
    alloc: Global,
    search: &Search,
    cond_reads_registers: bool,
    range: Range,
    gate: &G,
) -> Result<Losses, AllocError>
    requires { cond_reads_registers ≡ reads_registers search.now.cond }
    ensures { IfOk result (AreLosses search.now range.first range.n) }
{
    let Ok(mut own) = search.machine.copy(alloc) else {
        return Err(AllocError);
    };
    let mut losses = NONE;
    for k in 0..range.n {
        let number = range.first + k;
        gate.claimed(number);
        let loss = loss_on(alloc, search, cond_reads_registers, &mut own, number)?;
        losses = both(losses, one(loss));
        gate.ended(number);
    }
    Ok(losses)
}

/// The schedules whose losses are counted, whether registers count in the condition, and the gate to which each is reported.
#[derive(Drop)]
struct Searched<'a, G> {
    search: &'a Search,
    cond_reads_registers: bool,
    gate: &'a G,
    ghost law: { cond_reads_registers ≡ reads_registers search.now.cond },
}

impl<G: Gate> Counting<Losses, Losses> for Searched<'_, G> {
    ghost use Rattle.hunt.specs.LossSums.{AreLosses};

    ghost IsRun = { λ c. AreLosses c.search.now };

    ghost IsAnswer = { λ c. AreLosses c.search.now };

    fn none(&self, _alloc: Global) -> Losses {
        NONE
    }

    fn run(&self, alloc: Global, range: Range) -> Result<Losses, AllocError> {
        losses_of_run(
            alloc,
            self.search,
            self.cond_reads_registers,
            range,
            self.gate,
        )
    }

    fn add(&self, losses: &mut Losses, run: Losses) -> Result<(), AllocError> {
        *losses = both(*losses, run);
        Ok(())
    }
}

/// How many schedules of a search break its condition by what a crash may leave after some turn, and the first of them.
/// It is the same for any number of threads, in whatever order they work. Answers over adjoining ranges are put together
/// as `laws::losses_join` says. The thread that runs a schedule reports its number to the gate, before it runs and when
/// it has ended. The only error is out of memory.
pub fn count_losses<R: Threads + Sync, G: Gate + Sync>(
    rt: &R,
    alloc: Global,
    search: &Search,
    gate: &G,
) -> Result<Losses, AllocError>
    ensures { IfOk result (λ losses. losses ≡ losses_in search.now) }
{
    let searched = Searched {
        search,
        cond_reads_registers: search.cond.reads_registers(),
        gate,
    };
    let losses = all_of(rt, alloc, &searched, search.range)?;
    Ok(losses)
}
