//! Whether a program needs more flushes and fences, and which.
ghost use Rattle.std.specs.Prelude.{ℕ, ◌<◌, length, IfOk};
ghost use Rattle.isa.specs.Objects.{Object};
ghost use Rattle.explore.specs.declared.question.Question.{Question};
ghost use Rattle.verdicts.specs.Verdicts.{IsBrokenBy};
ghost use Rattle.mends.specs.Mends.{AreAllSettled, AreOpened, IsFoundAmong, IsMended, most_open};
ghost use Rattle.mends.specs.Searches.{IsBound, IsSearch, IsTask};
ghost use Rattle.choices.specs.Choices.{nothing};

use crate::ahead::Ahead;
use crate::bound::bound_from;
use crate::outcome::{Mended, Open, Put};
use crate::search::Search;
use crate::task::Task;
use crate::turn::{Turn, take_turn};
use candidates::{candidates, costs};
use choices::{nothing, take_first};
use explore::{ExploreFault, Failure, Question, Verdict};
use isa::Object;
use std::alloc::{AllocError, Global};
use std::thread::Threads;
use verdicts::laws::failures_break;
use verdicts::verdict_on;
use workers::Gate;

/// A search that begins: this run breaks what is asked if nothing is put in. The only error is out of memory.
fn begun(alloc: Global, task: &Task<'_>, failure: &Failure) -> Result<Search, AllocError>
    requires task { IsTask task.now }
    requires broken { IsBound task.now.question.now task.now.object.now (nothing (length task.now.candidates.now)) }
    ensures { IfOk result (IsSearch task.now.question.now task.now.limit task.now.object.now) }
{
    let first = nothing(alloc, task.candidates.len())?;
    let bound = bound_from(alloc, task, &first, failure.run.steps())?;
    let mut search = Search {
        queue: Vec::new(alloc),
        ruled: Vec::new(alloc),
        untold: Vec::new(alloc),
    };
    search.queue.push(first)?;
    search.ruled.push(bound)?;
    Ok(search)
}

/// What comes of a search that tried all, and found none.
fn none_found(untold: Vec<Open>) -> Mended
    ensures { (question : Question) (limit : ℕ) (object : Object) → AreAllSettled question object untold.items → AreOpened question limit object untold.items
        → length untold.items < most_open → IsFoundAmong question limit object result }
{
    if untold.is_empty() {
        Mended::None
    } else {
        Mended::NotKnown(untold)
    }
}

/// The first set with which what is asked holds, if there is one; this run breaks it if nothing is put in. So many choices are asked at
/// once. The only error is out of memory.
fn first_mend<R: Threads + Sync, G: Gate + Sync>(
    rt: &R,
    alloc: Global,
    task: &Task<'_>,
    failure: &Failure,
    workers: u64,
    gate: &G,
) -> Result<Mended, AllocError>
    requires task { IsTask task.now }
    requires broken { IsBound task.now.question.now task.now.object.now (nothing (length task.now.candidates.now)) }
    ensures { IfOk result (IsFoundAmong task.now.question.now task.now.limit task.now.object.now) }
{
    let mut search = begun(alloc, task, failure)?;
    let mut ahead = Ahead {
        workers,
        asked: Vec::new(alloc),
    };
    while let Some(choice) = take_first(task.costs, &mut search.queue) {
        match take_turn(rt, alloc, task, &choice, &mut search, &mut ahead, gate)? {
            Turn::GoesOn => {}
            Turn::Found(set, found) => {
                return Ok(Mended::Put(Put {
                    set,
                    found,
                    open: search.untold,
                }));
            }
            Turn::Enough => return Ok(Mended::NotKnown(search.untold)),
        }
    }
    Ok(none_found(search.untold))
}

/// What comes of a program of which what is asked is broken: this run breaks it. So many choices are asked at once. The only error is out
/// of memory.
fn mended_broken<R: Threads + Sync, G: Gate + Sync>(
    rt: &R,
    alloc: Global,
    object: &Object,
    question: &Question,
    limit: u64,
    failure: &Failure,
    workers: u64,
    gate: &G,
) -> Result<Mended, AllocError>
    requires { IsBrokenBy question.now object.now }
    ensures { IfOk result (IsFoundAmong question.now limit object.now) }
{
    let candidates = candidates(alloc, object)?;
    let costs = costs(alloc, &candidates)?;
    let task = Task {
        object,
        question,
        limit,
        candidates: &candidates,
        costs: &costs,
    };
    first_mend(rt, alloc, &task, failure, workers, gate)
}

/// The first set of flushes and fences, in the order of cost and but for those that are not told, with which what is asked holds;
/// or that none is needed, or that there is none, or which are not told. What is asked is asked of all runs of the program with
/// a set, of which at most so many states are told apart. Or, as an inner error, why it is not told of the program as it is.
///
/// So many workers ask at once: of the sets that wait the first, and the next of which nothing is known, each by a thread of its own where
/// one can be made. What comes of a set is used when its turn comes, and only then: so the answer is that of one worker, which starts no
/// thread. 0 is as 1. The gate is told of each exploration and of each state, but of none behind a run that is followed.
///
/// # Errors
///
/// Out of memory.
pub fn mend<R: Threads + Sync, G: Gate + Sync>(
    rt: &R,
    alloc: Global,
    object: &Object,
    question: &Question,
    limit: u64,
    workers: u64,
    gate: &G,
) -> Result<Result<Mended, ExploreFault>, AllocError>
    ensures { IfOk result (IsMended question.now limit object.now) }
{
    // For the proof.
    failures_break();
    gate.begun(limit);
    match verdict_on(alloc, object, question, limit, gate)? {
        Ok(Verdict::Holds(found)) => Ok(Ok(Mended::NoneNeeded(found))),
        Ok(Verdict::Fails(failure)) => {
            let mended = mended_broken(
                rt, alloc, object, question, limit, &failure, workers, gate,
            )?;
            Ok(Ok(mended))
        }
        Err(fault) => Ok(Err(fault)),
    }
}
