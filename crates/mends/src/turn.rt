//! One turn of a search: the least choice that waits is tried.
ghost use Rattle.std.specs.Prelude.{◌≡◌, IfOk, OnOk};
ghost use Rattle.mends.specs.Ahead.{AreAsked};
ghost use Rattle.mends.specs.Mends.{IsLeftOpen};
ghost use Rattle.mends.specs.Searches.{IsBound, IsAnswerTo, IsTask, IsTurn, IsTurned, IsUntoldSet};

use crate::ahead::{Ahead, answer};
use crate::bound::bound_from;
use crate::outcome::{MOST_OPEN, Open};
use crate::search::{Search, known_bound};
use crate::task::Task;
use crate::tried::Tried;
use added_fences::laws::{candidates_are_sets, more_put_in_breaks_no_more};
use choices::spread;
use explore::{ExploreFault, Failure, Findings};
use image_reasons::Repair;
use std::alloc::{AllocError, Global};
use std::thread::Threads;
use workers::Gate;

/// What a turn comes to.
#[derive(Drop)]
pub enum Turn {
    /// The search goes on.
    GoesOn,
    /// What is asked holds with this set, and this is found.
    Found(Vec<Repair>, Findings),
    /// So many choices are open that the search ends.
    Enough,
}

/// What a choice comes to of which nothing was known.
#[derive(Drop)]
pub enum Answer {
    /// It is settled, and all between it and this.
    Bound(Vec<bool>),
    /// What is asked holds with this set, and this is found.
    Found(Vec<Repair>, Findings),
    /// It is open, and so many are that the search ends.
    Enough,
}

/// A choice with which this run breaks what is asked is noted, with as much more as leaves it so. The only error is out of memory.
fn rule_out(
    alloc: Global,
    task: &Task<'_>,
    choice: &[bool],
    failure: &Failure,
    search: &mut Search,
) -> Result<Answer, AllocError>
    requires task { IsTask task.now }
    requires turn { IsTurn task.now.question.now task.now.limit task.now.object.now search.old choice.now }
    requires broken { IsBound task.now.question.now task.now.object.now choice.now }
    ensures { IfOk result (IsAnswerTo task.now.question.now task.now.limit task.now.object.now search.old search.new choice.now) }
{
    // For the proof.
    candidates_are_sets();
    more_put_in_breaks_no_more();
    let bound = bound_from(alloc, task, choice, failure.run.steps())?;
    search.ruled.push(bound.to_vec(alloc)?)?;
    Ok(Answer::Bound(bound))
}

/// A choice that is not told is noted. The only error is out of memory.
fn leave_open(
    alloc: Global,
    task: &Task<'_>,
    choice: &[bool],
    untold: (Vec<Repair>, ExploreFault),
    search: &mut Search,
) -> Result<Answer, AllocError>
    requires turn { IsTurn task.now.question.now task.now.limit task.now.object.now search.old choice.now }
    requires new { IsLeftOpen search.old.untold.items choice.now → ⊥ }
    requires untold { IsUntoldSet task.now.question.now task.now.limit task.now.object.now choice.now untold }
    ensures { IfOk result (IsAnswerTo task.now.question.now task.now.limit task.now.object.now search.old search.new choice.now) }
{
    let (set, fault) = untold;
    search.untold.push(Open {
        choice: choice.to_vec(alloc)?,
        set,
        fault,
    })?;
    if search.untold.len() == MOST_OPEN {
        return Ok(Answer::Enough);
    }
    Ok(Answer::Bound(choice.to_vec(alloc)?))
}

/// Tries a choice of which nothing is known. The only error is out of memory.
fn ask<R: Threads + Sync, G: Gate + Sync>(
    rt: &R,
    alloc: Global,
    task: &Task<'_>,
    choice: &[bool],
    search: &mut Search,
    ahead: &mut Ahead,
    gate: &G,
) -> Result<Answer, AllocError>
    requires task { IsTask task.now }
    requires turn { IsTurn task.now.question.now task.now.limit task.now.object.now search.old choice.now }
    requires new { IsLeftOpen search.old.untold.items choice.now → ⊥ }
    requires asked { AreAsked task.now.question.now task.now.limit task.now.object.now ahead.old.asked.items }
    ensures answer { IfOk result (IsAnswerTo task.now.question.now task.now.limit task.now.object.now search.old search.new choice.now) }
    ensures asked { OnOk result (AreAsked task.now.question.now task.now.limit task.now.object.now ahead.new.asked.items) }
{
    match answer(rt, alloc, task, choice, search, ahead, gate)? {
        Tried::NoProgram => Ok(Answer::Bound(choice.to_vec(alloc)?)),
        Tried::Broken(failure) => rule_out(alloc, task, choice, &failure, search),
        Tried::Holds(set, found) => Ok(Answer::Found(set, found)),
        Tried::Untold(set, fault) => leave_open(alloc, task, choice, (set, fault), search),
    }
}

/// What settles a choice, or what comes of it where nothing is known that does. The only error is out of memory.
fn answer_to<R: Threads + Sync, G: Gate + Sync>(
    rt: &R,
    alloc: Global,
    task: &Task<'_>,
    choice: &[bool],
    search: &mut Search,
    ahead: &mut Ahead,
    gate: &G,
) -> Result<Answer, AllocError>
    requires task { IsTask task.now }
    requires turn { IsTurn task.now.question.now task.now.limit task.now.object.now search.old choice.now }
    requires asked { AreAsked task.now.question.now task.now.limit task.now.object.now ahead.old.asked.items }
    ensures answer { IfOk result (IsAnswerTo task.now.question.now task.now.limit task.now.object.now search.old search.new choice.now) }
    ensures asked { OnOk result (AreAsked task.now.question.now task.now.limit task.now.object.now ahead.new.asked.items) }
{
    match known_bound(alloc, task, search, choice)? {
        Some(bound) => Ok(Answer::Bound(bound)),
        None => ask(rt, alloc, task, choice, search, ahead, gate),
    }
}

/// One turn: a choice that was taken out is settled, and what puts in one more is put into the queue for it; or the search ends. The only
/// error is out of memory.
pub(crate) fn take_turn<R: Threads + Sync, G: Gate + Sync>(
    rt: &R,
    alloc: Global,
    task: &Task<'_>,
    choice: &[bool],
    search: &mut Search,
    ahead: &mut Ahead,
    gate: &G,
) -> Result<Turn, AllocError>
    requires task { IsTask task.now }
    requires turn { IsTurn task.now.question.now task.now.limit task.now.object.now search.old choice.now }
    requires asked { AreAsked task.now.question.now task.now.limit task.now.object.now ahead.old.asked.items }
    ensures turn { IfOk result (IsTurned task.now.question.now task.now.limit task.now.object.now search.old search.new choice.now) }
    ensures asked { OnOk result (AreAsked task.now.question.now task.now.limit task.now.object.now ahead.new.asked.items) }
{
    match answer_to(rt, alloc, task, choice, search, ahead, gate)? {
        Answer::Bound(bound) => {
            spread(alloc, &mut search.queue, choice, &bound)?;
            Ok(Turn::GoesOn)
        }
        Answer::Found(set, found) => Ok(Turn::Found(set, found)),
        Answer::Enough => Ok(Turn::Enough),
    }
}
