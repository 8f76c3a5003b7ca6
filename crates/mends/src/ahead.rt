//! Choices that are asked before their turn, by several threads at once.
ghost use Rattle.std.specs.Prelude.{◌≡◌, true, length, IfOk, IfSome, IsTrue, OnOk};
ghost use Rattle.candidates.specs.Candidates.{candidates_of};
ghost use Rattle.choices.specs.Waiting.{AreChoices};
ghost use Rattle.mends.specs.Ahead.{AreAnswered, AreAsked, IsAskedIfAny, IsPlaceOf};
ghost use Rattle.mends.specs.Mends.{IsChoice};
ghost use Rattle.mends.specs.Searches.{IsKnown, IsTask, IsTried};

use crate::search::{Search, known_bound};
use crate::task::Task;
use crate::tried::{Tried, try_choice};
use choices::{is_within, take_first};
use std::alloc::{AllocError, Global};
use std::thread;
use std::thread::Threads;
use workers::Gate;

/// A choice, and what comes of it.
#[derive(Drop)]
pub struct Asked {
    /// The choice.
    pub choice: Vec<bool>,
    /// What comes of it.
    pub tried: Tried,
}

/// What is known of choices whose turn has not come.
#[derive(Drop)]
pub struct Ahead {
    /// How many choices are asked at once.
    pub workers: u64,
    /// Those that were asked.
    pub asked: Vec<Asked>,
}

/// Whether two choices are the same: each takes all that the other takes.
#[tactic(auto, using(choices::proofs::Above::same_within))]
fn is_same(choice: &[bool], other: &[bool]) -> bool
    ensures { result ≡ true → choice.now ≡ other.now }
{
    if choice.len() != other.len() {
        return false;
    }
    is_within(choice, other) && is_within(other, choice)
}

/// The place at which a choice was asked, if it was.
fn place_of(asked: &[Asked], choice: &[bool]) -> Option<usize>
    ensures { IsPlaceOf asked.now choice.now result }
{
    for (place, one) in asked.iter().enumerate() {
        if is_same(&one.choice, choice) {
            return Some(place);
        }
    }
    None
}

/// Takes out what comes of a choice, if it was asked.
fn taken(task: &Task<'_>, asked: &mut Vec<Asked>, choice: &[bool]) -> Option<Tried>
    requires { AreAsked task.now.question.now task.now.limit task.now.object.now asked.old.items }
    ensures tried { IfSome result (IsTried task.now.question.now task.now.limit task.now.object.now choice.now) }
    ensures asked { AreAsked task.now.question.now task.now.limit task.now.object.now asked.new.items }
{
    let place = place_of(asked, choice)?;
    Some(asked.remove(place).tried)
}

/// Adds a choice that waits, if nothing is known of it and it was not asked. The only error is out of memory.
fn push_unknown(
    alloc: Global,
    task: &Task<'_>,
    search: &Search,
    ahead: &Ahead,
    choice: &[bool],
    unknown: &mut Vec<Vec<bool>>,
) -> Result<(), AllocError>
    requires known { IsKnown task.now.question.now task.now.limit task.now.object.now search.now }
    requires choice { IsChoice task.now.object.now choice.now }
    requires unknown { AreChoices (length (candidates_of task.now.object.now)) unknown.old.items }
    ensures { OnOk result (AreChoices (length (candidates_of task.now.object.now)) unknown.new.items) }
{
    if known_bound(alloc, task, search, choice)?.is_some() {
        return Ok(());
    }
    if place_of(&ahead.asked, choice).is_some() {
        return Ok(());
    }
    unknown.push(choice.to_vec(alloc)?)?;
    Ok(())
}

/// Of the choices that wait, those of which nothing is known and that were not asked. The only error is out of memory.
fn unknown(
    alloc: Global,
    task: &Task<'_>,
    search: &Search,
    ahead: &Ahead,
) -> Result<Vec<Vec<bool>>, AllocError>
    requires { IsKnown task.now.question.now task.now.limit task.now.object.now search.now }
    ensures { IfOk result (λ unknown. AreChoices (length (candidates_of task.now.object.now)) unknown.items) }
{
    let mut unknown = Vec::new(alloc);
    for choice in &search.queue {
        push_unknown(alloc, task, search, ahead, choice, &mut unknown)?;
    }
    Ok(unknown)
}

/// A choice whose turn it is, and behind it, in their order, the next that nothing is known of: as many as are asked at once. The only
/// error is out of memory.
fn next_choices(
    alloc: Global,
    task: &Task<'_>,
    choice: &[bool],
    search: &Search,
    ahead: &Ahead,
) -> Result<Vec<Vec<bool>>, AllocError>
    requires task { IsTask task.now }
    requires known { IsKnown task.now.question.now task.now.limit task.now.object.now search.now }
    requires choice { IsChoice task.now.object.now choice.now }
    ensures { IfOk result (λ next. AreChoices (length (candidates_of task.now.object.now)) next.items) }
{
    let mut waiting = unknown(alloc, task, search, ahead)?;
    let mut next = Vec::new(alloc);
    next.push(choice.to_vec(alloc)?)?;
    for _ in 1..ahead.workers {
        let Some(other) = take_first(task.costs, &mut waiting) else {
            break;
        };
        next.push(other)?;
    }
    Ok(next)
}

/// A choice with what comes of it; none where memory ran out for it.
fn asked_one<G: Gate>(alloc: Global, task: &Task<'_>, choice: Vec<bool>, gate: &G) -> Option<Asked>
    requires task { IsTask task.now }
    requires choice { IsChoice task.now.object.now choice.items }
    ensures { IsAskedIfAny task.now.question.now task.now.limit task.now.object.now result }
{
    match try_choice(alloc, task, &choice, task.limit, gate) {
        Ok(tried) => Some(Asked { choice, tried }),
        Err(AllocError) => None,
    }
}

/// What comes of these choices, each asked by a thread of its own where one can be made. The only error is out of memory.
fn asked_at_once<R: Threads + Sync, G: Gate + Sync>(
    rt: &R,
    alloc: Global,
    task: &Task<'_>,
    choices: Vec<Vec<bool>>,
    gate: &G,
) -> Result<Vec<Option<Asked>>, AllocError>
    requires task { IsTask task.now }
    requires choices { AreChoices (length (candidates_of task.now.object.now)) choices.items }
    ensures { IfOk result (λ asked. AreAnswered task.now.question.now task.now.limit task.now.object.now asked.items) }
{
    let ask = move |choice: Vec<bool>| -> Option<Asked>
        requires { IsTask task.now × IsChoice task.now.object.now choice.items }
        ensures { IsAskedIfAny task.entry.now.question.now task.entry.now.limit task.entry.now.object.now result }
    { asked_one(alloc, task, choice, gate) };
    thread::map_vec(rt, choices, &ask)
}

/// Notes what came of a choice, if memory was enough for it. The only error is out of memory.
fn note_one(task: &Task<'_>, one: Option<Asked>, asked: &mut Vec<Asked>) -> Result<(), AllocError>
    requires one { IsAskedIfAny task.now.question.now task.now.limit task.now.object.now one }
    requires asked { AreAsked task.now.question.now task.now.limit task.now.object.now asked.old.items }
    ensures { OnOk result (AreAsked task.now.question.now task.now.limit task.now.object.now asked.new.items) }
{
    if let Some(one) = one {
        asked.push(one)?;
    }
    Ok(())
}

/// Notes what came of choices. The only error is out of memory.
fn note(
    task: &Task<'_>,
    mut made: Vec<Option<Asked>>,
    asked: &mut Vec<Asked>,
) -> Result<(), AllocError>
    requires made { AreAnswered task.now.question.now task.now.limit task.now.object.now made.items }
    requires asked { AreAsked task.now.question.now task.now.limit task.now.object.now asked.old.items }
    ensures { OnOk result (AreAsked task.now.question.now task.now.limit task.now.object.now asked.new.items) }
{
    while let Some(one) = made.pop() {
        note_one(task, one, asked)?;
    }
    Ok(())
}

/// Asks a choice whose turn it is, and at once the next that nothing is known of, where there are several workers and such a choice.
/// The only error is out of memory.
fn ask_at_once<R: Threads + Sync, G: Gate + Sync>(
    rt: &R,
    alloc: Global,
    task: &Task<'_>,
    choice: &[bool],
    search: &Search,
    ahead: &mut Ahead,
    gate: &G,
) -> Result<(), AllocError>
    requires task { IsTask task.now }
    requires known { IsKnown task.now.question.now task.now.limit task.now.object.now search.now }
    requires choice { IsChoice task.now.object.now choice.now }
    requires asked { AreAsked task.now.question.now task.now.limit task.now.object.now ahead.old.asked.items }
    ensures { OnOk result (AreAsked task.now.question.now task.now.limit task.now.object.now ahead.new.asked.items) }
{
    if ahead.workers < 2 {
        return Ok(());
    }
    let next = next_choices(alloc, task, choice, search, ahead)?;
    if next.len() < 2 {
        return Ok(());
    }
    let made = asked_at_once(rt, alloc, task, next, gate)?;
    note(task, made, &mut ahead.asked)
}

/// What comes of a choice whose turn it is: what is known of it, if it was asked before; otherwise it is asked now, and with it the next.
/// Where memory runs out for it while others are asked, it is asked once more, alone. The only error is out of memory.
pub(crate) fn answer<R: Threads + Sync, G: Gate + Sync>(
    rt: &R,
    alloc: Global,
    task: &Task<'_>,
    choice: &[bool],
    search: &Search,
    ahead: &mut Ahead,
    gate: &G,
) -> Result<Tried, AllocError>
    requires task { IsTask task.now }
    requires known { IsKnown task.now.question.now task.now.limit task.now.object.now search.now }
    requires choice { IsChoice task.now.object.now choice.now }
    requires asked { AreAsked task.now.question.now task.now.limit task.now.object.now ahead.old.asked.items }
    ensures tried { IfOk result (IsTried task.now.question.now task.now.limit task.now.object.now choice.now) }
    ensures asked { OnOk result (AreAsked task.now.question.now task.now.limit task.now.object.now ahead.new.asked.items) }
{
    if let Some(tried) = taken(task, &mut ahead.asked, choice) {
        return Ok(tried);
    }
    ask_at_once(rt, alloc, task, choice, search, ahead, gate)?;
    match taken(task, &mut ahead.asked, choice) {
        Some(tried) => Ok(tried),
        None => try_choice(alloc, task, choice, task.limit, gate),
    }
}
