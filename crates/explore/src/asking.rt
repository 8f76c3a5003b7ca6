//! What is asked of every run, asked in as many explorations as it takes.
ghost use Rattle.std.specs.Prelude.{◌≡◌, ℕ};
ghost use Rattle.explore.specs.declared.question.Question.{Question};
ghost use Rattle.explore.specs.Apart.{AsksNoMore, BreaksAlong, IsApart, IsToldOfPart, told_of_both};
ghost use Rattle.explore.specs.Questions.{IsVerdict};
ghost use Rattle.explore.specs.Sound.{IsSound};

use crate::apart::{Apart, take_apart};
use crate::fault::ExploreFault;
use crate::node::Node;
use crate::on_the_way::fails_on_way;
use crate::question::Question;
use crate::search::explore_one;
use crate::verdict::{Asked, Failure, Verdict};
use crate::visit::{Sight, Stop, look};
use machine::Machine;
use std::alloc::{AllocError, Global};
use workers::Gate;

/// Looks once more at the states to which a run leads, one step after another: which is the first of whose images one makes the
/// whole condition false, and of these the least.
fn look_again(
    alloc: Global,
    start: &Machine,
    question: &Question,
    failure: Failure,
) -> Result<Verdict, ExploreFault>
    ensures { (part : Question) (limit : ℕ) → BreaksAlong question.now start.now failure.run → IsToldOfPart question.now part start.now limit result }
{
    if let Some(first) = fails_on_way(alloc, start, question, &failure.run)? {
        return Ok(Verdict::Fails(first));
    }
    let node = Node::along(alloc, start, &failure.run)?;
    match look(alloc, question, &node)? {
        Sight::Ends(Stop::Fails(failure)) => Ok(Verdict::Fails(failure)),
        Sight::Ends(Stop::Untold(fault)) => Err(fault),
        // It does not come to this where the image makes a part of the condition false.
        Sight::Go(_) => Ok(Verdict::Fails(failure)),
    }
}

/// Explores every run for a part of a question. What is told of a part that fails is told of the whole.
fn ask_part<G: Gate>(
    alloc: Global,
    start: &Machine,
    question: &Question,
    part: &Question,
    limit: u64,
    gate: &G,
) -> Result<Verdict, ExploreFault>
    requires { AsksNoMore part.now question.now }
    ensures { IsSound start.now → IsToldOfPart question.now part.now start.now limit result }
{
    match explore_one(alloc, start, part, limit, gate) {
        Ok(Verdict::Holds(found)) => Ok(Verdict::Holds(found)),
        Ok(Verdict::Fails(failure)) => match failure.asked {
            Asked::All => look_again(alloc, start, question, failure),
            Asked::Ends | Asked::Recovered => Ok(Verdict::Fails(failure)),
        },
        Err(fault) => Err(fault),
    }
}

/// What is told of the whole by what is told of its two parts: a failure; without one the first fault; without any what was found.
fn told_of_both(
    first: Result<Verdict, ExploreFault>,
    other: Result<Verdict, ExploreFault>,
) -> Result<Verdict, ExploreFault>
    ensures { result ≡ told_of_both first other }
{
    match (first, other) {
        (Ok(Verdict::Fails(failure)), _) => Ok(Verdict::Fails(failure)),
        (_, Ok(Verdict::Fails(failure))) => Ok(Verdict::Fails(failure)),
        (Err(fault), _) => Err(fault),
        (_, Err(fault)) => Err(fault),
        (Ok(Verdict::Holds(mut found)), Ok(Verdict::Holds(more))) => {
            found.note_states(more.states());
            Ok(Verdict::Holds(found))
        }
    }
}

/// Explores every run for each of the two parts of a question. The other part is asked where the first holds, and where it is not
/// told whether it does, as the other may fail then.
fn ask_apart<G: Gate>(
    alloc: Global,
    start: &Machine,
    question: &Question,
    apart: &Apart,
    limit: u64,
    gate: &G,
) -> Result<Verdict, ExploreFault>
    requires { IsApart question.now apart.now.first apart.now.other }
    ensures { IsSound start.now → IsVerdict question.now start.now limit result }
{
    let first = ask_part(alloc, start, question, &apart.first, limit, gate);
    if let Ok(Verdict::Fails(_)) | Err(ExploreFault::NoMemory) = &first {
        return first;
    }
    gate.begun(limit);
    let other = ask_part(alloc, start, question, &apart.other, limit, gate);
    told_of_both(first, other)
}

/// Tells of every run from a machine's state whether what is asked is true of all that it reaches: of every interleaving of the
/// processors, every drain and persist, and, where crashes are explored, of any number of crashes, each with every memory that it
/// may leave, and of what recovery does with it. Where the images are asked for, it tells which memories these are.
///
/// The state is to be sound, as that of a loaded machine is after any steps (`laws::loaded_machines_are_sound`). Of others nothing
/// is promised.
///
/// States that cannot be told apart by what follows are explored once. They are explored in the order in which they are found,
/// and the steps of each in the order of the processors. So the same is answered each time, unless memory is refused; and the
/// gate is told of each state, by its number, once it was explored. No clause says so, and tests ask.
///
/// Where the condition on images asks persisted values and others, and comes apart into conditions of which none does
/// (`Cond::conjuncts`), it is asked in two explorations, if nothing is pending at first: those on persisted values together, with
/// all else that is asked, and then the others together. A fault of the first does not hide that the second fails. The gate is told
/// when the second begins. How many states were told apart is the most of the two.
///
/// # Errors
///
/// [`ExploreFault::TooManyStates`] only where more states than the limit can be told apart; [`ExploreFault::NoRoom`] only where a
/// run leads to a state in which a processor waits for room in the pending list, or 2^61 steps were made before;
/// [`ExploreFault::TooMany`] only where images are looked at, and a run leads to a state with too many candidates for them; out of
/// memory.
pub fn check<G: Gate>(
    alloc: Global,
    start: &Machine,
    question: &Question,
    limit: u64,
    gate: &G,
) -> Result<Verdict, ExploreFault>
    ensures { IsSound start.now → IsVerdict question.now start.now limit result }
{
    match take_apart(alloc, start, question)? {
        Some(apart) => ask_apart(alloc, start, question, &apart, limit, gate),
        None => ask_part(alloc, start, question, question, limit, gate),
    }
}
