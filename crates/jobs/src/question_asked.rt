//! What is asked of all runs for a question.
ghost use Rattle.std.specs.Prelude.{◌≡◌, IfOk};
ghost use Rattle.jobs.specs.Questions.{asked_at, crashes_to, kept_formula, left_question, question_of};

use conditions::Cond;
use explore::Question;
use questions::{NamedQuestion, Place};
use std::alloc::{AllocError, Global};

/// What must be so of every state: that the condition is true; of a question of some state, that it is not.
fn kept_formula(alloc: Global, question: &NamedQuestion) -> Result<Cond, AllocError>
    ensures { IfOk result (λ c. c ≡ kept_formula question.now) }
{
    let so = question.condition.stated(alloc, true)?;
    if question.every {
        Ok(so)
    } else {
        so.negated(alloc)
    }
}

/// Whether the runs crash that a question is asked of: those to an end before the first crash do not.
pub(crate) fn crashes_to(place: Place, crashes: bool) -> bool
    ensures { result ≡ crashes_to place crashes }
{
    match place {
        Place::Crash | Place::Recovery => crashes,
        Place::End => false,
    }
}

/// A condition as what is asked of all states of a place, where runs crash or do not.
fn asked_at(place: Place, crashes: bool, condition: Cond) -> Question
    ensures { result ≡ asked_at place crashes condition }
{
    let (all, ends, recovered) = match place {
        Place::Crash => (Some(condition), None, None),
        Place::End => (None, Some(condition), None),
        Place::Recovery => (None, None, Some(condition)),
    };
    Question {
        crashes,
        all,
        ends,
        recovered,
        images: false,
    }
}

/// What is asked of all runs for a question, where runs crash or do not.
pub(crate) fn question_of(
    alloc: Global,
    crashes: bool,
    question: &NamedQuestion,
) -> Result<Question, AllocError>
    ensures { IfOk result (λ q. q ≡ question_of crashes question.now) }
{
    let kept = kept_formula(alloc, question)?;
    let place = question.place;
    Ok(asked_at(place, crashes_to(place, crashes), kept))
}

/// The same for the left side of a `->`: it is broken where some state has it true.
pub(crate) fn left_question(
    alloc: Global,
    crashes: bool,
    left: &Cond,
    question: &NamedQuestion,
) -> Result<Question, AllocError>
    ensures { IfOk result (λ q. q ≡ left_question crashes left.now question.now) }
{
    let never = left.stated(alloc, true)?.negated(alloc)?;
    let place = question.place;
    Ok(asked_at(place, crashes_to(place, crashes), never))
}
