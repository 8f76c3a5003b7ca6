//! Questions of every state that are asked of all runs together: where all of them hold, runs are explored once.
ghost use Rattle.std.specs.Prelude.{◌≡◌, IfOk, IfSome, Some, option_copied};
ghost use Rattle.explore.specs.Questions.{AreFindings};
ghost use Rattle.jobs.specs.Questions.{crash_question, end_question, is_of_every, is_place, joined, joined_by, kept_together, found_at, AreOfCrashes, AreOfEnds, AreTogether};
ghost use Rattle.jobs.specs.Starts.{IsReady};

use crate::start::Start;
use commands::QuestionOptions;
use conditions::Cond;
use explore::{Findings, Question, Verdict};
use questions::{NamedQuestion, Place};
use std::alloc::{AllocError, Global};
use workers::Gate;

/// What is found of all runs where all questions hold that are asked together. None of it is there where one of them fails, or that is
/// not told.
#[derive(Drop)]
pub(crate) struct Together {
    /// Of the questions of crashes, and of ends behind one.
    pub crashes: Option<Findings>,
    /// Of those of ends before a crash.
    pub ends: Option<Findings>,
}

/// Whether two places are one.
fn is_place(place: Place, other: Place) -> bool
    ensures { result ≡ is_place place other }
{
    match (place, other) {
        (Place::Crash, Place::Crash)
        | (Place::End, Place::End)
        | (Place::Recovery, Place::Recovery) => true,
        _ => false,
    }
}

/// Whether a question is asked of every state of a place.
fn is_of_every(place: Place, question: &NamedQuestion) -> bool
    ensures { result ≡ is_of_every place question.now }
{
    question.every && is_place(place, question.place)
}

/// One more condition that is to be true.
fn joined(alloc: Global, before: Option<Cond>, condition: Cond) -> Result<Cond, AllocError>
    ensures { IfOk result (λ both. joined before condition ≡ Some both) }
{
    match before {
        None => Ok(condition),
        Some(before) => before.and(alloc, condition),
    }
}

/// The same of what a question asks, if it is asked of every state of a place.
fn joined_by(
    alloc: Global,
    place: Place,
    before: Option<Cond>,
    question: &NamedQuestion,
) -> Result<Option<Cond>, AllocError>
    ensures { IfOk result (λ all. all ≡ joined_by place before question.now) }
{
    if !is_of_every(place, question) {
        return Ok(before);
    }
    let kept = question.condition.stated(alloc, true)?;
    Ok(Some(joined(alloc, before, kept)?))
}

/// All that questions ask of every state of a place.
#[tactic(auto, using(crate::proofs::QuestionsJoin::join_steps))]
fn kept_together(
    alloc: Global,
    place: Place,
    questions: &[NamedQuestion],
) -> Result<Option<Cond>, AllocError>
    ensures { IfOk result (λ all. all ≡ kept_together place questions.now) }
{
    let mut together = None;
    for question in questions {
        together = joined_by(alloc, place, together, question)?;
    }
    Ok(together)
}

/// Whether more than one question is asked of every state of these places.
fn are_several(questions: &[NamedQuestion], place: Place, other: Place) -> bool {
    let is_asked = |question: &NamedQuestion| is_of_every(place, question)
        || is_of_every(other, question);
    1 < questions
        .iter()
        .filter(|question| is_asked(*question))
        .count()
}

/// What is asked of all runs for the questions of crashes, and of ends behind one.
fn crash_question(
    alloc: Global,
    crashes: bool,
    questions: &[NamedQuestion],
) -> Result<Question, AllocError>
    ensures { IfOk result (λ q. q ≡ crash_question crashes questions.now) }
{
    Ok(Question {
        crashes,
        all: kept_together(alloc, Place::Crash, questions)?,
        ends: None,
        recovered: kept_together(alloc, Place::Recovery, questions)?,
        images: false,
    })
}

/// The same for those of ends before a crash.
fn end_question(alloc: Global, questions: &[NamedQuestion]) -> Result<Question, AllocError>
    ensures { IfOk result (λ q. q ≡ end_question questions.now) }
{
    Ok(Question {
        crashes: false,
        all: None,
        ends: kept_together(alloc, Place::End, questions)?,
        recovered: None,
        images: false,
    })
}

/// A gate that is told of all but of work that ends too soon: what is asked together is then asked alone.
#[derive(Clone, Copy)]
struct UntoldOfEnd<'g, G: Gate> {
    gate: &'g G,
}

impl<'g, G: Gate> Gate for UntoldOfEnd<'g, G> {
    fn begun(&self, all: u64) {
        self.gate.begun(all);
    }

    fn claimed(&self, number: u64) {
        self.gate.claimed(number);
    }

    fn ended(&self, number: u64) {
        self.gate.ended(number);
    }
}

/// What is found of all runs where all that is asked holds. It is not said why nothing is found: each question is then asked alone.
fn found_of<G: Gate>(
    alloc: Global,
    states: u64,
    start: &Start,
    asked: &Question,
    gate: &G,
) -> Option<Findings>
    requires { IsReady start.now.machine }
    ensures { IfSome result (AreFindings asked.now start.now.machine states) }
{
    gate.begun(states);
    match explore::check(alloc, &start.machine, asked, states, &UntoldOfEnd { gate }) {
        Ok(Verdict::Holds(found)) => Some(found),
        _ => None,
    }
}

/// What is found of all runs for the questions of crashes, and of ends behind one, if there are several.
fn found_of_crashes<G: Gate>(
    alloc: Global,
    options: &QuestionOptions<'_>,
    start: &Start,
    questions: &[NamedQuestion],
    gate: &G,
) -> Result<Option<Findings>, AllocError>
    requires { IsReady start.now.machine }
    ensures { IfOk result (λ found. AreOfCrashes options.now start.now questions.now found) }
{
    if !are_several(questions, Place::Crash, Place::Recovery) {
        return Ok(None);
    }
    let asked = crash_question(alloc, !options.before_crash, questions)?;
    Ok(found_of(alloc, options.states, start, &asked, gate))
}

/// The same for those of ends before a crash.
fn found_of_ends<G: Gate>(
    alloc: Global,
    options: &QuestionOptions<'_>,
    start: &Start,
    questions: &[NamedQuestion],
    gate: &G,
) -> Result<Option<Findings>, AllocError>
    requires { IsReady start.now.machine }
    ensures { IfOk result (λ found. AreOfEnds options.now start.now questions.now found) }
{
    if !are_several(questions, Place::End, Place::End) {
        return Ok(None);
    }
    let asked = end_question(alloc, questions)?;
    Ok(found_of(alloc, options.states, start, &asked, gate))
}

impl Together {
    /// What is found where questions are asked together, those of crashes and of ends behind one, and those of ends before a crash: of
    /// each, where there are several.
    ///
    /// # Errors
    ///
    /// Out of memory.
    pub(crate) fn of<G: Gate>(
        alloc: Global,
        options: &QuestionOptions<'_>,
        start: &Start,
        questions: &[NamedQuestion],
        gate: &G,
    ) -> Result<Together, AllocError>
        requires { IsReady start.now.machine }
        ensures { IfOk result (AreTogether options.now start.now questions.now) }
    {
        Ok(Together {
            crashes: found_of_crashes(alloc, options, start, questions, gate)?,
            ends: found_of_ends(alloc, options, start, questions, gate)?,
        })
    }

    /// What is found together for questions of a place.
    pub(crate) fn found_at(&self, place: Place) -> Option<&Findings>
        ensures { option_copied result ≡ found_at place self.now }
    {
        match place {
            Place::Crash | Place::Recovery => self.crashes.as_ref(),
            Place::End => self.ends.as_ref(),
        }
    }
}
