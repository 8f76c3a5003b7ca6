//! The questions of a program are asked, one after another.
ghost use Rattle.std.specs.Prelude.{◌≡◌, ◌++◌, ◌∷◌, [], ℕ, None, Ok, OnOk};
ghost use Rattle.std.specs.Result.{result_map_both};
ghost use Rattle.machine.specs.State.{State};
ghost use Rattle.explore.specs.declared.question.Question.{Question};
ghost use Rattle.explore.specs.Questions.{AreFindings, FailsBy, IsVerdict};
ghost use Rattle.jobs.specs.Questions.{asking_of, broken_answer, crashes_to, held_answer, is_failure, may_crash, question_of, run_options, AreTold, HoldsTogether, IsAskedAt, IsAskedSaid, IsAskedThere, IsFoundOf, IsToldOfLeft, IsToldOne, Tells};
ghost use Rattle.jobs.specs.QuestionReports.{IsFound};
ghost use Rattle.jobs.specs.Starts.{IsReady};

use crate::explained::{Explained, explanation_of};
use crate::form::Answer;
use crate::question_answer::{Answered, QuestionAnswer, QuestionsFound, answers_status};
use crate::question_asked::{left_question, question_of};
use crate::questions_joined::Together;
use crate::start::Start;
use crate::verdict::fault_of;
use commands::{CheckOptions, Fault, QuestionOptions};
use conditions::Cond;
use explore::{ExploreFault, Failure, Findings, Verdict};
use questions::{NamedQuestion, Place};
use std::alloc::{AllocError, Global};
use workers::Gate;

/// Whether runs crash.
fn may_crash(options: &QuestionOptions<'_>) -> bool
    ensures { result ≡ may_crash options.now }
{
    !options.before_crash
}

/// How the run of an answer is shown and explained: as that of a condition of `check`.
pub fn run_options<'a>(options: &QuestionOptions<'_>) -> CheckOptions<'a>
    ensures { result ≡ run_options options.now }
{
    CheckOptions {
        all: None,
        ends: None,
        recovered: None,
        images: false,
        before_crash: options.before_crash,
        states: options.states,
        show: options.show,
        names: false,
        as_steps: false,
        explains_image: options.explains_image,
    }
}

/// Whether there is a state of a place, by what is found of all runs.
fn is_place_there(place: Place, found: &Findings) -> bool
    ensures { (question : Question) (start : State) (limit : ℕ) → AreFindings question start limit found.now
        → Tells result (IsAskedAt place question.crashes None start) }
{
    match place {
        Place::Crash => true,
        Place::End => !found.ends().is_empty(),
        Place::Recovery => !found.recovered().is_empty(),
    }
}

/// Whether some run breaks what is asked.
fn is_failure(verdict: &Verdict) -> bool
    ensures { result ≡ is_failure verdict.now }
{
    match verdict {
        Verdict::Holds(_) => false,
        Verdict::Fails(_) => true,
    }
}

/// Whether the left side of a question is true of some state of its place.
#[tactic(auto, using(crate::proofs::AnswersAreRight::left_told))]
fn is_left_met<G: Gate>(
    alloc: Global,
    options: &QuestionOptions<'_>,
    start: &Start,
    question: &NamedQuestion,
    left: &Cond,
    gate: &G,
) -> Result<bool, ExploreFault>
    requires { IsReady start.now.machine }
    ensures { IsToldOfLeft options.now start.now question.now left.now result }
{
    let asked = left_question(alloc, may_crash(options), left, question)?;
    gate.begun(options.states);
    let verdict = explore::check(alloc, &start.machine, &asked, options.states, gate)?;
    Ok(is_failure(&verdict))
}

/// Whether a question is asked of some state, where this is found of the runs that it is asked of.
#[tactic(auto, using(crate::proofs::AnswersAreRight::asked_by_left, crate::proofs::AnswersAreRight::asked_by_place, crate::proofs::AnswersAreRight::no_side_without_left, crate::proofs::AnswersAreRight::no_side_of_some))]
fn is_asked<G: Gate>(
    alloc: Global,
    options: &QuestionOptions<'_>,
    start: &Start,
    question: &NamedQuestion,
    found: &Findings,
    gate: &G,
) -> Result<bool, ExploreFault>
    requires { IsReady start.now.machine }
    ensures { (asked : Question) (limit : ℕ) → asked.crashes ≡ crashes_to question.now.place (may_crash options.now)
        → AreFindings asked start.now.machine limit found.now → IsAskedSaid options.now start.now question.now result }
{
    match &question.left {
        Some(left) if question.every => { is_left_met(alloc, options, start, question, left, gate) }
        _ => Ok(is_place_there(question.place, found)),
    }
}

/// The answer to a question where what it asks is so everywhere.
fn held_answer(every: bool, is_asked: bool) -> QuestionAnswer
    ensures { result ≡ held_answer every is_asked }
{
    if !is_asked {
        return QuestionAnswer::OfNoState;
    }
    if every {
        QuestionAnswer::Holds
    } else {
        QuestionAnswer::Nowhere
    }
}

/// A question with its answer, where there is no run to explain.
fn plain(alloc: Global, question: NamedQuestion, answer: QuestionAnswer) -> Answered
    ensures question { result.question ≡ question }
    ensures answer { result.answer ≡ answer }
{
    Answered {
        question,
        answer,
        told: Explained {
            crashes: Vec::new(alloc),
            last: None,
        },
    }
}

/// A question where what it asks is so everywhere.
#[tactic(auto, using(crate::proofs::AnswersAreRight::held_is_told, crate::proofs::AnswersAreRight::unsaid))]
fn held<G: Gate>(
    alloc: Global,
    options: &QuestionOptions<'_>,
    start: &Start,
    question: NamedQuestion,
    found: &Findings,
    gate: &G,
) -> Result<Answered, ExploreFault>
    requires { IsReady start.now.machine }
    ensures { IsAskedThere (may_crash options.now) question → IsFoundOf options.now start.now question found.now
        → IsToldOne options.now start.now question result }
{
    let is_asked = is_asked(alloc, options, start, &question, found, gate)?;
    let answer = held_answer(question.every, is_asked);
    Ok(plain(alloc, question, answer))
}

/// The answer to a question where this run leads to a state in which what it asks is not so.
fn broken_answer(every: bool, failure: Failure) -> QuestionAnswer
    ensures { result ≡ broken_answer every failure }
{
    if every {
        QuestionAnswer::Fails(failure)
    } else {
        QuestionAnswer::Found(failure)
    }
}

/// The question that a start asks, where this run breaks it.
#[tactic(auto, using(crate::proofs::AnswersAreRight::broken_is_told, crate::proofs::AnswersAreRight::no_memory))]
fn broken<G: Gate>(
    alloc: Global,
    options: &QuestionOptions<'_>,
    start: &Start,
    question: NamedQuestion,
    failure: Failure,
    gate: &G,
) -> Result<Answered, ExploreFault>
    ensures { start.now.question ≡ question_of (may_crash options.now) question
        → FailsBy failure.asked start.now.question start.now.machine failure.run failure.values → IsToldOne options.now start.now question result }
{
    let told = explanation_of(alloc, &run_options(options), start, &failure, gate)?;
    let answer = broken_answer(question.every, failure);
    Ok(Answered {
        question,
        answer,
        told,
    })
}

/// The question that a start asks with its answer, by the verdict on all runs.
#[tactic(auto, using(crate::proofs::AnswersAreRight::holds_is_told, crate::proofs::AnswersAreRight::fails_is_told))]
fn answer_by<G: Gate>(
    alloc: Global,
    options: &QuestionOptions<'_>,
    start: &Start,
    question: NamedQuestion,
    verdict: Verdict,
    gate: &G,
) -> Result<Answered, ExploreFault>
    requires { IsReady start.now.machine }
    ensures { IsAskedThere (may_crash options.now) question → start.now.question ≡ question_of (may_crash options.now) question
        → IsVerdict start.now.question start.now.machine options.now.states (Ok verdict) → IsToldOne options.now start.now question result }
{
    match verdict {
        Verdict::Holds(found) => held(alloc, options, start, question, &found, gate),
        Verdict::Fails(failure) => broken(alloc, options, start, question, failure, gate),
    }
}

/// A question with its answer. The start then asks something else.
fn answer_one<G: Gate>(
    alloc: Global,
    options: &QuestionOptions<'_>,
    start: &mut Start,
    question: NamedQuestion,
    together: &Together,
    gate: &G,
) -> Result<Answered, ExploreFault>
    requires ready { IsReady start.old.machine }
    requires together { HoldsTogether options.now start.old question together.now }
    ensures kept { start.new ≡ asking_of start.new.question start.old }
    ensures told { IsToldOne options.now start.old question result }
{
    let crashes = may_crash(options);
    if question.place == Place::Recovery && !crashes {
        return Ok(plain(alloc, question, QuestionAnswer::NotAsked));
    }
    if question.every {
        if let Some(found) = together.found_at(question.place) {
            return held(alloc, options, start, question, found, gate);
        }
    }
    start.question = question_of(alloc, crashes, &question)?;
    gate.begun(options.states);
    let verdict = explore::check(alloc, &start.machine, &start.question, options.states, gate)?;
    answer_by(alloc, options, start, question, verdict, gate)
}

/// One more question with its answer.
fn keep(answers: &mut Vec<Answered>, one: Answered) -> Result<(), AllocError>
    ensures { OnOk result (answers.new.items ≡ answers.old.items ++ one ∷ []) }
{
    answers.push(one)?;
    Ok(())
}

/// Questions with their answers, in their order, up to the first that is not told.
fn answer_all<G: Gate>(
    alloc: Global,
    options: &QuestionOptions<'_>,
    start: &mut Start,
    questions: Vec<NamedQuestion>,
    gate: &G,
) -> Result<Vec<Answered>, ExploreFault>
    requires { IsReady start.old.machine }
    ensures kept { start.new ≡ asking_of start.new.question start.old }
    ensures told { AreTold options.now start.old questions.items (result_map_both (λ v. v.items) (λ fault. fault) result) }
{
    let mut answers = Vec::new(alloc);
    let together = Together::of(alloc, options, start, &questions, gate)?;
    for question in questions {
        let one = answer_one(alloc, options, start, question, &together, gate)?;
        keep(&mut answers, one)?;
    }
    Ok(answers)
}

/// The answers to questions, and the status for them. The start then asks something else; the gate is told when each exploration
/// begins, and of its states.
///
/// # Errors
///
/// R1, R2, I1 of the first question that is not told; out of memory, as that of an exploration.
pub fn find_answers<G: Gate>(
    alloc: Global,
    options: &QuestionOptions<'_>,
    start: &mut Start,
    questions: Vec<NamedQuestion>,
    gate: &G,
) -> Result<Answer<QuestionsFound>, Fault>
    requires { IsReady start.old.machine }
    ensures kept { start.new ≡ asking_of start.new.question start.old }
    ensures found { IsFound options.now (record { start = start.old; questions = questions.items }) result }
{
    match answer_all(alloc, options, start, questions, gate) {
        Ok(answers) => {
            let status = answers_status(&answers);
            Ok(Answer {
                found: QuestionsFound { answers },
                status,
            })
        }
        Err(fault) => Err(fault_of(fault)),
    }
}
