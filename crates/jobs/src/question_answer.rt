//! The answer to a question of a program.
ghost use Rattle.std.specs.Prelude.{◌≡◌};
ghost use Rattle.jobs.specs.Questions.{is_good};
ghost use Rattle.std.specs.Prelude.{None, Some, MatchOption};
ghost use Rattle.jobs.specs.QuestionReports.{answers_status, are_good, asked_count, first_bad, is_asked};

use crate::explained::Explained;
use commands::Status;
use explore::Failure;
use questions::NamedQuestion;

/// The answer to a question.
#[derive(Drop)]
pub enum QuestionAnswer {
    /// Of every state: its condition is true of each, and it is asked of some.
    Holds,
    /// Of every state: this run leads to one of which it is not true.
    Fails(Failure),
    /// Of some state: this run leads to one of which it is true.
    Found(Failure),
    /// Of some state: it is true of none, and it is asked of some.
    Nowhere,
    /// It is asked of no state.
    OfNoState,
    /// It is asked of ends after a crash, and runs do not crash.
    NotAsked,
}

impl QuestionAnswer {
    /// Whether it is good: what is asked of every state holds, what is asked of some is found, or it is not asked.
    fn is_good(&self) -> bool
        ensures { result ≡ is_good self.now }
    {
        match self {
            QuestionAnswer::Holds | QuestionAnswer::Found(_) | QuestionAnswer::NotAsked => true,
            QuestionAnswer::Fails(_) | QuestionAnswer::Nowhere | QuestionAnswer::OfNoState => false,
        }
    }

    /// Whether its question is asked.
    fn is_asked(&self) -> bool
        ensures { result ≡ is_asked self.now }
    {
        !matches!(self, QuestionAnswer::NotAsked)
    }
}

/// A question with its answer.
#[derive(Drop)]
pub struct Answered {
    /// The question.
    pub question: NamedQuestion,
    /// The answer to it.
    pub answer: QuestionAnswer,
    /// What explains the run of the answer, where it has one and that is asked for.
    pub told: Explained,
}

/// The answers to the questions of a program.
#[derive(Drop)]
pub struct QuestionsFound {
    /// Each question with its answer, in the order of their lines.
    pub answers: Vec<Answered>,
}

/// Whether all answers are good.
fn are_good(answers: &[Answered]) -> bool
    ensures { result ≡ are_good answers.now }
{
    answers.iter().all(|one| one.answer.is_good())
}

/// How many questions are asked.
pub(crate) fn asked_count(answers: &[Answered]) -> usize
    ensures { result ≡ asked_count answers.now }
{
    answers.iter().filter(|one| one.answer.is_asked()).count()
}

/// The first answer that is not good.
pub(crate) fn first_bad(answers: &[Answered]) -> Option<&Answered>
    ensures { MatchOption result (first_bad answers.now ≡ None) (λ bad. first_bad answers.now ≡ Some bad.now) }
{
    for one in answers {
        if !one.answer.is_good() {
            return Some(one);
        }
    }
    None
}

/// The status for answers: each is to be good, and there is to be one.
pub fn answers_status(answers: &[Answered]) -> Status
    ensures { result ≡ answers_status answers.now }
{
    if !answers.is_empty() && are_good(answers) {
        Status::Done
    } else {
        Status::Unmet
    }
}
