//! What a command finds, and the form in which that is reported.
ghost use Rattle.std.specs.Prelude.{◌≡◌, ℕ, IfOk, IsOk, List, Ok};
ghost use Rattle.commands.specs.Works.{Makes, Work, work};
ghost use Rattle.jobs.specs.declared.form.Answer as answers;
ghost use Rattle.jobs.specs.Forms.{command_work, printed};

use commands::{Fault, Report, Stage, Status};
use std::alloc::{AllocError, Global};

/// What a command finds, and the status for it. Its report in any form has this status.
#[derive(Drop)]
pub struct Answer<A> {
    /// What is found.
    pub found: A,
    /// The status for it.
    pub status: Status,
}

/// A form of reports: how it prints what a command finds.
pub trait Form<A> {
    /// The text of what is found.
    ghost says: { Self → A → List ℕ };

    /// What can be printed.
    ghost CanSay: { Self → A → Type 0 };

    /// The report of an answer: the text of what is found, and its status.
    ///
    /// # Errors
    ///
    /// Out of memory.
    fn report(&self, alloc: Global, answer: &Answer<A>) -> Result<Report, AllocError>
        requires { CanSay self.now answer.now.found }
        ensures { IfOk result (λ report. report ≡ printed (says self.now) answer.now) };
}

/// An answer in a form. What is missing for its report is missing at this stage.
#[tactic(auto, unfolding(commands::specs::Works::Makes))]
fn printed<A, F: Form<A>>(
    alloc: Global,
    form: &F,
    stage: Stage,
    answer: &Answer<A>,
) -> Result<Report, Fault>
    requires { F.CanSay form.now answer.now.found }
    ensures { Makes (work stage (Ok (printed (F.says form.now) answer.now))) result }
{
    match form.report(alloc, answer) {
        Ok(report) => Ok(report),
        Err(AllocError) => Err(stage.missing()),
    }
}

/// The report of what a command found, in a form.
///
/// # Errors
///
/// The fault for which nothing was found; out of memory for the report, as that of this stage.
#[tactic(auto, using(commands::proofs::WorksInTurn::turns))]
pub fn print<A: Drop, F: Form<A>>(
    alloc: Global,
    form: &F,
    stage: Stage,
    found: Result<Answer<A>, Fault>,
) -> Result<Report, Fault>
    requires { IfOk found (λ answer. F.CanSay form.now answer.found) }
    ensures report { (find : Work (answers.Answer A)) → Makes find found
        → Makes (command_work find stage (F.says form.now)) result }
    ensures only { IsOk result → IsOk found }
{
    let answer = found?;
    printed(alloc, form, stage, &answer)
}
