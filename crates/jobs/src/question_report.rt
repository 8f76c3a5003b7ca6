//! The report of `check` where it asks the questions of a program.
ghost use Rattle.std.specs.Prelude.{IfOk, Ok, option_copied};
ghost use Rattle.commands.specs.Serving.{MakesReport};
ghost use Rattle.jobs.specs.Starts.{IsReady};
ghost use Rattle.jobs.specs.QuestionReports.{ask_command, found_text, IsPrinted, IsReported};

use crate::asking::{Asking, asking_start};
use crate::form::{Answer, Form};
use crate::question_answer::QuestionsFound;
use crate::question_lines::QuestionLines;
use crate::questions_asked::find_answers;
use crate::start::Start;
use commands::{Fault, QuestionOptions, Report, Sources, Stage};
use questions::NamedQuestion;
use std::alloc::{AllocError, Global};
use workers::Gate;

/// The report of answers, in a form.
///
/// # Errors
///
/// The fault for which there are none; out of memory for the report, as that of an exploration.
pub fn print_found<F: Form<QuestionsFound>>(
    alloc: Global,
    form: &F,
    found: Result<Answer<QuestionsFound>, Fault>,
) -> Result<Report, Fault>
    requires { IfOk found (λ answer. F.CanSay form.now answer.found) }
    ensures { IsPrinted (F.says form.now) found result }
{
    let answer = found?;
    match form.report(alloc, &answer) {
        Ok(report) => Ok(report),
        Err(AllocError) => Err(Stage::Exploration.missing()),
    }
}

/// The report of these questions, asked of all runs from a start. The start then asks something else.
fn answers_report<G: Gate>(
    alloc: Global,
    file: Option<&str>,
    options: &QuestionOptions<'_>,
    start: &mut Start,
    questions: Vec<NamedQuestion>,
    gate: &G,
) -> Result<Report, Fault>
    requires { IsReady start.old.machine }
    ensures { IsReported (found_text (option_copied file.entry) options.now) options.now (record { start = start.old; questions = questions.items }) result }
{
    let found = find_answers(alloc, options, start, questions, gate);
    let form = QuestionLines {
        file,
        options,
        start,
    };
    print_found(alloc, &form, found)
}

/// The report of the questions of a program.
#[tactic(auto, unfolding(crate::specs::QuestionReports::ask_command))]
pub(crate) fn report_questions<G: Gate>(
    alloc: Global,
    file: Option<&str>,
    options: &QuestionOptions<'_>,
    sources: &Sources,
    gate: &G,
) -> Result<Report, Fault>
    ensures { MakesReport (ask_command (option_copied file.entry) options.now) (Ok sources.now) result }
{
    let Asking {
        mut start,
        questions,
    } = asking_start(alloc, options, &sources.program, &sources.steps)?;
    let report = answers_report(alloc, file, options, &mut start, questions, gate);
    drop(start);
    report
}
