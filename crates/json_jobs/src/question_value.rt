//! The report of the questions of a program as JSON.
ghost use Rattle.std.specs.Prelude.{◌≡◌, ⊤, IfOk, Ok, option_copied};
ghost use Rattle.commands.specs.Serving.{MakesReport};
ghost use Rattle.jobs.specs.QuestionReports.{IsReported};
ghost use Rattle.jobs.specs.Starts.{IsReady};
ghost use Rattle.std.specs.Str.Lossy.{utf8_lossy};
ghost use Rattle.json_texts.specs.Objects.{word, IsJsonOf};
ghost use Rattle.json_jobs.specs.QuestionData.{all_answered, answer_name, answered_data, ask_command, explained_of, found_data, found_json, is_done, lines_of, place_name, steps_of, values_of};

use crate::check_report::{explained_or_null, run_lines};
use commands::{Fault, QuestionOptions, Report, Sources, Status};
use jobs::{
    Answer, Answered, Asking, Form, QuestionAnswer, QuestionsFound, Start, answers_status,
    asking_start, find_answers, print_found, run_options,
};
use json_texts::{FORMAT, names_value, numbers_value, steps_value, value_report};
use questions::{NamedQuestion, Place};
use serde_json::{Value, json, push};
use std::alloc::{AllocError, Global};
use workers::Gate;

/// Where a question is asked.
fn place_name(place: Place) -> &'static str
    ensures { result.now ≡ place_name place }
{
    match place {
        Place::Crash => "crash",
        Place::End => "end",
        Place::Recovery => "recovery",
    }
}

/// What the answer is.
fn answer_name(answer: &QuestionAnswer) -> &'static str
    ensures { result.now ≡ answer_name answer.now }
{
    match answer {
        QuestionAnswer::Holds => "holds",
        QuestionAnswer::Fails(_) => "fails",
        QuestionAnswer::Found(_) => "found",
        QuestionAnswer::Nowhere => "none",
        QuestionAnswer::OfNoState => "asked of no state",
        QuestionAnswer::NotAsked => "not asked",
    }
}

/// The values of the words, where the answer has a run.
fn values_of(alloc: Global, answer: &QuestionAnswer) -> Result<Value, AllocError>
    ensures { IfOk result (IsJsonOf (values_of answer.now)) }
{
    match answer {
        QuestionAnswer::Fails(failure) | QuestionAnswer::Found(failure) => {
            numbers_value(alloc, failure.values.values())
        }
        _ => Ok(Value::Null),
    }
}

/// The steps of its run.
fn steps_of(alloc: Global, answer: &QuestionAnswer) -> Result<Value, AllocError>
    ensures { IfOk result (IsJsonOf (steps_of answer.now)) }
{
    match answer {
        QuestionAnswer::Fails(failure) | QuestionAnswer::Found(failure) => {
            steps_value(alloc, failure.run.steps())
        }
        _ => Ok(Value::Null),
    }
}

/// The lines of the instructions that these execute.
fn lines_of(alloc: Global, start: &Start, answer: &QuestionAnswer) -> Result<Value, AllocError>
    ensures { IfOk result (IsJsonOf (lines_of start.now answer.now)) }
{
    match answer {
        QuestionAnswer::Fails(failure) | QuestionAnswer::Found(failure) => {
            run_lines(alloc, start, failure)
        }
        _ => Ok(Value::Null),
    }
}

/// What explains its run, where that is asked for.
fn explained_of(
    alloc: Global,
    options: &QuestionOptions<'_>,
    start: &Start,
    one: &Answered,
) -> Result<Value, AllocError>
    ensures { IfOk result (IsJsonOf (explained_of options.now start.now one.now.told one.now.answer)) }
{
    match &one.answer {
        QuestionAnswer::Fails(failure) | QuestionAnswer::Found(failure) => {
            explained_or_null(alloc, &run_options(options), start, failure, &one.told)
        }
        _ => Ok(Value::Null),
    }
}

/// The name of a question, as a text.
fn name_value(alloc: Global, name: &[u8]) -> Result<Value, AllocError>
    ensures { IfOk result (IsJsonOf (word (utf8_lossy name.now))) }
{
    let name = String::from_utf8_lossy(alloc, name)?;
    Value::try_from_str(alloc, name.as_str())
}

/// A question with its answer.
fn answered_value(
    alloc: Global,
    options: &QuestionOptions<'_>,
    start: &Start,
    one: &Answered,
) -> Result<Value, AllocError>
    ensures { IfOk result (IsJsonOf (answered_data options.now start.now one.now)) }
{
    let every = one.question.every;
    let place = place_name(one.question.place);
    let answer = answer_name(&one.answer);
    let name = name_value(alloc, &one.question.name)?;
    let values = values_of(alloc, &one.answer)?;
    let steps = steps_of(alloc, &one.answer)?;
    let lines = lines_of(alloc, start, &one.answer)?;
    let explained = explained_of(alloc, options, start, one)?;
    json!(in alloc; {
        "name": name, "every": every, "place": place, "answer": answer,
        "values": values, "steps": steps, "lines": lines, "explained": explained
    })
}

/// All questions with their answers, in order.
#[tactic(auto, using(json_texts::proofs::Items::list_steps))]
fn all_answered(
    alloc: Global,
    options: &QuestionOptions<'_>,
    start: &Start,
    answers: &[Answered],
) -> Result<Value, AllocError>
    ensures { IfOk result (IsJsonOf (all_answered options.now start.now answers.now)) }
{
    let mut items = Vec::new(alloc);
    for one in answers {
        push(&mut items, answered_value(alloc, options, start, one)?)?;
    }
    Ok(Value::from(items))
}

/// Whether the questions are answered as is wished.
fn is_done(status: Status) -> bool
    ensures { result ≡ is_done status }
{
    match status {
        Status::Done => true,
        Status::Unmet | Status::Refused => false,
    }
}

/// What is found.
fn found_value(
    alloc: Global,
    file: Option<&str>,
    options: &QuestionOptions<'_>,
    start: &Start,
    found: &QuestionsFound,
) -> Result<Value, AllocError>
    ensures { IfOk result (IsJsonOf (found_data (option_copied file.entry) options.now start.now found.now)) }
{
    let holds = is_done(answers_status(&found.answers));
    let words = names_value(alloc, start.object.layout())?;
    let questions = all_answered(alloc, options, start, &found.answers)?;
    match file {
        None => json!(in alloc; {
            "format": FORMAT, "command": "check", "holds": holds, "words": words,
            "questions": questions
        }),
        Some(file) => json!(in alloc; {
            "format": FORMAT, "command": "check", "file": file, "holds": holds, "words": words,
            "questions": questions
        }),
    }
}

/// JSON, as a program reads it.
#[derive(Drop)]
struct QuestionJson<'a> {
    /// The name of the program's file, where it is one of several.
    file: Option<&'a str>,
    /// How runs are explained.
    options: &'a QuestionOptions<'a>,
    /// What the questions are asked of.
    start: &'a Start,
}

impl<'a> Form<QuestionsFound> for QuestionJson<'a> {
    ghost says = { λ form. found_json (option_copied form.file) form.options.now form.start.now };

    ghost CanSay = { λ form found. ⊤ };

    fn report(&self, alloc: Global, answer: &Answer<QuestionsFound>) -> Result<Report, AllocError> {
        let value = found_value(alloc, self.file, self.options, self.start, &answer.found)?;
        value_report(alloc, &value, answer.status)
    }
}

/// The report of these questions, asked of all runs from a start. The start then asks something else.
fn answers_report<G: Gate>(
    alloc: Global,
    file: Option<&str>,
    options: &QuestionOptions<'_>,
    start: &mut Start,
    questions: Vec<NamedQuestion>,
    gate: &G,
) -> Result<Report, Fault>
    requires { IsReady start.old.machine }
    ensures { IsReported (found_json (option_copied file.entry) options.now) options.now (record { start = start.old; questions = questions.items }) result }
{
    let found = find_answers(alloc, options, start, questions, gate);
    let form = QuestionJson {
        file,
        options,
        start,
    };
    print_found(alloc, &form, found)
}

/// The report of the questions of a program.
#[tactic(auto, unfolding(crate::specs::QuestionData::ask_command))]
pub(crate) fn report_questions<G: Gate>(
    alloc: Global,
    file: Option<&str>,
    options: &QuestionOptions<'_>,
    sources: &Sources,
    gate: &G,
) -> Result<Report, Fault>
    ensures { MakesReport (ask_command (option_copied file.entry) options.now) (Ok sources.now) result }
{
    let Asking {
        mut start,
        questions,
    } = asking_start(alloc, options, &sources.program, &sources.steps)?;
    let report = answers_report(alloc, file, options, &mut start, questions, gate);
    drop(start);
    report
}
