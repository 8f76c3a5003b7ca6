//! The report of the questions of a program, in lines.
ghost use Rattle.std.specs.Prelude.{◌≡◌, ◌++◌, ⊤, IfOk, OnOk, option_copied, string_bytes};
ghost use Rattle.std.specs.List.{flat_map};
ghost use Rattle.commands.specs.OutcomeTexts.{named_texts};
ghost use Rattle.jobs.specs.QuestionReports.{answer_text, answered_text, answers_text, behind_answer, bound_text, bound_texts, file_text, first_bad, found_text, judged_text, pointed_text, run_text, shows_runs, text_for};

use crate::explained::Explained;
use crate::failure::behind_failed;
use crate::form::{Answer, Form};
use crate::question_answer::{Answered, QuestionAnswer, QuestionsFound, asked_count, first_bad};
use crate::questions_asked::run_options;
use crate::start::Start;
use commands::{QuestionOptions, Report, behind, push_number, word_name};
use explore::Failure;
use lines_layout::{Layout, Name, WordId};
use std::alloc::{AllocError, Global};

/// Appends the name of the word at an address, behind `&`, or else a number.
fn push_pointed(
    text: &mut String,
    layout: &Layout,
    value: u64,
    word: Option<WordId>,
) -> Result<(), AllocError>
    ensures { OnOk result (string_bytes text.new ≡ string_bytes text.old ++ pointed_text layout.now value word) }
{
    match word {
        Some(word) => {
            text.push_str("&")?;
            text.push_str(word_name(layout, word))
        }
        None => push_number(text, value),
    }
}

/// Appends a word with its value.
fn push_bound(text: &mut String, layout: &Layout, name: &str, value: u64) -> Result<(), AllocError>
    ensures { OnOk result (string_bytes text.new ≡ string_bytes text.old ++ bound_text layout.now name.now value) }
{
    text.push_str(" ")?;
    text.push_str(name)?;
    text.push_str("=")?;
    push_pointed(text, layout, value, layout.shape().word_at(value))
}

/// Appends words that have these names, each with its value.
fn push_line_bound(
    text: &mut String,
    layout: &Layout,
    names: &[Name],
    values: &[u64],
) -> Result<(), AllocError>
    ensures { OnOk result (string_bytes text.new ≡ string_bytes text.old ++ named_texts (bound_text layout.now) names.now values.now) }
{
    for (place, name) in names.iter().enumerate() {
        let Some(value) = values.get(place) else {
            return Ok(());
        };
        push_bound(text, layout, name.as_str(), *value)?;
    }
    Ok(())
}

/// Appends all words, each with its value.
fn push_all_bound(text: &mut String, layout: &Layout, values: &[u64]) -> Result<(), AllocError>
    ensures { OnOk result (string_bytes text.new ≡ string_bytes text.old ++ bound_texts layout.now values.now) }
{
    let mut rest = values;
    for line in layout.lines() {
        push_line_bound(text, layout, line.names(), rest)?;
        rest = behind(rest, line.names().len());
    }
    Ok(())
}

/// Appends what stands behind the name of a question.
fn push_answer(
    text: &mut String,
    layout: &Layout,
    answer: &QuestionAnswer,
) -> Result<(), AllocError>
    ensures { OnOk result (string_bytes text.new ≡ string_bytes text.old ++ answer_text layout.now answer.now) }
{
    match answer {
        QuestionAnswer::Holds => text.push_str(" holds"),
        QuestionAnswer::Fails(failure) => {
            text.push_str(" fails")?;
            push_all_bound(text, layout, failure.values.values())
        }
        QuestionAnswer::Found(failure) => {
            text.push_str(" found")?;
            push_all_bound(text, layout, failure.values.values())
        }
        QuestionAnswer::Nowhere => text.push_str(" none"),
        QuestionAnswer::OfNoState => text.push_str(" asked of no state"),
        QuestionAnswer::NotAsked => text.push_str(" not asked"),
    }
}

/// Whether it is asked how the run of an answer goes, or why.
fn shows_runs(options: &QuestionOptions<'_>) -> bool
    ensures { result ≡ shows_runs options.now }
{
    options.show || options.explains_image
}

/// Appends how many steps the run of an answer has, its steps, and what explains it, where these are asked for.
fn push_run(
    text: &mut String,
    options: &QuestionOptions<'_>,
    start: &Start,
    failure: &Failure,
    told: &Explained,
) -> Result<(), AllocError>
    ensures { OnOk result (string_bytes text.new ≡ string_bytes text.old ++ run_text options.now start.now failure.now told.now) }
{
    if !shows_runs(options) {
        return Ok(());
    }
    let behind = behind_failed(
        *text.allocator(),
        &run_options(options),
        start,
        failure,
        told,
    )?;
    writeln!(text, "steps {}", failure.run.steps().len())?;
    text.push_str(&behind)
}

/// Appends the same of an answer that has a run.
fn push_behind(
    text: &mut String,
    options: &QuestionOptions<'_>,
    start: &Start,
    told: &Explained,
    answer: &QuestionAnswer,
) -> Result<(), AllocError>
    ensures { OnOk result (string_bytes text.new ≡ string_bytes text.old ++ behind_answer options.now start.now told.now answer.now) }
{
    match answer {
        QuestionAnswer::Fails(failure) | QuestionAnswer::Found(failure) => {
            push_run(text, options, start, failure, told)
        }
        _ => Ok(()),
    }
}

/// Appends the line of a question, and what stands behind it.
fn push_answered(
    report: &mut Vec<u8>,
    options: &QuestionOptions<'_>,
    start: &Start,
    one: &Answered,
) -> Result<(), AllocError>
    ensures { OnOk result (report.new.items ≡ report.old.items ++ answered_text options.now start.now one.now) }
{
    let mut text = String::new(*report.allocator());
    push_answer(&mut text, start.object.layout(), &one.answer)?;
    text.push('\n')?;
    push_behind(&mut text, options, start, &one.told, &one.answer)?;
    report.extend_from_slice(&one.question.name)?;
    report.extend_from_slice(text.as_bytes())
}

/// Appends the same of each.
fn push_all_answered(
    report: &mut Vec<u8>,
    options: &QuestionOptions<'_>,
    start: &Start,
    answers: &[Answered],
) -> Result<(), AllocError>
    ensures { OnOk result (report.new.items ≡ report.old.items ++ flat_map (answered_text options.now start.now) answers.now) }
{
    for one in answers {
        push_answered(report, options, start, one)?;
    }
    Ok(())
}

/// The report: a line for each question with what stands behind it; or that there is none.
fn answers_text(
    alloc: Global,
    options: &QuestionOptions<'_>,
    start: &Start,
    answers: &[Answered],
) -> Result<Vec<u8>, AllocError>
    ensures { IfOk result (λ report. report.items ≡ answers_text options.now start.now answers.now) }
{
    let mut report = Vec::new(alloc);
    if answers.is_empty() {
        report.extend_from_slice(b"nothing asked\n")?;
    } else {
        push_all_answered(&mut report, options, start, answers)?;
    }
    Ok(report)
}

/// Appends how many questions are asked, where all answers are good; else the first question whose answer is not, alone.
fn push_judged(
    report: &mut Vec<u8>,
    options: &QuestionOptions<'_>,
    start: &Start,
    answers: &[Answered],
) -> Result<(), AllocError>
    ensures { OnOk result (report.new.items ≡ report.old.items ++ judged_text options.now start.now answers.now (first_bad answers.now)) }
{
    match first_bad(answers) {
        Some(bad) => push_answered(report, options, start, bad),
        None => {
            let text = format!(in *report.allocator(); "{} hold\n", asked_count(answers))?;
            report.extend_from_slice(text.as_bytes())
        }
    }
}

/// The report where the file is one of several: its name, and whether all answers are good; or that it asks nothing.
fn file_text(
    alloc: Global,
    file: &str,
    options: &QuestionOptions<'_>,
    start: &Start,
    answers: &[Answered],
) -> Result<Vec<u8>, AllocError>
    ensures { IfOk result (λ report. report.items ≡ file_text file.now options.now start.now answers.now) }
{
    let mut report = Vec::new(alloc);
    report.extend_from_slice(file.as_bytes())?;
    report.extend_from_slice(b": ")?;
    if answers.is_empty() {
        report.extend_from_slice(b"nothing asked\n")?;
    } else {
        push_judged(&mut report, options, start, answers)?;
    }
    Ok(report)
}

/// The report of answers: in short, where their file is one of several.
fn text_for(
    alloc: Global,
    file: Option<&str>,
    options: &QuestionOptions<'_>,
    start: &Start,
    answers: &[Answered],
) -> Result<Vec<u8>, AllocError>
    ensures { IfOk result (λ report. report.items ≡ text_for (option_copied file.entry) options.now start.now answers.now) }
{
    match file {
        None => answers_text(alloc, options, start, answers),
        Some(file) => file_text(alloc, file, options, start, answers),
    }
}

/// Lines, as a person reads them.
#[derive(Drop)]
pub(crate) struct QuestionLines<'a> {
    /// The name of the program's file, where it is one of several.
    pub(crate) file: Option<&'a str>,
    /// How runs are shown.
    pub(crate) options: &'a QuestionOptions<'a>,
    /// What the questions are asked of.
    pub(crate) start: &'a Start,
}

impl<'a> Form<QuestionsFound> for QuestionLines<'a> {
    ghost says = { λ form. found_text (option_copied form.file) form.options.now form.start.now };

    ghost CanSay = { λ form found. ⊤ };

    fn report(&self, alloc: Global, answer: &Answer<QuestionsFound>) -> Result<Report, AllocError> {
        let answers = &answer.found.answers;
        Ok(Report {
            text: text_for(alloc, self.file, self.options, self.start, answers)?,
            status: answer.status,
        })
    }
}
