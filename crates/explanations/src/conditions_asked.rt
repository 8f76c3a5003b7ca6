//! Faults of what the command line asks: of a condition, which one has it and where; of the values of `--set`. And conditions that
//! ask of a processor that is not there.
ghost use Rattle.std.specs.Prelude.{◌≡◌, IfOk};
ghost use Rattle.explanations.specs.Questions.{asked_of_runs, condition_at_ends, condition_demanded, condition_of_schedules, faulty_of, faulty_or, given, is_faulty, is_misasked, questions_of};

use crate::evidence::Evidence;
use crate::hints::{OF_A_CONDITION, hint_of};
use crate::marks::push_pointed;
use crate::parts::{Pushed, again, bytes_at, push_hint, push_sentence};
use crate::sentences::refused_sentence;
use crate::slips::condition_meant;
use crate::spots::Spot;
use commands::{AskedRuns, Demand, EndsOptions, Job, Refused, ScheduleJob, Task, read_program};
use conditions::{CondFault, TokenFault, read_cond};
use line_forms::{Place, condition_or_end, statement_or_end};
use lines_layout::Layout;
use outcomes::OrNoMemory;
use questions::Questioned;
use std::alloc::{AllocError, Global};
use std::marker::Model;
use text_tokens::{Tokens, small_number};

/// A condition of a command line: the option that has it, and its text.
#[derive(Drop)]
struct Question<'a> {
    option: &'static str,
    text: &'a str,
}

impl<'a> Model for Question<'a> {
    ghost use Rattle.std.specs.Prelude.{ℕ, List};

    ghost Value = { List ℕ × List ℕ };

    ghost view = { λ question. (question.option.now, question.text.now) };
}

/// The condition of an option.
fn of_option<'a>(option: &'static str, text: &'a str) -> Question<'a>
    ensures { result ≡ (option.now, text.now) }
{
    Question { option, text }
}

/// The condition of an option, where it is given.
fn given<'a>(option: &'static str, text: Option<&'a str>) -> Option<Question<'a>>
    ensures { result ≡ given option.now text.entry }
{
    match text {
        Some(text) => Some(of_option(option, text)),
        None => None,
    }
}

/// What a schedule that is looked for breaks.
fn condition_demanded<'a>(demand: Demand<'a>) -> Question<'a>
    ensures { result ≡ condition_demanded demand.entry }
{
    match demand {
        Demand::Cond(text) => of_option("--cond", text),
        Demand::Ends(text) => of_option("--ends", text),
        Demand::Recovered(text) => of_option("--recovered", text),
        Demand::All(text) => of_option("--all", text),
    }
}

/// What is to hold at the ends to which schedules come.
fn condition_at_ends<'a>(options: EndsOptions<'a>) -> Question<'a>
    ensures { result ≡ condition_at_ends options.entry }
{
    if options.recovered {
        of_option("--recovered", options.cond)
    } else {
        of_option("--ends", options.cond)
    }
}

/// The condition of schedules.
fn condition_of_schedules<'a>(job: ScheduleJob<'a>) -> Option<Question<'a>>
    ensures { result ≡ condition_of_schedules job.entry }
{
    match job {
        ScheduleJob::Tally(_) => None,
        ScheduleJob::Losses(options) => Some(of_option("--all", options.all)),
        ScheduleJob::Ends(options) => Some(condition_at_ends(options)),
        ScheduleJob::Hunt(options) => Some(condition_demanded(options.demand)),
    }
}

/// The conditions that `fences` and `mend` ask of all runs.
fn asked_of_runs<'a>(
    asked: AskedRuns<'a>,
) -> (
    Option<Question<'a>>,
    Option<Question<'a>>,
    Option<Question<'a>>,
)
    ensures { result ≡ asked_of_runs asked.entry }
{
    let all = given("--all", asked.all);
    let ends = given("--ends", asked.ends);
    (all, ends, given("--recovered", asked.recovered))
}

/// The conditions of a command, in the order in which they are read.
fn questions_of<'a>(
    asked: Task<'a>,
) -> (
    Option<Question<'a>>,
    Option<Question<'a>>,
    Option<Question<'a>>,
)
    ensures { result ≡ questions_of asked.entry }
{
    match asked {
        Task::Do(Job::Images(options)) => {
            let all = given("--all", options.all);
            (all, given("--some", options.some), None)
        }
        Task::Schedules(job) => (condition_of_schedules(job), None, None),
        Task::Check(options) => {
            let all = given("--all", options.all);
            let ends = given("--ends", options.ends);
            (all, ends, given("--recovered", options.recovered))
        }
        Task::Fences(options) => asked_of_runs(options.asked),
        Task::Mend(options) => asked_of_runs(options.asked),
        _ => (None, None, None),
    }
}

/// Whether a text is no condition on the words of a layout.
///
/// # Errors
///
/// Out of memory.
pub(crate) fn is_faulty(alloc: Global, layout: &Layout, text: &[u8]) -> Result<bool, AllocError>
    ensures { IfOk result (λ faulty. faulty ≡ is_faulty layout.now text.now) }
{
    match read_cond(alloc, layout, text) {
        Ok(_) => Ok(false),
        Err(OrNoMemory::Fault(_)) => Ok(true),
        Err(OrNoMemory::NoMemory) => Err(AllocError),
    }
}

/// Whether a text is no condition of a program.
///
/// # Errors
///
/// Out of memory.
fn is_misasked(alloc: Global, program: &Questioned, text: &[u8]) -> Result<bool, AllocError>
    ensures { IfOk result (λ faulty. faulty ≡ is_misasked program.now text.now) }
{
    match program.read_condition(alloc, text) {
        Ok(_) => Ok(false),
        Err(OrNoMemory::Fault(_)) => Ok(true),
        Err(OrNoMemory::NoMemory) => Err(AllocError),
    }
}

/// A condition, if it has a fault, otherwise another.
fn faulty_or<'a>(
    alloc: Global,
    program: &Questioned,
    question: Option<Question<'a>>,
    other: Option<Question<'a>>,
) -> Result<Option<Question<'a>>, AllocError>
    ensures { IfOk result (λ found. found ≡ faulty_or program.now question.entry other.entry) }
{
    let Some(question) = question else {
        return Ok(other);
    };
    if is_misasked(alloc, program, question.text.as_bytes())? {
        Ok(Some(question))
    } else {
        Ok(other)
    }
}

/// The condition with the fault, where one of a command's conditions has one: the first that is faulty.
fn faulty_question<'a>(
    alloc: Global,
    program: &Questioned,
    asked: Task<'a>,
) -> Result<Option<Question<'a>>, AllocError>
    ensures { IfOk result (λ found. found ≡ faulty_of program.now asked.entry) }
{
    let (first, second, third) = questions_of(asked);
    let later = faulty_or(alloc, program, second, third)?;
    faulty_or(alloc, program, first, later)
}

/// Appends what there is to say of the token of this index, from 0, of a condition.
pub(crate) fn push_token_sentence(
    text: &mut String,
    layout: &Layout,
    condition: &[u8],
    index: usize,
    sentence: &str,
) -> Pushed {
    let spot = Spot::in_condition(layout, condition, index);
    let hint = hint_of(&OF_A_CONDITION, &spot);
    match condition_meant(spot.token, spot.before, layout) {
        Some((meant, word)) if hint.is_empty() => push_hint(text, sentence, meant, word),
        _ => push_sentence(text, sentence, hint),
    }
}

/// One sentence on a token of a condition of a sheet, where that of a litmus text would not be true of it; else nothing.
fn hint_of_sheet(kind: TokenFault) -> &'static str {
    match kind {
        TokenFault::BadCond =>
            "this token may not be here, or one is missing. A condition of a sheet is written as one of its questions, and may name these and what a `let` names.",
        TokenFault::UnknownName =>
            "the sheet gives no word, constant or question this name, and no `let` does; or it has no processor of this number.",
    }
}

/// Where the token of this index, from 0, of a condition is.
fn place_in(program: &Questioned, condition: &[u8], index: usize) -> Place {
    if program.scope.is_some() {
        statement_or_end(condition, index)
    } else {
        condition_or_end(condition, index)
    }
}

/// Appends what there is to say of a token of a condition of a sheet.
fn push_sheet_sentence(
    text: &mut String,
    layout: &Layout,
    token: &[u8],
    kind: TokenFault,
    sentence: &str,
) -> Pushed {
    match condition_meant(token, b"persisted", layout) {
        Some((meant, word)) if matches!(kind, TokenFault::UnknownName) => {
            push_hint(text, sentence, meant, word)
        }
        _ => push_sentence(text, sentence, hint_of_sheet(kind)),
    }
}

/// Appends a condition after its option, with marks under the token of its fault, and what there is to say of it.
fn push_question(
    text: &mut String,
    program: &Questioned,
    question: &Question<'_>,
    fault: CondFault,
    sentence: &str,
) -> Pushed {
    let CondFault::At(kind, index) = fault;
    let layout = program.lined.object.layout();
    let line = question.text.as_bytes();
    let place = place_in(program, line, index);
    text.push_str(question.option)?;
    push_pointed(text, question.option.len(), line, place)?;
    text.push_str("\n")?;
    if program.scope.is_some() {
        push_sheet_sentence(text, layout, bytes_at(line, place), kind, sentence)
    } else {
        push_token_sentence(text, layout, line, index, sentence)
    }
}

/// Appends the lines for a fault of a condition of the command line.
pub(crate) fn push_condition_fault(
    text: &mut String,
    program: &Questioned,
    asked: Task<'_>,
    fault: CondFault,
    sentence: &str,
) -> Pushed {
    match faulty_question(*text.allocator(), program, asked)? {
        Some(question) => push_question(text, program, &question, fault, sentence),
        None => push_sentence(text, sentence, ""),
    }
}

/// Appends the names of all words, in order.
fn push_words(text: &mut String, layout: &Layout) -> Pushed {
    text.push_str("The words of the program, in order:")?;
    for line in layout.lines() {
        for name in line.names() {
            text.push_str(" ")?;
            text.push_str(name.as_str())?;
        }
    }
    text.push_str("\n")
}

/// Appends the lines for values of `--set` that are not those of an image.
pub(crate) fn push_set_fault(text: &mut String, layout: &Layout) -> Pushed {
    push_words(text, layout)?;
    push_sentence(text, refused_sentence(Refused::Usage), "")
}

/// The first processor of which a condition tests a register, and which is none of so many.
fn lacked(condition: &str, processors: usize) -> Option<u32> {
    let mut is_asked = false;
    for token in Tokens::new(condition.as_bytes()) {
        match small_number(token) {
            Some(number) if is_asked && processors <= number as usize => return Some(number),
            _ => {}
        }
        is_asked = token.ends_with(b"reg");
    }
    None
}

/// Appends that a condition tests a register of a processor which is none of so many, where it does.
fn push_lacked(text: &mut String, question: Option<Question<'_>>, processors: usize) -> Pushed {
    let Some(question) = question else {
        return Ok(());
    };
    match lacked(question.text, processors) {
        Some(number) => writeln!(
            text,
            "{} tests a register of processor {number}, which the program does not have: such a test is always false.",
            question.option
        ),
        None => Ok(()),
    }
}

/// The same of each condition of a command on a program of so many processors.
fn push_each_lacked(text: &mut String, asked: Task<'_>, processors: usize) -> Pushed {
    let (first, second, third) = questions_of(asked);
    push_lacked(text, first, processors)?;
    push_lacked(text, second, processors)?;
    push_lacked(text, third, processors)
}

/// The lines after a report: which condition of the command asks of a processor that the program does not have.
///
/// # Errors
///
/// Out of memory.
pub fn explain_answer(alloc: Global, evidence: &Evidence<'_>) -> Result<String, AllocError> {
    let mut text = String::new(alloc);
    if let Some(object) = again(read_program(alloc, evidence.program))? {
        push_each_lacked(&mut text, evidence.asked, object.processors().len())?;
    }
    Ok(text)
}
