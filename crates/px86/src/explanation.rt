//! What is said of a fault, or of a refused step, where `--explain` is given.
ghost use Rattle.std.specs.Prelude.{IfNone};
ghost use Rattle.px86.specs.Starts.{reads_input};

use crate::outside::Outside;
use crate::request::{Form, Input, Request};
use commands::{Device, Fault, Refused, Status};
use explanations::{Evidence, Explanation, Further, Position, sentence};
use json_texts::{Fields, put_number, put_text};
use litmus_text::{LineFault, TextFault};
use serde_json::{Value, put};
use std::alloc::{AllocError, Global};

/// What is said, as JSON, of words that are not understood.
const MISREAD: &str =
    "usage: the command line is not understood. `px86 --help` says what it may be.";

/// A text, or nothing where it is empty.
fn text_or_null(alloc: Global, text: &str) -> Result<Value, AllocError> {
    if text.is_empty() {
        Ok(Value::Null)
    } else {
        Value::try_from_str(alloc, text)
    }
}

/// The fields of an object: the name of the file, where it is one of several.
fn named_fields(alloc: Global, named: Option<&str>) -> Result<Fields, AllocError> {
    let mut fields = Fields::new(alloc);
    if let Some(file) = named {
        put_text(&mut fields, alloc, "file", file)?;
    }
    Ok(fields)
}

/// The lines of an explanation, where one is asked for.
fn lines_of(told: Option<&Explanation>) -> &str {
    match told {
        Some(told) => told.text.as_str(),
        None => "",
    }
}

/// Puts into an object where the fault of a text is, in numbers, and what to do.
fn put_position(
    fault: &mut Fields,
    alloc: Global,
    at: Position,
    hint: &str,
) -> Result<(), AllocError> {
    put_number(fault, alloc, "line", at.line as u64)?;
    put_number(fault, alloc, "column", at.column as u64)?;
    put_number(fault, alloc, "length", at.length as u64)?;
    put_text(fault, alloc, "hint", hint)
}

/// The object of a fault behind the first of a text.
fn further_object(alloc: Global, one: &Further) -> Result<Value, AllocError> {
    let line = format!(in alloc; "{}", one.kind)?;
    let (number, name) = line.as_str().split_once(' ').unwrap_or((line.as_str(), ""));
    let mut fields = Fields::new(alloc);
    put_text(&mut fields, alloc, "number", number)?;
    put_text(&mut fields, alloc, "name", name)?;
    put_position(&mut fields, alloc, one.position, one.hint.as_str())?;
    Ok(Value::from(fields))
}

/// Puts into an object the faults of a text behind its first, where there are some.
fn put_further(fault: &mut Fields, alloc: Global, further: &[Further]) -> Result<(), AllocError> {
    if further.is_empty() {
        return Ok(());
    }
    let mut objects = Vec::new(alloc);
    for one in further {
        objects.push(further_object(alloc, one)?)?;
    }
    put(fault, alloc, "further", Value::from(objects))
}

/// The fields of what explains a fault. It is no text where none is asked for.
fn explained_fields(alloc: Global, told: Option<&Explanation>) -> Result<Fields, AllocError> {
    let mut fault = Fields::new(alloc);
    let lines = text_or_null(alloc, lines_of(told))?;
    put(&mut fault, alloc, "explanation", lines)?;
    if let Some(told) = told {
        if let Some(at) = told.position {
            put_position(&mut fault, alloc, at, told.hint())?;
        }
        put_further(&mut fault, alloc, &told.further)?;
    }
    Ok(fault)
}

/// The object of a fault whose line has this number, this name and this place.
fn fault_value(
    alloc: Global,
    named: Option<&str>,
    number: &str,
    name: &str,
    place: &str,
    sentence: &str,
    told: Option<&Explanation>,
) -> Result<Value, AllocError> {
    let mut fault = explained_fields(alloc, told)?;
    put_text(&mut fault, alloc, "number", number)?;
    put(&mut fault, alloc, "name", text_or_null(alloc, name)?)?;
    put(&mut fault, alloc, "place", text_or_null(alloc, place)?)?;
    put_text(&mut fault, alloc, "sentence", sentence)?;
    let mut fields = named_fields(alloc, named)?;
    put(&mut fields, alloc, "fault", Value::from(fault))?;
    Ok(Value::from(fields))
}

/// The object of a fault, as a line: the line that is written without `--json`, taken apart, its sentence, and what explains it.
fn fault_object(
    alloc: Global,
    named: Option<&str>,
    line: &str,
    sentence: &str,
    told: Option<&Explanation>,
) -> Result<String, AllocError> {
    let (number, rest) = line.split_once(' ').unwrap_or((line, ""));
    let (name, place) = rest.split_once(' ').unwrap_or((rest, ""));
    fault_value(alloc, named, number, name, place, sentence, told)?.to_string(alloc)
}

/// The object of a fault, with its sentence and what explains it.
fn object_of(
    alloc: Global,
    named: Option<&str>,
    fault: Fault,
    told: Option<&Explanation>,
) -> Result<String, AllocError> {
    let line = format!(in alloc; "{fault}")?;
    fault_object(alloc, named, line.as_str(), sentence(fault), told)
}

/// The object of what is said of a report that was written.
fn explanation_object(
    alloc: Global,
    named: Option<&str>,
    explanation: &str,
) -> Result<String, AllocError> {
    let mut fields = named_fields(alloc, named)?;
    put_text(&mut fields, alloc, "explanation", explanation)?;
    Value::from(fields).to_string(alloc)
}

/// Writes an object on standard error; where there was no memory for it, the line that is written without `--json`.
fn print_object<R: Eprint>(rt: &R, object: Result<String, AllocError>, fault: Fault) {
    let _ = match object {
        Ok(object) => eprintln!(rt; "{object}"),
        Err(AllocError) => eprintln!(rt; "px86: {fault}"),
    };
}

/// Writes the object of an answer on standard error: of a fault, or of what is said of a report.
fn print_answer<R: Eprint>(
    rt: &R,
    alloc: Global,
    named: Option<&str>,
    answer: Result<Status, Fault>,
    told: Option<&Explanation>,
) {
    let lines = lines_of(told);
    match answer {
        Err(fault) => print_object(rt, object_of(alloc, named, fault, told), fault),
        Ok(_) if lines.is_empty() => {}
        Ok(_) => {
            if let Ok(object) = explanation_object(alloc, named, lines) {
                let _ = eprintln!(rt; "{object}");
            }
        }
    }
}

/// Writes on standard error what an answer says beside its report: the line of a fault and what explains it, or one object. It has
/// the name of the file, where that is one of several.
pub(crate) fn report_answer<R: Eprint>(
    rt: &R,
    alloc: Global,
    form: Form,
    named: Option<&str>,
    answer: Result<Status, Fault>,
    told: Option<&Explanation>,
) {
    let explanation = lines_of(told);
    match (form, answer) {
        (Form::Json, _) => print_answer(rt, alloc, named, answer, told),
        (Form::Lines | Form::Gcc, Err(fault)) => {
            let _ = match named {
                Some(file) => eprint!(rt; "px86: {file}: {fault}\n{explanation}"),
                None => eprint!(rt; "px86: {fault}\n{explanation}"),
            };
        }
        (Form::Lines | Form::Gcc, Ok(_)) => {
            let _ = eprint!(rt; "{explanation}");
        }
    }
}

/// Writes on standard error the line of a fault of a file, with its place, as compilers do.
fn print_place<R: Eprint>(rt: &R, file: &str, kind: LineFault, at: Position, hint: &str) {
    let _ = eprintln!(rt; "{file}:{}:{}: error: {kind}: {hint}", at.line, at.column);
}

/// Writes on standard error a line for each fault of the text of a file, with its place, as compilers do, where the fault is one of
/// the text. Whether it is.
pub(crate) fn report_places<R: Eprint>(
    rt: &R,
    file: &str,
    answer: Result<Status, Fault>,
    told: &Explanation,
) -> bool {
    let Err(Fault::Refused(Refused::Text(TextFault::At(kind, _)))) = answer else {
        return false;
    };
    let Some(at) = told.position else {
        return false;
    };
    print_place(rt, file, kind, at, told.hint());
    for one in &told.further {
        print_place(rt, file, one.kind, one.position, one.hint.as_str());
    }
    true
}

/// Writes on standard error that the words are not understood.
pub(crate) fn report_usage<R: Eprint>(rt: &R, alloc: Global, form: Form) {
    let usage = Fault::Refused(Refused::Usage);
    match form {
        Form::Lines | Form::Gcc => {
            let _ = eprintln!(rt; "px86: {usage}");
        }
        Form::Json => print_object(rt, fault_object(alloc, None, "usage", MISREAD, None), usage),
    }
}

/// Appends why a file cannot be opened or read, where it cannot now, for a command that reads the standard input, or does
/// not. Whether it cannot.
fn push_trouble<O: Outside>(
    text: &mut String,
    outside: &O,
    name: &str,
    reads_input: bool,
) -> Result<bool, AllocError>
    requires streams { (O.world outside.now).HasStreams reads_input }
{
    let Some(error) = outside.trouble(name, reads_input) else {
        return Ok(false);
    };
    writeln!(text, "{name}: {error}")?;
    Ok(true)
}

/// Appends which of FILE and the steps cannot be read.
fn push_unread<O: Outside>(
    text: &mut String,
    outside: &O,
    request: &Request<'_>,
) -> Result<(), AllocError>
    requires streams { (O.world outside.now).HasStreams (reads_input request.now) }
{
    let reads_input = request.input.reads_standard();
    if push_trouble(text, outside, request.file, reads_input)? {
        return Ok(());
    }
    match request.input {
        Input::File(name) => match push_trouble(text, outside, name, reads_input) {
            Ok(_) => Ok(()),
            Err(error) => Err(error),
        },
        Input::Standard | Input::Console => text.push_str(
            "FILE shows no trouble now: perhaps the standard input cannot be read\n",
        ),
        Input::Nothing => Ok(()),
    }
}

/// What is said of the standard stream that a request needs and that is closed, if one is.
fn closed_stream<O: Outside>(outside: &O, request: &Request<'_>) -> Option<&'static str>
    ensures { IfNone result ((O.world outside.now).HasStreams (reads_input request.now)) }
{
    if outside.streams_are_open(request.input.reads_standard()) {
        None
    } else if outside.streams_are_open(false) {
        Some("the standard input is closed: with --steps FILE or --no-steps it is not read")
    } else {
        Some("the standard output is closed")
    }
}

/// What is said where a standard stream is closed, or something cannot be opened or read. Where one is closed, no file is
/// asked for: [`Outside::trouble`] may not be.
pub(crate) fn explain_lack<O: Outside>(
    outside: &O,
    alloc: Global,
    request: &Request<'_>,
) -> Result<Explanation, AllocError> {
    let mut text = String::new(alloc);
    match closed_stream(outside, request) {
        Some(closed) => writeln!(text, "{closed}")?,
        None => push_unread(&mut text, outside, request)?,
    }
    writeln!(text, "{}", sentence(Fault::Device(Device::Read)))?;
    Ok(Explanation::of_lines(text))
}

/// What a command read, where it is kept.
#[derive(Clone, Copy)]
pub(crate) struct KeptBytes<'p, 's> {
    /// The program.
    pub(crate) program: Option<&'p [u8]>,
    /// The steps, or the script.
    pub(crate) steps: Option<&'s [u8]>,
}

/// What is said of a fault; in other forms than lines, also of those of the text behind it.
fn explain_fault(
    alloc: Global,
    form: Form,
    evidence: &Evidence<'_>,
    fault: Fault,
) -> Result<Explanation, AllocError> {
    let mut told = explanations::explain(alloc, evidence, fault)?;
    if form != Form::Lines {
        told.further = explanations::further_faults(alloc, evidence, fault)?;
    }
    Ok(told)
}

/// What is said of what a command answered, after it read these bytes. Where they were not kept, a fault has its sentence
/// alone.
pub(crate) fn explain<O: Outside>(
    outside: &O,
    alloc: Global,
    request: &Request<'_>,
    kept: KeptBytes<'_, '_>,
    answer: Result<Status, Fault>,
) -> Result<Explanation, AllocError> {
    if let Err(Fault::Device(Device::Read)) = answer {
        return explain_lack(outside, alloc, request);
    }
    let (Some(program), Some(steps)) = (kept.program, kept.steps) else {
        return Err(AllocError);
    };
    let evidence = Evidence {
        program,
        steps,
        asked: request.task,
    };
    match answer {
        Ok(Status::Refused) => Ok(Explanation::of_lines(explanations::explain_refusal(
            alloc, &evidence,
        )?)),
        Ok(_) => Ok(Explanation::of_lines(explanations::explain_answer(alloc, &evidence)?)),
        Err(fault) => explain_fault(alloc, request.form, &evidence, fault),
    }
}
