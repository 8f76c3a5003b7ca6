//! The text of a run that makes a condition false.
ghost use Rattle.std.specs.Prelude.{◌≡◌, ◌++◌, IfOk, OnOk, string_bytes};
ghost use Rattle.jobs.specs.Crashes.{all_steps};
ghost use Rattle.jobs.specs.CheckReports.{asked_name, asks_steps, asks_why, behind_failed, crash_text, crashes_text, explained, explanation, failed_text, failure_text, last_explained, steps_shown, whole_failure};

use crate::explained::{CrashTold, Explained};
use crate::start::Start;
use crate::told_text::push_image_told;
use commands::{CheckOptions, push_names_shown, push_values};
use explore::{Asked, Failure};
use machine::Step;
use schedule::write_steps;
use std::alloc::{AllocError, Global};

/// Which condition it is.
pub fn asked_name(asked: Asked) -> &'static str
    ensures { result.now ≡ asked_name asked }
{
    match asked {
        Asked::All => "all",
        Asked::Ends => "ends",
        Asked::Recovered => "recovered",
    }
}

/// Whether the steps of the run are asked for.
fn asks_steps(options: &CheckOptions<'_>) -> bool
    ensures { result ≡ asks_steps options.now }
{
    options.show || options.as_steps
}

/// The steps of the run, where they are asked for.
fn steps_shown(
    alloc: Global,
    options: &CheckOptions<'_>,
    failure: &Failure,
) -> Result<String, AllocError>
    ensures { IfOk result (λ text. string_bytes text ≡ steps_shown options.now failure.now) }
{
    if !asks_steps(options) {
        return Ok(String::new(alloc));
    }
    write_steps(alloc, failure.run.steps())
}

/// Appends the condition that fails, with the values of the words, and how many steps the run has.
///
/// # Errors
///
/// Out of memory. A part of the text may then be at the end.
pub fn push_failure(text: &mut String, failure: &Failure) -> Result<(), AllocError>
    ensures { OnOk result (string_bytes text.new ≡ string_bytes text.old ++ failed_text failure.now) }
{
    write!(text, "{} fails", asked_name(failure.asked))?;
    push_values(text, failure.values.values())?;
    text.push('\n')?;
    writeln!(text, "steps {}", failure.run.steps().len())
}

/// Whether it is asked why the run breaks the condition.
pub fn asks_why(options: &CheckOptions<'_>) -> bool
    ensures { result ≡ asks_why options.now }
{
    options.explains_image && !options.as_steps
}

/// Appends the place of a crash among the steps of the run, what it left, and what is said of the writes that are missing there.
fn push_crash(text: &mut String, start: &Start, crash: &CrashTold) -> Result<(), AllocError>
    ensures { OnOk result (string_bytes text.new ≡ string_bytes text.old ++ crash_text start.now crash.now) }
{
    writeln!(text, "crash {}", crash.place)?;
    let layout = start.object.layout();
    push_image_told(
        text,
        layout,
        start.given.lines(),
        &crash.image,
        &crash.missing,
    )
}

/// Appends the same of each crash of the run.
fn push_crashes(text: &mut String, start: &Start, told: &Explained) -> Result<(), AllocError>
    ensures { OnOk result (string_bytes text.new ≡ string_bytes text.old ++ crashes_text start.now told.now) }
{
    for crash in &told.crashes {
        push_crash(text, start, crash)?;
    }
    Ok(())
}

/// The given steps, and those of the run after them.
///
/// # Errors
///
/// Out of memory.
pub fn all_steps(alloc: Global, start: &Start, failure: &Failure) -> Result<Vec<Step>, AllocError>
    ensures { IfOk result (λ steps. steps.items ≡ all_steps start.now failure.now) }
{
    let mut steps = Vec::from_slice(alloc, start.given.steps())?;
    steps.extend_from_slice(failure.run.steps())?;
    Ok(steps)
}

/// Appends what is said of the image that breaks the condition.
fn push_explanation(
    text: &mut String,
    start: &Start,
    failure: &Failure,
    told: &Explained,
) -> Result<(), AllocError>
    ensures { OnOk result (string_bytes text.new ≡ string_bytes text.old ++ explanation start.now failure.now told.now) }
{
    let layout = start.object.layout();
    push_image_told(
        text,
        layout,
        start.given.lines(),
        &failure.values,
        &told.last,
    )
}

/// Appends the same of a condition of images alone.
fn push_last(
    text: &mut String,
    start: &Start,
    failure: &Failure,
    told: &Explained,
) -> Result<(), AllocError>
    ensures { OnOk result (string_bytes text.new
        ≡ string_bytes text.old ++ last_explained start.now failure.now told.now failure.now.asked) }
{
    match failure.asked {
        Asked::All => push_explanation(text, start, failure, told),
        Asked::Ends | Asked::Recovered => Ok(()),
    }
}

/// Appends what each crash of the run left, and the image that breaks the condition, where it is asked why.
fn push_explained(
    text: &mut String,
    options: &CheckOptions<'_>,
    start: &Start,
    failure: &Failure,
    told: &Explained,
) -> Result<(), AllocError>
    ensures { OnOk result (string_bytes text.new
        ≡ string_bytes text.old ++ explained options.now start.now failure.now told.now) }
{
    if !asks_why(options) {
        return Ok(());
    }
    push_crashes(text, start, told)?;
    push_last(text, start, failure, told)
}

/// The steps of the run, and what explains it, where these are asked for.
pub(crate) fn behind_failed(
    alloc: Global,
    options: &CheckOptions<'_>,
    start: &Start,
    failure: &Failure,
    told: &Explained,
) -> Result<String, AllocError>
    ensures { IfOk result (λ text. string_bytes text ≡ behind_failed options.now start.now failure.now told.now) }
{
    let mut text = steps_shown(alloc, options, failure)?;
    push_explained(&mut text, options, start, failure, told)?;
    Ok(text)
}

/// What is said of a run that makes a condition false, where not the steps alone are.
fn whole_failure(
    alloc: Global,
    options: &CheckOptions<'_>,
    start: &Start,
    failure: &Failure,
    told: &Explained,
) -> Result<String, AllocError>
    ensures { IfOk result (λ text. string_bytes text ≡ whole_failure options.now start.now failure.now told.now) }
{
    let behind = behind_failed(alloc, options, start, failure, told)?;
    let mut text = String::new(alloc);
    push_names_shown(&mut text, options.names, start.object.layout())?;
    push_failure(&mut text, failure)?;
    text.push_str(&behind)?;
    Ok(text)
}

/// What is said of a run that makes a condition false.
pub(crate) fn failure_text(
    alloc: Global,
    options: &CheckOptions<'_>,
    start: &Start,
    failure: &Failure,
    told: &Explained,
) -> Result<String, AllocError>
    ensures { IfOk result (λ text. string_bytes text ≡ failure_text options.now start.now failure.now told.now) }
{
    if options.as_steps {
        return steps_shown(alloc, options, failure);
    }
    whole_failure(alloc, options, start, failure, told)
}
