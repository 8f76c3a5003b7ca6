//! The text of what is found where no run makes a condition false.
ghost use Rattle.std.specs.Prelude.{◌≡◌, ◌++◌, IfOk, OnOk, string_bytes};
ghost use Rattle.jobs.specs.CheckReports.{all_held, counts_text, ends_held, found_status, found_text, held_text, holding, is_idle, recovered_count};

use crate::image_list::push_images_shown;
use crate::start::Start;
use crate::unreached::push_nevers;
use commands::Status;
use explore::{Findings, Question};
use std::alloc::{AllocError, Global};

/// Appends the line of the condition of every state, where it is asked for.
fn push_all_held(text: &mut String, asked: bool) -> Result<(), AllocError>
    ensures { OnOk result (string_bytes text.new ≡ string_bytes text.old ++ all_held asked) }
{
    if !asked {
        return Ok(());
    }
    text.push_str("all holds\n")
}

/// Whether a condition holds of so many ends: of none it says nothing.
fn holding(ends: usize) -> &'static str
    ensures { result.now ≡ holding ends }
{
    if ends == 0 {
        "asked of no state"
    } else {
        "holds"
    }
}

/// Appends the line of a condition of ends, of which there are so many, where it is asked for.
fn push_ends_held(text: &mut String, name: &str, asked: bool, ends: usize) -> Result<(), AllocError>
    ensures { OnOk result (string_bytes text.new ≡ string_bytes text.old ++ ends_held name.now asked ends) }
{
    if !asked {
        return Ok(());
    }
    let holding = holding(ends);
    writeln!(text, "{name} {holding}")
}

/// Appends the lines of the conditions that are asked for.
///
/// # Errors
///
/// Out of memory. A part of the text may then be at the end.
pub fn push_held(text: &mut String, question: &Question, found: &Findings) -> Result<(), AllocError>
    ensures { OnOk result (string_bytes text.new ≡ string_bytes text.old ++ held_text question.now found.now) }
{
    push_all_held(text, question.all.is_some())?;
    push_ends_held(text, "ends", question.ends.is_some(), found.ends().len())?;
    let recovered = question.recovered.is_some();
    push_ends_held(text, "recovered", recovered, found.recovered().len())
}

/// Appends how many ends there are after a crash, where runs crash.
fn push_recovered_count(text: &mut String, crashes: bool, ends: usize) -> Result<(), AllocError>
    ensures { OnOk result (string_bytes text.new ≡ string_bytes text.old ++ recovered_count crashes ends) }
{
    if !crashes {
        return Ok(());
    }
    writeln!(text, "recovered ends {ends}")
}

/// Appends how many states were told apart, and how many ends there are.
fn push_counts(text: &mut String, crashes: bool, found: &Findings) -> Result<(), AllocError>
    ensures { OnOk result (string_bytes text.new ≡ string_bytes text.old ++ counts_text crashes found.now) }
{
    writeln!(text, "states {}", found.states())?;
    writeln!(text, "ends {}", found.ends().len())?;
    push_recovered_count(text, crashes, found.recovered().len())
}

/// What is said where all conditions hold.
pub(crate) fn found_text(
    alloc: Global,
    named: bool,
    start: &Start,
    found: &Findings,
) -> Result<String, AllocError>
    ensures { IfOk result (λ text. string_bytes text ≡ found_text named start.now found.now) }
{
    let Start {
        object,
        question,
        ..
    } = start;
    let mut text = String::new(alloc);
    push_held(&mut text, question, found)?;
    push_counts(&mut text, question.crashes, found)?;
    push_nevers(
        &mut text,
        object.layout(),
        found,
        question.crashes,
        object.processors(),
    )?;
    push_images_shown(
        &mut text,
        question.images,
        named,
        object.layout(),
        found.images(),
    )?;
    Ok(text)
}

/// Whether a condition is asked of no state.
fn is_idle(asked: bool, ends: usize) -> bool
    ensures { result ≡ is_idle asked ends }
{
    asked && ends == 0
}

/// Status 1 where a condition is asked of no state.
pub fn found_status(question: &Question, found: &Findings) -> Status
    ensures { result ≡ found_status question.now found.now }
{
    let ends = is_idle(question.ends.is_some(), found.ends().len());
    let recovered = is_idle(question.recovered.is_some(), found.recovered().len());
    if ends || recovered {
        Status::Unmet
    } else {
        Status::Done
    }
}
