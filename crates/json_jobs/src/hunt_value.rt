//! The report of `hunt` as JSON.
ghost use Rattle.std.specs.Prelude.{◌≡◌, IfOk, OnOk, option_copied};
ghost use Rattle.image_reasons.specs.Reasons.{missing_after, missing_found};
ghost use Rattle.thread_jobs.specs.Founds.{steps_to};
ghost use Rattle.json_texts.specs.Objects.{GetsFields, IsJsonOf};
ghost use Rattle.json_texts.specs.StepLines.{step_lines_data};
ghost use Rattle.json_jobs.specs.HuntData.{breach_explained, breach_fields, explained, found_fields, hunt_data, hunt_report, hunt_status, image_explained, least_fields, no_turn, none_fields, of_data};

use commands::{HuntOptions, Report, Status};
use hunt::{Breach, Moment};
use image_reasons::{Missing, missing_writes};
use images::{Count, Image};
use json_texts::{
    Fields, SourceMap, candidates_value, explained_value, names_value, number_or_null,
    numbers_value, put_number, report_fields, step_lines_value, steps_value, value_report,
};
use machine::Step;
use serde_json::{Value, put};
use std::alloc::{AllocError, Global};
use thread_jobs::{Found, HuntStart, explains_image, none_status, steps_found, steps_to};

/// Puts a turn, and what breaks the condition after it.
fn put_breach(
    fields: &mut Fields,
    alloc: Global,
    turn: u32,
    breach: &Breach,
) -> Result<(), AllocError>
    ensures { OnOk result (GetsFields fields.old.entries fields.new.entries
        (breach_fields turn breach.now)) }
{
    put_number(fields, alloc, "turn", u64::from(turn))?;
    match breach {
        Breach::Leaves(image) => {
            let values = numbers_value(alloc, image.values())?;
            put(fields, alloc, "image", values)?;
            put(fields, alloc, "candidates", Value::Null)
        }
        Breach::TooMany => {
            put(fields, alloc, "image", Value::Null)?;
            let more = candidates_value(alloc, Count::More)?;
            put(fields, alloc, "candidates", more)
        }
    }
}

/// Puts that nothing is told of a turn.
fn put_no_turn(fields: &mut Fields, alloc: Global) -> Result<(), AllocError>
    ensures { OnOk result (GetsFields fields.old.entries fields.new.entries no_turn) }
{
    put(fields, alloc, "turn", Value::Null)?;
    put(fields, alloc, "image", Value::Null)?;
    put(fields, alloc, "candidates", Value::Null)
}

/// The lines of the instructions that steps of a schedule execute.
fn lines_value(alloc: Global, start: &HuntStart, steps: &[Step]) -> Result<Value, AllocError>
    ensures { IfOk result (IsJsonOf
        (step_lines_data start.now.lines steps.now start.now.state)) }
{
    let mut machine = start.search.machine.copy(alloc)?;
    step_lines_value(alloc, &start.lines, &mut machine, steps)
}

/// Puts the schedule that was found, its steps with their lines, and what is told of its turn.
fn put_least(
    fields: &mut Fields,
    alloc: Global,
    start: &HuntStart,
    found: &Found,
) -> Result<(), AllocError>
    ensures { OnOk result (GetsFields fields.old.entries fields.new.entries
        (least_fields start.now found.now)) }
{
    put_number(fields, alloc, "least", found.at.number)?;
    let steps = steps_found(alloc, start, found.at)?;
    put(fields, alloc, "steps", steps_value(alloc, &steps)?)?;
    put(fields, alloc, "lines", lines_value(alloc, start, &steps)?)?;
    drop(steps);
    match &found.breach {
        Some(breach) => put_breach(fields, alloc, found.at.turn, breach),
        None => put_no_turn(fields, alloc),
    }
}

/// Puts that no schedule was found.
fn put_none(fields: &mut Fields, alloc: Global) -> Result<(), AllocError>
    ensures { OnOk result (GetsFields fields.old.entries fields.new.entries none_fields) }
{
    put(fields, alloc, "least", Value::Null)?;
    put(fields, alloc, "steps", Value::Null)?;
    put(fields, alloc, "lines", Value::Null)?;
    put_no_turn(fields, alloc)
}

/// Puts what was found.
fn put_found(
    fields: &mut Fields,
    alloc: Global,
    start: &HuntStart,
    found: Option<&Found>,
) -> Result<(), AllocError>
    ensures { OnOk result (GetsFields fields.old.entries fields.new.entries
        (found_fields start.now (option_copied found.entry))) }
{
    match found {
        Some(found) => put_least(fields, alloc, start, found),
        None => put_none(fields, alloc),
    }
}

/// Of how many schedules it is told how many come to an end.
fn of_value(runs: u64, ended: Option<u64>) -> Value
    ensures { IsJsonOf (of_data runs ended) result }
{
    match ended {
        Some(_) => Value::from(runs),
        None => Value::Null,
    }
}

/// The writes that are missing in the image that breaks the condition.
fn missing_at(
    alloc: Global,
    start: &HuntStart,
    at: Moment,
    image: &Image,
) -> Result<Option<Vec<Missing>>, AllocError>
    ensures { IfOk result (λ missing. missing_found missing
        ≡ missing_after start.now.object (steps_to start.now at) image.now) }
{
    let steps = steps_to(alloc, start, at)?;
    missing_writes(alloc, &start.object, &steps, image)
}

/// The same as JSON.
fn image_explained(
    alloc: Global,
    start: &HuntStart,
    at: Moment,
    image: &Image,
) -> Result<Value, AllocError>
    ensures { IfOk result (IsJsonOf (image_explained start.now at image.now)) }
{
    let missing = missing_at(alloc, start, at, image)?;
    let source = SourceMap {
        layout: start.object.layout(),
        lines: &start.lines,
    };
    explained_value(alloc, &source, &missing)
}

/// The same, where it is an image.
fn breach_explained(alloc: Global, start: &HuntStart, found: &Found) -> Result<Value, AllocError>
    ensures { IfOk result (IsJsonOf
        (breach_explained start.now found.now.at found.now.breach)) }
{
    match &found.breach {
        Some(Breach::Leaves(image)) => image_explained(alloc, start, found.at, image),
        _ => Ok(Value::Null),
    }
}

/// The same, where a schedule was found, and the image is to be explained.
fn explained_or_null(
    alloc: Global,
    options: &HuntOptions<'_>,
    start: &HuntStart,
    found: Option<&Found>,
) -> Result<Value, AllocError>
    ensures { IfOk result (IsJsonOf
        (explained options.now start.now (option_copied found.entry))) }
{
    if !explains_image(options) {
        return Ok(Value::Null);
    }
    match found {
        Some(found) => breach_explained(alloc, start, found),
        None => Ok(Value::Null),
    }
}

/// The names of the words, what explains the image, how many schedules come to an end, where ends are asked and no schedule was
/// found, and what a hunt found.
fn hunt_value(
    alloc: Global,
    options: &HuntOptions<'_>,
    start: &HuntStart,
    found: Option<&Found>,
    ended: Option<u64>,
) -> Result<Value, AllocError>
    ensures { IfOk result (IsJsonOf
        (hunt_data options.now start.now (option_copied found.entry) ended)) }
{
    let mut fields = report_fields(alloc, "hunt")?;
    let words = names_value(alloc, start.object.layout())?;
    put(&mut fields, alloc, "words", words)?;
    let explained = explained_or_null(alloc, options, start, found)?;
    put(&mut fields, alloc, "explained", explained)?;
    put(&mut fields, alloc, "ended", number_or_null(ended))?;
    let of = of_value(start.search.range.n, ended);
    put(&mut fields, alloc, "of", of)?;
    put_found(&mut fields, alloc, start, found)?;
    Ok(Value::from(fields))
}

/// Status 1 where a schedule was found, or ends are asked and no schedule comes to one.
fn hunt_status(found: Option<&Found>, ended: Option<u64>) -> Status
    ensures { result ≡ hunt_status (option_copied found.entry) ended }
{
    match found {
        Some(_) => Status::Unmet,
        None => none_status(ended),
    }
}

/// The report of what a hunt found.
pub(crate) fn hunt_report(
    alloc: Global,
    options: &HuntOptions<'_>,
    start: &HuntStart,
    found: Option<&Found>,
    ended: Option<u64>,
) -> Result<Report, AllocError>
    ensures { IfOk result (λ report. report
        ≡ hunt_report options.now start.now (option_copied found.entry) ended) }
{
    let value = hunt_value(alloc, options, start, found, ended)?;
    value_report(alloc, &value, hunt_status(found, ended))
}
