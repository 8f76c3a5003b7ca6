//! The report of `check` as JSON.
ghost use Rattle.std.specs.Prelude.{◌≡◌, IfOk};
ghost use Rattle.explore.specs.declared.verdict.Verdict.TheVariants.{Fails};
ghost use Rattle.causes.specs.Enough.{told_of};
ghost use Rattle.jobs.specs.CheckReports.{asked_name, holding};
ghost use Rattle.json_texts.specs.Objects.{IsJsonOf, Tree};
ghost use Rattle.json_jobs.specs.RunReports.{MayReport, all_told, conditions_data, crash_data, crash_told, crashes_data, crashes_explained, explained, explained_by, failed_report, failure_data, found_data, found_report, image_explained, images_asked, last_explained, last_missing, missing_there, nevers_data, one_told, recovered_ends, run_lines, stands};

use crate::number_lists::lists_value;
use crate::unreached::push_nevers;
use causes::Told;
use commands::{CheckOptions, Report, Status};
use explore::{Asked, Failure, Findings, Numbers, Question, Verdict};
use jobs::{CrashTold, Explained, ReportsVerdict, Start, asks_why, explanation_of, found_status};
use json_texts::{
    FORMAT, SourceMap, names_value, numbers_value, step_lines_value, steps_value, told_value,
    value_report,
};
use serde_json::{Value, json, push};
use std::alloc::{AllocError, Global};
use std::marker::Model;
use workers::Gate;

/// How a condition stands, where it is asked for.
fn stands(alloc: Global, asked: bool, said: &str) -> Result<Value, AllocError>
    ensures { IfOk result (IsJsonOf (stands asked said.now)) }
{
    if asked {
        Value::try_from_str(alloc, said)
    } else {
        Ok(Value::Null)
    }
}

/// Whether a condition of so many ends holds: of none it says nothing.
fn holding(ends: usize) -> &'static str
    ensures { result.now ≡ holding ends }
{
    if ends == 0 {
        "asked of no state"
    } else {
        "holds"
    }
}

/// How the conditions stand.
fn conditions_value(
    alloc: Global,
    question: &Question,
    found: &Findings,
) -> Result<Value, AllocError>
    ensures { IfOk result (IsJsonOf (conditions_data question.now found.now)) }
{
    let all = stands(alloc, question.all.is_some(), "holds")?;
    let ends = stands(alloc, question.ends.is_some(), holding(found.ends().len()))?;
    let recovered = stands(
        alloc,
        question.recovered.is_some(),
        holding(found.recovered().len()),
    )?;
    json!(in alloc; {"all": all, "ends": ends, "recovered": recovered})
}

/// How many ends there are after a crash, where runs crash.
fn recovered_ends(crashes: bool, ends: usize) -> Value
    ensures { IsJsonOf (recovered_ends crashes ends) result }
{
    if crashes {
        Value::from(ends)
    } else {
        Value::Null
    }
}

/// The instructions that no run executes.
#[tactic(auto, using(json_texts::proofs::Items::list_steps))]
fn nevers_value(alloc: Global, start: &Start, found: &Findings) -> Result<Value, AllocError>
    ensures { IfOk result (IsJsonOf (nevers_data start.now found.now)) }
{
    let source = SourceMap {
        layout: start.object.layout(),
        lines: start.given.lines(),
    };
    let mut items = Vec::new(alloc);
    push_nevers(
        &mut items,
        &source,
        found,
        start.question.crashes,
        start.object.processors(),
    )?;
    Ok(Value::from(items))
}

/// The images, where they are asked for.
fn images_asked(alloc: Global, asked: bool, images: &[Numbers]) -> Result<Value, AllocError>
    ensures { IfOk result (IsJsonOf (images_asked asked images.now)) }
{
    if asked {
        lists_value(alloc, images)
    } else {
        Ok(Value::Null)
    }
}

/// What is said where all conditions hold.
fn found_value(alloc: Global, start: &Start, found: &Findings) -> Result<Value, AllocError>
    ensures { IfOk result (IsJsonOf (found_data start.now found.now)) }
{
    let question = &start.question;
    let (states, ends) = (found.states(), found.ends().len() as u64);
    let conditions = conditions_value(alloc, question, found)?;
    let recovered = recovered_ends(question.crashes, found.recovered().len());
    let never_ran = nevers_value(alloc, start, found)?;
    let words = names_value(alloc, start.object.layout())?;
    let images = images_asked(alloc, question.images, found.images())?;
    json!(in alloc; {
        "format": FORMAT, "command": "check", "holds": true, "conditions": conditions,
        "states": states, "ends": ends, "recovered_ends": recovered, "never_ran": never_ran,
        "words": words, "images": images
    })
}

/// Which condition it is.
fn asked_name(asked: Asked) -> &'static str
    ensures { result.now ≡ asked_name asked }
{
    match asked {
        Asked::All => "all",
        Asked::Ends => "ends",
        Asked::Recovered => "recovered",
    }
}

/// A write that is missing, and whether it is told that it alone is enough.
fn one_told(alloc: Global, source: &SourceMap<'_>, told: &Told) -> Result<Value, AllocError>
    ensures { IfOk result (IsJsonOf (one_told source.now told.now)) }
{
    told_value(alloc, source, &told.write, told.enough)
}

/// Writes that are missing, in their order.
#[tactic(auto, using(json_texts::proofs::Items::list_steps))]
fn all_told(alloc: Global, source: &SourceMap<'_>, told: &[Told]) -> Result<Value, AllocError>
    ensures { IfOk result (IsJsonOf (all_told source.now told.now)) }
{
    let mut items = Vec::new(alloc);
    for one in told {
        push(&mut items, one_told(alloc, source, one)?)?;
    }
    Ok(Value::from(items))
}

/// The writes that are missing in an image, if it is one of the state.
fn missing_there(
    alloc: Global,
    start: &Start,
    told: &Option<Vec<Told>>,
) -> Result<Value, AllocError>
    ensures { IfOk result (IsJsonOf (missing_there start.now (told_of told.now))) }
{
    let source = SourceMap {
        layout: start.object.layout(),
        lines: start.given.lines(),
    };
    match told {
        Some(told) => all_told(alloc, &source, told),
        None => Ok(Value::Null),
    }
}

/// What explains the image that breaks the condition.
fn image_explained(alloc: Global, start: &Start, told: &Explained) -> Result<Value, AllocError>
    ensures { IfOk result (IsJsonOf (image_explained start.now told.now)) }
{
    let missing = missing_there(alloc, start, &told.last)?;
    json!(in alloc; {"missing": missing})
}

/// What explains a run that does not crash.
fn last_explained(
    alloc: Global,
    start: &Start,
    failure: &Failure,
    told: &Explained,
) -> Result<Value, AllocError>
    ensures { IfOk result (IsJsonOf (last_explained start.now told.now failure.now.asked)) }
{
    match failure.asked {
        Asked::All => image_explained(alloc, start, told),
        Asked::Ends | Asked::Recovered => Ok(Value::Null),
    }
}

/// A crash: its place among the steps of the run, what it left, and the writes that are missing there.
fn crash_told(alloc: Global, place: u64, image: Value, missing: Value) -> Result<Value, AllocError>
    ensures { (i m : Tree) → IsJsonOf i image → IsJsonOf m missing → IfOk result (IsJsonOf (crash_told place i m)) }
{
    json!(in alloc; {"step": place, "image": image, "missing": missing})
}

/// The same of what is told of a crash.
fn crash_value(alloc: Global, start: &Start, crash: &CrashTold) -> Result<Value, AllocError>
    ensures { IfOk result (IsJsonOf (crash_data start.now crash.now)) }
{
    let missing = missing_there(alloc, start, &crash.missing)?;
    let values = numbers_value(alloc, crash.image.values())?;
    crash_told(alloc, crash.place as u64, values, missing)
}

/// All crashes of the run.
#[tactic(auto, using(json_texts::proofs::Items::list_steps))]
fn crashes_value(alloc: Global, start: &Start, crashes: &[CrashTold]) -> Result<Value, AllocError>
    ensures { IfOk result (IsJsonOf (crashes_data start.now crashes.now)) }
{
    let mut items = Vec::new(alloc);
    for crash in crashes {
        push(&mut items, crash_value(alloc, start, crash)?)?;
    }
    Ok(Value::from(items))
}

/// The writes that are missing in the image that breaks the condition, where it is one.
fn last_missing(
    alloc: Global,
    start: &Start,
    failure: &Failure,
    told: &Explained,
) -> Result<Value, AllocError>
    ensures { IfOk result (IsJsonOf (last_missing start.now told.now failure.now.asked)) }
{
    match failure.asked {
        Asked::All => missing_there(alloc, start, &told.last),
        Asked::Ends | Asked::Recovered => Ok(Value::Null),
    }
}

/// What explains a run that crashes.
fn crashes_explained(
    alloc: Global,
    start: &Start,
    failure: &Failure,
    told: &Explained,
) -> Result<Value, AllocError>
    ensures { IfOk result (IsJsonOf (crashes_explained start.now failure.now told.now)) }
{
    let crashes = crashes_value(alloc, start, &told.crashes)?;
    let missing = last_missing(alloc, start, failure, told)?;
    json!(in alloc; {"crashes": crashes, "missing": missing})
}

/// What explains a run.
fn explained_by(
    alloc: Global,
    start: &Start,
    failure: &Failure,
    told: &Explained,
) -> Result<Value, AllocError>
    ensures { IfOk result (IsJsonOf (explained_by start.now failure.now told.now)) }
{
    if told.crashes.is_empty() {
        return last_explained(alloc, start, failure, told);
    }
    crashes_explained(alloc, start, failure, told)
}

/// The same where it is asked why the run breaks the condition.
pub(crate) fn explained_or_null(
    alloc: Global,
    options: &CheckOptions<'_>,
    start: &Start,
    failure: &Failure,
    told: &Explained,
) -> Result<Value, AllocError>
    ensures { IfOk result (IsJsonOf
        (explained options.now start.now failure.now told.now)) }
{
    if !asks_why(options) {
        return Ok(Value::Null);
    }
    explained_by(alloc, start, failure, told)
}

/// The lines of the instructions that the steps of the run execute.
pub(crate) fn run_lines(
    alloc: Global,
    start: &Start,
    failure: &Failure,
) -> Result<Value, AllocError>
    ensures { IfOk result (IsJsonOf (run_lines start.now failure.now)) }
{
    let mut machine = start.machine.copy(alloc)?;
    step_lines_value(
        alloc,
        start.given.lines(),
        &mut machine,
        failure.run.steps(),
    )
}

/// What is said of a run that makes a condition false.
fn failure_value(
    alloc: Global,
    options: &CheckOptions<'_>,
    start: &Start,
    failure: &Failure,
    told: &Explained,
) -> Result<Value, AllocError>
    ensures { IfOk result (IsJsonOf
        (failure_data options.now start.now failure.now told.now)) }
{
    let condition = asked_name(failure.asked);
    let words = names_value(alloc, start.object.layout())?;
    let values = numbers_value(alloc, failure.values.values())?;
    let steps = steps_value(alloc, failure.run.steps())?;
    let lines = run_lines(alloc, start, failure)?;
    let explained = explained_or_null(alloc, options, start, failure, told)?;
    json!(in alloc; {
        "format": FORMAT, "command": "check", "holds": false, "condition": condition,
        "words": words, "values": values, "steps": steps, "lines": lines, "explained": explained
    })
}

/// The report where all conditions hold.
fn found_report(alloc: Global, start: &Start, found: &Findings) -> Result<Report, AllocError>
    ensures { IfOk result (λ report. report ≡ found_report start.now found.now) }
{
    let value = found_value(alloc, start, found)?;
    value_report(alloc, &value, found_status(&start.question, found))
}

/// The report of a run that makes a condition false, where this explains it.
fn failure_report(
    alloc: Global,
    options: &CheckOptions<'_>,
    start: &Start,
    failure: &Failure,
    told: &Explained,
) -> Result<Report, AllocError>
    ensures { IfOk result (λ report. report ≡ failed_report options.now start.now failure.now told.now) }
{
    let value = failure_value(alloc, options, start, failure, told)?;
    value_report(alloc, &value, Status::Unmet)
}

/// The same, explained.
fn explained_report<G: Gate>(
    alloc: Global,
    options: &CheckOptions<'_>,
    start: &Start,
    failure: &Failure,
    gate: &G,
) -> Result<Report, AllocError>
    ensures { IfOk result (MayReport options.now start.now (Fails failure.now)) }
{
    let told = explanation_of(alloc, options, start, failure, gate)?;
    failure_report(alloc, options, start, failure, &told)
}

/// `check` is asked for its report as JSON.
#[derive(Drop)]
pub(crate) struct CheckJson<'a> {
    /// What is asked.
    pub(crate) options: &'a CheckOptions<'a>,
}

impl<'a> Model for CheckJson<'a> {
    ghost use Rattle.json_jobs.specs.RunReports as reports;

    ghost Value = { reports.CheckJson };

    ghost view = { λ c. record { options = c.options.now } };
}

impl ReportsVerdict for CheckJson<'_> {
    ghost may_report = { λ asked. MayReport asked.options };

    fn verdict_report<G: Gate>(
        &self,
        alloc: Global,
        start: &Start,
        verdict: &Verdict,
        gate: &G,
    ) -> Result<Report, AllocError> {
        match verdict {
            Verdict::Holds(found) => found_report(alloc, start, found),
            Verdict::Fails(failure) => explained_report(alloc, self.options, start, failure, gate),
        }
    }
}
