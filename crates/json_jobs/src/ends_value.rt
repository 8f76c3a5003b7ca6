//! The report of `tally --ends` and `tally --recovered` as JSON.
ghost use Rattle.std.specs.Prelude.{◌≡◌, IfOk};
ghost use Rattle.json_texts.specs.Objects.{or_null, IsJsonOf};
ghost use Rattle.json_jobs.specs.TallyData.{ends_data, ends_report, number_data};

use commands::{Report, Status};
use hunt::EndCounts;
use json_texts::{FORMAT, value_report};
use serde_json::{Value, json};
use std::alloc::{AllocError, Global};

/// A schedule that comes to an end: no turn of it is told.
fn number_value(alloc: Global, number: u64) -> Result<Value, AllocError>
    ensures { IfOk result (IsJsonOf (number_data number)) }
{
    json!(in alloc; {"number": number, "turn": null})
}

/// A schedule that comes to an end, if there is one.
fn number_or_null(alloc: Global, number: Option<u64>) -> Result<Value, AllocError>
    ensures { IfOk result (IsJsonOf (or_null number_data number)) }
{
    match number {
        Some(number) => number_value(alloc, number),
        None => Ok(Value::Null),
    }
}

/// How many of so many schedules break the condition at an end, how many come to one, and the first of those that break it.
fn ends_value(alloc: Global, runs: u64, counts: EndCounts) -> Result<Value, AllocError>
    ensures { IfOk result (IsJsonOf (ends_data runs counts)) }
{
    let (broken, ended) = (counts.broken, counts.ended);
    let first = number_or_null(alloc, counts.first)?;
    json!(in alloc; {
        "format": FORMAT, "command": "tally", "broken": broken, "of": runs, "ended": ended, "first": first
    })
}

/// The report of how many of so many schedules come to an end, and how many of these break a condition there.
pub(crate) fn ends_report(alloc: Global, runs: u64, counts: EndCounts) -> Result<Report, AllocError>
    ensures { IfOk result (λ report. report ≡ ends_report runs counts) }
{
    let value = ends_value(alloc, runs, counts)?;
    value_report(alloc, &value, Status::Done)
}
