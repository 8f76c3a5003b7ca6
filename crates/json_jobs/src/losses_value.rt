//! The report of `tally --all` as JSON.
ghost use Rattle.std.specs.Prelude.{◌≡◌, IfOk};
ghost use Rattle.json_texts.specs.Objects.{or_null, IsJsonOf};
ghost use Rattle.json_jobs.specs.TallyData.{losses_data, losses_report, moment_data};

use commands::{Report, Status};
use hunt::{Losses, Moment};
use json_texts::{FORMAT, value_report};
use serde_json::{Value, json};
use std::alloc::{AllocError, Global};

/// A schedule, and a turn of it.
fn moment_value(alloc: Global, at: Moment) -> Result<Value, AllocError>
    ensures { IfOk result (IsJsonOf (moment_data at)) }
{
    json!(in alloc; {"number": at.number, "turn": at.turn})
}

/// A schedule and a turn of it, if there is one.
fn moment_or_null(alloc: Global, at: Option<Moment>) -> Result<Value, AllocError>
    ensures { IfOk result (IsJsonOf (or_null moment_data at)) }
{
    match at {
        Some(at) => moment_value(alloc, at),
        None => Ok(Value::Null),
    }
}

/// How many of so many schedules break the condition, and the first of them.
fn losses_value(alloc: Global, runs: u64, losses: Losses) -> Result<Value, AllocError>
    ensures { IfOk result (IsJsonOf (losses_data runs losses)) }
{
    let (broken, first) = (losses.broken, moment_or_null(alloc, losses.first)?);
    json!(in alloc; {
        "format": FORMAT, "command": "tally", "broken": broken, "of": runs, "first": first
    })
}

/// The report of the losses among so many schedules.
pub(crate) fn losses_report(alloc: Global, runs: u64, losses: Losses) -> Result<Report, AllocError>
    ensures { IfOk result (λ report. report ≡ losses_report runs losses) }
{
    let value = losses_value(alloc, runs, losses)?;
    value_report(alloc, &value, Status::Done)
}
