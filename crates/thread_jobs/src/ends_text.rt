//! The text of how many schedules come to an end, and how many of these break a condition there.
ghost use Rattle.std.specs.Prelude.{◌≡◌, ◌++◌, IfOk, OnOk, string_bytes};
ghost use Rattle.thread_jobs.specs.HuntReports.{ended_text, ends_text, first_end_text};
ghost use Rattle.thread_jobs.specs.TextReports.{ends_report};

use commands::{Report, Status};
use hunt::EndCounts;
use std::alloc::{AllocError, Global};

/// Appends how many of so many schedules come to an end.
pub(crate) fn push_ended(text: &mut String, runs: u64, ended: u64) -> Result<(), AllocError>
    ensures { OnOk result (string_bytes text.new
        ≡ string_bytes text.old ++ ended_text runs ended) }
{
    writeln!(text, "ended {ended} of {runs}")
}

/// Appends the first schedule that breaks a condition at an end, if there is one.
fn push_first(text: &mut String, first: Option<u64>) -> Result<(), AllocError>
    ensures { OnOk result (string_bytes text.new
        ≡ string_bytes text.old ++ first_end_text first) }
{
    match first {
        Some(number) => writeln!(text, "first {number}"),
        None => Ok(()),
    }
}

/// Appends how many of so many schedules break a condition at an end, how many come to one, and the first that breaks it.
fn push_ends(text: &mut String, runs: u64, counts: EndCounts) -> Result<(), AllocError>
    ensures { OnOk result (string_bytes text.new
        ≡ string_bytes text.old ++ ends_text runs counts) }
{
    writeln!(text, "broken {} of {runs}", counts.broken)?;
    push_ended(text, runs, counts.ended)?;
    push_first(text, counts.first)
}

/// The report of how many of so many schedules come to an end, and how many of these break a condition there.
pub(crate) fn ends_report(alloc: Global, runs: u64, counts: EndCounts) -> Result<Report, AllocError>
    ensures { IfOk result (λ report. report ≡ ends_report runs counts) }
{
    let mut text = String::new(alloc);
    push_ends(&mut text, runs, counts)?;
    Ok(Report {
        text: text.into_bytes(),
        status: Status::Done,
    })
}
