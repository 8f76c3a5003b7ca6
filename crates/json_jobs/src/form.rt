//! JSON as a form of the reports of schedules and of `live`.
ghost use Rattle.json_jobs.specs.JsonForm.{json_reports};
ghost use Rattle.json_jobs.specs.LiveData.{json_journals};

use crate::ends_value::ends_report;
use crate::hunt_value::hunt_report;
use crate::live_value::journal_report;
use crate::losses_value::losses_report;
use crate::tally_value::tally_report;
use commands::{HuntOptions, Report};
use hunt::{EndCounts, Losses, Tally};
use lines_layout::Layout;
use litmus_text::LinedObject;
use live::Closed;
use std::alloc::{AllocError, Global};
use thread_jobs::{Found, HuntStart, ReportsJournals, ReportsSchedules};

/// The reports of schedules and of `live` as JSON.
pub struct JsonReports;

impl ReportsSchedules for JsonReports {
    ghost reports = { json_reports };

    fn tally_report(alloc: Global, layout: &Layout, counted: &Tally) -> Result<Report, AllocError> {
        tally_report(alloc, layout, counted)
    }

    fn losses_report(alloc: Global, runs: u64, losses: Losses) -> Result<Report, AllocError> {
        losses_report(alloc, runs, losses)
    }

    fn ends_report(alloc: Global, runs: u64, counts: EndCounts) -> Result<Report, AllocError> {
        ends_report(alloc, runs, counts)
    }

    fn hunt_report(
        alloc: Global,
        options: &HuntOptions<'_>,
        start: &HuntStart,
        found: Option<&Found>,
        ended: Option<u64>,
    ) -> Result<Report, AllocError> {
        hunt_report(alloc, options, start, found, ended)
    }
}

impl ReportsJournals for JsonReports {
    ghost journals = { json_journals };

    fn journal_report(
        alloc: Global,
        lined: &LinedObject,
        closed: &Closed,
    ) -> Result<Report, AllocError> {
        journal_report(alloc, lined, closed)
    }
}
