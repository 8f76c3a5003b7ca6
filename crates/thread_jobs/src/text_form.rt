//! The reports as text.
ghost use Rattle.thread_jobs.specs.TextReports.{text_journals, text_reports};

use crate::ends_text::ends_report;
use crate::form::ReportsSchedules;
use crate::found::Found;
use crate::hunt_text::found_report;
use crate::journal_form::ReportsJournals;
use crate::live_text::live_report;
use crate::losses_text::losses_report;
use crate::start::HuntStart;
use crate::tally_text::tally_report;
use commands::{HuntOptions, Report};
use hunt::{EndCounts, Losses, Tally};
use lines_layout::Layout;
use litmus_text::LinedObject;
use live::Closed;
use std::alloc::{AllocError, Global};

/// The reports in lines.
pub struct TextReports;

impl ReportsSchedules for TextReports {
    ghost reports = { text_reports };

    fn tally_report(alloc: Global, layout: &Layout, counted: &Tally) -> Result<Report, AllocError> {
        tally_report(alloc, layout, counted)
    }

    fn losses_report(alloc: Global, runs: u64, losses: Losses) -> Result<Report, AllocError> {
        losses_report(alloc, runs, losses)
    }

    fn ends_report(alloc: Global, runs: u64, counts: EndCounts) -> Result<Report, AllocError> {
        ends_report(alloc, runs, counts)
    }

    fn hunt_report(
        alloc: Global,
        options: &HuntOptions<'_>,
        start: &HuntStart,
        found: Option<&Found>,
        ended: Option<u64>,
    ) -> Result<Report, AllocError> {
        found_report(alloc, options, start, found, ended)
    }
}

impl ReportsJournals for TextReports {
    ghost journals = { text_journals };

    fn journal_report(
        alloc: Global,
        lined: &LinedObject,
        closed: &Closed,
    ) -> Result<Report, AllocError> {
        live_report(alloc, lined, closed)
    }
}
