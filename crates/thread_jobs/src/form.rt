//! In which form it is reported what schedules come to.
ghost use Rattle.std.specs.Prelude.{◌≡◌, IfOk, option_copied};
ghost use Rattle.thread_jobs.specs.ReportForms as forms;

use crate::found::Found;
use crate::start::HuntStart;
use commands::{HuntOptions, Report};
use hunt::{EndCounts, Losses, Tally};
use lines_layout::Layout;
use std::alloc::{AllocError, Global};

/// A form of the reports of `tally` and `hunt`.
pub trait ReportsSchedules {
    /// The report of each thing that is found.
    ghost reports: { forms.ReportForm };

    /// The report of how schedules end. The tally is of a machine that was loaded from the layout, which names its words.
    fn tally_report(alloc: Global, layout: &Layout, counted: &Tally) -> Result<Report, AllocError>
        ensures { IfOk result (λ report. report ≡ reports.of_tally layout.now counted.now) };

    /// The report of the losses among so many schedules.
    fn losses_report(alloc: Global, runs: u64, losses: Losses) -> Result<Report, AllocError>
        ensures { IfOk result (λ report. report ≡ reports.of_losses runs losses) };

    /// The report of how many of so many schedules come to an end, and how many of these break a condition there.
    fn ends_report(alloc: Global, runs: u64, counts: EndCounts) -> Result<Report, AllocError>
        ensures { IfOk result (λ report. report ≡ reports.of_ends runs counts) };

    /// The report of what a hunt found; or that it found nothing, and where ends are asked how many schedules come to one.
    fn hunt_report(
        alloc: Global,
        options: &HuntOptions<'_>,
        start: &HuntStart,
        found: Option<&Found>,
        ended: Option<u64>,
    ) -> Result<Report, AllocError>
        ensures { IfOk result (λ report. report
            ≡ reports.of_hunt options.now start.now (option_copied found.entry) ended) };
}
