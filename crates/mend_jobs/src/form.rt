//! In which form it is reported what is found.
ghost use Rattle.std.specs.Prelude.{◌≡◌, IfOk};
ghost use Rattle.mend_jobs.specs.ReportForms as forms;

use crate::asked_program::AskedProgram;
use crate::fences_found::FencesFound;
use crate::mend_found::MendFound;
use commands::Report;
use std::alloc::{AllocError, Global};

/// A form of the reports of `fences` and `mend`.
pub trait ReportsMends {
    /// The text of each thing that is found.
    ghost reports: { forms.ReportForm };

    /// The report of what is found of the flushes and fences of a program.
    fn fences_report(
        alloc: Global,
        asked: &AskedProgram,
        found: &FencesFound,
    ) -> Result<Report, AllocError>
        ensures { IfOk result (λ report. report ≡ forms.fences_report reports asked.now found.now) };

    /// The report of what may be put into a program; the program with it alone, where it is asked for.
    fn mend_report(
        alloc: Global,
        as_text: bool,
        asked: &AskedProgram,
        found: &MendFound,
    ) -> Result<Report, AllocError>
        ensures { IfOk result (λ report. report
            ≡ forms.mend_report reports as_text asked.now found.now) };
}
