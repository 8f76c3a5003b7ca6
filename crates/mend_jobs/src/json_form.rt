//! The reports as JSON.
ghost use Rattle.mend_jobs.specs.JsonReports.{json_reports};

use crate::asked_program::AskedProgram;
use crate::fences_found::{FencesFound, fences_status};
use crate::form::ReportsMends;
use crate::mend_found::{MendFound, mend_status};
use crate::mend_value::found_value;
use crate::need_value::fences_value;
use commands::Report;
use json_texts::value_report;
use std::alloc::{AllocError, Global};

/// The reports as JSON.
pub struct JsonReports;

impl ReportsMends for JsonReports {
    ghost reports = { json_reports };

    fn fences_report(
        alloc: Global,
        asked: &AskedProgram,
        found: &FencesFound,
    ) -> Result<Report, AllocError> {
        let value = fences_value(alloc, asked, found)?;
        value_report(alloc, &value, fences_status(asked, found))
    }

    fn mend_report(
        alloc: Global,
        _as_text: bool,
        asked: &AskedProgram,
        found: &MendFound,
    ) -> Result<Report, AllocError> {
        let value = found_value(alloc, asked, found)?;
        value_report(alloc, &value, mend_status(asked, found))
    }
}
