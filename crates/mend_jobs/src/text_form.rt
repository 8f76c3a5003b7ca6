//! The reports in lines.
ghost use Rattle.mend_jobs.specs.TextReports.{text_reports};

use crate::asked_program::AskedProgram;
use crate::fences_found::{FencesFound, fences_status};
use crate::form::ReportsMends;
use crate::mend_found::{MendFound, mend_status};
use crate::mend_text::said_text;
use crate::need_text::fences_text;
use commands::Report;
use std::alloc::{AllocError, Global};

/// The reports in lines.
pub struct TextReports;

impl ReportsMends for TextReports {
    ghost reports = { text_reports };

    fn fences_report(
        alloc: Global,
        asked: &AskedProgram,
        found: &FencesFound,
    ) -> Result<Report, AllocError> {
        Ok(Report {
            text: fences_text(alloc, asked, found)?.into_bytes(),
            status: fences_status(asked, found),
        })
    }

    fn mend_report(
        alloc: Global,
        as_text: bool,
        asked: &AskedProgram,
        found: &MendFound,
    ) -> Result<Report, AllocError> {
        Ok(Report {
            text: said_text(alloc, as_text, asked, found)?.into_bytes(),
            status: mend_status(asked, found),
        })
    }
}
