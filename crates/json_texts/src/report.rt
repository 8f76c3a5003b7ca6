//! A report that is one value of JSON.
ghost use Rattle.std.specs.Prelude.{◌≡◌, IfOk};
ghost use Rattle.serde_json.specs.View.{view as data_of};
ghost use Rattle.json_texts.specs.Objects.{IsOfTree};
ghost use Rattle.json_texts.specs.ValueReports.{line_report};

use crate::fields::report_bytes;
use commands::{Report, Status};
use serde_json::Value;
use std::alloc::{AllocError, Global};

/// The report of a value that is the JSON of a tree. So it has no float, of which `serde_json` says no text.
///
/// # Errors
///
/// Out of memory.
pub fn value_report(alloc: Global, value: &Value, status: Status) -> Result<Report, AllocError>
    requires { IsOfTree value.now }
    ensures { IfOk result (λ report. report ≡ line_report (data_of value.now) status) }
{
    let text = report_bytes(alloc, value)?;
    Ok(Report { text, status })
}
