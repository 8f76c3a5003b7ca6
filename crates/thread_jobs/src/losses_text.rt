//! The text of the losses among schedules.
ghost use Rattle.std.specs.Prelude.{◌≡◌, ◌++◌, IfOk, OnOk, string_bytes};
ghost use Rattle.thread_jobs.specs.HuntReports.{losses_text};
ghost use Rattle.thread_jobs.specs.TextReports.{losses_report};

use commands::{Report, Status};
use hunt::Losses;
use std::alloc::{AllocError, Global};

/// Appends the losses among so many schedules.
fn push_losses(text: &mut String, runs: u64, losses: Losses) -> Result<(), AllocError>
    ensures { OnOk result (string_bytes text.new
        ≡ string_bytes text.old ++ losses_text runs losses) }
{
    writeln!(text, "broken {} of {runs}", losses.broken)?;
    if let Some(at) = losses.first {
        writeln!(text, "first {} {}", at.number, at.turn)?;
    }
    Ok(())
}

/// The report of the losses among so many schedules.
pub(crate) fn losses_report(alloc: Global, runs: u64, losses: Losses) -> Result<Report, AllocError>
    ensures { IfOk result (λ report. report ≡ losses_report runs losses) }
{
    let mut text = String::new(alloc);
    push_losses(&mut text, runs, losses)?;
    Ok(Report {
        text: text.into_bytes(),
        status: Status::Done,
    })
}
