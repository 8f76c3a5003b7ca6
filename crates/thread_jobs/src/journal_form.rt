//! In which form it is reported what threads did on one machine.
ghost use Rattle.std.specs.Prelude.{◌≡◌, IfOk, length, map};
ghost use Rattle.thread_jobs.specs.JournalForms.{JournalForm};

use commands::Report;
use litmus_text::LinedObject;
use live::Closed;
use std::alloc::{AllocError, Global};

/// A form of the report of `live`.
pub trait ReportsJournals {
    /// The report of a program, of a journal, and of the state that this left.
    ghost journals: { JournalForm };

    /// The report of a machine of the program that was closed, and of its journal.
    ///
    /// # Errors
    ///
    /// Out of memory.
    fn journal_report(
        alloc: Global,
        lined: &LinedObject,
        closed: &Closed,
    ) -> Result<Report, AllocError>
        requires { closed.now.machine.shape ≡ map length lined.now.object.layout }
        ensures { IfOk result (λ report. report
            ≡ journals lined.now closed.now.journal.items closed.now.machine) };
}
