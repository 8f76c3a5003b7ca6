//! The commands that work with threads, over readers and writers that may fail: schedules are run, or threads share
//! one machine, and the report is written.
//!
//! Promise: [`work`] does `work_command` of a job in a form, [`share`] `live_command`: the report of `live` is made of a journal in
//! which each thread made its steps of the list, in order. A form ([`ReportsSchedules`], of `live` [`ReportsJournals`]) prints what
//! was found: [`TextReports`] does it in lines, that of `json_jobs` as JSON.
//! Definitions: `specs/ThreadReports` (what each command may answer), `HuntStarts` (what schedules begin with), `Founds` (what a
//! hunt found); of a form `ReportForms`; of the text `TextReports`, `TallyReports`, `HuntReports`; of `live`
//! `Dealings`, `Brought` (what its threads bring back), `JournalForms`, `LiveTexts`.
#![tactic(auto)]

mod command;
mod deal;
mod ends_report;
mod ends_text;
mod fault;
mod form;
mod found;
mod hunt_report;
mod hunt_text;
mod journal_form;
pub mod laws;
mod live_report;
mod live_text;
mod losses_report;
mod losses_text;
mod start;
mod tally_report;
mod tally_text;
mod text_form;
mod worker;

pub use command::{Resources, share, work};
pub use form::ReportsSchedules;
pub use found::{Found, steps_found, steps_to};
pub use hunt_text::{explains_image, none_status};
pub use journal_form::ReportsJournals;
pub use start::HuntStart;
pub use text_form::TextReports;
