//! The reports of commands as JSON: those of one thread as whole commands ([`job`], [`check`], [`list_outcomes`]), those of
//! schedules (`tally`, `hunt`) and of `live` as a form of their reports ([`JsonReports`]).
//!
//! Promise: [`job`] does `json_command_of` a job; [`check`] does `check_command`, [`ask`] does `ask_command`, [`list_outcomes`] does
//! `outcomes_command`. [`JsonReports`], with which `thread_jobs::work` is called, prints `json_reports`, and `json_journals` where
//! `thread_jobs::share` is called with it. What is read, tested, run and hunted is the same as for the text, and so is the status.
//! Definitions: `specs/JsonAnswers`, `JsonReports` (`images`, `law`, `replay`), `EndReports` (`run`), `StepReports` (`trace`),
//! `NextReports`, `RunReports` (`check`, `outcomes`), `QuestionData` (the questions of a program); of schedules `JsonForm`,
//! `TallyData`, `HuntData`; of `live` `LiveData`; of the values `json_texts`. That each command ends as with its report as text:
//! `SameStatuses`, in `laws`; of schedules and of `live`, in `schedule_laws`.
#![tactic(auto)]

mod all_runs;
mod check_report;
mod command;
mod ends_value;
mod form;
mod hunt_value;
mod json;
pub mod laws;
mod live_value;
mod losses_value;
mod next_report;
mod number_lists;
mod outcome_report;
mod question_value;
mod report;
mod run_report;
pub mod schedule_laws;
mod tally_value;
mod trace_report;
mod unreached;

pub use all_runs::{ask, check, list_outcomes};
pub use command::job;
pub use form::JsonReports;
