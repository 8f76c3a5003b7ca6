//! The reports of `fences` and `mend`, in lines and as JSON: what each flush and fence of a program is needed for, and which are to
//! be put in. All runs of the program from its first state are explored, and all runs of it with such a change. No steps are read.
//!
//! Promise: [`fences`] does `fences_command` in a form, [`mend`] does `mend_command`. What is reported is one of the things that may be
//! found (`IsFound`; `IsMendFound`: `IsMended` of `mends`, `AreTried` of `moves`), with the status that it has in each form. A form ([`ReportsMends`]) says what was found:
//! [`TextReports`] in lines, [`JsonReports`] as JSON.
//! Definitions: `specs/Beginnings` (what is asked of which program), `FencesFound`, `MendsFound` (what may be found, and the status),
//! `FencesCommand`, `MendCommand`; of a form `ReportForms`; in lines `NeedTexts`, `MendTexts`, `TextReports`; as JSON `NeedData`,
//! `MendData`, `JsonReports`.
#![tactic(auto)]

mod asked_program;
mod command;
mod fences_found;
mod form;
mod json_form;
mod mend_found;
mod mend_job;
mod mend_search;
mod mend_text;
mod mend_value;
mod need_text;
mod need_value;
mod search;
mod text_form;

pub use asked_program::AskedProgram;
pub use command::{fences, mend};
pub use fences_found::{FencesFound, NeedsTold};
pub use form::ReportsMends;
pub use json_form::JsonReports;
pub use mend_found::MendFound;
pub use mend_job::{MendJob, Ways};
pub use text_form::TextReports;
