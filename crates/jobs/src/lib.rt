//! The commands of one thread but `debug`, over readers and writers that may fail: `run`, `images`, `law`, `trace`, `next`,
//! `replay`, `asm` and `dis`; and those that explore every run of a program, `check` and `outcomes`.
//!
//! Promise: [`job`] does `command_of` a job; [`check`] does `check_command`, [`list_outcomes`] does `outcomes_command`. A report of
//! these two is made of a verdict on every run; any verdict that is right may be reported. [`ask`] does `ask_command`: each question
//! of a program has an answer that is right of every run (`IsAnswer`).
//! What `run`, `images`, `law` and `replay` find is an [`Answer`] with its status ([`find_run`], ..), whatever [`Form`] prints it:
//! [`print`] makes `command_work`.
//! Definitions: `specs/Forms`, `Answers`, `Reports`; `ImageReports`, `ImagesTold` (an image that `images` explains), `Traces`, `NextSteps`,
//! `Values` (what `--set` reads), `PairTexts`; of every run `Starts` (what an exploration begins with), `Given`, `Crashes`, `Explained`, `ToldTexts`,
//! `CheckReports`, `OutcomeReports`, `RunCommands`; `Questions` (their answers), `QuestionReports`. What is said of an image is of `commands`.
#![tactic(auto)]

mod all_runs;
mod asking;
mod check_report;
mod closed_set;
mod command;
mod crashes;
mod explained;
mod failure;
mod findings;
mod form;
mod given;
mod image_list;
mod image_report;
mod image_text;
mod image_told;
pub mod laws;
mod lines;
mod listing;
mod next;
mod next_list;
mod order;
mod outcome_list;
mod outcome_text;
mod question;
mod question_answer;
mod question_asked;
mod question_lines;
mod question_report;
mod questions_asked;
mod questions_joined;
mod replay;
mod report;
mod run;
pub mod run_laws;
mod start;
mod told_text;
mod trace;
mod unreached;
mod values;
mod verdict;

pub use all_runs::{ask, check, list_outcomes};
pub use asking::{Asking, asking_start};
pub use closed_set::{LeastSet, find_set};
pub use command::job;
pub use explained::{CrashTold, Explained, explanation_of};
pub use failure::{asked_name, asks_why, push_failure};
pub use findings::{found_status, push_held};
pub use form::{Answer, Form, print};
pub use given::Given;
pub use image_report::find_images;
pub use image_text::push_set;
pub use image_told::{ImageTold, WithImage};
pub use listing::Listing;
pub use next::{next_status, next_text, push_next};
pub use next_list::next_steps;
pub use order::find_pair;
pub use outcome_list::outcomes_asked;
pub use question_answer::{Answered, QuestionAnswer, QuestionsFound, answers_status};
pub use question_report::print_found;
pub use questions_asked::{find_answers, run_options};
pub use replay::{Scheduled, find_schedule};
pub use report::report_on;
pub use run::{Ran, find_run, status_of};
pub use start::{Start, check_start, outcomes_start};
pub use unreached::has_run;
pub use values::values_in;
pub use verdict::{ReportsVerdict, fault_of, report_from};
