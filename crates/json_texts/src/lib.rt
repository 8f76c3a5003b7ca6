//! The values of JSON that reports are made of, over `serde_json`: numbers, texts, lists, and objects, most of them by `json!`.
//! Made of these: the state of a machine, how a run ended, steps and what they showed, and images, each as the text of a report
//! has it; and of an instruction also the line on which the user wrote it.
//!
//! Promise: each value that is made is the JSON (`IsJsonOf`) of a tree, and [`laws::no_tree_has_a_float`] says that it has no
//! float, of which `serde_json` says no text. [`put_number`] and [`put_text`] give an object a field; [`sited_state`] makes
//! `sited_state` of a state and of what is kept of its run, [`state_value`] `state_data` of a state alone, [`run_value`] `run_data` of how a run ended, [`seen_value`] `seen_data` of what a step showed,
//! [`step_lines_value`] `step_lines_data` of steps, [`explained_value`] `explained_data` of an image, [`put_value`] `put_data` of
//! an instruction that is put into a program; [`value_report`] the report that is a value: its compact text, and a line feed.
//! [`laws::each_step_has_its_line`] says what the lines of steps are.
//! Definitions: `specs/Objects` (trees); of its values `StateData`, `StepData`, `StepLines`, `ImageData`, `ReasonData`,
//! `RegisterData`, `ValueReports`; `SourceMaps` (names and lines).
#![tactic(auto)]

mod cpus;
mod entries;
mod fields;
mod image_parts;
pub mod laws;
mod lists;
mod reasons;
mod refusals;
mod registers;
mod report;
mod source_map;
mod states;
mod step_lines;
mod steps;
mod words;

pub use cpus::put_site;
pub use entries::entry_value;
pub use fields::{FORMAT, Fields, number_or_null, put_number, put_text, report_fields};
pub use image_parts::{all_value, candidates_value, images_value, names_value, some_value};
pub use lists::{numbers_value, places_or_null};
pub use reasons::{explained_value, missing_or_null, put_value, told_value};
pub use refusals::refused_value;
pub use registers::registers_value;
pub use report::value_report;
pub use source_map::SourceMap;
pub use states::{run_value, sited_state, state_value};
pub use step_lines::{step_line, step_lines_value};
pub use steps::{
    act_value, instruction_value, kind_value, number_value, seen_value, site_value, step_value,
    steps_value,
};
