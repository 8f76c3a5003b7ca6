//! What all commands of the program share: what they are asked, faults and statuses, the devices that they read and write,
//! how the sources are read and the report is written, what the sources say, and the texts of a state and of a step. Also what
//! `check` and `hunt` say of a crash image: its words by name, the writes that are missing in it, and why each may be.
//!
//! Promise: [`read_sources`] and [`write_report`] alone touch devices; [`push_state`] appends `state_text`, [`push_seen`] what
//! a step showed. Of a crash image [`image_explained`] returns the text `image_explained`.
//! Definitions: `specs/Serving` (what a command does), `Works` (what it makes of its sources, part by part), `Faults`, `Jobs`,
//! `AskedSites`, `Devices`, `Programs`, `Statuses`; the texts: `StateTexts`, `SeenTexts`, `TriedTexts`, `ImageTexts`,
//! `OutcomeTexts`, `FaultTexts`, `ScriptFaultTexts`, `Sentences` (on refused steps), `MissingTexts` (a crash image and what is
//! missing in it).
#![tactic(auto)]

mod asked_site;
mod device;
mod fault;
mod image_text;
mod jobs;
pub mod laws;
mod missing_text;
mod number_text;
mod outcome_text;
mod program;
mod script_fault;
mod seen_text;
mod sentences;
mod service;
mod state_text;
mod status;
mod transfer;
mod tried_text;

pub use asked_site::{AskedSite, site_named};
pub use device::{Failed, Metered, Sink, Source};
pub use fault::{Device, Fault, Missing, Refused, Stage};
pub use image_text::{
    push_candidates, push_image, push_images, push_names_shown, push_values, push_words,
};
pub use jobs::{
    AskedRuns, CheckOptions, Demand, EndsOptions, FencesOptions, HuntOptions, ImagesOptions, Job,
    LossesOptions, MendOptions, NextOptions, OutcomesOptions, QuestionOptions, ReplayOptions,
    ScheduleJob, SetOptions, TallyOptions, Task, TraceOptions,
};
pub use missing_text::{
    image_explained, push_image_lines, push_image_named, push_missing_line, push_where,
};
pub use number_text::{push_labelled, push_number};
pub use outcome_text::{Named, behind, number_at, push_named, push_registers};
pub use program::{
    condition_in, load, machine_after, read_condition, read_lined, read_list, read_program,
    read_questions,
};
pub use script_fault::ScriptFault;
pub use seen_text::{push_act, push_seen};
pub use sentences::refusal_sentence;
pub use service::{Report, Sources, read_sources, write_report};
pub use state_text::{
    push_below_cpu, push_counts, push_cpu_line, push_entry, push_memory, push_run, push_site,
    push_state, word_name,
};
pub use status::Status;
pub use transfer::{MAX_INPUT, ReadFault};
pub use tried_text::push_tried;
