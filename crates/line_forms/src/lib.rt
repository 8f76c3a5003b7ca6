//! Where a line that a reader refused departs from all the forms that such a line may have, and what may be there:
//! lines of litmus texts, of lists of steps and of debugger scripts, and tokens of conditions. It has no part in what
//! is accepted, and is for messages alone.
//!
//! Promise: a fault is placed at one token, by its kind and the forms of the line. What is said to be allowed there comes from
//! the forms that fit the most tokens. That it is the token for which the reader refuses is not proved.
//! Definitions: `specs/Places`, `Slots`, `Forms`, `Misfits`, `Stages`, `FaultPlaces`. The forms of litmus texts are those of
//! `litmus_text/specs/LineFaults`.
#![tactic(auto)]

mod fault_places;
mod forms;
mod misfits;
mod places;
mod slots;
mod stages;

pub use fault_places::fault_place;
pub use forms::commands_begun;
pub use misfits::{Misfit, program_misfit, script_misfit, step_misfit};
pub use places::{
    Place, before_comment, condition_or_end, line, statement_or_end, stop_condition_or_end,
    token_or_end,
};
pub use slots::Slot;
pub use stages::{Stage, stage_before};
