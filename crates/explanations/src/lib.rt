//! What explains a fault: where it is in what was read, and a sentence that says what was expected, or what to do.
//! They are for messages alone. What is read, run and reported does not depend on them.
//!
//! [`Evidence`] is what a command read and was asked. Promise: which condition, line and entry is meant is defined. The
//! sentences are data.
//! Definitions: `specs/Refusals`, `Questions`, `Declarations`, `StepLines`.
#![tactic(auto)]

mod conditions_asked;
mod evidence;
mod explanation;
mod further;
mod hints;
mod item_faults;
mod marks;
mod names;
mod parts;
mod position;
mod program_faults;
mod reasons;
mod refused;
mod script_faults;
mod sentences;
mod sheet_faults;
mod slips;
mod spots;
mod step_faults;
mod step_lines;

pub use conditions_asked::explain_answer;
pub use evidence::Evidence;
pub use explanation::{Explanation, explain};
pub use further::{Further, further_faults};
pub use position::Position;
pub use refused::explain_refusal;
pub use sentences::sentence;
