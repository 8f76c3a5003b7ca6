//! Lists of steps of a machine: read from a text and written, those that a machine accepts, and
//! numbered random schedules.
//!
//! Schedule `number` of a [`Plan`] from a state is the same wherever and whenever it is run: its words are those
//! of a generator that the plan's seed and the number start.
//!
//! [`Turns`] is seen as the turns that are still to come. Promise: [`read_steps`] is `steps_of` the text; `Turns::next` makes
//! the next turn of `schedule_of`.
//! Definitions: `specs/StepTexts`, `Written`; `Enabled`, `Schedules`, `Turns`; `Ranges`.
#![tactic(auto)]

mod choices;
pub mod laws;
mod masks;
mod plan;
mod range;
mod step_list;
mod step_text;

pub use choices::{MAX_ENABLED, StepList, enabled};
pub use plan::{Plan, Turns, first_steps, plan_steps, run_plan};
pub use range::{MAX_SCHEDULES, Range};
pub use step_list::{push_step, write_steps};
pub use step_text::{BadStep, StepsFault, read_steps, step_at};
