//! Choices among things that cost something, in the order of what they cost.
//!
//! A choice is a flag for each thing, whether it is taken. Choices wait in a queue, and the least is taken out first: what takes more is
//! put in for it, until all are tried or ruled out.
//!
//! Promise: [`take_first`] takes the choice out that comes before all others (`IsTaken`), and [`spread`] puts in what takes one thing more
//! (`IsSpread`). Then less is left to try than before (`weight`). Definitions: `specs/Choices` (choices, and their order), `Waiting`.
#![tactic(auto)]

mod flags;
mod order;
mod queue;

pub use flags::{is_within, nothing};
pub use queue::{spread, take_first};
