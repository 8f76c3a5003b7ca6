//! What all share that let threads work side by side: how many there may be, how many schedules have a number, to whom a
//! worker reports what it begins and what it has done, when a sixteenth of all is done, and how fast work goes on.
//!
//! Promise: [`completes_part`] is true at the last of all, and at 16 of the counts, or at each if all are fewer. [`pace_of`]
//! is the pace of what is done, and the time that the rest takes at it.
//! Definitions: `specs/Limits`, `Progress`.
#![tactic(auto)]

mod gate;
pub mod laws;
mod progress;

pub use gate::{Gate, OpenGate};
pub use progress::{Pace, completes_part, pace_of};

/// How many threads may share a board or a machine at most. Each has a seat.
pub const MAX_SEATS: u64 = 64;

/// How many numbers of schedules there are: those from 0 to 2^32 - 1.
pub const MAX_NUMBERS: u64 = 1 << 32;
