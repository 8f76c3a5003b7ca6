//! Which of the writes that are missing in what a crash left are enough alone: had one persisted too, what was asked would hold from
//! there. The others hide it.
//!
//! A write is let go on, on a copy of the machine: it leaves its store buffer, and persists, and before it only what has to go first. No
//! instruction runs. Then the machine crashes, and every run from there is explored; or the condition is asked of what the crash leaves.
//!
//! Promise: [`told_behind`] and [`told_in_image`] tell each missing write, and each that they tell as enough is so (`IsEnoughBehind`,
//! `IsEnoughInImage`). Of one that is not told as enough nothing is said: it may be that the steps were not found, or that it is not
//! told within the limit of states. Definitions: `specs/Enough`.
#![tactic(auto)]

mod keeps;
mod moves;
mod search;
mod telling;
mod told;

pub use telling::{told_behind, told_in_image};
pub use told::{MOST_TRIED, Told};
