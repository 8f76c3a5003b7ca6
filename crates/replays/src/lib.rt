//! A run that breaks what is asked of a program, once more in the program with more flushes and fences.
//!
//! What is put into a program takes runs away, but not each: a run may be left that does the same. It is followed here step by step. What
//! was put in runs where it stands, and leaves its store buffer only where something waits for that. In the state to which this leads, or
//! in few that are reached from there, the condition may be false again.
//!
//! Promise: where [`breaks_again`] says so, a run of the program breaks what is asked (`IsBrokenBy` of `verdicts`). Where it does not,
//! nothing is said. Definitions: `specs/Followed` (what a run still may come to).
#![tactic(auto)]

mod buffers;
mod follower;
mod put_in;
mod replay;

pub use put_in::PutIn;
pub use replay::breaks_again;
