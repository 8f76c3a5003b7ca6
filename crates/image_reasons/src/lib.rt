//! Which writes are missing in a crash image, and why each may be. And a program with an instruction that was not there.
//!
//! Promise: [`missing_writes`] gives what `missing_after` says. Nothing that persisted is called missing (law
//! `missing_writes_are_lost`), no missing write is left out (`missing_writes_are_all`), what is told of instructions they did
//! (`sites_are_where_they_ran`), and the reason that is told is so (`reasons_are_so`). [`repaired`] gives the program with an
//! instruction put in: it has that instruction more, and all else is as it was (`one_instruction_is_put_in`). [`origins_after`]
//! gives `origins_of` a run: which instruction each entry of its last state is of, place by place (`entries_are_there`).
//! Definitions: `specs/Origins` (which operation each buffered and each pending entry is of, step by step), `Reasons` (the writes
//! that are missing, and why), `Repairs` (`repaired`); `Lost`, `Told`, `Reasoned`, `PutIn` (words of the laws).
#![tactic(auto)]

mod after;
mod delays;
mod entries;
mod insertion;
pub mod laws;
mod missing;
mod origins;
mod reasons;
mod repair;
mod stores;

pub use after::{missing_writes, origins_after};
pub use entries::Site;
pub use insertion::repaired;
pub use missing::{Missing, Why};
pub use origins::Origins;
pub use repair::{Repair, Side};
