//! A store that is put elsewhere, where flushes and fences alone do not help.
//!
//! Often data is stored behind the flag that says it is there. No flush and no fence mends that: the store has to stand before the
//! other. So each store is put behind each later instruction of its straight stretch, and before each earlier one: no jump stands there
//! or leads there, nothing there sets a register that the store reads, and nothing there but flushes accesses memory by its word, or by
//! a register. The moves are tried in order, and of each moved program the mend is looked for (`mends`).
//!
//! Promise: [`first_move`] returns the first move with which a mend holds, and what it puts in, or that there is none (`AreTried`).
//! Each move before it was tried (law `each_move_before_was_tried`), and with it and what is put in what is asked holds
//! (`what_is_told_holds`). That it is the least of any kind is not said.
//! Definitions: `specs/Moves` (a move, and which there are), `Tried` (what comes of them), `Told` (where that stands in the program as
//! it is).
#![tactic(auto)]

pub mod laws;
mod listed;
mod one_move;
mod outcome;
mod passing;
mod told;
mod trying;

pub use listed::moves_of;
pub use one_move::{Move, moved};
pub use outcome::{FirstMove, MovesTried};
pub use told::{old_repair, old_site};
pub use trying::first_move;
