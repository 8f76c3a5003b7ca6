//! What may be put into a program so that less is lost: flushes and fences, each behind an instruction that accesses memory.
//!
//! Behind each instruction that accesses memory a flush of what it accesses may be put in, and a fence.
//!
//! Promise: [`candidates`] lists them by place; [`with_all`] is a program with some of them; [`cost`] is what these cost.
//! Definitions: `specs/Candidates` (what may be put in), `Sets` (a program with some, what they cost).
#![tactic(auto)]

mod added;
mod listed;

pub use added::{cost, costs, with_all};
pub use listed::candidates;
