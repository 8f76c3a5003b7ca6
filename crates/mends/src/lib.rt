//! The least set of flushes and fences with which a program keeps what is asked.
//!
//! Behind each instruction that accesses memory a flush of what it accesses may be put in, and a fence (`candidates`). What is put in only
//! takes runs away (`added_fences`). So one set with which a run breaks what is asked rules out each set that is within it, and a set is
//! needed that has something else. The sets are tried in the order of what they cost; where a run breaks one, that run is
//! followed with more and more put in (`replays`), and what leaves it broken is the bound for what is tried next. Several workers ask the
//! next sets at once; what comes of one is used when its turn comes, and let go where it is ruled out by then, or behind the answer.
//!
//! Promise: [`mend`] returns the first set of all, in the order of cost and but for those that are open, with which what is asked holds; or
//! that none is needed, or that no set of any size holds, or which are open (`IsMended`). Where none is open, it is of least cost among all sets
//! (law `what_is_put_in_is_least`). Definitions: `specs/Mends` (which sets are ruled out, and what is told), `Searches` (on the way), `Ahead`
//! (asked before their turn).
#![tactic(auto)]

mod ahead;
mod bound;
pub mod laws;
mod marks;
mod mending;
mod outcome;
mod search;
mod task;
mod tried;
mod turn;

pub use mending::mend;
pub use outcome::{MOST_OPEN, Mended, Open, Put};
