//! The verdict on all runs of a program from its first state, and what it is to break what is asked of them.
//!
//! A program that is changed, by what is left out of it or put in, is asked anew: its machine is loaded, and all runs from its first
//! state are explored.
//!
//! Promise: [`verdict_on`] returns a verdict that is right of every run of the program (`IsTold`).
//! Definitions: `specs/Verdicts` (what is told of a program, and what breaks a question).
#![tactic(auto)]

pub mod laws;
mod verdict;

pub use verdict::verdict_on;
