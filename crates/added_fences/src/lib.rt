//! What is put in only takes runs away.
//!
//! Take a program, and the same with fences and flushes put in: instructions that were not there, so that places behind them are further
//! and jumps are led on. A flush is of a word that it names by its address, or of what the instruction before it accesses, which leaves
//! the operand as it was: so it never traps. Each run of the second, less the steps of what was put in, is a run of the first. On the
//! way the registers, the flags, the traps and the coherent and persisted words are the same, and so are the places, led back. So what
//! breaks a question of the second breaks it of the first, and what the first keeps the second keeps.
//!
//! This crate has no code but laws (`laws`). Definitions: `specs/Added` (which programs, and which states, are so to each other);
//! `Traced` (how steps and runs of the one are those of the other); `Sets` (sets of instructions that are put in).
#![tactic(auto)]

pub mod laws;
