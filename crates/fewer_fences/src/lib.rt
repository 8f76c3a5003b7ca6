//! Flushes and fences only take runs away.
//!
//! Take a program, and the same with a nop in place of some of its fences and of its flushes of words that are named by their
//! addresses. Each run of the first, less the drains of what those instructions buffered and the settling of their markers, is a run
//! of the second. On the way the registers, the flags, the traps, the places in programs and the coherent and persisted words are the
//! same. So what a crash may leave of the first, it may leave of the second, and an end of the first is one of the second.
//!
//! A flush of a word that a register names is another matter: it may trap where a nop does not. One of a word that is named may not,
//! where the layout has the word: so the first program is to be one that can be loaded, as each `isa::Object` is.
//!
//! This crate has no code but laws (`laws`). Definitions: `specs/Thinner` (which programs, and which states, are so to each other);
//! `Followed` (how steps and runs of the one are those of the other).
#![tactic(auto)]

pub mod laws;
