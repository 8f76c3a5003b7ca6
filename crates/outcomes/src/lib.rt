//! The words in which every layer states its rules: an outcome or the first refusal, and what a call
//! answers and leaves beside what is stated. And [`OrNoMemory`]: a fault, or out of memory.
//!
//! Definitions: `specs/Outcomes` (an outcome or the first refusal), `Calls` (what a call returns and leaves), `Lists` (the
//! newest entry that gives something), `Faults` (the fault that an error stands for, and what is printed of it).
#![tactic(auto)]

ghost use Rattle.std.specs.Prelude.{◌≡◌, ℕ, true, false, Some, None, Ok, Err};
ghost use Rattle.outcomes.specs.Outcomes.{refuse, refuse_some, refused_as};

mod or_no_memory;

pub use or_no_memory::{OrNoMemory, Refusing};

/// A test that holds refuses, and one that does not hold refuses nothing, whatever the refusal is called.
pub fn tests_refuse()
    ensures holds { (f : ℕ → ℕ) (why : ℕ) → refused_as f (refuse why true) ≡ Err (f why) }
    ensures passes { (f : ℕ → ℕ) (why : ℕ) → refused_as f (refuse why false) ≡ Ok tt }
    ensures some { (f g : ℕ → ℕ) (a : ℕ) → refused_as f (refuse_some g (Some a)) ≡ Err (f (g a)) }
    ensures none { (f g : ℕ → ℕ) → refused_as f (refuse_some g None) ≡ Ok tt }
{}
