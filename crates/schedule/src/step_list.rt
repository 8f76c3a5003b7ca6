//! Writing lists of steps.
ghost use Rattle.std.specs.Prelude.{◌≡◌, ◌++◌, Ok, IfOk, OnOk, string_bytes};
ghost use Rattle.schedule.specs.StepTexts.{steps_of};
ghost use Rattle.schedule.specs.Written.{IsWritable, steps_text, written};

use machine::Step;
use std::alloc::{AllocError, Global};

/// Appends the written form of a step: one space between two tokens, numbers without leading zeros.
///
/// # Errors
///
/// Memory ran out. A part of the step may then be at the end.
pub fn push_step(text: &mut String, step: Step) -> Result<(), AllocError>
    ensures text { OnOk result (string_bytes text.new ≡ string_bytes text.old ++ written step) }
    ensures writable { OnOk result (IsWritable step) }
{
    match step {
        Step::Exec(p) => write!(text, "exec {p}"),
        Step::Drain(p, i) => write!(text, "drain {p} {i}"),
        Step::Persist(line) => write!(text, "persist {line}"),
        Step::Settle => text.push_str("settle"),
        Step::Crash => text.push_str("crash"),
    }
}

/// The written form of steps, one a line.
///
/// # Errors
///
/// Memory ran out.
pub fn write_steps(alloc: Global, steps: &[Step]) -> Result<String, AllocError>
    ensures text { IfOk result (λ text. string_bytes text ≡ steps_text steps.now) }
    // It says these steps, and so no others.
    ensures again { IfOk result (λ text. steps_of (string_bytes text) ≡ Ok steps.now) }
{
    let mut text = String::new(alloc);
    for step in steps {
        push_step(&mut text, *step)?;
        text.push('\n')?;
    }
    Ok(text)
}
