//! The lines for a step that was refused: the step, its line, and what refused it.
ghost use Rattle.std.specs.Prelude.{◌≡◌, None, MatchOption};
ghost use Rattle.machine.specs.Steps.{run_of};
ghost use Rattle.explanations.specs.Refusals.{IsRefused};

use crate::evidence::Evidence;
use crate::parts::{Pushed, again};
use crate::reasons::push_reason;
use crate::step_lines::line_of_step;
use commands::{push_tried, read_list, read_program};
use isa::Object;
use machine::laws::run_is_a_prefix;
use machine::{Machine, Refusal, Step, View};
use std::alloc::{AllocError, Global};

/// A step that a machine refused.
#[derive(Clone, Copy, Debug, PartialEq, Eq)]
pub struct Refused {
    /// Its place in the list of steps, from 0.
    pub place: usize,
    /// The step.
    pub step: Step,
    /// Why it was refused.
    pub refusal: Refusal,
}

/// Makes steps up to the first that is refused, if one is. The machine is then as that step found it.
fn refused_step(machine: &mut Machine, steps: &[Step]) -> Option<Refused>
    ensures refused { MatchOption result ((run_of steps.now machine.old).refusal ≡ None) (IsRefused steps.now machine.old) }
    ensures state { machine.new ≡ (run_of steps.now machine.old).state }
{
    run_is_a_prefix();
    let (place, refusal) = machine.run(steps);
    match refusal {
        Some(refusal) => Some(Refused {
            place,
            step: steps[place],
            refusal,
        }),
        None => None,
    }
}

/// Appends the lines for a step that was refused in this state.
fn push_refused(
    text: &mut String,
    object: &Object,
    view: &View,
    refused: Refused,
    steps: &[u8],
) -> Pushed {
    let place = refused.place;
    match line_of_step(steps, place) {
        Some(line) => write!(text, "step {place}, line {line}: "),
        None => write!(text, "step {place}: "),
    }?;
    push_tried(text, object.layout(), view, refused.step)?;
    text.push_str("\n")?;
    push_reason(text, object, view, refused.step, refused.refusal)?;
    text.push_str("\n")
}

/// Makes steps on the machine of a program, and appends the lines for the one that is refused, if one is.
fn push_made(text: &mut String, object: &Object, list: &[Step], steps: &[u8]) -> Pushed {
    let mut machine = Machine::load(*text.allocator(), object)?;
    match refused_step(&mut machine, list) {
        Some(refused) => push_refused(text, object, &machine.view(), refused, steps),
        None => Ok(()),
    }
}

/// The same for the steps of a list, where it has no fault.
fn push_list(text: &mut String, object: &Object, steps: &[u8]) -> Pushed {
    match again(read_list(*text.allocator(), steps))? {
        Some(list) => push_made(text, object, &list, steps),
        None => Ok(()),
    }
}

/// Makes the steps on the machine of the program, and appends the lines for the one that is refused, if one is.
pub(crate) fn push_refusal(text: &mut String, evidence: &Evidence<'_>) -> Pushed {
    match again(read_program(*text.allocator(), evidence.program))? {
        Some(object) => push_list(text, &object, evidence.steps),
        None => Ok(()),
    }
}

/// The lines for the step that `run` or `trace` reported as refused: the step, its line, and what refused it, in names.
/// Empty where no step is refused.
///
/// # Errors
///
/// Out of memory.
pub fn explain_refusal(alloc: Global, evidence: &Evidence<'_>) -> Result<String, AllocError> {
    let mut text = String::new(alloc);
    push_refusal(&mut text, evidence)?;
    Ok(text)
}
