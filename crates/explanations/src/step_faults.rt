//! A fault of a list of steps.
use crate::hints::{OF_A_STEP, hint_of};
use crate::parts::{Pushed, bytes_at, push_misfit, push_sentence};
use crate::sentences::refused_sentence;
use crate::spots::Spot;
use commands::Refused;
use line_forms::{line, step_misfit};

/// Appends the lines for the line of this number, from 1, that is no step.
pub(crate) fn push_step_fault(text: &mut String, steps: &[u8], number: usize) -> Pushed {
    let line = line(steps, number).unwrap_or(b"");
    let misfit = step_misfit(*text.allocator(), line)?;
    push_misfit(text, number, line, &misfit)?;
    let spot = Spot::on_line(line, bytes_at(line, misfit.place));
    let sentence = refused_sentence(Refused::Steps(number));
    push_sentence(text, sentence, hint_of(&OF_A_STEP, &spot))
}
