//! Where the steps of a list are in their text.
ghost use Rattle.std.specs.Prelude.{◌≡◌};
ghost use Rattle.explanations.specs.StepLines.{step_line_of};

use text_tokens::{Lines, Tokens};

/// The line of a text, from 1, that says the step at a place of its list, from 0. A line without tokens says none.
pub(crate) fn line_of_step(text: &[u8], place: usize) -> Option<usize>
    ensures { result ≡ step_line_of text.now place }
{
    let mut left = place;
    let mut number = 0;
    for line in Lines::new(text) {
        number += 1;
        if Tokens::new(line).next().is_some() {
            if left == 0 {
                return Some(number);
            }
            left -= 1;
        }
    }
    None
}
