//! Where the reading of a litmus text is before a line.
ghost use Rattle.std.specs.Prelude.{◌≡◌};
ghost use Rattle.line_forms.specs.Stages.{has_colon, stage_after, stage_before};
ghost use Rattle.text_tokens.specs.Text.{tokens_of};

use text_tokens::{Lines, Tokens};

/// Where the reading of a litmus text is before a line.
#[derive(Clone, Copy, Debug, PartialEq, Eq)]
pub enum Stage {
    /// Before the line `litmus 1`.
    Opening,
    /// Among the lines of the layout and the initial values.
    Data,
    /// In the main program of a processor.
    Main,
    /// In the recovery program of a processor.
    Recovery,
    /// After a processor.
    Between,
}

/// Whether the line's second token is `:`, so that it is a label line within a program.
pub(crate) fn has_colon(line: &[u8]) -> bool
    ensures { result ≡ has_colon (tokens_of line.now) }
{
    let mut tokens = Tokens::new(line);
    if tokens.next().is_none() {
        return false;
    }
    match tokens.next() {
        Some(token) => token == b":".as_slice(),
        None => false,
    }
}

/// The stage after a line without a fault.
fn stage_after(stage: Stage, line: &[u8]) -> Stage
    ensures { result ≡ stage_after stage (tokens_of line.now) }
{
    let Some(first) = Tokens::new(line).next() else {
        return stage;
    };
    match stage {
        Stage::Opening => Stage::Data,
        Stage::Data | Stage::Between if first == b"cpu".as_slice() => Stage::Main,
        Stage::Main if first == b"recover".as_slice() && !has_colon(line) => Stage::Recovery,
        Stage::Main | Stage::Recovery if first == b"end".as_slice() && !has_colon(line) => {
            Stage::Between
        }
        _ => stage,
    }
}

/// The stage before the line of this number, from 1. The lines before it have no fault.
pub fn stage_before(text: &[u8], number: usize) -> Stage
    ensures { result ≡ stage_before text.now number }
{
    Lines::new(text)
        .take(number.saturating_sub(1))
        .fold(Stage::Opening, |stage, line| stage_after(stage, line))
}
