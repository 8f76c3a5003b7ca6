//! Lists of steps as text, one step a line.
ghost use Rattle.std.specs.Prelude.{◌≡◌, Some};
ghost use Rattle.outcomes.specs.Calls.{TakesOff};
ghost use Rattle.schedule.specs.StepTexts.{IsReadOf, fault_text, left_of, number_at, step_at, step_on};
ghost use Rattle.schedule.specs.declared.step_text.StepsFault.TheVariants.{NoMemory};

use machine::Step;
use std::alloc::{AllocFailed, Global};
use std::error::Error;
use std::fmt;
use text_tokens::cursor::{expect_end, next_token};
use text_tokens::{Lines, Tokens, is_plain_line, small_number};

/// Why a text is no list of steps.
#[derive(Clone, Copy, Debug, PartialEq, Eq)]
pub enum StepsFault {
    /// The lowest line, counted from 1, that is no step.
    BadLine(usize),
    /// Memory ran out.
    NoMemory,
}

impl fmt::Display for StepsFault {
    ghost output = { λ fault. Some (fault_text fault) };

    fn fmt<W: fmt::Write>(&self, f: &mut fmt::Formatter<W>) -> fmt::Result {
        match self {
            StepsFault::BadLine(line) => write!(f, "S1 BadLine {line}"),
            StepsFault::NoMemory => write!(f, "S2 NoMemory"),
        }
    }
}

impl Error for StepsFault {}

impl<T: Drop> From<AllocFailed<T>> for StepsFault {
    ghost from_gives = { λ _ fault. fault ≡ NoMemory };

    fn from(_failed: AllocFailed<T>) -> StepsFault {
        StepsFault::NoMemory
    }
}

/// A line that is no line of a list of steps.
#[derive(Clone, Copy, Debug, PartialEq, Eq)]
pub struct BadStep;

/// NUMBER.
#[tactic(auto, unfolding(crate::specs::StepTexts::number_at))]
fn next_number(tokens: &mut Tokens) -> Result<u32, BadStep>
    ensures { TakesOff (number_at (left_of tokens.old)) result (left_of tokens.new) }
{
    let token = next_token(tokens, BadStep)?;
    small_number(token).ok_or(BadStep)
}

/// The step whose first token is `first`. The tokens after it are taken off the front of `tokens`.
#[tactic(auto, unfolding(crate::specs::StepTexts::step_at))]
pub fn step_at(first: &[u8], tokens: &mut Tokens) -> Result<Step, BadStep>
    ensures { TakesOff (step_at first.now (left_of tokens.old)) result (left_of tokens.new) }
{
    if first == b"exec".as_slice() {
        Ok(Step::Exec(next_number(tokens)?))
    } else if first == b"drain".as_slice() {
        let processor = next_number(tokens)?;
        Ok(Step::Drain(processor, next_number(tokens)?))
    } else if first == b"persist".as_slice() {
        Ok(Step::Persist(next_number(tokens)?))
    } else if first == b"settle".as_slice() {
        Ok(Step::Settle)
    } else if first == b"crash".as_slice() {
        Ok(Step::Crash)
    } else {
        Err(BadStep)
    }
}

/// The step on a line, if the line has tokens.
#[tactic(auto, unfolding(crate::specs::StepTexts::step_on, crate::specs::StepTexts::step_of))]
fn step_on(line: &[u8]) -> Result<Option<Step>, BadStep>
    ensures { result ≡ step_on line.now }
{
    if !is_plain_line(line) {
        return Err(BadStep);
    }
    let mut tokens = Tokens::new(line);
    let Some(first) = tokens.next() else {
        return Ok(None);
    };
    let step = step_at(first, &mut tokens)?;
    expect_end(&mut tokens, BadStep)?;
    Ok(Some(step))
}

/// The steps that the text says, one a line.
///
/// A step is `exec P`, `drain P I`, `persist LINE`, `settle` or `crash`, and a number is 1 to 10
/// decimal digits, below 2^32. A line without tokens says no step. The lowest line that says anything
/// else is the fault.
///
/// # Errors
///
/// The number of that line, or that memory ran out.
#[tactic(auto, using(crate::proofs::StepLines::line_steps))]
pub fn read_steps(alloc: Global, text: &[u8]) -> Result<Vec<Step>, StepsFault>
    ensures { IsReadOf text.now result }
{
    let mut steps = Vec::new(alloc);
    let mut number = 0;
    for line in Lines::new(text) {
        number += 1;
        match step_on(line) {
            Ok(Some(step)) => steps.push(step)?,
            Ok(None) => {}
            Err(BadStep) => return Err(StepsFault::BadLine(number)),
        }
    }
    Ok(steps)
}
