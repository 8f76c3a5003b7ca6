//! Faults of a text behind its first: where the line of a fault is left out, the text is read again.
use crate::evidence::Evidence;
use crate::explanation::explain;
use crate::position::Position;
use crate::sheet_faults::line_of;
use crate::slips::bounds_block;
use commands::{Fault, Refused, read_questions};
use litmus_text::{LineFault, TextFault};
use std::alloc::{AllocError, Global};
use text_tokens::{Lines, Tokens};

/// How many faults of a text are told at most, with the first.
const FAULTS: usize = 20;

/// A fault of a text behind its first.
#[derive(Drop)]
pub struct Further {
    /// What is wrong.
    pub kind: LineFault,
    /// Where it is.
    pub position: Position,
    /// What was expected, or what to do.
    pub hint: String,
}

/// What stands for a line that has a fault, so that the lines behind it are read as they are: an instruction that does nothing, and
/// nothing for an initial value. There is none for a line that lines behind it need: what names words, or bounds the lines of a
/// processor.
fn stand_in(line: &[u8]) -> Option<&'static [u8]> {
    let first = Tokens::new(line).next()?;
    if first == b"init".as_slice() {
        Some(b"".as_slice())
    } else if bounds_block(first) {
        None
    } else {
        Some(b"nop".as_slice())
    }
}

/// A text with another line in the place of that of this number, from 1.
fn with_line(
    alloc: Global,
    text: &[u8],
    number: usize,
    line: &[u8],
) -> Result<Vec<u8>, AllocError> {
    let mut made = Vec::new(alloc);
    let mut at: usize = 0;
    for old in Lines::new(text) {
        at = at.saturating_add(1);
        made.extend_from_slice(if at == number { line } else { old })?;
        made.push(b'\n')?;
    }
    Ok(made)
}

/// The fault of a program's text and its line, if it has one.
fn text_fault(alloc: Global, program: &[u8]) -> Result<Option<(LineFault, usize)>, AllocError> {
    match read_questions(alloc, program) {
        Err(Fault::Refused(Refused::Text(TextFault::At(kind, number)))) => Ok(Some((kind, number))),
        Err(Fault::Missing(_)) => Err(AllocError),
        _ => Ok(None),
    }
}

/// What there is to say of the fault of a text.
fn further_of(
    alloc: Global,
    evidence: &Evidence<'_>,
    kind: LineFault,
    number: usize,
) -> Result<Option<Further>, AllocError> {
    let fault = Fault::Refused(Refused::Text(TextFault::At(kind, number)));
    let told = explain(alloc, evidence, fault)?;
    let Some(position) = told.position else {
        return Ok(None);
    };
    let hint = format!(in alloc; "{}", told.hint())?;
    Ok(Some(Further {
        kind,
        position,
        hint,
    }))
}

/// Whether a fault of this line is told.
fn is_told(found: &[Further], number: usize) -> bool {
    found.iter().any(|one| one.position.line == number)
}

/// The faults of a text behind this one, which is its first, in the order in which they are found: at most 19. After a fault that
/// leaves open what the lines behind it say, there are none.
///
/// # Errors
///
/// Out of memory.
pub fn further_faults(
    alloc: Global,
    evidence: &Evidence<'_>,
    fault: Fault,
) -> Result<Vec<Further>, AllocError> {
    let mut found = Vec::new(alloc);
    let Fault::Refused(Refused::Text(TextFault::At(_, first))) = fault else {
        return Ok(found);
    };
    let mut number = first;
    let mut text = Vec::new(alloc);
    text.extend_from_slice(evidence.program)?;
    for _ in 1..FAULTS {
        let Some(line) = stand_in(line_of(&text, number)) else {
            return Ok(found);
        };
        text = with_line(alloc, &text, number, line)?;
        let Some((kind, next)) = text_fault(alloc, &text)? else {
            return Ok(found);
        };
        if next == first || is_told(&found, next) {
            return Ok(found);
        }
        let left = Evidence {
            program: &text,
            steps: evidence.steps,
            asked: evidence.asked,
        };
        if let Some(one) = further_of(alloc, &left, kind, next)? {
            found.push(one)?;
        }
        number = next;
    }
    Ok(found)
}
