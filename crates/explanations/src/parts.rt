//! Parts that several explanations have: what was read again, lines with their numbers, what may be there, sentences.
ghost use Rattle.std.specs.Prelude.{◌≡◌, slice_range};
ghost use Rattle.line_forms.specs.Places.{IsWithin};

use crate::marks::{push_pointed, push_shown};
use commands::{Fault, push_number};
use line_forms::{Misfit, Place, Slot};
use std::alloc::AllocError;

/// What comes of appending to a text: memory may run out.
pub(crate) type Pushed = Result<(), AllocError>;

/// What was read again; None where it has a fault.
///
/// # Errors
///
/// Out of memory.
pub(crate) fn again<T: Drop>(read: Result<T, Fault>) -> Result<Option<T>, AllocError> {
    match read {
        Ok(value) => Ok(Some(value)),
        Err(Fault::Missing(_)) => Err(AllocError),
        Err(Fault::Refused(_) | Fault::Device(_)) => Ok(None),
    }
}

/// Appends a line after its number, and marks under a place in it.
pub(crate) fn push_numbered(text: &mut String, number: usize, line: &[u8], place: Place) -> Pushed {
    let start = text.len();
    push_number(text, number as u64)?;
    let width = text.len().saturating_sub(start);
    push_pointed(text, width, line, place)
}

/// Appends what may be at a place.
pub(crate) fn push_slots(text: &mut String, slots: &[Slot]) -> Pushed {
    for (place, slot) in slots.iter().enumerate() {
        text.push_str(if place == 0 { " here may be: " } else { ", " })?;
        write!(text, "{slot}")?;
    }
    Ok(())
}

/// Appends the line of this number, with marks where it departs from its forms, and what may be there.
pub(crate) fn push_misfit(
    text: &mut String,
    number: usize,
    line: &[u8],
    misfit: &Misfit,
) -> Pushed {
    push_numbered(text, number, line, misfit.place)?;
    push_slots(text, &misfit.slots)?;
    text.push_str("\n")
}

/// Appends the number that a sentence begins with, and a colon.
fn push_number_of(text: &mut String, sentence: &str) -> Pushed {
    if let Some((number, _)) = sentence.split_once(':') {
        text.push_str(number)?;
        text.push_str(": ")?;
    }
    Ok(())
}

/// Appends a line: the hint after the number of the sentence, or the sentence where there is no hint.
pub(crate) fn push_sentence(text: &mut String, sentence: &str, hint: &str) -> Pushed {
    if hint.is_empty() {
        text.push_str(sentence)?;
    } else {
        push_number_of(text, sentence)?;
        text.push_str(hint)?;
    }
    text.push_str("\n")
}

/// The same, of a hint that may have `{}` in it, which is this operand.
pub(crate) fn push_hint(text: &mut String, sentence: &str, hint: &str, operand: &[u8]) -> Pushed {
    let Some((before, after)) = hint.split_once("{}") else {
        return push_sentence(text, sentence, hint);
    };
    push_number_of(text, sentence)?;
    text.push_str(before)?;
    push_shown(text, operand)?;
    text.push_str(after)?;
    text.push_str("\n")
}

/// The bytes of a line at a place.
pub(crate) fn bytes_at(line: &[u8], place: Place) -> &[u8]
    ensures { IsWithin line.now place → result.now ≡ slice_range line.now place.from place.to }
{
    if place.from <= place.to && place.to <= line.len() {
        &line[place.from..place.to]
    } else {
        b""
    }
}
