//! A fault of a litmus text: its line, what may be there, and what there is to say of it.
use crate::hints::{
    OF_A_LABEL, OF_A_NAME, OF_A_NUMBER, OF_A_WORD, OF_AN_UNKNOWN_NAME, OF_BYTES, hint_of,
};
use crate::parts::{Pushed, push_hint, push_numbered, push_slots};
use crate::sentences::refused_sentence;
use crate::slips::{NAME_MEANT, WORD_MEANT, name_meant, word_meant};
use crate::spots::{Spot, Test};
use commands::Refused;
use line_forms::{Slot, Stage, fault_place, line, program_misfit, stage_before};
use lines_layout::LayoutFault;
use litmus_text::{LineFault, TextFault};
use std::alloc::AllocError;

/// What there is to say of a fault of a line.
pub(crate) fn hint(kind: LineFault, spot: &Spot<'_>) -> &'static str {
    match kind {
        LineFault::BadWord => hint_of(&OF_A_WORD, spot),
        LineFault::UnknownName => hint_of(&OF_AN_UNKNOWN_NAME, spot),
        LineFault::BadNumber => hint_of(&OF_A_NUMBER, spot),
        LineFault::BadLabel => hint_of(&OF_A_LABEL, spot),
        LineFault::NotAscii => hint_of(&OF_BYTES, spot),
        LineFault::Layout(LayoutFault::BadName) => hint_of(&OF_A_NAME, spot),
        LineFault::TooLong
        | LineFault::MissingEnd
        | LineFault::Layout(_)
        | LineFault::BadName
        | LineFault::BadCond => "",
    }
}

/// The word or the name that is meant by a token of a program that is none but for a slip; and how that is said, with `{}` for it.
pub(crate) fn meant<'p>(
    kind: LineFault,
    stage: Stage,
    program: &'p [u8],
    spot: &Spot<'_>,
) -> Option<(&'static str, &'p [u8])> {
    match kind {
        LineFault::BadWord if spot.meets(Test::At(0)) => {
            let word = word_meant(spot.token, stage)?;
            Some((WORD_MEANT, word))
        }
        LineFault::UnknownName => {
            let name = name_meant(spot.token, program)?;
            Some((NAME_MEANT, name))
        }
        _ => None,
    }
}

/// Appends what there is to say of a token of a program that has a fault.
fn push_token_sentence(
    text: &mut String,
    kind: LineFault,
    stage: Stage,
    program: &[u8],
    spot: &Spot<'_>,
    sentence: &str,
) -> Pushed {
    let hint = hint(kind, spot);
    match meant(kind, stage, program, spot) {
        Some((meant, word)) if hint.is_empty() => push_hint(text, sentence, meant, word),
        _ => push_hint(text, sentence, hint, spot.operand()),
    }
}

/// Appends what may be in place of a word that is out of place. Whether a `[` may be.
pub(crate) fn push_wanted(
    text: &mut String,
    stage: Stage,
    line: &[u8],
) -> Result<bool, AllocError> {
    let slots = program_misfit(*text.allocator(), stage, line)?.slots;
    push_slots(text, &slots)?;
    Ok(slots.iter().any(|slot| *slot == Slot::Word("[")))
}

/// Appends the lines for a fault of the line of this number, from 1: after the mark comes what may be in place of a word
/// that is out of place.
pub(crate) fn push_text_fault(
    text: &mut String,
    program: &[u8],
    kind: LineFault,
    number: usize,
) -> Pushed {
    let sentence = refused_sentence(Refused::Text(TextFault::At(kind, number)));
    let line = line(program, number).unwrap_or(b"");
    let place = fault_place(program, number, kind);
    let stage = stage_before(program, number);
    push_numbered(text, number, line, place)?;
    let takes_bracket = match kind {
        LineFault::BadWord => push_wanted(text, stage, line)?,
        _ => false,
    };
    text.push_str("\n")?;
    let spot = Spot::in_program(program, stage, line, place, takes_bracket);
    push_token_sentence(text, kind, stage, program, &spot, sentence)
}
