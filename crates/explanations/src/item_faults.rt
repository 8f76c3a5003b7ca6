//! A fault of an item of a sheet: its line, a mark under a token, what may be there, and a sentence.
use crate::hints::{
    OF_A_NUMBER, OF_AN_ITEM, OF_AN_ITEM_NAMED, OF_AN_ITEMS_NAME, OF_BYTES, hint_of,
};
use crate::parts::{Pushed, push_hint, push_numbered, push_sentence};
use crate::sheet_faults::{line_of, sheet_hint};
use crate::slips::{ITEM_MEANT, NAME_MEANT, WORD_MEANT, item_meant, item_word_meant, name_meant};
use crate::spots::Spot;
use line_forms::{Place, fault_place, statement_or_end};
use litmus_text::LineFault;
use text_tokens::Tokens;

/// How an item is written.
const ITEMS_ARE: &str =
    "an item is `every PLACE NAME: CONDITION`, `some PLACE NAME: CONDITION`, `let NAME = CONDITION` or `let NAME = VALUE`.";

/// What there is to say of a token of an item.
fn hint(kind: LineFault, spot: &Spot<'_>) -> &'static str {
    match kind {
        LineFault::BadCond => hint_of(&OF_AN_ITEM, spot),
        LineFault::UnknownName => hint_of(&OF_AN_ITEMS_NAME, spot),
        LineFault::BadName => hint_of(&OF_AN_ITEM_NAMED, spot),
        LineFault::BadNumber => hint_of(&OF_A_NUMBER, spot),
        LineFault::NotAscii => hint_of(&OF_BYTES, spot),
        LineFault::BadWord => ITEMS_ARE,
        _ => "",
    }
}

/// The word or the name that is meant by a token of an item that is none but for a slip; and how that is said.
fn meant<'s>(
    kind: LineFault,
    sheet: &'s [u8],
    said: &'s [u8],
    number: usize,
    spot: &Spot<'_>,
) -> Option<(&'static str, &'s [u8])> {
    let is_of_word = spot.before == b"persisted".as_slice()
        || spot.before == b"coherent".as_slice();
    match kind {
        LineFault::UnknownName if is_of_word => {
            let name = name_meant(spot.token, said)?;
            Some((NAME_MEANT, name))
        }
        LineFault::UnknownName | LineFault::BadCond => {
            if let Some(name) = item_meant(spot.token, sheet, number) {
                return Some((ITEM_MEANT, name));
            }
            let word = item_word_meant(spot.token)?;
            Some((WORD_MEANT, word))
        }
        _ => None,
    }
}

/// What may be in place of a token of this index that is out of place before the condition or the value of an item.
fn wanted(line: &[u8], index: usize) -> &'static str {
    let is_let = Tokens::new(line).next() == Some(b"let".as_slice());
    match (is_let, index) {
        (true, 1) | (false, 2) => " here may be: a name",
        (true, 2) => " here may be: `=`",
        (false, 1) => " here may be: `crash`, `end`, `recovery`",
        (false, 3) => " here may be: `:`",
        _ => "",
    }
}

/// Where the token of this index is, or what else has a fault of this kind.
pub(crate) fn item_place(
    sheet: &[u8],
    kind: LineFault,
    number: usize,
    line: &[u8],
    index: usize,
) -> Place {
    match kind {
        LineFault::NotAscii => fault_place(sheet, number, kind),
        LineFault::TooLong => statement_or_end(line, 0),
        _ => statement_or_end(line, index),
    }
}

/// Appends the lines for a fault of line `number`, of whose tokens so many were read. `said` is the litmus text that the sheet says.
pub(crate) fn push_item_fault(
    text: &mut String,
    sheet: &[u8],
    said: &[u8],
    kind: LineFault,
    number: usize,
    index: usize,
    sentence: &str,
) -> Pushed {
    let line = line_of(sheet, number);
    push_numbered(
        text,
        number,
        line,
        item_place(sheet, kind, number, line, index),
    )?;
    if matches!(kind, LineFault::BadWord) {
        text.push_str(wanted(line, index))?;
    }
    text.push_str("\n")?;
    let spot = Spot::in_item(said, line, index);
    let hint = hint(kind, &spot);
    match meant(kind, sheet, said, number, &spot) {
        Some((meant, word)) if hint.is_empty() => push_hint(text, sentence, meant, word),
        None if hint.is_empty() => push_sentence(text, sentence, sheet_hint(kind)),
        _ => push_hint(text, sentence, hint, spot.token),
    }
}
