//! A fault of a sheet: its line, a mark where its place is known, and a sentence. A row of the litmus text that a sheet says has
//! the forms and the hints of its line; a token of a question has hints of its own.
use crate::hints::{OF_A_SHEETS_WORD, hint_of};
use crate::item_faults::{item_place, push_item_fault};
use crate::marks::push_unmarked;
use crate::parts::{Pushed, bytes_at, push_hint, push_numbered, push_sentence};
use crate::program_faults::{hint, meant, push_wanted};
use crate::sentences::refused_sentence;
use crate::slips::{WORD_MEANT, item_start_meant};
use crate::spots::{Spot, gives};
use commands::{Refused, push_number};
use line_forms::{Place, Stage, fault_place, line, stage_before, token_or_end};
use litmus_text::{LineFault, TextFault, read_lined};
use outcomes::OrNoMemory;
use questions::tokens_read_on;
use sheets::{Said, said_by};
use std::alloc::{AllocError, Global};
use text_tokens::{Lines, Tokens};

/// How many tokens of a line are told apart by their index.
const TOKENS: usize = 128;

/// Where the fault of a line of a sheet comes from.
#[derive(Clone, Copy)]
enum Origin {
    /// This line, from 1, of the litmus text that the sheet says.
    Row(usize),
    /// An item, of whose tokens on the line so many were read.
    Item(usize),
    /// An abbreviation.
    Abbreviation,
}

/// One sentence on a fault of a sheet, where that of a litmus text would not be true of it; else nothing.
pub(crate) fn sheet_hint(kind: LineFault) -> &'static str {
    match kind {
        LineFault::UnknownName =>
            "no line before this one gives a word or a constant of this name, and no register has it; in a question, no `let` or question before it has it, or the program has no processor of this number.",
        LineFault::MissingEnd =>
            "the text ends too soon: it begins with `sheet 1`, and each `cpu` has its `end`.",
        LineFault::TooLong =>
            "a text has at most 16 processors, and a program at most 1,024 instructions. A sheet has at most 64 questions; each of these, and each `let`, has at most 1,024 tokens, and 4,096 numbers, words and registers with those of the names in it.",
        _ => "",
    }
}

/// The line of this number, from 1, or no bytes.
pub(crate) fn line_of(text: &[u8], number: usize) -> &[u8] {
    line(text, number).unwrap_or(b"")
}

/// The line of what a sheet says that has its fault, where this is of line `number` of the sheet.
fn faulty_row(alloc: Global, said: &Said, number: usize) -> Result<Option<usize>, AllocError> {
    match read_lined(alloc, &said.text) {
        Err(OrNoMemory::Fault(TextFault::At(_, row))) => {
            let told = said.lines.get(row.saturating_sub(1)).copied();
            Ok(if told == Some(number) {
                Some(row)
            } else {
                None
            })
        }
        Err(OrNoMemory::NoMemory) => Err(AllocError),
        Ok(_) => Ok(None),
    }
}

/// Where the fault of line `number` of a sheet comes from.
fn origin_of(
    alloc: Global,
    sheet: &[u8],
    said: &Said,
    number: usize,
) -> Result<Origin, AllocError> {
    if let Some(row) = faulty_row(alloc, said, number)? {
        return Ok(Origin::Row(row));
    }
    match tokens_read_on(alloc, sheet, number) {
        Ok(index) => Ok(Origin::Item(index)),
        Err(OrNoMemory::Fault(_)) => Ok(Origin::Abbreviation),
        Err(OrNoMemory::NoMemory) => Err(AllocError),
    }
}

/// How many tokens a line has, where they are fewer than `TOKENS`.
fn count_of(line: &[u8]) -> usize {
    (0..TOKENS)
        .find(|index| Tokens::new(line).nth(*index).is_none())
        .unwrap_or(TOKENS)
}

/// How many tokens of a row are before a place, where they are fewer than `TOKENS`.
fn index_of(row: &[u8], place: Place) -> usize {
    (0..TOKENS)
        .find(|index| place.from <= token_or_end(row, *index).from)
        .unwrap_or(TOKENS)
}

/// Where on a line the token of this index of the row is that it says: `*` and the number behind it are not in the row. It is not
/// known of a line that says something else, as several values of `init`.
fn place_on(line: &[u8], row: &[u8], index: usize) -> Option<Place> {
    let more = count_of(line).saturating_sub(count_of(row));
    let is_counted = Tokens::new(line).nth(1) == Some(b"*".as_slice());
    if more == 0 || index == 0 {
        Some(token_or_end(line, index))
    } else if is_counted && more == 2 {
        Some(token_or_end(line, index.saturating_add(2)))
    } else {
        None
    }
}

/// Whether a line above this one, from 1, gives a constant this name.
fn is_constant(sheet: &[u8], number: usize, token: &[u8]) -> bool {
    Lines::new(sheet)
        .take(number.saturating_sub(1))
        .any(|line| gives_constant(line, token))
}

/// Whether a line gives a constant this name.
fn gives_constant(line: &[u8], token: &[u8]) -> bool {
    let mut tokens = Tokens::new(line);
    tokens.next() == Some(b"const".as_slice()) && tokens.next() == Some(token)
}

/// Whether a token is meant as a constant that no line above this one gives, or as the address of a word that none gives.
fn is_lacked(sheet: &[u8], said: &Said, number: usize, token: &[u8]) -> bool {
    match token {
        [b'&', name @ ..] => {
            !name.contains(&b'$') && !Lines::new(&said.text).any(|line| gives(line, name))
        }
        [first, ..] => first.is_ascii_uppercase() && !is_constant(sheet, number, token),
        [] => false,
    }
}

/// Whether the token of this index of a line is `*` or `[`.
fn is_count_mark(line: &[u8], index: usize) -> bool {
    match Tokens::new(line).nth(index) {
        Some(token) => token == b"*".as_slice() || token == b"[".as_slice(),
        None => false,
    }
}

/// The index behind the one `*` or `[` of a line.
fn counted_index(line: &[u8]) -> Option<usize> {
    let mark = (0..TOKENS).find(|index| is_count_mark(line, *index))?;
    let more = mark.saturating_add(1);
    if (more..TOKENS).any(|index| is_count_mark(line, index)) {
        None
    } else {
        Some(more)
    }
}

/// The index of a number on a line that is out of range, or misspelled: of a constant, a processor, or of lines, words or processors.
fn number_index(line: &[u8]) -> Option<usize> {
    let first = Tokens::new(line).next()?;
    if first == b"const".as_slice() {
        Some(2)
    } else if first == b"recover".as_slice() {
        Some(1)
    } else {
        counted_index(line)
    }
}

/// Whether the token of this index of a line is meant as a constant or an address that is not there.
fn lacks(sheet: &[u8], said: &Said, number: usize, line: &[u8], index: usize) -> bool {
    match Tokens::new(line).nth(index) {
        Some(token) => is_lacked(sheet, said, number, token),
        None => false,
    }
}

/// Whether a line has a `[`.
fn has_bracket(line: &[u8]) -> bool {
    Tokens::new(line).any(|token| token == b"[".as_slice())
}

/// The place of a fault of an abbreviation, where its kind tells it.
fn abbreviation_place(
    sheet: &[u8],
    said: &Said,
    kind: LineFault,
    number: usize,
    line: &[u8],
) -> Option<Place> {
    match kind {
        LineFault::MissingEnd | LineFault::NotAscii | LineFault::TooLong | LineFault::BadName => {
            Some(fault_place(sheet, number, kind))
        }
        LineFault::UnknownName => {
            let index = (1..TOKENS).find(|index| lacks(sheet, said, number, line, *index))?;
            Some(token_or_end(line, index))
        }
        LineFault::BadNumber => Some(token_or_end(line, number_index(line)?)),
        _ => None,
    }
}

/// The place on the line of a sheet of a fault of a row that it says.
fn row_place(line: &[u8], said: &Said, kind: LineFault, row_number: usize) -> Option<Place> {
    let row = line_of(&said.text, row_number);
    let place = fault_place(&said.text, row_number, kind);
    place_on(line, row, index_of(row, place))
}

/// The place of the fault of the line of this number, from 1, where it is known.
pub(crate) fn sheet_place(
    alloc: Global,
    sheet: &[u8],
    kind: LineFault,
    number: usize,
) -> Result<Option<Place>, AllocError> {
    let line = line_of(sheet, number);
    let said = said_by(alloc, sheet)?;
    Ok(match origin_of(alloc, sheet, &said, number)? {
        Origin::Row(row) => row_place(line, &said, kind, row),
        Origin::Item(index) => Some(item_place(sheet, kind, number, line, index)),
        Origin::Abbreviation => abbreviation_place(sheet, &said, kind, number, line),
    })
}

/// Appends a line after its number, with marks under a place in it, where one is known.
fn push_marked(text: &mut String, number: usize, line: &[u8], place: Option<Place>) -> Pushed {
    if let Some(place) = place {
        return push_numbered(text, number, line, place);
    }
    push_number(text, number as u64)?;
    push_unmarked(text, line)
}

/// Appends what may be in place of a word of a row that is out of place. Whether a `[` may be.
fn push_row_wanted(
    text: &mut String,
    stage: Stage,
    row: &[u8],
    place: Place,
) -> Result<bool, AllocError> {
    let is_first = place.from == 0;
    match stage {
        Stage::Data if is_first => {
            text.push_str(" here may be: `const`, `line`, `init`, `cpu`")?;
            Ok(false)
        }
        Stage::Between if is_first => {
            text.push_str(" here may be: `cpu`, `let`, `every`, `some`")?;
            Ok(false)
        }
        _ => push_wanted(text, stage, row),
    }
}

/// The word or the name that is meant by a token of a row; and how that is said.
fn row_meant<'s>(
    said: &'s Said,
    kind: LineFault,
    stage: Stage,
    spot: &Spot<'_>,
) -> Option<(&'static str, &'s [u8])> {
    if stage == Stage::Between {
        let word = item_start_meant(spot.token)?;
        return Some((WORD_MEANT, word));
    }
    meant(kind, stage, &said.text, spot)
}

/// Appends what there is to say of a token of a row.
fn push_row_sentence(
    text: &mut String,
    said: &Said,
    kind: LineFault,
    stage: Stage,
    spot: &Spot<'_>,
    sentence: &str,
) -> Pushed {
    let first = hint_of(&OF_A_SHEETS_WORD, spot);
    let hint = if first.is_empty() {
        hint(kind, spot)
    } else {
        first
    };
    if !hint.is_empty() {
        return push_hint(text, sentence, hint, spot.operand());
    }
    match row_meant(said, kind, stage, spot) {
        Some((meant, word)) => push_hint(text, sentence, meant, word),
        None => push_sentence(text, sentence, sheet_hint(kind)),
    }
}

/// Appends the lines for a fault of a row that line `number` says.
fn push_row_fault(
    text: &mut String,
    sheet: &[u8],
    said: &Said,
    kind: LineFault,
    number: usize,
    row_number: usize,
    sentence: &str,
) -> Pushed {
    let line = line_of(sheet, number);
    let row = line_of(&said.text, row_number);
    let place = fault_place(&said.text, row_number, kind);
    let stage = stage_before(&said.text, row_number);
    push_marked(text, number, line, row_place(line, said, kind, row_number))?;
    let takes_bracket = match kind {
        LineFault::BadWord => push_row_wanted(text, stage, row, place)?,
        _ => false,
    };
    text.push_str("\n")?;
    let spot = Spot::in_program(&said.text, stage, row, place, takes_bracket);
    push_row_sentence(text, said, kind, stage, &spot, sentence)
}

/// One sentence on a number that is out of range, by the first token of its line and whether `[` is before it.
fn range_hint(line: &[u8], is_bracketed: bool) -> &'static str {
    match Tokens::new(line).next() {
        Some(b"cpu") => "`cpu * N` makes 1 to 16 processors.",
        Some(b"recover") =>
            "`recover P` is of one of the processors of its block: they count from 0.",
        Some(b"line") if is_bracketed => "`NAME[K]` makes 1 to 8 names.",
        Some(b"line") => "`line * N` makes 1 to 64 lines.",
        _ => "",
    }
}

/// One sentence on a word of an abbreviation that is out of place.
fn word_hint(line: &[u8]) -> &'static str {
    match Tokens::new(line).next() {
        Some(b"const") => "a constant is given as `const NAME NUMBER`.",
        Some(b"init") =>
            "a value is given to a word, or one to each of several in order: no word is left for one of these.",
        Some(b"line") =>
            "`line WORDS..` makes a cache line, and `line * N WORDS..` N of them; of the words each is NAME or `NAME[K]`.",
        Some(b"cpu") => "`cpu` begins a processor, and `cpu * N` begins N of them.",
        Some(b"recover") =>
            "`recover` begins the recovery program, and in a `cpu * N` also `recover P`, of one processor.",
        _ => "",
    }
}

/// One sentence on a fault of an abbreviation at a token.
fn abbreviation_hint(kind: LineFault, line: &[u8], place: Option<Place>) -> &'static str {
    let token = match place {
        Some(place) => bytes_at(line, place),
        None => b"",
    };
    match (kind, token) {
        (LineFault::UnknownName, [b'&', ..]) =>
            "the address of a word is its name with `&` before it, and no line before this one gives this word.",
        (LineFault::UnknownName, [first, ..]) if first.is_ascii_uppercase() =>
            "no `const` before this line gives this constant.",
        (LineFault::BadWord, _) => word_hint(line),
        (LineFault::BadNumber, _) => range_hint(line, has_bracket(line)),
        _ => sheet_hint(kind),
    }
}

/// Appends the lines for a fault of an abbreviation.
fn push_abbreviation_fault(
    text: &mut String,
    sheet: &[u8],
    said: &Said,
    kind: LineFault,
    number: usize,
    sentence: &str,
) -> Pushed {
    let line = line_of(sheet, number);
    let place = abbreviation_place(sheet, said, kind, number, line);
    push_marked(text, number, line, place)?;
    text.push_str("\n")?;
    push_sentence(text, sentence, abbreviation_hint(kind, line, place))
}

/// Appends the lines for a fault of the line of this number, from 1.
pub(crate) fn push_sheet_fault(
    text: &mut String,
    sheet: &[u8],
    kind: LineFault,
    number: usize,
) -> Pushed {
    let alloc = *text.allocator();
    let sentence = refused_sentence(Refused::Text(TextFault::At(kind, number)));
    let said = said_by(alloc, sheet)?;
    match origin_of(alloc, sheet, &said, number)? {
        Origin::Row(row) => push_row_fault(text, sheet, &said, kind, number, row, sentence),
        Origin::Item(index) => {
            push_item_fault(text, sheet, &said.text, kind, number, index, sentence)
        }
        Origin::Abbreviation => {
            push_abbreviation_fault(text, sheet, &said, kind, number, sentence)
        }
    }
}
