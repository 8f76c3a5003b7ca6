//! Faults of a script of the debugger: which line has it, and where.
ghost use Rattle.std.specs.Prelude.{◌≡◌, ◌≤◌, IfOk, length, option_copied};
ghost use Rattle.std.specs.List.{prefix_len};
ghost use Rattle.explanations.specs.Declarations.{declaration_of, declared_as, double_of};
ghost use Rattle.explanations.specs.Questions.{faulty_stop_of, is_faulty_stop, is_solid, piece_of, stop_condition_of};

use crate::conditions_asked::{is_faulty, push_token_sentence};
use crate::hints::{OF_AN_ID, hint_of};
use crate::parts::{Pushed, bytes_at, push_misfit, push_numbered, push_sentence};
use crate::sentences::refused_sentence;
use crate::spots::Spot;
use commands::{Refused, ScriptFault};
use indexmap::IndexMap;
use line_forms::{
    Misfit, Slot, before_comment, commands_begun, line, script_misfit, stop_condition_or_end,
    token_or_end,
};
use lines_layout::Layout;
use std::alloc::{AllocError, Global};
use text_tokens::{Lines, Tokens, is_blank, skip_blanks, small_number};

/// What is said of a name that no word has.
const NO_WORD: &str = "no word of the program has this name.";

/// How many bytes the first piece of a text has, where the text begins with it.
fn piece_length(text: &[u8]) -> usize
    ensures value { result ≡ prefix_len is_solid text.now }
    ensures within { result ≤ length text.now }
{
    text.iter().take_while(|b| !is_blank(**b)).count()
}

/// The first piece of a text, and what is after it. Blanks alone separate pieces.
fn split_piece(text: &[u8]) -> (&[u8], &[u8])
    ensures { (result.0.now, result.1.now) ≡ piece_of text.now }
{
    let text = skip_blanks(text);
    text.split_at(piece_length(text))
}

/// The text of the condition of a stop, on a line that declares one.
fn stop_condition(line: &[u8]) -> Option<&[u8]>
    ensures { option_copied result ≡ stop_condition_of line.now }
{
    let (first, behind) = split_piece(before_comment(line));
    if first != b"stop".as_slice() {
        return None;
    }
    let (_, condition) = split_piece(behind);
    Some(condition)
}

/// Whether a line declares a stop whose condition is none.
fn is_faulty_stop(alloc: Global, layout: &Layout, line: &[u8]) -> Result<bool, AllocError>
    ensures { IfOk result (λ faulty. faulty ≡ is_faulty_stop layout.now line.now) }
{
    match stop_condition(line) {
        Some(condition) => is_faulty(alloc, layout, condition),
        None => Ok(false),
    }
}

/// The number of the first line, from 1, that declares a stop whose condition is none.
fn faulty_stop(alloc: Global, layout: &Layout, script: &[u8]) -> Result<Option<usize>, AllocError>
    ensures { IfOk result (λ found. found ≡ faulty_stop_of layout.now script.now) }
{
    let mut number = 0;
    for line in Lines::new(script) {
        number += 1;
        if is_faulty_stop(alloc, layout, line)? {
            return Ok(Some(number));
        }
    }
    Ok(None)
}

/// What a line declares that begins with this word and has this id, as a number: a stop is even, a watch is odd.
fn declared_as(word: &[u8], id: u32) -> Option<u64>
    ensures { result ≡ declared_as word.now id }
{
    if word == b"stop".as_slice() {
        Some(2 * u64::from(id))
    } else if word == b"watch".as_slice() {
        Some(2 * u64::from(id) + 1)
    } else {
        None
    }
}

/// What a line declares, if it does.
fn declaration_of(line: &[u8]) -> Option<u64>
    ensures { result ≡ declaration_of line.now }
{
    let (word, behind) = split_piece(before_comment(line));
    let token = Tokens::new(behind).next()?;
    let id = small_number(token)?;
    declared_as(word, id)
}

/// The number of the first line, from 1, that declares what an earlier line does, and the number of that line.
fn double_line(alloc: Global, script: &[u8]) -> Result<Option<(usize, usize)>, AllocError>
    ensures { IfOk result (λ found. found ≡ double_of script.now) }
{
    let mut declared = IndexMap::new(alloc);
    let mut number: usize = 0;
    for line in Lines::new(script) {
        number += 1;
        if let Some(declaration) = declaration_of(line) {
            if let Some(earlier) = declared.get(&declaration).copied() {
                return Ok(Some((number, earlier)));
            }
            declared.insert(declaration, number)?;
        }
    }
    Ok(None)
}

/// Whether a token gives a word of the layout a value: NAME=V.
fn gives(layout: &Layout, token: &[u8]) -> bool {
    let name_length = token.iter().take_while(|b| **b != b'=').count();
    let (name, behind) = token.split_at(name_length);
    match behind.split_first() {
        Some((_, value)) => layout.word(name).is_some() && text_tokens::number(value).is_some(),
        None => false,
    }
}

/// The index, from 0, of the first token of a line `values NAME NAME=V ..` that is no name of a word, or gives no word a value; what
/// may be there; and what else there is to say. None where there is none, or where the line is another.
fn not_given(layout: &Layout, line: &[u8]) -> Option<(usize, &'static str, &'static str)> {
    let mut tokens = Tokens::new(line);
    if tokens.next()? != b"values".as_slice() {
        return None;
    }
    if layout.word(tokens.next()?).is_none() {
        return Some((1, " here may be: a name\n", NO_WORD));
    }
    let mut index: usize = 2;
    for token in tokens {
        if !gives(layout, token) {
            return Some((index, " here may be: `NAME=V`\n", ""));
        }
        index = index.saturating_add(1);
    }
    None
}

/// What else there is to say where a line departs from its forms.
fn misfit_hint(misfit: &Misfit) -> &'static str {
    if misfit.slots.as_slice() == [Slot::Name].as_slice() && misfit.place.from < misfit.place.to {
        NO_WORD
    } else {
        ""
    }
}

/// Appends the lines for the line of this number, from 1, that is no line of a script.
pub(crate) fn push_script_line_fault(
    text: &mut String,
    layout: &Layout,
    script: &[u8],
    number: usize,
) -> Pushed {
    let line = line(script, number).unwrap_or(b"");
    if let Some((index, wanted, hint)) = not_given(layout, line) {
        push_numbered(text, number, line, token_or_end(line, index))?;
        text.push_str(wanted)?;
        let sentence = refused_sentence(Refused::Script(ScriptFault::BadLine(number)));
        return push_sentence(text, sentence, hint);
    }
    let misfit = script_misfit(*text.allocator(), line, commands_begun(script, number))?;
    push_misfit(text, number, line, &misfit)?;
    let sentence = refused_sentence(Refused::Script(ScriptFault::BadLine(number)));
    push_sentence(text, sentence, misfit_hint(&misfit))
}

/// Appends the lines for the fault at the token of this index, from 0, of the condition of a stop of a script.
pub(crate) fn push_stop_fault(
    text: &mut String,
    layout: &Layout,
    script: &[u8],
    index: usize,
    sentence: &str,
) -> Pushed {
    let Some(number) = faulty_stop(*text.allocator(), layout, script)? else {
        return push_sentence(text, sentence, "");
    };
    let line = line(script, number).unwrap_or(b"");
    push_numbered(text, number, line, stop_condition_or_end(line, index))?;
    text.push_str("\n")?;
    let condition = stop_condition(line).unwrap_or(b"");
    push_token_sentence(text, layout, condition, index, sentence)
}

/// Appends the lines for the first line that declares what an earlier line does.
pub(crate) fn push_double_id(text: &mut String, script: &[u8]) -> Pushed {
    let sentence = refused_sentence(Refused::Script(ScriptFault::DoubleId));
    let Some((number, earlier)) = double_line(*text.allocator(), script)? else {
        return push_sentence(text, sentence, "");
    };
    let line = line(script, number).unwrap_or(b"");
    let place = token_or_end(line, 1);
    push_numbered(text, number, line, place)?;
    writeln!(text, " line {earlier} has it")?;
    let spot = Spot::on_line(line, bytes_at(line, place));
    push_sentence(text, sentence, hint_of(&OF_AN_ID, &spot))
}
