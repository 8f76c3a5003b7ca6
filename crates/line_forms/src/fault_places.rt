//! The place of a fault of a litmus text.
ghost use Rattle.std.specs.Prelude.{◌≡◌, ◌≤◌, drop, length, map, option_map, slice_get, take};
ghost use Rattle.line_forms.specs.FaultPlaces.{IsFaultPlace, bad_index, double_index, gives, is_double, is_given_in, is_in, line_of, name_in, name_index, name_spot, takes_name};
ghost use Rattle.line_forms.specs.Forms.{text_forms};
ghost use Rattle.line_forms.specs.Misfits.{forms_of};
ghost use Rattle.line_forms.specs.Places.{IsWithin, lines_above};
ghost use Rattle.line_forms.specs.Slots.{spot_of};
ghost use Rattle.line_forms.specs.Stages.{stage_before};
ghost use Rattle.text_tokens.specs.Cursors.{unread};
ghost use Rattle.text_tokens.specs.Text.{tokens_of};

use crate::forms::{Form, fitting, furthest, text_forms};
use crate::misfits::strange_byte;
use crate::places::{Place, line, token_or_end};
use crate::slots::Slot;
use crate::stages::{has_colon, stage_before};
use lines_layout::{LINE_WORDS, LayoutFault, is_name};
use litmus_text::LineFault;
use text_tokens::{Lines, Tokens};

/// The line of this number, from 1, or the empty line.
fn line_or_empty(text: &[u8], number: usize) -> &[u8]
    ensures { result.now ≡ line_of text.now number }
{
    match line(text, number) {
        Some(line) => line,
        None => &[],
    }
}

/// The place, on the line of this number, from 1, of a fault of the text: of a token that no form has there; of an
/// unknown name; of a number, a label or a name of a cache line that is wrong; of the first token where the line is one
/// too many; of the first byte that may not be there; of the second token where a sheet's constant is wrong, and of the first of its questions; and after the line
/// where the text ends too soon.
pub fn fault_place(text: &[u8], number: usize, kind: LineFault) -> Place
    ensures within { IsWithin (line_of text.now number) result }
    ensures place { let line = line_of text.now number in
        IsFaultPlace (lines_above text.now number) line (text_forms (stage_before text.now number) (tokens_of line)) kind result }
{
    let line = line_or_empty(text, number);
    let forms = text_forms(stage_before(text, number), line);
    match kind {
        LineFault::BadWord | LineFault::BadNumber => token_or_end(line, furthest(line, forms)),
        LineFault::UnknownName => token_or_end(line, name_index(line, forms)),
        LineFault::BadLabel => token_or_end(line, if has_colon(line) { 0 } else { 1 }),
        LineFault::TooLong | LineFault::Layout(LayoutFault::TooManyLines) => token_or_end(line, 0),
        LineFault::MissingEnd => Place::at(line.len()),
        LineFault::NotAscii => strange_byte(line),
        LineFault::Layout(LayoutFault::LineTooLong) => token_or_end(line, LINE_WORDS + 1),
        LineFault::Layout(LayoutFault::DoubleName) => {
            token_or_end(line, first_double(text, number, line))
        }
        LineFault::Layout(LayoutFault::BadName) => token_or_end(line, first_bad(line)),
        LineFault::BadName => token_or_end(line, 1),
        LineFault::BadCond => token_or_end(line, 0),
    }
}

/// Whether the name of a word may be there.
fn takes_name(slot: Slot) -> bool
    ensures { result ≡ takes_name (spot_of slot) }
{
    matches!(slot, Slot::Name | Slot::Operand)
}

/// The index of the first place of the form where a name may be, or its length.
fn name_spot(form: &[Slot]) -> usize
    ensures value { result ≡ name_spot (map spot_of form.now) }
    ensures within { result ≤ length form.now }
{
    for (index, slot) in form.iter().enumerate() {
        if takes_name(*slot) {
            return index;
        }
    }
    form.len()
}

/// That index, if there is such a place and all tokens before it fit.
fn name_in(line: &[u8], form: &[Slot]) -> Option<usize>
    ensures { result ≡ name_in (map spot_of form.now) (tokens_of line.now) }
{
    let index = name_spot(form);
    if index < form.len() && index <= fitting(line, form) {
        Some(index)
    } else {
        None
    }
}

/// The index of the name in the first of the forms that has one after tokens that fit.
fn name_index(line: &[u8], forms: &[Form]) -> usize
    ensures { result ≡ name_index (forms_of forms.now) (tokens_of line.now) }
{
    for form in forms {
        if let Some(index) = name_in(line, form) {
            return index;
        }
    }
    0
}

/// The index of the first of a cache line's up to eight names that is no name.
#[tactic(auto, using(crate::proofs::NamedTokens::named_steps))]
fn first_bad(line: &[u8]) -> usize
    ensures { result ≡ bad_index (tokens_of line.now) }
{
    let mut tokens = Tokens::new(line);
    let _line = tokens.next();
    for passed in 0..LINE_WORDS {
        let Some(name) = tokens.next() else {
            return 1 + passed;
        };
        if !is_name(name) {
            return 1 + passed;
        }
    }
    1 + LINE_WORDS
}

/// The index of the first of a cache line's up to eight names that an earlier line gives, or an earlier place of this
/// line; else 0.
fn first_double(text: &[u8], number: usize, line: &[u8]) -> usize
    ensures { result ≡ double_index (lines_above text.now number) (tokens_of line.now) }
{
    (1..LINE_WORDS + 1)
        .find(|index| is_double(text, number, line, *index))
        .unwrap_or(0)
}

/// Whether the line has a name at this index that an earlier line gives, or an earlier place of this line.
fn is_double(text: &[u8], number: usize, line: &[u8], index: usize) -> bool
    ensures { result ≡ is_double (lines_above text.now number) (tokens_of line.now) index }
{
    match name_at(line, index) {
        Some(name) => is_given_above(text, number, name) || is_given_before(line, index, name),
        None => false,
    }
}

/// The line's token of this index.
fn name_at(line: &[u8], index: usize) -> Option<&[u8]>
    ensures { option_map (λ name. name.now) result ≡ slice_get (tokens_of line.now) index }
{
    Tokens::new(line).nth(index)
}

/// Whether the name is among the line's tokens before this index, but for the first.
fn is_given_before(line: &[u8], index: usize, name: &[u8]) -> bool
    ensures { result ≡ is_in (drop 1 (take index (tokens_of line.now))) name.now }
{
    Tokens::new(line)
        .take(index)
        .skip(1)
        .any(|other| other == name)
}

/// Whether a line above the line of this number gives the name.
fn is_given_above(text: &[u8], number: usize, name: &[u8]) -> bool
    ensures { result ≡ is_given_in (lines_above text.now number) name.now }
{
    Lines::new(text)
        .take(number.saturating_sub(1))
        .any(|line| gives(line, name))
}

/// Whether the line is that of a cache line, and gives the name.
fn gives(line: &[u8], name: &[u8]) -> bool
    ensures { result ≡ gives name.now (tokens_of line.now) }
{
    let mut tokens = Tokens::new(line);
    match tokens.next() {
        Some(first) => first == b"line".as_slice() && is_among(tokens, name),
        None => false,
    }
}

/// Whether the name is among the tokens.
fn is_among(mut tokens: Tokens, name: &[u8]) -> bool
    ensures { result ≡ is_in (unread tokens.entry) name.now }
{
    tokens.any(|other| other == name)
}
