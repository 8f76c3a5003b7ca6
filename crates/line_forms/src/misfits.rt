//! The first token of a line that none of its forms has there, and what may be there.
ghost use Rattle.std.specs.Prelude.{◌≡◌, ◌&&◌, true, false, [], ◌∷◌, IfOk, ◌≤◌, codes, length, map};
ghost use Rattle.line_forms.specs.Misfits.{AreBehind, Departs, HasOne, IsStrange, forms_of, slot_at, strange_place};
ghost use Rattle.line_forms.specs.Slots.{a_name, a_step_number, spot_of};
ghost use Rattle.line_forms.specs.Forms.{DepartsAt, declares_stop, is_of, is_whole, is_whole_in, script_forms, script_name_index, step_forms};
ghost use Rattle.line_forms.specs.Places.{IsPlaceOf, IsWithin};
ghost use Rattle.std.specs.List.{prefix_len};
ghost use Rattle.text_tokens.specs.Text.{is_plain, is_plain_line, tokens_of};

use crate::forms::{
    Form, fitting, furthest, is_stop, name_index, script_forms, step_forms, text_forms,
};
use crate::places::{Place, piece_or_end, token_or_end, token_place};
use crate::slots::Slot;
use crate::stages::Stage;
use std::alloc::{AllocError, Global};
use text_tokens::{is_blank, is_plain_line};

/// Where a line departs from all its forms.
#[derive(Debug, Drop)]
pub struct Misfit {
    /// The first token that no form has after those before it. Where one is missing, the place is right after the
    /// last token.
    pub place: Place,
    /// What may be there.
    pub slots: Vec<Slot>,
}

/// What the form has at this index.
fn slot_at(form: &[Slot], index: usize) -> Slot
    ensures { result ≡ slot_at index form.now }
{
    form.get(index).copied().unwrap_or(Slot::End)
}

/// What the forms that so many of the line's tokens fit have after these, without repeats in a row.
fn slots_behind(
    alloc: Global,
    line: &[u8],
    forms: &[Form],
    index: usize,
) -> Result<Vec<Slot>, AllocError>
    ensures { IfOk result (λ slots. AreBehind index (forms_of forms.now) line.now slots.items) }
{
    let mut slots = Vec::new(alloc);
    for form in forms {
        if fitting(line, form) != index {
            continue;
        }
        slots.push(slot_at(form, index))?;
    }
    slots.dedup();
    Ok(slots)
}

/// Where the line departs from these forms.
fn misfit_of(alloc: Global, line: &[u8], forms: &[Form]) -> Result<Misfit, AllocError>
    ensures { IfOk result (Departs (forms_of forms.now) line.now) }
{
    let index = furthest(line, forms);
    let slots = slots_behind(alloc, line, forms, index)?;
    Ok(Misfit {
        place: token_or_end(line, index),
        slots,
    })
}

/// One slot that may be at a place.
fn one_slot(alloc: Global, place: Place, slot: Slot) -> Result<Misfit, AllocError>
    ensures place { IfOk result (λ misfit. misfit.place ≡ place) }
    ensures slots { IfOk result (λ misfit. misfit.slots.items ≡ slot ∷ []) }
{
    let mut slots = Vec::new(alloc);
    slots.push(slot)?;
    Ok(Misfit { place, slots })
}

/// Whether a line may have the byte: a blank, or a visible character.
fn is_plain(byte: u8) -> bool
    ensures { result ≡ is_plain byte }
{
    is_blank(byte) || (b'!' <= byte && byte <= b'~')
}

/// How many bytes from the first on a line may have.
fn plain_length(line: &[u8]) -> usize
    ensures value { result ≡ prefix_len is_plain line.now }
    ensures within { result ≤ length line.now }
{
    line.iter().take_while(|byte| is_plain(**byte)).count()
}

/// The place of the first byte that no line may have. Where all may be there, it is after the line.
pub(crate) fn strange_byte(line: &[u8]) -> Place
    ensures place { result ≡ strange_place line.now }
    ensures within { IsWithin line.now result }
{
    let from = plain_length(line);
    Place {
        from,
        to: line.len().min(from + 1),
    }
}

/// Where a line of a litmus text departs from all forms of its stage.
pub fn program_misfit(alloc: Global, stage: Stage, line: &[u8]) -> Result<Misfit, AllocError>
    ensures strange { is_plain_line line.now ≡ false → IfOk result (IsStrange line.now) }
    ensures departs { is_plain_line line.now ≡ true → IfOk result (DepartsAt stage line.now) }
{
    if !is_plain_line(line) {
        return one_slot(alloc, strange_byte(line), Slot::Character);
    }
    misfit_of(alloc, line, text_forms(stage, line))
}

/// Where a line of a list of steps departs from all forms.
pub fn step_misfit(alloc: Global, line: &[u8]) -> Result<Misfit, AllocError>
    ensures strange { is_plain_line line.now ≡ false → IfOk result (IsStrange line.now) }
    ensures departs { is_plain_line line.now ≡ true → IfOk result (Departs step_forms line.now) }
{
    if !is_plain_line(line) {
        return one_slot(alloc, strange_byte(line), Slot::Character);
    }
    misfit_of(alloc, line, step_forms())
}

/// Where a line of a script departs from all forms, before or after its first command.
///
/// A line that departs from none is refused for its name, which is that of no word.
pub fn script_misfit(alloc: Global, line: &[u8], commands_begun: bool) -> Result<Misfit, AllocError>
    ensures strange { is_plain_line line.now ≡ false → IfOk result (IsStrange line.now) }
    ensures stop { is_plain_line line.now ≡ true → declares_stop commands_begun line.now ≡ true →
        IfOk result (HasOne (IsPlaceOf [] (codes "#") line.now 1) a_step_number) }
    ensures name { let forms = script_forms commands_begun (tokens_of line.now) in
        is_plain_line line.now ≡ true → declares_stop commands_begun line.now ≡ false →
        is_whole forms (tokens_of line.now) ≡ true → IfOk result (HasOne (IsPlaceOf (codes ",[]:") (codes "#") line.now (script_name_index (tokens_of line.now))) a_name) }
    ensures departs { let forms = script_forms commands_begun (tokens_of line.now) in
        is_plain_line line.now ≡ true → declares_stop commands_begun line.now ≡ false →
        is_whole forms (tokens_of line.now) ≡ false → IfOk result (Departs forms line.now) }
{
    if !is_plain_line(line) {
        return one_slot(alloc, strange_byte(line), Slot::Character);
    }
    if is_stop(line) && !commands_begun {
        return one_slot(alloc, piece_or_end(line, 1), Slot::StepNumber);
    }
    let forms = script_forms(line, commands_begun);
    if is_whole(line, forms) {
        return one_slot(alloc, token_or_end(line, name_index(line)), Slot::Name);
    }
    misfit_of(alloc, line, forms)
}

/// Whether the tokens of the line are all of one of the forms.
fn is_whole(line: &[u8], forms: &[Form]) -> bool
    ensures { result ≡ is_whole_in forms.now (tokens_of line.now) }
{
    forms.iter().any(|form| is_of(line, form))
}

/// Whether the tokens of the line are all of the form.
fn is_of(line: &[u8], form: &[Slot]) -> bool
    ensures { result ≡ is_of (map spot_of form.now) (tokens_of line.now) }
{
    fitting(line, form) == form.len() && token_place(line, form.len()).is_none()
}
