//! What a form has at one place, and which tokens may be there.
ghost use Rattle.std.specs.Prelude.{◌≡◌, Some};
ghost use Rattle.std.proofs.lemmas.Cmp.{on_equiv};
ghost use Rattle.std.specs.Cmp.{partial_equiv_from_equiv};
ghost use Rattle.std.specs.Cmp.Lexicographic.{nat_list_eq_equiv};
ghost use Rattle.line_forms.specs.Slots.{fits, same_spot, spot_name, spot_of, spot_text};
ghost use Rattle.litmus_text.specs.Instructions.{is_mark_token};

use isa::{Immediate, Reg};
use std::fmt;
use text_tokens::{begins_number, number, small_number};

/// What a form has at a place.
#[derive(Clone, Copy, Debug)]
pub enum Slot {
    /// This token and no other.
    Word(&'static str),
    /// The name of a register.
    Register,
    /// A number of 64 bits.
    Number,
    /// A number of 32 bits, extended by its sign.
    ShortNumber,
    /// A number of a step: 1 to 10 decimal digits, below 2^32.
    StepNumber,
    /// The name of a word: any token but a mark.
    Name,
    /// The name of a word or of a register, between `[` and `]`.
    Operand,
    /// A label: any token but a mark. Whether it is spelled as one, and is there, is asked elsewhere.
    Label,
    /// A condition, any tokens. Its faults have places of their own.
    Condition,
    /// An instruction. Its forms are others, so no token is here.
    Instruction,
    /// A label and `:`. Its form is another, so no token is here.
    LabelLine,
    /// A step. Its forms are others, so no token is here.
    Step,
    /// A blank or a visible character, where another byte is.
    Character,
    /// The end of the line.
    End,
}

/// Whether the token is one of `,` `[` `]` `:`.
pub(crate) fn is_mark(token: &[u8]) -> bool
    ensures { result ≡ is_mark_token token.now }
{
    token == b",".as_slice()
        || token == b"[".as_slice()
        || token == b"]".as_slice()
        || token == b":".as_slice()
}

/// Whether the token is a number of 64 bits.
fn is_number(token: &[u8]) -> bool
    ensures { result ≡ fits (spot_of Slot.Number) token.now }
{
    begins_number(token) && number(token).is_some()
}

/// Whether the token is a number of 32 bits, extended by its sign.
fn is_short_number(token: &[u8]) -> bool
    ensures { result ≡ fits (spot_of Slot.ShortNumber) token.now }
{
    match number(token) {
        Some(value) => begins_number(token) && Immediate::new(value).is_some(),
        None => false,
    }
}

/// Whether the token may be at the place of the slot. Of names and labels this asks only that they are no mark.
pub(crate) fn fits(slot: Slot, token: &[u8]) -> bool
    ensures { result ≡ fits (spot_of slot) token.now }
{
    match slot {
        Slot::Word(word) => token == word.as_bytes(),
        Slot::Register => Reg::named(token).is_some(),
        Slot::Number => is_number(token),
        Slot::ShortNumber => is_short_number(token),
        Slot::StepNumber => small_number(token).is_some(),
        Slot::Name | Slot::Operand | Slot::Label => !is_mark(token),
        Slot::Condition => true,
        Slot::Instruction | Slot::LabelLine | Slot::Step | Slot::Character | Slot::End => false,
    }
}

impl Slot {
    /// The word, or what else the slot is called.
    fn name(self) -> &'static str
        ensures { result.now ≡ spot_name (spot_of self) }
    {
        match self {
            Slot::Word(word) => word,
            Slot::Register => "a register",
            Slot::Number => "a number",
            Slot::ShortNumber => "a short number",
            Slot::StepNumber => "a number",
            Slot::Name => "a name",
            Slot::Operand => "a name or a register",
            Slot::Label => "a label",
            Slot::Condition => "a condition",
            Slot::Instruction => "an instruction",
            Slot::LabelLine => "a label and `:`",
            Slot::Step => "a step",
            Slot::Character => "a blank or a visible character",
            Slot::End => "the end of the line",
        }
    }
}

/// Slots are equal where they are called the same.
impl PartialEq for Slot {
    ghost eq = { λ a b. same_spot (spot_of a) (spot_of b) };

    ghost laws = { partial_equiv_from_equiv (on_equiv (λ slot. spot_name (spot_of slot)) nat_list_eq_equiv) };

    fn eq(&self, other: &Slot) -> bool {
        self.name() == other.name()
    }
}

impl Eq for Slot {
    ghost laws = { on_equiv (λ slot. spot_name (spot_of slot)) nat_list_eq_equiv };
}

impl fmt::Display for Slot {
    ghost output = { λ slot. Some (spot_text (spot_of slot)) };

    fn fmt<W: fmt::Write>(&self, f: &mut fmt::Formatter<W>) -> fmt::Result {
        match self {
            Slot::Word(word) => write!(f, "`{word}`"),
            slot => write!(f, "{}", slot.name()),
        }
    }
}
