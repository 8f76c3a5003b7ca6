//! The tokens of a part of a value, and comparisons.
ghost use Rattle.std.specs.Prelude.{◌≡◌};
ghost use Rattle.conditions.specs.Atoms.{comparison_of};
ghost use Rattle.questions.specs.Bodies.{number_in, processor_in, word_named, word_operand};

use crate::token::{is_identifier, is_sign};
use conditions::{Comparison, Operand};
use isa::MAX_PROCESSORS;
use lines_layout::{Layout, WordId};
use litmus_text::LineFault;
use sheets::Names;
use text_tokens::small_number;

/// The comparison that is written so.
#[tactic(auto, unfolding(conditions::specs::Atoms::comparison_of))]
pub(crate) fn comparison(token: &[u8]) -> Option<Comparison>
    ensures { result ≡ comparison_of token.now }
{
    if token == b"=".as_slice() {
        Some(Comparison::Equal)
    } else if token == b"!=".as_slice() {
        Some(Comparison::NotEqual)
    } else if token == b"<".as_slice() {
        Some(Comparison::Less)
    } else if token == b"<=".as_slice() {
        Some(Comparison::AtMost)
    } else if token == b">".as_slice() {
        Some(Comparison::Greater)
    } else if token == b">=".as_slice() {
        Some(Comparison::AtLeast)
    } else {
        None
    }
}

/// The number that a token is, or stands for.
#[tactic(auto, unfolding(crate::specs::Bodies::number_in))]
pub(crate) fn number(names: &Names, token: &[u8]) -> Result<u64, LineFault>
    ensures { result ≡ number_in names.now token.now }
{
    if is_sign(token) {
        return Err(LineFault::BadCond);
    }
    match names.number(token) {
        Ok(number) => Ok(number),
        Err(LineFault::BadWord) => Err(LineFault::BadCond),
        Err(kind) => Err(kind),
    }
}

/// The word of this name.
#[tactic(auto, unfolding(crate::specs::Bodies::word_named))]
pub(crate) fn word_named(layout: &Layout, token: &[u8]) -> Result<WordId, LineFault>
    ensures { result ≡ word_named layout.now token.now }
{
    match layout.word(token) {
        Some(word) => Ok(word),
        None if is_identifier(token) => Err(LineFault::UnknownName),
        None => Err(LineFault::BadCond),
    }
}

/// The coherent value of a word, or its persisted one.
pub(crate) fn word_operand(coherent: bool, word: WordId) -> Operand
    ensures { result ≡ word_operand coherent word }
{
    if coherent {
        Operand::Coherent(word)
    } else {
        Operand::Persisted(word)
    }
}

/// The number of a processor of the program.
#[tactic(auto, unfolding(crate::specs::Bodies::processor_in, conditions::specs::Atoms::processor_of))]
pub(crate) fn processor(processors: usize, token: &[u8]) -> Result<u32, LineFault>
    ensures { result ≡ processor_in processors token.now }
{
    let number = small_number(token).ok_or(LineFault::BadCond)?;
    if number as usize >= MAX_PROCESSORS {
        return Err(LineFault::BadCond);
    }
    if number as usize >= processors {
        return Err(LineFault::UnknownName);
    }
    Ok(number)
}
