//! The texts of registers and of words on a line, as reports of outcomes have them.
ghost use Rattle.std.specs.Prelude.{◌≡◌, ◌++◌, OnOk, drop, slice_index, string_bytes};
ghost use Rattle.lines_layout.specs.Names.{Text};
ghost use Rattle.commands.specs.OutcomeTexts.{named_texts, names_of, register_text, registers_text};

use isa::{REGISTERS, Reg};
use lines_layout::{Layout, Name};
use std::alloc::AllocError;

/// How what belongs to a word is written with the word's name.
pub trait Named<T> {
    /// The text of both.
    ghost text_of: { Text → T → Text };

    /// Appends it.
    fn push(text: &mut String, name: &str, value: T) -> Result<(), AllocError>
        ensures { OnOk result (string_bytes text.new ≡ string_bytes text.old ++ text_of name.now value) };
}

/// The number at a place, 0 where there is none.
pub fn number_at(numbers: &[u64], place: usize) -> u64
    ensures { result ≡ slice_index numbers.now place }
{
    numbers.get(place).copied().unwrap_or(0)
}

/// What follows the first so many values.
pub fn behind<T>(values: &[T], count: usize) -> &[T]
    ensures { result.now ≡ drop count values.now }
{
    if count < values.len() {
        &values[count..]
    } else {
        &[]
    }
}

/// Appends a register of processor `p`, unless it is 0.
fn push_register(text: &mut String, p: usize, r: Reg, values: &[u64]) -> Result<(), AllocError>
    ensures { OnOk result (string_bytes text.new ≡ string_bytes text.old ++ register_text p values.now r) }
{
    let value = number_at(values, r as usize);
    if value != 0 {
        write!(text, " {p}:{}={value}", r.name())?;
    }
    Ok(())
}

/// Appends the registers of processor `p` that are not 0. Their values are the first of these.
///
/// # Errors
///
/// Memory was refused. A part of the text may then be at the end.
pub fn push_registers(text: &mut String, p: usize, values: &[u64]) -> Result<(), AllocError>
    ensures { OnOk result (string_bytes text.new ≡ string_bytes text.old ++ registers_text p values.now) }
{
    for r in REGISTERS {
        push_register(text, p, r, values)?;
    }
    Ok(())
}

/// Appends words that have these names, each with its value.
fn push_line<T: Copy, W: Named<T>>(
    text: &mut String,
    names: &[Name],
    values: &[T],
) -> Result<(), AllocError>
    ensures { OnOk result (string_bytes text.new ≡ string_bytes text.old ++ named_texts W.text_of names.now values.now) }
{
    for (place, name) in names.iter().enumerate() {
        let Some(value) = values.get(place) else {
            return Ok(());
        };
        W::push(text, name.as_str(), *value)?;
    }
    Ok(())
}

/// Appends each word of a layout with its value. The values are in order of the words' numbers.
///
/// # Errors
///
/// Memory was refused. A part of the text may then be at the end.
pub fn push_named<T: Copy, W: Named<T>>(
    text: &mut String,
    layout: &Layout,
    values: &[T],
) -> Result<(), AllocError>
    ensures { OnOk result (string_bytes text.new ≡ string_bytes text.old ++ named_texts W.text_of (names_of layout.now) values.now) }
{
    let mut rest = values;
    for line in layout.lines() {
        push_line::<T, W>(text, line.names(), rest)?;
        rest = behind(rest, line.names().len());
    }
    Ok(())
}
