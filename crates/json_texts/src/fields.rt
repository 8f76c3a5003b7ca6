//! Objects that are being made, and the line of a report.
ghost use Rattle.std.specs.Prelude.{◌≡◌, [], ◌∷◌, IfOk, OnOk};
ghost use Rattle.serde_json.specs.View.{view as data_of};
ghost use Rattle.json_texts.specs.Objects.{header, line_text, num, or_null, word, GetsFields, HasFields, IsJsonOf, IsOfTree};

use serde_json::{Map, Value, put};
use std::alloc::{AllocError, Global};

/// The version of these reports.
pub const FORMAT: u64 = 1;

/// What ends the line of a report.
const LINE_FEED: u8 = b'\n';

/// The named values of an object.
pub type Fields = Map<String, Value>;

/// Puts a number into an object.
///
/// # Errors
///
/// Out of memory.
pub fn put_number(
    fields: &mut Fields,
    alloc: Global,
    name: &str,
    number: u64,
) -> Result<(), AllocError>
    ensures { OnOk result (GetsFields fields.old.entries fields.new.entries
        ((name.now, num number) ∷ [])) }
{
    put(fields, alloc, name, Value::from(number))
}

/// Puts a text into an object.
///
/// # Errors
///
/// Out of memory.
pub fn put_text(
    fields: &mut Fields,
    alloc: Global,
    name: &str,
    text: &str,
) -> Result<(), AllocError>
    ensures { OnOk result (GetsFields fields.old.entries fields.new.entries
        ((name.now, word text.now) ∷ [])) }
{
    let value = Value::try_from_str(alloc, text)?;
    put(fields, alloc, name, value)
}

/// A number, or nothing.
pub fn number_or_null(number: Option<u64>) -> Value
    ensures { IsJsonOf (or_null num number) result }
{
    match number {
        Some(number) => Value::from(number),
        None => Value::Null,
    }
}

/// What the object of a report begins with.
///
/// # Errors
///
/// Out of memory.
pub fn report_fields(alloc: Global, command: &str) -> Result<Fields, AllocError>
    ensures { IfOk result (λ fields. HasFields fields.entries (header command.now)) }
{
    let mut fields = Fields::new(alloc);
    put_number(&mut fields, alloc, "format", FORMAT)?;
    put_text(&mut fields, alloc, "command", command)?;
    Ok(fields)
}

/// The text of a report: the value on one line.
///
/// # Errors
///
/// Out of memory.
#[tactic(auto, using(crate::proofs::NoFloats::has_none))]
pub(crate) fn report_bytes(alloc: Global, value: &Value) -> Result<Vec<u8>, AllocError>
    requires { IsOfTree value.now }
    ensures { IfOk result (λ bytes. bytes.items ≡ line_text (data_of value.now)) }
{
    let mut bytes = value.to_vec(alloc)?;
    bytes.push(LINE_FEED)?;
    Ok(bytes)
}
