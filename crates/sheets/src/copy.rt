//! Tokens of a copy, in which `$` is the number of the copy.
ghost use Rattle.std.specs.Prelude.{◌≡◌, ◌++◌, IfOk, OnOk, decimal};
ghost use Rattle.sheets.specs.Abbreviations.{byte_in_copy, in_copy, numbered_copy};

use std::alloc::{AllocError, Global};

/// Appends a number in decimal.
pub fn push_decimal(text: &mut Vec<u8>, number: u64) -> Result<(), AllocError>
    ensures { OnOk result (text.new.items ≡ text.old.items ++ decimal number) }
{
    text.extend_from_slice(itoa::Buffer::new().format(number).as_bytes())
}

/// Appends a byte as it is in copy `number`.
fn push_in_copy(text: &mut Vec<u8>, number: usize, byte: u8) -> Result<(), AllocError>
    ensures { OnOk result (text.new.items ≡ text.old.items ++ byte_in_copy number byte) }
{
    if byte == b'$' {
        push_decimal(text, number as u64)
    } else {
        text.extend_from_slice(&[byte])
    }
}

/// The token as it is in copy `number`.
fn numbered(alloc: Global, number: usize, token: &[u8]) -> Result<Vec<u8>, AllocError>
    ensures { IfOk result (λ v. v.items ≡ in_copy (Some number) token.now) }
{
    let mut text = Vec::with_capacity(alloc, token.len())?;
    for byte in token {
        push_in_copy(&mut text, number, *byte)?;
    }
    Ok(text)
}

/// The token as it is in the copy of this number, if it is in one.
pub fn in_copy(alloc: Global, copy: Option<usize>, token: &[u8]) -> Result<Vec<u8>, AllocError>
    ensures { IfOk result (λ v. v.items ≡ in_copy copy token.now) }
{
    match copy {
        Some(number) => numbered(alloc, number, token),
        None => token.to_vec(alloc),
    }
}

/// The number that `$` is in the copy of this number, if there are copies.
pub fn numbered_copy(count: Option<usize>, number: usize) -> Option<usize>
    ensures { result ≡ numbered_copy count number }
{
    match count {
        Some(_) => Some(number),
        None => None,
    }
}
