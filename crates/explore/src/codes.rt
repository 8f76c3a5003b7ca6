//! Numbers as bytes.
ghost use Rattle.std.specs.Prelude.{◌≡◌, ◌≤◌, ◌++◌, OnOk};
ghost use Rattle.explore.specs.Codes.{code_of, coded};

use std::alloc::AllocError;

/// Appends the bytes of a number that takes eight and one before them.
#[tactic(auto, unfolding(crate::specs::Codes::code_of))]
fn push_eight(bytes: &mut Vec<u8>, number: u64) -> Result<(), AllocError>
    requires { 65536 ≤ number }
    ensures { OnOk result (bytes.new.items ≡ bytes.old.items ++ code_of number) }
{
    let above_first = number / 256;
    let above_second = above_first / 256;
    let above_third = above_second / 256;
    let above_fourth = above_third / 256;
    let above_fifth = above_fourth / 256;
    let above_sixth = above_fifth / 256;
    bytes.extend_from_slice(&[
        255,
        (number % 256) as u8,
        (above_first % 256) as u8,
        (above_second % 256) as u8,
        (above_third % 256) as u8,
        (above_fourth % 256) as u8,
        (above_fifth % 256) as u8,
        (above_sixth % 256) as u8,
        (above_sixth / 256) as u8,
    ])
}

/// Appends the bytes of a number.
#[tactic(auto, unfolding(crate::specs::Codes::code_of))]
pub(crate) fn push_number(bytes: &mut Vec<u8>, number: u64) -> Result<(), AllocError>
    ensures { OnOk result (bytes.new.items ≡ bytes.old.items ++ code_of number) }
{
    if number < 254 && bytes.len() < bytes.capacity() {
        // Mostly it is so, and that is quick.
        bytes.push_reserved(number as u8);
        return Ok(());
    }
    push_slowly(bytes, number)
}

/// Appends the bytes of a number, for which there may be no room yet.
#[tactic(auto, unfolding(crate::specs::Codes::code_of))]
fn push_slowly(bytes: &mut Vec<u8>, number: u64) -> Result<(), AllocError>
    ensures { OnOk result (bytes.new.items ≡ bytes.old.items ++ code_of number) }
{
    if number < 254 {
        bytes.push(number as u8)?;
        return Ok(());
    }
    if number < 65536 {
        return bytes.extend_from_slice(&[254, (number % 256) as u8, (number / 256) as u8]);
    }
    push_eight(bytes, number)
}

/// Appends the bytes of each number.
#[tactic(auto, using(crate::proofs::CodesTell::coded_append))]
pub(crate) fn push_numbers(bytes: &mut Vec<u8>, numbers: &[u64]) -> Result<(), AllocError>
    ensures { OnOk result (bytes.new.items ≡ bytes.old.items ++ coded numbers.now) }
{
    for number in numbers {
        push_number(bytes, *number)?;
    }
    Ok(())
}
