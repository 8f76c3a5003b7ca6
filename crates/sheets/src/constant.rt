//! The constants of a sheet.
ghost use Rattle.std.specs.Prelude.{◌≡◌, ◌++◌, ◌∷◌, [], None, OnOk};
ghost use Rattle.std.specs.List.{list_all};
ghost use Rattle.sheets.specs.Abbreviations.{begins_constant, is_constant, is_constant_byte, value_of};

use indexmap::IndexMap;
use std::alloc::{AllocError, Global};
use std::marker::Model;

/// How many bytes the name of a constant may have.
const CONSTANT_LENGTH: usize = 16;

/// The constants of a sheet, each with its value.
#[derive(Drop)]
pub struct Constants {
    values: IndexMap<Vec<u8>, u64>,
}

impl Model for Constants {
    ghost use Rattle.std.specs.Prelude.{ℕ, List, map};

    ghost Value = { List (List ℕ × ℕ) };

    ghost view = { λ c. map (λ e. (e.0.items, e.1)) c.values.entries };
}

impl Constants {
    /// No constants. It takes no memory.
    pub fn new(alloc: Global) -> Constants
        ensures { result ≡ [] }
    {
        Constants {
            values: IndexMap::new(alloc),
        }
    }

    /// The value of a constant, if it is there.
    pub fn value(&self, token: &[u8]) -> Option<u64>
        ensures { result ≡ value_of self.now token.now }
    {
        self.values.get(token).copied()
    }

    /// One more constant.
    pub fn add(&mut self, token: &[u8], value: u64) -> Result<(), AllocError>
        requires { value_of self.old token.now ≡ None }
        ensures { OnOk result (self.new ≡ self.old ++ (token.now, value) ∷ []) }
    {
        let alloc = *self.values.allocator();
        self.values.insert(token.to_vec(alloc)?, value)?;
        Ok(())
    }
}

/// Whether the token is meant as a constant: it begins with an upper case letter.
pub fn begins_constant(token: &[u8]) -> bool
    ensures { result ≡ begins_constant token.now }
{
    match token {
        [] => false,
        [first, ..] => first.is_ascii_uppercase(),
    }
}

/// Whether the token is spelled as a constant.
pub fn is_constant(token: &[u8]) -> bool
    ensures { result ≡ is_constant token.now }
{
    begins_constant(token) && token.len() <= CONSTANT_LENGTH && has_constant_bytes(token)
}

/// Whether each byte may be in a constant.
fn has_constant_bytes(token: &[u8]) -> bool
    ensures { result ≡ list_all is_constant_byte token.now }
{
    token.iter().all(|byte| is_constant_byte(*byte))
}

/// Whether a byte may be in a constant.
fn is_constant_byte(byte: u8) -> bool
    ensures { result ≡ is_constant_byte byte }
{
    byte.is_ascii_uppercase() || byte.is_ascii_digit() || byte == b'_'
}
