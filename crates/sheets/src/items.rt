//! The questions of a sheet, as they stand.
ghost use Rattle.std.specs.Prelude.{◌≡◌, ◌++◌, IfOk, OnOk, codes};
ghost use Rattle.text_tokens.specs.Text.{tokens_of};
ghost use Rattle.sheets.specs.Sheets.{begins_item, no_items};

use std::alloc::{AllocError, Global};
use std::marker::Model;
use text_tokens::Tokens;

/// The lines from the first question on, as they stand.
#[derive(Drop)]
pub struct Items {
    /// The number of the first of them, counted from 1.
    pub first: usize,
    /// The lines, each with its line feed.
    pub rows: Vec<u8>,
}

impl Model for Items {
    ghost use Rattle.sheets.specs.Sheets.{Items};

    ghost Value = { Items };

    ghost view = { λ i. record { first = i.first; rows = i.rows.items } };
}

impl Items {
    /// No questions. It takes no memory.
    pub(crate) fn none(alloc: Global) -> Items
        ensures { result ≡ no_items }
    {
        Items {
            first: 1,
            rows: Vec::new(alloc),
        }
    }

    /// One more line.
    pub(crate) fn add(&mut self, line: &[u8]) -> Result<(), AllocError>
        ensures { OnOk result (self.new ≡ record self.old { rows = self.old.rows ++ line.now ++ codes "\n" }) }
    {
        self.rows.extend_from_slice(line)?;
        self.rows.extend_from_slice(b"\n")
    }
}

/// Whether a line begins a question, or a name for a condition or a value.
pub(crate) fn begins_item(line: &[u8]) -> bool
    ensures { result ≡ begins_item (tokens_of line.now) }
{
    match Tokens::new(line).next() {
        Some(first) => {
            first == b"let".as_slice()
                || first == b"every".as_slice()
                || first == b"some".as_slice()
        }
        None => false,
    }
}
