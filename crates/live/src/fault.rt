//! Why a machine is not closed.
ghost use Rattle.std.specs.Prelude.{Some};
ghost use Rattle.live.specs.FaultTexts.{close_refusal_text};

use crate::journal::Receipt;
use std::error::Error;
use std::fmt;

/// Why a machine is not closed, by the number that reports print.
#[derive(Clone, Copy, Debug, PartialEq, Eq)]
pub enum CloseRefusal {
    /// V2: the first receipt that is not in the journal, and the entry of its number in the form
    /// of a receipt, if the journal is that long.
    Stranger(Receipt, Option<Receipt>),
    /// V3: a seat is missing.
    MissingSeat,
}

impl fmt::Display for CloseRefusal {
    ghost output = { λ refusal. Some (close_refusal_text refusal) };

    fn fmt<W: fmt::Write>(&self, f: &mut fmt::Formatter<W>) -> fmt::Result {
        match self {
            CloseRefusal::Stranger(receipt, _) => write!(f, "V2 Stranger {}", receipt.number),
            CloseRefusal::MissingSeat => write!(f, "V3 MissingSeat"),
        }
    }
}

impl Error for CloseRefusal {}
