//! Why a line asks nothing.
ghost use Rattle.std.specs.Prelude.{Some};
ghost use Rattle.conversations.specs.LineFaults.{line_fault_text};

use images::CondFault;
use std::fmt;

/// Why a line asks nothing, by the number that reports print.
#[derive(Clone, Copy, Debug, PartialEq, Eq)]
pub enum LineFault {
    /// S1: it is no line of a script, and none that a conversation has beside these.
    BadLine,
    /// E1 and E2: it is a stop, and this is wrong with its condition.
    Condition(CondFault),
}

impl fmt::Display for LineFault {
    ghost output = { λ fault. Some (line_fault_text fault) };

    fn fmt<W: fmt::Write>(&self, f: &mut fmt::Formatter<W>) -> fmt::Result {
        match self {
            LineFault::BadLine => write!(f, "S1 BadLine"),
            LineFault::Condition(fault) => write!(f, "{fault}"),
        }
    }
}
