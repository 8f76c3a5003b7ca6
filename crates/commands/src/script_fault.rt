//! Why a text is no script.
ghost use Rattle.std.specs.Prelude.{Some};
ghost use Rattle.commands.specs.ScriptFaultTexts.{fault_text};

use images::CondFault;
use outcomes::Refusing;
use std::error::Error;
use std::fmt;

/// Why a text is no script, by the number that reports print.
#[derive(Clone, Copy, Debug, PartialEq, Eq)]
pub enum ScriptFault {
    /// S1: this line, counted from 1, is no line of a script, or cannot be where it is.
    BadLine(usize),
    /// E1 and E2: a fault of the condition of a stop.
    Condition(CondFault),
    /// G1: a stop, or a watch, of that id is above.
    DoubleId,
}

impl fmt::Display for ScriptFault {
    ghost output = { λ fault. Some (fault_text fault) };

    fn fmt<W: fmt::Write>(&self, f: &mut fmt::Formatter<W>) -> fmt::Result {
        match self {
            ScriptFault::BadLine(line) => write!(f, "S1 BadLine {line}"),
            ScriptFault::Condition(fault) => write!(f, "{fault}"),
            ScriptFault::DoubleId => write!(f, "G1 DoubleId"),
        }
    }
}

impl Error for ScriptFault {}

impl Refusing for ScriptFault {}
