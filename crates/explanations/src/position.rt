//! Where the fault of a program's text is, in numbers.
use crate::sheet_faults::{line_of, sheet_place};
use commands::{Fault, Refused};
use line_forms::{Place, fault_place};
use litmus_text::TextFault;
use sheets::is_sheet;
use std::alloc::{AllocError, Global};

/// Where the fault of a program's text is.
#[derive(Clone, Copy, Debug, PartialEq, Eq)]
pub struct Position {
    /// The line, counted from 1.
    pub line: usize,
    /// The first byte of it that has the fault, counted from 1.
    pub column: usize,
    /// How many bytes have it: none where something is missing, and all of the line where its place is not known.
    pub length: usize,
}

impl Position {
    /// A place of a line.
    fn at(line: usize, place: Place) -> Position {
        Position {
            line,
            column: place.from.saturating_add(1),
            length: place.to.saturating_sub(place.from),
        }
    }
}

/// Where the fault of a text is; none of another fault.
///
/// # Errors
///
/// Out of memory.
pub(crate) fn position_of(
    alloc: Global,
    program: &[u8],
    fault: Fault,
) -> Result<Option<Position>, AllocError> {
    let Fault::Refused(Refused::Text(TextFault::At(kind, number))) = fault else {
        return Ok(None);
    };
    let place = if is_sheet(program) {
        sheet_place(alloc, program, kind, number)?
    } else {
        Some(fault_place(program, number, kind))
    };
    let whole = Place {
        from: 0,
        to: line_of(program, number).len(),
    };
    Ok(Some(Position::at(number, place.unwrap_or(whole))))
}
