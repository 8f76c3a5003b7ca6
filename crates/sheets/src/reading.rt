//! Reading a sheet.
ghost use Rattle.std.specs.Prelude.{◌≡◌, IfOk};
ghost use Rattle.outcomes.specs.Calls.{Answers};
ghost use Rattle.outcomes.specs.Faults.{fault_in};
ghost use Rattle.text_tokens.specs.Text.{tokens_of};
ghost use Rattle.sheets.specs.Reading.{begins_sheet, is_sheet, object_told, sheet_read_of};
ghost use Rattle.sheets.specs.Sheets.{read_of};

use crate::items::Items;
use crate::names::Names;
use crate::said::Said;
use crate::sheet::Sheet;
use litmus_text::{LinedObject, TextFault, read_lined};
use outcomes::OrNoMemory;
use std::alloc::{AllocError, Global};
use text_tokens::{Lines, Tokens};

/// What a sheet says.
#[derive(Drop)]
pub struct SheetRead {
    /// The object, and the lines on which its instructions stand.
    pub lined: LinedObject,
    /// What its abbreviations stand for.
    pub names: Names,
    /// Its questions, as they stand.
    pub items: Items,
}

/// Whether the tokens of a line begin with `sheet`; none where it has no tokens.
fn begins_sheet(line: &[u8]) -> Option<bool>
    ensures { result ≡ begins_sheet (tokens_of line.now) }
{
    match Tokens::new(line).next() {
        Some(first) => Some(first == b"sheet".as_slice()),
        None => None,
    }
}

/// Whether a text is a sheet: its first line with tokens begins with `sheet`.
#[tactic(auto, using(crate::proofs::RowSteps::opening_steps))]
pub fn is_sheet(text: &[u8]) -> bool
    ensures { result ≡ is_sheet text.now }
{
    for line in Lines::new(text) {
        if let Some(begins) = begins_sheet(line) {
            return begins;
        }
    }
    false
}

/// What the litmus text of a sheet says, with the lines of the sheet.
fn told(alloc: Global, sheet: &Sheet, lined: LinedObject) -> Result<LinedObject, AllocError>
    ensures { IfOk result (λ told. told ≡ object_told sheet.now lined) }
{
    let lines = lined.lines.renumbered(alloc, sheet.lines())?;
    Ok(LinedObject {
        object: lined.object,
        lines,
    })
}

/// What a sheet says, but for its questions: these are kept as they stand.
///
/// # Errors
///
/// The fault of the lowest line that has one, where the lines of a block are read for one of its processors after another;
/// or that the text ends too soon; or else the first jump without its label; or that memory ran out.
pub fn read_sheet(alloc: Global, text: &[u8]) -> Result<SheetRead, OrNoMemory<TextFault>>
    ensures { Answers fault_in (sheet_read_of text.now) result }
{
    let mut sheet = Sheet::read(alloc, text)?;
    sheet.finish()?;
    match read_lined(alloc, sheet.text()) {
        Ok(lined) => {
            let lined = told(alloc, &sheet, lined)?;
            let (names, items) = sheet.into_names();
            Ok(SheetRead {
                lined,
                names,
                items,
            })
        }
        Err(OrNoMemory::Fault(fault)) => Err(OrNoMemory::Fault(sheet.fault_told(fault))),
        Err(OrNoMemory::NoMemory) => Err(OrNoMemory::NoMemory),
    }
}

/// The litmus text that a sheet says before a fault of its own, and of each of its lines the line of the sheet that says it.
///
/// # Errors
///
/// Out of memory.
pub fn said_by(alloc: Global, text: &[u8]) -> Result<Said, AllocError>
    ensures { IfOk result (λ said. said ≡ (read_of text.now).said) }
{
    Ok(Sheet::read(alloc, text)?.into_said())
}
